//! Pages at paths of their own: the kind `htmlPages`.
use crate::site::offering::{Kinds, offered};
use crate::site::steps::{Step, exist, exists, go_on};
use gb_action::actions::Actions;
use gb_folder::memory::MemoryFolder;
use gb_kinds::builtin::Builtin;
use gb_provider::transforms::Transforms;
use gb_registry::tables::Tables;
use std::alloc::Global;
use std::test::Fail;

/// A task of pages, and two pages.
const PAGES: [Step<'static>; 4] = [
    Step::Put(
        "build.gb",
        b"register pages : htmlPages { inputFiles src incremental from dir(\"pages\") \
outputDir out = dir(\"build/p\") }",
    ),
    Step::Put("pages/a.md", b"# A\n"),
    Step::Put("pages/d/b.markdown", b"# B\n"),
    Step::Run("pages", 1, DONE),
];

const DONE: &str = "> Task :pages\nBUILD SUCCESSFUL\n1 actionable task: 1 executed\n";

/// Two pages with one output path, and the resulting failure; then one of them is removed.
const MET: [Step<'static>; 4] = [
    Step::Put("pages/d/b.md", b"# B\n"),
    Step::Run(
        "pages",
        0,
        "> Task :pages FAILED\nFAILED :pages: 42 d/b.markdown and d/b.md: both at d/b.html\nBUILD FAILED\n\
1 actionable task: 1 executed\n",
    ),
    Step::Delete("pages/d/b.markdown"),
    Step::Run("pages", 1, DONE),
];

/// A file that is not a page, and a page that is removed.
const OTHERS: [Step<'static>; 6] = [
    Step::Put("pages/notes.txt", b"N\n"),
    Step::Run(
        "pages",
        0,
        "> Task :pages FAILED\nFAILED :pages: 42 notes.txt: no path of its own\nBUILD FAILED\n\
1 actionable task: 1 executed\n",
    ),
    Step::Delete("pages/notes.txt"),
    Step::Delete("pages/a.md"),
    Step::Run("pages", 1, DONE),
    Step::Run(
        "pages",
        0,
        "> Task :pages UP-TO-DATE\nBUILD SUCCESSFUL\n1 actionable task: 1 up-to-date\n",
    ),
];

/// Fails if the results or the files differ.
fn are_renamed<A: Actions, T: Transforms>(
    alloc: Global,
    tables: &Tables<A, T>,
) -> Result<(), Fail> {
    let mut folder = MemoryFolder::new(alloc);
    are_renamed_in(alloc, &mut folder, tables)
}

fn are_renamed_in<A: Actions, T: Transforms>(
    alloc: Global,
    folder: &mut MemoryFolder,
    tables: &Tables<A, T>,
) -> Result<(), Fail> {
    go_on(alloc, folder, tables, &PAGES)?;
    exist(
        alloc,
        folder,
        "build/p",
        "build/p/a.html\nbuild/p/d/b.html\n",
    )?;
    exists(alloc, folder, "build/p/a.html", "<h1 id=\"a\">A</h1>\n")?;
    go_on(alloc, folder, tables, &MET)?;
    go_on(alloc, folder, tables, &OTHERS)?;
    exist(alloc, folder, "build/p", "build/p/d/b.html\n")
}

#[test]
fn two_pages_of_one_name_are_reported(rt: HostRuntime) -> Result<(), Fail> {
    let (actions, transforms) = offered(rt.alloc())?;
    let tables = Tables::<Kinds, Builtin> {
        actions,
        transforms,
    };
    are_renamed::<Kinds, Builtin>(rt.alloc(), &tables)
}
