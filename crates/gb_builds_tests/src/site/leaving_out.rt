//! An argument that a script may give or leave out: the name of the token of `template`.
use crate::site::offering::{Kinds, offered};
use crate::site::steps::{Step, exists, go_on};
use gb_action::actions::Actions;
use gb_folder::memory::MemoryFolder;
use gb_kinds::builtin::Builtin;
use gb_provider::transforms::Transforms;
use gb_registry::tables::Tables;
use std::alloc::Global;
use std::test::Fail;

const DONE: &str = "> Task :t\nBUILD SUCCESSFUL\n1 actionable task: 1 executed\n";

/// The argument is left out.
const LEFT_OUT: [Step<'static>; 4] = [
    Step::Put("pages/a.md", b"A"),
    Step::Put("layout.html", b"<p>{{page}}</p>\n"),
    Step::Put(
        "build.gb",
        b"register t : template { inputFiles src from dir(\"pages\") \
inputFiles layout from file(\"layout.html\") outputDir out = dir(\"build/t\") }",
    ),
    Step::Run("t", 1, DONE),
];

/// The default is then given explicitly: the task is executed because its action differs, and makes
/// the same.
const GIVEN: [Step<'static>; 2] = [
    Step::Put(
        "build.gb",
        b"register t : template(\"page\") { inputFiles src from dir(\"pages\") \
inputFiles layout from file(\"layout.html\") outputDir out = dir(\"build/t\") }",
    ),
    Step::Run("t", 1, DONE),
];

/// Another argument is given, and then one too many.
const OTHERS: [Step<'static>; 4] = [
    Step::Put(
        "build.gb",
        b"register t : template(\"text\") { inputFiles src from dir(\"pages\") \
inputFiles layout from file(\"layout.html\") outputDir out = dir(\"build/t\") }",
    ),
    Step::Run(
        "t",
        0,
        "> Task :t FAILED\nFAILED :t: 42 layout.html: no {{text}}\nBUILD FAILED\n\
1 actionable task: 1 executed\n",
    ),
    Step::Put(
        "build.gb",
        b"register t : template(\"page\", \"text\") { inputFiles src from dir(\"pages\") \
inputFiles layout from file(\"layout.html\") outputDir out = dir(\"build/t\") }",
    ),
    Step::Run(
        "t",
        0,
        "REFUSED 43 bad argument :t template\nBUILD FAILED\n",
    ),
];

/// Fails if the results or the files differ.
fn may_be_left_out<A: Actions, T: Transforms>(
    alloc: Global,
    tables: &Tables<A, T>,
) -> Result<(), Fail> {
    let mut folder = MemoryFolder::new(alloc);
    may_be_left_out_in(alloc, &mut folder, tables)
}

fn may_be_left_out_in<A: Actions, T: Transforms>(
    alloc: Global,
    folder: &mut MemoryFolder,
    tables: &Tables<A, T>,
) -> Result<(), Fail> {
    go_on(alloc, folder, tables, &LEFT_OUT)?;
    exists(alloc, folder, "build/t/a.html", "<p>A</p>\n")?;
    go_on(alloc, folder, tables, &GIVEN)?;
    exists(alloc, folder, "build/t/a.html", "<p>A</p>\n")?;
    go_on(alloc, folder, tables, &OTHERS)
}

#[test]
fn an_argument_may_be_left_out(rt: HostRuntime) -> Result<(), Fail> {
    let (actions, transforms) = offered(rt.alloc())?;
    let tables = Tables::<Kinds, Builtin> {
        actions,
        transforms,
    };
    may_be_left_out::<Kinds, Builtin>(rt.alloc(), &tables)
}
