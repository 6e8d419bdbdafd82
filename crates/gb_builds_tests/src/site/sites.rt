//! A site is built, edited and built again.
use crate::site::offering::{Kinds, offered};
use crate::site::steps::{Step, exist, exists, go_on};
use gb_action::actions::Actions;
use gb_folder::memory::MemoryFolder;
use gb_kinds::builtin::Builtin;
use gb_provider::transforms::Transforms;
use gb_registry::tables::Tables;
use std::alloc::Global;
use std::test::Fail;

/// The script of the site.
pub const SCRIPT: &[u8] = b"
register html : markdown {
    doFirst checkPages
    inputFiles src incremental from dir(\"pages\")
    outputDir out = dir(\"build/html\")
}
register laidOut : template {
    inputFiles src incremental from task(\"html\").flatMap(output(\"out\"))
    inputFiles layout from file(\"layout.html\")
    outputDir out = dir(\"build/laid-out\")
}
register all : index(\"All\") {
    inputFiles src incremental from dir(\"pages\")
    outputDir out = dir(\"build/all\")
}
register site : copyFiles {
    inputFiles src incremental from task(\"laidOut\").flatMap(output(\"out\")), \
    task(\"all\").flatMap(output(\"out\"))
    outputDir out = dir(\"build/site\")
}
";

/// The script, a layout and two pages.
pub const PAGES: [Step<'static>; 4] = [
    Step::Put("build.gb", SCRIPT),
    Step::Put("layout.html", b"<body>{{page}}</body>\n"),
    Step::Put("pages/a.md", b"# A\n1 < 2\n"),
    Step::Put("pages/b.md", b"# B\n"),
];

/// The output of its first build.
pub const FIRST: &str =
    "> Task :all\n> Task :html\nADDED a.md\nADDED b.md\n> Task :laidOut\n> Task :site\n\
ADDED a.html\nADDED b.html\nADDED index.html\nBUILD SUCCESSFUL\n4 actionable tasks: 4 executed\n";

/// The output if there is nothing to do.
pub const IDLE: &str =
    "> Task :all UP-TO-DATE\n> Task :html UP-TO-DATE\n> Task :laidOut UP-TO-DATE\n\
> Task :site UP-TO-DATE\nBUILD SUCCESSFUL\n4 actionable tasks: 4 up-to-date\n";

/// It is built, and then there is nothing to do.
const BUILDS: [Step<'static>; 2] = [Step::Run("site", 4, FIRST), Step::Run("site", 0, IDLE)];

/// One page is edited: it alone is made again from its text, and copied.
const EDIT: [Step<'static>; 3] = [
    Step::Put("pages/b.md", b"# B\n*new*\n"),
    Step::Run(
        "site",
        4,
        "> Task :all\n> Task :html\nMODIFIED b.md\n> Task :laidOut\n> Task :site\nMODIFIED b.html\n\
BUILD SUCCESSFUL\n4 actionable tasks: 4 executed\n",
    ),
    Step::Run("site", 0, IDLE),
];

/// One page is removed.
const REMOVAL: [Step<'static>; 3] = [
    Step::Delete("pages/a.md"),
    Step::Run(
        "site",
        4,
        "> Task :all\n> Task :html\nREMOVED a.md\n> Task :laidOut\n> Task :site\nREMOVED a.html\n\
MODIFIED index.html\nBUILD SUCCESSFUL\n4 actionable tasks: 4 executed\n",
    ),
    Step::Run("site", 0, IDLE),
];

/// A folder in memory with the site.
pub fn written<A: Actions, T: Transforms>(
    alloc: Global,
    tables: &Tables<A, T>,
) -> Result<MemoryFolder, Fail> {
    let mut folder = MemoryFolder::new(alloc);
    go_on(alloc, &mut folder, tables, &PAGES)?;
    Ok(folder)
}

/// Fails if the pages of the first build differ.
fn is_first<A: Actions, T: Transforms>(
    alloc: Global,
    folder: &mut MemoryFolder,
    tables: &Tables<A, T>,
) -> Result<(), Fail> {
    go_on(alloc, folder, tables, &BUILDS)?;
    exists(
        alloc,
        folder,
        "build/site/a.html",
        "<body><h1 id=\"a\">A</h1>\n<p>1 &lt; 2</p>\n</body>\n",
    )?;
    exists(
        alloc,
        folder,
        "build/site/index.html",
        "<h1>All</h1>\n<ul>\n<li><a href=\"a.html\">A</a></li>\n<li><a href=\"b.html\">B</a></li>\n</ul>\n",
    )
}

/// Fails if an edit has another result, or a removed page stays.
fn follows<A: Actions, T: Transforms>(
    alloc: Global,
    folder: &mut MemoryFolder,
    tables: &Tables<A, T>,
) -> Result<(), Fail> {
    go_on(alloc, folder, tables, &EDIT)?;
    exists(
        alloc,
        folder,
        "build/site/b.html",
        "<body><h1 id=\"b\">B</h1>\n<p><em>new</em></p>\n</body>\n",
    )?;
    go_on(alloc, folder, tables, &REMOVAL)?;
    exist(
        alloc,
        folder,
        "build/site",
        "build/site/b.html\nbuild/site/index.html\n",
    )
}

/// Fails where a site does not follow its pages.
fn is_followed<A: Actions, T: Transforms>(
    alloc: Global,
    tables: &Tables<A, T>,
) -> Result<(), Fail> {
    let mut folder = written(alloc, tables)?;
    is_first(alloc, &mut folder, tables)?;
    follows(alloc, &mut folder, tables)
}

#[test]
fn a_site_follows_its_pages(rt: HostRuntime) -> Result<(), Fail> {
    let (actions, transforms) = offered(rt.alloc())?;
    let tables = Tables::<Kinds, Builtin> {
        actions,
        transforms,
    };
    is_followed::<Kinds, Builtin>(rt.alloc(), &tables)
}
