//! Sites that cannot be built: each fault is reported with its number, and no half-written output
//! counts as valid.
use crate::site::offering::{Kinds, offered};
use crate::site::sites::{FIRST, IDLE, written};
use crate::site::steps::{Step, go_on};
use gb_action::actions::Actions;
use gb_folder::memory::MemoryFolder;
use gb_kinds::builtin::Builtin;
use gb_provider::transforms::Transforms;
use gb_registry::tables::Tables;
use std::alloc::Global;
use std::test::Fail;

const NOT_TEXT: &str =
    "> Task :all\n> Task :html FAILED\nFAILED :html: 42 b.md:2: not UTF-8\nBUILD FAILED\n\
2 actionable tasks: 2 executed\n";

const NO_HEADING: &str =
    "> Task :all\n> Task :html FAILED\nFAILED :html: 42 b.md:1: no heading\nBUILD FAILED\n\
2 actionable tasks: 2 executed\n";

/// The build after a fault of the first build: the repaired page is made with all others.
const MENDED: &str =
    "> Task :all\n> Task :html\nADDED a.md\nADDED b.md\n> Task :laidOut\n> Task :site\n\
ADDED a.html\nADDED b.html\nADDED index.html\nBUILD SUCCESSFUL\n4 actionable tasks: 4 executed\n";

/// A page that is not text, one without a heading, and both repaired.
const BAD_PAGES: [Step<'static>; 7] = [
    Step::Put("pages/b.md", b"# B\n\xff\n"),
    Step::Run("site", 1, NOT_TEXT),
    Step::Put("pages/b.md", b"B\n"),
    Step::Run("site", 1, NO_HEADING),
    Step::Put("pages/b.md", b"# B\n"),
    Step::Run("site", 4, MENDED),
    Step::Run("site", 0, IDLE),
];

/// A page that becomes invalid after a successful build, and is then restored.
const GONE_BAD: [Step<'static>; 5] = [
    Step::Run("site", 4, FIRST),
    Step::Put("pages/b.md", b"# B\n\xff\n"),
    Step::Run("site", 1, NOT_TEXT),
    Step::Put("pages/b.md", b"# B\n"),
    Step::Run(
        "html",
        1,
        "> Task :html\nADDED a.md\nADDED b.md\nBUILD SUCCESSFUL\n1 actionable task: 1 executed\n",
    ),
];

/// A layout without a place for pages, and no layout.
const LAYOUTS: [Step<'static>; 4] = [
    Step::Put("layout.html", b"<body></body>\n"),
    Step::Run(
        "laidOut",
        1,
        "> Task :html\nADDED a.md\nADDED b.md\n> Task :laidOut FAILED\n\
FAILED :laidOut: 42 layout.html: no {{page}}\nBUILD FAILED\n2 actionable tasks: 2 executed\n",
    ),
    Step::Delete("layout.html"),
    Step::Run(
        "laidOut",
        0,
        "> Task :html UP-TO-DATE\n> Task :laidOut FAILED\nFAILED :laidOut: 42 no layout\nBUILD FAILED\n\
2 actionable tasks: 1 executed, 1 up-to-date\n",
    ),
];

/// Two pages with one output name: one that is written, and the one that links to all.
const TWO_OF_ONE_NAME: [Step<'static>; 2] = [
    Step::Put("pages/index.md", b"# I\n"),
    Step::Run(
        "site",
        3,
        "> Task :all\n> Task :html\nADDED a.md\nADDED b.md\nADDED index.md\n> Task :laidOut\n\
> Task :site FAILED\nFAILED :site: 71 duplicate input src index.html\nBUILD FAILED\n\
4 actionable tasks: 4 executed\n",
    ),
];

/// Fails if these steps after those of the site have other results.
fn are_reported<A: Actions, T: Transforms>(
    alloc: Global,
    tables: &Tables<A, T>,
    steps: &[Step<'_>],
) -> Result<(), Fail> {
    let mut folder = written(alloc, tables)?;
    go_on(alloc, &mut folder, tables, steps)
}

fn both_are_reported<A: Actions, T: Transforms>(
    alloc: Global,
    tables: &Tables<A, T>,
    first: &[Step<'_>],
    second: &[Step<'_>],
) -> Result<(), Fail> {
    are_reported(alloc, tables, first)?;
    are_reported(alloc, tables, second)
}

#[test]
fn a_bad_page_is_reported_with_its_line(rt: HostRuntime) -> Result<(), Fail> {
    let (actions, transforms) = offered(rt.alloc())?;
    let tables = Tables::<Kinds, Builtin> {
        actions,
        transforms,
    };
    both_are_reported::<Kinds, Builtin>(rt.alloc(), &tables, &BAD_PAGES, &GONE_BAD)
}

#[test]
fn a_bad_layout_and_a_name_that_is_taken_are_reported(rt: HostRuntime) -> Result<(), Fail> {
    let (actions, transforms) = offered(rt.alloc())?;
    let tables = Tables::<Kinds, Builtin> {
        actions,
        transforms,
    };
    both_are_reported::<Kinds, Builtin>(rt.alloc(), &tables, &LAYOUTS, &TWO_OF_ONE_NAME)
}
