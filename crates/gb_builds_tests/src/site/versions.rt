//! The next version of a custom kind, in a table without built-in kinds.
ghost use Rattle.std.specs.Prelude.{◌≤◌};

use crate::site::steps::{Step, go_on};
use gb_action::actions::Actions;
use gb_action::table::ActionTable;
use gb_folder::memory::MemoryFolder;
use gb_kinds::builtin::Builtin;
use gb_kinds::function_table::FunctionTable;
use gb_pages::kinds::Markdown;
use gb_registry::tables::Tables;
use gb_with::beside::only;
use gb_with::by_file::ByFile;
use std::alloc::Global;
use std::test::Fail;

/// The one kind of this table.
type Kind = ByFile<Markdown>;

/// A table with the kind in this version, and no function of values.
fn offered(
    alloc: Global,
    version: u32,
) -> Result<(ActionTable<<Kind as Actions>::Stored>, FunctionTable), Fail>
    requires { 1 ≤ version }
{
    let actions = only::<Kind>(alloc, "markdown", version)?;
    Ok((actions, FunctionTable::new(alloc)))
}

const SITE: [Step<'static>; 2] = [
    Step::Put(
        "build.gb",
        b"register html : markdown { inputFiles src incremental from dir(\"pages\") \
            outputDir out = dir(\"build/o\") }",
    ),
    Step::Put("pages/a.md", b"# A\n"),
];

/// The task is executed in full, once.
const ONCE: [Step<'static>; 2] = [
    Step::Run(
        "html",
        1,
        "> Task :html\nADDED a.md\nBUILD SUCCESSFUL\n1 actionable task: 1 executed\n",
    ),
    Step::Run(
        "html",
        0,
        "> Task :html UP-TO-DATE\nBUILD SUCCESSFUL\n1 actionable task: 1 up-to-date\n",
    ),
];

/// Performs these steps with the kind in this version.
fn go_on_with(
    alloc: Global,
    folder: &mut MemoryFolder,
    version: u32,
    steps: &[Step<'_>],
) -> Result<(), Fail>
    requires { 1 ≤ version }
{
    let (actions, transforms) = offered(alloc, version)?;
    let tables = Tables::<Kind, Builtin> {
        actions,
        transforms,
    };
    go_on::<Kind, Builtin, MemoryFolder>(alloc, folder, &tables, steps)
}

#[test]
fn each_other_version_runs_once_more(rt: HostRuntime) -> Result<(), Fail> {
    let mut folder = MemoryFolder::new(rt.alloc());
    go_on_with(rt.alloc(), &mut folder, 1, &SITE)?;
    go_on_with(rt.alloc(), &mut folder, 1, &ONCE)?;
    go_on_with(rt.alloc(), &mut folder, 2, &ONCE)?;
    go_on_with(rt.alloc(), &mut folder, 1, &ONCE)
}
