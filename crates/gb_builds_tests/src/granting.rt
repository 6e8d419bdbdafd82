//! Events over a folder in memory that is empty at first.
use crate::building::{Step, are_held, are_reported, events};
use crate::offering::offered;
use gb_action::actions::Actions;
use gb_build::nothing::run_from_nothing;
use gb_exec::listener::Recorder;
use gb_folder::memory::MemoryFolder;
use gb_kinds::builtin::Builtin;
use gb_provider::transforms::Transforms;
use gb_registry::tables::Tables;
use gb_semantics::events::Answer;
use std::alloc::Global;
use std::test::Fail;

/// A task is built, and is then up to date.
const STEPS: [Step<'static>; 3] = [
    (
        "put build.gb",
        "register a : writeText(\"A\") { outputFile out = file(\"build/x\") }",
        "",
    ),
    (
        "run a",
        "",
        "> Task :a\nBUILD SUCCESSFUL\n1 actionable task: 1 executed\n",
    ),
    (
        "run a",
        "",
        "> Task :a UP-TO-DATE\nBUILD SUCCESSFUL\n1 actionable task: 1 up-to-date\n",
    ),
];

/// Fails if the steps from an empty folder have other results or leave other files.
fn runs_from_nothing<A: Actions, T: Transforms>(
    alloc: Global,
    tables: &Tables<A, T>,
) -> Result<(), Fail> {
    let events = events(alloc, &STEPS)?;
    let mut listeners: Vec<Recorder> = Vec::new(alloc);
    let (mut folder, answers) = run_from_nothing(alloc, tables, events.as_slice(), &mut listeners)?;
    is_run(alloc, &mut folder, answers.as_slice())
}

fn is_run(alloc: Global, folder: &mut MemoryFolder, answers: &[Answer]) -> Result<(), Fail> {
    are_reported(alloc, &STEPS, answers)?;
    are_held(alloc, folder, "build", "build/x=A")
}

#[test]
fn a_run_from_nothing_takes_the_events(rt: HostRuntime) -> Result<(), Fail> {
    let alloc = rt.alloc();
    let (actions, transforms) = offered(alloc)?;
    let tables = Tables::<Builtin, Builtin> {
        actions,
        transforms,
    };
    runs_from_nothing::<Builtin, Builtin>(alloc, &tables)
}
