//! The changes that builds request of a folder, read from its notes: a whole build, a dry one, a
//! refused one, some that are stopped, and one in whose folder somebody else writes before each
//! call.
use crate::building::{Step, go_on, reported_of};
use crate::disturbing::Disturbed;
use crate::offering::offered;
use gb_action::actions::Actions;
use gb_folder::faulty::{FaultMode, FaultyFolder};
use gb_folder::folder::Folder;
use gb_folder::memory::MemoryFolder;
use gb_folder::noted::{Note, NotedFolder};
use gb_kinds::builtin::Builtin;
use gb_provider::transforms::Transforms;
use gb_registry::tables::Tables;
use std::alloc::Global;
use std::test::Fail;

/// A task that copies files; two files are copied and one is not.
const STEPS: [Step<'static>; 6] = [
    (
        "put build.gb",
        "register cp : copyFiles { inputFiles src incremental from dir(\"src\") \
         outputDir out = dir(\"build/o\") }",
        "",
    ),
    ("put src/a", "A", ""),
    ("put src/b", "B", ""),
    (
        "run cp",
        "",
        "> Task :cp\nADDED a\nADDED b\nBUILD SUCCESSFUL\n1 actionable task: 1 executed\n",
    ),
    ("put src/c", "C", ""),
    ("del src/b", "", ""),
];

/// The folder after these steps.
fn stepped<A: Actions, T: Transforms>(
    alloc: Global,
    tables: &Tables<A, T>,
) -> Result<MemoryFolder, Fail> {
    let mut folder = MemoryFolder::new(alloc);
    go_on(alloc, &mut folder, tables, &STEPS)?;
    Ok(folder)
}

/// How many changes these arguments request in a folder. Fails if one is requested at a place other
/// than the output or the record.
fn changes<A: Actions, T: Transforms, F: Folder + Drop>(
    alloc: Global,
    folder: F,
    tables: &Tables<A, T>,
    words: &str,
) -> Result<usize, Fail> {
    let mut noted = NotedFolder::new(alloc, folder);
    let _reported = reported_of(alloc, &mut noted, tables, words)?;
    are_of_task(noted.notes())?;
    Ok(noted.notes().len())
}

fn are_of_task(notes: &[Note]) -> Result<(), Fail> {
    for note in notes {
        let place = note.place.as_str();
        if place != ".gb/tasks/cp.record" && !place.starts_with("build/o/") {
            return Err(Fail::new(place));
        }
    }
    Ok(())
}

/// Fails if these arguments request another number of changes after the steps.
fn are_changes<A: Actions, T: Transforms>(
    alloc: Global,
    tables: &Tables<A, T>,
    words: &str,
    wanted: usize,
) -> Result<(), Fail> {
    if changes(alloc, stepped(alloc, tables)?, tables, words)? == wanted {
        Ok(())
    } else {
        Err(Fail::new("another count of changes"))
    }
}

/// Stops the build at each of its calls.
fn all_stopped<A: Actions, T: Transforms>(
    alloc: Global,
    tables: &Tables<A, T>,
) -> Result<(), Fail> {
    for at in 1..40u64 {
        let folder = FaultyFolder::new(stepped(alloc, tables)?, at, FaultMode::Stop);
        changes(alloc, folder, tables, "run cp")?;
    }
    Ok(())
}

/// Builds in a folder in which somebody else writes before each call.
fn disturbed<A: Actions, T: Transforms>(alloc: Global, tables: &Tables<A, T>) -> Result<(), Fail> {
    let disturbed = Disturbed::new(alloc, stepped(alloc, tables)?, "src/a")?;
    changes(alloc, disturbed, tables, "run cp")?;
    Ok(())
}

/// A whole build deletes the record, removes a file, writes one, and stores the record. A dry and a
/// refused build request no changes.
fn ask_for_their_own<A: Actions, T: Transforms>(
    alloc: Global,
    tables: &Tables<A, T>,
) -> Result<(), Fail> {
    are_changes(alloc, tables, "run cp", 4)?;
    are_changes(alloc, tables, "run cp --dry-run", 0)?;
    are_changes(alloc, tables, "run other", 0)?;
    all_stopped(alloc, tables)?;
    disturbed(alloc, tables)
}

#[test]
fn builds_ask_for_their_own_alone(rt: HostRuntime) -> Result<(), Fail> {
    let (actions, transforms) = offered(rt.alloc())?;
    let tables = Tables::<Builtin, Builtin> {
        actions,
        transforms,
    };
    ask_for_their_own::<Builtin, Builtin>(rt.alloc(), &tables)
}
