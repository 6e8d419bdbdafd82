//! Builds over a device that fails at one of their calls, and the builds after them.
use crate::building::{Step, are_held, bytes_at, go_on, held, is_reported_of, reported_of};
use crate::offering::offered;
use gb_action::actions::Actions;
use gb_folder::faulty::{FaultMode, FaultyFolder};
use gb_folder::memory::MemoryFolder;
use gb_kinds::builtin::Builtin;
use gb_provider::transforms::Transforms;
use gb_registry::tables::Tables;
use std::alloc::Global;
use std::test::Fail;

/// A task that copies files, if there are any.
const SCRIPT: &str =
    "register cp : copyFiles { inputFiles src incremental skipWhenEmpty from dir(\"src\") \
     outputDir out = dir(\"build/o\") }";

/// The first build, of three files.
const FIRST: [Step<'static>; 5] = [
    ("put build.gb", SCRIPT, ""),
    ("put src/a", "A", ""),
    ("put src/b", "B", ""),
    ("put src/c", "C", ""),
    (
        "run cp",
        "",
        "> Task :cp\nADDED a\nADDED b\nADDED c\nBUILD SUCCESSFUL\n1 actionable task: 1 executed\n",
    ),
];

/// One file is changed, one is removed and one is added.
const CHANGES: [Step<'static>; 3] = [
    ("put src/a", "X", ""),
    ("del src/b", "", ""),
    ("put src/d", "D", ""),
];

const REMOVALS: [Step<'static>; 3] = [
    ("del src/a", "", ""),
    ("del src/b", "", ""),
    ("del src/c", "", ""),
];

const CHANGED: &str =
    "> Task :cp\nMODIFIED a\nREMOVED b\nADDED d\nBUILD SUCCESSFUL\n1 actionable task: 1 executed\n";

const UP_TO_DATE: &str =
    "> Task :cp UP-TO-DATE\nBUILD SUCCESSFUL\n1 actionable task: 1 up-to-date\n";

const NO_SOURCE: &str = "> Task :cp NO-SOURCE\nBUILD SUCCESSFUL\n";

/// A trial, and its expected results.
#[derive(Drop)]
struct Trial<'a> {
    /// The edits between the first build and the one whose device fails.
    edits: &'a [Step<'a>],
    /// The output of that build if none of its calls fails.
    reported: &'a str,
    /// How the output of the build after it begins.
    next: &'a str,
    /// The output of each later build.
    later: &'a str,
    /// The input files that remain after the edits.
    sources: &'a str,
    /// The files that are made from them.
    outputs: &'a str,
    /// The output files that no build changes.
    kept: &'a str,
}

/// The trial of a build that changes its outputs.
fn of_changes() -> Trial<'static> {
    Trial {
        edits: &CHANGES,
        reported: CHANGED,
        next: "> Task :cp",
        later: UP_TO_DATE,
        sources: "src/a=X src/c=C src/d=D",
        outputs: "build/o/a=X build/o/c=C build/o/d=D",
        kept: "build/o/c=C",
    }
}

/// The trial of a build without input files.
fn of_removals() -> Trial<'static> {
    Trial {
        edits: &REMOVALS,
        reported: NO_SOURCE,
        next: NO_SOURCE,
        later: NO_SOURCE,
        sources: "",
        outputs: "",
        kept: "",
    }
}

/// A folder after the first build.
fn first<A: Actions, T: Transforms>(
    alloc: Global,
    tables: &Tables<A, T>,
) -> Result<MemoryFolder, Fail> {
    let mut folder = MemoryFolder::new(alloc);
    go_on(alloc, &mut folder, tables, &FIRST)?;
    Ok(folder)
}

/// A folder after the first build and the edits of a trial.
fn edited<A: Actions, T: Transforms>(
    alloc: Global,
    tables: &Tables<A, T>,
    trial: &Trial<'_>,
) -> Result<MemoryFolder, Fail> {
    let mut folder = first(alloc, tables)?;
    go_on(alloc, &mut folder, tables, trial.edits)?;
    Ok(folder)
}

/// The text of the record that the first build leaves.
fn record<A: Actions, T: Transforms>(
    alloc: Global,
    tables: &Tables<A, T>,
) -> Result<Vec<u8>, Fail> {
    let mut folder = first(alloc, tables)?;
    bytes_at(alloc, &mut folder, ".gb/tasks/cp.record")
}

/// How a device fails: once, from then on, or from then on with a write that leaves the first bytes
/// of a text.
fn mode(alloc: Global, kind: u64, text: &[u8]) -> Result<FaultMode, Fail> {
    match kind {
        0 => Ok(FaultMode::FailOnce),
        1 => Ok(FaultMode::Stop),
        2 => Ok(FaultMode::StopTorn(b"{".to_vec(alloc)?)),
        3 => Ok(FaultMode::StopTorn(Vec::new(alloc))),
        _ => Ok(FaultMode::StopTorn(text[..text.len() / 2].to_vec(alloc)?)),
    }
}

/// Fails if a stopped build has changed something that is not its own.
fn is_spared(alloc: Global, folder: &mut MemoryFolder, trial: &Trial<'_>) -> Result<(), Fail> {
    are_held(alloc, folder, "src", trial.sources)?;
    let outputs = held(alloc, folder, "build/o")?;
    if outputs.as_str().contains(trial.kept) {
        Ok(())
    } else {
        Err(Fail::new(outputs.as_str()))
    }
}

/// Fails if the next build does not succeed as expected.
fn succeeds<A: Actions, T: Transforms>(
    alloc: Global,
    folder: &mut MemoryFolder,
    tables: &Tables<A, T>,
    trial: &Trial<'_>,
) -> Result<(), Fail> {
    let text = reported_of(alloc, folder, tables, "run cp")?;
    is_success(text.as_str(), trial)?;
    are_held(alloc, folder, "build/o", trial.outputs)
}

/// Fails if the output of a build may not follow a stopped one.
fn is_success(text: &str, trial: &Trial<'_>) -> Result<(), Fail> {
    if text.starts_with(trial.next) && text.contains("\nBUILD SUCCESSFUL\n") {
        Ok(())
    } else {
        Err(Fail::new(text))
    }
}

/// Fails if the builds after a stopped one do not repair its results.
fn recovers<A: Actions, T: Transforms>(
    alloc: Global,
    folder: &mut MemoryFolder,
    tables: &Tables<A, T>,
    trial: &Trial<'_>,
) -> Result<(), Fail> {
    is_spared(alloc, folder, trial)?;
    succeeds(alloc, folder, tables, trial)?;
    is_reported_of(alloc, folder, tables, "run cp", trial.later)?;
    are_held(alloc, folder, "src", trial.sources)?;
    are_held(alloc, folder, "build/o", trial.outputs)
}

/// The result of a build whose device fails at a call, after later builds have repaired its
/// results.
fn stopped<A: Actions, T: Transforms>(
    alloc: Global,
    tables: &Tables<A, T>,
    trial: &Trial<'_>,
    at: u64,
    mode: FaultMode,
) -> Result<String, Fail> {
    let folder = edited(alloc, tables, trial)?;
    let mut faulty = FaultyFolder::new(folder, at, mode);
    let text = reported_of(alloc, &mut faulty, tables, "run cp")?;
    recovers(alloc, &mut faulty.into_inner(), tables, trial)?;
    Ok(text)
}

/// Fails if a text reports something other than a failure of the device.
fn blames(text: &str) -> Result<(), Fail> {
    let is_refused = text.starts_with("10 ");
    let is_failed = text.contains("\nFAILED :cp: 10 ") || text.contains("\nFAILED :cp: 90 ");
    if is_refused || is_failed {
        Ok(())
    } else {
        Err(Fail::new(text))
    }
}

/// Stops a build at each of its calls, and returns the number of the first call that it does not
/// make.
fn calls<A: Actions, T: Transforms>(
    alloc: Global,
    tables: &Tables<A, T>,
    trial: &Trial<'_>,
    kind: u64,
    torn: &[u8],
) -> Result<u64, Fail> {
    for at in 1..200u64 {
        let mode = mode(alloc, kind, torn)?;
        let text = stopped(alloc, tables, trial, at, mode)?;
        if text.as_str() == trial.reported {
            return Ok(at);
        }
        blames(text.as_str())?;
    }
    Err(Fail::new("the build does not end"))
}

/// Stops a build at each of its calls in each of these ways, and fails if one of them goes
/// unnoticed.
fn all_stops<A: Actions, T: Transforms>(
    alloc: Global,
    tables: &Tables<A, T>,
    trial: &Trial<'_>,
    kinds: &[u64],
) -> Result<(), Fail> {
    let torn = record(alloc, tables)?;
    stops_alike(alloc, tables, trial, kinds, torn.as_slice())
}

fn stops_alike<A: Actions, T: Transforms>(
    alloc: Global,
    tables: &Tables<A, T>,
    trial: &Trial<'_>,
    kinds: &[u64],
    torn: &[u8],
) -> Result<(), Fail> {
    let count = calls(alloc, tables, trial, 1, torn)?;
    for kind in kinds {
        if calls(alloc, tables, trial, *kind, torn)? != count {
            return Err(Fail::new("another count of calls"));
        }
    }
    Ok(())
}

#[test]
fn a_build_makes_up_for_a_stopped_one(rt: HostRuntime) -> Result<(), Fail> {
    let alloc = rt.alloc();
    let (actions, transforms) = offered(alloc)?;
    let tables = Tables::<Builtin, Builtin> {
        actions,
        transforms,
    };
    all_stops::<Builtin, Builtin>(alloc, &tables, &of_changes(), &[0, 2, 3, 4])
}

#[test]
fn what_was_made_of_no_source_is_taken_away(rt: HostRuntime) -> Result<(), Fail> {
    let alloc = rt.alloc();
    let (actions, transforms) = offered(alloc)?;
    let tables = Tables::<Builtin, Builtin> {
        actions,
        transforms,
    };
    all_stops::<Builtin, Builtin>(alloc, &tables, &of_removals(), &[2])
}
