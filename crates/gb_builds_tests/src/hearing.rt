//! The notifications of listeners in builds of two tasks, over a device that fails and with a
//! listener that refuses.
use crate::building::{
    Step, are_held, go_on, is_reported, is_reported_of, reported_beside, reported_of,
};
use crate::listening::{Refusing, heard_by_each, heard_text};
use crate::offering::offered;
use gb_action::actions::Actions;
use gb_exec::listener::{Recorder, TaskListener};
use gb_folder::faulty::{FaultMode, FaultyFolder};
use gb_folder::folder::Folder;
use gb_folder::memory::MemoryFolder;
use gb_kinds::builtin::Builtin;
use gb_provider::transforms::Transforms;
use gb_registry::tables::Tables;
use std::alloc::Global;
use std::test::Fail;

/// Two tasks that write a text each.
const SCRIPT: &str = "register a : writeText(\"A\") { outputFile out = file(\"build/x\") }
register b : writeText(\"B\") { outputFile out = file(\"build/y\") }";

const SCRIPTED: [Step<'static>; 1] = [("put build.gb", SCRIPT, "")];

const EXECUTED: &str = "> Task :a\n> Task :b\nBUILD SUCCESSFUL\n2 actionable tasks: 2 executed\n";

const REFUSED: &str = "> Task :a\n> Task :b\nFAILED listener: 91 listener refused\nBUILD FAILED\n\
     2 actionable tasks: 2 executed\n";

const UP_TO_DATE: &str =
    "> Task :a UP-TO-DATE\n> Task :b UP-TO-DATE\nBUILD SUCCESSFUL\n2 actionable tasks: 2 up-to-date\n";

const HEARD: &str = "start :a\nexecuted :a\nstart :b\nexecuted :b\n";

/// A folder with the script alone.
fn scripted<A: Actions, T: Transforms>(
    alloc: Global,
    tables: &Tables<A, T>,
) -> Result<MemoryFolder, Fail> {
    let mut folder = MemoryFolder::new(alloc);
    go_on(alloc, &mut folder, tables, &SCRIPTED)?;
    Ok(folder)
}

/// The result of a build, and whether its listener was notified that the first task was executed.
fn reported_and_heard<A: Actions, T: Transforms, F: Folder>(
    alloc: Global,
    folder: &mut F,
    tables: &Tables<A, T>,
) -> Result<(String, bool), Fail> {
    let mut listeners = vec![in alloc; Recorder::new(alloc)]?;
    let text = reported_beside(alloc, folder, tables, "run a b", &mut listeners)?;
    let heard = heard_by_last(alloc, listeners.as_slice())?;
    Ok((text, heard.contains("executed :a\n")))
}

/// Fails if the first task is built again although a listener was notified that it was executed.
fn is_kept<A: Actions, T: Transforms>(
    alloc: Global,
    folder: &mut MemoryFolder,
    tables: &Tables<A, T>,
    is_heard: bool,
) -> Result<(), Fail> {
    let again = reported_of(alloc, folder, tables, "run a b")?;
    if !is_heard || again.starts_with("> Task :a UP-TO-DATE\n") {
        Ok(())
    } else {
        Err(Fail::new(again.as_str()))
    }
}

/// The result of a build whose device stops at a call, and whether its listener was notified that
/// the first task was executed. Fails if the listener was notified, and the next build does not
/// find that task up to date.
fn stopped<A: Actions, T: Transforms>(
    alloc: Global,
    tables: &Tables<A, T>,
    at: u64,
) -> Result<(String, bool), Fail> {
    let mut faulty = FaultyFolder::new(scripted(alloc, tables)?, at, FaultMode::Stop);
    let reported = reported_and_heard(alloc, &mut faulty, tables)?;
    is_kept(alloc, &mut faulty.into_inner(), tables, reported.1)?;
    Ok(reported)
}

fn heard_by_last<L: TaskListener>(alloc: Global, listeners: &[L]) -> Result<String, Fail> {
    match listeners.last() {
        Some(listener) => heard_text(alloc, listener.heard()),
        None => Err(Fail::new("no listener")),
    }
}

/// Stops a build at each of its calls, and returns how many of the stops come after the end of its
/// first task.
fn all_stops<A: Actions, T: Transforms>(alloc: Global, tables: &Tables<A, T>) -> Result<u64, Fail> {
    let mut following = 0u64;
    for at in 1..200u64 {
        let (text, is_heard) = stopped(alloc, tables, at)?;
        if text.as_str() == EXECUTED {
            return Ok(following);
        }
        if is_heard {
            following = following.saturating_add(1);
        }
    }
    Err(Fail::new("the build does not end"))
}

/// Fails if no stop comes after the end of the first task.
fn has_stops_after<A: Actions, T: Transforms>(
    alloc: Global,
    tables: &Tables<A, T>,
) -> Result<(), Fail> {
    if all_stops(alloc, tables)? > 0 {
        Ok(())
    } else {
        Err(Fail::new("no stop behind the end of a task"))
    }
}

#[test]
fn what_was_heard_is_so_after_a_stop(rt: HostRuntime) -> Result<(), Fail> {
    let alloc = rt.alloc();
    let (actions, transforms) = offered(alloc)?;
    let tables = Tables::<Builtin, Builtin> {
        actions,
        transforms,
    };
    has_stops_after::<Builtin, Builtin>(alloc, &tables)
}

/// Fails if a listener that refuses a call changes more of a build than its success.
fn refused<A: Actions, T: Transforms>(
    alloc: Global,
    tables: &Tables<A, T>,
    at: u64,
    expected: &str,
) -> Result<(), Fail> {
    let mut folder = scripted(alloc, tables)?;
    is_heard(alloc, &mut folder, tables, at, expected)?;
    are_held(alloc, &mut folder, "build", "build/x=A build/y=B")?;
    is_reported_of(alloc, &mut folder, tables, "run a b", UP_TO_DATE)
}

/// Fails if a build with a listener that refuses a call prints something else, or if another
/// listener after it gets other notifications.
fn is_heard<A: Actions, T: Transforms>(
    alloc: Global,
    folder: &mut MemoryFolder,
    tables: &Tables<A, T>,
    at: u64,
    expected: &str,
) -> Result<(), Fail> {
    let mut listeners = vec![in alloc; Refusing::new(alloc, at), Refusing::new(alloc, 0)]?;
    builds_alike(alloc, folder, tables, &mut listeners, expected)?;
    is_reported(HEARD, heard_by_last(alloc, listeners.as_slice())?.as_str())
}

/// Fails if a build with these listeners prints something else.
fn builds_alike<A: Actions, T: Transforms, L: TaskListener>(
    alloc: Global,
    folder: &mut MemoryFolder,
    tables: &Tables<A, T>,
    listeners: &mut Vec<L>,
    expected: &str,
) -> Result<(), Fail> {
    let text = reported_beside(alloc, folder, tables, "run a b", listeners)?;
    is_reported(expected, text.as_str())
}

/// Refuses each of the four calls, and then none.
fn all_refusals<A: Actions, T: Transforms>(
    alloc: Global,
    tables: &Tables<A, T>,
) -> Result<(), Fail> {
    for at in 1..5u64 {
        refused(alloc, tables, at, REFUSED)?;
    }
    refused(alloc, tables, 5, EXECUTED)
}

#[test]
fn one_that_refuses_changes_only_the_success(rt: HostRuntime) -> Result<(), Fail> {
    let alloc = rt.alloc();
    let (actions, transforms) = offered(alloc)?;
    let tables = Tables::<Builtin, Builtin> {
        actions,
        transforms,
    };
    all_refusals::<Builtin, Builtin>(alloc, &tables)
}

/// A task that fails because a file blocks its output, and its finalizer.
const FINALIZED: [Step<'static>; 2] = [
    (
        "put build.gb",
        "register bad : writeText(\"A\") { outputFile out = file(\"build/x/y\") finalizedBy \"fin\" }
register fin : writeText(\"F\") { outputFile out = file(\"build/z\") }",
        "",
    ),
    ("put build/x", "in the way", ""),
];

const FAILED_AND_REFUSED: &str =
    "> Task :bad FAILED\n> Task :fin\nFAILED :bad: 12 blocked build/x/y\n\
FAILED listener: 91 listener refused\nBUILD FAILED\n2 actionable tasks: 2 executed\n";

/// The notifications of that build if nothing is refused.
const CALLS: [&str; 4] = [
    "start :bad\n",
    "failed :bad\n",
    "start :fin\n",
    "executed :fin\n",
];

/// All calls except the one with this number, counted from 1.
fn calls_without(alloc: Global, at: usize) -> Result<String, Fail> {
    let mut out = String::new(alloc);
    for (before, call) in CALLS.iter().enumerate() {
        if before + 1 != at {
            out.push_str(*call)?;
        }
    }
    Ok(out)
}

/// The notifications of the first and the last listener, and between them those of the listener
/// that refused a call.
fn heard_between(alloc: Global, at: usize) -> Result<String, Fail> {
    let all = calls_without(alloc, 0)?;
    let missing = calls_without(alloc, at)?;
    let mut out = String::new(alloc);
    for text in [all.as_str(), missing.as_str(), all.as_str()] {
        out.push_str(text)?;
        out.push_str("|")?;
    }
    Ok(out)
}

/// Fails if a build with a listener that refuses this call, between two that refuse none, notifies
/// one of them of something else.
fn one_is_missed<A: Actions, T: Transforms>(
    alloc: Global,
    tables: &Tables<A, T>,
    at: u64,
) -> Result<(), Fail> {
    let mut folder = MemoryFolder::new(alloc);
    go_on(alloc, &mut folder, tables, &FINALIZED)?;
    let mut listeners = between(alloc, at)?;
    is_missed(alloc, &mut folder, tables, at, &mut listeners)
}

/// A listener that refuses this call, between two that refuse none.
fn between(alloc: Global, at: u64) -> Result<Vec<Box<dyn TaskListener>>, Fail> {
    let mut listeners = Vec::<Box<dyn TaskListener>>::new(alloc);
    listeners.push(Box::new(alloc, Recorder::new(alloc))?)?;
    listeners.push(Box::new(alloc, Refusing::new(alloc, at))?)?;
    listeners.push(Box::new(alloc, Recorder::new(alloc))?)?;
    Ok(listeners)
}

fn is_missed<A: Actions, T: Transforms, L: TaskListener>(
    alloc: Global,
    folder: &mut MemoryFolder,
    tables: &Tables<A, T>,
    at: u64,
    listeners: &mut Vec<L>,
) -> Result<(), Fail> {
    let text = reported_beside(alloc, folder, tables, "run bad", listeners)?;
    is_reported(FAILED_AND_REFUSED, text.as_str())?;
    is_reported(
        heard_between(alloc, at as usize)?.as_str(),
        heard_by_each(alloc, listeners.as_slice())?.as_str(),
    )
}

/// Refuses each of the four calls.
fn each_is_missed<A: Actions, T: Transforms>(
    alloc: Global,
    tables: &Tables<A, T>,
) -> Result<(), Fail> {
    for at in 1..5u64 {
        one_is_missed(alloc, tables, at)?;
    }
    Ok(())
}

#[test]
fn one_that_refuses_a_call_hears_all_else(rt: HostRuntime) -> Result<(), Fail> {
    let alloc = rt.alloc();
    let (actions, transforms) = offered(alloc)?;
    let tables = Tables::<Builtin, Builtin> {
        actions,
        transforms,
    };
    each_is_missed::<Builtin, Builtin>(alloc, &tables)
}
