//! Lists of all calls of builds with their answers: of a first build, of one after edits, of one
//! whose device fails, and of one in whose folder somebody else writes before each call.
ghost use Rattle.std.specs.Prelude.{IfOk};
ghost use Rattle.gb_logged.specs.Logged.{log};
ghost use Rattle.gb_registry.specs.Tables.{tables_of};
ghost use Rattle.gb_answers.specs.Scratch.{LeavesFromScratch};

use crate::building::{Step, go_on, is_reported, put_bytes, words_of};
use crate::disturbing::Disturbed;
use crate::offering::offered;
use gb_action::actions::Actions;
use gb_answers::logged_build::{LoggedBuild, invoke_logged};
use gb_arguments::arguments::read;
use gb_core::bytes::Bytes;
use gb_core::place::Place;
use gb_core::row::Row;
use gb_exec::listener::Recorder;
use gb_folder::faulty::{FaultMode, FaultyFolder};
use gb_folder::folder::{Folder, FolderFault};
use gb_folder::memory::MemoryFolder;
use gb_kinds::builtin::Builtin;
use gb_logged::logged::LoggedCall;
use gb_printer::printer::Silent;
use gb_provider::transforms::Transforms;
use gb_registry::tables::Tables;
use gb_report::fault::Fault;
use gb_report::render::{render, render_fault};
use gb_report::report::Report;
use gb_semantics::events::Invocation;
use std::alloc::Global;
use std::test::Fail;

/// A task that copies files.
const SCRIPT: &str = "register cp : copyFiles { inputFiles src incremental from dir(\"src\") \
     outputDir out = dir(\"build/o\") }";

/// Settings and script are read, then the record. The inputs are listed and read, each once, and
/// the outputs are listed. The outputs are listed once more, to be emptied. Then each file is
/// written with the bytes that were read, and at last the record.
const FIRST: &str = "read settings.gb: missing
read build.gb: 101 bytes
read .gb/tasks/cp.record: missing
list src: src/a src/b src/c
read src/a: A
read src/b: B
read src/c: C
list build/o:
list build/o:
write build/o/a A: done
write build/o/b B: done
write build/o/c C: done
write .gb/tasks/cp.record 712 bytes: done
> Task :cp
ADDED a
ADDED b
ADDED c
BUILD SUCCESSFUL
1 actionable task: 1 executed
";

/// The first build, and the edits after it: one file stays, one is changed, one is removed and one
/// is added.
const EDITS: [Step<'static>; 4] = [
    (
        "run cp",
        "",
        "> Task :cp\nADDED a\nADDED b\nADDED c\nBUILD SUCCESSFUL\n1 actionable task: 1 executed\n",
    ),
    ("put src/b", "X", ""),
    ("del src/c", "", ""),
    ("put src/d", "D", ""),
];

/// The outputs are read too. The record is removed before the first change, and stored after the
/// last one. Only the changes are made: `build/o/a` is right.
const NEXT: &str = "read settings.gb: missing
read build.gb: 101 bytes
read .gb/tasks/cp.record: 712 bytes
list src: src/a src/b src/d
read src/a: A
read src/b: X
read src/d: D
list build/o: build/o/a build/o/b build/o/c
read build/o/a: A
read build/o/b: B
read build/o/c: C
remove .gb/tasks/cp.record: done
remove build/o/c: done
write build/o/b X: done
write build/o/d D: done
write .gb/tasks/cp.record 712 bytes: done
> Task :cp
MODIFIED b
REMOVED c
ADDED d
BUILD SUCCESSFUL
1 actionable task: 1 executed
";

/// The same build, whose device fails from its call 14 on: no call follows that one. No record is
/// left, so what is at the outputs by then is no premise of the next build.
const STOPPED: &str = "read settings.gb: missing
read build.gb: 101 bytes
read .gb/tasks/cp.record: 712 bytes
list src: src/a src/b src/d
read src/a: A
read src/b: X
read src/d: D
list build/o: build/o/a build/o/b build/o/c
read build/o/a: A
read build/o/b: B
read build/o/c: C
remove .gb/tasks/cp.record: done
remove build/o/c: done
write build/o/b X: device
> Task :cp FAILED
FAILED :cp: 10 device build/o/b
BUILD FAILED
1 actionable task: 1 executed
";

/// The first build, while `src/a` is another file at each call. It is read once, at the fifth call,
/// and the file that is made has just these bytes.
const DISTURBED: &str = "read settings.gb: missing
read build.gb: 101 bytes
read .gb/tasks/cp.record: missing
list src: src/a src/b src/c
read src/a: E
read src/b: B
read src/c: C
list build/o:
list build/o:
write build/o/a E: done
write build/o/b B: done
write build/o/c C: done
write .gb/tasks/cp.record 712 bytes: done
> Task :cp
ADDED a
ADDED b
ADDED c
BUILD SUCCESSFUL
1 actionable task: 1 executed
";

/// Bytes as a text, or their count if there are many.
fn shown(alloc: Global, bytes: &[u8]) -> Result<String, Fail> {
    if bytes.len() > 8 {
        return Ok(format!(in alloc; "{} bytes", bytes.len())?);
    }
    Ok(String::from_str(alloc, std::str::from_utf8(bytes)?)?)
}

/// These places, each after a blank.
fn joined(alloc: Global, places: &[Place]) -> Result<String, Fail> {
    let mut out = String::new(alloc);
    for place in places {
        out.push(' ')?;
        out.push_str(place.as_str())?;
    }
    Ok(out)
}

fn listing(
    alloc: Global,
    root: &Place,
    answer: &Result<Row<Place>, FolderFault>,
) -> Result<String, Fail> {
    match answer {
        Ok(places) => {
            let places = joined(alloc, places.as_slice())?;
            Ok(format!(in alloc; "list {root}:{places}\n")?)
        }
        Err(fault) => Ok(format!(in alloc; "list {root}: {fault}\n")?),
    }
}

fn reading(
    alloc: Global,
    verb: &str,
    place: &Place,
    answer: &Result<Bytes, FolderFault>,
) -> Result<String, Fail> {
    match answer {
        Ok(bytes) => {
            let text = shown(alloc, bytes.as_slice())?;
            Ok(format!(in alloc; "{verb} {place}: {text}\n")?)
        }
        Err(fault) => Ok(format!(in alloc; "{verb} {place}: {fault}\n")?),
    }
}

fn writing(
    alloc: Global,
    place: &Place,
    bytes: &[u8],
    answer: &Result<(), FolderFault>,
) -> Result<String, Fail> {
    let text = shown(alloc, bytes)?;
    match answer {
        Ok(()) => Ok(format!(in alloc; "write {place} {text}: done\n")?),
        Err(fault) => Ok(format!(in alloc; "write {place} {text}: {fault}\n")?),
    }
}

fn removing(
    alloc: Global,
    place: &Place,
    answer: &Result<(), FolderFault>,
) -> Result<String, Fail> {
    match answer {
        Ok(()) => Ok(format!(in alloc; "remove {place}: done\n")?),
        Err(fault) => Ok(format!(in alloc; "remove {place}: {fault}\n")?),
    }
}

/// A call and its answer, on a line; without its limit.
fn line_of(alloc: Global, call: &LoggedCall) -> Result<String, Fail> {
    match call {
        LoggedCall::Lists(root, answer) => listing(alloc, root, answer),
        LoggedCall::Reads(place, _, answer) => reading(alloc, "read", place, answer),
        LoggedCall::ReadsPart(place, _, _, answer) => reading(alloc, "part", place, answer),
        LoggedCall::Writes(place, bytes, _, answer) => {
            writing(alloc, place, bytes.as_slice(), answer)
        }
        LoggedCall::Removes(place, answer) => removing(alloc, place, answer),
    }
}

/// Appends the calls with their answers, a line for each.
fn push_calls(alloc: Global, out: &mut String, calls: &[LoggedCall]) -> Result<(), Fail> {
    for call in calls {
        let line = line_of(alloc, call)?;
        out.push_str(line.as_str())?;
    }
    Ok(())
}

/// What a build prints at its end.
fn printed(alloc: Global, answer: &Result<Report, Fault>) -> Result<Vec<u8>, Fail> {
    match answer {
        Ok(report) => Ok(render(alloc, report)?),
        Err(fault) => Ok(render_fault(alloc, fault)?),
    }
}

/// Appends it.
fn push_printed(
    alloc: Global,
    out: &mut String,
    answer: &Result<Report, Fault>,
) -> Result<(), Fail> {
    let bytes = printed(alloc, answer)?;
    Ok(out.push_str(std::str::from_utf8(bytes.as_slice())?)?)
}

/// Fails if the calls and answers of a build, or what it prints at its end, differ from these lines.
fn is_logged(
    alloc: Global,
    calls: &[LoggedCall],
    answer: &Result<Report, Fault>,
    expected: &str,
) -> Result<(), Fail> {
    let mut out = String::new(alloc);
    push_calls(alloc, &mut out, calls)?;
    push_printed(alloc, &mut out, answer)?;
    is_reported(expected, out.as_str())
}

fn put_sources(alloc: Global, folder: &mut MemoryFolder, text: &str) -> Result<(), Fail> {
    for (place, text) in [
        ("build.gb", SCRIPT),
        ("src/a", text),
        ("src/b", "B"),
        ("src/c", "C"),
    ] {
        put_bytes(alloc, folder, place, text.as_bytes())?;
    }
    Ok(())
}

/// A folder that was not built yet, with this text at `src/a`.
fn sources(alloc: Global, text: &str) -> Result<MemoryFolder, Fail> {
    let mut folder = MemoryFolder::new(alloc);
    put_sources(alloc, &mut folder, text)?;
    Ok(folder)
}

/// The folder after the first build and the edits.
fn edited<A: Actions, T: Transforms>(
    alloc: Global,
    tables: &Tables<A, T>,
) -> Result<MemoryFolder, Fail> {
    let mut folder = sources(alloc, "A")?;
    go_on(alloc, &mut folder, tables, &EDITS)?;
    Ok(folder)
}

fn built_in_memory<A: Actions, T: Transforms>(
    alloc: Global,
    folder: MemoryFolder,
    tables: &Tables<A, T>,
    asked: &Invocation,
) -> LoggedBuild<MemoryFolder> {
    let mut listeners: Vec<Recorder> = Vec::new(alloc);
    invoke_logged(alloc, folder, tables, asked, &mut listeners, &mut Silent)
}

/// Fails if the first build, with this text at `src/a`, makes other calls than listed.
fn is_first<A: Actions, T: Transforms>(
    alloc: Global,
    tables: &Tables<A, T>,
    asked: &Invocation,
    text: &str,
    expected: &str,
) -> Result<(), Fail> {
    let folder = sources(alloc, text)?;
    let build = built_in_memory(alloc, folder, tables, asked);
    let ended = is_logged(alloc, build.folder.calls(), &build.answer, expected);
    drop(build);
    ended
}

fn is_next<A: Actions, T: Transforms>(
    alloc: Global,
    tables: &Tables<A, T>,
    asked: &Invocation,
) -> Result<(), Fail> {
    let folder = edited(alloc, tables)?;
    let build = built_in_memory(alloc, folder, tables, asked);
    let ended = is_logged(alloc, build.folder.calls(), &build.answer, NEXT);
    drop(build);
    ended
}

fn built_stopped<A: Actions, T: Transforms>(
    alloc: Global,
    folder: FaultyFolder<MemoryFolder>,
    tables: &Tables<A, T>,
    asked: &Invocation,
) -> LoggedBuild<FaultyFolder<MemoryFolder>> {
    let mut listeners: Vec<Recorder> = Vec::new(alloc);
    invoke_logged(alloc, folder, tables, asked, &mut listeners, &mut Silent)
}

fn is_stopped<A: Actions, T: Transforms>(
    alloc: Global,
    tables: &Tables<A, T>,
    asked: &Invocation,
) -> Result<(), Fail> {
    let folder = FaultyFolder::new(edited(alloc, tables)?, 14, FaultMode::Stop);
    let build = built_stopped(alloc, folder, tables, asked);
    let ended = is_logged(alloc, build.folder.calls(), &build.answer, STOPPED);
    drop(build);
    ended
}

/// A build in a folder of which no contract says what it holds.
fn built<A: Actions, T: Transforms>(
    alloc: Global,
    folder: Disturbed,
    tables: &Tables<A, T>,
    asked: &Invocation,
) -> LoggedBuild<Disturbed>
    // The law on what a build left is of use for such a folder: take contents that answer its calls in
    // the same way and hold true records. If kinds agree, no two contents share a digest and no task
    // failed, there is a plan of what was asked for in them, and the calls leave in them what its
    // tasks make from scratch.
    ensures from_scratch { IfOk result.answer (λ report.
        LeavesFromScratch (tables_of T.meanings A.meanings tables.now)
        (⟦<Disturbed as Folder>⟧.device.may_leave folder) asked.now report (log result.folder)) }
{
    let mut listeners: Vec<Recorder> = Vec::new(alloc);
    invoke_logged(alloc, folder, tables, asked, &mut listeners, &mut Silent)
}

fn is_disturbed<A: Actions, T: Transforms>(
    alloc: Global,
    tables: &Tables<A, T>,
    asked: &Invocation,
) -> Result<(), Fail> {
    let folder = Disturbed::new(alloc, sources(alloc, "A")?, "src/a")?;
    let build = built(alloc, folder, tables, asked);
    let ended = is_logged(alloc, build.folder.calls(), &build.answer, DISTURBED);
    drop(build);
    ended
}

/// Fails if a build makes other calls than listed. The calls of the disturbed one are those of a
/// build that nobody disturbs, in a folder with `E` at `src/a`.
fn are_logged<A: Actions, T: Transforms>(
    alloc: Global,
    tables: &Tables<A, T>,
    asked: &Invocation,
) -> Result<(), Fail> {
    is_first(alloc, tables, asked, "A", FIRST)?;
    is_next(alloc, tables, asked)?;
    is_stopped(alloc, tables, asked)?;
    is_disturbed(alloc, tables, asked)?;
    is_first(alloc, tables, asked, "E", DISTURBED)
}

fn are_logged_of<A: Actions, T: Transforms>(
    alloc: Global,
    tables: &Tables<A, T>,
) -> Result<(), Fail> {
    let asked = read(alloc, words_of(alloc, "cp")?)?;
    let ended = are_logged(alloc, tables, &asked);
    drop(asked);
    ended
}

#[test]
fn builds_make_these_calls(rt: HostRuntime) -> Result<(), Fail> {
    let (actions, transforms) = offered(rt.alloc())?;
    let tables = Tables::<Builtin, Builtin> {
        actions,
        transforms,
    };
    are_logged_of::<Builtin, Builtin>(rt.alloc(), &tables)
}
