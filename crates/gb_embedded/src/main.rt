//! Builds a folder in memory twice, and prints the results.
//!
//! An example for programs that embed builds: it names `gb_build`, `gb_kinds` and the crate of
//! their macros alone.
//!
//! Proved: that the program never panics, and that it ends if its system calls end.
//!
//! It makes a list of three events: a script is written, and its task is built twice.
//! `run_from_nothing` executes them in a new folder, and each answer is printed. The second build
//! finds the task up to date.
//!
//! Out of scope: kinds of its own (`gb_upper`), and a folder on a disk (`gb_here`).
#![tactic(auto)]

use gb_answer::answer::{not_built_text, refusal_text};
use gb_answer::{builtin_actions, builtin_functions};
use gb_build::{
    ActionTable, Answer, Bytes, Event, Fault, Place, Recorder, Tables, read_words, render,
    run_from_nothing,
};
use gb_kinds::builtin::{Builtin, StoredAction};
use gb_kinds::function_table::FunctionTable;
use std::alloc::{AllocError, Global};
use std::io::{self, Write};
use std::process::ExitCode;

/// A task that writes a file.
const SCRIPT: &[u8] = b"register hi : writeText(\"hi\") { outputFile out = file(\"build/a\") }";

fn main(rt: HostRuntime) -> ExitCode {
    ExitCode::from(built(&rt).unwrap_or(1))
}

/// Takes the events, or prints why there are none.
fn built(rt: &HostRuntime) -> Result<u8, AllocError> {
    match events(rt.alloc()) {
        Ok(events) => built_of(rt, events.as_slice()),
        Err(fault) => refused(rt, &fault),
    }
}

/// Takes the events with all actions.
fn built_of(rt: &HostRuntime, events: &[Event]) -> Result<u8, AllocError> {
    built_with(rt, builtin_actions!(rt.alloc()), events)
}

/// Takes the events with these actions and all functions of values.
fn built_with(
    rt: &HostRuntime,
    actions: ActionTable<StoredAction>,
    events: &[Event],
) -> Result<u8, AllocError> {
    let transforms: FunctionTable = builtin_functions!(rt.alloc());
    let tables = Tables {
        actions,
        transforms,
    };
    let alloc = rt.alloc();
    let mut listeners: Vec<Recorder> = Vec::new(alloc);
    let (_, answers) = run_from_nothing::<Builtin, Builtin, Recorder>(
        alloc,
        &tables,
        events,
        &mut listeners,
    )?;
    printed(rt, &answers)
}

/// Prints why there are no events.
fn refused(rt: &HostRuntime, fault: &Fault) -> Result<u8, AllocError> {
    let text = not_built_text(rt.alloc(), fault)?;
    let _ = io::writer(rt).write_all(text.as_slice());
    Ok(1)
}

/// The events: a script is stored and built twice.
fn events(alloc: Global) -> Result<Vec<Event>, Fault> {
    // It is a place, so only memory may lack.
    let Ok(place) = Place::read(alloc, "build.gb") else {
        return Err(Fault::OutOfMemory);
    };
    let mut events = Vec::new(alloc);
    events.push(Event::Put(place, Bytes::from_slice(alloc, SCRIPT)?))?;
    for _ in 0..2 {
        let mut words = Vec::new(alloc);
        words.push(String::from_str(alloc, "hi")?)?;
        events.push(Event::Invoke(read_words(alloc, words)?))?;
    }
    Ok(events)
}

/// Prints the answer of each event. The status is 1 if an edit or a build was refused, if a task
/// failed, or if nothing can be printed.
fn printed(rt: &HostRuntime, answers: &[Answer]) -> Result<u8, AllocError> {
    let mut status = 0;
    for answer in answers {
        let text = text_of(rt.alloc(), answer)?;
        let is_printed = io::writer(rt).write_all(text.as_slice()).is_ok();
        if !is_printed || !is_good(answer) {
            status = 1;
        }
    }
    Ok(status)
}

/// What is printed of an answer.
fn text_of(alloc: Global, answer: &Answer) -> Result<Vec<u8>, AllocError> {
    match answer {
        Answer::Edited => Ok(Vec::new(alloc)),
        Answer::Refused(fault) => refusal_text(alloc, fault),
        Answer::Built(report) => render(alloc, report),
        Answer::NotBuilt(fault) => not_built_text(alloc, fault),
    }
}

/// Whether the event did what was asked.
fn is_good(answer: &Answer) -> bool {
    match answer {
        Answer::Edited => true,
        Answer::Built(report) => report.is_successful(),
        Answer::Refused(_) | Answer::NotBuilt(_) => false,
    }
}
