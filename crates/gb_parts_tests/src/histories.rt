//! The results of histories, and what is read from texts.
ghost use Rattle.std.specs.Prelude.{◌<◌, length};

use crate::record_texts::{
    BOTH, BOTH_FIRST, NO_HISTORIES, NO_RECORDS, NONE, NONE_FIRST, STORED, STORED_FIRST, THREE,
};
use crate::sample::record;
use crate::steps::is_answered;
use gb_core::path::TaskPath;
use gb_history::fault::RecordFault;
use gb_history::history::History;
use gb_history::record_text::{read_record, record_text};
use std::alloc::{AllocError, Global};
use std::test::Fail;

/// Stores the record of a task that wrote, or of one that has nothing.
fn put(alloc: Global, history: &mut History, word: &str, path: &str) -> Result<(), Fail> {
    let path = TaskPath::read(alloc, path)?;
    Ok(history.put(path, record(alloc, word)?)?)
}

/// Forgets a task, or writes a history to text and reads it back.
fn turn(
    alloc: Global,
    history: &mut History,
    task: &TaskPath,
    word: &str,
) -> Result<(), RecordFault> {
    match word {
        "forget" => history.forget(task),
        _ => *history = history.through_text(alloc)?,
    }
    Ok(())
}

/// Performs a step: a word of [`turn`], or a word of [`record`] and the path of a task.
fn take_step(
    alloc: Global,
    history: &mut History,
    task: &TaskPath,
    step: &str,
) -> Result<(), Fail> {
    match step.split_once(' ') {
        Some((word, path)) => put(alloc, history, word, path),
        None => Ok(turn(alloc, history, task, step)?),
    }
}

/// A new history after these steps.
fn history(alloc: Global, task: &TaskPath, steps: &[&str]) -> Result<History, Fail> {
    let mut history = History::new(alloc);
    for step in steps {
        take_step(alloc, &mut history, task, step)?;
    }
    Ok(history)
}

/// The text of a history, or of the last record of a task, or `none`.
fn answer(
    alloc: Global,
    history: &History,
    task: &TaskPath,
    question: &str,
) -> Result<Vec<u8>, AllocError> {
    if question == "text" {
        return history.text(alloc);
    }
    match history.last(task) {
        Some(run) => record_text(alloc, task, run),
        None => b"none".to_vec(alloc),
    }
}

/// The steps on a new history, the query after them, and its result.
type Row = (&'static [&'static str], &'static str, &'static str);

const HISTORIES: [Row; 11] = [
    (&[], "text", NONE),
    (&["wrote :gen"], "text", STORED),
    (&["wrote :gen", "rests :lib:gen"], "text", BOTH),
    (&["wrote :lib:gen", "rests :b", "rests :a"], "text", THREE),
    // It is written to text and read back, and has the same contents.
    (&["through"], "text", NONE),
    (&["wrote :gen", "through"], "text", STORED),
    (&["wrote :gen", "rests :lib:gen", "through"], "text", BOTH),
    (
        &["wrote :lib:gen", "rests :b", "rests :a", "through"],
        "text",
        THREE,
    ),
    // A record is kept until it is forgotten.
    (&[], "last", "none"),
    (&["wrote :gen"], "last", STORED),
    (&["wrote :gen", "forget"], "last", "none"),
];

fn hold(alloc: Global, task: &TaskPath, row: &Row) -> Result<(), Fail> {
    let (steps, question, wanted) = row;
    let history = history(alloc, task, steps)?;
    is_answered(wanted, answer(alloc, &history, task, question)?.as_slice())
}

#[test]
fn histories_answer(rt: HostRuntime) -> Result<(), Fail> {
    let task = TaskPath::read(rt.alloc(), ":gen")?;
    for row in &HISTORIES {
        hold(rt.alloc(), &task, row)?;
    }
    Ok(())
}

/// The history that is read from a text, written again.
fn history_again(alloc: Global, bytes: &[u8]) -> Result<Vec<u8>, RecordFault> {
    Ok(History::read(alloc, bytes)?.text(alloc)?)
}

/// The record of a task that is read from a text, written again. An invalid path of a task counts
/// as lack of memory.
fn record_again(alloc: Global, task: &str, bytes: &[u8]) -> Result<Vec<u8>, RecordFault> {
    let Ok(task) = TaskPath::read(alloc, task) else {
        return Err(RecordFault::OutOfMemory);
    };
    let run = read_record(alloc, &task, bytes)?;
    Ok(record_text(alloc, &task, &run)?)
}

/// Fails if something else is read from the text of a task, or from that of a history, which is
/// `*`.
fn is_read_as(alloc: Global, whose: &str, bytes: &[u8], wanted: &str) -> Result<(), Fail> {
    let again = if whose == "*" {
        history_again(alloc, bytes)
    } else {
        record_again(alloc, whose, bytes)
    };
    match again {
        Ok(text) => is_answered(wanted, text.as_slice()),
        Err(RecordFault::NotARecord) => is_answered(wanted, b"refused"),
        Err(fault) => Err(Fail::new(fault)),
    }
}

/// The owner of a text, the text, and the result of reading it and writing it again.
const READ: [(&str, &str, &str); 9] = [
    (":gen", STORED, STORED),
    (":gen", STORED_FIRST, STORED),
    ("*", NONE, NONE),
    ("*", NONE_FIRST, NONE),
    ("*", STORED, STORED),
    ("*", BOTH, BOTH),
    ("*", BOTH_FIRST, BOTH),
    ("*", THREE, THREE),
    // A valid record of another task is not a record of this task.
    (":other", STORED, "refused"),
];

#[test]
fn either_edition_is_read(rt: HostRuntime) -> Result<(), Fail> {
    for (whose, text, wanted) in &READ {
        is_read_as(rt.alloc(), whose, text.as_bytes(), wanted)?;
    }
    Ok(())
}

fn are_refused(alloc: Global, whose: &str, texts: &[&str]) -> Result<(), Fail> {
    for text in texts {
        is_read_as(alloc, whose, text.as_bytes(), "refused")?;
    }
    Ok(())
}

#[test]
fn other_texts_are_refused(rt: HostRuntime) -> Result<(), Fail> {
    are_refused(rt.alloc(), ":gen", &NO_RECORDS)?;
    are_refused(rt.alloc(), "*", &NO_HISTORIES)
}

/// Fails if a text is read after the byte at this place is raised by one.
fn raised_is_refused(alloc: Global, whose: &str, text: &[u8], at: usize) -> Result<(), Fail>
    requires { at < length text.now }
{
    let mut raised = text.to_vec(alloc)?;
    raised[at] = text[at].wrapping_add(1);
    is_read_as(alloc, whose, raised.as_slice(), "refused")
}

/// Fails if a proper prefix of a text is read, or the text with one byte raised by one.
fn damaged_are_refused(alloc: Global, whose: &str, text: &[u8]) -> Result<(), Fail> {
    for at in 0..text.len() {
        is_read_as(alloc, whose, &text[..at], "refused")?;
        raised_is_refused(alloc, whose, text, at)?;
    }
    Ok(())
}

#[test]
fn damaged_texts_are_refused(rt: HostRuntime) -> Result<(), Fail> {
    damaged_are_refused(rt.alloc(), ":gen", STORED.as_bytes())?;
    damaged_are_refused(rt.alloc(), "*", BOTH.as_bytes())
}
