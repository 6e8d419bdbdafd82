//! Events over a folder, and their results.
use gb_action::actions::Actions;
use gb_arguments::arguments::read;
use gb_build::events::run_events;
use gb_core::bytes::Bytes;
use gb_core::place::Place;
use gb_exec::listener::{Recorder, TaskListener};
use gb_folder::folder::Folder;
use gb_folder::memory::MemoryFolder;
use gb_provider::transforms::Transforms;
use gb_registry::tables::Tables;
use gb_report::render::{render, render_fault};
use gb_semantics::events::{Answer, Event};
use std::alloc::Global;
use std::test::Fail;

/// `put PLACE`, the text to store there, and the expected result; or `del PLACE`, `lost` or `run
/// WORD..`, without a text. The result of a completed edit is empty.
pub type Step<'a> = (&'a str, &'a str, &'a str);

/// The words of a line.
pub fn words_of(alloc: Global, line: &str) -> Result<Vec<String>, Fail> {
    let mut words = Vec::new(alloc);
    for word in line.split_whitespace() {
        words.push(String::from_str(alloc, word)?)?;
    }
    Ok(words)
}

fn put(alloc: Global, place: &str, text: &str) -> Result<Event, Fail> {
    let place = Place::read(alloc, place)?;
    Ok(Event::Put(place, Bytes::from_slice(alloc, text.as_bytes())?))
}

fn run(alloc: Global, words: &str) -> Result<Event, Fail> {
    Ok(Event::Invoke(read(alloc, words_of(alloc, words)?)?))
}

/// The event of these words.
fn event(alloc: Global, words: &str, text: &str) -> Result<Event, Fail> {
    let (verb, rest) = words.split_once(' ').unwrap_or((words, ""));
    match verb {
        "put" => put(alloc, rest, text),
        "del" => Ok(Event::Remove(Place::read(alloc, rest)?)),
        "run" => run(alloc, rest),
        _ => Ok(Event::Lost),
    }
}

/// The events of these steps.
pub fn events(alloc: Global, steps: &[Step<'_>]) -> Result<Vec<Event>, Fail> {
    let mut events = Vec::new(alloc);
    for step in steps {
        events.push(event(alloc, step.0, step.1)?)?;
    }
    Ok(events)
}

/// The output of a build, or the fault of a refused event.
fn reported(alloc: Global, answer: &Answer) -> Result<String, Fail> {
    let bytes = match answer {
        Answer::Edited => Vec::new(alloc),
        Answer::Refused(fault) | Answer::NotBuilt(fault) => render_fault(alloc, fault)?,
        Answer::Built(report) => render(alloc, report)?,
    };
    Ok(String::from_utf8(bytes)?)
}

/// Fails at the first answer that differs from its step.
pub fn are_reported(alloc: Global, steps: &[Step<'_>], answers: &[Answer]) -> Result<(), Fail> {
    for (step, answer) in steps.iter().zip(answers.iter()) {
        is_reported(step.2, reported(alloc, answer)?.as_str())?;
    }
    Ok(())
}

/// Fails if the result differs.
pub fn is_reported(expected: &str, reported: &str) -> Result<(), Fail> {
    if reported == expected {
        Ok(())
    } else {
        Err(Fail::new(reported))
    }
}

/// Performs these steps, and fails at the first with another result.
pub fn go_on<A: Actions, T: Transforms, F: Folder>(
    alloc: Global,
    folder: &mut F,
    tables: &Tables<A, T>,
    steps: &[Step<'_>],
) -> Result<(), Fail> {
    let events = events(alloc, steps)?;
    let mut listeners: Vec<Recorder> = Vec::new(alloc);
    let answers = run_events(alloc, folder, tables, events.as_slice(), &mut listeners)?;
    are_reported(alloc, steps, answers.as_slice())
}

/// The result of these arguments for the caller, with these listeners.
pub fn reported_beside<A: Actions, T: Transforms, F: Folder, L: TaskListener>(
    alloc: Global,
    folder: &mut F,
    tables: &Tables<A, T>,
    words: &str,
    listeners: &mut Vec<L>,
) -> Result<String, Fail> {
    let events = vec![in alloc; event(alloc, words, "")?]?;
    let answers = run_events(alloc, folder, tables, events.as_slice(), listeners)?;
    reported_alone(alloc, answers.as_slice())
}

/// The result of the only answer.
fn reported_alone(alloc: Global, answers: &[Answer]) -> Result<String, Fail> {
    match answers {
        [answer] => reported(alloc, answer),
        _ => Err(Fail::new("another count of answers")),
    }
}

/// The result of these arguments without listeners.
pub fn reported_of<A: Actions, T: Transforms, F: Folder>(
    alloc: Global,
    folder: &mut F,
    tables: &Tables<A, T>,
    words: &str,
) -> Result<String, Fail> {
    let mut listeners: Vec<Recorder> = Vec::new(alloc);
    reported_beside(alloc, folder, tables, words, &mut listeners)
}

/// Fails if the result of these arguments without listeners differs.
pub fn is_reported_of<A: Actions, T: Transforms, F: Folder>(
    alloc: Global,
    folder: &mut F,
    tables: &Tables<A, T>,
    words: &str,
    expected: &str,
) -> Result<(), Fail> {
    let text = reported_of(alloc, folder, tables, words)?;
    is_reported(expected, text.as_str())
}

/// Stores bytes at a place, also at one of the tool's own.
pub fn put_bytes<F: Folder>(
    alloc: Global,
    folder: &mut F,
    place: &str,
    bytes: &[u8],
) -> Result<(), Fail> {
    let place = Place::read(alloc, place)?;
    Ok(folder.write(&place, bytes, 10_000_000)?)
}

/// The bytes of a file.
pub fn bytes_at(alloc: Global, folder: &mut MemoryFolder, place: &str) -> Result<Vec<u8>, Fail> {
    Ok(folder.read(alloc, &Place::read(alloc, place)?, 1_048_576)?)
}

/// The files under a place with their texts, as `PLACE=TEXT`, with blanks between them.
pub fn held(alloc: Global, folder: &mut MemoryFolder, root: &str) -> Result<String, Fail> {
    let mut out = String::new(alloc);
    let places = folder.list(alloc, &Place::read(alloc, root)?)?;
    for place in places.iter() {
        push_file(alloc, folder, place, &mut out)?;
    }
    Ok(out)
}

fn push_file(
    alloc: Global,
    folder: &mut MemoryFolder,
    place: &Place,
    out: &mut String,
) -> Result<(), Fail> {
    let text = String::from_utf8(folder.read(alloc, place, 1_048_576)?)?;
    let prefix = if out.is_empty() { "" } else { " " };
    push_texts(out, [prefix, place.as_str(), "=", text.as_str()])
}

fn push_texts(out: &mut String, texts: [&str; 4]) -> Result<(), Fail> {
    for text in texts {
        out.push_str(text)?;
    }
    Ok(())
}

/// Fails if the files under a place or their texts differ.
pub fn are_held(
    alloc: Global,
    folder: &mut MemoryFolder,
    root: &str,
    expected: &str,
) -> Result<(), Fail> {
    let files = held(alloc, folder, root)?;
    is_reported(expected, files.as_str())
}
