//! Edits of a site in memory and builds of it, and their results.
use crate::building::{is_reported, put_bytes, words_of};
use crate::site::counting::Counting;
use gb_action::actions::Actions;
use gb_answer::answer::answer_text;
use gb_arguments::arguments::read;
use gb_build::invoking::invoke;
use gb_core::place::Place;
use gb_folder::folder::Folder;
use gb_folder::memory::MemoryFolder;
use gb_printer::printer::Silent;
use gb_provider::transforms::Transforms;
use gb_registry::tables::Tables;
use gb_report::fault::Fault;
use gb_report::report::Report;
use std::alloc::Global;
use std::test::Fail;

/// `put PLACE` with bytes, or `del PLACE`, without a result; or `run WORD..`, how many tasks are
/// executed by the listener's count, and the output.
pub enum Step<'a> {
    Put(&'a str, &'a [u8]),
    Delete(&'a str),
    Run(&'a str, u64, &'a str),
}

/// Performs these steps, and fails at the first build with another result.
pub fn go_on<A: Actions, T: Transforms, F: Folder>(
    alloc: Global,
    folder: &mut F,
    tables: &Tables<A, T>,
    steps: &[Step<'_>],
) -> Result<(), Fail> {
    for step in steps {
        take(alloc, folder, tables, step)?;
    }
    Ok(())
}

fn take<A: Actions, T: Transforms, F: Folder>(
    alloc: Global,
    folder: &mut F,
    tables: &Tables<A, T>,
    step: &Step<'_>,
) -> Result<(), Fail> {
    match step {
        Step::Put(place, bytes) => put_bytes(alloc, folder, place, bytes),
        Step::Delete(place) => delete(alloc, folder, place),
        Step::Run(words, executed, text) => { build(alloc, folder, tables, words, *executed, text) }
    }
}

fn delete<F: Folder>(alloc: Global, folder: &mut F, place: &str) -> Result<(), Fail> {
    let place = Place::read(alloc, place)?;
    Ok(folder.remove(&place)?)
}

/// Runs the build that the arguments request, with one listener, and fails if the result differs.
fn build<A: Actions, T: Transforms, F: Folder>(
    alloc: Global,
    folder: &mut F,
    tables: &Tables<A, T>,
    words: &str,
    executed: u64,
    text: &str,
) -> Result<(), Fail> {
    let mut listeners = vec![in alloc; Counting::new(alloc)]?;
    let reported = reported_beside(alloc, folder, tables, words, &mut listeners)?;
    is_reported(text, reported.as_str())?;
    have_counted(executed, listeners.as_slice())
}

/// The result of the arguments, with these listeners.
fn reported_beside<A: Actions, T: Transforms, F: Folder>(
    alloc: Global,
    folder: &mut F,
    tables: &Tables<A, T>,
    words: &str,
    listeners: &mut Vec<Counting>,
) -> Result<String, Fail> {
    let invocation = read(alloc, words_of(alloc, words)?)?;
    let answer = invoke(alloc, folder, tables, &invocation, listeners, &mut Silent);
    drop(invocation);
    reported(alloc, answer)
}

/// The text of an answer.
fn reported(alloc: Global, answer: Result<Report, Fault>) -> Result<String, Fail> {
    let text = answer_text(alloc, &answer);
    drop(answer);
    Ok(String::from_utf8(text?)?)
}

/// Fails if the count differs.
fn have_counted(executed: u64, listeners: &[Counting]) -> Result<(), Fail> {
    match listeners {
        [listener] if listener.executed == executed => Ok(()),
        _ => Err(Fail::new("another count of executed tasks")),
    }
}

/// Fails if the bytes at a place differ.
pub fn exists(
    alloc: Global,
    folder: &mut MemoryFolder,
    place: &str,
    expected: &str,
) -> Result<(), Fail> {
    let place = Place::read(alloc, place)?;
    let text = String::from_utf8(folder.read(alloc, &place, 10_000)?)?;
    is_reported(expected, text.as_str())
}

/// Fails if the files under a place differ; each name is followed by a line feed.
pub fn exist(
    alloc: Global,
    folder: &mut MemoryFolder,
    root: &str,
    expected: &str,
) -> Result<(), Fail> {
    let mut out = String::new(alloc);
    let places = folder.list(alloc, &Place::read(alloc, root)?)?;
    for place in places.iter() {
        out.push_str(place.as_str())?;
        out.push_str("\n")?;
    }
    is_reported(expected, out.as_str())
}
