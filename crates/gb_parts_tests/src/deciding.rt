//! Whether a task is executed, decided by its record.
use crate::record_texts::{ARGUMENT, FILE, FIRST, OUTPUT, VALUE, VERSION};
use crate::steps::is_answered;
use gb_core::name::Name;
use gb_core::path::TaskPath;
use gb_history::decide::{Decision, Present, decide};
use gb_history::record::Record;
use gb_history::record_text::read_record;
use std::alloc::{AllocError, Global};
use std::test::Fail;

/// The record of a run, a request, and the decision. The request is a `rerun`, `src` as a `whole`,
/// a task that is `stale` or `new`, or nothing but the record of the first run.
type Row = (&'static str, &'static str, &'static str);

const DECISIONS: [Row; 10] = [
    (FIRST, "new", "full"),
    (FIRST, "", "up to date"),
    (FIRST, "rerun", "full"),
    (FIRST, "stale", "full"),
    (FILE, "", "incremental"),
    (FILE, "whole", "full"),
    (VERSION, "", "full"),
    (ARGUMENT, "", "full"),
    (VALUE, "", "full"),
    (OUTPUT, "", "full"),
];

/// The names of the incremental properties: `src`, unless it is read whole.
fn incremental(alloc: Global, asked: &str) -> Result<Vec<Name>, Fail> {
    if asked == "whole" {
        return Ok(Vec::new(alloc));
    }
    Ok(vec![in alloc; Name::read(alloc, "src")?]?)
}

/// The present state.
pub fn present(alloc: Global, task: &TaskPath, text: &str, asked: &str) -> Result<Present, Fail> {
    let incremental = incremental(alloc, asked)?;
    Ok(Present {
        now: read_record(alloc, task, text.as_bytes())?,
        incremental,
        rerun: asked == "rerun",
        is_stale: asked == "stale",
    })
}

/// The decision if a new task has no record, and another task has the record of the first run.
fn decided(
    alloc: Global,
    first: &Record,
    asked: &str,
    present: &Present,
) -> Result<&'static str, AllocError> {
    let old = if asked == "new" { None } else { Some(first) };
    Ok(match decide(alloc, old, present)? {
        Decision::UpToDate => "up to date",
        Decision::Incremental(_) => "incremental",
        Decision::Full => "full",
    })
}

fn hold(alloc: Global, task: &TaskPath, first: &Record, row: &Row) -> Result<(), Fail> {
    let (text, asked, wanted) = row;
    let present = present(alloc, task, text, asked)?;
    is_answered(wanted, decided(alloc, first, asked, &present)?.as_bytes())
}

fn hold_all(alloc: Global, task: &TaskPath, first: &Record) -> Result<(), Fail> {
    for row in &DECISIONS {
        hold(alloc, task, first, row)?;
    }
    Ok(())
}

#[test]
fn what_changed_decides(rt: HostRuntime) -> Result<(), Fail> {
    let task = TaskPath::read(rt.alloc(), ":gen")?;
    let first = read_record(rt.alloc(), &task, FIRST.as_bytes())?;
    hold_all(rt.alloc(), &task, &first)
}
