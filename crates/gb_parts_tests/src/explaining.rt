//! Why a task is executed, by its record.
use crate::deciding::present;
use crate::record_texts::{ARGUMENT, FILE, FIRST, OUTPUT, VALUE, VERSION};
use crate::steps::is_answered;
use gb_core::path::TaskPath;
use gb_history::record::Record;
use gb_history::record_text::read_record;
use gb_reason::explain::explain;
use gb_reason::reason_text::push_reason;
use std::alloc::Global;
use std::test::Fail;

/// The record of a run, a request, and the reasons why the task is executed after the first run,
/// each on a line.
type Row = (&'static str, &'static str, &'static str);

const REASONS: [Row; 9] = [
    (FIRST, "new", "no record\n"),
    (FIRST, "", ""),
    (FIRST, "rerun", "--rerun-tasks\n"),
    (FIRST, "stale", "upToDateWhen is false\n"),
    (FILE, "", "src MODIFIED a\n"),
    (VERSION, "", "action copyFiles has another version\n"),
    (
        ARGUMENT,
        "",
        "argument 1 of copyFiles was \"x\", is \"y\"\n",
    ),
    (VALUE, "", "input value v was \"v\", is \"w\"\n"),
    (OUTPUT, "", "output build/o/a was modified\n"),
];

fn hold(alloc: Global, task: &TaskPath, first: &Record, row: &Row) -> Result<(), Fail> {
    let (text, asked, wanted) = row;
    let present = present(alloc, task, text, asked)?;
    let old = if *asked == "new" { None } else { Some(first) };
    let mut reported = String::new(alloc);
    for reason in explain(alloc, old, &present)?.iter() {
        push_reason(&mut reported, reason)?;
        reported.push_str("\n")?;
    }
    is_answered(wanted, reported.as_bytes())
}

fn hold_all(alloc: Global, task: &TaskPath, first: &Record) -> Result<(), Fail> {
    for row in &REASONS {
        hold(alloc, task, first, row)?;
    }
    Ok(())
}

#[test]
fn what_differs_is_reported(rt: HostRuntime) -> Result<(), Fail> {
    let task = TaskPath::read(rt.alloc(), ":gen")?;
    let first = read_record(rt.alloc(), &task, FIRST.as_bytes())?;
    hold_all(rt.alloc(), &task, &first)
}
