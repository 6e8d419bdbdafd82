//! The parts of the text of a report.
ghost use Rattle.std.specs.Prelude.{◌≡◌, IfOk};
ghost use Rattle.gb_report.specs.Report.{task_text};
ghost use Rattle.gb_printer.specs.Printing.{parts_text, rest_text};

use gb_report::render::{push_task, push_tasks, render};
use gb_report::report::{Report, TaskReport};
use std::alloc::{AllocError, Global};
use std::fmt::Write;

/// The printed text of a task whose execution has ended.
pub fn part(alloc: Global, task: &TaskReport) -> Result<Vec<u8>, AllocError>
    ensures { IfOk result (λ text. text.items ≡ task_text task.now) }
{
    let mut text = String::new(alloc);
    push_task(&mut text, task)?;
    Ok(text.into_bytes())
}

/// The printed text of a report after the parts of its tasks.
pub fn rest(alloc: Global, report: &Report) -> Result<Vec<u8>, AllocError>
    ensures { IfOk result (λ text. text.items ≡ rest_text report.now) }
{
    let mut text = render(alloc, report)?;
    let parts = parts(alloc, report)?;
    text.split_off(parts.len())
}

/// The parts of the tasks of a report.
fn parts(alloc: Global, report: &Report) -> Result<Vec<u8>, AllocError>
    ensures { IfOk result (λ text. text.items ≡ parts_text report.now) }
{
    let mut text = String::new(alloc);
    if !report.dry_run {
        push_tasks(&mut text, report.tasks.as_slice())?;
    }
    Ok(text.into_bytes())
}
