//! The printed text of a report and of a fault.
ghost use Rattle.std.specs.Prelude.{◌≡◌, ◌++◌, IfOk, OnOk, string_bytes};
ghost use Rattle.std.specs.List.{count_by, flat_map};
ghost use Rattle.gb_report.specs.Fault.{fault_text};
ghost use Rattle.gb_report.specs.Outcome.{counts_as_executed, counts_as_up_to_date, is_actionable};
ghost use Rattle.gb_report.specs.Report.{label, line, task_text, failure_text, refusal_text, result_text};
ghost use Rattle.gb_report.specs.Report.{parts, actionable, summary, dry_text, run_text, report_text};

use crate::fault::Fault;
use crate::report::{Outcome, Report, TaskReport};
use gb_core::text::Text;
use std::alloc::{AllocError, Global};
use std::fmt::Write;

/// The whole text that a build with this report prints, in UTF-8; each line ends in a line feed.
pub fn render(alloc: Global, report: &Report) -> Result<Vec<u8>, AllocError>
    ensures { IfOk result (λ bytes. bytes.items ≡ report_text report.now) }
{
    let mut text = String::new(alloc);
    if report.dry_run {
        push_dry_run(&mut text, report.tasks.as_slice())?;
    } else {
        push_run(&mut text, report)?;
    }
    Ok(text.into_bytes())
}

/// The printed text of a fault, in UTF-8, without a line feed.
pub fn render_fault(alloc: Global, fault: &Fault) -> Result<Vec<u8>, AllocError>
    ensures { IfOk result (λ bytes. bytes.items ≡ fault_text fault.now) }
{
    Ok(format!(in alloc; "{fault}")?.into_bytes())
}

fn push_dry_run(text: &mut String, tasks: &[TaskReport]) -> Result<(), AllocError>
    ensures { OnOk result (string_bytes text.new ≡ string_bytes text.old ++ dry_text tasks.now) }
{
    for task in tasks {
        let path = &task.path;
        writeln!(text, "{path} SKIPPED")?;
    }
    push_result(text, true)
}

fn push_run(text: &mut String, report: &Report) -> Result<(), AllocError>
    ensures { OnOk result (string_bytes text.new ≡ string_bytes text.old ++ run_text report.now) }
{
    let tasks = report.tasks.as_slice();
    push_tasks(text, tasks)?;
    push_failures(text, tasks)?;
    push_refusal(text, report.listener_refused)?;
    push_result(text, report.is_successful())?;
    push_summary(text, tasks)
}

/// Appends the printed text of each of these tasks.
pub fn push_tasks(text: &mut String, tasks: &[TaskReport]) -> Result<(), AllocError>
    ensures { OnOk result
        (string_bytes text.new ≡ string_bytes text.old ++ flat_map task_text tasks.now) }
{
    for task in tasks {
        push_task(text, task)?;
    }
    Ok(())
}

/// Appends the printed text of a task: nothing, if it did not start.
pub fn push_task(text: &mut String, task: &TaskReport) -> Result<(), AllocError>
    ensures { OnOk result (string_bytes text.new ≡ string_bytes text.old ++ task_text task.now) }
{
    if !task.outcome.is_started() {
        return Ok(());
    }
    let path = &task.path;
    let label = label(&task.outcome);
    writeln!(text, "> Task {path}{label}")?;
    push_lines(text, task.lines.as_slice())
}

/// The outcome label after the path of a started task.
fn label(outcome: &Outcome) -> &'static str
    ensures { result.now ≡ label outcome.now }
{
    match outcome {
        Outcome::Executed | Outcome::NotRun => "",
        Outcome::UpToDate => " UP-TO-DATE",
        Outcome::Skipped => " SKIPPED",
        Outcome::NoSource => " NO-SOURCE",
        Outcome::Failed(_) => " FAILED",
    }
}

/// Appends these lines, each with its line feed.
fn push_lines(text: &mut String, lines: &[Text]) -> Result<(), AllocError>
    ensures { OnOk result
        (string_bytes text.new ≡ string_bytes text.old ++ flat_map line lines.now) }
{
    for line in lines {
        writeln!(text, "{line}")?;
    }
    Ok(())
}

fn push_failures(text: &mut String, tasks: &[TaskReport]) -> Result<(), AllocError>
    ensures { OnOk result (string_bytes text.new ≡ string_bytes text.old
        ++ flat_map (λ task. failure_text task.path task.outcome) tasks.now) }
{
    for task in tasks {
        push_failure(text, task)?;
    }
    Ok(())
}

fn push_failure(text: &mut String, task: &TaskReport) -> Result<(), AllocError>
    ensures { OnOk result
        (string_bytes text.new ≡ string_bytes text.old ++ failure_text task.now.path task.now.outcome) }
{
    if let Outcome::Failed(fault) = &task.outcome {
        let path = &task.path;
        writeln!(text, "FAILED {path}: {fault}")?;
    }
    Ok(())
}

fn push_refusal(text: &mut String, listener_refused: bool) -> Result<(), AllocError>
    ensures { OnOk result
        (string_bytes text.new ≡ string_bytes text.old ++ refusal_text listener_refused) }
{
    if listener_refused {
        writeln!(text, "FAILED listener: 91 listener refused")?;
    }
    Ok(())
}

fn push_result(text: &mut String, successful: bool) -> Result<(), AllocError>
    ensures { OnOk result
        (string_bytes text.new ≡ string_bytes text.old ++ result_text successful) }
{
    if successful {
        writeln!(text, "BUILD SUCCESSFUL")
    } else {
        writeln!(text, "BUILD FAILED")
    }
}

/// Appends how many tasks were executed and how many were up to date, if some task is actionable.
fn push_summary(text: &mut String, tasks: &[TaskReport]) -> Result<(), AllocError>
    ensures { OnOk result (string_bytes text.new ≡ string_bytes text.old ++ summary tasks.now) }
{
    let count = count_actionable(tasks);
    if count == 0 {
        return Ok(());
    }
    push_actionable(text, count)?;
    push_parts(text, count_executed(tasks), count_up_to_date(tasks))?;
    text.push('\n')
}

fn count_actionable(tasks: &[TaskReport]) -> usize
    ensures { result ≡ count_by is_actionable tasks.now }
{
    tasks.iter().filter(|task| task.is_actionable()).count()
}

fn count_executed(tasks: &[TaskReport]) -> usize
    ensures { result ≡ count_by counts_as_executed tasks.now }
{
    tasks
        .iter()
        .filter(|task| task.counts_as_executed())
        .count()
}

fn count_up_to_date(tasks: &[TaskReport]) -> usize
    ensures { result ≡ count_by counts_as_up_to_date tasks.now }
{
    tasks
        .iter()
        .filter(|task| task.counts_as_up_to_date())
        .count()
}

fn push_actionable(text: &mut String, count: usize) -> Result<(), AllocError>
    ensures { OnOk result (string_bytes text.new ≡ string_bytes text.old ++ actionable count) }
{
    if count == 1 {
        write!(text, "{count} actionable task: ")
    } else {
        write!(text, "{count} actionable tasks: ")
    }
}

fn push_parts(text: &mut String, executed: usize, up_to_date: usize) -> Result<(), AllocError>
    ensures { OnOk result
        (string_bytes text.new ≡ string_bytes text.old ++ parts executed up_to_date) }
{
    match (executed, up_to_date) {
        (0, 0) => Ok(()),
        (_, 0) => write!(text, "{executed} executed"),
        (0, _) => write!(text, "{up_to_date} up-to-date"),
        (_, _) => write!(text, "{executed} executed, {up_to_date} up-to-date"),
    }
}
