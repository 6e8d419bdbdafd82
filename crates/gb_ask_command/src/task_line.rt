//! The line of a task.
ghost use Rattle.std.specs.Prelude.{◌≡◌, ◌++◌, OnOk, string_bytes};
ghost use Rattle.gb_ask_command.specs.Line.{coming_text, line_text, mark_text, more_text, reasons_text};
ghost use Rattle.gb_ask_command.specs.Line.{runs_text, way};

use gb_core::path::TaskPath;
use gb_predict::predicted_outcome::{PredictedOutcome, Prediction};
use gb_reason::reason::Reason;
use gb_reason::reason_text::push_reason;
use std::alloc::AllocError;
use std::fmt::Write;

/// Adds the line of a task to a text.
pub(crate) fn push_line(text: &mut String, reported: &Prediction) -> Result<(), AllocError>
    ensures { OnOk result (string_bytes text.new ≡ string_bytes text.old ++ line_text reported.now) }
{
    let path = &reported.path;
    write!(text, "{path}")?;
    push_coming(text, &reported.coming)?;
    push_mark(text, &reported.kept_by, &reported.after)?;
    text.push('\n')
}

/// The outcome of a task.
fn push_coming(text: &mut String, coming: &PredictedOutcome) -> Result<(), AllocError>
    ensures { OnOk result (string_bytes text.new ≡ string_bytes text.old ++ coming_text coming.now) }
{
    match coming {
        PredictedOutcome::Skips => write!(text, " SKIPPED: onlyIf is false"),
        PredictedOutcome::HasNoActions => write!(text, " has no actions"),
        PredictedOutcome::HasNoSource(_) => write!(text, " NO-SOURCE"),
        PredictedOutcome::CannotRead(fault) => write!(text, " cannot be read: {fault}"),
        PredictedOutcome::UpToDate => write!(text, " UP-TO-DATE"),
        PredictedOutcome::HasGrown => write!(text, " runs: outputs are too large or too many"),
        PredictedOutcome::Runs(by_changes, reasons) => push_runs(
            text,
            *by_changes,
            reasons.as_slice(),
        ),
    }
}

/// Adds that a task is executed, and why.
fn push_runs(text: &mut String, by_changes: bool, reasons: &[Reason]) -> Result<(), AllocError>
    ensures { OnOk result
        (string_bytes text.new ≡ string_bytes text.old ++ runs_text by_changes reasons.now) }
{
    text.push_str(way(by_changes))?;
    push_reasons(text, reasons)
}

/// How a task is executed.
fn way(by_changes: bool) -> &'static str
    ensures { result.now ≡ way by_changes }
{
    if by_changes {
        " runs by changes: "
    } else {
        " runs: "
    }
}

/// The first reason, and how many more there are.
fn push_reasons(text: &mut String, reasons: &[Reason]) -> Result<(), AllocError>
    ensures { OnOk result (string_bytes text.new ≡ string_bytes text.old ++ reasons_text reasons.now) }
{
    let Some((first, others)) = reasons.split_first() else {
        return Ok(());
    };
    push_reason(text, first)?;
    push_more(text, others.len())
}

fn push_more(text: &mut String, count: usize) -> Result<(), AllocError>
    ensures { OnOk result (string_bytes text.new ≡ string_bytes text.old ++ more_text count) }
{
    if count == 0 {
        return Ok(());
    }
    write!(text, ", and {count} more")
}

/// The task that keeps it from starting, or else the one whose execution may change its outcome.
fn push_mark(
    text: &mut String,
    needs: &Option<TaskPath>,
    after: &Option<TaskPath>,
) -> Result<(), AllocError>
    ensures { OnOk result
        (string_bytes text.new ≡ string_bytes text.old ++ mark_text needs.now after.now) }
{
    match (needs, after) {
        (Some(path), _) => write!(text, " (needs {path})"),
        (None, Some(path)) => write!(text, " (after {path})"),
        (None, None) => Ok(()),
    }
}
