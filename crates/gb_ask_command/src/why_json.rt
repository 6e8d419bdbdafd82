//! The outcome of each task and the reasons for an execution, as JSON.
ghost use Rattle.std.specs.Prelude.{◌≡◌, [], ◌∷◌, IfOk, map, string_bytes};
ghost use Rattle.serde_json.specs.Data.{array, string};
ghost use Rattle.serde_json.specs.View.{items_of, view};
ghost use Rattle.gb_query.specs.Objects.{IsJsonOf};
ghost use Rattle.gb_report.specs.Fault.{fault_text};
ghost use Rattle.gb_ask_command.specs.WhyJson.{outcome_object, outcome_word, reason_data, reasons_data};
ghost use Rattle.gb_ask_command.specs.WhyJson.{task_data, why_data, why_object};

use gb_core::path::TaskPath;
use gb_predict::predicted_outcome::{PredictedOutcome, Prediction};
use gb_query::objects::{json_line, text_value};
use gb_reason::reason::Reason;
use gb_reason::reason_text::push_reason;
use gb_report::fault::Fault;
use serde_json::{Value, json};
use std::alloc::{AllocError, Global};
use std::fmt::Write;

/// A line of JSON: an array with an object for each task.
pub(crate) fn why_json(alloc: Global, reported: &[Prediction]) -> Result<String, AllocError>
    ensures { IfOk result (λ text. IsJsonOf (why_data reported.now) (string_bytes text)) }
{
    let values = objects(alloc, reported)?;
    json_line(alloc, Value::Array(values))
}

fn objects(alloc: Global, reported: &[Prediction]) -> Result<Vec<Value>, AllocError>
    ensures { IfOk result (λ values. map view values.items ≡ map why_object reported.now) }
{
    let mut values = Vec::new(alloc);
    for one in reported {
        values.push(why_object(alloc, one)?)?;
    }
    Ok(values)
}

fn why_object(alloc: Global, reported: &Prediction) -> Result<Value, AllocError>
    ensures { IfOk result (λ value. view value ≡ why_object reported.now) }
{
    let reasons = Value::Array(reasons(alloc, &reported.coming)?);
    let value = with_reasons(alloc, reported, &reasons);
    drop(reasons);
    value
}

fn with_reasons(alloc: Global, reported: &Prediction, reasons: &Value) -> Result<Value, AllocError>
    ensures { IfOk result (λ value. view value ≡ outcome_object reported.now.path
        (outcome_word reported.now.coming) (view reasons.now)
        (task_data reported.now.kept_by) (task_data reported.now.after)) }
{
    let needs = task_value(alloc, &reported.kept_by)?;
    let value = with_needs(alloc, reported, reasons, &needs);
    drop(needs);
    value
}

fn with_needs(
    alloc: Global,
    reported: &Prediction,
    reasons: &Value,
    needs: &Value,
) -> Result<Value, AllocError>
    ensures { IfOk result (λ value. view value ≡ outcome_object reported.now.path
        (outcome_word reported.now.coming) (view reasons.now) (view needs.now)
        (task_data reported.now.after)) }
{
    let after = task_value(alloc, &reported.after)?;
    let outcome = outcome_word(&reported.coming);
    let value = outcome_object(
        alloc,
        reported.path.as_str(),
        outcome,
        reasons,
        needs,
        &after,
    );
    drop(after);
    value
}

fn outcome_object(
    alloc: Global,
    task: &str,
    outcome: &str,
    reasons: &Value,
    needs: &Value,
    after: &Value,
) -> Result<Value, AllocError>
    ensures { IfOk result (λ value. view value
        ≡ outcome_object task.now outcome.now (view reasons.now) (view needs.now) (view after.now)) }
{
    json!(in alloc; {
        "after": after,
        "needs": needs,
        "outcome": outcome,
        "reasons": reasons,
        "task": task,
    })
}

/// The path of a task, or null.
fn task_value(alloc: Global, task: &Option<TaskPath>) -> Result<Value, AllocError>
    ensures { IfOk result (λ value. view value ≡ task_data task.now) }
{
    match task {
        Some(path) => text_value(alloc, path.as_str()),
        None => Ok(Value::Null),
    }
}

fn outcome_word(coming: &PredictedOutcome) -> &'static str
    ensures { result.now ≡ outcome_word coming.now }
{
    match coming {
        PredictedOutcome::Skips => "SKIPPED",
        PredictedOutcome::HasNoActions => "has no actions",
        PredictedOutcome::HasNoSource(_) => "NO-SOURCE",
        PredictedOutcome::CannotRead(_) => "cannot be read",
        PredictedOutcome::UpToDate => "UP-TO-DATE",
        PredictedOutcome::HasGrown => "runs",
        PredictedOutcome::Runs(true, _) => "runs by changes",
        PredictedOutcome::Runs(false, _) => "runs",
    }
}

/// All reasons for an outcome.
fn reasons(alloc: Global, coming: &PredictedOutcome) -> Result<Vec<Value>, AllocError>
    ensures { IfOk result (λ values. map view values.items ≡ reasons_data coming.now) }
{
    match coming {
        PredictedOutcome::Skips => one_text(alloc, "onlyIf is false"),
        PredictedOutcome::CannotRead(fault) => fault_reason(alloc, fault),
        PredictedOutcome::HasGrown => one_text(alloc, "outputs are too large or too many"),
        PredictedOutcome::Runs(_, reasons) => reason_values(alloc, reasons.as_slice()),
        PredictedOutcome::HasNoActions
        | PredictedOutcome::HasNoSource(_)
        | PredictedOutcome::UpToDate => Ok(Vec::new(alloc)),
    }
}

fn one_text(alloc: Global, text: &str) -> Result<Vec<Value>, AllocError>
    ensures { IfOk result (λ values. map view values.items ≡ string text.now ∷ []) }
{
    let mut values = Vec::new(alloc);
    values.push(text_value(alloc, text)?)?;
    Ok(values)
}

fn fault_reason(alloc: Global, fault: &Fault) -> Result<Vec<Value>, AllocError>
    ensures { IfOk result (λ values. map view values.items ≡ string (fault_text fault.now) ∷ []) }
{
    let mut text = String::new(alloc);
    write!(text, "{fault}")?;
    one_text(alloc, text.as_str())
}

fn reason_values(alloc: Global, reasons: &[Reason]) -> Result<Vec<Value>, AllocError>
    ensures { IfOk result (λ values. map view values.items ≡ map reason_data reasons.now) }
{
    let mut values = Vec::new(alloc);
    for reason in reasons {
        values.push(reason_value(alloc, reason)?)?;
    }
    Ok(values)
}

fn reason_value(alloc: Global, reason: &Reason) -> Result<Value, AllocError>
    ensures { IfOk result (λ value. view value ≡ reason_data reason.now) }
{
    let mut text = String::new(alloc);
    push_reason(&mut text, reason)?;
    text_value(alloc, text.as_str())
}
