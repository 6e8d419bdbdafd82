//! The findings as JSON.
ghost use Rattle.std.specs.Prelude.{◌≡◌, [], ◌∷◌, ◌++◌, IfOk, OnOk, map, string_bytes};
ghost use Rattle.serde_json.specs.View.{view};
ghost use Rattle.gb_query.specs.Objects.{IsJsonOf};
ghost use Rattle.gb_ask_command.specs.CheckJson.{check_data, check_objects, file_data, finding_object};
ghost use Rattle.gb_ask_command.specs.CheckJson.{kind_word, line_data, number_data, object_of};
ghost use Rattle.gb_ask_command.specs.CheckJson.{unread_object, value_text, words_of};

use gb_check::finding_text::{push_cause, unread_spot};
use gb_check::findings::{Finding, Findings, Problem, Spot};
use gb_query::objects::{json_line, text_value};
use gb_report::fault::Fault;
use serde_json::{Value, json};
use std::alloc::{AllocError, Global};
use std::fmt::Write;

/// A line of JSON: an array with an object for each finding, faults first.
pub(crate) fn check_json(
    alloc: Global,
    reply: &Result<Findings, Fault>,
) -> Result<String, AllocError>
    ensures { IfOk result (λ text. IsJsonOf (check_data reply.now) (string_bytes text)) }
{
    let values = objects(alloc, reply)?;
    json_line(alloc, Value::Array(values))
}

fn objects(alloc: Global, reply: &Result<Findings, Fault>) -> Result<Vec<Value>, AllocError>
    ensures { IfOk result (λ values. map view values.items ≡ check_objects reply.now) }
{
    match reply {
        Ok(found) => found_objects(alloc, found),
        Err(fault) => unread_objects(alloc, fault),
    }
}

fn found_objects(alloc: Global, found: &Findings) -> Result<Vec<Value>, AllocError>
    ensures { IfOk result (λ values. map view values.items
        ≡ map finding_object found.now.faults.items ++ map finding_object found.now.warnings.items) }
{
    let mut values = Vec::new(alloc);
    push_objects(alloc, &mut values, found.faults.as_slice())?;
    push_objects(alloc, &mut values, found.warnings.as_slice())?;
    Ok(values)
}

fn unread_objects(alloc: Global, fault: &Fault) -> Result<Vec<Value>, AllocError>
    ensures { IfOk result (λ values. map view values.items ≡ unread_object fault.now ∷ []) }
{
    let mut values = Vec::new(alloc);
    values.push(unread_object(alloc, fault)?)?;
    Ok(values)
}

fn push_objects(alloc: Global, values: &mut Vec<Value>, found: &[Finding]) -> Result<(), AllocError>
    ensures { OnOk result
        (map view values.new.items ≡ map view values.old.items ++ map finding_object found.now) }
{
    for finding in found {
        values.push(finding_object(alloc, finding)?)?;
    }
    Ok(())
}

fn finding_object(alloc: Global, finding: &Finding) -> Result<Value, AllocError>
    ensures { IfOk result (λ value. view value ≡ finding_object finding.now) }
{
    let text = words_of(alloc, finding)?;
    let number = number_value(&finding.cause);
    let kind = kind_word(&finding.cause);
    let value = spot_object(alloc, &finding.spot, kind, &number, text.as_str());
    drop(number);
    value
}

/// The text of a finding: after the name of a value, if it is about one.
fn words_of(alloc: Global, finding: &Finding) -> Result<String, AllocError>
    ensures { IfOk result (λ text. string_bytes text ≡ words_of finding.now) }
{
    let mut text = String::new(alloc);
    push_value(&mut text, &finding.spot)?;
    push_cause(&mut text, &finding.cause)?;
    Ok(text)
}

fn push_value(text: &mut String, spot: &Spot) -> Result<(), AllocError>
    ensures { OnOk result (string_bytes text.new ≡ string_bytes text.old ++ value_text spot.now) }
{
    match spot {
        Spot::Value(name) => write!(text, "-P{name}: "),
        _ => Ok(()),
    }
}

fn kind_word(cause: &Problem) -> &'static str
    ensures { result.now ≡ kind_word cause.now }
{
    match cause {
        Problem::Fault(_) => "fault",
        _ => "warning",
    }
}

/// The number of a fault, or null.
fn number_value(cause: &Problem) -> Value
    ensures { view result ≡ number_data cause.now }
{
    match cause {
        Problem::Fault(fault) => Value::from(fault.number()),
        _ => Value::Null,
    }
}

/// The object of a fault for which scripts or arguments cannot be read.
fn unread_object(alloc: Global, fault: &Fault) -> Result<Value, AllocError>
    ensures { IfOk result (λ value. view value ≡ unread_object fault.now) }
{
    let spot = unread_spot(fault)?;
    let mut text = String::new(alloc);
    write!(text, "{fault}")?;
    let number = Value::from(fault.number());
    let value = spot_object(alloc, &spot, "fault", &number, text.as_str());
    drop(number);
    value
}

/// The object of a finding in this place.
fn spot_object(
    alloc: Global,
    spot: &Spot,
    kind: &str,
    number: &Value,
    text: &str,
) -> Result<Value, AllocError>
    ensures { IfOk result (λ value. view value
        ≡ object_of (file_data spot.now) kind.now (line_data spot.now) (view number.now) text.now) }
{
    let file = file_value(alloc, spot)?;
    let line = line_value(spot);
    let value = object_of(alloc, &file, kind, &line, number, text);
    drop(line);
    drop(file);
    value
}

/// The script, or null.
fn file_value(alloc: Global, spot: &Spot) -> Result<Value, AllocError>
    ensures { IfOk result (λ value. view value ≡ file_data spot.now) }
{
    match spot {
        Spot::Line(script, _) => text_value(alloc, script.as_str()),
        _ => Ok(Value::Null),
    }
}

/// The line, or null.
fn line_value(spot: &Spot) -> Value
    ensures { view result ≡ line_data spot.now }
{
    match spot {
        Spot::Line(_, line) => Value::from(*line),
        _ => Value::Null,
    }
}

fn object_of(
    alloc: Global,
    file: &Value,
    kind: &str,
    line: &Value,
    number: &Value,
    text: &str,
) -> Result<Value, AllocError>
    ensures { IfOk result (λ value. view value
        ≡ object_of (view file.now) kind.now (view line.now) (view number.now) text.now) }
{
    json!(in alloc; {
        "file": file,
        "kind": kind,
        "line": line,
        "number": number,
        "text": text,
    })
}
