//! The text of a reason.
ghost use Rattle.std.specs.Prelude.{◌≡◌, ◌++◌, string_bytes, OnOk};
ghost use Rattle.std.specs.List.{flat_map};
ghost use Rattle.gb_core.specs.Place.{beneath};
ghost use Rattle.gb_report.specs.Fault.{shown, shown_character};
ghost use Rattle.gb_reason.specs.Text.{difference_text, file_text, output_text, quoted, reason_text};
ghost use Rattle.gb_reason.specs.Text.{value_text};

use crate::reason::Reason;
use gb_action::change::Change;
use gb_core::name::Name;
use gb_core::place::{Place, RelPath};
use gb_core::text::Text;
use gb_core::value::Value;
use gb_report::fault::shown_character;
use std::alloc::AllocError;
use std::fmt::Write;

/// Appends the text of a reason to another text, on one line.
pub fn push_reason(text: &mut String, reason: &Reason) -> Result<(), AllocError>
    ensures { OnOk result (string_bytes text.new ≡ string_bytes text.old ++ reason_text reason.now) }
{
    match reason {
        Reason::NoRecord => text.push_str("no record"),
        Reason::Rerun => text.push_str("--rerun-tasks"),
        Reason::Stale => text.push_str("upToDateWhen is false"),
        Reason::NoOutputs => text.push_str("it has no outputs"),
        Reason::ActionAdded(kind) => write!(text, "action {kind} was added"),
        Reason::ActionRemoved(kind) => write!(text, "action {kind} was removed"),
        Reason::ActionOrder => text.push_str("actions are in another order or number"),
        Reason::ActionVersion(kind) => write!(text, "action {kind} has another version"),
        Reason::ArgumentCount(kind) => write!(text, "action {kind} has more or fewer arguments"),
        Reason::Argument(kind, number, was, is) => push_argument(text, kind, *number, was, is),
        Reason::ValueNames => text.push_str("input values are declared otherwise"),
        Reason::Value(name, was, is) => push_other(text, name, was, is),
        Reason::OutputNames => text.push_str("outputs are declared otherwise"),
        Reason::Output(place, change) => push_output(text, place, change),
        Reason::FileNames => text.push_str("input files are declared otherwise"),
        Reason::File(name, change) => push_file(text, name, change),
    }
}

/// An argument of an action that differs.
fn push_argument(
    text: &mut String,
    kind: &Name,
    number: usize,
    was: &Value,
    is: &Value,
) -> Result<(), AllocError>
    ensures { OnOk result (string_bytes text.new
        ≡ string_bytes text.old ++ reason_text (Reason.Argument kind.now number was.now is.now)) }
{
    write!(text, "argument {number} of {kind} was ")?;
    push_difference(text, was, is)
}

/// An input value that differs.
fn push_other(text: &mut String, name: &Name, was: &Value, is: &Value) -> Result<(), AllocError>
    ensures { OnOk result (string_bytes text.new
        ≡ string_bytes text.old ++ reason_text (Reason.Value name.now was.now is.now)) }
{
    write!(text, "input value {name} was ")?;
    push_difference(text, was, is)
}

/// What a value was, and what it is.
fn push_difference(text: &mut String, was: &Value, is: &Value) -> Result<(), AllocError>
    ensures { OnOk result (string_bytes text.new
        ≡ string_bytes text.old ++ difference_text was.now is.now) }
{
    push_value(text, was)?;
    text.push_str(", is ")?;
    push_value(text, is)
}

fn push_value(text: &mut String, value: &Value) -> Result<(), AllocError>
    ensures { OnOk result (string_bytes text.new ≡ string_bytes text.old ++ value_text value.now) }
{
    match value {
        Value::Text(reported) => push_quoted(text, reported),
        Value::Flag(true) => text.push_str("true"),
        Value::Flag(false) => text.push_str("false"),
        Value::List(texts) => push_list(text, texts.as_slice()),
        Value::Place(place) => write!(text, "file {place}"),
        Value::Task(path) => write!(text, "task {path}"),
    }
}

/// Texts between brackets.
fn push_list(text: &mut String, texts: &[Text]) -> Result<(), AllocError>
    ensures { OnOk result (string_bytes text.new
        ≡ string_bytes text.old ++ value_text (Value.List texts.now)) }
{
    text.push_str("[")?;
    for reported in texts {
        text.push_str(" ")?;
        push_quoted(text, reported)?;
    }
    text.push_str(" ]")
}

fn push_quoted(text: &mut String, reported: &Text) -> Result<(), AllocError>
    ensures { OnOk result (string_bytes text.new ≡ string_bytes text.old ++ quoted reported.now) }
{
    text.push('"')?;
    push_shown(text, reported)?;
    text.push('"')
}

/// The beginning of a text from outside, with no control character.
fn push_shown(text: &mut String, reported: &Text) -> Result<(), AllocError>
    ensures { OnOk result (string_bytes text.new ≡ string_bytes text.old ++ shown reported.now) }
{
    for character in reported.as_str().chars().take(80) {
        text.push(shown_character(character))?;
    }
    Ok(())
}

/// What happened to a file at or under an output.
fn push_output(text: &mut String, place: &Place, change: &Change) -> Result<(), AllocError>
    ensures { OnOk result (string_bytes text.new
        ≡ string_bytes text.old ++ output_text place.now change.now) }
{
    text.push_str("output ")?;
    match change {
        Change::Added(path) => {
            push_beneath(text, place, path)?;
            text.push_str(" was added")
        }
        Change::Modified(path) => {
            push_beneath(text, place, path)?;
            text.push_str(" was modified")
        }
        Change::Removed(path) => {
            push_beneath(text, place, path)?;
            text.push_str(" was removed")
        }
    }
}

/// The place of a path under a root.
fn push_beneath(text: &mut String, root: &Place, path: &RelPath) -> Result<(), AllocError>
    ensures { OnOk result (string_bytes text.new ≡ string_bytes text.old ++ beneath root.now path.now) }
{
    write!(text, "{root}")?;
    if path.as_str().is_empty() {
        return Ok(());
    }
    write!(text, "/{path}")
}

/// What happened to a file of a property.
fn push_file(text: &mut String, name: &Name, change: &Change) -> Result<(), AllocError>
    ensures { OnOk result (string_bytes text.new ≡ string_bytes text.old ++ file_text name.now change.now) }
{
    match change {
        Change::Added(path) => write!(text, "{name} ADDED {path}"),
        Change::Modified(path) => write!(text, "{name} MODIFIED {path}"),
        Change::Removed(path) => write!(text, "{name} REMOVED {path}"),
    }
}
