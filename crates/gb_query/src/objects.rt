//! Answers as JSON.
ghost use Rattle.std.specs.Prelude.{◌≡◌, ◌≤◌, IfOk, codes, map, string_bytes};
ghost use Rattle.std.specs.Cmp.Lexicographic.{slice_cmp};
ghost use Rattle.std.specs.Ordering.{nat_cmp};
ghost use Rattle.std.specs.declared.cmp.Ordering.TheVariants.{Greater};
ghost use Rattle.serde_json.specs.Data.{array, depth, member, no_members, object, string};
ghost use Rattle.serde_json.specs.Read.{max_depth};
ghost use Rattle.serde_json.specs.View.{items_of, view};
ghost use Rattle.gb_report.specs.Fault.{fault_text};
ghost use Rattle.gb_query.specs.Objects.{IsJsonOf, activity_word, entry_object, found_data};
ghost use Rattle.gb_query.specs.Objects.{found_object, pair, relation_key, status_data};

use crate::answer_lines::Activity;
use crate::at_place::{Found, Relation};
use crate::inventory::Entry;
use gb_report::fault::Fault;
use serde_json::{Value, json};
use std::alloc::{AllocError, Global};
use std::fmt::Write;

/// A line of JSON: an array with an object for each result of a search.
pub fn found_json(alloc: Global, relation: Relation, found: &[Found]) -> Result<String, AllocError>
    ensures { IfOk result (λ text. IsJsonOf (found_data relation found.now) (string_bytes text)) }
{
    let values = found_objects(alloc, relation, found)?;
    json_line(alloc, Value::Array(values))
}

/// The line of a value that nests less deep than the limit of `serde_json`.
pub fn json_line(alloc: Global, value: Value) -> Result<String, AllocError>
    requires { depth (view value) ≤ max_depth }
    ensures { IfOk result (λ text. IsJsonOf (view value) (string_bytes text)) }
{
    let written = value.to_string(alloc);
    drop(value);
    let mut text = written?;
    text.push('\n')?;
    Ok(text)
}

/// The value of a text.
pub fn text_value(alloc: Global, text: &str) -> Result<Value, AllocError>
    ensures { IfOk result (λ value. view value ≡ string text.now) }
{
    json!(in alloc; text)
}

fn found_objects(
    alloc: Global,
    relation: Relation,
    found: &[Found],
) -> Result<Vec<Value>, AllocError>
    ensures { IfOk result (λ values. map view values.items ≡ map (found_object relation) found.now) }
{
    let mut values = Vec::new(alloc);
    for one in found {
        values.push(found_object(alloc, relation, one)?)?;
    }
    Ok(values)
}

fn found_object(alloc: Global, relation: Relation, found: &Found) -> Result<Value, AllocError>
    ensures { IfOk result (λ value. view value ≡ found_object relation found.now) }
{
    match found {
        Found::Related(path, name) => related(alloc, relation, name.as_str(), path.as_str()),
        Found::Unreadable(path, fault) => unreadable(alloc, fault, path.as_str()),
    }
}

fn related(alloc: Global, relation: Relation, name: &str, task: &str) -> Result<Value, AllocError>
    ensures { IfOk result (λ value.
        view value ≡ pair (relation_key relation) name.now (codes "task") task.now) }
{
    match relation {
        Relation::Reads => pair(alloc, "property", name, "task", task),
        Relation::Makes => pair(alloc, "output", name, "task", task),
    }
}

fn unreadable(alloc: Global, fault: &Fault, task: &str) -> Result<Value, AllocError>
    ensures { IfOk result (λ value.
        view value ≡ pair (codes "fault") (fault_text fault.now) (codes "task") task.now) }
{
    let mut text = String::new(alloc);
    write!(text, "{fault}")?;
    pair(alloc, "fault", text.as_str(), "task", task)
}

/// An object of two texts, the first key before the second.
fn pair(
    alloc: Global,
    key: &str,
    text: &str,
    other_key: &str,
    other_text: &str,
) -> Result<Value, AllocError>
    requires { slice_cmp nat_cmp other_key.now key.now ≡ Greater }
    ensures { IfOk result (λ value.
        view value ≡ pair key.now text.now other_key.now other_text.now) }
{
    json!(in alloc; {key: text, other_key: other_text})
}

/// A line of JSON: whether a build runs, and an array with an object for each file of `.gb`.
pub fn status_json(
    alloc: Global,
    activity: Activity,
    entries: &[Entry],
) -> Result<String, AllocError>
    ensures { IfOk result (λ text. IsJsonOf (status_data activity entries.now) (string_bytes text)) }
{
    let files = Value::Array(entry_objects(alloc, entries)?);
    let value = status_object(alloc, activity_word(activity), &files);
    drop(files);
    json_line(alloc, value?)
}

fn activity_word(activity: Activity) -> &'static str
    ensures { result.now ≡ activity_word activity }
{
    match activity {
        Activity::Idle => "none",
        Activity::Builds => "runs",
        Activity::Unknown => "unknown",
    }
}

fn status_object(alloc: Global, build: &str, files: &Value) -> Result<Value, AllocError>
    ensures { IfOk result (λ value. view value ≡ object (member (codes "build") (string build.now)
        (member (codes "files") (view files.now) no_members))) }
{
    json!(in alloc; {"build": build, "files": files})
}

fn entry_objects(alloc: Global, entries: &[Entry]) -> Result<Vec<Value>, AllocError>
    ensures { IfOk result (λ values. map view values.items ≡ map entry_object entries.now) }
{
    let mut values = Vec::new(alloc);
    for entry in entries {
        values.push(entry_object(alloc, entry)?)?;
    }
    Ok(values)
}

fn entry_object(alloc: Global, entry: &Entry) -> Result<Value, AllocError>
    ensures { IfOk result (λ value. view value ≡ entry_object entry.now) }
{
    match entry {
        Entry::Record(path) => pair(alloc, "kind", "record", "task", path.as_str()),
        Entry::Damaged(path) => pair(alloc, "kind", "damaged", "task", path.as_str()),
        Entry::Unregistered(path) => pair(alloc, "kind", "unregistered", "task", path.as_str()),
        Entry::Foreign(place) => pair(alloc, "kind", "foreign", "place", place.as_str()),
    }
}
