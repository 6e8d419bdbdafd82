//! The printed answers to queries.
ghost use Rattle.std.specs.Prelude.{◌≡◌, ◌++◌, IfOk, OnOk, string_bytes};
ghost use Rattle.gb_report.specs.Report.{line};
ghost use Rattle.gb_query.specs.Lines.{activity_text, entry_text, found_line, found_text, status_text};

use crate::at_place::Found;
use crate::inventory::Entry;
use gb_core::place::Place;
use gb_picture::shown::push_shown;
use std::alloc::{AllocError, Global};
use std::fmt::Write;

/// One line for each result of a search.
pub fn found_text(alloc: Global, found: &[Found]) -> Result<String, AllocError>
    ensures { IfOk result (λ text. string_bytes text ≡ found_text found.now) }
{
    let mut text = String::new(alloc);
    for one in found {
        push_found(&mut text, one)?;
    }
    Ok(text)
}

fn push_found(text: &mut String, found: &Found) -> Result<(), AllocError>
    ensures { OnOk result (string_bytes text.new ≡ string_bytes text.old ++ found_line found.now) }
{
    match found {
        Found::Related(path, name) => write!(text, "{path} {name}\n"),
        Found::Unreadable(path, fault) => write!(text, "{path} cannot be read: {fault}\n"),
    }
}

/// Whether a build of the folder runs.
#[derive(Clone, Copy, Debug, PartialEq, Eq)]
pub enum Activity {
    /// None runs.
    Idle,
    /// One runs.
    Builds,
    /// The system provides no lock, so it is not known.
    Unknown,
}

/// Whether a build runs, and a line for each file of `.gb`.
pub fn status_text(
    alloc: Global,
    activity: Activity,
    entries: &[Entry],
) -> Result<String, AllocError>
    ensures { IfOk result (λ text. string_bytes text ≡ status_text activity entries.now) }
{
    let mut text = String::new(alloc);
    text.push_str(activity_text(activity))?;
    text.push('\n')?;
    for entry in entries {
        push_line(alloc, &mut text, entry)?;
    }
    Ok(text)
}

fn activity_text(activity: Activity) -> &'static str
    ensures { result.now ≡ activity_text activity }
{
    match activity {
        Activity::Idle => "no build runs",
        Activity::Builds => "a build runs",
        Activity::Unknown => "not known whether a build runs",
    }
}

fn push_line(alloc: Global, text: &mut String, entry: &Entry) -> Result<(), AllocError>
    ensures { OnOk result (string_bytes text.new ≡ string_bytes text.old ++ line (entry_text entry.now)) }
{
    push_entry(alloc, text, entry)?;
    text.push('\n')
}

fn push_entry(alloc: Global, text: &mut String, entry: &Entry) -> Result<(), AllocError>
    ensures { OnOk result (string_bytes text.new ≡ string_bytes text.old ++ entry_text entry.now) }
{
    match entry {
        Entry::Record(path) => write!(text, "{path} record"),
        Entry::Damaged(path) => write!(text, "{path} damaged record"),
        Entry::Unregistered(path) => {
            write!(text, "{path} record of a task that no script registers")
        }
        Entry::Foreign(place) => push_foreign(alloc, text, place),
    }
}

fn push_foreign(alloc: Global, text: &mut String, place: &Place) -> Result<(), AllocError>
    ensures { OnOk result
        (string_bytes text.new ≡ string_bytes text.old ++ entry_text (Entry.Foreign place.now)) }
{
    push_shown(alloc, text, place.as_str())?;
    text.push_str(" not a record")
}
