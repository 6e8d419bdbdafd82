//! An answer as lines or as JSON.
ghost use Rattle.std.specs.Prelude.{IfOk, string_bytes};
ghost use Rattle.gb_query.specs.Notation.{IsFoundText, IsStatusText};

use crate::answer_lines::{Activity, found_text, status_text};
use crate::at_place::{Found, Relation};
use crate::inventory::Entry;
use crate::objects::{found_json, status_json};
use std::alloc::{AllocError, Global};

/// How an answer is written.
#[derive(Clone, Copy, Debug, PartialEq, Eq)]
pub enum Notation {
    /// One line for each finding.
    Lines,
    /// One value in JSON, on one line.
    Json,
}

/// The text of the findings of a search.
pub fn write_found(
    alloc: Global,
    notation: Notation,
    relation: Relation,
    found: &[Found],
) -> Result<String, AllocError>
    ensures { IfOk result (λ text. IsFoundText notation relation found.now (string_bytes text)) }
{
    match notation {
        Notation::Lines => found_text(alloc, found),
        Notation::Json => found_json(alloc, relation, found),
    }
}

/// The text of the entries of a folder.
pub fn write_status(
    alloc: Global,
    notation: Notation,
    activity: Activity,
    entries: &[Entry],
) -> Result<String, AllocError>
    ensures { IfOk result (λ text. IsStatusText notation activity entries.now (string_bytes text)) }
{
    match notation {
        Notation::Lines => status_text(alloc, activity, entries),
        Notation::Json => status_json(alloc, activity, entries),
    }
}
