//! Where the record of a task is stored.
ghost use Rattle.std.specs.Prelude.{◌≡◌, ◌++◌, map, false, IfOk, IsErrOf, IsTrue, OnOk};
ghost use Rattle.gb_core.specs.Path.{is_task_path};
ghost use Rattle.gb_core.specs.Place.{is_place};
ghost use Rattle.gb_history.specs.Places.{slashed, record_place, PlacesAreDistinct, NoPlaceBeneath};

use gb_core::path::TaskPath;
use gb_core::place::{Place, PlaceFault};
use std::alloc::{AllocError, Global};

/// Appends the bytes of a path to a text, each colon as a slash.
fn push_slashed(text: &mut Vec<u8>, path: &[u8]) -> Result<(), AllocError>
    ensures { OnOk result (text.new.items ≡ text.old.items ++ slashed path.now) }
{
    for byte in path {
        text.push(if *byte == b':' { b'/' } else { *byte })?;
    }
    Ok(())
}

fn record_bytes(alloc: Global, path: &TaskPath) -> Result<Vec<u8>, AllocError>
    ensures text { IfOk result (λ text. text.items ≡ record_place path.now) }
    ensures path { OnOk result (IsTrue (is_task_path path.now)) }
{
    let mut text = Vec::new(alloc);
    text.extend_from_slice(b".gb/tasks")?;
    push_slashed(&mut text, path.as_str().as_bytes())?;
    text.extend_from_slice(b".record")?;
    Ok(text)
}

/// The place of the record of a task, as `.gb/tasks/lib/gen.record` of `:lib:gen`.
pub fn record_place(alloc: Global, path: &TaskPath) -> Result<Place, PlaceFault>
    ensures place { IfOk result (λ place. place ≡ record_place path.now) }
    ensures good { IfOk result (λ _. IsTrue (is_place (record_place path.now))) }
    ensures path { OnOk result (IsTrue (is_task_path path.now)) }
    ensures bad { IsErrOf result PlaceFault.BadPlace → is_place (record_place path.now) ≡ false }
{
    let text = record_bytes(alloc, path)?;
    match std::str::from_utf8(text.as_slice()) {
        Ok(text) => Place::read(alloc, text),
        Err(_) => Err(PlaceFault::BadPlace),
    }
}

/// Two tasks have two places.
pub fn places_are_distinct()
    ensures { PlacesAreDistinct }
{}

/// No record's place lies under another's.
pub fn no_place_beneath()
    ensures { NoPlaceBeneath }
{}
