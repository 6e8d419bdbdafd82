//! The task whose record belongs at a place.
ghost use Rattle.std.specs.Prelude.{◌≡◌, ◌↔◌, ◌==◌, ℕ, List, Some, IfOk, IsSomeAnd, IsTrue, if◌then◌else◌};
ghost use Rattle.gb_core.specs.Path.{is_task_path};
ghost use Rattle.gb_core.specs.Place.{is_place};
ghost use Rattle.gb_history.specs.Places.{record_place, slashed};
ghost use Rattle.gb_query.specs.Owner.{IsOwner, coloned};

use gb_core::name::NameFault;
use gb_core::path::TaskPath;
use gb_core::place::{Place, PlaceFault};
use gb_history::record_place::record_place;
use std::alloc::{AllocError, Global};

/// The task whose record belongs at this place, if there is one.
pub fn owner_of(alloc: Global, place: &Place) -> Result<Option<TaskPath>, AllocError>
    ensures { IfOk result (IsOwner place.now) }
{
    match candidate(alloc, place.as_str().as_bytes())? {
        Some(path) => confirmed(alloc, path, place),
        None => Ok(None),
    }
}

/// The task, if its record belongs at the place.
fn confirmed(alloc: Global, path: TaskPath, place: &Place) -> Result<Option<TaskPath>, AllocError>
    requires { (other : List ℕ) → IsTrue (is_task_path other) → record_place other ≡ place.now
        → path ≡ other }
    ensures { IfOk result (IsOwner place.now) }
{
    if belongs(alloc, &path, place.as_str())? {
        Ok(Some(path))
    } else {
        Ok(None)
    }
}

/// Whether the record of the task belongs at the place.
fn belongs(alloc: Global, path: &TaskPath, place: &str) -> Result<bool, AllocError>
    requires { IsTrue (is_place place.now) }
    ensures at { IfOk result (λ belongs. IsTrue belongs ↔ (record_place path.now ≡ place.now)) }
    ensures path { IsTrue (is_task_path path.now) }
{
    let _text = path.as_str();
    match record_place(alloc, path) {
        Ok(own) => Ok(own.as_str() == place),
        Err(PlaceFault::OutOfMemory) => Err(AllocError),
        Err(PlaceFault::BadPlace) => Ok(false),
    }
}

/// The only task whose record may belong there.
fn candidate(alloc: Global, place: &[u8]) -> Result<Option<TaskPath>, AllocError>
    ensures { (path : List ℕ) → IsTrue (is_task_path path) → record_place path ≡ place.now
        → IfOk result (λ found. found ≡ Some path) }
{
    match middle(place) {
        Some(text) => path_of(alloc, text),
        None => Ok(None),
    }
}

/// The text between the folder of records and their ending.
fn middle(place: &[u8]) -> Option<&[u8]>
    ensures { (path : List ℕ) → record_place path ≡ place.now
        → IsSomeAnd result (λ text. text.now ≡ slashed path) }
{
    place.strip_prefix(b".gb/tasks")?.strip_suffix(b".record")
}

/// The path that this text becomes when its slashes are replaced by colons, if it is one.
fn path_of(alloc: Global, text: &[u8]) -> Result<Option<TaskPath>, AllocError>
    ensures { (path : List ℕ) → IsTrue (is_task_path path) → text.now ≡ slashed path
        → IfOk result (λ found. found ≡ Some path) }
{
    let bytes = coloned(alloc, text)?;
    match std::str::from_utf8(bytes.as_slice()) {
        Ok(text) => read_path(alloc, text),
        Err(_) => Ok(None),
    }
}

/// The text with each slash replaced by a colon.
fn coloned(alloc: Global, text: &[u8]) -> Result<Vec<u8>, AllocError>
    ensures { IfOk result (λ bytes. bytes.items ≡ coloned text.now) }
{
    text.iter().map(|byte| with_colon(*byte)).collect(alloc)
}

fn with_colon(byte: u8) -> u8
    ensures { result ≡ (if byte == 47 then 58 else byte) }
{
    if byte == b'/' { b':' } else { byte }
}

fn read_path(alloc: Global, text: &str) -> Result<Option<TaskPath>, AllocError>
    ensures { IsTrue (is_task_path text.now) → IfOk result (λ found. found ≡ Some text.now) }
{
    match TaskPath::read(alloc, text) {
        Ok(path) => Ok(Some(path)),
        Err(NameFault::OutOfMemory) => Err(AllocError),
        Err(NameFault::BadName) => Ok(None),
    }
}
