//! What each file of `.gb` is.
ghost use Rattle.std.specs.Prelude.{◌≡◌, ◌++◌, List, Option, Some, IfErr, IfOk, OnOk, codes};
ghost use Rattle.std.specs.Prelude.{if◌then◌else◌, is_some, not};
ghost use Rattle.std.specs.List.{AllZip};
ghost use Rattle.gb_folder.specs.Calls.{OnlyReads};
ghost use Rattle.gb_folder.specs.Files.{Place as PlaceOf};
ghost use Rattle.gb_history.specs.Record.{Record};
ghost use Rattle.gb_plan.specs.Task.{Path, has_path};
ghost use Rattle.gb_records.specs.Said.{IsReadAt};
ghost use Rattle.gb_folder.specs.Faults.{IsOfMachine};
ghost use Rattle.gb_query.specs.Inventory.{AreEntriesOf, AreLeftAt, AreUnregistered, IsEntryOf, IsLeftAt};
ghost use Rattle.gb_query.specs.Inventory.{IsUnlisted, row_if};
ghost use Rattle.gb_query.specs.Owner.{IsOwner};

use crate::owner::owner_of;
use gb_core::path::TaskPath;
use gb_core::place::{Place, PlaceFault};
use gb_folder::folder::Folder;
use gb_folder::listing::listed_at;
use gb_records::stored_records::read_records;
use gb_report::fault::Fault;
use std::alloc::{AllocError, Global};

/// The kind of a file of `.gb`.
#[derive(Drop)]
pub enum Entry {
    /// The record of a registered task.
    Record(TaskPath),
    /// No record, at the place where the record of this task belongs.
    Damaged(TaskPath),
    /// The record of a task that is not registered.
    Unregistered(TaskPath),
    /// A file at a place where no record belongs.
    Foreign(Place),
}

/// What the files of `.gb` are, in the order of their places, if these tasks are registered. An
/// error means that memory ran out, that the device failed (`Device`), or that `.gb` has a file
/// whose name is no place's (`BadFileName`).
pub fn inventory<F: Folder>(
    alloc: Global,
    folder: &mut F,
    registered: &[TaskPath],
) -> Result<Vec<Entry>, Fault>
    ensures reads { OnlyReads F.device folder.old folder.new }
    ensures entries { F.device.faithful folder.new → IfOk result
        (λ entries. AreEntriesOf (F.device.contents folder.old).files registered.now entries.items) }
    ensures refused { F.device.faithful folder.new → IfErr result
        (IsUnlisted (F.device.contents folder.old) (F.device.failures folder.old)
        (F.device.failures folder.new)) }
{
    let own = own_folder(alloc)?;
    let places = listed_at(alloc, folder, &own)?;
    entries_of(alloc, folder, registered, places.as_slice())
}

/// The tasks that are not registered but have records in `.gb`, in the order of the places of the
/// records. If `.gb` has a file whose name is no place's, none is found.
pub fn unregistered<F: Folder>(
    alloc: Global,
    folder: &mut F,
    registered: &[TaskPath],
) -> Result<Vec<TaskPath>, Fault>
    ensures reads { OnlyReads F.device folder.old folder.new }
    ensures left { F.device.faithful folder.new → IfOk result
        (λ left. AreUnregistered (F.device.contents folder.old) registered.now left.items) }
    ensures err { F.device.faithful folder.new
        → IfErr result (IsOfMachine (F.device.failures folder.old) (F.device.failures folder.new)) }
{
    let own = own_folder(alloc)?;
    match listed_at(alloc, folder, &own) {
        Ok(places) => left_at(alloc, folder, registered, places.as_slice()),
        Err(Fault::BadFileName(_)) => Ok(Vec::new(alloc)),
        Err(fault) => Err(fault),
    }
}

/// The tasks that are not registered and whose records are at these places.
fn left_at<F: Folder>(
    alloc: Global,
    folder: &mut F,
    registered: &[TaskPath],
    places: &[Place],
) -> Result<Vec<TaskPath>, Fault>
    ensures reads { OnlyReads F.device folder.old folder.new }
    ensures left { F.device.faithful folder.new → IfOk result (λ left.
        AreLeftAt (F.device.contents folder.old).files registered.now places.now left.items) }
    ensures err { IfErr result (IsOfMachine (F.device.failures folder.old) (F.device.failures folder.new)) }
{
    let mut left = Vec::new(alloc);
    for place in places {
        push_left(alloc, folder, &mut left, registered, place)?;
    }
    Ok(left)
}

/// Adds the task whose record is at a place, if it is not registered.
fn push_left<F: Folder>(
    alloc: Global,
    folder: &mut F,
    left: &mut Vec<TaskPath>,
    registered: &[TaskPath],
    place: &Place,
) -> Result<(), Fault>
    ensures reads { OnlyReads F.device folder.old folder.new }
    ensures left { F.device.faithful folder.new → OnOk result ((row : List Path)
        × IsLeftAt (F.device.contents folder.old).files registered.now place.now row
        × (left.new.items ≡ left.old.items ++ row)) }
    ensures err { IfErr result (IsOfMachine (F.device.failures folder.old) (F.device.failures folder.new)) }
{
    match owner_of(alloc, place)? {
        Some(path) => push_owner(alloc, folder, left, registered, place, &path),
        None => Ok(()),
    }
}

/// Adds the task whose record belongs at this place, if there is one and the task is not registered.
fn push_owner<F: Folder>(
    alloc: Global,
    folder: &mut F,
    left: &mut Vec<TaskPath>,
    registered: &[TaskPath],
    place: &Place,
    path: &TaskPath,
) -> Result<(), Fault>
    requires { IsOwner place.now (Some path.now) }
    ensures reads { OnlyReads F.device folder.old folder.new }
    ensures left { F.device.faithful folder.new → OnOk result ((row : List Path)
        × IsLeftAt (F.device.contents folder.old).files registered.now place.now row
        × (left.new.items ≡ left.old.items ++ row)) }
    ensures err { IfErr result (IsOfMachine (F.device.failures folder.old) (F.device.failures folder.new)) }
{
    let is_left = is_left(alloc, folder, registered, path)?;
    push_if(left, is_left, path)?;
    Ok(())
}

/// Whether the task is not registered, but has a record.
fn is_left<F: Folder>(
    alloc: Global,
    folder: &mut F,
    registered: &[TaskPath],
    path: &TaskPath,
) -> Result<bool, Fault>
    ensures reads { OnlyReads F.device folder.old folder.new }
    ensures left { F.device.faithful folder.new → IfOk result (λ is. (place : PlaceOf)
        → IsOwner place (Some path.now)
        → IsLeftAt (F.device.contents folder.old).files registered.now place (row_if is path.now)) }
    ensures err { IfErr result (IsOfMachine (F.device.failures folder.old) (F.device.failures folder.new)) }
{
    if is_among(registered, path) {
        Ok(false)
    } else {
        has_record(alloc, folder, path)
    }
}

fn push_if(left: &mut Vec<TaskPath>, is_left: bool, path: &TaskPath) -> Result<(), AllocError>
    ensures { OnOk result (left.new.items ≡ left.old.items ++ row_if is_left path.now) }
{
    if is_left {
        left.push(path.copy()?)?;
    }
    Ok(())
}

/// The place `.gb`.
fn own_folder(alloc: Global) -> Result<Place, AllocError>
    ensures { IfOk result (λ place. place ≡ codes ".gb") }
{
    match Place::read(alloc, ".gb") {
        Ok(place) => Ok(place),
        Err(PlaceFault::OutOfMemory) => Err(AllocError),
        Err(PlaceFault::BadPlace) => unreachable!(),
    }
}

/// The kinds of the files at these places.
fn entries_of<F: Folder>(
    alloc: Global,
    folder: &mut F,
    registered: &[TaskPath],
    places: &[Place],
) -> Result<Vec<Entry>, Fault>
    ensures reads { OnlyReads F.device folder.old folder.new }
    ensures entries { F.device.faithful folder.new → IfOk result (λ entries.
        AllZip (IsEntryOf (F.device.contents folder.old).files registered.now) places.now entries.items) }
    ensures err { IfErr result (IsOfMachine (F.device.failures folder.old) (F.device.failures folder.new)) }
{
    let mut entries = Vec::new(alloc);
    for place in places {
        entries.push(entry_of(alloc, folder, registered, place)?)?;
    }
    Ok(entries)
}

/// The kind of the file at a place.
fn entry_of<F: Folder>(
    alloc: Global,
    folder: &mut F,
    registered: &[TaskPath],
    place: &Place,
) -> Result<Entry, Fault>
    ensures reads { OnlyReads F.device folder.old folder.new }
    ensures entry { F.device.faithful folder.new → IfOk result
        (IsEntryOf (F.device.contents folder.old).files registered.now place.now) }
    ensures err { IfErr result (IsOfMachine (F.device.failures folder.old) (F.device.failures folder.new)) }
{
    match owner_of(alloc, place)? {
        Some(path) => record_entry(alloc, folder, registered, place, path),
        None => Ok(Entry::Foreign(place.copy()?)),
    }
}

/// The kind of the file at the place where the record of this task belongs.
fn record_entry<F: Folder>(
    alloc: Global,
    folder: &mut F,
    registered: &[TaskPath],
    place: &Place,
    path: TaskPath,
) -> Result<Entry, Fault>
    requires { IsOwner place.now (Some path) }
    ensures reads { OnlyReads F.device folder.old folder.new }
    ensures entry { F.device.faithful folder.new → IfOk result
        (IsEntryOf (F.device.contents folder.old).files registered.now place.now) }
    ensures err { IfErr result (IsOfMachine (F.device.failures folder.old) (F.device.failures folder.new)) }
{
    let has_record = has_record(alloc, folder, &path)?;
    Ok(class_of(registered, path, has_record))
}

/// The entry of a task whose file is a record or is not one.
fn class_of(registered: &[TaskPath], path: TaskPath, has_record: bool) -> Entry
    ensures { result ≡ (if not has_record then Entry.Damaged path
        else if has_path registered.now path then Entry.Record path else Entry.Unregistered path) }
{
    if !has_record {
        Entry::Damaged(path)
    } else if is_among(registered, &path) {
        Entry::Record(path)
    } else {
        Entry::Unregistered(path)
    }
}

fn is_among(registered: &[TaskPath], path: &TaskPath) -> bool
    ensures { result ≡ has_path registered.now path.now }
{
    registered.iter().any(|other| *path == *other)
}

/// Whether there is a record of the task.
fn has_record<F: Folder>(alloc: Global, folder: &mut F, path: &TaskPath) -> Result<bool, Fault>
    ensures reads { OnlyReads F.device folder.old folder.new }
    ensures read { F.device.faithful folder.new → IfOk result (λ has_record. (read : Option Record)
        × IsReadAt (F.device.contents folder.old).files path.now read × (has_record ≡ is_some read)) }
    ensures err { IfErr result (IsOfMachine (F.device.failures folder.old) (F.device.failures folder.new)) }
{
    let mut paths = Vec::new(alloc);
    paths.push(path.copy()?)?;
    let records = read_records(alloc, folder, paths.as_slice())?;
    match records.as_slice() {
        [record] => Ok(record.is_some()),
        _ => unreachable!(),
    }
}
