//! Stores and deletes records.
ghost use Rattle.std.specs.Prelude.{◌≡◌, ◌∷◌, [], ℕ, List, Some, None, Ok, false, length, IsTrue, IfOk};
ghost use Rattle.std.specs.Prelude.{IfErr, IsErrOf, OnOk};
ghost use Rattle.gb_core.specs.Path.{is_task_path};
ghost use Rattle.gb_core.specs.Place.{is_place};
ghost use Rattle.gb_folder.specs.Calls.{Requests, Call, put_at, taken_at};
ghost use Rattle.gb_folder.specs.Device.{Leads};
ghost use Rattle.gb_history.specs.Places.{record_place};
ghost use Rattle.gb_history.specs.Text.{record_text};
ghost use Rattle.gb_semantics.specs.Headline.{TornWritesAreDetected};
ghost use Rattle.gb_semantics.specs.Memory.{Entry, Memory, recalled};
ghost use Rattle.gb_records.specs.Called.{Deletion, Storing};
ghost use Rattle.gb_records.specs.Faults.{removed_by};
ghost use Rattle.gb_records.specs.Said.{IsText, IsSaidOf};
ghost use Rattle.gb_records.specs.Holding.{ComesToNothing, HoldsRecords, HoldsWithout};
ghost use Rattle.gb_records.specs.Holding.{HoldsWith, taken_out, written_in};

use crate::fault::{Unwritten, unwritten_by};
use crate::stored_records::MAX_RECORD;
use gb_core::path::TaskPath;
use gb_core::place::{Place, PlaceFault};
use gb_folder::calls::{remove, write};
use gb_folder::folder::{Folder, FolderFault};
use gb_history::record::Record;
use gb_history::record_place::record_place;
use gb_history::record_text::record_text;
use std::alloc::Global;

/// Deletes the record of a task, if one was read.
pub fn delete_record<F: Folder>(
    alloc: Global,
    folder: &mut F,
    path: &TaskPath,
    was_read: bool,
) -> Result<(), Unwritten>
    // Over any folder: by one call, or by none if no record was read.
    ensures calls { (calls : List Call) × Leads F.device folder.old calls folder.new
        × Deletion path.now was_read calls result }
    ensures requests { Requests F.device (taken_at (record_place path.now)) folder.old
        folder.new }
    ensures unread { was_read ≡ false → folder.new ≡ folder.old }
    ensures out { F.device.faithful folder.new → OnOk result
        (F.device.contents folder.new ≡ taken_out was_read path.now (F.device.contents folder.old)) }
    ensures err { F.device.faithful folder.new → IfErr result (λ fault. ComesToNothing
        (F.device.may_leave folder.old)
        path.now None (F.device.failures folder.old) (F.device.failures folder.new)
        (F.device.contents folder.old) fault
        (F.device.contents folder.new)) }
    // Which records exist then.
    ensures exists { F.device.faithful folder.new
        → TornWritesAreDetected IsText record_place (F.device.may_leave folder.old)
        → (memory : Memory) → HoldsRecords (F.device.contents folder.old).files memory
        → (was_read ≡ false → recalled memory path.now ≡ None)
        → HoldsWithout path.now memory result (F.device.contents folder.new).files }
{
    // For the proof alone: `as_str` states that this is a task's path, which the contract about
    // records needs.
    let _path = path.as_str();
    if !was_read {
        return Ok(());
    }
    let place = place_of(alloc, path)?;
    match remove(folder, &place) {
        Ok(()) => Ok(()),
        Err(fault) => unless_missing(fault),
    }
}

/// Why nothing was deleted, unless nothing was there.
fn unless_missing(fault: FolderFault) -> Result<(), Unwritten>
    ensures { result ≡ removed_by fault }
{
    match fault {
        FolderFault::Missing => Ok(()),
        other => Err(unwritten_by(other)),
    }
}

/// Stores the record of a task at its place. It replaces the one that is there, if any.
pub fn store_record<F: Folder>(
    alloc: Global,
    folder: &mut F,
    path: &TaskPath,
    run: &Record,
) -> Result<(), Unwritten>
    ensures requests { Requests F.device (put_at (record_place path.now) (record_text
        path.now run.now)) folder.old folder.new }
    // Over any folder: by one call, with its very text.
    ensures calls { (calls : List Call) × Leads F.device folder.old calls folder.new
        × Storing path.now run.now calls result }
    ensures written { F.device.faithful folder.new → OnOk result
        (F.device.contents folder.new ≡ written_in path.now run.now (F.device.contents folder.old)) }
    ensures said { OnOk result (IsText path.now run.now (record_text path.now run.now)) }
    ensures err { F.device.faithful folder.new
        → IfErr result (λ fault. ComesToNothing (F.device.may_leave folder.old) path.now
        (Some (record_text path.now run.now)) (F.device.failures folder.old) (F.device.failures folder.new)
        (F.device.contents folder.old) fault (F.device.contents folder.new)) }
    // Which records exist then.
    ensures exists { F.device.faithful folder.new
        → TornWritesAreDetected IsText record_place (F.device.may_leave folder.old)
        → (memory : Memory) (entry : Entry) → HoldsRecords (F.device.contents folder.old).files memory
        → IsSaidOf run.now entry
        → HoldsWith path.now entry memory result (F.device.contents folder.new).files }
{
    let text = record_text(alloc, path, run)?;
    if text.len() as u64 > MAX_RECORD {
        return Err(Unwritten::NotWritten);
    }
    let place = place_of(alloc, path)?;
    match write(folder, &place, text.as_slice(), MAX_RECORD) {
        Ok(()) => Ok(()),
        Err(fault) => Err(unwritten_by(fault)),
    }
}

/// The place of a task's record.
fn place_of(alloc: Global, path: &TaskPath) -> Result<Place, Unwritten>
    ensures place { IfOk result (λ place. place ≡ record_place path.now) }
    ensures path { OnOk result (IsTrue (is_task_path path.now)) }
    ensures shut { IsErrOf result Unwritten.NotWritten → is_place (record_place path.now) ≡ false }
{
    match record_place(alloc, path) {
        Ok(place) => Ok(place),
        Err(PlaceFault::OutOfMemory) => Err(Unwritten::OutOfMemory),
        Err(PlaceFault::BadPlace) => Err(Unwritten::NotWritten),
    }
}
