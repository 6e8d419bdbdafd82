//! The record of a task: deleted as its run begins, and stored as it ends.
ghost use Rattle.std.specs.Prelude.{◌≡◌, ◌≢◌, ℕ, List, None, Some, Err, false, true, IfErr, OnErr};
ghost use Rattle.gb_folder.specs.Calls.{Call, Requests, put_at, taken_at};
ghost use Rattle.gb_folder.specs.Device.{Leads};
ghost use Rattle.gb_folder.specs.Files.{is_empty};
ghost use Rattle.gb_history.specs.Places.{record_place};
ghost use Rattle.gb_history.specs.Text.{record_text};
ghost use Rattle.gb_semantics.specs.Headline.{TornWritesAreDetected};
ghost use Rattle.gb_semantics.specs.Memory.{Entry, Memory, recalled};
ghost use Rattle.gb_records.specs.Said.{IsSaidOf, IsText};
ghost use Rattle.gb_records.specs.Holding.{HoldsRecords};
ghost use Rattle.gb_task.specs.Keeping.{IsForgotten, IsRemembered, IsUnwritten};
ghost use Rattle.gb_task.specs.Stages.{DeletesRecord, StoresRecord};

use gb_core::path::TaskPath;
use gb_folder::folder::Folder;
use gb_history::record::Record;
use gb_plan::task::TaskDeclaration;
use gb_records::keeping::{delete_record, store_record};
use gb_report::fault::Fault;
use std::alloc::Global;

/// Deletes the record of a task, where one was read.
pub fn forget<F: Folder>(
    alloc: Global,
    folder: &mut F,
    path: &TaskPath,
    was_read: bool,
) -> Result<(), Fault>
    // Over any folder: by these calls.
    ensures calls { (calls : List Call) × Leads F.device folder.old calls folder.new
        × DeletesRecord path.now was_read calls result }
    ensures requests { Requests F.device (taken_at (record_place path.now)) folder.old
        folder.new }
    ensures blame { (place : List ℕ) → result ≢ Err (Fault.Device place) }
    ensures err { F.device.faithful folder.new → IfErr result
        (IsUnwritten path.now None (F.device.contents folder.old).files (F.device.failures folder.old)
        (F.device.failures folder.new)) }
    ensures read { OnErr result (was_read ≡ true) }
    ensures exists { F.device.faithful folder.new → TornWritesAreDetected IsText record_place
        (F.device.may_leave folder.old)
        → (memory : Memory) → HoldsRecords (F.device.contents folder.old).files memory
        → (was_read ≡ false → recalled memory path.now ≡ None)
        → IsForgotten path.now memory result (F.device.contents folder.new).files }
{
    // For the proof alone: `as_str` states that this is a task's path, which the contract about
    // records needs.
    let _path = path.as_str();
    if !was_read {
        return Ok(());
    }
    match delete_record(alloc, folder, path, true) {
        Ok(()) => Ok(()),
        Err(fault) => Err(fault.fault()),
    }
}

/// Stores the record of a run that ended well, of a task with outputs. Nothing is read.
pub fn remember<F: Folder>(
    alloc: Global,
    folder: &mut F,
    task: &TaskDeclaration,
    run: &Record,
) -> Result<(), Fault>
    ensures requests { Requests F.device (put_at (record_place task.now.path)
        (record_text task.now.path run.now)) folder.old folder.new }
    // Over any folder: by these calls.
    ensures calls { (calls : List Call) × Leads F.device folder.old calls folder.new
        × StoresRecord task.now run.now calls result }
    ensures blame { (place : List ℕ) → result ≢ Err (Fault.Device place) }
    ensures err { F.device.faithful folder.new → IfErr result
        (IsUnwritten task.now.path (Some (record_text task.now.path run.now))
        (F.device.contents folder.old).files
        (F.device.failures folder.old) (F.device.failures folder.new)) }
    ensures outputs { OnErr result (is_empty task.now.outputs ≡ false) }
    ensures exists { F.device.faithful folder.new → TornWritesAreDetected IsText record_place
        (F.device.may_leave folder.old)
        → (memory : Memory) (entry : Entry) → HoldsRecords (F.device.contents folder.old).files memory
        → IsSaidOf run.now entry → IsRemembered task.now entry memory result
        (F.device.contents folder.new).files }
{
    if task.outputs.as_slice().is_empty() {
        return Ok(());
    }
    match store_record(alloc, folder, &task.path, run) {
        Ok(()) => Ok(()),
        Err(unwritten) => Err(unwritten.fault()),
    }
}
