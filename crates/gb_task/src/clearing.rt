//! Deletes the record and the outputs of a task's previous execution.
ghost use Rattle.std.specs.Prelude.{◌≡◌, [], List, None, false};
ghost use Rattle.std.specs.List.{list_any};
ghost use Rattle.gb_folder.specs.Calls.{Call, Requests, takes_at};
ghost use Rattle.gb_folder.specs.Device.{Leads};
ghost use Rattle.gb_folder.specs.Files.{is_own};
ghost use Rattle.gb_history.specs.Places.{record_place};
ghost use Rattle.gb_semantics.specs.Headline.{TornWritesAreDetected};
ghost use Rattle.gb_semantics.specs.Memory.{Memory, recalled};
ghost use Rattle.gb_plan.specs.Task.{is_output_of};
ghost use Rattle.gb_records.specs.Said.{IsText};
ghost use Rattle.gb_records.specs.Holding.{HoldsRecords};
ghost use Rattle.gb_folder.specs.Faults.{Blames, BlamesOnly};
ghost use Rattle.gb_task.specs.Clearing.{HasCleared};
ghost use Rattle.gb_task.specs.Executing.{is_of_execution};
ghost use Rattle.gb_task.specs.Stages.{Clears};

use crate::keeping::forget;
use gb_folder::folder::Folder;
use gb_plan::task::TaskDeclaration;
use gb_report::fault::Fault;
use gb_run::emptying::empty_outputs;
use std::alloc::Global;

/// Deletes the record of a task, where one was read, and then the files at its outputs.
pub fn clear<F: Folder>(
    alloc: Global,
    folder: &mut F,
    task: &TaskDeclaration,
    was_read: bool,
) -> Result<(), Fault>
    requires not_own { list_any (λ output. is_own output.place) task.now.outputs ≡ false }
    // Over any folder: by these calls.
    ensures calls { (calls : List Call) × Leads F.device folder.old calls folder.new
        × Clears task.now was_read calls [] result }
    ensures requests { Requests F.device (takes_at (is_of_execution task.now))
        folder.old
        folder.new }
    ensures blame { Blames result (F.device.failures folder.old) (F.device.failures folder.new) }
    ensures blamed { BlamesOnly (is_output_of task.now) result }
    ensures cleared { F.device.faithful folder.new → TornWritesAreDetected IsText record_place
        (F.device.may_leave folder.old)
        → (memory : Memory) → HoldsRecords (F.device.contents folder.old).files memory
        → (was_read ≡ false → recalled memory task.now.path ≡ None)
        → HasCleared task.now was_read memory (F.device.may_leave folder.old) (F.device.failures folder.old)
        (F.device.contents folder.old) result (F.device.failures folder.new) (F.device.contents folder.new) }
{
    forget(alloc, folder, &task.path, was_read)?;
    empty_outputs(alloc, folder, task)
}
