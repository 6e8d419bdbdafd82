//! Checks that everything at a task's outputs can be listed.
ghost use Rattle.std.specs.Prelude.{◌≡◌, [], IfErr, OnOk};
ghost use Rattle.gb_folder.specs.Calls.{OnlyReads};
ghost use Rattle.gb_semantics.specs.Tree.{listing_faults};
ghost use Rattle.gb_plan.specs.Task.{is_output_of};
ghost use Rattle.gb_folder.specs.Faults.{Blames, BlamesOnly};
ghost use Rattle.gb_label.specs.Reading.{CannotRead};

use gb_folder::folder::Folder;
use gb_plan::task::TaskDeclaration;
use gb_report::fault::Fault;
use gb_run::emptying::listed_outputs;
use std::alloc::Global;

/// Lists the outputs of a task. An error is the first unsupported entry there (fault 14), or that
/// memory ran out or the device failed (faults 3 and 10).
pub fn check_outputs<F: Folder>(
    alloc: Global,
    folder: &mut F,
    task: &TaskDeclaration,
) -> Result<(), Fault>
    ensures reads { OnlyReads F.device folder.old folder.new }
    ensures blame { Blames result (F.device.failures folder.old) (F.device.failures folder.new) }
    ensures blamed { BlamesOnly (is_output_of task.now) result }
    ensures none_special { F.device.faithful folder.new → OnOk result
        (listing_faults task.now (F.device.contents folder.old) ≡ []) }
    ensures err { F.device.faithful folder.new
        → IfErr result (CannotRead (F.device.failures folder.old) (F.device.failures folder.new)
        (listing_faults task.now (F.device.contents folder.old))) }
{
    listed_outputs(alloc, folder, task.outputs.as_slice())?;
    Ok(())
}
