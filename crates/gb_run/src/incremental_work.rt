//! An incremental execution: computed as a value first, then done in the folder.
ghost use Rattle.std.specs.Prelude.{◌≡◌, List, [], Ok, IsTrue, IfOk, IfErr, OnOk, map};
ghost use Rattle.std.specs.FinMap.Entries.{is_sorted};
ghost use Rattle.std.specs.List.{AllByRecursion};
ghost use Rattle.gb_core.specs.Lists.{byte_order};
ghost use Rattle.gb_action.specs.Files.{Trees};
ghost use Rattle.gb_folder.specs.Calls.{Call, Requests, changes_at};
ghost use Rattle.gb_folder.specs.Device.{Leads};
ghost use Rattle.gb_folder.specs.Files.{Files, are_placed};
ghost use Rattle.gb_folder.specs.Faults.{Blames, BlamesOnly};
ghost use Rattle.gb_tree.specs.Prints.{digests_of};
ghost use Rattle.gb_plan.specs.Ready.{IsReady};
ghost use Rattle.gb_plan.specs.Task.{is_output_of, given_files, given_outputs};
ghost use Rattle.gb_semantics.specs.Headline.{Agrees};
ghost use Rattle.gb_semantics.specs.Kinds.{Kinds};
ghost use Rattle.gb_semantics.specs.Made.{made_of, rest_of};
ghost use Rattle.gb_run.specs.AskingChanges.{CanGoOn, GoesOn};
ghost use Rattle.gb_run.specs.RunInput.{EndsWell, run_input};
ghost use Rattle.gb_run.specs.Digests.{prints_at};
ghost use Rattle.gb_run.specs.Failing.{ByChanges, Fails};
ghost use Rattle.gb_run.specs.Work.{AreAtOutputs, ending};
ghost use Rattle.gb_run.specs.WorkByChanges.{RunsByChanges, increment_of};

use crate::full_work::ended;
use crate::work::Work;
use crate::work_by_changes::work_by_changes;
use crate::work_parts::do_parts;
use gb_action::actions::Actions;
use gb_action::change::ChangeLists;
use gb_action::output_files::OutputSnapshots;
use gb_action::snapshot::Snapshots;
use gb_action::table::ActionTable;
use gb_core::text::Texts;
use gb_folder::folder::Folder;
use gb_plan::task::TaskDeclaration;
use gb_report::fault::Fault;
use gb_tree::prints::Prints;
use std::alloc::Global;

/// Executes the actions of a task incrementally, over the files at its outputs. The action that
/// writes gets an incremental request. The others get full requests with the same change lists.
/// Everything is computed before anything is changed. The files that result are those of a full
/// execution, and no place is touched whose file is right. Returns the digests of what the actions
/// make: those of the files before, with the reply put over them. After an error the lines are
/// those of the actions that had ended.
pub fn run_by_changes<A: Actions, F: Folder>(
    alloc: Global,
    folder: &mut F,
    task: &TaskDeclaration,
    table: &ActionTable<A::Stored>,
    files: Snapshots,
    outputs: OutputSnapshots,
    existed: Vec<Prints>,
    changes: ChangeLists,
    lines: &mut Texts,
) -> Result<Vec<Prints>, Fault>
    requires ready { IsReady A.meanings table.now task.now }
    requires able { AllByRecursion (CanGoOn A.meanings table.now) task.now.actions }
    requires named { map (λ tree. tree.0) files ≡ given_files task.now.files }
    requires formed { map (λ output. (output.name, output.form)) outputs ≡ given_outputs task.now.outputs }
    requires prints { existed.items ≡ map (λ output. (output.name, digests_of output.files)) outputs }
    requires no_lines { lines.old ≡ [] }
    ensures named { IfOk result (λ made.
        map (λ prints. prints.0) made.items ≡ map (λ output. output.name) task.now.outputs) }
    ensures made { IfOk result (λ made. (kinds : Kinds) → Agrees A.meanings table.now kinds
        → (old : Trees) (existing : Files)
        → IsTrue (is_sorted byte_order existing) → IsTrue (are_placed existing)
        → GoesOn kinds task.now old files changes outputs existing → (held : Files)
        × (made_of kinds task.now.actions task.now.values files task.now.outputs ≡ Ok held)
        × (made.items ≡ prints_at task.now.outputs held)) }
    ensures calls { (calls : List Call) × Leads F.device folder.old calls folder.new
        × AreAtOutputs task.now calls × ((kinds : Kinds) → Agrees A.meanings table.now kinds
        → RunsByChanges (increment_of kinds task.now files changes outputs) calls lines.new
        (ending result)) }
    ensures requests { Requests F.device (changes_at (is_output_of task.now))
        folder.old
        folder.new }
    ensures blame { Blames result (F.device.failures folder.old) (F.device.failures folder.new) }
    ensures blamed { BlamesOnly (is_output_of task.now) result }
    ensures ok { F.device.faithful folder.new → OnOk result ((kinds : Kinds)
        → Agrees A.meanings table.now kinds
        → (old : Trees) → GoesOn kinds task.now old files changes outputs (F.device.contents folder.old).files
        → EndsWell (run_input kinds task.now files changes (rest_of task.now
        (F.device.contents folder.old).files))
        lines.new (F.device.contents folder.new).files) }
    ensures err { F.device.faithful folder.new → IfErr result
        (λ fault. (kinds : Kinds) → Agrees A.meanings table.now kinds
        → (old : Trees) → GoesOn kinds task.now old files changes outputs (F.device.contents folder.old).files
        → Fails (run_input kinds task.now files changes (rest_of task.now
        (F.device.contents folder.old).files))
        (ByChanges (F.device.contents folder.old).files) (F.device.may_leave folder.old)
        (F.device.failures folder.old) fault
        lines.new (F.device.failures folder.new) (F.device.contents folder.new).files) }
{
    let Work { parts, made } = work_by_changes::<A>(
        alloc, task, table, files, outputs, existed, changes,
    )?;
    let done = do_parts(alloc, folder, parts.as_slice(), lines);
    drop(parts);
    ended(done, made)
}
