//! A full execution: computed as a value first, then done in the folder.
ghost use Rattle.std.specs.Prelude.{◌≡◌, ◌++◌, [], Ok, IfOk, IfErr, OnOk, List, map};
ghost use Rattle.gb_folder.specs.Calls.{Call, Requests, changes_at};
ghost use Rattle.gb_folder.specs.Device.{Leads};
ghost use Rattle.gb_folder.specs.Files.{Files};
ghost use Rattle.gb_folder.specs.Faults.{Blames, BlamesOnly};
ghost use Rattle.gb_plan.specs.Ready.{IsReady};
ghost use Rattle.gb_plan.specs.Task.{is_output_of, given_files};
ghost use Rattle.gb_semantics.specs.Headline.{Agrees};
ghost use Rattle.gb_semantics.specs.Kinds.{Kinds};
ghost use Rattle.gb_semantics.specs.Made.{made_of};
ghost use Rattle.gb_run.specs.RunInput.{EndsWell, run_input};
ghost use Rattle.gb_run.specs.Digests.{prints_at};
ghost use Rattle.gb_run.specs.Failing.{Fails, InFull};
ghost use Rattle.gb_run.specs.Work.{AreAtOutputs, RunsInFull, ending, or_made};

use crate::work::{Work, work_in_full};
use crate::work_parts::do_parts;
use gb_action::actions::Actions;
use gb_action::change::ChangeLists;
use gb_action::snapshot::Snapshots;
use gb_action::table::ActionTable;
use gb_core::text::Texts;
use gb_folder::folder::Folder;
use gb_plan::task::TaskDeclaration;
use gb_report::fault::Fault;
use gb_tree::prints::Prints;
use std::alloc::Global;

/// Executes the actions of a task, each with a full request. It empties nothing: the caller empties
/// the outputs of the task before. What the actions make is computed before anything is changed,
/// and then written, action by action. Once the files of an action are written, its lines are
/// appended to `lines`. Returns the digests of what the actions made, even if the folder has
/// changed since.
pub fn run_in_full<A: Actions, F: Folder>(
    alloc: Global,
    folder: &mut F,
    task: &TaskDeclaration,
    table: &ActionTable<A::Stored>,
    files: Snapshots,
    changes: ChangeLists,
    lines: &mut Texts,
) -> Result<Vec<Prints>, Fault>
    requires ready { IsReady A.meanings table.now task.now }
    requires named { map (λ tree. tree.0) files ≡ given_files task.now.files }
    requires no_lines { lines.old ≡ [] }
    ensures named { IfOk result (λ made.
        map (λ prints. prints.0) made.items ≡ map (λ output. output.name) task.now.outputs) }
    ensures made { IfOk result (λ made. (kinds : Kinds) → Agrees A.meanings table.now kinds → (held : Files)
        × (made_of kinds task.now.actions task.now.values files task.now.outputs ≡ Ok held)
        × (made.items ≡ prints_at task.now.outputs held)) }
    // Over any folder: a list of calls, all at the outputs of the task, led from the old state to
    // the new one. If kinds agree, they are those of a full run with these lines and this ending.
    ensures calls { (calls : List Call) × Leads F.device folder.old calls folder.new
        × AreAtOutputs task.now calls × ((kinds : Kinds) → Agrees A.meanings table.now kinds
        → RunsInFull (run_input kinds task.now files changes []) calls lines.new (ending result)) }
    ensures requests { Requests F.device (changes_at (is_output_of task.now))
        folder.old
        folder.new }
    ensures blame { Blames result (F.device.failures folder.old) (F.device.failures folder.new) }
    ensures blamed { BlamesOnly (is_output_of task.now) result }
    ensures ok { F.device.faithful folder.new → OnOk result ((kinds : Kinds)
        → Agrees A.meanings table.now kinds
        → EndsWell (run_input kinds task.now files changes (F.device.contents folder.old).files)
        lines.new (F.device.contents folder.new).files) }
    ensures err { F.device.faithful folder.new → IfErr result
        (λ fault. (kinds : Kinds) → Agrees A.meanings table.now kinds
        → Fails (run_input kinds task.now files changes (F.device.contents folder.old).files) InFull
        (F.device.may_leave folder.old) (F.device.failures folder.old) fault
        lines.new (F.device.failures folder.new) (F.device.contents folder.new).files) }
{
    let Work { parts, made } = work_in_full::<A>(alloc, task, table, files, changes)?;
    let done = do_parts(alloc, folder, parts.as_slice(), lines);
    drop(parts);
    ended(done, made)
}

/// What a run returns: the fault of doing its work, or else the work's own result.
pub fn ended(
    done: Result<(), Fault>,
    made: Result<Vec<Prints>, Fault>,
) -> Result<Vec<Prints>, Fault>
    ensures { result ≡ or_made done made }
{
    match done {
        Ok(()) => made,
        Err(fault) => {
            drop(made);
            Err(fault)
        }
    }
}
