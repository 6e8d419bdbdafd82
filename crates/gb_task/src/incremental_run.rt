//! An incremental run of a task, by changes that were decided on what it works on.
ghost use Rattle.std.specs.Prelude.{◌≡◌, ◌≤◌, [], List, false, true, map, IfOk, IfErr, OnOk};
ghost use Rattle.std.specs.List.{AllByRecursion};
ghost use Rattle.gb_action.specs.Files.{Trees};
ghost use Rattle.gb_folder.specs.Calls.{Call, Requests, changes_at};
ghost use Rattle.gb_folder.specs.Device.{Leads};
ghost use Rattle.gb_label.specs.Deciding.{HasNamesInOrder};
ghost use Rattle.gb_label.specs.Reading.{digests_in, prints_observed, observed_of};
ghost use Rattle.gb_semantics.specs.Headline.{Agrees};
ghost use Rattle.gb_semantics.specs.Kinds.{Kinds};
ghost use Rattle.gb_semantics.specs.Label.{Moment};
ghost use Rattle.gb_semantics.specs.Made.{rest_of};
ghost use Rattle.gb_semantics.specs.Tree.{trees_of};
ghost use Rattle.gb_plan.specs.Graph.{Plan, reads_output_of, some_overlap};
ghost use Rattle.gb_plan.specs.Ready.{IsReady};
ghost use Rattle.gb_plan.specs.Task.{is_output_of, output_places, given_files, given_outputs};
ghost use Rattle.gb_records.specs.Assumed.{IsAssumed};
ghost use Rattle.gb_report.specs.declared.report.Options.{Options};
ghost use Rattle.gb_run.specs.AskingChanges.{CanGoOn, GoesOn};
ghost use Rattle.gb_run.specs.RunInput.{EndsWell, run_input};
ghost use Rattle.gb_run.specs.Failing.{ByChanges, Fails};
ghost use Rattle.gb_run.specs.Doing.{Ending};
ghost use Rattle.gb_run.specs.Work.{ending};
ghost use Rattle.gb_folder.specs.Faults.{Blames, BlamesOnly};
ghost use Rattle.gb_task.specs.Buildable.{IsBuildable};
ghost use Rattle.gb_task.specs.Stages.{HasMade, IsOfRunByChanges, RunByChanges, WritesChanges};
ghost use Rattle.gb_task.specs.Executing.{BeginsAt, HasExecuted, IsDueByChanges, Registering};
ghost use Rattle.gb_task.specs.Executing.{is_of_execution, report_of, setting_with};

use crate::keeping::{forget, remember};
use gb_action::actions::Actions;
use gb_action::change::ChangeLists;
use gb_action::table::ActionTable;
use gb_core::text::Texts;
use gb_folder::folder::Folder;
use gb_history::record::Record;
use gb_label::inputs::Inputs;
use gb_label::new_record::record_of;
use gb_label::outputs::{Outputs, records_of};
use gb_plan::task::TaskDeclaration;
use gb_report::fault::Fault;
use gb_run::incremental_work::run_by_changes;
use std::alloc::Global;

/// Deletes the record, runs the actions by these changes over the files that are at the outputs,
/// and stores the new record.
pub(crate) fn run_by_decided_changes<A: Actions, F: Folder>(
    alloc: Global,
    folder: &mut F,
    task: &TaskDeclaration,
    table: &ActionTable<A::Stored>,
    inputs: Inputs,
    outputs: Outputs,
    changes: ChangeLists,
    lines: &mut Texts,
) -> Result<(), Fault>
    requires buildable { IsBuildable A.meanings table.now task.now }
    requires able { AllByRecursion (CanGoOn A.meanings table.now) task.now.actions }
    requires separate { reads_output_of task.now task.now ≡ false }
    requires outputs_separate { some_overlap (output_places task.now) ≡ false }
    requires named { map (λ tree. tree.0) inputs.trees ≡ given_files task.now.files }
    requires digests { inputs.prints.items ≡ digests_in inputs.trees }
    requires formed { map (λ output. (output.name, output.form)) outputs.observed
        ≡ given_outputs task.now.outputs }
    requires existed { outputs.prints.items ≡ prints_observed outputs.observed }
    requires no_lines { lines.old ≡ [] }
    // Over any folder: it is a run by these changes, by these calls.
    ensures ran { (calls : List Call) × Leads F.device folder.old calls folder.new
        × RunByChanges A.meanings table.now task.now inputs.trees changes outputs.observed calls lines.new
        result }
    ensures requests { Requests F.device (changes_at (is_of_execution task.now)) folder.old folder.new }
    ensures blame { Blames result (F.device.failures folder.old) (F.device.failures folder.new) }
    ensures blamed { BlamesOnly (is_output_of task.now) result }
    // Where the incremental run by these changes is due, this is the task's execution.
    ensures execution { F.device.faithful folder.new → (kinds : Kinds) (registry_of : Registering)
        (options : Options)
        (plan : Plan) (moment : Moment) → IsAssumed A.meanings table.now kinds (F.device.may_leave folder.old)
        → BeginsAt task.now true (F.device.contents folder.old) (F.device.failures folder.old) moment
        → inputs.trees ≡ trees_of task.now (F.device.contents folder.old).files
        → outputs.observed ≡ map (observed_of (F.device.contents folder.old).files) task.now.outputs
        → IsDueByChanges kinds options task.now moment.world changes
        → HasExecuted (setting_with kinds registry_of (F.device.may_leave folder.old)) options plan task.now
        moment
        (report_of task.now result lines.new)
        (F.device.contents folder.old) (F.device.failures folder.new) (F.device.contents folder.new) }
{
    // For the proof alone: `as_str` states that this is a task's path, which the contract about
    // records needs.
    let _path = task.path.as_str();
    forget(alloc, folder, &task.path, true)?;
    let run = make_by_changes::<A, F>(alloc, folder, task, table, inputs, outputs, changes, lines)?;
    remember(alloc, folder, task, &run)
}

/// Runs the actions by these changes and returns the record of the run; its outputs are the former
/// files with the reply written over them.
fn make_by_changes<A: Actions, F: Folder>(
    alloc: Global,
    folder: &mut F,
    task: &TaskDeclaration,
    table: &ActionTable<A::Stored>,
    inputs: Inputs,
    outputs: Outputs,
    changes: ChangeLists,
    lines: &mut Texts,
) -> Result<Record, Fault>
    requires ready { IsReady A.meanings table.now task.now }
    requires able { AllByRecursion (CanGoOn A.meanings table.now) task.now.actions }
    requires in_order { HasNamesInOrder task.now }
    requires named { map (λ tree. tree.0) inputs.trees ≡ given_files task.now.files }
    requires digests { inputs.prints.items ≡ digests_in inputs.trees }
    requires formed { map (λ output. (output.name, output.form)) outputs.observed
        ≡ given_outputs task.now.outputs }
    requires existed { outputs.prints.items ≡ prints_observed outputs.observed }
    requires no_lines { lines.old ≡ [] }
    ensures requests { Requests F.device (changes_at (is_output_of task.now))
        folder.old
        folder.new }
    ensures blame { Blames result (F.device.failures folder.old) (F.device.failures folder.new) }
    ensures blamed { BlamesOnly (is_output_of task.now) result }
    // Over any folder: by these calls, with just the bytes and the lines of the actions.
    ensures calls { (calls : List Call) × (ran : Ending) × Leads F.device folder.old calls folder.new
        × WritesChanges A.meanings table.now task.now inputs.trees changes outputs.observed calls lines.new
        ran
        × HasMade ran (ending result) }
    // Over any folder, whoever else writes in it: the record is true. The premise: what was read at
    // the outputs was made from old trees, and the changes lead from these to the trees of this
    // run.
    ensures made { IfOk result
        (IsOfRunByChanges A.meanings table.now task.now inputs.trees changes outputs.observed) }
    ensures ok { F.device.faithful folder.new → OnOk result ((kinds : Kinds)
        → Agrees A.meanings table.now kinds
        → (old : Trees)
        → GoesOn kinds task.now old inputs.trees changes outputs.observed (F.device.contents folder.old).files
        → EndsWell (run_input kinds task.now inputs.trees changes
        (rest_of task.now (F.device.contents folder.old).files))
        lines.new (F.device.contents folder.new).files) }
    ensures err { F.device.faithful folder.new → IfErr result
        (λ fault. (kinds : Kinds) → Agrees A.meanings table.now kinds
        → (old : Trees)
        → GoesOn kinds task.now old inputs.trees changes outputs.observed (F.device.contents folder.old).files
        → Fails (run_input kinds task.now inputs.trees changes
        (rest_of task.now (F.device.contents folder.old).files))
        (ByChanges (F.device.contents folder.old).files) (F.device.may_leave folder.old)
        (F.device.failures folder.old) fault
        lines.new (F.device.failures folder.new) (F.device.contents folder.new).files) }
{
    let Inputs { trees, prints } = inputs;
    let Outputs {
        observed,
        prints: existed,
    } = outputs;
    let made = run_by_changes::<A, F>(
        alloc, folder, task, table, trees, observed, existed, changes, lines,
    )?;
    let outputs = records_of(alloc, task, made)?;
    Ok(record_of(alloc, task, prints, outputs)?)
}
