//! The execution of a task that may run incrementally, starting from the outputs of its previous
//! execution.
ghost use Rattle.std.specs.Prelude.{◌≡◌, ◌≤◌, ◌⊎◌, ◌||◌, [], ℕ, List, false, true, not, IsTrue};
ghost use Rattle.std.specs.List.{AllByRecursion};
ghost use Rattle.gb_folder.specs.Calls.{Requests, changes_at, no_change};
ghost use Rattle.gb_folder.specs.Files.{HasRisen, is_empty};
ghost use Rattle.gb_label.specs.Looking.{lacks_source};
ghost use Rattle.gb_label.specs.ReadingAnswered.{AreInputsAnswered, AreOutputsAnswered};
ghost use Rattle.gb_label.specs.Reading.{AreInputs, AreInputsObserved, AreOutputs};
ghost use Rattle.gb_label.specs.Reading.{AreOutputsObserved, is_input_of};
ghost use Rattle.gb_semantics.specs.Kinds.{Kinds};
ghost use Rattle.gb_semantics.specs.Label.{Moment};
ghost use Rattle.gb_plan.specs.Graph.{Plan, reads_output_of, some_overlap};
ghost use Rattle.gb_plan.specs.Task.{is_output_of, output_places};
ghost use Rattle.gb_records.specs.Assumed.{IsAssumed};
ghost use Rattle.gb_report.specs.declared.report.Outcome.TheVariants.{Failed};
ghost use Rattle.gb_run.specs.AskingChanges.{CanGoOn};
ghost use Rattle.gb_folder.specs.Faults.{Blames, BlamesOnly};
ghost use Rattle.gb_task.specs.Buildable.{IsBuildable};
ghost use Rattle.gb_task.specs.Ran.{EndsAs, OnlyRead, RanFrom};
ghost use Rattle.gb_task.specs.Executing.{BeginsAt, HasExecuted, IsToGoOn, IsReportedOf, Registering};
ghost use Rattle.gb_task.specs.Executing.{is_of_execution, outcome_of, report_of, setting_with};

use crate::full::{outcome_of, run_on};
use crate::incremental_run::run_by_decided_changes;
use crate::recheck::{Recheck, recheck_task};
use gb_action::actions::Actions;
use gb_action::table::ActionTable;
use gb_core::path::TaskPath;
use gb_core::text::Texts;
use gb_folder::folder::Folder;
use gb_history::record::Record;
use gb_label::prepare::Observed;
use gb_plan::task::TaskDeclaration;
use gb_report::fault::Fault;
use gb_report::report::{Options, TaskReport};
use std::alloc::Global;

/// Executes a task that may run incrementally, starting from the outputs of its previous execution
/// (`last` is its record), on its inputs and outputs as they were read. `path` is a copy of the
/// task's path, made in advance: it is moved into the report, so that a report allocates nothing.
pub fn execute_by_changes<A: Actions, F: Folder>(
    alloc: Global,
    folder: &mut F,
    task: &TaskDeclaration,
    path: TaskPath,
    table: &ActionTable<A::Stored>,
    options: Options,
    last: &Record,
    observed: Observed,
) -> TaskReport
    requires buildable { IsBuildable A.meanings table.now task.now }
    requires able { AllByRecursion (CanGoOn A.meanings table.now) task.now.actions }
    requires separate { reads_output_of task.now task.now ≡ false }
    requires outputs_separate { some_overlap (output_places task.now) ≡ false }
    requires path { path ≡ task.now.path }
    requires inputs { AreInputs task.now observed.inputs.items }
    requires source { lacks_source task.now.files observed.inputs.items ≡ false }
    requires outputs { AreOutputs task.now observed.outputs.items }
    ensures path { result.path ≡ task.now.path }
    ensures requests { Requests F.device (changes_at (is_of_execution task.now)) folder.old folder.new }
    ensures has_actions { result.has_actions ≡ not (is_empty task.now.actions) }
    ensures outcome { IsReportedOf outcome_of result.outcome }
    // Over any folder: where calls returned its inputs and outputs since a state of the folder, without
    // a change, it only read and failed, or it ran on just these, in full or by the changes.
    ensures ran { (first : _) → Requests F.device no_change first folder.old
        → AreInputsAnswered F.device first folder.old task.now observed.inputs.items
        → AreOutputsAnswered F.device first folder.old task.now observed.outputs.items
        → EndsAs (λ ended. OnlyRead F.device result.lines ended first folder.new
        ⊎ RanFrom F.device A.meanings table.now task.now options last.now result.lines
        ended first folder.new) result.outcome }
    ensures blame { (place : List ℕ) → result.outcome ≡ Failed (Fault.Device place)
        → HasRisen (F.device.failures folder.old) (F.device.failures folder.new) }
    ensures blamed { (place : List ℕ) → result.outcome ≡ Failed (Fault.Device place)
        → IsTrue (is_input_of task.now place || is_output_of task.now place) }
    // Where the task runs incrementally, based on its record, this is its execution.
    ensures execution { F.device.faithful folder.new → (kinds : Kinds) (registry_of : Registering)
        (plan : Plan) (moment : Moment) → IsAssumed A.meanings table.now kinds (F.device.may_leave folder.old)
        → BeginsAt task.now true (F.device.contents folder.old) (F.device.failures folder.old) moment
        → AreInputsObserved task.now (F.device.contents folder.old).files observed.inputs.items
        → AreOutputsObserved task.now (F.device.contents folder.old).files observed.outputs.items
        → IsToGoOn kinds options task.now moment.world last.now
        → HasExecuted (setting_with kinds registry_of (F.device.may_leave folder.old)) options plan task.now
        moment
        result (F.device.contents folder.old) (F.device.failures folder.new) (F.device.contents folder.new) }
{
    let has_actions = !task.actions.is_empty();
    let mut lines = Texts::new(alloc);
    let ended = go_on::<A, F>(
        alloc, folder, task, table, options, last, observed, &mut lines,
    );
    TaskReport {
        path,
        outcome: outcome_of(ended),
        has_actions,
        lines,
    }
}

/// Reads the remaining contents, decides once more, and runs according to that decision.
fn go_on<A: Actions, F: Folder>(
    alloc: Global,
    folder: &mut F,
    task: &TaskDeclaration,
    table: &ActionTable<A::Stored>,
    options: Options,
    last: &Record,
    observed: Observed,
    lines: &mut Texts,
) -> Result<(), Fault>
    requires buildable { IsBuildable A.meanings table.now task.now }
    requires able { AllByRecursion (CanGoOn A.meanings table.now) task.now.actions }
    requires separate { reads_output_of task.now task.now ≡ false }
    requires outputs_separate { some_overlap (output_places task.now) ≡ false }
    requires inputs { AreInputs task.now observed.inputs.items }
    requires source { lacks_source task.now.files observed.inputs.items ≡ false }
    requires outputs { AreOutputs task.now observed.outputs.items }
    requires no_lines { lines.old ≡ [] }
    // Over any folder: where calls returned its inputs and outputs since a state of the folder, without
    // a change, it only read and failed, or it ran on just these, in full or by the changes.
    ensures ran { (first : _) → Requests F.device no_change first folder.old
        → AreInputsAnswered F.device first folder.old task.now observed.inputs.items
        → AreOutputsAnswered F.device first folder.old task.now observed.outputs.items
        → OnlyRead F.device lines.new result first folder.new
        ⊎ RanFrom F.device A.meanings table.now task.now options last.now lines.new
        result first folder.new }
    ensures requests { Requests F.device (changes_at (is_of_execution task.now)) folder.old folder.new }
    ensures blame { Blames result (F.device.failures folder.old) (F.device.failures folder.new) }
    ensures blamed { BlamesOnly (λ place. is_input_of task.now place || is_output_of task.now place) result }
    ensures execution { F.device.faithful folder.new → (kinds : Kinds) (registry_of : Registering)
        (plan : Plan) (moment : Moment) → IsAssumed A.meanings table.now kinds (F.device.may_leave folder.old)
        → BeginsAt task.now true (F.device.contents folder.old) (F.device.failures folder.old) moment
        → AreInputsObserved task.now (F.device.contents folder.old).files observed.inputs.items
        → AreOutputsObserved task.now (F.device.contents folder.old).files observed.outputs.items
        → IsToGoOn kinds options task.now moment.world last.now
        → HasExecuted (setting_with kinds registry_of (F.device.may_leave folder.old)) options plan task.now
        moment
        (report_of task.now result lines.new)
        (F.device.contents folder.old) (F.device.failures folder.new) (F.device.contents folder.new) }
{
    match recheck_task(alloc, folder, task, options, last, observed)? {
        Recheck::ByChanges(inputs, outputs, changes) => {
            run_by_decided_changes::<A, F>(
                alloc, folder, task, table, inputs, outputs, changes, lines,
            )
        }
        Recheck::InFull(inputs) => run_on::<A, F>(alloc, folder, task, table, inputs, true, lines),
    }
}
