//! A full run of a task.
ghost use Rattle.std.specs.Prelude.{◌≡◌, ◌≤◌, ◌⊎◌, ◌||◌, [], ℕ, List, false, not, map};
ghost use Rattle.std.specs.Prelude.{IsTrue, IfOk, IfErr, OnOk};
ghost use Rattle.gb_folder.specs.Calls.{Call, Requests, changes_at, no_change};
ghost use Rattle.gb_folder.specs.Device.{Leads};
ghost use Rattle.gb_folder.specs.Files.{HasRisen, is_empty};
ghost use Rattle.gb_label.specs.Deciding.{HasNamesInOrder};
ghost use Rattle.gb_label.specs.Looking.{lacks_source};
ghost use Rattle.gb_label.specs.ReadingAnswered.{AreInputsAnswered};
ghost use Rattle.gb_label.specs.Reading.{AreInputs, AreInputsObserved, digests_in, is_input_of};
ghost use Rattle.gb_semantics.specs.Headline.{Agrees};
ghost use Rattle.gb_semantics.specs.Kinds.{Kinds};
ghost use Rattle.gb_semantics.specs.Label.{Moment};
ghost use Rattle.gb_semantics.specs.Tree.{trees_of};
ghost use Rattle.gb_plan.specs.Graph.{Plan, reads_output_of};
ghost use Rattle.gb_plan.specs.Ready.{IsReady};
ghost use Rattle.gb_plan.specs.Task.{is_output_of, given_files};
ghost use Rattle.gb_records.specs.Assumed.{IsAssumed};
ghost use Rattle.gb_report.specs.declared.report.Options.{Options};
ghost use Rattle.gb_report.specs.declared.report.Outcome.TheVariants.{Failed};
ghost use Rattle.gb_run.specs.RunInput.{EndsWell, run_input};
ghost use Rattle.gb_run.specs.Failing.{Fails, InFull};
ghost use Rattle.gb_run.specs.Doing.{Ending};
ghost use Rattle.gb_run.specs.Work.{ending};
ghost use Rattle.gb_folder.specs.Faults.{Blames, BlamesOnly};
ghost use Rattle.gb_task.specs.Buildable.{IsBuildable};
ghost use Rattle.gb_task.specs.Ran.{EndsAs, OnlyRead, RanInFull};
ghost use Rattle.gb_task.specs.Stages.{FullRun, HasMade, IsOfFullRun, WritesGiven};
ghost use Rattle.gb_task.specs.Executing.{BeginsAt, HasExecuted, IsDue, IsReportedOf, Registering};
ghost use Rattle.gb_task.specs.Executing.{is_of_execution, outcome_of, report_of, setting_with};

use crate::adding::all_added;
use crate::clearing::clear;
use crate::keeping::remember;
use gb_action::actions::Actions;
use gb_action::change::ChangeLists;
use gb_action::snapshot::Snapshots;
use gb_action::table::ActionTable;
use gb_core::path::TaskPath;
use gb_core::text::Texts;
use gb_folder::folder::Folder;
use gb_history::record::Record;
use gb_label::inputs::{Inputs, complete_inputs};
use gb_label::new_record::record_of;
use gb_label::outputs::records_of;
use gb_plan::task::TaskDeclaration;
use gb_report::fault::Fault;
use gb_report::report::{Outcome, TaskReport};
use gb_run::full_work::run_in_full;
use gb_tree::kept::Reading;
use gb_tree::prints::Prints;
use std::alloc::Global;

/// Executes a task in full, on its inputs as they were read. `was_read` says whether a record of it
/// was read. `path` is a copy of the task's path, made in advance: it is moved into the report, so
/// that a report allocates nothing.
pub fn execute_in_full<A: Actions, F: Folder>(
    alloc: Global,
    folder: &mut F,
    task: &TaskDeclaration,
    path: TaskPath,
    table: &ActionTable<A::Stored>,
    inputs: Vec<Reading>,
    was_read: bool,
) -> TaskReport
    requires buildable { IsBuildable A.meanings table.now task.now }
    requires separate { reads_output_of task.now task.now ≡ false }
    requires path { path ≡ task.now.path }
    requires inputs { AreInputs task.now inputs.items }
    requires source { lacks_source task.now.files inputs.items ≡ false }
    ensures path { result.path ≡ task.now.path }
    ensures requests { Requests F.device (changes_at (is_of_execution task.now)) folder.old folder.new }
    ensures has_actions { result.has_actions ≡ not (is_empty task.now.actions) }
    ensures outcome { IsReportedOf outcome_of result.outcome }
    // Over any folder: where calls returned its inputs since a state of the folder, without a change,
    // it only read and failed, or it ran on just these, in full.
    ensures ran { (first : _) → Requests F.device no_change first folder.old
        → AreInputsAnswered F.device first folder.old task.now inputs.items
        → EndsAs (λ ended. OnlyRead F.device result.lines ended first folder.new
        ⊎ RanInFull F.device A.meanings table.now task.now was_read result.lines ended
        first folder.new) result.outcome }
    ensures blame { (place : List ℕ) → result.outcome ≡ Failed (Fault.Device place)
        → HasRisen (F.device.failures folder.old) (F.device.failures folder.new) }
    ensures blamed { (place : List ℕ) → result.outcome ≡ Failed (Fault.Device place)
        → IsTrue (is_input_of task.now place || is_output_of task.now place) }
    // Where the full run is due, this is the task's execution.
    ensures execution { F.device.faithful folder.new → (kinds : Kinds) (registry_of : Registering)
        (options : Options)
        (plan : Plan) (moment : Moment) → IsAssumed A.meanings table.now kinds (F.device.may_leave folder.old)
        → BeginsAt task.now was_read (F.device.contents folder.old) (F.device.failures folder.old) moment
        → AreInputsObserved task.now (F.device.contents folder.old).files inputs.items
        → IsDue kinds options task.now moment.world
        → HasExecuted (setting_with kinds registry_of (F.device.may_leave folder.old)) options plan task.now
        moment
        result (F.device.contents folder.old) (F.device.failures folder.new) (F.device.contents folder.new) }
{
    let has_actions = !task.actions.is_empty();
    let mut lines = Texts::new(alloc);
    let ended = run_with_record::<A, F>(alloc, folder, task, table, inputs, was_read, &mut lines);
    TaskReport {
        path,
        outcome: outcome_of(ended),
        has_actions,
        lines,
    }
}

/// The outcome that is reported for a run that ended so.
pub(crate) fn outcome_of(ended: Result<(), Fault>) -> Outcome
    ensures { result ≡ outcome_of ended }
{
    match ended {
        Ok(()) => Outcome::Executed,
        Err(fault) => Outcome::Failed(fault),
    }
}

/// Reads the remaining inputs, and runs on them.
fn run_with_record<A: Actions, F: Folder>(
    alloc: Global,
    folder: &mut F,
    task: &TaskDeclaration,
    table: &ActionTable<A::Stored>,
    inputs: Vec<Reading>,
    was_read: bool,
    lines: &mut Texts,
) -> Result<(), Fault>
    requires buildable { IsBuildable A.meanings table.now task.now }
    requires separate { reads_output_of task.now task.now ≡ false }
    requires inputs { AreInputs task.now inputs.items }
    requires source { lacks_source task.now.files inputs.items ≡ false }
    requires no_lines { lines.old ≡ [] }
    // Over any folder: where calls returned its inputs since a state of the folder, without a change,
    // it only read and failed, or it ran on just these, in full.
    ensures ran { (first : _) → Requests F.device no_change first folder.old
        → AreInputsAnswered F.device first folder.old task.now inputs.items
        → OnlyRead F.device lines.new result first folder.new
        ⊎ RanInFull F.device A.meanings table.now task.now was_read lines.new result
        first folder.new }
    ensures requests { Requests F.device (changes_at (is_of_execution task.now)) folder.old folder.new }
    ensures blame { Blames result (F.device.failures folder.old) (F.device.failures folder.new) }
    ensures blamed { BlamesOnly (λ place. is_input_of task.now place || is_output_of task.now place) result }
    ensures execution { F.device.faithful folder.new → (kinds : Kinds) (registry_of : Registering)
        (options : Options)
        (plan : Plan) (moment : Moment) → IsAssumed A.meanings table.now kinds (F.device.may_leave folder.old)
        → BeginsAt task.now was_read (F.device.contents folder.old) (F.device.failures folder.old) moment
        → AreInputsObserved task.now (F.device.contents folder.old).files inputs.items
        → IsDue kinds options task.now moment.world
        → HasExecuted (setting_with kinds registry_of (F.device.may_leave folder.old)) options plan task.now
        moment
        (report_of task.now result lines.new)
        (F.device.contents folder.old) (F.device.failures folder.new) (F.device.contents folder.new) }
{
    let inputs = complete_inputs(alloc, folder, task, inputs)?;
    run_on::<A, F>(alloc, folder, task, table, inputs, was_read, lines)
}

/// Deletes the record, empties the outputs, runs the actions on these inputs, and stores the new
/// record.
pub(crate) fn run_on<A: Actions, F: Folder>(
    alloc: Global,
    folder: &mut F,
    task: &TaskDeclaration,
    table: &ActionTable<A::Stored>,
    inputs: Inputs,
    was_read: bool,
    lines: &mut Texts,
) -> Result<(), Fault>
    requires buildable { IsBuildable A.meanings table.now task.now }
    requires separate { reads_output_of task.now task.now ≡ false }
    requires named { map (λ tree. tree.0) inputs.trees ≡ given_files task.now.files }
    requires digests { inputs.prints.items ≡ digests_in inputs.trees }
    requires no_lines { lines.old ≡ [] }
    // Over any folder: it is a full run on these inputs, by these calls.
    ensures ran { (calls : List Call) × Leads F.device folder.old calls folder.new
        × FullRun A.meanings table.now task.now inputs.trees was_read calls lines.new result }
    ensures requests { Requests F.device (changes_at (is_of_execution task.now)) folder.old folder.new }
    ensures blame { Blames result (F.device.failures folder.old) (F.device.failures folder.new) }
    ensures blamed { BlamesOnly (is_output_of task.now) result }
    ensures execution { F.device.faithful folder.new → (kinds : Kinds) (registry_of : Registering)
        (options : Options)
        (plan : Plan) (moment : Moment) → IsAssumed A.meanings table.now kinds (F.device.may_leave folder.old)
        → BeginsAt task.now was_read (F.device.contents folder.old) (F.device.failures folder.old) moment
        → inputs.trees ≡ trees_of task.now (F.device.contents folder.old).files
        → IsDue kinds options task.now moment.world
        → HasExecuted (setting_with kinds registry_of (F.device.may_leave folder.old)) options plan task.now
        moment
        (report_of task.now result lines.new)
        (F.device.contents folder.old) (F.device.failures folder.new) (F.device.contents folder.new) }
{
    let Inputs { trees, prints } = inputs;
    let changes = all_added(alloc, task, prints.as_slice())?;
    clear(alloc, folder, task, was_read)?;
    let run = make_in_full::<A, F>(alloc, folder, task, table, trees, prints, changes, lines)?;
    remember(alloc, folder, task, &run)
}

/// Runs the actions in full over a folder without the task's files and returns the record of the
/// run, by what it made.
fn make_in_full<A: Actions, F: Folder>(
    alloc: Global,
    folder: &mut F,
    task: &TaskDeclaration,
    table: &ActionTable<A::Stored>,
    trees: Snapshots,
    prints: Vec<Prints>,
    changes: ChangeLists,
    lines: &mut Texts,
) -> Result<Record, Fault>
    requires ready { IsReady A.meanings table.now task.now }
    requires in_order { HasNamesInOrder task.now }
    requires named { map (λ tree. tree.0) trees ≡ given_files task.now.files }
    requires digests { prints.items ≡ digests_in trees }
    requires no_lines { lines.old ≡ [] }
    ensures requests { Requests F.device (changes_at (is_output_of task.now))
        folder.old
        folder.new }
    ensures blame { Blames result (F.device.failures folder.old) (F.device.failures folder.new) }
    ensures blamed { BlamesOnly (is_output_of task.now) result }
    // Over any folder: by these calls, with just the bytes and the lines of the actions.
    ensures calls { (calls : List Call) × (ran : Ending) × Leads F.device folder.old calls folder.new
        × WritesGiven A.meanings table.now task.now trees changes calls lines.new ran
        × HasMade ran (ending result) }
    // Over any folder, whoever else writes in it: the record is true.
    ensures made { IfOk result (IsOfFullRun A.meanings table.now task.now trees) }
    ensures ok { F.device.faithful folder.new → OnOk result ((kinds : Kinds)
        → Agrees A.meanings table.now kinds
        → EndsWell (run_input kinds task.now trees changes (F.device.contents folder.old).files)
        lines.new (F.device.contents folder.new).files) }
    ensures err { F.device.faithful folder.new → IfErr result
        (λ fault. (kinds : Kinds) → Agrees A.meanings table.now kinds
        → Fails (run_input kinds task.now trees changes (F.device.contents folder.old).files) InFull
        (F.device.may_leave folder.old) (F.device.failures folder.old) fault
        lines.new (F.device.failures folder.new) (F.device.contents folder.new).files) }
{
    let made = run_in_full::<A, F>(alloc, folder, task, table, trees, changes, lines)?;
    let outputs = records_of(alloc, task, made)?;
    Ok(record_of(alloc, task, prints, outputs)?)
}
