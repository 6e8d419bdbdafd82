//! The execution of a started task.
//!
//! [`execute_task`] has two phases. First `settle` (`before_changes`) reads what the decision
//! needs, and changes nothing. It returns one of three:
//!
//! - a report: the task is skipped, has no actions or is up to date, or a read failed;
//! - that the task has no source: `execute_without_source` keeps nothing of its previous execution;
//! - that it has to run: `execute_by_changes` does so if the decision is incremental and the one
//!   action that writes supports changes, else `execute_in_full`. Both get what was read.
//!
//! So a task whose inputs cannot be read fails before anything is changed. The crate's head says
//! why a stopped execution is safe, and `specs/ByOutcome.antt` which calls each outcome makes.
ghost use Rattle.std.specs.Prelude.{◌≡◌, ◌≤◌, ◌≢◌, ◌⊎◌, ◌||◌, ℕ, List, None, false, not, is_some, IsTrue};
ghost use Rattle.std.specs.Prelude.{option_copied};
ghost use Rattle.std.specs.List.{AllByRecursion};
ghost use Rattle.gb_action.specs.Changes.{Changes};
ghost use Rattle.gb_folder.specs.Calls.{Requests, changes_at, no_change};
ghost use Rattle.gb_folder.specs.Files.{HasRisen, is_empty};
ghost use Rattle.gb_label.specs.Answered.{WasDecided};
ghost use Rattle.gb_label.specs.Looking.{lacks_source};
ghost use Rattle.gb_label.specs.Preparing.{IsReadFor, IsObservedFor};
ghost use Rattle.gb_label.specs.ReadingAnswered.{AreInputsAnswered};
ghost use Rattle.gb_label.specs.Reading.{is_input_of};
ghost use Rattle.gb_semantics.specs.Headline.{Agrees};
ghost use Rattle.gb_semantics.specs.Kinds.{Kinds};
ghost use Rattle.gb_semantics.specs.Label.{Moment, early_case, some_outcome};
ghost use Rattle.gb_plan.specs.Graph.{Plan, needs_in, reads_output_of, some_overlap};
ghost use Rattle.gb_plan.specs.Ready.{IsReady};
ghost use Rattle.gb_plan.specs.Task.{is_output_of, output_places};
ghost use Rattle.gb_records.specs.Assumed.{IsAssumed};
ghost use Rattle.gb_report.specs.Outcome.{is_executed, is_started};
ghost use Rattle.gb_report.specs.declared.report.Options.{Options};
ghost use Rattle.gb_report.specs.declared.report.Outcome.TheVariants.{Failed};
ghost use Rattle.gb_run.specs.AskingChanges.{CanGoOn};
ghost use Rattle.gb_tree.specs.DigestCache.{AreCached};
ghost use Rattle.gb_task.specs.Buildable.{IsBuildable};
ghost use Rattle.gb_task.specs.Case.{IsCaseFor, IsKnown};
ghost use Rattle.gb_task.specs.Executions.{IsRunFor, is_by_changes};
ghost use Rattle.gb_task.specs.ByOutcome.{ExecutionRequests, since_after};
ghost use Rattle.gb_task.specs.Ran.{EndsAs, OnlyRead, WasRun};
ghost use Rattle.gb_task.specs.Settled.{IsAnswer, IsAnsweredAlone};
ghost use Rattle.gb_task.specs.Executing.{BeginsAt, HasExecuted, IsReportedOf, Registering};
ghost use Rattle.gb_task.specs.Executing.{is_of_execution, outcome_of, setting_with};

use crate::before_changes::{Settled, settle};
use crate::full::execute_in_full;
use crate::incremental::execute_by_changes;
use crate::sourceless::execute_without_source;
use gb_action::actions::Actions;
use gb_action::table::ActionTable;
use gb_core::path::TaskPath;
use gb_core::place::Place;
use gb_folder::folder::Folder;
use gb_history::decide::Decision;
use gb_history::record::Record;
use gb_label::prepare::Observed;
use gb_plan::task::TaskDeclaration;
use gb_report::fault::Fault;
use gb_report::report::{Options, TaskReport};
use gb_run::calling_changes::has_one_writer;
use gb_tree::digest_cache::DigestCache;
use std::alloc::Global;

/// Executes a started task. `last` is the record that was read of it, and `has_executed_need` says
/// whether a task that it needs was executed in this build. `path` is a copy of the task's path,
/// made in advance: it is moved into the report, so that a report allocates nothing. The files at
/// the places of `next`, of this task and of later ones, are read ahead. A remembered file is not
/// read again to find that the task is up to date; whatever runs reads all that it works on.
pub fn execute_task<A: Actions, F: Folder>(
    alloc: Global,
    folder: &mut F,
    task: &TaskDeclaration,
    path: TaskPath,
    table: &ActionTable<A::Stored>,
    options: Options,
    last: Option<&Record>,
    has_executed_need: bool,
    next: &[Place],
    seen: &mut DigestCache,
) -> TaskReport
    requires buildable { IsBuildable A.meanings table.now task.now }
    requires separate { reads_output_of task.now task.now ≡ false }
    requires outputs_separate { some_overlap (output_places task.now) ≡ false }
    requires path { path ≡ task.now.path }
    ensures path { result.path ≡ task.now.path }
    ensures has_actions { result.has_actions ≡ not (is_empty task.now.actions) }
    // Over any folder: which calls were made, stage by stage, up to the first that failed; with
    // which bytes; and what they were based on. A task that is skipped or up to date requests no
    // change, and it is up to date only if it was found so on what calls returned since the last
    // change.
    ensures requests { (since : _) → Requests F.device no_change since folder.old
        → AreCached F.device since folder.old seen.old
        → ExecutionRequests F.device A.meanings table.now options task.now
        (option_copied last.entry) result.outcome result.lines since folder.old folder.new }
    // What is remembered was read since the last change.
    ensures seen { (since : _) → Requests F.device no_change since folder.old
        → AreCached F.device since folder.old seen.old
        → AreCached F.device (since_after result.outcome since folder.new) folder.new
        seen.new }
    ensures blame { (place : List ℕ) → result.outcome ≡ Failed (Fault.Device place)
        → HasRisen (F.device.failures folder.old) (F.device.failures folder.new) }
    ensures blamed { (place : List ℕ) → result.outcome ≡ Failed (Fault.Device place)
        → IsTrue (is_input_of task.now place || is_output_of task.now place) }
    ensures started { IsTrue (is_started result.outcome) }
    // Over any folder: a task that is skipped or has no actions is reported as such. A task that
    // runs and has actions is up to date only with outputs, no false `upToDateWhen` and no
    // requested rerun, and without source only if a property skips it. Only `Executed` and `Failed`
    // have lines.
    ensures alone { IsAnsweredAlone task.now.runs (is_empty task.now.actions) has_executed_need
        result.outcome }
    ensures answer { IsAnswer options task.now result }
    // Where contents are known and kinds agree: suppose that `last` is the record of the run that
    // the definitions remember (none if they remember none), that this run is true, and that no two
    // contents of it and of what the task has now share a digest (`IsKnown`). Then this is the
    // task's execution by the definitions.
    ensures execution { F.device.faithful folder.new → (since : _)
        → Requests F.device no_change since folder.old → AreCached F.device since folder.old seen.old
        → (kinds : Kinds) (registry_of : Registering) (plan : Plan) (moment : Moment)
        → IsAssumed A.meanings table.now kinds (F.device.may_leave folder.old)
        → BeginsAt task.now (is_some (option_copied last.entry)) (F.device.contents folder.old)
        (F.device.failures folder.old) moment
        → some_outcome is_executed moment (needs_in plan task.now) ≡ has_executed_need
        → IsKnown kinds task.now moment.world (option_copied last.entry)
        → HasExecuted (setting_with kinds registry_of (F.device.may_leave folder.old)) options plan task.now
        moment
        result (F.device.contents folder.old) (F.device.failures folder.new) (F.device.contents folder.new) }
{
    match settle(
        alloc,
        folder,
        task,
        path,
        options,
        last,
        has_executed_need,
        next,
        seen,
    ) {
        Settled::Reported(report) => report,
        Settled::Sourceless(path) => {
            execute_without_source(alloc, folder, task, path, last.is_some())
        }
        Settled::Due(path, decision, observed) => run::<A, F>(
            alloc, folder, task, path, table, options, last, decision, observed,
        ),
    }
}

/// Runs a task that is due: incrementally, based on its record, where it can, or else in full.
fn run<A: Actions, F: Folder>(
    alloc: Global,
    folder: &mut F,
    task: &TaskDeclaration,
    path: TaskPath,
    table: &ActionTable<A::Stored>,
    options: Options,
    last: Option<&Record>,
    decision: Decision,
    observed: Observed,
) -> TaskReport
    requires buildable { IsBuildable A.meanings table.now task.now }
    requires separate { reads_output_of task.now task.now ≡ false }
    requires outputs_separate { some_overlap (output_places task.now) ≡ false }
    requires path { path ≡ task.now.path }
    requires due { decision ≢ Decision.UpToDate }
    requires read { IsReadFor task.now observed decision }
    requires source { lacks_source task.now.files observed.inputs.items ≡ false }
    ensures path { result.path ≡ task.now.path }
    ensures requests { Requests F.device (changes_at (is_of_execution task.now)) folder.old folder.new }
    ensures has_actions { result.has_actions ≡ not (is_empty task.now.actions) }
    ensures outcome { IsReportedOf outcome_of result.outcome }
    // Over any folder: if calls returned what the decision rests on, from some state on and without
    // a requested change since, then the task only read and failed, or it ran on exactly that.
    ensures ran { (first : _) → Requests F.device no_change first folder.old
        → AreInputsAnswered F.device first folder.old task.now observed.inputs.items
        → WasDecided F.device first folder.old options task.now
        (option_copied last.entry) observed.inputs.items decision observed.outputs.items
        → EndsAs (λ ended. OnlyRead F.device result.lines ended first folder.new
        ⊎ WasRun F.device A.meanings table.now task.now options
        (option_copied last.entry) result.lines ended first folder.new) result.outcome }
    ensures blame { (place : List ℕ) → result.outcome ≡ Failed (Fault.Device place)
        → HasRisen (F.device.failures folder.old) (F.device.failures folder.new) }
    ensures blamed { (place : List ℕ) → result.outcome ≡ Failed (Fault.Device place)
        → IsTrue (is_input_of task.now place || is_output_of task.now place) }
    ensures execution { F.device.faithful folder.new → (kinds : Kinds) (registry_of : Registering)
        (plan : Plan) (moment : Moment) → IsAssumed A.meanings table.now kinds (F.device.may_leave folder.old)
        → BeginsAt task.now (is_some (option_copied last.entry)) (F.device.contents folder.old)
        (F.device.failures folder.old) moment
        → early_case task.now moment.world.folder ≡ None
        → IsCaseFor kinds options task.now moment.world decision
        → IsRunFor kinds options task.now moment.world decision
        → IsObservedFor task.now (F.device.contents folder.old).files observed decision
        → IsKnown kinds task.now moment.world (option_copied last.entry)
        → HasExecuted (setting_with kinds registry_of (F.device.may_leave folder.old)) options plan task.now
        moment
        result (F.device.contents folder.old) (F.device.failures folder.new) (F.device.contents folder.new) }
{
    if let Some(record) = last {
        if is_by_changes::<A>(table, task, &decision) {
            return execute_by_changes::<A, F>(
                alloc, folder, task, path, table, options, record, observed,
            );
        }
    }
    execute_in_full::<A, F>(
        alloc,
        folder,
        task,
        path,
        table,
        observed.inputs,
        last.is_some(),
    )
}

/// Whether a run is incremental: where that was decided, and one action writes that supports
/// changes.
pub fn is_by_changes<A: Actions>(
    table: &ActionTable<A::Stored>,
    task: &TaskDeclaration,
    decision: &Decision,
) -> bool
    requires { IsReady A.meanings table.now task.now }
    ensures agreed { (kinds : Kinds) → Agrees A.meanings table.now kinds
        → is_by_changes kinds task.now decision.now ≡ result }
    ensures able { IsTrue result → AllByRecursion (CanGoOn A.meanings table.now) task.now.actions }
    ensures decided { IsTrue result → (changes : List Changes)
        × (decision.now ≡ Decision.Incremental changes) }
{
    match decision {
        Decision::Incremental(_) => has_one_writer::<A>(table, task),
        Decision::UpToDate | Decision::Full => false,
    }
}
