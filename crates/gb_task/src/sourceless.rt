//! The execution of a task without source.
ghost use Rattle.std.specs.Prelude.{◌≡◌, [], ℕ, List, Some, false, not, IsTrue};
ghost use Rattle.std.specs.List.{list_any};
ghost use Rattle.gb_folder.specs.Calls.{Call, Requests, takes_at};
ghost use Rattle.gb_folder.specs.Device.{Leads};
ghost use Rattle.gb_folder.specs.Files.{HasRisen, is_empty, is_own};
ghost use Rattle.gb_history.specs.Places.{record_place};
ghost use Rattle.gb_semantics.specs.Headline.{TornWritesAreDetected};
ghost use Rattle.gb_semantics.specs.Kinds.{Kinds};
ghost use Rattle.gb_semantics.specs.Label.{HasNoSource, Moment, early_case};
ghost use Rattle.gb_plan.specs.Graph.{Plan};
ghost use Rattle.gb_plan.specs.Task.{is_output_of};
ghost use Rattle.gb_records.specs.Said.{IsText};
ghost use Rattle.gb_report.specs.declared.report.Options.{Options};
ghost use Rattle.gb_report.specs.declared.report.Outcome.TheVariants.{Failed};
ghost use Rattle.gb_task.specs.Executing.{BeginsAt, HasExecuted, IsReportedOf, Registering, cleared_outcome};
ghost use Rattle.gb_task.specs.Executing.{is_of_execution, setting_with};
ghost use Rattle.gb_run.specs.Doing.{Ending};
ghost use Rattle.gb_task.specs.Stages.{Clears};

use crate::clearing::clear;
use gb_core::path::TaskPath;
use gb_core::text::Texts;
use gb_folder::folder::Folder;
use gb_plan::task::TaskDeclaration;
use gb_report::fault::Fault;
use gb_report::report::{Outcome, TaskReport};
use std::alloc::Global;

/// Executes a task without source: nothing of its previous execution is kept. `was_read` says
/// whether a record of it was read. `path` is a copy of the task's path, made in advance: it is
/// moved into the report, so that a report allocates nothing.
pub fn execute_without_source<F: Folder>(
    alloc: Global,
    folder: &mut F,
    task: &TaskDeclaration,
    path: TaskPath,
    was_read: bool,
) -> TaskReport
    requires not_own { list_any (λ output. is_own output.place) task.now.outputs ≡ false }
    requires path { path ≡ task.now.path }
    ensures path { result.path ≡ task.now.path }
    ensures has_actions { result.has_actions ≡ not (is_empty task.now.actions) }
    ensures outcome { IsReportedOf cleared_outcome result.outcome }
    ensures lines { result.lines ≡ [] }
    // Over any folder: it was cleared by these calls.
    ensures calls { (calls : List Call) × (ended : Ending) × Leads F.device folder.old calls folder.new
        × Clears task.now was_read calls [] ended × (result.outcome ≡ cleared_outcome ended) }
    ensures requests { Requests F.device (takes_at (is_of_execution task.now))
        folder.old
        folder.new }
    ensures blame { (place : List ℕ) → result.outcome ≡ Failed (Fault.Device place)
        → HasRisen (F.device.failures folder.old) (F.device.failures folder.new) }
    ensures blamed { (place : List ℕ) → result.outcome ≡ Failed (Fault.Device place)
        → IsTrue (is_output_of task.now place) }
    // Where the task has no source, this is its execution.
    ensures execution { F.device.faithful folder.new → (kinds : Kinds) (registry_of : Registering)
        (options : Options)
        (plan : Plan) (moment : Moment) → TornWritesAreDetected IsText record_place
        (F.device.may_leave folder.old)
        → BeginsAt task.now was_read (F.device.contents folder.old) (F.device.failures folder.old) moment
        → early_case task.now moment.world.folder ≡ Some HasNoSource
        → HasExecuted (setting_with kinds registry_of (F.device.may_leave folder.old)) options plan task.now
        moment
        result (F.device.contents folder.old) (F.device.failures folder.new) (F.device.contents folder.new) }
{
    let has_actions = !task.actions.is_empty();
    let cleared = clear(alloc, folder, task, was_read);
    TaskReport {
        path,
        outcome: outcome_of(cleared),
        has_actions,
        lines: Texts::new(alloc),
    }
}

/// The outcome that is reported for a task without source, by the result of deleting its record and
/// outputs.
fn outcome_of(cleared: Result<(), Fault>) -> Outcome
    ensures { result ≡ cleared_outcome cleared }
{
    match cleared {
        Ok(()) => Outcome::NoSource,
        Err(fault) => Outcome::Failed(fault),
    }
}
