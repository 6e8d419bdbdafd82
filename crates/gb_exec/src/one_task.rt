//! The execution of one task of a plan.
//!
//! A task that does not start gets its report at once, and no listener is notified. Otherwise the
//! listeners are notified, `execute_task` of `gb_task` executes the task, and they are notified
//! again.
ghost use Rattle.std.specs.Prelude.{◌≡◌, ◌<◌, [], ◌∷◌, ℕ, List, None, Some, false, map, length};
ghost use Rattle.std.specs.Prelude.{slice_get, slice_index_or};
ghost use Rattle.gb_folder.specs.Calls.{Requests, no_change};
ghost use Rattle.gb_folder.specs.Files.{HasRisen};
ghost use Rattle.gb_semantics.specs.Kinds.{Kinds};
ghost use Rattle.gb_semantics.specs.Label.{Moment};
ghost use Rattle.gb_semantics.specs.Outline.{IsOutline};
ghost use Rattle.gb_semantics.specs.TrueRecord.{outside};
ghost use Rattle.gb_semantics.specs.Execution.{heard_of};
ghost use Rattle.gb_plan.specs.declared.plan.Planned.{Planned};
ghost use Rattle.gb_records.specs.Assumed.{IsAssumed};
ghost use Rattle.gb_records.specs.Holding.{HoldsRecords};
ghost use Rattle.gb_report.specs.declared.report.Outcome.TheVariants.{Failed, NotRun};
ghost use Rattle.gb_tree.specs.DigestCache.{AreCached};
ghost use Rattle.gb_task.specs.Case.{IsKnown};
ghost use Rattle.gb_task.specs.ByOutcome.{ExecutionRequests, since_after};
ghost use Rattle.gb_task.specs.Executing.{Registering, setting_with};
ghost use Rattle.gb_exec.specs.Notifying.{AllReported};
ghost use Rattle.gb_exec.specs.Plans.{AreEndings, AreOfPlan};
ghost use Rattle.gb_exec.specs.Building.{CanBuild};
ghost use Rattle.gb_exec.specs.Built.{IsExecutionOf};
ghost use Rattle.gb_exec.specs.Reports.{IsOf, report_with};

use crate::heard_laws::reported_more;
use crate::listener::TaskListener;
use crate::may_start::Starts;
use crate::notifying::notify;
use crate::start_laws::{needs_by_number, starts_by_number};
use gb_action::actions::Actions;
use gb_action::table::ActionTable;
use gb_core::path::TaskPath;
use gb_core::place::Place;
use gb_core::text::Texts;
use gb_folder::folder::Folder;
use gb_history::record::Record;
use gb_plan::plan::Planned;
use gb_report::fault::Fault;
use gb_report::report::{Options, Outcome, TaskReport};
use gb_task::execution::execute_task;
use gb_tree::digest_cache::DigestCache;
use std::alloc::Global;

/// The input of a build: its tasks in their order, what is stored of their actions, the record that
/// was read of each task, and the options of the build.
#[derive(Drop)]
pub(crate) struct Build<'a, S> {
    pub(crate) tasks: &'a [Planned],
    pub(crate) table: &'a ActionTable<S>,
    pub(crate) records: &'a [Option<Record>],
    pub(crate) options: Options,
}

/// The report of a task, and whether all listeners were notified of it.
#[derive(Drop)]
pub(crate) struct OneEnded {
    pub(crate) report: TaskReport,
    pub(crate) all_heard: bool,
}

/// The report of a task that does not start.
fn not_run_report(alloc: Global, planned: &Planned, path: TaskPath) -> TaskReport
    requires { path ≡ planned.now.task.path }
    ensures { result ≡ report_with NotRun planned.now }
{
    TaskReport {
        path,
        outcome: Outcome::NotRun,
        has_actions: !planned.task.actions.is_empty(),
        lines: Texts::new(alloc),
    }
}

/// Executes the task of a number, if it starts. The path is the task's own. The files at the places
/// of `next` are read ahead. `seen` has the digests of files that were read since the last change.
pub(crate) fn execute_one<A: Actions, F: Folder, L: TaskListener>(
    alloc: Global,
    folder: &mut F,
    build: &Build<'_, A::Stored>,
    starts: &mut Starts,
    index: usize,
    path: TaskPath,
    next: &[Place],
    listeners: &mut Vec<L>,
    seen: &mut DigestCache,
) -> OneEnded
    requires can { CanBuild A.meanings build.now.table.now build.now.tasks.now }
    requires of_plan { AreOfPlan build.now.tasks.now starts.old }
    requires index { index < length build.now.tasks.now }
    requires each { length build.now.records.now ≡ length build.now.tasks.now }
    requires path { (planned : Planned) → slice_get build.now.tasks.now index ≡ Some planned
        → path ≡ planned.task.path }
    ensures starts { starts.new ≡ starts.old }
    ensures of_task { (planned : Planned) → slice_get build.now.tasks.now index ≡ Some planned
        → IsOf planned result.report }
    ensures heard { AllReported (heard_of false (result.report ∷ [])) result.all_heard
        (map L.ear listeners.old.items) (map L.ear listeners.new.items) }
    // Over any folder: it makes the calls that its outcome permits; and what is remembered was read
    // since the last change.
    ensures requests { (planned : Planned) → slice_get build.now.tasks.now index ≡ Some planned
        → (since : _) → Requests F.device no_change since folder.old
        → AreCached F.device since folder.old seen.old
        → ExecutionRequests F.device A.meanings build.now.table.now build.now.options
        planned.task (slice_index_or build.now.records.now index None) result.report.outcome
        result.report.lines since folder.old folder.new }
    ensures seen { (since : _) → Requests F.device no_change since folder.old
        → AreCached F.device since folder.old seen.old
        → AreCached F.device (since_after result.report.outcome since folder.new)
        folder.new seen.new }
    ensures blame { (place : List ℕ) → result.report.outcome ≡ Failed (Fault.Device place)
        → HasRisen (F.device.failures folder.old) (F.device.failures folder.new) }
    // Over any folder, at each moment with the outcomes so far, its report is one that the outline
    // permits.
    ensures outline { (moment : Moment) (planned : Planned)
        → slice_get build.now.tasks.now index ≡ Some planned
        → AreEndings build.now.tasks.now moment.outcomes starts.old.endings
        → IsOutline build.now.options build.now.tasks.now moment planned result.report }
    // If the record that was read is a true record of the task (`IsKnown`), this is its execution
    // as defined.
    ensures execution { F.device.faithful folder.new → (since : _)
        → Requests F.device no_change since folder.old → AreCached F.device since folder.old seen.old
        → (kinds : Kinds) (registry_of : Registering) (moment : Moment) (planned : Planned)
        → slice_get build.now.tasks.now index ≡ Some planned
        → IsAssumed A.meanings build.now.table.now kinds (F.device.may_leave folder.old)
        → moment.world.folder ≡ outside (F.device.contents folder.old)
        → moment.failures ≡ F.device.failures folder.old
        → HoldsRecords (F.device.contents folder.old).files moment.world.memory
        → AreEndings build.now.tasks.now moment.outcomes starts.old.endings
        → IsKnown kinds planned.task moment.world (slice_index_or build.now.records.now index None)
        → IsExecutionOf (setting_with kinds registry_of (F.device.may_leave folder.old)) build.now.options
        build.now.tasks.now moment planned result.report (F.device.contents folder.old)
        (F.device.failures folder.new)
        (F.device.contents folder.new) }
{
    starts_by_number();
    needs_by_number();
    reported_more();
    let planned = &build.tasks[index];
    if !starts.does_start(index, build.options.keep_going) {
        return OneEnded {
            report: not_run_report(alloc, planned, path),
            all_heard: true,
        };
    }
    let need = starts.has_executed_need(index);
    let last = build.records[index].as_ref();
    let begun = notify(alloc, listeners, &planned.task.path, None);
    let report = execute_task::<A, F>(
        alloc,
        folder,
        &planned.task,
        path,
        build.table,
        build.options,
        last,
        need,
        next,
        seen,
    );
    let ended = notify(alloc, listeners, &planned.task.path, Some(&report.outcome));
    OneEnded {
        report,
        all_heard: begun && ended,
    }
}
