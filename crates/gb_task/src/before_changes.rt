//! The part of a task's execution that is decided before anything is changed.
ghost use Rattle.std.specs.Prelude.{◌≡◌, false, option_copied};
ghost use Rattle.std.specs.List.{list_any};
ghost use Rattle.gb_folder.specs.Calls.{OnlyReads, Requests, no_change};
ghost use Rattle.gb_folder.specs.Files.{is_empty, is_own};
ghost use Rattle.gb_label.specs.Deciding.{HasNamesInOrder};
ghost use Rattle.gb_semantics.specs.Kinds.{Kinds};
ghost use Rattle.gb_semantics.specs.Label.{Moment, some_outcome};
ghost use Rattle.gb_semantics.specs.TrueRecord.{outside};
ghost use Rattle.gb_plan.specs.Graph.{Plan, needs_in};
ghost use Rattle.gb_report.specs.Outcome.{is_executed};
ghost use Rattle.gb_tree.specs.DigestCache.{AreAmong, AreCached};
ghost use Rattle.gb_task.specs.Case.{IsKnown};
ghost use Rattle.gb_task.specs.Current.{WasSettled};
ghost use Rattle.gb_task.specs.CacheChanges.{Remembers, cached_by};
ghost use Rattle.gb_task.specs.Settled.{AnswersAlone, IsOfTask, SettlesExecution, ReportsAnswer};
ghost use Rattle.gb_task.specs.Settled.{idle_outcome};
ghost use Rattle.gb_task.specs.Settled.{settled_as, silent_report};
ghost use Rattle.gb_task.specs.Executing.{Registering, setting_with};

use crate::by_cache::prepare_by_cache;
use crate::case_laws::{
    idle_executions_are_executions, outside_is_enough, prepared_is_case, runs_are_of_case,
};
use gb_core::path::TaskPath;
use gb_core::place::Place;
use gb_core::text::Texts;
use gb_folder::folder::Folder;
use gb_history::decide::Decision;
use gb_history::record::Record;
use gb_label::prepare::{Observed, Prepared};
use gb_plan::task::TaskDeclaration;
use gb_report::fault::Fault;
use gb_report::report::{Options, Outcome, TaskReport};
use gb_tree::digest_cache::DigestCache;
use std::alloc::Global;

/// What is decided of a started task's execution before anything is changed.
#[derive(Drop)]
pub enum Settled {
    /// The whole execution: there is nothing to do, or what the task has cannot be read.
    Reported(TaskReport),
    /// The task has no source.
    Sourceless(TaskPath),
    /// The task is to run. The decision says how, and the rest is what was read.
    Due(TaskPath, Decision, Observed),
}

/// Decides how a started task is executed, and reports its outcome where nothing is to be done.
/// Nothing is changed. `last` is the record that was read of the task, and `has_executed_need` says
/// whether a task that it needs was executed in this build. `path` is a copy of the task's path,
/// made in advance: it is moved into the report, so that a report allocates nothing. `seen` gets the
/// files at the places of `next`, which are read ahead, and the outputs of a task that is up to
/// date. It is emptied where a change may follow, or where the report is of one.
pub fn settle<F: Folder>(
    alloc: Global,
    folder: &mut F,
    task: &TaskDeclaration,
    path: TaskPath,
    options: Options,
    last: Option<&Record>,
    has_executed_need: bool,
    next: &[Place],
    seen: &mut DigestCache,
) -> Settled
    requires in_order { HasNamesInOrder task.now }
    requires not_own { list_any (λ output. is_own output.place) task.now.outputs ≡ false }
    requires path { path ≡ task.now.path }
    ensures reads { OnlyReads F.device folder.old folder.new }
    // Over any folder: a report is of the task. A task that is skipped or has no actions is
    // reported as such. A task that has actions and runs is reported with no other outcome than
    // those possible for it.
    ensures of_task { IsOfTask task.now (F.device.failures folder.old) (F.device.failures folder.new) result }
    ensures alone { AnswersAlone task.now.runs (is_empty task.now.actions) has_executed_need result }
    ensures answer { ReportsAnswer options task.now result }
    // And the decision is based on what calls returned.
    ensures answered { (since : _) → Requests F.device no_change since folder.old
        → AreCached F.device since folder.old seen.old
        → WasSettled F.device since folder.old folder.new options task.now
        (option_copied last.entry) result }
    ensures remembers { Remembers F.device folder.old folder.new seen.old seen.new
        result }
    // If there is a report, it is that of the task's execution. Otherwise the result says which
    // case of the definition applies.
    ensures settled { F.device.faithful folder.new → (since : _)
        → Requests F.device no_change since folder.old → AreCached F.device since folder.old seen.old
        → (kinds : Kinds) (registry_of : Registering) (plan : Plan) (moment : Moment)
        → moment.world.folder ≡ outside (F.device.contents folder.old)
        → moment.failures ≡ F.device.failures folder.old
        → some_outcome is_executed moment (needs_in plan task.now) ≡ has_executed_need
        → IsKnown kinds task.now moment.world (option_copied last.entry)
        → SettlesExecution (setting_with kinds registry_of (F.device.may_leave folder.old)) options plan
        task.now
        moment
        (F.device.contents folder.old) (F.device.failures folder.new) result }
{
    outside_is_enough();
    prepared_is_case();
    idle_executions_are_executions();
    runs_are_of_case();
    let prepared = prepare_by_cache(alloc, folder, task, options, last, next, seen);
    settled_by(alloc, task, path, prepared, has_executed_need, seen)
}

/// What is decided, from the result of `prepare_by_cache`.
fn settled_by(
    alloc: Global,
    task: &TaskDeclaration,
    path: TaskPath,
    prepared: Result<Prepared, Fault>,
    has_executed_need: bool,
    seen: &mut DigestCache,
) -> Settled
    ensures settled { result ≡ settled_as task.now path prepared has_executed_need }
    ensures seen { AreAmong seen.new (cached_by prepared has_executed_need seen.old) }
{
    match prepared {
        Ok(Prepared::Skips) => reported(alloc, task, path, Outcome::Skipped),
        Ok(Prepared::HasNoActions) => {
            if has_executed_need {
                seen.forget();
            }
            reported(alloc, task, path, idle_outcome(has_executed_need))
        }
        Ok(Prepared::HasNoSource) => {
            seen.forget();
            Settled::Sourceless(path)
        }
        Ok(Prepared::Decided(Decision::UpToDate, _, observed)) => {
            seen.remember(alloc, observed.outputs);
            reported(alloc, task, path, Outcome::UpToDate)
        }
        Ok(Prepared::Decided(decision, _, observed)) => {
            seen.forget();
            Settled::Due(path, decision, observed)
        }
        Err(fault) => {
            seen.forget();
            reported(alloc, task, path, Outcome::Failed(fault))
        }
    }
}

/// The outcome that is reported for a task without actions.
fn idle_outcome(has_executed_need: bool) -> Outcome
    ensures { result ≡ idle_outcome has_executed_need }
{
    if has_executed_need {
        Outcome::Executed
    } else {
        Outcome::UpToDate
    }
}

/// The task's report without a line.
fn reported(alloc: Global, task: &TaskDeclaration, path: TaskPath, outcome: Outcome) -> Settled
    ensures { result ≡ Settled.Reported (silent_report task.now path outcome) }
{
    Settled::Reported(TaskReport {
        path,
        outcome,
        has_actions: !task.actions.is_empty(),
        lines: Texts::new(alloc),
    })
}
