//! A build of a plan.
//!
//! What may fail comes first: the paths, the tables that decide which task starts, and the room for
//! the reports. Then the main loop runs ([`executions`](crate::executions)), which does not fail:
//! if memory runs out in it, that is the failure of a task. A dry run ends before it, with a report
//! of each task as skipped.
ghost use Rattle.std.specs.Prelude.{◌≡◌, ◌≤◌, Bool, List, true, not, map, length, IfOk, IsTrue, OnErr};
ghost use Rattle.std.specs.List.{AllZip};
ghost use Rattle.gb_folder.specs.Calls.{Requests, changes_at};
ghost use Rattle.gb_folder.specs.Files.{Bytes};
ghost use Rattle.gb_semantics.specs.Headline.{HasFailed, HaveHeard};
ghost use Rattle.gb_semantics.specs.Kinds.{Kinds};
ghost use Rattle.gb_semantics.specs.Memory.{Memory};
ghost use Rattle.gb_semantics.specs.Outline.{Outlines};
ghost use Rattle.gb_plan.specs.Graph.{order};
ghost use Rattle.gb_printer.specs.Printing.{Prints, parts_text};
ghost use Rattle.gb_records.specs.Assumed.{IsAssumed};
ghost use Rattle.gb_task.specs.Executing.{Registering, setting_with};
ghost use Rattle.gb_exec.specs.Asking.{ExecutionsRequest};
ghost use Rattle.gb_exec.specs.Building.{CanBuild, is_of_executions};
ghost use Rattle.gb_exec.specs.Built.{AreTrueBefore, HasBuilt};
ghost use Rattle.gb_exec.specs.Failing.{times_attributed};
ghost use Rattle.gb_exec.specs.Reports.{IsOf};

use crate::dry::dry_reports;
use crate::executions::execute_tasks;
use crate::heard_laws::reported_is_heard;
use crate::listener::TaskListener;
use crate::numbered_tasks::starts_of;
use crate::one_task::Build;
use gb_action::actions::Actions;
use gb_action::table::ActionTable;
use gb_core::path::TaskPath;
use gb_folder::folder::Folder;
use gb_history::record::Record;
use gb_plan::plan::{Plan, Planned, paths_of};
use gb_printer::printer::Printer;
use gb_report::report::{Options, Report, TaskReport, TaskReports};
use std::alloc::{AllocError, Global};

/// Executes the tasks of a plan. `records` has what was read of their records, in their order. All
/// listeners are notified of each task that starts, before its execution and after it, and its head
/// line and its lines are printed as soon as its execution has ended. The build fails only for want
/// of memory before the first execution, with nothing changed, no listener notified and nothing
/// printed; what goes wrong later is reported as a task's failure. In a dry run nothing starts, each
/// task is reported as skipped, and nothing is printed.
pub fn execute<A: Actions, F: Folder, L: TaskListener, P: Printer>(
    alloc: Global,
    folder: &mut F,
    plan: &Plan,
    table: &ActionTable<A::Stored>,
    records: &[Option<Record>],
    listeners: &mut Vec<L>,
    printer: &mut P,
    options: Options,
) -> Result<Report, AllocError>
    requires can { CanBuild A.meanings table.now plan.now }
    requires each { length records.now ≡ length plan.now }
    ensures unbegun { OnErr result (folder.new ≡ folder.old) }
    ensures unnotified { OnErr result (listeners.new ≡ listeners.old) }
    ensures unprinted { OnErr result (printer.new ≡ printer.old) }
    ensures dry_run { IfOk result (λ report. report.dry_run ≡ options.dry_run) }
    ensures of_tasks { IfOk result (λ report. AllZip IsOf plan.now report.tasks) }
    // Over any folder: which tasks start, and which outcomes are possible for each.
    ensures outline { IfOk result (λ report. Outlines options plan.now report.tasks) }
    // Each listener was notified of the start and the end of each started task once, in the order
    // of the report; a notification that it refused is counted.
    ensures heard { IfOk result (λ report.
        HaveHeard report (map L.ear listeners.old.items) (map L.ear listeners.new.items)) }
    // The parts of the tasks in the report were printed, in its order, or a beginning of them.
    ensures printed { IfOk result (λ report.
        Prints P.contents P.whole (parts_text report) printer.old printer.new) }
    // Over any folder: task after task, each from the state in which the one before it ended, makes
    // the calls that its outcome permits. A task is up to date only by what calls returned since the
    // last change that the build asked for, or since the build began.
    ensures requests { IfOk result (λ report. ExecutionsRequest F.device A.meanings
        table.now
        options plan.now records.now report.tasks folder.old folder.old folder.new) }
    // Faults are attributed to the device no more often than it failed, while the folder's count of
    // failures is below 2^64 - 1.
    ensures device { IfOk result (λ report.
        HasFailed (times_attributed report.tasks)
        (F.device.failures folder.old) (F.device.failures folder.new)) }
    ensures dry { options.dry_run ≡ true → folder.new ≡ folder.old }
    // So it asks for changes only at the outputs and records of its tasks.
    ensures changes { Requests F.device (changes_at (is_of_executions plan.now)) folder.old folder.new }
    // Where contents are known, kinds agree and a stopped write leaves no false record (`IsAssumed`):
    // if the records are true (`AreTrueBefore`), or digests may have collided before (`clear` is
    // false), this is a build of the plan by the definitions.
    ensures build { F.device.faithful folder.new → IfOk result (λ report. (kinds : Kinds)
        (registry_of : Registering)
        (remembered : Memory) (clear : Bool) (observed : List Bytes)
        → IsAssumed A.meanings table.now kinds (F.device.may_leave folder.old)
        → (IsTrue clear
        → AreTrueBefore kinds plan.now records.now observed (F.device.contents folder.old) remembered)
        → HasBuilt (setting_with kinds registry_of (F.device.may_leave folder.old)) clear observed options
        plan.now
        (record {
          contents = F.device.contents folder.old;
          remembered = remembered;
          failures = F.device.failures folder.old;
        })
        report.tasks
        (record { contents = F.device.contents folder.new; failures = F.device.failures folder.new })) }
{
    reported_is_heard();
    let tasks = plan.as_slice();
    if options.dry_run {
        return Ok(with_reports(dry_reports(alloc, tasks)?, true, true));
    }
    let paths = paths_of(alloc, tasks)?;
    let mut starts = starts_of(alloc, tasks)?;
    let mut reports = Vec::with_capacity(alloc, tasks.len())?;
    let build = Build {
        tasks,
        table,
        records,
        options,
    };
    let all_heard = execute_tasks::<A, F, L, P>(
        alloc,
        folder,
        &build,
        &mut starts,
        paths,
        listeners,
        printer,
        &mut reports,
    );
    Ok(with_reports(reports, false, all_heard))
}

/// The report of a build.
fn with_reports(tasks: Vec<TaskReport>, dry_run: bool, all_heard: bool) -> Report
    ensures tasks { result.tasks ≡ tasks.items }
    ensures dry_run { result.dry_run ≡ dry_run }
    ensures refused { result.listener_refused ≡ not all_heard }
{
    Report {
        tasks: TaskReports::from_vec(tasks),
        dry_run,
        listener_refused: !all_heard,
    }
}
