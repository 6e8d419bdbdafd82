//! The executions of all tasks of a plan.
//!
//! This is the main loop of a build. For each task, in the order of the plan, it names the files
//! that are read ahead ([`ahead`](crate::ahead)), executes the task if it starts
//! ([`one_task`](crate::one_task)), prints its part of the report, records its outcome for the
//! tasks after it ([`may_start`](crate::may_start)), and appends its report. The digests of the
//! files that were read since the last change go from task to task (`seen`).
ghost use Rattle.std.specs.Prelude.{◌≡◌, ◌≤◌, ◌<◌, ◌+◌, ◌++◌, ◌∷◌, Bool, List, true, false, [], map, length};
ghost use Rattle.std.specs.Prelude.{replicate, IsTrue, vec_len};
ghost use Rattle.std.specs.List.{AllZip, flat_map};
ghost use Rattle.std.specs.Vec.{vec_capacity};
ghost use Rattle.gb_folder.specs.Files.{Bytes};
ghost use Rattle.gb_semantics.specs.Headline.{HasFailed};
ghost use Rattle.gb_semantics.specs.Kinds.{Kinds};
ghost use Rattle.gb_semantics.specs.Memory.{Memory};
ghost use Rattle.gb_semantics.specs.Outline.{AreOutlines};
ghost use Rattle.gb_semantics.specs.Execution.{heard_of};
ghost use Rattle.gb_plan.specs.Graph.{order};
ghost use Rattle.gb_printer.specs.Printing.{Prints};
ghost use Rattle.gb_records.specs.Assumed.{IsAssumed};
ghost use Rattle.gb_report.specs.Report.{task_text};
ghost use Rattle.gb_task.specs.Executing.{Registering, setting_with};
ghost use Rattle.gb_exec.specs.Notifying.{AllReported};
ghost use Rattle.gb_exec.specs.Plans.{AreOfPlan};
ghost use Rattle.gb_exec.specs.declared.may_start.Ending.TheVariants.{ToCome};
ghost use Rattle.gb_exec.specs.Asking.{ExecutionsRequest};
ghost use Rattle.gb_exec.specs.Building.{CanBuild};
ghost use Rattle.gb_exec.specs.Built.{AreTrueBefore, HasBuilt};
ghost use Rattle.gb_exec.specs.Failing.{times_attributed};
ghost use Rattle.gb_exec.specs.Reports.{IsOf};

use crate::ahead::Ahead;
use crate::heard_laws::reported_more;
use crate::listener::TaskListener;
use crate::may_start::Starts;
use crate::one_task::{Build, execute_one};
use gb_action::actions::Actions;
use gb_core::path::TaskPath;
use gb_folder::folder::Folder;
use gb_printer::printer::Printer;
use gb_report::report::TaskReport;
use gb_task::case_laws::what_is_read_is_known;
use gb_tree::digest_cache::DigestCache;
use std::alloc::Global;

/// Appends a report. There is room for it.
fn push_reserved(reports: &mut Vec<TaskReport>, report: TaskReport)
    requires { vec_len reports.old < vec_capacity reports.old }
    ensures items { reports.new.items ≡ reports.old.items ++ report ∷ [] }
    ensures len { vec_len reports.new ≡ vec_len reports.old + 1 }
    ensures capacity { vec_capacity reports.old ≤ vec_capacity reports.new }
{
    match reports.push(report) {
        Ok(()) => {}
        Err(_) => unreachable!(),
    }
}

/// Executes all tasks, in their order, prints the part of each as soon as its execution has ended,
/// and puts their reports into the room that is reserved for them. Returns whether each listener
/// accepted all its notifications. `paths` has the paths of the tasks.
pub(crate) fn execute_tasks<A: Actions, F: Folder, L: TaskListener, P: Printer>(
    alloc: Global,
    folder: &mut F,
    build: &Build<'_, A::Stored>,
    starts: &mut Starts,
    paths: Vec<TaskPath>,
    listeners: &mut Vec<L>,
    printer: &mut P,
    reports: &mut Vec<TaskReport>,
) -> bool
    requires can { CanBuild A.meanings build.now.table.now build.now.tasks.now }
    requires not_dry { build.now.options.dry_run ≡ false }
    requires of_plan { AreOfPlan build.now.tasks.now starts.old }
    requires to_come { starts.old.endings ≡ replicate (length build.now.tasks.now) ToCome }
    requires each { length build.now.records.now ≡ length build.now.tasks.now }
    requires paths { paths.items ≡ order build.now.tasks.now }
    requires none { reports.old.items ≡ [] }
    requires room { length build.now.tasks.now ≤ vec_capacity reports.old }
    ensures of_tasks { AllZip IsOf build.now.tasks.now reports.new.items }
    ensures outline { AreOutlines build.now.options build.now.tasks.now [] build.now.tasks.now
        reports.new.items }
    ensures heard { AllReported (heard_of false reports.new.items) result
        (map L.ear listeners.old.items) (map L.ear listeners.new.items) }
    ensures printed { Prints P.contents P.whole (flat_map task_text reports.new.items)
        printer.old printer.new }
    ensures requests { ExecutionsRequest F.device A.meanings build.now.table.now
        build.now.options build.now.tasks.now build.now.records.now reports.new.items folder.old folder.old
        folder.new }
    ensures device { HasFailed (times_attributed reports.new.items)
        (F.device.failures folder.old) (F.device.failures folder.new) }
    ensures build { F.device.faithful folder.new → (kinds : Kinds) (registry_of : Registering)
        (remembered : Memory)
        (clear : Bool) (observed : List Bytes)
        → IsAssumed A.meanings build.now.table.now kinds (F.device.may_leave folder.old)
        → (IsTrue clear → AreTrueBefore kinds build.now.tasks.now build.now.records.now observed
        (F.device.contents folder.old) remembered)
        → HasBuilt (setting_with kinds registry_of (F.device.may_leave folder.old)) clear observed
        build.now.options
        build.now.tasks.now
        (record {
          contents = F.device.contents folder.old;
          remembered = remembered;
          failures = F.device.failures folder.old;
        })
        reports.new.items
        (record { contents = F.device.contents folder.new; failures = F.device.failures folder.new }) }
{
    what_is_read_is_known();
    reported_more();
    let mut all_heard = true;
    let mut index = 0;
    let mut ahead = Ahead::new(build.options.rerun);
    let mut seen = DigestCache::new(alloc);
    for path in paths {
        // For the proof alone: `as_str` states that this is a task's path, which the contract about
        // records needs.
        let _path = path.as_str();
        let next = ahead.next(alloc, build, index);
        let taken = execute_one::<A, F, L>(
            alloc, folder, build, starts, index, path, &next, listeners, &mut seen,
        );
        ahead.note(&taken.report.outcome);
        all_heard = all_heard && taken.all_heard;
        printer.print_task(alloc, &taken.report);
        starts.end(index, &taken.report.outcome);
        push_reserved(reports, taken.report);
        index += 1;
    }
    all_heard
}
