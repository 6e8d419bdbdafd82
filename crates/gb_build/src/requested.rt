//! One build of what is requested.
ghost use Rattle.std.specs.Prelude.{◌≡◌, ◌≤◌, Ok, map, true, IfErr, IfOk, OnErr};
ghost use Rattle.gb_folder.specs.Calls.{WhereKnown};
ghost use Rattle.gb_semantics.specs.declared.events.Event.TheVariants as events;
ghost use Rattle.gb_semantics.specs.Headline.{HasFailed, HaveHeard, InvocationHolds};
ghost use Rattle.gb_semantics.specs.Headline.{answer_of, is_of_build, times_attributed};
ghost use Rattle.gb_semantics.specs.Kinds.{Kinds};
ghost use Rattle.gb_semantics.specs.TrueRecord.{outside};
ghost use Rattle.gb_printer.specs.Printing.{Prints, parts_text};
ghost use Rattle.gb_records.specs.Assumed.{IsAssumed};
ghost use Rattle.gb_folder.specs.Changes.{ChangesOnly};
ghost use Rattle.gb_task.specs.Executing.{Registering, setting_with};
ghost use Rattle.gb_build.specs.RequestAsked.{BuildRequests};
ghost use Rattle.gb_build.specs.Asking.{AreBuildable, IsReportOf, NoneBlameDevice};
ghost use Rattle.gb_build.specs.Leading.{IsTransition};
ghost use Rattle.gb_build.specs.Refusing.{IsNotBegun};

use crate::before::records_for;
use gb_action::actions::Actions;
use gb_action::table::ActionTable;
use gb_exec::building::execute;
use gb_exec::listener::TaskListener;
use gb_folder::folder::Folder;
use gb_graph::plan::plan;
use gb_graph::tasks::Tasks;
use gb_printer::printer::Printer;
use gb_report::fault::Fault;
use gb_report::report::Report;
use gb_semantics::events::Invocation;
use std::alloc::Global;

/// Builds what is requested: plans it, reads the records of the plan's tasks, and executes the
/// plan. All listeners are notified of each task that starts, and its part is printed as soon as
/// its execution has ended. The build is refused before the first task, with nothing changed or
/// printed and no listener notified, where there is no plan, or records cannot be read; what goes
/// wrong later is reported as a task's failure. In a dry run no record is read, and nothing changes
/// or is printed.
pub fn build_requested<A: Actions, F: Folder, L: TaskListener, P: Printer, Ts: Tasks>(
    alloc: Global,
    folder: &mut F,
    tasks: &mut Ts,
    table: &ActionTable<A::Stored>,
    invocation: &Invocation,
    listeners: &mut Vec<L>,
    printer: &mut P,
) -> Result<Report, Fault>
    requires { AreBuildable A.meanings table.now (Ts.registry tasks.old) }
    ensures kept { Ts.registry tasks.new ≡ Ts.registry tasks.old }
    ensures of_plan { IfOk result (IsReportOf (Ts.registry tasks.old) invocation.now) }
    ensures not_begun { IfErr result (IsNotBegun (Ts.registry tasks.old) invocation.now
        (F.device.failures folder.old) (F.device.failures folder.new)) }
    ensures heard { IfOk result (λ report.
        HaveHeard report (map L.ear listeners.old.items) (map L.ear listeners.new.items)) }
    ensures unnotified { OnErr result (listeners.new ≡ listeners.old) }
    // The parts of its tasks were printed, or a beginning of them.
    ensures printed { IfOk result (λ report.
        Prints P.contents P.whole (parts_text report) printer.old printer.new) }
    ensures unprinted { OnErr result (printer.new ≡ printer.old) }
    // Faults are attributed to the device no more often than it failed, if no script's fault is
    // attributed to it.
    ensures device { NoneBlameDevice (Ts.registry tasks.old)
        → HasFailed (times_attributed (answer_of result)) (F.device.failures folder.old)
        (F.device.failures folder.new) }
    // Over any folder: which tasks start, which outcomes are possible for each, which changes it
    // requests, and which records it stores.
    ensures requests { BuildRequests F.device A.meanings table.now
        (Ts.registry tasks.old)
        invocation.now result folder.old folder.new }
    ensures dry { invocation.now.options.dry_run ≡ true → folder.new ≡ folder.old }
    ensures refused { F.device.faithful folder.new → OnErr result (F.device.contents folder.new
        ≡ F.device.contents folder.old) }
    // Nothing changes but `.gb` and the build folders of the registered projects.
    ensures elsewhere { WhereKnown F.device folder.old folder.new
        (ChangesOnly (is_of_build (Ts.registry tasks.old).projects)) }
    // It may follow any sequence of events: it is a step of the folder's history, if its scripts
    // register the tasks that are registered here.
    ensures leads { F.device.faithful folder.new → (kinds : Kinds) (registry_of : Registering)
        → IsAssumed A.meanings table.now kinds (F.device.may_leave folder.old)
        → registry_of (outside (F.device.contents folder.old)).files invocation.now.properties
        ≡ Ok (Ts.registry tasks.old)
        → IsTransition (setting_with kinds registry_of (F.device.may_leave folder.old))
        (record { contents = F.device.contents folder.old; failures = F.device.failures folder.old })
        (events.Invoke invocation.now) (answer_of result)
        (record { contents = F.device.contents folder.new; failures = F.device.failures folder.new }) }
    // This is one invocation by its definition.
    ensures holds { F.device.faithful folder.new → (kinds : Kinds) (registry_of : Registering)
        → IsAssumed A.meanings table.now kinds (F.device.may_leave folder.old)
        → registry_of (outside (F.device.contents folder.old)).files invocation.now.properties
        ≡ Ok (Ts.registry tasks.old)
        → InvocationHolds (setting_with kinds registry_of (F.device.may_leave folder.old))
        (record { contents = F.device.contents folder.old; failures = F.device.failures folder.old })
        invocation.now result
        (record { contents = F.device.contents folder.new; failures = F.device.failures folder.new }) }
{
    let requested = invocation.requested.as_slice();
    let excluded = invocation.excluded.as_slice();
    let options = invocation.options;
    let plan = plan(alloc, tasks, requested, excluded)?;
    let records = records_for(alloc, folder, plan.as_slice(), options.dry_run)?;
    let report = execute::<A, F, L, P>(
        alloc,
        folder,
        &plan,
        table,
        records.as_slice(),
        listeners,
        printer,
        options,
    )?;
    P::finish(plan);
    P::finish(records);
    Ok(report)
}
