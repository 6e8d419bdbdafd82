//! One invocation over the scripts of a folder.
ghost use Rattle.std.specs.Prelude.{◌≡◌, ◌≤◌, ◌&&◌, ℕ, List, Ok, map, not, true, IfErr};
ghost use Rattle.std.specs.Prelude.{IfOk, IsTrue, OnErr, OnOk};
ghost use Rattle.gb_declare.specs.Registered.{registry_said};
ghost use Rattle.gb_folder.specs.Files.{is_own};
ghost use Rattle.gb_semantics.specs.declared.events.Event.TheVariants as events;
ghost use Rattle.gb_semantics.specs.Headline.{HaveHeard, KeepsElsewhere};
ghost use Rattle.gb_semantics.specs.Headline.{HasFailed, answer_of, times_attributed};
ghost use Rattle.gb_semantics.specs.Kinds.{Kinds};
ghost use Rattle.gb_plan.specs.Graph.{IsRegistry};
ghost use Rattle.gb_printer.specs.Printing.{Prints, parts_text};
ghost use Rattle.gb_records.specs.Assumed.{IsAssumed};
ghost use Rattle.gb_registry.specs.Tables.{tables_of};
ghost use Rattle.gb_task.specs.Executing.{setting_with};
ghost use Rattle.gb_build.specs.Leading.{IsTransition};
ghost use Rattle.gb_build.specs.Refusing.{IsNotBegun};
ghost use Rattle.gb_build.specs.Asking.{AreBuildable};
ghost use Rattle.gb_build.specs.Invoking.{IsInvocation, KeepsPromise};
ghost use Rattle.gb_build.specs.RequestAsked.{BuildRequests};

use crate::requested::build_requested;
use crate::workspace::read_registry;
use gb_action::actions::Actions;
use gb_core::name::Name;
use gb_core::text::Text;
use gb_exec::listener::TaskListener;
use gb_folder::folder::Folder;
use gb_printer::printer::Printer;
use gb_project::script_tasks::ScriptTasks;
use gb_provider::transforms::Transforms;
use gb_registry::configured::Configured;
use gb_registry::tables::Tables;
use gb_report::fault::Fault;
use gb_report::report::Report;
use gb_semantics::events::{Invocation, Properties};
use std::alloc::{AllocError, Global};

/// Reads the scripts of a folder with the values that the invocation gives, and builds what is
/// requested of the tasks that they register. All listeners are notified of each task that starts,
/// and its head line and its lines are printed as soon as its execution has ended. The build is
/// refused before the first task, with nothing changed or printed and no listener notified, for the
/// first fault of the scripts, of the requested names or of the plan, where memory runs out, or
/// where scripts or records cannot be read. `specs/Invoking.antt` has both promises, field by
/// field: `IsInvocation` over any folder, `KeepsPromise` where contents are known.
pub fn invoke<A: Actions, T: Transforms, F: Folder, L: TaskListener, P: Printer>(
    alloc: Global,
    folder: &mut F,
    tables: &Tables<A, T>,
    invocation: &Invocation,
    listeners: &mut Vec<L>,
    printer: &mut P,
) -> Result<Report, Fault>
    // Over any folder: which changes the invocation asks for, on which reads these rest, and what its
    // answer may be.
    ensures does { IsInvocation F.device
        (tables_of T.meanings A.meanings tables.now) invocation.now result folder.old folder.new }
    // Where contents are known: `KeepsPromise`. If kinds agree and a stopped write leaves no false
    // record (`IsAssumed`), the first records are true, and no two contents share a digest, a build
    // in which no task failed leaves what one from scratch makes.
    ensures promise { F.device.faithful folder.new → KeepsPromise (tables_of T.meanings A.meanings tables.now)
        (F.device.may_leave folder.old) invocation.now
        (record { contents = F.device.contents folder.old; failures = F.device.failures folder.old }) result
        (record { contents = F.device.contents folder.new; failures = F.device.failures folder.new }) }
    // Each listener was notified of the start and the end of each started task once, in the order
    // of the report; a notification that it refused is counted. In a dry run there are none.
    ensures heard { IfOk result (λ report.
        HaveHeard report (map L.ear listeners.old.items) (map L.ear listeners.new.items)) }
    ensures unnotified { OnErr result (listeners.new ≡ listeners.old) }
    // The parts of the tasks in the report were printed, in its order, or a beginning of them.
    ensures printed { IfOk result (λ report.
        Prints P.contents P.whole (parts_text report) printer.old printer.new) }
    ensures unprinted { OnErr result (printer.new ≡ printer.old) }
{
    let copied = invocation.properties.copy(alloc)?;
    let given = copied.into_vec();
    let configured = read_registry(alloc, folder, tables, given)?;
    let answered = build_registered(alloc, folder, &configured, invocation, listeners, printer);
    P::finish(configured);
    answered
}

/// Builds what is requested of the tasks of these scripts.
fn build_registered<A: Actions, T: Transforms, F: Folder, L: TaskListener, P: Printer>(
    alloc: Global,
    folder: &mut F,
    configured: &Configured<'_, A, T>,
    invocation: &Invocation,
    listeners: &mut Vec<L>,
    printer: &mut P,
) -> Result<Report, Fault>
    ensures heard { IfOk result (λ report.
        HaveHeard report (map L.ear listeners.old.items) (map L.ear listeners.new.items)) }
    ensures unnotified { OnErr result (listeners.new ≡ listeners.old) }
    ensures printed { IfOk result (λ report.
        Prints P.contents P.whole (parts_text report) printer.old printer.new) }
    ensures unprinted { OnErr result (printer.new ≡ printer.old) }
    // Faults are attributed to the device no more often than it failed.
    ensures device { HasFailed (times_attributed (answer_of result))
        (F.device.failures folder.old) (F.device.failures folder.new) }
    ensures requests { let tables = tables_of T.meanings A.meanings configured.now.tables.now in
        BuildRequests F.device A.meanings configured.now.tables.now.actions
        (registry_said tables configured.now.registry) invocation.now result folder.old folder.new }
    ensures buildable { let tables = tables_of T.meanings A.meanings configured.now.tables.now in
        OnOk result (IsRegistry (registry_said tables configured.now.registry)
        × AreBuildable A.meanings configured.now.tables.now.actions
        (registry_said tables configured.now.registry)) }
    ensures places { IfErr result (λ fault. (place : List ℕ) → fault ≡ Fault.Device place
        → IsTrue (is_own place && not invocation.now.options.dry_run)) }
    ensures not_begun { let tables = tables_of T.meanings A.meanings configured.now.tables.now in
        IfErr result (IsNotBegun (registry_said tables configured.now.registry) invocation.now
        (F.device.failures folder.old) (F.device.failures folder.new)) }
    ensures dry { invocation.now.options.dry_run ≡ true → folder.new ≡ folder.old }
    ensures refused { F.device.faithful folder.new → OnErr result (F.device.contents folder.new
        ≡ F.device.contents folder.old) }
    ensures keeps { let tables = tables_of T.meanings A.meanings configured.now.tables.now in
        F.device.faithful folder.new → KeepsElsewhere (registry_said tables configured.now.registry)
        (F.device.contents folder.old) (F.device.contents folder.new) }
    ensures leads { let tables = tables_of T.meanings A.meanings configured.now.tables.now in
        F.device.faithful folder.new → (kinds : Kinds)
        → IsAssumed A.meanings configured.now.tables.now.actions kinds (F.device.may_leave folder.old)
        → IsTransition (setting_with kinds (λ files given. Ok (registry_said tables configured.now.registry))
        (F.device.may_leave folder.old))
        (record { contents = F.device.contents folder.old; failures = F.device.failures folder.old })
        (events.Invoke invocation.now) (answer_of result)
        (record { contents = F.device.contents folder.new; failures = F.device.failures folder.new }) }
{
    let _scripts = configured.registry.scripts();
    let mut tasks = ScriptTasks::declare(alloc, configured)?;
    let answered = build_requested::<A, F, L, P, _>(
        alloc,
        folder,
        &mut tasks,
        &configured.tables.actions,
        invocation,
        listeners,
        printer,
    );
    P::finish(tasks);
    answered
}
