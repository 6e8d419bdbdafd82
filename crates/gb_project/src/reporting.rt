//! How faults of expressions are reported.
ghost use Rattle.std.specs.Prelude.{◌≡◌, ◌⊎◌, ℕ, IfOk};
ghost use Rattle.gb_registry.specs.Projects.{root_path};
ghost use Rattle.gb_registry.specs.References.{lookup_faults};
ghost use Rattle.gb_registry.specs.Said.{task_at};
ghost use Rattle.gb_registry.specs.Source.{Source};
ghost use Rattle.gb_registry.specs.Tables.{tables_of};
ghost use Rattle.gb_report.specs.declared.fault.Fault.TheVariants.{TaskNotFound};
ghost use Rattle.gb_declare.specs.Realised.{first_or, no_output, refused, reported};
ghost use Rattle.gb_project.specs.Over.{AreKnown, IsFault, known_names};

use crate::context::Context;
use gb_action::actions::Actions;
use gb_core::path::TaskPath;
use gb_core::text::Text;
use gb_provider::fault::{Chosen, Refusal, ValueFault};
use gb_provider::transforms::Transforms;
use gb_registry::names::Names;
use gb_registry::projects::ProjectSet;
use gb_registry::unique_texts::TextSet;
use gb_report::fault::Fault;
use std::alloc::{AllocError, Global};

/// The fault of a function, under its name.
pub(crate) fn refused(function: Text, refusal: Refusal) -> Fault
    ensures { result ≡ refused function refusal }
{
    match refusal {
        Refusal::BadArguments => Fault::BadArguments(function),
        Refusal::WrongValue => Fault::WrongValue(function),
    }
}

/// Why there is no such task: no such project (50), or no such task in it (52).
fn no_task(
    alloc: Global,
    projects: &ProjectSet,
    tasks: &TextSet,
    task: &TaskPath,
) -> Result<Fault, AllocError>
    ensures { IfOk result (IsFault (first_or (TaskNotFound task.now)
        (lookup_faults (known_names projects.now tasks.now) root_path task.now))) }
{
    let text = Text::from_str(alloc, task.as_str())?;
    let names = Names { projects, tasks };
    match names.look_up(alloc, ":", &text) {
        Ok(()) => Ok(Fault::TaskNotFound(text)),
        Err(fault) => Ok(fault),
    }
}

/// Why a task has no such output: there is no such task, it is at fault, or it has none of the name
/// (59).
fn no_output<A: Actions, T: Transforms>(
    alloc: Global,
    context: &Context<'_, A, T>,
    chosen: &Chosen,
) -> Result<Fault, AllocError>
    ensures { let tables = tables_of T.meanings A.meanings context.now.tables.now in
        IfOk result (λ fault. (source : Source)
        → AreKnown tables source (known_names context.now.projects.now context.now.tasks.now)
        context.now.faults.now
        → IsFault (no_output tables source chosen.now (task_at source.said chosen.now.task)) fault) }
{
    let Some(index) = context.tasks.position(chosen.task.as_str()) else {
        return no_task(alloc, context.projects, context.tasks, &chosen.task);
    };
    let Some(known) = context.faults.get(index) else {
        return no_task(alloc, context.projects, context.tasks, &chosen.task);
    };
    match known {
        Some(fault) => fault.copy(alloc),
        None => Ok(Fault::UnknownOutput(chosen.task.copy()?, chosen.output.copy()?)),
    }
}

/// The fault of a value, as it is reported.
pub(crate) fn reported<A: Actions, T: Transforms>(
    alloc: Global,
    context: &Context<'_, A, T>,
    fault: ValueFault,
) -> Result<Fault, AllocError>
    ensures { let tables = tables_of T.meanings A.meanings context.now.tables.now in
        IfOk result (λ known. (source : Source)
        → AreKnown tables source (known_names context.now.projects.now context.now.tasks.now)
        context.now.faults.now
        → IsFault (reported tables source fault) known) }
{
    match fault {
        ValueFault::Refused(function, refusal) => Ok(refused(function, refusal)),
        ValueFault::Unrealised(chosen) => no_output(alloc, context, &chosen),
    }
}
