//! The tasks that a task needs.
ghost use Rattle.std.specs.Prelude.{◌≡◌, ◌++◌, ℕ, IfOk, OnOk};
ghost use Rattle.std.specs.List.{flat_map};
ghost use Rattle.gb_core.specs.Tasks.{with_tasks};
ghost use Rattle.gb_registry.specs.Source.{Source};
ghost use Rattle.gb_registry.specs.Tables.{tables_of};
ghost use Rattle.gb_project.specs.Given.{producers_at};
ghost use Rattle.gb_project.specs.Over.{IsOver, known_names};
ghost use Rattle.gb_project.specs.Parts.{AreAllWithin, HaveAllValues};
ghost use Rattle.gb_project.specs.Rows.{AreWithin, HaveValues, numbers_in};

use crate::context::Context;
use crate::one_value::producers;
use crate::parts::Parts;
use gb_action::actions::Actions;
use gb_core::task_paths::TaskPaths;
use gb_provider::expression::Node;
use gb_provider::providers::Providers;
use gb_provider::transforms::Transforms;
use std::alloc::{AllocError, Global};

/// Adds the tasks that expressions with values come from.
fn add_producers<A: Actions, T: Transforms>(
    context: &Context<'_, A, T>,
    providers: &mut Providers<'_, T>,
    tasks: &mut TaskPaths,
    row: &[Node],
) -> Result<(), AllocError>
    requires within { AreWithin providers.old.nodes row.now }
    requires values { HaveValues T.meanings providers.old.nodes row.now }
    ensures reported { let tables = tables_of T.meanings A.meanings context.now.tables.now in
        OnOk result ((source : Source) (number : ℕ → ℕ)
        → IsOver tables source (known_names context.now.projects.now context.now.tasks.now)
        context.now.faults.now providers.old.nodes number
        → tasks.new ≡ with_tasks tasks.old (flat_map (producers_at tables source)
        (numbers_in number row.now))) }
    ensures kept { providers.new ≡ providers.old }
{
    for node in row {
        let found = producers(context, providers, *node)?;
        tasks.extend(&found)?;
    }
    Ok(())
}

/// The tasks that a task depends on, and the tasks that produce what it reads.
pub fn needs<A: Actions, T: Transforms>(
    alloc: Global,
    context: &Context<'_, A, T>,
    providers: &mut Providers<'_, T>,
    depends_on: &TaskPaths,
    parts: &Parts<'_>,
) -> Result<TaskPaths, AllocError>
    requires within { AreAllWithin providers.old.nodes parts.now }
    requires values { HaveAllValues T.meanings providers.old.nodes parts.now }
    ensures reported { let tables = tables_of T.meanings A.meanings context.now.tables.now in
        IfOk result (λ tasks. (source : Source) (number : ℕ → ℕ)
        → IsOver tables source (known_names context.now.projects.now context.now.tasks.now)
        context.now.faults.now providers.old.nodes number
        → tasks ≡ with_tasks depends_on.now (flat_map (producers_at tables source) (numbers_in number
        (parts.now.values.now ++ parts.now.roots.now ++ parts.now.arguments.now)))) }
    ensures kept { providers.new ≡ providers.old }
{
    let mut tasks = depends_on.copy(alloc)?;
    add_producers(context, providers, &mut tasks, parts.values)?;
    add_producers(context, providers, &mut tasks, parts.roots)?;
    add_producers(context, providers, &mut tasks, parts.arguments)?;
    Ok(tasks)
}
