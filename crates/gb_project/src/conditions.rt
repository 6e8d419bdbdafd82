//! The conditions of a task.
ghost use Rattle.std.specs.Prelude.{◌≡◌, IfOk, codes, length, map};
ghost use Rattle.std.specs.Option.{option_copied, option_to_list};
ghost use Rattle.gb_registry.specs.Tables.{tables_of};
ghost use Rattle.gb_declare.specs.Borrowed.{now_of};
ghost use Rattle.gb_project.specs.Over.{known_names};
ghost use Rattle.gb_project.specs.Evaluated.{all_hold, enabled_of};
ghost use Rattle.gb_project.specs.Rows.{Anywhere, AreWithin, IsAt, ReportsOf};

use crate::context::Context;
use crate::one_value::{passes, require_flag};
use gb_action::actions::Actions;
use gb_core::name::{Name, NameFault};
use gb_core::path::TaskPath;
use gb_provider::expression::Node;
use gb_provider::providers::Providers;
use gb_provider::transforms::Transforms;
use gb_report::fault::Fault;
use gb_script::script::Condition;
use gb_script::script_expression::Expression;
use std::alloc::{AllocError, Global};

/// The word of the clause.
fn enabled_word(alloc: Global) -> Result<Name, AllocError>
    ensures { IfOk result (λ name. name ≡ codes "enabled") }
{
    match Name::read(alloc, "enabled") {
        Ok(name) => Ok(name),
        Err(NameFault::OutOfMemory) => Err(AllocError),
        Err(NameFault::BadName) => unreachable!(),
    }
}

/// Whether a task is enabled: `enabled` is absent, or true (33, 34).
pub fn is_enabled<A: Actions, T: Transforms>(
    alloc: Global,
    context: &Context<'_, A, T>,
    providers: &mut Providers<'_, T>,
    path: &TaskPath,
    enabled: Option<&Expression>,
    row: &[Node],
) -> Result<bool, Fault>
    requires within { AreWithin providers.old.nodes row.now }
    requires count { length row.now ≡ length (option_to_list (option_copied enabled)) }
    ensures reported { let tables = tables_of T.meanings A.meanings context.now.tables.now in
        ReportsOf tables (known_names context.now.projects.now context.now.tasks.now)
        context.now.faults.now providers.old.nodes (IsAt path.now) row.now
        (option_to_list (option_copied enabled.entry))
        (λ source at. enabled_of tables source at (option_copied enabled.entry)) result }
    ensures kept { providers.new ≡ providers.old }
{
    let Some((node, _)) = row.split_first() else {
        return Ok(true);
    };
    let name = enabled_word(alloc)?;
    require_flag(alloc, context, providers, *node, path, &name)
}

/// Whether all conditions hold. Each is evaluated, even after one that does not hold.
pub fn all_hold<A: Actions, T: Transforms>(
    alloc: Global,
    context: &Context<'_, A, T>,
    providers: &mut Providers<'_, T>,
    conditions: &[&Condition],
    row: &[Node],
) -> Result<bool, Fault>
    requires within { AreWithin providers.old.nodes row.now }
    requires count { length row.now ≡ length conditions.now }
    ensures reported { let tables = tables_of T.meanings A.meanings context.now.tables.now in
        ReportsOf tables (known_names context.now.projects.now context.now.tasks.now)
        context.now.faults.now providers.old.nodes Anywhere row.now
        (map (λ condition. condition.value) (now_of conditions.now))
        (λ source at. all_hold tables source at (now_of conditions.now)) result }
    ensures kept { providers.new ≡ providers.old }
{
    let mut all = true;
    let mut rest = row;
    for condition in conditions {
        let Some((node, others)) = rest.split_first() else {
            unreachable!();
        };
        rest = others;
        let holds = passes(alloc, context, providers, *node, &condition.test)?;
        all = all && holds;
    }
    Ok(all)
}
