//! The values of a task's inputs.
ghost use Rattle.std.specs.Prelude.{◌≡◌, IfOk, length, map};
ghost use Rattle.gb_registry.specs.Tables.{tables_of};
ghost use Rattle.gb_declare.specs.Borrowed.{named_in};
ghost use Rattle.gb_project.specs.Over.{known_names};
ghost use Rattle.gb_project.specs.Evaluated.{values_of};
ghost use Rattle.gb_project.specs.Rows.{AreWithin, HaveValues, IsAt, ReportsOf};

use crate::context::Context;
use crate::one_value::require;
use gb_action::actions::Actions;
use gb_action::values::NamedValues;
use gb_core::name::Name;
use gb_core::path::TaskPath;
use gb_provider::expression::Node;
use gb_provider::providers::Providers;
use gb_provider::transforms::Transforms;
use gb_report::fault::Fault;
use gb_script::script_expression::Expression;
use std::alloc::Global;
use std::collections::BTreeMap;

/// The values of inputs by their names. Each must have one (33).
pub fn values<A: Actions, T: Transforms>(
    alloc: Global,
    context: &Context<'_, A, T>,
    providers: &mut Providers<'_, T>,
    path: &TaskPath,
    inputs: &BTreeMap<Name, &Expression>,
    row: &[Node],
) -> Result<NamedValues, Fault>
    requires within { AreWithin providers.old.nodes row.now }
    requires count { length row.now ≡ length inputs.now.entries }
    ensures reported { let tables = tables_of T.meanings A.meanings context.now.tables.now in
        ReportsOf tables (known_names context.now.projects.now context.now.tasks.now)
        context.now.faults.now providers.old.nodes (IsAt path.now) row.now
        (map (λ value. value.1) (named_in inputs.now))
        (λ source at. values_of tables source at (named_in inputs.now)) result }
    ensures given { IfOk result (λ _. HaveValues T.meanings providers.old.nodes row.now) }
    ensures kept { providers.new ≡ providers.old }
{
    let mut found = NamedValues::new(alloc);
    let mut rest = row;
    for (name, _) in inputs.iter() {
        let Some((node, others)) = rest.split_first() else {
            unreachable!();
        };
        let called = name.copy()?;
        let value = require(alloc, context, providers, *node, path, name)?;
        found.push((called, value))?;
        rest = others;
    }
    Ok(found)
}
