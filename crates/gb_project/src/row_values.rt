//! The values of expressions in a row.
ghost use Rattle.std.specs.Prelude.{◌≡◌, IfOk};
ghost use Rattle.gb_registry.specs.Tables.{tables_of};
ghost use Rattle.gb_declare.specs.Realised.{each_of};
ghost use Rattle.gb_project.specs.Given.{place_at, required_at};
ghost use Rattle.gb_project.specs.Over.{ReportsOver, known_names};
ghost use Rattle.gb_project.specs.Rows.{AreWithin, HaveValues, numbers_in};

use crate::context::Context;
use crate::one_value::{require, require_place};
use gb_action::actions::Actions;
use gb_action::values::Arguments;
use gb_core::name::Name;
use gb_core::path::TaskPath;
use gb_plan::task::Places;
use gb_provider::expression::Node;
use gb_provider::providers::Providers;
use gb_provider::transforms::Transforms;
use gb_report::fault::Fault;
use std::alloc::Global;

/// The places that expressions give. Each must give one (33, 34).
pub fn places<A: Actions, T: Transforms>(
    alloc: Global,
    context: &Context<'_, A, T>,
    providers: &mut Providers<'_, T>,
    path: &TaskPath,
    name: &Name,
    row: &[Node],
) -> Result<Places, Fault>
    requires { AreWithin providers.old.nodes row.now }
    ensures reported { let tables = tables_of T.meanings A.meanings context.now.tables.now in
        ReportsOver tables (known_names context.now.projects.now context.now.tasks.now)
        context.now.faults.now providers.old.nodes
        (λ source number. each_of (place_at tables source path.now name.now) (numbers_in number row.now))
        result }
    ensures given { IfOk result (λ _. HaveValues T.meanings providers.old.nodes row.now) }
    ensures kept { providers.new ≡ providers.old }
{
    let mut found = Vec::new(alloc);
    for node in row {
        let place = require_place(alloc, context, providers, *node, path, name)?;
        found.push(place)?;
    }
    Ok(Places::from_vec(found))
}

/// The values that expressions give. Each must give one (33).
pub fn arguments<A: Actions, T: Transforms>(
    alloc: Global,
    context: &Context<'_, A, T>,
    providers: &mut Providers<'_, T>,
    path: &TaskPath,
    name: &Name,
    row: &[Node],
) -> Result<Arguments, Fault>
    requires { AreWithin providers.old.nodes row.now }
    ensures reported { let tables = tables_of T.meanings A.meanings context.now.tables.now in
        ReportsOver tables (known_names context.now.projects.now context.now.tasks.now)
        context.now.faults.now providers.old.nodes
        (λ source number. each_of (required_at tables source path.now name.now) (numbers_in number row.now))
        result }
    ensures given { IfOk result (λ _. HaveValues T.meanings providers.old.nodes row.now) }
    ensures kept { providers.new ≡ providers.old }
{
    let mut found = Arguments::new(alloc);
    for node in row {
        let value = require(alloc, context, providers, *node, path, name)?;
        found.push(value)?;
    }
    Ok(found)
}
