//! The actions of a task.
ghost use Rattle.std.specs.Prelude.{◌≡◌, IfOk, length};
ghost use Rattle.std.specs.FinMap.Entries.{find};
ghost use Rattle.std.specs.List.{flat_map};
ghost use Rattle.gb_core.specs.Lists.{byte_order};
ghost use Rattle.gb_registry.specs.Said.{Registered};
ghost use Rattle.gb_registry.specs.Source.{Source};
ghost use Rattle.gb_registry.specs.Tables.{tables_of};
ghost use Rattle.gb_declare.specs.Borrowed.{now_of};
ghost use Rattle.gb_declare.specs.Realised.{action_of, fitting};
ghost use Rattle.gb_declare.specs.Whole.{spots, whole};
ghost use Rattle.gb_project.specs.Given.{IsSorted};
ghost use Rattle.gb_project.specs.Over.{known_names};
ghost use Rattle.gb_project.specs.Evaluated.{actions_of};
ghost use Rattle.gb_project.specs.Rows.{AreWithin, HaveValues, IsAt, ReportsOf};

use crate::context::Context;
use crate::parts::split_at;
use crate::row_values::arguments;
use gb_action::actions::Actions;
use gb_action::list::ActionList;
use gb_action::values::Arguments;
use gb_core::path::TaskPath;
use gb_plan::task::Action;
use gb_provider::expression::Node;
use gb_provider::providers::Providers;
use gb_provider::transforms::Transforms;
use gb_report::fault::Fault;
use gb_script::script::Call;
use std::alloc::Global;

/// The action that a call names, with these arguments: it must exist (40) and accept them (43).
fn fitting<A: Actions, T: Transforms>(
    context: &Context<'_, A, T>,
    path: &TaskPath,
    call: &Call,
    args: Arguments,
) -> Result<Action, Fault>
    ensures { let tables = tables_of T.meanings A.meanings context.now.tables.now in
        (source : Source) (at : Registered) → IsAt path.now at
        → IsSorted (fitting tables source at (spots tables source) (whole tables source) call.now
        (find byte_order call.now.name tables.kinds) args) result }
{
    let Ok(stored) = context.tables.actions.find(call.name.as_str()) else {
        return Err(Fault::UnknownAction(call.name.copy()?));
    };
    if !A::shape_of(stored).takes(args.as_slice()) {
        return Err(Fault::BadArgument(path.copy()?, call.name.copy()?));
    }
    Ok(Action {
        kind: call.name.copy()?,
        version: A::version(stored),
        args,
    })
}

/// The action of a call, whose arguments must have values (33).
fn action<A: Actions, T: Transforms>(
    alloc: Global,
    context: &Context<'_, A, T>,
    providers: &mut Providers<'_, T>,
    path: &TaskPath,
    call: &Call,
    row: &[Node],
) -> Result<Action, Fault>
    requires { AreWithin providers.old.nodes row.now }
    ensures reported { let tables = tables_of T.meanings A.meanings context.now.tables.now in
        ReportsOf tables (known_names context.now.projects.now context.now.tasks.now)
        context.now.faults.now providers.old.nodes (IsAt path.now) row.now call.now.arguments
        (λ source at. action_of tables source at (spots tables source) (whole tables source) call.now)
        result }
    ensures given { IfOk result (λ _. HaveValues T.meanings providers.old.nodes row.now) }
    ensures kept { providers.new ≡ providers.old }
{
    let args = arguments(alloc, context, providers, path, &call.name, row)?;
    fitting(context, path, call, args)
}

/// The actions of a task in order: each needs the values of its arguments (33), must exist (40),
/// and must accept the arguments (43).
pub fn actions<A: Actions, T: Transforms>(
    alloc: Global,
    context: &Context<'_, A, T>,
    providers: &mut Providers<'_, T>,
    path: &TaskPath,
    calls: &ActionList<&Call>,
    row: &[Node],
) -> Result<ActionList<Action>, Fault>
    requires within { AreWithin providers.old.nodes row.now }
    requires count { length row.now ≡ length (flat_map (λ call. call.arguments) (now_of calls.now)) }
    ensures reported { let tables = tables_of T.meanings A.meanings context.now.tables.now in
        ReportsOf tables (known_names context.now.projects.now context.now.tasks.now)
        context.now.faults.now providers.old.nodes (IsAt path.now) row.now
        (flat_map (λ call. call.arguments) (now_of calls.now))
        (λ source at. actions_of tables source at (now_of calls.now)) result }
    ensures given { IfOk result (λ _. HaveValues T.meanings providers.old.nodes row.now) }
    ensures kept { providers.new ≡ providers.old }
{
    let mut found = ActionList::new(alloc);
    let mut rest = row;
    for call in calls.iter() {
        let (given, others) = split_at(rest, call.arguments.as_slice().len());
        let action = action(alloc, context, providers, path, *call, given)?;
        found.do_last(action)?;
        rest = others;
    }
    Ok(found)
}
