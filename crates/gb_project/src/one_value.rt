//! The value of an expression of a task.
ghost use Rattle.std.specs.Prelude.{◌≡◌, ◌<◌, ℕ, length, IfOk, Ok};
ghost use Rattle.gb_provider.specs.Answers.{IsGot};
ghost use Rattle.gb_provider.specs.Meanings.{meaning_of};
ghost use Rattle.gb_provider.specs.Table.{test_named};
ghost use Rattle.gb_provider.specs.declared.fault.ProviderFault.TheVariants.{OutOfMemory};
ghost use Rattle.gb_registry.specs.Said.{Registered};
ghost use Rattle.gb_registry.specs.Source.{Source};
ghost use Rattle.gb_registry.specs.Tables.{tables_of};
ghost use Rattle.gb_declare.specs.Realised.{answered, as_flag, as_place, truth_of};
ghost use Rattle.gb_declare.specs.Whole.{spots, whole};
ghost use Rattle.gb_project.specs.Given.{HasValue, IsOfGet, IsSorted, flag_at, given_at, place_at};
ghost use Rattle.gb_project.specs.Given.{producers_at, required_at, truth_at};
ghost use Rattle.gb_project.specs.Over.{IsOver, IsReportedOf, ReportsOver, known_names};

use crate::context::Context;
use crate::reporting::{refused, reported};
use gb_action::actions::Actions;
use gb_core::name::Name;
use gb_core::path::TaskPath;
use gb_core::place::Place;
use gb_core::task_paths::TaskPaths;
use gb_core::text::Text;
use gb_core::value::Value;
use gb_provider::expression::Node;
use gb_provider::fault::{ProviderFault, TransformFault};
use gb_provider::providers::Providers;
use gb_provider::transforms::Transforms;
use gb_report::fault::Fault;
use gb_script::function::Function;
use std::alloc::{AllocError, Global};

/// The fault of `get`, as it is reported.
fn fault_of<A: Actions, T: Transforms>(
    alloc: Global,
    context: &Context<'_, A, T>,
    fault: ProviderFault,
) -> Result<Fault, AllocError>
    requires { IsOfGet fault }
    ensures { let tables = tables_of T.meanings A.meanings context.now.tables.now in
        IfOk result (IsReportedOf tables (known_names context.now.projects.now context.now.tasks.now)
        context.now.faults.now fault) }
{
    match fault {
        ProviderFault::Circular(names) => Ok(Fault::Circular(names)),
        ProviderFault::Value(fault) => reported(alloc, context, fault),
        ProviderFault::OutOfMemory => Err(AllocError),
        ProviderFault::Step(_) | ProviderFault::NoValue => unreachable!(),
    }
}

/// The value of an expression, or nothing. Its fault is reported as that of a script.
pub fn ask<A: Actions, T: Transforms>(
    alloc: Global,
    context: &Context<'_, A, T>,
    providers: &mut Providers<'_, T>,
    node: Node,
) -> Result<Option<Value>, Fault>
    requires { node.number < length providers.old.nodes }
    ensures reported { let tables = tables_of T.meanings A.meanings context.now.tables.now in
        ReportsOver tables (known_names context.now.projects.now context.now.tasks.now)
        context.now.faults.now providers.old.nodes
        (λ source number. given_at tables source (number node.number)) result }
    ensures got { IfOk result (λ value. IsGot T.meanings providers.old.nodes node.number (Ok value)) }
    ensures kept { providers.new ≡ providers.old }
{
    match providers.get(node) {
        Ok(value) => Ok(value),
        Err(fault) => Err(fault_of(alloc, context, fault)?),
    }
}

/// The value of an expression, which must have one for the part of a task with this name (33).
pub fn require<A: Actions, T: Transforms>(
    alloc: Global,
    context: &Context<'_, A, T>,
    providers: &mut Providers<'_, T>,
    node: Node,
    path: &TaskPath,
    name: &Name,
) -> Result<Value, Fault>
    requires { node.number < length providers.old.nodes }
    ensures reported { let tables = tables_of T.meanings A.meanings context.now.tables.now in
        ReportsOver tables (known_names context.now.projects.now context.now.tasks.now)
        context.now.faults.now providers.old.nodes
        (λ source number. required_at tables source path.now name.now (number node.number)) result }
    ensures given { IfOk result (λ _. HasValue T.meanings providers.old.nodes node.number) }
    ensures kept { providers.new ≡ providers.old }
{
    match ask(alloc, context, providers, node)? {
        Some(value) => Ok(value),
        None => Err(Fault::NoValue(path.copy()?, name.copy()?)),
    }
}

/// The place that an expression gives. It must give one (33, 34).
pub fn require_place<A: Actions, T: Transforms>(
    alloc: Global,
    context: &Context<'_, A, T>,
    providers: &mut Providers<'_, T>,
    node: Node,
    path: &TaskPath,
    name: &Name,
) -> Result<Place, Fault>
    requires { node.number < length providers.old.nodes }
    ensures reported { let tables = tables_of T.meanings A.meanings context.now.tables.now in
        ReportsOver tables (known_names context.now.projects.now context.now.tasks.now)
        context.now.faults.now providers.old.nodes
        (λ source number. place_at tables source path.now name.now (number node.number)) result }
    ensures given { IfOk result (λ _. HasValue T.meanings providers.old.nodes node.number) }
    ensures kept { providers.new ≡ providers.old }
{
    let value = require(alloc, context, providers, node, path, name)?;
    place_in(alloc, value, name)
}

fn place_in(alloc: Global, value: Value, name: &Name) -> Result<Place, Fault>
    ensures { IsSorted (as_place name.now value) result }
{
    match value {
        Value::Place(place) => Ok(place),
        _ => Err(Fault::WrongValue(Text::from_str(alloc, name.as_str())?)),
    }
}

/// The flag that an expression gives. It must give one (33, 34).
pub fn require_flag<A: Actions, T: Transforms>(
    alloc: Global,
    context: &Context<'_, A, T>,
    providers: &mut Providers<'_, T>,
    node: Node,
    path: &TaskPath,
    name: &Name,
) -> Result<bool, Fault>
    requires { node.number < length providers.old.nodes }
    ensures reported { let tables = tables_of T.meanings A.meanings context.now.tables.now in
        ReportsOver tables (known_names context.now.projects.now context.now.tasks.now)
        context.now.faults.now providers.old.nodes
        (λ source number. flag_at tables source path.now name.now (number node.number)) result }
    ensures kept { providers.new ≡ providers.old }
{
    let value = require(alloc, context, providers, node, path, name)?;
    flag_in(alloc, value, name)
}

fn flag_in(alloc: Global, value: Value, name: &Name) -> Result<bool, Fault>
    ensures { IsSorted (as_flag name.now value) result }
{
    match value {
        Value::Flag(flag) => Ok(flag),
        _ => Err(Fault::WrongValue(Text::from_str(alloc, name.as_str())?)),
    }
}

/// The result of a stored test on a value.
fn ask_test<T: Transforms>(
    alloc: Global,
    stored: &T::Test,
    value: &Value,
    test: &Function,
) -> Result<bool, Fault>
    ensures { IsSorted (answered test.now
        (meaning_of T.meanings.test stored.now value.now test.now.arguments)) result }
{
    match T::test(stored, alloc, value, test.arguments.as_slice()) {
        Ok(truth) => Ok(truth),
        Err(TransformFault::Refused(refusal)) => {
            Err(refused(Text::from_str(alloc, test.name.as_str())?, refusal))
        }
        Err(TransformFault::OutOfMemory) => Err(Fault::OutOfMemory),
    }
}

/// The result of a test on a value, or on no value (31).
fn truth_of<A: Actions, T: Transforms>(
    alloc: Global,
    context: &Context<'_, A, T>,
    test: &Function,
    value: &Option<Value>,
) -> Result<bool, Fault>
    ensures { let tables = tables_of T.meanings A.meanings context.now.tables.now in
        (source : Source) (at : Registered)
        → IsSorted (truth_of tables source at (spots tables source) (whole tables source) test.now
        (test_named tables.functions test.now.name) value.now) result }
{
    let Some(stored) = context.tables.transforms.find_test(test.name.as_str()) else {
        return Err(Fault::UnknownTransform(test.name.copy()?));
    };
    match value {
        Some(value) => ask_test::<T>(alloc, stored, value, test),
        None => Ok(false),
    }
}

/// The result of a test on an expression. The test fails where the expression has no value.
pub fn passes<A: Actions, T: Transforms>(
    alloc: Global,
    context: &Context<'_, A, T>,
    providers: &mut Providers<'_, T>,
    node: Node,
    test: &Function,
) -> Result<bool, Fault>
    requires { node.number < length providers.old.nodes }
    ensures reported { let tables = tables_of T.meanings A.meanings context.now.tables.now in
        (at : Registered)
        → ReportsOver tables (known_names context.now.projects.now context.now.tasks.now)
        context.now.faults.now providers.old.nodes
        (λ source number. truth_at tables source at test.now (number node.number)) result }
    ensures kept { providers.new ≡ providers.old }
{
    let value = ask(alloc, context, providers, node)?;
    let truth = truth_of(alloc, context, test, &value);
    drop(value);
    truth
}

/// The tasks that an expression with a value comes from.
pub fn producers<A: Actions, T: Transforms>(
    context: &Context<'_, A, T>,
    providers: &mut Providers<'_, T>,
    node: Node,
) -> Result<TaskPaths, AllocError>
    requires node { node.number < length providers.old.nodes }
    requires value { HasValue T.meanings providers.old.nodes node.number }
    ensures reported { let tables = tables_of T.meanings A.meanings context.now.tables.now in
        IfOk result (λ tasks. (source : Source) (number : ℕ → ℕ)
        → IsOver tables source (known_names context.now.projects.now context.now.tasks.now)
        context.now.faults.now providers.old.nodes number
        → tasks ≡ producers_at tables source (number node.number)) }
    ensures kept { providers.new ≡ providers.old }
{
    match providers.producers(node) {
        Ok(tasks) => Ok(tasks),
        Err(fault) => Err(want_of_memory(fault)),
    }
}

fn want_of_memory(fault: ProviderFault) -> AllocError
    requires { fault ≡ OutOfMemory }
{
    match fault {
        ProviderFault::OutOfMemory => AllocError,
        ProviderFault::Circular(_)
        | ProviderFault::Step(_)
        | ProviderFault::NoValue
        | ProviderFault::Value(_) => unreachable!(),
    }
}
