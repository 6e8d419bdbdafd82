//! Finds the tasks that produce the value of an expression, and caches them.
ghost use Rattle.std.specs.Prelude.{◌≡◌, ◌≢◌, ◌<◌, None, length};
ghost use Rattle.gb_provider.specs.Answers.{value_of};
ghost use Rattle.gb_provider.specs.Produced.{AreProducers, IsEndlessReported, carriers};
ghost use Rattle.gb_provider.specs.Indexed.{IsIndexed};
ghost use Rattle.gb_provider.specs.Remembered.{AreWithin, IsRemembered};
ghost use Rattle.gb_provider.specs.Rules.{rules};
ghost use Rattle.gb_provider.specs.Search.{IsEvaluated, IsSound, known};

use crate::carriers::TaskReader;
use crate::evaluate::known_at;
use crate::evaluation::State;
use crate::expression::{Expression, Outcome};
use crate::expressions::Outputs;
use crate::fault::ProviderFault;
use crate::produced::Produced;
use crate::recall::{extend, recall, report_circle};
use crate::shared_value::Shared;
use crate::transforms::Transforms;
use crate::work_list::evaluate;
use gb_core::task_paths::TaskPaths;
use std::alloc::{AllocError, Global};
use std::mem;

/// Finds the tasks of an expression: afterwards they are known, unless it runs into a circle.
fn evaluate_producers<T: Transforms>(
    alloc: Global,
    nodes: &[Expression<T::Map, T::FlatMap, T::Zip>],
    outputs: &Outputs,
    values: &mut Vec<State<Shared<Outcome>>>,
    states: &mut Vec<State<Shared<Produced<usize>>>>,
    number: usize,
) -> Result<Option<Vec<usize>>, AllocError>
    requires index { IsIndexed nodes.now outputs.now }
    requires number { number < length nodes.now }
    requires within { AreWithin nodes.now }
    requires values { IsRemembered (rules T.meanings nodes.now) values.old.items }
    requires remembered { IsRemembered (carriers T.meanings nodes.now) states.old.items }
    ensures values { IsRemembered (rules T.meanings nodes.now) values.new.items }
    ensures evaluated { IsEvaluated (carriers T.meanings nodes.now) number states.new.items result }
{
    extend(states, nodes.len())?;
    let held = mem::replace(values, Vec::new(alloc));
    let mut reader = TaskReader::<T> {
        alloc,
        nodes,
        outputs,
        values: held,
    };
    let found = evaluate(alloc, &mut reader, states, number);
    let TaskReader { values: held, .. } = reader;
    *values = held;
    found
}

/// The fault of an expression whose value has to choose but never has an answer.
fn report_endless<T: Transforms>(
    alloc: Global,
    nodes: &[Expression<T::Map, T::FlatMap, T::Zip>],
    outputs: &Outputs,
    values: &mut Vec<State<Shared<Outcome>>>,
    chooser: usize,
) -> ProviderFault
    requires index { IsIndexed nodes.now outputs.now }
    requires chooser { chooser < length nodes.now }
    requires endless { value_of T.meanings nodes.now chooser ≡ None }
    requires within { AreWithin nodes.now }
    requires values { IsRemembered (rules T.meanings nodes.now) values.old.items }
    ensures values { IsRemembered (rules T.meanings nodes.now) values.new.items }
    ensures reported { IsEndlessReported T.meanings nodes.now chooser result }
{
    match recall::<T>(alloc, nodes, outputs, values, chooser) {
        Ok(_) => unreachable!(),
        Err(fault) => fault,
    }
}

/// Returns the tasks that are known.
fn report_producers<T: Transforms>(
    alloc: Global,
    nodes: &[Expression<T::Map, T::FlatMap, T::Zip>],
    outputs: &Outputs,
    values: &mut Vec<State<Shared<Outcome>>>,
    states: &[State<Shared<Produced<usize>>>],
    number: usize,
) -> Result<TaskPaths, ProviderFault>
    requires index { IsIndexed nodes.now outputs.now }
    requires within { AreWithin nodes.now }
    requires values { IsRemembered (rules T.meanings nodes.now) values.old.items }
    requires number { number < length states.now }
    requires sound { IsSound (carriers T.meanings nodes.now) states.now }
    requires known { known states.now number ≢ None }
    ensures values { IsRemembered (rules T.meanings nodes.now) values.new.items }
    ensures producers { AreProducers T.meanings nodes.now number result }
{
    match known_at(states, number) {
        Some(Produced::Tasks(tasks)) => Ok(tasks.copy(alloc)?),
        Some(Produced::Refused(fault)) => Err(ProviderFault::Value(fault.copy()?)),
        Some(Produced::Endless(chooser)) => {
            Err(report_endless::<T>(alloc, nodes, outputs, values, *chooser))
        }
        None => unreachable!(),
    }
}

/// The tasks that produce the value of an expression.
pub(crate) fn recall_producers<T: Transforms>(
    alloc: Global,
    nodes: &[Expression<T::Map, T::FlatMap, T::Zip>],
    outputs: &Outputs,
    values: &mut Vec<State<Shared<Outcome>>>,
    states: &mut Vec<State<Shared<Produced<usize>>>>,
    number: usize,
) -> Result<TaskPaths, ProviderFault>
    requires index { IsIndexed nodes.now outputs.now }
    requires number { number < length nodes.now }
    requires within { AreWithin nodes.now }
    requires values { IsRemembered (rules T.meanings nodes.now) values.old.items }
    requires remembered { IsRemembered (carriers T.meanings nodes.now) states.old.items }
    ensures values { IsRemembered (rules T.meanings nodes.now) values.new.items }
    ensures remembered { IsRemembered (carriers T.meanings nodes.now) states.new.items }
    ensures producers { AreProducers T.meanings nodes.now number result }
{
    match evaluate_producers::<T>(alloc, nodes, outputs, values, states, number) {
        Ok(None) => report_producers::<T>(alloc, nodes, outputs, values, states, number),
        Ok(Some(circle)) => {
            states.clear();
            Err(report_circle(alloc, nodes, &circle))
        }
        Err(AllocError) => {
            states.clear();
            Err(ProviderFault::OutOfMemory)
        }
    }
}
