//! Caches answers.
ghost use Rattle.std.specs.Prelude.{◌≡◌, ◌≢◌, ◌<◌, ◌≤◌, ℕ, length, IfOk, OnOk, None, Some, slice_get};
ghost use Rattle.std.specs.Bool.{OnFalse};
ghost use Rattle.gb_provider.specs.Answers.{IsGot, value_of};
ghost use Rattle.gb_provider.specs.Indexed.{IsIndexed};
ghost use Rattle.gb_provider.specs.Names.{IsCircleReported};
ghost use Rattle.gb_provider.specs.Remembered.{AreWithin, IsForgotten, IsRemembered, IsReported};
ghost use Rattle.gb_provider.specs.Rules.{rules};
ghost use Rattle.gb_provider.specs.Search.{IsEvaluated, known};

use crate::circle_names::circle_names;
use crate::evaluate::{ValueReader, known_at, shared_at};
use crate::evaluation::State;
use crate::expression::{Expression, Outcome};
use crate::expressions::Outputs;
use crate::fault::ProviderFault;
use crate::shared_value::Shared;
use crate::transforms::Transforms;
use crate::work_list::evaluate;
use gb_core::value::Value;
use std::alloc::{AllocError, Global};

/// Gives each expression a state.
pub(crate) fn extend<A: Drop>(states: &mut Vec<State<A>>, count: usize) -> Result<(), AllocError>
    requires { length states.old.items ≤ count }
    ensures known { (e : ℕ) → known states.new.items e ≡ known states.old.items e }
    ensures closed { (e : ℕ) → slice_get states.old.items e ≢ Some State.Open
        → slice_get states.new.items e ≢ Some State.Open }
    ensures within { length states.new.items ≤ count }
    ensures all { OnOk result (length states.new.items ≡ count) }
{
    for i in states.len()..count {
        let _ = i;
        states.push(State::New)?;
    }
    Ok(())
}

/// Forgets all answers, unless that of this expression is not known: then no other is based on it.
pub(crate) fn forget<A: Drop>(states: &mut Vec<State<A>>, number: usize)
    ensures { IsForgotten number states.old.items states.new.items }
{
    if is_known_at(states, number) {
        states.clear();
    }
}

/// Whether an answer is known.
fn is_known_at<A>(states: &[State<A>], number: usize) -> bool
    ensures { OnFalse result (known states.now number ≡ None) }
{
    match states.get(number) {
        Some(State::Known(_)) => true,
        _ => false,
    }
}

/// Returns the answer that is known.
fn report(
    alloc: Global,
    states: &[State<Shared<Outcome>>],
    number: usize,
) -> Result<Option<Value>, ProviderFault>
    requires within { number < length states.now }
    requires known { known states.now number ≢ None }
    ensures { IsReported (known states.now number) result }
{
    match known_at(states, number) {
        Some(Outcome::Given(value)) => Ok(Some(value.copy(alloc)?)),
        Some(Outcome::Absent) => Ok(None),
        Some(Outcome::Refused(fault)) => Err(ProviderFault::Value(fault.copy()?)),
        None => unreachable!(),
    }
}

/// Evaluates an expression: afterwards its value is known, unless it runs into a circle.
fn evaluate_value<T: Transforms>(
    alloc: Global,
    nodes: &[Expression<T::Map, T::FlatMap, T::Zip>],
    outputs: &Outputs,
    states: &mut Vec<State<Shared<Outcome>>>,
    number: usize,
) -> Result<Option<Vec<usize>>, AllocError>
    requires index { IsIndexed nodes.now outputs.now }
    requires number { number < length nodes.now }
    requires within { AreWithin nodes.now }
    requires remembered { IsRemembered (rules T.meanings nodes.now) states.old.items }
    ensures { IsEvaluated (rules T.meanings nodes.now) number states.new.items result }
{
    extend(states, nodes.len())?;
    let mut reader = ValueReader::<T> {
        alloc,
        nodes,
        outputs,
    };
    evaluate(alloc, &mut reader, states, number)
}

/// The fault of a circle, with its names.
pub(crate) fn report_circle<M, F, Z>(
    alloc: Global,
    nodes: &[Expression<M, F, Z>],
    circle: &[usize],
) -> ProviderFault
    ensures { IsCircleReported nodes.now circle.now result }
{
    match circle_names(alloc, nodes, circle) {
        Ok(names) => ProviderFault::Circular(names),
        Err(AllocError) => ProviderFault::OutOfMemory,
    }
}

/// The value of an expression, which is cached.
pub(crate) fn recall<T: Transforms>(
    alloc: Global,
    nodes: &[Expression<T::Map, T::FlatMap, T::Zip>],
    outputs: &Outputs,
    states: &mut Vec<State<Shared<Outcome>>>,
    number: usize,
) -> Result<Option<Value>, ProviderFault>
    requires index { IsIndexed nodes.now outputs.now }
    requires number { number < length nodes.now }
    requires within { AreWithin nodes.now }
    requires remembered { IsRemembered (rules T.meanings nodes.now) states.old.items }
    ensures remembered { IsRemembered (rules T.meanings nodes.now) states.new.items }
    ensures got { IsGot T.meanings nodes.now number result }
{
    match evaluate_value::<T>(alloc, nodes, outputs, states, number) {
        Ok(None) => report(alloc, states, number),
        Ok(Some(circle)) => {
            states.clear();
            Err(report_circle(alloc, nodes, &circle))
        }
        Err(AllocError) => {
            states.clear();
            Err(ProviderFault::OutOfMemory)
        }
    }
}

/// The shared answer that is known.
fn share_known(
    states: &[State<Shared<Outcome>>],
    number: usize,
) -> Result<Option<Shared<Outcome>>, AllocError>
    requires within { number < length states.now }
    requires known { known states.now number ≢ None }
    ensures { IfOk result (λ found. found ≡ known states.now number) }
{
    match shared_at(states, number) {
        Some(answer) => Ok(Some(answer.share()?)),
        None => unreachable!(),
    }
}

/// The answer of an expression, which is cached; nothing if it runs into a circle.
pub(crate) fn recall_outcome<T: Transforms>(
    alloc: Global,
    nodes: &[Expression<T::Map, T::FlatMap, T::Zip>],
    outputs: &Outputs,
    states: &mut Vec<State<Shared<Outcome>>>,
    number: usize,
) -> Result<Option<Shared<Outcome>>, AllocError>
    requires index { IsIndexed nodes.now outputs.now }
    requires number { number < length nodes.now }
    requires within { AreWithin nodes.now }
    requires remembered { IsRemembered (rules T.meanings nodes.now) states.old.items }
    ensures remembered { IsRemembered (rules T.meanings nodes.now) states.new.items }
    ensures value { IfOk result (λ found. found ≡ value_of T.meanings nodes.now number) }
{
    match evaluate_value::<T>(alloc, nodes, outputs, states, number) {
        Ok(None) => share_known(states, number),
        Ok(Some(_)) => {
            states.clear();
            Ok(None)
        }
        Err(AllocError) => {
            states.clear();
            Err(AllocError)
        }
    }
}
