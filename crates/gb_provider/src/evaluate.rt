//! One evaluation step of an expression, given the answers that are known.
//!
//! Input: the table of expressions, the index of its outputs, the states of all expressions, and
//! one expression. Output: its answer, which is a value, absent or a fault; or the first operand
//! that it needs and whose answer is not known. [`work_list`](crate::work_list) then evaluates this
//! operand, and repeats the step.
//!
//! A constant has its answer. A property follows its setting, or else its convention; an output
//! follows the expression that it is declared as, and is a fault (36) until it is declared. `map`,
//! `flatMap` and `zip` call a function on the values of their operands; an operand without a value
//! is the answer itself. `orElse` reads its second operand only if the first is absent. A list has
//! the answer of its first operand without a value, if there is one; only then is an operand that
//! is no text a fault (34).
//!
//! What makes it right: a step is `reading` of the rule that `specs/Rules.antt` has for the
//! expression, so it reads no operand before that one is needed. The cost: an answer that is only
//! passed on is shared, and a list goes on at the first operand that was not known (`past`). A
//! `flatMap` calls its function again after a wait for the output that it chose.
ghost use Rattle.std.specs.Prelude.{◌≡◌, ◌<◌, ◌++◌, ◌∷◌, ℕ, [], length, slice_index, false, IfOk, OnOk};
ghost use Rattle.std.specs.Prelude.{All, codes, Ok};
ghost use Rattle.std.specs.Option.{option_copied};
ghost use Rattle.gb_provider.specs.Indexed.{IsIndexed};
ghost use Rattle.gb_provider.specs.Meanings.{meaning_of};
ghost use Rattle.gb_provider.specs.Rounds.{reading, Reads};
ghost use Rattle.gb_provider.specs.Rules.{PlaceWithin, OperandsWithin, rule, constant, follow, or_else};
ghost use Rattle.gb_provider.specs.Rules.{property_rule, SettingWithin, output_rule, mapped, zipped};
ghost use Rattle.gb_provider.specs.Rules.{output_place, chosen_rule, map_rule, flat_map_rule, zip_rule};
ghost use Rattle.gb_provider.specs.Rules.{list_rule, listed, refused, RefusedAs};
ghost use Rattle.gb_provider.specs.Search.{AreBefore, IsPast, is_given, known, WaitsWithin};
ghost use Rattle.gb_provider.specs.declared.fault.Refusal.TheVariants.{WrongValue};

use crate::evaluation::{Look, Reading, State};
use crate::expression::{Call, Expression, Outcome, Property, Setting};
use crate::expressions::{Outputs, place_of};
use crate::fault::{Chosen, Refusal, TransformFault, ValueFault};
use crate::shared_value::Shared;
use crate::transforms::Transforms;
use crate::work_list::Entries;
use gb_core::text::{Text, Texts};
use gb_core::value::Value;
use std::alloc::{AllocError, Global};
use std::marker::Model;

/// The shared answer of an entry, if it is known.
pub(crate) fn shared_at<A>(states: &[State<A>], at: usize) -> Option<&A>
    requires { at < length states.now }
    ensures { option_copied result ≡ known states.now at }
{
    match &states[at] {
        State::Known(answer) => Some(answer),
        _ => None,
    }
}

/// The answer of an entry, if it is known.
pub(crate) fn known_at<A: Drop>(states: &[State<Shared<A>>], at: usize) -> Option<&A>
    requires { at < length states.now }
    ensures { option_copied result ≡ known states.now at }
{
    match shared_at(states, at) {
        Some(answer) => Some(answer.get()),
        None => None,
    }
}

/// The result that an expression has this answer.
fn settle(alloc: Global, outcome: Outcome) -> Result<Reading<usize, Shared<Outcome>>, AllocError>
    ensures { IfOk result (λ found. found ≡ Reading.Settles outcome) }
{
    Ok(Reading::Settles(Shared::new(alloc, outcome)?))
}

/// A value, or nothing.
fn read_constant(
    alloc: Global,
    value: &Option<Value>,
) -> Result<Reading<usize, Shared<Outcome>>, AllocError>
    ensures { IfOk result (λ found. found ≡ Reading.Settles (constant value.now)) }
{
    match value {
        Some(value) => settle(alloc, Outcome::Given(value.copy(alloc)?)),
        None => settle(alloc, Outcome::Absent),
    }
}

/// The answer of an operand.
fn follow(
    states: &[State<Shared<Outcome>>],
    operand: usize,
) -> Result<Reading<usize, Shared<Outcome>>, AllocError>
    requires { operand < length states.now }
    ensures reads { IfOk result (λ found. found ≡ reading (known states.now) (follow operand)) }
    ensures within { IfOk result (λ found. WaitsWithin (length states.now) found) }
{
    match shared_at(states, operand) {
        None => Ok(Reading::Waits(operand)),
        Some(answer) => Ok(Reading::Settles(answer.share()?)),
    }
}

fn read_or_else(
    states: &[State<Shared<Outcome>>],
    left: usize,
    right: usize,
) -> Result<Reading<usize, Shared<Outcome>>, AllocError>
    requires left { left < length states.now }
    requires right { right < length states.now }
    ensures reads { IfOk result (λ found. found ≡ reading (known states.now) (Reads left (or_else right))) }
    ensures within { IfOk result (λ found. WaitsWithin (length states.now) found) }
{
    match known_at(states, left) {
        None => Ok(Reading::Waits(left)),
        Some(Outcome::Absent) => follow(states, right),
        Some(_) => follow(states, left),
    }
}

fn read_property(
    alloc: Global,
    states: &[State<Shared<Outcome>>],
    property: &Property,
) -> Result<Reading<usize, Shared<Outcome>>, AllocError>
    requires setting { SettingWithin (length states.now) property.now.setting }
    requires convention { PlaceWithin (length states.now) property.now.convention }
    ensures reads { IfOk result (λ found.
        found ≡ reading (known states.now) (property_rule property.now.setting property.now.convention)) }
    ensures within { IfOk result (λ found. WaitsWithin (length states.now) found) }
{
    match &property.setting {
        Some(Setting::Held(value)) => settle(alloc, Outcome::Given(value.copy(alloc)?)),
        Some(Setting::Followed(source)) => follow(states, *source),
        None => match property.convention {
            Some(source) => follow(states, source),
            None => settle(alloc, Outcome::Absent),
        },
    }
}

/// The answer of an output that is declared as this expression, or is not declared.
fn read_output(
    alloc: Global,
    states: &[State<Shared<Outcome>>],
    chosen: &Chosen,
    declared: Option<usize>,
) -> Result<Reading<usize, Shared<Outcome>>, AllocError>
    requires { PlaceWithin (length states.now) declared }
    ensures reads { IfOk result (λ found.
        found ≡ reading (known states.now) (output_rule chosen.now declared)) }
    ensures within { IfOk result (λ found. WaitsWithin (length states.now) found) }
{
    match declared {
        Some(source) => follow(states, source),
        None => {
            let output = chosen.copy()?;
            settle(alloc, Outcome::Refused(ValueFault::Unrealised(output)))
        }
    }
}

/// The fault of a function that refuses, or of memory running out.
pub(crate) fn refused_by(function: &Text, fault: TransformFault) -> Result<ValueFault, AllocError>
    ensures { IfOk result (λ refused. RefusedAs function.now fault refused) }
{
    match fault {
        TransformFault::OutOfMemory => Err(AllocError),
        TransformFault::Refused(refusal) => Ok(ValueFault::Refused(function.copy()?, refusal)),
    }
}

fn apply_map<T: Transforms>(
    alloc: Global,
    call: &Call<T::Map>,
    value: &Value,
) -> Result<Outcome, AllocError>
    ensures { IfOk result (λ outcome.
        outcome ≡ mapped call.now.name
        (meaning_of T.meanings.map call.now.function value.now call.now.arguments)) }
{
    match T::map(call.function, alloc, value, call.arguments.as_slice()) {
        Ok(Some(value)) => Ok(Outcome::Given(value)),
        Ok(None) => Ok(Outcome::Absent),
        Err(fault) => Ok(Outcome::Refused(refused_by(&call.name, fault)?)),
    }
}

fn read_map<T: Transforms>(
    alloc: Global,
    states: &[State<Shared<Outcome>>],
    source: usize,
    call: &Call<T::Map>,
) -> Result<Reading<usize, Shared<Outcome>>, AllocError>
    requires { source < length states.now }
    ensures reads { IfOk result (λ found.
        found ≡ reading (known states.now) (map_rule T.meanings source call.now)) }
    ensures within { IfOk result (λ found. WaitsWithin (length states.now) found) }
{
    match known_at(states, source) {
        None => Ok(Reading::Waits(source)),
        Some(Outcome::Given(value)) => settle(alloc, apply_map::<T>(alloc, call, value)?),
        Some(_) => follow(states, source),
    }
}

fn apply_zip<T: Transforms>(
    alloc: Global,
    call: &Call<T::Zip>,
    left: &Value,
    right: &Value,
) -> Result<Outcome, AllocError>
    ensures { IfOk result (λ outcome.
        outcome ≡ zipped call.now.name
        (meaning_of T.meanings.zip call.now.function left.now right.now call.now.arguments)) }
{
    match T::zip(call.function, alloc, left, right, call.arguments.as_slice()) {
        Ok(value) => Ok(Outcome::Given(value)),
        Err(fault) => Ok(Outcome::Refused(refused_by(&call.name, fault)?)),
    }
}

fn read_zip<T: Transforms>(
    alloc: Global,
    states: &[State<Shared<Outcome>>],
    left: usize,
    right: usize,
    call: &Call<T::Zip>,
) -> Result<Reading<usize, Shared<Outcome>>, AllocError>
    requires left { left < length states.now }
    requires right { right < length states.now }
    ensures reads { IfOk result (λ found.
        found ≡ reading (known states.now) (zip_rule T.meanings left right call.now)) }
    ensures within { IfOk result (λ found. WaitsWithin (length states.now) found) }
{
    match known_at(states, left) {
        None => Ok(Reading::Waits(left)),
        Some(Outcome::Given(first)) => match known_at(states, right) {
            None => Ok(Reading::Waits(right)),
            Some(Outcome::Given(second)) => {
                settle(alloc, apply_zip::<T>(alloc, call, first, second)?)
            }
            Some(_) => follow(states, right),
        },
        Some(_) => follow(states, left),
    }
}

/// The answer of an output that was chosen, or the absent value if none was.
fn read_chosen<M, F, Z>(
    alloc: Global,
    nodes: &[Expression<M, F, Z>],
    outputs: &Outputs,
    states: &[State<Shared<Outcome>>],
    reply: Option<Chosen>,
) -> Result<Reading<usize, Shared<Outcome>>, AllocError>
    requires index { IsIndexed nodes.now outputs.now }
    requires states { length states.now ≡ length nodes.now }
    ensures reads { IfOk result (λ found.
        found ≡ reading (known states.now) (chosen_rule (output_place nodes.now) [] (Ok reply))) }
    ensures within { IfOk result (λ found. WaitsWithin (length states.now) found) }
{
    match reply {
        Some(chosen) => {
            let place = place_of(nodes, outputs, &chosen);
            let reading = read_output(alloc, states, &chosen, place)?;
            Ok(reading)
        }
        None => settle(alloc, Outcome::Absent),
    }
}

fn apply_flat_map<T: Transforms>(
    alloc: Global,
    nodes: &[Expression<T::Map, T::FlatMap, T::Zip>],
    outputs: &Outputs,
    states: &[State<Shared<Outcome>>],
    call: &Call<T::FlatMap>,
    value: &Value,
) -> Result<Reading<usize, Shared<Outcome>>, AllocError>
    requires index { IsIndexed nodes.now outputs.now }
    requires states { length states.now ≡ length nodes.now }
    ensures reads { IfOk result (λ found.
        found ≡ reading (known states.now)
        (chosen_rule (output_place nodes.now) call.now.name
        (meaning_of T.meanings.flat_map call.now.function value.now call.now.arguments))) }
    ensures within { IfOk result (λ found. WaitsWithin (length states.now) found) }
{
    match T::flat_map(call.function, alloc, value, call.arguments.as_slice()) {
        Ok(reply) => read_chosen(alloc, nodes, outputs, states, reply),
        Err(fault) => settle(alloc, Outcome::Refused(refused_by(&call.name, fault)?)),
    }
}

fn read_flat_map<T: Transforms>(
    alloc: Global,
    nodes: &[Expression<T::Map, T::FlatMap, T::Zip>],
    outputs: &Outputs,
    states: &[State<Shared<Outcome>>],
    source: usize,
    call: &Call<T::FlatMap>,
) -> Result<Reading<usize, Shared<Outcome>>, AllocError>
    requires index { IsIndexed nodes.now outputs.now }
    requires states { length states.now ≡ length nodes.now }
    requires source { source < length states.now }
    ensures reads { IfOk result (λ found.
        found ≡ reading (known states.now)
        (flat_map_rule T.meanings (output_place nodes.now) source call.now)) }
    ensures within { IfOk result (λ found. WaitsWithin (length states.now) found) }
{
    match known_at(states, source) {
        None => Ok(Reading::Waits(source)),
        Some(Outcome::Given(value)) => apply_flat_map::<T>(
            alloc, nodes, outputs, states, call, value,
        ),
        Some(_) => follow(states, source),
    }
}

/// The fault of a list with an element that is no text.
fn refuse_element(alloc: Global) -> Result<Outcome, AllocError>
    ensures { IfOk result (λ outcome. outcome ≡ refused (codes "list") WrongValue) }
{
    let function = Text::from_str(alloc, "list")?;
    Ok(Outcome::Refused(ValueFault::Refused(function, Refusal::WrongValue)))
}

/// Appends a copy of a text.
fn push_copy(texts: &mut Texts, text: &Text) -> Result<(), AllocError>
    ensures { OnOk result (texts.new ≡ texts.old ++ text.now ∷ []) }
{
    texts.push(text.copy()?)?;
    Ok(())
}

/// The list of these texts, unless an element was no text.
fn settle_list(
    alloc: Global,
    texts: Texts,
    is_wrong: bool,
) -> Result<Reading<usize, Shared<Outcome>>, AllocError>
    ensures { IfOk result (λ found. found ≡ Reading.Settles (listed is_wrong texts)) }
{
    if is_wrong {
        drop(texts);
        return settle(alloc, refuse_element(alloc)?);
    }
    settle(alloc, Outcome::Given(Value::List(texts)))
}

fn read_list(
    alloc: Global,
    states: &[State<Shared<Outcome>>],
    operands: &[usize],
) -> Result<Reading<usize, Shared<Outcome>>, AllocError>
    requires { All (λ operand. operand < length states.now) operands.now }
    ensures reads { IfOk result (λ found.
        found ≡ reading (known states.now) (list_rule false [] operands.now)) }
    ensures within { IfOk result (λ found. WaitsWithin (length states.now) found) }
{
    let mut texts = Texts::new(alloc);
    let mut is_wrong = false;
    for operand in operands {
        match known_at(states, *operand) {
            None => return Ok(Reading::Waits(*operand)),
            Some(Outcome::Given(Value::Text(text))) => push_copy(&mut texts, text)?,
            Some(Outcome::Given(_)) => is_wrong = true,
            Some(_) => return follow(states, *operand),
        }
    }
    settle_list(alloc, texts, is_wrong)
}

/// Whether an operand is known to be a value.
fn is_given(states: &[State<Shared<Outcome>>], operand: usize) -> bool
    requires { operand < length states.now }
    ensures { result ≡ is_given (known states.now operand) }
{
    match known_at(states, operand) {
        Some(Outcome::Given(_)) => true,
        _ => false,
    }
}

/// The first operand from index `from` on that is not known to be a value.
fn past_texts(states: &[State<Shared<Outcome>>], operands: &[usize], from: usize) -> usize
    requires operands { All (λ operand. operand < length states.now) operands.now }
    requires before { AreBefore (λ operand. is_given (known states.now operand)) operands.now from }
    ensures before { AreBefore (λ operand. is_given (known states.now operand)) operands.now result }
    ensures stops { result < length operands.now
        → is_given (known states.now (slice_index operands.now result)) ≡ false }
{
    let mut at = from;
    while at < operands.len() && is_given(states, operands[at]) {
        at += 1;
    }
    at
}

/// One evaluation step of a list whose first elements are known to be values.
fn look_list(
    alloc: Global,
    states: &[State<Shared<Outcome>>],
    operands: &[usize],
    past: usize,
) -> Result<Look<Shared<Outcome>>, AllocError>
    requires operands { All (λ operand. operand < length states.now) operands.now }
    requires past { IsPast (known states.now) past (list_rule false [] operands.now) }
    ensures reads { IfOk result (λ found.
        found.reading ≡ reading (known states.now) (list_rule false [] operands.now)) }
    ensures within { IfOk result (λ found. WaitsWithin (length states.now) found.reading) }
    ensures past { IfOk result (λ found.
        IsPast (known states.now) found.past (list_rule false [] operands.now)) }
{
    let at = past_texts(states, operands, past);
    if at < operands.len() {
        let operand = operands[at];
        if known_at(states, operand).is_none() {
            let reading = Reading::Waits(operand);
            return Ok(Look { reading, past: at });
        }
    }
    Ok(Look::whole(read_list(alloc, states, operands)?))
}

/// One evaluation step of an expression, which continues after its first operands.
fn look_at<T: Transforms>(
    alloc: Global,
    nodes: &[Expression<T::Map, T::FlatMap, T::Zip>],
    outputs: &Outputs,
    states: &[State<Shared<Outcome>>],
    node: &Expression<T::Map, T::FlatMap, T::Zip>,
    past: usize,
) -> Result<Look<Shared<Outcome>>, AllocError>
    requires index { IsIndexed nodes.now outputs.now }
    requires states { length states.now ≡ length nodes.now }
    requires within { OperandsWithin (length nodes.now) node.now }
    requires past { IsPast (known states.now) past (rule T.meanings nodes.now node.now) }
    ensures reads { IfOk result (λ found.
        found.reading ≡ reading (known states.now) (rule T.meanings nodes.now node.now)) }
    ensures within { IfOk result (λ found. WaitsWithin (length states.now) found.reading) }
    ensures past { IfOk result (λ found.
        IsPast (known states.now) found.past (rule T.meanings nodes.now node.now)) }
{
    match node {
        Expression::Listed(operands) => look_list(alloc, states, operands.as_slice(), past),
        _ => Ok(Look::whole(read::<T>(alloc, nodes, outputs, states, node)?)),
    }
}

/// Expressions, to be read for their values.
#[derive(Drop)]
pub(crate) struct ValueReader<'b, 'a, T: Transforms> {
    /// The allocator of the answers.
    pub alloc: Global,
    /// The whole table, in which operands are named by number.
    pub nodes: &'b [Expression<'a, T::Map, T::FlatMap, T::Zip>],
    /// The number of each output in the table.
    pub outputs: &'b Outputs,
}

impl<'b, 'a, T: Transforms> Model for ValueReader<'b, 'a, T> {
    ghost use Rattle.std.specs.Prelude.{List};
    ghost use Rattle.gb_provider.specs.declared.expression.Expression as expressions;
    ghost use Rattle.gb_provider.specs.Indexed.{IsIndexed};
    ghost use Rattle.gb_provider.specs.Remembered.{AreWithin};

    ghost Value = { List (expressions.Expression T.Map T.FlatMap T.Zip) };

    ghost view = { λ r. r.nodes.now };

    ghost invariant = { λ r. AreWithin r.nodes.now × IsIndexed r.nodes.now r.outputs.now };
}

impl<'b, 'a, T: Transforms> Entries for ValueReader<'b, 'a, T> {
    ghost use Rattle.gb_provider.specs.Rules.{rules};

    type Answer = Shared<Outcome>;

    ghost rules = { λ nodes. rules T.meanings nodes };

    fn look(
        &mut self,
        states: &[State<Shared<Outcome>>],
        at: usize,
        past: usize,
    ) -> Result<Look<Shared<Outcome>>, AllocError> {
        let nodes = self.nodes;
        look_at::<T>(self.alloc, nodes, self.outputs, states, &nodes[at], past)
    }
}

/// One evaluation step of an expression.
fn read<T: Transforms>(
    alloc: Global,
    nodes: &[Expression<T::Map, T::FlatMap, T::Zip>],
    outputs: &Outputs,
    states: &[State<Shared<Outcome>>],
    node: &Expression<T::Map, T::FlatMap, T::Zip>,
) -> Result<Reading<usize, Shared<Outcome>>, AllocError>
    requires index { IsIndexed nodes.now outputs.now }
    requires states { length states.now ≡ length nodes.now }
    requires within { OperandsWithin (length nodes.now) node.now }
    ensures reads { IfOk result (λ found.
        found ≡ reading (known states.now) (rule T.meanings nodes.now node.now)) }
    ensures within { IfOk result (λ found. WaitsWithin (length states.now) found) }
{
    match node {
        Expression::Constant(value) => read_constant(alloc, value),
        Expression::OfProperty(property) => read_property(alloc, states, property),
        Expression::OfOutput(output) => {
            read_output(alloc, states, &output.chosen, output.declared)
        }
        Expression::Listed(operands) => read_list(alloc, states, operands.as_slice()),
        Expression::Mapped(source, call) => read_map::<T>(alloc, states, *source, call),
        Expression::FlatMapped(source, call) => {
            read_flat_map::<T>(alloc, nodes, outputs, states, *source, call)
        }
        Expression::Zipped(left, right, call) => {
            read_zip::<T>(alloc, states, *left, *right, call)
        }
        Expression::OrElse(left, right) => read_or_else(states, *left, *right),
    }
}
