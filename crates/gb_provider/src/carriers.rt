//! Which expressions carry the tasks of an expression.
ghost use Rattle.std.specs.Prelude.{◌≡◌, ◌<◌, [], ◌∷◌, length, slice_index, false, IfOk, All};
ghost use Rattle.gb_provider.specs.Answers.{value_of};
ghost use Rattle.gb_provider.specs.Meanings.{meaning_of};
ghost use Rattle.gb_provider.specs.Produced.{carry, carry_all, carry_property, carry_side, carrier};
ghost use Rattle.gb_provider.specs.Produced.{choose_tasks, chosen_tasks, constant_tasks, tasks_of};
ghost use Rattle.gb_provider.specs.Rounds.{reading};
ghost use Rattle.gb_provider.specs.Rules.{OperandsWithin, PlaceWithin, SettingWithin};
ghost use Rattle.gb_provider.specs.Search.{AreBefore, IsPast, has_tasks, known, WaitsWithin};

use crate::evaluate::{known_at, refused_by, shared_at};
use crate::evaluation::{Look, Reading, State};
use crate::expression::{Call, Expression, Outcome, Property, Setting};
use crate::expressions::Outputs;
use crate::fault::{Chosen, TransformFault};
use crate::produced::Produced;
use crate::recall::recall_outcome;
use crate::shared_value::Shared;
use crate::transforms::Transforms;
use crate::work_list::Entries;
use gb_core::path::TaskPath;
use gb_core::task_paths::TaskPaths;
use gb_core::value::Value;
use std::alloc::{AllocError, Global};
use std::marker::Model;

/// The result that an expression has these tasks.
fn settle(
    alloc: Global,
    found: Produced<usize>,
) -> Result<Reading<usize, Shared<Produced<usize>>>, AllocError>
    ensures { IfOk result (λ settled. settled ≡ Reading.Settles found) }
{
    Ok(Reading::Settles(Shared::new(alloc, found)?))
}

/// One task alone.
fn one_task(alloc: Global, task: &TaskPath) -> Result<Produced<usize>, AllocError>
    ensures { IfOk result (λ found. found ≡ Produced.Tasks (task.now ∷ [])) }
{
    let mut tasks = TaskPaths::new(alloc);
    tasks.insert(task.copy()?)?;
    Ok(Produced::Tasks(tasks))
}

fn tasks_of(alloc: Global, value: &Value) -> Result<Produced<usize>, AllocError>
    ensures { IfOk result (λ found. found ≡ Produced.Tasks (tasks_of value.now)) }
{
    match value {
        Value::Task(task) => one_task(alloc, task),
        _ => Ok(Produced::Tasks(TaskPaths::new(alloc))),
    }
}

/// The tasks of a constant.
fn carry_constant(
    alloc: Global,
    value: &Option<Value>,
) -> Result<Reading<usize, Shared<Produced<usize>>>, AllocError>
    ensures { IfOk result (λ found. found ≡ Reading.Settles (Produced.Tasks (constant_tasks value.now))) }
{
    match value {
        Some(value) => settle(alloc, tasks_of(alloc, value)?),
        None => settle(alloc, Produced::Tasks(TaskPaths::new(alloc))),
    }
}

/// The task of an output.
fn carry_output(
    alloc: Global,
    task: &TaskPath,
) -> Result<Reading<usize, Shared<Produced<usize>>>, AllocError>
    ensures { IfOk result (λ found. found ≡ Reading.Settles (Produced.Tasks (task.now ∷ []))) }
{
    settle(alloc, one_task(alloc, task)?)
}

/// The tasks of another expression.
fn carry(
    states: &[State<Shared<Produced<usize>>>],
    operand: usize,
) -> Result<Reading<usize, Shared<Produced<usize>>>, AllocError>
    requires { operand < length states.now }
    ensures reads { IfOk result (λ found. found ≡ reading (known states.now) (carry operand)) }
    ensures within { IfOk result (λ found. WaitsWithin (length states.now) found) }
{
    match shared_at(states, operand) {
        None => Ok(Reading::Waits(operand)),
        Some(answer) => Ok(Reading::Settles(answer.share()?)),
    }
}

fn carry_all(
    alloc: Global,
    states: &[State<Shared<Produced<usize>>>],
    operands: &[usize],
) -> Result<Reading<usize, Shared<Produced<usize>>>, AllocError>
    requires { All (λ operand. operand < length states.now) operands.now }
    ensures reads { IfOk result (λ found. found ≡ reading (known states.now) (carry_all [] operands.now)) }
    ensures within { IfOk result (λ found. WaitsWithin (length states.now) found) }
{
    let mut tasks = TaskPaths::new(alloc);
    for operand in operands {
        match known_at(states, *operand) {
            None => return Ok(Reading::Waits(*operand)),
            Some(Produced::Tasks(more)) => tasks.extend(more)?,
            Some(_) => return carry(states, *operand),
        }
    }
    settle(alloc, Produced::Tasks(tasks))
}

/// Whether the tasks of an operand are known.
fn has_tasks(states: &[State<Shared<Produced<usize>>>], operand: usize) -> bool
    requires { operand < length states.now }
    ensures { result ≡ has_tasks (known states.now operand) }
{
    match known_at(states, operand) {
        Some(Produced::Tasks(_)) => true,
        _ => false,
    }
}

/// The first operand from index `from` on whose tasks are not known.
fn past_tasks(states: &[State<Shared<Produced<usize>>>], operands: &[usize], from: usize) -> usize
    requires operands { All (λ operand. operand < length states.now) operands.now }
    requires before { AreBefore (λ operand. has_tasks (known states.now operand)) operands.now from }
    ensures before { AreBefore (λ operand. has_tasks (known states.now operand)) operands.now result }
    ensures stops { result < length operands.now
        → has_tasks (known states.now (slice_index operands.now result)) ≡ false }
{
    let mut at = from;
    while at < operands.len() && has_tasks(states, operands[at]) {
        at += 1;
    }
    at
}

/// One evaluation step of operands, given that the tasks of the first ones are known.
fn look_all(
    alloc: Global,
    states: &[State<Shared<Produced<usize>>>],
    operands: &[usize],
    past: usize,
) -> Result<Look<Shared<Produced<usize>>>, AllocError>
    requires operands { All (λ operand. operand < length states.now) operands.now }
    requires past { IsPast (known states.now) past (carry_all [] operands.now) }
    ensures reads { IfOk result (λ found.
        found.reading ≡ reading (known states.now) (carry_all [] operands.now)) }
    ensures within { IfOk result (λ found. WaitsWithin (length states.now) found.reading) }
    ensures past { IfOk result (λ found. IsPast (known states.now) found.past (carry_all [] operands.now)) }
{
    let at = past_tasks(states, operands, past);
    if at < operands.len() {
        let operand = operands[at];
        if known_at(states, operand).is_none() {
            let reading = Reading::Waits(operand);
            return Ok(Look { reading, past: at });
        }
    }
    Ok(Look::whole(carry_all(alloc, states, operands)?))
}

fn carry_property(
    alloc: Global,
    states: &[State<Shared<Produced<usize>>>],
    property: &Property,
) -> Result<Reading<usize, Shared<Produced<usize>>>, AllocError>
    requires setting { SettingWithin (length states.now) property.now.setting }
    requires convention { PlaceWithin (length states.now) property.now.convention }
    ensures reads { IfOk result (λ found.
        found ≡ reading (known states.now) (carry_property property.now.setting property.now.convention)) }
    ensures within { IfOk result (λ found. WaitsWithin (length states.now) found) }
{
    match &property.setting {
        Some(Setting::Held(value)) => settle(alloc, tasks_of(alloc, value)?),
        Some(Setting::Followed(source)) => carry(states, *source),
        None => match property.convention {
            Some(source) => carry(states, source),
            None => settle(alloc, Produced::Tasks(TaskPaths::new(alloc))),
        },
    }
}

/// The tasks of the side that the outcome of the left selects.
fn carry_side(
    alloc: Global,
    states: &[State<Shared<Produced<usize>>>],
    left: usize,
    right: usize,
    chooser: &Option<Shared<Outcome>>,
) -> Result<Reading<usize, Shared<Produced<usize>>>, AllocError>
    requires left { left < length states.now }
    requires right { right < length states.now }
    ensures reads { IfOk result (λ found.
        found ≡ reading (known states.now) (carry_side left right chooser.now)) }
    ensures within { IfOk result (λ found. WaitsWithin (length states.now) found) }
{
    match chooser {
        Some(outcome) => match outcome.get() {
            Outcome::Given(_) => carry(states, left),
            Outcome::Absent => carry(states, right),
            Outcome::Refused(fault) => settle(alloc, Produced::Refused(fault.copy()?)),
        },
        None => settle(alloc, Produced::Endless(left)),
    }
}

/// The task of the output that a function chooses.
fn apply<T: Transforms>(
    alloc: Global,
    call: &Call<T::FlatMap>,
    value: &Value,
) -> Result<Produced<usize>, AllocError>
    ensures { IfOk result (λ found.
        found ≡ chosen_tasks call.now.name
        (meaning_of T.meanings.flat_map call.now.function value.now call.now.arguments)) }
{
    match T::flat_map(call.function, alloc, value, call.arguments.as_slice()) {
        Ok(Some(chosen)) => one_task(alloc, &chosen.task),
        Ok(None) => Ok(Produced::Tasks(TaskPaths::new(alloc))),
        Err(fault) => Ok(Produced::Refused(refused_by(&call.name, fault)?)),
    }
}

fn choose_tasks<T: Transforms>(
    alloc: Global,
    source: usize,
    call: &Call<T::FlatMap>,
    chooser: &Option<Shared<Outcome>>,
) -> Result<Produced<usize>, AllocError>
    ensures { IfOk result (λ found. found ≡ choose_tasks T.meanings source call.now chooser.now) }
{
    match chooser {
        Some(outcome) => match outcome.get() {
            Outcome::Given(value) => apply::<T>(alloc, call, value),
            Outcome::Absent => Ok(Produced::Tasks(TaskPaths::new(alloc))),
            Outcome::Refused(fault) => Ok(Produced::Refused(fault.copy()?)),
        },
        None => Ok(Produced::Endless(source)),
    }
}

/// Expressions, to be read for their tasks, with the cached values.
#[derive(Drop)]
pub(crate) struct TaskReader<'b, 'a, T: Transforms> {
    /// The allocator of the answers.
    pub alloc: Global,
    /// The whole table, in which operands are named by number.
    pub nodes: &'b [Expression<'a, T::Map, T::FlatMap, T::Zip>],
    /// The number of each output in the table.
    pub outputs: &'b Outputs,
    /// The evaluation state of the value of each expression, one state for each.
    pub values: Vec<State<Shared<Outcome>>>,
}

impl<'b, 'a, T: Transforms> Model for TaskReader<'b, 'a, T> {
    ghost use Rattle.std.specs.Prelude.{List};
    ghost use Rattle.gb_provider.specs.declared.expression.Expression as expressions;
    ghost use Rattle.gb_provider.specs.Indexed.{IsIndexed};
    ghost use Rattle.gb_provider.specs.Remembered.{AreWithin, IsRemembered};
    ghost use Rattle.gb_provider.specs.Rules.{rules};

    ghost Value = { List (expressions.Expression T.Map T.FlatMap T.Zip) };

    ghost view = { λ r. r.nodes.now };

    ghost invariant = { λ r. AreWithin r.nodes.now
        × IsRemembered (rules T.meanings r.nodes.now) r.values.items × IsIndexed r.nodes.now r.outputs.now };
}

impl<'b, 'a, T: Transforms> TaskReader<'b, 'a, T> {
    /// The answer of an expression that has to choose; nothing if it runs into a circle.
    fn value_of(&mut self, at: usize) -> Result<Option<Shared<Outcome>>, AllocError>
        requires { at < length self.old }
        ensures value { IfOk result (λ found. found ≡ value_of T.meanings self.old at) }
        ensures kept { self.new ≡ self.old }
    {
        let nodes = self.nodes;
        recall_outcome::<T>(self.alloc, nodes, self.outputs, &mut self.values, at)
    }

    /// The tasks of the output that the value of a source chooses.
    fn read_choice(
        &mut self,
        source: usize,
        call: &Call<'a, T::FlatMap>,
    ) -> Result<Reading<usize, Shared<Produced<usize>>>, AllocError>
        requires { source < length self.old }
        ensures reads { IfOk result (λ found.
            found ≡ Reading.Settles
            (choose_tasks T.meanings source call.now (value_of T.meanings self.old source))) }
        ensures kept { self.new ≡ self.old }
    {
        let alloc = self.alloc;
        let chooser = self.value_of(source)?;
        let found = choose_tasks::<T>(alloc, source, call, &chooser);
        drop(chooser);
        settle(alloc, found?)
    }

    /// The tasks of the side that the value of the left selects.
    fn read_side(
        &mut self,
        states: &[State<Shared<Produced<usize>>>],
        left: usize,
        right: usize,
    ) -> Result<Reading<usize, Shared<Produced<usize>>>, AllocError>
        requires states { length states.now ≡ length self.old }
        requires left { left < length self.old }
        requires right { right < length self.old }
        ensures reads { IfOk result (λ found.
            found ≡ reading (known states.now) (carry_side left right (value_of T.meanings self.old left))) }
        ensures within { IfOk result (λ found. WaitsWithin (length states.now) found) }
        ensures kept { self.new ≡ self.old }
    {
        let alloc = self.alloc;
        let chooser = self.value_of(left)?;
        carry_side(alloc, states, left, right, &chooser)
    }

    /// One evaluation step of an expression with few operands.
    fn read(
        &mut self,
        states: &[State<Shared<Produced<usize>>>],
        node: &Expression<'a, T::Map, T::FlatMap, T::Zip>,
    ) -> Result<Reading<usize, Shared<Produced<usize>>>, AllocError>
        requires states { length states.now ≡ length self.old }
        requires within { OperandsWithin (length self.old) node.now }
        ensures reads { IfOk result (λ found.
            found ≡ reading (known states.now) (carrier T.meanings self.old node.now)) }
        ensures within { IfOk result (λ found. WaitsWithin (length states.now) found) }
        ensures kept { self.new ≡ self.old }
    {
        let alloc = self.alloc;
        match node {
            Expression::Constant(value) => carry_constant(alloc, value),
            Expression::OfProperty(property) => carry_property(alloc, states, property),
            Expression::OfOutput(output) => carry_output(alloc, &output.chosen.task),
            Expression::Listed(operands) => carry_all(alloc, states, operands.as_slice()),
            Expression::Mapped(source, _) => carry(states, *source),
            Expression::FlatMapped(source, call) => self.read_choice(*source, call),
            Expression::Zipped(left, right, _) => carry_all(alloc, states, &[*left, *right]),
            Expression::OrElse(left, right) => self.read_side(states, *left, *right),
        }
    }

    /// One evaluation step of an expression, which continues after its first operands.
    fn look_at(
        &mut self,
        states: &[State<Shared<Produced<usize>>>],
        node: &Expression<'a, T::Map, T::FlatMap, T::Zip>,
        past: usize,
    ) -> Result<Look<Shared<Produced<usize>>>, AllocError>
        requires states { length states.now ≡ length self.old }
        requires within { OperandsWithin (length self.old) node.now }
        requires past { IsPast (known states.now) past (carrier T.meanings self.old node.now) }
        ensures reads { IfOk result (λ found.
            found.reading ≡ reading (known states.now) (carrier T.meanings self.old node.now)) }
        ensures within { IfOk result (λ found. WaitsWithin (length states.now) found.reading) }
        ensures past { IfOk result (λ found.
            IsPast (known states.now) found.past (carrier T.meanings self.old node.now)) }
        ensures kept { self.new ≡ self.old }
    {
        match node {
            Expression::Listed(operands) => {
                look_all(self.alloc, states, operands.as_slice(), past)
            }
            _ => Ok(Look::whole(self.read(states, node)?)),
        }
    }
}

impl<'b, 'a, T: Transforms> Entries for TaskReader<'b, 'a, T> {
    ghost use Rattle.gb_provider.specs.Produced.{carriers};

    type Answer = Shared<Produced<usize>>;

    ghost rules = { λ nodes. carriers T.meanings nodes };

    fn look(
        &mut self,
        states: &[State<Shared<Produced<usize>>>],
        at: usize,
        past: usize,
    ) -> Result<Look<Shared<Produced<usize>>>, AllocError> {
        let nodes = self.nodes;
        self.look_at(states, &nodes[at], past)
    }
}
