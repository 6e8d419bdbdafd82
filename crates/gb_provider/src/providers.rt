//! The table of providers: adds, changes and reads lazy values.
ghost use Rattle.std.specs.Prelude.{◌≡◌, ◌↔◌, ◌<◌, ◌++◌, [], ◌∷◌, length, All, IfOk, IsTrue, OnErr};
ghost use Rattle.std.specs.Prelude.{None, Some, false, slice_set};
ghost use Rattle.gb_provider.specs.Answers.{IsAccepted, IsAsked, IsGot, IsRequired, IsTested, IsTestedBy};
ghost use Rattle.gb_provider.specs.Meanings.{meaning_of};
ghost use Rattle.gb_provider.specs.Produced.{AreProducers};
ghost use Rattle.gb_provider.specs.Changes.{ChangeWithin, IsChanged, IsOutput, IsDeclared};
ghost use Rattle.gb_provider.specs.Table.{map_named, flat_map_named, zip_named, test_named};
ghost use Rattle.gb_provider.specs.Indexed.{IsNoOutput};
ghost use Rattle.gb_provider.specs.Rules.{numbers_of, OperandsWithin, PlaceWithin, output_place};
ghost use Rattle.gb_provider.specs.Steps.{IsAdded, IsStep};

use crate::evaluation::State;
use crate::expression::{Call, Expression, Node, Operands, Outcome, Property};
use crate::expressions::Expressions;
use crate::fault::{Chosen, Final, ProviderFault, StepFault, TransformFault, ValueFault};
use crate::produced::Produced;
use crate::producing::recall_producers;
use crate::property_change::Change;
use crate::recall::{forget, recall};
use crate::shared_value::Shared;
use crate::table::TransformTable;
use crate::transforms::Transforms;
use gb_core::name::Name;
use gb_core::path::{ProjectPath, TaskPath};
use gb_core::task_paths::TaskPaths;
use gb_core::text::{Text, Texts};
use gb_core::value::Value;
use std::alloc::{AllocError, Global};
use std::marker::Model;

/// A table of providers, based on a table of stored functions. Values that were read are cached
/// until a property or an output that was read as well changes, or an output is first named.
#[derive(Drop)]
pub struct Providers<'a, T: Transforms> {
    alloc: Global,
    table: &'a TransformTable<T::Map, T::FlatMap, T::Zip, T::Test>,
    nodes: Expressions<'a, T::Map, T::FlatMap, T::Zip>,
    values: Vec<State<Shared<Outcome>>>,
    producers: Vec<State<Shared<Produced<usize>>>>,
}

impl<'a, T: Transforms> Model for Providers<'a, T> {
    ghost use Rattle.gb_provider.specs.Answers.{Held};
    ghost use Rattle.gb_provider.specs.Remembered.{AreKept};

    ghost Value = { Held T.Map T.FlatMap T.Zip T.Test };

    ghost view = { λ p. record { table = p.table.now; nodes = p.nodes } };

    ghost invariant = { λ p. AreKept T.meanings p.nodes p.values.items p.producers.items };
}

impl<'a, T: Transforms> Providers<'a, T> {
    /// No expression yet. The stored functions are those of the table.
    pub fn new(
        alloc: Global,
        table: &'a TransformTable<T::Map, T::FlatMap, T::Zip, T::Test>,
    ) -> Self
        ensures { result ≡ record { table = table.now; nodes = [] } }
    {
        Providers {
            alloc,
            table,
            nodes: Expressions::new(alloc),
            values: Vec::new(alloc),
            producers: Vec::new(alloc),
        }
    }

    /// Whether a node is one of these providers, which each call with a node requires.
    pub fn has(&self, node: Node) -> bool
        ensures { IsTrue result ↔ (node.number < length self.now.nodes) }
    {
        node.number < self.nodes.len()
    }

    /// Appends an expression that is no output. Cached answers stay right.
    fn add(
        &mut self,
        expression: Expression<'a, T::Map, T::FlatMap, T::Zip>,
    ) -> Result<Node, AllocError>
        requires within { OperandsWithin (length self.old.nodes) expression }
        requires plain { IsNoOutput expression }
        ensures ok { IfOk result (λ node. IsAdded self.old expression.entry self.new node) }
        ensures err { OnErr result (self.new ≡ self.old) }
    {
        let number = self.nodes.len();
        self.nodes.push(expression)?;
        Ok(Node { number })
    }

    /// A constant.
    pub fn value(&mut self, value: Value) -> Result<Node, AllocError>
        ensures ok { IfOk result (λ node. IsAdded self.old (Expression.Constant (Some value)) self.new node) }
        ensures err { OnErr result (self.new ≡ self.old) }
    {
        self.add(Expression::Constant(Some(value)))
    }

    /// A constant that is absent.
    pub fn absent(&mut self) -> Result<Node, AllocError>
        ensures ok { IfOk result (λ node. IsAdded self.old (Expression.Constant None) self.new node) }
        ensures err { OnErr result (self.new ≡ self.old) }
    {
        self.add(Expression::Constant(None))
    }

    /// A property of a project, not set yet. A circle is reported with this path and name.
    pub fn property(&mut self, project: ProjectPath, name: Name) -> Result<Node, AllocError>
        ensures ok { IfOk result (λ node.
            IsAdded self.old
            (Expression.OfProperty
            (record {
              project = project;
              name = name;
              setting = None;
              convention = None;
              is_final = false;
            })) self.new node) }
        ensures err { OnErr result (self.new ≡ self.old) }
    {
        self.add(Expression::OfProperty(Property {
            project,
            name,
            setting: None,
            convention: None,
            is_final: false,
        }))
    }

    /// The list of the texts of these operands. If an operand has no value, the first of these,
    /// from the left, is the result; if all have values and one is no text, 34.
    pub fn list(&mut self, elements: &[Node]) -> Result<Node, AllocError>
        requires { All (λ element. element.number < length self.old.nodes) elements.now }
        ensures ok { IfOk result (λ node.
            IsAdded self.old (Expression.Listed (numbers_of elements.now)) self.new node) }
        ensures err { OnErr result (self.new ≡ self.old) }
    {
        let operands = Operands::of(self.alloc, elements)?;
        self.add(Expression::Listed(operands))
    }

    /// The value of the left if it is present, else that of the right.
    pub fn or_else(&mut self, left: Node, right: Node) -> Result<Node, AllocError>
        requires left { left.number < length self.old.nodes }
        requires right { right.number < length self.old.nodes }
        ensures ok { IfOk result (λ node.
            IsAdded self.old (Expression.OrElse left.number right.number) self.new node) }
        ensures err { OnErr result (self.new ≡ self.old) }
    {
        self.add(Expression::OrElse(left.number, right.number))
    }

    /// Appends an output that is not in the table yet. Nothing is cached after it.
    fn add_output(&mut self, chosen: Chosen, declared: Option<usize>) -> Result<Node, AllocError>
        requires within { PlaceWithin (length self.old.nodes) declared }
        requires new { output_place self.old.nodes chosen ≡ None }
        ensures ok { IfOk result (λ node.
            IsAdded self.old (Expression.OfOutput (record { chosen = chosen; declared = declared }))
            self.new node) }
        ensures err { OnErr result (self.new ≡ self.old) }
    {
        let number = self.nodes.len();
        self.nodes.push_output(chosen, declared)?;
        self.values.clear();
        self.producers.clear();
        Ok(Node { number })
    }

    /// The number of an output.
    fn place(&self, chosen: &Chosen) -> Option<usize>
        ensures place { result ≡ output_place self.now.nodes chosen.now }
        ensures within { PlaceWithin (length self.now.nodes) result }
    {
        self.nodes.place(chosen)
    }

    /// Declares the output with this number as an expression.
    fn declare(&mut self, number: usize, chosen: &Chosen, source: usize)
        requires within { number < length self.old.nodes }
        requires exists { output_place self.old.nodes chosen.now ≡ Some number }
        requires source { source < length self.old.nodes }
        ensures { self.new
            ≡ record self.old {
              nodes =
                  slice_set self.old.nodes number
                  (Expression.OfOutput (record { chosen = chosen.now; declared = Some source }));
            } }
    {
        self.nodes.declare(number, chosen, source);
        forget(&mut self.values, number);
        self.producers.clear();
    }

    /// The output of a task, which is in the table once; 36 until it is declared.
    pub fn output(&mut self, task: TaskPath, name: Text) -> Result<Node, AllocError>
        ensures ok { IfOk result (λ node.
            IsOutput self.old (record { task = task; output = name })
            (output_place self.old.nodes (record { task = task; output = name })) self.new node) }
        ensures err { OnErr result (self.new ≡ self.old) }
    {
        let chosen = Chosen { task, output: name };
        match self.place(&chosen) {
            Some(number) => Ok(Node { number }),
            None => self.add_output(chosen, None),
        }
    }

    /// Declares the output of a task as an expression, which replaces an earlier one.
    pub fn declare_output(
        &mut self,
        task: TaskPath,
        name: Text,
        source: Node,
    ) -> Result<Node, AllocError>
        requires { source.number < length self.old.nodes }
        ensures ok { IfOk result (λ node.
            IsDeclared self.old (record { task = task; output = name })
            source.number (output_place self.old.nodes (record { task = task; output = name }))
            self.new node) }
        ensures err { OnErr result (self.new ≡ self.old) }
    {
        let chosen = Chosen { task, output: name };
        match self.place(&chosen) {
            Some(number) => {
                self.declare(number, &chosen, source.number);
                drop(chosen);
                Ok(Node { number })
            }
            None => self.add_output(chosen, Some(source.number)),
        }
    }

    /// The result of a `map` function on a value: absent if the value or the result is absent.
    pub fn map(&mut self, source: Node, name: &str, arguments: Texts) -> Result<Node, StepFault>
        requires { source.number < length self.old.nodes }
        ensures step { IsStep self.old (Expression.Mapped source.number)
            T.meanings.map.arity (map_named self.old.table name.now) name.now arguments self.new result }
        ensures err { OnErr result (self.new ≡ self.old) }
    {
        match accepted_map::<T>(self.table, name, arguments.as_slice().len()) {
            Ok(function) => match self.add_map(source, name, function, arguments) {
                Ok(node) => Ok(node),
                Err(AllocError) => Err(StepFault::OutOfMemory),
            },
            Err(fault) => {
                drop(arguments);
                Err(fault)
            }
        }
    }

    /// Adds a `map` with this function.
    fn add_map(
        &mut self,
        source: Node,
        name: &str,
        function: &'a T::Map,
        arguments: Texts,
    ) -> Result<Node, AllocError>
        requires { source.number < length self.old.nodes }
        ensures ok { IfOk result (λ node.
            IsAdded self.old
            (Expression.Mapped source.number
            (record { name = name.now; function = function.now; arguments = arguments })) self.new node) }
        ensures err { OnErr result (self.new ≡ self.old) }
    {
        let call = Call::of(self.alloc, name, function, arguments)?;
        self.add(Expression::Mapped(source.number, call))
    }

    /// The output that a `flatMap` function chooses by a value; absent if it chooses none.
    pub fn flat_map(
        &mut self,
        source: Node,
        name: &str,
        arguments: Texts,
    ) -> Result<Node, StepFault>
        requires { source.number < length self.old.nodes }
        ensures step { IsStep self.old (Expression.FlatMapped source.number)
            T.meanings.flat_map.arity (flat_map_named self.old.table name.now)
            name.now arguments self.new result }
        ensures err { OnErr result (self.new ≡ self.old) }
    {
        match accepted_flat_map::<T>(self.table, name, arguments.as_slice().len()) {
            Ok(function) => match self.add_flat_map(source, name, function, arguments) {
                Ok(node) => Ok(node),
                Err(AllocError) => Err(StepFault::OutOfMemory),
            },
            Err(fault) => {
                drop(arguments);
                Err(fault)
            }
        }
    }

    /// Adds a `flatMap` with this function.
    fn add_flat_map(
        &mut self,
        source: Node,
        name: &str,
        function: &'a T::FlatMap,
        arguments: Texts,
    ) -> Result<Node, AllocError>
        requires { source.number < length self.old.nodes }
        ensures ok { IfOk result (λ node.
            IsAdded self.old
            (Expression.FlatMapped source.number
            (record { name = name.now; function = function.now; arguments = arguments })) self.new node) }
        ensures err { OnErr result (self.new ≡ self.old) }
    {
        let call = Call::of(self.alloc, name, function, arguments)?;
        self.add(Expression::FlatMapped(source.number, call))
    }

    /// The result of a `zip` function on two values: absent if one of them is.
    pub fn zip(
        &mut self,
        left: Node,
        right: Node,
        name: &str,
        arguments: Texts,
    ) -> Result<Node, StepFault>
        requires left { left.number < length self.old.nodes }
        requires right { right.number < length self.old.nodes }
        ensures step { IsStep self.old (Expression.Zipped left.number right.number)
            T.meanings.zip.arity (zip_named self.old.table name.now) name.now arguments self.new result }
        ensures err { OnErr result (self.new ≡ self.old) }
    {
        match accepted_zip::<T>(self.table, name, arguments.as_slice().len()) {
            Ok(function) => match self.add_zip(left, right, name, function, arguments) {
                Ok(node) => Ok(node),
                Err(AllocError) => Err(StepFault::OutOfMemory),
            },
            Err(fault) => {
                drop(arguments);
                Err(fault)
            }
        }
    }

    /// Adds a `zip` with this function.
    fn add_zip(
        &mut self,
        left: Node,
        right: Node,
        name: &str,
        function: &'a T::Zip,
        arguments: Texts,
    ) -> Result<Node, AllocError>
        requires left { left.number < length self.old.nodes }
        requires right { right.number < length self.old.nodes }
        ensures ok { IfOk result (λ node.
            IsAdded self.old
            (Expression.Zipped left.number right.number
            (record { name = name.now; function = function.now; arguments = arguments })) self.new node) }
        ensures err { OnErr result (self.new ≡ self.old) }
    {
        let call = Call::of(self.alloc, name, function, arguments)?;
        self.add(Expression::Zipped(left.number, right.number, call))
    }

    /// Changes a property. Values stay cached if the property was not read since they were last
    /// forgotten.
    fn change(&mut self, node: Node, change: Change) -> Result<(), Final>
        requires node { node.number < length self.old.nodes }
        requires change { ChangeWithin (length self.old.nodes) change }
        ensures { IsChanged change self.old node.number self.new result }
    {
        self.nodes.change(node.number, change)?;
        forget(&mut self.values, node.number);
        self.producers.clear();
        Ok(())
    }

    /// Sets a property. 35 if it is final, or if the node is no property. Allocates nothing.
    pub fn set(&mut self, node: Node, value: Value) -> Result<(), Final>
        requires { node.number < length self.old.nodes }
        ensures { IsChanged (Change.Set value) self.old node.number self.new result }
    {
        self.change(node, Change::Set(value))
    }

    /// Makes a property follow an expression, and be absent if that is, with or without a
    /// convention. 35 as in `set`. Allocates nothing.
    pub fn set_from(&mut self, node: Node, source: Node) -> Result<(), Final>
        requires node { node.number < length self.old.nodes }
        requires source { source.number < length self.old.nodes }
        ensures { IsChanged (Change.SetFrom source.number) self.old node.number self.new result }
    {
        self.change(node, Change::SetFrom(source.number))
    }

    /// Unsets a property. 35 as in `set`. Allocates nothing.
    pub fn unset(&mut self, node: Node) -> Result<(), Final>
        requires { node.number < length self.old.nodes }
        ensures { IsChanged Change.Unset self.old node.number self.new result }
    {
        self.change(node, Change::Unset)
    }

    /// Sets the expression that a property follows while it is not set. 35 as in `set`. Allocates
    /// nothing.
    pub fn convention(&mut self, node: Node, source: Node) -> Result<(), Final>
        requires node { node.number < length self.old.nodes }
        requires source { source.number < length self.old.nodes }
        ensures { IsChanged (Change.Convention source.number) self.old node.number self.new result }
    {
        self.change(node, Change::Convention(source.number))
    }

    /// Makes a property final, if it is not yet. 35 if the node is no property. Allocates nothing.
    pub fn disallow_changes(&mut self, node: Node) -> Result<(), Final>
        requires { node.number < length self.old.nodes }
        ensures { IsChanged Change.Finalize self.old node.number self.new result }
    {
        self.change(node, Change::Finalize)
    }

    /// The value of an expression, or nothing if it is absent.
    pub fn get(&mut self, node: Node) -> Result<Option<Value>, ProviderFault>
        requires { node.number < length self.old.nodes }
        ensures got { IsGot T.meanings self.old.nodes node.number result }
        ensures kept { self.new ≡ self.old }
    {
        recall::<T>(
            self.alloc,
            self.nodes.as_slice(),
            self.nodes.outputs(),
            &mut self.values,
            node.number,
        )
    }

    /// The value of an expression; 33 if it is absent.
    pub fn require(&mut self, node: Node) -> Result<Value, ProviderFault>
        requires { node.number < length self.old.nodes }
        ensures required { IsRequired T.meanings self.old.nodes node.number result }
        ensures kept { self.new ≡ self.old }
    {
        match self.get(node) {
            Ok(Some(value)) => Ok(value),
            Ok(None) => Err(ProviderFault::NoValue),
            Err(fault) => Err(fault),
        }
    }

    /// The tasks that produce the value of an expression, each once, ordered by the bytes of their
    /// paths: the tasks of its operands, and for an output its own task. A value is read only where
    /// it decides which tasks these are: the source of a `flatMap`, and the left side of an
    /// `orElse`. Its faults are those of `get`.
    pub fn producers(&mut self, node: Node) -> Result<TaskPaths, ProviderFault>
        requires { node.number < length self.old.nodes }
        ensures producers { AreProducers T.meanings self.old.nodes node.number result }
        ensures kept { self.new ≡ self.old }
    {
        recall_producers::<T>(
            self.alloc,
            self.nodes.as_slice(),
            self.nodes.outputs(),
            &mut self.values,
            &mut self.producers,
            node.number,
        )
    }

    /// Whether the value of an expression passes a test; an absent value never does.
    pub fn test(
        &mut self,
        node: Node,
        name: &str,
        arguments: &[Text],
    ) -> Result<bool, ProviderFault>
        requires { node.number < length self.old.nodes }
        ensures tested { IsTested T.meanings self.old node.number name.now arguments.now
            (test_named self.old.table name.now) result }
        ensures kept { self.new ≡ self.old }
    {
        let table = self.table;
        match accepted_test::<T>(table, name, arguments.len()) {
            Ok(test) => self.test_by(node, test, name, arguments),
            Err(fault) => Err(ProviderFault::Step(fault)),
        }
    }

    /// The result of a test that takes this many arguments.
    fn test_by(
        &mut self,
        node: Node,
        test: &T::Test,
        name: &str,
        arguments: &[Text],
    ) -> Result<bool, ProviderFault>
        requires node { node.number < length self.old.nodes }
        requires count { T.meanings.test.arity test.now ≡ length arguments.now }
        ensures tested { IsTestedBy T.meanings self.old node.number name.now arguments.now test.now result }
        ensures kept { self.new ≡ self.old }
    {
        match self.get(node) {
            Ok(Some(value)) => ask_once::<T>(self.alloc, test, name, value, arguments),
            Ok(None) => Ok(false),
            Err(fault) => Err(fault),
        }
    }
}

/// The `map` function with this name, if it takes this many arguments.
fn accepted_map<'a, T: Transforms>(
    table: &'a TransformTable<T::Map, T::FlatMap, T::Zip, T::Test>,
    name: &str,
    count: usize,
) -> Result<&'a T::Map, StepFault>
    ensures accepted { IsAccepted T.meanings.map.arity count (map_named table.now name.now) result }
    ensures found { IfOk result (λ function. map_named table.now name.now ≡ Some function.now) }
{
    let Some(function) = table.find_map(name) else {
        return Err(StepFault::UnknownTransform);
    };
    if T::map_arity(function) as usize != count {
        return Err(StepFault::BadArguments);
    }
    Ok(function)
}

/// The `flatMap` function with this name, if it takes this many arguments.
fn accepted_flat_map<'a, T: Transforms>(
    table: &'a TransformTable<T::Map, T::FlatMap, T::Zip, T::Test>,
    name: &str,
    count: usize,
) -> Result<&'a T::FlatMap, StepFault>
    ensures accepted { IsAccepted T.meanings.flat_map.arity count (flat_map_named table.now name.now) result }
    ensures found { IfOk result (λ function. flat_map_named table.now name.now ≡ Some function.now) }
{
    let Some(function) = table.find_flat(name) else {
        return Err(StepFault::UnknownTransform);
    };
    if T::flat_map_arity(function) as usize != count {
        return Err(StepFault::BadArguments);
    }
    Ok(function)
}

/// The `zip` function with this name, if it takes this many arguments.
fn accepted_zip<'a, T: Transforms>(
    table: &'a TransformTable<T::Map, T::FlatMap, T::Zip, T::Test>,
    name: &str,
    count: usize,
) -> Result<&'a T::Zip, StepFault>
    ensures accepted { IsAccepted T.meanings.zip.arity count (zip_named table.now name.now) result }
    ensures found { IfOk result (λ function. zip_named table.now name.now ≡ Some function.now) }
{
    let Some(function) = table.find_zip(name) else {
        return Err(StepFault::UnknownTransform);
    };
    if T::zip_arity(function) as usize != count {
        return Err(StepFault::BadArguments);
    }
    Ok(function)
}

/// The test with this name, if it takes this many arguments.
fn accepted_test<'a, T: Transforms>(
    table: &'a TransformTable<T::Map, T::FlatMap, T::Zip, T::Test>,
    name: &str,
    count: usize,
) -> Result<&'a T::Test, StepFault>
    ensures accepted { IsAccepted T.meanings.test.arity count (test_named table.now name.now) result }
    ensures found { IfOk result (λ test. test_named table.now name.now ≡ Some test.now) }
{
    let Some(test) = table.find_test(name) else {
        return Err(StepFault::UnknownTransform);
    };
    if T::test_arity(test) as usize != count {
        return Err(StepFault::BadArguments);
    }
    Ok(test)
}

/// Runs a test on a value.
fn ask<T: Transforms>(
    alloc: Global,
    test: &T::Test,
    name: &str,
    value: &Value,
    arguments: &[Text],
) -> Result<bool, ProviderFault>
    ensures { IsAsked (meaning_of T.meanings.test test.now) name.now arguments.now value.now result }
{
    match T::test(test, alloc, value, arguments) {
        Ok(truth) => Ok(truth),
        Err(TransformFault::OutOfMemory) => Err(ProviderFault::OutOfMemory),
        Err(TransformFault::Refused(refusal)) => {
            let function = Text::from_str(alloc, name)?;
            Err(ProviderFault::Value(ValueFault::Refused(function, refusal)))
        }
    }
}

/// Runs a test on a value, and drops the value.
fn ask_once<T: Transforms>(
    alloc: Global,
    test: &T::Test,
    name: &str,
    value: Value,
    arguments: &[Text],
) -> Result<bool, ProviderFault>
    ensures { IsAsked (meaning_of T.meanings.test test.now) name.now arguments.now value result }
{
    ask::<T>(alloc, test, name, &value, arguments)
}
