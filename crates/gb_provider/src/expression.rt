//! Expressions, which name their operands by their numbers in the table.
ghost use Rattle.std.specs.Prelude.{◌≡◌, [], ◌∷◌, ◌++◌, ◌<◌, ◌≤◌, length, OnOk, OnErr, IfOk, map};

use crate::fault::{Chosen, ValueFault};
use gb_core::name::Name;
use gb_core::path::ProjectPath;
use gb_core::text::{Text, Texts};
use gb_core::value::Value;
use std::alloc::{AllocError, Global};
use std::marker::Model;

/// A stored function with its name and its arguments.
#[derive(Drop)]
pub struct Call<'a, S> {
    /// Its name in the table of functions.
    pub name: Text,
    /// The function itself, as the program stored it.
    pub function: &'a S,
    /// Its arguments in the brackets of a script; none if there is no bracket.
    pub arguments: Texts,
}

impl<'a, S> Model for Call<'a, S> {
    ghost use Rattle.gb_provider.specs.Called.{Called};

    ghost Value = { Called S };

    ghost view = { λ c. record { name = c.name; function = c.function.now; arguments = c.arguments } };
}

impl<'a, S> Call<'a, S> {
    /// A call of this function with this name.
    pub fn of(
        alloc: Global,
        name: &str,
        function: &'a S,
        arguments: Texts,
    ) -> Result<Call<'a, S>, AllocError>
        ensures { IfOk result (λ call.
            call ≡ record { name = name.now; function = function.now; arguments = arguments }) }
    {
        let name = Text::from_str(alloc, name)?;
        Ok(Call {
            name,
            function,
            arguments,
        })
    }
}

/// A provider, by its number in the table.
#[derive(Clone, Copy, Debug, PartialEq, Eq)]
pub struct Node {
    /// Its number in the table, counted from 0.
    pub number: usize,
}

/// A sequence of operands.
#[derive(Drop)]
pub struct Operands {
    numbers: Vec<usize>,
}

impl Model for Operands {
    ghost use Rattle.std.specs.Prelude.{List, ℕ};

    ghost Value = { List ℕ };

    ghost view = { λ o. o.numbers.items };
}

impl Operands {
    ghost use Rattle.gb_provider.specs.Rules.{numbers_of};

    /// The numbers of these nodes.
    pub fn of(alloc: Global, nodes: &[Node]) -> Result<Operands, AllocError>
        ensures { IfOk result (λ operands. operands ≡ numbers_of nodes.now) }
    {
        let mut numbers = Vec::new(alloc);
        for node in nodes {
            numbers.push(node.number)?;
        }
        Ok(Operands { numbers })
    }

    /// The numbers in the table, in the order of the nodes.
    pub fn as_slice(&self) -> &[usize]
        ensures { result.now ≡ self.now }
    {
        self.numbers.as_slice()
    }
}

/// The setting of a property; expressions are named by keys.
#[derive(Drop)]
pub enum Setting<K> {
    /// This value.
    Held(Value),
    /// The value of the expression of this key.
    Followed(K),
}

/// A property of a project.
#[derive(Drop)]
pub struct Property {
    /// The project that declares it.
    pub project: ProjectPath,
    /// Its name in that project.
    pub name: Name,
    /// Its setting, or nothing if it is not set.
    pub setting: Option<Setting<usize>>,
    /// The expression that counts if it is not set.
    pub convention: Option<usize>,
    /// Whether it accepts no more changes (35).
    pub is_final: bool,
}

/// An output of a task, and the expression that it is declared as.
#[derive(Drop)]
pub struct Output {
    /// The task, and the name of the output in it.
    pub chosen: Chosen,
    /// The expression of its place, or nothing if the task is not realised yet.
    pub declared: Option<usize>,
}

/// An expression.
#[derive(Drop)]
pub enum Expression<'a, M, F, Z> {
    /// A value, or nothing.
    Constant(Option<Value>),
    /// A property: its setting, or its convention.
    OfProperty(Property),
    /// The place that an output of a task is declared as.
    OfOutput(Output),
    /// The list of the values of its operands, each a text.
    Listed(Operands),
    /// The result of a function on the value of the operand.
    Mapped(usize, Call<'a, M>),
    /// The output that a function chooses by the value of the operand.
    FlatMapped(usize, Call<'a, F>),
    /// The result of a function on the values of two operands.
    Zipped(usize, usize, Call<'a, Z>),
    /// The first operand, or the second if the first is absent.
    OrElse(usize, usize),
}

/// The result of an expression.
#[derive(Drop)]
pub enum Outcome {
    /// A value.
    Given(Value),
    /// No value, as for a property that is not set.
    Absent,
    /// Its fault, its own or that of one of its operands.
    Refused(ValueFault),
}
