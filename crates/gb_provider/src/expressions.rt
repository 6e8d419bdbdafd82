//! All expressions by number, and the number of each output.
ghost use Rattle.std.specs.BTreeMap.{get, is_at};
ghost use Rattle.std.specs.Prelude.{◌≡◌, ◌<◌, ◌++◌, [], ◌∷◌, cond, length, None, Some, OnErr, OnOk, Ok};
ghost use Rattle.std.specs.Prelude.{slice_get, slice_set, vec_capacity, vec_len};
ghost use Rattle.gb_provider.specs.Changes.{AreChanged};
ghost use Rattle.gb_provider.specs.Indexed.{chosen_order, IsIndexed, IsNoOutput};
ghost use Rattle.gb_provider.specs.Rules.{PlaceWithin, output_place};

use crate::expression::{Expression, Output};
use crate::fault::{Chosen, Final};
use crate::property_change::{Change, change_property, declare};
use std::alloc::{AllocError, Global};
use std::collections::BTreeMap;
use std::marker::Model;

/// The number of each output.
pub(crate) type Outputs = BTreeMap<Chosen, usize>;

/// The number of an output among these expressions.
pub(crate) fn place_of<M, F, Z>(
    nodes: &[Expression<M, F, Z>],
    outputs: &Outputs,
    chosen: &Chosen,
) -> Option<usize>
    requires { IsIndexed nodes.now outputs.now }
    ensures place { result ≡ output_place nodes.now chosen.now }
    ensures within { PlaceWithin (length nodes.now) result }
{
    let _ = nodes;
    outputs.get(chosen).copied()
}

/// Records the number of an output.
fn index_output(outputs: &mut Outputs, chosen: &Chosen, number: usize) -> Result<(), AllocError>
    ensures ok { OnOk result ((key : Chosen)
        → get chosen_order outputs.new key
        ≡ cond (is_at (chosen_order chosen.now) key) (Some number) (get chosen_order outputs.old key)) }
    ensures err { OnErr result ((key : Chosen)
        → get chosen_order outputs.new key ≡ get chosen_order outputs.old key) }
{
    let key = chosen.copy()?;
    outputs.insert(key, number)?;
    Ok(())
}

/// Makes room for one more expression, and records that an output has its number.
fn make_room<'a, M: Drop, F: Drop, Z: Drop>(
    nodes: &mut Vec<Expression<'a, M, F, Z>>,
    outputs: &mut Outputs,
    chosen: &Chosen,
) -> Result<(), AllocError>
    ensures kept { nodes.new.items ≡ nodes.old.items }
    ensures room { OnOk result (vec_len nodes.new < vec_capacity nodes.new) }
    ensures ok { OnOk result ((key : Chosen)
        → get chosen_order outputs.new key
        ≡ cond (is_at (chosen_order chosen.now) key) (Some (length nodes.old.items))
        (get chosen_order outputs.old key)) }
    ensures err { OnErr result ((key : Chosen)
        → get chosen_order outputs.new key ≡ get chosen_order outputs.old key) }
{
    let number = nodes.len();
    nodes.reserve(1)?;
    index_output(outputs, chosen, number)
}

/// Appends an expression, for which there is room.
fn push_reserved<'a, M: Drop, F: Drop, Z: Drop>(
    nodes: &mut Vec<Expression<'a, M, F, Z>>,
    node: Expression<'a, M, F, Z>,
)
    requires { vec_len nodes.old < vec_capacity nodes.old }
    ensures { nodes.new.items ≡ nodes.old.items ++ node.entry ∷ [] }
{
    match nodes.push(node) {
        Ok(()) => {}
        Err(_) => unreachable!(),
    }
}

/// All expressions by number.
#[derive(Drop)]
pub(crate) struct Expressions<'a, M, F, Z> {
    nodes: Vec<Expression<'a, M, F, Z>>,
    outputs: Outputs,
}

impl<'a, M, F, Z> Model for Expressions<'a, M, F, Z> {
    ghost use Rattle.std.specs.Prelude.{List};
    ghost use Rattle.gb_provider.specs.declared.expression.Expression as expressions;
    ghost use Rattle.gb_provider.specs.Indexed.{IsIndexed};

    ghost Value = { List (expressions.Expression M F Z) };

    ghost view = { λ e. e.nodes.items };

    ghost invariant = { λ e. IsIndexed e.nodes.items e.outputs };
}

impl<'a, M, F, Z> Expressions<'a, M, F, Z> {
    /// No expression yet.
    pub fn new(alloc: Global) -> Self
        ensures { result ≡ [] }
    {
        Expressions {
            nodes: Vec::new(alloc),
            outputs: BTreeMap::new(alloc),
        }
    }

    /// How many expressions there are: the number of the next one.
    pub fn len(&self) -> usize
        ensures { result ≡ length self.now }
    {
        self.nodes.len()
    }

    /// The expressions by number.
    pub fn as_slice(&self) -> &[Expression<'a, M, F, Z>]
        ensures { result.now ≡ self.now }
    {
        self.nodes.as_slice()
    }

    /// The number of each output.
    pub fn outputs(&self) -> &Outputs
        ensures { IsIndexed self.now result.now }
    {
        &self.outputs
    }

    /// The number of an output.
    pub fn place(&self, chosen: &Chosen) -> Option<usize>
        ensures place { result ≡ output_place self.now chosen.now }
        ensures within { PlaceWithin (length self.now) result }
    {
        place_of(&self.nodes, &self.outputs, chosen)
    }
}

impl<'a, M: Drop, F: Drop, Z: Drop> Expressions<'a, M, F, Z> {
    /// Appends an expression that is no output.
    pub fn push(&mut self, expression: Expression<'a, M, F, Z>) -> Result<(), AllocError>
        requires { IsNoOutput expression }
        ensures ok { OnOk result (self.new ≡ self.old ++ expression.entry ∷ []) }
        ensures err { OnErr result (self.new ≡ self.old) }
    {
        self.nodes.push(expression)?;
        Ok(())
    }

    /// Appends an output that is not in the table yet.
    pub fn push_output(&mut self, chosen: Chosen, declared: Option<usize>) -> Result<(), AllocError>
        requires { output_place self.old chosen ≡ None }
        ensures ok { OnOk result (self.new
            ≡ self.old ++ Expression.OfOutput (record { chosen = chosen; declared = declared }) ∷ []) }
        ensures err { OnErr result (self.new ≡ self.old) }
    {
        match make_room(&mut self.nodes, &mut self.outputs, &chosen) {
            Ok(()) => {}
            Err(AllocError) => {
                drop(chosen);
                return Err(AllocError);
            }
        }
        push_reserved(
            &mut self.nodes,
            Expression::OfOutput(Output { chosen, declared }),
        );
        Ok(())
    }

    /// Declares the output with this number as an expression.
    pub fn declare(&mut self, number: usize, chosen: &Chosen, source: usize)
        requires within { number < length self.old }
        requires exists { output_place self.old chosen.now ≡ Some number }
        ensures { self.new
            ≡ slice_set self.old number
            (Expression.OfOutput (record { chosen = chosen.now; declared = Some source })) }
    {
        declare(&mut self.nodes[number], source);
    }

    /// Changes a property that accepts the change.
    pub fn change(&mut self, number: usize, change: Change) -> Result<(), Final>
        requires { number < length self.old }
        ensures { AreChanged change self.old number self.new result }
    {
        change_property(&mut self.nodes[number], change)
    }
}
