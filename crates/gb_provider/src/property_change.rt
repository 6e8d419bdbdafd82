//! Changes of properties.
ghost use Rattle.std.specs.Prelude.{◌≡◌};
ghost use Rattle.gb_provider.specs.Changes.{changed, takes, IsNodeChanged, IsNodeDeclared};

use crate::expression::{Expression, Property, Setting};
use crate::fault::Final;
use gb_core::value::Value;

/// A change of a property.
#[derive(Drop)]
pub enum Change {
    /// It is set to this value.
    Set(Value),
    /// It is set to the value that the expression of this number has when it is read.
    SetFrom(usize),
    /// It is unset; the convention applies again.
    Unset,
    /// The expression of this number applies while it is not set.
    Convention(usize),
    /// It is final: it accepts no other change any more (35).
    Finalize,
}

/// Replaces the setting of a property.
fn put(property: &mut Property, setting: Option<Setting<usize>>)
    ensures { property.new ≡ record property.old { setting = setting } }
{
    property.setting = setting;
}

fn apply(change: Change, property: &mut Property)
    ensures { property.new ≡ changed change property.old }
{
    match change {
        Change::Set(value) => put(property, Some(Setting::Held(value))),
        Change::SetFrom(source) => put(property, Some(Setting::Followed(source))),
        Change::Unset => put(property, None),
        Change::Convention(source) => property.convention = Some(source),
        Change::Finalize => property.is_final = true,
    }
}

/// Whether a property accepts a change: a final one accepts only to be made final.
fn takes(change: &Change, is_final: bool) -> bool
    ensures { result ≡ takes change.now is_final }
{
    match change {
        Change::Finalize => true,
        _ => !is_final,
    }
}

/// Changes a property that accepts the change.
pub(crate) fn change_property<M, F, Z>(
    node: &mut Expression<M, F, Z>,
    change: Change,
) -> Result<(), Final>
    ensures { IsNodeChanged change node.old node.new result }
{
    match node {
        Expression::OfProperty(property) => {
            if !takes(&change, property.is_final) {
                drop(change);
                return Err(Final);
            }
            apply(change, property);
            Ok(())
        }
        _ => {
            drop(change);
            Err(Final)
        }
    }
}

/// Declares an output as this expression.
pub(crate) fn declare<M, F, Z>(node: &mut Expression<M, F, Z>, source: usize)
    ensures { IsNodeDeclared source node.old node.new }
{
    match node {
        Expression::OfOutput(output) => output.declared = Some(source),
        _ => {}
    }
}
