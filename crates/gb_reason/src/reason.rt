//! A reason.
ghost use Rattle.std.specs.Prelude.{◌≡◌, IfOk};

use gb_action::change::Change;
use gb_core::name::Name;
use gb_core::place::Place;
use gb_core::value::Value;
use std::alloc::AllocError;

/// Why a task is not up to date.
#[derive(Drop)]
pub enum Reason {
    /// It has outputs and no record.
    NoRecord,
    /// Every task is to run.
    Rerun,
    /// A test of `upToDateWhen` is false.
    Stale,
    /// It has no output that could be as it was left.
    NoOutputs,
    /// An action of this kind is among its actions, and none was.
    ActionAdded(Name),
    /// An action of this kind was among its actions, and none is.
    ActionRemoved(Name),
    /// Its actions are of the same kinds, in another order or number.
    ActionOrder,
    /// An action of this kind has another version.
    ActionVersion(Name),
    /// An action of this kind has more or fewer arguments.
    ArgumentCount(Name),
    /// An argument differs: the kind of the action, the argument's number from 1, its old and its
    /// new value.
    Argument(Name, usize, Value, Value),
    /// Its input values have other names.
    ValueNames,
    /// An input value differs: its name, what it was, and what it is.
    Value(Name, Value, Value),
    /// Its outputs have other names, forms or places.
    OutputNames,
    /// A file at or under the output of this place is not as it was left.
    Output(Place, Change),
    /// Its file properties have other names.
    FileNames,
    /// A file of this property differs.
    File(Name, Change),
}

/// An equal change.
pub(crate) fn copied(change: &Change) -> Result<Change, AllocError>
    ensures { IfOk result (λ copy. copy ≡ change.now) }
{
    Ok(match change {
        Change::Added(path) => Change::Added(path.copy()?),
        Change::Modified(path) => Change::Modified(path.copy()?),
        Change::Removed(path) => Change::Removed(path.copy()?),
    })
}
