//! The values that an action receives.
use gb_core::name::Name;
use gb_core::row::Row;
use gb_core::value::Value;

/// The arguments of an action, in order.
pub type Arguments = Row<Value>;

/// The values of a task's inputs by their names, in the order of the names.
pub type NamedValues = Row<(Name, Value)>;
