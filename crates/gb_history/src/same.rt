//! Whether two parts of records are the same.
ghost use Rattle.std.specs.Prelude.{◌≡◌, ◌↔◌, IsTrue};

use crate::record::{OutputRecord, Record};
use gb_core::name::Name;
use gb_core::place::RelPath;
use gb_core::text::Text;
use gb_core::value::Value;
use gb_plan::task::Action;
use gb_tree::prints::Prints;

/// What can be compared with another of its type.
pub trait Same {
    /// Whether the two are equal in everything that contracts view of them.
    fn is_same(&self, other: &Self) -> bool
        ensures { IsTrue result ↔ (self.now ≡ other.now) };
}

/// Whether two lists have the same elements in the same order.
pub fn are_same<T: Same>(left: &[T], right: &[T]) -> bool
    ensures { IsTrue result ↔ (left.now ≡ right.now) }
{
    if left.len() != right.len() {
        return false;
    }
    for (at, one) in left.iter().enumerate() {
        if !one.is_same(&right[at]) {
            return false;
        }
    }
    true
}

impl Same for Text {
    fn is_same(&self, other: &Text) -> bool {
        self.as_str() == other.as_str()
    }
}

impl Same for Value {
    fn is_same(&self, other: &Value) -> bool {
        match (self, other) {
            (Value::Text(one), Value::Text(two)) => one.is_same(two),
            (Value::Flag(one), Value::Flag(two)) => one == two,
            (Value::List(one), Value::List(two)) => are_same(one.as_slice(), two.as_slice()),
            (Value::Place(one), Value::Place(two)) => one == two,
            (Value::Task(one), Value::Task(two)) => one == two,
            _ => false,
        }
    }
}

impl Same for (Name, Value) {
    fn is_same(&self, other: &(Name, Value)) -> bool {
        self.0 == other.0 && self.1.is_same(&other.1)
    }
}

impl Same for Action {
    fn is_same(&self, other: &Action) -> bool {
        self.kind == other.kind
            && self.version == other.version
            && are_same(self.args.as_slice(), other.args.as_slice())
    }
}

impl Same for (RelPath, [u8; 32]) {
    fn is_same(&self, other: &(RelPath, [u8; 32])) -> bool {
        self.0 == other.0 && self.1 == other.1
    }
}

impl Same for Prints {
    fn is_same(&self, other: &Prints) -> bool {
        self.name() == other.name() && are_same(self.as_slice(), other.as_slice())
    }
}

impl Same for OutputRecord {
    fn is_same(&self, other: &OutputRecord) -> bool {
        self.form.is(other.form) && self.place == other.place && self.prints.is_same(&other.prints)
    }
}

impl Same for Record {
    fn is_same(&self, other: &Record) -> bool {
        are_same(self.actions(), other.actions())
            && are_same(self.values().as_slice(), other.values().as_slice())
            && are_same(self.inputs(), other.inputs())
            && are_same(self.outputs(), other.outputs())
    }
}
