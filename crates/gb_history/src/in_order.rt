//! Whether names and paths are in order, each once.
ghost use Rattle.std.specs.Prelude.{◌≡◌, map};
ghost use Rattle.std.specs.FinMap.Entries.{is_sorted};
ghost use Rattle.gb_core.specs.Lists.{byte_order};
ghost use Rattle.gb_history.specs.Ascending.{ascends};
ghost use Rattle.gb_history.specs.Record.{prints_in};

use crate::record::OutputRecord;
use gb_core::name::Name;
use gb_core::place::RelPath;
use gb_core::value::Value;
use gb_tree::prints::Prints;

/// An element of a list, with its key.
trait Keyed {
    ghost use Rattle.std.specs.Prelude.{List, ℕ};

    ghost key_of: { Self → List ℕ };

    fn key(&self) -> &str
        ensures { result.now ≡ key_of self.now };
}

/// Whether each key is below the next.
fn ascends<T: Keyed>(items: &[T]) -> bool
    ensures { result ≡ ascends (map T.key_of items.now) }
{
    let Some((first, rest)) = items.split_first() else {
        return true;
    };
    let mut last = first.key();
    for item in rest {
        if last >= item.key() {
            return false;
        }
        last = item.key();
    }
    true
}

impl Keyed for (RelPath, [u8; 32]) {
    ghost key_of = { λ print. print.0 };

    fn key(&self) -> &str {
        self.0.as_str()
    }
}

impl Keyed for (Name, Value) {
    ghost key_of = { λ value. value.0 };

    fn key(&self) -> &str {
        self.0.as_str()
    }
}

impl Keyed for Prints {
    ghost key_of = { λ prints. prints.0 };

    fn key(&self) -> &str {
        self.name().as_str()
    }
}

impl Keyed for OutputRecord {
    ghost key_of = { λ output. output.prints.0 };

    fn key(&self) -> &str {
        self.prints.name().as_str()
    }
}

/// Whether the paths are strictly ascending.
pub fn digests_rise(digests: &[(RelPath, [u8; 32])]) -> bool
    ensures { result ≡ is_sorted byte_order digests.now }
{
    ascends(digests)
}

/// Whether the names of the values are strictly ascending.
pub fn values_rise(values: &[(Name, Value)]) -> bool
    ensures { result ≡ is_sorted byte_order values.now }
{
    ascends(values)
}

/// Whether the names of the properties are strictly ascending.
pub fn inputs_rise(inputs: &[Prints]) -> bool
    ensures { result ≡ is_sorted byte_order inputs.now }
{
    ascends(inputs)
}

/// Whether the names of the outputs are strictly ascending.
pub fn outputs_rise(outputs: &[OutputRecord]) -> bool
    ensures { result ≡ is_sorted byte_order (prints_in outputs.now) }
{
    ascends(outputs)
}
