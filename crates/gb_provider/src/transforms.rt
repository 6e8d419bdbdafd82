//! The trait that defines the stored functions of a program.
ghost use Rattle.std.specs.Prelude.{◌≡◌};
ghost use Rattle.gb_provider.specs.Meanings.{Meanings, IsReply, meaning_of};

use crate::fault::{Chosen, TransformFault};
use gb_core::text::Text;
use gb_core::value::Value;
use std::alloc::Global;

/// The types of a program's stored functions, and the meaning of each kind.
pub trait Transforms {
    /// The stored form of a function of `map`: a closure, with its kind and the number of its
    /// arguments.
    type Map: Drop;
    /// The stored form of a function of `flatMap`.
    type FlatMap: Drop;
    /// The stored form of a function of `zip`.
    type Zip: Drop;
    /// The stored form of a test.
    type Test: Drop;

    /// The result of each kind, and how many arguments each function takes.
    ghost meanings: { Meanings Self.Map Self.FlatMap Self.Zip Self.Test };

    /// The number of its arguments.
    fn map_arity(stored: &Self::Map) -> u8
        ensures { result ≡ meanings.map.arity stored.now };

    /// The number of its arguments.
    fn flat_map_arity(stored: &Self::FlatMap) -> u8
        ensures { result ≡ meanings.flat_map.arity stored.now };

    /// The number of its arguments.
    fn zip_arity(stored: &Self::Zip) -> u8
        ensures { result ≡ meanings.zip.arity stored.now };

    /// The number of its arguments.
    fn test_arity(stored: &Self::Test) -> u8
        ensures { result ≡ meanings.test.arity stored.now };

    /// Calls a function of `map`: a value, or nothing.
    fn map(
        stored: &Self::Map,
        alloc: Global,
        value: &Value,
        arguments: &[Text],
    ) -> Result<Option<Value>, TransformFault>
        ensures { IsReply result (meaning_of meanings.map stored.now value.now arguments.now) };

    /// Calls a function of `flatMap`: an output, or none.
    fn flat_map(
        stored: &Self::FlatMap,
        alloc: Global,
        value: &Value,
        arguments: &[Text],
    ) -> Result<Option<Chosen>, TransformFault>
        ensures { IsReply result (meaning_of meanings.flat_map stored.now value.now arguments.now) };

    /// Calls a function of `zip`.
    fn zip(
        stored: &Self::Zip,
        alloc: Global,
        left: &Value,
        right: &Value,
        arguments: &[Text],
    ) -> Result<Value, TransformFault>
        ensures { IsReply result (meaning_of meanings.zip stored.now left.now right.now arguments.now) };

    /// Calls a test.
    fn test(
        stored: &Self::Test,
        alloc: Global,
        value: &Value,
        arguments: &[Text],
    ) -> Result<bool, TransformFault>
        ensures { IsReply result (meaning_of meanings.test stored.now value.now arguments.now) };
}
