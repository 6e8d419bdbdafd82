//! Combines two implementations of `Transforms`, which are functions of values, into one.
ghost use Rattle.std.specs.Prelude.{◌≡◌};
ghost use Rattle.gb_provider.specs.Meanings.{IsReply, meaning_of};

use crate::both::{Both, Either};
use gb_core::text::Text;
use gb_core::value::Value;
use gb_provider::fault::{Chosen, TransformFault};
use gb_provider::transforms::Transforms;
use std::alloc::Global;

impl<A: Transforms, B: Transforms> Transforms for Both<A, B> {
    type Map = Either<A::Map, B::Map>;

    type FlatMap = Either<A::FlatMap, B::FlatMap>;

    type Zip = Either<A::Zip, B::Zip>;

    type Test = Either<A::Test, B::Test>;

    ghost use Rattle.gb_with.specs.Functions.{both_functions};

    ghost meanings = { both_functions A.meanings B.meanings };

    fn map_arity(stored: &Either<A::Map, B::Map>) -> u8 {
        match stored {
            Either::First(stored) => A::map_arity(stored),
            Either::Second(stored) => B::map_arity(stored),
        }
    }

    fn flat_map_arity(stored: &Either<A::FlatMap, B::FlatMap>) -> u8 {
        match stored {
            Either::First(stored) => A::flat_map_arity(stored),
            Either::Second(stored) => B::flat_map_arity(stored),
        }
    }

    fn zip_arity(stored: &Either<A::Zip, B::Zip>) -> u8 {
        match stored {
            Either::First(stored) => A::zip_arity(stored),
            Either::Second(stored) => B::zip_arity(stored),
        }
    }

    fn test_arity(stored: &Either<A::Test, B::Test>) -> u8 {
        match stored {
            Either::First(stored) => A::test_arity(stored),
            Either::Second(stored) => B::test_arity(stored),
        }
    }

    fn map(
        stored: &Either<A::Map, B::Map>,
        alloc: Global,
        value: &Value,
        arguments: &[Text],
    ) -> Result<Option<Value>, TransformFault> {
        match stored {
            Either::First(stored) => A::map(stored, alloc, value, arguments),
            Either::Second(stored) => B::map(stored, alloc, value, arguments),
        }
    }

    fn flat_map(
        stored: &Either<A::FlatMap, B::FlatMap>,
        alloc: Global,
        value: &Value,
        arguments: &[Text],
    ) -> Result<Option<Chosen>, TransformFault> {
        match stored {
            Either::First(stored) => A::flat_map(stored, alloc, value, arguments),
            Either::Second(stored) => B::flat_map(stored, alloc, value, arguments),
        }
    }

    fn zip(
        stored: &Either<A::Zip, B::Zip>,
        alloc: Global,
        left: &Value,
        right: &Value,
        arguments: &[Text],
    ) -> Result<Value, TransformFault> {
        match stored {
            Either::First(stored) => A::zip(stored, alloc, left, right, arguments),
            Either::Second(stored) => B::zip(stored, alloc, left, right, arguments),
        }
    }

    fn test(
        stored: &Either<A::Test, B::Test>,
        alloc: Global,
        value: &Value,
        arguments: &[Text],
    ) -> Result<bool, TransformFault> {
        match stored {
            Either::First(stored) => A::test(stored, alloc, value, arguments),
            Either::Second(stored) => B::test(stored, alloc, value, arguments),
        }
    }
}
