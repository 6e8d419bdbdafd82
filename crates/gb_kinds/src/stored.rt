//! The functions of values as stored closures, stored next to the built-in kinds of actions.
ghost use Rattle.std.specs.Prelude.{◌≡◌};
ghost use Rattle.gb_provider.specs.Meanings.{IsReply};
ghost use Rattle.gb_kinds.specs.Functions.{
  map_means,
  map_arity,
  flat_map_means,
  flat_map_arity,
  zip_means,
  zip_arity,
  test_means,
  test_arity,
  Keeps,
  KeepsOfTwo,
};
ghost use Rattle.gb_kinds.specs.ReplyProps.{mapped-prop, chosen-prop, zipped-prop, tested-prop};

use crate::builtin::Builtin;
use gb_core::text::Text;
use gb_core::value::Value;
use gb_provider::fault::{Chosen, TransformFault};
use gb_provider::transforms::Transforms;
use std::alloc::Global;
use std::marker::PhantomData;

/// The closure of a function of `map`.
pub type MapRun = Box<dyn Fn(Global, &Value, &[Text]) -> Result<Option<Value>, TransformFault>>;

/// The closure of a function of `flatMap`.
pub type FlatRun = Box<dyn Fn(Global, &Value, &[Text]) -> Result<Option<Chosen>, TransformFault>>;

/// The closure of a function of `zip`.
pub type ZipRun = Box<dyn Fn(Global, &Value, &Value, &[Text]) -> Result<Value, TransformFault>>;

/// The closure of a test.
pub type TestRun = Box<dyn Fn(Global, &Value, &[Text]) -> Result<bool, TransformFault>>;

/// Names the closures of all uses. Each stored type has it before its closure, since the meanings
/// in `Transforms` are about all four types, and a method can mention only the closure types that
/// its parameters name, in one order.
type Runs = PhantomData<(MapRun, FlatRun, ZipRun, TestRun)>;

/// A closure, with the number of the `map` function whose meaning it keeps and the number of its
/// arguments.
#[derive(Drop)]
pub struct StoredMap {
    /// The number of the function, which names its meaning.
    pub kind: u16,
    /// How many texts it takes as arguments.
    pub arity: u8,
    runs: Runs,
    run: MapRun,
    /// The number of arguments is that of the function.
    pub ghost counted: { arity ≡ map_arity kind },
    ghost callable: { (alloc : _) (value : _) (arguments : _) → MapRun.pre run alloc value arguments },
    ghost keeps: { (alloc : _) (value : _) (arguments : _) (answer : _)
        → MapRun.post run alloc value arguments answer
        → IsReply answer (map_means kind value.now arguments.now) } by { Prim.hlevel mapped-prop },
}

impl StoredMap {
    /// Stores a closure that keeps the meaning of the function.
    pub fn new(kind: u16, arity: u8, run: MapRun) -> StoredMap
        requires counted { arity ≡ map_arity kind }
        requires keeps { Keeps (map_means kind) (MapRun.pre run) (MapRun.post run) }
        ensures kind { result.kind ≡ kind }
    {
        StoredMap {
            kind,
            arity,
            run,
            runs: PhantomData,
        }
    }
}

/// A closure, with the number of the `flatMap` function whose meaning it keeps and the number of
/// its arguments.
#[derive(Drop)]
pub struct StoredFlat {
    /// The number of the function, which names its meaning.
    pub kind: u16,
    /// How many texts it takes as arguments.
    pub arity: u8,
    runs: Runs,
    run: FlatRun,
    /// The number of arguments is that of the function.
    pub ghost counted: { arity ≡ flat_map_arity kind },
    ghost callable: { (alloc : _) (value : _) (arguments : _) → FlatRun.pre run alloc value arguments },
    ghost keeps: { (alloc : _) (value : _) (arguments : _) (answer : _)
        → FlatRun.post run alloc value arguments answer
        → IsReply answer (flat_map_means kind value.now arguments.now) } by { Prim.hlevel chosen-prop },
}

impl StoredFlat {
    /// Stores a closure that keeps the meaning of the function.
    pub fn new(kind: u16, arity: u8, run: FlatRun) -> StoredFlat
        requires counted { arity ≡ flat_map_arity kind }
        requires keeps { Keeps (flat_map_means kind) (FlatRun.pre run) (FlatRun.post run) }
        ensures kind { result.kind ≡ kind }
    {
        StoredFlat {
            kind,
            arity,
            run,
            runs: PhantomData,
        }
    }
}

/// A closure, with the number of the `zip` function whose meaning it keeps and the number of its
/// arguments.
#[derive(Drop)]
pub struct StoredZip {
    /// The number of the function, which names its meaning.
    pub kind: u16,
    /// How many texts it takes as arguments.
    pub arity: u8,
    runs: Runs,
    run: ZipRun,
    /// The number of arguments is that of the function.
    pub ghost counted: { arity ≡ zip_arity kind },
    ghost callable: { (alloc : _) (left : _) (right : _) (arguments : _)
        → ZipRun.pre run alloc left right arguments },
    ghost keeps: { (alloc : _) (left : _) (right : _) (arguments : _) (answer : _)
        → ZipRun.post run alloc left right arguments answer
        → IsReply answer (zip_means kind left.now right.now arguments.now) } by { Prim.hlevel zipped-prop },
}

impl StoredZip {
    /// Stores a closure that keeps the meaning of the function.
    pub fn new(kind: u16, arity: u8, run: ZipRun) -> StoredZip
        requires counted { arity ≡ zip_arity kind }
        requires keeps { KeepsOfTwo (zip_means kind) (ZipRun.pre run) (ZipRun.post run) }
        ensures kind { result.kind ≡ kind }
    {
        StoredZip {
            kind,
            arity,
            run,
            runs: PhantomData,
        }
    }
}

/// A closure, with the number of the test whose meaning it keeps and the number of its arguments.
#[derive(Drop)]
pub struct StoredTest {
    /// The number of the test, which names its meaning.
    pub kind: u16,
    /// How many texts it takes as arguments.
    pub arity: u8,
    runs: Runs,
    run: TestRun,
    /// The number of arguments is that of the test.
    pub ghost counted: { arity ≡ test_arity kind },
    ghost callable: { (alloc : _) (value : _) (arguments : _) → TestRun.pre run alloc value arguments },
    ghost keeps: { (alloc : _) (value : _) (arguments : _) (answer : _)
        → TestRun.post run alloc value arguments answer
        → IsReply answer (test_means kind value.now arguments.now) } by { Prim.hlevel tested-prop },
}

impl StoredTest {
    /// Stores a closure that keeps the meaning of the test.
    pub fn new(kind: u16, arity: u8, run: TestRun) -> StoredTest
        requires counted { arity ≡ test_arity kind }
        requires keeps { Keeps (test_means kind) (TestRun.pre run) (TestRun.post run) }
        ensures kind { result.kind ≡ kind }
    {
        StoredTest {
            kind,
            arity,
            run,
            runs: PhantomData,
        }
    }
}

impl Transforms for Builtin {
    type Map = StoredMap;

    type FlatMap = StoredFlat;

    type Zip = StoredZip;

    type Test = StoredTest;

    ghost meanings = { record {
      map = record {
        kind = λ stored. stored.kind;
        arity = λ stored. map_arity stored.kind;
        means = map_means;
      };
      flat_map = record {
        kind = λ stored. stored.kind;
        arity = λ stored. flat_map_arity stored.kind;
        means = flat_map_means;
      };
      zip = record {
        kind = λ stored. stored.kind;
        arity = λ stored. zip_arity stored.kind;
        means = zip_means;
      };
      test = record {
        kind = λ stored. stored.kind;
        arity = λ stored. test_arity stored.kind;
        means = test_means;
      };
    } };

    fn map_arity(stored: &StoredMap) -> u8 {
        stored.arity
    }

    fn flat_map_arity(stored: &StoredFlat) -> u8 {
        stored.arity
    }

    fn zip_arity(stored: &StoredZip) -> u8 {
        stored.arity
    }

    fn test_arity(stored: &StoredTest) -> u8 {
        stored.arity
    }

    fn map(
        stored: &StoredMap,
        alloc: Global,
        value: &Value,
        arguments: &[Text],
    ) -> Result<Option<Value>, TransformFault> {
        (stored.run)(alloc, value, arguments)
    }

    fn flat_map(
        stored: &StoredFlat,
        alloc: Global,
        value: &Value,
        arguments: &[Text],
    ) -> Result<Option<Chosen>, TransformFault> {
        (stored.run)(alloc, value, arguments)
    }

    fn zip(
        stored: &StoredZip,
        alloc: Global,
        left: &Value,
        right: &Value,
        arguments: &[Text],
    ) -> Result<Value, TransformFault> {
        (stored.run)(alloc, left, right, arguments)
    }

    fn test(
        stored: &StoredTest,
        alloc: Global,
        value: &Value,
        arguments: &[Text],
    ) -> Result<bool, TransformFault> {
        (stored.run)(alloc, value, arguments)
    }
}
