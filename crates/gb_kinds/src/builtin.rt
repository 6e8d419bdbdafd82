//! The built-in kinds as an implementation of `Actions`, and their stored closures.
ghost use Rattle.std.specs.Prelude.{◌≡◌, ◌≤◌};
ghost use Rattle.gb_action.specs.Props.{Answers-prop};
ghost use Rattle.gb_action.specs.Replies.{Answers};
ghost use Rattle.gb_action.specs.Shapes.{IsAsked};
ghost use Rattle.gb_kinds.specs.Builtin.{builtin_shape, builtin_makes, builtin_prints, Implements};

use gb_action::actions::Actions;
use gb_action::reply::{ActionFault, Reply};
use gb_action::request::Request;
use gb_action::shape::Shape;
use std::alloc::Global;

/// The closure of an action.
pub type Run = Box<dyn Fn(Global, &Request) -> Result<Reply, ActionFault>>;

/// A closure, with the number, the version and the shape of the kind whose meaning it keeps.
#[derive(Drop)]
pub struct StoredAction {
    /// The number of the kind, which names its meaning.
    pub kind: u16,
    /// It increases when the kind changes what it makes.
    pub version: u32,
    /// The requirements on a call of the kind.
    pub shape: Shape,
    run: Run,
    /// A version is at least 1.
    pub ghost positive: { 1 ≤ version },
    /// The shape is that of the kind.
    pub ghost shaped: { shape ≡ builtin_shape kind },
    ghost callable: { (alloc : _) (request : _) → IsAsked (builtin_shape kind) request.now
        → Run.pre run alloc request },
    ghost keeps: { (alloc : _) (request : _) (answer : _) → Run.post run alloc request answer
        → Answers (builtin_makes kind) (builtin_prints kind)
        request.now answer } by { Prim.hlevel Answers-prop },
}

impl StoredAction {
    /// Stores a closure that implements the kind of this number, whose signature is `shape`. The
    /// numbers are those of [`shapes`](crate::shapes), and a version is at least 1. It takes no
    /// memory and cannot fail. The closure gets the allocator and one request, and is called for
    /// each run of a task with the action.
    pub fn new(kind: u16, version: u32, shape: Shape, run: Run) -> StoredAction
        requires positive { 1 ≤ version }
        requires shaped { shape ≡ builtin_shape kind }
        requires implements { Implements kind (Run.pre run) (Run.post run) }
        ensures kind { result.kind ≡ kind }
        ensures version { result.version ≡ version }
    {
        StoredAction {
            kind,
            version,
            shape,
            run,
        }
    }
}

/// The built-in kinds.
pub struct Builtin;

impl Actions for Builtin {
    type Stored = StoredAction;

    ghost meanings = { record {
      kind = λ stored. stored.kind;
      version = λ stored. stored.version;
      shape = builtin_shape;
      makes = builtin_makes;
      prints = builtin_prints;
    } };

    ghost use Rattle.gb_kinds.specs.Builtin.{kind_of};
    ghost use Rattle.gb_kinds.specs.Own.{writes_own};

    ghost own_output = { λ kind. writes_own (kind_of kind) };

    fn shape_of(stored: &StoredAction) -> &Shape {
        &stored.shape
    }

    fn version(stored: &StoredAction) -> u32 {
        stored.version
    }

    fn run(stored: &StoredAction, alloc: Global, request: &Request) -> Result<Reply, ActionFault> {
        (stored.run)(alloc, request)
    }
}
