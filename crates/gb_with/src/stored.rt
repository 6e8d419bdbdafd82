//! Stored actions of a program's own kinds.
ghost use Rattle.std.specs.Prelude.{◌≡◌, ◌≤◌, IfOk};

use gb_action::shape::Shape;
use std::alloc::{AllocError, Global};
use std::marker::{Model, PhantomData};

/// The signature of a kind's calls.
pub trait Call: Drop {
    ghost use Rattle.std.specs.Prelude.{◌≡◌, IfOk};
    ghost use Rattle.gb_action.specs.declared.shape.Shape.{Shape as Looks};

    /// The signature, as contracts see it.
    ghost shape: { Looks };

    /// The requirements on a call of the kind.
    fn shape(alloc: Global) -> Result<Shape, AllocError>
        ensures { IfOk result (λ made. made ≡ shape) };
}

/// An action of a program's own kind. Contracts see its version.
#[derive(Drop)]
pub struct OwnAction<C: Call> {
    version: u32,
    shape: Shape,
    of: PhantomData<C>,
}

impl<C: Call> Model for OwnAction<C> {
    ghost use Rattle.std.specs.Prelude.{◌≡◌, ◌≤◌, ℕ};

    ghost Value = { ℕ };

    ghost view = { λ action. action.version };

    ghost invariant = { λ action. (action.shape ≡ C.shape) × (1 ≤ action.version) };
}

impl<C: Call> OwnAction<C> {
    /// The action, in a version of its kind: 1, and one more each time that the kind changes what
    /// it makes of the same input, since outputs of another version are made again.
    pub fn new(alloc: Global, version: u32) -> Result<OwnAction<C>, AllocError>
        requires { 1 ≤ version }
        ensures { IfOk result (λ action. action ≡ version) }
    {
        let shape = C::shape(alloc)?;
        Ok(OwnAction {
            version,
            shape,
            of: PhantomData,
        })
    }

    /// The requirements on a call of its kind.
    pub fn shape(&self) -> &Shape
        ensures { result.now ≡ C.shape }
    {
        &self.shape
    }

    /// The version that it was stored with.
    pub fn version(&self) -> u32
        ensures value { result ≡ self.now }
        ensures positive { 1 ≤ result }
    {
        self.version
    }
}
