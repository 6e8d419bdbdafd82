//! Values with several owners.
ghost use Rattle.std.specs.Prelude.{◌≡◌, IfOk};

use std::alloc::{AllocError, Global};
use std::marker::Model;
use std::rc::Rc;

/// A value with several owners, in place of copies of it.
#[derive(Drop)]
pub(crate) struct Shared<A> {
    owner: Rc<A>,
}

impl<A> Model for Shared<A> {
    ghost Value = { A };

    ghost view = { λ s. s.owner.value };
}

impl<A: Drop> Shared<A> {
    /// A value with one owner.
    pub fn new(alloc: Global, value: A) -> Result<Shared<A>, AllocError>
        ensures { IfOk result (λ shared. shared ≡ value) }
    {
        match Rc::new(alloc, value) {
            Ok(owner) => Ok(Shared { owner }),
            Err(_) => Err(AllocError),
        }
    }

    /// One more owner of the value.
    pub fn share(&self) -> Result<Shared<A>, AllocError>
        ensures { IfOk result (λ shared. shared ≡ self.now) }
    {
        let owner = self.owner.clone()?;
        Ok(Shared { owner })
    }

    /// The value that all owners see.
    pub fn get(&self) -> &A
        ensures { result.now ≡ self.now }
    {
        self.owner.as_ref()
    }
}
