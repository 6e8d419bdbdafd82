//! The actions of one task, in the order in which they run.
ghost use Rattle.std.specs.Prelude.{◌≡◌, [], ◌∷◌, ◌++◌, ◌↔◌, length, slice_get, IsTrue, OnOk, OnErr};
ghost use Rattle.std.specs.Option.{option_copied};
ghost use Rattle.std.specs.VecDeque.Iter.{deque_iter_rest};

use std::alloc::{AllocError, Global};
use std::collections::VecDeque;
use std::collections::vec_deque::Iter;
use std::marker::Model;

/// The actions of one task in order: that of its kind, with others before and after it.
#[derive(Drop)]
pub struct ActionList<T> {
    actions: VecDeque<T>,
}

impl<T> Model for ActionList<T> {
    ghost use Rattle.std.specs.Prelude.{List};

    ghost Value = { List T };

    ghost view = { λ l. l.actions.items };
}

impl<T: Drop> ActionList<T> {
    /// No action yet.
    pub fn new(alloc: Global) -> ActionList<T>
        ensures { result ≡ [] }
    {
        ActionList {
            actions: VecDeque::new(alloc),
        }
    }

    /// Adds the action of the task's kind after those added first; those added last follow later.
    pub fn set_main(&mut self, action: T) -> Result<(), AllocError>
        ensures ok { OnOk result (self.new ≡ self.old ++ action ∷ []) }
        ensures err { OnErr result (self.new ≡ self.old) }
    {
        self.do_last(action)
    }

    /// Adds an action before all others.
    pub fn do_first(&mut self, action: T) -> Result<(), AllocError>
        ensures ok { OnOk result (self.new ≡ action ∷ self.old) }
        ensures err { OnErr result (self.new ≡ self.old) }
    {
        self.actions.push_front(action)?;
        Ok(())
    }

    /// Adds an action after all others.
    pub fn do_last(&mut self, action: T) -> Result<(), AllocError>
        ensures ok { OnOk result (self.new ≡ self.old ++ action ∷ []) }
        ensures err { OnErr result (self.new ≡ self.old) }
    {
        self.actions.push_back(action)?;
        Ok(())
    }

    /// The number of actions.
    pub fn len(&self) -> usize
        ensures { result ≡ length self.now }
    {
        self.actions.len()
    }

    /// Whether the task has no action.
    pub fn is_empty(&self) -> bool
        ensures { IsTrue result ↔ (self.now ≡ []) }
    {
        self.actions.is_empty()
    }

    /// The action at an index, counted from 0.
    pub fn get(&self, index: usize) -> Option<&T>
        ensures { option_copied result ≡ slice_get self.now index }
    {
        self.actions.get(index)
    }

    /// The actions in order.
    pub fn iter(&self) -> Iter<'_, T>
        ensures { deque_iter_rest result ≡ self.now }
    {
        self.actions.iter()
    }
}
