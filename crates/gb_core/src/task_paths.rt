//! Sets and lists of task paths.
ghost use Rattle.std.specs.Prelude.{◌≡◌, ◌↔◌, ℕ, [], take, IfOk, IsTrue, OnOk, OnErr};
ghost use Rattle.std.specs.BTreeSet.{insert_key};
ghost use Rattle.gb_core.specs.Lists.{byte_order};
ghost use Rattle.gb_core.specs.Tasks.{with_tasks};

use crate::path::TaskPath;
use crate::row::{Copies, Row};
use std::alloc::{AllocError, Global};
use std::collections::BTreeSet;
use std::collections::btree_set::Iter;
use std::marker::Model;

/// A set of tasks, ordered by the bytes of their paths.
#[derive(Drop)]
pub struct TaskPaths {
    paths: BTreeSet<TaskPath>,
}

impl Model for TaskPaths {
    ghost use Rattle.std.specs.Prelude.{List, ℕ};
    ghost use Rattle.std.specs.List.Sorted.{IsStrictlySortedBy};
    ghost use Rattle.gb_core.specs.Lists.{byte_order};

    ghost Value = { List (List ℕ) };

    ghost view = { λ t. t.paths.keys };

    ghost invariant = { λ t. IsStrictlySortedBy byte_order t.paths.keys };
}

impl TaskPaths {
    /// The empty set.
    pub fn new(alloc: Global) -> TaskPaths
        ensures { result ≡ [] }
    {
        TaskPaths {
            paths: BTreeSet::new(alloc),
        }
    }

    /// Adds a task if it is not in the set yet.
    pub fn insert(&mut self, task: TaskPath) -> Result<(), AllocError>
        ensures ok { OnOk result (self.new ≡ insert_key byte_order self.old task) }
        ensures err { OnErr result (self.new ≡ self.old) }
    {
        self.paths.insert(task)?;
        Ok(())
    }

    /// Adds these tasks in order; after an error some of them have been added.
    pub fn extend(&mut self, more: &TaskPaths) -> Result<(), AllocError>
        ensures ok { OnOk result (self.new ≡ with_tasks self.old more.now) }
        ensures err { OnErr result ((added : ℕ) × (self.new ≡ with_tasks self.old (take added more.now))) }
    {
        if self.paths.is_empty() {
            return self.paths.clone_from(&more.paths);
        }
        for task in &more.paths {
            self.insert(task.copy()?)?;
        }
        Ok(())
    }

    /// Whether the set is empty.
    pub fn is_empty(&self) -> bool
        ensures { IsTrue result ↔ (self.now ≡ []) }
    {
        self.paths.is_empty()
    }

    /// The tasks in order.
    pub fn iter(&self) -> Iter<'_, TaskPath>
        ensures { result ≡ self.now }
    {
        self.paths.iter()
    }

    /// Equal tasks.
    pub fn copy(&self, alloc: Global) -> Result<TaskPaths, AllocError>
        ensures { IfOk result (λ copied. copied ≡ self.now) }
    {
        let mut copied = TaskPaths::new(alloc);
        copied.paths.clone_from(&self.paths)?;
        Ok(copied)
    }
}

/// A list of tasks, in order.
pub type TaskList = Row<TaskPath>;

impl Copies for TaskPath {
    fn copied(&self, _alloc: Global) -> Result<TaskPath, AllocError> {
        self.copy()
    }
}
