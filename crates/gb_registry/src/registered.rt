//! Registered tasks.
ghost use Rattle.std.specs.Prelude.{◌≡◌, false, [], ◌∷◌, ◌++◌, length, position, bytes_eq, IfOk, OnOk, OnErr};
ghost use Rattle.gb_registry.specs.Projects.{is_among};

use crate::unique_texts::TextSet;
use gb_core::path::TaskPath;
use std::alloc::{AllocError, Global};
use std::marker::Model;

/// Tasks, each once, in the order in which they were registered.
#[derive(Drop)]
pub struct Tasks {
    paths: TextSet,
    list: Vec<TaskPath>,
}

impl Model for Tasks {
    ghost use Rattle.std.specs.Prelude.{◌≡◌, List, ℕ};

    ghost Value = { List (List ℕ) };

    ghost view = { λ t. t.paths };

    ghost invariant = { λ t. t.list.items ≡ t.paths };
}

impl Tasks {
    /// No tasks yet.
    pub fn new(alloc: Global) -> Tasks
        ensures { result ≡ [] }
    {
        Tasks {
            paths: TextSet::new(alloc),
            list: Vec::new(alloc),
        }
    }

    /// Whether the task is present. Takes no memory.
    pub fn contains(&self, path: &str) -> bool
        ensures { result ≡ is_among self.now path.now }
    {
        self.paths.contains(path)
    }

    /// How many tasks were registered before it, if it is present. Takes no memory.
    pub fn position(&self, path: &str) -> Option<usize>
        ensures { result ≡ position (bytes_eq path.now) self.now }
    {
        self.paths.position(path)
    }

    /// How many tasks are registered.
    pub fn len(&self) -> usize
        ensures { result ≡ length self.now }
    {
        self.paths.len()
    }

    /// Their paths in the order of registration.
    pub fn as_slice(&self) -> &[TaskPath]
        ensures { result.now ≡ self.now }
    {
        self.list.as_slice()
    }

    /// Their paths.
    pub fn paths(&self) -> &TextSet
        ensures { result.now ≡ self.now }
    {
        &self.paths
    }

    /// Adds a task that is not present.
    pub fn add(&mut self, path: TaskPath) -> Result<(), AllocError>
        requires { is_among self.old path ≡ false }
        ensures ok { OnOk result (self.new ≡ self.old ++ path ∷ []) }
        ensures err { OnErr result (self.new ≡ self.old) }
    {
        let text = path.copy()?;
        self.list.push(path)?;
        let added = self.paths.insert(text.as_str());
        if added.is_err() {
            self.list.pop();
        }
        added
    }
}
