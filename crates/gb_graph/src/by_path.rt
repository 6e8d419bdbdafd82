//! Numbers of tasks by their paths.
ghost use Rattle.std.specs.Prelude.{◌≡◌, [], ℕ, List, Some, OnOk, bytes_eq, if◌then◌else◌};
ghost use Rattle.gb_graph.specs.Ranked.{number_at};

use gb_core::path::TaskPath;
use indexmap::IndexMap;
use std::alloc::{AllocError, Global};
use std::marker::Model;

/// Numbers by borrowed paths.
#[derive(Drop)]
pub struct Numbers<'a> {
    entries: IndexMap<&'a str, usize>,
}

impl<'a> Model for Numbers<'a> {
    ghost use Rattle.std.specs.Prelude.{List, ℕ, map};

    ghost Value = { List (List ℕ × ℕ) };

    ghost view = { λ n. map (λ e. (e.0.now, e.1)) n.entries.entries };
}

impl<'a> Numbers<'a> {
    /// No numbers yet.
    pub fn new(alloc: Global) -> Numbers<'a>
        ensures { result ≡ [] }
    {
        Numbers {
            entries: IndexMap::new(alloc),
        }
    }

    /// Gives a path its number.
    pub fn insert(&mut self, path: &'a TaskPath, number: usize) -> Result<(), AllocError>
        ensures { OnOk result ((other : List ℕ) → number_at self.new other
            ≡ (if bytes_eq path.now other then Some number else number_at self.old other)) }
    {
        self.entries.insert(path.as_str(), number)?;
        Ok(())
    }

    /// The number of a path. Takes no memory.
    pub fn get(&self, path: &TaskPath) -> Option<usize>
        ensures { result ≡ number_at self.now path.now }
    {
        self.entries.get(path.as_str()).copied()
    }
}
