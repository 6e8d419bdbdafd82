//! Files by relative path.
ghost use Rattle.std.specs.Prelude.{◌≡◌, ◌↔◌, [], length, OnOk, OnErr, IfOk, IsTrue};
ghost use Rattle.std.specs.Option.{option_copied};
ghost use Rattle.std.specs.List.Sorted.{IsBinarySearchResult, IsSearchInRange};
ghost use Rattle.std.specs.FinMap.Entries.{find, put, is_sorted};
ghost use Rattle.gb_core.specs.Lists.{byte_order};

use gb_core::bytes::Bytes;
use gb_core::place::RelPath;
use std::alloc::{AllocError, Global};
use std::marker::Model;

/// Files by relative path, strictly in the byte order of the paths.
#[derive(Drop)]
pub struct Files {
    entries: Vec<(RelPath, Bytes)>,
}

impl Model for Files {
    ghost use Rattle.std.specs.Prelude.{List, ℕ, IsTrue};
    ghost use Rattle.std.specs.FinMap.Entries.{is_sorted};
    ghost use Rattle.gb_core.specs.Lists.{byte_order};

    ghost Value = { List (List ℕ × List ℕ) };

    ghost view = { λ f. f.entries.items };

    ghost invariant = { λ f. IsTrue (is_sorted byte_order f.entries.items) };
}

impl Files {
    /// No file yet.
    pub fn new(alloc: Global) -> Files
        ensures { result ≡ [] }
    {
        Files {
            entries: Vec::new(alloc),
        }
    }

    /// The number of files.
    pub fn len(&self) -> usize
        ensures { result ≡ length self.now }
    {
        self.entries.len()
    }

    /// Whether there is no file.
    pub fn is_empty(&self) -> bool
        ensures { IsTrue result ↔ (self.now ≡ []) }
    {
        self.entries.is_empty()
    }

    /// The bytes at the path.
    pub fn get(&self, path: &RelPath) -> Option<&Bytes>
        ensures { option_copied result ≡ find byte_order path.now self.now }
    {
        let entries = self.entries.as_slice();
        match search(entries, path) {
            Ok(index) => Some(&entries[index].1),
            Err(_) => None,
        }
    }

    /// Stores the bytes at the path, and replaces what was there. Cheap for paths in order.
    pub fn insert(&mut self, path: RelPath, bytes: Bytes) -> Result<(), AllocError>
        ensures ok { OnOk result (self.new ≡ put byte_order path bytes self.old) }
        ensures err { OnErr result (self.new ≡ self.old) }
    {
        match search(self.entries.as_slice(), &path) {
            Ok(index) => self.entries[index] = (path, bytes),
            Err(index) => self.entries.insert(index, (path, bytes))?,
        }
        Ok(())
    }

    /// All files in order.
    pub fn as_slice(&self) -> &[(RelPath, Bytes)]
        ensures files { result.now ≡ self.now }
        ensures ordered { IsTrue (is_sorted byte_order self.now) }
    {
        self.entries.as_slice()
    }

    /// Equal files.
    pub fn copy(&self, alloc: Global) -> Result<Files, AllocError>
        ensures { IfOk result (λ copied. copied ≡ self.now) }
    {
        let mut entries = Vec::with_capacity(alloc, self.entries.len())?;
        for (path, bytes) in self.entries.iter() {
            entries.push((path.copy()?, bytes.copy()?))?;
        }
        Ok(Files { entries })
    }
}

/// The index of the path, or the index at which it would be inserted.
fn search(entries: &[(RelPath, Bytes)], path: &RelPath) -> Result<usize, usize>
    ensures within { IsSearchInRange result (length entries.now) }
    ensures position { IsBinarySearchResult (λ entry. byte_order entry.0 path.now) entries.now result }
{
    entries.binary_search_by(|entry| entry.0.cmp(path))
}
