//! The files of file properties.
ghost use Rattle.std.specs.Prelude.{◌≡◌, [], ◌∷◌, ◌++◌, OnOk, OnErr};
ghost use Rattle.std.specs.Option.{option_copied};
ghost use Rattle.std.specs.FinMap.Entries.{find};
ghost use Rattle.gb_core.specs.Lists.{byte_order};

use crate::files::Files;
use gb_core::name::Name;
use std::alloc::{AllocError, Global};
use std::marker::Model;

/// The files of a property by their relative paths, with its name.
#[derive(Drop)]
pub struct Snapshot {
    name: Name,
    files: Files,
}

impl Model for Snapshot {
    ghost use Rattle.std.specs.Prelude.{List, ℕ};

    ghost Value = { List ℕ × List (List ℕ × List ℕ) };

    ghost view = { λ s. (s.name, s.files) };
}

impl Snapshot {
    /// These files, under the name of their property.
    pub fn new(name: Name, files: Files) -> Snapshot
        ensures { result ≡ (name, files) }
    {
        Snapshot { name, files }
    }

    /// The name of the file property.
    pub fn name(&self) -> &Name
        ensures { result.now ≡ self.now.0 }
    {
        &self.name
    }

    /// Its files, by their paths from its roots.
    pub fn files(&self) -> &Files
        ensures { result.now ≡ self.now.1 }
    {
        &self.files
    }

    /// Its files, moved without a copy.
    pub fn into_files(self) -> Files
        ensures { result ≡ self.1 }
    {
        self.files
    }
}

/// The files of a task's file properties, in the order of their names.
#[derive(Drop)]
pub struct Snapshots {
    snapshots: Vec<Snapshot>,
}

impl Model for Snapshots {
    ghost use Rattle.std.specs.Prelude.{List, ℕ};

    ghost Value = { List (List ℕ × List (List ℕ × List ℕ)) };

    ghost view = { λ s. s.snapshots.items };
}

impl Snapshots {
    /// No property yet.
    pub fn new(alloc: Global) -> Snapshots
        ensures { result ≡ [] }
    {
        Snapshots {
            snapshots: Vec::new(alloc),
        }
    }

    /// Adds the files of a property after the others.
    pub fn push(&mut self, snapshot: Snapshot) -> Result<(), AllocError>
        ensures ok { OnOk result (self.new ≡ self.old ++ snapshot ∷ []) }
        ensures err { OnErr result (self.new ≡ self.old) }
    {
        self.snapshots.push(snapshot)?;
        Ok(())
    }

    /// The files of the first property of the name.
    pub fn get(&self, name: &Name) -> Option<&Files>
        ensures { option_copied result ≡ find byte_order name.now self.now }
    {
        for snapshot in self.snapshots.iter() {
            if snapshot.name() == name {
                return Some(snapshot.files());
            }
        }
        None
    }

    /// The properties in the order of their names.
    pub fn as_slice(&self) -> &[Snapshot]
        ensures { result.now ≡ self.now }
    {
        self.snapshots.as_slice()
    }
}
