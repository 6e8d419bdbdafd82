//! Values by name.
ghost use Rattle.std.specs.Prelude.{◌≡◌, [], ◌∷◌, ◌++◌, ◌↔◌, None, OnOk, OnErr, IfOk, IsErrOf};
ghost use Rattle.std.specs.Prelude.{IsSome, true, map, string_bytes};
ghost use Rattle.std.specs.FinMap.Entries.{find};
ghost use Rattle.std.specs.Option.{option_copied};
ghost use Rattle.gb_core.specs.Lists.{byte_order, no_repeats};

use gb_core::name::Name;
use indexmap::IndexMap;
use std::alloc::{AllocError, AllocFailed, Global};
use std::marker::Model;
use thiserror::Error;

/// Why a value was not added.
#[derive(Clone, Copy, Debug, PartialEq, Eq, Error)]
pub enum AddFault {
    /// Another value has the name.
    #[error("the name is taken")]
    Taken,
    /// Not enough memory for the entry: the table is unchanged.
    #[error("out of memory")]
    OutOfMemory,
}

impl From<AllocError> for AddFault {
    ghost use Rattle.gb_table.specs.declared.table.AddFault.TheVariants.{OutOfMemory};

    ghost from_gives = { λ _ fault. fault ≡ OutOfMemory };

    fn from(_error: AllocError) -> AddFault {
        AddFault::OutOfMemory
    }
}

impl<T: Drop> From<AllocFailed<T>> for AddFault {
    ghost use Rattle.gb_table.specs.declared.table.AddFault.TheVariants.{OutOfMemory};

    ghost from_gives = { λ _ fault. fault ≡ OutOfMemory };

    fn from(_failed: AllocFailed<T>) -> AddFault {
        AddFault::OutOfMemory
    }
}

/// Values by name, in the order in which they were added.
#[derive(Drop)]
pub struct NamedTable<S> {
    alloc: Global,
    entries: IndexMap<String, S>,
}

impl<S> Model for NamedTable<S> {
    ghost use Rattle.std.specs.Prelude.{List, ℕ, map, string_bytes};

    ghost Value = { List (List ℕ × S) };

    ghost view = { λ t. map (λ e. (string_bytes e.0, e.1)) t.entries.entries };
}

impl<S: Drop> NamedTable<S> {
    /// The empty table.
    pub fn new(alloc: Global) -> NamedTable<S>
        ensures { result ≡ [] }
    {
        NamedTable {
            alloc,
            entries: IndexMap::new(alloc),
        }
    }

    /// Adds a value under a name that no other value has.
    pub fn add(&mut self, name: &Name, stored: S) -> Result<(), AddFault>
        ensures ok { OnOk result (self.new ≡ self.old ++ (name.now, stored) ∷ []) }
        ensures absent { OnOk result (find byte_order name.now self.old ≡ None) }
        ensures taken { IsErrOf result AddFault.Taken ↔ IsSome (find byte_order name.now self.old) }
        ensures err { OnErr result (self.new ≡ self.old) }
    {
        self.add_under(name.as_str(), stored)
    }

    /// The same under the text of a name, as [`NamedTable::into_entries`] returns it.
    pub fn add_under(&mut self, name: &str, stored: S) -> Result<(), AddFault>
        ensures ok { OnOk result (self.new ≡ self.old ++ (name.now, stored) ∷ []) }
        ensures absent { OnOk result (find byte_order name.now self.old ≡ None) }
        ensures taken { IsErrOf result AddFault.Taken ↔ IsSome (find byte_order name.now self.old) }
        ensures err { OnErr result (self.new ≡ self.old) }
    {
        if self.entries.contains_key(name) {
            return Err(AddFault::Taken);
        }
        let key = name.to_string(self.alloc)?;
        self.entries.insert(key, stored)?;
        Ok(())
    }

    /// The values with the texts of their names, in order.
    pub fn into_entries(self) -> Result<Vec<(String, S)>, AllocError>
        ensures { IfOk result (λ entries. map (λ e. (string_bytes e.0, e.1)) entries.items ≡ self) }
    {
        let NamedTable { alloc, entries } = self;
        let mut named = Vec::with_capacity(alloc, entries.len())?;
        for entry in entries {
            named.push(entry)?;
        }
        Ok(named)
    }

    /// No two entries share a name. This is a fact for the caller; nothing happens at run time.
    pub fn names_are_unique(&self)
        ensures { no_repeats (map (λ entry. entry.0) self.now) ≡ true }
    {
        let _count = self.entries.len();
    }

    /// The value of the name. Allocates no memory.
    pub fn find(&self, name: &str) -> Option<&S>
        ensures { option_copied result ≡ find byte_order name.now self.now }
    {
        self.entries.get(name)
    }
}
