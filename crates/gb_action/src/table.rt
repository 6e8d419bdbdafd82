//! The actions of a build by name.
ghost use Rattle.std.specs.Prelude.{◌≡◌, [], ◌∷◌, ◌++◌, ◌↔◌, None, Some, MatchResult, OnOk, OnErr, IfOk};
ghost use Rattle.std.specs.Prelude.{IsErrOf, IsSome, true, map, string_bytes};
ghost use Rattle.std.specs.FinMap.Entries.{find};
ghost use Rattle.gb_core.specs.Lists.{byte_order, no_repeats};

use gb_core::name::Name;
use gb_table::table::{AddFault, NamedTable};
use std::alloc::{AllocError, Global};
use std::marker::Model;
use thiserror::Error;

/// Why an action was not added.
#[derive(Clone, Copy, Debug, PartialEq, Eq, Error)]
pub enum TableFault {
    /// The name is taken.
    #[error("duplicate action")]
    DuplicateAction,
    /// Not enough memory for the entry: the table is unchanged; 3.
    #[error("out of memory")]
    OutOfMemory,
}

impl TableFault {
    ghost use Rattle.gb_action.specs.Faults.{table_fault_number};

    /// The fault number that is reported to users.
    pub fn number(self) -> u16
        ensures { result ≡ table_fault_number self }
    {
        match self {
            TableFault::DuplicateAction => 41,
            TableFault::OutOfMemory => 3,
        }
    }
}

impl From<AllocError> for TableFault {
    ghost use Rattle.gb_action.specs.declared.table.TableFault.TheVariants.{OutOfMemory};

    ghost from_gives = { λ _ fault. fault ≡ OutOfMemory };

    fn from(_error: AllocError) -> TableFault {
        TableFault::OutOfMemory
    }
}

impl From<AddFault> for TableFault {
    ghost use Rattle.std.specs.Prelude.{◌≡◌};
    ghost use Rattle.gb_action.specs.Faults.{reported_of};

    ghost from_gives = { λ fault reported. reported ≡ reported_of fault };

    fn from(fault: AddFault) -> TableFault {
        match fault {
            AddFault::Taken => TableFault::DuplicateAction,
            AddFault::OutOfMemory => TableFault::OutOfMemory,
        }
    }
}

/// No action has the name.
#[derive(Clone, Copy, Debug, PartialEq, Eq, Error)]
#[error("unknown action")]
pub struct UnknownAction;

impl UnknownAction {
    /// The fault number that is reported to users.
    pub fn number(self) -> u16
        ensures { result ≡ 40 }
    {
        40
    }
}

/// Stored actions by name, in the order of insertion.
#[derive(Drop)]
pub struct ActionTable<S> {
    entries: NamedTable<S>,
}

impl<S> Model for ActionTable<S> {
    ghost use Rattle.std.specs.Prelude.{List, ℕ};

    ghost Value = { List (List ℕ × S) };

    ghost view = { λ t. t.entries };
}

impl<S: Drop> ActionTable<S> {
    /// No action yet.
    pub fn new(alloc: Global) -> ActionTable<S>
        ensures { result ≡ [] }
    {
        ActionTable {
            entries: NamedTable::new(alloc),
        }
    }

    /// Adds an action under a name that no other action has.
    pub fn add(&mut self, name: &Name, stored: S) -> Result<(), TableFault>
        ensures ok { OnOk result (self.new ≡ self.old ++ (name.now, stored) ∷ []) }
        ensures absent { OnOk result (find byte_order name.now self.old ≡ None) }
        ensures duplicate { IsErrOf result TableFault.DuplicateAction ↔ IsSome (find byte_order
            name.now self.old) }
        ensures err { OnErr result (self.new ≡ self.old) }
    {
        self.add_under(name.as_str(), stored)
    }

    /// The same under the text of a name, as [`ActionTable::into_entries`] returns it.
    pub fn add_under(&mut self, name: &str, stored: S) -> Result<(), TableFault>
        ensures ok { OnOk result (self.new ≡ self.old ++ (name.now, stored) ∷ []) }
        ensures absent { OnOk result (find byte_order name.now self.old ≡ None) }
        ensures duplicate { IsErrOf result TableFault.DuplicateAction ↔ IsSome (find byte_order
            name.now self.old) }
        ensures err { OnErr result (self.new ≡ self.old) }
    {
        self.entries.add_under(name, stored)?;
        Ok(())
    }

    /// The actions with the texts of their names, in order.
    pub fn into_entries(self) -> Result<Vec<(String, S)>, AllocError>
        ensures { IfOk result (λ entries. map (λ e. (string_bytes e.0, e.1)) entries.items ≡ self) }
    {
        self.entries.into_entries()
    }

    /// No two actions share a name. This is a fact for the caller; nothing happens at run time.
    pub fn names_are_unique(&self)
        ensures { no_repeats (map (λ entry. entry.0) self.now) ≡ true }
    {
        self.entries.names_are_unique();
    }

    /// The action of the name. Allocates no memory.
    pub fn find(&self, name: &str) -> Result<&S, UnknownAction>
        ensures { MatchResult result (λ stored. find byte_order name.now self.now ≡ Some stored.now)
            (λ _. find byte_order name.now self.now ≡ None) }
    {
        match self.entries.find(name) {
            Some(stored) => Ok(stored),
            None => Err(UnknownAction),
        }
    }
}
