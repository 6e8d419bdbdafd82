//! The functions of a build by name.
ghost use Rattle.std.specs.Prelude.{◌≡◌, [], ◌∷◌, ◌++◌, ◌↔◌, None, OnOk, OnErr, IfOk, IsErrOf, IsSome};
ghost use Rattle.std.specs.Prelude.{map, string_bytes};
ghost use Rattle.std.specs.FinMap.Entries.{find};
ghost use Rattle.std.specs.Option.{option_copied};
ghost use Rattle.gb_core.specs.Lists.{byte_order};
ghost use Rattle.gb_provider.specs.Table.{map_named, flat_map_named, zip_named, test_named};

use crate::fault::TableFault;
use gb_core::name::Name;
use gb_table::table::NamedTable;
use std::alloc::{AllocError, Global};
use std::marker::Model;

/// A stored function, by the step that uses it.
#[derive(Drop)]
pub enum Transform<M, F, Z, S> {
    /// For `map`: a value to a value.
    Map(M),
    /// For `flatMap`: a value to the output that is read in its place.
    FlatMap(F),
    /// For `zip`: two values to one.
    Zip(Z),
    /// For `onlyIf` and `upToDateWhen`: a value to a flag.
    Test(S),
}

/// Stored functions by name, as they were added. All uses share one namespace.
#[derive(Drop)]
pub struct TransformTable<M, F, Z, S> {
    entries: NamedTable<Transform<M, F, Z, S>>,
}

impl<M, F, Z, S> Model for TransformTable<M, F, Z, S> {
    ghost use Rattle.std.specs.Prelude.{List, ℕ};
    ghost use Rattle.gb_provider.specs.declared.table.Transform.{Transform};

    ghost Value = { List (List ℕ × Transform M F Z S) };

    ghost view = { λ t. t.entries };
}

impl<M: Drop, F: Drop, Z: Drop, S: Drop> TransformTable<M, F, Z, S> {
    /// No function yet.
    pub fn new(alloc: Global) -> Self
        ensures { result ≡ [] }
    {
        TransformTable {
            entries: NamedTable::new(alloc),
        }
    }

    /// Adds a function of `map` under a name that no other has.
    pub fn add_map(&mut self, name: &Name, stored: M) -> Result<(), TableFault>
        ensures ok { OnOk result (self.new ≡ self.old ++ (name.now, Transform.Map stored) ∷ []) }
        ensures absent { OnOk result (find byte_order name.now self.old ≡ None) }
        ensures duplicate { IsErrOf result TableFault.DuplicateTransform
            ↔ IsSome (find byte_order name.now self.old) }
        ensures err { OnErr result (self.new ≡ self.old) }
    {
        self.add_under(name.as_str(), Transform::Map(stored))
    }

    /// Adds a function of `flatMap` under a name that no other has.
    pub fn add_flat(&mut self, name: &Name, stored: F) -> Result<(), TableFault>
        ensures ok { OnOk result (self.new ≡ self.old ++ (name.now, Transform.FlatMap stored) ∷ []) }
        ensures absent { OnOk result (find byte_order name.now self.old ≡ None) }
        ensures duplicate { IsErrOf result TableFault.DuplicateTransform
            ↔ IsSome (find byte_order name.now self.old) }
        ensures err { OnErr result (self.new ≡ self.old) }
    {
        self.add_under(name.as_str(), Transform::FlatMap(stored))
    }

    /// Adds a function of `zip` under a name that no other has.
    pub fn add_zip(&mut self, name: &Name, stored: Z) -> Result<(), TableFault>
        ensures ok { OnOk result (self.new ≡ self.old ++ (name.now, Transform.Zip stored) ∷ []) }
        ensures absent { OnOk result (find byte_order name.now self.old ≡ None) }
        ensures duplicate { IsErrOf result TableFault.DuplicateTransform
            ↔ IsSome (find byte_order name.now self.old) }
        ensures err { OnErr result (self.new ≡ self.old) }
    {
        self.add_under(name.as_str(), Transform::Zip(stored))
    }

    /// Adds a test under a name that no other function has.
    pub fn add_test(&mut self, name: &Name, stored: S) -> Result<(), TableFault>
        ensures ok { OnOk result (self.new ≡ self.old ++ (name.now, Transform.Test stored) ∷ []) }
        ensures absent { OnOk result (find byte_order name.now self.old ≡ None) }
        ensures duplicate { IsErrOf result TableFault.DuplicateTransform
            ↔ IsSome (find byte_order name.now self.old) }
        ensures err { OnErr result (self.new ≡ self.old) }
    {
        self.add_under(name.as_str(), Transform::Test(stored))
    }

    /// Adds a function under the text of a name that no other has, as
    /// [`TransformTable::into_entries`] returns it.
    pub fn add_under(&mut self, name: &str, stored: Transform<M, F, Z, S>) -> Result<(), TableFault>
        ensures ok { OnOk result (self.new ≡ self.old ++ (name.now, stored) ∷ []) }
        ensures absent { OnOk result (find byte_order name.now self.old ≡ None) }
        ensures duplicate { IsErrOf result TableFault.DuplicateTransform
            ↔ IsSome (find byte_order name.now self.old) }
        ensures err { OnErr result (self.new ≡ self.old) }
    {
        self.entries.add_under(name, stored)?;
        Ok(())
    }

    /// The functions with the texts of their names, in order.
    pub fn into_entries(self) -> Result<Vec<(String, Transform<M, F, Z, S>)>, AllocError>
        ensures { IfOk result (λ entries. map (λ e. (string_bytes e.0, e.1)) entries.items ≡ self) }
    {
        self.entries.into_entries()
    }

    /// The `map` function with this name. Allocates nothing.
    pub fn find_map(&self, name: &str) -> Option<&M>
        ensures { option_copied result ≡ map_named self.now name.now }
    {
        match self.find(name) {
            Some(Transform::Map(stored)) => Some(stored),
            _ => None,
        }
    }

    /// The `flatMap` function with this name. Allocates nothing.
    pub fn find_flat(&self, name: &str) -> Option<&F>
        ensures { option_copied result ≡ flat_map_named self.now name.now }
    {
        match self.find(name) {
            Some(Transform::FlatMap(stored)) => Some(stored),
            _ => None,
        }
    }

    /// The `zip` function with this name. Allocates nothing.
    pub fn find_zip(&self, name: &str) -> Option<&Z>
        ensures { option_copied result ≡ zip_named self.now name.now }
    {
        match self.find(name) {
            Some(Transform::Zip(stored)) => Some(stored),
            _ => None,
        }
    }

    /// The test with this name. Allocates nothing.
    pub fn find_test(&self, name: &str) -> Option<&S>
        ensures { option_copied result ≡ test_named self.now name.now }
    {
        match self.find(name) {
            Some(Transform::Test(stored)) => Some(stored),
            _ => None,
        }
    }

    fn find(&self, name: &str) -> Option<&Transform<M, F, Z, S>>
        ensures { option_copied result ≡ find byte_order name.now self.now }
    {
        self.entries.find(name)
    }
}
