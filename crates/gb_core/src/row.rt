//! Lists of items.
ghost use Rattle.std.specs.Prelude.{◌≡◌, [], ◌∷◌, ◌++◌, take, IfOk, OnOk, OnErr};
ghost use Rattle.std.specs.Option.{option_copied};
ghost use Rattle.std.specs.FinMap.Entries.{find};
ghost use Rattle.gb_core.specs.Lists.{byte_order};

use crate::name::Name;
use std::alloc::{AllocError, Global};
use std::marker::Model;

/// Items in a list, in order. Contracts view it as a list.
#[derive(Debug, Drop)]
pub struct Row<T> {
    items: Vec<T>,
}

impl<T> Model for Row<T> {
    ghost use Rattle.std.specs.Prelude.{List};

    ghost Value = { List T };

    ghost view = { λ r. r.items.items };
}

impl<T> Row<T> {
    /// The empty list.
    pub fn new(alloc: Global) -> Row<T>
        ensures { result ≡ [] }
    {
        Row {
            items: Vec::new(alloc),
        }
    }

    /// These items in order, moved without a copy.
    pub fn from_vec(items: Vec<T>) -> Row<T>
        ensures { result ≡ items.items }
    {
        Row { items }
    }

    /// All items in order, moved without a copy.
    pub fn into_vec(self) -> Vec<T>
        ensures { result.items ≡ self }
    {
        self.items
    }

    /// All items in order.
    pub fn as_slice(&self) -> &[T]
        ensures { result.now ≡ self.now }
    {
        self.items.as_slice()
    }
}

impl<T: Drop> Row<T> {
    /// Appends one item.
    pub fn push(&mut self, item: T) -> Result<(), AllocError>
        ensures ok { OnOk result (self.new ≡ self.old ++ item ∷ []) }
        ensures err { OnErr result (self.new ≡ self.old) }
    {
        self.items.push(item)?;
        Ok(())
    }

    /// Appends other items; on an error the list is unchanged.
    pub fn append(&mut self, other: Row<T>) -> Result<(), AllocError>
        ensures ok { OnOk result (self.new ≡ self.old ++ other) }
        ensures err { OnErr result (self.new ≡ self.old) }
    {
        let mut items = other.items;
        self.items.append(&mut items)?;
        Ok(())
    }
}

impl<T> Row<(Name, T)> {
    /// The first entry with this name. Allocates no memory.
    pub fn get(&self, name: &Name) -> Option<&T>
        ensures { option_copied result ≡ find byte_order name.now self.now }
    {
        find_named(self.items.as_slice(), name)
    }
}

/// The value of the first entry with this name.
fn find_named<'a, T>(entries: &'a [(Name, T)], name: &Name) -> Option<&'a T>
    ensures { option_copied result ≡ find byte_order name.now entries.now }
{
    for (found, value) in entries {
        if found == name {
            return Some(value);
        }
    }
    None
}

/// Values that can be copied if there is enough memory.
pub trait Copies: Sized {
    /// An equal value.
    fn copied(&self, alloc: Global) -> Result<Self, AllocError>
        ensures { IfOk result (λ made. made ≡ self.now) };
}

impl<T: Copies> Copies for (Name, T) {
    fn copied(&self, alloc: Global) -> Result<(Name, T), AllocError> {
        Ok((self.0.copy()?, self.1.copied(alloc)?))
    }
}

impl<T: Copies + Drop> Row<T> {
    /// Equal items in the same order.
    pub fn copy(&self, alloc: Global) -> Result<Row<T>, AllocError>
        ensures { IfOk result (λ made. made ≡ self.now) }
    {
        let mut made = Row::new(alloc);
        for item in self.items.iter() {
            made.push(item.copied(alloc)?)?;
        }
        Ok(made)
    }
}
