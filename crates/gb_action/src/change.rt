//! What changed in the trees of file properties.
ghost use Rattle.std.specs.Prelude.{◌≡◌};
ghost use Rattle.std.specs.Option.{option_copied};
ghost use Rattle.std.specs.FinMap.Entries.{find};
ghost use Rattle.gb_core.specs.Lists.{byte_order};

use gb_core::name::Name;
use gb_core::place::RelPath;
use gb_core::row::Row;

/// The change at a path of a tree.
#[derive(Drop)]
pub enum Change {
    /// A file that was not there before, by its path in the tree.
    Added(RelPath),
    /// A file whose bytes differ.
    Modified(RelPath),
    /// A file that no longer exists.
    Removed(RelPath),
}

/// The changes of one tree, in the byte order of the paths.
pub type ChangeList = Row<Change>;

/// The change lists of the incremental file properties, in the order of their names.
pub type ChangeLists = Row<(Name, ChangeList)>;

/// What changed in the incremental file properties: since the last run in an incremental request,
/// and compared with no files at all in a full one.
#[derive(Drop)]
pub struct InputChanges {
    /// Whether the lists are relative to the last run; if not, all files count as added.
    pub incremental: bool,
    /// One list for each incremental file property, an empty one too.
    pub lists: ChangeLists,
}

impl InputChanges {
    /// Whether the request is an incremental one; if not, everything is to be written from scratch.
    pub fn is_incremental(&self) -> bool
        ensures { result ≡ self.now.incremental }
    {
        self.incremental
    }

    /// The changes of a property; `None` if it is not incremental. Allocates no memory.
    pub fn of(&self, name: &Name) -> Option<&[Change]>
        ensures { option_copied result ≡ find byte_order name.now self.now.lists }
    {
        let changes = self.lists.get(name)?;
        Some(changes.as_slice())
    }
}
