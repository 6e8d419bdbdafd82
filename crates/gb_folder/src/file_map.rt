//! Files in memory by the text of their places; one file may be at an ancestor folder of another.
ghost use Rattle.std.specs.Prelude.{◌≡◌, [], length, IsTrue, IfOk, OnOk, OnErr};
ghost use Rattle.std.specs.FinMap.Entries.{is_sorted};
ghost use Rattle.gb_core.specs.Lists.{byte_order};
ghost use Rattle.gb_folder.specs.Files.{are_placed, is_blocked, places_under, with_file};
ghost use Rattle.gb_folder.specs.Memory.{files_of};

use crate::memory::{held_under, is_held_blocked, put};
use gb_core::place::Place;
use std::alloc::{AllocError, Global};
use std::collections::BTreeMap;
use std::marker::Model;

/// Files by the bytes of their places. Unlike in a folder, any text can be a place, and one file
/// may be in the way of another.
#[derive(Drop)]
pub struct FileMap {
    alloc: Global,
    held: BTreeMap<String, Vec<u8>>,
    ghost sorted: { IsTrue (is_sorted byte_order (files_of held)) },
}

impl Model for FileMap {
    ghost use Rattle.gb_folder.specs.Files.{Files};
    ghost use Rattle.gb_folder.specs.Memory.{files_of};

    ghost Value = { Files };

    ghost view = { λ m. files_of m.held };
}

impl FileMap {
    /// The empty map.
    pub fn new(alloc: Global) -> FileMap
        ensures { result ≡ [] }
    {
        FileMap {
            alloc,
            held: BTreeMap::new(alloc),
        }
    }

    /// The number of files.
    pub fn len(&self) -> usize
        ensures { result ≡ length self.now }
    {
        self.held.len()
    }

    /// Stores a file, and replaces the file at its place, if there is one.
    pub fn put(&mut self, text: &str, bytes: &[u8]) -> Result<(), AllocError>
        ensures ok { OnOk result (self.new ≡ with_file self.old text.now bytes.now) }
        ensures err { OnErr result (self.new ≡ self.old) }
    {
        put(self.alloc, &mut self.held, text, bytes)
    }

    /// Whether a file is at an ancestor folder of the place, or under the place.
    pub fn is_blocked(&self, place: &Place) -> Result<bool, AllocError>
        ensures { IfOk result (λ blocked. blocked ≡ is_blocked self.now place.now) }
    {
        is_held_blocked(self.alloc, &self.held, place)
    }

    /// The places of the files at or under the root, in byte order.
    pub fn list_under(&self, alloc: Global, root: &Place) -> Result<Vec<Place>, AllocError>
        requires { IsTrue (are_placed self.now) }
        ensures { IfOk result (λ places. places.items ≡ places_under self.now root.now) }
    {
        held_under(alloc, &self.held, root)
    }
}
