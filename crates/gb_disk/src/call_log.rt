//! The calls of a folder on a disk, with their answers: they exist only in proofs.
ghost use Rattle.std.specs.Prelude.{◌≡◌, [], ◌∷◌, ◌++◌, List};
ghost use Rattle.std.specs.Borrow.{ftrue};
ghost use Rattle.gb_folder.specs.Calls.{Call};
ghost use Rattle.gb_disk.specs.Noted.{call_of};
ghost use Rattle.gb_disk.specs.Supposed.{Supposed};

use gb_core::place::Place;
use gb_folder::folder::FolderFault;
use std::marker::Model;

/// A call, and what it returned.
#[derive(Clone, Copy, Drop)]
pub(crate) enum Noted<'a> {
    /// The root.
    Lists(&'a Place, &'a Result<Vec<Place>, FolderFault>),
    /// The place, and the limit.
    Reads(&'a Place, u64, &'a Result<Vec<u8>, FolderFault>),
    /// The place, the first byte, and how many are wanted.
    ReadsPart(&'a Place, u64, u64, &'a Result<Vec<u8>, FolderFault>),
    /// The place, the bytes, and the limit.
    Writes(&'a Place, &'a [u8], u64, &'a Result<(), FolderFault>),
    /// The place.
    Removes(&'a Place, &'a Result<(), FolderFault>),
}

/// The calls so far, in order, and what is supposed of the folder. It takes no memory, and its
/// methods do nothing when they run.
#[derive(Drop)]
pub(crate) struct CallLog {
    ghost calls: { List Call },
    ghost supposed: { Supposed },
}

impl Model for CallLog {
    ghost also_owns = { λ _. ftrue };
}

impl CallLog {
    /// No call.
    pub(crate) fn new() -> CallLog
        ghost supposed: { Supposed }
        ensures { (result.calls ≡ []) × (result.supposed ≡ supposed) }
    {
        CallLog {}
    }

    /// These calls, and then this one.
    pub(crate) fn and(&self, _noted: &Noted<'_>) -> CallLog
        ensures { (result.calls ≡ self.now.calls ++ call_of _noted.now ∷ [])
            × (result.supposed ≡ self.now.supposed) }
    {
        CallLog {}
    }
}
