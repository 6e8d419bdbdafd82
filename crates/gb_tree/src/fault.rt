//! Why reading a tree fails.
ghost use Rattle.std.specs.Prelude.{◌≡◌, ◌⊎◌};
ghost use Rattle.gb_tree.specs.Tree.{tree_fault_at};

use gb_core::name::Name;
use gb_core::place::{Place, RelPath};
use gb_folder::folder::FolderFault;
use std::alloc::{AllocError, AllocFailed};
use std::fmt;
use thiserror::Error;

/// Why reading a tree fails, with the place of the fault or the name of what was read.
#[derive(Drop, Error)]
pub enum TreeFault {
    /// No memory for what is read; 3.
    #[error("out of memory")]
    OutOfMemory,
    /// The device failed there; 10.
    #[error("device {0}")]
    Device(Place),
    /// A file was listed that no longer exists.
    #[error("missing {0}")]
    Missing(Place),
    /// A file exists where a folder is needed, or the place is under a file; 12.
    #[error("blocked {0}")]
    Blocked(Place),
    /// It has more than 8 MiB.
    #[error("too large {0}")]
    TooLarge(Place),
    /// Something exists there, or under it, that no place can name.
    #[error("bad file name {0}")]
    BadFileName(Place),
    /// There are more than 65,536.
    #[error("too many files {0}")]
    TooManyFiles(Name),
    /// Two files would have this path, or one would be at a folder of it.
    #[error("duplicate input {0} {1}")]
    DuplicateInput(Name, RelPath),
}

/// `Debug` prints the same text as `Display`.
impl fmt::Debug for TreeFault {
    fn fmt<W: fmt::Write>(&self, f: &mut fmt::Formatter<W>) -> fmt::Result {
        fmt::Display::fmt(self, f)
    }
}

impl TreeFault {
    ghost use Rattle.gb_tree.specs.Faults.{tree_fault_number};

    /// The number under which the fault is reported to users.
    pub fn number(&self) -> u16
        ensures { result ≡ tree_fault_number self.now }
    {
        match self {
            TreeFault::OutOfMemory => 3,
            TreeFault::Device(_) => 10,
            TreeFault::Missing(_) => 11,
            TreeFault::Blocked(_) => 12,
            TreeFault::TooLarge(_) => 13,
            TreeFault::BadFileName(_) => 14,
            TreeFault::DuplicateInput(_, _) => 71,
            TreeFault::TooManyFiles(_) => 72,
        }
    }
}

impl From<AllocError> for TreeFault {
    ghost use Rattle.gb_tree.specs.declared.fault.TreeFault.TheVariants.{OutOfMemory};

    ghost from_gives = { λ _ fault. fault ≡ OutOfMemory };

    fn from(_error: AllocError) -> TreeFault {
        TreeFault::OutOfMemory
    }
}

impl<T: Drop> From<AllocFailed<T>> for TreeFault {
    ghost use Rattle.gb_tree.specs.declared.fault.TreeFault.TheVariants.{OutOfMemory};

    ghost from_gives = { λ _ fault. fault ≡ OutOfMemory };

    fn from(_error: AllocFailed<T>) -> TreeFault {
        TreeFault::OutOfMemory
    }
}

/// The fault at a place, or `OutOfMemory` where there is no memory to name the place.
pub(crate) fn fault_at(fault: FolderFault, place: &Place) -> TreeFault
    ensures { (result ≡ TreeFault.OutOfMemory) ⊎ (result ≡ tree_fault_at place.now fault) }
{
    match place.copy() {
        Ok(place) => fault_of(fault, place),
        Err(_) => TreeFault::OutOfMemory,
    }
}

fn fault_of(fault: FolderFault, place: Place) -> TreeFault
    ensures { result ≡ tree_fault_at place fault }
{
    match fault {
        FolderFault::OutOfMemory => TreeFault::OutOfMemory,
        FolderFault::Device => TreeFault::Device(place),
        FolderFault::Missing => TreeFault::Missing(place),
        FolderFault::Blocked => TreeFault::Blocked(place),
        FolderFault::TooLarge => TreeFault::TooLarge(place),
        FolderFault::BadFileName => TreeFault::BadFileName(place),
    }
}

/// Whether a file that was listed no longer existed when it was read.
pub(crate) fn is_gone<T>(reading: &Result<T, TreeFault>) -> bool {
    matches!(reading, Err(TreeFault::Missing(_)))
}
