//! Why a record was not written or deleted.
ghost use Rattle.std.specs.Prelude.{◌≡◌};
ghost use Rattle.gb_records.specs.Faults.{reported_of, unwritten_for, unwritten_number};
ghost use Rattle.gb_records.specs.declared.fault.Unwritten.TheVariants.{OutOfMemory};

use gb_folder::folder::FolderFault;
use gb_report::fault::Fault;
use std::alloc::AllocError;
use thiserror::Error;

/// Why a record was not written or deleted.
#[derive(Clone, Copy, Debug, PartialEq, Eq, Error)]
pub enum Unwritten {
    /// No memory for its text; 3.
    #[error("out of memory")]
    OutOfMemory,
    /// The device failed, no file can be at its place, or its text is too long.
    #[error("history not written")]
    NotWritten,
}

impl Unwritten {
    /// The number under which the fault is reported to users.
    pub fn number(self) -> u16
        ensures { result ≡ unwritten_number self }
    {
        match self {
            Unwritten::OutOfMemory => 3,
            Unwritten::NotWritten => 90,
        }
    }

    /// The fault as a build reports it.
    pub fn fault(self) -> Fault
        ensures { result ≡ reported_of self }
    {
        match self {
            Unwritten::OutOfMemory => Fault::OutOfMemory,
            Unwritten::NotWritten => Fault::HistoryNotWritten,
        }
    }
}

/// A folder's fault at a record's place.
pub(crate) fn unwritten_by(fault: FolderFault) -> Unwritten
    ensures { result ≡ unwritten_for fault }
{
    match fault {
        FolderFault::OutOfMemory => Unwritten::OutOfMemory,
        FolderFault::Device
        | FolderFault::Missing
        | FolderFault::Blocked
        | FolderFault::TooLarge
        | FolderFault::BadFileName => Unwritten::NotWritten,
    }
}

impl From<AllocError> for Unwritten {
    ghost from_gives = { λ _ e. e ≡ OutOfMemory };

    fn from(_: AllocError) -> Unwritten {
        Unwritten::OutOfMemory
    }
}
