//! Why a text is not read as a record.
ghost use Rattle.std.specs.Prelude.{◌≡◌};
ghost use Rattle.gb_history.specs.Faults.{record_fault_number};
ghost use Rattle.gb_history.specs.declared.fault.RecordFault.TheVariants.{OutOfMemory};

use std::alloc::{AllocError, AllocFailed};
use thiserror::Error;

/// Why a text was not read as the record of a task.
#[derive(Clone, Copy, Debug, PartialEq, Eq, Error)]
pub enum RecordFault {
    /// No memory for what is read; 3.
    #[error("out of memory")]
    OutOfMemory,
    /// The text is no record of the task.
    #[error("no record")]
    NotARecord,
}

impl RecordFault {
    /// The number of the fault; 80 is never reported to users.
    pub fn number(self) -> u16
        ensures { result ≡ record_fault_number self }
    {
        match self {
            RecordFault::OutOfMemory => 3,
            RecordFault::NotARecord => 80,
        }
    }
}

impl From<AllocError> for RecordFault {
    ghost from_gives = { λ _ e. e ≡ OutOfMemory };

    fn from(_: AllocError) -> RecordFault {
        RecordFault::OutOfMemory
    }
}

impl<T: Drop> From<AllocFailed<T>> for RecordFault {
    ghost from_gives = { λ _ e. e ≡ OutOfMemory };

    fn from(_: AllocFailed<T>) -> RecordFault {
        RecordFault::OutOfMemory
    }
}
