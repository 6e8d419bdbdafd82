//! Why a replay ends before its last line.
ghost use Rattle.std.specs.Prelude.{◌≡◌};

use gb_action::table::TableFault;
use gb_folder::folder::FolderFault;
use gb_provider::fault as provider;
use std::alloc::{AllocError, AllocFailed};
use std::io;
use thiserror::Error;

/// Why a replay ends before its last line.
#[derive(Clone, Copy, Debug, PartialEq, Eq, Error)]
pub enum Stop {
    /// The line of this number, counted from 1, is not valid; 0 where the input is too large.
    #[error("bad line {0}")]
    BadLine(u64),
    /// Reading, writing or the folder failed.
    #[error("device")]
    Device,
    /// No memory to continue.
    #[error("out of memory")]
    OutOfMemory,
}

impl From<AllocError> for Stop {
    ghost use Rattle.gb_lines.specs.declared.stop.Stop.TheVariants.{OutOfMemory};

    ghost from_gives = { λ _ stop. stop ≡ OutOfMemory };

    fn from(_error: AllocError) -> Stop {
        Stop::OutOfMemory
    }
}

impl<T: Drop> From<AllocFailed<T>> for Stop {
    ghost use Rattle.gb_lines.specs.declared.stop.Stop.TheVariants.{OutOfMemory};

    ghost from_gives = { λ _ stop. stop ≡ OutOfMemory };

    fn from(_error: AllocFailed<T>) -> Stop {
        Stop::OutOfMemory
    }
}

impl From<io::Error> for Stop {
    ghost use Rattle.gb_lines.specs.declared.stop.Stop.TheVariants.{Device};

    ghost from_gives = { λ _ stop. stop ≡ Device };

    fn from(_error: io::Error) -> Stop {
        Stop::Device
    }
}

impl From<TableFault> for Stop {
    ghost use Rattle.gb_lines.specs.declared.stop.Stop.TheVariants.{OutOfMemory};

    ghost from_gives = { λ _ stop. stop ≡ OutOfMemory };

    /// The table of the built-in actions is refused only for want of memory.
    fn from(_fault: TableFault) -> Stop {
        Stop::OutOfMemory
    }
}

impl From<provider::TableFault> for Stop {
    ghost use Rattle.gb_lines.specs.declared.stop.Stop.TheVariants.{OutOfMemory};

    ghost from_gives = { λ _ stop. stop ≡ OutOfMemory };

    /// The table of the functions of values is refused only for want of memory.
    fn from(_fault: provider::TableFault) -> Stop {
        Stop::OutOfMemory
    }
}

impl From<FolderFault> for Stop {
    fn from(fault: FolderFault) -> Stop {
        match fault {
            FolderFault::OutOfMemory => Stop::OutOfMemory,
            _ => Stop::Device,
        }
    }
}
