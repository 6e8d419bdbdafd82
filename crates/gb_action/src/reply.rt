//! The reply of an action.
ghost use Rattle.std.specs.Prelude.{◌≡◌};

use gb_core::bytes::Bytes;
use gb_core::name::Name;
use gb_core::place::RelPath;
use gb_core::row::Row;
use gb_core::text::{Text, Texts};
use std::alloc::{AllocError, AllocFailed};
use thiserror::Error;

/// A file to write: the output, the path from its place (empty for the place itself), the bytes.
#[derive(Drop)]
pub struct Written {
    /// The name of an output of the task.
    pub output: Name,
    /// The path from the output's place, empty for the place itself.
    pub path: RelPath,
    /// All bytes of the file, which replaces what was there.
    pub bytes: Bytes,
}

/// Files to write, one after another: of two at one path the later counts.
pub type Writes = Row<Written>;

/// A path of an output.
#[derive(Drop)]
pub struct OutputPath {
    /// The name of an output of the task.
    pub output: Name,
    /// The path from the output's place, empty for the place itself.
    pub path: RelPath,
}

/// Files to remove, in the order of their removal.
pub type Removals = Row<OutputPath>;

/// Lines to print, without their line feeds.
pub type Lines = Texts;

/// What an action requests: first the removals, then the writes; and the lines that it prints.
#[derive(Drop)]
pub struct Reply {
    /// Files that are removed first, before any is written.
    pub removes: Removals,
    /// Files that are written then.
    pub writes: Writes,
    /// The printed lines.
    pub lines: Lines,
}

/// Why an action gave no reply.
#[derive(Debug, Drop, Error)]
pub enum ActionFault {
    /// Not enough memory for the reply; 3.
    #[error("out of memory")]
    OutOfMemory,
    /// The action itself failed, with this text.
    #[error("{0}")]
    ActionFailed(Text),
}

impl ActionFault {
    ghost use Rattle.gb_action.specs.Faults.{action_fault_number};

    /// The fault number that is reported to users.
    pub fn number(&self) -> u16
        ensures { result ≡ action_fault_number self.now }
    {
        match self {
            ActionFault::OutOfMemory => 3,
            ActionFault::ActionFailed(_) => 42,
        }
    }
}

impl From<AllocError> for ActionFault {
    ghost use Rattle.gb_action.specs.declared.reply.ActionFault.TheVariants.{OutOfMemory};

    ghost from_gives = { λ _ fault. fault ≡ OutOfMemory };

    fn from(_error: AllocError) -> ActionFault {
        ActionFault::OutOfMemory
    }
}

impl<T: Drop> From<AllocFailed<T>> for ActionFault {
    ghost use Rattle.gb_action.specs.declared.reply.ActionFault.TheVariants.{OutOfMemory};

    ghost from_gives = { λ _ fault. fault ≡ OutOfMemory };

    fn from(_failed: AllocFailed<T>) -> ActionFault {
        ActionFault::OutOfMemory
    }
}
