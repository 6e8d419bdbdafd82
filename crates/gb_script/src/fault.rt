//! Why a script could not be read.
use std::alloc::AllocError;
use thiserror::Error;

/// Why a script could not be read.
#[derive(Clone, Copy, Debug, PartialEq, Eq, Error)]
pub enum ScriptFault {
    /// Out of memory; 3.
    #[error("out of memory")]
    OutOfMemory,
    /// The line of the first token that no script has after those before it, or the last line if
    /// the text ends too early. Lines count from 1.
    #[error("syntax error in line {0}")]
    Syntax(u64),
    /// More than 1 MiB.
    #[error("too long")]
    TooLong,
    /// The line of a bracket inside 64 others, or of a step after 64 others.
    #[error("too deep in line {0}")]
    TooDeep(u64),
    /// Its bytes are not valid UTF-8.
    #[error("not UTF-8")]
    NotUtf8,
}

impl ScriptFault {
    ghost use Rattle.std.specs.Prelude.{◌≡◌};
    ghost use Rattle.gb_script.specs.Fault.{script_fault_number};

    /// The number under which the fault is reported to users.
    pub fn number(self) -> u16
        ensures { result ≡ script_fault_number self }
    {
        match self {
            ScriptFault::OutOfMemory => 3,
            ScriptFault::Syntax(_) => 20,
            ScriptFault::TooLong => 21,
            ScriptFault::TooDeep(_) => 22,
            ScriptFault::NotUtf8 => 23,
        }
    }
}

impl From<AllocError> for ScriptFault {
    ghost use Rattle.std.specs.Prelude.{◌≡◌};
    ghost use Rattle.gb_script.specs.declared.fault.ScriptFault.TheVariants.{OutOfMemory};

    ghost from_gives = { λ _ fault. fault ≡ OutOfMemory };

    fn from(_error: AllocError) -> ScriptFault {
        ScriptFault::OutOfMemory
    }
}
