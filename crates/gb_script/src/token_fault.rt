//! The fault at which reading tokens stops.
use std::alloc::{AllocError, AllocFailed};

/// The fault of a sequence of tokens, with the number of tokens that remain from there on.
#[derive(Clone, Copy)]
pub enum Fault {
    /// A token that no script has there.
    Stray(usize),
    /// A bracket inside as many others as may be open.
    Deep(usize),
}

/// Why reading tokens stopped.
#[derive(Drop)]
pub enum Stop {
    /// No memory for the result.
    Memory,
    /// The tokens have a fault.
    Fault(Fault),
}

impl From<AllocError> for Stop {
    ghost use Rattle.std.specs.Prelude.{◌≡◌};
    ghost use Rattle.gb_script.specs.declared.token_fault.Stop.TheVariants.{Memory};

    ghost from_gives = { λ _ stop. stop ≡ Memory };

    fn from(_error: AllocError) -> Stop {
        Stop::Memory
    }
}

impl<T: Drop> From<AllocFailed<T>> for Stop {
    ghost use Rattle.std.specs.Prelude.{◌≡◌};
    ghost use Rattle.gb_script.specs.declared.token_fault.Stop.TheVariants.{Memory};

    ghost from_gives = { λ _ stop. stop ≡ Memory };

    fn from(_error: AllocFailed<T>) -> Stop {
        Stop::Memory
    }
}
