//! The trait that a program implements for a kind that makes a file from each file, or fails.

use gb_action::reply::ActionFault;
use gb_action::shape::ArgList;
use gb_action::values::Arguments;
use gb_core::bytes::Bytes;
use std::alloc::{AllocError, Global};

/// A kind that makes a file from each file of `src`, at the same path under `out`, or fails with a
/// text. The task then fails with the path of the first file that failed, `: ` and the text, and the
/// action writes nothing. A value of the kind is made from the arguments of one call: it is made once a
/// run, and then makes all files.
pub trait TryFileKind: Drop {
    ghost use Rattle.std.specs.Prelude.{◌≡◌, ℕ, List, Result, true, Ok, IfOk, MatchResult};
    ghost use Rattle.gb_core.specs.declared.value.Value.{Value};
    ghost use Rattle.gb_action.specs.Shapes.{args_fit};
    ghost use Rattle.gb_action.specs.declared.shape.Parameter.{Parameter};
    ghost use Rattle.gb_with.specs.TreeKinds.{IsFailure};

    /// The requirements on its arguments.
    ghost takes: { List Parameter };

    /// The result for its arguments and the bytes of a file, or the text with which it fails.
    ghost makes: { List Value → List ℕ → Result (List ℕ) (List ℕ) };

    /// The result of a value of it on the bytes of a file, or the text with which it fails.
    ghost tried: { Self → List ℕ → Result (List ℕ) (List ℕ) };

    /// The requirements on its arguments.
    fn takes(alloc: Global) -> Result<ArgList, AllocError>
        ensures { IfOk result (λ list. list ≡ takes) };

    /// The value that makes the files of a call with these arguments.
    fn of_call(alloc: Global, arguments: &Arguments) -> Result<Self, AllocError>
        requires { args_fit takes arguments.now ≡ true }
        ensures { IfOk result (λ maker. (bytes : List ℕ) → tried maker bytes ≡ makes arguments.now bytes) };

    /// Makes the bytes of a file from those of a file. A failure is `ActionFault::ActionFailed`,
    /// with a text that names no file.
    fn try_apply(&self, alloc: Global, bytes: &[u8]) -> Result<Bytes, ActionFault>
        ensures { MatchResult result
            (λ made. tried self.now bytes.now ≡ Ok made)
            (λ fault. IsFailure fault (tried self.now bytes.now)) };
}
