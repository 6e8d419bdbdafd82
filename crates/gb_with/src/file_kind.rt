//! The traits that a program implements for a kind that makes a file from each file.
use gb_action::shape::ArgList;
use gb_action::values::Arguments;
use gb_core::place::RelPath;
use gb_kinds::edit::FileMaker;
use std::alloc::{AllocError, Global};

/// A kind that makes a file from each file of `src`, at the same path under `out`. A value of the
/// kind is made from the arguments of one call: it is made once a run, and then makes all files.
pub trait FileKind: FileMaker + Drop {
    ghost use Rattle.std.specs.Prelude.{◌≡◌, ℕ, List, true, IfOk};
    ghost use Rattle.gb_core.specs.declared.value.Value.{Value};
    ghost use Rattle.gb_action.specs.Shapes.{args_fit};
    ghost use Rattle.gb_action.specs.declared.shape.Parameter.{Parameter};

    /// The requirements on its arguments.
    ghost takes: { List Parameter };

    /// The result for its arguments and the bytes of a file.
    ghost makes: { List Value → List ℕ → List ℕ };

    /// The requirements on its arguments.
    fn takes(alloc: Global) -> Result<ArgList, AllocError>
        ensures { IfOk result (λ list. list ≡ takes) };

    /// The value that makes the files of a call with these arguments.
    fn of_call(alloc: Global, arguments: &Arguments) -> Result<Self, AllocError>
        requires { args_fit takes arguments.now ≡ true }
        ensures { IfOk result (λ maker. (bytes : List ℕ) → Self.edited maker bytes
            ≡ makes arguments.now bytes) };
}

/// A kind that makes a file from each file of `src`, at a path of its own under `out`.
pub trait Renaming: FileKind {
    ghost use Rattle.std.specs.Prelude.{◌≡◌, ℕ, List, Option, IfOk};

    /// The path of the file that is made from the file at a path, if one is made.
    ghost renamed: { List ℕ → Option (List ℕ) };

    /// The path of the file that is made from the file at this path, if one is made.
    fn renamed(alloc: Global, path: &RelPath) -> Result<Option<RelPath>, AllocError>
        ensures { IfOk result (λ new. new ≡ renamed path.now) };
}
