//! The traits that a program implements for a kind that works on all its files at once.
ghost use Rattle.std.specs.Prelude.{◌≡◌};
ghost use Rattle.gb_action.specs.Files.{tree_at};

use gb_action::reply::ActionFault;
use gb_action::shape::ArgList;
use gb_action::snapshot::Snapshots;
use gb_action::values::Arguments;
use gb_core::bytes::Bytes;
use gb_core::name::Name;
use gb_core::place::RelPath;
use gb_core::text::Text;
use std::alloc::{AllocError, Global};

/// A kind that makes files under `out` from all files of its task, or fails. It reads `src`, and
/// other properties of the task by their names. If anything changed it makes all of them; if the
/// properties that changed are incremental, only those are written that the output does not have
/// already.
pub trait TreeKind: Drop {
    ghost use Rattle.std.specs.Prelude.{◌≡◌, ℕ, List, Result, true, Ok, IfOk, MatchResult};
    ghost use Rattle.gb_core.specs.declared.value.Value.{Value};
    ghost use Rattle.gb_action.specs.Files.{Tree, Trees};
    ghost use Rattle.gb_action.specs.Shapes.{args_fit};
    ghost use Rattle.gb_action.specs.declared.shape.Parameter.{Parameter};
    ghost use Rattle.gb_with.specs.TreeKinds.{IsFailure};

    /// The requirements on its arguments.
    ghost takes: { List Parameter };

    /// The files that it makes, in the order in which they are written, or the text with which it
    /// fails.
    ghost makes: { List Value → Trees → Result Tree (List ℕ) };

    /// The requirements on its arguments.
    fn takes(alloc: Global) -> Result<ArgList, AllocError>
        ensures { IfOk result (λ list. list ≡ takes) };

    /// Makes them. Of two files at one path the later counts.
    fn make(
        alloc: Global,
        arguments: &Arguments,
        trees: &Snapshots,
    ) -> Result<Vec<(RelPath, Bytes)>, ActionFault>
        requires { args_fit takes arguments.now ≡ true }
        ensures { MatchResult result
            (λ made. makes arguments.now trees.now ≡ Ok made.items)
            (λ fault. IsFailure fault (makes arguments.now trees.now)) };
}

/// A kind that makes no file, and fails with a problem that it finds in the files of its task.
pub trait CheckKind: Drop {
    ghost use Rattle.std.specs.Prelude.{◌≡◌, ℕ, List, Option, true, IfOk};
    ghost use Rattle.gb_core.specs.declared.value.Value.{Value};
    ghost use Rattle.gb_action.specs.Files.{Trees};
    ghost use Rattle.gb_action.specs.Shapes.{args_fit};
    ghost use Rattle.gb_action.specs.declared.shape.Parameter.{Parameter};

    /// The requirements on its arguments.
    ghost takes: { List Parameter };

    /// The text with which it fails, if there is something to find.
    ghost finds: { List Value → Trees → Option (List ℕ) };

    /// The requirements on its arguments.
    fn takes(alloc: Global) -> Result<ArgList, AllocError>
        ensures { IfOk result (λ list. list ≡ takes) };

    /// Finds it.
    fn find(
        alloc: Global,
        arguments: &Arguments,
        trees: &Snapshots,
    ) -> Result<Option<Text>, AllocError>
        requires { args_fit takes arguments.now ≡ true }
        ensures { IfOk result (λ found. found ≡ finds arguments.now trees.now) };
}

/// All files of a property.
pub fn files_of<'a>(trees: &'a Snapshots, name: &Name) -> &'a [(RelPath, Bytes)]
    ensures { result.now ≡ tree_at trees.now name.now }
{
    match trees.get(name) {
        Some(files) => files.as_slice(),
        None => &[],
    }
}
