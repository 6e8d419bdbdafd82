//! The path of a place from a root at or above it.
ghost use Rattle.std.specs.Prelude.{◌≡◌, IsTrue, IfOk};
ghost use Rattle.gb_core.specs.Place.{is_place, is_under};
ghost use Rattle.gb_tree.specs.Tree.{path_from};

use gb_core::place::{PlaceFault, RelPath};
use gb_tree::relative::text_from;
use std::alloc::{AllocError, Global};

/// The path of a place from a root at or above it.
pub(crate) fn path_from(alloc: Global, root: &str, place: &str) -> Result<RelPath, AllocError>
    requires under { IsTrue (is_under place.now root.now) }
    requires placed { IsTrue (is_place place.now) }
    ensures { IfOk result (λ path. path ≡ path_from root.now place.now) }
{
    match RelPath::read(alloc, text_from(root, place)) {
        Ok(path) => Ok(path),
        Err(PlaceFault::OutOfMemory) => Err(AllocError),
        Err(PlaceFault::BadPlace) => unreachable!(),
    }
}
