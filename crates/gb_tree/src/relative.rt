//! The paths of places.
ghost use Rattle.std.specs.Prelude.{◌≡◌, ◌⊎◌, ◌∷◌, [], drop, ℕ, List, IsTrue, IfErr, IfOk};
ghost use Rattle.gb_core.specs.Place.{is_place, is_rel_path, is_under};
ghost use Rattle.gb_tree.specs.Tree.{path_from};
ghost use Rattle.gb_tree.specs.Property.{last_segment, path_of, relative_to};

use crate::fault::TreeFault;
use crate::property::Naming;
use gb_core::place::{Place, PlaceFault, RelPath};
use std::alloc::Global;

/// The path of a place from a root at or above it.
pub(crate) fn path_from(alloc: Global, root: &Place, place: &Place) -> Result<RelPath, TreeFault>
    requires { IsTrue (is_under place.now root.now) }
    ensures placed { IsTrue (is_place place.now) }
    ensures path { IfOk result (λ path. path ≡ path_from root.now place.now) }
    ensures err { IfErr result (λ fault. fault ≡ TreeFault.OutOfMemory) }
{
    read_path(alloc, text_from(root.as_str(), place.as_str()))
}

/// The path of a place in the tree of a property with such a root.
pub(crate) fn path_of(
    alloc: Global,
    naming: Naming,
    root: &Place,
    place: &Place,
) -> Result<RelPath, TreeFault>
    requires { IsTrue (is_under place.now root.now) }
    ensures path { IfOk result (λ path. path ≡ path_of naming root.now place.now) }
    ensures err { IfErr result (λ fault. fault ≡ TreeFault.OutOfMemory) }
{
    let path = match naming {
        Naming::Relative => relative_to(root.as_str(), place.as_str()),
        Naming::NameOnly => last_segment(place.as_str()),
    };
    read_path(alloc, path)
}

fn read_path(alloc: Global, text: &str) -> Result<RelPath, TreeFault>
    requires { IsTrue (is_rel_path text.now) }
    ensures path { IfOk result (λ path. path ≡ text.now) }
    ensures err { IfErr result (λ fault. fault ≡ TreeFault.OutOfMemory) }
{
    match RelPath::read(alloc, text) {
        Ok(path) => Ok(path),
        Err(PlaceFault::OutOfMemory) => Err(TreeFault::OutOfMemory),
        Err(PlaceFault::BadPlace) => unreachable!(),
    }
}

/// The text of the place that patterns are matched against.
pub(crate) fn relative_to<'a>(root: &str, place: &'a str) -> &'a str
    requires under { IsTrue (is_under place.now root.now) }
    requires placed { IsTrue (is_place place.now) }
    ensures path { result.now ≡ relative_to root.now place.now }
    ensures good { IsTrue (is_rel_path result.now) }
{
    if place == root {
        last_segment(place)
    } else {
        text_from(root, place)
    }
}

/// The last segment of a place.
pub(crate) fn last_segment(place: &str) -> &str
    requires { IsTrue (is_place place.now) }
    ensures path { result.now ≡ last_segment place.now }
    ensures good { IsTrue (is_rel_path result.now) }
{
    match place.rsplit_once('/') {
        Some((_, last)) => last,
        None => place,
    }
}

/// The text of the path of a place from a root at or above it, without a copy.
pub fn text_from<'a>(root: &str, place: &'a str) -> &'a str
    requires under { IsTrue (is_under place.now root.now) }
    requires placed { IsTrue (is_place place.now) }
    ensures path { result.now ≡ path_from root.now place.now }
    ensures good { IsTrue (is_rel_path result.now) }
{
    match place.strip_prefix(root) {
        Some(rest) => past_slash(rest),
        None => "",
    }
}

/// A text without its leading slash.
fn past_slash(text: &str) -> &str
    requires { (text.now ≡ []) ⊎ ((rest : List ℕ) × (text.now ≡ 47 ∷ rest)) }
    ensures { result.now ≡ drop 1 text.now }
{
    match text.strip_prefix('/') {
        Some(rest) => rest,
        None => "",
    }
}
