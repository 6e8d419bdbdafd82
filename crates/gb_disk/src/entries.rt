//! The places of the entries of a folder, by their names.
ghost use Rattle.std.specs.Prelude.{◌≡◌, ℕ, List, IsTrue, IfOk, IfErr};
ghost use Rattle.std.specs.List.Sorted.{IsStrictlySortedBy};
ghost use Rattle.gb_core.specs.Lists.{byte_order};
ghost use Rattle.gb_core.specs.Place.{is_under};
ghost use Rattle.gb_disk.specs.Disk.{AllUnder, IsOfListing};

use gb_core::place::{Place, PlaceFault};
use gb_folder::folder::FolderFault;
use std::alloc::{AllocError, Global};
use std::str;

/// A list of this one place.
#[tactic(auto, using(crate::proofs::Descends::alone_under))]
pub(crate) fn only(alloc: Global, place: &Place) -> Result<Vec<Place>, AllocError>
    ensures { IfOk result (λ places. AllUnder place.now places.items) }
{
    let mut places = Vec::new(alloc);
    places.push(place.copy()?)?;
    Ok(places)
}

/// Whether a name is no entry: the folder itself, its parent, or what follows the last NUL.
fn is_passed_over(name: &[u8]) -> bool {
    name == b"".as_slice() || name == b".".as_slice() || name == b"..".as_slice()
}

/// The places of entries of a folder, by their names, each of which ends in a NUL.
pub fn places_in(alloc: Global, folder: &Place, names: &[u8]) -> Result<Vec<Place>, FolderFault>
    ensures under { (root : List ℕ) → IsTrue (is_under folder.now root)
        → IfOk result (λ places. AllUnder root places.items) }
    ensures err { IfErr result IsOfListing }
{
    let mut places = Vec::new(alloc);
    for name in names.split(|byte| *byte == 0) {
        if !is_passed_over(name) {
            places.push(place_in(alloc, folder, name)?)?;
        }
    }
    Ok(places)
}

/// The place of a name in a folder.
fn place_in(alloc: Global, folder: &Place, name: &[u8]) -> Result<Place, FolderFault>
    ensures under { (root : List ℕ) → IsTrue (is_under folder.now root)
        → IfOk result (λ place. IsTrue (is_under place root)) }
    ensures err { IfErr result IsOfListing }
{
    let Ok(name) = str::from_utf8(name) else {
        return Err(FolderFault::BadFileName);
    };
    match Place::join(alloc, Some(folder), name) {
        Ok(place) => Ok(place),
        Err(PlaceFault::BadPlace) => Err(FolderFault::BadFileName),
        Err(PlaceFault::OutOfMemory) => Err(FolderFault::OutOfMemory),
    }
}

/// The places in byte order, without duplicates.
pub(crate) fn in_order(places: Vec<Place>) -> Vec<Place>
    ensures under { (root : List ℕ) → AllUnder root places.items → AllUnder root result.items }
    ensures ordered { IsStrictlySortedBy byte_order result.items }
{
    let mut ordered = places;
    ordered.sort_unstable();
    ordered.dedup();
    ordered
}
