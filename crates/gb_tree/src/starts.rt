//! Where the files of a property are looked for: under a root, for each of its includes, at the
//! folder before the first `*` or `?`.
ghost use Rattle.std.specs.Prelude.{◌≡◌, ◌++◌, [], ◌∷◌, ℕ, List, map, IsTrue, IfOk, IfErr, OnOk, bytes_eq};
ghost use Rattle.std.specs.List.{AllByRecursion, list_any};
ghost use Rattle.gb_core.specs.Place.{is_beneath, is_place};
ghost use Rattle.gb_tree.specs.Pattern.{prefix_of, plain_prefix};
ghost use Rattle.gb_tree.specs.Property.{distinct, outermost, start_of, starts_in, starts_of};
ghost use Rattle.gb_tree.specs.Starts.{HoldsPlaces};

use crate::fault::TreeFault;
use crate::pattern::Pattern;
use crate::relative::last_segment;
use crate::shortcut::has_wild;
use gb_core::place::{Place, PlaceFault};
use std::alloc::{AllocError, Global};
use std::collections::BTreeSet;

/// A root with each of the places under it at which files are listed.
pub(crate) fn starts_at(
    alloc: Global,
    include: &[Pattern],
    root: &Place,
) -> Result<Vec<(Place, Place)>, TreeFault>
    ensures starts { IfOk result (λ starts. starts.items ≡ starts_in include.now (root.now ∷ [])) }
    ensures err { IfErr result (λ fault. fault ≡ TreeFault.OutOfMemory) }
{
    let here = starts_of(alloc, include, root)?;
    let mut starts = Vec::with_capacity(alloc, here.len())?;
    add_starts(&mut starts, root, here.as_slice())?;
    Ok(starts)
}

fn add_starts(
    starts: &mut Vec<(Place, Place)>,
    root: &Place,
    here: &[Place],
) -> Result<(), AllocError>
    ensures { OnOk result
        (starts.new.items ≡ starts.old.items ++ map (λ start. (root.now, start)) here.now) }
{
    for start in here.iter() {
        starts.push((root.copy()?, start.copy()?))?;
    }
    Ok(())
}

/// The places under one root: the root itself, where nothing is included by name.
fn starts_of(alloc: Global, include: &[Pattern], root: &Place) -> Result<Vec<Place>, TreeFault>
    ensures starts { IfOk result (λ starts. starts.items ≡ starts_of include.now root.now) }
    ensures err { IfErr result (λ fault. fault ≡ TreeFault.OutOfMemory) }
{
    if include.is_empty() {
        let mut starts = Vec::new(alloc);
        starts.push(root.copy()?)?;
        return Ok(starts);
    }
    let starts = each_start(alloc, include, root)?;
    if starts.len() == 1 {
        return Ok(starts);
    }
    Ok(outermost(alloc, starts.as_slice())?)
}

/// The place of each include.
fn each_start(alloc: Global, include: &[Pattern], root: &Place) -> Result<Vec<Place>, TreeFault>
    ensures starts { IfOk result (λ starts. starts.items ≡ map (start_of root.now) include.now) }
    ensures err { IfErr result (λ fault. fault ≡ TreeFault.OutOfMemory) }
{
    let mut starts = Vec::new(alloc);
    for pattern in include.iter() {
        starts.push(start_of(alloc, root, pattern)?)?;
    }
    Ok(starts)
}

/// The place of one include. A root that is itself a file is matched by its name, and listed at its
/// own place.
fn start_of(alloc: Global, root: &Place, pattern: &Pattern) -> Result<Place, TreeFault>
    ensures start { IfOk result (λ start. start ≡ start_of root.now pattern.now) }
    ensures err { IfErr result (λ fault. fault ≡ TreeFault.OutOfMemory) }
{
    if pattern.matches_text(last_segment(root.as_str())) {
        return Ok(root.copy()?);
    }
    match Place::join(alloc, Some(root), prefix_of(pattern.as_str())) {
        Ok(start) => Ok(start),
        Err(PlaceFault::BadPlace) => Ok(root.copy()?),
        Err(PlaceFault::OutOfMemory) => Err(TreeFault::OutOfMemory),
    }
}

/// The folder before the first `*` or `?`; a pattern that has neither is its own front.
fn prefix_of(pattern: &str) -> &str
    ensures { result.now ≡ prefix_of pattern.now }
{
    if !has_wild(pattern) {
        return pattern;
    }
    match plain_prefix(pattern).rsplit_once('/') {
        Some((prefix, _)) => prefix,
        None => "",
    }
}

/// The text before the first `*` and before the first `?`.
fn plain_prefix(pattern: &str) -> &str
    ensures { result.now ≡ plain_prefix pattern.now }
{
    let prefix = match pattern.split_once('*') {
        Some((prefix, _)) => prefix,
        None => pattern,
    };
    match prefix.split_once('?') {
        Some((prefix, _)) => prefix,
        None => prefix,
    }
}

/// Those of the places that lie under no other, each once. They are looked up in a set, so that the
/// steps grow as n log n.
fn outermost(alloc: Global, places: &[Place]) -> Result<Vec<Place>, AllocError>
    ensures { IfOk result (λ kept. kept.items ≡ outermost places.now) }
{
    let once = distinct(alloc, places)?;
    let met = set_of(alloc, places)?;
    let mut kept = Vec::new(alloc);
    for place in once.iter() {
        if !lies_in_any(&met, place) {
            kept.push(place.copy()?)?;
        }
    }
    Ok(kept)
}

/// The places as a set.
fn set_of(alloc: Global, places: &[Place]) -> Result<BTreeSet<String>, AllocError>
    ensures { IfOk result (λ met. HoldsPlaces met places.now) }
{
    let mut met = BTreeSet::new(alloc);
    for place in places.iter() {
        met.insert(String::from_str(alloc, place.as_str())?)?;
    }
    Ok(met)
}

/// Whether the place lies under one of a set.
fn lies_in_any(met: &BTreeSet<String>, place: &Place) -> bool
    ensures { (places : List (List ℕ)) → HoldsPlaces met.now places
        → result ≡ list_any (is_beneath place.now) places }
{
    let mut rest = place.as_str();
    while let Some((folder, _)) = rest.rsplit_once('/') {
        if met.contains(folder) {
            return true;
        }
        rest = folder;
    }
    false
}

/// Each place once. A set holds the places passed so far, so that the steps grow as n log n.
pub(crate) fn distinct(alloc: Global, places: &[Place]) -> Result<Vec<Place>, AllocError>
    ensures { IfOk result (λ kept. kept.items ≡ distinct places.now) }
{
    let mut met = BTreeSet::new(alloc);
    let mut kept: Vec<Place> = Vec::new(alloc);
    for place in places.iter() {
        if met.insert(place.copy()?)? {
            kept.push(place.copy()?)?;
        }
    }
    Ok(kept)
}
