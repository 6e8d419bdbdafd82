//! Whether a file property includes a place.
ghost use Rattle.std.specs.Prelude.{◌≡◌, ◌⊎◌, IfOk, IsTrue, false};
ghost use Rattle.gb_core.specs.Place.{is_place, is_under};
ghost use Rattle.gb_tree.specs.Property.{is_in, last_segment, lets_in, matches_any, relative_to};
ghost use Rattle.gb_query.specs.Membership.{takes_in, takes_in_from};

use gb_core::place::{Place, PlaceFault};
use gb_folder::own::is_own;
use gb_plan::task::FileProperty;
use gb_tree::pattern::Pattern;
use gb_tree::relative::text_from;
use std::alloc::{AllocError, Global};

/// Whether a file at the place belongs to the property. The file need not exist.
pub fn takes_in(alloc: Global, property: &FileProperty, place: &Place) -> Result<bool, AllocError>
    ensures { IfOk result (λ taken. taken ≡ takes_in property.now place.now) }
{
    for root in property.roots.as_slice() {
        if takes_in_from(alloc, property, place, root)? {
            return Ok(true);
        }
    }
    Ok(false)
}

/// Whether it belongs to the property by this root.
fn takes_in_from(
    alloc: Global,
    property: &FileProperty,
    place: &Place,
    root: &Place,
) -> Result<bool, AllocError>
    ensures { IfOk result (λ taken. taken ≡ takes_in_from property.now place.now root.now) }
{
    if !is_under(place, root) {
        return Ok(false);
    }
    let include = property.include.as_slice();
    let exclude = property.exclude.as_slice();
    is_in(alloc, include, exclude, root, place)
}

/// Whether a place is the root or lies under it.
pub(crate) fn is_under(place: &Place, root: &Place) -> bool
    ensures { result ≡ is_under place.now root.now }
{
    place == root || place.is_beneath(root)
}

fn is_in(
    alloc: Global,
    include: &[Pattern],
    exclude: &[Pattern],
    root: &Place,
    place: &Place,
) -> Result<bool, AllocError>
    requires { IsTrue (is_under place.now root.now) }
    ensures { IfOk result (λ within. within ≡ is_in include.now exclude.now root.now place.now) }
{
    if is_own(place) {
        return Ok(false);
    }
    let path = relative_to(alloc, root, place)?;
    Ok(lets_in(include, exclude, &path))
}

/// Whether the patterns include a file with this path from a root.
fn lets_in(include: &[Pattern], exclude: &[Pattern], path: &Place) -> bool
    ensures { result ≡ lets_in include.now exclude.now path.now }
{
    (include.is_empty() || matches_any(include, path)) && !matches_any(exclude, path)
}

fn matches_any(patterns: &[Pattern], path: &Place) -> bool
    ensures { result ≡ matches_any patterns.now path.now }
{
    patterns.iter().any(|pattern| pattern.matches(path))
}

/// The path of a place from a root, as patterns match it: for the root itself, the name of the
/// file.
fn relative_to(alloc: Global, root: &Place, place: &Place) -> Result<Place, AllocError>
    requires { IsTrue (is_under place.now root.now) }
    ensures { IfOk result (λ path. path ≡ relative_to root.now place.now) }
{
    if place == root {
        read_place(alloc, last_segment(place.as_str()))
    } else {
        read_place(alloc, text_from(root.as_str(), place.as_str()))
    }
}

fn read_place(alloc: Global, text: &str) -> Result<Place, AllocError>
    requires { IsTrue (is_place text.now) }
    ensures { IfOk result (λ place. place ≡ text.now) }
{
    match Place::read(alloc, text) {
        Ok(place) => Ok(place),
        Err(PlaceFault::OutOfMemory) => Err(AllocError),
        Err(PlaceFault::BadPlace) => unreachable!(),
    }
}

/// The last segment of a place.
fn last_segment(place: &str) -> &str
    requires { IsTrue (is_place place.now) }
    ensures name { result.now ≡ last_segment place.now }
    ensures good { IsTrue (is_place result.now) }
{
    match place.rsplit_once('/') {
        Some((_, last)) => last,
        None => place,
    }
}
