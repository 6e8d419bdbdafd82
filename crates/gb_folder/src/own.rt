//! The tool's own folder, in which it stores its state.
ghost use Rattle.std.specs.Prelude.{◌≡◌};
ghost use Rattle.gb_folder.specs.Files.{is_own};

use gb_core::place::{Place, lies_beneath};

/// Whether the place is the tool's own folder, or under it.
pub fn is_own(place: &Place) -> bool
    ensures { result ≡ is_own place.now }
{
    place.as_str() == ".gb" || lies_beneath(place.as_str().as_bytes(), b".gb")
}
