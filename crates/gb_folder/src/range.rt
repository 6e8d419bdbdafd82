//! The texts under a place, as a range of texts in byte order.
ghost use Rattle.std.specs.Prelude.{◌≡◌, ◌∷◌, ◌++◌, [], string_bytes, IfOk};

use gb_core::place::Place;
use std::alloc::{AllocError, Global};
use std::ops::Range;

/// The texts under a place: from `place/` on and less than `place0` (`0` is the byte after `/`).
pub fn inside(alloc: Global, place: &Place) -> Result<Range<String>, AllocError>
    ensures start { IfOk result (λ texts. string_bytes texts.start ≡ place.now ++ 47 ∷ []) }
    ensures end { IfOk result (λ texts. string_bytes texts.end ≡ place.now ++ 48 ∷ []) }
{
    let mut start = String::from_str(alloc, place.as_str())?;
    start.push('/')?;
    let mut end = String::from_str(alloc, place.as_str())?;
    end.push('0')?;
    Ok(start..end)
}
