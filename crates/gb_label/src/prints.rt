//! The digests of what was read.
ghost use Rattle.std.specs.Prelude.{◌≡◌, IfOk};
ghost use Rattle.gb_label.specs.Reading.{prints_read};

use gb_tree::kept::Reading;
use gb_tree::prints::Prints;
use std::alloc::{AllocError, Global};

/// The digests that were taken as these were read.
pub fn prints_of(alloc: Global, readings: &[Reading]) -> Result<Vec<Prints>, AllocError>
    ensures { IfOk result (λ prints. prints.items ≡ prints_read readings.now) }
{
    let mut prints = Vec::with_capacity(alloc, readings.len())?;
    for reading in readings.iter() {
        prints.push(reading.prints(alloc)?)?;
    }
    Ok(prints)
}
