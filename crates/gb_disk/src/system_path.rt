//! The path of a place.
ghost use Rattle.std.specs.Prelude.{◌≡◌, OnOk, string_bytes};
ghost use Rattle.gb_disk.specs.Disk.{path_in};

use std::alloc::AllocError;

/// Sets the path to that of a place in a folder.
pub(crate) fn lead_to(path: &mut String, base: &str, place: &str) -> Result<(), AllocError>
    ensures { OnOk result (string_bytes path.new ≡ path_in base.now place.now) }
{
    path.clear();
    path.push_str(base)?;
    go_down(path, place)
}

/// Appends a segment to the path.
pub(crate) fn go_down(path: &mut String, segment: &str) -> Result<(), AllocError>
    ensures { OnOk result (string_bytes path.new ≡ path_in (string_bytes path.old) segment.now) }
{
    if !path.is_empty() && !segment.is_empty() {
        path.push('/')?;
    }
    path.push_str(segment)
}
