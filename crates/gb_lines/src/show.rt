//! The output for the files at and under a place.
ghost use Rattle.std.specs.Prelude.{◌≡◌, ◌++◌, IfOk, OnOk, string_bytes};
ghost use Rattle.gb_lines.specs.Texts.{closing, shown_file, shown_files};

use crate::stop::Stop;
use gb_core::place::Place;
use gb_folder::calls::{list, read};
use gb_folder::folder::Folder;
use std::alloc::{AllocError, Global};

/// The output for the files at and under the place.
pub fn shown_files<F: Folder>(alloc: Global, folder: &mut F, place: &Place) -> Result<Vec<u8>, Stop>
    ensures same { F.device.faithful folder.new → F.device.contents folder.new
        ≡ F.device.contents folder.old }
    ensures back { F.device.faithful folder.new → F.device.faithful folder.old }
    ensures shown { F.device.faithful folder.new → IfOk result (λ text.
        text.items ≡ shown_files (F.device.contents folder.old).files place.now) }
{
    let places = list(alloc, folder, place)?;
    if places.is_empty() {
        return Ok(b"== none\n".to_vec(alloc)?);
    }
    let mut text = Vec::new(alloc);
    for place in places.iter() {
        let bytes = read(alloc, folder, place, u64::MAX)?;
        push_file(alloc, &mut text, place, bytes.as_slice())?;
    }
    Ok(text)
}

fn push_file(
    alloc: Global,
    text: &mut Vec<u8>,
    place: &Place,
    bytes: &[u8],
) -> Result<(), AllocError>
    ensures { OnOk result (text.new.items ≡ text.old.items ++ shown_file place.now bytes.now) }
{
    let length = bytes.len();
    let head = format!(in alloc; "== {place} {length}\n")?;
    text.extend_from_slice(head.as_bytes())?;
    text.extend_from_slice(bytes)?;
    text.extend_from_slice(closing(bytes))?;
    Ok(())
}

/// The line feed that the last line lacks, if there is one.
fn closing(bytes: &[u8]) -> &'static [u8]
    ensures { result.now ≡ closing bytes.now }
{
    if bytes.is_empty() || bytes.ends_with(b"\n") {
        b""
    } else {
        b"\n"
    }
}
