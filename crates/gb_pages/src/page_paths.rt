//! Paths of pages.
ghost use Rattle.std.specs.Prelude.{◌≡◌, IfOk};
ghost use Rattle.std.specs.Option.{option_copied};
ghost use Rattle.gb_pages.specs.Paths.{as_path, front, stem, page_path};

use gb_core::place::{PlaceFault, RelPath};
use std::alloc::{AllocError, Global};
use std::str;

/// The text before `.md`.
pub fn stem(path: &[u8]) -> Option<&[u8]>
    ensures { option_copied result ≡ stem path.now }
{
    path.strip_suffix(b".md")
}

/// The same, or the text before `.markdown`.
pub fn front(path: &[u8]) -> Option<&[u8]>
    ensures { option_copied result ≡ front path.now }
{
    match stem(path) {
        Some(text) => Some(text),
        None => path.strip_suffix(b".markdown"),
    }
}

/// The path of a text's page, from the part of the text's path before `.md`.
pub fn page_path(alloc: Global, front: Option<&[u8]>) -> Result<Option<RelPath>, AllocError>
    ensures { IfOk result (λ path. path ≡ page_path (option_copied front.entry)) }
{
    let Some(front) = front else {
        return Ok(None);
    };
    let mut bytes = front.to_vec(alloc)?;
    bytes.extend_from_slice(b".html")?;
    as_path(alloc, bytes.as_slice())
}

/// The path that these bytes form, if they form one.
pub fn as_path(alloc: Global, bytes: &[u8]) -> Result<Option<RelPath>, AllocError>
    ensures { IfOk result (λ path. path ≡ as_path bytes.now) }
{
    let Ok(text) = str::from_utf8(bytes) else {
        return Ok(None);
    };
    match RelPath::read(alloc, text) {
        Ok(path) => Ok(Some(path)),
        Err(PlaceFault::BadPlace) => Ok(None),
        Err(PlaceFault::OutOfMemory) => Err(AllocError),
    }
}
