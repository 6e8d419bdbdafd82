//! Checks of pages: the kind `checkPages`.
ghost use Rattle.std.specs.Prelude.{◌≡◌, ◌≤◌, ◌+◌, ◌==◌, length, take, count_by, IfOk};
ghost use Rattle.gb_pages.specs.Checked.{first_wrong, has_title, is_unended, no_text, wrong, wrong_at};
ghost use Rattle.gb_pages.specs.Checked.{wrong_text};

use crate::front_matter::{body, front_matter, halves, heading, value_of};
use gb_action::shape::ArgList;
use gb_action::snapshot::Snapshots;
use gb_action::values::Arguments;
use gb_core::bytes::Bytes;
use gb_core::place::RelPath;
use gb_core::text::Text;
use gb_kinds::known_names::source_name;
use gb_with::tree_kind::CheckKind;
use std::alloc::{AllocError, Global};
use std::str;

/// The kind `checkPages`, without arguments: it fails with the path, the line and the error of the
/// first page that is not UTF-8 text, whose front matter has no end, or that has no title: it
/// neither begins with a heading nor has a `title` in its front matter.
#[derive(Drop)]
pub struct CheckPages;

impl CheckKind for CheckPages {
    ghost use Rattle.std.specs.Prelude.{[]};
    ghost use Rattle.gb_pages.specs.Checked.{wrong_in};

    ghost takes = { [] };

    ghost finds = { wrong_in };

    fn takes(alloc: Global) -> Result<ArgList, AllocError> {
        Ok(ArgList::new(alloc))
    }

    fn find(
        alloc: Global,
        _arguments: &Arguments,
        trees: &Snapshots,
    ) -> Result<Option<Text>, AllocError> {
        match trees.get(&source_name(alloc)?) {
            Some(files) => first_wrong(alloc, files.as_slice()),
            None => Ok(None),
        }
    }
}

/// The error of the first page that has one.
fn first_wrong(alloc: Global, files: &[(RelPath, Bytes)]) -> Result<Option<Text>, AllocError>
    ensures { IfOk result (λ found. found ≡ first_wrong files.now) }
{
    for (path, bytes) in files {
        let found = wrong_at(alloc, path, bytes.as_slice())?;
        if found.is_some() {
            return Ok(found);
        }
    }
    Ok(None)
}

/// The error of the page at the path.
fn wrong_at(alloc: Global, path: &RelPath, bytes: &[u8]) -> Result<Option<Text>, AllocError>
    ensures { IfOk result (λ found. found ≡ wrong_at path.now bytes.now) }
{
    match wrong(alloc, bytes)? {
        Some(text) => Ok(Some(Text::new(format!(in alloc; "{path}:{text}")?)?)),
        None => Ok(None),
    }
}

/// The error of a page, after its line.
fn wrong(alloc: Global, bytes: &[u8]) -> Result<Option<Text>, AllocError>
    ensures { IfOk result (λ found. found ≡ wrong bytes.now) }
{
    match str::from_utf8(bytes) {
        Ok(_) => wrong_text(alloc, bytes),
        Err(fault) => no_text(alloc, line_of(bytes, fault.valid_up_to())),
    }
}

/// The error of a text.
fn wrong_text(alloc: Global, bytes: &[u8]) -> Result<Option<Text>, AllocError>
    ensures { IfOk result (λ found. found ≡ wrong_text bytes.now) }
{
    if is_unended(bytes) {
        return Ok(Some(Text::from_str(alloc, "1: no end of the front matter")?));
    }
    if has_title(alloc, bytes)? {
        return Ok(None);
    }
    Ok(Some(Text::from_str(alloc, "1: no heading")?))
}

/// Whether front matter begins, but does not end.
fn is_unended(text: &[u8]) -> bool
    ensures { result ≡ is_unended text.now }
{
    text.starts_with(b"---\n") && halves(text).is_none()
}

/// Whether a page begins with a heading, or its front matter has a title.
fn has_title(alloc: Global, text: &[u8]) -> Result<bool, AllocError>
    ensures { IfOk result (λ has. has ≡ has_title text.now) }
{
    if heading(body(text)).is_some() {
        return Ok(true);
    }
    Ok(value_of(alloc, b"title", front_matter(text))?.is_some())
}

/// The message for bytes that are not text from a line on.
fn no_text(alloc: Global, line: usize) -> Result<Option<Text>, AllocError>
    ensures { IfOk result (λ found. found ≡ Some (no_text line)) }
{
    Ok(Some(Text::new(format!(in alloc; "{line}: not UTF-8")?)?))
}

/// The line of the byte at an index, counted from 1.
pub(crate) fn line_of(bytes: &[u8], index: usize) -> usize
    requires { index ≤ length bytes.now }
    ensures { result ≡ count_by (λ b. b == 10) (take index bytes.now) + 1 }
{
    bytes[..index].iter().filter(|byte| **byte == b'\n').count() + 1
}
