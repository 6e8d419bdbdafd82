//! The front matter of a page, which precedes its text.
ghost use Rattle.std.specs.Prelude.{◌≡◌, ◌++◌, codes, IfOk};
ghost use Rattle.std.specs.Option.{option_copied, option_map};
ghost use Rattle.gb_pages.specs.FrontMatter.{body, first_line, front_matter, halves, heading};
ghost use Rattle.gb_pages.specs.FrontMatter.{title_of, up_to, value_of};

use bstr::ByteSlice;
use std::alloc::{AllocError, Global};

/// The front matter of a text, each line of it after a line feed, and the text after it.
pub fn halves(text: &[u8]) -> Option<(&[u8], &[u8])>
    ensures { option_map (λ half. (half.0.now, half.1.now)) result ≡ halves text.now }
{
    if text.starts_with(b"---\n") {
        let rest = &text[3..];
        rest.split_once_str(b"\n---\n")
    } else {
        None
    }
}

/// The front matter of a text, or nothing.
pub fn front_matter(text: &[u8]) -> &[u8]
    ensures { result.now ≡ front_matter text.now }
{
    match halves(text) {
        Some((front, _)) => front,
        None => b"",
    }
}

/// A text without its front matter.
pub fn body(text: &[u8]) -> &[u8]
    ensures { result.now ≡ body text.now }
{
    match halves(text) {
        Some((_, rest)) => rest,
        None => text,
    }
}

/// The part before a sign, or the whole text.
pub(crate) fn up_to<'a>(text: &'a [u8], sign: &[u8]) -> &'a [u8]
    ensures { result.now ≡ up_to sign.now text.now }
{
    match text.split_once_str(sign) {
        Some((front, _)) => front,
        None => text,
    }
}

/// The first line of a text, without its line end.
pub(crate) fn first_line(text: &[u8]) -> &[u8]
    ensures { result.now ≡ first_line text.now }
{
    match text.split_once_str(b"\n") {
        Some((line, _)) => line,
        None => text,
    }
}

/// The value of a key of a front matter.
pub fn value_of<'a>(
    alloc: Global,
    key: &[u8],
    front: &'a [u8],
) -> Result<Option<&'a [u8]>, AllocError>
    ensures { IfOk result (λ value. option_copied value ≡ value_of key.now front.now) }
{
    let sign = sign(alloc, key)?;
    match front.split_once_str(sign.as_slice()) {
        Some((_, rest)) => Ok(Some(first_line(rest))),
        None => Ok(None),
    }
}

/// The text before the value of a key.
fn sign(alloc: Global, key: &[u8]) -> Result<Vec<u8>, AllocError>
    ensures { IfOk result (λ sign. sign.items ≡ codes "\n" ++ (key.now ++ codes ": ")) }
{
    let mut sign = Vec::new(alloc);
    sign.push(b'\n')?;
    sign.extend_from_slice(key)?;
    sign.extend_from_slice(b": ")?;
    Ok(sign)
}

/// The words of the heading with which a text begins.
pub fn heading(text: &[u8]) -> Option<&[u8]>
    ensures { option_copied result ≡ heading text.now }
{
    match text.strip_prefix(b"# ") {
        Some(rest) => Some(first_line(rest)),
        None => None,
    }
}

/// The title of a page: the one of its front matter, or else its heading, or else the name.
pub fn title_of<'a>(alloc: Global, text: &'a [u8], name: &'a [u8]) -> Result<&'a [u8], AllocError>
    ensures { IfOk result (λ title. title.now ≡ title_of text.now name.now) }
{
    match value_of(alloc, b"title", front_matter(text))? {
        Some(title) => Ok(title),
        None => Ok(heading(body(text)).unwrap_or(name)),
    }
}
