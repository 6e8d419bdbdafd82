//! A layout filled in for one page.
ghost use Rattle.std.specs.Prelude.{◌≡◌, ◌++◌, Ok, codes, false, unwrap_or, IfOk, OnOk, MatchResult};
ghost use Rattle.std.specs.Option.{option_copied, option_map};
ghost use Rattle.gb_pages.specs.FrontMatter.{cut, parts, title_of};
ghost use Rattle.gb_pages.specs.Layouts.{before, after_braces, ended, filled, laid_out_page, line_of};
ghost use Rattle.gb_pages.specs.Layouts.{replaced, root_of, shown, unknown, value_for};
ghost use Rattle.gb_markdown.specs.Pieces.{escaped};
ghost use Rattle.gb_pages.specs.Paths.{stem, token};
ghost use Rattle.gb_with.specs.TreeKinds.{IsFailure};

use crate::checked::line_of as line_at;
use crate::contents::contents;
use crate::front_matter::{front_matter, title_of, value_of};
use crate::page_paths::stem;
use bstr::ByteSlice;
use gb_action::reply::ActionFault;
use gb_core::bytes::Bytes;
use gb_core::place::RelPath;
use gb_core::text::Text;
use gb_markdown::rendered::text;
use std::alloc::{AllocError, Global};
use std::str;

/// A page that fills a layout.
#[derive(Clone, Copy)]
pub(crate) struct Page<'a> {
    /// Its path, which ends in `.md`.
    pub path: &'a RelPath,
    /// Its text, with its front matter.
    pub text: &'a [u8],
    /// The Markdown output of its text.
    pub html: &'a [u8],
    /// The link to the page before it, which may be empty.
    pub previous: &'a [u8],
    /// The link to the page after it, which may be empty.
    pub next: &'a [u8],
}

/// A page in the layout at a path.
pub(crate) fn laid_out_page(
    alloc: Global,
    at: &RelPath,
    layout: &[u8],
    page: &Page<'_>,
) -> Result<Bytes, ActionFault>
    ensures { let meant =
        laid_out_page at.now layout.now page.now.previous.now page.now.next.now page.now.path.now
        page.now.text.now page.now.html.now in
        MatchResult result (λ made. meant ≡ Ok made) (λ fault. IsFailure fault meant) }
{
    let mut made = Vec::new(alloc);
    match fill(alloc, &mut made, layout, page)? {
        None => Ok(Bytes::new(made)),
        Some(name) => {
            drop(made);
            let text = unknown(alloc, at, layout, page.path, name)?;
            Err(ActionFault::ActionFailed(text))
        }
    }
}

/// The message for a name that the layout has and the page does not.
fn unknown(
    alloc: Global,
    at: &RelPath,
    layout: &[u8],
    path: &RelPath,
    name: &[u8],
) -> Result<Text, AllocError>
    ensures { IfOk result (λ text. text ≡ unknown at.now layout.now path.now name.now) }
{
    let line = line_of_token(alloc, layout, name)?;
    let name = shown(name);
    Text::new(format!(in alloc; "{at}:{line}: {path} has no {name}")?)
}

/// A name or an address as it is printed.
pub(crate) fn shown(name: &[u8]) -> &str
    ensures { result.now ≡ shown name.now }
{
    match str::from_utf8(name) {
        Ok(name) => name,
        Err(_) => "(no text)",
    }
}

/// The line where a name occurs first in the layout.
fn line_of_token(alloc: Global, layout: &[u8], name: &[u8]) -> Result<usize, AllocError>
    ensures { IfOk result (λ line. line ≡ line_of (token name.now) layout.now) }
{
    let sign = token(alloc, name)?;
    Ok(line_of(sign.as_slice(), layout))
}

/// The name in its braces.
fn token(alloc: Global, name: &[u8]) -> Result<Vec<u8>, AllocError>
    ensures { IfOk result (λ sign. sign.items ≡ token name.now) }
{
    let mut sign = Vec::new(alloc);
    sign.extend_from_slice(b"{{")?;
    sign.extend_from_slice(name)?;
    sign.extend_from_slice(b"}}")?;
    Ok(sign)
}

/// The line where a sign occurs first.
pub(crate) fn line_of(sign: &[u8], text: &[u8]) -> usize
    ensures { result ≡ line_of sign.now text.now }
{
    line_at(text, text.find(sign).unwrap_or(0))
}

/// Fills a layout, up to the first name that the page does not have.
fn fill<'a>(
    alloc: Global,
    made: &mut Vec<u8>,
    layout: &'a [u8],
    page: &Page<'_>,
) -> Result<Option<&'a [u8]>, AllocError>
    ensures { let value = value_for page.now.previous.now page.now.next.now page.now.path.now
        page.now.text.now page.now.html.now in
        IfOk result (λ unknown.
        before (Ok made.old.items) (filled value false (parts (codes "{{") layout.now))
        ≡ ended made.new.items (option_copied unknown)) }
{
    let mut is_after = false;
    for part in layout.split_str(b"{{") {
        if is_after {
            let unknown = after_braces(alloc, made, part, page)?;
            if unknown.is_some() {
                return Ok(unknown);
            }
        } else {
            made.extend_from_slice(part)?;
        }
        is_after = true;
    }
    Ok(None)
}

/// Fills in a part of a layout after `{{`, unless the page does not have its name.
fn after_braces<'a>(
    alloc: Global,
    made: &mut Vec<u8>,
    part: &'a [u8],
    page: &Page<'_>,
) -> Result<Option<&'a [u8]>, AllocError>
    ensures { let value = value_for page.now.previous.now page.now.next.now page.now.path.now
        page.now.text.now page.now.html.now in
        IfOk result (λ unknown.
        before (Ok made.old.items) (after_braces value part.now (cut (codes "}}") part.now))
        ≡ ended made.new.items (option_copied unknown)) }
{
    let Some((name, rest)) = part.split_once_str(b"}}") else {
        made.extend_from_slice(b"{{")?;
        made.extend_from_slice(part)?;
        return Ok(None);
    };
    let Some(value) = value_for(alloc, page, name)? else {
        return Ok(Some(name));
    };
    append(made, value)?;
    made.extend_from_slice(rest)?;
    Ok(None)
}

/// Appends bytes to others.
fn append(made: &mut Vec<u8>, bytes: Vec<u8>) -> Result<(), AllocError>
    ensures { OnOk result (made.new.items ≡ made.old.items ++ bytes.items) }
{
    made.extend_from_slice(bytes.as_slice())?;
    Ok(())
}

/// The value of a name on a page.
fn value_for(alloc: Global, page: &Page<'_>, name: &[u8]) -> Result<Option<Vec<u8>>, AllocError>
    ensures { IfOk result (λ value. option_map (λ bytes. bytes.items) value
        ≡ value_for page.now.previous.now page.now.next.now page.now.path.now page.now.text.now
        page.now.html.now name.now) }
{
    if name == b"content".as_slice() {
        return Ok(Some(page.html.to_vec(alloc)?));
    }
    if name == b"contents".as_slice() {
        return Ok(Some(contents(alloc, page.html)?));
    }
    if name == b"previous".as_slice() {
        return Ok(Some(page.previous.to_vec(alloc)?));
    }
    if name == b"next".as_slice() {
        return Ok(Some(page.next.to_vec(alloc)?));
    }
    if name == b"root".as_slice() {
        return Ok(Some(root_of(alloc, page.path.as_str().as_bytes())?));
    }
    if name == b"title".as_slice() {
        return Ok(Some(title(alloc, page.path.as_str().as_bytes(), page.text)?));
    }
    match value_of(alloc, name, front_matter(page.text))? {
        Some(value) => Ok(Some(escaped(alloc, value)?)),
        None => Ok(None),
    }
}

/// The title of the page at a path, escaped for HTML.
fn title(alloc: Global, path: &[u8], text: &[u8]) -> Result<Vec<u8>, AllocError>
    ensures { IfOk result (λ title. title.items
        ≡ escaped (title_of text.now (unwrap_or (stem path.now) path.now))) }
{
    let title = title_of(alloc, text, stem(path).unwrap_or(path))?;
    escaped(alloc, title)
}

/// Bytes as an HTML text.
fn escaped(alloc: Global, bytes: &[u8]) -> Result<Vec<u8>, AllocError>
    ensures { IfOk result (λ made. made.items ≡ escaped bytes.now) }
{
    let mut made = Vec::new(alloc);
    text(&mut made, bytes)?;
    Ok(made)
}

/// The relative path from the page at a path to the folder of the site.
pub(crate) fn root_of(alloc: Global, path: &[u8]) -> Result<Vec<u8>, AllocError>
    ensures { IfOk result (λ root. root.items ≡ root_of path.now) }
{
    let mut root = Vec::new(alloc);
    for byte in path {
        if *byte == b'/' {
            root.extend_from_slice(b"../")?;
        }
    }
    Ok(root)
}
