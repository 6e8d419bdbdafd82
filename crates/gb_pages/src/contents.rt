//! The contents of a page.
ghost use Rattle.std.specs.Prelude.{◌≡◌, ◌++◌, codes, false, IfOk, OnOk};
ghost use Rattle.std.specs.Option.{option_map};
ghost use Rattle.gb_markdown.specs.Pieces.{written};
ghost use Rattle.gb_pages.specs.Contents.{contents, deeper, depth_after, fragment_link, heading_after};
ghost use Rattle.gb_pages.specs.Contents.{heading_in, item_begun, item_ended, item_of, items_of, list_begun};
ghost use Rattle.gb_pages.specs.Contents.{list_ended, lists_ended, untagged};
ghost use Rattle.gb_pages.specs.FrontMatter.{parts};
ghost use Rattle.gb_pages.specs.declared.contents.Depth.TheVariants as depths;

use crate::front_matter::up_to;
use bstr::ByteSlice;
use gb_markdown::rendered::{Element, close, link, open, text};
use std::alloc::{AllocError, Global};

/// The open lists of the contents.
#[derive(Clone, Copy)]
pub enum Depth {
    /// None.
    Nothing,
    /// The list of the headings of the second rank.
    Items,
    /// The list of the headings of the third rank, in an item of the other.
    Nested,
}

/// A list of links to the headings of the second and the third rank of a page.
pub(crate) fn contents(alloc: Global, page: &[u8]) -> Result<Vec<u8>, AllocError>
    ensures { IfOk result (λ list. list.items ≡ contents page.now) }
{
    let mut list = Vec::new(alloc);
    if let Some((_, rest)) = page.split_once_str(b"<h") {
        items(alloc, &mut list, rest)?;
    }
    Ok(list)
}

/// Writes the items of the parts between `<h`, and ends the lists.
fn items(alloc: Global, list: &mut Vec<u8>, page: &[u8]) -> Result<(), AllocError>
    ensures { OnOk result (list.new.items ≡ list.old.items
        ++ items_of depths.Nothing (parts (codes "<h") page.now)) }
{
    let mut deep = Depth::Nothing;
    for part in page.split_str(b"<h") {
        deep = item(alloc, list, deep, part)?;
    }
    end_lists(list, deep)
}

/// Writes the item of a heading, if one follows `<h`, and returns which lists are open then.
fn item(alloc: Global, list: &mut Vec<u8>, deep: Depth, part: &[u8]) -> Result<Depth, AllocError>
    ensures { IfOk result (λ after. (list.new.items ≡ list.old.items ++ item_of deep (heading_in part.now))
        × (after ≡ depth_after deep (heading_in part.now))) }
{
    let Some((nested, id, words)) = heading_in(part) else {
        return Ok(deep);
    };
    begin_item(list, nested, deep)?;
    fragment_link(alloc, list, id, words)?;
    Ok(deeper(nested, deep))
}

/// Whether a heading of the third rank follows `<h`, or one of the second; its id, and its words
/// with tags.
fn heading_in(part: &[u8]) -> Option<(bool, &[u8], &[u8])>
    ensures { option_map (λ found. (found.0, found.1.now, found.2.now)) result ≡ heading_in part.now }
{
    match heading_after(part, b"2 id=\"") {
        Some((id, words)) => Some((false, id, words)),
        None => match heading_after(part, b"3 id=\"") {
            Some((id, words)) => Some((true, id, words)),
            None => None,
        },
    }
}

/// The id of a heading and its words with their tags, after the beginning of its tag.
fn heading_after<'a>(part: &'a [u8], sign: &[u8]) -> Option<(&'a [u8], &'a [u8])>
    ensures { option_map (λ found. (found.0.now, found.1.now)) result ≡ heading_after sign.now part.now }
{
    let rest = part.strip_prefix(sign)?;
    let (id, rest) = rest.split_once_str(b"\">")?;
    Some((id, up_to(rest, b"</h")))
}

/// Writes the link to a heading.
fn fragment_link(
    alloc: Global,
    list: &mut Vec<u8>,
    id: &[u8],
    words: &[u8],
) -> Result<(), AllocError>
    ensures { OnOk result (list.new.items ≡ list.old.items ++ fragment_link id.now words.now) }
{
    let mut address = Vec::new(alloc);
    address.push(b'#')?;
    address.extend_from_slice(id)?;
    link(list, address.as_slice(), b"")?;
    untagged(list, words)?;
    close(list, Element::Anchor)
}

/// Writes words without their tags.
fn untagged(list: &mut Vec<u8>, words: &[u8]) -> Result<(), AllocError>
    ensures { OnOk result (list.new.items ≡ list.old.items ++ untagged false words.now) }
{
    let mut inside = false;
    for byte in words {
        if *byte == b'<' {
            inside = true;
        } else if *byte == b'>' {
            inside = false;
        } else if !inside {
            list.push(*byte)?;
        }
    }
    Ok(())
}

/// Ends whatever is open before the item of a heading, and begins the item.
fn begin_item(list: &mut Vec<u8>, nested: bool, deep: Depth) -> Result<(), AllocError>
    ensures { OnOk result (list.new.items ≡ list.old.items ++ written (item_begun nested deep)) }
{
    match deep {
        Depth::Nothing => begin_list(list),
        Depth::Items => {
            if nested {
                text(list, b"\n")?;
                return begin_list(list);
            }
            next_item(list)
        }
        Depth::Nested => {
            if nested {
                return next_item(list);
            }
            close(list, Element::Item)?;
            text(list, b"\n")?;
            close(list, Element::Items)?;
            next_item(list)
        }
    }
}

/// Begins a list and its first item.
fn begin_list(list: &mut Vec<u8>) -> Result<(), AllocError>
    ensures { OnOk result (list.new.items ≡ list.old.items ++ written list_begun) }
{
    open(list, Element::Items)?;
    text(list, b"\n")?;
    open(list, Element::Item)
}

/// Ends an item, and begins the next.
fn next_item(list: &mut Vec<u8>) -> Result<(), AllocError>
    ensures { OnOk result (list.new.items ≡ list.old.items ++ written item_ended) }
{
    close(list, Element::Item)?;
    text(list, b"\n")?;
    open(list, Element::Item)
}

/// Which lists are open after the item of a heading.
fn deeper(nested: bool, deep: Depth) -> Depth
    ensures { result ≡ deeper nested deep }
{
    match deep {
        Depth::Nothing => Depth::Items,
        Depth::Items | Depth::Nested => { if nested { Depth::Nested } else { Depth::Items } }
    }
}

/// Ends the open lists.
fn end_lists(list: &mut Vec<u8>, deep: Depth) -> Result<(), AllocError>
    ensures { OnOk result (list.new.items ≡ list.old.items ++ written (lists_ended deep)) }
{
    match deep {
        Depth::Nothing => Ok(()),
        Depth::Items => end_list(list),
        Depth::Nested => {
            close(list, Element::Item)?;
            text(list, b"\n")?;
            close(list, Element::Items)?;
            end_list(list)
        }
    }
}

/// Ends an item and its list.
fn end_list(list: &mut Vec<u8>) -> Result<(), AllocError>
    ensures { OnOk result (list.new.items ≡ list.old.items ++ written list_ended) }
{
    close(list, Element::Item)?;
    text(list, b"\n")?;
    close(list, Element::Items)?;
    text(list, b"\n")
}
