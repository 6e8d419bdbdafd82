//! The page that links to all pages: the kind `index`.
ghost use Rattle.std.specs.Prelude.{◌≡◌, ◌++◌, ◌∷◌, [], codes, Ok, OnOk, IfOk, MatchResult};
ghost use Rattle.std.specs.Option.{option_copied};
ghost use Rattle.gb_kinds.specs.Builtin.{second_text};
ghost use Rattle.gb_pages.specs.Dates.{date_of};
ghost use Rattle.gb_pages.specs.Listing.{begun, by_day, by_name, ended_list, entry, entry_of};
ghost use Rattle.gb_pages.specs.Listing.{index_page, latest_first, linked, links_by, with_day};
ghost use Rattle.gb_pages.specs.Paths.{page_path, stem};
ghost use Rattle.gb_markdown.specs.Pieces.{written};
ghost use Rattle.gb_with.specs.TreeKinds.{IsFailure};

use crate::dates::{date_of, fault_at, put_entry};
use crate::front_matter::title_of;
use crate::page_paths::{page_path, stem};
use gb_action::files::Files;
use gb_action::reply::ActionFault;
use gb_action::shape::{Arg, ArgList};
use gb_action::snapshot::Snapshots;
use gb_action::values::Arguments;
use gb_core::bytes::Bytes;
use gb_core::place::RelPath;
use gb_core::text::Text;
use gb_core::value::Value;
use gb_kinds::arguments::first_text;
use gb_kinds::known_names::{rel_path, source_name};
use gb_markdown::address::address_of;
use gb_markdown::rendered::{Element, close, link, open, text};
use gb_with::tree_kind::{TreeKind, files_of};
use std::alloc::{AllocError, Global};

/// The kind `index(TITLE, ORDER)`: a page `index.html` with a link to the page of each text of
/// `src`, under its title, in the order of their paths. If `ORDER` is `date`, the latest page comes
/// first, by the dates of their front matters; it fails at a page without a date.
#[derive(Drop)]
pub struct Index;

impl TreeKind for Index {
    ghost use Rattle.std.specs.Prelude.{[], ◌∷◌};
    ghost use Rattle.gb_action.specs.declared.shape.Arg.TheVariants as args;
    ghost use Rattle.gb_action.specs.declared.shape.Parameter.TheVariants.{Optional, Required};
    ghost use Rattle.gb_pages.specs.Listing.{indexed};

    ghost takes = { Required args.Line ∷ Optional args.Line ∷ [] };

    ghost makes = { indexed };

    fn takes(alloc: Global) -> Result<ArgList, AllocError> {
        let mut list = ArgList::new(alloc);
        list.push(Arg::Line)?;
        list.push_optional(Arg::Line)?;
        Ok(list)
    }

    fn make(
        alloc: Global,
        arguments: &Arguments,
        trees: &Snapshots,
    ) -> Result<Vec<(RelPath, Bytes)>, ActionFault> {
        let files = files_of(trees, &source_name(alloc)?);
        match links_by(alloc, second_text(arguments), files) {
            Ok(links) => Ok(one_page(alloc, first_text(arguments).as_bytes(), links)?),
            Err(fault) => Err(fault),
        }
    }
}

/// The second argument; empty if it is left out.
pub fn second_text(arguments: &Arguments) -> &str
    ensures { result.now ≡ second_text arguments.now }
{
    match arguments.as_slice().split_first() {
        Some((_, others)) => match others.first() {
            Some(Value::Text(text)) => text.as_str(),
            _ => "",
        },
        None => "",
    }
}

/// The one file, with these links.
fn one_page(
    alloc: Global,
    title: &[u8],
    links: Vec<u8>,
) -> Result<Vec<(RelPath, Bytes)>, AllocError>
    ensures { IfOk result (λ made. made.items ≡ (codes "index.html", index_page title.now links.items) ∷ []) }
{
    let page = index_page(alloc, title, links.as_slice())?;
    let mut made = Vec::new(alloc);
    made.push((rel_path(alloc, "index.html")?, Bytes::new(page)))?;
    Ok(made)
}

/// The page with these links.
fn index_page(alloc: Global, title: &[u8], links: &[u8]) -> Result<Vec<u8>, AllocError>
    ensures { IfOk result (λ page. page.items ≡ index_page title.now links.now) }
{
    let mut page = Vec::new(alloc);
    begin(&mut page, title)?;
    page.extend_from_slice(links)?;
    end(&mut page)?;
    Ok(page)
}

/// Writes the heading, and begins the list.
fn begin(page: &mut Vec<u8>, title: &[u8]) -> Result<(), AllocError>
    ensures { OnOk result (page.new.items ≡ page.old.items ++ written (begun title.now)) }
{
    open(page, Element::HeadingOne)?;
    text(page, title)?;
    close(page, Element::HeadingOne)?;
    text(page, b"\n")?;
    open(page, Element::Items)?;
    text(page, b"\n")
}

/// Ends the list.
fn end(page: &mut Vec<u8>) -> Result<(), AllocError>
    ensures { OnOk result (page.new.items ≡ page.old.items ++ written ended_list) }
{
    close(page, Element::Items)?;
    text(page, b"\n")
}

/// The links to the pages of all texts, in an order.
fn links_by(alloc: Global, order: &str, files: &[(RelPath, Bytes)]) -> Result<Vec<u8>, ActionFault>
    ensures { MatchResult result
        (λ links. links_by order.now files.now ≡ Ok links.items)
        (λ fault. IsFailure fault (links_by order.now files.now)) }
{
    if order == "date" {
        match by_day(alloc, files) {
            Ok(days) => Ok(latest_first(alloc, days.as_slice())?),
            Err(fault) => Err(fault),
        }
    } else if order == "" {
        Ok(by_name(alloc, files)?)
    } else {
        let text = Text::new(format!(in alloc; "no order {order}")?)?;
        Err(ActionFault::ActionFailed(text))
    }
}

/// The links in the order of the paths.
fn by_name(alloc: Global, files: &[(RelPath, Bytes)]) -> Result<Vec<u8>, AllocError>
    ensures { IfOk result (λ links. links.items ≡ by_name files.now) }
{
    let mut links = Vec::new(alloc);
    for (path, bytes) in files {
        entry(
            alloc,
            &mut links,
            stem(path.as_str().as_bytes()),
            bytes.as_slice(),
        )?;
    }
    Ok(links)
}

/// The links of all texts, by their dates.
fn by_day(alloc: Global, files: &[(RelPath, Bytes)]) -> Result<Files, ActionFault>
    ensures { MatchResult result
        (λ days. by_day [] files.now ≡ Ok days)
        (λ fault. IsFailure fault (by_day [] files.now)) }
{
    let mut days = Files::new(alloc);
    for (path, bytes) in files {
        put_day(alloc, &mut days, path, bytes.as_slice())?;
    }
    Ok(days)
}

/// Stores the link of a page at its date.
fn put_day(alloc: Global, days: &mut Files, path: &RelPath, bytes: &[u8]) -> Result<(), ActionFault>
    ensures { let meant = with_day days.old path.now bytes.now (stem path.now) (date_of path.now bytes.now) in
        MatchResult result (λ _. meant ≡ Ok days.new) (λ fault. IsFailure fault meant) }
{
    if stem(path.as_str().as_bytes()).is_none() {
        return Ok(());
    }
    match date_of(alloc, path, bytes) {
        Ok(Some(date)) => put_entry(alloc, days, path, date, entry_of(alloc, path, bytes)?),
        Ok(None) => Err(fault_at(alloc, path, 1, "no date")?),
        Err(fault) => Err(fault),
    }
}

/// The link to the page of a text.
fn entry_of(alloc: Global, path: &RelPath, bytes: &[u8]) -> Result<Bytes, AllocError>
    ensures { IfOk result (λ made. made ≡ entry_of path.now bytes.now) }
{
    let mut made = Vec::new(alloc);
    entry(alloc, &mut made, stem(path.as_str().as_bytes()), bytes)?;
    Ok(Bytes::new(made))
}

/// The values of all files, the last file first.
pub fn latest_first(alloc: Global, days: &[(RelPath, Bytes)]) -> Result<Vec<u8>, AllocError>
    ensures { IfOk result (λ links. links.items ≡ latest_first days.now) }
{
    let mut links = Vec::new(alloc);
    for (_, link) in days.iter().rev() {
        links.extend_from_slice(link.as_slice())?;
    }
    Ok(links)
}

/// Writes the link to the page of a text, from the part of its path before `.md`.
fn entry(
    alloc: Global,
    page: &mut Vec<u8>,
    name: Option<&[u8]>,
    bytes: &[u8],
) -> Result<(), AllocError>
    ensures { OnOk result (page.new.items ≡ page.old.items
        ++ written (entry bytes.now (option_copied name.entry) (page_path (option_copied name.entry)))) }
{
    let (Some(name), Some(path)) = (name, page_path(alloc, name)?) else {
        return Ok(());
    };
    let title = title_of(alloc, bytes, name)?;
    let address = address_of(alloc, path.as_str().as_bytes())?;
    let done = linked(page, address.as_slice(), title);
    drop(address);
    done
}

/// The link to a page at an address, under its title.
fn linked(page: &mut Vec<u8>, address: &[u8], title: &[u8]) -> Result<(), AllocError>
    ensures { OnOk result (page.new.items ≡ page.old.items ++ written (linked address.now title.now)) }
{
    open(page, Element::Item)?;
    link(page, address, b"")?;
    text(page, title)?;
    close(page, Element::Anchor)?;
    close(page, Element::Item)?;
    text(page, b"\n")
}
