//! The addresses of all pages, for search engines: the kind `siteMap`.
ghost use Rattle.std.specs.Prelude.{◌≡◌, ◌++◌, Ok, IfOk, OnOk, MatchResult};
ghost use Rattle.std.specs.Option.{option_copied};
ghost use Rattle.gb_pages.specs.Dates.{date_of};
ghost use Rattle.gb_pages.specs.Paths.{page_path, stem};
ghost use Rattle.gb_feed.specs.SiteMap.{lastmod, location, locations, map_begun, map_of, site_map};
ghost use Rattle.gb_feed.specs.SiteMap.{with_location};
ghost use Rattle.gb_with.specs.TreeKinds.{IsFailure};

use crate::site::{is_site, no_site, xml, xml_address};
use gb_action::reply::ActionFault;
use gb_action::shape::{Arg, ArgList};
use gb_action::snapshot::Snapshots;
use gb_action::values::Arguments;
use gb_core::bytes::Bytes;
use gb_core::place::RelPath;
use gb_kinds::arguments::first_text;
use gb_kinds::known_names::{rel_path, source_name};
use gb_pages::dates::date_of;
use gb_pages::page_paths::{page_path, stem};
use gb_with::tree_kind::{TreeKind, files_of};
use std::alloc::{AllocError, Global};

/// The kind `siteMap(ADDRESS)`: a file `sitemap.xml` with the address of the page of each `.md` file of `src`
/// on the site at the address, and with the `date` of its front matter, if it has one. It fails at a value of
/// `date` that is no date.
#[derive(Drop)]
pub struct SiteMap;

/// Files by their paths.
type Made = Vec<(RelPath, Bytes)>;

impl TreeKind for SiteMap {
    ghost use Rattle.std.specs.Prelude.{[], ◌∷◌};
    ghost use Rattle.gb_action.specs.declared.shape.Arg.TheVariants as args;
    ghost use Rattle.gb_action.specs.declared.shape.Parameter.TheVariants.{Required};
    ghost use Rattle.gb_feed.specs.SiteMap.{mapped};

    ghost takes = { Required args.Line ∷ [] };

    ghost makes = { mapped };

    fn takes(alloc: Global) -> Result<ArgList, AllocError> {
        let mut list = ArgList::new(alloc);
        list.push(Arg::Line)?;
        Ok(list)
    }

    fn make(alloc: Global, arguments: &Arguments, trees: &Snapshots) -> Result<Made, ActionFault> {
        let base = first_text(arguments);
        if !is_site(base.as_bytes()) {
            return Err(no_site(alloc, base)?);
        }
        site_map(
            alloc,
            base.as_bytes(),
            files_of(trees, &source_name(alloc)?),
        )
    }
}

/// The one file.
fn site_map(alloc: Global, base: &[u8], files: &[(RelPath, Bytes)]) -> Result<Made, ActionFault>
    ensures { let meant = site_map base.now files.now in
        MatchResult result (λ made. meant ≡ Ok made.items) (λ fault. IsFailure fault meant) }
{
    match locations(alloc, base, files) {
        Ok(map) => Ok(one_file(alloc, map)?),
        Err(fault) => Err(fault),
    }
}

/// The one file, after these locations.
fn one_file(alloc: Global, mut map: Vec<u8>) -> Result<Made, AllocError>
    ensures { IfOk result (λ made. map_of (Ok map.items) ≡ Ok made.items) }
{
    map.extend_from_slice(b"</urlset>\n")?;
    let mut made = Vec::new(alloc);
    made.push((rel_path(alloc, "sitemap.xml")?, Bytes::new(map)))?;
    Ok(made)
}

/// The file up to the addresses of all pages.
fn locations(alloc: Global, base: &[u8], files: &[(RelPath, Bytes)]) -> Result<Vec<u8>, ActionFault>
    ensures { let meant = locations base.now map_begun files.now in
        MatchResult result (λ map. meant ≡ Ok map.items) (λ fault. IsFailure fault meant) }
{
    let mut map = Vec::new(alloc);
    begin(&mut map)?;
    for (path, text) in files {
        put_location(alloc, &mut map, base, path, text.as_slice())?;
    }
    Ok(map)
}

/// Begins the file.
fn begin(map: &mut Vec<u8>) -> Result<(), AllocError>
    ensures { OnOk result (map.new.items ≡ map.old.items ++ map_begun) }
{
    map.extend_from_slice(b"<?xml version=\"1.0\" encoding=\"UTF-8\"?>\n")?;
    map.extend_from_slice(b"<urlset xmlns=\"http://www.sitemaps.org/schemas/sitemap/0.9\">\n")?;
    Ok(())
}

/// Writes the location of a text, if it is a page.
fn put_location(
    alloc: Global,
    map: &mut Vec<u8>,
    base: &[u8],
    path: &RelPath,
    text: &[u8],
) -> Result<(), ActionFault>
    ensures { let meant = with_location base.now map.old.items (page_path (stem path.now))
        (date_of path.now text.now) in
        MatchResult result (λ _. meant ≡ Ok map.new.items) (λ fault. IsFailure fault meant) }
{
    let Some(page) = page_path(alloc, stem(path.as_str().as_bytes()))? else {
        return Ok(());
    };
    match date_of(alloc, path, text) {
        Ok(date) => Ok(location(alloc, map, base, page.as_str().as_bytes(), date)?),
        Err(fault) => Err(fault),
    }
}

/// Writes the address of a page, and its date.
fn location(
    alloc: Global,
    map: &mut Vec<u8>,
    base: &[u8],
    path: &[u8],
    date: Option<&[u8]>,
) -> Result<(), AllocError>
    ensures { OnOk result (map.new.items ≡ map.old.items
        ++ location base.now path.now (option_copied date.entry)) }
{
    map.extend_from_slice(b"<url><loc>")?;
    xml_address(alloc, map, base, path)?;
    map.extend_from_slice(b"</loc>")?;
    lastmod(map, date)?;
    map.extend_from_slice(b"</url>\n")?;
    Ok(())
}

/// Writes the date of a page.
fn lastmod(map: &mut Vec<u8>, date: Option<&[u8]>) -> Result<(), AllocError>
    ensures { OnOk result (map.new.items ≡ map.old.items ++ lastmod (option_copied date.entry)) }
{
    if let Some(date) = date {
        map.extend_from_slice(b"<lastmod>")?;
        xml(map, date)?;
        map.extend_from_slice(b"</lastmod>")?;
    }
    Ok(())
}
