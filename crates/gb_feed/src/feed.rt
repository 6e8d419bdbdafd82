//! An Atom feed of the pages that have a date: the kind `atomFeed`.
ghost use Rattle.std.specs.Prelude.{◌≡◌, ◌++◌, ◌-◌, ◌∷◌, [], codes, length, take, Ok, IfOk, OnOk};
ghost use Rattle.std.specs.Prelude.{MatchResult};
ghost use Rattle.gb_feed.specs.Feed.{at_address, by_latest, entries, feed_begun, feed_entry};
ghost use Rattle.gb_feed.specs.Feed.{author, feed_address, feed_head, id_at, link_at, quoted, self_begun};
ghost use Rattle.gb_feed.specs.Feed.{self_link};
ghost use Rattle.gb_feed.specs.Feed.{feed_text, titled, updated, with_file};
ghost use Rattle.gb_feed.specs.Sites.{xml};
ghost use Rattle.std.specs.List.{slice_get};
ghost use Rattle.gb_with.specs.TreeKinds.{IsFailure};

use crate::site::{is_site, no_site, xml, xml_address};
use gb_action::files::Files;
use gb_action::reply::ActionFault;
use gb_action::shape::{Arg, ArgList};
use gb_action::snapshot::Snapshots;
use gb_action::values::Arguments;
use gb_core::bytes::Bytes;
use gb_core::place::RelPath;
use gb_core::text::Text;
use gb_kinds::arguments::first_text;
use gb_kinds::known_names::{rel_path, source_name};
use gb_pages::dates::{date_of, put_entry};
use gb_pages::front_matter::title_of;
use gb_pages::index_page::{latest_first, second_text};
use gb_pages::page_paths::{page_path, stem};
use gb_with::tree_kind::{TreeKind, files_of};
use std::alloc::{AllocError, Global};

/// The kind `atomFeed(TITLE, ADDRESS)`: a file `feed.xml`, an Atom feed (RFC 4287) of the site at
/// the address, with an entry for the page of each `.md` file of `src` whose front matter has a
/// `date`, the latest first. It fails at a value of `date` that is no date as `2026-03-01`, and if
/// no page has one.
#[derive(Drop)]
pub struct AtomFeed;

/// Files by their paths.
type Made = Vec<(RelPath, Bytes)>;

impl TreeKind for AtomFeed {
    ghost use Rattle.std.specs.Prelude.{[], ◌∷◌};
    ghost use Rattle.gb_action.specs.declared.shape.Arg.TheVariants as args;
    ghost use Rattle.gb_action.specs.declared.shape.Parameter.TheVariants.{Required};
    ghost use Rattle.gb_feed.specs.Feed.{fed};

    ghost takes = { Required args.Line ∷ Required args.Line ∷ [] };

    ghost makes = { fed };

    fn takes(alloc: Global) -> Result<ArgList, AllocError> {
        let mut list = ArgList::new(alloc);
        list.push(Arg::Line)?;
        list.push(Arg::Line)?;
        Ok(list)
    }

    fn make(alloc: Global, arguments: &Arguments, trees: &Snapshots) -> Result<Made, ActionFault> {
        let base = second_text(arguments);
        if !is_site(base.as_bytes()) {
            return Err(no_site(alloc, base)?);
        }
        let files = files_of(trees, &source_name(alloc)?);
        match entries(alloc, base.as_bytes(), files) {
            Ok(days) => by_latest(
                alloc,
                first_text(arguments).as_bytes(),
                base.as_bytes(),
                days.as_slice(),
            ),
            Err(fault) => Err(fault),
        }
    }
}

/// The one file, if a page has a date.
fn by_latest(
    alloc: Global,
    title: &[u8],
    base: &[u8],
    days: &[(RelPath, Bytes)],
) -> Result<Made, ActionFault>
    ensures { let meant = by_latest title.now base.now days.now (slice_get days.now (length days.now - 1)) in
        MatchResult result (λ made. meant ≡ Ok made.items) (λ fault. IsFailure fault meant) }
{
    match days.last() {
        Some((latest, _)) => Ok(one_feed(alloc, title, base, days, latest)?),
        None => {
            let text = Text::from_str(alloc, "no page with a date")?;
            Err(ActionFault::ActionFailed(text))
        }
    }
}

/// The one file, dated by the page with the latest date.
fn one_feed(
    alloc: Global,
    title: &[u8],
    base: &[u8],
    days: &[(RelPath, Bytes)],
    latest: &RelPath,
) -> Result<Made, AllocError>
    ensures { IfOk result (λ made. made.items
        ≡ (codes "feed.xml", feed_text title.now base.now days.now (take 10 latest.now)) ∷ []) }
{
    let date = first_ten(latest.as_str().as_bytes());
    let mut feed = Vec::new(alloc);
    begin(alloc, &mut feed, title, base, date)?;
    let entries = latest_first(alloc, days)?;
    feed.extend_from_slice(entries.as_slice())?;
    feed.extend_from_slice(b"</feed>\n")?;
    let mut made = Vec::new(alloc);
    made.push((rel_path(alloc, "feed.xml")?, Bytes::new(feed)))?;
    Ok(made)
}

/// The first ten bytes, or all of them.
fn first_ten(text: &[u8]) -> &[u8]
    ensures { result.now ≡ take 10 text.now }
{
    if text.len() < 10 { text } else { &text[..10] }
}

/// Writes the feed up to its entries.
#[tactic(auto, unfolding(crate::specs::Feed::feed_begun))]
fn begin(
    alloc: Global,
    feed: &mut Vec<u8>,
    title: &[u8],
    base: &[u8],
    date: &[u8],
) -> Result<(), AllocError>
    ensures { OnOk result (feed.new.items ≡ feed.old.items ++ feed_begun title.now base.now date.now) }
{
    begin_xml(feed)?;
    titled(feed, title)?;
    let address = site_address(alloc, base)?;
    at_address(feed, address.as_slice())?;
    let own = feed_address(alloc, base)?;
    self_link(feed, own.as_slice())?;
    author(feed, title)?;
    updated(feed, date)
}

/// Begins the file.
#[tactic(auto, unfolding(crate::specs::Feed::feed_head))]
fn begin_xml(feed: &mut Vec<u8>) -> Result<(), AllocError>
    ensures { OnOk result (feed.new.items ≡ feed.old.items ++ feed_head) }
{
    feed.extend_from_slice(
        b"<?xml version=\"1.0\" encoding=\"UTF-8\"?>\n<feed xmlns=\"http://www.w3.org/2005/Atom\">\n",
    )?;
    Ok(())
}

/// The address of the feed itself, in XML.
fn feed_address(alloc: Global, base: &[u8]) -> Result<Vec<u8>, AllocError>
    ensures { IfOk result (λ address. address.items ≡ feed_address base.now) }
{
    let mut address = Vec::new(alloc);
    xml_address(alloc, &mut address, base, b"feed.xml")?;
    Ok(address)
}

/// Writes the link to the feed itself; its address is in XML.
#[tactic(auto, unfolding(crate::specs::Feed::self_link))]
fn self_link(feed: &mut Vec<u8>, address: &[u8]) -> Result<(), AllocError>
    ensures { OnOk result (feed.new.items ≡ feed.old.items ++ self_link address.now) }
{
    begin_self(feed)?;
    quoted(feed, address)?;
    feed.extend_from_slice(b"/>\n")?;
    Ok(())
}

/// Begins the link to the feed itself.
#[tactic(auto, unfolding(crate::specs::Feed::self_begun))]
fn begin_self(feed: &mut Vec<u8>) -> Result<(), AllocError>
    ensures { OnOk result (feed.new.items ≡ feed.old.items ++ self_begun) }
{
    feed.extend_from_slice(b"<link rel=\"self\" href=")?;
    Ok(())
}

/// Writes a value in double quotes.
#[tactic(auto, unfolding(crate::specs::Feed::quoted))]
fn quoted(feed: &mut Vec<u8>, value: &[u8]) -> Result<(), AllocError>
    ensures { OnOk result (feed.new.items ≡ feed.old.items ++ quoted value.now) }
{
    feed.push(b'"')?;
    feed.extend_from_slice(value)?;
    feed.push(b'"')?;
    Ok(())
}

/// Writes the author, whose name is that of the feed.
#[tactic(auto, unfolding(crate::specs::Feed::author))]
fn author(feed: &mut Vec<u8>, title: &[u8]) -> Result<(), AllocError>
    ensures { OnOk result (feed.new.items ≡ feed.old.items ++ author title.now) }
{
    feed.extend_from_slice(b"<author><name>")?;
    xml(feed, title)?;
    feed.extend_from_slice(b"</name></author>\n")?;
    Ok(())
}

/// The address of the site, in XML.
fn site_address(alloc: Global, base: &[u8]) -> Result<Vec<u8>, AllocError>
    ensures { IfOk result (λ made. made.items ≡ xml base.now) }
{
    let mut made = Vec::new(alloc);
    xml(&mut made, base)?;
    Ok(made)
}

/// The entries of all texts by their dates.
fn entries(alloc: Global, base: &[u8], files: &[(RelPath, Bytes)]) -> Result<Files, ActionFault>
    ensures { MatchResult result
        (λ days. entries base.now [] files.now ≡ Ok days)
        (λ fault. IsFailure fault (entries base.now [] files.now)) }
{
    let mut days = Files::new(alloc);
    for (path, bytes) in files {
        put_file(alloc, base, &mut days, path, bytes.as_slice())?;
    }
    Ok(days)
}

/// Stores the entry of a text at its date, if it has one.
fn put_file(
    alloc: Global,
    base: &[u8],
    days: &mut Files,
    path: &RelPath,
    text: &[u8],
) -> Result<(), ActionFault>
    ensures { let meant = with_file base.now days.old path.now text.now in
        MatchResult result (λ _. meant ≡ Ok days.new) (λ fault. IsFailure fault meant) }
{
    let Some(name) = stem(path.as_str().as_bytes()) else {
        return Ok(());
    };
    let Some(page) = page_path(alloc, Some(name))? else {
        return Ok(());
    };
    match date_of(alloc, path, text) {
        Ok(Some(date)) => {
            let title = title_of(alloc, text, name)?;
            let made = entry(alloc, base, page.as_str().as_bytes(), title, date)?;
            put_entry(alloc, days, path, date, made)
        }
        Ok(None) => Ok(()),
        Err(fault) => Err(fault),
    }
}

/// The entry of a page.
#[tactic(auto, unfolding(crate::specs::Feed::feed_entry))]
fn entry(
    alloc: Global,
    base: &[u8],
    path: &[u8],
    title: &[u8],
    date: &[u8],
) -> Result<Bytes, AllocError>
    ensures { IfOk result (λ made. made ≡ feed_entry base.now path.now title.now date.now) }
{
    let mut address = Vec::new(alloc);
    xml_address(alloc, &mut address, base, path)?;
    let mut made = Vec::new(alloc);
    made.extend_from_slice(b"<entry>\n")?;
    titled(&mut made, title)?;
    at_address(&mut made, address.as_slice())?;
    updated(&mut made, date)?;
    made.extend_from_slice(b"</entry>\n")?;
    Ok(Bytes::new(made))
}

/// Writes a title.
#[tactic(auto, unfolding(crate::specs::Feed::titled))]
fn titled(made: &mut Vec<u8>, title: &[u8]) -> Result<(), AllocError>
    ensures { OnOk result (made.new.items ≡ made.old.items ++ titled title.now) }
{
    made.extend_from_slice(b"<title>")?;
    xml(made, title)?;
    made.extend_from_slice(b"</title>\n")?;
    Ok(())
}

/// Writes an address in XML, as an id and as a link.
#[tactic(auto, unfolding(crate::specs::Feed::at_address))]
fn at_address(made: &mut Vec<u8>, address: &[u8]) -> Result<(), AllocError>
    ensures { OnOk result (made.new.items ≡ made.old.items ++ at_address address.now) }
{
    id_at(made, address)?;
    link_at(made, address)
}

/// Writes an address in XML, as an id.
fn id_at(made: &mut Vec<u8>, address: &[u8]) -> Result<(), AllocError>
    ensures { OnOk result (made.new.items ≡ made.old.items ++ id_at address.now) }
{
    made.extend_from_slice(b"<id>")?;
    made.extend_from_slice(address)?;
    made.extend_from_slice(b"</id>\n")?;
    Ok(())
}

/// Writes a link to an address in XML.
fn link_at(made: &mut Vec<u8>, address: &[u8]) -> Result<(), AllocError>
    ensures { OnOk result (made.new.items ≡ made.old.items ++ link_at address.now) }
{
    made.extend_from_slice(b"<link href=")?;
    quoted(made, address)?;
    made.extend_from_slice(b"/>\n")?;
    Ok(())
}

/// Writes a day at its beginning in UTC.
#[tactic(auto, unfolding(crate::specs::Feed::updated))]
fn updated(made: &mut Vec<u8>, date: &[u8]) -> Result<(), AllocError>
    ensures { OnOk result (made.new.items ≡ made.old.items ++ updated date.now) }
{
    made.extend_from_slice(b"<updated>")?;
    xml(made, date)?;
    made.extend_from_slice(b"T00:00:00Z</updated>\n")?;
    Ok(())
}
