//! Dead links: the kind `checkLinks`.
ghost use Rattle.std.specs.Prelude.{◌≡◌, ◌++◌, codes, is_some, string_bytes, IfOk, OnOk};
ghost use Rattle.std.specs.Option.{option_copied, option_map};
ghost use Rattle.gb_pages.specs.FrontMatter.{parts};
ghost use Rattle.gb_pages.specs.Layouts.{line_of};
ghost use Rattle.memchr.specs.Find.{first_of, matches};
ghost use Rattle.gb_pages.specs.Links.{above, as_file, dead_at, dead_by, dead_in, file_in, first_dead, from};
ghost use Rattle.gb_pages.specs.Links.{id_sign, leads_out, led_to, path_in, start, step, target_of};
ghost use Rattle.gb_pages.specs.Links.{line_mark, reported};
ghost use Rattle.gb_pages.specs.Links.{unrooted, walk, wrong_in_site, wrong_link, wrong_with};
ghost use Rattle.gb_pages.specs.Paths.{before};
ghost use Rattle.percent_encoding.specs.Percent.{percent_decode as decoded};

use crate::front_matter::up_to;
use crate::layout::{line_of, shown};
use crate::page_paths::as_path;
use crate::template::has_token;
use bstr::ByteSlice;
use gb_action::files::Files;
use gb_action::shape::ArgList;
use gb_action::snapshot::Snapshots;
use gb_action::values::Arguments;
use gb_core::place::RelPath;
use gb_core::text::Text;
use gb_kinds::known_names::source_name;
use gb_with::tree_kind::CheckKind;
use percent_encoding::percent_decode;
use std::alloc::{AllocError, Global};

/// The kind `checkLinks`, without arguments: it fails at the first link of an `.html` file of `src`
/// to a missing file or fragment, with the path, the line and the address. Links out of the site
/// pass.
#[derive(Drop)]
pub struct CheckLinks;

/// A page among all files.
#[derive(Clone, Copy)]
struct Site<'a> {
    files: &'a Files,
    page: &'a RelPath,
    html: &'a [u8],
}

impl CheckKind for CheckLinks {
    ghost use Rattle.std.specs.Prelude.{[]};
    ghost use Rattle.gb_pages.specs.Links.{dead_links};

    ghost takes = { [] };

    ghost finds = { dead_links };

    fn takes(alloc: Global) -> Result<ArgList, AllocError> {
        Ok(ArgList::new(alloc))
    }

    fn find(
        alloc: Global,
        _arguments: &Arguments,
        trees: &Snapshots,
    ) -> Result<Option<Text>, AllocError> {
        match trees.get(&source_name(alloc)?) {
            Some(files) => first_dead(alloc, files),
            None => Ok(None),
        }
    }
}

/// The first dead link of all pages.
fn first_dead(alloc: Global, files: &Files) -> Result<Option<Text>, AllocError>
    ensures { IfOk result (λ found. found ≡ first_dead files.now files.now) }
{
    for (page, html) in files.as_slice() {
        let html = html.as_slice();
        let found = dead_in(alloc, &Site { files, page, html })?;
        if found.is_some() {
            return Ok(found);
        }
    }
    Ok(None)
}

/// The first dead link of a page.
fn dead_in(alloc: Global, site: &Site<'_>) -> Result<Option<Text>, AllocError>
    ensures { IfOk result (λ found. found ≡ dead_in site.now.files.now site.now.page.now site.now.html.now) }
{
    let path = site.page.as_str().as_bytes();
    if path.strip_suffix(b".html").is_none() {
        return Ok(None);
    }
    match dead_by(alloc, site, b" href=\"")? {
        Some(text) => Ok(Some(text)),
        None => dead_by(alloc, site, b" src=\""),
    }
}

/// The first dead address after a sign.
fn dead_by(alloc: Global, site: &Site<'_>, sign: &[u8]) -> Result<Option<Text>, AllocError>
    ensures { IfOk result (λ found.
        found ≡ dead_by site.now.files.now site.now.page.now site.now.html.now sign.now) }
{
    let mut is_after = false;
    for part in site.html.split_str(sign) {
        if is_after {
            let found = dead_at(alloc, site, sign, part)?;
            if found.is_some() {
                return Ok(found);
            }
        }
        is_after = true;
    }
    Ok(None)
}

/// The message for the address after a sign.
fn dead_at(
    alloc: Global,
    site: &Site<'_>,
    sign: &[u8],
    part: &[u8],
) -> Result<Option<Text>, AllocError>
    ensures { IfOk result (λ found.
        found ≡ dead_at site.now.files.now site.now.page.now site.now.html.now sign.now part.now) }
{
    let address = up_to(part, b"\"");
    let Some(wrong) = wrong_link(alloc, site, address)? else {
        return Ok(None);
    };
    let line = line_of_address(alloc, site.html, sign, address)?;
    Ok(Some(reported(alloc, site.page, line, wrong, shown(address))?))
}

/// The message for a link.
fn reported(
    alloc: Global,
    page: &RelPath,
    line: usize,
    wrong: &str,
    address: &str,
) -> Result<Text, AllocError>
    ensures { IfOk result (λ text. text ≡ reported page.now line wrong.now address.now) }
{
    let mut text = String::from_str(alloc, page.as_str())?;
    push_line(alloc, &mut text, line)?;
    text.push_str(wrong)?;
    text.push_str(" at ")?;
    text.push_str(address)?;
    Text::new(text)
}

/// Writes the number of a line.
fn push_line(alloc: Global, text: &mut String, line: usize) -> Result<(), AllocError>
    ensures { OnOk result (string_bytes text.new ≡ string_bytes text.old ++ line_mark line) }
{
    let mark = format!(in alloc; ":{line}: ")?;
    text.push_str(mark.as_str())?;
    Ok(())
}

/// The line where an address occurs first after a sign.
fn line_of_address(
    alloc: Global,
    html: &[u8],
    sign: &[u8],
    address: &[u8],
) -> Result<usize, AllocError>
    ensures { IfOk result (λ line. line ≡ line_of (sign.now ++ (address.now ++ codes "\"")) html.now) }
{
    let attribute = attribute(alloc, sign, address)?;
    Ok(line_of(attribute.as_slice(), html))
}

/// A sign, an address and the quote after it.
fn attribute(alloc: Global, sign: &[u8], address: &[u8]) -> Result<Vec<u8>, AllocError>
    ensures { IfOk result (λ made. made.items ≡ sign.now ++ (address.now ++ codes "\"")) }
{
    let mut made = sign.to_vec(alloc)?;
    made.extend_from_slice(address)?;
    made.push(b'"')?;
    Ok(made)
}

/// What is wrong with a link.
fn wrong_link(
    alloc: Global,
    site: &Site<'_>,
    address: &[u8],
) -> Result<Option<&'static str>, AllocError>
    ensures { IfOk result (λ wrong. option_copied wrong
        ≡ wrong_link site.now.files.now site.now.page.now site.now.html.now address.now) }
{
    let path = path_in(address);
    if leads_out(path) {
        return Ok(None);
    }
    let path = decoded(alloc, path)?;
    let fragment = decoded(alloc, from(address, b"#"))?;
    let file = led_to(alloc, site, path.as_slice())?;
    wrong_with(alloc, fragment.as_slice(), file)
}

/// What is wrong with a link to a fragment of a file.
fn wrong_with(
    alloc: Global,
    fragment: &[u8],
    file: Option<&[u8]>,
) -> Result<Option<&'static str>, AllocError>
    ensures { IfOk result (λ wrong.
        option_copied wrong ≡ wrong_with fragment.now (option_copied file.entry)) }
{
    let Some(bytes) = file else {
        return Ok(Some("no file"));
    };
    if fragment.is_empty() || has_id(alloc, bytes, fragment)? {
        return Ok(None);
    }
    Ok(Some("no fragment"))
}

/// Whether a page has a fragment.
fn has_id(alloc: Global, bytes: &[u8], fragment: &[u8]) -> Result<bool, AllocError>
    ensures { IfOk result (λ has. has ≡ is_some (first_of (matches bytes.now (id_sign fragment.now) 0))) }
{
    let sign = attribute(alloc, b" id=\"", fragment)?;
    Ok(has_token(sign.as_slice(), bytes))
}

/// The file that a path refers to.
fn led_to<'a>(alloc: Global, site: &Site<'a>, path: &[u8]) -> Result<Option<&'a [u8]>, AllocError>
    ensures { IfOk result (λ file. option_copied file
        ≡ led_to site.now.files.now site.now.page.now site.now.html.now path.now) }
{
    if path.is_empty() {
        return Ok(Some(site.html));
    }
    match target_of(alloc, site.page, path)? {
        Some(target) => file_in(alloc, site.files, as_file(target)?),
        None => Ok(None),
    }
}

/// The file at a target.
fn file_in<'a>(
    alloc: Global,
    files: &'a Files,
    target: Vec<u8>,
) -> Result<Option<&'a [u8]>, AllocError>
    ensures { IfOk result (λ file. option_copied file ≡ file_in files.now target.items) }
{
    let Some((_, path)) = target.as_slice().split_first() else {
        return Ok(None);
    };
    match as_path(alloc, path)? {
        Some(path) => Ok(files.get(&path).map(|bytes| bytes.as_slice())),
        None => Ok(None),
    }
}

/// A folder means its `index.html`, as does a path that ends with `/`.
fn as_file(target: Vec<u8>) -> Result<Vec<u8>, AllocError>
    ensures { IfOk result (λ file. file.items ≡ as_file target.items) }
{
    let mut file = target;
    if file.is_empty() {
        file.extend_from_slice(b"/index.html")?;
    } else if file.as_slice().strip_suffix(b"/").is_some() {
        file.extend_from_slice(b"index.html")?;
    }
    Ok(file)
}

/// The target of a path on a page.
fn target_of(alloc: Global, page: &RelPath, path: &[u8]) -> Result<Option<Vec<u8>>, AllocError>
    ensures { IfOk result (λ target. option_map (λ bytes. bytes.items) target ≡ target_of page.now path.now) }
{
    let folder = start(alloc, page.as_str().as_bytes(), path)?;
    walk(alloc, folder, unrooted(path))
}

/// The folder from which a path is resolved.
fn start(alloc: Global, page: &[u8], path: &[u8]) -> Result<Vec<u8>, AllocError>
    ensures { IfOk result (λ folder. folder.items ≡ start page.now path.now) }
{
    let mut rooted = Vec::new(alloc);
    if path.starts_with(b"/") {
        return Ok(rooted);
    }
    rooted.push(b'/')?;
    rooted.extend_from_slice(page)?;
    above(rooted.as_slice()).unwrap_or(b"").to_vec(alloc)
}

/// A path without the `/` with which it begins.
fn unrooted(path: &[u8]) -> &[u8]
    ensures { result.now ≡ unrooted path.now }
{
    if path.starts_with(b"/") {
        &path[1..]
    } else {
        path
    }
}

/// The target of a path's segments from a folder.
fn walk(alloc: Global, folder: Vec<u8>, path: &[u8]) -> Result<Option<Vec<u8>>, AllocError>
    ensures { IfOk result (λ target. option_map (λ bytes. bytes.items) target
        ≡ walk folder.items (parts (codes "/") path.now)) }
{
    let mut folder = folder;
    for segment in path.split_str(b"/") {
        match step(alloc, folder, segment)? {
            Some(next) => folder = next,
            None => return Ok(None),
        }
    }
    Ok(Some(folder))
}

/// The target of a segment from a folder.
fn step(alloc: Global, folder: Vec<u8>, segment: &[u8]) -> Result<Option<Vec<u8>>, AllocError>
    ensures { IfOk result (λ next. option_map (λ bytes. bytes.items) next ≡ step folder.items segment.now) }
{
    if segment == b"..".as_slice() {
        return match above(folder.as_slice()) {
            Some(above) => Ok(Some(above.to_vec(alloc)?)),
            None => Ok(None),
        };
    }
    let mut next = folder;
    if segment != b".".as_slice() {
        next.push(b'/')?;
        next.extend_from_slice(segment)?;
    }
    Ok(Some(next))
}

/// The folder of a path.
fn above(path: &[u8]) -> Option<&[u8]>
    ensures { option_copied result ≡ above path.now }
{
    match path.rsplit_once_str(b"/") {
        Some((folder, _)) => Some(folder),
        None => None,
    }
}

/// The part after a sign, or nothing.
fn from<'a>(text: &'a [u8], sign: &[u8]) -> &'a [u8]
    ensures { result.now ≡ from sign.now text.now }
{
    match text.split_once_str(sign) {
        Some((_, rest)) => rest,
        None => b"",
    }
}

/// The address without its fragment and its query.
fn path_in(address: &[u8]) -> &[u8]
    ensures { result.now ≡ path_in address.now }
{
    up_to(up_to(address, b"#"), b"?")
}

/// Whether a path has a scheme or a host.
fn leads_out(path: &[u8]) -> bool
    ensures { result ≡ leads_out path.now }
{
    has_token(b":", path) || path.starts_with(b"//")
}

/// The bytes that an address encodes.
fn decoded(alloc: Global, path: &[u8]) -> Result<Vec<u8>, AllocError>
    ensures { IfOk result (λ made. made.items ≡ decoded path.now) }
{
    let mut made = Vec::new(alloc);
    percent_decode(path).append_to(&mut made)?;
    Ok(made)
}
