//! Pages in a layout, filled with values of their front matter: the kind `sitePages`.
ghost use Rattle.std.specs.Prelude.{◌≡◌, ◌++◌, [], codes, unwrap_or, None, Ok, IfOk, OnOk, MatchResult};
ghost use Rattle.std.specs.Option.{option_copied};
ghost use Rattle.gb_action.specs.declared.reply.ActionFault.TheVariants.{ActionFailed};
ghost use Rattle.gb_markdown.specs.Pieces.{written};
ghost use Rattle.gb_pages.specs.Layouts.{all_laid_out, first_path, in_one_layout};
ghost use Rattle.gb_pages.specs.Layouts.{laid_out_between, laid_out_file};
ghost use Rattle.gb_pages.specs.Layouts.{laid_out_page, link_to, neighbour, text_at};
ghost use Rattle.gb_pages.specs.Paths.{page_path, stem};
ghost use Rattle.gb_with.specs.TreeKinds.{IsFailure};

use crate::front_matter::title_of;
use crate::layout::{Page, laid_out_page, root_of};
use crate::page_paths::{page_path, stem};
use crate::template::{failed, layout_name};
use gb_action::files::Files;
use gb_action::reply::ActionFault;
use gb_action::shape::ArgList;
use gb_action::snapshot::Snapshots;
use gb_action::values::Arguments;
use gb_core::bytes::Bytes;
use gb_core::name::Name;
use gb_core::place::RelPath;
use gb_core::text::Text;
use gb_kinds::known_names::source_name;
use gb_markdown::address::address_of;
use gb_markdown::rendered::{Element, close, link, text};
use gb_with::tree_kind::{TreeKind, files_of};
use std::alloc::{AllocError, Global};

/// The kind `sitePages`, without arguments: each page of `src`, with `.html` instead of `.md`, in
/// the one file of `layout`. The front matter of the text at the same path of `texts` gives the
/// value that replaces each `{{name}}`; `{{content}}` is the page itself, `{{contents}}` a list of
/// links to its headings, `{{title}}` its title, `{{root}}` the relative path to the folder of the
/// site, and `{{previous}}` and `{{next}}` are links to the pages before and after it in the order
/// of their paths.
#[derive(Drop)]
pub struct SitePages;

/// Files by their paths.
type Made = Vec<(RelPath, Bytes)>;

impl TreeKind for SitePages {
    ghost use Rattle.std.specs.Prelude.{[]};
    ghost use Rattle.gb_pages.specs.Layouts.{site_pages};

    ghost takes = { [] };

    ghost makes = { site_pages };

    fn takes(alloc: Global) -> Result<ArgList, AllocError> {
        Ok(ArgList::new(alloc))
    }

    fn make(alloc: Global, _arguments: &Arguments, trees: &Snapshots) -> Result<Made, ActionFault> {
        let texts = trees.get(&texts_name(alloc)?);
        let files = files_of(trees, &source_name(alloc)?);
        let layouts = files_of(trees, &layout_name(alloc)?);
        in_one_layout(alloc, texts, files, layouts)
    }
}

/// The file property that holds the texts of the pages.
fn texts_name(alloc: Global) -> Result<Name, AllocError>
    ensures { IfOk result (λ name. name ≡ codes "texts") }
{
    Name::read(alloc, "texts").map_err(|_| AllocError)
}

/// The pages in the one layout.
fn in_one_layout(
    alloc: Global,
    texts: Option<&Files>,
    files: &[(RelPath, Bytes)],
    layouts: &[(RelPath, Bytes)],
) -> Result<Made, ActionFault>
    ensures { let meant = in_one_layout (unwrap_or (option_copied texts.entry) []) files.now layouts.now in
        MatchResult result (λ made. meant ≡ Ok made.items) (λ fault. IsFailure fault meant) }
{
    match layouts.split_first() {
        None => failed(alloc, "no layout"),
        Some((layout, others)) => match others.split_first() {
            None => all_laid_out(alloc, &layout.0, layout.1.as_slice(), texts, files),
            Some(_) => failed(alloc, "more than one layout"),
        },
    }
}

/// All pages in a layout.
fn all_laid_out(
    alloc: Global,
    at: &RelPath,
    layout: &[u8],
    texts: Option<&Files>,
    files: &[(RelPath, Bytes)],
) -> Result<Made, ActionFault>
    ensures { let read = unwrap_or (option_copied texts.entry) [] in
        let meant = all_laid_out at.now layout.now read None files.now in
        MatchResult result (λ made. meant ≡ Ok made.items) (λ fault. IsFailure fault meant) }
{
    let mut made = Vec::new(alloc);
    let mut before = None;
    let mut rest = files;
    while let Some(((path, html), others)) = rest.split_first() {
        let file = laid_out_between(alloc, at, layout, texts, before, path, html, others)?;
        made.push(file)?;
        before = Some(path);
        rest = others;
    }
    Ok(made)
}

/// The file of a page between one at a path and others.
fn laid_out_between(
    alloc: Global,
    at: &RelPath,
    layout: &[u8],
    texts: Option<&Files>,
    before: Option<&RelPath>,
    path: &RelPath,
    html: &Bytes,
    others: &[(RelPath, Bytes)],
) -> Result<(RelPath, Bytes), ActionFault>
    ensures { let read = unwrap_or (option_copied texts.entry) [] in
        let meant = laid_out_between at.now layout.now read (option_copied before.entry) path.now html.now
        others.now in
        MatchResult result (λ file. meant ≡ Ok file) (λ fault. IsFailure fault meant) }
{
    let previous = neighbour(alloc, texts, path, before)?;
    let next = neighbour(alloc, texts, path, first_path(others))?;
    let page = Page {
        path,
        text: text_at(texts, path),
        html: html.as_slice(),
        previous: previous.as_slice(),
        next: next.as_slice(),
    };
    laid_out_file(alloc, at, layout, &page)
}

/// The path of the first file.
fn first_path(files: &[(RelPath, Bytes)]) -> Option<&RelPath>
    ensures { option_copied result ≡ first_path files.now }
{
    match files.first() {
        Some(file) => Some(&file.0),
        None => None,
    }
}

/// The link from a page to another, under the title of the other, if there is one.
fn neighbour(
    alloc: Global,
    texts: Option<&Files>,
    path: &RelPath,
    other: Option<&RelPath>,
) -> Result<Vec<u8>, AllocError>
    ensures { IfOk result (λ made. made.items
        ≡ neighbour (unwrap_or (option_copied texts.entry) []) path.now (option_copied other.entry)) }
{
    let mut made = Vec::new(alloc);
    if let Some(other) = other {
        let name = stem(other.as_str().as_bytes());
        link_to(alloc, &mut made, path, text_at(texts, other), name)?;
    }
    Ok(made)
}

/// Writes the link from a page to the page of a text, from the part of that text's path before
/// `.md`.
fn link_to(
    alloc: Global,
    made: &mut Vec<u8>,
    path: &RelPath,
    words: &[u8],
    name: Option<&[u8]>,
) -> Result<(), AllocError>
    ensures { OnOk result (made.new.items ≡ made.old.items ++ written (link_to path.now words.now
        (option_copied name.entry) (page_path (option_copied name.entry)))) }
{
    let (Some(name), Some(new)) = (name, page_path(alloc, name)?) else {
        return Ok(());
    };
    let title = title_of(alloc, words, name)?;
    let mut address = root_of(alloc, path.as_str().as_bytes())?;
    address.extend_from_slice(address_of(alloc, new.as_str().as_bytes())?.as_slice())?;
    link(made, address.as_slice(), b"")?;
    text(made, title)?;
    close(made, Element::Anchor)
}

/// The text of the page at a path; empty if there is none.
fn text_at<'a>(texts: Option<&'a Files>, path: &RelPath) -> &'a [u8]
    ensures { result.now ≡ text_at (unwrap_or (option_copied texts.entry) []) path.now }
{
    match texts {
        None => &[],
        Some(files) => match files.get(path) {
            Some(text) => text.as_slice(),
            None => &[],
        },
    }
}

/// The file of a page in a layout.
fn laid_out_file(
    alloc: Global,
    at: &RelPath,
    layout: &[u8],
    page: &Page<'_>,
) -> Result<(RelPath, Bytes), ActionFault>
    ensures { let path = page.now.path.now in
        let meant = laid_out_file path (page_path (stem path))
        (laid_out_page at.now layout.now page.now.previous.now page.now.next.now path page.now.text.now
        page.now.html.now) in
        MatchResult result (λ file. meant ≡ Ok file) (λ fault. IsFailure fault meant) }
{
    let Some(new) = page_path(alloc, stem(page.path.as_str().as_bytes()))? else {
        return Err(without_path(alloc, page.path)?);
    };
    match laid_out_page(alloc, at, layout, page) {
        Ok(made) => Ok((new, made)),
        Err(fault) => Err(fault),
    }
}

/// The failure of a page that has no path.
fn without_path(alloc: Global, path: &RelPath) -> Result<ActionFault, AllocError>
    ensures { IfOk result (λ fault. fault ≡ ActionFailed (path.now ++ codes ": no path of a page")) }
{
    let text = Text::new(format!(in alloc; "{path}: no path of a page")?)?;
    Ok(ActionFault::ActionFailed(text))
}
