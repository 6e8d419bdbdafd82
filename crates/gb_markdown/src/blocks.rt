//! Blocks of a page.
ghost use Rattle.std.specs.Prelude.{◌≡◌, ◌++◌, ◌∷◌, [], map, OnOk, IfOk};
ghost use Rattle.gb_markdown.specs.Pieces.{written, piece_text, Named};
ghost use Rattle.gb_markdown.specs.Lines.{said, said_by, words_of};
ghost use Rattle.gb_markdown.specs.Blocks.{is_words, ends_code, is_indented, is_quoted, is_listed};
ghost use Rattle.gb_markdown.specs.Blocks.{is_outside};
ghost use Rattle.gb_markdown.specs.Blocks.{goes_on, without_indent, unquoted, inside, kept_pieces, kept_text};
ghost use Rattle.gb_markdown.specs.Blocks.{is_open, with_item, with_words, after, kept_block, heading};
ghost use Rattle.gb_markdown.specs.Blocks.{list_of};
ghost use Rattle.gb_markdown.specs.Blocks.{listing, listing_of, is_code, begun_pieces, begun_text};
ghost use Rattle.gb_markdown.specs.Blocks.{begun_block, paragraph};
ghost use Rattle.gb_markdown.specs.References.{meanings};
ghost use Rattle.gb_markdown.specs.Tables.{lines_in, rows_of};
ghost use Rattle.gb_markdown.specs.Blocks.{starts, is_item, item_width, item_words, item_of};
ghost use Rattle.gb_markdown.specs.Blocks.{items, indented, quote_begun, quote_ended, table_or};
ghost use Rattle.gb_markdown.specs.Blocks.{begun_names, finished, id_of, slug, blocks_of, html, with_name};

use crate::gathered::with_labels_taken;
use crate::line_parsing::{Fence, Line, Marker, has, read_line, words_of};
use crate::pipe_table::{end_both, is_divider, rows_of, table, words, words_in};
use crate::references::Reference;
use crate::rendered::{Element, close, code, named, numbered, open, text};
use crate::runs::{is_blank, run, trimmed};
use crate::slug::{Names, add_name, id_of, slug};
use bstr::ByteSlice;
use std::alloc::{AllocError, Global};

/// The open block.
#[derive(Clone, Copy)]
pub enum Block {
    /// None is open.
    Nothing,
    /// A paragraph.
    Paragraph,
    /// Code.
    Code(Fence),
    /// Code whose lines begin with four spaces.
    Indented,
    /// A quote, and whether it continues with words alone.
    Quote(bool),
    /// Items of a list.
    Items(OpenList),
}

/// A list whose items are being read.
#[derive(Clone, Copy)]
pub struct OpenList {
    /// The sign before its last item.
    pub marker: Marker,
    /// Whether its last line is empty.
    pub ended: bool,
    /// Whether more content follows an empty line.
    pub spaced: bool,
}

/// How deep quotes and items may be nested.
const BLOCKS: u8 = 16;

/// The page of a text.
#[tactic(auto, using(crate::proofs::Opened::blocks_depth_is))]
pub fn html(alloc: Global, source: &[u8]) -> Result<Vec<u8>, AllocError>
    ensures { IfOk result (λ page. page.items ≡ html source.now) }
{
    let mut page = Vec::new(alloc);
    let (references, text) = with_labels_taken(alloc, source)?;
    let mut names = Vec::new(alloc);
    blocks(
        alloc,
        &mut page,
        BLOCKS,
        references.as_slice(),
        &mut names,
        false,
        text.as_slice(),
    )?;
    Ok(page)
}

/// Writes the blocks of a text. In a list without empty lines paragraphs have no tags.
#[cycle(nested)]
#[tactic(auto, using(crate::proofs::Opened::blocks_none, crate::proofs::Opened::blocks_some))]
fn blocks(
    alloc: Global,
    page: &mut Vec<u8>,
    depth: u8,
    refs: &[Reference<'_>],
    names: &mut Names,
    tight: bool,
    source: &[u8],
) -> Result<(), AllocError>
    ensures { let made = blocks_of depth (meanings refs.now) (map (λ name. name.items) names.old.items) tight
        source.now in
        OnOk result ((page.new.items ≡ page.old.items ++ written made.0)
        × (map (λ name. name.items) names.new.items ≡ made.1)) }
{
    if depth == 0 {
        paragraph(alloc, page, refs, tight, source)?;
        return Ok(());
    }
    let mut block = Block::Nothing;
    let mut taken = Vec::new(alloc);
    for line in source.lines() {
        if goes_on(block, line) {
            block = keep(page, &mut taken, block, line)?;
        } else {
            finish(
                alloc,
                page,
                depth - 1,
                refs,
                names,
                tight,
                block,
                taken.as_slice(),
            )?;
            taken.clear();
            block = begin(alloc, page, refs, names, &mut taken, is_code(block), line)?;
        }
    }
    finish(
        alloc,
        page,
        depth - 1,
        refs,
        names,
        tight,
        block,
        taken.as_slice(),
    )
}

/// Whether a line belongs to the open block.
pub(crate) fn goes_on(block: Block, line: &[u8]) -> bool
    ensures { result ≡ goes_on block line.now }
{
    match block {
        Block::Nothing => false,
        Block::Paragraph => is_words(read_line(line)),
        Block::Code(fence) => !ends_code(fence, line),
        Block::Indented => is_indented(read_line(line)),
        Block::Quote(more) => is_quoted(more, read_line(line)),
        Block::Items(list) => {
            !is_outside(list.marker.width, line) || is_listed(list, read_line(line))
        }
    }
}

/// Whether a line continues a paragraph.
fn is_words(says: Line<'_>) -> bool
    ensures { result ≡ is_words (said_by says.entry) }
{
    match says {
        Line::Words(_) | Line::Indented(_) => true,
        Line::Item(_, first, words) => {
            words.is_empty() || !first.is_empty() && first != b"1".as_slice()
        }
        Line::Nothing | Line::Fence(_, _) | Line::Heading(_, _) | Line::Rule | Line::Quote(_) =>
            false,
    }
}

/// Whether a line ends code.
fn ends_code(fence: Fence, line: &[u8]) -> bool
    ensures { result ≡ ends_code fence line.now }
{
    let indent = run(b' ', line);
    let body = &line[indent..];
    let length = run(fence.sign, body);
    indent < 4 && fence.length <= length && is_blank(&body[length..])
}

/// Whether a line continues code after four spaces.
fn is_indented(says: Line<'_>) -> bool
    ensures { result ≡ is_indented (said_by says.entry) }
{
    match says {
        Line::Nothing | Line::Indented(_) => true,
        Line::Fence(_, _)
        | Line::Heading(_, _)
        | Line::Rule
        | Line::Quote(_)
        | Line::Item(_, _, _)
        | Line::Words(_) => false,
    }
}

/// Whether a line continues a quote.
fn is_quoted(more: bool, says: Line<'_>) -> bool
    ensures { result ≡ is_quoted more (said_by says.entry) }
{
    match says {
        Line::Quote(_) => true,
        Line::Words(_) | Line::Indented(_) => more,
        Line::Nothing
        | Line::Fence(_, _)
        | Line::Heading(_, _)
        | Line::Rule
        | Line::Item(_, _, _) => false,
    }
}

/// Whether a line begins with fewer spaces than an item is wide.
fn is_outside(width: usize, line: &[u8]) -> bool
    ensures { result ≡ is_outside width line.now }
{
    run(b' ', line) < width
}

/// Whether a line that is in no item of a list continues the list.
fn is_listed(list: OpenList, says: Line<'_>) -> bool
    ensures { result ≡ is_listed list (said_by says.entry) }
{
    match says {
        Line::Nothing => true,
        Line::Words(_) | Line::Indented(_) => !list.ended,
        Line::Item(marker, _, _) => marker.sign == list.marker.sign,
        Line::Fence(_, _) | Line::Heading(_, _) | Line::Rule | Line::Quote(_) => false,
    }
}

/// Takes a line that belongs to the open block.
fn keep(
    page: &mut Vec<u8>,
    taken: &mut Vec<u8>,
    block: Block,
    line: &[u8],
) -> Result<Block, AllocError>
    ensures { IfOk result (λ after. (page.new.items ≡ page.old.items ++ written (kept_pieces block line.now))
        × (taken.new.items ≡ taken.old.items ++ kept_text block line.now)
        × (after ≡ kept_block block line.now)) }
{
    match block {
        Block::Nothing => Ok(block),
        Block::Paragraph => {
            add(taken, words_of(line))?;
            Ok(block)
        }
        Block::Code(fence) => {
            text(page, without_indent(fence.indent, line))?;
            text(page, b"\n")?;
            Ok(block)
        }
        Block::Indented => {
            add(taken, without_indent(4, line))?;
            Ok(block)
        }
        Block::Quote(_) => {
            let words = unquoted(line);
            add(taken, words)?;
            Ok(Block::Quote(is_open(read_line(words))))
        }
        Block::Items(list) => {
            add(taken, line)?;
            Ok(Block::Items(after(list, line)))
        }
    }
}

/// Adds a line.
pub(crate) fn add(taken: &mut Vec<u8>, line: &[u8]) -> Result<(), AllocError>
    ensures { OnOk result (taken.new.items ≡ taken.old.items ++ (line.now ++ 10 ∷ [])) }
{
    taken.extend_from_slice(line)?;
    taken.push(b'\n')?;
    Ok(())
}

/// The line without this many spaces before it, or without all of them if there are fewer.
fn without_indent(count: usize, line: &[u8]) -> &[u8]
    ensures { result.now ≡ without_indent count line.now }
{
    let indent = run(b' ', line);
    if indent < count {
        &line[indent..]
    } else {
        &line[count..]
    }
}

/// The line without the sign of a quote.
pub(crate) fn unquoted(line: &[u8]) -> &[u8]
    ensures { result.now ≡ unquoted line.now }
{
    match read_line(line) {
        Line::Quote(rest) => rest,
        Line::Nothing
        | Line::Fence(_, _)
        | Line::Heading(_, _)
        | Line::Rule
        | Line::Item(_, _, _)
        | Line::Indented(_)
        | Line::Words(_) => line,
    }
}

/// Whether words continue a quote whose last line is this.
pub(crate) fn is_open(says: Line<'_>) -> bool
    ensures { result ≡ is_open (said_by says.entry) }
{
    match says {
        Line::Words(_) | Line::Quote(_) | Line::Item(_, _, _) => true,
        Line::Nothing | Line::Fence(_, _) | Line::Heading(_, _) | Line::Rule | Line::Indented(_) =>
            false,
    }
}

/// A list after a line of it.
pub(crate) fn after(list: OpenList, line: &[u8]) -> OpenList
    ensures { result ≡ after list line.now }
{
    let outer = is_outside(list.marker.width, line);
    match read_line(inside(list.marker.width, line)) {
        Line::Nothing => OpenList {
            marker: list.marker,
            ended: true,
            spaced: list.spaced,
        },
        Line::Item(marker, _, _) => with_item(list, outer, marker),
        Line::Fence(_, _)
        | Line::Heading(_, _)
        | Line::Rule
        | Line::Quote(_)
        | Line::Indented(_)
        | Line::Words(_) => with_words(list),
    }
}

/// A list after an item of it, or of a nested list.
fn with_item(list: OpenList, outer: bool, marker: Marker) -> OpenList
    ensures { result ≡ with_item list outer marker }
{
    let marker = if outer { marker } else { list.marker };
    OpenList {
        marker,
        ended: false,
        spaced: list.spaced || list.ended && outer,
    }
}

/// A list after another line with words.
fn with_words(list: OpenList) -> OpenList
    ensures { result ≡ with_words list }
{
    OpenList {
        marker: list.marker,
        ended: false,
        spaced: list.spaced || list.ended,
    }
}

/// The part of a line that is in an item of this width.
fn inside(width: usize, line: &[u8]) -> &[u8]
    ensures { result.now ≡ inside width line.now }
{
    if run(b' ', line) < width {
        line
    } else {
        &line[width..]
    }
}

pub(crate) fn is_code(block: Block) -> bool
    ensures { result ≡ is_code block }
{
    match block {
        Block::Code(_) => true,
        Block::Nothing | Block::Paragraph | Block::Indented | Block::Quote(_) | Block::Items(_) =>
            false,
    }
}

/// Begins the block of a line, or none if the line ends code.
fn begin(
    alloc: Global,
    page: &mut Vec<u8>,
    refs: &[Reference<'_>],
    names: &mut Names,
    taken: &mut Vec<u8>,
    ended: bool,
    line: &[u8],
) -> Result<Block, AllocError>
    ensures { let says = said line.now in IfOk result (λ after.
        (page.new.items ≡ page.old.items ++ written (begun_pieces (meanings refs.now)
        (map (λ name. name.items) names.old.items) ended says))
        × (map (λ name. name.items) names.new.items ≡ begun_names
        (map (λ name. name.items) names.old.items) says)
        × (taken.new.items ≡ taken.old.items ++ begun_text line.now says)
        × (after ≡ begun_block ended says)) }
{
    match read_line(line) {
        Line::Nothing => Ok(Block::Nothing),
        Line::Fence(fence, language) => {
            if ended {
                return Ok(Block::Nothing);
            }
            open(page, Element::Block)?;
            code(page, language)?;
            Ok(Block::Code(fence))
        }
        Line::Heading(element, words) => {
            heading(alloc, page, refs, names, element, words)?;
            Ok(Block::Nothing)
        }
        Line::Rule => {
            open(page, Element::Rule)?;
            text(page, b"\n")?;
            Ok(Block::Nothing)
        }
        Line::Quote(words) => {
            add(taken, words)?;
            Ok(Block::Quote(is_open(read_line(words))))
        }
        Line::Item(marker, first, _) => {
            begin_list(page, marker.sign, first)?;
            add(taken, line)?;
            Ok(Block::Items(OpenList {
                marker,
                ended: false,
                spaced: false,
            }))
        }
        Line::Indented(words) => {
            add(taken, words)?;
            Ok(Block::Indented)
        }
        Line::Words(words) => {
            add(taken, words)?;
            Ok(Block::Paragraph)
        }
    }
}

/// Begins a list.
fn begin_list(page: &mut Vec<u8>, sign: u8, first: &[u8]) -> Result<(), AllocError>
    ensures { OnOk result (page.new.items ≡ page.old.items ++ written (listing sign first.now)) }
{
    if sign == b'.' || sign == b')' {
        begin_numbered(page, first)?;
    } else {
        open(page, Element::Items)?;
    }
    text(page, b"\n")
}

/// Begins a list with a number.
fn begin_numbered(page: &mut Vec<u8>, first: &[u8]) -> Result<(), AllocError>
    ensures { OnOk result (page.new.items ≡ page.old.items ++ piece_text (listing_of first.now)) }
{
    if first == b"1".as_slice() {
        open(page, Element::Numbered)
    } else {
        numbered(page, first)
    }
}

/// Writes a heading, with its name.
fn heading(
    alloc: Global,
    page: &mut Vec<u8>,
    refs: &[Reference<'_>],
    names: &mut Names,
    element: Element,
    line: &[u8],
) -> Result<(), AllocError>
    ensures { let known = map (λ name. name.items) names.old.items in
        OnOk result ((page.new.items ≡ page.old.items
        ++ written (heading (meanings refs.now) known element line.now))
        × (map (λ name. name.items) names.new.items ≡ with_name known (slug line.now))) }
{
    let name = slug(alloc, line)?;
    begin_heading(alloc, page, names.as_slice(), element, name.as_slice())?;
    add_name(names, name)?;
    words(alloc, page, refs, line)?;
    close(page, element)?;
    text(page, b"\n")?;
    Ok(())
}

/// Begins a heading with a name.
fn begin_heading(
    alloc: Global,
    page: &mut Vec<u8>,
    names: &[Vec<u8>],
    element: Element,
    name: &[u8],
) -> Result<(), AllocError>
    ensures { OnOk result (page.new.items ≡ page.old.items
        ++ piece_text (Named element (id_of (map (λ other. other.items) names.now) name.now))) }
{
    let id = id_of(alloc, names, name)?;
    named(page, element, id.as_slice())
}

/// Writes the open block, and ends it.
#[cycle(nested)]
fn finish(
    alloc: Global,
    page: &mut Vec<u8>,
    depth: u8,
    refs: &[Reference<'_>],
    names: &mut Names,
    tight: bool,
    block: Block,
    taken: &[u8],
) -> Result<(), AllocError>
    ensures { let made = finished (blocks_of depth (meanings refs.now)) (meanings refs.now)
        (map (λ name. name.items) names.old.items) tight block taken.now in
        OnOk result ((page.new.items ≡ page.old.items ++ written made.0)
        × (map (λ name. name.items) names.new.items ≡ made.1)) }
{
    match block {
        Block::Nothing => {}
        Block::Paragraph => table_or(alloc, page, refs, tight, taken)?,
        Block::Code(_) => end_both(page, Element::Code, Element::Block)?,
        Block::Indented => indented(page, taken)?,
        Block::Quote(_) => {
            begin_quote(page)?;
            blocks(alloc, page, depth, refs, names, false, taken)?;
            end_quote(page)?;
        }
        Block::Items(list) => {
            items(alloc, page, depth, refs, names, !list.spaced, taken)?;
            close(page, list_of(list.marker.sign))?;
            text(page, b"\n")?;
        }
    }
    Ok(())
}

/// Writes code whose lines began with four spaces.
fn indented(page: &mut Vec<u8>, taken: &[u8]) -> Result<(), AllocError>
    ensures { OnOk result (page.new.items ≡ page.old.items ++ written (indented taken.now)) }
{
    open(page, Element::Block)?;
    open(page, Element::Code)?;
    text(page, trimmed(taken))?;
    text(page, b"\n")?;
    end_both(page, Element::Code, Element::Block)
}

/// Begins a quote.
#[tactic(auto, unfolding(crate::specs::Blocks::quote_begun))]
fn begin_quote(page: &mut Vec<u8>) -> Result<(), AllocError>
    ensures { OnOk result (page.new.items ≡ page.old.items ++ written quote_begun) }
{
    open(page, Element::Quote)
}

/// Ends a quote.
#[tactic(auto, unfolding(crate::specs::Blocks::quote_ended))]
fn end_quote(page: &mut Vec<u8>) -> Result<(), AllocError>
    ensures { OnOk result (page.new.items ≡ page.old.items ++ written quote_ended) }
{
    close(page, Element::Quote)?;
    text(page, b"\n")
}

/// Writes a table, or a paragraph.
fn table_or(
    alloc: Global,
    page: &mut Vec<u8>,
    refs: &[Reference<'_>],
    tight: bool,
    taken: &[u8],
) -> Result<(), AllocError>
    ensures { OnOk result (page.new.items ≡ page.old.items ++ written
        (table_or (meanings refs.now) tight taken.now (rows_of taken.now))) }
{
    let Some((head, second, others)) = rows_of(taken) else {
        return paragraph(alloc, page, refs, tight, taken);
    };
    if is_divider(second) && has(b'|', head) {
        table(alloc, page, refs, head, others)
    } else {
        paragraph(alloc, page, refs, tight, taken)
    }
}

/// The list whose items have the sign.
fn list_of(sign: u8) -> Element
    ensures { result ≡ list_of sign }
{
    if sign == b'.' || sign == b')' {
        Element::Numbered
    } else {
        Element::Items
    }
}

/// Writes a paragraph.
fn paragraph(
    alloc: Global,
    page: &mut Vec<u8>,
    refs: &[Reference<'_>],
    tight: bool,
    line: &[u8],
) -> Result<(), AllocError>
    ensures { OnOk result (page.new.items ≡ page.old.items
        ++ written (paragraph (meanings refs.now) tight line.now)) }
{
    if tight {
        words(alloc, page, refs, trimmed(line))?;
        return text(page, b"\n");
    }
    words_in(alloc, page, refs, Element::Paragraph, trimmed(line))?;
    text(page, b"\n")
}

/// Writes the items of a list.
#[cycle(nested)]
fn items(
    alloc: Global,
    page: &mut Vec<u8>,
    depth: u8,
    refs: &[Reference<'_>],
    names: &mut Names,
    tight: bool,
    source: &[u8],
) -> Result<(), AllocError>
    ensures { let made = items (blocks_of depth (meanings refs.now))
        (map (λ name. name.items) names.old.items) tight 0 [] (lines_in source.now) in
        OnOk result ((page.new.items ≡ page.old.items ++ written made.0)
        × (map (λ name. name.items) names.new.items ≡ made.1)) }
{
    let mut width = 0;
    let mut taken = Vec::new(alloc);
    for line in source.lines() {
        if starts(width, line) {
            item(
                alloc,
                page,
                depth,
                refs,
                names,
                tight,
                width,
                taken.as_slice(),
            )?;
            taken.clear();
            add(&mut taken, item_words(line))?;
            width = item_width(read_line(line));
        } else {
            add(&mut taken, inside(width, line))?;
        }
    }
    item(
        alloc,
        page,
        depth,
        refs,
        names,
        tight,
        width,
        taken.as_slice(),
    )
}

/// Writes an item of this width, if one has begun.
#[cycle(nested)]
fn item(
    alloc: Global,
    page: &mut Vec<u8>,
    depth: u8,
    refs: &[Reference<'_>],
    names: &mut Names,
    tight: bool,
    width: usize,
    taken: &[u8],
) -> Result<(), AllocError>
    ensures { let made = item_of (blocks_of depth (meanings refs.now))
        (map (λ name. name.items) names.old.items) tight width taken.now in
        OnOk result ((page.new.items ≡ page.old.items ++ written made.0)
        × (map (λ name. name.items) names.new.items ≡ made.1)) }
{
    if width == 0 {
        return Ok(());
    }
    open(page, Element::Item)?;
    blocks(alloc, page, depth, refs, names, tight, taken)?;
    close(page, Element::Item)?;
    text(page, b"\n")?;
    Ok(())
}

/// Whether a line begins an item, after one of this width.
fn starts(width: usize, line: &[u8]) -> bool
    ensures { result ≡ starts width line.now }
{
    is_item(read_line(line)) && (width == 0 || is_outside(width, line))
}

fn is_item(says: Line<'_>) -> bool
    ensures { result ≡ is_item (said_by says.entry) }
{
    match says {
        Line::Item(_, _, _) => true,
        Line::Nothing
        | Line::Fence(_, _)
        | Line::Heading(_, _)
        | Line::Rule
        | Line::Quote(_)
        | Line::Indented(_)
        | Line::Words(_) => false,
    }
}

/// The width of the item that a line begins.
fn item_width(says: Line<'_>) -> usize
    ensures { result ≡ item_width (said_by says.entry) }
{
    match says {
        Line::Item(marker, _, _) => marker.width,
        Line::Nothing
        | Line::Fence(_, _)
        | Line::Heading(_, _)
        | Line::Rule
        | Line::Quote(_)
        | Line::Indented(_)
        | Line::Words(_) => 0,
    }
}

/// The words of the item that a line begins.
fn item_words(line: &[u8]) -> &[u8]
    ensures { result.now ≡ item_words line.now (said line.now) }
{
    match read_line(line) {
        Line::Item(_, _, words) => words,
        Line::Nothing
        | Line::Fence(_, _)
        | Line::Heading(_, _)
        | Line::Rule
        | Line::Quote(_)
        | Line::Indented(_)
        | Line::Words(_) => line,
    }
}
