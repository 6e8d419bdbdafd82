//! Tables.
ghost use Rattle.std.specs.Prelude.{◌≡◌, ◌++◌, ◌∷◌, [], OnOk, false};
ghost use Rattle.std.specs.Option.{option_map};
ghost use Rattle.gb_markdown.specs.Pieces.{written};
ghost use Rattle.gb_markdown.specs.References.{meanings};
ghost use Rattle.gb_markdown.specs.Tables.{rows_of, is_divider, cell, cells, without_bar, within_bars, row};
ghost use Rattle.gb_markdown.specs.Tables.{rows};
ghost use Rattle.gb_markdown.specs.Tables.{lines_in, table, table_begun, head_ended, both_ended, inline_of};
ghost use Rattle.gb_markdown.specs.Tables.{words_in};

use crate::inline::inline;
use crate::line_parsing::{without_signs, words_of};
use crate::references::Reference;
use crate::rendered::{Element, close, open, text};
use crate::runs::{is_space, trimmed};
use crate::target::is_hidden;
use bstr::ByteSlice;
use std::alloc::{AllocError, Global};

/// How deep labels may be nested.
const WORDS: u8 = 6;

/// Writes a text within a block.
#[tactic(auto, using(crate::proofs::Opened::words_depth_is))]
pub(crate) fn words(
    alloc: Global,
    page: &mut Vec<u8>,
    refs: &[Reference<'_>],
    line: &[u8],
) -> Result<(), AllocError>
    ensures { OnOk result (page.new.items ≡ page.old.items
        ++ written (inline_of (meanings refs.now) line.now)) }
{
    inline(alloc, page, WORDS, refs, line)
}

/// Writes a text in an element.
pub(crate) fn words_in(
    alloc: Global,
    page: &mut Vec<u8>,
    refs: &[Reference<'_>],
    element: Element,
    line: &[u8],
) -> Result<(), AllocError>
    ensures { OnOk result (page.new.items ≡ page.old.items
        ++ written (words_in (meanings refs.now) element line.now)) }
{
    open(page, element)?;
    words(alloc, page, refs, line)?;
    close(page, element)
}

/// Ends an element and the one around it, and the line.
#[tactic(auto, unfolding(crate::specs::Tables::both_ended))]
pub(crate) fn end_both(page: &mut Vec<u8>, inner: Element, outer: Element) -> Result<(), AllocError>
    ensures { OnOk result (page.new.items ≡ page.old.items ++ written (both_ended inner outer)) }
{
    close(page, inner)?;
    close(page, outer)?;
    text(page, b"\n")
}

/// The first line of a text, the second, and the others.
pub(crate) fn rows_of(taken: &[u8]) -> Option<(&[u8], &[u8], &[u8])>
    ensures { option_map (λ found. (found.0.now, found.1.now, found.2.now)) result ≡ rows_of taken.now }
{
    let (head, rest) = taken.split_once_str(b"\n")?;
    let (second, others) = rest.split_once_str(b"\n")?;
    Some((head, second, others))
}

/// Whether a line is the second one of a table.
pub(crate) fn is_divider(line: &[u8]) -> bool
    ensures { result ≡ is_divider false false line.now }
{
    let mut dash = false;
    let mut bar = false;
    for byte in line {
        if !(*byte == b'-' || *byte == b'|' || *byte == b':' || is_space(*byte)) {
            return false;
        }
        dash = dash || *byte == b'-';
        bar = bar || *byte == b'|';
    }
    dash && bar
}

/// Writes a table of a first line and others.
pub(crate) fn table(
    alloc: Global,
    page: &mut Vec<u8>,
    refs: &[Reference<'_>],
    head: &[u8],
    others: &[u8],
) -> Result<(), AllocError>
    ensures { OnOk result (page.new.items ≡ page.old.items
        ++ written (table (meanings refs.now) head.now others.now)) }
{
    begin_table(page)?;
    row(alloc, page, refs, Element::HeadCell, head)?;
    end_head(page)?;
    rows(alloc, page, refs, others)?;
    end_both(page, Element::Body, Element::Table)
}

/// Begins a table, and the part of it with the first row.
#[tactic(auto, unfolding(crate::specs::Tables::table_begun))]
fn begin_table(page: &mut Vec<u8>) -> Result<(), AllocError>
    ensures { OnOk result (page.new.items ≡ page.old.items ++ written table_begun) }
{
    open(page, Element::Table)?;
    open(page, Element::Head)
}

/// Ends the part of a table with the first row, and begins that with the others.
#[tactic(auto, unfolding(crate::specs::Tables::head_ended))]
fn end_head(page: &mut Vec<u8>) -> Result<(), AllocError>
    ensures { OnOk result (page.new.items ≡ page.old.items ++ written head_ended) }
{
    close(page, Element::Head)?;
    open(page, Element::Body)
}

/// Writes the rows of a table.
fn rows(
    alloc: Global,
    page: &mut Vec<u8>,
    refs: &[Reference<'_>],
    others: &[u8],
) -> Result<(), AllocError>
    ensures { OnOk result (page.new.items ≡ page.old.items
        ++ written (rows (meanings refs.now) (lines_in others.now))) }
{
    for line in others.lines() {
        row(alloc, page, refs, Element::Cell, line)?;
    }
    Ok(())
}

/// Writes a row.
#[tactic(auto, unfolding(crate::specs::Tables::row))]
fn row(
    alloc: Global,
    page: &mut Vec<u8>,
    refs: &[Reference<'_>],
    element: Element,
    line: &[u8],
) -> Result<(), AllocError>
    ensures { OnOk result (page.new.items ≡ page.old.items
        ++ written (row (meanings refs.now) element line.now)) }
{
    open(page, Element::Row)?;
    cells(alloc, page, refs, element, within_bars(line))?;
    close(page, Element::Row)?;
    text(page, b"\n")
}

/// The row without the `|` before its first cell and after its last.
fn within_bars(line: &[u8]) -> &[u8]
    ensures { result.now ≡ within_bars line.now }
{
    without_signs(b'|', without_bar(trimmed(words_of(line))))
}

fn without_bar(line: &[u8]) -> &[u8]
    ensures { result.now ≡ without_bar line.now }
{
    let Some((first, rest)) = line.split_first() else {
        return line;
    };
    if *first == b'|' { rest } else { line }
}

/// Writes the cells of a row.
fn cells(
    alloc: Global,
    page: &mut Vec<u8>,
    refs: &[Reference<'_>],
    element: Element,
    line: &[u8],
) -> Result<(), AllocError>
    ensures { OnOk result (page.new.items ≡ page.old.items
        ++ written (cells (meanings refs.now) element false [] line.now)) }
{
    let mut hidden = false;
    let mut taken = Vec::new(alloc);
    for byte in line {
        if !hidden && *byte == b'|' {
            cell(alloc, page, refs, element, taken.as_slice())?;
            taken.clear();
            hidden = false;
        } else {
            taken.push(*byte)?;
            hidden = is_hidden(hidden, *byte);
        }
    }
    cell(alloc, page, refs, element, taken.as_slice())
}

/// Writes a cell.
fn cell(
    alloc: Global,
    page: &mut Vec<u8>,
    refs: &[Reference<'_>],
    element: Element,
    line: &[u8],
) -> Result<(), AllocError>
    ensures { OnOk result (page.new.items ≡ page.old.items
        ++ written (cell (meanings refs.now) element line.now)) }
{
    words_in(alloc, page, refs, element, trimmed(words_of(line)))
}
