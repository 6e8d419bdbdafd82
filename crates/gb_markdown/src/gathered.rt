//! The labels that a page defines, and its other lines.
ghost use Rattle.std.specs.Prelude.{◌≡◌, ◌++◌, ◌∷◌, [], IfOk, OnOk};
ghost use Rattle.std.specs.Option.{option_map};
ghost use Rattle.gb_markdown.specs.Blocks.{begun_block, defined_after, kept_block, with_labels_taken};
ghost use Rattle.gb_markdown.specs.Blocks.{with_reference};
ghost use Rattle.gb_markdown.specs.Lines.{said_by};
ghost use Rattle.gb_markdown.specs.References.{meaning, meanings};
ghost use Rattle.gb_markdown.specs.Tables.{lines_in};
ghost use Rattle.gb_markdown.specs.declared.blocks.Block.TheVariants as blocks;

use crate::blocks::{Block, OpenList, add, after, goes_on, is_code, is_open, unquoted};
use crate::line_parsing::{Line, read_line};
use crate::references::{Reference, defined};
use bstr::ByteSlice;
use std::alloc::{AllocError, Global};

/// How many labels a page may define.
const MOST: usize = 512;

/// The labels that a page defines, and its other lines.
pub(crate) fn with_labels_taken(
    alloc: Global,
    source: &[u8],
) -> Result<(Vec<Reference<'_>>, Vec<u8>), AllocError>
    ensures { IfOk result (λ found. (meanings found.0.items, found.1.items)
        ≡ with_labels_taken [] blocks.Nothing [] (lines_in source.now)) }
{
    let mut references = Vec::new(alloc);
    let mut text = Vec::new(alloc);
    let mut block = Block::Nothing;
    for line in source.lines() {
        if goes_on(block, line) {
            add(&mut text, line)?;
            block = kept_block(block, line);
        } else if let Some(reference) = defined_after(block, line) {
            add_reference(&mut references, reference)?;
            block = Block::Nothing;
        } else {
            add(&mut text, line)?;
            block = begun_block(is_code(block), read_line(line));
        }
    }
    Ok((references, text))
}

/// The label that a line defines if it does not continue the open block.
fn defined_after(block: Block, line: &[u8]) -> Option<Reference<'_>>
    ensures { option_map meaning result ≡ defined_after block line.now }
{
    if is_code(block) { None } else { defined(line) }
}

/// Adds a label, up to this many.
fn add_reference<'a>(
    references: &mut Vec<Reference<'a>>,
    reference: Reference<'a>,
) -> Result<(), AllocError>
    ensures { OnOk result (meanings references.new.items
        ≡ with_reference (meanings references.old.items) (meaning reference.entry)) }
{
    if references.len() < MOST {
        references.push(reference)?;
    }
    Ok(())
}

/// The open block after a line that belongs to it.
fn kept_block(block: Block, line: &[u8]) -> Block
    ensures { result ≡ kept_block block line.now }
{
    match block {
        Block::Quote(_) => Block::Quote(is_open(read_line(unquoted(line)))),
        Block::Items(list) => Block::Items(after(list, line)),
        Block::Nothing | Block::Paragraph | Block::Code(_) | Block::Indented => block,
    }
}

/// The block that a line begins, or none if the line ends code.
fn begun_block(ended: bool, says: Line<'_>) -> Block
    ensures { result ≡ begun_block ended (said_by says.entry) }
{
    match says {
        Line::Nothing | Line::Heading(_, _) | Line::Rule => Block::Nothing,
        Line::Fence(fence, _) => {
            if ended {
                Block::Nothing
            } else {
                Block::Code(fence)
            }
        }
        Line::Quote(words) => Block::Quote(is_open(read_line(words))),
        Line::Item(marker, _, _) => Block::Items(OpenList {
            marker,
            ended: false,
            spaced: false,
        }),
        Line::Indented(_) => Block::Indented,
        Line::Words(_) => Block::Paragraph,
    }
}
