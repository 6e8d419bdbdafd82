//! Links by reference: lines `[label]: address "title"`, and what a label refers to.
ghost use Rattle.std.specs.Prelude.{◌≡◌, ◌<◌, ◌≤◌, length, IfSome};
ghost use Rattle.std.specs.Option.{option_map};
ghost use Rattle.gb_markdown.specs.References.{after_colon, defined, defined_as, defined_in, is_label};
ghost use Rattle.gb_markdown.specs.References.{is_like, is_same, meaning, meanings, referred};

use crate::runs::{is_blank, is_space, run};
use crate::target::{Target, address, following, quote_end, title};

/// A label that a page defines.
#[derive(Clone, Copy)]
pub struct Reference<'a> {
    /// The label, without its brackets.
    pub label: &'a [u8],
    /// The target of links with the label.
    pub target: Target<'a>,
}

/// The target of the first reference with a label.
pub(crate) fn referred<'a>(label: &[u8], references: &'a [Reference<'a>]) -> Option<Target<'a>>
    ensures { option_map (λ found. (found.address.now, found.title.now)) result
        ≡ referred label.now (meanings references.now) }
{
    for reference in references {
        if is_same(label, reference.label) {
            return Some(reference.target);
        }
    }
    None
}

/// Whether two labels are the same, ignoring the case of letters and the kind of white space.
fn is_same(label: &[u8], other: &[u8]) -> bool
    ensures { result ≡ is_same label.now other.now }
{
    let mut rest = other;
    for byte in label {
        let Some((first, others)) = rest.split_first() else {
            return false;
        };
        if !is_like(*byte, *first) {
            return false;
        }
        rest = others;
    }
    rest.is_empty()
}

fn is_like(byte: u8, other: u8) -> bool
    ensures { result ≡ is_like byte other }
{
    byte.eq_ignore_ascii_case(&other) || is_space(byte) && is_space(other)
}

/// The label that a line defines.
pub(crate) fn defined(line: &[u8]) -> Option<Reference<'_>>
    ensures { option_map meaning result ≡ defined line.now }
{
    let indent = run(b' ', line);
    if indent < 4 {
        defined_in(&line[indent..])
    } else {
        None
    }
}

/// The label that a text in brackets defines.
fn defined_in(body: &[u8]) -> Option<Reference<'_>>
    ensures { option_map meaning result ≡ defined_in body.now }
{
    let (first, rest) = body.split_first()?;
    if *first != b'[' {
        return None;
    }
    let end = quote_end(b']', rest)?;
    let label = &rest[..end];
    if is_label(label) {
        after_colon(label, &rest[end + 1..])
    } else {
        None
    }
}

/// Whether a label has words, and no brackets in it except after backslashes.
fn is_label(label: &[u8]) -> bool
    ensures { result ≡ is_label label.now }
{
    !is_blank(label) && quote_end(b'[', label).is_none()
}

/// The definition of a label by the text after its brackets.
fn after_colon<'a>(label: &'a [u8], line: &'a [u8]) -> Option<Reference<'a>>
    ensures { option_map meaning result ≡ after_colon label.now line.now }
{
    let (first, rest) = line.split_first()?;
    if *first != b':' {
        return None;
    }
    let (address, rest) = address(following(rest));
    let (title, rest) = title(rest);
    if !address.is_empty() && is_blank(rest) {
        Some(Reference {
            label,
            target: Target { address, title },
        })
    } else {
        None
    }
}
