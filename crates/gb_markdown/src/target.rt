//! Targets of links: an address, and a title.
ghost use Rattle.std.specs.Prelude.{◌≡◌, ◌<◌, ◌≤◌, ◌++◌, length, IfOk, IfSome, false};
ghost use Rattle.std.specs.Option.{option_map};
ghost use Rattle.gb_markdown.specs.Targets.{angle_end, address_end, in_signs, address, quote_end, quote_of};
ghost use Rattle.gb_markdown.specs.Targets.{title_in, title, closed, following, target, unescaped, unescape};
ghost use Rattle.gb_markdown.specs.Targets.{is_hidden};
ghost use Rattle.gb_markdown.specs.Targets.{ends_address, parentheses};

use crate::runs::{is_space, spaces};
use std::alloc::{AllocError, Global};

/// The target of a link.
#[derive(Clone, Copy)]
pub struct Target<'a> {
    /// The address.
    pub address: &'a [u8],
    /// The title, which may be empty.
    pub title: &'a [u8],
}

/// The target at the beginning of a text, up to a `)`, and the rest after it.
pub(crate) fn read_target(line: &[u8]) -> Option<(Target<'_>, &[u8])>
    ensures { option_map (λ found. (found.0.address.now, found.0.title.now, found.1.now)) result
        ≡ target line.now }
{
    let (address, rest) = address(following(line));
    let (title, rest) = title(rest);
    let rest = closed(following(rest))?;
    Some((Target { address, title }, rest))
}

/// The rest after a `)`.
fn closed(line: &[u8]) -> Option<&[u8]>
    ensures { option_map (λ rest. rest.now) result ≡ closed line.now }
{
    let (first, rest) = line.split_first()?;
    if *first == b')' { Some(rest) } else { None }
}

/// The text after white space.
pub(crate) fn following(line: &[u8]) -> &[u8]
    ensures { result.now ≡ following line.now }
{
    &line[spaces(line)..]
}

/// The address at the beginning of a text, and the rest after it.
pub(crate) fn address(line: &[u8]) -> (&[u8], &[u8])
    ensures { (result.0.now, result.1.now) ≡ address line.now }
{
    let Some((first, inside)) = line.split_first() else {
        return (line, line);
    };
    if *first == b'<' {
        in_signs(line, inside, angle_end(inside))
    } else {
        line.split_at(address_end(line))
    }
}

/// A part that ends at an index before a sign, and the rest after that sign.
fn in_signs<'a>(line: &'a [u8], inside: &'a [u8], end: Option<usize>) -> (&'a [u8], &'a [u8])
    requires { IfSome end (λ end. end < length inside.now) }
    ensures { (result.0.now, result.1.now) ≡ in_signs line.now inside.now end }
{
    match end {
        None => (b"", line),
        Some(end) => (&inside[..end], &inside[end + 1..]),
    }
}

/// Where the first `>` on the line is.
pub(crate) fn angle_end(line: &[u8]) -> Option<usize>
    ensures value { result ≡ angle_end false 0 line.now }
    ensures within { IfSome result (λ end. end < length line.now) }
{
    let mut hidden = false;
    for (index, byte) in line.iter().enumerate() {
        if !hidden && *byte == b'>' {
            return Some(index);
        }
        if !hidden && (*byte == b'<' || *byte == b'\n') {
            return None;
        }
        hidden = is_hidden(hidden, *byte);
    }
    None
}

/// Where an address ends: at white space, at a `)` without its `(`, or at the fourth open `(`.
fn address_end(line: &[u8]) -> usize
    ensures value { result ≡ address_end false 0 0 line.now }
    ensures within { result ≤ length line.now }
{
    let mut deep: usize = 0;
    let mut hidden = false;
    for (index, byte) in line.iter().enumerate() {
        if ends_address(hidden, deep, *byte) {
            return index;
        }
        deep = parentheses(hidden, deep, *byte);
        hidden = is_hidden(hidden, *byte);
    }
    line.len()
}

/// Whether a byte ends an address in which this many parentheses are open.
fn ends_address(hidden: bool, deep: usize, byte: u8) -> bool
    ensures { result ≡ ends_address hidden deep byte }
{
    !hidden && (is_space(byte) || byte == b'(' && deep == 3 || byte == b')' && deep == 0)
}

/// How many parentheses are open after a byte that does not end the address.
fn parentheses(hidden: bool, deep: usize, byte: u8) -> usize
    requires low { deep ≤ 3 }
    requires more { ends_address hidden deep byte ≡ false }
    ensures value { result ≡ parentheses hidden deep byte }
    ensures low { result ≤ 3 }
{
    if !hidden && byte == b'(' {
        deep + 1
    } else if !hidden && byte == b')' {
        deep.saturating_sub(1)
    } else {
        deep
    }
}

/// Whether a byte hides the byte after it.
pub(crate) fn is_hidden(hidden: bool, byte: u8) -> bool
    ensures { result ≡ is_hidden hidden byte }
{
    !hidden && byte == b'\\'
}

/// The title at the beginning of a text after white space, and the rest after it.
pub(crate) fn title(line: &[u8]) -> (&[u8], &[u8])
    ensures { (result.0.now, result.1.now) ≡ title line.now }
{
    let gap = spaces(line);
    if gap == 0 {
        (b"", line)
    } else {
        title_in(&line[gap..])
    }
}

fn title_in(line: &[u8]) -> (&[u8], &[u8])
    ensures { (result.0.now, result.1.now) ≡ title_in line.now }
{
    let Some((first, inside)) = line.split_first() else {
        return (line, line);
    };
    match quote_of(*first) {
        None => (b"", line),
        Some(sign) => in_signs(line, inside, quote_end(sign, inside)),
    }
}

/// The sign that ends a title that begins with a sign.
fn quote_of(sign: u8) -> Option<u8>
    ensures { result ≡ quote_of sign }
{
    match sign {
        b'"' => Some(b'"'),
        b'\'' => Some(b'\''),
        b'(' => Some(b')'),
        _ => None,
    }
}

/// Where the title ends that this sign closes.
pub(crate) fn quote_end(sign: u8, line: &[u8]) -> Option<usize>
    ensures value { result ≡ quote_end sign false 0 line.now }
    ensures within { IfSome result (λ end. end < length line.now) }
{
    let mut hidden = false;
    for (index, byte) in line.iter().enumerate() {
        if !hidden && *byte == sign {
            return Some(index);
        }
        if !hidden && *byte == b'(' && sign == b')' {
            return None;
        }
        hidden = is_hidden(hidden, *byte);
    }
    None
}

/// The text without the backslashes before signs that they make literal.
pub(crate) fn unescaped(alloc: Global, line: &[u8]) -> Result<Vec<u8>, AllocError>
    ensures { IfOk result (λ made. made.items ≡ unescaped false line.now) }
{
    let mut made = Vec::new(alloc);
    let mut hidden = false;
    for byte in line {
        hidden = unescape(&mut made, hidden, *byte)?;
    }
    if hidden {
        made.push(b'\\')?;
    }
    Ok(made)
}

/// Writes a byte, and returns whether it is a backslash that the next byte may remove.
fn unescape(made: &mut Vec<u8>, hidden: bool, byte: u8) -> Result<bool, AllocError>
    ensures { IfOk result (λ after. (made.new.items ≡ made.old.items ++ unescape hidden byte)
        × (after ≡ is_hidden hidden byte)) }
{
    if !hidden && byte == b'\\' {
        return Ok(true);
    }
    if hidden && !byte.is_ascii_punctuation() {
        made.push(b'\\')?;
    }
    made.push(byte)?;
    Ok(false)
}
