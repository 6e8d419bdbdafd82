//! How the lines of a page are parsed.
ghost use Rattle.std.specs.Prelude.{◌≡◌, ◌∷◌, ◌<◌, ◌≤◌, length};
ghost use Rattle.std.specs.List.{prefix_len};
ghost use Rattle.gb_markdown.specs.Lines.{said_by, said, said_after, without_space, headed};
ghost use Rattle.gb_markdown.specs.Lines.{without_signs, without_end};
ghost use Rattle.gb_markdown.specs.Lines.{words_of, heading_of, heading, word, is_letter, has, fence};
ghost use Rattle.gb_markdown.specs.Lines.{is_rule};
ghost use Rattle.gb_markdown.specs.Lines.{item, rule_or_item, number, numbered};

use crate::rendered::Element;
use crate::runs::{digits, is_blank, is_space, run, spaces, trimmed};

/// What a line is parsed as.
#[derive(Clone, Copy)]
pub enum Line<'a> {
    /// It has no words.
    Nothing,
    /// Code begins, in a language.
    Fence(Fence, &'a [u8]),
    /// A heading of this rank, and its words.
    Heading(Element, &'a [u8]),
    /// A rule.
    Rule,
    /// A line that is quoted.
    Quote(&'a [u8]),
    /// An item of a list begins: its sign, its number if it has one, and its words.
    Item(Marker, &'a [u8], &'a [u8]),
    /// The text after four spaces.
    Indented(&'a [u8]),
    /// Words of a paragraph.
    Words(&'a [u8]),
}

/// The line that begins code.
#[derive(Clone, Copy)]
pub struct Fence {
    /// A backquote or `~`.
    pub sign: u8,
    /// How many times the sign occurs there.
    pub length: usize,
    /// How many spaces precede it.
    pub indent: usize,
}

/// The sign before an item of a list.
#[derive(Clone, Copy)]
pub struct Marker {
    /// `-`, `+` or `*`; for a number the sign after it, `.` or `)`.
    pub sign: u8,
    /// How many bytes precede the words of the item.
    pub width: usize,
}

/// Parses a line.
#[tactic(auto, unfolding(crate::specs::Lines::said))]
pub fn read_line(line: &[u8]) -> Line<'_>
    ensures { said_by result ≡ said line.now }
{
    let indent = run(b' ', line);
    if is_blank(line) {
        Line::Nothing
    } else if indent > 3 {
        Line::Indented(&line[4..])
    } else {
        read_after(indent, &line[indent..])
    }
}

/// Parses a line after this many spaces.
fn read_after(indent: usize, body: &[u8]) -> Line<'_>
    requires { indent < 4 }
    ensures { said_by result ≡ said_after indent body.now }
{
    let Some((first, rest)) = body.split_first() else {
        return Line::Nothing;
    };
    match first {
        b'#' => read_heading(body),
        b'>' => Line::Quote(without_space(rest)),
        b'`' | b'~' => read_fence(indent, *first, body),
        b'*' | b'-' | b'_' | b'+' => rule_or_item(indent, *first, rest, body),
        _ => numbered(indent, body),
    }
}

/// The text without a leading space.
fn without_space(line: &[u8]) -> &[u8]
    ensures { result.now ≡ without_space line.now }
{
    let Some((first, rest)) = line.split_first() else {
        return line;
    };
    if *first == b' ' { rest } else { line }
}

/// One to six `#`, then white space and words.
fn read_heading(body: &[u8]) -> Line<'_>
    ensures { said_by result ≡ heading body.now }
{
    let rank = run(b'#', body);
    heading_of(headed(rank), &body[rank..], body)
}

/// The heading of a rank.
fn heading_of<'a>(element: Option<Element>, rest: &'a [u8], body: &'a [u8]) -> Line<'a>
    ensures { said_by result ≡ heading_of element rest.now body.now }
{
    let Some(element) = element else {
        return Line::Words(body);
    };
    if is_blank(rest) || spaces(rest) != 0 {
        Line::Heading(element, without_end(trimmed(words_of(rest))))
    } else {
        Line::Words(body)
    }
}

/// The text after white space.
pub(crate) fn words_of(line: &[u8]) -> &[u8]
    ensures { result.now ≡ words_of line.now }
{
    &line[spaces(line)..]
}

/// The heading with this many `#`.
fn headed(rank: usize) -> Option<Element>
    ensures { result ≡ headed rank }
{
    match rank {
        1 => Some(Element::HeadingOne),
        2 => Some(Element::HeadingTwo),
        3 => Some(Element::HeadingThree),
        4 => Some(Element::HeadingFour),
        5 => Some(Element::HeadingFive),
        6 => Some(Element::HeadingSix),
        _ => None,
    }
}

/// The words of a heading without the `#` at its end that follow white space.
fn without_end(words: &[u8]) -> &[u8]
    ensures { result.now ≡ without_end words.now }
{
    let front = without_signs(b'#', words);
    let rest = trimmed(front);
    if front.is_empty() || rest.len() < front.len() {
        rest
    } else {
        words
    }
}

/// The text without the signs at its end.
pub(crate) fn without_signs(sign: u8, words: &[u8]) -> &[u8]
    ensures { result.now ≡ without_signs sign words.now }
{
    let mut end = 0;
    for (index, byte) in words.iter().enumerate() {
        if *byte != sign {
            end = index + 1;
        }
    }
    &words[..end]
}

/// Three or more backquotes or `~`, and a language.
fn read_fence(indent: usize, sign: u8, body: &[u8]) -> Line<'_>
    ensures { said_by result ≡ fence indent sign body.now }
{
    let length = run(sign, body);
    let info = words_of(&body[length..]);
    if length < 3 || sign == b'`' && has(b'`', info) {
        Line::Words(body)
    } else {
        Line::Fence(
            Fence {
                sign,
                length,
                indent,
            },
            word(info),
        )
    }
}

/// Whether the sign is in the text.
pub(crate) fn has(sign: u8, line: &[u8]) -> bool
    ensures { result ≡ has sign line.now }
{
    for byte in line {
        if *byte == sign {
            return true;
        }
    }
    false
}

/// The text before the first white space.
fn word(line: &[u8]) -> &[u8]
    ensures { result.now ≡ word line.now }
{
    &line[..letters(line)]
}

/// How many bytes precede the first white space.
fn letters(line: &[u8]) -> usize
    ensures value { result ≡ prefix_len is_letter line.now }
    ensures within { result ≤ length line.now }
{
    line.iter().take_while(|byte| is_letter(**byte)).count()
}

fn is_letter(byte: u8) -> bool
    ensures { result ≡ is_letter byte }
{
    !is_space(byte)
}

/// Three or more `*`, `-` or `_` alone, or an item.
fn rule_or_item<'a>(indent: usize, sign: u8, rest: &'a [u8], body: &'a [u8]) -> Line<'a>
    requires short { indent < 4 }
    requires whole { body.now ≡ sign ∷ rest.now }
    ensures { said_by result ≡ rule_or_item indent sign rest.now }
{
    if sign != b'+' && is_rule(sign, body) {
        Line::Rule
    } else if sign == b'_' {
        Line::Words(body)
    } else {
        read_item(sign, indent + 1, b"", rest, body)
    }
}

/// Whether the sign is in the line three times or more, and nothing else but white space.
fn is_rule(sign: u8, line: &[u8]) -> bool
    ensures { result ≡ is_rule sign 0 line.now }
{
    let mut earlier: usize = 0;
    for byte in line {
        if *byte == sign {
            earlier += 1;
        } else if !is_space(*byte) {
            return false;
        }
    }
    earlier >= 3
}

/// An item after its sign, or words.
fn read_item<'a>(
    sign: u8,
    width: usize,
    first: &'a [u8],
    rest: &'a [u8],
    body: &'a [u8],
) -> Line<'a>
    requires { width < 16 }
    ensures { said_by result ≡ item sign width first.now rest.now body.now }
{
    let gap = run(b' ', rest);
    if is_blank(rest) {
        Line::Item(
            Marker {
                sign,
                width: width + 1,
            },
            first,
            b"",
        )
    } else if gap == 0 {
        Line::Words(body)
    } else {
        let gap = if gap > 4 { 1 } else { gap };
        Line::Item(
            Marker {
                sign,
                width: width + gap,
            },
            first,
            &rest[gap..],
        )
    }
}

/// An item with a number, or words.
fn numbered(indent: usize, body: &[u8]) -> Line<'_>
    requires { indent < 4 }
    ensures { said_by result ≡ numbered indent body.now }
{
    let length = digits(body);
    let Some((sign, rest)) = body[length..].split_first() else {
        return Line::Words(body);
    };
    if (*sign == b'.' || *sign == b')') && 0 < length && length < 10 {
        read_item(
            *sign,
            indent + length + 1,
            number(&body[..length]),
            rest,
            body,
        )
    } else {
        Line::Words(body)
    }
}

/// A number without leading zeros.
fn number(digits: &[u8]) -> &[u8]
    ensures { result.now ≡ number digits.now }
{
    let zeros = run(b'0', digits);
    if zeros == digits.len() {
        b"0"
    } else {
        &digits[zeros..]
    }
}
