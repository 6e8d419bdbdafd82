//! Texts within a block: code, stressed words, links, pictures and line breaks.
ghost use Rattle.std.specs.Prelude.{◌≡◌, ◌++◌, ◌+◌, ◌<◌, ◌≤◌, [], OnOk, IfSome, length, drop, false};
ghost use Rattle.std.specs.List.{prefix_len};
ghost use Rattle.std.specs.Option.{option_map};
ghost use Rattle.gb_markdown.specs.Addresses.{link_address, page_address};
ghost use Rattle.gb_markdown.specs.Pieces.{written, piece_text, Link, Picture};
ghost use Rattle.gb_markdown.specs.References.{meanings};
ghost use Rattle.gb_markdown.specs.Targets.{unescaped};
ghost use Rattle.gb_markdown.specs.Inline.{meant_by, first_is, byte_after, plain, escaped_in, spaced};
ghost use Rattle.gb_markdown.specs.Inline.{code_end};
ghost use Rattle.gb_markdown.specs.Inline.{is_edge, stripped, code_of, coded, hidden, label_end};
ghost use Rattle.gb_markdown.specs.Inline.{ends_label, is_no_label, brackets, aimed, linked};
ghost use Rattle.gb_markdown.specs.Inline.{named_by, pictured, referring};
ghost use Rattle.gb_markdown.specs.Inline.{token, tokens_of, shown, inline, after_label, is_plain};
ghost use Rattle.gb_markdown.specs.Inline.{angled, led};
ghost use Rattle.gb_markdown.specs.declared.inline.Nested.TheVariants as nested;

use crate::address::{has_scheme, is_safe, link_address, page_address};
use crate::references::{Reference, referred};
use crate::rendered::{Element, close, link, open, picture, text};
use crate::runs::{is_blank, run};
use crate::stress::{is_sign, signs_at, write_signs};
use crate::target::{Target, angle_end, quote_end, read_target, unescaped};
use std::alloc::{AllocError, Global};

/// The token at the beginning of a text.
#[derive(Clone, Copy)]
pub enum Token<'a> {
    /// Words.
    Words(&'a [u8]),
    /// A line ends, and the next begins a new one on the page.
    Break,
    /// Code.
    Code(&'a [u8]),
    /// A link: its label, and where it leads.
    Linked(&'a [u8], Target<'a>),
    /// A picture: what it shows, and where it is.
    Pictured(&'a [u8], Target<'a>),
    /// An address that is a link.
    Led(&'a [u8]),
}

/// The open brackets in a label.
#[derive(Clone, Copy, PartialEq, Eq)]
pub enum Nested {
    /// None.
    Nothing,
    /// Those of words, or of a link.
    Words,
    /// Those of a picture.
    Picture,
}

/// Writes a text, with labels nested at most this deep.
#[cycle(texts)]
pub fn inline<'a>(
    alloc: Global,
    page: &mut Vec<u8>,
    depth: u8,
    refs: &'a [Reference<'a>],
    line: &'a [u8],
) -> Result<(), AllocError>
    ensures { OnOk result (page.new.items ≡ page.old.items
        ++ written (inline depth (meanings refs.now) line.now)) }
{
    if depth == 0 {
        return text(page, line);
    }
    tokens(alloc, page, depth - 1, refs, line)
}

/// Writes the tokens of a text, one after the other.
#[cycle(texts)]
fn tokens<'a>(
    alloc: Global,
    page: &mut Vec<u8>,
    depth: u8,
    refs: &'a [Reference<'a>],
    line: &'a [u8],
) -> Result<(), AllocError>
    ensures { OnOk result (page.new.items ≡ page.old.items ++ written
        (tokens_of (inline depth) (meanings refs.now) [] 0 10 line.now)) }
{
    let mut ends = Vec::new(alloc);
    let mut before = b'\n';
    let mut skip: usize = 0;
    for (index, byte) in line.iter().enumerate() {
        let rest = &line[index..];
        if skip != 0 {
            skip -= 1;
        } else if is_sign(*byte) {
            let signs = signs_at(*byte, before, rest);
            write_signs(alloc, page, refs, &mut ends, signs, rest)?;
            skip = signs.count.saturating_sub(1);
        } else {
            let (token, more) = first_token(refs, rest);
            write(alloc, page, depth, refs, token)?;
            skip = more;
        }
        before = *byte;
    }
    Ok(())
}

/// Writes a token.
#[cycle(texts)]
fn write<'a>(
    alloc: Global,
    page: &mut Vec<u8>,
    depth: u8,
    refs: &'a [Reference<'a>],
    token: Token<'a>,
) -> Result<(), AllocError>
    ensures { OnOk result (page.new.items ≡ page.old.items ++ written (shown (inline depth)
        (meanings refs.now) (meant_by token.entry))) }
{
    match token {
        Token::Words(words) => text(page, words),
        Token::Break => {
            open(page, Element::Break)?;
            text(page, b"\n")
        }
        Token::Code(words) => {
            open(page, Element::Code)?;
            text(page, words)?;
            close(page, Element::Code)
        }
        Token::Linked(label, target) => {
            link_to(alloc, page, target.address, target.title)?;
            inline(alloc, page, depth, &[], label)?;
            close(page, Element::Anchor)
        }
        Token::Led(address) => {
            link(page, address, b"")?;
            text(page, address)?;
            close(page, Element::Anchor)
        }
        Token::Pictured(label, target) => {
            picture_of(alloc, page, label, target.address, target.title)
        }
    }
}

/// Begins a link to a target.
fn link_to(
    alloc: Global,
    page: &mut Vec<u8>,
    address: &[u8],
    title: &[u8],
) -> Result<(), AllocError>
    ensures { OnOk result (page.new.items ≡ page.old.items ++ piece_text (Link
        (link_address (page_address (unescaped false address.now))) (unescaped false title.now))) }
{
    let address = unescaped(alloc, address)?;
    let address = page_address(alloc, address.as_slice())?;
    let address = link_address(alloc, address.as_slice())?;
    let title = unescaped(alloc, title)?;
    link(page, address.as_slice(), title.as_slice())
}

/// Writes a picture of a target.
fn picture_of(
    alloc: Global,
    page: &mut Vec<u8>,
    label: &[u8],
    address: &[u8],
    title: &[u8],
) -> Result<(), AllocError>
    ensures { OnOk result (page.new.items ≡ page.old.items ++ piece_text (Picture
        (link_address (unescaped false address.now)) label.now (unescaped false title.now))) }
{
    let address = unescaped(alloc, address)?;
    let address = link_address(alloc, address.as_slice())?;
    let title = unescaped(alloc, title)?;
    picture(page, address.as_slice(), label, title.as_slice())
}

/// The token at the beginning of a text, and how many bytes after its first belong to it.
#[tactic(auto, unfolding(crate::specs::Inline::token))]
fn first_token<'a>(refs: &'a [Reference<'a>], line: &'a [u8]) -> (Token<'a>, usize)
    ensures { (meant_by result.0, result.1) ≡ token (meanings refs.now) line.now }
{
    let Some((first, rest)) = line.split_first() else {
        return (Token::Words(b""), 0);
    };
    match first {
        b'\\' => escaped_in(rest),
        b'`' => coded(line),
        b'[' => linked(refs, rest),
        b'!' => pictured(refs, rest),
        b' ' => spaced(line),
        b'<' => angled(rest),
        _ => plain(plain_length(line), line),
    }
}

/// How many bytes at the beginning start no other token.
fn plain_length(line: &[u8]) -> usize
    ensures value { result ≡ prefix_len is_plain line.now }
    ensures within { result ≤ length line.now }
{
    line.iter().take_while(|byte| is_plain(**byte)).count()
}

/// Whether a byte begins no other token.
fn is_plain(byte: u8) -> bool
    ensures { result ≡ is_plain byte }
{
    !matches!(byte, b'\\' | b'`' | b'*' | b'_' | b'[' | b'!' | b' ' | b'<')
}

/// This many bytes, unchanged.
fn plain(count: usize, line: &[u8]) -> (Token<'_>, usize)
    requires { count ≤ length line.now }
    ensures { (meant_by result.0, result.1) ≡ plain count line.now }
{
    (Token::Words(&line[..count]), count.saturating_sub(1))
}

/// What a backslash before a text is parsed as.
fn escaped_in(rest: &[u8]) -> (Token<'_>, usize)
    ensures { (meant_by result.0, result.1) ≡ escaped_in rest.now }
{
    let Some(sign) = rest.first() else {
        return (Token::Words(b"\\"), 0);
    };
    if *sign == b'\n' {
        (Token::Break, 1)
    } else if sign.is_ascii_punctuation() {
        (Token::Words(&rest[..1]), 1)
    } else {
        (Token::Words(b"\\"), 0)
    }
}

/// Spaces: two or more before the end of a line break it.
fn spaced(line: &[u8]) -> (Token<'_>, usize)
    ensures { (meant_by result.0, result.1) ≡ spaced line.now }
{
    let length = run(b' ', line);
    if !first_is(b'\n', &line[length..]) {
        plain(length, line)
    } else if length == 1 {
        (Token::Words(b"\n"), 1)
    } else {
        (Token::Break, length)
    }
}

/// Whether a text begins with the sign.
fn first_is(sign: u8, line: &[u8]) -> bool
    ensures { result ≡ first_is sign line.now }
{
    match line.first() {
        None => false,
        Some(byte) => *byte == sign,
    }
}

/// The first byte of a text, or the end of a line.
pub(crate) fn byte_after(line: &[u8]) -> u8
    ensures { result ≡ byte_after line.now }
{
    match line.first() {
        None => b'\n',
        Some(byte) => *byte,
    }
}

/// Code up to as many backquotes.
fn coded(line: &[u8]) -> (Token<'_>, usize)
    ensures { (meant_by result.0, result.1) ≡ coded line.now }
{
    let length = run(b'`', line);
    if length == 0 || length > 8 {
        return plain(length, line);
    }
    code_of(length, line, code_end(length, &line[length..]))
}

/// Code after this many backquotes, or these.
fn code_of(count: usize, line: &[u8], end: Option<usize>) -> (Token<'_>, usize)
    requires low { count ≤ 8 }
    requires room { count ≤ length line.now }
    requires within { IfSome end (λ end. end ≤ length (drop count line.now)) }
    ensures { (meant_by result.0, result.1) ≡ code_of count line.now end }
{
    match end {
        None => plain(count, line),
        Some(end) => {
            let rest = &line[count..];
            (
                Token::Code(stripped(&rest[..end])),
                (count + end + count).saturating_sub(1),
            )
        }
    }
}

/// Where the first run of this many backquotes begins.
fn code_end(count: usize, rest: &[u8]) -> Option<usize>
    ensures value { result ≡ code_end count 0 0 rest.now }
    ensures within { IfSome result (λ end. end ≤ length rest.now) }
{
    let mut earlier: usize = 0;
    for (index, byte) in rest.iter().enumerate() {
        if *byte == b'`' {
            earlier += 1;
        } else if earlier == count {
            return Some(index - earlier);
        } else {
            earlier = 0;
        }
    }
    if earlier == count {
        Some(rest.len() - earlier)
    } else {
        None
    }
}

/// Code without a space or the end of a line on both sides, unless there is nothing else.
fn stripped(code: &[u8]) -> &[u8]
    ensures { result.now ≡ stripped code.now }
{
    let length = code.len();
    if length >= 2 && is_edge(code[0]) && is_edge(code[length - 1]) && !is_blank(code) {
        let inside = &code[1..];
        &inside[..length - 2]
    } else {
        code
    }
}

fn is_edge(byte: u8) -> bool
    ensures { result ≡ is_edge byte }
{
    byte == b' ' || byte == b'\n'
}

/// How many bytes after the first hide other signs: the byte after a backslash, or code.
pub(crate) fn hidden(line: &[u8]) -> usize
    ensures { result ≡ hidden line.now }
{
    match line.first() {
        None => 0,
        Some(b'\\') => 1,
        Some(b'`') => coded(line).1,
        Some(_) => 0,
    }
}

/// A link after its bracket, or the bracket itself.
pub(crate) fn linked<'a>(refs: &'a [Reference<'a>], rest: &'a [u8]) -> (Token<'a>, usize)
    ensures { (meant_by result.0, result.1) ≡ linked (meanings refs.now) rest.now }
{
    match aimed(refs, rest) {
        None => (Token::Words(b"["), 0),
        Some((label, target, following)) => {
            (
                Token::Linked(label, target),
                rest.len().saturating_sub(following.len()),
            )
        }
    }
}

/// A picture after its `!`, or the `!` itself.
fn pictured<'a>(refs: &'a [Reference<'a>], rest: &'a [u8]) -> (Token<'a>, usize)
    ensures { (meant_by result.0, result.1) ≡ pictured (meanings refs.now) rest.now }
{
    let Some((first, inside)) = rest.split_first() else {
        return (Token::Words(b"!"), 0);
    };
    if *first != b'[' {
        return (Token::Words(b"!"), 0);
    }
    match aimed(refs, inside) {
        None => (Token::Words(b"!"), 0),
        Some((label, target, following)) => {
            (
                Token::Pictured(label, target),
                rest.len().saturating_sub(following.len()),
            )
        }
    }
}

/// A label, its target, and the rest after these.
type Aimed<'a> = (&'a [u8], Target<'a>, &'a [u8]);

/// The label of `label](target)`, `label][name]`, `label][]` or `label]`.
fn aimed<'a>(refs: &'a [Reference<'a>], rest: &'a [u8]) -> Option<Aimed<'a>>
    ensures { option_map (λ found. (found.0.now, found.1.address.now, found.1.title.now, found.2.now)) result
        ≡ aimed (meanings refs.now) rest.now }
{
    let end = label_end(rest)?;
    after_label(refs, &rest[..end], &rest[end + 1..])
}

/// A label and what is after it.
fn after_label<'a>(refs: &'a [Reference<'a>], label: &'a [u8], rest: &'a [u8]) -> Option<Aimed<'a>>
    ensures { option_map (λ found. (found.0.now, found.1.address.now, found.1.title.now, found.2.now)) result
        ≡ after_label (meanings refs.now) label.now rest.now }
{
    let Some((first, inside)) = rest.split_first() else {
        return referring(refs, label, label, rest);
    };
    match first {
        b'(' => match read_target(inside) {
            Some((target, following)) => Some((label, target, following)),
            None => referring(refs, label, label, rest),
        },
        b'[' => match quote_end(b']', inside) {
            Some(end) => referring(
                refs,
                named_by(label, &inside[..end]),
                label,
                &inside[end + 1..],
            ),
            None => referring(refs, label, label, rest),
        },
        _ => referring(refs, label, label, rest),
    }
}

/// A name in brackets; an empty name means the label's own.
fn named_by<'a>(label: &'a [u8], name: &'a [u8]) -> &'a [u8]
    ensures { result.now ≡ named_by label.now name.now }
{
    if is_blank(name) { label } else { name }
}

/// A label whose target is the one that the name refers to.
fn referring<'a>(
    refs: &'a [Reference<'a>],
    name: &[u8],
    label: &'a [u8],
    rest: &'a [u8],
) -> Option<Aimed<'a>>
    ensures { option_map (λ found. (found.0.now, found.1.address.now, found.1.title.now, found.2.now)) result
        ≡ referring (meanings refs.now) name.now label.now rest.now }
{
    match referred(name, refs) {
        Some(target) => Some((label, target, rest)),
        None => None,
    }
}

/// Where a label ends.
fn label_end(rest: &[u8]) -> Option<usize>
    ensures value { result ≡ label_end nested.Nothing 0 91 0 rest.now }
    ensures within { IfSome result (λ end. end < length rest.now) }
{
    let mut inside = Nested::Nothing;
    let mut before = b'[';
    let mut skip: usize = 0;
    for (index, byte) in rest.iter().enumerate() {
        if skip != 0 {
            skip -= 1;
        } else if ends_label(inside, *byte) {
            return Some(index);
        } else if is_no_label(inside, *byte, &rest[index + 1..]) {
            return None;
        } else {
            inside = brackets(inside, before, *byte);
            skip = hidden(&rest[index..]);
        }
        before = *byte;
    }
    None
}

fn ends_label(inside: Nested, byte: u8) -> bool
    ensures { result ≡ ends_label inside byte }
{
    byte == b']' && inside == Nested::Nothing
}

fn is_no_label(inside: Nested, byte: u8, rest: &[u8]) -> bool
    ensures { result ≡ is_no_label inside byte rest.now }
{
    byte == b'[' && inside != Nested::Nothing
        || byte == b']' && inside == Nested::Words && first_is(b'(', rest)
}

/// The brackets that are open after a byte.
fn brackets(inside: Nested, before: u8, byte: u8) -> Nested
    ensures { result ≡ brackets inside before byte }
{
    if byte == b'[' {
        if before == b'!' {
            Nested::Picture
        } else {
            Nested::Words
        }
    } else if byte == b']' {
        Nested::Nothing
    } else {
        inside
    }
}

/// An address after a `<`, or the `<` itself.
pub(crate) fn angled(rest: &[u8]) -> (Token<'_>, usize)
    ensures { (meant_by result.0, result.1) ≡ angled rest.now }
{
    match angle_end(rest) {
        None => (Token::Words(b"<"), 0),
        Some(end) => led(&rest[..end], end + 1),
    }
}

/// An address that is a link, or the `<` before it.
fn led(address: &[u8], more: usize) -> (Token<'_>, usize)
    ensures { (meant_by result.0, result.1) ≡ led address.now more }
{
    if is_safe(address) && has_scheme(address) {
        (Token::Led(address), more)
    } else {
        (Token::Words(b"<"), 0)
    }
}
