//! Cuts a text into its comments and tokens.
ghost use Rattle.std.specs.Prelude.{◌≡◌, ℕ, ◌-◌, ◌<◌, ◌++◌, IfOk, List, length, take, map};
ghost use Rattle.std.specs.Str.{IsCharBoundary};
ghost use Rattle.gb_script.specs.Lexing.{is_blank, Piece, written, MayPrecede};
ghost use Rattle.gb_format.specs.Layout.{trimmed};
ghost use Rattle.gb_format.specs.Shown.{further, gap_after, shown_in, shown, EndsWith, HasPrefix, IsWhole};

use crate::fits::Item;
use crate::rule::Spacing;
use gb_script::lexing::first_part;
use std::alloc::{AllocError, Global};

fn is_blank(byte: u8) -> bool
    ensures { result ≡ is_blank byte }
{
    byte == b' ' || byte == b'\t' || byte == b'\n' || byte == b'\r'
}

/// How many bytes there are before the blanks at the end.
fn trimmed_len(bytes: &[u8]) -> usize
    ensures prefix { take result bytes.now ≡ trimmed bytes.now }
    ensures boundary { IsCharBoundary bytes.now result }
{
    let mut len = bytes.len();
    'blanks: while len > 0 && is_blank(bytes[len - 1]) {
        len -= 1;
    }
    len
}

/// The text without the blanks at its end.
fn trimmed(text: &str) -> &str
    ensures { result.now ≡ trimmed text.now }
{
    text.split_at(trimmed_len(text.as_bytes())).0
}

/// The text before the rest, and the rest.
fn split_before<'t>(text: &'t str, rest: &str) -> (&'t str, &'t str)
    requires { EndsWith text.now rest.now }
    ensures prefix { result.0.now ≡ take (length text.now - length rest.now) text.now }
    ensures rest { result.1.now ≡ rest.now }
{
    text.split_at(text.len() - rest.len())
}

/// The comment, the token or the blank at the front, and the text after it.
fn cut_first(alloc: Global, text: &str) -> Result<(&str, &str), AllocError>
    requires { HasPrefix text.now }
    ensures exact { IfOk result (λ x. (p : Piece) (after : List ℕ) → text.now ≡ written p ++ after
        → MayPrecede p after → (x.0.now ≡ written p) × (x.1.now ≡ after)) }
    ensures shorter { IfOk result (λ x. length x.1.now < length text.now) }
{
    let (part, rest) = first_part(alloc, text)?;
    drop(part);
    Ok(split_before(text, rest))
}

/// The separation with one more newline.
fn further(spacing: Spacing) -> Spacing
    ensures { result ≡ further spacing }
{
    match spacing {
        Spacing::Beside => Spacing::Below,
        Spacing::Below | Spacing::Away => Spacing::Away,
    }
}

/// How the next item is separated, after this blank; nothing if it is not a blank.
fn gap_after(spacing: Spacing, prefix: &str) -> Option<Spacing>
    ensures { result ≡ gap_after spacing prefix.now }
{
    match prefix.as_bytes() {
        [b'\n', ..] => Some(further(spacing)),
        [first, ..] if is_blank(*first) => Some(spacing),
        _ => None,
    }
}

/// The comments and tokens of a text that consists of pieces up to its end.
pub fn cut(alloc: Global, text: &str) -> Result<Vec<Item<'_>>, AllocError>
    requires { IsWhole text.now }
    ensures { IfOk result (λ items. shown items.items ≡ shown_in text.now) }
{
    let mut items = Vec::new(alloc);
    let mut spacing = Spacing::Beside;
    let mut rest = text;
    'parts: while !rest.is_empty() {
        let (prefix, after) = cut_first(alloc, rest)?;
        match gap_after(spacing, prefix) {
            Some(next) => spacing = next,
            None => {
                let text = trimmed(prefix);
                items.push(Item { spacing, text })?;
                spacing = Spacing::Beside;
            }
        }
        rest = after;
    }
    Ok(items)
}
