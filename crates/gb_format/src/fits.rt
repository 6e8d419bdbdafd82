//! Whether the next part of a text fits in the rest of a line.
ghost use Rattle.std.specs.Prelude.{◌≡◌};
ghost use Rattle.gb_format.specs.Fits.{width, is_end, ends_before, ends_after, is_comment, is_inner_end};
ghost use Rattle.gb_format.specs.Fits.{fits};
ghost use Rattle.gb_format.specs.Fits.{fits_from, texts_of};

use crate::kind::{Kind, is_tight, kind_of};
use crate::leading_word::{Place, after, begins};
use crate::rule::Spacing;

/// A comment or a token of a text.
#[derive(Clone, Copy)]
pub struct Item<'t> {
    /// How it is separated from the one before.
    pub spacing: Spacing,
    /// Its text, without blanks at the end.
    pub text: &'t str,
}

/// The part of the text that has to fit.
#[derive(Clone, Copy)]
pub enum Reach {
    /// To the end of a clause, or to the brace after the head of a statement.
    Clause,
    /// As `Clause`, or to the next comma of the clause.
    Element,
    /// To the next comma between brackets with at most this many open, or to the bracket that
    /// closes them.
    Inner(usize),
    /// To the bracket after which at most this many are open.
    Bracket(usize),
    /// To the brace that closes.
    Block,
}

/// How many columns it takes on the line of the one before, including a space before it.
fn width(before: Kind, text: &str) -> usize
    ensures { result ≡ width before text.now }
{
    if is_tight(before, kind_of(text)) {
        text.len()
    } else {
        text.len() + 1
    }
}

/// Whether the clause ends before this.
fn is_end(place: Place, text: &str) -> bool
    ensures { result ≡ is_end place text.now }
{
    match kind_of(text) {
        Kind::CloseBrace => true,
        Kind::Comment => place.brackets == 0,
        _ => begins(place, text),
    }
}

/// Whether an element of a bracket ends before this, with at most this many brackets open.
fn is_inner_end(count: usize, place: Place, kind: Kind) -> bool
    ensures { result ≡ is_inner_end count place kind }
{
    match kind {
        Kind::Close | Kind::Comment => place.brackets <= count,
        _ => false,
    }
}

/// Whether the part that has to fit ends before this.
fn ends_before(reach: Reach, place: Place, text: &str) -> bool
    ensures { result ≡ ends_before reach place text.now }
{
    match reach {
        Reach::Clause | Reach::Element => is_end(place, text),
        Reach::Inner(count) => is_inner_end(count, place, kind_of(text)),
        Reach::Bracket(_) | Reach::Block => false,
    }
}

/// Whether the part that has to fit ends after this, where `place` is the place after it.
fn ends_after(reach: Reach, place: Place, kind: Kind) -> bool
    ensures { result ≡ ends_after reach place kind }
{
    match (reach, kind) {
        (Reach::Clause, Kind::OpenBrace) => true,
        (Reach::Element, Kind::OpenBrace) => true,
        (Reach::Element, Kind::Comma) => place.brackets == 0,
        (Reach::Inner(count), Kind::Comma) => place.brackets <= count,
        (Reach::Bracket(count), Kind::Close) => place.brackets <= count,
        (Reach::Block, Kind::CloseBrace) => true,
        _ => false,
    }
}

fn is_comment(kind: Kind) -> bool
    ensures { result ≡ is_comment kind }
{
    matches!(kind, Kind::Comment)
}

/// Whether the part of these items that has to fit fits in `room` columns.
pub fn fits(reach: Reach, place: Place, before: Kind, room: usize, items: &[Item]) -> bool
    ensures { result ≡ fits reach place before room (texts_of items.now) }
{
    let mut place = place;
    let mut before = before;
    let mut room = room;
    'items: for item in items {
        if ends_before(reach, place, item.text) {
            return true;
        }
        let kind = kind_of(item.text);
        let width = width(before, item.text);
        if is_comment(kind) || room < width {
            return false;
        }
        place = after(place, item.text);
        if ends_after(reach, place, kind) {
            return true;
        }
        before = kind;
        room -= width;
    }
    true
}

/// The same for a part that begins with this text and continues with `rest`.
pub fn fits_from(reach: Reach, place: Place, room: usize, text: &str, rest: &[Item]) -> bool
    ensures { result ≡ fits_from reach place room text.now (texts_of rest.now) }
{
    if room < text.len() {
        return false;
    }
    fits(
        reach,
        after(place, text),
        kind_of(text),
        room - text.len(),
        rest,
    )
}
