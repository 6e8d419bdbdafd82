//! The rule for the white space before each comment or token, and the state from which it follows.
ghost use Rattle.std.specs.Prelude.{◌≡◌, true};
ghost use Rattle.gb_format.specs.Fits.{texts_of};
ghost use Rattle.gb_format.specs.Rules.{room_at, room_after, is_broken, break_in, break_out, break_of};
ghost use Rattle.gb_format.specs.Rules.{entered, inner_indent, inside_indent, is_stepped, break_after};
ghost use Rattle.gb_format.specs.Rules.{break_rule};
ghost use Rattle.gb_format.specs.Rules.{resumed, is_clause_cut, after_break, breaks, opened, joins};
ghost use Rattle.gb_format.specs.Rules.{begun_rule};
ghost use Rattle.gb_format.specs.Rules.{begun, comment_indent, closing_rule, closed, inner, begin, step};
ghost use Rattle.gb_format.specs.Rules.{first_state};

use crate::fits::{Item, Reach, fits, fits_from};
use crate::kind::{Kind, is_open, is_tight, kind_of};
use crate::leading_word::{Place, after, at_start, begins, deeper, depth, shallower};
use crate::rule::{Rule, Spacing};

/// The state of a layout between two tokens.
#[derive(Clone, Copy)]
pub struct State {
    /// The place.
    pub place: Place,
    /// How many of the open brackets are broken, counted from the outermost.
    pub broken: usize,
    /// The indent of the line.
    pub indent: usize,
    /// The indent of the line in which the element begins.
    pub base: usize,
    /// The indent of the elements of the outermost broken bracket.
    pub inner: usize,
    /// How many columns are left in the line.
    pub room: usize,
    /// The block is on one line.
    pub in_line: bool,
    /// The clause does not fit on a line.
    pub is_cut: bool,
    /// The element does not fit on a line.
    pub is_chain: bool,
    /// The element of the outermost broken bracket does not fit on a line.
    pub is_inner_chain: bool,
}

/// Why a line breaks before a token within a clause, or that it does not break.
#[derive(Clone, Copy)]
pub enum LineBreak {
    /// It does not break.
    Flat,
    /// An element of a broken bracket begins.
    Inside,
    /// The next step of an element of the outermost broken bracket begins.
    InnerStep,
    /// A broken bracket closes.
    Closing,
    /// A comment precedes it.
    Resumed,
    /// The next element of a clause begins.
    Element,
    /// The next step of a chain begins.
    Step,
}

/// How many columns a line with this indent has.
fn room_at(indent: usize) -> usize
    ensures { result ≡ room_at indent }
{
    if indent < 25 { 100 - 4 * indent } else { 0 }
}

/// How many columns are left after this at the start of a line.
fn room_after(indent: usize, text: &str) -> usize
    ensures { result ≡ room_after indent text.now }
{
    room_at(indent).saturating_sub(text.len())
}

fn is_broken(state: State) -> bool
    ensures { result ≡ is_broken state }
{
    state.broken > 0 && state.place.brackets == state.broken
}

/// Whether the state is in an element of the outermost broken bracket that does not fit on a line.
fn is_stepped(state: State) -> bool
    ensures { result ≡ is_stepped state }
{
    state.is_inner_chain && state.broken == 1
}

/// The line break in a broken bracket, except before steps and the bracket that closes.
fn break_after(before: Kind) -> LineBreak
    ensures { result ≡ break_after before }
{
    match before {
        Kind::OpenParen | Kind::OpenBracket | Kind::Comma | Kind::Comment => LineBreak::Inside,
        _ => LineBreak::Flat,
    }
}

/// The line break in a broken bracket.
fn break_in(state: State, before: Kind, kind: Kind) -> LineBreak
    ensures { result ≡ break_in state before kind }
{
    match kind {
        Kind::Close => LineBreak::Closing,
        Kind::Dot if is_stepped(state) => LineBreak::InnerStep,
        _ => break_after(before),
    }
}

/// The line break outside of brackets.
fn break_out(state: State, before: Kind, kind: Kind) -> LineBreak
    ensures { result ≡ break_out state before kind }
{
    match (before, kind) {
        (Kind::Comment, _) => LineBreak::Resumed,
        (Kind::Comma, _) if state.is_cut => LineBreak::Element,
        (_, Kind::Dot) if state.is_chain => LineBreak::Step,
        _ => LineBreak::Flat,
    }
}

fn break_of(state: State, before: Kind, kind: Kind) -> LineBreak
    ensures { result ≡ break_of state before kind }
{
    if is_broken(state) {
        break_in(state, before, kind)
    } else if state.place.brackets == 0 {
        break_out(state, before, kind)
    } else {
        LineBreak::Flat
    }
}

/// The indent of the elements of a broken bracket.
fn inside_indent(state: State) -> usize
    ensures { result ≡ inside_indent state }
{
    if state.broken == 1 {
        state.inner
    } else {
        state.indent
    }
}

fn break_rule(state: State, line_break: LineBreak, tight: bool) -> Rule
    ensures { result ≡ break_rule state line_break tight }
{
    match line_break {
        LineBreak::Flat => { if tight { Rule::Close } else { Rule::Space } }
        LineBreak::Inside => Rule::Line(inside_indent(state)),
        LineBreak::InnerStep => Rule::Line(deeper(state.inner)),
        LineBreak::Closing => Rule::Line(shallower(inside_indent(state))),
        LineBreak::Resumed | LineBreak::Element => Rule::Line(depth(state.place) + 1),
        LineBreak::Step => Rule::Line(deeper(state.base)),
    }
}

/// The state in the line with which a clause continues.
fn resumed(state: State, is_cut: bool, text: &str, rest: &[Item]) -> State
    ensures { result ≡ resumed state is_cut text.now (texts_of rest.now) }
{
    let indent = depth(state.place) + 1;
    let room = room_at(indent);
    State {
        broken: 0,
        indent,
        base: indent,
        room: room.saturating_sub(text.len()),
        is_cut,
        is_chain: is_cut && !fits_from(Reach::Element, state.place, room, text, rest),
        ..state
    }
}

fn is_clause_cut(state: State, text: &str, rest: &[Item]) -> bool
    ensures { result ≡ is_clause_cut state text.now (texts_of rest.now) }
{
    let room = room_at(depth(state.place) + 1);
    !fits_from(Reach::Clause, state.place, room, text, rest)
}

/// The state where an element of the outermost broken bracket begins.
fn entered(state: State, text: &str, rest: &[Item]) -> State
    ensures { result ≡ entered state text.now (texts_of rest.now) }
{
    let indent = inside_indent(state);
    let reach = Reach::Inner(state.broken);
    State {
        indent,
        room: room_after(indent, text),
        is_inner_chain: !fits_from(reach, state.place, room_at(indent), text, rest),
        ..state
    }
}

/// The state where an element of a broken bracket begins.
fn inside(state: State, text: &str, rest: &[Item]) -> State
    ensures { result ≡ after_break state LineBreak.Inside true text.now (texts_of rest.now) }
{
    if state.broken == 1 {
        entered(state, text, rest)
    } else {
        State {
            room: room_after(state.indent, text),
            ..state
        }
    }
}

fn after_break(state: State, line_break: LineBreak, tight: bool, text: &str, rest: &[Item]) -> State
    ensures { result ≡ after_break state line_break tight text.now (texts_of rest.now) }
{
    match line_break {
        LineBreak::Flat => State {
            room: state
                .room
                .saturating_sub(if tight { 0 } else { 1 })
                .saturating_sub(text.len()),
            ..state
        },
        LineBreak::Inside => inside(state, text, rest),
        LineBreak::InnerStep => State {
            indent: deeper(state.inner),
            room: room_after(deeper(state.inner), text),
            ..state
        },
        LineBreak::Closing => State {
            broken: shallower(state.broken),
            indent: shallower(inside_indent(state)),
            room: room_after(shallower(inside_indent(state)), text),
            ..state
        },
        LineBreak::Resumed => resumed(state, is_clause_cut(state, text, rest), text, rest),
        LineBreak::Element => resumed(state, true, text, rest),
        LineBreak::Step => State {
            indent: deeper(state.base),
            room: room_after(deeper(state.base), text),
            ..state
        },
    }
}

/// Whether a bracket that opens does not fit on the line.
fn breaks(state: State, place: Place, kind: Kind, rest: &[Item]) -> bool
    ensures { result ≡ breaks state place kind (texts_of rest.now) }
{
    is_open(kind)
        && state.is_cut
        && state.place.brackets == state.broken
        && !fits(
            Reach::Bracket(state.place.brackets),
            place,
            kind,
            state.room.saturating_sub(2),
            rest,
        )
}

/// The indent of the elements of the outermost broken bracket, if one more bracket is broken.
fn inner_indent(state: State) -> usize
    ensures { result ≡ inner_indent state }
{
    if state.broken == 0 {
        deeper(state.indent)
    } else {
        state.inner
    }
}

/// The state after a token of a clause.
fn opened(state: State, text: &str, rest: &[Item]) -> State
    ensures { result ≡ opened state text.now (texts_of rest.now) }
{
    let place = after(state.place, text);
    if breaks(state, place, kind_of(text), rest) {
        State {
            place,
            broken: deeper(state.broken),
            indent: deeper(state.indent),
            inner: inner_indent(state),
            ..state
        }
    } else {
        State { place, ..state }
    }
}

/// Whether the statement or clause that begins here continues the line of the one before.
fn joins(state: State, before: Kind, spacing: Spacing, text: &str, rest: &[Item]) -> bool
    ensures { result ≡ joins state before spacing text.now (texts_of rest.now) }
{
    match (before, spacing) {
        (Kind::OpenBrace, Spacing::Beside) => {
            fits_from(Reach::Block, state.place, state.room, text, rest)
        }
        (Kind::OpenBrace, _) => false,
        _ => state.in_line,
    }
}

fn begun_rule(state: State, before: Kind, in_line: bool) -> Rule
    ensures { result ≡ begun_rule state before in_line }
{
    if in_line {
        return Rule::Space;
    }
    match before {
        Kind::OpenBrace => Rule::Line(depth(state.place)),
        _ => Rule::Part(depth(state.place)),
    }
}

/// The state after the first word of a statement or a clause.
fn begun(state: State, in_line: bool, text: &str, rest: &[Item]) -> State
    ensures { result ≡ begun state in_line text.now (texts_of rest.now) }
{
    let indent = depth(state.place);
    let room = room_at(indent);
    let is_cut = !in_line && !fits_from(Reach::Clause, state.place, room, text, rest);
    State {
        place: after(state.place, text),
        broken: 0,
        indent,
        base: indent,
        inner: indent,
        room: if in_line {
            state.room.saturating_sub(1).saturating_sub(text.len())
        } else {
            room.saturating_sub(text.len())
        },
        in_line,
        is_cut,
        is_chain: is_cut && !fits_from(Reach::Element, state.place, room, text, rest),
        is_inner_chain: false,
    }
}

/// The indent of a comment on a line of its own.
fn comment_indent(state: State) -> usize
    ensures { result ≡ comment_indent state }
{
    if state.place.brackets == 0 {
        depth(state.place)
    } else {
        state.indent
    }
}

fn closing_rule(state: State, before: Kind) -> Rule
    ensures { result ≡ closing_rule state before }
{
    match before {
        Kind::OpenBrace => Rule::Space,
        _ if state.in_line => Rule::Space,
        _ => Rule::Line(0),
    }
}

/// The state after the brace that closes.
fn closed(state: State, text: &str) -> State
    ensures { result ≡ closed state text.now }
{
    State {
        place: after(state.place, text),
        in_line: false,
        ..state
    }
}

/// A rule, and the state after the token that it applies to.
#[derive(Clone, Copy)]
pub struct Advance {
    /// The rule.
    pub rule: Rule,
    /// The state.
    pub state: State,
}

/// The step over a token within a clause.
fn inner(state: State, before: Kind, text: &str, rest: &[Item]) -> Advance
    ensures { result ≡ inner state before text.now (texts_of rest.now) }
{
    let kind = kind_of(text);
    let tight = is_tight(before, kind);
    let line_break = break_of(state, before, kind);
    let state_then = after_break(state, line_break, tight, text, rest);
    Advance {
        rule: break_rule(state, line_break, tight),
        state: opened(state_then, text, rest),
    }
}

/// The step over the first word of a statement or a clause.
fn begin(state: State, before: Kind, spacing: Spacing, text: &str, rest: &[Item]) -> Advance
    ensures { result ≡ begin state before spacing text.now (texts_of rest.now) }
{
    let in_line = joins(state, before, spacing, text, rest);
    Advance {
        rule: begun_rule(state, before, in_line),
        state: begun(state, in_line, text, rest),
    }
}

/// The step over a comment or a token, where `spacing` is how it is separated from the one before.
#[tactic(auto, unfolding(crate::specs::Rules::step))]
pub fn step(state: State, before: Kind, spacing: Spacing, text: &str, rest: &[Item]) -> Advance
    ensures { result ≡ step state before spacing text.now (texts_of rest.now) }
{
    match kind_of(text) {
        Kind::Comment => Advance {
            rule: Rule::After(comment_indent(state)),
            state,
        },
        Kind::CloseBrace => Advance {
            rule: closing_rule(state, before),
            state: closed(state, text),
        },
        _ => {
            if begins(state.place, text) {
                begin(state, before, spacing, text, rest)
            } else {
                inner(state, before, text, rest)
            }
        }
    }
}

/// The state before the first token.
pub fn first_state() -> State
    ensures { result ≡ first_state }
{
    State {
        place: at_start(),
        broken: 0,
        indent: 0,
        base: 0,
        inner: 0,
        room: 100,
        in_line: false,
        is_cut: false,
        is_chain: false,
        is_inner_chain: false,
    }
}
