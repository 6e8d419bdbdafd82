//! Stressed words: what signs begin and end them.
ghost use Rattle.std.specs.Prelude.{◌≡◌, ◌++◌, ◌≤◌, ◌<◌, ◌∷◌, [], None, IfOk, IfSome, OnOk, length};
ghost use Rattle.gb_markdown.specs.Pieces.{written};
ghost use Rattle.gb_markdown.specs.References.{meanings};
ghost use Rattle.gb_markdown.specs.Inline.{begun, byte_step, closes, closing, done, done_by, ended};
ghost use Rattle.gb_markdown.specs.Inline.{ends_from, fits, here, is_left, is_over, is_sign, last_fit};
ghost use Rattle.gb_markdown.specs.Inline.{left_after, matched_once, opening, opens, passed, signs_at};
ghost use Rattle.gb_markdown.specs.Inline.{signs_by, signs_step, stop_of, stress_of, used, wide_of, with_end};
ghost use Rattle.gb_markdown.specs.Inline.{with_left, with_signs};

use crate::inline::{angled, byte_after, hidden, linked};
use crate::references::Reference;
use crate::rendered::{Element, close, open, text};
use crate::runs::{is_space, run};
use std::alloc::{AllocError, Global};

/// Signs in a row.
#[derive(Clone, Copy)]
pub struct Signs {
    /// The sign.
    pub sign: u8,
    /// How many they are.
    pub count: usize,
    /// How many of them neither begin nor end stressed words.
    pub left: usize,
    /// Whether they may begin stressed words.
    pub opens: bool,
    /// Whether they may end stressed words.
    pub closes: bool,
}

/// The end of stressed words.
#[derive(Clone, Copy)]
pub struct Ending {
    /// How many bytes of the text are left where the signs begin that end the words.
    pub rest: usize,
    /// How many signs end the words.
    pub wide: usize,
}

/// Whether a byte is a sign of stressed words.
pub(crate) fn is_sign(byte: u8) -> bool
    ensures { result ≡ is_sign byte }
{
    byte == b'*' || byte == b'_'
}

/// The signs at the beginning of a text that follows a byte.
pub(crate) fn signs_at(sign: u8, before: u8, line: &[u8]) -> Signs
    ensures value { result ≡ signs_at sign before line.now }
    ensures within { result.count ≤ length line.now }
{
    let count = run(sign, line);
    signs_by(sign, before, count, byte_after(&line[count..]))
}

/// So many signs between two bytes.
fn signs_by(sign: u8, before: u8, count: usize, after: u8) -> Signs
    ensures { result ≡ signs_by sign before count after }
{
    Signs {
        sign,
        count,
        left: count,
        opens: count <= 16 && opens(sign, before, after),
        closes: count <= 16 && closes(sign, before, after),
    }
}

/// Whether signs between two bytes begin stressed words.
fn opens(sign: u8, before: u8, after: u8) -> bool
    ensures { result ≡ opens sign before after }
{
    is_left(before, after)
        && (sign == b'*' || !is_left(after, before) || before.is_ascii_punctuation())
}

/// Whether signs between two bytes end stressed words.
fn closes(sign: u8, before: u8, after: u8) -> bool
    ensures { result ≡ closes sign before after }
{
    is_left(after, before)
        && (sign == b'*' || !is_left(before, after) || after.is_ascii_punctuation())
}

/// Whether signs between two bytes are at the left side of a word.
fn is_left(before: u8, after: u8) -> bool
    ensures { result ≡ is_left before after }
{
    !is_space(after)
        && (!after.is_ascii_punctuation() || is_space(before) || before.is_ascii_punctuation())
}

/// Signs of which so many are left.
fn with_left(left: usize, signs: Signs) -> Signs
    ensures { result ≡ with_left left signs }
{
    Signs {
        sign: signs.sign,
        count: signs.count,
        left,
        opens: signs.opens,
        closes: signs.closes,
    }
}

/// Whether signs may end the words that others begin.
fn fits(first: Signs, second: Signs) -> bool
    ensures { result ≡ fits first second }
{
    first.sign == second.sign
        && (!(second.opens || first.closes)
            || (first.count % 3 + second.count % 3) % 3 != 0
            || first.count % 3 == 0)
}

/// The last of the open signs that fit, and its index.
fn last_fit(stack: &[Signs], second: Signs) -> Option<(usize, Signs)>
    ensures value { result ≡ last_fit second None 0 stack.now }
    ensures within { IfSome result (λ found. found.0 < length stack.now) }
{
    let mut best = None;
    for (index, first) in stack.iter().enumerate() {
        if fits(*first, second) {
            best = Some((index, *first));
        }
    }
    best
}

/// How many signs words end with, given how many are left on both sides.
fn wide_of(first: usize, second: usize) -> usize
    ensures value { result ≡ wide_of first second }
    ensures low { 0 < second → result ≤ second }
{
    if first >= 2 && second >= 2 { 2 } else { 1 }
}

fn stress_of(wide: usize) -> Element
    ensures { result ≡ stress_of wide }
{
    if wide == 2 {
        Element::Strong
    } else {
        Element::Emphasis
    }
}

/// Uses so many of the open signs at an index, and drops those after it.
fn use_signs(
    stack: &mut Vec<Signs>,
    index: usize,
    first: Signs,
    wide: usize,
) -> Result<(), AllocError>
    ensures { OnOk result (stack.new.items ≡ used index first wide stack.old.items) }
{
    stack.truncate(index);
    if first.left > wide {
        stack.push(with_left(first.left - wide, first))?;
    }
    Ok(())
}

/// Notes the end of the words that the first of the open signs begin.
fn note_end(
    ends: &mut Vec<Ending>,
    index: usize,
    rest: usize,
    wide: usize,
) -> Result<(), AllocError>
    ensures { OnOk result (ends.new.items ≡ with_end index rest wide ends.old.items) }
{
    if index == 0 {
        ends.push(Ending { rest, wide })?;
    }
    Ok(())
}

/// Ends the words of the last open signs that fit, again and again, and returns how many signs are left.
fn end_words(
    stack: &mut Vec<Signs>,
    ends: &mut Vec<Ending>,
    second: Signs,
    rest: usize,
) -> Result<usize, AllocError>
    ensures { IfOk result (λ left.
        (stack.new.items, ends.new.items, left) ≡ ended second rest stack.old.items ends.old.items) }
{
    let mut left = second.count;
    let steps = if second.closes { second.count } else { 0 };
    for _step in 0..steps {
        left = end_once(stack, ends, second, rest, left)?;
    }
    Ok(left)
}

/// Ends the words of the last open signs that fit, if signs are left, and returns how many are left then.
fn end_once(
    stack: &mut Vec<Signs>,
    ends: &mut Vec<Ending>,
    second: Signs,
    rest: usize,
    left: usize,
) -> Result<usize, AllocError>
    ensures { IfOk result (λ after. (stack.new.items, ends.new.items, after)
        ≡ matched_once second rest (stack.old.items, ends.old.items, left)) }
{
    if left == 0 {
        return Ok(left);
    }
    let Some((index, first)) = last_fit(stack.as_slice(), second) else {
        return Ok(left);
    };
    let wide = wide_of(first.left, left);
    use_signs(stack, index, first, wide)?;
    note_end(ends, index, rest, wide)?;
    Ok(left - wide)
}

/// Begins words with the signs that are left.
fn add_signs(stack: &mut Vec<Signs>, signs: Signs, left: usize) -> Result<(), AllocError>
    ensures { OnOk result (stack.new.items ≡ with_signs signs left stack.old.items) }
{
    if signs.opens && left != 0 {
        stack.push(with_left(left, signs))?;
    }
    Ok(())
}

/// Whether the search for ends is over.
fn is_over(stop: usize, rest: usize, stack: &[Signs]) -> bool
    ensures { result ≡ is_over stop rest stack.now }
{
    rest <= stop || stack.len() == 0 || stack.len() > 6
}

/// Ends words and begins others, and returns how many bytes after the first sign are skipped, or none if the
/// search for ends is over.
fn signs_step(
    stack: &mut Vec<Signs>,
    ends: &mut Vec<Ending>,
    signs: Signs,
    stop: usize,
    rest: usize,
) -> Result<Option<usize>, AllocError>
    ensures { IfOk result (λ more. (stack.new.items, ends.new.items, more)
        ≡ signs_step stop rest signs (ended signs rest stack.old.items ends.old.items)) }
{
    let left = end_words(stack, ends, signs, rest)?;
    let over = is_over(stop, rest, stack.as_slice());
    add_signs(stack, signs, left)?;
    if over {
        Ok(None)
    } else {
        Ok(Some(signs.count.saturating_sub(1)))
    }
}

/// Reads a byte, and returns how many bytes after it are skipped, or none if the search for ends is over.
fn byte_step(
    refs: &[Reference<'_>],
    stack: &mut Vec<Signs>,
    ends: &mut Vec<Ending>,
    stop: usize,
    before: u8,
    line: &[u8],
) -> Result<Option<usize>, AllocError>
    ensures { let made = byte_step (meanings refs.now) stop stack.old.items ends.old.items before line.now in
        IfOk result (λ more.
        (stack.new.items ≡ made.0) × (ends.new.items ≡ made.1) × (more ≡ made.2)) }
{
    let Some(sign) = line.first() else {
        return Ok(None);
    };
    if !is_sign(*sign) {
        return Ok(Some(passed(refs, line)));
    }
    signs_step(stack, ends, signs_at(*sign, before, line), stop, line.len())
}

/// How many bytes after the first are skipped: a link, or whatever hides others.
fn passed(refs: &[Reference<'_>], line: &[u8]) -> usize
    ensures { result ≡ passed (meanings refs.now) line.now }
{
    let Some((first, rest)) = line.split_first() else {
        return 0;
    };
    match first {
        b'[' => linked(refs, rest).1,
        b'<' => angled(rest).1,
        _ => hidden(line),
    }
}

/// The ends of the words that signs begin, up to where this much of the text is left.
fn ends_from(
    alloc: Global,
    refs: &[Reference<'_>],
    stop: usize,
    first: Signs,
    line: &[u8],
) -> Result<Vec<Ending>, AllocError>
    ensures { IfOk result (λ ends.
        ends.items ≡ ends_from (meanings refs.now) stop (first ∷ []) [] 0 first.sign line.now) }
{
    let mut ends = Vec::new(alloc);
    let mut stack = Vec::new(alloc);
    stack.push(first)?;
    let mut before = first.sign;
    let mut skip: usize = 0;
    for (index, byte) in line.iter().enumerate() {
        if skip != 0 {
            skip -= 1;
        } else {
            match byte_step(refs, &mut stack, &mut ends, stop, before, &line[index..])? {
                None => return Ok(ends),
                Some(more) => skip = more,
            }
        }
        before = *byte;
    }
    Ok(ends)
}

/// How many of the expected ends are where this much of the text is left.
fn here(rest: usize, ends: &[Ending]) -> usize
    ensures value { result ≡ here rest ends.now }
    ensures within { result ≤ length ends.now }
{
    ends.iter().take_while(|end| end.rest == rest).count()
}

/// How many signs are left without those of these ends.
fn left_after(count: usize, ends: &[Ending]) -> usize
    ensures value { result ≡ left_after count ends.now }
    ensures within { result ≤ count }
{
    let mut left = count;
    for end in ends {
        left = left.saturating_sub(end.wide);
    }
    left
}

/// How much of the text is left at the first of the expected ends.
fn stop_of(ends: &[Ending]) -> usize
    ensures { result ≡ stop_of ends.now }
{
    match ends.first() {
        None => 0,
        Some(end) => end.rest,
    }
}

/// The ends of the words that signs begin, of which so many are left.
fn begun(
    alloc: Global,
    refs: &[Reference<'_>],
    stop: usize,
    signs: Signs,
    left: usize,
    line: &[u8],
) -> Result<Vec<Ending>, AllocError>
    requires { signs.count ≤ length line.now }
    ensures { IfOk result (λ ends. ends.items ≡ begun (meanings refs.now) stop signs left line.now) }
{
    if signs.opens && left != 0 {
        ends_from(
            alloc,
            refs,
            stop,
            with_left(left, signs),
            &line[signs.count..],
        )
    } else {
        Ok(Vec::new(alloc))
    }
}

/// Ends stressed words.
fn close_all(page: &mut Vec<u8>, ends: &[Ending]) -> Result<(), AllocError>
    ensures { OnOk result (page.new.items ≡ page.old.items ++ written (closing ends.now)) }
{
    for end in ends {
        close(page, stress_of(end.wide))?;
    }
    Ok(())
}

/// Begins stressed words, the last that end first.
fn open_all(page: &mut Vec<u8>, ends: &[Ending]) -> Result<(), AllocError>
    ensures { OnOk result (page.new.items ≡ page.old.items ++ written (opening ends.now)) }
{
    for end in ends.iter().rev() {
        open(page, stress_of(end.wide))?;
    }
    Ok(())
}

/// Writes what signs do, and takes the ends of the words that they begin among those that are expected.
pub(crate) fn write_signs(
    alloc: Global,
    page: &mut Vec<u8>,
    refs: &[Reference<'_>],
    ends: &mut Vec<Ending>,
    signs: Signs,
    line: &[u8],
) -> Result<(), AllocError>
    requires { signs.count ≤ length line.now }
    ensures { let made = done (meanings refs.now) ends.old.items signs line.now in
        OnOk result ((page.new.items ≡ page.old.items ++ written made.0) × (ends.new.items ≡ made.1)) }
{
    let count = here(line.len(), ends.as_slice());
    let ended = &ends.as_slice()[..count];
    let later = &ends.as_slice()[count..];
    let left = left_after(signs.count, ended);
    let mut found = begun(alloc, refs, stop_of(later), signs, left, line)?;
    write_done(page, ended, left, found.as_slice(), line)?;
    found.extend_from_slice(later)?;
    *ends = found;
    Ok(())
}

/// Writes what signs do: they end words, stay as they are, and begin words.
fn write_done(
    page: &mut Vec<u8>,
    ended: &[Ending],
    left: usize,
    found: &[Ending],
    line: &[u8],
) -> Result<(), AllocError>
    requires { left ≤ length line.now }
    ensures { OnOk result (page.new.items ≡ page.old.items
        ++ written (done_by ended.now [] left found.now line.now).0) }
{
    close_all(page, ended)?;
    text(page, &line[..left_after(left, found)])?;
    open_all(page, found)
}
