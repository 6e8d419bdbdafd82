//! Which places of a sorted row overlap a place: the places under it, the equal places, and its
//! parent folders. Each search begins where the last one of its kind ended, so that searches for
//! places in order pass over the row once.
ghost use Rattle.std.specs.Prelude.{◌≡◌, ◌<◌, ◌≤◌, ◌↔◌, ◌∷◌, ◌++◌, [], ℕ, true, false, bytes_eq, length};
ghost use Rattle.std.specs.Prelude.{Contains, IfOk, IsTrue, OnOk};
ghost use Rattle.gb_core.specs.Place.{is_beneath, overlaps};
ghost use Rattle.gb_graph.specs.Places.{IsRising, is_before, place_at};
ghost use Rattle.gb_graph.specs.Overlaps.{AreBounds, FindsToo, is_between, with_sign};

use crate::places::TaskPlace;
use gb_core::place::Place;
use std::alloc::{AllocError, Global};
use std::cmp::Ordering;

/// Where the last searches in a row ended. Any numbers will do: they only save steps.
#[derive(Drop)]
pub struct Guesses {
    /// For the places under a place.
    beneath: usize,
    /// For the places that are equal to it.
    at: usize,
    /// For its parent folders, the shortest first.
    above: Vec<usize>,
}

/// Guesses before the first search.
pub fn no_guesses(alloc: Global) -> Guesses {
    Guesses {
        beneath: 0,
        at: 0,
        above: Vec::new(alloc),
    }
}

/// Whether a place sorts before a text followed by one more byte.
fn is_before_sign(place: &[u8], text: &[u8], sign: u8) -> bool
    ensures { result ≡ is_before place.now (text.now ++ sign ∷ []) }
{
    match place.get(text.len()) {
        None => place.cmp(text).is_le(),
        Some(next) => match place[..text.len()].cmp(text) {
            Ordering::Less => true,
            Ordering::Equal => *next < sign,
            Ordering::Greater => false,
        },
    }
}

/// Whether a place sorts before a text, or before the text followed by one more byte.
fn is_before(at: &TaskPlace, text: &[u8], sign: Option<u8>) -> bool
    ensures { result ≡ is_before at.now.place (with_sign text.now sign) }
{
    let place = at.place.as_str().as_bytes();
    match sign {
        None => place.cmp(text) == Ordering::Less,
        Some(sign) => is_before_sign(place, text, sign),
    }
}

/// Between which numbers it lies how many places sort before a text, if so many do. The steps
/// forwards double.
fn forwards(row: &[TaskPlace], text: &[u8], sign: Option<u8>, from: usize) -> (usize, usize)
    requires rising { IsRising row.now }
    requires within { from ≤ length row.now }
    requires below { (i : ℕ) → i < from → is_before (place_at row.now i) (with_sign text.now sign) ≡ true }
    ensures { AreBounds row.now (with_sign text.now sign) result.0 result.1 }
{
    let mut low = from;
    let mut step = 1;
    while step <= row.len() - low {
        let next = low + (step - 1);
        if !is_before(&row[next], text, sign) {
            return (low, next);
        }
        low = next + 1;
        step = step.saturating_add(step);
    }
    (low, row.len())
}

/// Between which numbers it lies how many places sort before a text, if no more do. The steps
/// backwards double.
fn backwards(row: &[TaskPlace], text: &[u8], sign: Option<u8>, from: usize) -> (usize, usize)
    requires rising { IsRising row.now }
    requires within { from ≤ length row.now }
    requires above { (i : ℕ) → from ≤ i → i < length row.now
        → is_before (place_at row.now i) (with_sign text.now sign) ≡ false }
    ensures { AreBounds row.now (with_sign text.now sign) result.0 result.1 }
{
    let mut high = from;
    let mut step = 1;
    while step <= high {
        let next = high - step;
        if is_before(&row[next], text, sign) {
            return (next + 1, high);
        }
        high = next;
        step = step.saturating_add(step);
    }
    (0, high)
}

/// Between which numbers it lies how many places sort before a text. Where the guess is right, they
/// are the same.
fn bounds(row: &[TaskPlace], text: &[u8], sign: Option<u8>, guess: usize) -> (usize, usize)
    requires { IsRising row.now }
    ensures { AreBounds row.now (with_sign text.now sign) result.0 result.1 }
{
    if guess >= row.len() {
        return backwards(row, text, sign, row.len());
    }
    if is_before(&row[guess], text, sign) {
        forwards(row, text, sign, guess + 1)
    } else {
        backwards(row, text, sign, guess)
    }
}

/// How many places sort before a text. The nearer the guess is, the fewer places are compared.
fn first_from(row: &[TaskPlace], text: &[u8], sign: Option<u8>, guess: usize) -> usize
    requires { IsRising row.now }
    ensures within { result ≤ length row.now }
    ensures below { (i : ℕ) → i < result → is_before (place_at row.now i) (with_sign text.now sign) ≡ true }
    ensures above { (i : ℕ) → result ≤ i → i < length row.now
        → is_before (place_at row.now i) (with_sign text.now sign) ≡ false }
{
    let (mut low, mut high) = bounds(row, text, sign, guess);
    while low < high {
        let middle = low + (high - low) / 2;
        if is_before(&row[middle], text, sign) {
            low = middle + 1;
        } else {
            high = middle;
        }
    }
    low
}

/// The index of the first place, from a given one on, that does not sort before a text. The search
/// is linear, as all places before it are results.
fn end_from(row: &[TaskPlace], first: usize, text: &[u8], sign: u8) -> usize
    requires rising { IsRising row.now }
    requires within { first ≤ length row.now }
    ensures from { first ≤ result }
    ensures within { result ≤ length row.now }
    ensures below { (i : ℕ) → first ≤ i → i < result
        → is_before (place_at row.now i) (text.now ++ sign ∷ []) ≡ true }
    ensures above { (i : ℕ) → result ≤ i → i < length row.now
        → is_before (place_at row.now i) (text.now ++ sign ∷ []) ≡ false }
{
    for end in first..row.len() {
        if !is_before(&row[end], text, Some(sign)) {
            return end;
        }
    }
    row.len()
}

/// Finds the places from a text on up to the text followed by a byte.
fn find_between(
    found: &mut Vec<usize>,
    row: &[TaskPlace],
    text: &[u8],
    from: Option<u8>,
    to: u8,
    guess: &mut usize,
) -> Result<(), AllocError>
    requires { IsRising row.now }
    ensures { OnOk result (FindsToo row.now (is_between (with_sign text.now from) (text.now ++ to ∷ []))
        found.old.items found.new.items) }
{
    let first = first_from(row, text, from, *guess);
    *guess = first;
    let end = end_from(row, first, text, to);
    for index in first..end {
        found.push(index)?;
    }
    Ok(())
}

/// Finds the places equal to this text: they sort from it on, and before the text followed by a
/// byte 0.
fn find_at(
    found: &mut Vec<usize>,
    row: &[TaskPlace],
    text: &[u8],
    guess: &mut usize,
) -> Result<(), AllocError>
    requires { IsRising row.now }
    ensures { OnOk result (FindsToo row.now (λ place. bytes_eq place text.now)
        found.old.items found.new.items) }
{
    find_between(found, row, text, None, 0, guess)
}

/// Finds the places under a folder: they sort from `folder/` on, and before `folder0`.
fn find_beneath(
    found: &mut Vec<usize>,
    row: &[TaskPlace],
    folder: &[u8],
    guess: &mut usize,
) -> Result<(), AllocError>
    requires { IsRising row.now }
    ensures { OnOk result (FindsToo row.now (λ place. is_beneath place folder.now)
        found.old.items found.new.items) }
{
    find_between(found, row, folder, Some(b'/'), b'/' + 1, guess)
}

/// Finds the places equal to a folder that has so many others above it.
fn find_folder(
    found: &mut Vec<usize>,
    row: &[TaskPlace],
    folder: &[u8],
    guesses: &mut Vec<usize>,
    depth: usize,
) -> Result<(), AllocError>
    requires { IsRising row.now }
    ensures { OnOk result (FindsToo row.now (λ place. bytes_eq place folder.now)
        found.old.items found.new.items) }
{
    if let Some(guess) = guesses.get_mut(depth) {
        return find_at(found, row, folder, guess);
    }
    let mut guess = 0;
    find_at(found, row, folder, &mut guess)?;
    guesses.push(guess)?;
    Ok(())
}

/// Finds the places that are parent folders of a text.
fn find_above(
    found: &mut Vec<usize>,
    row: &[TaskPlace],
    text: &[u8],
    guesses: &mut Vec<usize>,
) -> Result<(), AllocError>
    requires { IsRising row.now }
    ensures { OnOk result (FindsToo row.now (λ place. is_beneath text.now place)
        found.old.items found.new.items) }
{
    let mut depth: usize = 0;
    for end in 0..text.len() {
        if text[end] == b'/' {
            find_folder(found, row, &text[..end], guesses, depth)?;
            depth = depth.saturating_add(1);
        }
    }
    Ok(())
}

/// The indices of the places that overlap a place.
pub fn overlapped(
    alloc: Global,
    row: &[TaskPlace],
    place: &Place,
    guesses: &mut Guesses,
) -> Result<Vec<usize>, AllocError>
    requires { IsRising row.now }
    ensures { IfOk result (λ found. (index : ℕ) → Contains found.items index
        ↔ ((index < length row.now) × IsTrue (overlaps place.now (place_at row.now index)))) }
{
    let text = place.as_str().as_bytes();
    let mut found = Vec::new(alloc);
    find_beneath(&mut found, row, text, &mut guesses.beneath)?;
    find_at(&mut found, row, text, &mut guesses.at)?;
    find_above(&mut found, row, text, &mut guesses.above)?;
    Ok(found)
}
