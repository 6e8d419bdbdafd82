//! The outputs that overlap the last place that was asked for.
ghost use Rattle.std.specs.Prelude.{◌≡◌, ◌<◌, length, None, true, false, IfOk, MatchOption};
ghost use Rattle.std.specs.Bool.{OnTrue};
ghost use Rattle.gb_graph.specs.Places.{IsRising, place_at};
ghost use Rattle.gb_graph.specs.Near.{AreNear, IsLast};

use crate::near::{Near, near_to};
use crate::overlaps::{Guesses, no_guesses};
use crate::places::{TaskPlace, place_of};
use std::alloc::{AllocError, Global};

/// A place of a row, and the outputs that overlap it.
#[derive(Drop)]
pub struct Last {
    /// The index of the place in its row. There is none before the first.
    pub place: Option<usize>,
    /// The outputs that overlap it, by number.
    pub near: Vec<Near>,
    /// Where the searches for it ended.
    pub guesses: Guesses,
}

/// No place yet.
pub fn no_place(alloc: Global) -> Last
    ensures { result.place ≡ None }
{
    Last {
        place: None,
        near: Vec::new(alloc),
        guesses: no_guesses(alloc),
    }
}

/// Whether the last place is equal to this one.
fn is_again(places: &[TaskPlace], place: usize, last: Option<usize>) -> bool
    requires place { place < length places.now }
    requires last { MatchOption last (Unit {0}) (λ last. last < length places.now) }
    ensures { OnTrue result (MatchOption last (false ≡ true) (λ last.
        place_at places.now last ≡ place_at places.now place)) }
{
    match last {
        None => false,
        Some(last) => place_of(places, last) == place_of(places, place),
    }
}

/// The outputs that overlap a place: those of the last place if the two are equal. So a row in
/// order has them found once for equal places, and four thousand tasks may read one folder.
pub fn near_at(
    alloc: Global,
    outputs: &[TaskPlace],
    places: &[TaskPlace],
    place: usize,
    last: Last,
) -> Result<Last, AllocError>
    requires rising { IsRising outputs.now }
    requires place { place < length places.now }
    requires last { IsLast outputs.now places.now last }
    ensures near { IfOk result (λ last. AreNear outputs.now (place_at places.now place) last.near.items) }
    ensures last { IfOk result (IsLast outputs.now places.now) }
{
    if is_again(places, place, last.place) {
        return Ok(last);
    }
    let mut guesses = last.guesses;
    let near = near_to(alloc, outputs, place_of(places, place), &mut guesses)?;
    Ok(Last {
        place: Some(place),
        near,
        guesses,
    })
}
