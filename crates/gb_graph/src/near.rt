//! The outputs that overlap a place, by number: of one task at most two, which is enough to find
//! each conflict.
ghost use Rattle.std.specs.Prelude.{◌<◌, ◌↔◌, ℕ, Contains, IfOk, length};
ghost use Rattle.std.specs.Bool.{OnTrue};
ghost use Rattle.gb_graph.specs.Places.{IsRising};
ghost use Rattle.gb_graph.specs.Near.{AreNear, AreSameNumbers, AreThinned, HasTwo, IsAmong};

use crate::overlaps::{Guesses, overlapped};
use crate::places::TaskPlace;
use gb_core::place::Place;
use std::alloc::{AllocError, Global};

/// An output by number.
#[derive(Clone, Copy)]
pub struct Near {
    /// The number of its task in the plan.
    pub task: usize,
    /// Its own number, counted over all tasks.
    pub number: usize,
}

/// The numbers of the outputs at these indices.
fn numbers_at(
    alloc: Global,
    outputs: &[TaskPlace],
    indices: &[usize],
) -> Result<Vec<Near>, AllocError>
    requires { (index : ℕ) → Contains indices.now index → index < length outputs.now }
    ensures { IfOk result (λ row. (near : Near) → Contains row.items near
        ↔ IsAmong outputs.now indices.now near) }
{
    let mut row = Vec::new(alloc);
    for index in indices {
        let output = &outputs[*index];
        row.push(Near {
            task: output.task,
            number: output.number,
        })?;
    }
    Ok(row)
}

fn sort_by_task(row: &mut Vec<Near>)
    ensures { AreSameNumbers row.old.items row.new.items }
{
    row.sort_unstable_by(|a, b| a.task.cmp(&b.task));
}

/// Whether the last two outputs of a row are two outputs of this task.
fn ends_in_two(row: &[Near], task: usize) -> bool
    ensures { OnTrue result (HasTwo row.now task) }
{
    match row {
        [.., one, other] => one.task == task && other.task == task && one.number != other.number,
        _ => false,
    }
}

/// A row with at most two outputs of each task, if those of one task were adjacent.
fn thinned(alloc: Global, row: &[Near]) -> Result<Vec<Near>, AllocError>
    ensures { IfOk result (λ thinned. AreThinned row.now thinned.items) }
{
    let mut thinned = Vec::new(alloc);
    for near in row {
        if !ends_in_two(thinned.as_slice(), near.task) {
            thinned.push(*near)?;
        }
    }
    Ok(thinned)
}

/// The outputs that overlap a place. One task may have ten thousand of them.
pub fn near_to(
    alloc: Global,
    outputs: &[TaskPlace],
    place: &Place,
    guesses: &mut Guesses,
) -> Result<Vec<Near>, AllocError>
    requires { IsRising outputs.now }
    ensures { IfOk result (λ row. AreNear outputs.now place.now row.items) }
{
    let indices = overlapped(alloc, outputs, place, guesses)?;
    let mut row = numbers_at(alloc, outputs, indices.as_slice())?;
    sort_by_task(&mut row);
    let sorted = row.as_slice();
    thinned(alloc, sorted)
}
