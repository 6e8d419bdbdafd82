//! The tasks with outputs that conflict with a place.
ghost use Rattle.std.specs.Prelude.{◌≡◌, ◌↔◌, ℕ, List, Contains, IfOk, IsTrue};
ghost use Rattle.gb_graph.specs.Order.{row, rows};
ghost use Rattle.gb_graph.specs.Chains.{bit_in};
ghost use Rattle.gb_graph.specs.Near.{AreNear};
ghost use Rattle.gb_graph.specs.Conflicts.{IsConflictTask, counts};
ghost use Rattle.gb_graph.specs.declared.places.TaskPlace.{TaskPlace};

use crate::near::Near;
use crate::places::TaskPlace;
use std::alloc::{AllocError, Global};

/// The kind of conflict that is searched for.
#[derive(Clone, Copy)]
pub enum Search {
    /// Outputs that overlap one another.
    Overlaps,
    /// Outputs that their own task reads.
    OwnInputs,
    /// Outputs that a task reads although it does not come after their task.
    Undeclared,
}

/// Whether the first task comes after the second by a chain.
fn is_chained(chains: &[Vec<u64>], task: usize, before: usize) -> bool
    ensures { IsTrue result ↔ (bit_in (row (rows chains.now) task) before ≡ 1) }
{
    match chains.get(task) {
        None => false,
        Some(row) => match row.get(before / 64) {
            None => false,
            Some(word) => (*word >> (before % 64)) % 2 == 1,
        },
    }
}

/// Whether a place and an output that overlap are a conflict of the kind that is searched for.
fn counts(search: Search, chains: &[Vec<u64>], at: &TaskPlace, output: Near) -> bool
    ensures { result ≡ counts search (rows chains.now) at.now output }
{
    match search {
        Search::Overlaps => at.number != output.number,
        Search::OwnInputs => at.task == output.task,
        Search::Undeclared => {
            at.task != output.task && !is_chained(chains, at.task, output.task)
        }
    }
}

/// The tasks with outputs that conflict with a place, of the outputs that overlap it.
pub fn conflicts_at(
    alloc: Global,
    search: Search,
    chains: &[Vec<u64>],
    near: &[Near],
    at: &TaskPlace,
) -> Result<Vec<usize>, AllocError>
    ensures { IfOk result (λ tasks. (outputs : List TaskPlace) → AreNear outputs at.now.place near.now
        → (task : ℕ) → Contains tasks.items task
        ↔ IsConflictTask search (rows chains.now) outputs at.now task) }
{
    let mut tasks = Vec::new(alloc);
    for output in near {
        if counts(search, chains, at, *output) {
            tasks.push(output.task)?;
        }
    }
    Ok(tasks)
}
