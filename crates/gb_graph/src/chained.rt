//! The chains of a plan whose tasks are already in order.
ghost use Rattle.std.specs.Prelude.{◌≡◌, ◌<◌, ℕ, [], length, true, Contains, IfOk};
ghost use Rattle.gb_plan.specs.Graph.{order, no_repeats, stuck};
ghost use Rattle.gb_graph.specs.Order.{rows, row, InOrder};
ghost use Rattle.gb_graph.specs.Conflicts.{GiveChains};

use crate::chains::chains_of;
use crate::ranked::after_of;
use gb_plan::plan::Planned;
use std::alloc::{AllocError, Global};

/// The numbers of tasks that come only after tasks of lesser numbers; these numbers are in order.
fn in_number_order(alloc: Global, after: &[Vec<usize>]) -> Result<Vec<usize>, AllocError>
    requires { (task before : ℕ) → Contains (row (rows after.now) task) before → before < task }
    ensures order { IfOk result (λ numbers. InOrder (rows after.now) numbers.items) }
    ensures all { IfOk result (λ numbers. (task : ℕ) → task < length after.now
        → Contains numbers.items task) }
{
    let mut numbers = Vec::new(alloc);
    for number in 0..after.len() {
        numbers.push(number)?;
    }
    Ok(numbers)
}

/// For each task of a plan the tasks that it comes after by a chain.
pub fn chains_in(alloc: Global, tasks: &[Planned]) -> Result<Vec<Vec<u64>>, AllocError>
    requires once { no_repeats (order tasks.now) ≡ true }
    requires ready { stuck tasks.now [] tasks.now ≡ [] }
    ensures { IfOk result (λ chains. GiveChains tasks.now (rows chains.items)) }
{
    let after = after_of(alloc, tasks)?;
    let order = in_number_order(alloc, after.as_slice())?;
    chains_of(alloc, after.as_slice(), order.as_slice())
}
