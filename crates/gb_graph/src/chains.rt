//! Chains of tasks, as rows of bits.
ghost use Rattle.std.specs.Prelude.{◌≡◌, ◌≢◌, ◌<◌, ◌≤◌, ◌+◌, ◌/◌, ◌↔◌, ℕ, length, Contains, OnOk};
ghost use Rattle.std.specs.Prelude.{IfOk, vec_len, max};
ghost use Rattle.gb_graph.specs.Order.{rows, row, AreTasks, InOrder};
ghost use Rattle.gb_graph.specs.Chains.{IsAfter, bit_in};

use std::alloc::{AllocError, Global};

/// A row with no bit set. It has room for all tasks, except where the task comes after no task.
fn row_for(alloc: Global, words: usize, before: &[usize]) -> Result<Vec<u64>, AllocError>
    ensures most { IfOk result (λ row. vec_len row ≤ words) }
    ensures wide { IfOk result (λ row. (task : ℕ) → Contains before.now task → vec_len row ≡ words) }
    ensures clear { IfOk result (λ row. (i : ℕ) → bit_in row.items i ≡ 0) }
{
    if before.is_empty() {
        return Ok(Vec::new(alloc));
    }
    vec![in alloc; 0u64; words]
}

/// Adds the bits of the second row to the first, which is at least as long.
fn join(row: &mut [u64], other: &[u64])
    requires { length other.now ≤ length row.old }
    ensures bits { (i : ℕ) → bit_in row.new i ≡ max (bit_in row.old i) (bit_in other.now i) }
{
    for at in 0..other.len() {
        row[at] |= other[at];
    }
}

/// Sets one bit.
fn mark(row: &mut [u64], task: usize)
    requires { task / 64 < length row.old }
    ensures same { bit_in row.new task ≡ 1 }
    ensures other { (i : ℕ) → i ≢ task → bit_in row.new i ≡ bit_in row.old i }
{
    row[task / 64] |= 1u64 << (task % 64);
}

/// For each task of an order, the tasks before it by a chain.
pub fn chains_of(
    alloc: Global,
    after: &[Vec<usize>],
    order: &[usize],
) -> Result<Vec<Vec<u64>>, AllocError>
    requires tasks { AreTasks (rows after.now) }
    requires order { InOrder (rows after.now) order.now }
    ensures chains { IfOk result (λ found. (task before : ℕ) → Contains order.now task →
        (bit_in (row (rows found.items) task) before ≡ 1) ↔ IsAfter (rows after.now) task before) }
{
    let words = after.len() / 64 + 1;
    let mut found = Vec::new(alloc);
    for _ in after {
        found.push(Vec::new(alloc))?;
    }
    for task in order {
        let earlier = after[*task].as_slice();
        let mut row = row_for(alloc, words, earlier)?;
        for before in earlier {
            join(&mut row, &found[*before]);
            mark(&mut row, *before);
        }
        found[*task] = row;
    }
    Ok(found)
}
