//! From which start each number is reached first, along rows of numbers.
ghost use Rattle.std.specs.Prelude.{◌≡◌, ◌<◌, ℕ, length, Contains, OnOk, IfOk, slice_index};
ghost use Rattle.gb_graph.specs.Order.{rows, row, AreTasks};
ghost use Rattle.gb_graph.specs.Reach.{IsClosed, IsFirstStart, IsMarked, IsSpread, Reaches};

use std::alloc::{AllocError, Global};

/// Marks the tasks that are not marked yet.
fn mark_all(
    exists: &mut [bool],
    words: &mut [usize],
    fresh: &mut Vec<usize>,
    tasks: &[usize],
    word: usize,
) -> Result<(), AllocError>
    requires known { (task : ℕ) → Contains tasks.now task → task < length exists.old }
    requires each { length words.old ≡ length exists.old }
    ensures { OnOk result (IsMarked exists.old exists.new words.old words.new
        fresh.old.items fresh.new.items tasks.now word) }
{
    for task in tasks {
        if !exists[*task] {
            exists[*task] = true;
            words[*task] = word;
            fresh.push(*task)?;
        }
    }
    Ok(())
}

/// Marks everything that is reached from the starts.
fn spread(
    alloc: Global,
    table: &[Vec<usize>],
    exists: &mut [bool],
    words: &mut [usize],
    starts: &[usize],
    word: usize,
) -> Result<(), AllocError>
    requires tasks { AreTasks (rows table.now) }
    requires known { (task : ℕ) → Contains starts.now task → task < length table.now }
    requires marks { length exists.old ≡ length table.now }
    requires each { length words.old ≡ length table.now }
    requires closed { IsClosed (rows table.now) exists.old }
    ensures { OnOk result (IsSpread (rows table.now) starts.now word
        exists.old exists.new words.old words.new) }
{
    let mut fresh = Vec::new(alloc);
    mark_all(exists, words, &mut fresh, starts, word)?;
    while let Some(task) = fresh.pop() {
        mark_all(exists, words, &mut fresh, &table[task], word)?;
    }
    Ok(())
}

/// For each number that is reached, the index of the first start that reaches it.
pub fn first_starts(
    alloc: Global,
    table: &[Vec<usize>],
    starts: &[Vec<usize>],
) -> Result<Vec<usize>, AllocError>
    requires tasks { AreTasks (rows table.now) }
    requires known { (index task : ℕ) → Contains (row (rows starts.now) index) task
        → task < length table.now }
    ensures each { IfOk result (λ found. length found.items ≡ length table.now) }
    ensures first { IfOk result (λ found. (index task : ℕ) → index < length starts.now
        → Reaches (rows table.now) (row (rows starts.now) index) task
        → IsFirstStart (rows table.now) (rows starts.now) task (slice_index found.items task)) }
{
    let mut exists = vec![in alloc; false; table.len()]?;
    let mut words = vec![in alloc; 0; table.len()]?;
    for word in 0..starts.len() {
        spread(alloc, table, &mut exists, &mut words, &starts[word], word)?;
    }
    Ok(words)
}
