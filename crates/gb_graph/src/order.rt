//! The order of tasks that are numbered by rank: each is the least task whose predecessors are
//! already placed.
//!
//! Input: for each task the row of the tasks that it comes after. Output: the tasks in order; those
//! on a cycle, and those after one, are left out. The steps:
//!
//! 1. Each task is settled: if a task of its row is not placed, it is appended to the waiting list
//!    of one such task, else it is ready.
//! 2. The least ready task is placed, and each task in its waiting list is settled again. This is
//!    repeated until no task is ready.
//!
//! What makes it right (`Keeps` in `specs/Settled.antt`): each task that is not placed is ready, or
//! waits for one task of its row that is not placed. So if none is ready, none could be placed. The
//! cost: the cursor of a task only moves past placed tasks, so each row is passed over at most
//! twice, and the set of ready tasks takes n log n steps for n tasks.
ghost use Rattle.std.specs.Prelude.{◌≡◌, ◌<◌, ℕ, length, Contains, MatchOption, slice_index_or, false, true};
ghost use Rattle.std.specs.Prelude.{OnOk, IfOk, vec_len};
ghost use Rattle.std.specs.BTreeSet.{contains};
ghost use Rattle.std.specs.Ordering.{nat_cmp};
ghost use Rattle.gb_graph.specs.Order.{rows, row, AreTasks, IsOrder};
ghost use Rattle.gb_graph.specs.Settled.{IsSettled, is_marked};

use std::alloc::{AllocError, Global};
use std::collections::BTreeSet;
use std::mem;

/// The first task of a row that is not placed yet.
fn first_open(row: &[usize], exists: &[bool]) -> Option<usize>
    requires known { (before : ℕ) → Contains row.now before → before < length exists.now }
    ensures cases { MatchOption result
        ((before : ℕ) → Contains row.now before → is_marked exists.now before ≡ true)
        (λ missing. Contains row.now missing × (is_marked exists.now missing ≡ false)) }
{
    for before in row {
        if !exists[*before] {
            return Some(*before);
        }
    }
    None
}

/// A task of a row that is not placed yet. The search starts where the last one was found.
fn open_from(row: &[usize], exists: &[bool], cursor: &mut usize) -> Option<usize>
    requires known { (before : ℕ) → Contains row.now before → before < length exists.now }
    ensures cases { MatchOption result
        ((before : ℕ) → Contains row.now before → is_marked exists.now before ≡ true)
        (λ missing. Contains row.now missing × (is_marked exists.now missing ≡ false)) }
{
    for at in *cursor..row.len() {
        if !exists[row[at]] {
            *cursor = at;
            return Some(row[at]);
        }
    }
    first_open(row, exists)
}

/// Adds a task to the ready ones, or to the waiting list of a task for which it waits.
fn settle(
    after: &[Vec<usize>],
    exists: &[bool],
    waiting: &mut Vec<Vec<usize>>,
    ready: &mut BTreeSet<usize>,
    cursor: &mut usize,
    task: usize,
) -> Result<(), AllocError>
    requires tasks { AreTasks (rows after.now) }
    requires marks { length exists.now ≡ length after.now }
    requires places { vec_len waiting.old ≡ length after.now }
    requires known { task < length after.now }
    ensures settled { OnOk result
        (IsSettled (rows after.now) exists.now (rows waiting.old.items) (rows waiting.new.items)
        (contains nat_cmp ready.old) (contains nat_cmp ready.new) task) }
    ensures places { vec_len waiting.new ≡ length after.now }
{
    match open_from(&after[task], exists, cursor) {
        Some(missing) => waiting[missing].push(task)?,
        None => {
            ready.insert(task)?;
        }
    }
    Ok(())
}

/// The order of tasks that come after the tasks of their rows: each is the least task whose row is
/// already placed.
pub fn order_of(alloc: Global, after: &[Vec<usize>]) -> Result<Vec<usize>, AllocError>
    requires tasks { AreTasks (rows after.now) }
    ensures order { IfOk result (λ order. IsOrder (rows after.now) order.items) }
{
    let mut exists = vec![in alloc; false; after.len()]?;
    let mut cursors = vec![in alloc; 0; after.len()]?;
    let mut waiting = Vec::new(alloc);
    for _ in after {
        waiting.push(Vec::new(alloc))?;
    }
    let mut ready = BTreeSet::new(alloc);
    let mut order = Vec::new(alloc);
    for task in 0..after.len() {
        settle(
            after,
            &exists,
            &mut waiting,
            &mut ready,
            &mut cursors[task],
            task,
        )?;
    }
    while let Some(task) = ready.pop_first() {
        order.push(task)?;
        exists[task] = true;
        let waiters = mem::replace(&mut waiting[task], Vec::new(alloc));
        for waiter in &waiters {
            settle(
                after,
                &exists,
                &mut waiting,
                &mut ready,
                &mut cursors[*waiter],
                *waiter,
            )?;
        }
    }
    Ok(order)
}
