//! Tasks that are numbered by rank: the tasks that each comes after, and the tasks of given
//! numbers.
ghost use Rattle.std.specs.Prelude.{◌≡◌, ◌<◌, ◌++◌, ℕ, map, length, true, Some, Contains};
ghost use Rattle.std.specs.Prelude.{IfOk, OnOk, slice_index_or};
ghost use Rattle.gb_plan.specs.declared.plan.Planned.{Planned};
ghost use Rattle.gb_plan.specs.Graph.{order, no_repeats};
ghost use Rattle.gb_graph.specs.Order.{rows};
ghost use Rattle.gb_graph.specs.Ranked.{AreDistinct, AreOthers, HoldEdges, GiveAfter, GiveEdges, GiveNumbers};
ghost use Rattle.gb_graph.specs.Ranked.{edges_at, edges_from, numbers_in};

use crate::by_path::Numbers;
use gb_core::task_paths::TaskPaths;
use gb_plan::plan::Planned;
use std::alloc::{AllocError, Global};

/// The number of each task by its path.
pub fn numbers_of<'a>(alloc: Global, tasks: &'a [Planned]) -> Result<Numbers<'a>, AllocError>
    requires { no_repeats (order tasks.now) ≡ true }
    ensures { IfOk result (λ numbers. GiveNumbers (order tasks.now) numbers) }
{
    let mut numbers = Numbers::new(alloc);
    for number in 0..tasks.len() {
        numbers.insert(&tasks[number].task.path, number)?;
    }
    Ok(numbers)
}

/// Adds a pair of the task and each path that has a number.
fn add_befores(
    edges: &mut Vec<(usize, usize)>,
    numbers: &Numbers<'_>,
    task: usize,
    paths: &TaskPaths,
) -> Result<(), AllocError>
    ensures { OnOk result (edges.new.items
        ≡ edges.old.items ++ map (λ before. (task, before)) (numbers_in numbers.now paths.now)) }
{
    for path in paths.iter() {
        if let Some(before) = numbers.get(path) {
            edges.push((task, before))?;
        }
    }
    Ok(())
}

/// Adds a pair of each path that has a number and the task.
fn add_laters(
    edges: &mut Vec<(usize, usize)>,
    numbers: &Numbers<'_>,
    task: usize,
    paths: &TaskPaths,
) -> Result<(), AllocError>
    ensures { OnOk result (edges.new.items
        ≡ edges.old.items ++ map (λ later. (later, task)) (numbers_in numbers.now paths.now)) }
{
    for path in paths.iter() {
        if let Some(later) = numbers.get(path) {
            edges.push((later, task))?;
        }
    }
    Ok(())
}

fn add_edges(
    edges: &mut Vec<(usize, usize)>,
    numbers: &Numbers<'_>,
    task: usize,
    planned: &Planned,
) -> Result<(), AllocError>
    ensures { OnOk result (edges.new.items ≡ edges.old.items ++ edges_at numbers.now task planned.now) }
{
    add_befores(edges, numbers, task, &planned.task.needs)?;
    add_befores(edges, numbers, task, &planned.task.must_run_after)?;
    add_laters(edges, numbers, task, &planned.task.finalizers)
}

/// Each task by number, paired with each task that it comes after.
fn edges_of(alloc: Global, tasks: &[Planned]) -> Result<Vec<(usize, usize)>, AllocError>
    requires { no_repeats (order tasks.now) ≡ true }
    ensures { IfOk result (λ edges. GiveEdges tasks.now edges.items) }
{
    let numbers = numbers_of(alloc, tasks)?;
    let mut edges = Vec::new(alloc);
    for task in 0..tasks.len() {
        add_edges(&mut edges, &numbers, task, &tasks[task])?;
    }
    Ok(edges)
}

/// The second numbers of the pairs, in rows by the first number.
fn rows_of(
    alloc: Global,
    count: usize,
    edges: &[(usize, usize)],
) -> Result<Vec<Vec<usize>>, AllocError>
    requires { (task before : ℕ) → Contains edges.now (task, before) → task < count }
    ensures { IfOk result (λ after. HoldEdges count edges.now (rows after.items)) }
{
    let mut after = Vec::new(alloc);
    for _ in 0..count {
        after.push(Vec::new(alloc))?;
    }
    for (task, before) in edges {
        after[*task].push(*before)?;
    }
    Ok(after)
}

/// For each task the numbers of the tasks that it comes after.
pub(crate) fn after_of(alloc: Global, tasks: &[Planned]) -> Result<Vec<Vec<usize>>, AllocError>
    requires { no_repeats (order tasks.now) ≡ true }
    ensures { IfOk result (λ after. GiveAfter tasks.now (rows after.items)) }
{
    let edges = edges_of(alloc, tasks)?;
    rows_of(alloc, tasks.len(), edges.as_slice())
}

/// The numbers below the count that are not among these.
pub(crate) fn others_of(
    alloc: Global,
    count: usize,
    numbers: &[usize],
) -> Result<Vec<usize>, AllocError>
    requires { (number : ℕ) → Contains numbers.now number → number < count }
    ensures { IfOk result (λ others. AreOthers count numbers.now others.items) }
{
    let mut exists = vec![in alloc; false; count]?;
    for number in numbers {
        exists[*number] = true;
    }
    let mut others = Vec::new(alloc);
    for number in 0..count {
        if !exists[number] {
            others.push(number)?;
        }
    }
    Ok(others)
}

fn slots_of(alloc: Global, tasks: Vec<Planned>) -> Result<Vec<Option<Planned>>, AllocError>
    ensures { IfOk result (λ slots. slots.items ≡ map Some tasks.items) }
{
    let mut slots = Vec::new(alloc);
    for planned in tasks {
        slots.push(Some(planned))?;
    }
    Ok(slots)
}

/// The tasks of these numbers, in this order.
pub(crate) fn tasks_at(
    alloc: Global,
    tasks: Vec<Planned>,
    numbers: &[usize],
) -> Result<Vec<Planned>, AllocError>
    requires known { (number : ℕ) → Contains numbers.now number → number < length tasks.items }
    requires separate { AreDistinct numbers.now }
    ensures { (d : Planned) → IfOk result
        (λ placed. placed.items ≡ map (λ number. slice_index_or tasks.items number d) numbers.now) }
{
    let mut slots = slots_of(alloc, tasks)?;
    let mut placed = Vec::new(alloc);
    for number in numbers {
        if let Some(planned) = slots[*number].take() {
            placed.push(planned)?;
        }
    }
    Ok(placed)
}
