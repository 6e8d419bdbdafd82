//! The tasks of a plan, numbered in its order.
ghost use Rattle.std.specs.Prelude.{◌≡◌, ◌<◌, ◌⊎◌, ◌↔◌, [], ℕ, true, map, length, replicate};
ghost use Rattle.std.specs.Prelude.{Contains, IfOk, vec_len};
ghost use Rattle.gb_graph.specs.Ranked.{numbers_in};
ghost use Rattle.gb_plan.specs.Graph.{no_repeats, order, stuck};
ghost use Rattle.gb_exec.specs.Plans.{AreOfPlan};
ghost use Rattle.gb_exec.specs.Starts.{mark_at, row, rows};
ghost use Rattle.gb_exec.specs.declared.may_start.Ending.TheVariants.{ToCome};

use crate::may_start::{Starts, mark_all};
use gb_core::task_paths::TaskPaths;
use gb_graph::by_path::Numbers;
use gb_graph::ranked::numbers_of;
use gb_plan::plan::Planned;
use std::alloc::{AllocError, Global};

/// The numbers of those of the paths that have one.
fn numbers_at(
    alloc: Global,
    numbers: &Numbers<'_>,
    paths: &TaskPaths,
) -> Result<Vec<usize>, AllocError>
    ensures { IfOk result (λ found. found.items ≡ numbers_in numbers.now paths.now) }
{
    let mut found = Vec::new(alloc);
    for path in paths.iter() {
        if let Some(number) = numbers.get(path) {
            found.push(number)?;
        }
    }
    Ok(found)
}

/// For each task the numbers of those that it needs.
fn needs_of(
    alloc: Global,
    numbers: &Numbers<'_>,
    plan: &[Planned],
) -> Result<Vec<Vec<usize>>, AllocError>
    ensures { IfOk result (λ table. rows table.items
        ≡ map (λ planned. numbers_in numbers.now planned.task.needs) plan.now) }
{
    let mut table = Vec::new(alloc);
    for planned in plan {
        table.push(numbers_at(alloc, numbers, &planned.task.needs)?)?;
    }
    Ok(table)
}

/// For each task the numbers of those that finalize it.
fn finalizers_of(
    alloc: Global,
    numbers: &Numbers<'_>,
    plan: &[Planned],
) -> Result<Vec<Vec<usize>>, AllocError>
    ensures { IfOk result
        (λ table. rows table.items
        ≡ map (λ planned. numbers_in numbers.now planned.task.finalizers) plan.now) }
{
    let mut table = Vec::new(alloc);
    for planned in plan {
        table.push(numbers_at(alloc, numbers, &planned.task.finalizers)?)?;
    }
    Ok(table)
}

/// Which tasks are selected.
fn selected_of(alloc: Global, plan: &[Planned]) -> Result<Vec<bool>, AllocError>
    ensures { IfOk result (λ marks. marks.items ≡ map (λ planned. planned.is_selected) plan.now) }
{
    let mut marks = Vec::new(alloc);
    for planned in plan {
        marks.push(planned.is_selected)?;
    }
    Ok(marks)
}

/// Marks the tasks of all rows.
fn mark_rows(table: &[Vec<usize>], marks: &mut Vec<bool>)
    requires known { (later task : ℕ) → Contains (row (rows table.now) later) task
        → task < vec_len marks.old }
    ensures len { vec_len marks.new ≡ vec_len marks.old }
    ensures marked { (task : ℕ) → (mark_at marks.new.items task ≡ true)
        ↔ ((mark_at marks.old.items task ≡ true)
        ⊎ ((later : ℕ) × Contains (row (rows table.now) later) task)) }
{
    for row in table {
        mark_all(row.as_slice(), marks);
    }
}

/// A plan before its first execution.
pub fn starts_of(alloc: Global, plan: &[Planned]) -> Result<Starts, AllocError>
    requires once { no_repeats (order plan.now) ≡ true }
    requires all_ready { stuck plan.now [] plan.now ≡ [] }
    ensures plan { IfOk result (λ starts. AreOfPlan plan.now starts) }
    ensures endings { IfOk result (λ starts. starts.endings ≡ replicate (length plan.now) ToCome) }
{
    let numbers = numbers_of(alloc, plan)?;
    let needs = needs_of(alloc, &numbers, plan)?;
    let finalizers = finalizers_of(alloc, &numbers, plan)?;
    let mut wanted = selected_of(alloc, plan)?;
    mark_rows(needs.as_slice(), &mut wanted);
    Starts::new(alloc, needs, finalizers, wanted)
}
