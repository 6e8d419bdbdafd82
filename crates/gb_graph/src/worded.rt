//! Scheduled tasks, each with the first argument that reaches it.
ghost use Rattle.std.specs.Prelude.{◌≡◌, ◌<◌, ◌≤◌, ◌++◌, ℕ, [], map, length, true, IfOk};
ghost use Rattle.std.specs.Prelude.{OnOk, slice_index, slice_index_or};
ghost use Rattle.std.specs.BTreeSet.{contains};
ghost use Rattle.gb_core.specs.Lists.{byte_order};
ghost use Rattle.gb_plan.specs.Graph.{Request, IsFirstWord, no_repeats};
ghost use Rattle.gb_graph.specs.Order.{rows};
ghost use Rattle.gb_graph.specs.Queue.{paths_in};
ghost use Rattle.gb_graph.specs.Ranked.{GiveNumbers, numbers_in};
ghost use Rattle.gb_graph.specs.Words.{AreDone, AreWorded, brought_rows};

use crate::by_path::Numbers;
use crate::reach::first_starts;
use gb_core::path::TaskPath;
use gb_core::task_paths::TaskPaths;
use gb_plan::plan::Planned;
use gb_plan::task::TaskDeclaration;
use std::alloc::{AllocError, Global};
use std::collections::BTreeSet;

fn numbers_of<'a>(alloc: Global, tasks: &'a [TaskDeclaration]) -> Result<Numbers<'a>, AllocError>
    requires { no_repeats (paths_in tasks.now) ≡ true }
    ensures { IfOk result (λ numbers. GiveNumbers (paths_in tasks.now) numbers) }
{
    let mut numbers = Numbers::new(alloc);
    for number in 0..tasks.len() {
        numbers.insert(&tasks[number].path, number)?;
    }
    Ok(numbers)
}

/// Adds the numbers of the paths that have one.
fn add_numbers(
    row: &mut Vec<usize>,
    numbers: &Numbers<'_>,
    paths: &TaskPaths,
) -> Result<(), AllocError>
    ensures { OnOk result (row.new.items ≡ row.old.items ++ numbers_in numbers.now paths.now) }
{
    for path in paths.iter() {
        if let Some(number) = numbers.get(path) {
            row.push(number)?;
        }
    }
    Ok(())
}

/// For each task the numbers of the tasks that it needs and of its finalizers.
fn brought_of(
    alloc: Global,
    numbers: &Numbers<'_>,
    tasks: &[TaskDeclaration],
) -> Result<Vec<Vec<usize>>, AllocError>
    ensures { IfOk result (λ table. rows table.items ≡ brought_rows numbers.now tasks.now) }
{
    let mut table = Vec::new(alloc);
    for task in tasks {
        let mut row = Vec::new(alloc);
        add_numbers(&mut row, numbers, &task.needs)?;
        add_numbers(&mut row, numbers, &task.finalizers)?;
        table.push(row)?;
    }
    Ok(table)
}

/// For each list the numbers of its paths.
fn starts_of(
    alloc: Global,
    numbers: &Numbers<'_>,
    lists: &[TaskPaths],
) -> Result<Vec<Vec<usize>>, AllocError>
    ensures { IfOk result (λ starts. rows starts.items ≡ map (numbers_in numbers.now) lists.now) }
{
    let mut starts = Vec::new(alloc);
    for paths in lists {
        let mut row = Vec::new(alloc);
        add_numbers(&mut row, numbers, paths)?;
        starts.push(row)?;
    }
    Ok(starts)
}

/// For each scheduled task the index of the first argument that reaches it.
pub(crate) fn first_words(
    alloc: Global,
    tasks: &[TaskDeclaration],
    lists: &[TaskPaths],
) -> Result<Vec<usize>, AllocError>
    requires { no_repeats (paths_in tasks.now) ≡ true }
    ensures each { IfOk result (λ words. length words.items ≡ length tasks.now) }
    ensures first { IfOk result (λ words. (request : Request) → AreDone request tasks.now lists.now
        → (k : ℕ) → k < length tasks.now
        → IsFirstWord request (slice_index_or (paths_in tasks.now) k []) (slice_index words.items k)) }
{
    let numbers = numbers_of(alloc, tasks)?;
    let table = brought_of(alloc, &numbers, tasks)?;
    let starts = starts_of(alloc, &numbers, lists)?;
    first_starts(alloc, table.as_slice(), starts.as_slice())
}

/// The tasks with their arguments; the tasks in the set are the selected ones.
pub(crate) fn worded(
    alloc: Global,
    tasks: Vec<TaskDeclaration>,
    words: &[usize],
    selected: &BTreeSet<TaskPath>,
) -> Result<Vec<Planned>, AllocError>
    requires { length tasks.items ≤ length words.now }
    ensures { IfOk result (λ planned.
        AreWorded tasks.items words.now (contains byte_order selected.now) planned.items) }
{
    let mut planned = Vec::new(alloc);
    for task in tasks {
        let is_selected = selected.contains(&task.path);
        let word = words[planned.len()];
        planned.push(Planned {
            task,
            word,
            is_selected,
        })?;
    }
    Ok(planned)
}
