//! The places of a plan's tasks, in rows.
ghost use Rattle.std.specs.Prelude.{◌≡◌, ◌<◌, ◌↔◌, ◌∷◌, [], map, length, IfOk, OnOk, IsTrue};
ghost use Rattle.std.specs.Bool.{OnTrue};
ghost use Rattle.std.specs.List.{flat_map};
ghost use Rattle.gb_plan.specs.Task.{roots_of, output_places};
ghost use Rattle.gb_graph.specs.Places.{AreSamePlaces, IsRising, IsSame, IsThinned, OccursTwice, by_place};
ghost use Rattle.gb_graph.specs.Places.{place_at, places_from, with_places};

use gb_core::place::Place;
use gb_plan::plan::Planned;
use gb_plan::task::{FileProperty, Output};
use std::alloc::{AllocError, Global};
use std::cmp::Ordering;

/// A place of a task: one of its outputs, or a root of its input files.
#[derive(Drop)]
pub struct TaskPlace {
    /// The number of the task in its plan.
    pub task: usize,
    /// The number of the place itself, counted over all tasks.
    pub number: usize,
    /// The place itself, as its task declares it.
    pub place: Place,
}

/// The place at an index of a row.
pub(crate) fn place_of(places: &[TaskPlace], index: usize) -> &Place
    requires { index < length places.now }
    ensures { result.now ≡ place_at places.now index }
{
    &places[index].place
}

fn add(row: &mut Vec<TaskPlace>, task: usize, place: &Place) -> Result<(), AllocError>
    ensures { OnOk result (row.new.items ≡ with_places row.old.items ((task, place.now) ∷ [])) }
{
    let number = row.len();
    let place = place.copy()?;
    row.push(TaskPlace {
        task,
        number,
        place,
    })?;
    Ok(())
}

fn add_outputs(row: &mut Vec<TaskPlace>, task: usize, outputs: &[Output]) -> Result<(), AllocError>
    ensures { OnOk result (row.new.items ≡ with_places row.old.items
        (map (λ place. (task, place)) (map (λ output. output.place) outputs.now))) }
{
    for output in outputs {
        add(row, task, &output.place)?;
    }
    Ok(())
}

fn add_roots(row: &mut Vec<TaskPlace>, task: usize, roots: &[Place]) -> Result<(), AllocError>
    ensures { OnOk result (row.new.items ≡ with_places row.old.items
        (map (λ root. (task, root)) roots.now)) }
{
    for root in roots {
        add(row, task, root)?;
    }
    Ok(())
}

fn add_files(
    row: &mut Vec<TaskPlace>,
    task: usize,
    files: &[FileProperty],
) -> Result<(), AllocError>
    ensures { OnOk result (row.new.items ≡ with_places row.old.items
        (map (λ root. (task, root)) (flat_map (λ property. property.roots) files.now))) }
{
    for property in files {
        add_roots(row, task, property.roots.as_slice())?;
    }
    Ok(())
}

/// The output places of all tasks.
pub fn outputs_of(alloc: Global, tasks: &[Planned]) -> Result<Vec<TaskPlace>, AllocError>
    ensures { IfOk result (λ row. row.items ≡ with_places [] (places_from output_places 0 tasks.now)) }
{
    let mut row = Vec::new(alloc);
    for task in 0..tasks.len() {
        add_outputs(&mut row, task, tasks[task].task.outputs.as_slice())?;
    }
    Ok(row)
}

/// The roots of the files that all tasks read.
pub fn roots_of(alloc: Global, tasks: &[Planned]) -> Result<Vec<TaskPlace>, AllocError>
    ensures { IfOk result (λ row. row.items ≡ with_places [] (places_from roots_of 0 tasks.now)) }
{
    let mut row = Vec::new(alloc);
    for task in 0..tasks.len() {
        add_files(&mut row, task, tasks[task].task.files.as_slice())?;
    }
    Ok(row)
}

fn by_place(a: &TaskPlace, b: &TaskPlace) -> Ordering
    ensures { result ≡ by_place a.now b.now }
{
    a.place.cmp(&b.place).then(a.task.cmp(&b.task))
}

/// Sorts places by their bytes, and equal places by their tasks.
pub fn sort_by_place(row: &mut Vec<TaskPlace>)
    ensures rising { IsRising row.new.items }
    ensures same { AreSamePlaces row.old.items row.new.items }
{
    row.sort_unstable_by(|a, b| by_place(a, b));
}

fn is_same(a: &TaskPlace, b: &TaskPlace) -> bool
    ensures { IsTrue result ↔ IsSame a.now b.now }
{
    a.task == b.task && a.place == b.place
}

/// Whether the last two entries of a row are the same place of the same task as this one, under two
/// numbers.
fn ends_in_two(row: &[TaskPlace], at: &TaskPlace) -> bool
    ensures { OnTrue result (OccursTwice row.now at.now) }
{
    match row {
        [.., one, other] => is_same(one, at) && is_same(other, at) && one.number != other.number,
        _ => false,
    }
}

/// A row in which the same place of the same task occurs at most twice, if its occurrences were
/// adjacent. Both rows have the same conflicts, and one task may name a place ten thousand times.
pub fn thinned(alloc: Global, row: Vec<TaskPlace>) -> Result<Vec<TaskPlace>, AllocError>
    ensures thinned { IfOk result (λ thinned. IsThinned row.items thinned.items) }
    ensures rising { IfOk result (λ thinned. IsRising row.items → IsRising thinned.items) }
{
    let mut thinned = Vec::new(alloc);
    for at in row {
        if !ends_in_two(thinned.as_slice(), &at) {
            thinned.push(at)?;
        }
    }
    Ok(thinned)
}
