//! Which earlier task may change what a task finds, and which one keeps it from starting.
ghost use Rattle.std.specs.Prelude.{◌≡◌, ◌≤◌, ◌&&◌, [], ℕ, List, Some, IfOk, OnOk, bytes_eq};
ghost use Rattle.std.specs.Prelude.{if◌then◌else◌, is_some, length, option_copied};
ghost use Rattle.std.specs.List.{zip};
ghost use Rattle.gb_predict.specs.Least.{AreNotStarting, ByOne, IsChanged, IsLeast, IsReadAt, IsReadBy};
ghost use Rattle.gb_predict.specs.Least.{lesser};
ghost use Rattle.gb_predict.specs.Marks.{culprit, culprit_at, keeper, mark};
ghost use Rattle.gb_graph.specs.Places.{AreSamePlaces, IsRising, places_from, with_places};
ghost use Rattle.gb_graph.specs.Ranked.{number_at};
ghost use Rattle.gb_plan.specs.Task.{output_places};

use crate::predicted_outcome::{PredictedOutcome, Prediction};
use gb_core::path::TaskPath;
use gb_core::place::Place;
use gb_graph::by_path::Numbers;
use gb_graph::overlaps::{no_guesses, overlapped};
use gb_graph::places::{TaskPlace, outputs_of, sort_by_place};
use gb_plan::plan::Planned;
use gb_plan::task::{FileProperty, TaskDeclaration};
use std::alloc::{AllocError, Global};

/// The outputs of a plan's tasks, sorted by their places.
pub(crate) fn outputs_by_place(
    alloc: Global,
    plan: &[Planned],
) -> Result<Vec<TaskPlace>, AllocError>
    ensures rising { IfOk result (λ row. IsRising row.items) }
    ensures of_plan { IfOk result (λ row.
        AreSamePlaces (with_places [] (places_from output_places 0 plan.now)) row.items) }
{
    let mut row = outputs_of(alloc, plan)?;
    sort_by_place(&mut row);
    Ok(row)
}

/// The first of the tasks with a prediction that may change and whose output the task reads, if the
/// prediction for it depends on files.
pub(crate) fn mark(
    alloc: Global,
    row: &[TaskPlace],
    plan: &[Planned],
    reported: &[Prediction],
    task: &TaskDeclaration,
    coming: &PredictedOutcome,
) -> Result<Option<TaskPath>, AllocError>
    requires rising { IsRising row.now }
    requires of_plan { AreSamePlaces (with_places [] (places_from output_places 0 plan.now)) row.now }
    requires each { length reported.now ≤ length plan.now }
    ensures { IfOk result (λ found. found ≡ mark (zip plan.now reported.now) task.now coming.now) }
{
    if !coming.reads_files() {
        return Ok(None);
    }
    match first_read(alloc, row, reported, task.files.as_slice())? {
        Some(number) => Ok(Some(plan[number].task.path.copy()?)),
        None => Ok(None),
    }
}

/// The number of the first task that may change an output that one of the properties reads.
fn first_read(
    alloc: Global,
    row: &[TaskPlace],
    reported: &[Prediction],
    files: &[FileProperty],
) -> Result<Option<usize>, AllocError>
    requires { IsRising row.now }
    ensures { IfOk result (IsLeast (IsReadBy row.now reported.now files.now)) }
{
    let mut first = None;
    for property in files {
        let found = first_at_roots(alloc, row, reported, property.roots.as_slice())?;
        first = lesser(first, found);
    }
    Ok(first)
}

/// The same for the roots of one property.
fn first_at_roots(
    alloc: Global,
    row: &[TaskPlace],
    reported: &[Prediction],
    roots: &[Place],
) -> Result<Option<usize>, AllocError>
    requires { IsRising row.now }
    ensures { IfOk result (IsLeast (ByOne (IsReadAt row.now reported.now) roots.now)) }
{
    let mut first = None;
    for root in roots {
        first = lesser(first, first_at(alloc, row, reported, root)?);
    }
    Ok(first)
}

/// The same for one root.
fn first_at(
    alloc: Global,
    row: &[TaskPlace],
    reported: &[Prediction],
    root: &Place,
) -> Result<Option<usize>, AllocError>
    requires { IsRising row.now }
    ensures { IfOk result (IsLeast (IsReadAt row.now reported.now root.now)) }
{
    let mut guesses = no_guesses(alloc);
    let found = overlapped(alloc, row, root, &mut guesses)?;
    let mut first = None;
    for index in &found {
        first = lesser(first, changed(reported, &row[*index]));
    }
    Ok(first)
}

/// The number of the task whose output this is, if it may change it.
fn changed(reported: &[Prediction], at: &TaskPlace) -> Option<usize>
    ensures { IsLeast (IsChanged reported.now at.now) result }
{
    if at.task < reported.len() && reported[at.task].may_change() {
        Some(at.task)
    } else {
        None
    }
}

fn lesser(one: Option<usize>, other: Option<usize>) -> Option<usize>
    ensures { result ≡ lesser one other }
{
    match (one, other) {
        (Some(number), Some(less)) if less < number => Some(less),
        (Some(number), _) => Some(number),
        (None, other) => other,
    }
}

/// The task that cannot be read and keeps this one from starting, by direct or indirect needs.
/// `not_starting` has the numbers of the earlier tasks that do not start.
pub(crate) fn keeper(
    task: &TaskDeclaration,
    reported: &[Prediction],
    not_starting: &Numbers<'_>,
) -> Result<Option<TaskPath>, AllocError>
    requires { AreNotStarting reported.now not_starting.now }
    ensures { IfOk result (λ found. found ≡ keeper task.now reported.now) }
{
    for path in task.needs.iter() {
        if let Some(culprit) = culprit_at(reported, not_starting, path) {
            return Ok(Some(culprit.copy()?));
        }
    }
    Ok(None)
}

/// The culprit of the task at a path, if it has one.
fn culprit_at<'a>(
    reported: &'a [Prediction],
    not_starting: &Numbers<'_>,
    path: &TaskPath,
) -> Option<&'a TaskPath>
    requires { AreNotStarting reported.now not_starting.now }
    ensures { option_copied result ≡ culprit_at reported.now path.now }
{
    match not_starting.get(path) {
        Some(number) => reported[number].culprit(),
        None => None,
    }
}

/// Notes the number of a task, if it does not start.
pub(crate) fn note_not_starting<'a>(
    not_starting: &mut Numbers<'a>,
    path: &'a TaskPath,
    number: usize,
    one: &Prediction,
) -> Result<(), AllocError>
    ensures { OnOk result ((other : List ℕ) → number_at not_starting.new other
        ≡ (if is_some (culprit one.now) && bytes_eq path.now other then Some number
        else number_at not_starting.old other)) }
{
    if one.culprit().is_some() {
        not_starting.insert(path, number)?;
    }
    Ok(())
}
