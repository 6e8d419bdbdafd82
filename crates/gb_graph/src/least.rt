//! The least conflict between tasks. Conflicts are compared by number, and only the result is
//! copied.
ghost use Rattle.std.specs.Prelude.{◌≡◌, ◌<◌, ℕ, [], true, false, length, Contains, MatchOption, IfOk};
ghost use Rattle.std.specs.Ordering.{is_gt, is_lt};
ghost use Rattle.gb_core.specs.Lists.{byte_order};
ghost use Rattle.gb_plan.specs.Refusal.{is_before};
ghost use Rattle.gb_graph.specs.Order.{rows};
ghost use Rattle.gb_graph.specs.Cycle.{path_at};
ghost use Rattle.gb_graph.specs.Places.{IsRising};
ghost use Rattle.gb_graph.specs.declared.places.TaskPlace.{TaskPlace};
ghost use Rattle.gb_graph.specs.Conflicts.{IsLeast, IsLeastTask, IsConflictThere, IsWithin};
ghost use Rattle.gb_graph.specs.Conflicts.{found_by, lesser, conflict_by};

use crate::conflicting::{Search, conflicts_at};
use crate::last_overlap::{near_at, no_place};
use crate::places::{TaskPlace, place_of};
use gb_core::path::TaskPath;
use gb_core::place::Place;
use gb_plan::plan::Planned;
use std::alloc::{AllocError, Global};
use std::cmp::Ordering;

/// A place at which a task conflicts with another.
#[derive(Drop)]
pub struct Found {
    /// The task that is reported first.
    pub task: TaskPath,
    /// The task with which it conflicts, which may be the same.
    pub other: TaskPath,
    /// The place that is reported.
    pub place: Place,
}

/// The same by number: two tasks, and an index in a row of places.
#[derive(Clone, Copy)]
pub struct FoundConflict {
    /// The number of the first task in its plan.
    pub task: usize,
    /// The number of the task with which it conflicts.
    pub other: usize,
    /// The index of the place in the row that was searched.
    pub place: usize,
}

fn path_of(tasks: &[Planned], number: usize) -> &TaskPath
    requires { number < length tasks.now }
    ensures { result.now ≡ path_at tasks.now number }
{
    &tasks[number].task.path
}

/// Whether one comes before another: by the first task, then by the other, then by the place.
fn is_before(tasks: &[Planned], places: &[TaskPlace], a: FoundConflict, b: FoundConflict) -> bool
    requires a { IsWithin tasks.now places.now a }
    requires b { IsWithin tasks.now places.now b }
    ensures { result ≡ is_before (conflict_by tasks.now places.now a) (conflict_by tasks.now places.now b) }
{
    let by_place = place_of(places, a.place).cmp(place_of(places, b.place));
    let by_other = path_of(tasks, a.other)
        .cmp(path_of(tasks, b.other))
        .then(by_place);
    path_of(tasks, a.task)
        .cmp(path_of(tasks, b.task))
        .then(by_other)
        == Ordering::Less
}

fn lesser(
    tasks: &[Planned],
    places: &[TaskPlace],
    found: Option<FoundConflict>,
    other: Option<FoundConflict>,
) -> Option<FoundConflict>
    requires found { MatchOption found (Unit {0}) (IsWithin tasks.now places.now) }
    requires other { MatchOption other (Unit {0}) (IsWithin tasks.now places.now) }
    ensures lesser { found_by tasks.now places.now result
        ≡ lesser (found_by tasks.now places.now found) (found_by tasks.now places.now other) }
    ensures within { MatchOption result (Unit {0}) (IsWithin tasks.now places.now) }
{
    match (found, other) {
        (None, other) => other,
        (Some(found), None) => Some(found),
        (Some(found), Some(other)) => {
            if is_before(tasks, places, other, found) {
                Some(other)
            } else {
                Some(found)
            }
        }
    }
}

/// Whether the path of a task comes before the path of the least task so far.
fn is_lesser(tasks: &[Planned], number: usize, least: Option<usize>) -> bool
    requires number { number < length tasks.now }
    requires least { MatchOption least (Unit {0}) (λ least. least < length tasks.now) }
    ensures { MatchOption least (result ≡ true) (λ least.
        result ≡ is_lt (byte_order (path_at tasks.now number) (path_at tasks.now least))) }
{
    match least {
        None => true,
        Some(least) => path_of(tasks, number) < path_of(tasks, least),
    }
}

/// The least of these tasks by path.
fn least_task(tasks: &[Planned], numbers: &[usize]) -> Option<usize>
    requires { (number : ℕ) → Contains numbers.now number → number < length tasks.now }
    ensures { MatchOption result (numbers.now ≡ []) (IsLeastTask tasks.now numbers.now) }
{
    let mut least = None;
    for number in numbers {
        if is_lesser(tasks, *number, least) {
            least = Some(*number);
        }
    }
    least
}

/// The least conflict of a task at a place with these tasks.
fn least_at(tasks: &[Planned], task: usize, place: usize, others: &[usize]) -> Option<FoundConflict>
    requires { (other : ℕ) → Contains others.now other → other < length tasks.now }
    ensures { MatchOption result (others.now ≡ []) (λ met. (met.task ≡ task) × (met.place ≡ place)
        × IsLeastTask tasks.now others.now met.other) }
{
    least_task(tasks, others).map(|other| FoundConflict { task, other, place })
}

/// Whether every conflict of a task comes after the conflict that was found.
fn is_later(tasks: &[Planned], task: usize, found: Option<FoundConflict>) -> bool
    requires task { task < length tasks.now }
    requires found { MatchOption found (Unit {0}) (λ met. met.task < length tasks.now) }
    ensures { MatchOption found (result ≡ false) (λ met.
        result ≡ is_gt (byte_order (path_at tasks.now task) (path_at tasks.now met.task))) }
{
    match found {
        None => false,
        Some(met) => path_of(tasks, task).cmp(path_of(tasks, met.task)) == Ordering::Greater,
    }
}

fn copied(
    tasks: &[Planned],
    places: &[TaskPlace],
    found: Option<FoundConflict>,
) -> Result<Option<Found>, AllocError>
    requires { MatchOption found (Unit {0}) (IsWithin tasks.now places.now) }
    ensures { IfOk result (λ copied. copied ≡ found_by tasks.now places.now found) }
{
    match found {
        None => Ok(None),
        Some(met) => Ok(Some(Found {
            task: path_of(tasks, met.task).copy()?,
            other: path_of(tasks, met.other).copy()?,
            place: place_of(places, met.place).copy()?,
        })),
    }
}

/// The least conflict of the tasks of these places with the tasks of outputs. It visits only the
/// pairs that overlap, of each task at most two outputs at once, and skips the places of tasks that
/// come after a task with a conflict.
pub fn least_conflict(
    alloc: Global,
    search: Search,
    chains: &[Vec<u64>],
    tasks: &[Planned],
    outputs: &[TaskPlace],
    places: &[TaskPlace],
) -> Result<Option<Found>, AllocError>
    requires rising { IsRising outputs.now }
    requires outputs { (at : TaskPlace) → Contains outputs.now at → at.task < length tasks.now }
    requires places { (at : TaskPlace) → Contains places.now at → at.task < length tasks.now }
    ensures { IfOk result (λ least.
        IsLeast (IsConflictThere search (rows chains.now) tasks.now outputs.now places.now) least) }
{
    let mut least = None;
    let mut last = no_place(alloc);
    for place in 0..places.len() {
        let task = places[place].task;
        if !is_later(tasks, task, least) {
            last = near_at(alloc, outputs, places, place, last)?;
            let others = conflicts_at(alloc, search, chains, last.near.as_slice(), &places[place])?;
            let met = least_at(tasks, task, place, others.as_slice());
            least = lesser(tasks, places, least, met);
        }
    }
    copied(tasks, places, least)
}
