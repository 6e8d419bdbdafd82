//! The cycle of tasks that never get ready.
ghost use Rattle.std.specs.Prelude.{◌≡◌, ◌<◌, ◌⊎◌, ◌++◌, ◌∷◌, ℕ, List, length, map, true, false, Contains};
ghost use Rattle.std.specs.Prelude.{MatchOption, IfOk, IsTrue};
ghost use Rattle.std.specs.Ordering.{is_lt};
ghost use Rattle.gb_core.specs.Lists.{byte_order};
ghost use Rattle.gb_graph.specs.Order.{rows, row};
ghost use Rattle.gb_graph.specs.Settled.{is_marked};
ghost use Rattle.gb_graph.specs.Cycle.{IsLeastNumber, IsRound, IsTrail, path_at};

use gb_core::task_paths::TaskList;
use gb_plan::plan::Planned;
use std::alloc::{AllocError, Global};

/// Of the numbers that are marked, the one with the least path.
fn least_of(tasks: &[Planned], numbers: &[usize], marks: &[bool]) -> Option<usize>
    requires known { (number : ℕ) → Contains numbers.now number → number < length tasks.now }
    requires each { length marks.now ≡ length tasks.now }
    ensures { MatchOption result
        ((number : ℕ) → Contains numbers.now number → is_marked marks.now number ≡ false)
        (λ number. IsLeastNumber tasks.now numbers.now marks.now number) }
{
    let mut least = None;
    for number in numbers {
        if marks[*number] {
            least = Some(lesser(tasks, *number, least));
        }
    }
    least
}

/// The task, or the other one, if there is another one whose path comes before or is the same.
fn lesser(tasks: &[Planned], number: usize, other: Option<usize>) -> usize
    requires known { number < length tasks.now }
    requires other { MatchOption other (Unit {0}) (λ other. other < length tasks.now) }
    ensures { MatchOption other (result ≡ number) (λ other.
        ((result ≡ number)
        × IsTrue (is_lt (byte_order (path_at tasks.now number) (path_at tasks.now other))))
        ⊎ ((result ≡ other)
        × (is_lt (byte_order (path_at tasks.now number) (path_at tasks.now other)) ≡ false))) }
{
    match other {
        None => number,
        Some(other) => {
            if tasks[number].task.path < tasks[other].task.path {
                number
            } else {
                other
            }
        }
    }
}

/// The trail from a task, each time to the least marked task that the last one comes after, until
/// it returns to one of its own tasks.
fn trail_of(
    alloc: Global,
    tasks: &[Planned],
    after: &[Vec<usize>],
    marks: &[bool],
    start: usize,
) -> Result<(Vec<usize>, usize), AllocError>
    requires known { (task before : ℕ) → Contains (row (rows after.now) task) before
        → before < length tasks.now }
    requires rows { length after.now ≡ length tasks.now }
    requires each { length marks.now ≡ length tasks.now }
    requires start { is_marked marks.now start ≡ true }
    requires goes_on { (number : ℕ) → is_marked marks.now number ≡ true
        → (next : ℕ) × Contains (row (rows after.now) number) next
        × (is_marked marks.now next ≡ true) }
    ensures { IfOk result (λ found.
        IsTrail tasks.now (rows after.now) marks.now start found.0.items found.1) }
{
    let mut met = vec![in alloc; false; tasks.len()]?;
    let mut trail = Vec::new(alloc);
    let mut at = start;
    while !met[at] {
        met[at] = true;
        trail.push(at)?;
        match least_of(tasks, &after[at], marks) {
            Some(next) => at = next,
            None => unreachable!(),
        }
    }
    Ok((trail, at))
}

/// Splits the numbers in two before this one.
fn cut(
    alloc: Global,
    numbers: &[usize],
    number: usize,
) -> Result<(Vec<usize>, Vec<usize>), AllocError>
    requires { Contains numbers.now number }
    ensures { IfOk result (λ parts. (numbers.now ≡ parts.0.items ++ parts.1.items)
        × ((rest : List ℕ) × (parts.1.items ≡ number ∷ rest))) }
{
    for at in 0..numbers.len() {
        if numbers[at] == number {
            return Ok((numbers[..at].to_vec(alloc)?, numbers[at..].to_vec(alloc)?));
        }
    }
    unreachable!()
}

/// The cycle of marked tasks, starting with its least one.
pub(crate) fn round_of(
    alloc: Global,
    tasks: &[Planned],
    after: &[Vec<usize>],
    marks: &[bool],
    numbers: &[usize],
) -> Result<Vec<usize>, AllocError>
    requires known { (task before : ℕ) → Contains (row (rows after.now) task) before
        → before < length tasks.now }
    requires rows { length after.now ≡ length tasks.now }
    requires each { length marks.now ≡ length tasks.now }
    requires among { (number : ℕ) → Contains numbers.now number → number < length tasks.now }
    requires some { (number : ℕ) × Contains numbers.now number × (is_marked marks.now number ≡ true) }
    requires goes_on { (number : ℕ) → is_marked marks.now number ≡ true
        → (next : ℕ) × Contains (row (rows after.now) number) next
        × (is_marked marks.now next ≡ true) }
    ensures { IfOk result (λ cycle.
        IsRound tasks.now (rows after.now) marks.now numbers.now cycle.items) }
{
    let start = least_of(tasks, numbers, marks).unwrap_or(0);
    let (trail, back) = trail_of(alloc, tasks, after, marks, start)?;
    let (_, round) = cut(alloc, trail.as_slice(), back)?;
    let first = least_of(tasks, round.as_slice(), marks).unwrap_or(0);
    let (end, mut cycle) = cut(alloc, round.as_slice(), first)?;
    cycle.extend_from_slice(end.as_slice())?;
    Ok(cycle)
}

/// The paths of the tasks of these numbers.
pub(crate) fn paths_of(
    alloc: Global,
    tasks: &[Planned],
    numbers: &[usize],
) -> Result<TaskList, AllocError>
    requires { (number : ℕ) → Contains numbers.now number → number < length tasks.now }
    ensures { IfOk result (λ paths. paths ≡ map (path_at tasks.now) numbers.now) }
{
    let mut paths = TaskList::new(alloc);
    for number in numbers {
        paths.push(tasks[*number].task.path.copy()?)?;
    }
    Ok(paths)
}
