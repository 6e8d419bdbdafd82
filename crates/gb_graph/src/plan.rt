//! The plan of a request.
//!
//! Input: the registered tasks, and the requested and the excluded words. Output: the scheduled
//! tasks in order, or the first fault. The steps, in each of which memory may run out (3):
//!
//! 1. `selection`: the tasks that the words select, or the default tasks (64, 1, 50, 52).
//! 2. `schedule`: a queue starts with these. Each task in it is declared once, and appends those it
//!    needs and its finalizers. The first task with a fault ends it.
//! 3. `arrange`: the tasks are sorted by the first word that reaches them, then by path. From
//!    here on a task is its index, and to compare two tasks is to compare two numbers.
//! 4. `order`: the least task whose predecessors are placed comes next. What is left is on a cycle
//!    or after one, and `cycle` finds the cycle that is reported (60).
//! 5. `refusal`: a row of bits for each task has all tasks that come before it by a chain, and the
//!    places are in sorted rows. Three searches find the least overlap of outputs (61), the least
//!    output that its own task reads (63), and the least undeclared read (62).
//!
//! What makes it right: each step returns what its definition gives, and the definitions are
//! relations in which the least is taken, so no result depends on the order of a search. The rows
//! of bits take about n * n / 8 bytes for n tasks: 2 MiB for 4,096, the most that scripts register.
ghost use Rattle.std.specs.Prelude.{◌≡◌, IfOk, IfErr};
ghost use Rattle.gb_graph.specs.Answer.{IsPlanOf, IsRefusalOf};

use crate::plans::ordered;
use crate::refusal::{refusal_of, reported};
use crate::tasks::Tasks;
use gb_core::text::Text;
use gb_plan::plan::Plan;
use gb_report::fault::Fault;
use std::alloc::Global;

/// The plan of a request, or why there is none: memory ran out, or the first of these faults: one
/// of the requested and excluded words; one of a task, in the order in which tasks are queued; a
/// cycle (60); the least overlap of outputs (61); the least output that its own task reads (63);
/// the least output of another task that a task reads without coming after it (62).
pub fn plan<T: Tasks>(
    alloc: Global,
    tasks: &mut T,
    requested: &[Text],
    excluded: &[Text],
) -> Result<Plan, Fault>
    ensures kept { T.registry tasks.new ≡ T.registry tasks.old }
    ensures plan { IfOk result (IsPlanOf (T.registry tasks.old) requested.now excluded.now) }
    ensures fault { IfErr result (IsRefusalOf (T.registry tasks.old) requested.now excluded.now) }
{
    let ordered = ordered(alloc, tasks, requested, excluded)?;
    match refusal_of(alloc, ordered.as_slice())? {
        None => Ok(Plan::from_vec(ordered)),
        Some(refusal) => Err(reported(refusal)),
    }
}
