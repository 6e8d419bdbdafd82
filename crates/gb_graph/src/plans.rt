//! The tasks of a request, in the order in which they run.
ghost use Rattle.std.specs.Prelude.{◌≡◌, ◌⊎◌, ◌<◌, ◌↔◌, [], ◌++◌, ℕ, List, map, length, true, Ok, Err};
ghost use Rattle.std.specs.Prelude.{Contains, IfOk, IfErr, slice_index_or};
ghost use Rattle.gb_report.specs.declared.fault.Fault.TheVariants.{OutOfMemory};
ghost use Rattle.gb_plan.specs.declared.plan.Planned.{Planned};
ghost use Rattle.gb_plan.specs.Graph.{Request, IsSchedule, order, stuck};
ghost use Rattle.gb_plan.specs.Refusal.{IsCycle, IsRefused, request_of};
ghost use Rattle.gb_graph.specs.Order.{rows};
ghost use Rattle.gb_graph.specs.Settled.{is_marked};
ghost use Rattle.gb_graph.specs.Ranked.{AreRanked, AreRanks};

use crate::arrange::{Ranks, in_order, rank, ranks_of};
use crate::cycle::{paths_of, round_of};
use crate::schedule::scheduled;
use crate::tasks::Tasks;
use gb_core::task_paths::TaskList;
use gb_core::text::Text;
use gb_plan::plan::Planned;
use gb_report::fault::Fault;
use std::alloc::{AllocError, Global};

/// A mark for each of `count` tasks, true at these numbers.
fn marks_of(alloc: Global, count: usize, numbers: &[usize]) -> Result<Vec<bool>, AllocError>
    requires { (number : ℕ) → Contains numbers.now number → number < count }
    ensures each { IfOk result (λ marks. length marks.items ≡ count) }
    ensures reported { IfOk result (λ marks. (number : ℕ) →
        (is_marked marks.items number ≡ true) ↔ Contains numbers.now number) }
{
    let mut marks = vec![in alloc; false; count]?;
    for number in numbers {
        marks[*number] = true;
    }
    Ok(marks)
}

/// The cycle of the tasks that never get ready. There is at least one such task.
fn cycle_of(alloc: Global, tasks: &[Planned], ranks: &Ranks) -> Result<TaskList, AllocError>
    requires ranked { AreRanked tasks.now }
    requires ranks { AreRanks tasks.now
        (rows ranks.now.after.items) ranks.now.order.items ranks.now.others.items }
    requires some { (number : ℕ) × Contains ranks.now.others.items number }
    ensures { IfOk result (λ cycle. (d : Planned) →
        let plan = map (λ k. slice_index_or tasks.now k d)
        (ranks.now.order.items ++ ranks.now.others.items) in
        IsCycle plan (order (stuck plan [] plan)) cycle) }
{
    let marks = marks_of(alloc, tasks.len(), ranks.others.as_slice())?;
    let round = round_of(
        alloc,
        tasks,
        ranks.after.as_slice(),
        marks.as_slice(),
        ranks.others.as_slice(),
    )?;
    paths_of(alloc, tasks, round.as_slice())
}

/// The scheduled tasks of a request, in the order in which they run.
/// Refused with the first fault of the arguments or along the queue, or with the cycle of the
/// tasks that never get ready (60).
pub fn ordered<T: Tasks>(
    alloc: Global,
    tasks: &mut T,
    requested: &[Text],
    excluded: &[Text],
) -> Result<Vec<Planned>, Fault>
    ensures kept { T.registry tasks.new ≡ T.registry tasks.old }
    ensures plan { IfOk result (λ plan. (request : Request)
        × (request_of (T.registry tasks.old) requested.now excluded.now ≡ Ok request)
        × IsSchedule request plan.items × (stuck plan.items [] plan.items ≡ [])) }
    ensures fault { IfErr result (λ fault. (fault ≡ OutOfMemory)
        ⊎ ((request_of (T.registry tasks.old) requested.now excluded.now ≡ Err fault)
        ⊎ ((request : Request)
        × (request_of (T.registry tasks.old) requested.now excluded.now ≡ Ok request)
        × IsRefused request fault))) }
{
    let mut planned = scheduled(alloc, tasks, requested, excluded)?;
    rank(&mut planned);
    let ranks = ranks_of(alloc, planned.as_slice())?;
    if !ranks.others.is_empty() {
        return Err(Fault::Cycle(cycle_of(alloc, planned.as_slice(), &ranks)?));
    }
    Ok(in_order(alloc, planned, &ranks)?)
}
