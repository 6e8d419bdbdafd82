//! Sorts the tasks of a plan into the order in which they run.
ghost use Rattle.std.specs.Prelude.{◌≡◌, [], true, IfOk};
ghost use Rattle.gb_plan.specs.Graph.{order, no_repeats, stuck};
ghost use Rattle.gb_graph.specs.Order.{rows};
ghost use Rattle.gb_graph.specs.Ranked.{AreRanked, AreRanks, AreSame, IsArranged, rank_order};

use crate::order::order_of;
use crate::ranked::{after_of, others_of, tasks_at};
use gb_plan::plan::Planned;
use std::alloc::{AllocError, Global};
use std::cmp::Ordering;

/// What the tasks come after, and their order, all by number.
#[derive(Drop)]
pub struct Ranks {
    /// For each task the tasks that it comes after.
    pub after: Vec<Vec<usize>>,
    /// The tasks that get ready, in order.
    pub order: Vec<usize>,
    /// The tasks that never get ready.
    pub others: Vec<usize>,
}

fn by_rank(a: &Planned, b: &Planned) -> Ordering
    ensures { result ≡ rank_order a.now b.now }
{
    a.word.cmp(&b.word).then(a.task.path.cmp(&b.task.path))
}

/// Sorts tasks by word and path.
pub fn rank(tasks: &mut Vec<Planned>)
    requires { no_repeats (order tasks.old.items) ≡ true }
    ensures ranked { AreRanked tasks.new.items }
    ensures same { AreSame tasks.old.items tasks.new.items }
{
    tasks.sort_unstable_by(|a, b| by_rank(a, b));
}

/// The order of tasks that are sorted.
pub fn ranks_of(alloc: Global, tasks: &[Planned]) -> Result<Ranks, AllocError>
    requires { AreRanked tasks.now }
    ensures { IfOk result (λ ranks.
        AreRanks tasks.now (rows ranks.after.items) ranks.order.items ranks.others.items) }
{
    let after = after_of(alloc, tasks)?;
    let order = order_of(alloc, after.as_slice())?;
    let others = others_of(alloc, tasks.len(), order.as_slice())?;
    Ok(Ranks {
        after,
        order,
        others,
    })
}

/// The tasks in their order, where all of them get ready.
pub fn in_order(
    alloc: Global,
    tasks: Vec<Planned>,
    ranks: &Ranks,
) -> Result<Vec<Planned>, AllocError>
    requires ranked { AreRanked tasks.items }
    requires ranks { AreRanks tasks.items
        (rows ranks.now.after.items) ranks.now.order.items ranks.now.others.items }
    requires all_ready { ranks.now.others.items ≡ [] }
    ensures arranged { IfOk result (λ plan. IsArranged tasks.items plan.items) }
    ensures ready { IfOk result (λ plan. stuck plan.items [] plan.items ≡ []) }
{
    tasks_at(alloc, tasks, ranks.order.as_slice())
}
