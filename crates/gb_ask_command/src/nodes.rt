//! The tasks of a plan as the nodes of a graph.
ghost use Rattle.std.specs.Prelude.{◌≡◌, IfOk, true};
ghost use Rattle.gb_graph.specs.Ranked.{GiveNumbers, numbers_in};
ghost use Rattle.gb_plan.specs.Graph.{Plan, no_repeats, order};
ghost use Rattle.gb_ask_command.specs.Graph.{AreNodesOf, IsNodeOf};

use gb_core::task_paths::TaskPaths;
use gb_graph::by_path::Numbers;
use gb_graph::ranked::numbers_of;
use gb_picture::graph::{Node, Tint};
use gb_plan::plan::Planned;
use std::alloc::{AllocError, Global};

/// The nodes of a plan, in its order, without colours. Each path is looked up in a table, so that
/// the number of steps grows as n log n.
pub(crate) fn nodes_of(alloc: Global, plan: &[Planned]) -> Result<Vec<Node>, AllocError>
    requires { no_repeats (order plan.now) ≡ true }
    ensures { IfOk result (λ nodes. AreNodesOf plan.now nodes.items) }
{
    let numbers = numbers_of(alloc, plan)?;
    numbered(alloc, &numbers, plan)
}

/// The nodes of a plan with these numbers.
fn numbered(alloc: Global, numbers: &Numbers<'_>, plan: &[Planned]) -> Result<Vec<Node>, AllocError>
    requires { GiveNumbers (order plan.now) numbers.now }
    ensures { IfOk result (λ nodes. AreNodesOf plan.now nodes.items) }
{
    let mut nodes = Vec::new(alloc);
    for planned in plan {
        nodes.push(node_of(alloc, numbers, planned)?)?;
    }
    Ok(nodes)
}

/// The node of a task of the plan with these numbers.
fn node_of(alloc: Global, numbers: &Numbers<'_>, planned: &Planned) -> Result<Node, AllocError>
    ensures { (plan : Plan) → GiveNumbers (order plan) numbers.now
        → IfOk result (IsNodeOf plan planned.now) }
{
    let needs = numbers_in(alloc, numbers, &planned.task.needs)?;
    let runs_after = numbers_in(alloc, numbers, &planned.task.must_run_after)?;
    let finalizers = numbers_in(alloc, numbers, &planned.task.finalizers)?;
    let name = String::from_str(alloc, planned.task.path.as_str())?;
    Ok(Node {
        name,
        tint: Tint::Plain,
        needs,
        runs_after,
        finalizers,
    })
}

/// The numbers of these tasks; tasks that have none are left out.
fn numbers_in(
    alloc: Global,
    numbers: &Numbers<'_>,
    paths: &TaskPaths,
) -> Result<Vec<usize>, AllocError>
    ensures { IfOk result (λ found. found.items ≡ numbers_in numbers.now paths.now) }
{
    let mut found = Vec::new(alloc);
    for path in paths.iter() {
        if let Some(number) = numbers.get(path) {
            found.push(number)?;
        }
    }
    Ok(found)
}
