//! The queue of tasks that are declared one by one.
ghost use Rattle.std.specs.Prelude.{◌≡◌, ◌<◌, ◌⊎◌, ◌++◌, [], true, Some, Ok, Err, IfOk, IfErr, OnOk};
ghost use Rattle.std.specs.Prelude.{IsTrue, length, slice_index_or};
ghost use Rattle.std.specs.List.{AllByRecursion};
ghost use Rattle.std.specs.BTreeSet.{contains};
ghost use Rattle.gb_core.specs.Lists.{byte_order};
ghost use Rattle.gb_core.specs.Tasks.{with_tasks};
ghost use Rattle.gb_report.specs.declared.fault.Fault.TheVariants.{OutOfMemory};
ghost use Rattle.gb_plan.specs.Task.{Path, has_path};
ghost use Rattle.gb_plan.specs.Graph.{Request, IsRegistered, brings, declaration_at, no_repeats, paths_of};
ghost use Rattle.gb_plan.specs.Refusal.{Queued, IsTaskFault};
ghost use Rattle.gb_graph.specs.Queue.{IsAsked, added, paths_in};

use crate::tasks::Tasks;
use gb_core::path::TaskPath;
use gb_core::task_paths::TaskPaths;
use gb_plan::task::TaskDeclaration;
use gb_report::fault::Fault;
use std::alloc::{AllocError, Global};
use std::collections::BTreeSet;

/// Appends the paths that are neither left out nor known.
pub(crate) fn enqueue(
    queue: &mut Vec<TaskPath>,
    known: &mut BTreeSet<TaskPath>,
    excluded: &BTreeSet<TaskPath>,
    paths: &TaskPaths,
) -> Result<(), AllocError>
    requires { (path : Path) → contains byte_order known.old path ≡ has_path queue.old.items path }
    ensures known { OnOk result ((path : Path) →
        contains byte_order known.new path ≡ has_path queue.new.items path) }
    ensures queue { OnOk result (queue.new.items
        ≡ added (contains byte_order excluded.now) queue.old.items paths.now) }
{
    for path in paths.iter() {
        if !excluded.contains(path) && known.insert(path.copy()?)? {
            queue.push(path.copy()?)?;
        }
    }
    Ok(())
}

/// The tasks that a task needs, and its finalizers.
fn brought_by(alloc: Global, task: &TaskDeclaration) -> Result<TaskPaths, AllocError>
    ensures { IfOk result (λ paths. paths ≡ with_tasks [] (task.now.needs ++ task.now.finalizers)) }
{
    let mut paths = TaskPaths::new(alloc);
    paths.extend(&task.needs)?;
    paths.extend(&task.finalizers)?;
    Ok(paths)
}

/// Declares the task at an index of the queue, and adds to the queue the tasks that it brings.
fn declare<T: Tasks>(
    alloc: Global,
    tasks: &mut T,
    queue: &mut Vec<TaskPath>,
    known: &mut BTreeSet<TaskPath>,
    excluded: &BTreeSet<TaskPath>,
    at: usize,
) -> Result<TaskDeclaration, Fault>
    requires known { (path : Path) → contains byte_order known.old path ≡ has_path queue.old.items path }
    requires within { at < length queue.old.items }
    requires registered { IsTrue (has_path (paths_of (T.registry tasks.old))
        (slice_index_or queue.old.items at [])) }
    ensures kept { T.registry tasks.new ≡ T.registry tasks.old }
    ensures known { OnOk result ((path : Path) →
        contains byte_order known.new path ≡ has_path queue.new.items path) }
    ensures task { IfOk result (λ task.
        declaration_at (T.registry tasks.old) (slice_index_or queue.old.items at []) ≡ Some (Ok task)) }
    ensures queue { OnOk result (queue.new.items ≡ added (contains byte_order excluded.now)
        queue.old.items (brings (T.registry tasks.old) (slice_index_or queue.old.items at []))) }
    ensures fault { IfErr result (λ fault. (fault ≡ OutOfMemory) ⊎ (declaration_at (T.registry tasks.old)
        (slice_index_or queue.old.items at []) ≡ Some (Err fault))) }
{
    let task = tasks.realise(alloc, &queue[at])?;
    let brought = brought_by(alloc, &task)?;
    enqueue(queue, known, excluded, &brought)?;
    Ok(task)
}

/// Declares the tasks of a queue and all tasks that they bring, or returns the first fault.
pub(crate) fn declare_all<T: Tasks>(
    alloc: Global,
    tasks: &mut T,
    queue: &mut Vec<TaskPath>,
    known: &mut BTreeSet<TaskPath>,
    excluded: &BTreeSet<TaskPath>,
) -> Result<Vec<TaskDeclaration>, Fault>
    requires known { (path : Path) → contains byte_order known.old path ≡ has_path queue.old.items path }
    requires once { no_repeats queue.old.items ≡ true }
    requires registered { (path : Path) → IsTrue (has_path queue.old.items path)
        → IsTrue (has_path (paths_of (T.registry tasks.old)) path) }
    ensures kept { T.registry tasks.new ≡ T.registry tasks.old }
    ensures declared { IfOk result (λ found.
        AllByRecursion (IsRegistered (T.registry tasks.old)) found.items) }
    ensures once { IfOk result (λ found. no_repeats (paths_in found.items) ≡ true) }
    ensures queued { IfOk result (λ found. (request : Request)
        → IsAsked request (T.registry tasks.old) queue.old.items (contains byte_order excluded.now)
        → Queued request (paths_in found.items) []) }
    ensures fault { IfErr result (λ fault. (fault ≡ OutOfMemory) ⊎ ((request : Request)
        → IsAsked request (T.registry tasks.old) queue.old.items (contains byte_order excluded.now)
        → IsTaskFault request fault)) }
{
    let mut found = Vec::new(alloc);
    let mut at = 0;
    while at < queue.len() {
        found.push(declare(alloc, tasks, queue, known, excluded, at)?)?;
        at += 1;
    }
    Ok(found)
}
