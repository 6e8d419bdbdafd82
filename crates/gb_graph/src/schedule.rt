//! The scheduled tasks of a request.
ghost use Rattle.std.specs.Prelude.{◌≡◌, ◌⊎◌, [], true, Ok, Err, IfOk, IfErr, OnOk};
ghost use Rattle.std.specs.List.{AllByRecursion};
ghost use Rattle.gb_report.specs.declared.fault.Fault.TheVariants.{OutOfMemory};
ghost use Rattle.gb_plan.specs.Task.{Path, has_path};
ghost use Rattle.gb_plan.specs.Graph.{Request, IsRegistered, no_repeats, paths_of};
ghost use Rattle.gb_plan.specs.Refusal.{IsTaskFault, Queued, request_of};
ghost use Rattle.gb_graph.specs.Queue.{paths_in};
ghost use Rattle.gb_graph.specs.Words.{AreDone, AreScheduled, AsksFor, asked, joined_paths};

use crate::queue::declare_all;
use crate::selection::{Selection, enqueue_all, select, set_of};
use crate::tasks::Tasks;
use crate::worded::{first_words, worded};
use gb_core::task_paths::TaskPaths;
use gb_core::text::Text;
use gb_plan::plan::Planned;
use gb_plan::task::TaskDeclaration;
use gb_report::fault::Fault;
use std::alloc::{AllocError, Global};
use std::collections::BTreeSet;

/// The declarations of all tasks that are scheduled, or the first fault along the queue.
fn declared_of<T: Tasks>(
    alloc: Global,
    tasks: &mut T,
    selection: &Selection,
) -> Result<Vec<TaskDeclaration>, Fault>
    requires { (path : Path) → has_path (joined_paths selection.now.requested.items) path ≡ true
        → has_path (paths_of (T.registry tasks.old)) path ≡ true }
    ensures kept { T.registry tasks.new ≡ T.registry tasks.old }
    ensures declared { IfOk result (λ found.
        AllByRecursion (IsRegistered (T.registry tasks.old)) found.items) }
    ensures once { IfOk result (λ found. no_repeats (paths_in found.items) ≡ true) }
    ensures queued { IfOk result (λ found. (request : Request)
        → AsksFor request (T.registry tasks.old) selection.now.requested.items selection.now.excluded.items
        → Queued request (paths_in found.items) []) }
    ensures fault { IfErr result (λ fault. (fault ≡ OutOfMemory) ⊎ ((request : Request)
        → AsksFor request (T.registry tasks.old) selection.now.requested.items selection.now.excluded.items
        → IsTaskFault request fault)) }
{
    let excluded = set_of(alloc, selection.excluded.as_slice())?;
    let mut queue = Vec::new(alloc);
    let mut known = BTreeSet::new(alloc);
    enqueue_all(
        &mut queue,
        &mut known,
        &excluded,
        selection.requested.as_slice(),
    )?;
    declare_all(alloc, tasks, &mut queue, &mut known, &excluded)
}

/// The tasks, each with the first argument that reaches it.
fn planned_of(
    alloc: Global,
    found: Vec<TaskDeclaration>,
    requested: &[TaskPaths],
) -> Result<Vec<Planned>, AllocError>
    requires { no_repeats (paths_in found.items) ≡ true }
    ensures { IfOk result (λ planned. (request : Request)
        → AreDone request found.items requested.now → AreScheduled request planned.items) }
{
    let words = first_words(alloc, found.as_slice(), requested)?;
    let selected = set_of(alloc, requested)?;
    worded(alloc, found, words.as_slice(), &selected)
}

/// The tasks that are scheduled, in any order.
/// Refused with the first fault of the arguments (64, 1, 50, 52; the requested ones first), or with
/// the fault of the first task at fault, in the order of declaration: the selected tasks by word
/// and path, then the tasks that each newly brings by path.
pub fn scheduled<T: Tasks>(
    alloc: Global,
    tasks: &mut T,
    requested: &[Text],
    excluded: &[Text],
) -> Result<Vec<Planned>, Fault>
    ensures kept { T.registry tasks.new ≡ T.registry tasks.old }
    ensures request { OnOk result (request_of (T.registry tasks.old) requested.now excluded.now
        ≡ Ok (asked (T.registry tasks.old) requested.now excluded.now)) }
    ensures scheduled { IfOk result (λ planned.
        AreScheduled (asked (T.registry tasks.old) requested.now excluded.now) planned.items) }
    ensures fault { IfErr result (λ fault. (fault ≡ OutOfMemory)
        ⊎ ((request_of (T.registry tasks.old) requested.now excluded.now ≡ Err fault)
        ⊎ ((request : Request)
        × (request_of (T.registry tasks.old) requested.now excluded.now ≡ Ok request)
        × IsTaskFault request fault))) }
{
    let selection = select(alloc, tasks, requested, excluded)?;
    let found = declared_of(alloc, tasks, &selection)?;
    Ok(planned_of(alloc, found, selection.requested.as_slice())?)
}
