//! What the arguments of a request select, and the queue that begins with it.
ghost use Rattle.std.specs.Prelude.{◌≡◌, ◌⊎◌, ◌||◌, [], true, false, Some, Ok, Err, IfOk};
ghost use Rattle.std.specs.Prelude.{IfErr, OnOk, bytes_eq};
ghost use Rattle.std.specs.List.{flat_map};
ghost use Rattle.std.specs.BTreeSet.{contains};
ghost use Rattle.gb_core.specs.Lists.{byte_order, first_of};
ghost use Rattle.gb_report.specs.declared.fault.Fault.TheVariants.{OutOfMemory};
ghost use Rattle.gb_plan.specs.Task.{Path, has_path};
ghost use Rattle.gb_plan.specs.Graph.{words_of};
ghost use Rattle.gb_plan.specs.Refusal.{request_of, word_faults};
ghost use Rattle.gb_graph.specs.Queue.{added};
ghost use Rattle.gb_graph.specs.Words.{asked, joined_paths, newly_selected, selected_once};

use crate::queue::enqueue;
use crate::tasks::Tasks;
use gb_core::path::TaskPath;
use gb_core::task_paths::TaskPaths;
use gb_core::text::Text;
use gb_report::fault::Fault;
use std::alloc::{AllocError, Global};
use std::collections::BTreeSet;

/// What arguments select, argument by argument. A repeated argument has nothing.
#[derive(Drop)]
pub(crate) struct Selection {
    pub(crate) requested: Vec<TaskPaths>,
    pub(crate) excluded: Vec<TaskPaths>,
}

/// What an argument selects, if it did not occur before; a repeated one selects nothing more.
fn select_once<T: Tasks>(
    alloc: Global,
    tasks: &T,
    before: &mut BTreeSet<Text>,
    word: &Text,
) -> Result<TaskPaths, Fault>
    ensures selected { IfOk result (λ paths. paths
        ≡ selected_once (T.registry tasks.now) (contains byte_order before.old word.now) word.now) }
    ensures before { OnOk result ((text : Path) → contains byte_order before.new text
        ≡ (contains byte_order before.old text || bytes_eq text word.now)) }
    ensures good { OnOk result (contains byte_order before.old word.now ≡ false
        → word_faults (T.registry tasks.now) word.now ≡ []) }
    ensures bad { IfErr result (λ fault. (fault ≡ OutOfMemory)
        ⊎ (first_of (word_faults (T.registry tasks.now) word.now) ≡ Some fault)) }
{
    if !before.insert(word.copy()?)? {
        return Ok(TaskPaths::new(alloc));
    }
    tasks.select(alloc, word)
}

fn select_all<T: Tasks>(alloc: Global, tasks: &T, words: &[Text]) -> Result<Vec<TaskPaths>, Fault>
    ensures selected { IfOk result (λ found.
        found.items ≡ newly_selected (T.registry tasks.now) [] words.now) }
    ensures good { OnOk result (flat_map (word_faults (T.registry tasks.now)) words.now ≡ []) }
    ensures bad { IfErr result (λ fault. (fault ≡ OutOfMemory)
        ⊎ (first_of (flat_map (word_faults (T.registry tasks.now)) words.now) ≡ Some fault)) }
{
    let mut before = BTreeSet::new(alloc);
    let mut found = Vec::new(alloc);
    for word in words {
        found.push(select_once(alloc, tasks, &mut before, word)?)?;
    }
    Ok(found)
}

/// The selection of a request, or the first fault of its arguments.
pub(crate) fn select<T: Tasks>(
    alloc: Global,
    tasks: &T,
    requested: &[Text],
    excluded: &[Text],
) -> Result<Selection, Fault>
    ensures request { OnOk result (request_of (T.registry tasks.now) requested.now excluded.now
        ≡ Ok (asked (T.registry tasks.now) requested.now excluded.now)) }
    ensures requested { IfOk result (λ found. found.requested.items
        ≡ newly_selected (T.registry tasks.now) [] (words_of (T.registry tasks.now) requested.now)) }
    ensures excluded { IfOk result (λ found.
        found.excluded.items ≡ newly_selected (T.registry tasks.now) [] excluded.now) }
    ensures fault { IfErr result (λ fault. (fault ≡ OutOfMemory)
        ⊎ (request_of (T.registry tasks.now) requested.now excluded.now ≡ Err fault)) }
{
    let words = words_of(tasks, requested);
    if words.is_empty() {
        return Err(Fault::NoTasks);
    }
    let requested = select_all(alloc, tasks, words)?;
    let excluded = select_all(alloc, tasks, excluded)?;
    Ok(Selection {
        requested,
        excluded,
    })
}

fn words_of<'a, T: Tasks>(tasks: &'a T, requested: &'a [Text]) -> &'a [Text]
    ensures { result.now ≡ words_of (T.registry tasks.now) requested.now }
{
    if requested.is_empty() {
        tasks.default_tasks()
    } else {
        requested
    }
}

fn add_paths(set: &mut BTreeSet<TaskPath>, paths: &TaskPaths) -> Result<(), AllocError>
    ensures { OnOk result ((path : Path) → contains byte_order set.new path
        ≡ (contains byte_order set.old path || has_path paths.now path)) }
{
    for path in paths.iter() {
        set.insert(path.copy()?)?;
    }
    Ok(())
}

/// All of these paths.
pub(crate) fn set_of(alloc: Global, lists: &[TaskPaths]) -> Result<BTreeSet<TaskPath>, AllocError>
    ensures { IfOk result (λ set. (path : Path) →
        contains byte_order set path ≡ has_path (joined_paths lists.now) path) }
{
    let mut set = BTreeSet::new(alloc);
    for paths in lists {
        add_paths(&mut set, paths)?;
    }
    Ok(set)
}

/// Appends all of these paths to a queue, except those that are left out.
pub(crate) fn enqueue_all(
    queue: &mut Vec<TaskPath>,
    known: &mut BTreeSet<TaskPath>,
    excluded: &BTreeSet<TaskPath>,
    lists: &[TaskPaths],
) -> Result<(), AllocError>
    requires { (path : Path) → contains byte_order known.old path ≡ has_path queue.old.items path }
    ensures known { OnOk result ((path : Path) →
        contains byte_order known.new path ≡ has_path queue.new.items path) }
    ensures queue { OnOk result (queue.new.items
        ≡ added (contains byte_order excluded.now) queue.old.items (joined_paths lists.now)) }
{
    for paths in lists {
        enqueue(queue, known, excluded, paths)?;
    }
    Ok(())
}
