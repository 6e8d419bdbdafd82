//! Whether a task is up to date by remembered digests, or else by what is read of it now.
//!
//! In a build where nothing is out of date a file between two tasks would be read twice: as output
//! and as input. And a task of few files has no four to digest at a time. So files of later tasks are
//! read ahead, and a task is first compared with its record by the digests of files that were read
//! since the last change. Only that it is up to date is concluded from this. Otherwise all of it is
//! read now, and its execution goes by that alone.
ghost use Rattle.std.specs.Prelude.{◌≡◌, ◌||◌, true, false, IsTrue, Ok, option_copied};
ghost use Rattle.std.specs.Prelude.{IfOk, IfSome, IfErr, OnErr};
ghost use Rattle.gb_folder.specs.Calls.{OnlyReads, Requests, no_change};
ghost use Rattle.gb_folder.specs.Files.{is_empty};
ghost use Rattle.gb_label.specs.Deciding.{HasNamesInOrder};
ghost use Rattle.gb_label.specs.Looking.{IsHindered};
ghost use Rattle.gb_label.specs.Preparing.{IsPrepared, IsRead, IsObserved, MayDecideAs, MayPrepare};
ghost use Rattle.gb_label.specs.Reading.{is_input_of};
ghost use Rattle.gb_plan.specs.Task.{is_output_of};
ghost use Rattle.gb_folder.specs.Faults.{Blames, BlamesOnly};
ghost use Rattle.gb_tree.specs.DigestCache.{AreCached, AreCachedIn};
ghost use Rattle.gb_task.specs.Current.{WasPreparedSince, is_current};

use gb_core::place::Place;
use gb_folder::folder::Folder;
use gb_history::decide::Decision;
use gb_history::record::Record;
use gb_label::prepare::{Prepared, prepare};
use gb_plan::task::TaskDeclaration;
use gb_report::fault::Fault;
use gb_report::report::Options;
use gb_tree::ahead::read_ahead;
use gb_tree::digest_cache::DigestCache;
use std::alloc::Global;

/// What the execution of a started task is prepared for: that the task is up to date, where it is
/// so by remembered digests; or else what is found by reading all of it. The files at the places
/// of `next` are read ahead first. Nothing is changed, even if it fails.
pub(crate) fn prepare_by_cache<F: Folder>(
    alloc: Global,
    folder: &mut F,
    task: &TaskDeclaration,
    options: Options,
    last: Option<&Record>,
    next: &[Place],
    seen: &mut DigestCache,
) -> Result<Prepared, Fault>
    requires in_order { HasNamesInOrder task.now }
    ensures reads { OnlyReads F.device folder.old folder.new }
    ensures blame { Blames result (F.device.failures folder.old) (F.device.failures folder.new) }
    ensures blamed { BlamesOnly (λ place. is_input_of task.now place || is_output_of task.now place) result }
    ensures may_be { IfOk result (MayPrepare task.now) }
    ensures may_decide { IfOk result (MayDecideAs options task.now) }
    ensures reading { OnErr result ((task.now.runs ≡ true) × (is_empty task.now.actions ≡ false)) }
    ensures read { IfOk result (IsRead task.now) }
    // Over any folder: only what is up to date was found so on what calls returned before.
    ensures answered { (since : _) → Requests F.device no_change since folder.old
        → AreCached F.device since folder.old seen.old
        → IfOk result (WasPreparedSince F.device since folder.old folder.new options
        task.now (option_copied last.entry)) }
    // What is remembered was read since the last change.
    ensures seen { (since : _) → Requests F.device no_change since folder.old
        → AreCached F.device since folder.old seen.old
        → AreCached F.device since folder.new seen.new }
    ensures prepared { F.device.faithful folder.new → (since : _)
        → Requests F.device no_change since folder.old → AreCached F.device since folder.old seen.old
        → IfOk result
        (IsPrepared options task.now (F.device.contents folder.old) (option_copied last.entry)) }
    ensures observed { F.device.faithful folder.new → (since : _)
        → Requests F.device no_change since folder.old → AreCached F.device since folder.old seen.old
        → IfOk result (IsObserved task.now (F.device.contents folder.old).files) }
    ensures err { F.device.faithful folder.new → IfErr result
        (IsHindered task.now (F.device.contents folder.old) (F.device.failures folder.old)
        (F.device.failures folder.new)) }
{
    read_ahead(alloc, folder, next, seen);
    if let Some(current) = current_by_seen(alloc, folder, task, options, last, seen) {
        return Ok(current);
    }
    let none = DigestCache::new(alloc);
    prepare(alloc, folder, task, options, last, &none, true)
}

/// That the task is up to date, with what it was found so on, where it is so by remembered
/// digests. Any other result is dropped, and so is a fault.
fn current_by_seen<F: Folder>(
    alloc: Global,
    folder: &mut F,
    task: &TaskDeclaration,
    options: Options,
    last: Option<&Record>,
    seen: &DigestCache,
) -> Option<Prepared>
    requires in_order { HasNamesInOrder task.now }
    ensures reads { OnlyReads F.device folder.old folder.new }
    ensures may_be { IfSome result (MayPrepare task.now) }
    ensures may_decide { IfSome result (MayDecideAs options task.now) }
    ensures read { IfSome result (IsRead task.now) }
    ensures answered { (since : _) → Requests F.device no_change since folder.old
        → AreCached F.device since folder.old seen.now
        → IfSome result (WasPreparedSince F.device since folder.old folder.new options
        task.now (option_copied last.entry)) }
    ensures prepared { F.device.faithful folder.new
        → AreCachedIn (F.device.contents folder.old).files seen.now
        → IfSome result (IsPrepared options task.now (F.device.contents folder.old)
        (option_copied last.entry)) }
    ensures observed { F.device.faithful folder.new
        → AreCachedIn (F.device.contents folder.old).files seen.now
        → IfSome result (IsObserved task.now (F.device.contents folder.old).files) }
{
    if last.is_none() || options.rerun || !was_cached(task, seen) {
        return None;
    }
    let found = prepare(alloc, folder, task, options, last, seen, false);
    if_current(found)
}

/// What was found, if it is that the task is up to date.
fn if_current(found: Result<Prepared, Fault>) -> Option<Prepared>
    ensures { IfSome result (λ current. (found ≡ Ok current) × IsTrue (is_current current)) }
{
    match found {
        Ok(prepared) => current_alone(prepared),
        Err(fault) => {
            drop(fault);
            None
        }
    }
}

/// The same of what was prepared.
fn current_alone(prepared: Prepared) -> Option<Prepared>
    ensures { IfSome result (λ current. (current ≡ prepared) × IsTrue (is_current prepared)) }
{
    if is_current(&prepared) {
        Some(prepared)
    } else {
        drop(prepared);
        None
    }
}

/// Whether it was found that the task is up to date.
fn is_current(prepared: &Prepared) -> bool
    ensures { result ≡ is_current prepared.now }
{
    match prepared {
        Prepared::Decided(Decision::UpToDate, _, _) => true,
        _ => false,
    }
}

/// Whether an input or an output of the task may be remembered. It is a guess, and only speed
/// depends on it.
fn was_cached(task: &TaskDeclaration, seen: &DigestCache) -> bool {
    task.outputs
        .as_slice()
        .iter()
        .any(|output| seen.serves(&output.place))
        || task.files.as_slice().iter().any(|property| property
            .roots
            .as_slice()
            .iter()
            .any(|root| seen.serves(root)))
}
