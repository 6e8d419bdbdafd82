//! The outcome of a task that starts, before anything is changed.
ghost use Rattle.std.specs.Prelude.{◌≡◌, ◌||◌, true, false, IfOk, IfErr, OnErr, option_copied};
ghost use Rattle.gb_folder.specs.Calls.{OnlyReads, Requests, no_change};
ghost use Rattle.gb_folder.specs.Files.{is_empty};
ghost use Rattle.gb_plan.specs.Task.{is_output_of};
ghost use Rattle.gb_folder.specs.Faults.{Blames, BlamesOnly};
ghost use Rattle.gb_tree.specs.DigestCache.{AreCached, AreCachedIn};
ghost use Rattle.gb_label.specs.Deciding.{HasNamesInOrder};
ghost use Rattle.gb_label.specs.Looking.{IsHindered};
ghost use Rattle.gb_label.specs.Answered.{WasPrepared};
ghost use Rattle.gb_label.specs.Preparing.{FollowsFromAs, IsPrepared, IsRead, IsObserved, MayDecideAs};
ghost use Rattle.gb_label.specs.Preparing.{MayPrepare};
ghost use Rattle.gb_label.specs.Reading.{is_input_of};

use crate::deciding::{Basis, decided};
use crate::early_outcomes::{EarlyCase, early_case_of};
use gb_folder::folder::Folder;
use gb_history::decide::Decision;
use gb_history::record::Record;
use gb_plan::task::{FileProperty, TaskDeclaration};
use gb_report::fault::Fault;
use gb_report::report::Options;
use gb_tree::digest_cache::DigestCache;
use gb_tree::kept::Reading;
use std::alloc::Global;

/// The outcome of a task that starts.
#[derive(Drop)]
pub enum Prepared {
    /// `enabled` or a test is false.
    Skips,
    /// It runs nothing.
    HasNoActions,
    /// It has file properties that skip it when empty, and all of these are empty: its outputs are
    /// to be removed.
    HasNoSource,
    /// None of these: it is up to date, or runs incrementally or in full. With the basis of that
    /// decision, and what was read for it.
    Decided(Decision, Basis, Observed),
}

/// What was read of a task for a decision.
#[derive(Drop)]
pub struct Observed {
    /// Its file properties.
    pub inputs: Vec<Reading>,
    /// Its outputs, if they were compared with its record; else nothing.
    pub outputs: Vec<Reading>,
}

/// At most so many bytes of a task's inputs are kept if it may be up to date, and of its outputs.
const KEPT: u64 = 67_108_864;

/// The outcome of a task by its record, its inputs and its outputs as they are. Files whose digests
/// are in `seen` are not read. If an execution follows, bytes that were read are kept for it, within
/// a limit. Nothing is changed, even if it fails. The error is the first fault in
/// reading its inputs or listing its outputs, or that memory ran out or the device failed.
pub fn prepare<F: Folder>(
    alloc: Global,
    folder: &mut F,
    task: &TaskDeclaration,
    options: Options,
    old: Option<&Record>,
    seen: &DigestCache,
    follows: bool,
) -> Result<Prepared, Fault>
    requires in_order { HasNamesInOrder task.now }
    ensures reads { OnlyReads F.device folder.old folder.new }
    ensures blame { Blames result (F.device.failures folder.old) (F.device.failures folder.new) }
    ensures blamed { BlamesOnly (λ place. is_input_of task.now place || is_output_of task.now place) result }
    // Over any folder: which outcomes there may be, when the task may be up to date, what a decision
    // follows from, and that a task that is skipped or has no actions is prepared without a fault.
    ensures may_be { IfOk result (MayPrepare task.now) }
    ensures may_decide { IfOk result (MayDecideAs options task.now) }
    ensures goes_by { IfOk result (FollowsFromAs options task.now (option_copied old.entry)) }
    ensures reading { OnErr result ((task.now.runs ≡ true) × (is_empty task.now.actions ≡ false)) }
    // What is returned for a full run is readings of the task's inputs, for an incremental run also
    // of its outputs: with their names, and of files at their places.
    ensures read { IfOk result (IsRead task.now) }
    // Over any folder it is what calls answered, since the state from which files are remembered;
    // and what is up to date was found so on exactly this.
    ensures answered { (first : _) → Requests F.device no_change first folder.old
        → AreCached F.device first folder.old seen.now
        → IfOk result (WasPrepared F.device first folder.new options
        task.now (option_copied old.entry)) }
    ensures prepared { F.device.faithful folder.new
        → AreCachedIn (F.device.contents folder.old).files seen.now
        → IfOk result
        (IsPrepared options task.now (F.device.contents folder.old) (option_copied old.entry)) }
    // Where contents are known and the remembered digests are right: the files that a run is based on, or
    // the outputs of a task that is up to date, are in the folder as they were read.
    ensures observed { F.device.faithful folder.new
        → AreCachedIn (F.device.contents folder.old).files seen.now
        → IfOk result (IsObserved task.now (F.device.contents folder.old).files) }
    ensures err { F.device.faithful folder.new → AreCachedIn (F.device.contents folder.old).files seen.now
        → IfErr result
        (IsHindered task.now (F.device.contents folder.old) (F.device.failures folder.old)
        (F.device.failures folder.new)) }
{
    let room = input_room(task, options, old, follows);
    match early_case_of(alloc, folder, task, seen, room)? {
        EarlyCase::Skips => Ok(Prepared::Skips),
        EarlyCase::HasNoActions => Ok(Prepared::HasNoActions),
        EarlyCase::HasNoSource => Ok(Prepared::HasNoSource),
        EarlyCase::Open(inputs) => {
            let room = output_room(task.files.as_slice(), follows);
            let found = decided(
                alloc,
                folder,
                task,
                options,
                old,
                inputs.as_slice(),
                seen,
                room,
            )?;
            let outputs = found.outputs;
            Ok(Prepared::Decided(found.decision, found.basis, Observed { inputs, outputs }))
        }
    }
}

/// How many bytes of the inputs are kept: all if the task is to run whatever they are, and none if
/// no execution follows.
fn input_room(
    task: &TaskDeclaration,
    options: Options,
    old: Option<&Record>,
    follows: bool,
) -> u64 {
    if !follows {
        return 0;
    }
    if old.is_none() || options.rerun || task.is_stale {
        return u64::MAX;
    }
    KEPT
}

/// How many bytes of the outputs are kept: none if no execution is based on them.
fn output_room(properties: &[FileProperty], follows: bool) -> u64 {
    if follows && properties.iter().any(|property| property.incremental) {
        return KEPT;
    }
    0
}
