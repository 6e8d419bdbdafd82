//! The decision on a task by its record.
ghost use Rattle.std.specs.Prelude.{◌≡◌, ◌⊎◌, [], false, map, Some, IfOk, IfErr, OnOk, option_copied};
ghost use Rattle.std.specs.List.{flat_map, list_any};
ghost use Rattle.gb_folder.specs.Calls.{OnlyReads, Requests, no_change};
ghost use Rattle.gb_folder.specs.Files.{is_empty, is_own};
ghost use Rattle.gb_history.specs.Decision.{DecidesFrom};
ghost use Rattle.gb_history.specs.Record.{prints_in};
ghost use Rattle.gb_semantics.specs.Tree.{listing_faults, trees_of};
ghost use Rattle.gb_plan.specs.Task.{is_output_of};
ghost use Rattle.gb_folder.specs.Faults.{Blames, BlamesOnly};
ghost use Rattle.gb_tree.specs.DigestCache.{AreCached, AreCachedIn};
ghost use Rattle.gb_label.specs.Answered.{WasDecided};
ghost use Rattle.gb_label.specs.Deciding.{AreOutputsFor, AreOutputsObservedFor, FollowsFrom, HasNamesInOrder};
ghost use Rattle.gb_label.specs.Deciding.{IsBasisIn, IsGrown, IsPresentOf, MayDecide};
ghost use Rattle.gb_label.specs.ReadingAnswered.{AreOutputsAnswered};
ghost use Rattle.gb_label.specs.Reading.{AreOutputs, AreOutputsObserved, CannotRead};
ghost use Rattle.gb_label.specs.Reading.{digests_in, print_faults, prints_read, recorded_of, records_with};

use crate::output_listing::check_outputs;
use crate::outputs::{read_outputs, records_of};
use crate::present::present_of;
use crate::prints::prints_of;
use gb_folder::folder::Folder;
use gb_folder::own::is_own;
use gb_history::decide::{Decision, Present, decide};
use gb_history::record::Record;
use gb_plan::task::{Output, TaskDeclaration};
use gb_report::fault::Fault;
use gb_report::report::Options;
use gb_tree::digest_cache::DigestCache;
use gb_tree::kept::Reading;
use gb_tree::prints::Prints;
use std::alloc::{AllocError, Global};

/// Why a task runs in full, whatever its record says.
#[derive(Clone, Copy)]
pub enum FullReason {
    /// It has no record.
    NoRecord,
    /// Every task is to run.
    Rerun,
    /// A test of `upToDateWhen` is false.
    Stale,
    /// Its outputs have more or larger files than an execution may leave.
    Grown,
}

/// What a decision is based on.
#[derive(Drop)]
pub enum Basis {
    /// This cause alone.
    Forced(FullReason),
    /// Its record, compared with this.
    Compared(Present),
}

/// The decision on a task that has a source.
#[derive(Drop)]
pub struct Verdict {
    /// What is to be done with the task.
    pub decision: Decision,
    /// What the decision is based on.
    pub basis: Basis,
    /// The outputs of the task, if they were compared with its record; else nothing.
    pub outputs: Vec<Reading>,
}

/// Decides on a task that has a source: by its record and by what it has now. Its outputs are
/// listed once, and they are read only if there is a record that may count; those whose digests are
/// in `seen` are not read. The bytes of the others are kept while there is `room` for them. Nothing
/// is changed, even if it fails. The error is the first unsupported entry at its outputs (fault 14),
/// or that memory ran out or the device failed.
pub fn decided<F: Folder>(
    alloc: Global,
    folder: &mut F,
    task: &TaskDeclaration,
    options: Options,
    old: Option<&Record>,
    inputs: &[Reading],
    seen: &DigestCache,
    room: u64,
) -> Result<Verdict, Fault>
    requires in_order { HasNamesInOrder task.now }
    requires named { map (λ found. found.0) inputs.now ≡ map (λ property. property.name) task.now.files }
    ensures reads { OnlyReads F.device folder.old folder.new }
    ensures blame { Blames result (F.device.failures folder.old) (F.device.failures folder.new) }
    ensures blamed { BlamesOnly (is_output_of task.now) result }
    // Over any folder: the decision follows from what it is based on.
    ensures goes_by { IfOk result (λ found.
        FollowsFrom options task.now (option_copied old.entry) found.decision found.basis) }
    // Over any folder: what is up to date has outputs and no false `upToDateWhen`, and no rerun is
    // requested.
    ensures may_decide { IfOk result (λ found. MayDecide options task.now found.decision) }
    // Over any folder: if it may execute incrementally, its outputs were read.
    ensures read { IfOk result (λ found. AreOutputsFor task.now found.decision found.outputs.items) }
    ensures answered { (first : _) → Requests F.device no_change first folder.old
        → AreCached F.device first folder.old seen.now
        → IfOk result (λ found. WasDecided F.device first folder.new
        options task.now (option_copied old.entry) inputs.now found.decision found.outputs.items) }
    ensures based { F.device.faithful folder.new → AreCachedIn (F.device.contents folder.old).files seen.now
        → prints_read inputs.now ≡ digests_in (trees_of task.now (F.device.contents folder.old).files)
        → IfOk result (λ found. IsBasisIn options task.now (F.device.contents folder.old) found.basis) }
    ensures observed { F.device.faithful folder.new
        → AreCachedIn (F.device.contents folder.old).files seen.now
        → IfOk result
        (λ found. AreOutputsObservedFor task.now (F.device.contents folder.old).files found.decision
        found.outputs.items) }
    ensures none_special { F.device.faithful folder.new → AreCachedIn (F.device.contents folder.old).files
        seen.now
        → OnOk result
        (listing_faults task.now (F.device.contents folder.old) ≡ []) }
    ensures err { F.device.faithful folder.new → AreCachedIn (F.device.contents folder.old).files seen.now
        → IfErr result (CannotRead (F.device.failures folder.old) (F.device.failures folder.new)
        (listing_faults task.now (F.device.contents folder.old))) }
{
    let Some(run) = old else {
        return in_full(alloc, folder, task, FullReason::NoRecord);
    };
    if options.rerun {
        return in_full(alloc, folder, task, FullReason::Rerun);
    }
    if task.is_stale {
        return in_full(alloc, folder, task, FullReason::Stale);
    }
    by_record(alloc, folder, task, options, run, inputs, seen, room)
}

/// The decision that the task runs in full for this cause, if its outputs can be listed.
fn in_full<F: Folder>(
    alloc: Global,
    folder: &mut F,
    task: &TaskDeclaration,
    cause: FullReason,
) -> Result<Verdict, Fault>
    ensures reads { OnlyReads F.device folder.old folder.new }
    ensures blame { Blames result (F.device.failures folder.old) (F.device.failures folder.new) }
    ensures blamed { BlamesOnly (is_output_of task.now) result }
    ensures full { IfOk result (λ found.
        (found.decision ≡ Decision.Full) × (found.basis ≡ Basis.Forced cause)) }
    ensures none_special { F.device.faithful folder.new → OnOk result
        (listing_faults task.now (F.device.contents folder.old) ≡ []) }
    ensures err { F.device.faithful folder.new
        → IfErr result (CannotRead (F.device.failures folder.old) (F.device.failures folder.new)
        (listing_faults task.now (F.device.contents folder.old))) }
{
    check_outputs(alloc, folder, task)?;
    Ok(Verdict {
        decision: Decision::Full,
        basis: Basis::Forced(cause),
        outputs: Vec::new(alloc),
    })
}

/// The decision by this record.
fn by_record<F: Folder>(
    alloc: Global,
    folder: &mut F,
    task: &TaskDeclaration,
    options: Options,
    run: &Record,
    inputs: &[Reading],
    seen: &DigestCache,
    room: u64,
) -> Result<Verdict, Fault>
    requires in_order { HasNamesInOrder task.now }
    requires named { map (λ found. found.0) inputs.now ≡ map (λ property. property.name) task.now.files }
    requires counts { (options.rerun ≡ false) × (task.now.is_stale ≡ false) }
    ensures reads { OnlyReads F.device folder.old folder.new }
    ensures blame { Blames result (F.device.failures folder.old) (F.device.failures folder.new) }
    ensures blamed { BlamesOnly (is_output_of task.now) result }
    ensures goes_by { IfOk result (λ found.
        FollowsFrom options task.now (Some run.now) found.decision found.basis) }
    ensures may_decide { IfOk result (λ found. MayDecide options task.now found.decision) }
    ensures read { IfOk result (λ found. AreOutputsFor task.now found.decision found.outputs.items) }
    ensures answered { (first : _) → Requests F.device no_change first folder.old
        → AreCached F.device first folder.old seen.now
        → IfOk result (λ found. WasDecided F.device first folder.new
        options task.now (Some run.now) inputs.now found.decision found.outputs.items) }
    ensures based { F.device.faithful folder.new → AreCachedIn (F.device.contents folder.old).files seen.now
        → prints_read inputs.now ≡ digests_in (trees_of task.now (F.device.contents folder.old).files)
        → IfOk result (λ found. IsBasisIn options task.now (F.device.contents folder.old) found.basis) }
    ensures observed { F.device.faithful folder.new
        → AreCachedIn (F.device.contents folder.old).files seen.now
        → IfOk result
        (λ found. AreOutputsObservedFor task.now (F.device.contents folder.old).files found.decision
        found.outputs.items) }
    ensures none_special { F.device.faithful folder.new → AreCachedIn (F.device.contents folder.old).files
        seen.now
        → OnOk result
        (listing_faults task.now (F.device.contents folder.old) ≡ []) }
    ensures err { F.device.faithful folder.new → AreCachedIn (F.device.contents folder.old).files seen.now
        → IfErr result (CannotRead (F.device.failures folder.old) (F.device.failures folder.new)
        (listing_faults task.now (F.device.contents folder.old))) }
{
    match read_outputs_now(alloc, folder, task, seen, room) {
        Ok(outputs) => {
            let on = decide_by(alloc, task, options, run, inputs, outputs.as_slice())?;
            Ok(Verdict {
                decision: on.decision,
                basis: Basis::Compared(on.present),
                outputs,
            })
        }
        Err(fault) => {
            check_grown(fault)?;
            in_full(alloc, folder, task, FullReason::Grown)
        }
    }
}

/// The outputs of a task as they are. Errors: memory ran out or the device failed; the first
/// unsupported entry at the outputs; or a file is too large or there are too many, in which case
/// unsupported entries may follow.
fn read_outputs_now<F: Folder>(
    alloc: Global,
    folder: &mut F,
    task: &TaskDeclaration,
    seen: &DigestCache,
    mut room: u64,
) -> Result<Vec<Reading>, Fault>
    ensures reads { OnlyReads F.device folder.old folder.new }
    ensures blame { Blames result (F.device.failures folder.old) (F.device.failures folder.new) }
    ensures blamed { BlamesOnly (is_output_of task.now) result }
    ensures read { IfOk result (λ found. AreOutputs task.now found.items) }
    ensures answered { (first : _) → Requests F.device no_change first folder.old
        → AreCached F.device first folder.old seen.now
        → IfOk result (λ found. AreOutputsAnswered F.device
        first folder.new task.now found.items) }
    ensures prints { F.device.faithful folder.new → AreCachedIn (F.device.contents folder.old).files seen.now
        → IfOk result (λ found. prints_read found.items
        ≡ prints_in (map (recorded_of (F.device.contents folder.old).files) task.now.outputs)) }
    ensures observed { F.device.faithful folder.new
        → AreCachedIn (F.device.contents folder.old).files seen.now
        → IfOk result
        (λ found. AreOutputsObserved task.now (F.device.contents folder.old).files found.items) }
    ensures none_special { F.device.faithful folder.new → AreCachedIn (F.device.contents folder.old).files
        seen.now
        → OnOk result
        (listing_faults task.now (F.device.contents folder.old) ≡ []) }
    ensures err { F.device.faithful folder.new → AreCachedIn (F.device.contents folder.old).files seen.now
        → IfErr result (λ fault.
        (IsGrown fault
        × (is_empty (flat_map (print_faults (F.device.contents folder.old)) task.now.outputs) ≡ false))
        ⊎ CannotRead (F.device.failures folder.old) (F.device.failures folder.new)
        (listing_faults task.now (F.device.contents folder.old)) fault) }
{
    if has_own(task.outputs.as_slice()) {
        return list_and_read(alloc, folder, task, seen, room);
    }
    read_outputs(alloc, folder, task, seen, &mut room)
}

/// The same if some outputs are in the tool's own folder, where nothing is read: all are listed
/// first.
fn list_and_read<F: Folder>(
    alloc: Global,
    folder: &mut F,
    task: &TaskDeclaration,
    seen: &DigestCache,
    mut room: u64,
) -> Result<Vec<Reading>, Fault>
    ensures reads { OnlyReads F.device folder.old folder.new }
    ensures blame { Blames result (F.device.failures folder.old) (F.device.failures folder.new) }
    ensures blamed { BlamesOnly (is_output_of task.now) result }
    ensures read { IfOk result (λ found. AreOutputs task.now found.items) }
    ensures answered { (first : _) → Requests F.device no_change first folder.old
        → AreCached F.device first folder.old seen.now
        → IfOk result (λ found. AreOutputsAnswered F.device
        first folder.new task.now found.items) }
    ensures prints { F.device.faithful folder.new → AreCachedIn (F.device.contents folder.old).files seen.now
        → IfOk result (λ found. prints_read found.items
        ≡ prints_in (map (recorded_of (F.device.contents folder.old).files) task.now.outputs)) }
    ensures observed { F.device.faithful folder.new
        → AreCachedIn (F.device.contents folder.old).files seen.now
        → IfOk result
        (λ found. AreOutputsObserved task.now (F.device.contents folder.old).files found.items) }
    ensures none_special { F.device.faithful folder.new → AreCachedIn (F.device.contents folder.old).files
        seen.now
        → OnOk result
        (listing_faults task.now (F.device.contents folder.old) ≡ []) }
    ensures err { F.device.faithful folder.new → AreCachedIn (F.device.contents folder.old).files seen.now
        → IfErr result (λ fault.
        (IsGrown fault
        × (is_empty (flat_map (print_faults (F.device.contents folder.old)) task.now.outputs) ≡ false))
        ⊎ CannotRead (F.device.failures folder.old) (F.device.failures folder.new)
        (listing_faults task.now (F.device.contents folder.old)) fault) }
{
    check_outputs(alloc, folder, task)?;
    read_outputs(alloc, folder, task, seen, &mut room)
}

/// The decision on a task by its record, and what the record was compared with.
#[derive(Drop)]
pub struct DecidedOn {
    /// What is to be done with the task.
    pub decision: Decision,
    /// What the task has now.
    pub present: Present,
}

/// The decision by this record on a task whose inputs and outputs have these digests.
pub fn decide_on(
    alloc: Global,
    task: &TaskDeclaration,
    options: Options,
    run: &Record,
    inputs: Vec<Prints>,
    outputs: Vec<Prints>,
) -> Result<DecidedOn, AllocError>
    requires in_order { HasNamesInOrder task.now }
    requires inputs { map (λ found. found.0) inputs.items ≡ map (λ property. property.name) task.now.files }
    requires outputs { map (λ found. found.0) outputs.items ≡ map (λ output. output.name) task.now.outputs }
    ensures present { IfOk result (λ found. IsPresentOf options task.now inputs.items
        (records_with task.now.outputs outputs.items) found.present) }
    ensures decides { IfOk result (λ found. DecidesFrom run.now found.present found.decision) }
{
    let outputs = records_of(alloc, task, outputs)?;
    let present = present_of(alloc, task, options, inputs, outputs)?;
    let decision = decide(alloc, Some(run), &present)?;
    Ok(DecidedOn { decision, present })
}

/// The same, from their readings.
fn decide_by(
    alloc: Global,
    task: &TaskDeclaration,
    options: Options,
    run: &Record,
    inputs: &[Reading],
    outputs: &[Reading],
) -> Result<DecidedOn, AllocError>
    requires in_order { HasNamesInOrder task.now }
    requires inputs { map (λ found. found.0) inputs.now ≡ map (λ property. property.name) task.now.files }
    requires outputs { map (λ found. found.0) outputs.now ≡ map (λ output. output.name) task.now.outputs }
    ensures present { IfOk result (λ found. IsPresentOf options task.now (prints_read inputs.now)
        (records_with task.now.outputs (prints_read outputs.now)) found.present) }
    ensures decides { IfOk result (λ found. DecidesFrom run.now found.present found.decision) }
{
    let inputs = prints_of(alloc, inputs)?;
    let outputs = prints_of(alloc, outputs)?;
    decide_on(alloc, task, options, run, inputs, outputs)
}

/// Whether an output is in the tool's own folder.
fn has_own(outputs: &[Output]) -> bool
    ensures { result ≡ list_any (λ output. is_own output.place) outputs.now }
{
    outputs.iter().any(|output| is_own(&output.place))
}

/// Nothing, if the fault says that the outputs have more or larger files than an execution may
/// leave; else the fault.
fn check_grown(fault: Fault) -> Result<(), Fault>
    ensures ok { OnOk result (IsGrown fault) }
    ensures err { IfErr result (λ other. (other ≡ fault) × (¬ IsGrown fault)) }
{
    match fault {
        Fault::TooLarge(_) | Fault::TooManyFiles(_) => Ok(()),
        other => Err(other),
    }
}
