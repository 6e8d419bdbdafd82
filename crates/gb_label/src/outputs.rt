//! The outputs of a task: read to decide its outcome, completed for an incremental execution, and
//! recorded.
ghost use Rattle.std.specs.Prelude.{◌≡◌, [], map, IsTrue, IfOk, IfErr, OnOk};
ghost use Rattle.std.specs.List.{AllByRecursion, flat_map};
ghost use Rattle.gb_core.specs.Place.{is_under};
ghost use Rattle.gb_folder.specs.Calls.{OnlyReads, Requests, no_change};
ghost use Rattle.gb_history.specs.Record.{prints_in};
ghost use Rattle.gb_plan.specs.Task.{is_output_of, given_outputs};
ghost use Rattle.gb_folder.specs.Faults.{Blames, BlamesOnly, IsOfMachine};
ghost use Rattle.gb_tree.specs.Answered.{IsTreeRead, WereObserved};
ghost use Rattle.gb_tree.specs.Prints.{digests_of};
ghost use Rattle.gb_tree.specs.Reading.{IsObservedIn, digests_observed, entries_observed};
ghost use Rattle.gb_tree.specs.DigestCache.{AreCached, AreCachedIn};
ghost use Rattle.gb_tree.specs.Tree.{contents_at, files_from, is_among};
ghost use Rattle.gb_label.specs.ReadingAnswered.{AreOutputsAnswered, AreOutputsRead, IsOutputAnswered};
ghost use Rattle.gb_label.specs.Reading.{AreOutputs, AreOutputsObserved, CannotRead};
ghost use Rattle.gb_label.specs.Reading.{IsOutputObserved, print_faults};
ghost use Rattle.gb_label.specs.Reading.{prints_read, prints_observed, recorded_of, records_with};
ghost use Rattle.gb_label.specs.Reading.{observed_of};

use crate::completing::complete;
use crate::fault::reported;
use gb_action::output_files::{OutputFiles, OutputSnapshots};
use gb_folder::folder::Folder;
use gb_history::record::OutputRecord;
use gb_plan::task::{Output, TaskDeclaration};
use gb_report::fault::Fault;
use gb_tree::digest_cache::DigestCache;
use gb_tree::kept::Reading;
use gb_tree::output::output_reading;
use gb_tree::prints::Prints;
use std::alloc::{AllocError, Global};

/// The files of one output.
fn read_one<F: Folder>(
    alloc: Global,
    folder: &mut F,
    output: &Output,
    seen: &DigestCache,
    room: &mut u64,
) -> Result<Reading, Fault>
    ensures reads { OnlyReads F.device folder.old folder.new }
    ensures blame { Blames result (F.device.failures folder.old) (F.device.failures folder.new) }
    ensures blamed { BlamesOnly (λ at. is_under at output.now.place) result }
    ensures named { IfOk result (λ reading. reading.0 ≡ output.now.name) }
    ensures within { IfOk result
        (λ reading. AllByRecursion (λ observed. IsTrue (is_under observed.place output.now.place))
        reading.1) }
    ensures answered { (first : _) → Requests F.device no_change first folder.old
        → AreCached F.device first folder.old seen.now
        → IfOk result (IsOutputAnswered F.device first folder.new output.now) }
    ensures digests { F.device.faithful folder.new → AreCachedIn (F.device.contents folder.old).files seen.now
        → IfOk result (λ reading. digests_observed reading.1
        ≡ digests_of (files_from (F.device.contents folder.old).files output.now.place)) }
    ensures observed { F.device.faithful folder.new
        → AreCachedIn (F.device.contents folder.old).files seen.now
        → IfOk result
        (IsOutputObserved (F.device.contents folder.old).files output.now) }
    ensures fit { F.device.faithful folder.new → AreCachedIn (F.device.contents folder.old).files seen.now
        → OnOk result (print_faults (F.device.contents folder.old) output.now ≡ []) }
    ensures err { F.device.faithful folder.new → AreCachedIn (F.device.contents folder.old).files seen.now
        → IfErr result
        (CannotRead (F.device.failures folder.old) (F.device.failures folder.new) (print_faults
        (F.device.contents folder.old) output.now)) }
{
    match output_reading(alloc, folder, &output.name, &output.place, seen, room) {
        Ok(reading) => Ok(reading),
        Err(fault) => Err(reported(fault)),
    }
}

/// The files at the outputs of a task, in the order of their names. A file whose digest is in `seen`
/// is not read. The bytes of the others are kept while there is `room` for them, and reduce it. Nothing
/// is changed, even if it fails. The error is the first fault in reading them.
pub fn read_outputs<F: Folder>(
    alloc: Global,
    folder: &mut F,
    task: &TaskDeclaration,
    seen: &DigestCache,
    room: &mut u64,
) -> Result<Vec<Reading>, Fault>
    ensures reads { OnlyReads F.device folder.old folder.new }
    ensures blame { Blames result (F.device.failures folder.old) (F.device.failures folder.new) }
    ensures blamed { BlamesOnly (is_output_of task.now) result }
    ensures read { IfOk result (λ readings. AreOutputs task.now readings.items) }
    // Over any folder: the files are those that calls answered, and so are their digests and bytes,
    // since the state from which files are remembered.
    ensures answered { (first : _) → Requests F.device no_change first folder.old
        → AreCached F.device first folder.old seen.now
        → IfOk result (λ readings. AreOutputsAnswered F.device
        first folder.new task.now readings.items) }
    ensures prints { F.device.faithful folder.new → AreCachedIn (F.device.contents folder.old).files seen.now
        → IfOk result (λ readings. prints_read readings.items
        ≡ prints_in (map (recorded_of (F.device.contents folder.old).files) task.now.outputs)) }
    ensures observed { F.device.faithful folder.new
        → AreCachedIn (F.device.contents folder.old).files seen.now
        → IfOk result
        (λ readings. AreOutputsObserved task.now (F.device.contents folder.old).files readings.items) }
    ensures fit { F.device.faithful folder.new → AreCachedIn (F.device.contents folder.old).files seen.now
        → OnOk result (flat_map (print_faults
        (F.device.contents folder.old)) task.now.outputs ≡ []) }
    ensures err { F.device.faithful folder.new → AreCachedIn (F.device.contents folder.old).files seen.now
        → IfErr result (CannotRead (F.device.failures folder.old) (F.device.failures folder.new)
        (flat_map (print_faults (F.device.contents folder.old)) task.now.outputs)) }
{
    let mut readings = Vec::new(alloc);
    for output in task.outputs.as_slice() {
        readings.push(read_one(alloc, folder, output, seen, room)?)?;
    }
    Ok(readings)
}

/// What an incremental execution is based on.
#[derive(Drop)]
pub struct Outputs {
    /// The files at the outputs.
    pub observed: OutputSnapshots,
    /// The digests of these very files.
    pub prints: Vec<Prints>,
}

/// One whole output, and the digests of its files.
fn complete_one<F: Folder>(
    alloc: Global,
    folder: &mut F,
    output: &Output,
    reading: Reading,
) -> Result<(OutputFiles, Prints), Fault>
    ensures reads { OnlyReads F.device folder.old folder.new }
    ensures blame { Blames result (F.device.failures folder.old) (F.device.failures folder.new) }
    ensures blamed { BlamesOnly (is_among (entries_observed reading.1)) result }
    ensures named { IfOk result (λ made. made.0.name ≡ output.now.name) }
    ensures formed { IfOk result (λ made. made.0.form ≡ output.now.form) }
    ensures digests { IfOk result (λ made. made.1 ≡ (reading.0, digests_of made.0.files)) }
    // Over any folder: what was answered before, and what is answered now for the rest.
    ensures answered { (first : _) → Requests F.device no_change first folder.old
        → WereObserved F.device first folder.old reading.1
        → IfOk result (λ made. IsTreeRead F.device first folder.new
        (entries_observed reading.1) made.0.files) }
    ensures files { F.device.faithful folder.new
        → AllByRecursion (IsObservedIn (F.device.contents folder.old).files) reading.1
        → IfOk result (λ made. made.0.files
        ≡ contents_at (F.device.contents folder.old).files (entries_observed reading.1)) }
    ensures err { F.device.faithful folder.new
        → AllByRecursion (IsObservedIn (F.device.contents folder.old).files) reading.1
        → IfErr result (IsOfMachine (F.device.failures folder.old) (F.device.failures folder.new)) }
{
    let (tree, prints) = complete(alloc, folder, reading)?;
    let observed = OutputFiles {
        name: output.name.copy()?,
        form: output.form,
        files: tree.into_files(),
    };
    Ok((observed, prints))
}

/// The whole files at a task's outputs: what was kept as it was read, and the rest as it is now,
/// digested again. Nothing is changed, even if it fails. The error is that memory ran out or the
/// device failed, or that a file was removed or has grown since.
pub fn complete_outputs<F: Folder>(
    alloc: Global,
    folder: &mut F,
    task: &TaskDeclaration,
    readings: Vec<Reading>,
) -> Result<Outputs, Fault>
    requires { AreOutputs task.now readings.items }
    ensures reads { OnlyReads F.device folder.old folder.new }
    ensures blame { Blames result (F.device.failures folder.old) (F.device.failures folder.new) }
    ensures blamed { BlamesOnly (is_output_of task.now) result }
    // Over any folder: the names and forms of the outputs, and the digests of the very files.
    ensures formed { IfOk result (λ outputs. map (λ output. (output.name, output.form)) outputs.observed
        ≡ given_outputs task.now.outputs) }
    ensures digests { IfOk result (λ outputs. outputs.prints.items ≡ prints_observed outputs.observed) }
    // Also: what was answered before, with what is answered now for the rest.
    ensures answered { (first : _) → Requests F.device no_change first folder.old
        → AreOutputsAnswered F.device first folder.old task.now readings.items
        → IfOk result (λ outputs. AreOutputsRead F.device first folder.new task.now
        outputs.observed) }
    ensures files { F.device.faithful folder.new → AreOutputsObserved task.now
        (F.device.contents folder.old).files
        readings.items
        → IfOk result
        (λ outputs. outputs.observed ≡ map (observed_of (F.device.contents folder.old).files)
        task.now.outputs) }
    ensures err { F.device.faithful folder.new
        → AreOutputsObserved task.now (F.device.contents folder.old).files readings.items
        → IfErr result (IsOfMachine (F.device.failures folder.old) (F.device.failures folder.new)) }
{
    let mut observed = OutputSnapshots::new(alloc);
    let mut prints = Vec::new(alloc);
    for (output, reading) in task.outputs.as_slice().iter().zip(readings) {
        let (files, found) = complete_one(alloc, folder, output, reading)?;
        prints.push(found)?;
        observed.push(files)?;
    }
    Ok(Outputs { observed, prints })
}

/// The outputs of a task with these digests, as they are recorded.
pub fn records_of(
    alloc: Global,
    task: &TaskDeclaration,
    prints: Vec<Prints>,
) -> Result<Vec<OutputRecord>, AllocError>
    ensures { IfOk result (λ records. records.items ≡ records_with task.now.outputs prints.items) }
{
    let mut records = Vec::with_capacity(alloc, prints.len())?;
    for (output, prints) in task.outputs.as_slice().iter().zip(prints) {
        records.push(OutputRecord {
            form: output.form,
            place: output.place.copy()?,
            prints,
        })?;
    }
    Ok(records)
}
