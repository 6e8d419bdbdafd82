//! The inputs of a task: read to decide its outcome, and completed for a run.
ghost use Rattle.std.specs.Prelude.{◌≡◌, [], map, IsTrue, IfOk, IfErr, OnOk};
ghost use Rattle.std.specs.List.{AllByRecursion};
ghost use Rattle.gb_folder.specs.Calls.{OnlyReads, Requests, no_change};
ghost use Rattle.gb_semantics.specs.Tree.{input_faults, tree_faults, tree_of, trees_of};
ghost use Rattle.gb_plan.specs.Task.{given_files};
ghost use Rattle.gb_folder.specs.Faults.{Blames, BlamesOnly, IsOfMachine};
ghost use Rattle.gb_tree.specs.Prints.{digests_of};
ghost use Rattle.gb_tree.specs.Property.{is_under_any};
ghost use Rattle.gb_tree.specs.Reading.{digests_observed};
ghost use Rattle.gb_tree.specs.DigestCache.{AreCached, AreCachedIn};
ghost use Rattle.gb_label.specs.ReadingAnswered.{AreInputsAnswered, AreInputsRead, IsInputAnswered};
ghost use Rattle.gb_label.specs.Reading.{AreInputs, AreInputsObserved, CannotRead, IsPropertyObserved};
ghost use Rattle.gb_label.specs.Reading.{digests_in, is_input_of, prints_read};

use crate::completing::complete;
use crate::fault::reported;
use gb_action::snapshot::Snapshots;
use gb_folder::folder::Folder;
use gb_plan::task::{FileProperty, TaskDeclaration};
use gb_report::fault::Fault;
use gb_tree::digest_cache::DigestCache;
use gb_tree::kept::Reading;
use gb_tree::prints::Prints;
use gb_tree::property::reading_of;
use std::alloc::Global;

/// The files of one file property.
fn read_one<F: Folder>(
    alloc: Global,
    folder: &mut F,
    property: &FileProperty,
    seen: &DigestCache,
    room: &mut u64,
) -> Result<Reading, Fault>
    ensures reads { OnlyReads F.device folder.old folder.new }
    ensures blame { Blames result (F.device.failures folder.old) (F.device.failures folder.new) }
    ensures blamed { BlamesOnly (is_under_any property.now.roots) result }
    ensures named { IfOk result (λ reading. reading.0 ≡ property.now.name) }
    ensures within { IfOk result
        (λ reading. AllByRecursion (λ observed. IsTrue (is_under_any property.now.roots observed.place))
        reading.1) }
    ensures answered { (first : _) → Requests F.device no_change first folder.old
        → AreCached F.device first folder.old seen.now
        → IfOk result
        (IsInputAnswered F.device first folder.new property.now) }
    ensures digests { F.device.faithful folder.new → AreCachedIn (F.device.contents folder.old).files seen.now
        → IfOk result (λ reading. digests_observed reading.1
        ≡ digests_of (tree_of property.now (F.device.contents folder.old).files)) }
    ensures observed { F.device.faithful folder.new
        → AreCachedIn (F.device.contents folder.old).files seen.now
        → IfOk result (IsPropertyObserved (F.device.contents folder.old).files property.now) }
    ensures fit { F.device.faithful folder.new → AreCachedIn (F.device.contents folder.old).files seen.now
        → OnOk result (tree_faults property.now (F.device.contents folder.old) ≡ []) }
    ensures err { F.device.faithful folder.new → AreCachedIn (F.device.contents folder.old).files seen.now
        → IfErr result
        (CannotRead (F.device.failures folder.old) (F.device.failures folder.new) (tree_faults property.now
        (F.device.contents folder.old))) }
{
    match reading_of(
        alloc,
        folder,
        &property.name,
        property.naming,
        property.roots.as_slice(),
        property.include.as_slice(),
        property.exclude.as_slice(),
        seen,
        room,
    ) {
        Ok(reading) => Ok(reading),
        Err(fault) => Err(reported(fault)),
    }
}

/// The files of all file properties of a task, in the order of their names. Those that are
/// remembered are not read. The bytes of the others are kept while there is `room` for them, and reduce it.
/// Nothing is changed, even if it fails. The error is the first fault in reading them.
pub(crate) fn read_inputs<F: Folder>(
    alloc: Global,
    folder: &mut F,
    task: &TaskDeclaration,
    seen: &DigestCache,
    room: &mut u64,
) -> Result<Vec<Reading>, Fault>
    ensures reads { OnlyReads F.device folder.old folder.new }
    ensures blame { Blames result (F.device.failures folder.old) (F.device.failures folder.new) }
    ensures blamed { BlamesOnly (is_input_of task.now) result }
    ensures read { IfOk result (λ readings. AreInputs task.now readings.items) }
    // Over any folder: the files are those that calls answered, and so are their digests and bytes,
    // since the state from which files are remembered.
    ensures answered { (first : _) → Requests F.device no_change first folder.old
        → AreCached F.device first folder.old seen.now
        → IfOk result (λ readings. AreInputsAnswered F.device
        first folder.new task.now readings.items) }
    ensures prints { F.device.faithful folder.new → AreCachedIn (F.device.contents folder.old).files seen.now
        → IfOk result (λ readings.
        prints_read readings.items ≡ digests_in (trees_of task.now (F.device.contents folder.old).files)) }
    ensures observed { F.device.faithful folder.new
        → AreCachedIn (F.device.contents folder.old).files seen.now
        → IfOk result
        (λ readings. AreInputsObserved task.now (F.device.contents folder.old).files readings.items) }
    ensures fit { F.device.faithful folder.new → AreCachedIn (F.device.contents folder.old).files seen.now
        → OnOk result (input_faults task.now (F.device.contents folder.old) ≡ []) }
    ensures err { F.device.faithful folder.new → AreCachedIn (F.device.contents folder.old).files seen.now
        → IfErr result
        (CannotRead (F.device.failures folder.old) (F.device.failures folder.new) (input_faults task.now
        (F.device.contents folder.old))) }
{
    let mut readings = Vec::new(alloc);
    for property in task.files.as_slice() {
        readings.push(read_one(alloc, folder, property, seen, room)?)?;
    }
    Ok(readings)
}

/// What a run works on.
#[derive(Drop)]
pub struct Inputs {
    /// The trees of the file properties.
    pub trees: Snapshots,
    /// The digests of these very trees.
    pub prints: Vec<Prints>,
}

/// The whole trees of a task's inputs: what was kept as it was read, and the rest as it is now,
/// digested again. Nothing is changed, even if it fails. The error is that memory ran out or the
/// device failed, or that a file was removed or has grown since.
pub fn complete_inputs<F: Folder>(
    alloc: Global,
    folder: &mut F,
    task: &TaskDeclaration,
    readings: Vec<Reading>,
) -> Result<Inputs, Fault>
    requires { AreInputs task.now readings.items }
    ensures reads { OnlyReads F.device folder.old folder.new }
    ensures blame { Blames result (F.device.failures folder.old) (F.device.failures folder.new) }
    ensures blamed { BlamesOnly (is_input_of task.now) result }
    // Over any folder: the names of the properties, and the digests of the very trees.
    ensures named { IfOk result (λ inputs. map (λ tree. tree.0) inputs.trees ≡ given_files task.now.files) }
    ensures digests { IfOk result (λ inputs. inputs.prints.items ≡ digests_in inputs.trees) }
    // Also: what was answered before, with what is answered now for the rest.
    ensures answered { (first : _) → Requests F.device no_change first folder.old
        → AreInputsAnswered F.device first folder.old task.now readings.items
        → IfOk result (λ inputs. AreInputsRead F.device first folder.new task.now
        inputs.trees) }
    ensures trees { F.device.faithful folder.new → AreInputsObserved task.now
        (F.device.contents folder.old).files
        readings.items
        → IfOk result (λ inputs. inputs.trees ≡ trees_of task.now (F.device.contents folder.old).files) }
    ensures err { F.device.faithful folder.new
        → AreInputsObserved task.now (F.device.contents folder.old).files readings.items
        → IfErr result (IsOfMachine (F.device.failures folder.old) (F.device.failures folder.new)) }
{
    let mut trees = Snapshots::new(alloc);
    let mut prints = Vec::new(alloc);
    for reading in readings {
        let (tree, found) = complete(alloc, folder, reading)?;
        prints.push(found)?;
        trees.push(tree)?;
    }
    Ok(Inputs { trees, prints })
}
