//! The cases that are decided before any record is considered.
ghost use Rattle.std.specs.Prelude.{◌≡◌, ◌||◌, true, false, length, IfOk, IfErr, OnErr};
ghost use Rattle.std.specs.List.{list_all, list_any, zip};
ghost use Rattle.gb_folder.specs.Calls.{OnlyReads, Requests, no_change};
ghost use Rattle.gb_folder.specs.Files.{is_empty};
ghost use Rattle.gb_plan.specs.Task.{is_output_of};
ghost use Rattle.gb_folder.specs.Faults.{Blames, BlamesOnly};
ghost use Rattle.gb_tree.specs.DigestCache.{AreCached, AreCachedIn};
ghost use Rattle.gb_label.specs.Answered.{IsEarlyCaseRead};
ghost use Rattle.gb_label.specs.Looking.{IsCase, IsHindered, MayBe, gives_no_source, lacks_source};
ghost use Rattle.gb_label.specs.Reading.{is_input_of};

use crate::inputs::read_inputs;
use crate::output_listing::check_outputs;
use gb_folder::folder::Folder;
use gb_plan::task::{FileProperty, TaskDeclaration};
use gb_report::fault::Fault;
use gb_tree::digest_cache::DigestCache;
use gb_tree::kept::Reading;
use std::alloc::Global;

/// What a task is found to be before its record is considered.
#[derive(Drop)]
pub enum EarlyCase {
    /// `enabled` or a test is false.
    Skips,
    /// It runs nothing.
    HasNoActions,
    /// All file properties that skip the task when empty are empty.
    HasNoSource,
    /// None of these. Here are its file properties as read; its outputs were not listed.
    Open(Vec<Reading>),
}

/// Whether there are properties that skip a task when empty.
fn may_skip(properties: &[FileProperty]) -> bool
    ensures { result ≡ list_any (λ property. property.skip_when_empty) properties.now }
{
    properties.iter().any(|property| property.skip_when_empty)
}

/// Whether the property gives its task no source: it does not skip it when empty, or is empty.
fn gives_no_source(property: &FileProperty, found: &Reading) -> bool
    ensures { result ≡ gives_no_source (property.now, found.now) }
{
    !property.skip_when_empty || found.is_empty()
}

/// Whether all properties that skip a task when empty are empty.
fn are_empty(properties: &[FileProperty], inputs: &[Reading]) -> bool
    requires { length properties.now ≡ length inputs.now }
    ensures { result ≡ list_all gives_no_source (zip properties.now inputs.now) }
{
    for (at, property) in properties.iter().enumerate() {
        if !gives_no_source(property, &inputs[at]) {
            return false;
        }
    }
    true
}

/// Whether there are properties that skip a task when empty, and all of them are empty.
fn is_without_source(properties: &[FileProperty], inputs: &[Reading]) -> bool
    requires { length properties.now ≡ length inputs.now }
    ensures { result ≡ lacks_source properties.now inputs.now }
{
    may_skip(properties) && are_empty(properties, inputs)
}

/// What a task with actions is found to be.
fn look_at_files<F: Folder>(
    alloc: Global,
    folder: &mut F,
    task: &TaskDeclaration,
    seen: &DigestCache,
    mut room: u64,
) -> Result<EarlyCase, Fault>
    requires runs { task.now.runs ≡ true }
    requires acts { is_empty task.now.actions ≡ false }
    ensures reads { OnlyReads F.device folder.old folder.new }
    ensures blame { Blames result (F.device.failures folder.old) (F.device.failures folder.new) }
    ensures blamed { BlamesOnly (λ place. is_input_of task.now place || is_output_of task.now place) result }
    ensures may_be { IfOk result (MayBe task.now) }
    ensures answered { (first : _) → Requests F.device no_change first folder.old
        → AreCached F.device first folder.old seen.now
        → IfOk result
        (IsEarlyCaseRead F.device first folder.new task.now) }
    ensures case { F.device.faithful folder.new → AreCachedIn (F.device.contents folder.old).files seen.now
        → IfOk result (IsCase task.now (F.device.contents folder.old)) }
    ensures err { F.device.faithful folder.new → AreCachedIn (F.device.contents folder.old).files seen.now
        → IfErr result
        (IsHindered task.now (F.device.contents folder.old) (F.device.failures folder.old)
        (F.device.failures folder.new)) }
{
    let inputs = read_inputs(alloc, folder, task, seen, &mut room)?;
    if is_without_source(task.files.as_slice(), inputs.as_slice()) {
        check_outputs(alloc, folder, task)?;
        return Ok(EarlyCase::HasNoSource);
    }
    Ok(EarlyCase::Open(inputs))
}

/// What a task is found to be before its record is considered. Remembered inputs are not read;
/// the bytes of the others are kept while there is `room` for them. Nothing is changed, even if it
/// fails. The error is the first fault in reading the inputs or, if there is no source, in listing
/// the outputs; or that memory ran out or the device failed.
pub fn early_case_of<F: Folder>(
    alloc: Global,
    folder: &mut F,
    task: &TaskDeclaration,
    seen: &DigestCache,
    room: u64,
) -> Result<EarlyCase, Fault>
    ensures reads { OnlyReads F.device folder.old folder.new }
    ensures blame { Blames result (F.device.failures folder.old) (F.device.failures folder.new) }
    ensures blamed { BlamesOnly (λ place. is_input_of task.now place || is_output_of task.now place) result }
    // Over any folder: which of them it may be, and what calls returned for it.
    ensures may_be { IfOk result (MayBe task.now) }
    ensures answered { (first : _) → Requests F.device no_change first folder.old
        → AreCached F.device first folder.old seen.now
        → IfOk result
        (IsEarlyCaseRead F.device first folder.new task.now) }
    ensures reading { OnErr result ((task.now.runs ≡ true) × (is_empty task.now.actions ≡ false)) }
    ensures case { F.device.faithful folder.new → AreCachedIn (F.device.contents folder.old).files seen.now
        → IfOk result (IsCase task.now (F.device.contents folder.old)) }
    ensures err { F.device.faithful folder.new → AreCachedIn (F.device.contents folder.old).files seen.now
        → IfErr result
        (IsHindered task.now (F.device.contents folder.old) (F.device.failures folder.old)
        (F.device.failures folder.new)) }
{
    if !task.runs {
        return Ok(EarlyCase::Skips);
    }
    if task.actions.is_empty() {
        return Ok(EarlyCase::HasNoActions);
    }
    look_at_files(alloc, folder, task, seen, room)
}
