//! Checks the files that a task holds after a reply is done, before anything changes.
//!
//! All of them are checked by place, also those that stay as they are. So the first fault reported
//! is the one that a full execution reports first.
ghost use Rattle.std.specs.Prelude.{◌≡◌, ◌≤◌, ◌⊎◌, [], Some, IfOk, IfErr, IsTrue, OnOk, length, string_bytes};
ghost use Rattle.std.specs.List.{AllByRecursion, flat_map, list_any};
ghost use Rattle.gb_core.specs.Place.{is_beneath};
ghost use Rattle.gb_core.specs.Lists.{first_of};
ghost use Rattle.gb_folder.specs.Limits.{max_files};
ghost use Rattle.gb_semantics.specs.Made.{file_faults, put_over};
ghost use Rattle.gb_run.specs.Placing.{blank, faults_beside};
ghost use Rattle.gb_run.specs.Named.{files_left};
ghost use Rattle.gb_run.specs.ChangeTexts.{Fits, steps_in};

use crate::placing::{check_counts, place_of};
use gb_core::bytes::Bytes;
use gb_core::place::is_place;
use gb_folder::file_map::FileMap;
use gb_folder::limits::{MAX_FILE, MAX_FILES};
use gb_plan::task::Output;
use gb_report::fault::Fault;
use std::alloc::{AllocError, Global};
use std::collections::BTreeMap;

/// Checks all the files that exist after these steps are done. An error is the first fault of these
/// files, or lack of memory (fault 3).
pub fn check_held(
    alloc: Global,
    outputs: &[Output],
    steps: &BTreeMap<String, Option<&Bytes>>,
) -> Result<(), Fault>
    ensures ok { OnOk result (faults_beside outputs.now [] (files_left (steps_in steps.now)) ≡ []) }
    ensures err { IfErr result (λ fault. (fault ≡ Fault.OutOfMemory)
        ⊎ (first_of (faults_beside outputs.now [] (files_left (steps_in steps.now))) ≡ Some fault)) }
{
    if all_fit(steps) {
        return Ok(());
    }
    let held = places_held(alloc, steps)?;
    check_all(alloc, &held, steps)?;
    check_counts(alloc, &held, outputs)?;
    Ok(())
}

/// Whether it is plain that no file has a fault: they are few, and each is at a place, not too large,
/// and below no other. It takes no memory.
fn all_fit(steps: &BTreeMap<String, Option<&Bytes>>) -> bool
    ensures few { IsTrue result → length steps.now.entries ≤ max_files }
    ensures fit { IsTrue result → AllByRecursion (Fits steps.now) (files_left (steps_in steps.now)) }
{
    steps.len() <= MAX_FILES && each_fits(steps)
}

fn each_fits(steps: &BTreeMap<String, Option<&Bytes>>) -> bool
    ensures { IsTrue result → AllByRecursion (Fits steps.now) (files_left (steps_in steps.now)) }
{
    for (text, bytes) in steps.iter() {
        if let Some(bytes) = bytes {
            if !fits(steps, text.as_str(), bytes) {
                return false;
            }
        }
    }
    true
}

fn fits(steps: &BTreeMap<String, Option<&Bytes>>, text: &str, bytes: &Bytes) -> bool
    ensures { IsTrue result → Fits steps.now (text.now, bytes.now) }
{
    is_place(text) && !is_above(steps, text) && bytes.as_slice().len() as u64 <= MAX_FILE
}

/// Whether a step is at an ancestor folder of a place.
fn is_above(steps: &BTreeMap<String, Option<&Bytes>>, text: &str) -> bool
    ensures { result ≡ list_any (λ step. is_beneath text.now (string_bytes step.0)) steps.now.entries }
{
    let mut rest = text;
    while let Some((folder, _)) = rest.rsplit_once('/') {
        if steps.contains_key(folder) {
            return true;
        }
        rest = folder;
    }
    false
}

/// The places of the files that exist after the steps.
fn places_held(
    alloc: Global,
    steps: &BTreeMap<String, Option<&Bytes>>,
) -> Result<FileMap, AllocError>
    ensures { IfOk result (λ held. held ≡ put_over [] (blank (files_left (steps_in steps.now)))) }
{
    let mut held = FileMap::new(alloc);
    for (text, bytes) in steps.iter() {
        if bytes.is_some() {
            held.put(text.as_str(), &[])?;
        }
    }
    Ok(held)
}

/// Checks each of these files against all files.
fn check_all(
    alloc: Global,
    all: &FileMap,
    steps: &BTreeMap<String, Option<&Bytes>>,
) -> Result<(), Fault>
    ensures ok { OnOk result (flat_map (file_faults all.now) (files_left (steps_in steps.now)) ≡ []) }
    ensures err { IfErr result (λ fault. (fault ≡ Fault.OutOfMemory)
        ⊎ (first_of (flat_map (file_faults all.now) (files_left (steps_in steps.now))) ≡ Some fault)) }
{
    for (text, bytes) in steps.iter() {
        if let Some(bytes) = bytes {
            check_file(alloc, all, text.as_str(), bytes)?;
        }
    }
    Ok(())
}

/// Checks one file against all files.
fn check_file(alloc: Global, all: &FileMap, text: &str, bytes: &Bytes) -> Result<(), Fault>
    ensures ok { OnOk result (file_faults all.now (text.now, bytes.now) ≡ []) }
    ensures err { IfErr result (λ fault. (fault ≡ Fault.OutOfMemory)
        ⊎ (first_of (file_faults all.now (text.now, bytes.now)) ≡ Some fault)) }
{
    let place = place_of(alloc, text)?;
    if all.is_blocked(&place)? {
        return Err(Fault::Blocked(place));
    }
    if bytes.as_slice().len() as u64 > MAX_FILE {
        return Err(Fault::TooLarge(place));
    }
    Ok(())
}
