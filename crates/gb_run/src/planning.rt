//! The steps of a reply, in their order, after all files that the task will hold are checked.
ghost use Rattle.std.specs.Prelude.{◌≡◌, ◌⊎◌, [], Some, IfOk, IfErr, OnOk};
ghost use Rattle.std.specs.Option.{option_copied};
ghost use Rattle.gb_core.specs.Lists.{first_of};
ghost use Rattle.gb_run.specs.Placing.{faults_beside};
ghost use Rattle.gb_run.specs.Named.{held_after, steps_of};
ghost use Rattle.gb_run.specs.Steps.{in_step_order};
ghost use Rattle.gb_run.specs.ChangeTexts.{shown_steps, steps_in};

use crate::after_reply::check_held;
use crate::reply_steps::{put_existing, put_reply};
use crate::step_order::in_step_order;
use gb_action::output_files::OutputFiles;
use gb_action::reply::{OutputPath, Written};
use gb_core::bytes::Bytes;
use gb_core::place::Place;
use gb_plan::task::Output;
use gb_report::fault::Fault;
use std::alloc::{AllocError, Global};
use std::collections::BTreeMap;

/// The steps of a reply over the files that were read, with bytes of their own. An error is the
/// first fault of the files that the task then holds, or lack of memory (fault 3).
pub fn planned(
    alloc: Global,
    outputs: &[Output],
    observed: &[OutputFiles],
    removes: &[OutputPath],
    writes: &[Written],
) -> Result<Vec<(Place, Option<Bytes>)>, Fault>
    ensures steps { IfOk result (λ ordered.
        ordered.items ≡ in_step_order (steps_of outputs.now removes.now writes.now)) }
    ensures ok { OnOk result
        (faults_beside outputs.now [] (held_after outputs.now observed.now removes.now writes.now) ≡ []) }
    ensures err { IfErr result (λ fault. (fault ≡ Fault.OutOfMemory)
        ⊎ (first_of (faults_beside outputs.now []
        (held_after outputs.now observed.now removes.now writes.now))
        ≡ Some fault)) }
{
    check_planned(alloc, outputs, observed, removes, writes)?;
    let steps = named_steps(alloc, outputs, removes, writes)?;
    let ordered = in_step_order(alloc, &steps)?;
    Ok(owned(alloc, ordered.as_slice())?)
}

/// The same steps, with bytes of their own.
fn owned(
    alloc: Global,
    steps: &[(Place, Option<&Bytes>)],
) -> Result<Vec<(Place, Option<Bytes>)>, AllocError>
    ensures { IfOk result (λ owned. owned.items ≡ shown_steps steps.now) }
{
    let mut owned = Vec::new(alloc);
    for step in steps.iter() {
        owned.push(owned_one(&step.0, step.1)?)?;
    }
    Ok(owned)
}

fn owned_one(place: &Place, bytes: Option<&Bytes>) -> Result<(Place, Option<Bytes>), AllocError>
    ensures { IfOk result (λ step. step ≡ (place.now, option_copied bytes.entry)) }
{
    let at = place.copy()?;
    match bytes {
        Some(bytes) => Ok((at, Some(bytes.copy()?))),
        None => Ok((at, None)),
    }
}

/// Checks all files that the task holds after a reply is done.
fn check_planned(
    alloc: Global,
    outputs: &[Output],
    observed: &[OutputFiles],
    removes: &[OutputPath],
    writes: &[Written],
) -> Result<(), Fault>
    ensures ok { OnOk result
        (faults_beside outputs.now [] (held_after outputs.now observed.now removes.now writes.now) ≡ []) }
    ensures err { IfErr result (λ fault. (fault ≡ Fault.OutOfMemory)
        ⊎ (first_of (faults_beside outputs.now []
        (held_after outputs.now observed.now removes.now writes.now))
        ≡ Some fault)) }
{
    let mut held = BTreeMap::new(alloc);
    put_existing(alloc, &mut held, outputs, observed)?;
    put_reply(alloc, &mut held, outputs, removes, writes)?;
    check_held(alloc, outputs, &held)
}

/// The steps that a reply names, by place.
fn named_steps<'a>(
    alloc: Global,
    outputs: &[Output],
    removes: &[OutputPath],
    writes: &'a [Written],
) -> Result<BTreeMap<String, Option<&'a Bytes>>, AllocError>
    ensures { IfOk result (λ steps. steps_in steps ≡ steps_of outputs.now removes.now writes.now) }
{
    let mut steps = BTreeMap::new(alloc);
    put_reply(alloc, &mut steps, outputs, removes, writes)?;
    Ok(steps)
}
