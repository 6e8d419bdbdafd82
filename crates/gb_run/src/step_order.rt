//! Steps in the order in which they are done.
ghost use Rattle.std.specs.Prelude.{◌≡◌, ◌++◌, ◌&&◌, [], ◌∷◌, not, is_some, IfOk, OnOk};
ghost use Rattle.std.specs.Prelude.{if◌then◌else◌};
ghost use Rattle.std.specs.List.{filter};
ghost use Rattle.std.specs.Option.{option_copied};
ghost use Rattle.gb_core.specs.Place.{is_place};
ghost use Rattle.gb_run.specs.Steps.{in_step_order};
ghost use Rattle.gb_run.specs.ChangeTexts.{shown_steps, steps_in};

use gb_core::bytes::Bytes;
use gb_core::place::{Place, PlaceFault};
use std::alloc::{AllocError, Global};
use std::collections::BTreeMap;

/// The steps in execution order: first the removals, by place, and then the writes, by place.
pub fn in_step_order<'a>(
    alloc: Global,
    steps: &BTreeMap<String, Option<&'a Bytes>>,
) -> Result<Vec<(Place, Option<&'a Bytes>)>, AllocError>
    ensures { IfOk result (λ ordered. shown_steps ordered.items ≡ in_step_order (steps_in steps.now)) }
{
    let mut ordered = Vec::new(alloc);
    push_going(alloc, &mut ordered, steps)?;
    push_coming(alloc, &mut ordered, steps)?;
    Ok(ordered)
}

/// Appends the steps that remove files to others.
fn push_going<'a>(
    alloc: Global,
    ordered: &mut Vec<(Place, Option<&'a Bytes>)>,
    steps: &BTreeMap<String, Option<&'a Bytes>>,
) -> Result<(), AllocError>
    ensures { OnOk result (shown_steps ordered.new.items ≡ shown_steps ordered.old.items
        ++ filter (λ step. is_place step.0 && not (is_some step.1)) (steps_in steps.now)) }
{
    for (text, bytes) in steps.iter() {
        if bytes.is_none() {
            push_step(alloc, ordered, text.as_str(), *bytes)?;
        }
    }
    Ok(())
}

/// Appends the steps that put files to others.
fn push_coming<'a>(
    alloc: Global,
    ordered: &mut Vec<(Place, Option<&'a Bytes>)>,
    steps: &BTreeMap<String, Option<&'a Bytes>>,
) -> Result<(), AllocError>
    ensures { OnOk result (shown_steps ordered.new.items ≡ shown_steps ordered.old.items
        ++ filter (λ step. is_place step.0 && is_some step.1) (steps_in steps.now)) }
{
    for (text, bytes) in steps.iter() {
        if bytes.is_some() {
            push_step(alloc, ordered, text.as_str(), *bytes)?;
        }
    }
    Ok(())
}

/// Appends a step to others, if its text is a place.
fn push_step<'a>(
    alloc: Global,
    ordered: &mut Vec<(Place, Option<&'a Bytes>)>,
    text: &str,
    bytes: Option<&'a Bytes>,
) -> Result<(), AllocError>
    ensures { OnOk result (shown_steps ordered.new.items ≡ shown_steps ordered.old.items
        ++ (if is_place text.now then (text.now, option_copied bytes.entry) ∷ [] else [])) }
{
    match Place::read(alloc, text) {
        Ok(place) => {
            ordered.push((place, bytes))?;
            Ok(())
        }
        Err(PlaceFault::OutOfMemory) => Err(AllocError),
        Err(PlaceFault::BadPlace) => Ok(()),
    }
}
