//! What a reply leaves, by the texts of places.
ghost use Rattle.std.specs.Prelude.{◌≡◌, ◌++◌, OnOk, map};
ghost use Rattle.std.specs.Option.{option_copied};
ghost use Rattle.std.specs.FinMap.Entries.{put};
ghost use Rattle.gb_core.specs.Lists.{byte_order};
ghost use Rattle.gb_core.specs.Place.{beneath};
ghost use Rattle.gb_semantics.specs.Made.{output_named, placed};
ghost use Rattle.gb_run.specs.Named.{named, put as put_files, removed, existing};
ghost use Rattle.gb_run.specs.Steps.{put_steps};
ghost use Rattle.gb_run.specs.ChangeTexts.{steps_in};

use crate::placing::{output_named, text_beneath};
use gb_action::output_files::OutputFiles;
use gb_action::reply::{OutputPath, Written};
use gb_core::bytes::Bytes;
use gb_core::name::Name;
use gb_core::place::{Place, RelPath};
use gb_plan::task::Output;
use std::alloc::{AllocError, Global};
use std::collections::BTreeMap;

/// Puts the steps that a reply names. Of two at one place the later counts. A write of a file takes
/// precedence over its removal.
pub fn put_reply<'a>(
    alloc: Global,
    steps: &mut BTreeMap<String, Option<&'a Bytes>>,
    outputs: &[Output],
    removes: &[OutputPath],
    writes: &'a [Written],
) -> Result<(), AllocError>
    ensures { OnOk result (steps_in steps.new
        ≡ put_steps (steps_in steps.old) (named outputs.now removes.now writes.now)) }
{
    put_removals(alloc, steps, outputs, removes)?;
    put_writes(alloc, steps, outputs, writes)
}

/// Puts the files of outputs as they were read, each under the place of its output.
pub fn put_existing<'a>(
    alloc: Global,
    steps: &mut BTreeMap<String, Option<&'a Bytes>>,
    outputs: &[Output],
    observed: &'a [OutputFiles],
) -> Result<(), AllocError>
    ensures { OnOk result
        (steps_in steps.new ≡ put_steps (steps_in steps.old)
        (put_files (existing outputs.now observed.now))) }
{
    for (output, found) in outputs.iter().zip(observed) {
        put_tree(alloc, steps, &output.place, found.files.as_slice())?;
    }
    Ok(())
}

/// Puts the files of a tree under a place.
fn put_tree<'a>(
    alloc: Global,
    steps: &mut BTreeMap<String, Option<&'a Bytes>>,
    root: &Place,
    files: &'a [(RelPath, Bytes)],
) -> Result<(), AllocError>
    ensures { OnOk result (steps_in steps.new ≡ put_steps (steps_in steps.old)
        (put_files (map (λ file. (beneath root.now file.0, file.1)) files.now))) }
{
    for file in files.iter() {
        put_step(alloc, steps, root, &file.0, Some(&file.1))?;
    }
    Ok(())
}

/// Puts removals at these paths. A path of no output is skipped.
fn put_removals(
    alloc: Global,
    steps: &mut BTreeMap<String, Option<&Bytes>>,
    outputs: &[Output],
    removes: &[OutputPath],
) -> Result<(), AllocError>
    ensures { OnOk result
        (steps_in steps.new ≡ put_steps (steps_in steps.old) (removed outputs.now removes.now)) }
{
    for path in removes.iter() {
        if let Some(output) = output_named(outputs, &path.output) {
            put_step(alloc, steps, &output.place, &path.path, None)?;
        }
    }
    Ok(())
}

/// Puts these files. A file of no output is skipped.
fn put_writes<'a>(
    alloc: Global,
    steps: &mut BTreeMap<String, Option<&'a Bytes>>,
    outputs: &[Output],
    writes: &'a [Written],
) -> Result<(), AllocError>
    ensures { OnOk result (steps_in steps.new
        ≡ put_steps (steps_in steps.old) (put_files (placed outputs.now writes.now))) }
{
    for file in writes.iter() {
        if let Some(output) = output_named(outputs, &file.output) {
            put_step(alloc, steps, &output.place, &file.path, Some(&file.bytes))?;
        }
    }
    Ok(())
}

/// Puts a file, or a removal, under a place.
fn put_step<'a>(
    alloc: Global,
    steps: &mut BTreeMap<String, Option<&'a Bytes>>,
    root: &Place,
    path: &RelPath,
    bytes: Option<&'a Bytes>,
) -> Result<(), AllocError>
    ensures { OnOk result (steps_in steps.new
        ≡ put byte_order (beneath root.now path.now) (option_copied bytes.entry) (steps_in steps.old)) }
{
    let text = text_beneath(alloc, root, path)?;
    steps.insert(text, bytes)?;
    Ok(())
}
