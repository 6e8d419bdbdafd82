//! The outputs of all tasks, and the roots of their file properties.
ghost use Rattle.std.specs.Prelude.{◌≡◌, ◌++◌, IfOk, OnOk, map};
ghost use Rattle.std.specs.List.{flat_map};
ghost use Rattle.gb_check.specs.Warnings.{all_outputs, all_roots, rooted};

use gb_core::path::TaskPath;
use gb_core::place::Place;
use gb_plan::task::{FileProperty, Output, TaskDeclaration};
use std::alloc::{AllocError, Global};

/// A root of a file property.
#[derive(Drop)]
pub struct Rooted {
    /// The task that has the property.
    pub path: TaskPath,
    /// The root.
    pub root: Place,
}

/// The outputs of all tasks.
pub(crate) fn all_outputs(
    alloc: Global,
    tasks: &[TaskDeclaration],
) -> Result<Vec<Place>, AllocError>
    ensures { IfOk result (λ outputs. outputs.items ≡ all_outputs tasks.now) }
{
    let mut outputs = Vec::new(alloc);
    for task in tasks {
        push_outputs(&mut outputs, task.outputs.as_slice())?;
    }
    Ok(outputs)
}

fn push_outputs(places: &mut Vec<Place>, outputs: &[Output]) -> Result<(), AllocError>
    ensures { OnOk result (places.new.items
        ≡ places.old.items ++ map (λ output. output.place) outputs.now) }
{
    for output in outputs {
        places.push(output.place.copy()?)?;
    }
    Ok(())
}

/// The roots of all tasks.
pub(crate) fn all_roots(alloc: Global, tasks: &[TaskDeclaration]) -> Result<Vec<Rooted>, AllocError>
    ensures { IfOk result (λ roots. roots.items ≡ all_roots tasks.now) }
{
    let mut roots = Vec::new(alloc);
    for task in tasks {
        push_properties(&mut roots, &task.path, task.files.as_slice())?;
    }
    Ok(roots)
}

fn push_properties(
    roots: &mut Vec<Rooted>,
    path: &TaskPath,
    files: &[FileProperty],
) -> Result<(), AllocError>
    ensures { OnOk result (roots.new.items ≡ roots.old.items
        ++ flat_map (λ property. map (rooted path.now) property.roots) files.now) }
{
    for property in files {
        push_roots(roots, path, property.roots.as_slice())?;
    }
    Ok(())
}

fn push_roots(roots: &mut Vec<Rooted>, path: &TaskPath, places: &[Place]) -> Result<(), AllocError>
    ensures { OnOk result (roots.new.items ≡ roots.old.items ++ map (rooted path.now) places.now) }
{
    for place in places {
        let path = path.copy()?;
        let root = place.copy()?;
        roots.push(Rooted { path, root })?;
    }
    Ok(())
}
