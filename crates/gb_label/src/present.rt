//! What a task has before it acts, as it is compared with its record.
ghost use Rattle.std.specs.Prelude.{◌≡◌, ◌++◌, ◌∷◌, [], map, IfOk, OnOk};
ghost use Rattle.gb_history.specs.Record.{prints_in};
ghost use Rattle.gb_label.specs.Deciding.{HasNamesInOrder, IsPresentOf, incremental_names};

use crate::new_record::record_of;
use gb_core::name::Name;
use gb_history::decide::Present;
use gb_history::record::OutputRecord;
use gb_plan::task::{FileProperty, TaskDeclaration};
use gb_report::report::Options;
use gb_tree::prints::Prints;
use std::alloc::{AllocError, Global};

/// Adds the name of the property, if it is incremental.
fn add_incremental(names: &mut Vec<Name>, property: &FileProperty) -> Result<(), AllocError>
    ensures { OnOk result (names.new.items
        ≡ names.old.items ++ incremental_names (property.now ∷ [])) }
{
    if property.incremental {
        names.push(property.name.copy()?)?;
    }
    Ok(())
}

/// The names of the properties that are incremental.
fn incremental_of(alloc: Global, properties: &[FileProperty]) -> Result<Vec<Name>, AllocError>
    ensures { IfOk result (λ names. names.items ≡ incremental_names properties.now) }
{
    let mut names = Vec::new(alloc);
    for property in properties {
        add_incremental(&mut names, property)?;
    }
    Ok(names)
}

/// What a task with these inputs and outputs has, which have the names that it declares.
pub fn present_of(
    alloc: Global,
    task: &TaskDeclaration,
    options: Options,
    inputs: Vec<Prints>,
    outputs: Vec<OutputRecord>,
) -> Result<Present, AllocError>
    requires in_order { HasNamesInOrder task.now }
    requires inputs { map (λ found. found.0) inputs.items ≡ map (λ property. property.name) task.now.files }
    requires outputs { map (λ found. found.0) (prints_in outputs.items)
        ≡ map (λ output. output.name) task.now.outputs }
    ensures { IfOk result (IsPresentOf options task.now inputs.items outputs.items) }
{
    let now = record_of(alloc, task, inputs, outputs)?;
    let incremental = incremental_of(alloc, task.files.as_slice())?;
    Ok(Present {
        now,
        incremental,
        rerun: options.rerun,
        is_stale: task.is_stale,
    })
}
