//! The record of a task: what it declares, with the digests of its inputs and outputs.
ghost use Rattle.std.specs.Prelude.{◌≡◌, IfOk, map};
ghost use Rattle.gb_history.specs.Record.{prints_in};
ghost use Rattle.gb_label.specs.Deciding.{HasNamesInOrder};

use gb_action::list::ActionList;
use gb_action::values::NamedValues;
use gb_history::record::{OutputRecord, Record};
use gb_plan::task::{Action, TaskDeclaration};
use gb_tree::prints::Prints;
use std::alloc::{AllocError, Global};

fn copied(alloc: Global, action: &Action) -> Result<Action, AllocError>
    ensures { IfOk result (λ copy. copy ≡ action.now) }
{
    let kind = action.kind.copy()?;
    let args = action.args.copy(alloc)?;
    Ok(Action {
        kind,
        version: action.version,
        args,
    })
}

fn actions_of(alloc: Global, actions: &ActionList<Action>) -> Result<Vec<Action>, AllocError>
    ensures { IfOk result (λ copies. copies.items ≡ actions.now) }
{
    let mut copies = Vec::new(alloc);
    for action in actions.iter() {
        copies.push(copied(alloc, action)?)?;
    }
    Ok(copies)
}

/// The record of a run of the task with these inputs and outputs, which have the names that it
/// declares.
pub fn record_of(
    alloc: Global,
    task: &TaskDeclaration,
    inputs: Vec<Prints>,
    outputs: Vec<OutputRecord>,
) -> Result<Record, AllocError>
    requires in_order { HasNamesInOrder task.now }
    requires inputs { map (λ found. found.0) inputs.items ≡ map (λ property. property.name) task.now.files }
    requires outputs { map (λ found. found.0) (prints_in outputs.items)
        ≡ map (λ output. output.name) task.now.outputs }
    ensures { IfOk result (λ run. run ≡ record {
      actions = task.now.actions;
      values = task.now.values;
      inputs = inputs.items;
      outputs = outputs.items;
    }) }
{
    let actions = actions_of(alloc, &task.actions)?;
    let values = task.values.copy(alloc)?;
    Ok(Record::new(actions, values, inputs, outputs))
}
