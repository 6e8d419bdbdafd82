//! The record of a task.
ghost use Rattle.std.specs.Prelude.{◌≡◌, IsTrue, IfOk};
ghost use Rattle.std.specs.FinMap.Entries.{is_sorted};
ghost use Rattle.gb_core.specs.Lists.{byte_order};
ghost use Rattle.gb_history.specs.Record.{AreInOrder, prints_in};

use gb_action::output_files::Form;
use gb_action::values::NamedValues;
use gb_core::place::Place;
use gb_plan::task::Action;
use gb_tree::prints::Prints;
use std::alloc::{AllocError, Global};
use std::marker::Model;

/// The form in which a record is written.
#[derive(Clone, Copy, Debug, PartialEq, Eq)]
pub enum Edition {
    /// Actions without versions: each has version 1.
    First,
    /// Actions with their versions.
    Second,
}

/// An output after a run, with the digests of its files.
#[derive(Drop)]
pub struct OutputRecord {
    /// One file, or all files under the place.
    pub form: Form,
    /// Where the run made it.
    pub place: Place,
    /// The digest of each of its files, under the name of the output.
    pub prints: Prints,
}

/// The record of a run that ended well; the names of values, properties and outputs are strictly
/// ascending.
#[derive(Drop)]
pub struct Record {
    actions: Vec<Action>,
    values: NamedValues,
    inputs: Vec<Prints>,
    outputs: Vec<OutputRecord>,
}

impl Model for Record {
    ghost use Rattle.std.specs.Prelude.{IsTrue};
    ghost use Rattle.std.specs.FinMap.Entries.{is_sorted};
    ghost use Rattle.gb_core.specs.Lists.{byte_order};
    ghost use Rattle.gb_history.specs.Record.{Record as Recorded, prints_in};

    ghost Value = { Recorded };

    ghost view = { λ r.
        record {
          actions = r.actions.items;
          values = r.values;
          inputs = r.inputs.items;
          outputs = r.outputs.items;
        } };

    ghost invariant = { λ r. IsTrue (is_sorted byte_order r.values)
        × IsTrue (is_sorted byte_order r.inputs.items)
        × IsTrue (is_sorted byte_order (prints_in r.outputs.items)) };
}

impl Record {
    /// The record of these actions, input values, file properties and outputs. The last three have
    /// ascending names.
    pub fn new(
        actions: Vec<Action>,
        values: NamedValues,
        inputs: Vec<Prints>,
        outputs: Vec<OutputRecord>,
    ) -> Record
        requires values { IsTrue (is_sorted byte_order values) }
        requires inputs { IsTrue (is_sorted byte_order inputs.items) }
        requires outputs { IsTrue (is_sorted byte_order (prints_in outputs.items)) }
        ensures { result
            ≡ record {
              actions = actions.items;
              values = values;
              inputs = inputs.items;
              outputs = outputs.items;
            } }
    {
        Record {
            actions,
            values,
            inputs,
            outputs,
        }
    }

    /// The actions that ran, in their order.
    pub fn actions(&self) -> &[Action]
        ensures actions { result.now ≡ self.now.actions }
        ensures ordered { AreInOrder self.now }
    {
        self.actions.as_slice()
    }

    /// The input values that the actions read, by ascending names.
    pub fn values(&self) -> &NamedValues
        ensures { result.now ≡ self.now.values }
    {
        &self.values
    }

    /// The digests of the files that the actions read, a row for each property by ascending names.
    pub fn inputs(&self) -> &[Prints]
        ensures { result.now ≡ self.now.inputs }
    {
        self.inputs.as_slice()
    }

    /// Each output after the run, by ascending names.
    pub fn outputs(&self) -> &[OutputRecord]
        ensures { result.now ≡ self.now.outputs }
    {
        self.outputs.as_slice()
    }

    /// The digests of its inputs and of its outputs; the rest is dropped.
    pub fn into_prints(self, alloc: Global) -> Result<(Vec<Prints>, Vec<Prints>), AllocError>
        ensures inputs { IfOk result (λ prints. prints.0.items ≡ self.inputs) }
        ensures outputs { IfOk result (λ prints. prints.1.items ≡ prints_in self.outputs) }
    {
        let Record {
            actions: _,
            values: _,
            inputs,
            outputs,
        } = self;
        let outputs = prints_alone(alloc, outputs)?;
        Ok((inputs, outputs))
    }
}

/// The digests of outputs, without their forms and places.
fn prints_alone(alloc: Global, outputs: Vec<OutputRecord>) -> Result<Vec<Prints>, AllocError>
    ensures { IfOk result (λ prints. prints.items ≡ prints_in outputs.items) }
{
    outputs
        .into_iter()
        .map(|output| output.prints)
        .collect(alloc)
}
