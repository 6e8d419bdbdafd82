//! The recheck of a task that may run incrementally, on the very contents that its run works on.
//!
//! The executor takes the contents that were read for the decision, and reads now those that were
//! not kept. Then it decides once more, on the digests of exactly these contents: a file that somebody
//! saved in between is a change like any other, and where outputs or other properties were changed
//! the run is a full one.
ghost use Rattle.std.specs.Prelude.{◌≡◌, ◌||◌, false, IfOk, IfErr};
ghost use Rattle.std.specs.List.{list_any};
ghost use Rattle.gb_folder.specs.Calls.{OnlyReads, Requests, no_change};
ghost use Rattle.gb_folder.specs.Files.{is_own};
ghost use Rattle.gb_label.specs.Deciding.{HasNamesInOrder};
ghost use Rattle.gb_label.specs.ReadingAnswered.{AreInputsAnswered, AreOutputsAnswered};
ghost use Rattle.gb_label.specs.Reading.{AreInputs, AreInputsObserved, AreOutputs};
ghost use Rattle.gb_label.specs.Reading.{AreOutputsObserved, is_input_of};
ghost use Rattle.gb_semantics.specs.Kinds.{Kinds};
ghost use Rattle.gb_semantics.specs.Memory.{World};
ghost use Rattle.gb_semantics.specs.TrueRecord.{outside};
ghost use Rattle.gb_plan.specs.Task.{is_output_of};
ghost use Rattle.gb_folder.specs.Faults.{Blames, BlamesOnly, IsOfMachine};
ghost use Rattle.gb_task.specs.Recheck.{IsRecheck, IsAsBefore, recheck_by};
ghost use Rattle.gb_task.specs.Current.{WasReadRecheck};
ghost use Rattle.gb_task.specs.Executing.{IsToGoOn};

use crate::case_laws::{outside_is_enough, prepared_is_case};
use gb_action::change::ChangeLists;
use gb_folder::folder::Folder;
use gb_history::decide::Decision;
use gb_history::record::Record;
use gb_label::deciding::{DecidedOn, decide_on};
use gb_label::inputs::{Inputs, complete_inputs};
use gb_label::outputs::{Outputs, complete_outputs};
use gb_label::prepare::Observed;
use gb_plan::task::TaskDeclaration;
use gb_report::fault::Fault;
use gb_report::report::Options;
use std::alloc::Global;

/// How a task is to run, by what was read of it whole.
#[derive(Drop)]
pub enum Recheck {
    /// It runs incrementally by these changes, starting from these outputs.
    ByChanges(Inputs, Outputs, ChangeLists),
    /// It runs in full on these inputs.
    InFull(Inputs),
}

/// Reads the contents of inputs and outputs that were not kept, and decides on the digests of all.
/// Nothing is changed, even if it fails. The error is that memory ran out or the device failed, or
/// that a file is gone or has grown since it was first read.
pub(crate) fn recheck_task<F: Folder>(
    alloc: Global,
    folder: &mut F,
    task: &TaskDeclaration,
    options: Options,
    last: &Record,
    observed: Observed,
) -> Result<Recheck, Fault>
    requires in_order { HasNamesInOrder task.now }
    requires not_own { list_any (λ output. is_own output.place) task.now.outputs ≡ false }
    requires inputs { AreInputs task.now observed.inputs.items }
    requires outputs { AreOutputs task.now observed.outputs.items }
    ensures reads { OnlyReads F.device folder.old folder.new }
    ensures blame { Blames result (F.device.failures folder.old) (F.device.failures folder.new) }
    ensures blamed { BlamesOnly (λ place. is_input_of task.now place || is_output_of task.now place) result }
    // Over any folder: the digests are those of what the run works on, and the changes are decided
    // on them.
    ensures recheck { IfOk result (IsRecheck options task.now last.now) }
    // And they are what calls returned, before and now.
    ensures answered { (first : _) → Requests F.device no_change first folder.old
        → AreInputsAnswered F.device first folder.old task.now observed.inputs.items
        → AreOutputsAnswered F.device first folder.old task.now observed.outputs.items
        → IfOk result (WasReadRecheck F.device first folder.new task.now) }
    // Where nobody else writes, the result is the earlier decision.
    ensures as_before { F.device.faithful folder.new → (kinds : Kinds) (world : World)
        → world.folder ≡ outside (F.device.contents folder.old)
        → AreInputsObserved task.now (F.device.contents folder.old).files observed.inputs.items
        → AreOutputsObserved task.now (F.device.contents folder.old).files observed.outputs.items
        → IsToGoOn kinds options task.now world last.now
        → IfOk result (IsAsBefore kinds options task.now (F.device.contents folder.old).files world) }
    ensures err { F.device.faithful folder.new → AreInputsObserved task.now
        (F.device.contents folder.old).files
        observed.inputs.items
        → AreOutputsObserved task.now (F.device.contents folder.old).files observed.outputs.items
        → IfErr result (IsOfMachine (F.device.failures folder.old) (F.device.failures folder.new)) }
{
    outside_is_enough();
    prepared_is_case();
    let Observed { inputs, outputs } = observed;
    let Inputs { trees, prints } = complete_inputs(alloc, folder, task, inputs)?;
    let Outputs {
        observed,
        prints: existed,
    } = complete_outputs(alloc, folder, task, outputs)?;
    let DecidedOn { decision, present } = decide_on(alloc, task, options, last, prints, existed)?;
    let (prints, existed) = present.now.into_prints(alloc)?;
    let inputs = Inputs { trees, prints };
    let outputs = Outputs {
        observed,
        prints: existed,
    };
    Ok(recheck_by(decision, inputs, outputs))
}

/// How a task is to run, by what was decided on these inputs and outputs.
fn recheck_by(decision: Decision, inputs: Inputs, outputs: Outputs) -> Recheck
    ensures { result ≡ recheck_by decision inputs outputs }
{
    match decision {
        Decision::Incremental(changes) => Recheck::ByChanges(inputs, outputs, changes),
        Decision::UpToDate | Decision::Full => Recheck::InFull(inputs),
    }
}
