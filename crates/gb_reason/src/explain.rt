//! Why a task runs.
ghost use Rattle.std.specs.Prelude.{◌≡◌, ◌↔◌, ◌++◌, [], IsTrue, IfOk};
ghost use Rattle.std.specs.List.{AllByRecursion};
ghost use Rattle.std.specs.Option.{option_copied};
ghost use Rattle.std.specs.FinMap.Entries.{is_sorted};
ghost use Rattle.gb_core.specs.Lists.{byte_order};
ghost use Rattle.gb_history.specs.Record.{prints_in};
ghost use Rattle.gb_history.specs.Decision.{Decides};
ghost use Rattle.gb_history.specs.declared.decide.Decision.{Decision};
ghost use Rattle.gb_reason.specs.Real.{HasPathsInOrder};
ghost use Rattle.gb_reason.specs.Reasons.{differences, reason_without, reasons_from, reasons_of};

use crate::differing::{report_actions, report_part};
use crate::laws::none_is_up_to_date;
use crate::reason::Reason;
use gb_history::decide::Present;
use gb_history::record::{OutputRecord, Record};
use gb_tree::prints::Prints;
use std::alloc::{AllocError, Global};

/// All reasons why a task with this record runs, in their order.
pub fn explain(
    alloc: Global,
    old: Option<&Record>,
    present: &Present,
) -> Result<Vec<Reason>, AllocError>
    ensures reported { IfOk result (λ found.
        found.items ≡ reasons_of (option_copied old.entry) present.entry.now) }
    // There is none exactly if the decision is that the task is up to date.
    ensures none { IfOk result (λ found. (decision : Decision)
        → Decides (option_copied old.entry) present.entry.now decision
        → (found.items ≡ []) ↔ (decision ≡ Decision.UpToDate)) }
{
    none_is_up_to_date();
    paths_rise(&present.now);
    match old {
        None => Ok(vec![in alloc; reason_without(present)]?),
        Some(run) => {
            paths_rise(run);
            explain_from(alloc, run, present)
        }
    }
}

/// The reason why a task without a record runs.
fn reason_without(present: &Present) -> Reason
    ensures { result ≡ reason_without present.entry.now }
{
    if present.now.outputs().is_empty() {
        Reason::NoOutputs
    } else {
        Reason::NoRecord
    }
}

/// Does nothing; it shows that the paths of a record rise.
fn paths_rise(run: &Record)
    ensures { HasPathsInOrder run.now }
{
    inputs_rise(run.inputs());
    outputs_rise(run.outputs());
}

/// The same for file properties.
fn inputs_rise(inputs: &[Prints])
    ensures { AllByRecursion (λ prints. IsTrue (is_sorted byte_order prints.1)) inputs.now }
{
    for prints in inputs {
        let _digests = prints.as_slice();
    }
}

/// The same for outputs.
fn outputs_rise(outputs: &[OutputRecord])
    ensures { AllByRecursion (λ prints. IsTrue (is_sorted byte_order prints.1)) (prints_in outputs.now) }
{
    for output in outputs {
        let _digests = output.prints.as_slice();
    }
}

/// The reasons, from a record.
fn explain_from(alloc: Global, run: &Record, present: &Present) -> Result<Vec<Reason>, AllocError>
    ensures { IfOk result (λ found. found.items ≡ reasons_from run.now present.entry.now) }
{
    if present.rerun {
        return Ok(vec![in alloc; Reason::Rerun]?);
    }
    if present.is_stale {
        return Ok(vec![in alloc; Reason::Stale]?);
    }
    if present.now.outputs().is_empty() {
        return Ok(vec![in alloc; Reason::NoOutputs]?);
    }
    differences(alloc, run, &present.now)
}

/// How a run differs from another.
fn differences(alloc: Global, old: &Record, new: &Record) -> Result<Vec<Reason>, AllocError>
    ensures { IfOk result (λ found. found.items ≡ differences old.now new.now) }
{
    let mut reasons = Vec::new(alloc);
    report_actions(alloc, old.actions(), new.actions(), &mut reasons)?;
    let (was, is) = (old.values().as_slice(), new.values().as_slice());
    report_part(alloc, was, is, Reason::ValueNames, &mut reasons)?;
    let (was, is) = (old.outputs(), new.outputs());
    report_part(alloc, was, is, Reason::OutputNames, &mut reasons)?;
    report_part(
        alloc,
        old.inputs(),
        new.inputs(),
        Reason::FileNames,
        &mut reasons,
    )?;
    Ok(reasons)
}
