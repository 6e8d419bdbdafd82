//! The prediction for a task from the decision on it.
ghost use Rattle.std.specs.Prelude.{◌≡◌, ◌≢◌, ◌⊎◌, IfOk, option_copied};
ghost use Rattle.gb_predict.specs.Explained.{IsCompared, IsExplained, why_without};
ghost use Rattle.gb_predict.specs.Prediction.{IsReasoned, RunsFor};
ghost use Rattle.gb_history.specs.Decision.{Decides};
ghost use Rattle.gb_label.specs.Deciding.{FollowsFrom};
ghost use Rattle.gb_semantics.specs.Headline.{Agrees};
ghost use Rattle.gb_semantics.specs.Kinds.{Kinds};
ghost use Rattle.gb_plan.specs.Ready.{IsReady};
ghost use Rattle.gb_report.specs.declared.report.Options.{Options};

use crate::predicted_outcome::PredictedOutcome;
use gb_action::actions::Actions;
use gb_action::table::ActionTable;
use gb_history::decide::{Decision, Present};
use gb_history::record::Record;
use gb_label::deciding::{Basis, FullReason};
use gb_plan::task::TaskDeclaration;
use gb_reason::explain::explain;
use gb_reason::reason::Reason;
use gb_report::fault::Fault;
use gb_task::execution::is_by_changes;
use std::alloc::{AllocError, Global};

/// The prediction for a task with this decision; or that memory is out, if it is.
pub(crate) fn explained<A: Actions>(
    alloc: Global,
    task: &TaskDeclaration,
    table: &ActionTable<A::Stored>,
    old: Option<&Record>,
    decision: &Decision,
    basis: &Basis,
) -> PredictedOutcome
    requires ready { IsReady A.meanings table.now task.now }
    requires goes_by { (options : Options)
        × FollowsFrom options task.now (option_copied old) decision.now basis.now }
    ensures reasoned { IsReasoned result }
    ensures explained { (kinds : Kinds) → Agrees A.meanings table.now kinds
        → (result ≡ PredictedOutcome.CannotRead Fault.OutOfMemory)
        ⊎ IsExplained kinds task.now (option_copied old.entry) decision.now basis.now result }
{
    match by_basis::<A>(alloc, task, table, old, decision, basis) {
        Ok(coming) => coming,
        Err(_) => PredictedOutcome::CannotRead(Fault::OutOfMemory),
    }
}

/// The same, unless memory is out.
fn by_basis<A: Actions>(
    alloc: Global,
    task: &TaskDeclaration,
    table: &ActionTable<A::Stored>,
    old: Option<&Record>,
    decision: &Decision,
    basis: &Basis,
) -> Result<PredictedOutcome, AllocError>
    requires ready { IsReady A.meanings table.now task.now }
    requires goes_by { (options : Options)
        × FollowsFrom options task.now (option_copied old) decision.now basis.now }
    ensures reasoned { IfOk result IsReasoned }
    ensures explained { (kinds : Kinds) → Agrees A.meanings table.now kinds
        → IfOk result (IsExplained kinds task.now (option_copied old.entry) decision.now basis.now) }
{
    match basis {
        Basis::Forced(FullReason::NoRecord) => runs_for(alloc, reason_without(task)),
        Basis::Forced(FullReason::Rerun) => runs_for(alloc, Reason::Rerun),
        Basis::Forced(FullReason::Stale) => runs_for(alloc, Reason::Stale),
        Basis::Forced(FullReason::Grown) => Ok(PredictedOutcome::HasGrown),
        Basis::Compared(present) => compared::<A>(alloc, task, table, old, decision, present),
    }
}

/// The prediction that it runs in full for this one reason, whatever it has.
fn runs_for(alloc: Global, reason: Reason) -> Result<PredictedOutcome, AllocError>
    ensures { IfOk result (RunsFor reason) }
{
    Ok(PredictedOutcome::Runs(false, vec![in alloc; reason]?))
}

/// The reason why a task without a record runs.
fn reason_without(task: &TaskDeclaration) -> Reason
    ensures { result ≡ why_without task.now }
{
    if task.outputs.as_slice().is_empty() {
        Reason::NoOutputs
    } else {
        Reason::NoRecord
    }
}

/// The prediction for a task that was compared with its record.
fn compared<A: Actions>(
    alloc: Global,
    task: &TaskDeclaration,
    table: &ActionTable<A::Stored>,
    old: Option<&Record>,
    decision: &Decision,
    present: &Present,
) -> Result<PredictedOutcome, AllocError>
    requires ready { IsReady A.meanings table.now task.now }
    requires decides { Decides (option_copied old) present.now decision.now }
    ensures reasoned { IfOk result IsReasoned }
    ensures explained { (kinds : Kinds) → Agrees A.meanings table.now kinds
        → IfOk result (IsCompared kinds task.now (option_copied old.entry) decision.now present.entry.now) }
{
    match decision {
        Decision::UpToDate => Ok(PredictedOutcome::UpToDate),
        decision => due::<A>(alloc, task, table, old, decision, present),
    }
}

/// The prediction that the task runs, and why.
fn due<A: Actions>(
    alloc: Global,
    task: &TaskDeclaration,
    table: &ActionTable<A::Stored>,
    old: Option<&Record>,
    decision: &Decision,
    present: &Present,
) -> Result<PredictedOutcome, AllocError>
    requires ready { IsReady A.meanings table.now task.now }
    requires due { decision.now ≢ Decision.UpToDate }
    requires decides { Decides (option_copied old) present.now decision.now }
    ensures reasoned { IfOk result IsReasoned }
    ensures explained { (kinds : Kinds) → Agrees A.meanings table.now kinds
        → IfOk result (IsCompared kinds task.now (option_copied old.entry) decision.now present.entry.now) }
{
    let reasons = explain(alloc, old, present)?;
    let by_changes = is_by_changes::<A>(table, task, decision);
    Ok(PredictedOutcome::Runs(by_changes, reasons))
}
