//! Calls the actions of a task, with full or incremental requests.
ghost use Rattle.std.specs.Prelude.{◌≡◌, ◌⊎◌, ℕ, List, true, Ok, Err, IfOk, IfErr, OnOk, Some};
ghost use Rattle.std.specs.FinMap.Entries.{find};
ghost use Rattle.gb_core.specs.Lists.{byte_order};
ghost use Rattle.std.specs.List.{AllByRecursion};
ghost use Rattle.gb_action.specs.Meanings.{shape_of};
ghost use Rattle.gb_action.specs.Replies.{Answers};
ghost use Rattle.gb_plan.specs.Ready.{IsReady, IsReadyAction};
ghost use Rattle.gb_semantics.specs.Headline.{Agrees};
ghost use Rattle.gb_semantics.specs.Kinds.{Kinds, kind_of};
ghost use Rattle.gb_semantics.specs.Label.{has_one_writer};
ghost use Rattle.gb_run.specs.Asking.{made_by};
ghost use Rattle.gb_run.specs.AskingChanges.{AnswersChanges, CanGoOn, writes_stored};
ghost use Rattle.gb_run.specs.Requests.{IsRequestOf};

use gb_action::actions::Actions;
use gb_action::change::{ChangeLists, InputChanges};
use gb_action::files::Files;
use gb_action::output_files::{OutputFiles, OutputSnapshots};
use gb_action::reply::{ActionFault, Reply};
use gb_action::request::Request;
use gb_action::run::{incremental, run_action, writes};
use gb_action::snapshot::Snapshots;
use gb_action::table::ActionTable;
use gb_action::values::{Arguments, NamedValues};
use gb_plan::task::{Action, Output, TaskDeclaration};
use gb_report::fault::Fault;
use std::alloc::{AllocError, Global};

/// Whether the table entry of an action writes files. Allocates no memory.
pub fn is_writer<A: Actions>(table: &ActionTable<A::Stored>, action: &Action) -> bool
    ensures { (stored : A.Stored) → find byte_order action.now.kind table.now ≡ Some stored
        → result ≡ writes_stored A.meanings stored }
{
    match table.find(action.kind.as_str()) {
        Ok(stored) => writes::<A>(stored),
        Err(_) => false,
    }
}

/// Whether the table entry of an action can answer incremental requests. Allocates no memory.
fn answers_changes<A: Actions>(table: &ActionTable<A::Stored>, action: &Action) -> bool
    ensures { (stored : A.Stored) → find byte_order action.now.kind table.now ≡ Some stored
        → result ≡ (shape_of A.meanings stored).incremental }
{
    match table.find(action.kind.as_str()) {
        Ok(stored) => incremental::<A>(stored),
        Err(_) => false,
    }
}

/// Whether exactly one action of the task writes files, and this action can answer incremental
/// requests. Then the task can execute incrementally. Allocates no memory.
pub fn has_one_writer<A: Actions>(table: &ActionTable<A::Stored>, task: &TaskDeclaration) -> bool
    requires ready { IsReady A.meanings table.now task.now }
    ensures agreed { (kinds : Kinds) → Agrees A.meanings table.now kinds
        → has_one_writer kinds task.now.actions ≡ result }
    ensures able { result ≡ true → AllByRecursion (CanGoOn A.meanings table.now) task.now.actions }
{
    let mut found = false;
    for action in task.actions.iter() {
        if is_writer::<A>(table, action) {
            if found || !answers_changes::<A>(table, action) {
                return false;
            }
            found = true;
        }
    }
    found
}

/// Calls an action. The request then has the arguments of this action.
pub fn ask<A: Actions>(
    alloc: Global,
    task: &TaskDeclaration,
    table: &ActionTable<A::Stored>,
    action: &Action,
    request: &mut Request,
) -> Result<Reply, Fault>
    requires ready { IsReadyAction A.meanings table.now task.now action.now }
    requires allowed { IsRequestOf task.now request.old }
    requires able { request.old.changes.incremental ≡ true → AnswersChanges A.meanings table.now action.now }
    ensures request { OnOk result (request.new ≡ record request.old { args = action.now.args }) }
    ensures answered { IfOk result (λ reply. (kinds : Kinds) → Agrees A.meanings table.now kinds
        → Answers (kinds.makes (kind_of action.now)) (kinds.prints (kind_of action.now))
        (record request.old { args = action.now.args }) (Ok reply)) }
    ensures err { IfErr result (λ fault. (fault ≡ Fault.OutOfMemory)
        ⊎ ((text : List ℕ) × (fault ≡ Fault.ActionFailed text)
        × ((kinds : Kinds) → Agrees A.meanings table.now kinds
        → made_by kinds task.now action.now request.old.files ≡ Err text))) }
{
    let Ok(stored) = table.find(action.kind.as_str()) else {
        return Err(Fault::UnknownAction(action.kind.copy()?));
    };
    request.args = action.args.copy(alloc)?;
    match run_action::<A>(stored, alloc, request) {
        Ok(reply) => Ok(reply),
        Err(ActionFault::OutOfMemory) => Err(Fault::OutOfMemory),
        Err(ActionFault::ActionFailed(text)) => Err(Fault::ActionFailed(text)),
    }
}
