//! The outcome of one task, if it were executed now: what an execution decides, without doing it.
ghost use Rattle.std.specs.Prelude.{◌≡◌, Bool, IfErr, IfOk, not, option_copied};
ghost use Rattle.gb_folder.specs.Calls.{OnlyReads};
ghost use Rattle.gb_folder.specs.Files.{is_empty};
ghost use Rattle.gb_predict.specs.Prediction.{IsPredictedOf, IsReasoned, reported_of};
ghost use Rattle.gb_label.specs.Deciding.{HasNamesInOrder};
ghost use Rattle.gb_label.specs.Reading.{CannotRead};
ghost use Rattle.gb_semantics.specs.Headline.{Agrees};
ghost use Rattle.gb_semantics.specs.Kinds.{Kinds};
ghost use Rattle.gb_semantics.specs.Memory.{output_files};
ghost use Rattle.gb_semantics.specs.Tree.{listing_faults};
ghost use Rattle.gb_plan.specs.Ready.{IsReady};

use crate::explained::explained;
use crate::predicted_outcome::PredictedOutcome;
use gb_action::actions::Actions;
use gb_action::table::ActionTable;
use gb_folder::folder::Folder;
use gb_history::record::Record;
use gb_label::prepare::{Prepared, prepare};
use gb_plan::task::TaskDeclaration;
use gb_report::fault::Fault;
use gb_report::report::Options;
use gb_run::emptying::listed_outputs;
use gb_tree::digest_cache::DigestCache;
use std::alloc::Global;

/// The outcome of a task on the folder as it is. `old` is the record that was read of it.
pub(crate) fn predicted_outcome<A: Actions, F: Folder>(
    alloc: Global,
    folder: &mut F,
    task: &TaskDeclaration,
    table: &ActionTable<A::Stored>,
    options: Options,
    old: Option<&Record>,
) -> PredictedOutcome
    requires ready { IsReady A.meanings table.now task.now }
    requires in_order { HasNamesInOrder task.now }
    ensures reads { OnlyReads F.device folder.old folder.new }
    // Over any folder there is a reason if it runs for reasons.
    ensures reasoned { IsReasoned result }
    ensures prediction { F.device.faithful folder.new → (kinds : Kinds) → Agrees A.meanings table.now kinds
        → IsPredictedOf kinds options task.now (F.device.contents folder.old) (option_copied old.entry)
        (F.device.failures folder.old) (F.device.failures folder.new) result }
{
    let seen = DigestCache::new(alloc);
    match prepare(alloc, folder, task, options, old, &seen, false) {
        Ok(Prepared::Skips) => PredictedOutcome::Skips,
        Ok(Prepared::HasNoActions) => PredictedOutcome::HasNoActions,
        Ok(Prepared::HasNoSource) => reported(sourceless(alloc, folder, task)),
        Ok(Prepared::Decided(decision, basis, observed)) => {
            drop(observed);
            explained::<A>(alloc, task, table, old, &decision, &basis)
        }
        Err(fault) => PredictedOutcome::CannotRead(fault),
    }
}

/// The prediction for a task that has no source: whether files at its outputs are removed.
fn sourceless<F: Folder>(
    alloc: Global,
    folder: &mut F,
    task: &TaskDeclaration,
) -> Result<PredictedOutcome, Fault>
    ensures reads { OnlyReads F.device folder.old folder.new }
    ensures reasoned { IfOk result IsReasoned }
    ensures removes { F.device.faithful folder.new → IfOk result (λ coming. (removes : Bool)
        × (coming ≡ PredictedOutcome.HasNoSource removes)
        × (removes ≡ not (is_empty (output_files task.now (F.device.contents folder.old).files)))) }
    ensures err { F.device.faithful folder.new
        → IfErr result (CannotRead (F.device.failures folder.old) (F.device.failures folder.new)
        (listing_faults task.now (F.device.contents folder.old))) }
{
    let places = listed_outputs(alloc, folder, task.outputs.as_slice())?;
    Ok(PredictedOutcome::HasNoSource(!places.as_slice().is_empty()))
}

/// The prediction for a task, from the result of reading it.
fn reported(found: Result<PredictedOutcome, Fault>) -> PredictedOutcome
    ensures { result ≡ reported_of found }
{
    match found {
        Ok(coming) => coming,
        Err(fault) => PredictedOutcome::CannotRead(fault),
    }
}
