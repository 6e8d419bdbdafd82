//! The prediction for the tasks of a plan.
ghost use Rattle.std.specs.Prelude.{◌≡◌, ◌≤◌, ◌++◌, ◌∷◌, ◌&&◌, [], ℕ, List, Some, false, IfOk};
ghost use Rattle.std.specs.Prelude.{OnOk, bytes_eq, if◌then◌else◌, is_some, length, map, option_copied};
ghost use Rattle.std.specs.List.{AllByRecursion, list_any, zip};
ghost use Rattle.gb_folder.specs.Calls.{OnlyReads};
ghost use Rattle.gb_folder.specs.Files.{is_own};
ghost use Rattle.gb_predict.specs.Prediction.{ArePredictedOf, IsPredictedOf, IsReasoned};
ghost use Rattle.gb_predict.specs.Least.{AreNotStarting};
ghost use Rattle.gb_predict.specs.Marks.{AreMarked, culprit, keeper, mark};
ghost use Rattle.gb_label.specs.Deciding.{HasNamesInOrder};
ghost use Rattle.gb_semantics.specs.Headline.{Agrees};
ghost use Rattle.gb_semantics.specs.Kinds.{Kinds};
ghost use Rattle.gb_plan.specs.Graph.{order};
ghost use Rattle.gb_graph.specs.Places.{AreSamePlaces, IsRising, places_from, with_places};
ghost use Rattle.gb_graph.specs.Ranked.{number_at};
ghost use Rattle.gb_plan.specs.Ready.{IsReady};
ghost use Rattle.gb_plan.specs.Task.{output_places};

use crate::marks::{keeper, mark, note_not_starting, outputs_by_place};
use crate::predicted_outcome::{PredictedOutcome, Prediction};
use crate::task::predicted_outcome;
use gb_action::actions::Actions;
use gb_action::table::ActionTable;
use gb_core::path::TaskPath;
use gb_folder::folder::Folder;
use gb_graph::by_path::Numbers;
use gb_graph::places::TaskPlace;
use gb_history::record::Record;
use gb_plan::plan::Planned;
use gb_plan::task::TaskDeclaration;
use gb_report::report::Options;
use std::alloc::{AllocError, Global};

/// The outcome of each task of a plan, if it were executed on the folder as it is, in the order of
/// the plan. `records` has what was read of their records, in that order. Nothing is changed.
pub fn predict<A: Actions, F: Folder>(
    alloc: Global,
    folder: &mut F,
    plan: &[Planned],
    table: &ActionTable<A::Stored>,
    options: Options,
    records: &[Option<Record>],
) -> Result<Vec<Prediction>, AllocError>
    requires ready { AllByRecursion (λ planned. IsReady A.meanings table.now planned.task) plan.now }
    requires in_order { AllByRecursion (λ planned. HasNamesInOrder planned.task) plan.now }
    requires each { length records.now ≡ length plan.now }
    ensures reads { OnlyReads F.device folder.old folder.new }
    ensures paths { IfOk result (λ reported. map (λ one. one.path) reported.items ≡ order plan.now) }
    // Over any folder there is a reason if a task runs for reasons.
    ensures reasoned { IfOk result
        (λ reported. AllByRecursion (λ one. IsReasoned one.coming) reported.items) }
    ensures marked { IfOk result (λ reported. AreMarked plan.now reported.items) }
    ensures prediction { F.device.faithful folder.new → (kinds : Kinds) → Agrees A.meanings table.now kinds
        → IfOk result (λ reported. ArePredictedOf kinds options (F.device.contents folder.old)
        (F.device.failures folder.old)
        (F.device.failures folder.new) plan.now records.now reported.items) }
{
    let row = outputs_by_place(alloc, plan)?;
    let reported = predict_each::<A, F>(
        alloc,
        folder,
        row.as_slice(),
        plan,
        table,
        options,
        records,
    );
    drop(row);
    reported
}

/// The predictions for the tasks of a plan, one after another. `row` has their outputs by place.
#[tactic(auto, using(crate::proofs::Lost::none_lost))]
fn predict_each<A: Actions, F: Folder>(
    alloc: Global,
    folder: &mut F,
    row: &[TaskPlace],
    plan: &[Planned],
    table: &ActionTable<A::Stored>,
    options: Options,
    records: &[Option<Record>],
) -> Result<Vec<Prediction>, AllocError>
    requires ready { AllByRecursion (λ planned. IsReady A.meanings table.now planned.task) plan.now }
    requires in_order { AllByRecursion (λ planned. HasNamesInOrder planned.task) plan.now }
    requires rising { IsRising row.now }
    requires of_plan { AreSamePlaces (with_places [] (places_from output_places 0 plan.now)) row.now }
    requires each { length records.now ≡ length plan.now }
    ensures reads { OnlyReads F.device folder.old folder.new }
    ensures paths { IfOk result (λ reported. map (λ one. one.path) reported.items ≡ order plan.now) }
    ensures reasoned { IfOk result
        (λ reported. AllByRecursion (λ one. IsReasoned one.coming) reported.items) }
    ensures marked { IfOk result (λ reported. AreMarked plan.now reported.items) }
    ensures prediction { F.device.faithful folder.new → (kinds : Kinds) → Agrees A.meanings table.now kinds
        → IfOk result (λ reported. ArePredictedOf kinds options (F.device.contents folder.old)
        (F.device.failures folder.old)
        (F.device.failures folder.new) plan.now records.now reported.items) }
{
    let mut reported = Vec::new(alloc);
    let mut not_starting = Numbers::new(alloc);
    for (at, planned) in plan.iter().enumerate() {
        let last = records[at].as_ref();
        let one = prediction::<A, F>(
            alloc,
            folder,
            row,
            plan,
            reported.as_slice(),
            &not_starting,
            planned,
            table,
            options,
            last,
        )?;
        keep(
            &mut not_starting,
            &mut reported,
            &planned.task.path,
            at,
            one,
        )?;
    }
    Ok(reported)
}

/// Adds a prediction, and notes its task by its number if it does not start.
fn keep<'a>(
    not_starting: &mut Numbers<'a>,
    reported: &mut Vec<Prediction>,
    path: &'a TaskPath,
    number: usize,
    one: Prediction,
) -> Result<(), AllocError>
    ensures noted { OnOk result ((other : List ℕ) → number_at not_starting.new other
        ≡ (if is_some (culprit one) && bytes_eq path.now other then Some number
        else number_at not_starting.old other)) }
    ensures items { OnOk result (reported.new.items ≡ reported.old.items ++ one ∷ []) }
{
    match note_not_starting(not_starting, path, number, &one) {
        Ok(()) => push(reported, one),
        Err(error) => {
            drop(one);
            Err(error)
        }
    }
}

fn push(reported: &mut Vec<Prediction>, one: Prediction) -> Result<(), AllocError>
    ensures { OnOk result (reported.new.items ≡ reported.old.items ++ one ∷ []) }
{
    reported.push(one)?;
    Ok(())
}

/// The prediction for a task, given those for the tasks before it.
fn prediction<A: Actions, F: Folder>(
    alloc: Global,
    folder: &mut F,
    row: &[TaskPlace],
    plan: &[Planned],
    reported: &[Prediction],
    not_starting: &Numbers<'_>,
    planned: &Planned,
    table: &ActionTable<A::Stored>,
    options: Options,
    last: Option<&Record>,
) -> Result<Prediction, AllocError>
    requires ready { IsReady A.meanings table.now planned.now.task }
    requires in_order { HasNamesInOrder planned.now.task }
    requires rising { IsRising row.now }
    requires of_plan { AreSamePlaces (with_places [] (places_from output_places 0 plan.now)) row.now }
    requires each { length reported.now ≤ length plan.now }
    requires not_starting { AreNotStarting reported.now not_starting.now }
    ensures reads { OnlyReads F.device folder.old folder.new }
    ensures path { IfOk result (λ one. one.path ≡ planned.now.task.path) }
    ensures reasoned { IfOk result (λ one. IsReasoned one.coming) }
    ensures marked { IfOk result (λ one.
        one.after ≡ mark (zip plan.now reported.now) planned.now.task one.coming) }
    ensures needs { IfOk result (λ one. one.kept_by ≡ keeper planned.now.task reported.now) }
    ensures prediction { F.device.faithful folder.new → (kinds : Kinds) → Agrees A.meanings table.now kinds
        → IfOk result (λ one. IsPredictedOf kinds options planned.now.task (F.device.contents folder.old)
        (option_copied last.entry) (F.device.failures folder.old) (F.device.failures folder.new) one.coming) }
{
    let path = planned.task.path.copy()?;
    let coming = predicted_outcome::<A, F>(alloc, folder, &planned.task, table, options, last);
    match marks(
        alloc,
        row,
        plan,
        reported,
        not_starting,
        &planned.task,
        &coming,
    ) {
        Ok((after, kept_by)) => Ok(Prediction {
            path,
            coming,
            after,
            kept_by,
        }),
        Err(fault) => {
            drop(coming);
            Err(fault)
        }
    }
}

/// Both marks of a task: which task may change what it finds, and which one keeps it from starting.
fn marks(
    alloc: Global,
    row: &[TaskPlace],
    plan: &[Planned],
    reported: &[Prediction],
    not_starting: &Numbers<'_>,
    task: &TaskDeclaration,
    coming: &PredictedOutcome,
) -> Result<(Option<TaskPath>, Option<TaskPath>), AllocError>
    requires rising { IsRising row.now }
    requires of_plan { AreSamePlaces (with_places [] (places_from output_places 0 plan.now)) row.now }
    requires each { length reported.now ≤ length plan.now }
    requires not_starting { AreNotStarting reported.now not_starting.now }
    ensures { IfOk result (λ found. (found.0 ≡ mark (zip plan.now reported.now) task.now coming.now)
        × (found.1 ≡ keeper task.now reported.now)) }
{
    let after = mark(alloc, row, plan, reported, task, coming)?;
    let kept_by = keeper(task, reported, not_starting)?;
    Ok((after, kept_by))
}
