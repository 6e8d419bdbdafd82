//! Laws of predictions, each the contract of a function that does nothing.
ghost use Rattle.gb_predict.specs.Predicted.{FolderPredictionsAreKept, PredictionsAreKept};

use gb_reason::laws::changes_are_reasons;
use gb_task::case_laws::{
    decided_outside, decision_is_case, runs_are_of_case, what_is_read_is_known,
};

/// The rules of a build.
pub trait Build {
    ghost use Rattle.gb_semantics.specs.Execution.{Rules};

    /// What its kinds of actions mean, its options, what the machine may do, and its plan.
    ghost rules: { Rules };
}

/// A task that is predicted without a mark ends in a build as predicted, up to the first task that
/// fails.
pub fn predictions_are_kept<B: Build>()
    ensures { PredictionsAreKept B.rules }
{}

/// The same for predictions by the records of a folder.
pub fn folder_predictions_are_kept<B: Build>()
    ensures { FolderPredictionsAreKept B.rules }
{
    decision_is_case();
    decided_outside();
    what_is_read_is_known();
    runs_are_of_case();
    changes_are_reasons();
}
