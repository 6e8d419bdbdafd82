//! The prediction of a build: the outcome of each task of a plan on the folder as it is, and why it
//! would run. Nothing is changed.
//!
//! How it works: each task is decided on by the code of an execution (`gb_label::prepare`), and
//! nothing more is done. So there is no second code for the decision. The reasons come from what an
//! execution would be based on. They are the differences between the record of the task and what it
//! has now. A task is marked if it reads an output of an earlier task that may change.
//!
//! `predict` takes a plan of tasks that are ready and the record or none of each. Over any folder
//! it asks for no change, names the tasks in the plan's order, gives a reason for each that runs
//! for reasons, and marks a task after one that may change what it reads, or that cannot be read
//! now (`AreMarked`). Where contents are known, each prediction is the one of the definitions, with
//! the reasons of `gb_reason` (`IsPredictedOf`).
//!
//! `predictions_are_kept` and `folder_predictions_are_kept` are the laws on builds: a build of a
//! sound plan ends each task without the mark `after` that starts, up to the first that fails, as
//! it was predicted, or by a failure of the machine (`AreKept`), and prints what it prints there.
//! The first law has as a premise that the reasons of an incremental run are its changes
//! (`IsPredicted`). The second one proves that premise. It assumes that the records are those of a
//! true memory, that no two contents share a digest, and that no prediction is a failure of the
//! machine (`IsOfFolder`). Both leave out a task that does not start. Before the first failure
//! there is none, which the laws do not say.
//!
//! What was set aside: `docs/DECISIONS.md#executions-and-runs`.
#![tactic(auto)]

mod explained;
pub mod laws;
mod marks;
pub mod predict;
pub mod predicted_outcome;
mod task;
