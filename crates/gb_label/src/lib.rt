//! The outcome of a task that starts, decided before anything is changed: it is skipped, has no
//! source, is up to date, or has to run, incrementally or in full.
//!
//! Why: the decision and the run must be based on one reading of the files. A decision needs
//! digests alone, a run needs contents.
//!
//! How it works: for the decision the inputs and the outputs are read once, and kept in memory up
//! to a budget; which contents are kept is left open. The run reads and digests again what was not
//! kept. So the digests that a record gets are those of the very contents that the actions worked
//! on.
//!
//! The promise: `prepare` decides (`IsPrepared`): skipped, without actions or source
//! (`early_case`), or, by the record of the task and the digests of what it has now, up to date,
//! incremental or full. It also returns what the decision goes by (`goes_by`), so `gb_predict` has
//! no decision of its own, and what it has read (`Observed`), which `complete_inputs` and
//! `complete_outputs` complete to whole contents for the run. Its one premise: the names of the
//! task's values, file properties and outputs ascend (`HasNamesInOrder`). It changes nothing.
//!
//! Where contents are known, the decision is exact, and an error is the first of what hinders
//! reading the inputs or listing the outputs (`IsHindered`), or a fault of the machine. Over any
//! folder the decision goes by what calls returned (`WasPrepared`): a task is without source, or up
//! to date by its record, on just this. Preparing a skipped task, or one without actions, does not
//! fail; by the code, and in no clause, it reads nothing. Only a task with outputs and no
//! false `upToDateWhen`, of which no rerun is requested, is decided to be up to date (`may_decide`).
//!
//! What was set aside: `docs/DECISIONS.md#executions-and-runs`.
#![tactic(auto)]

mod completing;
pub mod deciding;
pub mod early_outcomes;
mod fault;
pub mod inputs;
pub mod new_record;
mod output_listing;
pub mod outputs;
pub mod prepare;
mod present;
mod prints;
