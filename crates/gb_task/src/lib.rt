//! The execution of one started task: decide, run, and store its record.
//!
//! How it works: all that the task needs is read before the first change (`gb_label`). Then it
//! deletes the record of the task, runs its actions, and stores a new record. The new record has
//! the inputs that the actions worked on, and the outputs as the actions made them, whatever is in
//! the folder by then. So if a build is stopped after the record was deleted and before the new one
//! is stored, the next build finds no record, and if the task has to run, executes it in full. A full
//! execution empties the outputs first. An incremental execution starts from
//! the files at the outputs, and keeps those that are right, also where it fails.
//!
//! A file that an earlier task made is an output there and an input here. So the digests of the
//! outputs of tasks that are up to date are remembered (`DigestCache` of `gb_tree`) until the build asks
//! for a change, and a task is first decided by these: if it is up to date by them, no remembered
//! file is read again. In any other case all is read, as above.
//!
//! `execute_task` executes a task; `last` is the record that was read of it. Premises: the task
//! `IsBuildable`, its outputs do not overlap, and it reads none of them. Where contents are known
//! and kinds agree, the execution is that of the definitions (`HasExecuted`). Over any folder:
//!
//! - `answer`: which outcomes there may be, and which print nothing; `alone`: a task that is
//!   skipped or has no actions is reported so.
//! - `requests` (`ExecutionRequests`): what the execution asks for, by its outcome
//!   (`docs/PROOF.md#over-a-disk`).
//!
//! Its steps are the crate's own: `settle` decides, and changes nothing; then
//! `execute_without_source`, `execute_in_full` or `execute_by_changes` does what is due.
//! `recheck_task` reads what was not kept, and decides again on the digests of exactly what the run
//! works on, whoever else writes in the folder (`IsRecheck`).
//!
//! | Laws (`laws.rt`) | What they say |
//! |---|---|
//! | `unread_executions_keep` | an execution that ends before it has read asks for no change of its |
//! | | record and outputs |
//! | `full_runs_are_true` | the record that a full run stores is true (`IsTextOfTrue`) |
//! | `runs_by_changes_stay_true` | so is that of an incremental run, if the record that it was based on |
//! | | is true, and no two contents share a digest |
//! | `up_to_date_is_made` | on the same two conditions, the outputs of a task that is up to date are |
//! | | what its actions make |
//!
//! The executor decides by digests. The laws of [`case_laws`] say that a decision by whole contents
//! is the same.
//!
//! What was set aside: `docs/DECISIONS.md#executions-and-runs`.
#![tactic(auto)]

mod adding;
mod before_changes;
mod by_cache;
pub mod case_laws;
mod clearing;
pub mod execution;
mod full;
mod incremental;
mod incremental_run;
mod keeping;
pub mod laws;
mod recheck;
mod sourceless;
