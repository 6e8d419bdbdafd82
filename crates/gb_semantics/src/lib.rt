//! What a build promises, and any list of events: definitions over all the crates below, and their
//! laws.
//!
//! There is no other code: each law is the contract of a function that does nothing. It holds of
//! whatever keeps the definitions, as `run_events` of `gb_build` does. What scripts declare, how a
//! record reads and the digest are parameters (`Setting`), which the crates above give. So the
//! definitions can be read before any code, and no definition is the loop of a program.
//!
//! `specs/Execution` says how the execution of one task may end, `specs/Events` one event,
//! `specs/Headline` a list of events, and `specs/Scratch` what a clean build makes, without
//! outcomes, records or old outputs. The laws lead from the first to the last.
//!
//! | Laws | About |
//! |---|---|
//! | `success_is_from_scratch`, `truth_is_kept` | one build |
//! | `every_success_is_from_scratch`, `clear_run_is_unconditional`, `headline` | a list of events |
//! | `headline_of_sessions` | many runs with edits by others in between, each with its tables and its |
//! | | device |
//! | `ended_is_made`, `up_to_date_is_made` | the run of one task's actions; a task that is up to date |
//! | `states_are_one` | the states of a run are determined by its answers, if no task failed and |
//! | | nothing was hindered |
//! | `some_kinds_agree` | kinds agree with any table without a repeated name |
//! | `premises_hold_in_memory` | the premises hold of an empty folder in memory |
//!
//! `proofs/Rows` has worked builds, and what the definitions refuse.
//!
//! What was set aside: `docs/DECISIONS.md#executions-and-runs`.
#![tactic(auto)]

pub mod events;
pub mod laws;
