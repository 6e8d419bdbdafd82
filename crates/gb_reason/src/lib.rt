//! Why a task runs: how its record differs from what it has now.
//!
//! There is a reason exactly if a task is not up to date, and each reason is true of its record and
//! of what it has now. `explain` returns the reasons of the definition, in its order (`reported`),
//! and none exactly if the task is up to date by `Decides` (`none`). Laws: `each_is_real`,
//! `none_is_up_to_date`, and `changes_are_reasons` (if a task may run incrementally, the reasons
//! are just the changes that its actions get).
//!
//! What was set aside: `docs/DECISIONS.md#executions-and-runs`.
#![tactic(auto)]

mod differing;
pub mod explain;
pub mod laws;
pub mod reason;
pub mod reason_text;
