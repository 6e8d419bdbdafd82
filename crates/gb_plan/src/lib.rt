//! What a build runs: the types of declared tasks and of plans, and the definition of a plan.
//!
//! The promise: a request has at most one plan, at most one fault for which it is refused, and
//! never both. These are laws of the definitions (`plans_are_one`, `refusals_are_one`,
//! `refusals_exclude_plans`); `gb_graph` has the code that makes a plan.
//!
//! A [`plan::Plan`] has the scheduled tasks in the order in which they run, each with all its
//! expressions evaluated. It answers `order`, `declaration`, `is_scheduled`, `is_selected`, `needs`
//! and `is_finalizer_of` without memory, each by at most two scans of the tasks.
//!
//! Set aside: a look-up of a declaration by the path that it contains. It is looked up by the path
//! under which it is registered, so that a plan and a fault of a task exclude each other without a
//! premise on what scripts register. Out of scope: an index of a plan; `gb_exec` numbers its tasks.
#![tactic(auto)]

pub mod laws;
pub mod plan;
pub mod task;
