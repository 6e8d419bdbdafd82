//! Makes the plan of a build: the scheduled tasks in order, or the one reason why there is none.
//!
//! The promise of [`plan::plan`]: it is the plan that the definition gives, in which no two outputs
//! overlap and each reader comes after its producer; or the first fault in the order of refusals,
//! with the least tasks and place; or memory runs out. It has no premise and leaves the tasks as
//! they are.
//!
//! How it works, in steps. [`selection`] finds the tasks of the request's words, [`schedule`] all
//! that they need and that finalizes them, by a queue in which each task is declared once. From
//! there on tasks are numbers: the rank of a task's key, by word and path, among all keys
//! ([`ranked`]). [`order`] takes again and again the least task whose predecessors are placed; what
//! is left is on a cycle ([`cycle`]). [`chains`] computes for each task, as a row of bits, which
//! tasks come before it by a chain. With the chains the other rules are checked: of two tasks at
//! one place one has to wait for the other, and [`refusal`] reports the first of all faults. Places
//! that overlap are found by searches in one sorted row ([`overlaps`]), once for equal places
//! ([`last_overlap`]). Each search begins where the last one ended, so that together they pass over
//! the row once. Of the outputs of one task at most two are compared ([`near`]).
//!
//! Set aside: comparing each place with each other, since that takes the square of their number;
//! paths in place of numbers, since tables and rows of bits have an index by number; and the first
//! conflict that a loop finds: the least of all conflicts is reported, so that a request has one
//! fault, whatever the order of the search.
//!
//! The plan is `IsPlanOf`, a fault `IsRefusalOf` (`docs/REFERENCE.md#refusals` has their order).
//! [`tasks::Tasks`] is the trait of registered tasks that `plan` asks.
#![tactic(auto)]

mod arrange;
pub mod by_path;
mod chained;
mod chains;
mod conflicting;
mod cycle;
mod last_overlap;
mod least;
mod near;
mod order;
pub mod overlaps;
pub mod places;
pub mod plan;
mod plan_tables;
mod plans;
mod queue;
pub mod ranked;
mod reach;
mod refusal;
mod schedule;
mod selection;
pub mod tasks;
mod worded;
