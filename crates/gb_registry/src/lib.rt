//! What settings and scripts register: projects, properties and tasks, whose expressions are not
//! yet evaluated.
//!
//! The promise: [`registry`] has exactly what the scripts register, or the first fault: statement
//! by statement, and after all statements those of tasks that values name. That a
//! [`configured::Configured`] has no fault is a fact of its type, so whoever declares tasks from
//! one needs no premise.
//!
//! Scripts are checked in one pass ([`checking`]) with the state of the statements before
//! ([`so_far`]): the tasks of all scripts, and the properties of the script itself. A look-up of a
//! task or a project takes one hash.
//!
//! `projects` has the projects of the settings, `select` the tasks that a word selects.
//! `Registry::configure` has what the scripts register, with the tables that they were checked
//! against; `Registry::configure_projects` is the same where the projects have been made, as for a
//! reading of their scripts. It registers no path twice (`paths_are_new`). `first_fault` has the
//! fault for which it is refused, and the statement at which that arises (`IsFirstAt`).
//!
//! Set aside: a look-up of the tasks that values name in the same pass, since a value may name a
//! task that a later statement or script registers. Out of scope: what a task declares
//! (`gb_declare`), and the values of its expressions (`gb_project`).
#![tactic(auto)]

pub mod checking;
mod configure;
pub mod configured;
pub mod first_fault;
pub mod laws;
mod missing;
pub mod names;
pub mod operands;
pub mod paths;
pub mod project;
pub mod projects;
mod registered;
pub mod registry;
mod so_far;
pub mod tables;
pub mod unique_texts;
pub mod wrong;
