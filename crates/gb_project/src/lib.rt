//! All tasks that scripts register: declared at once, realised when they are requested, and given
//! to plans.
//!
//! The promise: a task realises to the declaration of its path or to its first fault, whatever else
//! was realised before. Each path is there once, and a declaration names only registered tasks and
//! has its outputs under the build folder of its project.
//!
//! A [`workspaces::Workspace`] has each task's clauses by its path, and the providers that they
//! use. A task that no build requests is never evaluated, so a fault in it affects nobody.
//! [`script_tasks::ScriptTasks`] is the same in the form that a plan requests.
//!
//! [`evaluating`] evaluates a declared task, up to its first fault in the order of its parts, and
//! leaves the providers unchanged. It takes the nodes of the task in a row, as `add_task` of
//! `gb_declare` makes them, and cuts the row by the number of expressions of each part
//! (`ReportsOf`). A [`context::Context`] has the tables of a program, the projects, the registered
//! tasks, and the fault of each that is not declared. `ask`, `require`, `require_place`,
//! `require_flag` and `passes` return the value of a node in the whole table, its fault, or out of
//! memory (`ReportsOver`). A circle is reported by its names in the table of all scripts.
//!
//! Set aside: declaring on demand, which would walk from task to task for each read.
//!
//! `Workspace::declare` takes a `Configured` without further premise. The first fault that
//! `Workspace::realise` reports is one of the task's declaration (as `declare` of `gb_declare` has
//! them), one of its expressions as they are evaluated, or 50 or 52 if no such task is registered.
//! Laws: `tasks_in_table`, `tasks_are_good`, `declared_names_rise`.
#![tactic(auto)]

mod conditions;
pub mod context;
mod declared_task;
pub mod evaluating;
mod file_properties;
mod input_values;
mod named;
mod needs;
mod one_value;
mod output_values;
mod outputs;
pub mod parts;
pub mod properties;
mod registering;
mod reporting;
mod row_values;
pub mod script_tasks;
mod scripts;
mod task_actions;
mod task_blocks;
mod task_declaring;
pub mod task_laws;
pub mod workspace_laws;
pub mod workspaces;
