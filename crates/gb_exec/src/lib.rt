//! The execution of a plan, task by task.
//!
//! [`execute`] executes the tasks of a [`Plan`] in order over a [`Folder`], from the records that
//! [`read_records`] has read. Each [`TaskListener`] is notified when a task starts and when it
//! ends, the part of each task is printed once it has ended, and a [`Report`] has the outcome of
//! each.
//!
//! How it works: `may_start` decides which tasks start, by the outcomes of those before them. For
//! each that starts, the listeners are notified, `gb_task` executes it, the listeners are notified
//! again, and its part of the report is printed. While nothing is out of date, the files of later
//! tasks are read ahead (`ahead`). Memory for the report is reserved before the first task, so that
//! a build that has begun always has one. A dry run executes nothing.
//!
//! Whoever builds from scripts calls `gb_build`. `specs/Words.antt` re-exports the definitions that
//! the contract of [`execute`] names, so that the clauses of a caller can use them.
//!
//! Premises of `execute`: each task of the plan can be executed (`CanBuild`), and there is a record
//! or none for each. `build`: where contents are known, kinds agree (`IsAssumed`) and the records
//! are those that are remembered (`AreTrueBefore`), it is a build of the plan by the definitions,
//! as long as no two contents so far share a digest (`HasBuilt`). `outline`: over any folder,
//! which tasks start, and which outcomes each may have, but not which of these outcomes a started
//! task with actions has, with which fault it fails, nor what it prints if it ran or failed.
//!
//! `starts_of`, `does_start` and `has_executed_need` decide by number which tasks start, from the
//! outcomes that `end` records; all of these but `starts_of` take no memory. `starts_by_number` and
//! `needs_by_number` are the laws that this is the definition by path (`Execution.DoesStart`).
//! `reported_more` and `reported_is_heard` are the laws of listeners.
//!
//! What was set aside: `docs/DECISIONS.md#executions-and-runs`.
#![tactic(auto)]

mod ahead;
pub mod building;
mod dry;
mod executions;
mod heard_laws;
pub mod listener;
mod may_start;
pub mod notifying;
mod numbered_tasks;
mod one_task;
mod start_laws;

pub use crate::building::execute;
pub use crate::listener::{Recorder, TaskListener};
pub use gb_action::actions::Actions;
pub use gb_action::table::ActionTable;
pub use gb_folder::folder::{Folder, FolderFault};
pub use gb_history::record::Record;
pub use gb_plan::plan::{Plan, Planned};
pub use gb_printer::page::Page;
pub use gb_printer::printer::{Printer, Silent};
pub use gb_records::stored_records::read_records;
pub use gb_report::fault::Fault;
pub use gb_report::report::{Heard, Options, Outcome, Report, TaskReport, TaskReports};
