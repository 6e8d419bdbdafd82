//! Builds: what most embedders of the tool need, except the kinds (`gb_kinds`) and their tables
//! (`gb_answer`).
//!
//! A folder holds scripts. [`invoke`] makes one build of it, [`run_events`] executes any list of
//! edits and builds, and [`run_from_nothing`] does so over an empty folder in memory.
//! [`read_words`] reads an [`Invocation`] from the arguments of a command line, [`render`] prints a
//! [`Report`]. [`Tables`] has the kinds and functions that scripts may name: `builtin_actions!` and
//! `builtin_functions!` of `gb_answer` make them.
//!
//! This crate also re-exports the single calls of which a build consists, in modules by purpose:
//! [`read_scripts`], [`plans`], [`trees`] and [`records`]
//! (`docs/CRATES.md#from-the-task-at-hand-to-the-call`).
//!
//! Inside, a build has three steps. [`workspace`] reads the settings and then, if they have no
//! fault, the scripts, each file once. [`invoking`] passes their declarations to [`requested`].
//! This plans, reads the records and executes the tasks. `specs/Words.antt` re-exports the
//! definitions that the contracts use.
//!
//! The crate carries the theorem (`docs/PROOF.md`). Its calls:
//!
//! | Call | What it does |
//! |---|---|
//! | `read_registry` | reads the settings and the script of each project, each file once, or reports the |
//! | | first fault |
//! | `build_requested` | (inside; call `invoke`, or `execute` for a plan) plans what is asked of any |
//! | | `Tasks`, reads the records, and executes the plan; each declared task has to be buildable |
//! | | (`AreBuildable`) |
//! | `invoke` | one invocation over the scripts of a folder: both of the above. That each declared |
//! | | task can be built is proved of what is read |
//! | `run_events` | any list of edits, lost records and invocations, each with its answer |
//! | `run_from_nothing` | the same over an empty folder in memory, where all premises are proved |
//!
//! `invoke` and `run_events` ask nothing of their caller. What they promise is of three sorts:
//!
//! - **Where contents are known and `IsAssumed` of `gb_records` holds** (kinds agree, and a stopped
//!   write leaves the old record, the new one, or none): each event is a step by the definitions
//!   (`holds`, `continues`), and `promise` is the theorem.
//! - **Where contents are known**, whatever the kinds and the device do: a refusal changes nothing
//!   and has its reason, a dry run changes nothing, and a build changes only `.gb` and the build
//!   folders of its projects. With the above, this is `KeepsPromise` of `invoke`.
//! - **Over any folder**: what is asked for, which tasks start and what each may answer
//!   (`IsInvocation`), what listeners hear and what is printed. While the folder's count of
//!   failures is below 2^64 - 1, no more faults are attributed to the device than it had, and never
//!   one of a script or a task.
//!
//! Laws: `folders_declare_one_thing` (a folder declares one thing, or has one fault),
//! `own_files_declare_nothing` (the files of `.gb` do not count for that), `scripts_give_one_plan`
//! (so the premise of `states_are_one` holds of scripts).
//!
//! What was set aside: `docs/DECISIONS.md#executions-and-runs`.
#![tactic(auto)]

mod before;
mod each_script;
mod edits;
pub mod events;
pub mod invoking;
pub mod laws;
pub mod nothing;
mod one_script;
pub mod plans;
pub mod read_scripts;
pub mod records;
mod requested;
pub mod trees;
pub mod workspace;

pub use crate::events::run_events;
pub use crate::invoking::invoke;
pub use crate::nothing::run_from_nothing;
pub use gb_action::change::{Change, InputChanges};
pub use gb_action::list::ActionList;
pub use gb_action::output_files::Form;
pub use gb_action::reply::{ActionFault, Reply};
pub use gb_action::request::Request;
pub use gb_action::run::{accepts, run_action};
pub use gb_action::shape::{Arg, ArgList, Fit, Parameter, Shape};
pub use gb_action::snapshot::Snapshot;
pub use gb_arguments::arguments::read as read_words;
pub use gb_core::bytes::Bytes;
pub use gb_core::name::Name;
pub use gb_core::path::{ProjectPath, TaskPath};
pub use gb_core::place::{Place, RelPath};
pub use gb_core::text::{Text, Texts};
pub use gb_core::value::Value;
pub use gb_disk::disk::DiskFolder;
pub use gb_exec::{
    ActionTable, Actions, Fault, Folder, FolderFault, Heard, Options, Outcome, Page, Plan, Planned,
    Printer, Record, Recorder, Report, Silent, TaskListener, TaskReport, TaskReports, execute,
};
pub use gb_folder::faulty::{FaultMode, FaultPlan, FaultyFolder};
pub use gb_folder::memory::MemoryFolder;
pub use gb_graph::tasks::Tasks;
pub use gb_history::decide::{Decision, Present};
pub use gb_history::history::History;
pub use gb_plan::task::TaskDeclaration;
pub use gb_project::script_tasks::ScriptTasks;
pub use gb_project::workspaces::Workspace;
pub use gb_provider::expression::Node;
pub use gb_provider::providers::Providers;
pub use gb_provider::table::TransformTable;
pub use gb_provider::transforms::Transforms;
pub use gb_registry::configured::Configured;
pub use gb_registry::registry::Registry;
pub use gb_registry::tables::Tables;
pub use gb_report::render::{render, render_fault};
pub use gb_script::script::{Script, Settings};
pub use gb_semantics::events::{Answer, Event, Invocation, Properties};
pub use gb_tree::pattern::Pattern;
pub use gb_tree::prints::Prints;
