//! The run of a task's actions: a full or an incremental execution.
//!
//! A run is computed first, as a value. [`work::Work`] has a part for each action, with its steps
//! and its lines. It also has the digests of all that is made, or the fault of the action that
//! fails. None of it depends on a folder. Then `work_parts` and `doing` carry out the steps, for
//! full and incremental executions alike. Their contract is one clause over any folder: which calls
//! were made, with which bytes. So nothing is changed before all actions were called and all files
//! checked. The cost: all files that one task makes are in memory until they are written. No call
//! has a premise about the folder.
//!
//! [`full_work::run_in_full`] starts from emptied outputs. An action's files are checked by place,
//! together with those of the actions before it, and written by place, in whatever order the action
//! lists them. Rejected: to ask the folder before each write whether it can be done, since that
//! would be a second access for each file. So an action one of whose writes is refused may leave
//! some of its first files.
//!
//! [`incremental_work::run_by_changes`] starts from the files at the outputs, if they were made of
//! the inputs as they were. The one action that writes (`has_one_writer`) gets a request for the
//! changes alone, and only the places that its reply names are touched. All that the task then
//! holds is checked. So if the actions are at fault, the fault is that of a full run. Rejected: to
//! empty the outputs first, which would lose right files if the run is stopped.
//!
//! Over any folder, `calls` has the list of calls that were made, with their bytes and results
//! (`RunsInFull`, `RunsByChanges`). Where contents are known, `ok` (`EndsWell`) and `err` (`Fails`)
//! say what is left. The laws (`laws.rt`, `change_laws.rt`) lead from these clauses to the
//! definitions of builds. So a failed run invents nothing, keeps the files that were right if it is
//! incremental, and prints the lines of the actions that ended.
//!
//! By the code, and in no clause: in a full run the contents of the inputs are held once for all
//! actions, and dropped before the first write. Each file is written once. The outputs are counted
//! one by one only if the task has made more files than one output may have. What four steps write
//! is digested together.
#![tactic(auto)]

mod after_reply;
mod calling;
pub mod calling_changes;
pub mod change_laws;
mod digests;
mod doing;
pub mod emptying;
mod existing;
pub mod full_work;
pub mod incremental_work;
pub mod laws;
mod placing;
mod planning;
mod relative;
mod reply_steps;
mod step_order;
pub mod work;
pub mod work_by_changes;
mod work_parts;
