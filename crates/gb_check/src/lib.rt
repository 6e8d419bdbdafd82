//! What is wrong with registered tasks, found before any of them is requested: their faults, and
//! warnings.
//!
//! [`find`](crate::find::find) takes a folder, tasks with their paths (its premise), and the
//! scripts that register them. It asks for no change, and returns faults and warnings, each with
//! its place (`AreFindings`).
//!
//! - The faults are first exactly those of the words of `defaultTasks` (`AreDefaultsFound`), then
//!   exactly those of the tasks, in the order of registration, each as builds report it. Where no
//!   task has one, they are exactly why there is no plan of all tasks (`IsFound`, `IsFoundInPlan`).
//! - Silence (`IsSilent`): where no fault is found, nothing that is requested and excluded is
//!   refused for a task. What is left is want of memory, the fault of one of these words, and that
//!   of a plan (60 to 63).
//! - The warnings are exactly those of four of the six sorts (`docs/GUIDE.md#what-is-wrong`), over
//!   the tasks without a fault (`AreWarnings`); `gb_ask_command` adds those of given values and of
//!   records. Those of roots at which nothing is are exact where contents are known.
//!
//! The clauses of a task are checked once more, each by itself, with their lines: a fault has the
//! line of the first clause that has one. A fault of a value is of no clause by itself: it has the
//! line of the one clause whose name it has, else that of the statement that registers the task.
//! Rejected: to carry the clause of each value through the registry, since this would change every
//! fault of a build.
//!
//! Not promised: that the clause is the cause. It can have the word by chance, where the fault is
//! one of another task whose output is read (1, 31, 34, 40, 50, 52, 70). A task that no script
//! registers would be printed without a line. Warnings and faults of plans have the line of a
//! registration.
//!
//! `finding_text.rt` has the lines that are printed. `statement_spot` has the line of a statement
//! by its number in a script (`IsStatementSpot`). Lines are those of the files where contents are
//! known.
#![tactic(auto)]

mod all_places;
mod bare;
mod between;
mod checking;
pub mod clause_lines;
mod common_roots;
mod declared;
mod default_words;
mod fault_line;
pub mod find;
pub mod finding_text;
pub mod findings;
mod guarded;
pub mod laws;
pub mod sites;
pub mod statement;
mod warning;
mod whole_plan;
