//! What `gb_ask` prints: the outcome of each task in a build and why it would be executed, which
//! tasks there are, what is wrong with them, the plan as a picture, and the layout of scripts.
//!
//! Each question is a function `run` over any folder, in a module with its name; `reads` and
//! `makes` are in `place_query`. None has a premise. It reads the scripts as a build does, and takes
//! its answer from a crate below: `gb_predict`, `gb_check`, `gb_query`, `gb_picture`, `gb_format`.
//!
//! All but `fmt --write` ask for no change (`requests`, `same`), and `reported` says what is
//! printed: the arguments are refused, or they ask for something and this is the text of it or a
//! refusal. Where contents are known, the scripts are the folder's own, with the given values, and
//! a refusal is that of the scripts, of the request, or of the machine. Where a status is returned,
//! the whole text was printed and the status is its own; else a beginning of the text was.
//!
//! - `why`: a line or an object for each task of the plan, in its order, with the prediction of
//!   `gb_predict` (`IsReported`, `AreReportedOn`). A refusal is that of a build with the same
//!   arguments, also with `--dry-run`.
//! - `tasks`: exactly the registered tasks, in the order of registration.
//! - `graph`: the picture of exactly the tasks of the plan and of what each needs, must run after
//!   and is finalized by (`IsNodeOf`). With `--why` a task has the colour of the prediction that is
//!   for it and in its place (`with_tints`), of those that `why` has for the request, or of none
//!   (`ArePredicted`).
//! - `place_query`: what `search` of `gb_query` finds of the one place that the arguments name.
//! - `status`: what `inventory` of `gb_query` has, after whether a build runs. The program finds
//!   that out by trying the lock, and passes it on.
//! - `check`: what `find` of `gb_check` finds, as lines or in JSON (`IsCheckText`), faults first. Of
//!   the warnings one for exactly each value of `-P` that no `gradleProperty` of a script reads comes
//!   first, and one for exactly each task that has a record but is not registered last
//!   (`AreFindingsOf`). Where a
//!   statement is at fault, it is the one finding, with its line (`IsFoundAt`): where contents are
//!   known, the first fault of the scripts, at the statement at which it arises. No contract says
//!   that it is found where the scripts are refused for it: where they cannot be read once more,
//!   the reply is the refusal. The status is 1 exactly if there is a fault, or if memory runs out
//!   for the text.
//! - `fmt` treats the named files in their order, up to the first fault (`IsTreated`), over any
//!   folder. It prints the formatted text of what a read returned, or the name of a file that
//!   differs. Only with `--write` it writes: exactly the formatted text, at the named place, where
//!   the two differ. `-` is the input, and is printed with `--write` too. A file may also fail for
//!   want of memory (3), after its read or without one.
//!
//! What was set aside: `docs/DECISIONS.md#programs`.
//!
//! A program makes its tables and passes them to [`here::ask_here`]. That reads the arguments of the
//! command, runs the question that the first of them names over the current directory, prints the
//! answer and returns the exit status. `gb_ask` is such a program with only the built-in kinds. Of
//! `ask_here` it is promised that it never panics, and ends if its system calls end. To be read in
//! `here.rt`: that each word runs its function, with the words after it, over a new folder. `fmt
//! --write` alone takes the locks of a build. `status` tries to take a shared lock on the folder for
//! a moment, to find out whether a build runs, which keeps no other `status` from its answer.
#![tactic(auto)]

pub mod arguments;
pub mod check;
mod check_json;
mod drawing;
mod first_fault;
pub mod fmt;
pub mod graph;
pub mod here;
mod nodes;
pub mod place_query;
mod predicting;
mod printed_reply;
mod questions;
mod read_scripts;
pub mod status;
mod task_line;
pub mod tasks;
mod tints;
mod unread;
pub mod why;
mod why_json;
mod why_output;
