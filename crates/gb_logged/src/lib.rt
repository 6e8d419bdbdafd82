//! A folder that keeps each call of a build with its answer.
//!
//! [`LoggedFolder`](logged::LoggedFolder) passes every call to its inner folder and keeps it, the
//! readings too, in order: for tests, and for laws about the calls of a build. `specs/Logged.antt`
//! has what is kept as calls of `gb_folder`, and `LogsCalls`: each state of a folder keeps the
//! calls that led to it. `logged_folders_keep_calls` is that law.
//!
//! A reading is made, and then kept with a copy of its answer; without memory for the copy its
//! answer is `OutOfMemory`. A write or a removal is made only where there is room to keep it.
//!
//! Set aside: to make the kept calls again, to print them, and a limit on how many are kept.
#![tactic(auto)]

pub mod laws;
pub mod logged;
