//! What the programs share: the text that is printed of a build, its exit status, and the macros
//! that make their tables of kinds and of functions.
//!
//! The status (`status_of`) is 0 after success, 2 for arguments that ask for no build (96), else 1.
//! `print_rest` prints what comes after the parts of the tasks; of a refusal and of a dry run that
//! is everything. `builtin_actions!` and `builtin_functions!` make the tables of all kinds and all
//! functions of values. They return from the function that uses them if memory runs out.
//!
//! The promise: each text and the status are those that a definition (`specs/Answer.antt`) gives of
//! the report or the refusal, or memory runs out.
//!
//! Set aside: functions in place of the macros, since boxed closures have to be made by the program
//! itself; and ten boxes in one function, since each way out of it drops them all, which is
//! expensive to prove. So [`boxes`] makes five at a time.
#![tactic(auto)]

pub mod answer;
pub mod boxes;
mod builtin_tables;
pub mod printing;
