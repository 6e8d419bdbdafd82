//! Reads the arguments of a command line as the invocation of a build.
//!
//! `clap` splits the arguments into options and tasks. Its definitions specify what it finds in the
//! arguments for a command that it knows. This crate defines that command, `gb_command`, and what
//! is made of the matches.
//!
//! `read` returns what `clap` finds, or the first fault (96, 58, 1), or out of memory (3). The law
//! `values_are_one` says that the texts give one list of values. No call has a premise.
//!
//! Set aside: a reader of its own, since the definitions of `clap` say what it finds. Out of scope:
//! options for help and for a version; the first argument of `gb_ask`, which `gb_ask_command`
//! reads; and whether a requested task exists, which `gb_registry` finds.
#![tactic(auto)]

pub mod arguments;
mod given_values;
pub mod laws;
