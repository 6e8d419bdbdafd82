//! Queries about the current folder, with the built-in kinds and functions: `gb_ask why`, `tasks`,
//! `graph`, `check`, `reads`, `makes`, `status` and `fmt`. It changes nothing except by `fmt
//! --write`.
//!
//! Proved: that the program never panics, and that it ends if its system calls end. `data` is a
//! folder with records: the gate runs `gb_ask why` over it, and `docs/GUIDE.md#why-did-it-run`
//! shows what is printed.
//!
//! It makes the tables of the built-in kinds and functions, and `here::ask_here` of
//! `gb_ask_command` does the rest.
//!
//! Set aside: an option of `gb` in place of a program, since no contract of a build says that no
//! change is asked for. A query that changes nothing does not wait for a build, so during one it
//! may describe a folder half done.
#![tactic(auto)]

use gb_action::table::ActionTable;
use gb_answer::{builtin_actions, builtin_functions};
use gb_ask_command::here::ask_here;
use gb_cli::program::UNPRINTED;
use gb_kinds::builtin::{Builtin, StoredAction};
use std::alloc::AllocError;
use std::process::ExitCode;

fn main(rt: HostRuntime) -> ExitCode {
    ExitCode::from(asked(&rt).unwrap_or(UNPRINTED))
}

/// Runs the query with all actions.
fn asked(rt: &HostRuntime) -> Result<u8, AllocError> {
    asked_with(rt, builtin_actions!(rt.alloc()))
}

/// Runs the query with these actions and all functions of values.
fn asked_with(rt: &HostRuntime, actions: ActionTable<StoredAction>) -> Result<u8, AllocError> {
    let transforms = builtin_functions!(rt.alloc());
    Ok(ask_here::<Builtin, Builtin, _>(rt, Ok(actions), transforms))
}
