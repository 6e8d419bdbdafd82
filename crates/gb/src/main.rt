//! Builds the current folder: `gb [WORD..]`, with the built-in kinds and functions.
//!
//! Proved: that it never panics, and that it ends if its system calls end. Tested: that builds of a
//! real folder do what those in memory do.
//!
//! It makes the tables of the built-in kinds and functions, and `here::build_here` of `gb_here`
//! does the rest.
//!
//! Set aside: logic in the program, since only that of a library can be promised and tested
//! separately; and an option that explains a build, since the contract of `gb_ask` says that it
//! asks for no change, and that of a build cannot.
#![tactic(auto)]

use gb_action::table::ActionTable;
use gb_answer::{builtin_actions, builtin_functions};
use gb_cli::program::UNPRINTED;
use gb_here::here::build_here;
use gb_kinds::builtin::{Builtin, StoredAction};
use std::alloc::AllocError;
use std::process::ExitCode;

fn main(rt: HostRuntime) -> ExitCode {
    ExitCode::from(built(&rt).unwrap_or(UNPRINTED))
}

/// Builds it with all actions.
fn built(rt: &HostRuntime) -> Result<u8, AllocError> {
    built_with(rt, builtin_actions!(rt.alloc()))
}

/// Builds it with these actions and all functions of values.
fn built_with(rt: &HostRuntime, actions: ActionTable<StoredAction>) -> Result<u8, AllocError> {
    let transforms = builtin_functions!(rt.alloc());
    Ok(build_here::<Builtin, Builtin, _>(rt, Ok(actions), transforms))
}
