//! `gb` with three kinds of its own: `upperCase` makes of each file the same in capital letters,
//! `headed` puts a line before each file, and `wholeLines` fails if the last line of a file has no
//! end.
//!
//! An example of `docs/EMBEDDING.md`. Proved: that each kind makes what its definition says, that
//! the program never panics, and that it ends if its system calls end.
//!
//! Two kinds are a `FileKind` and the third a `TryFileKind` of `gb_with`. The program joins their
//! tables with that of the built-in kinds, and `here::build_here` of `gb_here` does the rest.
//!
//! Out of scope: kinds that work on all files at once (`gb_pages` has some), and functions of
//! values of its own.
#![tactic(auto)]

mod headed;
mod upper_case;
mod whole_lines;

use crate::headed::Headed;
use crate::upper_case::UpperCase;
use crate::whole_lines::WholeLines;
use gb_action::actions::Actions;
use gb_action::table::{ActionTable, TableFault};
use gb_answer::{builtin_actions, builtin_functions};
use gb_cli::program::UNPRINTED;
use gb_here::here::build_here;
use gb_kinds::builtin::{Builtin, StoredAction};
use gb_with::beside::{beside, only};
use gb_with::both::Both;
use gb_with::by_file::ByFile;
use gb_with::try_by_file::TryByFile;
use std::alloc::{AllocError, Global};
use std::process::ExitCode;

/// The kinds of this program.
type Own = Both<ByFile<UpperCase>, Both<ByFile<Headed>, TryByFile<WholeLines>>>;

/// The built-in kinds, and those of this program.
type Kinds = Both<Builtin, Own>;

fn main(rt: HostRuntime) -> ExitCode {
    ExitCode::from(built(&rt).unwrap_or(UNPRINTED))
}

/// Builds the current folder.
fn built(rt: &HostRuntime) -> Result<u8, AllocError> {
    built_with(rt, builtin_actions!(rt.alloc()))
}

/// Builds it with these actions, those of this program, and all functions of values.
fn built_with(rt: &HostRuntime, builtin: ActionTable<StoredAction>) -> Result<u8, AllocError> {
    let transforms = builtin_functions!(rt.alloc());
    let actions = kinds(rt.alloc(), builtin);
    Ok(build_here::<Kinds, Builtin, _>(rt, actions, transforms))
}

/// These actions, and those of this program.
fn kinds(
    alloc: Global,
    builtin: ActionTable<StoredAction>,
) -> Result<ActionTable<<Kinds as Actions>::Stored>, TableFault> {
    beside(alloc, builtin, own_kinds(alloc)?)
}

/// The actions of this program, each in its first version.
fn own_kinds(alloc: Global) -> Result<ActionTable<<Own as Actions>::Stored>, TableFault> {
    let headed = only::<ByFile<Headed>>(alloc, "headed", 1)?;
    let whole = only::<TryByFile<WholeLines>>(alloc, "wholeLines", 1)?;
    let others = beside(alloc, headed, whole)?;
    beside(
        alloc,
        only::<ByFile<UpperCase>>(alloc, "upperCase", 1)?,
        others,
    )
}
