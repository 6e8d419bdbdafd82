//! Replays lines of edits and builds over a folder in memory.
//!
//! It reads its whole standard input, processes the lines in their order and prints their results,
//! all of it by `gb_lines`.
//!
//! Proved: that the program never panics, and that it ends if its system calls end. `stdin` and
//! `stdout` are one run of it: `bench/replays.py` makes them of the worked replays in
//! `bench/replays` and of all examples of the documents.
//!
//! Set aside: a test for each example, since a test costs the gate a proof, and a replay costs it
//! none. Out of scope: a folder on a disk, and calls that fail (`gb_builds_tests`).
#![tactic(auto)]

use gb_action::table::ActionTable;
use gb_answer::{builtin_actions, builtin_functions};
use gb_kinds::builtin::{Builtin, StoredAction};
use gb_kinds::function_table::FunctionTable;
use gb_lines::replay::replay;
use gb_lines::stop::Stop;
use gb_registry::tables::Tables;
use std::io::{self, BufWriter};
use std::process::ExitCode;

fn main(rt: HostRuntime) -> Result<ExitCode, Stop> {
    with_actions(&rt, builtin_actions!(rt.alloc()))
}

/// Replays with these actions and all functions of values.
fn with_actions(rt: &HostRuntime, actions: ActionTable<StoredAction>) -> Result<ExitCode, Stop> {
    replayed(rt, actions, builtin_functions!(rt.alloc()))
}

/// Replays standard input to standard output.
fn replayed(
    rt: &HostRuntime,
    actions: ActionTable<StoredAction>,
    transforms: FunctionTable,
) -> Result<ExitCode, Stop> {
    let alloc = rt.alloc();
    let tables = Tables {
        actions,
        transforms,
    };
    let mut writer = BufWriter::new(alloc, io::writer(rt))?;
    let status = replay::<Builtin, Builtin, _, _>(alloc, &mut rt.reader(), &mut writer, &tables);
    Ok(ExitCode::from(status))
}
