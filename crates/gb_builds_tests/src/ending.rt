//! Replays that end early: at an invalid line, and when something outside fails.
use gb_action::actions::Actions;
use gb_action::table::ActionTable;
use gb_kinds::builtin::{Builtin, StoredAction};
use gb_kinds::function_table::FunctionTable;
use gb_lines::replay::replay;
use gb_provider::transforms::Transforms;
use gb_registry::tables::Tables;
use std::alloc::Global;
use std::io::{self, ErrorKind, Read, Write};
use std::test::Fail;

/// The name of a replay, its input, what it prints, and its status.
type Row<'a> = (&'a str, &'a str, &'a str, u8);

/// Replays without lines, and up to a bad line; the last is of the guide.
const ENDED: [Row<'static>; 3] = [
    ("no input", "", "", 0),
    ("bad line", "\n\njump\n", "REFUSED 95 bad line 3\n", 2),
    (
        "lines after it",
        "put a 1\n\njump\nshow a\n",
        "REFUSED 95 bad line 3\n",
        2,
    ),
];

/// No kinds and no functions.
fn nothing_handed(alloc: Global) -> (ActionTable<StoredAction>, FunctionTable) {
    (ActionTable::new(alloc), FunctionTable::new(alloc))
}

/// The output for an input, and the exit status.
fn replayed<A: Actions, T: Transforms>(
    alloc: Global,
    tables: &Tables<A, T>,
    input: &str,
) -> Result<(String, u8), Fail> {
    let mut writer = Vec::new(alloc);
    let mut reader = input.as_bytes();
    let status = replay(alloc, &mut reader, &mut writer, tables);
    Ok((String::from_utf8(writer)?, status))
}

fn replayed_with_nothing(alloc: Global, input: &str) -> Result<(String, u8), Fail> {
    let (actions, transforms) = nothing_handed(alloc);
    let tables = Tables::<Builtin, Builtin> {
        actions,
        transforms,
    };
    replayed::<Builtin, Builtin>(alloc, &tables, input)
}

/// Fails if a replay prints something else, or ends with another exit status.
fn holds(alloc: Global, row: &Row<'_>) -> Result<(), Fail> {
    let (output, status) = replayed_with_nothing(alloc, row.1)?;
    if output.as_str() == row.2 && status == row.3 {
        return Ok(());
    }
    let name = row.0;
    let reported = format!(in alloc; "{name}: status {status}\n{output}")?;
    Err(Fail::new(reported.as_str()))
}

#[test]
fn a_bad_line_ends_the_replay(rt: HostRuntime) -> Result<(), Fail> {
    for row in &ENDED {
        holds(rt.alloc(), row)?;
    }
    Ok(())
}

/// Invalid lines.
const BAD_LINES: [&str; 14] = [
    "lost ",
    "lost\r",
    "put",
    "put ",
    "put /a b",
    "put a \\",
    "put a \\x",
    "del",
    "del a/",
    "show a//b",
    "Run x",
    "runs",
    " run",
    "show",
];

fn is_bad(alloc: Global, line: &str) -> Result<(), Fail> {
    let input = format!(in alloc; "\nshow a\n{line}\nshow a\n")?;
    let want = "== none\nREFUSED 95 bad line 3\n";
    holds(alloc, &(line, input.as_str(), want, 2))
}

#[test]
fn other_lines_are_bad(rt: HostRuntime) -> Result<(), Fail> {
    for line in BAD_LINES {
        is_bad(rt.alloc(), line)?;
    }
    Ok(())
}

/// Returns a part of a line and then fails.
#[derive(Drop)]
struct FailingReader {
    is_begun: bool,
}

impl Read for FailingReader {
    fn read(&mut self, buf: &mut [u8]) -> io::Result<usize> {
        if self.is_begun || buf.is_empty() {
            return Err(io::Error::from(ErrorKind::Other));
        }
        self.is_begun = true;
        buf[0] = b'r';
        Ok(1)
    }
}

/// Accepts no bytes.
#[derive(Drop)]
pub struct FailingWriter;

impl Write for FailingWriter {
    fn write(&mut self, _buf: &[u8]) -> io::Result<usize> {
        Err(io::Error::from(ErrorKind::Other))
    }

    fn flush(&mut self) -> io::Result<()> {
        Ok(())
    }
}

/// The exit status of a replay whose lines cannot be read.
fn unread<A: Actions, T: Transforms>(alloc: Global, tables: &Tables<A, T>) -> u8 {
    let mut output = Vec::new(alloc);
    let mut reader = FailingReader { is_begun: false };
    let status = replay(alloc, &mut reader, &mut output, tables);
    if output.is_empty() { status } else { 0 }
}

/// The exit status of a replay whose answers cannot be written.
fn unwritten<A: Actions, T: Transforms>(alloc: Global, tables: &Tables<A, T>) -> u8 {
    let mut input = b"show a\njump".as_slice();
    replay(alloc, &mut input, &mut FailingWriter, tables)
}

fn end_with_1<A: Actions, T: Transforms>(alloc: Global, tables: &Tables<A, T>) -> Result<(), Fail> {
    if unread(alloc, tables) == 1 && unwritten(alloc, tables) == 1 {
        Ok(())
    } else {
        Err(Fail::new("another status"))
    }
}

#[test]
fn a_failing_device_ends_the_replay(rt: HostRuntime) -> Result<(), Fail> {
    let (actions, transforms) = nothing_handed(rt.alloc());
    let tables = Tables::<Builtin, Builtin> {
        actions,
        transforms,
    };
    end_with_1::<Builtin, Builtin>(rt.alloc(), &tables)
}
