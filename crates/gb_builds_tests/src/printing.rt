//! The output of a build, and when it is printed.
use crate::building::words_of;
use crate::offering::offered;
use gb_action::actions::Actions;
use gb_cli::program::run;
use gb_core::place::Place;
use gb_folder::folder::Folder;
use gb_folder::memory::MemoryFolder;
use gb_kinds::builtin::Builtin;
use gb_printer::page::Page;
use gb_provider::transforms::Transforms;
use gb_registry::tables::Tables;
use std::alloc::Global;
use std::io::{self, ErrorKind, Write};
use std::test::Fail;

/// The script of two tasks, a line for each.
const TASKS: [&str; 2] = [
    "register a : writeText(\"a\") { outputFile out = file(\"build/a.txt\") }\n",
    "register b : writeText(\"b\") { outputFile out = file(\"build/b.txt\") }\n",
];

/// The output of a first build.
const MADE: &str = "> Task :a\n> Task :b\nBUILD SUCCESSFUL\n2 actionable tasks: 2 executed\n";

/// The output of a later build.
const KEPT: &str =
    "> Task :a UP-TO-DATE\n> Task :b UP-TO-DATE\nBUILD SUCCESSFUL\n2 actionable tasks: 2 up-to-date\n";

/// The exit status and output of a build that cannot be printed whole, and of the next one.
type End = (Option<u8>, Vec<u8>);

/// Accepts this many bytes, and then fails.
#[derive(Drop)]
struct Scarce {
    text: Vec<u8>,
    room: usize,
}

impl Write for Scarce {
    fn write(&mut self, buf: &[u8]) -> io::Result<usize> {
        let taken = buf.len().min(self.room);
        if taken == 0 {
            return Err(io::Error::from(ErrorKind::Other));
        }
        self.text.extend_from_slice(&buf[..taken])?;
        self.room -= taken;
        Ok(taken)
    }

    fn flush(&mut self) -> io::Result<()> {
        Ok(())
    }
}

/// Records how much had been written at each flush.
#[derive(Drop)]
struct Flushed {
    written: usize,
    observed: Vec<usize>,
}

impl Write for Flushed {
    fn write(&mut self, buf: &[u8]) -> io::Result<usize> {
        self.written = self.written.saturating_add(buf.len());
        Ok(buf.len())
    }

    fn flush(&mut self) -> io::Result<()> {
        self.observed.push(self.written)?;
        Ok(())
    }
}

/// A folder in memory with the script.
fn laid_out(alloc: Global) -> Result<MemoryFolder, Fail> {
    let mut folder = MemoryFolder::new(alloc);
    let place = Place::read(alloc, "build.gb")?;
    let mut script = String::new(alloc);
    for task in TASKS {
        script.push_str(task)?;
    }
    folder.write(&place, script.as_bytes(), 10_000)?;
    Ok(folder)
}

/// Builds all in a folder, with room to print this many bytes, and returns the exit status and the
/// output.
fn built_in<A: Actions, T: Transforms>(
    alloc: Global,
    folder: &mut MemoryFolder,
    tables: &Tables<A, T>,
    room: usize,
) -> Result<End, Fail> {
    let mut page = Page::new(Scarce {
        text: Vec::new(alloc),
        room,
    });
    let words = Ok(words_of(alloc, "a b")?);
    let status = run(alloc, folder, words, &mut page, tables);
    let Scarce { text, room: _ } = page.into_writer();
    Ok((status, text))
}

/// Fails if the output or the exit status differs.
fn is_end(end: &End, status: Option<u8>, printed: &[u8]) -> Result<(), Fail> {
    if end.0 == status && end.1.as_slice() == printed {
        Ok(())
    } else {
        Err(Fail::new(printed.len()))
    }
}

/// Fails if a build with room for this many bytes prints something else, or has another exit
/// status.
fn ends<A: Actions, T: Transforms>(
    alloc: Global,
    folder: &mut MemoryFolder,
    tables: &Tables<A, T>,
    room: usize,
    status: Option<u8>,
    printed: &[u8],
) -> Result<(), Fail> {
    let end = built_in(alloc, folder, tables, room)?;
    is_end(&end, status, printed)
}

/// Fails if a build with room to print this many bytes prints other bytes, has an exit status, or
/// leaves less than a whole build.
fn stops_nothing<A: Actions, T: Transforms>(
    alloc: Global,
    tables: &Tables<A, T>,
    room: usize,
) -> Result<(), Fail> {
    let mut folder = laid_out(alloc)?;
    let whole = MADE.as_bytes();
    let status = if room < whole.len() { None } else { Some(0) };
    let printed = &whole[..room.min(whole.len())];
    ends(alloc, &mut folder, tables, room, status, printed)?;
    ends(alloc, &mut folder, tables, 10_000, Some(0), KEPT.as_bytes())
}

fn stop_nothing<A: Actions, T: Transforms>(
    alloc: Global,
    tables: &Tables<A, T>,
) -> Result<(), Fail> {
    for room in 0..=MADE.len() {
        stops_nothing(alloc, tables, room)?;
    }
    Ok(())
}

#[test]
fn what_cannot_be_printed_stops_nothing(rt: HostRuntime) -> Result<(), Fail> {
    let (actions, transforms) = offered(rt.alloc())?;
    let tables = Tables::<Builtin, Builtin> {
        actions,
        transforms,
    };
    stop_nothing::<Builtin, Builtin>(rt.alloc(), &tables)
}

/// How much had been written at each flush of a build of all.
fn observed_at_flushes<A: Actions, T: Transforms>(
    alloc: Global,
    folder: &mut MemoryFolder,
    tables: &Tables<A, T>,
) -> Result<Vec<usize>, Fail> {
    let mut page = Page::new(Flushed {
        written: 0,
        observed: Vec::new(alloc),
    });
    let words = Ok(words_of(alloc, "a b")?);
    let status = run(alloc, folder, words, &mut page, tables);
    let Flushed {
        written: _,
        observed,
    } = page.into_writer();
    match status {
        Some(0) => Ok(observed),
        _ => Err(Fail::new("another status")),
    }
}

/// Fails if the output of a build of all is flushed at other moments, by how much had been written.
fn is_observed<A: Actions, T: Transforms>(
    alloc: Global,
    folder: &mut MemoryFolder,
    tables: &Tables<A, T>,
    expected: &[usize],
) -> Result<(), Fail> {
    if observed_at_flushes(alloc, folder, tables)?.as_slice() == expected {
        Ok(())
    } else {
        Err(Fail::new("seen at other moments"))
    }
}

/// Fails if a first build is not flushed part by part, or a later one not at once.
fn are_observed<A: Actions, T: Transforms>(
    alloc: Global,
    tables: &Tables<A, T>,
) -> Result<(), Fail> {
    let mut folder = laid_out(alloc)?;
    is_observed(alloc, &mut folder, tables, &[10, 20, MADE.len()])?;
    is_observed(alloc, &mut folder, tables, &[KEPT.len()])
}

#[test]
fn each_part_is_observed_once_its_execution_has_ended(rt: HostRuntime) -> Result<(), Fail> {
    let (actions, transforms) = offered(rt.alloc())?;
    let tables = Tables::<Builtin, Builtin> {
        actions,
        transforms,
    };
    are_observed::<Builtin, Builtin>(rt.alloc(), &tables)
}
