//! The results of command lines in a folder on disk.
use crate::building::{put_bytes, words_of};
use crate::ending::FailingWriter;
use crate::offering::offered;
use gb_action::actions::Actions;
use gb_cli::program::run;
use gb_core::place::Place;
use gb_disk::disk::DiskFolder;
use gb_folder::folder::Folder;
use gb_folder::memory::MemoryFolder;
use gb_kinds::builtin::Builtin;
use gb_printer::page::Page;
use gb_provider::transforms::Transforms;
use gb_registry::tables::Tables;
use std::alloc::Global;
use std::fs;
use std::test::Fail;

/// The place of a script, and the script, with a task that writes a file.
const GEN: &str =
    "build.gb register gen : writeText(\"abc\") { outputFile out = file(\"build/a.txt\") }";

/// The output of a successful build.
const DONE: &str = "> Task :gen\nBUILD SUCCESSFUL\n1 actionable task: 1 executed\n";

/// Lines, and their results if the script exists.
type Row<'a> = (&'a str, &'a str);

/// The output of lines: `put PLACE BYTES`, `read PLACE`, `run WORDS`, and `status WORDS` for the
/// exit status.
fn answers<A: Actions, T: Transforms, F: Folder>(
    alloc: Global,
    folder: &mut F,
    tables: &Tables<A, T>,
    lines: &str,
) -> Result<String, Fail> {
    let mut out = Vec::new(alloc);
    take_all(alloc, folder, tables, lines, &mut out)?;
    Ok(String::from_utf8(out)?)
}

fn take_all<A: Actions, T: Transforms, F: Folder>(
    alloc: Global,
    folder: &mut F,
    tables: &Tables<A, T>,
    lines: &str,
    out: &mut Vec<u8>,
) -> Result<(), Fail> {
    for line in lines.split('\n') {
        take(alloc, folder, tables, line, out)?;
    }
    Ok(())
}

fn take<A: Actions, T: Transforms, F: Folder>(
    alloc: Global,
    folder: &mut F,
    tables: &Tables<A, T>,
    line: &str,
    out: &mut Vec<u8>,
) -> Result<(), Fail> {
    let (word, rest) = line.split_once(' ').unwrap_or((line, ""));
    match word {
        "put" => put(alloc, folder, rest),
        "read" => read(alloc, folder, rest, out),
        "run" => {
            build(alloc, folder, tables, rest, out)?;
            Ok(())
        }
        _ => status(alloc, folder, tables, rest, out),
    }
}

fn put<F: Folder>(alloc: Global, folder: &mut F, rest: &str) -> Result<(), Fail> {
    let (place, bytes) = rest.split_once(' ').unwrap_or((rest, ""));
    put_bytes(alloc, folder, place, bytes.as_bytes())
}

fn read<F: Folder>(
    alloc: Global,
    folder: &mut F,
    place: &str,
    out: &mut Vec<u8>,
) -> Result<(), Fail> {
    let place = Place::read(alloc, place)?;
    match folder.read(alloc, &place, 10_000) {
        Ok(bytes) => push_line(out, bytes.as_slice()),
        Err(_) => push_line(out, b"none"),
    }
}

fn push_line(out: &mut Vec<u8>, bytes: &[u8]) -> Result<(), Fail> {
    out.extend_from_slice(bytes)?;
    Ok(out.push(b'\n')?)
}

/// Builds, and returns the exit status.
fn build<A: Actions, T: Transforms, F: Folder>(
    alloc: Global,
    folder: &mut F,
    tables: &Tables<A, T>,
    words: &str,
    out: &mut Vec<u8>,
) -> Result<u8, Fail> {
    let given = words_of(alloc, words)?;
    match run(alloc, folder, Ok(given), &mut Page::new(out), tables) {
        Some(status) => Ok(status),
        None => Err(Fail::new("not printed")),
    }
}

fn status<A: Actions, T: Transforms, F: Folder>(
    alloc: Global,
    folder: &mut F,
    tables: &Tables<A, T>,
    words: &str,
    out: &mut Vec<u8>,
) -> Result<(), Fail> {
    let status = build(alloc, folder, tables, words, &mut Vec::new(alloc))?;
    Ok(out.extend_from_slice(format!(in alloc; "{status}")?.as_bytes())?)
}

/// The results in a folder with this name on disk that has the task.
fn on_disk<A: Actions, T: Transforms>(
    rt: &HostRuntime,
    name: &str,
    tables: &Tables<A, T>,
    lines: &str,
) -> Result<String, Fail> {
    let mut folder = DiskFolder::new(rt, String::from_str(rt.alloc(), name)?);
    answers_with_task(rt.alloc(), &mut folder, tables, lines)
}

fn answers_with_task<A: Actions, T: Transforms, F: Folder>(
    alloc: Global,
    folder: &mut F,
    tables: &Tables<A, T>,
    lines: &str,
) -> Result<String, Fail> {
    put(alloc, folder, GEN)?;
    answers(alloc, folder, tables, lines)
}

/// Fails if the result is not that of the row.
fn is_answered(row: &Row<'_>, answer: &str) -> Result<(), Fail> {
    if answer == row.1 {
        Ok(())
    } else {
        Err(Fail::new(answer))
    }
}

/// Fails at the first row with another result in a new folder with this name.
fn hold_on_disk<A: Actions, T: Transforms>(
    rt: &HostRuntime,
    name: &str,
    tables: &Tables<A, T>,
    rows: &[Row<'_>],
) -> Result<(), Fail> {
    for row in rows {
        fs::create_dir(rt, name)?;
        is_answered(row, on_disk(rt, name, tables, row.0)?.as_str())?;
        fs::remove_dir_all(rt, name)?;
    }
    Ok(())
}

const BUILDS: [Row<'static>; 3] = [
    (
        "put build x\nrun gen\nread build",
        "> Task :gen FAILED\nFAILED :gen: 12 blocked build/a.txt\nBUILD FAILED\n\
         1 actionable task: 1 executed\nx\n",
    ),
    (
        "run gen\nread build/a.txt\nput build/a.txt Z\nrun gen\nread build/a.txt",
        "> Task :gen\nBUILD SUCCESSFUL\n1 actionable task: 1 executed\nabc\n\
         > Task :gen\nBUILD SUCCESSFUL\n1 actionable task: 1 executed\nabc\n",
    ),
    (
        "run -m gen\nread build/a.txt\nrun gen --continue\nrun gen\nrun gen -x gen",
        ":gen SKIPPED\nBUILD SUCCESSFUL\nnone\n\
         > Task :gen\nBUILD SUCCESSFUL\n1 actionable task: 1 executed\n\
         > Task :gen UP-TO-DATE\nBUILD SUCCESSFUL\n1 actionable task: 1 up-to-date\nBUILD SUCCESSFUL\n",
    ),
];

#[test]
fn a_folder_on_a_disk_is_built(rt: HostRuntime) -> Result<(), Fail> {
    let (actions, transforms) = offered(rt.alloc())?;
    let tables = Tables::<Builtin, Builtin> {
        actions,
        transforms,
    };
    hold_on_disk::<Builtin, Builtin>(&rt, "built", &tables, &BUILDS)
}

const WORDS: [Row<'static>; 14] = [
    ("run gen --rerun-tasks --rerun-tasks", DONE),
    ("run -Pa=b --project-prop c gen", DONE),
    ("run -- gen", DONE),
    ("status gen", "0"),
    ("run -P9=x gen", "REFUSED 1 bad name 9\nBUILD FAILED\n"),
    ("status -P9=x gen", "1"),
    ("status odd", "1"),
    ("status", "1"),
    ("run gen --continue=x", "REFUSED 96 usage\nBUILD FAILED\n"),
    ("status --nope", "2"),
    ("status --help", "2"),
    ("status -V", "2"),
    ("status -x", "2"),
    ("status gen -P", "2"),
];

#[test]
fn words_ask_for_a_build_or_for_none(rt: HostRuntime) -> Result<(), Fail> {
    let (actions, transforms) = offered(rt.alloc())?;
    let tables = Tables::<Builtin, Builtin> {
        actions,
        transforms,
    };
    hold_on_disk::<Builtin, Builtin>(&rt, "worded", &tables, &WORDS)
}

/// Fails if a build that cannot be printed has an exit status.
fn unprinted<A: Actions, T: Transforms>(alloc: Global, tables: &Tables<A, T>) -> Result<(), Fail> {
    let mut folder = MemoryFolder::new(alloc);
    let words = Ok(Vec::new(alloc));
    let mut page = Page::new(FailingWriter);
    match run(alloc, &mut folder, words, &mut page, tables) {
        None => Ok(()),
        Some(status) => Err(Fail::new(status)),
    }
}

#[test]
fn what_cannot_be_printed_has_no_status(rt: HostRuntime) -> Result<(), Fail> {
    let (actions, transforms) = offered(rt.alloc())?;
    let tables = Tables::<Builtin, Builtin> {
        actions,
        transforms,
    };
    unprinted::<Builtin, Builtin>(rt.alloc(), &tables)
}
