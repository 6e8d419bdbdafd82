//! The output of `gb_ask why` about tasks; the run of its own crate tests it for a whole folder on
//! disk.
use crate::building::{Step, go_on, is_reported, put_bytes, words_of};
use crate::ending::FailingWriter;
use crate::offering::offered;
use gb_action::actions::Actions;
use gb_ask_command::why::run;
use gb_folder::memory::MemoryFolder;
use gb_kinds::builtin::Builtin;
use gb_printer::page::Page;
use gb_provider::transforms::Transforms;
use gb_query::notation::Notation;
use gb_registry::tables::Tables;
use std::alloc::Global;
use std::test::Fail;

const SCRIPT: &str = "register gen : writeText(\"abc\") { outputFile out = file(\"build/a.txt\") }";

const EXECUTED: &str = "> Task :gen\nBUILD SUCCESSFUL\n1 actionable task: 1 executed\n";

const BUILT: [Step<'static>; 2] = [("put build.gb", SCRIPT, ""), ("run gen", "", EXECUTED)];

/// The output for arguments, and the exit status.
fn answered<A: Actions, T: Transforms>(
    alloc: Global,
    folder: &mut MemoryFolder,
    tables: &Tables<A, T>,
    notation: Notation,
    words: &str,
) -> Result<(String, u8), Fail> {
    let given = words_of(alloc, words)?;
    let mut out = Vec::new(alloc);
    let mut page = Page::new(&mut out);
    let status = run(alloc, folder, notation, Ok(given), &mut page, tables);
    match status {
        Some(status) => Ok((String::from_utf8(out)?, status)),
        None => Err(Fail::new("not printed")),
    }
}

/// Fails if the output for the arguments differs.
fn is_why<A: Actions, T: Transforms>(
    alloc: Global,
    folder: &mut MemoryFolder,
    tables: &Tables<A, T>,
    words: &str,
    expected: &str,
) -> Result<(), Fail> {
    let (text, _) = answered(alloc, folder, tables, Notation::Lines, words)?;
    is_reported(expected, text.as_str())
}

/// The folder after a build.
fn built<A: Actions, T: Transforms>(
    alloc: Global,
    tables: &Tables<A, T>,
) -> Result<MemoryFolder, Fail> {
    let mut folder = MemoryFolder::new(alloc);
    go_on(alloc, &mut folder, tables, &BUILT)?;
    Ok(folder)
}

/// Arguments for the folder after a build, the notation of the answer, the output, and the exit
/// status.
type Row<'a> = (&'a str, Notation, &'a str, u8);

const WORDS: [Row<'static>; 9] = [
    ("gen", Notation::Lines, ":gen UP-TO-DATE\n", 0),
    (
        "gen",
        Notation::Json,
        "[{\"after\":null,\"needs\":null,\"outcome\":\"UP-TO-DATE\",\"reasons\":[],\
         \"task\":\":gen\"}]\n",
        0,
    ),
    (
        "gen --rerun-tasks",
        Notation::Lines,
        ":gen runs: --rerun-tasks\n",
        0,
    ),
    (
        "gen --rerun-tasks",
        Notation::Json,
        "[{\"after\":null,\"needs\":null,\"outcome\":\"runs\",\"reasons\":[\"--rerun-tasks\"],\
         \"task\":\":gen\"}]\n",
        0,
    ),
    ("-m gen", Notation::Lines, ":gen UP-TO-DATE\n", 0),
    ("gen -x gen", Notation::Lines, "", 0),
    ("gen -x gen", Notation::Json, "[]\n", 0),
    (
        "other",
        Notation::Lines,
        "REFUSED 52 task not found other\nBUILD FAILED\n",
        1,
    ),
    (
        "gen --why",
        Notation::Json,
        "REFUSED 96 usage\nBUILD FAILED\n",
        2,
    ),
];

/// Fails if the result of a row differs.
fn holds<A: Actions, T: Transforms>(
    alloc: Global,
    folder: &mut MemoryFolder,
    tables: &Tables<A, T>,
    row: &Row<'_>,
) -> Result<(), Fail> {
    let (text, status) = answered(alloc, folder, tables, row.1, row.0)?;
    is_reported(row.2, text.as_str())?;
    if status == row.3 {
        Ok(())
    } else {
        Err(Fail::new(status))
    }
}

fn all_hold<A: Actions, T: Transforms>(alloc: Global, tables: &Tables<A, T>) -> Result<(), Fail> {
    let mut folder = built(alloc, tables)?;
    for row in &WORDS {
        holds(alloc, &mut folder, tables, row)?;
    }
    Ok(())
}

#[test]
fn words_are_answered_with_a_status(rt: HostRuntime) -> Result<(), Fail> {
    let (actions, transforms) = offered(rt.alloc())?;
    let tables = Tables::<Builtin, Builtin> {
        actions,
        transforms,
    };
    all_hold::<Builtin, Builtin>(rt.alloc(), &tables)
}

/// The form and the task of a record, its seal, and the output about the task at whose place it is.
type Recorded<'a> = (&'a str, &'a str, &'a str, &'a str);

/// A record of the older form, one with an invalid form, one of another task, and a damaged one.
const RECORDS: [Recorded<'static>; 4] = [
    (
        "1",
        ":gen",
        "d075510cbf1b60d97c23d1462bc14617e7d32f2285ef1b385b1956761cf96c72",
        ":gen UP-TO-DATE\n",
    ),
    (
        "9",
        ":gen",
        "73d3b568b800a9f690218e02fdc3a01e95673da6bf443bc6357df72a9bb84b19",
        ":gen runs: no record\n",
    ),
    (
        "1",
        ":other",
        "77ee1501d227481eb0caaaacd073c92638587c78dd5639c3797398cd90960d36",
        ":gen runs: no record\n",
    ),
    (
        "1",
        ":gen",
        "d175510cbf1b60d97c23d1462bc14617e7d32f2285ef1b385b1956761cf96c72",
        ":gen runs: no record\n",
    ),
];

/// The text of a record of a run that wrote the text in the script.
fn record(alloc: Global, form: &str, task: &str, seal: &str) -> Result<String, Fail> {
    let mut text = String::new(alloc);
    for part in [
        "{\"form\":",
        form,
        ",\"tasks\":[{\"actions\":[{\"args\":[{\"text\":\"abc\"}],\"kind\":\"writeText\"}],\
         \"files\":[],\"outputs\":[{\"name\":\"out\",\"place\":\"build/a.txt\",\"prints\":[[\"\",\
         \"ba7816bf8f01cfea414140de5dae2223b00361a396177a9cb410ff61f20015ad\"]],\"shape\":\"file\"}],\
         \"task\":\"",
        task,
        "\",\"values\":[]}]}\n",
        seal,
        "\n",
    ] {
        text.push_str(part)?;
    }
    Ok(text)
}

/// Fails if the output with this record differs.
fn counts<A: Actions, T: Transforms>(
    alloc: Global,
    folder: &mut MemoryFolder,
    tables: &Tables<A, T>,
    row: &Recorded<'_>,
) -> Result<(), Fail> {
    let text = record(alloc, row.0, row.1, row.2)?;
    put_bytes(alloc, folder, ".gb/tasks/gen.record", text.as_bytes())?;
    is_why(alloc, folder, tables, "gen", row.3)
}

fn all_count<A: Actions, T: Transforms>(alloc: Global, tables: &Tables<A, T>) -> Result<(), Fail> {
    let mut folder = built(alloc, tables)?;
    for row in &RECORDS {
        counts(alloc, &mut folder, tables, row)?;
    }
    Ok(())
}

#[test]
fn records_count_as_for_builds(rt: HostRuntime) -> Result<(), Fail> {
    let (actions, transforms) = offered(rt.alloc())?;
    let tables = Tables::<Builtin, Builtin> {
        actions,
        transforms,
    };
    all_count::<Builtin, Builtin>(rt.alloc(), &tables)
}

/// Fails if the output for a task whose output has more bytes than are read differs.
fn is_too_large<A: Actions, T: Transforms>(
    alloc: Global,
    tables: &Tables<A, T>,
) -> Result<(), Fail> {
    let mut folder = built(alloc, tables)?;
    put_large(alloc, &mut folder, "build/a.txt")?;
    let reported = ":gen runs: outputs are too large or too many\n";
    is_why(alloc, &mut folder, tables, "gen", reported)
}

fn put_large(alloc: Global, folder: &mut MemoryFolder, place: &str) -> Result<(), Fail> {
    let large = vec![in alloc; b'x'; 8_388_609]?;
    put_bytes(alloc, folder, place, large.as_slice())
}

#[test]
fn an_output_that_is_too_large_is_reported(rt: HostRuntime) -> Result<(), Fail> {
    let (actions, transforms) = offered(rt.alloc())?;
    let tables = Tables::<Builtin, Builtin> {
        actions,
        transforms,
    };
    is_too_large::<Builtin, Builtin>(rt.alloc(), &tables)
}

/// Fails if an answer that cannot be printed has an exit status.
fn unprinted<A: Actions, T: Transforms>(alloc: Global, tables: &Tables<A, T>) -> Result<(), Fail> {
    let mut folder = MemoryFolder::new(alloc);
    let words = Ok(Vec::new(alloc));
    let mut page = Page::new(FailingWriter);
    match run(
        alloc,
        &mut folder,
        Notation::Lines,
        words,
        &mut page,
        tables,
    ) {
        None => Ok(()),
        Some(status) => Err(Fail::new(status)),
    }
}

#[test]
fn what_cannot_be_printed_has_no_status(rt: HostRuntime) -> Result<(), Fail> {
    let (actions, transforms) = offered(rt.alloc())?;
    let tables = Tables::<Builtin, Builtin> {
        actions,
        transforms,
    };
    unprinted::<Builtin, Builtin>(rt.alloc(), &tables)
}
