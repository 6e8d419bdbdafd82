//! Builds from records of other programs: of an older version of a kind, and in the older form.
use crate::building::{Step, bytes_at, go_on, is_reported, put_bytes};
use crate::offering::{offered, offered_recheck};
use gb_action::actions::Actions;
use gb_folder::memory::MemoryFolder;
use gb_kinds::builtin::Builtin;
use gb_provider::transforms::Transforms;
use gb_registry::tables::Tables;
use std::alloc::Global;
use std::test::Fail;

const SCRIPT: &str = "register gen : writeText(\"abc\") { outputFile out = file(\"build/a.txt\") }";

const EXECUTED: &str = "> Task :gen\nBUILD SUCCESSFUL\n1 actionable task: 1 executed\n";

const UP_TO_DATE: &str =
    "> Task :gen UP-TO-DATE\nBUILD SUCCESSFUL\n1 actionable task: 1 up-to-date\n";

const FIRST: [Step<'static>; 2] = [("put build.gb", SCRIPT, ""), ("run gen", "", EXECUTED)];

const NEXT: [Step<'static>; 2] = [("run gen", "", EXECUTED), ("run gen", "", UP_TO_DATE)];

const STILL: [Step<'static>; 1] = [("run gen", "", UP_TO_DATE)];

/// The record that the first build leaves, in the form without versions of kinds.
const OLDER: &str =
    "{\"form\":1,\"tasks\":[{\"actions\":[{\"args\":[{\"text\":\"abc\"}],\"kind\":\"writeText\"}],\
    \"files\":[],\"outputs\":[{\"name\":\"out\",\"place\":\"build/a.txt\",\"prints\":[[\"\",\
    \"ba7816bf8f01cfea414140de5dae2223b00361a396177a9cb410ff61f20015ad\"]],\"shape\":\"file\"}],\
    \"task\":\":gen\",\"values\":[]}]}\nd075510cbf1b60d97c23d1462bc14617e7d32f2285ef1b385b1956761cf96c72\n";

/// The folder after the first build.
fn first<A: Actions, T: Transforms>(
    alloc: Global,
    tables: &Tables<A, T>,
) -> Result<MemoryFolder, Fail> {
    let mut folder = MemoryFolder::new(alloc);
    go_on(alloc, &mut folder, tables, &FIRST)?;
    Ok(folder)
}

/// The folder after the first build, by a program with the older version.
fn built_before(alloc: Global) -> Result<MemoryFolder, Fail> {
    let (actions, transforms) = offered(alloc)?;
    let tables = Tables::<Builtin, Builtin> {
        actions,
        transforms,
    };
    first::<Builtin, Builtin>(alloc, &tables)
}

#[test]
fn a_newer_version_of_a_kind_runs_once_more(rt: HostRuntime) -> Result<(), Fail> {
    let mut folder = built_before(rt.alloc())?;
    let (actions, transforms) = offered_recheck(rt.alloc())?;
    let tables = Tables::<Builtin, Builtin> {
        actions,
        transforms,
    };
    go_on::<Builtin, Builtin, MemoryFolder>(rt.alloc(), &mut folder, &tables, &NEXT)
}

/// Fails if a build over a record in the older form executes the task, or writes the record again.
fn counts<A: Actions, T: Transforms>(alloc: Global, tables: &Tables<A, T>) -> Result<(), Fail> {
    let mut folder = first(alloc, tables)?;
    counts_in(alloc, &mut folder, tables)
}

fn counts_in<A: Actions, T: Transforms>(
    alloc: Global,
    folder: &mut MemoryFolder,
    tables: &Tables<A, T>,
) -> Result<(), Fail> {
    put_bytes(alloc, folder, ".gb/tasks/gen.record", OLDER.as_bytes())?;
    go_on(alloc, folder, tables, &STILL)?;
    let kept = bytes_at(alloc, folder, ".gb/tasks/gen.record")?;
    is_reported(OLDER, std::str::from_utf8(kept.as_slice())?)
}

#[test]
fn a_record_in_the_older_form_counts(rt: HostRuntime) -> Result<(), Fail> {
    let (actions, transforms) = offered(rt.alloc())?;
    let tables = Tables::<Builtin, Builtin> {
        actions,
        transforms,
    };
    counts::<Builtin, Builtin>(rt.alloc(), &tables)
}
