//! Builds over files that block records, over a damaged record, and of more than an output may
//! contain.
use crate::building::{Step, are_held, bytes_at, go_on, is_reported_of, put_bytes};
use crate::offering::{offered, offered_joining};
use gb_action::actions::Actions;
use gb_folder::memory::MemoryFolder;
use gb_kinds::builtin::Builtin;
use gb_provider::transforms::Transforms;
use gb_registry::tables::Tables;
use std::alloc::Global;
use std::test::Fail;

const ONE: &str = "register gen : writeText(\"abc\") { outputFile out = file(\"build/a.txt\") }";

const TWO: &str = "register a : writeText(\"A\") { outputFile out = file(\"build/x\") }
register b : writeText(\"B\") { outputFile out = file(\"build/y\") }";

const UNWRITTEN: &str = "> Task :gen FAILED\nFAILED :gen: 90 history not written\nBUILD FAILED\n\
1 actionable task: 1 executed\n";

const BOTH: &str = "> Task :a\n> Task :b\nBUILD SUCCESSFUL\n2 actionable tasks: 2 executed\n";

const FIRST_ALONE: &str = "> Task :a\n> Task :b UP-TO-DATE\nBUILD SUCCESSFUL\n\
2 actionable tasks: 1 executed, 1 up-to-date\n";

const OF_TWO: [Step<'static>; 2] = [("put build.gb", TWO, ""), ("run a b", "", BOTH)];

const JOIN: &str =
    "register c : concat { inputFiles src from dir(\"m\") outputFile out = file(\"build/c\") }";

const TOO_LARGE: &str = "> Task :c FAILED\nFAILED :c: 13 too large build/c\nBUILD FAILED\n\
1 actionable task: 1 executed\n";

/// Fails if a build whose record cannot be written has another result.
fn is_unwritten<A: Actions, T: Transforms>(
    alloc: Global,
    tables: &Tables<A, T>,
) -> Result<(), Fail> {
    let mut folder = MemoryFolder::new(alloc);
    is_unwritten_in(alloc, &mut folder, tables)
}

fn is_unwritten_in<A: Actions, T: Transforms>(
    alloc: Global,
    folder: &mut MemoryFolder,
    tables: &Tables<A, T>,
) -> Result<(), Fail> {
    put_bytes(alloc, folder, ".gb", b"in the way")?;
    put_bytes(alloc, folder, "build.gb", ONE.as_bytes())?;
    is_reported_of(alloc, folder, tables, "run gen", UNWRITTEN)
}

#[test]
fn a_record_that_cannot_exist_is_reported(rt: HostRuntime) -> Result<(), Fail> {
    let (actions, transforms) = offered(rt.alloc())?;
    let tables = Tables::<Builtin, Builtin> {
        actions,
        transforms,
    };
    is_unwritten::<Builtin, Builtin>(rt.alloc(), &tables)
}

/// Changes the byte of a file at this index.
fn damage(alloc: Global, folder: &mut MemoryFolder, place: &str, at: usize) -> Result<(), Fail> {
    let mut text = bytes_at(alloc, folder, place)?;
    match text.get_mut(at) {
        Some(byte) => *byte = byte.wrapping_add(1),
        None => return Err(Fail::new("the file is shorter")),
    }
    put_bytes(alloc, folder, place, text.as_slice())
}

/// Fails if a build, after the first task's record was damaged at a byte, executes anything other
/// than that task.
fn is_damaged<A: Actions, T: Transforms>(
    alloc: Global,
    tables: &Tables<A, T>,
    at: usize,
) -> Result<(), Fail> {
    let mut folder = MemoryFolder::new(alloc);
    is_damaged_in(alloc, &mut folder, tables, at)
}

fn is_damaged_in<A: Actions, T: Transforms>(
    alloc: Global,
    folder: &mut MemoryFolder,
    tables: &Tables<A, T>,
    at: usize,
) -> Result<(), Fail> {
    go_on(alloc, folder, tables, &OF_TWO)?;
    damage(alloc, folder, ".gb/tasks/a.record", at)?;
    is_reported_of(alloc, folder, tables, "run a b", FIRST_ALONE)
}

fn are_damaged<A: Actions, T: Transforms>(
    alloc: Global,
    tables: &Tables<A, T>,
) -> Result<(), Fail> {
    for at in [0usize, 10, 100, 200] {
        is_damaged(alloc, tables, at)?;
    }
    Ok(())
}

#[test]
fn a_damaged_record_concerns_its_task_alone(rt: HostRuntime) -> Result<(), Fail> {
    let (actions, transforms) = offered(rt.alloc())?;
    let tables = Tables::<Builtin, Builtin> {
        actions,
        transforms,
    };
    are_damaged::<Builtin, Builtin>(rt.alloc(), &tables)
}

/// Stores two files that are joined into one with more bytes than an output may have.
fn put_halves(alloc: Global, folder: &mut MemoryFolder) -> Result<(), Fail> {
    let half = vec![in alloc; b'x'; 5_242_880]?;
    put_bytes(alloc, folder, "m/a", half.as_slice())?;
    put_bytes(alloc, folder, "m/b", half.as_slice())
}

/// Fails if the result for them differs, or a part of it exists.
fn is_too_large<A: Actions, T: Transforms>(
    alloc: Global,
    tables: &Tables<A, T>,
) -> Result<(), Fail> {
    let mut folder = MemoryFolder::new(alloc);
    is_too_large_in(alloc, &mut folder, tables)
}

fn is_too_large_in<A: Actions, T: Transforms>(
    alloc: Global,
    folder: &mut MemoryFolder,
    tables: &Tables<A, T>,
) -> Result<(), Fail> {
    put_halves(alloc, folder)?;
    put_bytes(alloc, folder, "build.gb", JOIN.as_bytes())?;
    is_reported_of(alloc, folder, tables, "run c", TOO_LARGE)?;
    are_held(alloc, folder, "build", "")
}

#[test]
fn what_is_made_too_large_is_reported(rt: HostRuntime) -> Result<(), Fail> {
    let (actions, transforms) = offered_joining(rt.alloc())?;
    let tables = Tables::<Builtin, Builtin> {
        actions,
        transforms,
    };
    is_too_large::<Builtin, Builtin>(rt.alloc(), &tables)
}
