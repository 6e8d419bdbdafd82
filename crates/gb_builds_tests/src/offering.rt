//! Three kinds: one that writes a text, and two that work on files.
use gb_action::actions::Actions;
use gb_action::table::ActionTable;
use gb_core::name::Name;
use gb_kinds::builtin::StoredAction;
use gb_kinds::file_kinds::{concat, copy_files};
use gb_kinds::function_table::FunctionTable;
use gb_kinds::shapes::{
    CONCAT, COPY_FILES, WRITE_TEXT, concat_shape, copy_files_shape, write_text_shape,
};
use gb_kinds::text_kinds::write_text;
use gb_provider::transforms::Transforms;
use std::alloc::Global;
use std::test::Fail;

fn writing(alloc: Global) -> Result<StoredAction, Fail> {
    let shape = write_text_shape(alloc)?;
    let run = Box::new(alloc, write_text)?;
    Ok(StoredAction::new(WRITE_TEXT, 1, shape, run))
}

/// The same kind in its next version.
fn writing_recheck(alloc: Global) -> Result<StoredAction, Fail> {
    let shape = write_text_shape(alloc)?;
    let run = Box::new(alloc, write_text)?;
    Ok(StoredAction::new(WRITE_TEXT, 2, shape, run))
}

fn copying(alloc: Global) -> Result<StoredAction, Fail> {
    let shape = copy_files_shape(alloc)?;
    let run = Box::new(alloc, copy_files)?;
    Ok(StoredAction::new(COPY_FILES, 1, shape, run))
}

fn joining(alloc: Global) -> Result<StoredAction, Fail> {
    let shape = concat_shape(alloc)?;
    let run = Box::new(alloc, concat)?;
    Ok(StoredAction::new(CONCAT, 1, shape, run))
}

fn add(
    alloc: Global,
    table: &mut ActionTable<StoredAction>,
    name: &str,
    stored: StoredAction,
) -> Result<(), Fail> {
    let name = Name::read(alloc, name)?;
    Ok(table.add(&name, stored)?)
}

/// The kinds, each made in a separate function: with a closure in scope each exit is expensive to
/// check.
fn actions(alloc: Global) -> Result<ActionTable<StoredAction>, Fail> {
    let mut table = ActionTable::new(alloc);
    add(alloc, &mut table, "writeText", writing(alloc)?)?;
    add(alloc, &mut table, "copyFiles", copying(alloc)?)?;
    Ok(table)
}

/// The tables for a build: these kinds, and no function of values.
pub fn offered(alloc: Global) -> Result<(ActionTable<StoredAction>, FunctionTable), Fail> {
    let actions = actions(alloc)?;
    Ok((actions, FunctionTable::new(alloc)))
}

/// The tables for a build by a program in which the kind that writes a text has its next version.
pub fn offered_recheck(alloc: Global) -> Result<(ActionTable<StoredAction>, FunctionTable), Fail> {
    let mut actions = ActionTable::new(alloc);
    add(alloc, &mut actions, "writeText", writing_recheck(alloc)?)?;
    Ok((actions, FunctionTable::new(alloc)))
}

/// The tables for a build whose one kind joins files.
pub fn offered_joining(alloc: Global) -> Result<(ActionTable<StoredAction>, FunctionTable), Fail> {
    let mut actions = ActionTable::new(alloc);
    add(alloc, &mut actions, "concat", joining(alloc)?)?;
    Ok((actions, FunctionTable::new(alloc)))
}
