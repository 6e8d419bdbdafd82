//! The tables for a site: a built-in kind and those of pages in one table, and one function of
//! values.
use gb_action::actions::Actions;
use gb_action::table::ActionTable;
use gb_core::name::Name;
use gb_kinds::builtin::{Builtin, StoredAction};
use gb_kinds::file_kinds::copy_files;
use gb_kinds::function_table::FunctionTable;
use gb_kinds::functions::{OUTPUT, output};
use gb_kinds::shapes::{COPY_FILES, copy_files_shape};
use gb_kinds::stored::StoredFlat;
use gb_pages::page_kinds::{Pages, page_actions};
use gb_provider::transforms::Transforms;
use gb_with::beside::beside;
use gb_with::both::Both;
use std::alloc::Global;
use std::test::Fail;

/// The built-in kinds, and those of pages.
pub type Kinds = Both<Builtin, Pages>;

fn copying(alloc: Global) -> Result<StoredAction, Fail> {
    let shape = copy_files_shape(alloc)?;
    let run = Box::new(alloc, copy_files)?;
    Ok(StoredAction::new(COPY_FILES, 1, shape, run))
}

/// The one built-in kind that the site uses. With a closure in scope each exit is expensive to
/// check.
pub fn builtin(alloc: Global) -> Result<ActionTable<StoredAction>, Fail> {
    let name = Name::read(alloc, "copyFiles")?;
    let mut table = ActionTable::new(alloc);
    table.add(&name, copying(alloc)?)?;
    Ok(table)
}

fn choosing(alloc: Global) -> Result<StoredFlat, Fail> {
    let run = Box::new(alloc, output)?;
    Ok(StoredFlat::new(OUTPUT, 1, run))
}

/// The one function of values that the site uses.
fn functions(alloc: Global) -> Result<FunctionTable, Fail> {
    let name = Name::read(alloc, "output")?;
    let mut table = FunctionTable::new(alloc);
    table.add_flat(&name, choosing(alloc)?)?;
    Ok(table)
}

/// The tables for a build of the site.
pub fn offered(
    alloc: Global,
) -> Result<(ActionTable<<Kinds as Actions>::Stored>, FunctionTable), Fail> {
    let transforms = functions(alloc)?;
    let actions = beside(alloc, builtin(alloc)?, page_actions(alloc)?)?;
    Ok((actions, transforms))
}
