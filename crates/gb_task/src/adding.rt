//! The changes that a full execution gets: each path of an incremental property as added.
ghost use Rattle.std.specs.Prelude.{◌≡◌, ◌++◌, [], length, IfOk, OnOk};
ghost use Rattle.gb_action.specs.Changes.{changes_between};
ghost use Rattle.gb_action.specs.Files.{Tree, Trees};
ghost use Rattle.gb_label.specs.Reading.{digests_in};
ghost use Rattle.gb_tree.specs.Prints.{digests_of};
ghost use Rattle.gb_task.specs.Reading.{added_in, added_of};

use gb_action::change::{ChangeList, ChangeLists};
use gb_plan::task::{FileProperty, TaskDeclaration};
use gb_tree::changes::compare;
use gb_tree::prints::Prints;
use std::alloc::{AllocError, Global};

/// The changes of a task's incremental properties from no file to those of these digests, one for
/// each property.
pub(crate) fn all_added(
    alloc: Global,
    task: &TaskDeclaration,
    prints: &[Prints],
) -> Result<ChangeLists, AllocError>
    requires { length task.now.files ≡ length prints.now }
    ensures { IfOk result (λ changes. (trees : Trees) → prints.now ≡ digests_in trees
        → changes ≡ added_of task.now.files trees) }
{
    let properties = task.files.as_slice();
    let mut changes = ChangeLists::new(alloc);
    for (at, property) in properties.iter().enumerate() {
        add(alloc, &mut changes, property, &prints[at])?;
    }
    Ok(changes)
}

/// Adds the changes of one property, where it is incremental.
fn add(
    alloc: Global,
    changes: &mut ChangeLists,
    property: &FileProperty,
    found: &Prints,
) -> Result<(), AllocError>
    ensures { OnOk result ((tree : Tree) → found.now.1 ≡ digests_of tree
        → changes.new ≡ changes.old ++ added_in property.now tree) }
{
    if property.incremental {
        changes.push((property.name.copy()?, added(alloc, found)?))?;
    }
    Ok(())
}

/// The changes from no file to these: each path as added.
fn added(alloc: Global, found: &Prints) -> Result<ChangeList, AllocError>
    ensures { IfOk result (λ changes. (tree : Tree) → found.now.1 ≡ digests_of tree
        → changes ≡ changes_between [] tree) }
{
    let none = Prints::new(found.name().copy()?, Vec::new(alloc));
    compare(alloc, &none, found)
}
