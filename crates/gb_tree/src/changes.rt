//! How two states of a tree differ.
ghost use Rattle.std.specs.Prelude.{◌≡◌, ◌++◌, map, IfOk, OnOk};
ghost use Rattle.gb_action.specs.declared.change.Change.TheVariants.{Added, Removed};
ghost use Rattle.gb_action.specs.Changes.{changes_between};
ghost use Rattle.gb_core.specs.Lists.{byte_order};
ghost use Rattle.gb_action.specs.Files.{Tree};
ghost use Rattle.gb_tree.specs.Merge.{past, reported};
ghost use Rattle.gb_tree.specs.Prints.{AreCollisionFree, digests_of};

use crate::prints::Prints;
use gb_action::change::{Change, ChangeList};
use gb_core::place::RelPath;
use std::alloc::{AllocError, Global};
use std::cmp::Ordering;

/// What was added, modified or removed from the old state to the new one, in the order of the bytes
/// of the paths. One pass merges the entries of both.
pub fn compare(alloc: Global, old: &Prints, new: &Prints) -> Result<ChangeList, AllocError>
    ensures changes { IfOk result (λ changes. changes ≡ changes_between old.now.1 new.now.1) }
    ensures exact { IfOk result (λ changes. (before after : Tree) → old.now.1 ≡ digests_of before
        → new.now.1 ≡ digests_of after → AreCollisionFree before after
        → changes ≡ changes_between before after) }
{
    let (before, after) = (old.as_slice(), new.as_slice());
    let mut changes = ChangeList::new(alloc);
    let (mut at, mut to) = (0, 0);
    while at < before.len() && to < after.len() {
        let order = report(&mut changes, &before[at], &after[to])?;
        let (more_before, more_after) = past(order);
        at += more_before;
        to += more_after;
    }
    report_removed(&mut changes, &before[at..])?;
    report_added(&mut changes, &after[to..])?;
    Ok(changes)
}

/// Adds the change that two compared entries show, and returns their order.
fn report(
    changes: &mut ChangeList,
    old: &(RelPath, [u8; 32]),
    new: &(RelPath, [u8; 32]),
) -> Result<Ordering, AllocError>
    ensures order { IfOk result (λ order. order ≡ byte_order old.now.0 new.now.0) }
    ensures reported { OnOk result
        (changes.new ≡ changes.old ++ reported (byte_order old.now.0 new.now.0) old.now new.now) }
{
    let order = old.0.cmp(&new.0);
    match order {
        Ordering::Less => changes.push(Change::Removed(old.0.copy()?))?,
        Ordering::Greater => changes.push(Change::Added(new.0.copy()?))?,
        Ordering::Equal => {
            if old.1 != new.1 {
                changes.push(Change::Modified(old.0.copy()?))?;
            }
        }
    }
    Ok(order)
}

/// How many entries of either list are done after two were compared with this order.
fn past(order: Ordering) -> (usize, usize)
    ensures { result ≡ past order }
{
    match order {
        Ordering::Less => (1, 0),
        Ordering::Equal => (1, 1),
        Ordering::Greater => (0, 1),
    }
}

fn report_removed(changes: &mut ChangeList, old: &[(RelPath, [u8; 32])]) -> Result<(), AllocError>
    ensures { OnOk result (changes.new ≡ changes.old ++ map (λ entry. Removed entry.0) old.now) }
{
    for (path, _) in old.iter() {
        changes.push(Change::Removed(path.copy()?))?;
    }
    Ok(())
}

fn report_added(changes: &mut ChangeList, new: &[(RelPath, [u8; 32])]) -> Result<(), AllocError>
    ensures { OnOk result (changes.new ≡ changes.old ++ map (λ entry. Added entry.0) new.now) }
{
    for (path, _) in new.iter() {
        changes.push(Change::Added(path.copy()?))?;
    }
    Ok(())
}
