//! File properties of one task that have a root in common.
ghost use Rattle.std.specs.Prelude.{◌≡◌, ◌++◌, IfOk, OnOk};
ghost use Rattle.std.specs.List.{flat_map};
ghost use Rattle.gb_plan.specs.Task.{has_path};
ghost use Rattle.gb_check.specs.Warnings.{pair_of, pairs_in, share_root, shared_in};

use crate::findings::{Finding, Problem, push_warning};
use crate::sites::Site;
use gb_core::name::Name;
use gb_core::path::TaskPath;
use gb_core::place::Place;
use gb_plan::task::{FileProperty, TaskDeclaration};
use std::alloc::AllocError;

/// Adds a warning for each two file properties of a task that have a root in common.
pub(crate) fn push_shared(
    found: &mut Vec<Finding>,
    tasks: &[TaskDeclaration],
    sites: &[Site],
) -> Result<(), AllocError>
    ensures { OnOk result (found.new.items ≡ found.old.items ++ shared_in sites.now tasks.now) }
{
    for task in tasks {
        push_pairs(found, sites, &task.path, task.files.as_slice())?;
    }
    Ok(())
}

/// Adds a warning for each two of these that have a root in common.
fn push_pairs(
    found: &mut Vec<Finding>,
    sites: &[Site],
    path: &TaskPath,
    files: &[FileProperty],
) -> Result<(), AllocError>
    ensures { OnOk result (found.new.items
        ≡ found.old.items ++ pairs_in sites.now path.now files.now) }
{
    let mut rest = files;
    'properties: while let Some((first, others)) = rest.split_first() {
        push_with(found, sites, path, first, others)?;
        rest = others;
    }
    Ok(())
}

/// Adds a warning for each of the others that has a root in common with the first.
fn push_with(
    found: &mut Vec<Finding>,
    sites: &[Site],
    path: &TaskPath,
    first: &FileProperty,
    others: &[FileProperty],
) -> Result<(), AllocError>
    ensures { OnOk result (found.new.items ≡ found.old.items
        ++ flat_map (pair_of sites.now path.now first.now) others.now) }
{
    for second in others {
        push_pair(found, sites, path, first, second)?;
    }
    Ok(())
}

fn push_pair(
    found: &mut Vec<Finding>,
    sites: &[Site],
    path: &TaskPath,
    first: &FileProperty,
    second: &FileProperty,
) -> Result<(), AllocError>
    ensures { OnOk result (found.new.items
        ≡ found.old.items ++ pair_of sites.now path.now first.now second.now) }
{
    if share_root(first, second) {
        let cause = shared_by(&first.name, &second.name)?;
        push_warning(found, sites, path, cause)
    } else {
        Ok(())
    }
}

fn shared_by(first: &Name, second: &Name) -> Result<Problem, AllocError>
    ensures { IfOk result (λ cause. cause ≡ Problem.Shared first.now second.now) }
{
    let first = first.copy()?;
    let second = second.copy()?;
    Ok(Problem::Shared(first, second))
}

/// Whether the two have a root in common.
fn share_root(first: &FileProperty, second: &FileProperty) -> bool
    ensures { result ≡ share_root first.now second.now }
{
    let roots = second.roots.as_slice();
    first
        .roots
        .as_slice()
        .iter()
        .any(|root| is_among(roots, root))
}

fn is_among(roots: &[Place], root: &Place) -> bool
    ensures { result ≡ has_path roots.now root.now }
{
    roots.iter().any(|other| *root == *other)
}
