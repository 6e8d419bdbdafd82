//! Outputs of tasks that other tasks read.
ghost use Rattle.std.specs.Prelude.{◌≡◌, ◌∷◌, ◌++◌, [], IfOk, OnOk};
ghost use Rattle.std.specs.List.{flat_map, list_any};
ghost use Rattle.gb_plan.specs.Task.{has_path};
ghost use Rattle.gb_check.specs.Findings.{warning};
ghost use Rattle.gb_check.specs.Warnings.{between, between_all, makes_at, reads_from, stale_of};
ghost use Rattle.gb_check.specs.Warnings.{unneeded_at, unneeded_from, unneeded_in};

use crate::findings::{Finding, Problem, push_warning};
use crate::sites::Site;
use gb_core::path::TaskPath;
use gb_core::place::Place;
use gb_core::task_paths::TaskPaths;
use gb_plan::task::{FileProperty, TaskDeclaration};
use std::alloc::AllocError;

/// Adds the warnings for each two tasks of which the first reads an output of the second. `guarded`
/// has the tasks that may be skipped.
pub(crate) fn push_between_all(
    found: &mut Vec<Finding>,
    tasks: &[TaskDeclaration],
    sites: &[Site],
    guarded: &[TaskPath],
) -> Result<(), AllocError>
    ensures { OnOk result
        (found.new.items ≡ found.old.items ++ between_all sites.now guarded.now tasks.now) }
{
    for reader in tasks {
        push_reader(found, sites, guarded, tasks, reader)?;
    }
    Ok(())
}

/// Adds the warnings for a reader and each of these tasks.
fn push_reader(
    found: &mut Vec<Finding>,
    sites: &[Site],
    guarded: &[TaskPath],
    tasks: &[TaskDeclaration],
    reader: &TaskDeclaration,
) -> Result<(), AllocError>
    ensures { OnOk result (found.new.items
        ≡ found.old.items ++ flat_map (between sites.now guarded.now reader.now) tasks.now) }
{
    for maker in tasks {
        push_between(found, sites, guarded, reader, maker)?;
    }
    Ok(())
}

/// Adds the warnings for a reader and another task, if it reads an output of that one.
fn push_between(
    found: &mut Vec<Finding>,
    sites: &[Site],
    guarded: &[TaskPath],
    reader: &TaskDeclaration,
    maker: &TaskDeclaration,
) -> Result<(), AllocError>
    ensures { OnOk result (found.new.items
        ≡ found.old.items ++ between sites.now guarded.now reader.now maker.now) }
{
    if reads_from(reader, maker) && reader.path != maker.path {
        push_both(found, sites, guarded, reader, maker)
    } else {
        Ok(())
    }
}

fn push_both(
    found: &mut Vec<Finding>,
    sites: &[Site],
    guarded: &[TaskPath],
    reader: &TaskDeclaration,
    maker: &TaskDeclaration,
) -> Result<(), AllocError>
    ensures { OnOk result (found.new.items ≡ found.old.items
        ++ unneeded_from sites.now reader.now maker.now
        ++ stale_of sites.now guarded.now reader.now.path maker.now.path) }
{
    push_unneeded(found, sites, reader, maker)?;
    push_stale(found, sites, guarded, &reader.path, &maker.path)
}

/// Adds a warning for each root at an output of the other task, if the reader does not need it.
fn push_unneeded(
    found: &mut Vec<Finding>,
    sites: &[Site],
    reader: &TaskDeclaration,
    maker: &TaskDeclaration,
) -> Result<(), AllocError>
    ensures { OnOk result (found.new.items
        ≡ found.old.items ++ unneeded_from sites.now reader.now maker.now) }
{
    if needs(&reader.needs, &maker.path) {
        Ok(())
    } else {
        push_properties(found, sites, &reader.path, maker, reader.files.as_slice())
    }
}

/// Whether the task is among those that are needed.
fn needs(paths: &TaskPaths, path: &TaskPath) -> bool
    ensures { result ≡ has_path paths.now path.now }
{
    for other in paths.iter() {
        if *path == *other {
            return true;
        }
    }
    false
}

fn push_properties(
    found: &mut Vec<Finding>,
    sites: &[Site],
    reader: &TaskPath,
    maker: &TaskDeclaration,
    files: &[FileProperty],
) -> Result<(), AllocError>
    ensures { OnOk result (found.new.items ≡ found.old.items
        ++ flat_map (unneeded_in sites.now reader.now maker.now) files.now) }
{
    for property in files {
        push_roots(found, sites, reader, maker, property.roots.as_slice())?;
    }
    Ok(())
}

fn push_roots(
    found: &mut Vec<Finding>,
    sites: &[Site],
    reader: &TaskPath,
    maker: &TaskDeclaration,
    roots: &[Place],
) -> Result<(), AllocError>
    ensures { OnOk result (found.new.items ≡ found.old.items
        ++ flat_map (unneeded_at sites.now reader.now maker.now) roots.now) }
{
    for root in roots {
        push_root(found, sites, reader, maker, root)?;
    }
    Ok(())
}

fn push_root(
    found: &mut Vec<Finding>,
    sites: &[Site],
    reader: &TaskPath,
    maker: &TaskDeclaration,
    root: &Place,
) -> Result<(), AllocError>
    ensures { OnOk result (found.new.items
        ≡ found.old.items ++ unneeded_at sites.now reader.now maker.now root.now) }
{
    if makes_at(root, maker) {
        let cause = unneeded(root, &maker.path)?;
        push_warning(found, sites, reader, cause)
    } else {
        Ok(())
    }
}

fn unneeded(root: &Place, maker: &TaskPath) -> Result<Problem, AllocError>
    ensures { IfOk result (λ cause. cause ≡ Problem.Unneeded root.now maker.now) }
{
    let root = root.copy()?;
    let maker = maker.copy()?;
    Ok(Problem::Unneeded(root, maker))
}

/// Adds a warning if the maker may be skipped.
fn push_stale(
    found: &mut Vec<Finding>,
    sites: &[Site],
    guarded: &[TaskPath],
    reader: &TaskPath,
    maker: &TaskPath,
) -> Result<(), AllocError>
    ensures { OnOk result (found.new.items ≡ found.old.items
        ++ stale_of sites.now guarded.now reader.now maker.now) }
{
    if is_among(guarded, maker) {
        let cause = stale(maker, reader)?;
        push_warning(found, sites, maker, cause)
    } else {
        Ok(())
    }
}

fn stale(maker: &TaskPath, reader: &TaskPath) -> Result<Problem, AllocError>
    ensures { IfOk result (λ cause. cause ≡ Problem.Stale maker.now reader.now) }
{
    let maker = maker.copy()?;
    let reader = reader.copy()?;
    Ok(Problem::Stale(maker, reader))
}

fn is_among(paths: &[TaskPath], path: &TaskPath) -> bool
    ensures { result ≡ has_path paths.now path.now }
{
    paths.iter().any(|other| *path == *other)
}

/// Whether a root of the reader is at an output of the other task.
fn reads_from(reader: &TaskDeclaration, maker: &TaskDeclaration) -> bool
    ensures { result ≡ reads_from reader.now maker.now }
{
    reader
        .files
        .as_slice()
        .iter()
        .any(|property| has_root_at(property, maker))
}

fn has_root_at(property: &FileProperty, maker: &TaskDeclaration) -> bool
    ensures { result ≡ list_any (λ root. makes_at root maker.now) property.now.roots }
{
    property
        .roots
        .as_slice()
        .iter()
        .any(|root| makes_at(root, maker))
}

/// Whether the task makes something that is at, under or above the root.
fn makes_at(root: &Place, task: &TaskDeclaration) -> bool
    ensures { result ≡ makes_at root.now task.now }
{
    task.outputs
        .as_slice()
        .iter()
        .any(|output| root.overlaps(&output.place))
}
