//! Roots of file properties that have no files.
ghost use Rattle.std.specs.Prelude.{◌≡◌, ◌∷◌, ◌++◌, ◌&&◌, [], IfErr, IfOk, OnOk, not};
ghost use Rattle.std.specs.List.{flat_map, list_any};
ghost use Rattle.gb_core.specs.Place.{overlaps};
ghost use Rattle.gb_folder.specs.Calls.{OnlyReads};
ghost use Rattle.gb_folder.specs.Files.{is_empty, is_special_under, places_under};
ghost use Rattle.gb_folder.specs.Faults.{IsOfMachine};
ghost use Rattle.gb_check.specs.Findings.{warning};
ghost use Rattle.gb_check.specs.Warnings.{bare_root, bare_roots, is_bare};

use crate::all_places::{Rooted, all_outputs, all_roots};
use crate::findings::{Finding, Problem, push_warning};
use crate::sites::Site;
use gb_core::place::Place;
use gb_folder::calls::list;
use gb_folder::faults::fault_at;
use gb_folder::folder::{Folder, FolderFault};
use gb_plan::task::TaskDeclaration;
use gb_report::fault::Fault;
use std::alloc::{AllocError, Global};

/// A warning for each root of a file property with nothing at it and under it, unless a task makes
/// something there.
pub(crate) fn warn_bare<F: Folder>(
    alloc: Global,
    folder: &mut F,
    tasks: &[TaskDeclaration],
    sites: &[Site],
) -> Result<Vec<Finding>, Fault>
    ensures reads { OnlyReads F.device folder.old folder.new }
    ensures found { F.device.faithful folder.new → IfOk result (λ found. found.items
        ≡ bare_roots sites.now (F.device.contents folder.old) tasks.now) }
    ensures err { F.device.faithful folder.new
        → IfErr result (IsOfMachine (F.device.failures folder.old) (F.device.failures folder.new)) }
{
    let outputs = all_outputs(alloc, tasks)?;
    let roots = all_roots(alloc, tasks)?;
    warn_each(alloc, folder, sites, outputs.as_slice(), roots.as_slice())
}

/// A warning for each of these roots that has no files.
fn warn_each<F: Folder>(
    alloc: Global,
    folder: &mut F,
    sites: &[Site],
    outputs: &[Place],
    roots: &[Rooted],
) -> Result<Vec<Finding>, Fault>
    ensures reads { OnlyReads F.device folder.old folder.new }
    ensures found { F.device.faithful folder.new → IfOk result (λ found. found.items
        ≡ flat_map (bare_root sites.now (F.device.contents folder.old) outputs.now) roots.now) }
    ensures err { F.device.faithful folder.new
        → IfErr result (IsOfMachine (F.device.failures folder.old) (F.device.failures folder.new)) }
{
    let mut found = Vec::new(alloc);
    for rooted in roots {
        push_rooted(alloc, folder, &mut found, sites, outputs, rooted)?;
    }
    Ok(found)
}

fn push_rooted<F: Folder>(
    alloc: Global,
    folder: &mut F,
    found: &mut Vec<Finding>,
    sites: &[Site],
    outputs: &[Place],
    rooted: &Rooted,
) -> Result<(), Fault>
    ensures reads { OnlyReads F.device folder.old folder.new }
    ensures found { F.device.faithful folder.new → OnOk result (found.new.items
        ≡ found.old.items ++ bare_root sites.now (F.device.contents folder.old) outputs.now rooted.now) }
    ensures err { F.device.faithful folder.new
        → IfErr result (IsOfMachine (F.device.failures folder.old) (F.device.failures folder.new)) }
{
    if is_bare(alloc, folder, outputs, &rooted.root)? {
        push_bare(found, sites, rooted)?;
    }
    Ok(())
}

fn push_bare(found: &mut Vec<Finding>, sites: &[Site], rooted: &Rooted) -> Result<(), AllocError>
    ensures { OnOk result (found.new.items
        ≡ found.old.items ++ warning sites.now rooted.now.path (Problem.Bare rooted.now.root) ∷ []) }
{
    push_warning(
        found,
        sites,
        &rooted.path,
        Problem::Bare(rooted.root.copy()?),
    )
}

/// Whether nothing is at a root or under it, and no task makes anything there.
fn is_bare<F: Folder>(
    alloc: Global,
    folder: &mut F,
    outputs: &[Place],
    root: &Place,
) -> Result<bool, Fault>
    ensures reads { OnlyReads F.device folder.old folder.new }
    ensures bare { F.device.faithful folder.new → IfOk result (λ is.
        is ≡ is_bare (F.device.contents folder.old) outputs.now root.now) }
    ensures err { F.device.faithful folder.new
        → IfErr result (IsOfMachine (F.device.failures folder.old) (F.device.failures folder.new)) }
{
    if is_made(outputs, root) {
        return Ok(false);
    }
    has_nothing(alloc, folder, root)
}

fn is_made(outputs: &[Place], root: &Place) -> bool
    ensures { result ≡ list_any (overlaps root.now) outputs.now }
{
    outputs.iter().any(|output| root.overlaps(output))
}

fn has_nothing<F: Folder>(alloc: Global, folder: &mut F, root: &Place) -> Result<bool, Fault>
    ensures reads { OnlyReads F.device folder.old folder.new }
    ensures nothing { F.device.faithful folder.new → IfOk result (λ is. is
        ≡ (is_empty (places_under (F.device.contents folder.old).files root.now)
        && not (is_special_under (F.device.contents folder.old) root.now))) }
    ensures err { F.device.faithful folder.new
        → IfErr result (IsOfMachine (F.device.failures folder.old) (F.device.failures folder.new)) }
{
    match list(alloc, folder, root) {
        Ok(places) => Ok(places.is_empty()),
        Err(fault) => match fault {
            FolderFault::BadFileName => Ok(false),
            other => Err(fault_at(other, root)),
        },
    }
}
