//! Findings: what is wrong or may not be intended, and where.
ghost use Rattle.std.specs.Prelude.{◌≡◌, ◌∷◌, ◌++◌, [], IfOk, OnOk, bytes_eq, find};
ghost use Rattle.std.specs.Option.{option_copied, option_map_or};
ghost use Rattle.gb_check.specs.Findings.{spot_at, spot_of, warning};

use crate::sites::Site;
use gb_core::name::Name;
use gb_core::path::TaskPath;
use gb_core::place::Place;
use gb_report::fault::Fault;
use std::alloc::AllocError;

/// Where a finding is.
#[derive(Drop)]
pub enum Spot {
    /// In this line of a script.
    Line(Place, u64),
    /// In the value that the arguments give to this name.
    Value(Name),
    /// It is not known where.
    Unknown,
}

/// What is found.
#[derive(Drop)]
pub enum Problem {
    /// A fault, which keeps builds from starting.
    Fault(Fault),
    /// These two file properties of the task have a root in common.
    Shared(Name, Name),
    /// This root of the task overlaps an output of another one, which the task does not need.
    Unneeded(Place, TaskPath),
    /// Where the first task is skipped, the second one reads its old output.
    Stale(TaskPath, TaskPath),
    /// No file is at this root of the task.
    Bare(Place),
    /// Nothing reads the value.
    Unread,
    /// There is a record of this task, which no script registers.
    Unregistered(TaskPath),
}

/// A fault or a warning.
#[derive(Drop)]
pub struct Finding {
    /// Where it is.
    pub spot: Spot,
    /// What it is.
    pub cause: Problem,
}

/// All findings.
#[derive(Drop)]
pub struct Findings {
    /// Faults, which keep builds from starting.
    pub faults: Vec<Finding>,
    /// Warnings: they keep no build from starting, but may not be intended.
    pub warnings: Vec<Finding>,
}

/// Adds a warning of the task at a path.
pub(crate) fn push_warning(
    found: &mut Vec<Finding>,
    sites: &[Site],
    path: &TaskPath,
    cause: Problem,
) -> Result<(), AllocError>
    ensures { OnOk result
        (found.new.items ≡ found.old.items ++ warning sites.now path.now cause ∷ []) }
{
    match spot_at(sites, path) {
        Ok(spot) => {
            found.push(Finding { spot, cause })?;
            Ok(())
        }
        Err(fault) => {
            drop(cause);
            Err(fault)
        }
    }
}

/// Where a task is registered.
pub(crate) fn spot_at(sites: &[Site], path: &TaskPath) -> Result<Spot, AllocError>
    ensures { IfOk result (λ spot. spot ≡ spot_at sites.now path.now) }
{
    spot_of(site_of(sites, path))
}

pub(crate) fn site_of<'s>(sites: &'s [Site], path: &TaskPath) -> Option<&'s Site>
    ensures { option_copied result ≡ find (λ site. bytes_eq site.path path.now) sites.now }
{
    sites.iter().find(|site| site.path == *path)
}

fn spot_of(site: Option<&Site>) -> Result<Spot, AllocError>
    ensures { IfOk result (λ spot.
        spot ≡ option_map_or spot_of (option_copied site.entry) Spot.Unknown) }
{
    match site {
        Some(site) => Ok(Spot::Line(site.script.copy()?, site.line)),
        None => Ok(Spot::Unknown),
    }
}
