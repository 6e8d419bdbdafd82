//! What to do with a task, by its record and its present state.
ghost use Rattle.std.specs.Prelude.{◌≡◌, ◌↔◌, ◌++◌, length, IsTrue, IfOk, OnOk};
ghost use Rattle.std.specs.List.{AllZip, flat_map, zip};
ghost use Rattle.std.specs.Option.{option_copied};
ghost use Rattle.gb_history.specs.Decision.{Decides, DecidesFrom, IsAlike, IsSince};
ghost use Rattle.gb_history.specs.Decision.{IsUpToDate, changes_of, is_incremental};

use crate::record::Record;
use crate::same::{Same, are_same};
use gb_action::change::ChangeLists;
use gb_core::name::Name;
use gb_tree::changes::compare;
use gb_tree::prints::Prints;
use std::alloc::{AllocError, Global};

/// What a task has before it runs.
#[derive(Drop)]
pub struct Present {
    /// The record that it would have if nothing had to be done.
    pub now: Record,
    /// The names of the incremental file properties.
    pub incremental: Vec<Name>,
    /// Every task is to run, also if it would be up to date by its record.
    pub rerun: bool,
    /// A test of `upToDateWhen` is false.
    pub is_stale: bool,
}

/// What to do with a task.
#[derive(Drop)]
pub enum Decision {
    /// Nothing: all is as after its last run.
    UpToDate,
    /// To execute it incrementally, starting from its last outputs, with the changes of the
    /// incremental properties.
    Incremental(ChangeLists),
    /// To execute it in full, from scratch.
    Full,
}

/// What to do with a task that has this record.
pub fn decide(
    alloc: Global,
    old: Option<&Record>,
    present: &Present,
) -> Result<Decision, AllocError>
    ensures { IfOk result (Decides (option_copied old.entry) present.entry.now) }
{
    match old {
        None => Ok(Decision::Full),
        Some(run) => decide_from(alloc, run, present),
    }
}

fn decide_from(alloc: Global, run: &Record, present: &Present) -> Result<Decision, AllocError>
    ensures { IfOk result (DecidesFrom run.now present.entry.now) }
{
    if is_up_to_date(run, present) {
        return Ok(Decision::UpToDate);
    }
    if !is_since(run, present) {
        return Ok(Decision::Full);
    }
    let names = present.incremental.as_slice();
    Ok(Decision::Incremental(changes_since(alloc, names, run.inputs(), present.now.inputs())?))
}

fn is_up_to_date(run: &Record, present: &Present) -> bool
    ensures { IsTrue result ↔ IsUpToDate run.now present.entry.now }
{
    !present.rerun
        && !present.is_stale
        && !present.now.outputs().is_empty()
        && run.is_same(&present.now)
}

/// Whether the run differs from what the task has now only in incremental properties.
fn is_since(run: &Record, present: &Present) -> bool
    ensures { IsTrue result ↔ IsSince run.now present.entry.now }
{
    !present.rerun
        && !present.is_stale
        && are_same(run.actions(), present.now.actions())
        && are_same(run.values().as_slice(), present.now.values().as_slice())
        && are_same(run.outputs(), present.now.outputs())
        && are_alike(
            present.incremental.as_slice(),
            run.inputs(),
            present.now.inputs(),
        )
}

fn is_incremental(names: &[Name], name: &Name) -> bool
    ensures { result ≡ is_incremental names.now name.now }
{
    names.iter().any(|other| other == name)
}

/// Whether the properties have the same names in the same order, and the same files unless they are
/// incremental.
fn are_alike(incremental: &[Name], old: &[Prints], new: &[Prints]) -> bool
    ensures { IsTrue result ↔ AllZip (IsAlike incremental.now) old.now new.now }
{
    if old.len() != new.len() {
        return false;
    }
    for (at, before) in old.iter().enumerate() {
        if !is_alike(incremental, before, &new[at]) {
            return false;
        }
    }
    true
}

fn is_alike(incremental: &[Name], old: &Prints, new: &Prints) -> bool
    ensures { IsTrue result ↔ IsAlike incremental.now old.now new.now }
{
    old.name() == new.name()
        && (is_incremental(incremental, old.name()) || are_same(old.as_slice(), new.as_slice()))
}

/// The changes of the incremental properties. There are as many properties as before.
fn changes_since(
    alloc: Global,
    incremental: &[Name],
    old: &[Prints],
    new: &[Prints],
) -> Result<ChangeLists, AllocError>
    requires { length old.now ≡ length new.now }
    ensures { IfOk result (λ changes. changes ≡ flat_map (changes_of incremental.now) (zip old.now new.now)) }
{
    let mut lists = ChangeLists::new(alloc);
    for (at, before) in old.iter().enumerate() {
        report(&mut lists, alloc, incremental, before, &new[at])?;
    }
    Ok(lists)
}

/// Appends the changes of a property, where it is incremental.
fn report(
    lists: &mut ChangeLists,
    alloc: Global,
    incremental: &[Name],
    old: &Prints,
    new: &Prints,
) -> Result<(), AllocError>
    ensures { OnOk result (lists.new ≡ lists.old ++ changes_of incremental.now (old.now, new.now)) }
{
    if is_incremental(incremental, old.name()) {
        lists.push((old.name().copy()?, compare(alloc, old, new)?))?;
    }
    Ok(())
}
