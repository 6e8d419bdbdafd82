//! The plan of all registered tasks.
ghost use Rattle.std.specs.Prelude.{◌≡◌, ◌≢◌, ◌∷◌, [], IfErr, IfOk, OnOk, false, true};
ghost use Rattle.std.specs.Option.{option_copied, option_map_or};
ghost use Rattle.gb_check.specs.Findings.{spot_at};
ghost use Rattle.gb_check.specs.Found.{IsFoundInAll, IsFoundInPlan, named_by, plan_found};

use crate::findings::{Finding, Problem, Spot, spot_at};
use crate::sites::Site;
use gb_core::path::TaskPath;
use gb_core::text::Text;
use gb_graph::plan::plan;
use gb_graph::tasks::Tasks;
use gb_report::fault::Fault;
use std::alloc::{AllocError, Global};

/// Why there is no plan of all tasks, if there is none; these are their paths.
pub(crate) fn check_all<Ts: Tasks>(
    alloc: Global,
    tasks: &mut Ts,
    names: &[TaskPath],
    sites: &[Site],
) -> Result<Vec<Finding>, Fault>
    ensures kept { Ts.registry tasks.new ≡ Ts.registry tasks.old }
    ensures found { IfOk result (λ found.
        IsFoundInAll sites.now (Ts.registry tasks.old) names.now found.items) }
    ensures err { IfErr result (λ fault. fault ≡ Fault.OutOfMemory) }
{
    if names.is_empty() {
        return Ok(Vec::new(alloc));
    }
    let words = words_of(alloc, names)?;
    check_plan(alloc, tasks, words.as_slice(), sites)
}

/// The paths as words.
fn words_of(alloc: Global, names: &[TaskPath]) -> Result<Vec<Text>, AllocError>
    ensures { IfOk result (λ words. words.items ≡ names.now) }
{
    let mut words = Vec::new(alloc);
    for path in names {
        words.push(Text::from_str(alloc, path.as_str())?)?;
    }
    Ok(words)
}

/// Why there is no plan of these words, if there is none.
fn check_plan<Ts: Tasks>(
    alloc: Global,
    tasks: &mut Ts,
    words: &[Text],
    sites: &[Site],
) -> Result<Vec<Finding>, Fault>
    ensures kept { Ts.registry tasks.new ≡ Ts.registry tasks.old }
    ensures found { IfOk result (λ found.
        IsFoundInPlan sites.now (Ts.registry tasks.old) words.now found.items) }
    ensures err { IfErr result (λ fault. fault ≡ Fault.OutOfMemory) }
{
    match plan(alloc, tasks, words, &[]) {
        Ok(plan) => {
            drop(plan);
            Ok(Vec::new(alloc))
        }
        Err(fault) => plan_found(alloc, sites, fault),
    }
}

/// The fault of a plan. A fault for lack of memory is returned instead.
fn plan_found(alloc: Global, sites: &[Site], fault: Fault) -> Result<Vec<Finding>, Fault>
    ensures fault { OnOk result (fault ≢ Fault.OutOfMemory) }
    ensures found { IfOk result (λ found. found.items ≡ plan_found sites.now fault ∷ []) }
    ensures err { IfErr result (λ fault. fault ≡ Fault.OutOfMemory) }
{
    if is_out_of_memory(&fault) {
        return Err(fault);
    }
    match named_spot(sites, named_by(&fault)) {
        Ok(spot) => {
            let cause = Problem::Fault(fault);
            let mut found = Vec::new(alloc);
            found.push(Finding { spot, cause })?;
            Ok(found)
        }
        Err(_) => {
            drop(fault);
            Err(Fault::OutOfMemory)
        }
    }
}

/// Whether memory ran out.
pub(crate) fn is_out_of_memory(fault: &Fault) -> bool
    ensures no { result ≡ false → fault.now ≢ Fault.OutOfMemory }
    ensures yes { result ≡ true → fault.now ≡ Fault.OutOfMemory }
{
    matches!(fault, Fault::OutOfMemory)
}

/// The first task that the fault of a plan names.
fn named_by(fault: &Fault) -> Option<&TaskPath>
    ensures { option_copied result ≡ named_by fault.now }
{
    match fault {
        Fault::Cycle(paths) => paths.as_slice().first(),
        Fault::OverlappingOutputs(task, _, _) => Some(task),
        Fault::UndeclaredDependency(task, _, _) => Some(task),
        Fault::OwnOutputAsInput(task, _) => Some(task),
        _ => None,
    }
}

/// Where the task is registered, if one is named.
fn named_spot(sites: &[Site], path: Option<&TaskPath>) -> Result<Spot, AllocError>
    ensures { IfOk result (λ spot.
        spot ≡ option_map_or (spot_at sites.now) (option_copied path.entry) Spot.Unknown) }
{
    match path {
        Some(path) => spot_at(sites, path),
        None => Ok(Spot::Unknown),
    }
}
