//! The faults of all registered tasks.
ghost use Rattle.std.specs.Prelude.{◌≡◌, ◌≢◌, ◌∷◌, ◌++◌, [], IfErr, IfOk, IsTrue, OnOk};
ghost use Rattle.std.specs.Option.{option_copied, option_map_or};
ghost use Rattle.gb_plan.specs.Graph.{paths_of};
ghost use Rattle.gb_plan.specs.Task.{has_path};
ghost use Rattle.gb_check.specs.Found.{IsFound, fault_spot, found_of, line_spot, task_found};
ghost use Rattle.gb_check.specs.Found.{tasks_found};

use crate::clause_lines::ClauseMark;
use crate::fault_line::line_for;
use crate::findings::{Finding, Problem, Spot, site_of};
use crate::sites::Site;
use crate::whole_plan::{check_all, is_out_of_memory};
use gb_core::path::TaskPath;
use gb_graph::tasks::Tasks;
use gb_report::fault::Fault;
use std::alloc::{AllocError, Global};

/// The fault of each task that has one, in the order of registration. If no task has one, the
/// reason why there is no plan of all tasks, if there is none. `names` are the paths of all tasks.
pub(crate) fn check<Ts: Tasks>(
    alloc: Global,
    tasks: &mut Ts,
    names: &[TaskPath],
    sites: &[Site],
    marks: &[ClauseMark],
) -> Result<Vec<Finding>, Fault>
    requires { names.now ≡ paths_of (Ts.registry tasks.old) }
    ensures kept { Ts.registry tasks.new ≡ Ts.registry tasks.old }
    ensures found { IfOk result (λ found.
        IsFound sites.now marks.now (Ts.registry tasks.old) found.items) }
    ensures err { IfErr result (λ fault. fault ≡ Fault.OutOfMemory) }
{
    let found = check_each(alloc, tasks, names, sites, marks)?;
    if found.as_slice().is_empty() {
        check_all(alloc, tasks, names, sites)
    } else {
        Ok(found)
    }
}

/// The fault of each task that has one.
fn check_each<Ts: Tasks>(
    alloc: Global,
    tasks: &mut Ts,
    names: &[TaskPath],
    sites: &[Site],
    marks: &[ClauseMark],
) -> Result<Vec<Finding>, Fault>
    requires { names.now ≡ paths_of (Ts.registry tasks.old) }
    ensures kept { Ts.registry tasks.new ≡ Ts.registry tasks.old }
    ensures found { IfOk result (λ found.
        found.items ≡ tasks_found sites.now marks.now (Ts.registry tasks.old)) }
    ensures err { IfErr result (λ fault. fault ≡ Fault.OutOfMemory) }
{
    let mut found = Vec::new(alloc);
    for path in names {
        push_task(alloc, &mut found, tasks, path, sites, marks)?;
    }
    Ok(found)
}

/// Adds the fault of a task, if it has one.
fn push_task<Ts: Tasks>(
    alloc: Global,
    found: &mut Vec<Finding>,
    tasks: &mut Ts,
    path: &TaskPath,
    sites: &[Site],
    marks: &[ClauseMark],
) -> Result<(), Fault>
    requires { IsTrue (has_path (paths_of (Ts.registry tasks.old)) path.now) }
    ensures kept { Ts.registry tasks.new ≡ Ts.registry tasks.old }
    ensures found { OnOk result (found.new.items
        ≡ found.old.items ++ task_found sites.now marks.now (Ts.registry tasks.old) path.now) }
    ensures err { IfErr result (λ fault. fault ≡ Fault.OutOfMemory) }
{
    match tasks.realise(alloc, path) {
        Ok(task) => {
            drop(task);
            Ok(())
        }
        Err(fault) => push_fault(alloc, found, sites, marks, path, fault),
    }
}

/// Adds a fault. A fault for lack of memory is returned instead.
fn push_fault(
    alloc: Global,
    found: &mut Vec<Finding>,
    sites: &[Site],
    marks: &[ClauseMark],
    path: &TaskPath,
    fault: Fault,
) -> Result<(), Fault>
    ensures fault { OnOk result (fault ≢ Fault.OutOfMemory) }
    ensures found { OnOk result
        (found.new.items ≡ found.old.items ++ found_of sites.now marks.now path.now fault ∷ []) }
    ensures err { IfErr result (λ fault. fault ≡ Fault.OutOfMemory) }
{
    if is_out_of_memory(&fault) {
        return Err(fault);
    }
    match fault_spot(alloc, marks, path, &fault, site_of(sites, path)) {
        Ok(spot) => {
            let cause = Problem::Fault(fault);
            found.push(Finding { spot, cause })?;
            Ok(())
        }
        Err(_) => {
            drop(fault);
            Err(Fault::OutOfMemory)
        }
    }
}

/// The line of the clause that the fault of a task names, or else of its registration.
fn fault_spot(
    alloc: Global,
    marks: &[ClauseMark],
    path: &TaskPath,
    fault: &Fault,
    site: Option<&Site>,
) -> Result<Spot, AllocError>
    ensures { IfOk result (λ spot. spot
        ≡ option_map_or (line_spot marks.now path.now fault.now) (option_copied site.entry) Spot.Unknown) }
{
    match site {
        Some(site) => {
            let line = line_for(alloc, marks, path, fault, site.line)?;
            Ok(Spot::Line(site.script.copy()?, line))
        }
        None => Ok(Spot::Unknown),
    }
}
