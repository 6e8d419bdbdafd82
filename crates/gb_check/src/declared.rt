//! The declarations of tasks without a fault.
ghost use Rattle.std.specs.Prelude.{◌≡◌, ◌≢◌, ◌++◌, IfErr, IfOk, IsTrue, OnOk};
ghost use Rattle.gb_plan.specs.Graph.{declaration_at, paths_of};
ghost use Rattle.gb_plan.specs.Task.{has_path};
ghost use Rattle.gb_check.specs.Warnings.{declared_in, declared_of};

use crate::whole_plan::is_out_of_memory;
use gb_core::path::TaskPath;
use gb_graph::tasks::Tasks;
use gb_plan::task::TaskDeclaration;
use gb_report::fault::Fault;
use std::alloc::Global;

/// The tasks that have no fault, in the order of registration. `names` are the paths of all tasks.
pub(crate) fn declarations<Ts: Tasks>(
    alloc: Global,
    tasks: &mut Ts,
    names: &[TaskPath],
) -> Result<Vec<TaskDeclaration>, Fault>
    requires { names.now ≡ paths_of (Ts.registry tasks.old) }
    ensures kept { Ts.registry tasks.new ≡ Ts.registry tasks.old }
    ensures declared { IfOk result (λ declared. declared.items ≡ declared_in (Ts.registry tasks.old)) }
    ensures err { IfErr result (λ fault. fault ≡ Fault.OutOfMemory) }
{
    let mut declared = Vec::new(alloc);
    for path in names {
        push_declared(alloc, &mut declared, tasks, path)?;
    }
    Ok(declared)
}

/// Adds the task at a path, unless it has a fault.
fn push_declared<Ts: Tasks>(
    alloc: Global,
    declared: &mut Vec<TaskDeclaration>,
    tasks: &mut Ts,
    path: &TaskPath,
) -> Result<(), Fault>
    requires { IsTrue (has_path (paths_of (Ts.registry tasks.old)) path.now) }
    ensures kept { Ts.registry tasks.new ≡ Ts.registry tasks.old }
    ensures declared { OnOk result (declared.new.items ≡ declared.old.items
        ++ declared_of (declaration_at (Ts.registry tasks.old) path.now)) }
    ensures err { IfErr result (λ fault. fault ≡ Fault.OutOfMemory) }
{
    match tasks.realise(alloc, path) {
        Ok(task) => {
            declared.push(task)?;
            Ok(())
        }
        Err(fault) => passed_over(fault),
    }
}

/// A task with a fault has no warnings. A fault for lack of memory is returned.
fn passed_over(fault: Fault) -> Result<(), Fault>
    ensures ok { OnOk result (fault ≢ Fault.OutOfMemory) }
    ensures err { IfErr result (λ fault. fault ≡ Fault.OutOfMemory) }
{
    if is_out_of_memory(&fault) {
        return Err(fault);
    }
    drop(fault);
    Ok(())
}
