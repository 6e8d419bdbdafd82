//! The lines of registered tasks.
ghost use Rattle.std.specs.Prelude.{◌≡◌, ◌≢◌, ◌++◌, Err, IfOk, IsTrue, Ok, OnOk, Some, false, string_bytes};
ghost use Rattle.std.specs.List.{flat_map};
ghost use Rattle.gb_plan.specs.Graph.{declaration_at, paths_of};
ghost use Rattle.gb_plan.specs.Task.{has_path};
ghost use Rattle.gb_query.specs.Listing.{default_text, kind_text, made_text, output_text, task_line};
ghost use Rattle.gb_query.specs.Listing.{tasks_text};

use crate::defaults::is_default;
use gb_core::path::TaskPath;
use gb_core::text::Text;
use gb_graph::tasks::Tasks;
use gb_picture::shown::push_shown;
use gb_plan::task::{Action, Output, TaskDeclaration};
use gb_report::fault::Fault;
use std::alloc::{AllocError, Global};
use std::fmt::Write;

/// One line for each registered task; these are their paths. A task with a fault has a line with
/// its fault, so that the only error is lack of memory.
pub fn tasks_text<Ts: Tasks>(
    alloc: Global,
    tasks: &mut Ts,
    names: &[TaskPath],
) -> Result<String, AllocError>
    requires { names.now ≡ paths_of (Ts.registry tasks.old) }
    ensures { IfOk result (λ text. string_bytes text ≡ tasks_text (Ts.registry tasks.old)) }
{
    let mut text = String::new(alloc);
    for path in names {
        push_task(alloc, &mut text, tasks, path)?;
    }
    Ok(text)
}

/// Adds the line of a task.
fn push_task<Ts: Tasks>(
    alloc: Global,
    text: &mut String,
    tasks: &mut Ts,
    path: &TaskPath,
) -> Result<(), AllocError>
    requires { IsTrue (has_path (paths_of (Ts.registry tasks.old)) path.now) }
    ensures kept { Ts.registry tasks.new ≡ Ts.registry tasks.old }
    ensures line { OnOk result
        (string_bytes text.new ≡ string_bytes text.old ++ task_line (Ts.registry tasks.old) path.now) }
{
    push_heading(text, tasks.default_tasks(), path)?;
    push_made(alloc, text, tasks, path)?;
    text.push('\n')
}

/// Adds the path of a task, and whether it is a default task.
fn push_heading(text: &mut String, defaults: &[Text], path: &TaskPath) -> Result<(), AllocError>
    ensures { OnOk result (string_bytes text.new
        ≡ string_bytes text.old ++ path.now ++ default_text defaults.now path.now) }
{
    write!(text, "{path}")?;
    if is_default(defaults, path) {
        text.push_str(" (default)")?;
    }
    Ok(())
}

/// Adds what a task does and makes, or its fault.
fn push_made<Ts: Tasks>(
    alloc: Global,
    text: &mut String,
    tasks: &mut Ts,
    path: &TaskPath,
) -> Result<(), AllocError>
    requires { IsTrue (has_path (paths_of (Ts.registry tasks.old)) path.now) }
    ensures kept { Ts.registry tasks.new ≡ Ts.registry tasks.old }
    ensures made { OnOk result (string_bytes text.new
        ≡ string_bytes text.old ++ made_text (declaration_at (Ts.registry tasks.old) path.now)) }
{
    match tasks.realise(alloc, path) {
        Ok(task) => push_task_made(alloc, text, task),
        Err(fault) => push_fault(text, fault),
    }
}

/// Adds what a task does and makes, and drops it.
fn push_task_made(alloc: Global, text: &mut String, task: TaskDeclaration) -> Result<(), AllocError>
    ensures { OnOk result (string_bytes text.new ≡ string_bytes text.old ++ made_text (Some (Ok task))) }
{
    let pushed = push_declared(alloc, text, &task);
    drop(task);
    pushed
}

/// Adds the fault of a task. A fault for lack of memory is returned instead.
fn push_fault(text: &mut String, fault: Fault) -> Result<(), AllocError>
    ensures fault { OnOk result (fault ≢ Fault.OutOfMemory) }
    ensures made { OnOk result
        (string_bytes text.new ≡ string_bytes text.old ++ made_text (Some (Err fault))) }
{
    let pushed = write_unless_memory(text, &fault);
    drop(fault);
    pushed
}

fn write_unless_memory(text: &mut String, fault: &Fault) -> Result<(), AllocError>
    ensures fault { OnOk result (fault.now ≢ Fault.OutOfMemory) }
    ensures made { OnOk result
        (string_bytes text.new ≡ string_bytes text.old ++ made_text (Some (Err fault.now))) }
{
    if is_out_of_memory(fault) {
        return Err(AllocError);
    }
    write_fault(text, fault)
}

fn is_out_of_memory(fault: &Fault) -> bool
    ensures { result ≡ false → fault.now ≢ Fault.OutOfMemory }
{
    matches!(fault, Fault::OutOfMemory)
}

fn write_fault(text: &mut String, fault: &Fault) -> Result<(), AllocError>
    ensures { OnOk result
        (string_bytes text.new ≡ string_bytes text.old ++ made_text (Some (Err fault.now))) }
{
    write!(text, ": {fault}")
}

/// Adds the kinds of a task's actions, and the places that it makes.
fn push_declared(alloc: Global, text: &mut String, task: &TaskDeclaration) -> Result<(), AllocError>
    ensures { OnOk result (string_bytes text.new ≡ string_bytes text.old ++ made_text (Some (Ok task.now))) }
{
    push_kinds(text, task)?;
    push_outputs(alloc, text, task.outputs.as_slice())
}

fn push_kinds(text: &mut String, task: &TaskDeclaration) -> Result<(), AllocError>
    ensures { OnOk result
        (string_bytes text.new ≡ string_bytes text.old ++ flat_map kind_text task.now.actions) }
{
    for action in task.actions.iter() {
        push_kind(text, action)?;
    }
    Ok(())
}

fn push_kind(text: &mut String, action: &Action) -> Result<(), AllocError>
    ensures { OnOk result (string_bytes text.new ≡ string_bytes text.old ++ kind_text action.now) }
{
    let kind = &action.kind;
    write!(text, " {kind}")
}

fn push_outputs(alloc: Global, text: &mut String, outputs: &[Output]) -> Result<(), AllocError>
    ensures { OnOk result
        (string_bytes text.new ≡ string_bytes text.old ++ flat_map output_text outputs.now) }
{
    for output in outputs {
        text.push_str(" -> ")?;
        push_shown(alloc, text, output.place.as_str())?;
    }
    Ok(())
}
