//! Registered tasks as JSON.
ghost use Rattle.std.specs.Prelude.{◌≡◌, ◌≢◌, Err, IfOk, IsTrue, Ok, OnOk, Some, false, map, string_bytes};
ghost use Rattle.serde_json.specs.Data.{string};
ghost use Rattle.serde_json.specs.View.{view};
ghost use Rattle.gb_plan.specs.Graph.{paths_of};
ghost use Rattle.gb_plan.specs.Task.{has_path};
ghost use Rattle.gb_query.specs.Listing.{declared_object, fault_object, made_object, places_data};
ghost use Rattle.gb_query.specs.Listing.{task_object, tasks_data};
ghost use Rattle.gb_query.specs.Objects.{IsJsonOf};

use crate::defaults::is_default;
use crate::objects::{json_line, text_value};
use gb_core::path::TaskPath;
use gb_graph::tasks::Tasks;
use gb_plan::task::{Output, TaskDeclaration};
use gb_report::fault::Fault;
use serde_json::{Value, json};
use std::alloc::{AllocError, Global};
use std::fmt::Write;

/// A line of JSON: an array with an object for each registered task; these are their paths. A task
/// with a fault has an object with its fault, so that the only error is lack of memory.
pub fn tasks_json<Ts: Tasks>(
    alloc: Global,
    tasks: &mut Ts,
    names: &[TaskPath],
) -> Result<String, AllocError>
    requires { names.now ≡ paths_of (Ts.registry tasks.old) }
    ensures { IfOk result (λ text. IsJsonOf (tasks_data (Ts.registry tasks.old)) (string_bytes text)) }
{
    let values = task_objects(alloc, tasks, names)?;
    json_line(alloc, Value::Array(values))
}

fn task_objects<Ts: Tasks>(
    alloc: Global,
    tasks: &mut Ts,
    names: &[TaskPath],
) -> Result<Vec<Value>, AllocError>
    requires { names.now ≡ paths_of (Ts.registry tasks.old) }
    ensures { IfOk result (λ values. map view values.items
        ≡ map (task_object (Ts.registry tasks.old)) names.now) }
{
    let mut values = Vec::new(alloc);
    for path in names {
        values.push(task_object(alloc, tasks, path)?)?;
    }
    Ok(values)
}

fn task_object<Ts: Tasks>(
    alloc: Global,
    tasks: &mut Ts,
    path: &TaskPath,
) -> Result<Value, AllocError>
    requires { IsTrue (has_path (paths_of (Ts.registry tasks.old)) path.now) }
    ensures kept { Ts.registry tasks.new ≡ Ts.registry tasks.old }
    ensures object { IfOk result (λ value. view value ≡ task_object (Ts.registry tasks.old) path.now) }
{
    let is_default = is_default(tasks.default_tasks(), path);
    match tasks.realise(alloc, path) {
        Ok(task) => task_made(alloc, path.as_str(), is_default, task),
        Err(fault) => task_at_fault(alloc, path.as_str(), is_default, fault),
    }
}

/// The object of a declared task, which is dropped.
fn task_made(
    alloc: Global,
    path: &str,
    is_default: bool,
    task: TaskDeclaration,
) -> Result<Value, AllocError>
    ensures { IfOk result (λ value. view value
        ≡ declared_object path.now is_default (Some (Ok task))) }
{
    let value = declared_object(alloc, path, is_default, &task);
    drop(task);
    value
}

/// The object of a task with a fault. A fault for lack of memory is returned instead.
fn task_at_fault(
    alloc: Global,
    path: &str,
    is_default: bool,
    fault: Fault,
) -> Result<Value, AllocError>
    ensures fault { OnOk result (fault ≢ Fault.OutOfMemory) }
    ensures object { IfOk result (λ value. view value
        ≡ declared_object path.now is_default (Some (Err fault))) }
{
    let value = unless_memory(alloc, path, is_default, &fault);
    drop(fault);
    value
}

fn unless_memory(
    alloc: Global,
    path: &str,
    is_default: bool,
    fault: &Fault,
) -> Result<Value, AllocError>
    ensures fault { OnOk result (fault.now ≢ Fault.OutOfMemory) }
    ensures object { IfOk result (λ value. view value
        ≡ declared_object path.now is_default (Some (Err fault.now))) }
{
    if is_out_of_memory(fault) {
        return Err(AllocError);
    }
    unreadable_object(alloc, path, is_default, fault)
}

fn is_out_of_memory(fault: &Fault) -> bool
    ensures { result ≡ false → fault.now ≢ Fault.OutOfMemory }
{
    matches!(fault, Fault::OutOfMemory)
}

fn declared_object(
    alloc: Global,
    path: &str,
    is_default: bool,
    task: &TaskDeclaration,
) -> Result<Value, AllocError>
    ensures { IfOk result (λ value. view value ≡ declared_object path.now is_default (Some (Ok task.now))) }
{
    let actions = Value::Array(kinds(alloc, task)?);
    let value = with_actions(alloc, path, is_default, &actions, task.outputs.as_slice());
    drop(actions);
    value
}

/// The object of a task with these actions.
fn with_actions(
    alloc: Global,
    path: &str,
    is_default: bool,
    actions: &Value,
    outputs: &[Output],
) -> Result<Value, AllocError>
    ensures { IfOk result (λ value. view value
        ≡ made_object path.now is_default (view actions.now) (places_data outputs.now)) }
{
    let outputs = Value::Array(places(alloc, outputs)?);
    let value = made_object(alloc, path, is_default, actions, &outputs);
    drop(outputs);
    value
}

fn made_object(
    alloc: Global,
    path: &str,
    is_default: bool,
    actions: &Value,
    outputs: &Value,
) -> Result<Value, AllocError>
    ensures { IfOk result (λ value. view value
        ≡ made_object path.now is_default (view actions.now) (view outputs.now)) }
{
    json!(in alloc; {"actions": actions, "default": is_default, "outputs": outputs, "task": path})
}

/// The kinds of a task's actions.
fn kinds(alloc: Global, task: &TaskDeclaration) -> Result<Vec<Value>, AllocError>
    ensures { IfOk result (λ values. map view values.items
        ≡ map (λ action. string action.kind) task.now.actions) }
{
    let mut values = Vec::new(alloc);
    for action in task.actions.iter() {
        values.push(text_value(alloc, action.kind.as_str())?)?;
    }
    Ok(values)
}

/// The places of outputs.
fn places(alloc: Global, outputs: &[Output]) -> Result<Vec<Value>, AllocError>
    ensures { IfOk result (λ values. map view values.items
        ≡ map (λ output. string output.place) outputs.now) }
{
    let mut values = Vec::new(alloc);
    for output in outputs {
        values.push(text_value(alloc, output.place.as_str())?)?;
    }
    Ok(values)
}

fn unreadable_object(
    alloc: Global,
    path: &str,
    is_default: bool,
    fault: &Fault,
) -> Result<Value, AllocError>
    ensures { IfOk result (λ value. view value ≡ declared_object path.now is_default (Some (Err fault.now))) }
{
    let mut text = String::new(alloc);
    write!(text, "{fault}")?;
    fault_object(alloc, path, is_default, text.as_str())
}

fn fault_object(
    alloc: Global,
    path: &str,
    is_default: bool,
    fault: &str,
) -> Result<Value, AllocError>
    ensures { IfOk result (λ value. view value ≡ fault_object path.now is_default fault.now) }
{
    json!(in alloc; {"default": is_default, "fault": fault, "task": path})
}
