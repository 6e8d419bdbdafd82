//! Which registered tasks read a place, and which make it.
ghost use Rattle.std.specs.Prelude.{◌≡◌, ◌≢◌, ◌++◌, [], ◌∷◌, IfOk, IsTrue, Ok, OnOk, Some, false};
ghost use Rattle.std.specs.List.{flat_map};
ghost use Rattle.gb_plan.specs.Graph.{declaration_at, paths_of};
ghost use Rattle.gb_plan.specs.Task.{has_path};
ghost use Rattle.gb_query.specs.Search.{found_at, found_in, found_of, maker_in, reader_in};

use crate::membership::{is_under, takes_in};
use gb_core::name::Name;
use gb_core::path::TaskPath;
use gb_core::place::Place;
use gb_graph::tasks::Tasks;
use gb_plan::task::{FileProperty, Output, TaskDeclaration};
use gb_report::fault::Fault;
use std::alloc::{AllocError, Global};

/// The relation by which tasks are searched.
#[derive(Clone, Copy, Debug, PartialEq, Eq)]
pub enum Relation {
    /// Those that read a place.
    Reads,
    /// Those that make it.
    Makes,
}

/// The findings for a task.
#[derive(Drop)]
pub enum Found {
    /// The task, and its file property or output that includes the place.
    Related(TaskPath, Name),
    /// The task, and why its declaration cannot be read.
    Unreadable(TaskPath, Fault),
}

/// The findings for all registered tasks; these are their paths. A task with a fault is found with
/// its fault, so that the only error is lack of memory.
pub fn search<Ts: Tasks>(
    alloc: Global,
    relation: Relation,
    tasks: &mut Ts,
    names: &[TaskPath],
    place: &Place,
) -> Result<Vec<Found>, AllocError>
    requires { names.now ≡ paths_of (Ts.registry tasks.old) }
    ensures { IfOk result (λ found. found.items ≡ found_in relation place.now (Ts.registry tasks.old)) }
{
    let mut found = Vec::new(alloc);
    for path in names {
        search_task(alloc, &mut found, relation, tasks, path, place)?;
    }
    Ok(found)
}

/// Adds the findings for one task.
fn search_task<Ts: Tasks>(
    alloc: Global,
    found: &mut Vec<Found>,
    relation: Relation,
    tasks: &mut Ts,
    path: &TaskPath,
    place: &Place,
) -> Result<(), AllocError>
    requires { IsTrue (has_path (paths_of (Ts.registry tasks.old)) path.now) }
    ensures kept { Ts.registry tasks.new ≡ Ts.registry tasks.old }
    ensures found { OnOk result (found.new.items ≡ found.old.items
        ++ found_at relation place.now path.now (declaration_at (Ts.registry tasks.old) path.now)) }
{
    match tasks.realise(alloc, path) {
        Ok(task) => push_found(alloc, found, relation, path, task, place),
        Err(fault) => push_unreadable(found, path, fault),
    }
}

/// Adds the findings for a declared task, and drops it.
fn push_found(
    alloc: Global,
    found: &mut Vec<Found>,
    relation: Relation,
    path: &TaskPath,
    task: TaskDeclaration,
    place: &Place,
) -> Result<(), AllocError>
    ensures { OnOk result (found.new.items
        ≡ found.old.items ++ found_at relation place.now path.now (Some (Ok task))) }
{
    let pushed = push_related(alloc, found, relation, path, &task, place);
    drop(task);
    pushed
}

/// Adds that a task cannot be read. A fault for lack of memory is returned instead.
fn push_unreadable(found: &mut Vec<Found>, path: &TaskPath, fault: Fault) -> Result<(), AllocError>
    ensures fault { OnOk result (fault ≢ Fault.OutOfMemory) }
    ensures found { OnOk result (found.new.items
        ≡ found.old.items ++ Found.Unreadable path.now fault ∷ []) }
{
    if is_out_of_memory(&fault) {
        drop(fault);
        return Err(AllocError);
    }
    push_fault(found, path, fault)
}

fn push_fault(found: &mut Vec<Found>, path: &TaskPath, fault: Fault) -> Result<(), AllocError>
    ensures { OnOk result (found.new.items
        ≡ found.old.items ++ Found.Unreadable path.now fault ∷ []) }
{
    match path.copy() {
        Ok(copied) => push_one(found, Found::Unreadable(copied, fault)),
        Err(error) => {
            drop(fault);
            Err(error)
        }
    }
}

fn push_one(found: &mut Vec<Found>, one: Found) -> Result<(), AllocError>
    ensures { OnOk result (found.new.items ≡ found.old.items ++ one ∷ []) }
{
    found.push(one)?;
    Ok(())
}

fn is_out_of_memory(fault: &Fault) -> bool
    ensures { result ≡ false → fault.now ≢ Fault.OutOfMemory }
{
    matches!(fault, Fault::OutOfMemory)
}

fn push_related(
    alloc: Global,
    found: &mut Vec<Found>,
    relation: Relation,
    path: &TaskPath,
    task: &TaskDeclaration,
    place: &Place,
) -> Result<(), AllocError>
    ensures { OnOk result
        (found.new.items ≡ found.old.items ++ found_of relation place.now path.now task.now) }
{
    match relation {
        Relation::Reads => push_readers(alloc, found, path, task.files.as_slice(), place),
        Relation::Makes => push_makers(found, path, task.outputs.as_slice(), place),
    }
}

/// Adds the file properties that include the place.
fn push_readers(
    alloc: Global,
    found: &mut Vec<Found>,
    path: &TaskPath,
    files: &[FileProperty],
    place: &Place,
) -> Result<(), AllocError>
    ensures { OnOk result
        (found.new.items ≡ found.old.items ++ flat_map (reader_in path.now place.now) files.now) }
{
    for property in files {
        push_reader(alloc, found, path, property, place)?;
    }
    Ok(())
}

fn push_reader(
    alloc: Global,
    found: &mut Vec<Found>,
    path: &TaskPath,
    property: &FileProperty,
    place: &Place,
) -> Result<(), AllocError>
    ensures { OnOk result
        (found.new.items ≡ found.old.items ++ reader_in path.now place.now property.now) }
{
    if takes_in(alloc, property, place)? {
        push_name(found, path, &property.name)?;
    }
    Ok(())
}

/// Adds the outputs that are the place, or above it.
fn push_makers(
    found: &mut Vec<Found>,
    path: &TaskPath,
    outputs: &[Output],
    place: &Place,
) -> Result<(), AllocError>
    ensures { OnOk result
        (found.new.items ≡ found.old.items ++ flat_map (maker_in path.now place.now) outputs.now) }
{
    for output in outputs {
        push_maker(found, path, output, place)?;
    }
    Ok(())
}

fn push_maker(
    found: &mut Vec<Found>,
    path: &TaskPath,
    output: &Output,
    place: &Place,
) -> Result<(), AllocError>
    ensures { OnOk result
        (found.new.items ≡ found.old.items ++ maker_in path.now place.now output.now) }
{
    if is_under(place, &output.place) {
        push_name(found, path, &output.name)?;
    }
    Ok(())
}

/// Adds the task with this property or output.
fn push_name(found: &mut Vec<Found>, path: &TaskPath, name: &Name) -> Result<(), AllocError>
    ensures { OnOk result (found.new.items ≡ found.old.items ++ Found.Related path.now name.now ∷ []) }
{
    found.push(Found::Related(path.copy()?, name.copy()?))?;
    Ok(())
}
