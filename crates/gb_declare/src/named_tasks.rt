//! The tasks that the clauses of a task name.
ghost use Rattle.std.specs.Prelude.{◌≡◌, IfOk, OnOk};
ghost use Rattle.std.specs.List.{flat_map};
ghost use Rattle.gb_registry.specs.Faults.{ReportsFirst};
ghost use Rattle.gb_registry.specs.Projects.{absolute};
ghost use Rattle.gb_registry.specs.References.{name_faults};
ghost use Rattle.gb_declare.specs.Borrowed.{now_of};
ghost use Rattle.gb_declare.specs.Joined.{depends_on_in, finalized_by_in, must_run_after_in, tasks_in};
ghost use Rattle.gb_declare.specs.Joined.{with_named};

use crate::picks;
use gb_core::name::NameFault;
use gb_core::path::{ProjectPath, TaskPath};
use gb_core::task_paths::TaskPaths;
use gb_core::text::{Text, Texts};
use gb_registry::paths::absolute;
use gb_report::fault::Fault;
use gb_script::script::Clause;
use std::alloc::Global;

/// The tasks of all `dependsOn`; 1 where a text is no path.
pub fn depends_on(
    alloc: Global,
    project: &ProjectPath,
    clauses: &[&Clause],
) -> Result<TaskPaths, Fault>
    ensures tasks { IfOk result (λ tasks. tasks ≡ tasks_in project.now (flat_map depends_on_in (now_of
        clauses.now))) }
    ensures faults { ReportsFirst (flat_map (name_faults project.now) (flat_map depends_on_in (now_of
        clauses.now))) result }
{
    let mut tasks = TaskPaths::new(alloc);
    for clause in clauses {
        if let Some(texts) = picks::depends_on_in(*clause) {
            add_named(alloc, &mut tasks, project, texts)?;
        }
    }
    Ok(tasks)
}

/// The tasks of all `mustRunAfter`; 1 where a text is no path.
pub fn must_run_after(
    alloc: Global,
    project: &ProjectPath,
    clauses: &[&Clause],
) -> Result<TaskPaths, Fault>
    ensures tasks { IfOk result (λ tasks. tasks ≡ tasks_in project.now (flat_map must_run_after_in (now_of
        clauses.now))) }
    ensures faults { ReportsFirst (flat_map (name_faults project.now) (flat_map must_run_after_in (now_of
        clauses.now))) result }
{
    let mut tasks = TaskPaths::new(alloc);
    for clause in clauses {
        if let Some(texts) = picks::must_run_after_in(*clause) {
            add_named(alloc, &mut tasks, project, texts)?;
        }
    }
    Ok(tasks)
}

/// The tasks of all `finalizedBy`; 1 where a text is no path.
pub fn finalized_by(
    alloc: Global,
    project: &ProjectPath,
    clauses: &[&Clause],
) -> Result<TaskPaths, Fault>
    ensures tasks { IfOk result (λ tasks. tasks ≡ tasks_in project.now (flat_map finalized_by_in (now_of
        clauses.now))) }
    ensures faults { ReportsFirst (flat_map (name_faults project.now) (flat_map finalized_by_in (now_of
        clauses.now))) result }
{
    let mut tasks = TaskPaths::new(alloc);
    for clause in clauses {
        if let Some(texts) = picks::finalized_by_in(*clause) {
            add_named(alloc, &mut tasks, project, texts)?;
        }
    }
    Ok(tasks)
}

/// Adds the tasks that texts in a project name; 1 where one is no path.
fn add_named(
    alloc: Global,
    tasks: &mut TaskPaths,
    project: &ProjectPath,
    texts: &Texts,
) -> Result<(), Fault>
    ensures tasks { OnOk result (tasks.new ≡ with_named project.now tasks.old texts.now) }
    ensures faults { ReportsFirst (flat_map (name_faults project.now) texts.now) result }
{
    for text in texts.as_slice() {
        tasks.insert(task_named(alloc, project, text)?)?;
    }
    Ok(())
}

/// The task that a text names in a project; 1 where it is no path.
fn task_named(alloc: Global, project: &ProjectPath, text: &Text) -> Result<TaskPath, Fault>
    ensures path { IfOk result (λ task. task ≡ absolute project.now text.now) }
    ensures faults { ReportsFirst (name_faults project.now text.now) result }
{
    let path = absolute(alloc, project.as_str(), text.as_str())?;
    match TaskPath::read(alloc, path.as_str()) {
        Ok(task) => Ok(task),
        Err(NameFault::BadName) => Err(Fault::BadName(text.copy()?)),
        Err(NameFault::OutOfMemory) => Err(Fault::OutOfMemory),
    }
}
