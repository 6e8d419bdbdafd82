//! The steps of `Registry::configure`: scripts get their projects, are checked statement by
//! statement, and then the tasks that their values name are looked up.
ghost use Rattle.std.specs.Prelude.{◌≡◌, ◌≤◌, [], ◌++◌, zip, length, IfOk};
ghost use Rattle.std.specs.List.{flat_map};
ghost use Rattle.gb_registry.specs.Configure.{configure_faults, each_after, missing_tasks, statement_faults};
ghost use Rattle.gb_registry.specs.Faults.{ReportsFirst};
ghost use Rattle.gb_registry.specs.New.{AreNew};
ghost use Rattle.gb_registry.specs.Projects.{folder_of, project_paths, settings_faults};
ghost use Rattle.gb_registry.specs.Said.{paths_of};
ghost use Rattle.gb_registry.specs.SoFar.{said_in, scripts_in, source_in};
ghost use Rattle.gb_registry.specs.Source.{source_of};
ghost use Rattle.gb_registry.specs.Tables.{tables_of};

use crate::checking::{Scripted, check_missing, check_scripts};
use crate::names::Names;
use crate::project::{Project, copy_folder};
use crate::projects::ProjectSet;
use crate::registered::Tasks;
use crate::so_far::SoFar;
use crate::tables::Tables;
use gb_action::actions::Actions;
use gb_core::path::ProjectPath;
use gb_core::place::Place;
use gb_provider::transforms::Transforms;
use gb_report::fault::Fault;
use gb_script::script::Script;
use std::alloc::{AllocError, Global};

/// Each script with its project.
pub fn with_projects(
    alloc: Global,
    projects: &ProjectSet,
    scripts: Vec<Script>,
) -> Result<Vec<Scripted>, AllocError>
    requires { length scripts.items ≤ length projects.now }
    ensures { IfOk result (λ made. scripts_in made.items ≡ zip projects.now scripts.items) }
{
    let places = projects.as_slice();
    let mut made = Vec::new(alloc);
    let mut next = 0;
    for script in scripts {
        let project = copy_project(&places[next])?;
        made.push(Scripted { project, script })?;
        next += 1;
    }
    Ok(made)
}

fn copy_project(place: &(ProjectPath, Option<Place>)) -> Result<Project, AllocError>
    requires { place.now.1 ≡ folder_of place.now.0 }
    ensures { IfOk result (λ project. project ≡ place.now.0) }
{
    let path = place.0.copy()?;
    let folder = copy_folder(&place.1)?;
    Ok(Project::new(path, folder))
}

/// Checks scripts statement by statement, then looks up the tasks that values name. Returns the
/// paths of the tasks that the scripts register.
pub fn checked<A: Actions, T: Transforms>(
    alloc: Global,
    tables: &Tables<A, T>,
    projects: &ProjectSet,
    scripts: &[Scripted],
) -> Result<Tasks, Fault>
    requires { AreNew [] (scripts_in scripts.now) }
    ensures tasks { IfOk result (λ tasks. tasks ≡ paths_of (said_in scripts.now)) }
    ensures faults { ReportsFirst
        (configure_faults (tables_of T.meanings A.meanings tables.now)
        (source_in projects.now scripts.now)) result }
{
    let tasks = checked_in_order(alloc, tables, scripts)?;
    match check_names(alloc, projects, &tasks, scripts) {
        Ok(()) => Ok(tasks),
        Err(fault) => {
            drop(tasks);
            Err(fault)
        }
    }
}

fn checked_in_order<A: Actions, T: Transforms>(
    alloc: Global,
    tables: &Tables<A, T>,
    scripts: &[Scripted],
) -> Result<Tasks, Fault>
    requires { AreNew [] (scripts_in scripts.now) }
    ensures tasks { IfOk result (λ tasks. tasks ≡ paths_of (said_in scripts.now)) }
    ensures faults { ReportsFirst
        (each_after (statement_faults (tables_of T.meanings A.meanings tables.now)) []
        (said_in scripts.now)) result }
{
    let mut so_far = SoFar::new(alloc);
    match check_scripts(alloc, tables, &mut so_far, scripts) {
        Ok(()) => {}
        Err(fault) => {
            drop(so_far);
            return Err(fault);
        }
    }
    Ok(so_far.into_tasks())
}

fn check_names(
    alloc: Global,
    projects: &ProjectSet,
    tasks: &Tasks,
    scripts: &[Scripted],
) -> Result<(), Fault>
    ensures { ReportsFirst
        (flat_map (missing_tasks (record { projects = projects.now; tasks = tasks.now }))
        (said_in scripts.now)) result }
{
    let names = Names {
        projects,
        tasks: tasks.paths(),
    };
    check_missing(alloc, &names, scripts)
}
