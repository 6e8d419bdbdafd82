//! The statement at which the first fault of scripts arises.
ghost use Rattle.std.specs.Prelude.{◌≡◌, ◌≢◌, [], Err, IfErr, IfOk, IfSome, None, Ok, OnOk, Some, length};
ghost use Rattle.std.specs.Prelude.{option_map, zip};
ghost use Rattle.gb_registry.specs.Configure.{configure_faults};
ghost use Rattle.gb_registry.specs.Faults.{first_of};
ghost use Rattle.gb_registry.specs.Faulty.{IsFirstAt, missing_in, missing_in_script, or_later, wrong_in};
ghost use Rattle.gb_registry.specs.Faulty.{wrong_in_script};
ghost use Rattle.gb_registry.specs.New.{AreNew};
ghost use Rattle.gb_registry.specs.Projects.{project_paths, settings_faults};
ghost use Rattle.gb_registry.specs.SoFar.{script_after, scripts_after, scripts_in, source_in};
ghost use Rattle.gb_registry.specs.Source.{source_of};
ghost use Rattle.gb_registry.specs.Tables.{tables_of};

use crate::checking::{Scripted, check_statement, check_statement_missing};
use crate::configure::with_projects;
use crate::names::Names;
use crate::project::Project;
use crate::projects::ProjectSet;
use crate::so_far::SoFar;
use crate::tables::Tables;
use gb_action::actions::Actions;
use gb_provider::transforms::Transforms;
use gb_report::fault::Fault;
use gb_script::script::{Script, Settings};
use std::alloc::Global;

/// A fault, and the statement at which it arises.
#[derive(Drop)]
pub struct FaultAt {
    /// The project of its script.
    pub project: Project,
    /// The number of the statement in its script, counted from 0.
    pub statement: usize,
    /// The fault.
    pub fault: Fault,
}

/// The fault for which `Registry::configure` refuses these settings and scripts, and the statement
/// at which it arises; none if it accepts them. The only error is lack of memory (3).
pub fn first_fault<A: Actions, T: Transforms>(
    alloc: Global,
    settings: &Settings,
    scripts: Vec<Script>,
    tables: &Tables<A, T>,
) -> Result<Option<FaultAt>, Fault>
    requires good { settings_faults settings.now ≡ [] }
    requires one_each { length scripts.items ≡ length (project_paths settings.now) }
    // The fault is the first of the definition, and there is none where that has none.
    ensures first { IfOk result (λ found. option_map (λ at. at.fault) found
        ≡ first_of (configure_faults (tables_of T.meanings A.meanings tables.now)
        (source_of settings.now scripts.items []))) }
    // It arises at this statement: nothing that is checked before it has a fault.
    ensures at { IfOk result (λ found. IfSome found
        (IsFirstAt (tables_of T.meanings A.meanings tables.now)
        (source_of settings.now scripts.items []).names
        (zip (project_paths settings.now) scripts.items))) }
    ensures err { IfErr result (λ fault. fault ≡ Fault.OutOfMemory) }
{
    let projects = projects_of(alloc, settings)?;
    let scripts = with_projects(alloc, &projects, scripts)?;
    first_among(alloc, tables, &projects, scripts.as_slice())
}

/// The projects of settings that have no fault.
fn projects_of(alloc: Global, settings: &Settings) -> Result<ProjectSet, Fault>
    requires { settings_faults settings.now ≡ [] }
    ensures projects { IfOk result (λ projects. projects ≡ project_paths settings.now) }
    ensures err { IfErr result (λ fault. fault ≡ Fault.OutOfMemory) }
{
    ProjectSet::of(alloc, settings)
}

/// The first fault of these scripts: of a statement after those before it, or else of one that
/// names a missing task.
fn first_among<A: Actions, T: Transforms>(
    alloc: Global,
    tables: &Tables<A, T>,
    projects: &ProjectSet,
    scripts: &[Scripted],
) -> Result<Option<FaultAt>, Fault>
    requires { AreNew [] (scripts_in scripts.now) }
    ensures first { IfOk result (λ found. option_map (λ at. at.fault) found
        ≡ first_of (configure_faults (tables_of T.meanings A.meanings tables.now)
        (source_in projects.now scripts.now))) }
    ensures at { IfOk result (λ found. IfSome found
        (IsFirstAt (tables_of T.meanings A.meanings tables.now)
        (source_in projects.now scripts.now).names (scripts_in scripts.now))) }
    ensures err { IfErr result (λ fault. fault ≡ Fault.OutOfMemory) }
{
    let mut so_far = SoFar::new(alloc);
    match wrong_in(alloc, tables, &mut so_far, scripts)? {
        Some(at) => return Ok(Some(at)),
        None => {}
    }
    let tasks = so_far.into_tasks();
    let names = Names {
        projects,
        tasks: tasks.paths(),
    };
    missing_in(alloc, &names, scripts)
}

/// The first fault of a statement of these scripts after those before it.
fn wrong_in<A: Actions, T: Transforms>(
    alloc: Global,
    tables: &Tables<A, T>,
    so_far: &mut SoFar,
    scripts: &[Scripted],
) -> Result<Option<FaultAt>, Fault>
    ensures found { IfOk result (λ found.
        found ≡ wrong_in (tables_of T.meanings A.meanings tables.now) so_far.old (scripts_in scripts.now)) }
    ensures so_far { result ≡ Ok None → so_far.new ≡ scripts_after so_far.old (scripts_in scripts.now) }
    ensures err { IfErr result (λ fault. fault ≡ Fault.OutOfMemory) }
{
    for scripted in scripts {
        so_far.begin(alloc);
        if let Some(at) = wrong_in_script(alloc, tables, so_far, scripted)? {
            return Ok(Some(at));
        }
    }
    Ok(None)
}

/// The first fault of a statement of a script.
fn wrong_in_script<A: Actions, T: Transforms>(
    alloc: Global,
    tables: &Tables<A, T>,
    so_far: &mut SoFar,
    scripted: &Scripted,
) -> Result<Option<FaultAt>, Fault>
    ensures found { IfOk result (λ found.
        found ≡ wrong_in_script (tables_of T.meanings A.meanings tables.now) scripted.now.project so_far.old
        0 scripted.now.script) }
    ensures so_far { result ≡ Ok None
        → so_far.new ≡ script_after scripted.now.project so_far.old scripted.now.script }
    ensures err { IfErr result (λ fault. fault ≡ Fault.OutOfMemory) }
{
    let statements = scripted.script.statements();
    for (number, statement) in statements.iter().enumerate() {
        match check_statement(alloc, tables, &scripted.project, so_far, statement) {
            Ok(()) => {}
            Err(fault) => return fault_at(&scripted.project, number, fault),
        }
    }
    Ok(None)
}

/// The fault at this statement. A fault for lack of memory is returned instead.
fn fault_at(project: &Project, statement: usize, fault: Fault) -> Result<Option<FaultAt>, Fault>
    ensures fault { OnOk result (fault ≢ Fault.OutOfMemory) }
    ensures found { IfOk result (λ found.
        found ≡ Some (record { project = project.now; statement = statement; fault = fault })) }
    ensures err { IfErr result (λ fault. fault ≡ Fault.OutOfMemory) }
{
    if matches!(fault, Fault::OutOfMemory) {
        return Err(fault);
    }
    match project.copy() {
        Ok(project) => Ok(Some(FaultAt {
            project,
            statement,
            fault,
        })),
        Err(_) => {
            drop(fault);
            Err(Fault::OutOfMemory)
        }
    }
}

/// The first missing task that these scripts name.
fn missing_in<'s>(
    alloc: Global,
    names: &'s Names<'s>,
    scripts: &'s [Scripted],
) -> Result<Option<FaultAt>, Fault>
    ensures found { IfOk result (λ found. found ≡ missing_in names.now (scripts_in scripts.now)) }
    ensures err { IfErr result (λ fault. fault ≡ Fault.OutOfMemory) }
{
    for scripted in scripts {
        if let Some(at) = missing_in_script(alloc, names, scripted)? {
            return Ok(Some(at));
        }
    }
    Ok(None)
}

/// The first missing task that a script names.
fn missing_in_script<'s>(
    alloc: Global,
    names: &'s Names<'s>,
    scripted: &'s Scripted,
) -> Result<Option<FaultAt>, Fault>
    ensures found { IfOk result (λ found.
        found ≡ missing_in_script names.now scripted.now.project 0 scripted.now.script) }
    ensures err { IfErr result (λ fault. fault ≡ Fault.OutOfMemory) }
{
    let statements = scripted.script.statements();
    for (number, statement) in statements.iter().enumerate() {
        match check_statement_missing(alloc, names, &scripted.project, statement) {
            Ok(()) => {}
            Err(fault) => return fault_at(&scripted.project, number, fault),
        }
    }
    Ok(None)
}
