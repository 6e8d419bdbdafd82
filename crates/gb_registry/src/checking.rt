//! Checks scripts statement by statement.
ghost use Rattle.std.specs.Prelude.{◌≡◌, OnOk};
ghost use Rattle.std.specs.List.{flat_map};
ghost use Rattle.gb_registry.specs.Configure.{script_missing, statement_missing};
ghost use Rattle.gb_registry.specs.Faults.{ReportsFirst};
ghost use Rattle.gb_registry.specs.SoFar.{script_after, scripts_in, script_faults, scripts_after};
ghost use Rattle.gb_registry.specs.SoFar.{scripts_faults, so_far_after, assignment_faults_so_far};
ghost use Rattle.gb_registry.specs.SoFar.{faults_so_far};
ghost use Rattle.gb_registry.specs.SoFar.{value_faults_so_far};
ghost use Rattle.gb_registry.specs.Tables.{tables_of};

use crate::missing::Missing;
use crate::names::Names;
use crate::operands::look_along;
use crate::project::Project;
use crate::so_far::SoFar;
use crate::tables::Tables;
use crate::wrong::Scope;
use gb_action::actions::Actions;
use gb_provider::transforms::Transforms;
use gb_report::fault::Fault;
use gb_script::script::{Assignment, Script, Statement};
use gb_script::script_expression::Expression;
use std::alloc::Global;

/// A project with its script.
#[derive(Drop)]
pub struct Scripted {
    /// The project, with its folder.
    pub project: Project,
    /// The contents of its `build.gb`.
    pub script: Script,
}

/// The first fault of a statement, in the order of its text.
pub(crate) fn check_statement<A: Actions, T: Transforms>(
    alloc: Global,
    tables: &Tables<A, T>,
    project: &Project,
    so_far: &mut SoFar,
    statement: &Statement,
) -> Result<(), Fault>
    ensures ok { OnOk result (so_far.new ≡ so_far_after project.now so_far.old statement.now) }
    ensures faults { ReportsFirst
        (faults_so_far (tables_of T.meanings A.meanings tables.now) project.now so_far.old statement.now)
        result }
{
    match statement {
        Statement::DefaultTasks(_) => Ok(()),
        Statement::Property(name) => so_far.declare(name),
        Statement::Set(assignment) | Statement::Convention(assignment) => {
            check_assignment(alloc, tables, project, so_far, assignment)
        }
        Statement::Unset(name) => so_far.check_change(name),
        Statement::DisallowChanges(name) => so_far.finish(name),
        Statement::Register(registration) => so_far.register(alloc, project, &registration.name),
        Statement::Named(configuration) => {
            so_far.check_registered(alloc, project, &configuration.name)
        }
    }
}

fn check_assignment<A: Actions, T: Transforms>(
    alloc: Global,
    tables: &Tables<A, T>,
    project: &Project,
    so_far: &SoFar,
    assignment: &Assignment,
) -> Result<(), Fault>
    ensures { ReportsFirst
        (assignment_faults_so_far (tables_of T.meanings A.meanings tables.now) project.now so_far.now
        assignment.now) result }
{
    so_far.check_change(&assignment.name)?;
    check_value(alloc, tables, project, so_far, &assignment.value)
}

fn check_value<'s, A: Actions, T: Transforms>(
    alloc: Global,
    tables: &'s Tables<A, T>,
    project: &'s Project,
    so_far: &'s SoFar,
    value: &Expression,
) -> Result<(), Fault>
    ensures { ReportsFirst
        (value_faults_so_far (tables_of T.meanings A.meanings tables.now) project.now so_far.now value.now)
        result }
{
    let scope: Scope<'s, A, T> = Scope {
        tables,
        project,
        properties: &so_far.properties,
        names: None,
    };
    look_along(alloc, &scope, value)
}

/// The first fault of a script, in the order of its statements.
fn check_script<A: Actions, T: Transforms>(
    alloc: Global,
    tables: &Tables<A, T>,
    so_far: &mut SoFar,
    scripted: &Scripted,
) -> Result<(), Fault>
    ensures ok { OnOk result (so_far.new ≡ script_after scripted.now.project so_far.old scripted.now.script) }
    ensures faults { ReportsFirst
        (script_faults (tables_of T.meanings A.meanings tables.now)
        scripted.now.project so_far.old scripted.now.script) result }
{
    let statements = scripted.script.statements();
    for statement in statements {
        check_statement(alloc, tables, &scripted.project, so_far, statement)?;
    }
    Ok(())
}

/// The first fault of scripts, one after another.
pub(crate) fn check_scripts<A: Actions, T: Transforms>(
    alloc: Global,
    tables: &Tables<A, T>,
    so_far: &mut SoFar,
    scripts: &[Scripted],
) -> Result<(), Fault>
    ensures ok { OnOk result (so_far.new ≡ scripts_after so_far.old (scripts_in scripts.now)) }
    ensures faults { ReportsFirst
        (scripts_faults (tables_of T.meanings A.meanings tables.now) so_far.old (scripts_in scripts.now))
        result }
{
    for scripted in scripts {
        so_far.begin(alloc);
        check_script(alloc, tables, so_far, scripted)?;
    }
    Ok(())
}

/// The first missing task that scripts name in values.
pub(crate) fn check_missing<'s>(
    alloc: Global,
    names: &'s Names<'s>,
    scripts: &'s [Scripted],
) -> Result<(), Fault>
    ensures { ReportsFirst (flat_map (script_missing names.now) (scripts_in scripts.now)) result }
{
    for scripted in scripts {
        check_script_missing(alloc, names, scripted)?;
    }
    Ok(())
}

fn check_script_missing<'s>(
    alloc: Global,
    names: &'s Names<'s>,
    scripted: &'s Scripted,
) -> Result<(), Fault>
    ensures { ReportsFirst
        (flat_map (statement_missing names.now scripted.now.project) scripted.now.script) result }
{
    let statements = scripted.script.statements();
    for statement in statements {
        check_statement_missing(alloc, names, &scripted.project, statement)?;
    }
    Ok(())
}

pub(crate) fn check_statement_missing<'s>(
    alloc: Global,
    names: &'s Names<'s>,
    project: &'s Project,
    statement: &Statement,
) -> Result<(), Fault>
    ensures { ReportsFirst (statement_missing names.now project.now statement.now) result }
{
    match statement {
        Statement::Set(assignment) | Statement::Convention(assignment) => {
            look_along(alloc, &Missing { names, project }, &assignment.value)
        }
        _ => Ok(()),
    }
}
