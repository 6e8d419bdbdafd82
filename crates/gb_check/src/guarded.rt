//! Tasks that may be skipped.
ghost use Rattle.std.specs.Prelude.{◌≡◌, ◌∷◌, ◌++◌, [], IfErr, IfOk, OnOk};
ghost use Rattle.std.specs.List.{flat_map, list_any};
ghost use Rattle.gb_core.specs.Path.{task_in};
ghost use Rattle.gb_registry.specs.SoFar.{scripts_in};
ghost use Rattle.gb_check.specs.Warnings.{guarded_by, guarded_in, may_skip};

use crate::sites::task_path;
use gb_core::name::Name;
use gb_core::path::TaskPath;
use gb_registry::checking::Scripted;
use gb_registry::project::Project;
use gb_report::fault::Fault;
use gb_script::script::{Clause, Statement};
use std::alloc::Global;

/// The tasks to which scripts give clauses that may skip them.
pub(crate) fn guarded_in(alloc: Global, scripts: &[Scripted]) -> Result<Vec<TaskPath>, Fault>
    ensures guarded { IfOk result (λ guarded. guarded.items ≡ guarded_in (scripts_in scripts.now)) }
    ensures err { IfErr result (λ fault. fault ≡ Fault.OutOfMemory) }
{
    let mut guarded = Vec::new(alloc);
    for scripted in scripts {
        let statements = scripted.script.statements();
        push_guarded(alloc, &mut guarded, &scripted.project, statements)?;
    }
    Ok(guarded)
}

/// Adds the tasks to which these statements give such clauses.
fn push_guarded(
    alloc: Global,
    guarded: &mut Vec<TaskPath>,
    project: &Project,
    statements: &[Statement],
) -> Result<(), Fault>
    ensures guarded { OnOk result (guarded.new.items
        ≡ guarded.old.items ++ flat_map (guarded_by project.now) statements.now) }
    ensures err { IfErr result (λ fault. fault ≡ Fault.OutOfMemory) }
{
    for statement in statements {
        push_statement(alloc, guarded, project, statement)?;
    }
    Ok(())
}

/// Adds the task to which a statement gives such a clause, if it gives one.
fn push_statement(
    alloc: Global,
    guarded: &mut Vec<TaskPath>,
    project: &Project,
    statement: &Statement,
) -> Result<(), Fault>
    ensures guarded { OnOk result (guarded.new.items
        ≡ guarded.old.items ++ guarded_by project.now statement.now) }
    ensures err { IfErr result (λ fault. fault ≡ Fault.OutOfMemory) }
{
    match statement {
        Statement::Register(registration) if has_test(registration.block.clauses()) => {
            push_path(alloc, guarded, project, &registration.name)
        }
        Statement::Named(configuration) if has_test(configuration.block.clauses()) => {
            push_path(alloc, guarded, project, &configuration.name)
        }
        _ => Ok(()),
    }
}

fn push_path(
    alloc: Global,
    guarded: &mut Vec<TaskPath>,
    project: &Project,
    name: &Name,
) -> Result<(), Fault>
    ensures guarded { OnOk result
        (guarded.new.items ≡ guarded.old.items ++ task_in project.now name.now ∷ []) }
    ensures err { IfErr result (λ fault. fault ≡ Fault.OutOfMemory) }
{
    guarded.push(task_path(alloc, project.path(), name)?)?;
    Ok(())
}

fn has_test(clauses: &[Clause]) -> bool
    ensures { result ≡ list_any may_skip clauses.now }
{
    clauses.iter().any(|clause| may_skip(clause))
}

/// Whether a clause may skip its task.
fn may_skip(clause: &Clause) -> bool
    ensures { result ≡ may_skip clause.now }
{
    matches!(clause, Clause::OnlyIf(_) | Clause::Enabled(_))
}
