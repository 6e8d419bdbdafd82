//! The clauses of tasks: the words by which faults name them, whether they have a fault by themselves,
//! and their lines.
ghost use Rattle.std.specs.Prelude.{◌≡◌, ◌≢◌, ◌∷◌, ◌++◌, [], List, IfErr, OnOk, map};
ghost use Rattle.std.specs.Option.{option_copied};
ghost use Rattle.gb_core.specs.Path.{task_in};
ghost use Rattle.gb_declare.specs.Declaring.{scope_in};
ghost use Rattle.gb_registry.specs.Faults.{ReportsFirst};
ghost use Rattle.gb_registry.specs.Tables.{tables_of};
ghost use Rattle.gb_check.specs.Marks.{action_marks, clause_marks, fault_marks, first_number};
ghost use Rattle.gb_check.specs.Marks.{mark, marks_at, other_numbers, statement_marks, words_of};

use crate::sites::task_path;
use crate::whole_plan::is_out_of_memory;
use gb_action::actions::Actions;
use gb_core::name::Name;
use gb_core::path::TaskPath;
use gb_core::text::Text;
use gb_declare::clauses::{check_clause, check_main};
use gb_provider::transforms::Transforms;
use gb_registry::wrong::Scope;
use gb_report::fault::Fault;
use gb_script::script::{Call, Clause, Registration, Statement};
use std::alloc::{AllocError, Global};

/// What a mark says of its clause: the kind of a word, or that it has a fault.
#[derive(Clone, Copy, Debug, PartialEq, Eq)]
pub enum MarkKind {
    /// The name of an input, an output, a kind of action or a test.
    Name,
    /// No word: the clause declares an output.
    Output,
    /// No word: the clause has a fault by itself.
    Faulty,
}

/// A word or a fault of a clause of a task, and the line in which the clause begins.
#[derive(Drop)]
pub struct ClauseMark {
    /// The path of the task.
    pub path: TaskPath,
    /// The kind of the word, or that there is a fault.
    pub kind: MarkKind,
    /// The word; empty if there is none.
    pub text: Text,
    /// The line of the clause; for the action after the colon, the line of the statement.
    pub line: u64,
}

/// Adds the marks of a statement in this line, with clauses in these lines.
pub(crate) fn push_marks<A: Actions, T: Transforms>(
    alloc: Global,
    marks: &mut Vec<ClauseMark>,
    scope: &Scope<'_, A, T>,
    statement: &Statement,
    line: u64,
    lines: &[u64],
) -> Result<(), Fault>
    ensures marks { OnOk result (marks.new.items ≡ marks.old.items
        ++ statement_marks (tables_of T.meanings A.meanings scope.now.tables.now)
        (scope_in scope.now.project.now scope.now.properties.now (option_copied scope.now.names))
        scope.now.project.now (line, lines.now) statement.now) }
    ensures err { IfErr result (λ fault. fault ≡ Fault.OutOfMemory) }
{
    match statement {
        Statement::Register(registration) => {
            let path = task_path(alloc, scope.project.path(), &registration.name)?;
            let pushed = push_registration(alloc, marks, scope, &path, registration, line, lines);
            drop(path);
            pushed
        }
        Statement::Named(configuration) => {
            let path = task_path(alloc, scope.project.path(), &configuration.name)?;
            let clauses = configuration.block.clauses();
            let pushed = push_clauses(alloc, marks, scope, &path, clauses, lines);
            drop(path);
            pushed
        }
        _ => Ok(()),
    }
}

fn push_registration<A: Actions, T: Transforms>(
    alloc: Global,
    marks: &mut Vec<ClauseMark>,
    scope: &Scope<'_, A, T>,
    path: &TaskPath,
    registration: &Registration,
    line: u64,
    lines: &[u64],
) -> Result<(), Fault>
    ensures marks { let tables = tables_of T.meanings A.meanings scope.now.tables.now in
        let names = scope_in scope.now.project.now scope.now.properties.now (option_copied scope.now.names) in
        OnOk result (marks.new.items ≡ marks.old.items
        ++ action_marks tables names path.now line registration.now.action
        ++ clause_marks tables names path.now registration.now.block lines.now) }
    ensures err { IfErr result (λ fault. fault ≡ Fault.OutOfMemory) }
{
    let action = registration.action.as_ref();
    push_action(alloc, marks, scope, path, action, line)?;
    let clauses = registration.block.clauses();
    push_clauses(alloc, marks, scope, path, clauses, lines)
}

fn push_action<A: Actions, T: Transforms>(
    alloc: Global,
    marks: &mut Vec<ClauseMark>,
    scope: &Scope<'_, A, T>,
    path: &TaskPath,
    action: Option<&Call>,
    line: u64,
) -> Result<(), Fault>
    ensures marks { OnOk result (marks.new.items ≡ marks.old.items
        ++ action_marks (tables_of T.meanings A.meanings scope.now.tables.now)
        (scope_in scope.now.project.now scope.now.properties.now (option_copied scope.now.names))
        path.now line (option_copied action.entry)) }
    ensures err { IfErr result (λ fault. fault ≡ Fault.OutOfMemory) }
{
    match action {
        Some(call) => {
            push_name(alloc, marks, path, line, &call.name)?;
            let checked = check_main(alloc, scope, action);
            push_if_faulty(alloc, marks, path, line, checked)
        }
        None => Ok(()),
    }
}

/// Adds the marks of these clauses, each in the line of its clause.
fn push_clauses<A: Actions, T: Transforms>(
    alloc: Global,
    marks: &mut Vec<ClauseMark>,
    scope: &Scope<'_, A, T>,
    path: &TaskPath,
    clauses: &[Clause],
    lines: &[u64],
) -> Result<(), Fault>
    ensures marks { OnOk result (marks.new.items ≡ marks.old.items
        ++ clause_marks (tables_of T.meanings A.meanings scope.now.tables.now)
        (scope_in scope.now.project.now scope.now.properties.now (option_copied scope.now.names))
        path.now clauses.now lines.now) }
    ensures err { IfErr result (λ fault. fault ≡ Fault.OutOfMemory) }
{
    let mut rest = lines;
    for clause in clauses {
        let (line, others) = first_number(rest);
        push_marks_at(alloc, marks, scope, path, line, clause)?;
        rest = others;
    }
    Ok(())
}

/// Adds the words of a clause, and whether it has a fault by itself.
fn push_marks_at<A: Actions, T: Transforms>(
    alloc: Global,
    marks: &mut Vec<ClauseMark>,
    scope: &Scope<'_, A, T>,
    path: &TaskPath,
    line: u64,
    clause: &Clause,
) -> Result<(), Fault>
    ensures marks { OnOk result (marks.new.items ≡ marks.old.items
        ++ marks_at (tables_of T.meanings A.meanings scope.now.tables.now)
        (scope_in scope.now.project.now scope.now.properties.now (option_copied scope.now.names))
        path.now line clause.now) }
    ensures err { IfErr result (λ fault. fault ≡ Fault.OutOfMemory) }
{
    push_clause(alloc, marks, path, line, clause)?;
    let checked = check_clause(alloc, scope, clause);
    push_if_faulty(alloc, marks, path, line, checked)
}

/// Adds a mark if a check found a fault. A fault for lack of memory is returned instead.
fn push_if_faulty(
    alloc: Global,
    marks: &mut Vec<ClauseMark>,
    path: &TaskPath,
    line: u64,
    checked: Result<(), Fault>,
) -> Result<(), Fault>
    ensures marks { (faults : List Fault) → ReportsFirst faults checked
        → OnOk result (marks.new.items ≡ marks.old.items ++ fault_marks path.now line faults) }
    ensures err { IfErr result (λ fault. fault ≡ Fault.OutOfMemory) }
{
    match checked {
        Ok(()) => Ok(()),
        Err(fault) => push_faulty(alloc, marks, path, line, fault),
    }
}

/// Adds a mark for this fault. A fault for lack of memory is returned instead.
fn push_faulty(
    alloc: Global,
    marks: &mut Vec<ClauseMark>,
    path: &TaskPath,
    line: u64,
    fault: Fault,
) -> Result<(), Fault>
    ensures fault { OnOk result (fault ≢ Fault.OutOfMemory) }
    ensures mark { OnOk result (marks.new.items
        ≡ marks.old.items ++ mark path.now line (MarkKind.Faulty, []) ∷ []) }
    ensures err { IfErr result (λ fault. fault ≡ Fault.OutOfMemory) }
{
    if is_out_of_memory(&fault) {
        return Err(fault);
    }
    drop(fault);
    Ok(push_word(alloc, marks, path, line, MarkKind::Faulty, "")?)
}

fn first_number(lines: &[u64]) -> (u64, &[u64])
    ensures line { result.0 ≡ first_number lines.now }
    ensures others { result.1.now ≡ other_numbers lines.now }
{
    match lines.split_first() {
        Some((first, others)) => (*first, others),
        None => (1, lines),
    }
}

/// Adds the words of a clause.
fn push_clause(
    alloc: Global,
    marks: &mut Vec<ClauseMark>,
    path: &TaskPath,
    line: u64,
    clause: &Clause,
) -> Result<(), AllocError>
    ensures { OnOk result (marks.new.items
        ≡ marks.old.items ++ map (mark path.now line) (words_of clause.now)) }
{
    match clause {
        Clause::Input(input) => push_name(alloc, marks, path, line, &input.name),
        Clause::InputFiles(files) => push_name(alloc, marks, path, line, &files.name),
        Clause::OutputFile(output) | Clause::OutputDir(output) => {
            push_output(alloc, marks, path, line, &output.name)
        }
        Clause::DependsOn(_) | Clause::MustRunAfter(_) | Clause::FinalizedBy(_) => Ok(()),
        Clause::DoFirst(call) | Clause::DoLast(call) => {
            push_name(alloc, marks, path, line, &call.name)
        }
        Clause::OnlyIf(condition) | Clause::UpToDateWhen(condition) => {
            push_name(alloc, marks, path, line, &condition.test.name)
        }
        Clause::Enabled(_) => push_word(alloc, marks, path, line, MarkKind::Name, "enabled"),
    }
}

fn push_output(
    alloc: Global,
    marks: &mut Vec<ClauseMark>,
    path: &TaskPath,
    line: u64,
    name: &Name,
) -> Result<(), AllocError>
    ensures { OnOk result (marks.new.items ≡ marks.old.items
        ++ map (mark path.now line) ((MarkKind.Name, name.now) ∷ (MarkKind.Output, []) ∷ [])) }
{
    push_name(alloc, marks, path, line, name)?;
    push_word(alloc, marks, path, line, MarkKind::Output, "")
}

fn push_name(
    alloc: Global,
    marks: &mut Vec<ClauseMark>,
    path: &TaskPath,
    line: u64,
    name: &Name,
) -> Result<(), AllocError>
    ensures { OnOk result (marks.new.items
        ≡ marks.old.items ++ mark path.now line (MarkKind.Name, name.now) ∷ []) }
{
    push_word(alloc, marks, path, line, MarkKind::Name, name.as_str())
}

/// Adds a word.
fn push_word(
    alloc: Global,
    marks: &mut Vec<ClauseMark>,
    path: &TaskPath,
    line: u64,
    kind: MarkKind,
    text: &str,
) -> Result<(), AllocError>
    ensures { OnOk result (marks.new.items
        ≡ marks.old.items ++ mark path.now line (kind, text.now) ∷ []) }
{
    let path = path.copy()?;
    let text = Text::from_str(alloc, text)?;
    marks.push(ClauseMark {
        path,
        kind,
        text,
        line,
    })?;
    Ok(())
}
