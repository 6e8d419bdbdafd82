//! The line of a fault: that of the clause that has it.
ghost use Rattle.std.specs.Prelude.{◌≡◌, ◌++◌, IfOk, OnOk, option_map};
ghost use Rattle.std.specs.List.{flat_map};
ghost use Rattle.gb_check.specs.Marks.{faulty_lines, first_or_line, is_mark_of, is_of_clause};
ghost use Rattle.gb_check.specs.Marks.{is_same_kind, line_for, line_if, line_with, only_or, word_of};

use crate::clause_lines::{ClauseMark, MarkKind};
use gb_core::path::TaskPath;
use gb_report::fault::Fault;
use std::alloc::{AllocError, Global};

/// The line of the first clause of a task that has a fault by itself. If no clause has one, the line
/// of the one clause that the fault of the task names; if it names none, or more than one, this
/// line.
pub(crate) fn line_for(
    alloc: Global,
    marks: &[ClauseMark],
    path: &TaskPath,
    fault: &Fault,
    line: u64,
) -> Result<u64, AllocError>
    ensures { IfOk result (λ number. number ≡ line_for marks.now path.now fault.now line) }
{
    let named = line_with(alloc, marks, path, fault, line)?;
    let lines = faulty_lines(alloc, marks, path, fault)?;
    Ok(first_or_line(named, lines.as_slice()))
}

/// The lines of the clauses that have a fault by themselves, if the fault can be of a clause.
fn faulty_lines(
    alloc: Global,
    marks: &[ClauseMark],
    path: &TaskPath,
    fault: &Fault,
) -> Result<Vec<u64>, AllocError>
    ensures { IfOk result (λ lines. lines.items ≡ faulty_lines marks.now path.now fault.now) }
{
    if is_of_clause(fault) {
        lines_of(alloc, marks, path, MarkKind::Faulty, "")
    } else {
        Ok(Vec::new(alloc))
    }
}

/// Whether the fault of a task can be that of one clause.
fn is_of_clause(fault: &Fault) -> bool
    ensures { result ≡ is_of_clause fault.now }
{
    !matches!(fault, Fault::BadShape(_))
}

/// The first of these lines, or else this line.
fn first_or_line(line: u64, lines: &[u64]) -> u64
    ensures { result ≡ first_or_line line lines.now }
{
    match lines.first() {
        Some(first) => *first,
        None => line,
    }
}

/// The line of the one clause that the fault of a task names; if it names none, or more than one,
/// this line.
fn line_with(
    alloc: Global,
    marks: &[ClauseMark],
    path: &TaskPath,
    fault: &Fault,
    line: u64,
) -> Result<u64, AllocError>
    ensures { IfOk result (λ number.
        number ≡ line_with marks.now path.now line (word_of path.now fault.now)) }
{
    match word_of(path, fault) {
        Some((kind, text)) => {
            let lines = lines_of(alloc, marks, path, kind, text)?;
            Ok(only_or(line, lines.as_slice()))
        }
        None => Ok(line),
    }
}

/// The word that the fault of a value of a task takes from one of its clauses.
fn word_of<'f>(path: &TaskPath, fault: &'f Fault) -> Option<(MarkKind, &'f str)>
    ensures { option_map (λ word. (word.0, word.1.now)) result ≡ word_of path.now fault.now }
{
    match fault {
        Fault::WrongValue(name) => Some((MarkKind::Name, name.as_str())),
        Fault::NoValue(task, name) | Fault::BadArgument(task, name) if *task == *path => {
            Some((MarkKind::Name, name.as_str()))
        }
        Fault::OutputOutsideBuild(task, _) if *task == *path => Some((MarkKind::Output, "")),
        _ => None,
    }
}

/// The lines of the clauses of a task that have the word.
fn lines_of(
    alloc: Global,
    marks: &[ClauseMark],
    path: &TaskPath,
    kind: MarkKind,
    text: &str,
) -> Result<Vec<u64>, AllocError>
    ensures { IfOk result (λ lines.
        lines.items ≡ flat_map (line_if path.now (kind, text.now)) marks.now) }
{
    let mut lines = Vec::new(alloc);
    for mark in marks {
        push_if(&mut lines, path, kind, text, mark)?;
    }
    Ok(lines)
}

fn push_if(
    lines: &mut Vec<u64>,
    path: &TaskPath,
    kind: MarkKind,
    text: &str,
    mark: &ClauseMark,
) -> Result<(), AllocError>
    ensures { OnOk result
        (lines.new.items ≡ lines.old.items ++ line_if path.now (kind, text.now) mark.now) }
{
    if is_mark_of(path, kind, text, mark) {
        lines.push(mark.line)?;
    }
    Ok(())
}

fn is_mark_of(path: &TaskPath, kind: MarkKind, text: &str, mark: &ClauseMark) -> bool
    ensures { result ≡ is_mark_of path.now (kind, text.now) mark.now }
{
    is_same_kind(mark.kind, kind) && mark.path == *path && mark.text.as_str() == text
}

fn is_same_kind(one: MarkKind, other: MarkKind) -> bool
    ensures { result ≡ is_same_kind one other }
{
    matches!(
        (one, other),
        (MarkKind::Name, MarkKind::Name)
            | (MarkKind::Output, MarkKind::Output)
            | (MarkKind::Faulty, MarkKind::Faulty)
    )
}

/// The only one of these lines, or else this line.
fn only_or(line: u64, lines: &[u64]) -> u64
    ensures { result ≡ only_or line lines.now }
{
    match lines.split_first() {
        Some((one, [])) => *one,
        _ => line,
    }
}
