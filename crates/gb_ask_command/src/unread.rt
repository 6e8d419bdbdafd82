//! Values of `-P` that nothing reads.
ghost use Rattle.std.specs.Prelude.{◌≡◌, ◌≢◌, ◌∷◌, ◌++◌, [], IfErr, IfOk, OnOk, false, true};
ghost use Rattle.std.specs.List.{list_any};
ghost use Rattle.std.specs.Option.{option_copied};
ghost use Rattle.gb_registry.specs.SoFar.{scripts_in};
ghost use Rattle.gb_ask_command.specs.Unread.{is_read, is_read_by, is_read_by_call, is_read_by_clause};
ghost use Rattle.gb_ask_command.specs.Unread.{is_read_in, unread, unread_value, unread_values};

use gb_check::findings::{Finding, Problem, Spot};
use gb_core::name::Name;
use gb_core::text::Text;
use gb_registry::checking::Scripted;
use gb_registry::operands::{Look, look_along};
use gb_report::fault::Fault;
use gb_script::script::{Call, Clause, Statement};
use gb_script::script_expression::{Expression, Source, Step};
use std::alloc::{AllocError, Global};

/// Looks for reads of the value of a name. For one that it finds, it returns a fault as a mark.
#[derive(Drop)]
struct Marked<'a> {
    name: &'a Name,
}

impl<'a> Look for Marked<'a> {
    ghost use Rattle.gb_ask_command.specs.Unread.{marks_at, no_marks};

    ghost at_root = { λ m. marks_at m.name.now };

    ghost at_link = { λ m. no_marks };

    fn source(&self, _alloc: Global, source: &Source) -> Result<(), Fault> {
        match source {
            Source::GradleProperty(text) if text.as_str() == self.name.as_str() => {
                Err(Fault::NoTasks)
            }
            _ => Ok(()),
        }
    }

    fn step(&self, _alloc: Global, _step: &Step) -> Result<(), Fault> {
        Ok(())
    }
}

/// A warning for each of these values of `-P` that nothing in the scripts reads.
pub(crate) fn warn_unread(
    alloc: Global,
    scripts: &[Scripted],
    given: &[(Name, Text)],
) -> Result<Vec<Finding>, Fault>
    ensures found { IfOk result (λ found.
        found.items ≡ unread_values (scripts_in scripts.now) given.now) }
    ensures err { IfErr result (λ fault. fault ≡ Fault.OutOfMemory) }
{
    let mut found = Vec::new(alloc);
    for value in given {
        push_value(alloc, &mut found, scripts, value)?;
    }
    Ok(found)
}

fn push_value(
    alloc: Global,
    found: &mut Vec<Finding>,
    scripts: &[Scripted],
    given: &(Name, Text),
) -> Result<(), Fault>
    ensures found { OnOk result (found.new.items
        ≡ found.old.items ++ unread_value (scripts_in scripts.now) given.now) }
    ensures err { IfErr result (λ fault. fault ≡ Fault.OutOfMemory) }
{
    if is_read(alloc, scripts, &given.0)? {
        return Ok(());
    }
    Ok(push_unread(found, &given.0)?)
}

fn push_unread(found: &mut Vec<Finding>, name: &Name) -> Result<(), AllocError>
    ensures { OnOk result (found.new.items ≡ found.old.items ++ unread name.now ∷ []) }
{
    let spot = Spot::Value(name.copy()?);
    let cause = Problem::Unread;
    found.push(Finding { spot, cause })?;
    Ok(())
}

/// Whether some script reads the value of a name.
fn is_read(alloc: Global, scripts: &[Scripted], name: &Name) -> Result<bool, Fault>
    ensures is { IfOk result (λ is. is ≡ is_read (scripts_in scripts.now) name.now) }
    ensures err { IfErr result (λ fault. fault ≡ Fault.OutOfMemory) }
{
    is_read_in_scripts(alloc, scripts, name)
}

fn is_read_in_scripts(alloc: Global, scripts: &[Scripted], name: &Name) -> Result<bool, Fault>
    ensures is { IfOk result (λ is.
        is ≡ list_any (λ scripted. list_any (is_read_by name.now) scripted.script) scripts.now) }
    ensures err { IfErr result (λ fault. fault ≡ Fault.OutOfMemory) }
{
    for scripted in scripts {
        if is_read_by_any(alloc, scripted.script.statements(), name)? {
            return Ok(true);
        }
    }
    Ok(false)
}

fn is_read_by_any(alloc: Global, statements: &[Statement], name: &Name) -> Result<bool, Fault>
    ensures is { IfOk result (λ is. is ≡ list_any (is_read_by name.now) statements.now) }
    ensures err { IfErr result (λ fault. fault ≡ Fault.OutOfMemory) }
{
    for statement in statements {
        if is_read_by(alloc, statement, name)? {
            return Ok(true);
        }
    }
    Ok(false)
}

fn is_read_by(alloc: Global, statement: &Statement, name: &Name) -> Result<bool, Fault>
    ensures is { IfOk result (λ is. is ≡ is_read_by name.now statement.now) }
    ensures err { IfErr result (λ fault. fault ≡ Fault.OutOfMemory) }
{
    match statement {
        Statement::Set(assignment) | Statement::Convention(assignment) => {
            is_read_in(alloc, &assignment.value, name)
        }
        Statement::Register(registration) => {
            if is_read_by_call(alloc, registration.action.as_ref(), name)? {
                return Ok(true);
            }
            is_read_in_block(alloc, registration.block.clauses(), name)
        }
        Statement::Named(configuration) => {
            is_read_in_block(alloc, configuration.block.clauses(), name)
        }
        _ => Ok(false),
    }
}

fn is_read_by_call(alloc: Global, call: Option<&Call>, name: &Name) -> Result<bool, Fault>
    ensures is { IfOk result (λ is. is ≡ is_read_by_call name.now (option_copied call.entry)) }
    ensures err { IfErr result (λ fault. fault ≡ Fault.OutOfMemory) }
{
    match call {
        Some(call) => is_read_in_any(alloc, call.arguments.as_slice(), name),
        None => Ok(false),
    }
}

fn is_read_in_block(alloc: Global, clauses: &[Clause], name: &Name) -> Result<bool, Fault>
    ensures is { IfOk result (λ is. is ≡ list_any (is_read_by_clause name.now) clauses.now) }
    ensures err { IfErr result (λ fault. fault ≡ Fault.OutOfMemory) }
{
    for clause in clauses {
        if is_read_by_clause(alloc, clause, name)? {
            return Ok(true);
        }
    }
    Ok(false)
}

fn is_read_by_clause(alloc: Global, clause: &Clause, name: &Name) -> Result<bool, Fault>
    ensures is { IfOk result (λ is. is ≡ is_read_by_clause name.now clause.now) }
    ensures err { IfErr result (λ fault. fault ≡ Fault.OutOfMemory) }
{
    match clause {
        Clause::Input(assignment) => is_read_in(alloc, &assignment.value, name),
        Clause::InputFiles(files) => is_read_in_any(alloc, files.from.as_slice(), name),
        Clause::OutputFile(assignment) => is_read_in(alloc, &assignment.value, name),
        Clause::OutputDir(assignment) => is_read_in(alloc, &assignment.value, name),
        Clause::DoFirst(call) => is_read_in_any(alloc, call.arguments.as_slice(), name),
        Clause::DoLast(call) => is_read_in_any(alloc, call.arguments.as_slice(), name),
        Clause::OnlyIf(condition) => is_read_in(alloc, &condition.value, name),
        Clause::UpToDateWhen(condition) => is_read_in(alloc, &condition.value, name),
        Clause::Enabled(value) => is_read_in(alloc, value, name),
        _ => Ok(false),
    }
}

fn is_read_in_any(alloc: Global, trees: &[Expression], name: &Name) -> Result<bool, Fault>
    ensures is { IfOk result (λ is. is ≡ list_any (is_read_in name.now) trees.now) }
    ensures err { IfErr result (λ fault. fault ≡ Fault.OutOfMemory) }
{
    for tree in trees {
        if is_read_in(alloc, tree, name)? {
            return Ok(true);
        }
    }
    Ok(false)
}

fn is_read_in(alloc: Global, tree: &Expression, name: &Name) -> Result<bool, Fault>
    ensures is { IfOk result (λ is. is ≡ is_read_in name.now tree.now) }
    ensures err { IfErr result (λ fault. fault ≡ Fault.OutOfMemory) }
{
    match look_along(alloc, &Marked { name }, tree) {
        Ok(()) => Ok(false),
        Err(fault) => was_found(fault),
    }
}

/// A fault is a mark that was found. A fault for lack of memory is returned.
fn was_found(fault: Fault) -> Result<bool, Fault>
    ensures is { IfOk result (λ is. is ≡ true) }
    ensures found { OnOk result (fault ≢ Fault.OutOfMemory) }
    ensures err { IfErr result (λ fault. fault ≡ Fault.OutOfMemory) }
{
    if is_out_of_memory(&fault) {
        return Err(fault);
    }
    drop(fault);
    Ok(true)
}

fn is_out_of_memory(fault: &Fault) -> bool
    ensures no { result ≡ false → fault.now ≢ Fault.OutOfMemory }
    ensures yes { result ≡ true → fault.now ≡ Fault.OutOfMemory }
{
    matches!(fault, Fault::OutOfMemory)
}
