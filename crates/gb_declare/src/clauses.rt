//! The faults of one clause of a task.
ghost use Rattle.std.specs.Prelude.{◌≡◌};
ghost use Rattle.std.specs.List.{flat_map};
ghost use Rattle.gb_registry.specs.Faults.{ReportsFirst};
ghost use Rattle.gb_registry.specs.Tables.{tables_of};
ghost use Rattle.gb_declare.specs.Declaring.{call_faults, clause_faults, condition_faults, files_faults};
ghost use Rattle.gb_declare.specs.Declaring.{main_faults, pattern_faults, scope_in, trees_faults};
ghost use Rattle.gb_registry.specs.Wrong.{task_faults_in, test_faults};
ghost use Rattle.std.specs.Option.{option_copied};

use gb_action::actions::Actions;
use gb_core::text::{Text, Texts};
use gb_provider::transforms::Transforms;
use gb_registry::names::{Names, check_name};
use gb_registry::operands::look_along;
use gb_registry::wrong::{Scope, check_count, check_task};
use gb_report::fault::Fault;
use gb_script::function::Function;
use gb_script::script::{Call, Clause, Condition, InputFiles};
use gb_script::script_expression::Expressions;
use gb_tree::pattern::{Pattern, PatternFault};
use std::alloc::Global;

/// The first fault of a clause, in the order of its text.
pub fn check_clause<A: Actions, T: Transforms>(
    alloc: Global,
    scope: &Scope<'_, A, T>,
    clause: &Clause,
) -> Result<(), Fault>
    ensures { ReportsFirst (clause_faults (tables_of T.meanings A.meanings scope.now.tables.now)
        (scope_in scope.now.project.now scope.now.properties.now (option_copied scope.now.names))
        clause.now) result }
{
    match clause {
        Clause::Input(input) => look_along(alloc, scope, &input.value),
        Clause::InputFiles(files) => check_files(alloc, scope, files),
        Clause::OutputFile(output) => look_along(alloc, scope, &output.value),
        Clause::OutputDir(output) => look_along(alloc, scope, &output.value),
        Clause::DependsOn(texts) => check_tasks(alloc, scope, texts),
        Clause::MustRunAfter(texts) => check_tasks(alloc, scope, texts),
        Clause::FinalizedBy(texts) => check_tasks(alloc, scope, texts),
        Clause::DoFirst(call) => check_call(alloc, scope, call),
        Clause::DoLast(call) => check_call(alloc, scope, call),
        Clause::OnlyIf(condition) => check_condition(alloc, scope, condition),
        Clause::UpToDateWhen(condition) => check_condition(alloc, scope, condition),
        Clause::Enabled(value) => look_along(alloc, scope, value),
    }
}

/// The first fault of the call after the colon, if there is one.
pub fn check_main<A: Actions, T: Transforms>(
    alloc: Global,
    scope: &Scope<'_, A, T>,
    call: Option<&Call>,
) -> Result<(), Fault>
    ensures { ReportsFirst (main_faults (tables_of T.meanings A.meanings scope.now.tables.now)
        (scope_in scope.now.project.now scope.now.properties.now (option_copied scope.now.names))
        (option_copied call.entry)) result }
{
    match call {
        None => Ok(()),
        Some(call) => check_call(alloc, scope, call),
    }
}

/// No action of the name is stored (40), or one of its arguments is at fault.
fn check_call<A: Actions, T: Transforms>(
    alloc: Global,
    scope: &Scope<'_, A, T>,
    call: &Call,
) -> Result<(), Fault>
    ensures { ReportsFirst (call_faults (tables_of T.meanings A.meanings scope.now.tables.now)
        (scope_in scope.now.project.now scope.now.properties.now (option_copied scope.now.names))
        call.now) result }
{
    match scope.tables.actions.find(call.name.as_str()) {
        Ok(_) => check_expressions(alloc, scope, &call.arguments),
        Err(_) => Err(Fault::UnknownAction(call.name.copy()?)),
    }
}

/// The value of a condition comes before its test.
fn check_condition<A: Actions, T: Transforms>(
    alloc: Global,
    scope: &Scope<'_, A, T>,
    condition: &Condition,
) -> Result<(), Fault>
    ensures { ReportsFirst (condition_faults (tables_of T.meanings A.meanings scope.now.tables.now)
        (scope_in scope.now.project.now scope.now.properties.now (option_copied scope.now.names))
        condition.now) result }
{
    look_along(alloc, scope, &condition.value)?;
    check_test(alloc, scope, &condition.test)
}

/// No test has the name (31), or it takes another count of arguments (32).
fn check_test<A: Actions, T: Transforms>(
    alloc: Global,
    scope: &Scope<'_, A, T>,
    test: &Function,
) -> Result<(), Fault>
    ensures { ReportsFirst (test_faults
        (tables_of T.meanings A.meanings scope.now.tables.now) test.now) result }
{
    let stored = scope.tables.transforms.find_test(test.name.as_str());
    check_count(alloc, test, stored.map(|stored| T::test_arity(stored)))
}

/// Roots come before patterns.
fn check_files<A: Actions, T: Transforms>(
    alloc: Global,
    scope: &Scope<'_, A, T>,
    files: &InputFiles,
) -> Result<(), Fault>
    ensures { ReportsFirst (files_faults (tables_of T.meanings A.meanings scope.now.tables.now)
        (scope_in scope.now.project.now scope.now.properties.now (option_copied scope.now.names))
        files.now) result }
{
    check_expressions(alloc, scope, &files.from)?;
    check_patterns(alloc, &files.include)?;
    check_patterns(alloc, &files.exclude)
}

fn check_expressions<A: Actions, T: Transforms>(
    alloc: Global,
    scope: &Scope<'_, A, T>,
    expressions: &Expressions,
) -> Result<(), Fault>
    ensures { ReportsFirst (trees_faults (tables_of T.meanings A.meanings scope.now.tables.now)
        (scope_in scope.now.project.now scope.now.properties.now (option_copied scope.now.names))
        expressions.now) result }
{
    for expression in expressions.as_slice() {
        look_along(alloc, scope, expression)?;
    }
    Ok(())
}

fn check_tasks<A: Actions, T: Transforms>(
    alloc: Global,
    scope: &Scope<'_, A, T>,
    texts: &Texts,
) -> Result<(), Fault>
    ensures { ReportsFirst
        (flat_map (task_faults_in (option_copied scope.now.names) scope.now.project.now) texts.now) result }
{
    let project = scope.project.path().as_str();
    for text in texts.as_slice() {
        check_task(alloc, scope.names, project, text)?;
    }
    Ok(())
}

fn check_patterns(alloc: Global, texts: &Texts) -> Result<(), Fault>
    ensures { ReportsFirst (flat_map pattern_faults texts.now) result }
{
    for text in texts.as_slice() {
        check_pattern(alloc, text)?;
    }
    Ok(())
}

fn check_pattern(alloc: Global, text: &Text) -> Result<(), Fault>
    ensures { ReportsFirst (pattern_faults text.now) result }
{
    match Pattern::read(alloc, text.as_str()) {
        Ok(_) => Ok(()),
        Err(PatternFault::BadPattern) => Err(Fault::BadPattern(text.copy()?)),
        Err(PatternFault::OutOfMemory) => Err(Fault::OutOfMemory),
    }
}
