//! Evaluates a declared task.
ghost use Rattle.std.specs.Prelude.{◌≡◌, IfOk, length};
ghost use Rattle.gb_registry.specs.Tables.{tables_of};
ghost use Rattle.gb_declare.specs.Realised.{evaluated};
ghost use Rattle.gb_declare.specs.Views.{joined_of};
ghost use Rattle.gb_declare.specs.Whole.{spots, trees_of, whole};
ghost use Rattle.gb_project.specs.Over.{known_names};
ghost use Rattle.gb_project.specs.Evaluated.{IsBuiltIn, contents_of, declaration_of, flags_of};
ghost use Rattle.gb_project.specs.Parts.{AreAllWithin, AreCounted, HaveAllValues, HavePatterns};
ghost use Rattle.gb_project.specs.Parts.{ReportsOfParts};
ghost use Rattle.gb_project.specs.Rows.{AreWithin, IsAt, ReportsOf};

use crate::conditions::{all_hold, is_enabled};
use crate::context::Context;
use crate::file_properties::properties;
use crate::input_values::values;
use crate::needs::needs;
use crate::output_values::outputs;
use crate::parts::{Contents, Flags, Parts, split};
use crate::task_actions::actions;
use gb_action::actions::Actions;
use gb_core::path::TaskPath;
use gb_core::place::Place;
use gb_core::task_paths::TaskPaths;
use gb_declare::registered::Joined;
use gb_plan::task::TaskDeclaration;
use gb_provider::expression::Node;
use gb_provider::providers::Providers;
use gb_provider::transforms::Transforms;
use gb_report::fault::Fault;
use std::alloc::{AllocError, Global};

/// Whether a task runs, and whether it is out of date by `upToDateWhen`.
fn flags<A: Actions, T: Transforms>(
    alloc: Global,
    context: &Context<'_, A, T>,
    providers: &mut Providers<'_, T>,
    path: &TaskPath,
    task: &Joined<'_>,
    parts: &Parts<'_>,
) -> Result<Flags, Fault>
    requires within { AreAllWithin providers.old.nodes parts.now }
    requires counted { AreCounted (joined_of task.now) parts.now }
    ensures reported { let tables = tables_of T.meanings A.meanings context.now.tables.now in
        ReportsOfParts tables (known_names context.now.projects.now context.now.tasks.now)
        context.now.faults.now providers.old.nodes (IsAt path.now) (joined_of task.now) parts.now
        (λ source at. flags_of tables source at (joined_of task.now)) result }
    ensures kept { providers.new ≡ providers.old }
{
    let enabled = is_enabled(alloc, context, providers, path, task.enabled, parts.enabled)?;
    let passed = all_hold(alloc, context, providers, &task.only_if, parts.only_if)?;
    let fresh = all_hold(
        alloc,
        context,
        providers,
        &task.up_to_date_when,
        parts.up_to_date_when,
    )?;
    Ok(Flags {
        runs: enabled && passed,
        is_stale: !fresh,
    })
}

/// What a task reads, makes and does.
fn contents<A: Actions, T: Transforms>(
    alloc: Global,
    context: &Context<'_, A, T>,
    providers: &mut Providers<'_, T>,
    path: &TaskPath,
    build: &Place,
    task: &Joined<'_>,
    parts: &Parts<'_>,
) -> Result<Contents, Fault>
    requires within { AreAllWithin providers.old.nodes parts.now }
    requires counted { AreCounted (joined_of task.now) parts.now }
    requires patterns { HavePatterns (joined_of task.now).files }
    ensures reported { let tables = tables_of T.meanings A.meanings context.now.tables.now in
        ReportsOfParts tables (known_names context.now.projects.now context.now.tasks.now)
        context.now.faults.now providers.old.nodes (IsBuiltIn path.now build.now) (joined_of task.now)
        parts.now
        (λ source at. contents_of tables source at (joined_of task.now)) result }
    ensures given { IfOk result (λ _. HaveAllValues T.meanings providers.old.nodes parts.now) }
    ensures kept { providers.new ≡ providers.old }
{
    let values = values(alloc, context, providers, path, &task.values, parts.values)?;
    let files = properties(alloc, context, providers, path, &task.files, parts.roots)?;
    let outputs = outputs(
        alloc,
        context,
        providers,
        path,
        build,
        &task.outputs,
        parts.outputs,
    )?;
    let actions = actions(
        alloc,
        context,
        providers,
        path,
        &task.actions,
        parts.arguments,
    )?;
    Ok(Contents {
        values,
        files,
        outputs,
        actions,
    })
}

fn declaration(
    alloc: Global,
    path: &TaskPath,
    task: &Joined<'_>,
    flags: Flags,
    contents: Contents,
    needs: TaskPaths,
) -> Result<TaskDeclaration, AllocError>
    ensures { IfOk result (λ made.
        made ≡ declaration_of path.now (joined_of task.now) flags contents needs) }
{
    let path = path.copy()?;
    let must_run_after = task.must_run_after.copy(alloc)?;
    let finalizers = task.finalizers.copy(alloc)?;
    Ok(TaskDeclaration {
        path,
        runs: flags.runs,
        is_stale: flags.is_stale,
        values: contents.values,
        files: contents.files,
        outputs: contents.outputs,
        actions: contents.actions,
        needs,
        must_run_after,
        finalizers,
    })
}

/// The evaluated form of a declared task, or the first fault of its expressions in the order in
/// which they are evaluated: of `enabled`, the tests, values, files, outputs by name, and actions
/// in their order. A fault leaves the providers unchanged.
pub fn evaluated<A: Actions, T: Transforms>(
    alloc: Global,
    context: &Context<'_, A, T>,
    providers: &mut Providers<'_, T>,
    path: &TaskPath,
    build: &Place,
    task: &Joined<'_>,
    row: &[Node],
) -> Result<TaskDeclaration, Fault>
    requires within { AreWithin providers.old.nodes row.now }
    requires count { length row.now ≡ length (trees_of (joined_of task.now)) }
    requires patterns { HavePatterns (joined_of task.now).files }
    ensures reported { let tables = tables_of T.meanings A.meanings context.now.tables.now in
        ReportsOf tables (known_names context.now.projects.now context.now.tasks.now)
        context.now.faults.now providers.old.nodes (IsBuiltIn path.now build.now) row.now
        (trees_of (joined_of task.now))
        (λ source at. evaluated tables source at (spots tables source) (whole tables source)
        (joined_of task.now)) result }
    ensures kept { providers.new ≡ providers.old }
{
    let parts = split(task, row);
    let flags = flags(alloc, context, providers, path, task, &parts)?;
    let contents = contents(alloc, context, providers, path, build, task, &parts)?;
    let needs = match needs(alloc, context, providers, &task.depends_on, &parts) {
        Ok(needs) => needs,
        Err(fault) => {
            drop(contents);
            return Err(fault.into());
        }
    };
    Ok(declaration(alloc, path, task, flags, contents, needs)?)
}
