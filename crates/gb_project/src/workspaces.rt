//! The tasks of a build, realised on demand.
ghost use Rattle.std.specs.Prelude.{◌≡◌, [], IfOk, Some, bytes_eq, length, position};
ghost use Rattle.gb_declare.specs.Realised.{evaluated, first_or, realised};
ghost use Rattle.gb_declare.specs.Views.{joined_of};
ghost use Rattle.gb_declare.specs.Whole.{spots, trees_of, whole};
ghost use Rattle.gb_project.specs.Over.{IsFault, Reports, known_names};
ghost use Rattle.gb_project.specs.Parts.{HavePatterns};
ghost use Rattle.gb_project.specs.Evaluated.{IsBuiltIn};
ghost use Rattle.gb_project.specs.Rows.{AreWithin, ReportsOf};
ghost use Rattle.gb_declare.specs.NodesInTable.{scripts_faults, scripts_made, sites_made};
ghost use Rattle.gb_declare.specs.Statements.{IsRun};
ghost use Rattle.gb_registry.specs.SoFar.{scripts_in};
ghost use Rattle.gb_registry.specs.Projects.{root_path};
ghost use Rattle.gb_registry.specs.References.{lookup_faults};
ghost use Rattle.gb_registry.specs.Tables.{tables_of};
ghost use Rattle.gb_report.specs.declared.fault.Fault.TheVariants.{TaskNotFound};
ghost use Rattle.gb_project.specs.Steps.{laid_sites};
ghost use Rattle.gb_project.specs.Views.{stage_of};
ghost use Rattle.gb_project.specs.Workspace.{IsKeptIn};

use crate::context::Context;
use crate::declared_task::{Declared, DeclaredTask};
use crate::evaluating::evaluated;
use crate::scripts::{declare_scripts, lay_scripts};
use crate::task_declaring::want_of_memory;
use gb_action::actions::Actions;
use gb_core::path::TaskPath;
use gb_core::text::Text;
use gb_declare::given::by_name;
use gb_declare::script_nodes::Laid;
use gb_plan::task::TaskDeclaration;
use gb_provider::providers::Providers;
use gb_provider::transforms::Transforms;
use gb_registry::checking::Scripted;
use gb_registry::configured::Configured;
use gb_registry::names::Names;
use gb_registry::projects::ProjectSet;
use gb_registry::registry::Registry;
use gb_registry::tables::Tables;
use gb_registry::unique_texts::TextSet;
use gb_report::fault::Fault;
use std::alloc::{AllocError, Global};
use std::collections::BTreeMap;
use std::marker::Model;

/// What scripts register, and what their tasks declare. Contracts see the tables that are passed in
/// and the contents of the scripts.
#[derive(Drop)]
pub struct Workspace<'a, A: Actions, T: Transforms> {
    tables: &'a Tables<A, T>,
    registry: &'a Registry,
    providers: Providers<'a, T>,
    declared: Declared<'a>,
}

impl<'a, A: Actions, T: Transforms> Model for Workspace<'a, A, T> {
    ghost use Rattle.std.specs.Coded.{codes};
    ghost use Rattle.gb_script.specs.Coding.{tree_code};
    ghost use Rattle.gb_project.specs.Workspace.{Space};

    ghost Value = { Space A T A.Stored T.Map T.FlatMap T.Zip T.Test };

    ghost coded = { Prim.hlevel (codes, tree_code) };

    ghost use Rattle.gb_registry.specs.Tables.{tables_of};
    ghost use Rattle.gb_project.specs.Views.{stage_of};
    ghost use Rattle.gb_project.specs.Workspace.{IsKeptIn};

    ghost view = { λ w. record { tables = w.tables.now; source = w.registry.now } };

    ghost invariant = { λ w. IsKeptIn (tables_of T.meanings A.meanings w.tables.now) w.registry.now
        (stage_of w.providers.nodes w.declared) };
}

/// Why there is no such task: no such project (50), or no such task in it (52).
fn unknown(
    alloc: Global,
    projects: &ProjectSet,
    tasks: &TextSet,
    path: &TaskPath,
) -> Result<Fault, AllocError>
    ensures { IfOk result (IsFault (first_or (TaskNotFound path.now)
        (lookup_faults (known_names projects.now tasks.now) root_path path.now))) }
{
    let text = Text::from_str(alloc, path.as_str())?;
    let names = Names { projects, tasks };
    match names.look_up(alloc, ":", &text) {
        Ok(()) => Ok(Fault::TaskNotFound(text)),
        Err(fault) => Ok(fault),
    }
}

/// The evaluated form of a declared task.
fn evaluated_entry<A: Actions, T: Transforms>(
    alloc: Global,
    context: &Context<'_, A, T>,
    providers: &mut Providers<'_, T>,
    path: &TaskPath,
    entry: &DeclaredTask<'_>,
) -> Result<TaskDeclaration, Fault>
    requires within { AreWithin providers.old.nodes entry.now.row.items }
    requires count { length entry.now.row.items ≡ length (trees_of (joined_of entry.now.task)) }
    requires patterns { HavePatterns (joined_of entry.now.task).files }
    ensures reported { let tables = tables_of T.meanings A.meanings context.now.tables.now in
        ReportsOf tables (known_names context.now.projects.now context.now.tasks.now)
        context.now.faults.now providers.old.nodes (IsBuiltIn path.now entry.now.build)
        entry.now.row.items (trees_of (joined_of entry.now.task))
        (λ source at. evaluated tables source at (spots tables source) (whole tables source)
        (joined_of entry.now.task)) result }
    ensures kept { providers.new ≡ providers.old }
{
    let row = entry.row.as_slice();
    evaluated(
        alloc,
        context,
        providers,
        path,
        &entry.build,
        &entry.task,
        row,
    )
}

/// The result for the task of a number.
fn realised_at<A: Actions, T: Transforms>(
    alloc: Global,
    tables: &Tables<A, T>,
    registry: &Registry,
    providers: &mut Providers<'_, T>,
    declared: &Declared<'_>,
    path: &TaskPath,
    index: usize,
) -> Result<TaskDeclaration, Fault>
    requires kept { IsKeptIn (tables_of T.meanings A.meanings tables.now) registry.now
        (stage_of providers.old.nodes declared.now) }
    requires index { position (bytes_eq path.now) registry.now.names.tasks ≡ Some index }
    ensures reported { let tables = tables_of T.meanings A.meanings tables.now in
        Reports tables registry.now (realised tables registry.now path.now) result }
    ensures kept { providers.new ≡ providers.old }
{
    if let Some(fault) = &declared.faults[index] {
        return Err(fault.copy(alloc)?);
    }
    let Some(entry) = &declared.entries[index] else {
        unreachable!();
    };
    let context: Context<'_, A, T> = Context {
        tables,
        projects: registry.projects(),
        tasks: registry.tasks().paths(),
        faults: declared.faults.as_slice(),
    };
    evaluated_entry(alloc, &context, providers, path, entry)
}

/// The result for the task at a path.
fn realised<A: Actions, T: Transforms>(
    alloc: Global,
    tables: &Tables<A, T>,
    registry: &Registry,
    providers: &mut Providers<'_, T>,
    declared: &Declared<'_>,
    path: &TaskPath,
) -> Result<TaskDeclaration, Fault>
    requires kept { IsKeptIn (tables_of T.meanings A.meanings tables.now) registry.now
        (stage_of providers.old.nodes declared.now) }
    ensures reported { let tables = tables_of T.meanings A.meanings tables.now in
        Reports tables registry.now (realised tables registry.now path.now) result }
    ensures kept { providers.new ≡ providers.old }
{
    let Some(index) = registry.tasks().position(path.as_str()) else {
        let tasks = registry.tasks().paths();
        return Err(unknown(alloc, registry.projects(), tasks, path)?);
    };
    realised_at(alloc, tables, registry, providers, declared, path, index)
}

/// Adds the nodes of scripts without a fault.
fn lay<T: Transforms>(
    alloc: Global,
    providers: &mut Providers<'_, T>,
    scripts: &[Scripted],
    given: &BTreeMap<Text, Text>,
) -> Result<Vec<Laid>, AllocError>
    requires { scripts_faults providers.old.table given.now.entries T.meanings providers.old.nodes
        (scripts_in scripts.now) ≡ [] }
    ensures sites { IfOk result (λ laid.
        laid_sites given.now.entries (scripts_in scripts.now) laid.items
        ≡ sites_made providers.old.table given.now.entries providers.old.nodes (scripts_in scripts.now)) }
    ensures made { IfOk result (λ _. IsRun providers.old providers.new (scripts_made
        providers.old.table given.now.entries providers.old.nodes (scripts_in scripts.now))) }
{
    match lay_scripts(alloc, providers, scripts, given) {
        Ok(laid) => Ok(laid),
        Err(fault) => Err(want_of_memory(fault)),
    }
}

/// Declares all tasks of a registry over providers without a node.
fn declared<'a, A: Actions, T: Transforms>(
    alloc: Global,
    configured: &'a Configured<'_, A, T>,
    providers: &mut Providers<'_, T>,
) -> Result<Declared<'a>, AllocError>
    requires table { providers.old.table ≡ configured.now.tables.now.transforms }
    requires none { providers.old.nodes ≡ [] }
    ensures { IfOk result (λ declared. IsKeptIn (tables_of T.meanings A.meanings configured.now.tables.now)
        configured.now.registry (stage_of providers.new.nodes declared)) }
{
    let tables = configured.tables;
    let registry = &configured.registry;
    let scripts = registry.scripts();
    let given = by_name(alloc, registry.given())?;
    let laid = lay(alloc, providers, scripts, &given)?;
    let tasks = registry.tasks();
    let names = Names {
        projects: registry.projects(),
        tasks: tasks.paths(),
    };
    let paths = tasks.as_slice();
    declare_scripts(
        alloc, tables, &names, &given, scripts, &laid, paths, providers,
    )
}

impl<'a, A: Actions, T: Transforms> Workspace<'a, A, T> {
    /// All tasks of a registry, each declared or at fault. No value is read yet.
    pub fn declare(alloc: Global, configured: &'a Configured<'a, A, T>) -> Result<Self, AllocError>
        ensures { IfOk result (λ workspace. workspace
            ≡ record { tables = configured.now.tables.now; source = configured.now.registry }) }
    {
        let tables = configured.tables;
        let mut providers = Providers::new(alloc, &tables.transforms);
        let declared = declared(alloc, configured, &mut providers)?;
        Ok(Workspace {
            tables,
            registry: &configured.registry,
            providers,
            declared,
        })
    }

    /// What the task at a path declares, with its expressions evaluated; or its first fault: first
    /// of the script, then of its values. A path under which no task is registered is 50 or 52.
    /// Values that were read are cached; the workspace as contracts see it is unchanged.
    pub fn realise(&mut self, alloc: Global, path: &TaskPath) -> Result<TaskDeclaration, Fault>
        // The result is what the scripts declare of the task at this path, or memory ran out.
        ensures reported { let tables = tables_of T.meanings A.meanings self.old.tables in
            Reports tables self.old.source (realised tables self.old.source path.now) result }
        ensures kept { self.new ≡ self.old }
    {
        let tables = self.tables;
        let registry = self.registry;
        realised(
            alloc,
            tables,
            registry,
            &mut self.providers,
            &self.declared,
            path,
        )
    }
}
