//! The tasks of scripts, declared one after another.
ghost use Rattle.std.specs.Prelude.{◌≡◌, [], ◌∷◌, length, drop, IfOk, OnOk};
ghost use Rattle.std.specs.List.{AllByRecursion, flat_map};
ghost use Rattle.gb_declare.specs.Scripts.{laid_site};
ghost use Rattle.gb_declare.specs.Site.{AreThere, site_of};
ghost use Rattle.gb_declare.specs.NodesInTable.{scripts_faults, scripts_made, sites_made};
ghost use Rattle.gb_declare.specs.Statements.{IsRun};
ghost use Rattle.gb_registry.specs.Faults.{ReportsFirst};
ghost use Rattle.gb_registry.specs.SoFar.{scripts_in};
ghost use Rattle.gb_registry.specs.Tables.{tables_of};
ghost use Rattle.gb_script.specs.declared.script.Statement.TheVariants.{Register};
ghost use Rattle.gb_project.specs.Indexed.{IsIndexed};
ghost use Rattle.gb_project.specs.Stage.{AreAllGood, AreGood, begun, with_script, with_scripts};
ghost use Rattle.gb_project.specs.Steps.{Begins, IsAnyGood, IsNext, IsStaged};
ghost use Rattle.gb_project.specs.Steps.{laid_sites, task_paths, with_any};
ghost use Rattle.gb_project.specs.Tasks.{registered_in, script_tasks};
ghost use Rattle.gb_project.specs.Views.{stage_of};

use crate::declared_task::Declared;
use crate::properties::properties_of;
use crate::registering::registered;
use crate::task_blocks::{Blocks, blocks_by_name};
use crate::task_declaring::declare_task;
use gb_action::actions::Actions;
use gb_core::path::TaskPath;
use gb_core::text::Text;
use gb_declare::position::Site;
use gb_declare::script_nodes::{Laid, add_script};
use gb_provider::providers::Providers;
use gb_provider::transforms::Transforms;
use gb_registry::checking::Scripted;
use gb_registry::names::Names;
use gb_registry::tables::Tables;
use gb_registry::unique_texts::TextSet;
use gb_report::fault::Fault;
use gb_script::script::{Registration, Statement};
use std::alloc::{AllocError, Global};
use std::collections::BTreeMap;

/// A script, with the tables in which its tasks look things up.
#[derive(Drop)]
pub struct Indexed<'a> {
    /// The script, and its project.
    pub scripted: &'a Scripted,
    /// The properties that it declares.
    pub properties: TextSet,
    /// The clauses that it adds to its tasks.
    pub blocks: Blocks<'a>,
    /// The paths of all tasks of all scripts, in the order in which they are registered.
    pub paths: &'a [TaskPath],
}

/// A script with the tables in which its tasks look things up.
fn look_up<'a>(
    alloc: Global,
    scripted: &'a Scripted,
    paths: &'a [TaskPath],
) -> Result<Indexed<'a>, AllocError>
    ensures indexed { IfOk result (λ script. IsIndexed script) }
    ensures scripted { IfOk result (λ script. script.scripted.now ≡ scripted.now) }
    ensures paths { IfOk result (λ script. script.paths.now ≡ paths.now) }
{
    let statements = scripted.script.statements();
    Ok(Indexed {
        scripted,
        properties: properties_of(alloc, statements)?,
        blocks: blocks_by_name(alloc, statements)?,
        paths,
    })
}

/// Declares the task of a registration, whose path is the next one.
fn declare_registered<'a, A: Actions, T: Transforms>(
    alloc: Global,
    tables: &Tables<A, T>,
    names: &Names<'_>,
    site: &Site<'_>,
    script: &Indexed<'a>,
    registration: &'a Registration,
    providers: &mut Providers<'_, T>,
    declared: &mut Declared<'a>,
) -> Result<(), AllocError>
    requires there { AreThere (site_of site.now) (length providers.old.nodes) }
    requires table { providers.old.table ≡ tables.now.transforms }
    requires project { site.now.project.now ≡ script.now.scripted.now.project }
    requires indexed { IsIndexed script.now }
    requires next { IsNext (drop (length declared.old.faults.items) script.now.paths.now)
        (registered_in script.now.scripted.now.project script.now.scripted.now.script
        (Register registration.now)) }
    requires good { IsAnyGood (tables_of T.meanings A.meanings tables.now) names.now (site_of site.now)
        script.now.scripted.now.script
        (registered_in script.now.scripted.now.project script.now.scripted.now.script
        (Register registration.now)) }
    ensures { OnOk result (IsStaged providers.old providers.new declared.new
        (with_any (tables_of T.meanings A.meanings tables.now) names.now (site_of site.now)
        script.now.scripted.now.script (stage_of providers.old.nodes declared.old)
        (registered_in script.now.scripted.now.project script.now.scripted.now.script
        (Register registration.now)))) }
{
    let path = &script.paths[declared.faults.len()];
    let project = script.scripted.project.path();
    let task = registered(alloc, project, path, registration, &script.blocks)?;
    declare_task(
        alloc,
        tables,
        names,
        &script.properties,
        site,
        providers,
        &task,
        declared,
    )
}

/// Declares the task that a statement registers, if it registers one.
fn declare_statement<'a, A: Actions, T: Transforms>(
    alloc: Global,
    tables: &Tables<A, T>,
    names: &Names<'_>,
    site: &Site<'_>,
    script: &Indexed<'a>,
    statement: &'a Statement,
    providers: &mut Providers<'_, T>,
    declared: &mut Declared<'a>,
) -> Result<(), AllocError>
    requires there { AreThere (site_of site.now) (length providers.old.nodes) }
    requires table { providers.old.table ≡ tables.now.transforms }
    requires project { site.now.project.now ≡ script.now.scripted.now.project }
    requires indexed { IsIndexed script.now }
    requires next { IsNext (drop (length declared.old.faults.items) script.now.paths.now)
        (registered_in script.now.scripted.now.project script.now.scripted.now.script statement.now) }
    requires good { IsAnyGood (tables_of T.meanings A.meanings tables.now) names.now (site_of site.now)
        script.now.scripted.now.script
        (registered_in script.now.scripted.now.project script.now.scripted.now.script statement.now) }
    ensures { OnOk result (IsStaged providers.old providers.new declared.new
        (with_any (tables_of T.meanings A.meanings tables.now) names.now (site_of site.now)
        script.now.scripted.now.script (stage_of providers.old.nodes declared.old)
        (registered_in script.now.scripted.now.project script.now.scripted.now.script statement.now))) }
{
    match statement {
        Statement::Register(registration) => declare_registered(
            alloc,
            tables,
            names,
            site,
            script,
            registration,
            providers,
            declared,
        ),
        _ => Ok(()),
    }
}

/// Declares the tasks that the statements of a script register.
fn declare_each<'a, A: Actions, T: Transforms>(
    alloc: Global,
    tables: &Tables<A, T>,
    names: &Names<'_>,
    site: &Site<'_>,
    script: &Indexed<'a>,
    providers: &mut Providers<'_, T>,
    declared: &mut Declared<'a>,
) -> Result<(), AllocError>
    requires there { AreThere (site_of site.now) (length providers.old.nodes) }
    requires table { providers.old.table ≡ tables.now.transforms }
    requires project { site.now.project.now ≡ script.now.scripted.now.project }
    requires indexed { IsIndexed script.now }
    requires next { Begins
        (task_paths (script_tasks (script.now.scripted.now.project, script.now.scripted.now.script)))
        (drop (length declared.old.faults.items) script.now.paths.now) }
    requires good { AreGood (tables_of T.meanings A.meanings tables.now) names.now (site_of site.now)
        (script.now.scripted.now.project, script.now.scripted.now.script) }
    ensures { OnOk result (IsStaged providers.old providers.new declared.new
        (with_script (tables_of T.meanings A.meanings tables.now) names.now (site_of site.now)
        (stage_of providers.old.nodes declared.old)
        (script.now.scripted.now.project, script.now.scripted.now.script))) }
{
    for statement in script.scripted.script.statements() {
        declare_statement(
            alloc, tables, names, site, script, statement, providers, declared,
        )?;
    }
    Ok(())
}

/// Declares all tasks of a script, whose paths are the next ones.
pub(crate) fn declare_script<'a, A: Actions, T: Transforms>(
    alloc: Global,
    tables: &Tables<A, T>,
    names: &Names<'_>,
    site: &Site<'_>,
    scripted: &'a Scripted,
    paths: &'a [TaskPath],
    providers: &mut Providers<'_, T>,
    declared: &mut Declared<'a>,
) -> Result<(), AllocError>
    requires there { AreThere (site_of site.now) (length providers.old.nodes) }
    requires table { providers.old.table ≡ tables.now.transforms }
    requires project { site.now.project.now ≡ scripted.now.project }
    requires next { Begins (task_paths (script_tasks (scripted.now.project, scripted.now.script)))
        (drop (length declared.old.faults.items) paths.now) }
    requires good { AreGood (tables_of T.meanings A.meanings tables.now) names.now (site_of site.now)
        (scripted.now.project, scripted.now.script) }
    ensures { OnOk result (IsStaged providers.old providers.new declared.new
        (with_script (tables_of T.meanings A.meanings tables.now) names.now (site_of site.now)
        (stage_of providers.old.nodes declared.old) (scripted.now.project, scripted.now.script))) }
{
    let script = look_up(alloc, scripted, paths)?;
    declare_each(alloc, tables, names, site, &script, providers, declared)
}

/// Declares all tasks of scripts whose nodes exist, one script after another.
pub(crate) fn declare_scripts<'a, A: Actions, T: Transforms>(
    alloc: Global,
    tables: &Tables<A, T>,
    names: &Names<'_>,
    given: &BTreeMap<Text, Text>,
    scripts: &'a [Scripted],
    laid: &[Laid],
    paths: &'a [TaskPath],
    providers: &mut Providers<'_, T>,
) -> Result<Declared<'a>, AllocError>
    requires there { AllByRecursion (λ site. AreThere site (length providers.old.nodes))
        (laid_sites given.now.entries (scripts_in scripts.now) laid.now) }
    requires table { providers.old.table ≡ tables.now.transforms }
    requires next { Begins (task_paths (flat_map script_tasks (scripts_in scripts.now))) paths.now }
    requires good { AreAllGood (tables_of T.meanings A.meanings tables.now) names.now
        (laid_sites given.now.entries (scripts_in scripts.now) laid.now) (scripts_in scripts.now) }
    ensures { IfOk result (λ declared. IsStaged providers.old providers.new declared
        (with_scripts (tables_of T.meanings A.meanings tables.now) names.now
        (begun providers.old.nodes)
        (laid_sites given.now.entries (scripts_in scripts.now) laid.now) (scripts_in scripts.now))) }
{
    let mut declared = Declared {
        faults: Vec::new(alloc),
        entries: Vec::new(alloc),
    };
    let mut rest = laid;
    for scripted in scripts {
        let Some((one, others)) = rest.split_first() else {
            return Ok(declared);
        };
        let site = Site {
            project: &scripted.project,
            build: &one.build,
            properties: &one.properties,
            given,
        };
        declare_script(
            alloc,
            tables,
            names,
            &site,
            scripted,
            paths,
            providers,
            &mut declared,
        )?;
        rest = others;
    }
    Ok(declared)
}

/// Adds the nodes of scripts, one script after another. Refused as in `add_script`.
pub(crate) fn lay_scripts<T: Transforms>(
    alloc: Global,
    providers: &mut Providers<'_, T>,
    scripts: &[Scripted],
    given: &BTreeMap<Text, Text>,
) -> Result<Vec<Laid>, Fault>
    ensures sites { IfOk result (λ laid.
        laid_sites given.now.entries (scripts_in scripts.now) laid.items
        ≡ sites_made providers.old.table given.now.entries providers.old.nodes (scripts_in scripts.now)) }
    ensures made { IfOk result (λ _. IsRun providers.old providers.new (scripts_made
        providers.old.table given.now.entries providers.old.nodes (scripts_in scripts.now))) }
    ensures faults { ReportsFirst (scripts_faults providers.old.table given.now.entries T.meanings
        providers.old.nodes (scripts_in scripts.now)) result }
{
    let mut laid = Vec::new(alloc);
    for scripted in scripts {
        let one = add_script(alloc, providers, scripted, given)?;
        laid.push(one)?;
    }
    Ok(laid)
}
