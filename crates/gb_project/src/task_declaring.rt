//! Tasks, declared one after another.
ghost use Rattle.std.specs.Prelude.{◌≡◌, ◌<◌, ◌++◌, ◌∷◌, [], length, All, IfOk, OnOk, Ok, None, Some};
ghost use Rattle.gb_declare.specs.Declaring.{scope_in};
ghost use Rattle.gb_declare.specs.Views.{joined_of, registered_of};
ghost use Rattle.gb_declare.specs.Whole.{trees_of as expressions_of};
ghost use Rattle.gb_declare.specs.Nodes.{AreMade};
ghost use Rattle.gb_declare.specs.Site.{AreThere, site_of};
ghost use Rattle.gb_declare.specs.Statements.{IsRun};
ghost use Rattle.gb_declare.specs.Wrong.{link_faults, root_faults};
ghost use Rattle.gb_provider.specs.Rules.{numbers_of};
ghost use Rattle.gb_registry.specs.Tables.{tables_of};
ghost use Rattle.gb_registry.specs.Wrong.{found_in_all};
ghost use Rattle.gb_report.specs.declared.fault.Fault.TheVariants.{OutOfMemory};
ghost use Rattle.gb_script.specs.Tree.{trees_of};
ghost use Rattle.gb_project.specs.Stage.{IsGood, output_row, row_made, with_declared, with_outputs};
ghost use Rattle.gb_project.specs.Steps.{IsStaged, declared_within};
ghost use Rattle.gb_project.specs.Views.{stage_of};

use crate::declared_task::{Declared, DeclaredTask};
use crate::outputs::declare_outputs;
use crate::parts::split;
use gb_action::actions::Actions;
use gb_core::path::TaskPath;
use gb_declare::declaring::declare;
use gb_declare::position::Site;
use gb_declare::registered::{Joined, Registered};
use gb_declare::row_nodes::add_task;
use gb_provider::expression::Node;
use gb_provider::providers::Providers;
use gb_provider::transforms::Transforms;
use gb_registry::names::Names;
use gb_registry::tables::Tables;
use gb_registry::unique_texts::TextSet;
use gb_registry::wrong::Scope;
use gb_report::fault::Fault;
use std::alloc::{AllocError, Global};

pub(crate) fn want_of_memory(fault: Fault) -> AllocError
    requires { fault ≡ OutOfMemory }
{
    match fault {
        Fault::OutOfMemory => AllocError,
        _ => unreachable!(),
    }
}

/// Adds the nodes of a task's expressions, which have no fault.
fn add_row<T: Transforms>(
    alloc: Global,
    providers: &mut Providers<'_, T>,
    site: &Site<'_>,
    task: &Joined<'_>,
) -> Result<Vec<Node>, AllocError>
    requires there { AreThere (site_of site.now) (length providers.old.nodes) }
    requires good { found_in_all (root_faults (site_of site.now))
        (link_faults T.meanings providers.old.table)
        (trees_of (expressions_of (joined_of task.now))) ≡ [] }
    ensures made { IfOk result (λ row. AreMade providers.old providers.new
        (row_made providers.old.table (site_of site.now) providers.old.nodes (joined_of task.now))
        row.items) }
    ensures counted { IfOk result (λ row.
        length row.items ≡ length (expressions_of (joined_of task.now))) }
{
    match add_task(alloc, providers, site, task) {
        Ok(row) => Ok(row),
        Err(fault) => Err(want_of_memory(fault)),
    }
}

/// Declares the outputs of a task with these nodes of its expressions.
fn add_outputs<T: Transforms>(
    alloc: Global,
    providers: &mut Providers<'_, T>,
    path: &TaskPath,
    task: &Joined<'_>,
    row: &[Node],
) -> Result<(), AllocError>
    requires counted { length row.now ≡ length (expressions_of (joined_of task.now)) }
    requires within { All (λ node. node.number < length providers.old.nodes) row.now }
    ensures { OnOk result (IsRun providers.old providers.new (with_outputs path.now providers.old.nodes
        (joined_of task.now).outputs (output_row (joined_of task.now) (numbers_of row.now)))) }
{
    let parts = split(task, row);
    declare_outputs(alloc, providers, path, &task.outputs, parts.outputs)
}

/// Adds the nodes of a task, including its outputs, and keeps it as declared.
fn add_declared<'a, T: Transforms>(
    alloc: Global,
    providers: &mut Providers<'_, T>,
    site: &Site<'_>,
    path: &TaskPath,
    task: Joined<'a>,
    declared: &mut Declared<'a>,
) -> Result<(), AllocError>
    requires there { AreThere (site_of site.now) (length providers.old.nodes) }
    requires good { found_in_all (root_faults (site_of site.now))
        (link_faults T.meanings providers.old.table)
        (trees_of (expressions_of (joined_of task))) ≡ [] }
    ensures { OnOk result (IsStaged providers.old providers.new declared.new
        (with_declared providers.old.table (site_of site.now) path.now
        (stage_of providers.old.nodes declared.old) (Ok (joined_of task.entry)))) }
{
    let row = add_row(alloc, providers, site, &task)?;
    add_outputs(alloc, providers, path, &task, row.as_slice())?;
    let build = site.build.copy()?;
    declared.faults.push(None)?;
    declared
        .entries
        .push(Some(DeclaredTask { build, task, row }))?;
    Ok(())
}

/// Keeps a task as one that is not declared.
fn add_fault(declared: &mut Declared<'_>, fault: Fault) -> Result<(), AllocError>
    ensures faults { OnOk result (declared.new.faults.items ≡ declared.old.faults.items ++ Some fault ∷ []) }
    ensures entries { OnOk result (declared.new.entries.items ≡ declared.old.entries.items ++ None ∷ []) }
{
    declared.faults.push(Some(fault))?;
    declared.entries.push(None)?;
    Ok(())
}

/// Declares a task, or keeps its first fault.
pub(crate) fn declare_task<'a, A: Actions, T: Transforms>(
    alloc: Global,
    tables: &Tables<A, T>,
    names: &Names<'_>,
    properties: &TextSet,
    site: &Site<'_>,
    providers: &mut Providers<'_, T>,
    task: &Registered<'a>,
    declared: &mut Declared<'a>,
) -> Result<(), AllocError>
    requires there { AreThere (site_of site.now) (length providers.old.nodes) }
    requires table { providers.old.table ≡ tables.now.transforms }
    requires project { task.now.project.now ≡ site.now.project.now }
    requires good { IsGood (tables_of T.meanings A.meanings tables.now) names.now (site_of site.now)
        (declared_within (tables_of T.meanings A.meanings tables.now)
        (scope_in site.now.project.now properties.now (Some names.now)) (registered_of task.now)) }
    ensures { OnOk result (IsStaged providers.old providers.new declared.new
        (with_declared tables.now.transforms (site_of site.now) task.now.path.now
        (stage_of providers.old.nodes declared.old)
        (declared_within (tables_of T.meanings A.meanings tables.now)
        (scope_in site.now.project.now properties.now (Some names.now)) (registered_of task.now)))) }
{
    let scope: Scope<'_, A, T> = Scope {
        tables,
        project: site.project,
        properties,
        names: Some(names),
    };
    match declare(alloc, &scope, task) {
        Ok(said) => add_declared(alloc, providers, site, task.path, said, declared),
        Err(Fault::OutOfMemory) => Err(AllocError),
        Err(fault) => add_fault(declared, fault),
    }
}
