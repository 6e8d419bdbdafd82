//! The outputs of a task.
ghost use Rattle.std.specs.Prelude.{◌≡◌, ◌<◌, [], ◌∷◌, Err, IfOk, Ok, if◌then◌else◌, length, map};
ghost use Rattle.gb_core.specs.Place.{is_beneath};
ghost use Rattle.gb_registry.specs.Tables.{tables_of};
ghost use Rattle.gb_report.specs.declared.fault.Fault.TheVariants.{OutputOutsideBuild};
ghost use Rattle.gb_script.specs.Tree.{Tree};
ghost use Rattle.gb_declare.specs.Borrowed.{outputs_in};
ghost use Rattle.gb_declare.specs.Realised.{Plain, output_under};
ghost use Rattle.gb_declare.specs.Whole.{spots, whole};
ghost use Rattle.gb_project.specs.Given.{IsSorted};
ghost use Rattle.gb_project.specs.Over.{known_names};
ghost use Rattle.gb_project.specs.Evaluated.{IsBuiltIn, outputs_of};
ghost use Rattle.gb_project.specs.Rows.{AreWithin, ReportsOf};

use crate::context::Context;
use crate::one_value::require_place;
use gb_action::actions::Actions;
use gb_action::output_files::Form;
use gb_core::name::Name;
use gb_core::path::TaskPath;
use gb_core::place::Place;
use gb_plan::task::{Output, Outputs};
use gb_provider::expression::Node;
use gb_provider::providers::Providers;
use gb_provider::transforms::Transforms;
use gb_report::fault::Fault;
use gb_script::script_expression::Expression;
use std::alloc::Global;
use std::collections::BTreeMap;

/// An output, which must lie strictly under the build folder (56).
fn built(path: &TaskPath, build: &Place, output: Output) -> Result<Output, Fault>
    ensures { IsSorted (if is_beneath output.place build.now then Ok output
        else Err (Plain (OutputOutsideBuild path.now output.place))) result }
{
    if output.place.is_beneath(build) {
        Ok(output)
    } else {
        Err(Fault::OutputOutsideBuild(path.copy()?, output.place.copy()?))
    }
}

/// An output of this name and form, whose place must be one (33, 34) strictly under the build
/// folder (56).
fn output<A: Actions, T: Transforms>(
    alloc: Global,
    context: &Context<'_, A, T>,
    providers: &mut Providers<'_, T>,
    path: &TaskPath,
    build: &Place,
    name: &Name,
    form: Form,
    node: Node,
) -> Result<Output, Fault>
    requires { node.number < length providers.old.nodes }
    ensures reported { let tables = tables_of T.meanings A.meanings context.now.tables.now in
        (tree : Tree)
        → ReportsOf tables (known_names context.now.projects.now context.now.tasks.now)
        context.now.faults.now providers.old.nodes (IsBuiltIn path.now build.now) (node ∷ []) (tree ∷ [])
        (λ source at. output_under tables source at (spots tables source) (whole tables source)
        (name.now, (form, tree))) result }
    ensures kept { providers.new ≡ providers.old }
{
    let place = require_place(alloc, context, providers, node, path, name)?;
    let name = name.copy()?;
    built(path, build, Output { name, form, place })
}

/// The outputs of a task by their names, whose places must be given (33, 34) and lie strictly under
/// the build folder of the project (56).
pub fn outputs<A: Actions, T: Transforms>(
    alloc: Global,
    context: &Context<'_, A, T>,
    providers: &mut Providers<'_, T>,
    path: &TaskPath,
    build: &Place,
    outputs: &BTreeMap<Name, (Form, &Expression)>,
    row: &[Node],
) -> Result<Outputs, Fault>
    requires within { AreWithin providers.old.nodes row.now }
    requires count { length row.now ≡ length outputs.now.entries }
    ensures reported { let tables = tables_of T.meanings A.meanings context.now.tables.now in
        ReportsOf tables (known_names context.now.projects.now context.now.tasks.now)
        context.now.faults.now providers.old.nodes (IsBuiltIn path.now build.now) row.now
        (map (λ output. output.1.1) (outputs_in outputs.now))
        (λ source at. outputs_of tables source at (outputs_in outputs.now)) result }
    ensures kept { providers.new ≡ providers.old }
{
    let mut found = Vec::new(alloc);
    let mut rest = row;
    for (name, made) in outputs.iter() {
        let Some((node, others)) = rest.split_first() else {
            unreachable!();
        };
        let output = output(alloc, context, providers, path, build, name, made.0, *node)?;
        found.push(output)?;
        rest = others;
    }
    Ok(Outputs::from_vec(found))
}
