//! Outputs, declared as expressions.
ghost use Rattle.std.specs.Prelude.{◌≡◌, ◌<◌, length, All, OnOk};
ghost use Rattle.gb_declare.specs.Borrowed.{outputs_in};
ghost use Rattle.gb_declare.specs.Statements.{IsRun};
ghost use Rattle.gb_provider.specs.Rules.{numbers_of};
ghost use Rattle.gb_project.specs.Stage.{with_output, with_outputs};

use gb_action::output_files::Form;
use gb_core::name::Name;
use gb_core::path::TaskPath;
use gb_core::text::Text;
use gb_provider::expression::Node;
use gb_provider::providers::Providers;
use gb_provider::transforms::Transforms;
use gb_script::script_expression::Expression;
use std::alloc::{AllocError, Global};
use std::collections::BTreeMap;

/// Declares an output of a task as an expression.
fn declare_output<T: Transforms>(
    alloc: Global,
    providers: &mut Providers<'_, T>,
    path: &TaskPath,
    name: &Name,
    node: Node,
) -> Result<(), AllocError>
    requires { node.number < length providers.old.nodes }
    ensures { OnOk result (IsRun providers.old providers.new (with_output providers.old.nodes
        (record { task = path.now; output = name.now }) node.number)) }
{
    let output = Text::from_str(alloc, name.as_str())?;
    providers.declare_output(path.copy()?, output, node)?;
    Ok(())
}

/// Declares the outputs of a task, by their names, as expressions in a row. An output without an
/// expression in the row is not declared.
pub fn declare_outputs<T: Transforms>(
    alloc: Global,
    providers: &mut Providers<'_, T>,
    path: &TaskPath,
    outputs: &BTreeMap<Name, (Form, &Expression)>,
    row: &[Node],
) -> Result<(), AllocError>
    requires { All (λ node. node.number < length providers.old.nodes) row.now }
    ensures { OnOk result (IsRun providers.old providers.new (with_outputs path.now
        providers.old.nodes (outputs_in outputs.now) (numbers_of row.now))) }
{
    let mut rest = row;
    for (name, _) in outputs.iter() {
        let Some((node, others)) = rest.split_first() else {
            return Ok(());
        };
        declare_output(alloc, providers, path, name, *node)?;
        rest = others;
    }
    Ok(())
}
