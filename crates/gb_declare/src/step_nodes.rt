//! The nodes of steps whose operands already have nodes.
ghost use Rattle.std.specs.Prelude.{◌≡◌, ◌<◌, IfOk, length};
ghost use Rattle.gb_provider.specs.Table.{flat_map_named, map_named, zip_named};
ghost use Rattle.gb_provider.specs.declared.expression.Expression.TheVariants.{FlatMapped, Mapped, Zipped};
ghost use Rattle.gb_registry.specs.Faults.{ReportsFirst};
ghost use Rattle.gb_registry.specs.Wrong.{function_faults};
ghost use Rattle.gb_declare.specs.Whole.{if_found};
ghost use Rattle.gb_declare.specs.Nodes.{IsMade, added};
ghost use Rattle.gb_declare.specs.Wrong.{step_fault};

use gb_core::text::Text;
use gb_provider::expression::Node;
use gb_provider::fault::StepFault;
use gb_provider::providers::Providers;
use gb_provider::transforms::Transforms;
use gb_report::fault::Fault;
use gb_script::function::Function;
use std::alloc::{AllocError, Global};

/// The fault of a step as it is reported to users.
fn reported(alloc: Global, function: &Function, fault: StepFault) -> Result<Fault, AllocError>
    ensures { IfOk result (λ reported. reported ≡ step_fault function.now fault) }
{
    match fault {
        StepFault::UnknownTransform => Ok(Fault::UnknownTransform(function.name.copy()?)),
        StepFault::BadArguments => Ok(Fault::BadArguments(Text::from_str(
            alloc,
            function.name.as_str(),
        )?)),
        StepFault::OutOfMemory => Ok(Fault::OutOfMemory),
    }
}

/// Adds a `map` after an expression. Refused where no function has the name (31), or it takes
/// another count of arguments (32).
pub fn add_map<T: Transforms>(
    alloc: Global,
    providers: &mut Providers<'_, T>,
    node: Node,
    function: &Function,
) -> Result<Node, Fault>
    requires { node.number < length providers.old.nodes }
    ensures made { IfOk result (λ made. IsMade providers.old providers.new
        (added providers.old.nodes (if_found (Mapped node.number) function.now
        (map_named providers.old.table function.now.name))) made) }
    ensures faults { ReportsFirst (function_faults T.meanings.map.arity function.now
        (map_named providers.old.table function.now.name)) result }
{
    let arguments = function.arguments.copy(alloc)?;
    match providers.map(node, function.name.as_str(), arguments) {
        Ok(made) => Ok(made),
        Err(fault) => Err(reported(alloc, function, fault)?),
    }
}

/// Adds a `flatMap` after an expression. Refused as in `add_map`.
pub(crate) fn add_flat_map<T: Transforms>(
    alloc: Global,
    providers: &mut Providers<'_, T>,
    node: Node,
    function: &Function,
) -> Result<Node, Fault>
    requires { node.number < length providers.old.nodes }
    ensures made { IfOk result (λ made. IsMade providers.old providers.new
        (added providers.old.nodes (if_found (FlatMapped node.number) function.now
        (flat_map_named providers.old.table function.now.name))) made) }
    ensures faults { ReportsFirst (function_faults T.meanings.flat_map.arity function.now
        (flat_map_named providers.old.table function.now.name)) result }
{
    let arguments = function.arguments.copy(alloc)?;
    match providers.flat_map(node, function.name.as_str(), arguments) {
        Ok(made) => Ok(made),
        Err(fault) => Err(reported(alloc, function, fault)?),
    }
}

/// Adds a `zip` of two expressions. Refused as in `add_map`.
pub fn add_zip<T: Transforms>(
    alloc: Global,
    providers: &mut Providers<'_, T>,
    left: Node,
    right: Node,
    function: &Function,
) -> Result<Node, Fault>
    requires left { left.number < length providers.old.nodes }
    requires right { right.number < length providers.old.nodes }
    ensures made { IfOk result (λ made. IsMade providers.old providers.new
        (added providers.old.nodes (if_found (Zipped left.number right.number) function.now
        (zip_named providers.old.table function.now.name))) made) }
    ensures faults { ReportsFirst (function_faults T.meanings.zip.arity function.now
        (zip_named providers.old.table function.now.name)) result }
{
    let arguments = function.arguments.copy(alloc)?;
    match providers.zip(left, right, function.name.as_str(), arguments) {
        Ok(made) => Ok(made),
        Err(fault) => Err(reported(alloc, function, fault)?),
    }
}
