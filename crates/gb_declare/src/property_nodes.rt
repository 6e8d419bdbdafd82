//! The nodes of properties.
ghost use Rattle.std.specs.Prelude.{◌≡◌, ◌∷◌, ◌++◌, [], IfOk, OnOk, filter_map, length};
ghost use Rattle.std.specs.BTreeMap.{insert_entry};
ghost use Rattle.std.specs.Option.{option_copied};
ghost use Rattle.gb_core.specs.Lists.{byte_order};
ghost use Rattle.gb_registry.specs.Said.{declared_property};
ghost use Rattle.gb_declare.specs.Statements.{IsRun, named_from, properties_made, unset_property};

use gb_core::name::Name;
use gb_core::path::ProjectPath;
use gb_provider::expression::Node;
use gb_provider::providers::Providers;
use gb_provider::transforms::Transforms;
use gb_script::script::Statement;
use std::alloc::{AllocError, Global};
use std::collections::BTreeMap;

/// The property that a statement declares.
fn declared(statement: &Statement) -> Option<&Name>
    ensures { option_copied result ≡ declared_property statement.now }
{
    match statement {
        Statement::Property(name) => Some(name),
        _ => None,
    }
}

/// Adds a node for a property, and stores it by its name.
fn add_property<T: Transforms>(
    providers: &mut Providers<'_, T>,
    nodes: &mut BTreeMap<Name, Node>,
    project: &ProjectPath,
    name: &Name,
) -> Result<(), AllocError>
    ensures made { OnOk result (IsRun providers.old providers.new
        (providers.old.nodes ++ unset_property project.now name.now ∷ [])) }
    ensures named { OnOk result (nodes.new.entries ≡ insert_entry byte_order nodes.old.entries name.now
        (record { number = length providers.old.nodes })) }
{
    let node = providers.property(project.copy()?, name.copy()?)?;
    nodes.insert(name.copy()?, node)?;
    Ok(())
}

/// Adds a node for each property that the statements of a project declare.
pub(crate) fn add_properties<T: Transforms>(
    alloc: Global,
    providers: &mut Providers<'_, T>,
    project: &ProjectPath,
    statements: &[Statement],
) -> Result<BTreeMap<Name, Node>, AllocError>
    ensures made { IfOk result (λ _. IsRun providers.old providers.new
        (properties_made project.now providers.old.nodes (filter_map declared_property statements.now))) }
    ensures named { IfOk result (λ nodes. nodes.entries
        ≡ named_from (length providers.old.nodes) [] (filter_map declared_property statements.now)) }
{
    let mut nodes = BTreeMap::new(alloc);
    for statement in statements {
        if let Some(name) = declared(statement) {
            add_property(providers, &mut nodes, project, name)?;
        }
    }
    Ok(nodes)
}
