//! The effect of the statements of a script on the properties of its project.
ghost use Rattle.std.specs.Prelude.{◌≡◌, ◌<◌, OnOk, length};
ghost use Rattle.gb_provider.specs.declared.property_change.Change.TheVariants.{Convention, Finalize};
ghost use Rattle.gb_provider.specs.declared.property_change.Change.TheVariants.{SetFrom, Unset};
ghost use Rattle.gb_registry.specs.Faults.{ReportsFirst};
ghost use Rattle.gb_declare.specs.Site.{AreThere, site_of};
ghost use Rattle.gb_declare.specs.Statements.{IsRun, place_of, property_faults, statement_faults};
ghost use Rattle.gb_declare.specs.Statements.{statement_made, statements_faults, statements_made};
ghost use Rattle.gb_declare.specs.Statements.{with_change};

use crate::making::add_tree;
use crate::position::Site;
use crate::sources::node_of;
use gb_core::name::Name;
use gb_provider::expression::Node;
use gb_provider::providers::Providers;
use gb_provider::transforms::Transforms;
use gb_report::fault::Fault;
use gb_script::script::Statement;
use std::alloc::Global;

/// Makes a property follow an expression. Refused where it has no node (54), or is final (35).
fn set<T: Transforms>(
    providers: &mut Providers<'_, T>,
    site: &Site<'_>,
    name: &Name,
    source: Node,
) -> Result<(), Fault>
    requires there { AreThere (site_of site.now) (length providers.old.nodes) }
    requires source { source.number < length providers.old.nodes }
    ensures made { OnOk result (IsRun providers.old providers.new (with_change (SetFrom source.number)
        providers.old.nodes (place_of providers.old.table (site_of site.now) name.now))) }
    ensures faults { ReportsFirst (property_faults T.meanings providers.old.table (site_of site.now)
        (SetFrom source.number) providers.old.nodes name.now) result }
{
    let node = node_of(site, name)?;
    match providers.set_from(node, source) {
        Ok(()) => Ok(()),
        Err(_) => Err(Fault::Final(name.copy()?)),
    }
}

/// Sets the expression that a property follows where it is not set. Refused as in `set`.
fn convention<T: Transforms>(
    providers: &mut Providers<'_, T>,
    site: &Site<'_>,
    name: &Name,
    source: Node,
) -> Result<(), Fault>
    requires there { AreThere (site_of site.now) (length providers.old.nodes) }
    requires source { source.number < length providers.old.nodes }
    ensures made { OnOk result (IsRun providers.old providers.new (with_change (Convention source.number)
        providers.old.nodes (place_of providers.old.table (site_of site.now) name.now))) }
    ensures faults { ReportsFirst (property_faults T.meanings providers.old.table (site_of site.now)
        (Convention source.number) providers.old.nodes name.now) result }
{
    let node = node_of(site, name)?;
    match providers.convention(node, source) {
        Ok(()) => Ok(()),
        Err(_) => Err(Fault::Final(name.copy()?)),
    }
}

/// Removes what a property was set to. Refused as in `set`.
fn unset<T: Transforms>(
    providers: &mut Providers<'_, T>,
    site: &Site<'_>,
    name: &Name,
) -> Result<(), Fault>
    requires { AreThere (site_of site.now) (length providers.old.nodes) }
    ensures made { OnOk result (IsRun providers.old providers.new (with_change Unset
        providers.old.nodes (place_of providers.old.table (site_of site.now) name.now))) }
    ensures faults { ReportsFirst (property_faults T.meanings providers.old.table (site_of site.now)
        Unset providers.old.nodes name.now) result }
{
    let node = node_of(site, name)?;
    match providers.unset(node) {
        Ok(()) => Ok(()),
        Err(_) => Err(Fault::Final(name.copy()?)),
    }
}

/// Makes a property final. Refused where it has no node (54).
fn disallow<T: Transforms>(
    providers: &mut Providers<'_, T>,
    site: &Site<'_>,
    name: &Name,
) -> Result<(), Fault>
    requires { AreThere (site_of site.now) (length providers.old.nodes) }
    ensures made { OnOk result (IsRun providers.old providers.new (with_change Finalize
        providers.old.nodes (place_of providers.old.table (site_of site.now) name.now))) }
    ensures faults { ReportsFirst (property_faults T.meanings providers.old.table (site_of site.now)
        Finalize providers.old.nodes name.now) result }
{
    let node = node_of(site, name)?;
    match providers.disallow_changes(node) {
        Ok(()) => Ok(()),
        Err(_) => Err(Fault::Final(name.copy()?)),
    }
}

/// Adds the expression of a statement and changes the property that it names. Refused with the
/// first fault: of the expression, then that the property has no node (54) or is final (35).
fn add_statement<T: Transforms>(
    alloc: Global,
    providers: &mut Providers<'_, T>,
    site: &Site<'_>,
    statement: &Statement,
) -> Result<(), Fault>
    requires { AreThere (site_of site.now) (length providers.old.nodes) }
    ensures made { OnOk result (IsRun providers.old providers.new (statement_made
        providers.old.table (site_of site.now) providers.old.nodes statement.now)) }
    ensures faults { ReportsFirst (statement_faults T.meanings providers.old.table (site_of site.now)
        providers.old.nodes statement.now) result }
{
    match statement {
        Statement::Set(assignment) => {
            let source = add_tree(alloc, providers, site, &assignment.value)?;
            set(providers, site, &assignment.name, source)
        }
        Statement::Convention(assignment) => {
            let source = add_tree(alloc, providers, site, &assignment.value)?;
            convention(providers, site, &assignment.name, source)
        }
        Statement::Unset(name) => unset(providers, site, name),
        Statement::DisallowChanges(name) => disallow(providers, site, name),
        _ => Ok(()),
    }
}

/// Adds the expressions of statements and changes the properties that they name, in the order of
/// the script. Refused as in `add_statement`.
pub(crate) fn add_statements<T: Transforms>(
    alloc: Global,
    providers: &mut Providers<'_, T>,
    site: &Site<'_>,
    statements: &[Statement],
) -> Result<(), Fault>
    requires { AreThere (site_of site.now) (length providers.old.nodes) }
    ensures made { OnOk result (IsRun providers.old providers.new (statements_made
        providers.old.table (site_of site.now) providers.old.nodes statements.now)) }
    ensures faults { ReportsFirst (statements_faults T.meanings providers.old.table (site_of site.now)
        providers.old.nodes statements.now) result }
{
    for statement in statements {
        add_statement(alloc, providers, site, statement)?;
    }
    Ok(())
}
