//! The nodes of expressions.
ghost use Rattle.std.specs.Prelude.{◌≡◌, ◌<◌, [], IfOk, length, map};
ghost use Rattle.gb_registry.specs.Faults.{ReportsFirst};
ghost use Rattle.gb_registry.specs.Wrong.{found_along, found_at, found_by, found_in_all};
ghost use Rattle.gb_script.specs.Tree.{links_of, trees_of};
ghost use Rattle.gb_script.specs.View.{link_of, root_of};
ghost use Rattle.gb_declare.specs.Site.{AreThere, site_of};
ghost use Rattle.gb_declare.specs.Nodes.{AreMade, IsMade, link_made, links_made};
ghost use Rattle.gb_declare.specs.Nodes.{root_made, tree_made, trees_made};
ghost use Rattle.gb_declare.specs.Wrong.{link_faults, making_faults, root_faults};

use crate::position::Site;
use crate::sources::add_source;
use crate::step_nodes::{add_flat_map, add_map, add_zip};
use gb_provider::expression::Node;
use gb_provider::providers::Providers;
use gb_provider::transforms::Transforms;
use gb_report::fault::Fault;
use gb_script::script_expression::{Expression, Source, Step};
use std::alloc::Global;

/// Adds the nodes of an expression: its source, and then step by step, an operand before its step.
/// Refused with the first of its faults in that order: a property without a node (54), a text that
/// is no place (2) or no path (1), a function that does not exist (31) or that takes other
/// arguments (32).
#[cycle(making)]
pub fn add_tree<T: Transforms>(
    alloc: Global,
    providers: &mut Providers<'_, T>,
    site: &Site<'_>,
    tree: &Expression,
) -> Result<Node, Fault>
    requires { AreThere (site_of site.now) (length providers.old.nodes) }
    ensures made { IfOk result (λ node. IsMade providers.old providers.new
        (tree_made providers.old.table (site_of site.now) providers.old.nodes tree.now) node) }
    ensures faults { ReportsFirst
        (making_faults T.meanings providers.old.table (site_of site.now) tree.now) result }
{
    let source = add_root(alloc, providers, site, tree.source())?;
    add_steps(alloc, providers, site, source, tree.steps())
}

#[cycle(making)]
fn add_root<T: Transforms>(
    alloc: Global,
    providers: &mut Providers<'_, T>,
    site: &Site<'_>,
    source: &Source,
) -> Result<Node, Fault>
    requires { AreThere (site_of site.now) (length providers.old.nodes) }
    ensures made { IfOk result (λ node. IsMade providers.old providers.new
        (root_made providers.old.table (site_of site.now) providers.old.nodes (root_of source.now)) node) }
    ensures faults { ReportsFirst (found_at (root_faults (site_of site.now))
        (link_faults T.meanings providers.old.table) (root_of source.now)) result }
{
    match source {
        Source::List(elements) => {
            let row = add_trees(alloc, providers, site, elements.as_slice())?;
            Ok(providers.list(&row)?)
        }
        _ => add_source(alloc, providers, site, source),
    }
}

/// The elements of a list, from the left.
#[cycle(making)]
fn add_trees<T: Transforms>(
    alloc: Global,
    providers: &mut Providers<'_, T>,
    site: &Site<'_>,
    trees: &[Expression],
) -> Result<Vec<Node>, Fault>
    requires { AreThere (site_of site.now) (length providers.old.nodes) }
    ensures made { IfOk result (λ row. AreMade providers.old providers.new
        (trees_made providers.old.table (site_of site.now)
        (record { nodes = providers.old.nodes; place = [] }) (trees_of trees.now)) row.items) }
    ensures faults { ReportsFirst (found_in_all (root_faults (site_of site.now))
        (link_faults T.meanings providers.old.table) (trees_of trees.now)) result }
{
    let mut row = Vec::new(alloc);
    for tree in trees {
        let node = add_tree(alloc, providers, site, tree)?;
        row.push(node)?;
    }
    Ok(row)
}

/// Steps after an expression that already has its node.
#[cycle(making)]
fn add_steps<T: Transforms>(
    alloc: Global,
    providers: &mut Providers<'_, T>,
    site: &Site<'_>,
    source: Node,
    steps: &[Step],
) -> Result<Node, Fault>
    requires there { AreThere (site_of site.now) (length providers.old.nodes) }
    requires source { source.number < length providers.old.nodes }
    ensures made { IfOk result (λ node. IsMade providers.old providers.new
        (links_made providers.old.table (site_of site.now)
        (record { nodes = providers.old.nodes; place = source.number }) (links_of (map link_of steps.now)))
        node) }
    ensures faults { ReportsFirst (found_along (root_faults (site_of site.now))
        (link_faults T.meanings providers.old.table) (links_of (map link_of steps.now))) result }
{
    let mut node = source;
    for step in steps {
        node = add_step(alloc, providers, site, node, step)?;
    }
    Ok(node)
}

/// A step after an expression that already has its node. Its operand comes before it.
#[cycle(making)]
fn add_step<T: Transforms>(
    alloc: Global,
    providers: &mut Providers<'_, T>,
    site: &Site<'_>,
    node: Node,
    step: &Step,
) -> Result<Node, Fault>
    requires there { AreThere (site_of site.now) (length providers.old.nodes) }
    requires node { node.number < length providers.old.nodes }
    ensures made { IfOk result (λ made. IsMade providers.old providers.new
        (link_made providers.old.table (site_of site.now) providers.old.nodes node.number
        (link_of step.now)) made) }
    ensures faults { ReportsFirst (found_by (root_faults (site_of site.now))
        (link_faults T.meanings providers.old.table) (link_of step.now)) result }
{
    match step {
        Step::Map(function) => add_map(alloc, providers, node, function),
        Step::FlatMap(function) => add_flat_map(alloc, providers, node, function),
        Step::Zip(operand, function) => {
            let right = add_tree(alloc, providers, site, operand)?;
            add_zip(alloc, providers, node, right, function)
        }
        Step::OrElse(operand) => {
            let right = add_tree(alloc, providers, site, operand)?;
            Ok(providers.or_else(node, right)?)
        }
    }
}
