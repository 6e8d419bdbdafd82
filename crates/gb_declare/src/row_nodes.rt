//! The nodes of expressions in a row.
ghost use Rattle.std.specs.Prelude.{◌≡◌, [], IfOk, length};
ghost use Rattle.gb_registry.specs.Faults.{ReportsFirst};
ghost use Rattle.gb_registry.specs.Wrong.{found_in_all};
ghost use Rattle.gb_script.specs.Tree.{trees_of};
ghost use Rattle.gb_declare.specs.Borrowed.{now_of};
ghost use Rattle.gb_declare.specs.Views.{joined_of};
ghost use Rattle.gb_declare.specs.Whole.{trees_of as expressions_of};
ghost use Rattle.gb_declare.specs.Site.{AreThere, site_of};
ghost use Rattle.gb_declare.specs.Nodes.{AreMade, trees_made};
ghost use Rattle.gb_declare.specs.Wrong.{link_faults, root_faults};

use crate::making::add_tree;
use crate::position::Site;
use crate::registered::Joined;
use crate::sequence::expressions_of;
use gb_provider::expression::Node;
use gb_provider::providers::Providers;
use gb_provider::transforms::Transforms;
use gb_report::fault::Fault;
use gb_script::script_expression::Expression;
use std::alloc::Global;

/// Adds the nodes of expressions, one after another. Refused as in `add_tree`.
pub(crate) fn add_each<T: Transforms>(
    alloc: Global,
    providers: &mut Providers<'_, T>,
    site: &Site<'_>,
    trees: &[&Expression],
) -> Result<Vec<Node>, Fault>
    requires { AreThere (site_of site.now) (length providers.old.nodes) }
    ensures made { IfOk result (λ row. AreMade providers.old providers.new
        (trees_made providers.old.table (site_of site.now)
        (record { nodes = providers.old.nodes; place = [] }) (trees_of (now_of trees.now))) row.items) }
    ensures faults { ReportsFirst (found_in_all (root_faults (site_of site.now))
        (link_faults T.meanings providers.old.table) (trees_of (now_of trees.now))) result }
{
    let mut row = Vec::new(alloc);
    for tree in trees {
        let node = add_tree(alloc, providers, site, *tree)?;
        row.push(node)?;
    }
    Ok(row)
}

/// Adds the nodes of a task's expressions, in the order in which they are evaluated. Refused as in
/// `add_tree`.
pub fn add_task<T: Transforms>(
    alloc: Global,
    providers: &mut Providers<'_, T>,
    site: &Site<'_>,
    task: &Joined<'_>,
) -> Result<Vec<Node>, Fault>
    requires { AreThere (site_of site.now) (length providers.old.nodes) }
    ensures made { IfOk result (λ row. AreMade providers.old providers.new
        (trees_made providers.old.table (site_of site.now)
        (record { nodes = providers.old.nodes; place = [] })
        (trees_of (expressions_of (joined_of task.now)))) row.items) }
    ensures faults { ReportsFirst (found_in_all (root_faults (site_of site.now))
        (link_faults T.meanings providers.old.table)
        (trees_of (expressions_of (joined_of task.now)))) result }
{
    let trees = expressions_of(alloc, task)?;
    add_each(alloc, providers, site, &trees)
}
