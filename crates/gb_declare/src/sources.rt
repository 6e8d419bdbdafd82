//! The nodes of sources that are no lists.
ghost use Rattle.std.specs.Prelude.{◌≡◌, IfOk, length};
ghost use Rattle.gb_core.specs.Place.{joined};
ghost use Rattle.gb_provider.specs.declared.expression.Expression.TheVariants.{Constant};
ghost use Rattle.gb_registry.specs.Faults.{ReportsFirst};
ghost use Rattle.gb_registry.specs.Projects.{absolute, folder_of};
ghost use Rattle.gb_registry.specs.References.{name_faults};
ghost use Rattle.gb_registry.specs.Wrong.{place_faults};
ghost use Rattle.gb_script.specs.View.{root_of};
ghost use Rattle.gb_declare.specs.Site.{AreThere, given_under, site_of, property_node};
ghost use Rattle.gb_declare.specs.Nodes.{IsMade, added, as_text, constant_of, plain_made};
ghost use Rattle.gb_declare.specs.Wrong.{constant_faults, known_faults, root_faults};

use crate::position::Site;
use gb_core::name::{Name, NameFault};
use gb_core::path::TaskPath;
use gb_core::place::{Place, PlaceFault};
use gb_core::text::Text;
use gb_core::value::Value;
use gb_provider::expression::Node;
use gb_provider::providers::Providers;
use gb_provider::transforms::Transforms;
use gb_registry::paths::absolute;
use gb_registry::project::Project;
use gb_report::fault::Fault;
use gb_script::script_expression::Source;
use std::alloc::{AllocError, Global};

/// The place of a text in a project. Refused where the text is no place (2).
fn place_of(alloc: Global, project: &Project, text: &Text) -> Result<Place, Fault>
    ensures place { IfOk result (λ place. place ≡ joined (folder_of project.now) text.now) }
    ensures faults { ReportsFirst (place_faults project.now text.now) result }
{
    match Place::join(alloc, project.folder(), text.as_str()) {
        Ok(place) => Ok(place),
        Err(PlaceFault::OutOfMemory) => Err(Fault::OutOfMemory),
        Err(PlaceFault::BadPlace) => Err(Fault::BadPlace(text.copy()?)),
    }
}

/// The task that a text names in a project. Refused where the text is no path (1).
fn task_of(alloc: Global, project: &Project, text: &Text) -> Result<TaskPath, Fault>
    ensures path { IfOk result (λ task. task ≡ absolute project.now text.now) }
    ensures faults { ReportsFirst (name_faults project.now text.now) result }
{
    let path = absolute(alloc, project.path().as_str(), text.as_str())?;
    match TaskPath::read(alloc, path.as_str()) {
        Ok(task) => Ok(task),
        Err(NameFault::BadName) => Err(Fault::BadName(text.copy()?)),
        Err(NameFault::OutOfMemory) => Err(Fault::OutOfMemory),
    }
}

/// The node of a property. Refused where there is none of the name (54).
pub(crate) fn node_of(site: &Site<'_>, name: &Name) -> Result<Node, Fault>
    ensures node { IfOk result (λ node. property_node (site_of site.now) name.now ≡ Some node) }
    ensures faults { ReportsFirst (known_faults name.now (property_node (site_of site.now) name.now)) result }
{
    match site.properties.get(name) {
        Some(node) => Ok(*node),
        None => Err(Fault::UnknownProperty(name.copy()?)),
    }
}

/// The value that is given under a name, or nothing.
fn given_under(site: &Site<'_>, name: &Text) -> Result<Option<Value>, AllocError>
    ensures { IfOk result (λ value. value ≡ as_text (given_under (site_of site.now) name.now)) }
{
    match site.given.get(name) {
        Some(text) => Ok(Some(Value::Text(text.copy()?))),
        None => Ok(None),
    }
}

/// Adds a value, or nothing.
fn add_constant<T: Transforms>(
    providers: &mut Providers<'_, T>,
    value: Option<Value>,
) -> Result<Node, AllocError>
    ensures { IfOk result (λ node.
        IsMade providers.old providers.new (added providers.old.nodes (Constant value)) node) }
{
    match value {
        Some(value) => providers.value(value),
        None => providers.absent(),
    }
}

/// The value of a source that awaits nothing: a value, or nothing. The function is not called for a
/// list or a property.
fn constant_of(alloc: Global, site: &Site<'_>, source: &Source) -> Result<Option<Value>, Fault>
    ensures value { IfOk result (λ value. value ≡ constant_of (site_of site.now) (root_of source.now)) }
    ensures faults { ReportsFirst (constant_faults (site_of site.now) (root_of source.now)) result }
{
    match source {
        Source::Text(text) => Ok(Some(Value::Text(text.copy()?))),
        Source::Flag(flag) => Ok(Some(Value::Flag(*flag))),
        Source::Dir(text) | Source::File(text) => Ok(Some(Value::Place(place_of(
            alloc,
            site.project,
            text,
        )?))),
        Source::BuildDir => Ok(Some(Value::Place(site.build.copy()?))),
        Source::GradleProperty(text) => Ok(given_under(site, text)?),
        Source::Task(text) => Ok(Some(Value::Task(task_of(alloc, site.project, text)?))),
        Source::List(_) | Source::Property(_) => Ok(None),
    }
}

/// The node of a source that is no list: a property has its node already, and any other gets one.
pub(crate) fn add_source<T: Transforms>(
    alloc: Global,
    providers: &mut Providers<'_, T>,
    site: &Site<'_>,
    source: &Source,
) -> Result<Node, Fault>
    requires { AreThere (site_of site.now) (length providers.old.nodes) }
    ensures made { IfOk result (λ node. IsMade providers.old providers.new
        (plain_made (site_of site.now) providers.old.nodes (root_of source.now)) node) }
    ensures faults { ReportsFirst (root_faults (site_of site.now) (root_of source.now)) result }
{
    match source {
        Source::Property(name) => node_of(site, name),
        _ => {
            let value = constant_of(alloc, site, source)?;
            Ok(add_constant(providers, value)?)
        }
    }
}
