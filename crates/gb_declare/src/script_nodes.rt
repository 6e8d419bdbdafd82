//! The nodes of scripts.
ghost use Rattle.std.specs.Prelude.{◌≡◌, ◌++◌, [], IfOk, OnOk, filter_map, length};
ghost use Rattle.gb_registry.specs.Faults.{ReportsFirst};
ghost use Rattle.gb_registry.specs.Said.{declared_property};
ghost use Rattle.gb_declare.specs.Whole.{build_folder};
ghost use Rattle.gb_declare.specs.Scripts.{build_faults, laid_site, script_faults, script_made, script_site};
ghost use Rattle.gb_declare.specs.Site.{AreThere};
ghost use Rattle.gb_declare.specs.Statements.{IsRun, named_from, statements_faults, statements_made};

use crate::position::Site;
use crate::property_nodes::add_properties;
use crate::statements::add_statements;
use gb_core::name::Name;
use gb_core::place::{Place, PlaceFault};
use gb_core::text::Text;
use gb_provider::expression::Node;
use gb_provider::providers::Providers;
use gb_provider::transforms::Transforms;
use gb_registry::checking::Scripted;
use gb_registry::project::Project;
use gb_report::fault::Fault;
use std::alloc::Global;
use std::collections::BTreeMap;

/// What the expressions of a project and of its tasks read.
#[derive(Drop)]
pub struct Laid {
    /// The build folder of the project.
    pub build: Place,
    /// The node of each of its properties.
    pub properties: BTreeMap<Name, Node>,
}

/// The build folder of a project. Refused where it is no place (57).
fn build_of(alloc: Global, project: &Project) -> Result<Place, Fault>
    ensures place { IfOk result (λ place. place ≡ build_folder project.now) }
    ensures faults { ReportsFirst (build_faults project.now) result }
{
    match Place::join(alloc, project.folder(), "build") {
        Ok(place) => Ok(place),
        Err(PlaceFault::OutOfMemory) => Err(Fault::OutOfMemory),
        Err(PlaceFault::BadPlace) => Err(Fault::BadProjectPlace(project.path().copy()?)),
    }
}

/// Adds the statements of a script. The nodes of its properties already exist.
fn run_script<T: Transforms>(
    alloc: Global,
    providers: &mut Providers<'_, T>,
    scripted: &Scripted,
    laid: &Laid,
    given: &BTreeMap<Text, Text>,
) -> Result<(), Fault>
    requires { AreThere (laid_site scripted.now.project laid.now given.now.entries)
        (length providers.old.nodes) }
    ensures made { OnOk result (IsRun providers.old providers.new (statements_made providers.old.table
        (laid_site scripted.now.project laid.now given.now.entries)
        providers.old.nodes scripted.now.script)) }
    ensures faults { ReportsFirst (statements_faults T.meanings providers.old.table
        (laid_site scripted.now.project laid.now given.now.entries)
        providers.old.nodes scripted.now.script) result }
{
    let site = Site {
        project: &scripted.project,
        build: &laid.build,
        properties: &laid.properties,
        given,
    };
    add_statements(alloc, providers, &site, scripted.script.statements())
}

/// Adds the nodes of a project's script: first its properties, and then statement by statement.
/// Refused where the build folder is no place (57), and then as in `add_statements`.
pub fn add_script<T: Transforms>(
    alloc: Global,
    providers: &mut Providers<'_, T>,
    scripted: &Scripted,
    given: &BTreeMap<Text, Text>,
) -> Result<Laid, Fault>
    ensures laid { IfOk result (λ laid. laid_site scripted.now.project laid given.now.entries
        ≡ script_site scripted.now.project given.now.entries (length providers.old.nodes)
        scripted.now.script) }
    ensures made { IfOk result (λ _. IsRun providers.old providers.new (script_made providers.old.table
        scripted.now.project given.now.entries providers.old.nodes scripted.now.script)) }
    ensures faults { ReportsFirst (script_faults T.meanings providers.old.table
        scripted.now.project given.now.entries providers.old.nodes scripted.now.script) result }
{
    let build = build_of(alloc, &scripted.project)?;
    let statements = scripted.script.statements();
    let properties = add_properties(alloc, providers, scripted.project.path(), statements)?;
    let laid = Laid { build, properties };
    run_script(alloc, providers, scripted, &laid, given)?;
    Ok(laid)
}
