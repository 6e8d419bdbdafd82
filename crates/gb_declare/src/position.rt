//! The position of an expression.
use gb_core::name::Name;
use gb_core::place::Place;
use gb_core::text::Text;
use gb_provider::expression::Node;
use gb_registry::project::Project;
use std::collections::BTreeMap;

/// The project of an expression, and what it may read there.
#[derive(Drop)]
pub struct Site<'a> {
    /// The project, whose folder contains its places.
    pub project: &'a Project,
    /// The build folder of the project.
    pub build: &'a Place,
    /// The node of each property of the project.
    pub properties: &'a BTreeMap<Name, Node>,
    /// The values that the command line gives, by the names of properties.
    pub given: &'a BTreeMap<Text, Text>,
}
