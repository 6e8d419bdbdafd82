//! Declared tasks.
use gb_core::place::Place;
use gb_declare::registered::Joined;
use gb_provider::expression::Node;
use gb_report::fault::Fault;

/// A task that is declared.
#[derive(Drop)]
pub struct DeclaredTask<'a> {
    /// The build folder of its project.
    pub build: Place,
    /// Its combined clauses.
    pub task: Joined<'a>,
    /// The nodes of its expressions, in the order in which they are evaluated.
    pub row: Vec<Node>,
}

/// The outcomes of tasks, in the order in which they are registered.
#[derive(Drop)]
pub struct Declared<'a> {
    /// For each task the fault that keeps it from being declared, if there is one.
    pub faults: Vec<Option<Fault>>,
    /// For each task its declaration, if there is one.
    pub entries: Vec<Option<DeclaredTask<'a>>>,
}
