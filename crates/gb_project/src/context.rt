//! The context in which expressions of tasks are evaluated.
use gb_action::actions::Actions;
use gb_provider::transforms::Transforms;
use gb_registry::projects::ProjectSet;
use gb_registry::tables::Tables;
use gb_registry::unique_texts::TextSet;
use gb_report::fault::Fault;

/// What evaluating a task needs in addition to the providers.
#[derive(Drop)]
pub struct Context<'a, A: Actions, T: Transforms> {
    /// The actions and functions that scripts may name.
    pub tables: &'a Tables<A, T>,
    /// The existing projects.
    pub projects: &'a ProjectSet,
    /// The paths of registered tasks, in the order of registration.
    pub tasks: &'a TextSet,
    /// For each of them the fault that keeps it from being declared, if there is one.
    pub faults: &'a [Option<Fault>],
}
