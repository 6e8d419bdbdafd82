//! Tasks that expressions name and that do not exist.
use crate::names::Names;
use crate::operands::Look;
use crate::project::Project;
use gb_report::fault::Fault;
use gb_script::script_expression::{Source, Step};
use std::alloc::Global;

/// Looks up the tasks that an expression of a project names.
#[derive(Drop)]
pub struct Missing<'a> {
    /// The existing projects and tasks.
    pub names: &'a Names<'a>,
    /// The project relative to which a text without a leading colon is resolved.
    pub project: &'a Project,
}

impl<'a> Look for Missing<'a> {
    ghost use Rattle.gb_registry.specs.Configure.{missing_at_link, missing_at_root};

    ghost at_root = { λ m. missing_at_root m.names.now m.project.now };

    ghost at_link = { λ m. missing_at_link };

    fn source(&self, alloc: Global, source: &Source) -> Result<(), Fault> {
        match source {
            Source::Task(text) => self
                .names
                .look_up(alloc, self.project.path().as_str(), text),
            _ => Ok(()),
        }
    }

    fn step(&self, _alloc: Global, _step: &Step) -> Result<(), Fault> {
        Ok(())
    }
}
