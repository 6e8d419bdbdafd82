//! Tasks that scripts and arguments name.
ghost use Rattle.std.specs.Prelude.{◌≡◌};
ghost use Rattle.gb_core.specs.Path.{project_of, root_if_empty};
ghost use Rattle.gb_registry.specs.Faults.{ReportsFirst};
ghost use Rattle.gb_registry.specs.References.{lookup_faults, name_faults, reference_faults};

use crate::paths::absolute;
use crate::projects::ProjectSet;
use crate::unique_texts::TextSet;
use gb_core::path::{is_task_path, root_if_empty};
use gb_core::text::Text;
use gb_report::fault::Fault;
use std::alloc::Global;
use std::marker::Model;

/// The projects, and the tasks that all scripts register.
#[derive(Drop)]
pub struct Names<'a> {
    /// The projects that the settings include, and the root.
    pub projects: &'a ProjectSet,
    /// The paths of all registered tasks.
    pub tasks: &'a TextSet,
}

impl<'a> Model for Names<'a> {
    ghost use Rattle.gb_registry.specs.References.{Names as Known};

    ghost Value = { Known };

    ghost view = { λ n. record { projects = n.projects.now; tasks = n.tasks.now } };
}

impl<'a> Names<'a> {
    /// Refused where there is no such project (50) or task (52).
    pub fn look_up(&self, alloc: Global, project: &str, text: &Text) -> Result<(), Fault>
        ensures { ReportsFirst (lookup_faults self.now project.now text.now) result }
    {
        let path = absolute(alloc, project, text.as_str())?;
        if !self.projects.contains(project_of(path.as_str())) {
            return Err(Fault::UnknownProject(text.copy()?));
        }
        if !self.tasks.contains(path.as_str()) {
            return Err(Fault::TaskNotFound(text.copy()?));
        }
        Ok(())
    }

    /// Refused where the text is no path (1), or there is no such project (50) or task (52).
    pub(crate) fn refer(&self, alloc: Global, project: &str, text: &Text) -> Result<(), Fault>
        ensures { ReportsFirst (reference_faults self.now project.now text.now) result }
    {
        check_name(alloc, project, text)?;
        self.look_up(alloc, project, text)
    }
}

/// Refused where the text is no path of a task (1).
pub fn check_name(alloc: Global, project: &str, text: &Text) -> Result<(), Fault>
    ensures { ReportsFirst (name_faults project.now text.now) result }
{
    let path = absolute(alloc, project, text.as_str())?;
    if is_task_path(path.as_str()) {
        Ok(())
    } else {
        Err(Fault::BadName(text.copy()?))
    }
}

/// The path of the project that contains a task.
fn project_of(path: &str) -> &str
    ensures { result.now ≡ project_of path.now }
{
    match path.rsplit_once(':') {
        Some((project, _)) => root_if_empty(project),
        None => ":",
    }
}
