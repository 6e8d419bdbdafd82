//! A project with its folder.
ghost use Rattle.std.specs.Prelude.{◌≡◌, IfOk};
ghost use Rattle.gb_registry.specs.Faults.{ReportsFirst};
ghost use Rattle.gb_registry.specs.Wrong.{place_faults};

use gb_core::path::ProjectPath;
use gb_core::place::{Place, PlaceFault};
use gb_core::text::Text;
use gb_report::fault::Fault;
use std::alloc::{AllocError, Global};
use std::marker::Model;

/// A project. Contracts see its path.
#[derive(Drop)]
pub struct Project {
    path: ProjectPath,
    folder: Option<Place>,
}

impl Model for Project {
    ghost use Rattle.std.specs.Prelude.{◌≡◌, List, ℕ};
    ghost use Rattle.gb_registry.specs.Projects.{folder_of};

    ghost Value = { List ℕ };

    ghost view = { λ p. p.path };

    ghost invariant = { λ p. p.folder ≡ folder_of p.path };
}

impl Project {
    ghost use Rattle.std.specs.Prelude.{IfOk};
    ghost use Rattle.std.specs.Option.{option_copied};
    ghost use Rattle.gb_registry.specs.Projects.{folder_of};

    /// A project and its folder.
    pub fn new(path: ProjectPath, folder: Option<Place>) -> Project
        requires { folder ≡ folder_of path }
        ensures { result ≡ path }
    {
        Project { path, folder }
    }

    /// Its path, `:` for the root.
    pub fn path(&self) -> &ProjectPath
        ensures { result.now ≡ self.now }
    {
        &self.path
    }

    /// Its folder; the root has none.
    pub fn folder(&self) -> Option<&Place>
        ensures { option_copied result ≡ folder_of self.now }
    {
        self.folder.as_ref()
    }

    /// An equal project.
    pub fn copy(&self) -> Result<Project, AllocError>
        ensures { IfOk result (λ project. project ≡ self.now) }
    {
        let path = self.path.copy()?;
        let folder = copy_folder(&self.folder)?;
        Ok(Project::new(path, folder))
    }

    /// Refused where the text is no place in the project (2).
    pub(crate) fn check_place(&self, alloc: Global, text: &Text) -> Result<(), Fault>
        ensures { ReportsFirst (place_faults self.now text.now) result }
    {
        match Place::join(alloc, self.folder.as_ref(), text.as_str()) {
            Ok(_) => Ok(()),
            Err(PlaceFault::OutOfMemory) => Err(Fault::OutOfMemory),
            Err(PlaceFault::BadPlace) => Err(Fault::BadPlace(text.copy()?)),
        }
    }
}

/// An equal folder.
pub(crate) fn copy_folder(folder: &Option<Place>) -> Result<Option<Place>, AllocError>
    ensures { IfOk result (λ copied. copied ≡ folder.now) }
{
    match folder {
        Some(place) => Ok(Some(place.copy()?)),
        None => Ok(None),
    }
}
