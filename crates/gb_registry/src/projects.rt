//! The projects of a build.
ghost use Rattle.std.specs.Prelude.{◌≡◌, ◌≤◌, false, ◌||◌, [], ◌∷◌, ◌++◌, length, nat_lt, bytes_eq, codes};
ghost use Rattle.std.specs.Prelude.{IfOk, OnOk, IsTrue};
ghost use Rattle.std.specs.List.{flat_map, list_all};
ghost use Rattle.gb_core.specs.Path.{is_project_path, task_name};
ghost use Rattle.gb_registry.specs.Faults.{ReportsFirst};
ghost use Rattle.gb_registry.specs.Projects.{crowd_faults, folder_of, folder_text, is_among, lineage};
ghost use Rattle.gb_registry.specs.Projects.{lineage_of, lineage_of_names, path_faults, paths_faults};
ghost use Rattle.gb_registry.specs.Projects.{place_faults, project_paths, projects_of, root_path};
ghost use Rattle.gb_registry.specs.Projects.{settings_faults, text_faults, texts_faults, with_folders};
ghost use Rattle.gb_registry.specs.Projects.{with_path, with_paths};

use crate::paths::{absolute, folder_of, project_path};
use crate::unique_texts::TextSet;
use gb_core::path::{ProjectPath, is_project_path};
use gb_core::place::Place;
use gb_core::text::{Text, Texts};
use gb_report::fault::{Fault, Limited};
use gb_script::script::Settings;
use std::alloc::{AllocError, Global};
use std::marker::Model;

/// At most so many projects, the root among them.
const MOST_PROJECTS: usize = 256;

/// The most bytes in the place of a project's folder.
const LONGEST_FOLDER: usize = 896;

/// Projects, each once, with their folders.
#[derive(Drop)]
pub struct ProjectSet {
    alloc: Global,
    paths: TextSet,
    places: Vec<(ProjectPath, Option<Place>)>,
}

impl Model for ProjectSet {
    ghost use Rattle.std.specs.Prelude.{List, ℕ};

    ghost Value = { List (List ℕ) };

    ghost view = { λ p. p.paths };

    ghost use Rattle.std.specs.Prelude.{◌≡◌};
    ghost use Rattle.gb_registry.specs.Projects.{with_folders};

    ghost invariant = { λ p. p.places.items ≡ with_folders p.paths };
}

impl ProjectSet {
    /// The root alone.
    pub fn new(alloc: Global) -> Result<ProjectSet, Fault>
        ensures root { IfOk result (λ projects. projects ≡ root_path ∷ []) }
        ensures faults { ReportsFirst [] result }
    {
        let root = project_path(alloc, ":")?;
        let mut projects = ProjectSet {
            alloc,
            paths: TextSet::new(alloc),
            places: Vec::new(alloc),
        };
        match projects.put(":", root, None) {
            Ok(()) => Ok(projects),
            Err(AllocError) => {
                drop(projects);
                Err(Fault::OutOfMemory)
            }
        }
    }

    /// The projects of settings: the root, and then what the settings include, in their order, each
    /// after its parents.
    /// Refused, in the order of the text: a text that is no path (1), a project named `build` or
    /// with a folder of more than 896 bytes (57), and the 257th project (58).
    pub fn of(alloc: Global, settings: &Settings) -> Result<ProjectSet, Fault>
        ensures projects { IfOk result (λ projects. projects ≡ project_paths settings.now) }
        ensures faults { ReportsFirst (settings_faults settings.now) result }
    {
        projects_in(alloc, settings.includes())
    }

    /// Whether there is such a project. Takes no memory.
    pub fn contains(&self, path: &str) -> bool
        ensures { result ≡ is_among self.now path.now }
    {
        self.paths.contains(path)
    }

    /// The projects, each with its folder.
    pub fn as_slice(&self) -> &[(ProjectPath, Option<Place>)]
        ensures { result.now ≡ with_folders self.now }
    {
        self.places.as_slice()
    }

    /// The projects, each with its folder, of which none is copied.
    pub fn into_vec(self) -> Vec<(ProjectPath, Option<Place>)>
        ensures { result.items ≡ with_folders self }
    {
        self.places
    }

    /// Adds the project of a text, after its parents.
    fn include(&mut self, text: &Text) -> Result<(), Fault>
        ensures ok { OnOk result (self.new ≡ with_paths self.old (lineage_of text.now)) }
        ensures faults { ReportsFirst (text_faults self.old text.now) result }
    {
        let path = absolute(self.alloc, ":", text.as_str())?;
        if !is_project_path(path.as_str()) {
            return Err(Fault::BadName(text.copy()?));
        }
        self.add_lineage(path.as_str())
    }

    /// Adds a project after its parents.
    fn add_lineage(&mut self, path: &str) -> Result<(), Fault>
        requires { IsTrue (is_project_path path.now) }
        ensures ok { OnOk result (self.new ≡ with_paths self.old (lineage path.now)) }
        ensures faults { ReportsFirst (paths_faults self.old (lineage path.now)) result }
    {
        match path.strip_prefix(':') {
            Some(names) => self.add_names(names),
            None => unreachable!(),
        }
    }

    /// Adds the project of these names, with colons between them, after its parents.
    fn add_names(&mut self, names: &str) -> Result<(), Fault>
        requires { IsTrue (list_all is_project_path (lineage_of_names names.now)) }
        ensures ok { OnOk result (self.new ≡ with_paths self.old (lineage_of_names names.now)) }
        ensures faults { ReportsFirst (paths_faults self.old (lineage_of_names names.now)) result }
    {
        let mut prefix = String::new(self.alloc);
        for name in names.split(':') {
            prefix.push(':')?;
            prefix.push_str(name)?;
            self.add(prefix.as_str())?;
        }
        Ok(())
    }

    /// Adds a project, unless it is already present.
    fn add(&mut self, path: &str) -> Result<(), Fault>
        requires { IsTrue (is_project_path path.now) }
        ensures ok { OnOk result (self.new ≡ with_path self.old path.now) }
        ensures faults { ReportsFirst (path_faults self.old path.now) result }
    {
        if self.paths.contains(path) {
            return Ok(());
        }
        let project = project_path(self.alloc, path)?;
        self.check_room(&project)?;
        let folder = folder_of(self.alloc, &project)?;
        self.put(path, project, folder)?;
        Ok(())
    }

    /// Checks whether a project may be added to these.
    fn check_room(&self, path: &ProjectPath) -> Result<(), Fault>
        ensures faults { ReportsFirst (place_faults path.now ++ crowd_faults self.now) result }
        ensures short { OnOk result (length (folder_text path.now) ≤ 896) }
    {
        if is_bad_place(path.as_str()) {
            return Err(Fault::BadProjectPlace(path.copy()?));
        }
        if self.paths.len() >= MOST_PROJECTS {
            return Err(Fault::TooMany(Limited::Projects));
        }
        Ok(())
    }

    fn put(
        &mut self,
        path: &str,
        project: ProjectPath,
        folder: Option<Place>,
    ) -> Result<(), AllocError>
        requires new { is_among self.old path.now ≡ false }
        requires project { project ≡ path.now }
        requires folder { folder ≡ folder_of path.now }
        ensures { OnOk result (self.new ≡ with_path self.old path.now) }
    {
        self.places.push((project, folder))?;
        let added = self.paths.insert(path);
        if added.is_err() {
            self.places.pop();
        }
        added
    }
}

/// Whether the name is that of build folders, or the place of the folder is too long.
fn is_bad_place(path: &str) -> bool
    ensures { result ≡
        (bytes_eq (task_name path.now) (codes "build") || nat_lt 896 (length (folder_text path.now))) }
{
    name_of(path) == "build" || path.len() > LONGEST_FOLDER + 1
}

fn name_of(path: &str) -> &str
    ensures { result.now ≡ task_name path.now }
{
    match path.rsplit_once(':') {
        Some((_, name)) => name,
        None => path,
    }
}

/// The projects of settings, each with its folder (the root has none). Refused as `ProjectSet::of`
/// is.
pub fn projects(
    alloc: Global,
    settings: &Settings,
) -> Result<Vec<(ProjectPath, Option<Place>)>, Fault>
    ensures projects { IfOk result (λ projects. projects.items ≡ projects_of settings.now) }
    ensures faults { ReportsFirst (settings_faults settings.now) result }
{
    let projects = ProjectSet::of(alloc, settings)?;
    Ok(projects.into_vec())
}

/// The projects that includes name.
fn projects_in(alloc: Global, includes: &[Texts]) -> Result<ProjectSet, Fault>
    ensures projects { IfOk result (λ projects. projects ≡ project_paths includes.now) }
    ensures faults { ReportsFirst (settings_faults includes.now) result }
{
    let mut projects = ProjectSet::new(alloc)?;
    for texts in includes {
        include_all(&mut projects, texts.as_slice())?;
    }
    Ok(projects)
}

fn include_all(projects: &mut ProjectSet, texts: &[Text]) -> Result<(), Fault>
    ensures ok { OnOk result (projects.new ≡ with_paths projects.old (flat_map lineage_of texts.now)) }
    ensures faults { ReportsFirst (texts_faults projects.old texts.now) result }
{
    for text in texts {
        projects.include(text)?;
    }
    Ok(())
}
