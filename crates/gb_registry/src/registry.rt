//! The contents of settings, scripts and a command line, if they have no fault.
ghost use Rattle.std.specs.Prelude.{◌≡◌, [], ◌∷◌, ◌==◌, ◌||◌, filter, bytes_eq, fold, option_copied, IfOk};
ghost use Rattle.std.specs.Prelude.{IfErr, IsTrue, length, zip};
ghost use Rattle.std.specs.List.{list_any};
ghost use Rattle.gb_core.specs.Path.{task_name};
ghost use Rattle.gb_core.specs.Tasks.{with_tasks};
ghost use Rattle.gb_report.specs.declared.fault.Fault.TheVariants.{OutOfMemory};
ghost use Rattle.gb_registry.specs.Faults.{ReportsFirst};
ghost use Rattle.gb_registry.specs.Configure.{configure_faults};
ghost use Rattle.gb_registry.specs.Projects.{AreOfSettings, absolute, project_paths, root_path};
ghost use Rattle.gb_registry.specs.Projects.{settings_faults};
ghost use Rattle.gb_registry.specs.References.{lookup_faults, name_faults, reference_faults};
ghost use Rattle.gb_registry.specs.Said.{paths_of};
ghost use Rattle.gb_registry.specs.Read.{IsRead};
ghost use Rattle.gb_registry.specs.SoFar.{said_in, scripts_in};
ghost use Rattle.gb_registry.specs.Source.{source_of, source_with};
ghost use Rattle.gb_registry.specs.Tables.{tables_of};
ghost use Rattle.gb_registry.specs.Select.{default_tasks, defaults_after, is_path, name_word_faults};
ghost use Rattle.gb_registry.specs.Select.{selected, tasks_named, texts_or_none, word_faults};

use crate::checking::Scripted;
use crate::configure::{checked, with_projects};
use crate::configured::Configured;
use crate::names::Names;
use crate::paths::absolute;
use crate::projects::ProjectSet;
use crate::registered::Tasks;
use crate::tables::Tables;
use gb_action::actions::Actions;
use gb_core::name::{Name, NameFault, is_name};
use gb_core::path::TaskPath;
use gb_core::task_paths::TaskPaths;
use gb_core::text::{Text, Texts};
use gb_provider::transforms::Transforms;
use gb_report::fault::Fault;
use gb_script::script::{Script, Settings, Statement};
use std::alloc::{AllocError, Global};
use std::marker::Model;

/// What scripts register. Contracts see what was read: names, statements, and the values that a
/// command line gives.
#[derive(Drop)]
pub struct Registry {
    projects: ProjectSet,
    scripts: Vec<Scripted>,
    given: Vec<(Name, Text)>,
    tasks: Tasks,
}

impl Model for Registry {
    ghost use Rattle.std.specs.Coded.{codes};
    ghost use Rattle.gb_script.specs.Coding.{tree_code};
    ghost use Rattle.gb_registry.specs.Read.{IsRead};
    ghost use Rattle.gb_registry.specs.SoFar.{said_in, scripts_in};
    ghost use Rattle.gb_registry.specs.Source.{Source};

    ghost Value = { Source };

    ghost coded = { Prim.hlevel (codes, tree_code) };

    ghost view = { λ r. record {
      names = record { projects = r.projects; tasks = r.tasks };
      said = said_in r.scripts.items;
      given = r.given.items;
    } };

    ghost invariant = { λ r. IsRead (record {
      names = record { projects = r.projects; tasks = r.tasks };
      said = said_in r.scripts.items;
      given = r.given.items;
    }) (scripts_in r.scripts.items) };
}

impl Registry {
    /// Takes the statements of the scripts in their order, one script for each project of the
    /// settings.
    /// Refused with the first fault of a statement, in the order of projects and texts: a property
    /// that the script does not declare earlier (54) or that is final (35), a second property of a
    /// name (53) or task at a path (51), a task that is not registered earlier in the script (52),
    /// more than 1,024 properties or 4,096 tasks (58), and in a value a bad place (2) or path (1),
    /// and a function that does not exist (31) or that takes other arguments (32). A missing task
    /// that a value names (50, 52) ranks after all others.
    pub fn configure<'a, A: Actions, T: Transforms>(
        alloc: Global,
        settings: &Settings,
        scripts: Vec<Script>,
        given: Vec<(Name, Text)>,
        tables: &'a Tables<A, T>,
    ) -> Result<Configured<'a, A, T>, Fault>
        requires good { settings_faults settings.now ≡ [] }
        requires one_each { length scripts.items ≡ length (project_paths settings.now) }
        ensures tables { IfOk result (λ configured. configured.tables.now ≡ tables.now) }
        ensures registry { IfOk result (λ configured.
            configured.registry ≡ source_of settings.now scripts.items given.items) }
        ensures faults { ReportsFirst
            (configure_faults (tables_of T.meanings A.meanings tables.now)
            (source_of settings.now scripts.items given.items)) result }
    {
        match ProjectSet::of(alloc, settings) {
            Ok(projects) => Registry::configure_projects(alloc, projects, scripts, given, tables),
            Err(fault) => {
                drop(scripts);
                drop(given);
                Err(fault)
            }
        }
    }

    /// The same with projects that were made of the settings, one script for each.
    pub fn configure_projects<'a, A: Actions, T: Transforms>(
        alloc: Global,
        projects: ProjectSet,
        scripts: Vec<Script>,
        given: Vec<(Name, Text)>,
        tables: &'a Tables<A, T>,
    ) -> Result<Configured<'a, A, T>, Fault>
        requires of_settings { AreOfSettings projects }
        requires one_each { length scripts.items ≡ length projects }
        ensures tables { IfOk result (λ configured. configured.tables.now ≡ tables.now) }
        ensures registry { IfOk result (λ configured.
            configured.registry ≡ source_with projects scripts.items given.items) }
        ensures faults { ReportsFirst
            (configure_faults (tables_of T.meanings A.meanings tables.now)
            (source_with projects scripts.items given.items)) result }
    {
        match read_all(alloc, &projects, scripts, tables) {
            Ok((scripts, tasks)) => {
                let registry = Registry {
                    projects,
                    scripts,
                    given,
                    tasks,
                };
                Ok(Configured { tables, registry })
            }
            Err(fault) => {
                drop(projects);
                drop(given);
                Err(fault)
            }
        }
    }

    /// The projects in the order in which they are included, the root first.
    pub fn projects(&self) -> &ProjectSet
        ensures { result.now ≡ self.now.names.projects }
    {
        &self.projects
    }

    /// The registered tasks.
    pub fn tasks(&self) -> &Tasks
        ensures tasks { result.now ≡ self.now.names.tasks }
        ensures registered { result.now ≡ paths_of self.now.said }
    {
        &self.tasks
    }

    /// The scripts with their projects.
    pub fn scripts(&self) -> &[Scripted]
        ensures said { said_in result.now ≡ self.now.said }
        ensures read { IsRead self.now (scripts_in result.now) }
    {
        self.scripts.as_slice()
    }

    /// The values that the command line gives, by the names of properties.
    pub fn given(&self) -> &[(Name, Text)]
        ensures { result.now ≡ self.now.given }
    {
        self.given.as_slice()
    }

    /// The registered tasks, in the order in which they were registered.
    pub fn names(&self, alloc: Global) -> Result<Vec<TaskPath>, AllocError>
        ensures { IfOk result (λ names. names.items ≡ self.now.names.tasks) }
    {
        copy_paths(alloc, self.tasks.as_slice())
    }

    /// The tasks that an argument selects: with a colon one task, without a colon all tasks of that
    /// name. Refused where it is no path or name (1), or there is no such project (50) or task
    /// (52).
    pub fn select(&self, alloc: Global, word: &Text) -> Result<TaskPaths, Fault>
        ensures tasks { IfOk result (λ tasks. tasks ≡ selected self.now.names word.now) }
        ensures faults { ReportsFirst (word_faults self.now.names word.now) result }
    {
        if has_colon(word.as_str()) {
            self.select_path(alloc, word)
        } else {
            self.select_name(alloc, word)
        }
    }

    fn select_path(&self, alloc: Global, word: &Text) -> Result<TaskPaths, Fault>
        ensures tasks { IfOk result (λ tasks. tasks ≡ absolute root_path word.now ∷ []) }
        ensures faults { ReportsFirst (reference_faults self.now.names root_path word.now) result }
    {
        let path = path_of(alloc, word)?;
        self.look_up(alloc, word)?;
        let mut tasks = TaskPaths::new(alloc);
        tasks.insert(path)?;
        Ok(tasks)
    }

    fn look_up(&self, alloc: Global, word: &Text) -> Result<(), Fault>
        ensures { ReportsFirst (lookup_faults self.now.names root_path word.now) result }
    {
        let names = Names {
            projects: &self.projects,
            tasks: self.tasks.paths(),
        };
        names.look_up(alloc, ":", word)
    }

    fn select_name(&self, alloc: Global, word: &Text) -> Result<TaskPaths, Fault>
        ensures tasks { IfOk result (λ tasks. tasks ≡ tasks_named self.now.names word.now) }
        ensures faults { ReportsFirst (name_word_faults self.now.names word.now) result }
    {
        if !is_name(word.as_str()) {
            return Err(Fault::BadName(word.copy()?));
        }
        let tasks = named(alloc, self.tasks.as_slice(), word.as_str())?;
        if tasks.is_empty() {
            return Err(Fault::TaskNotFound(word.copy()?));
        }
        Ok(tasks)
    }

    /// The texts of the last `defaultTasks` of the root's script; none where there is no
    /// `defaultTasks`.
    pub fn default_tasks(&self, alloc: Global) -> Result<Texts, AllocError>
        ensures { IfOk result (λ texts. texts ≡ default_tasks self.now.said) }
    {
        match last_defaults(self.scripts.as_slice()) {
            Some(texts) => texts.copy(alloc),
            None => Ok(Texts::new(alloc)),
        }
    }
}

/// The scripts with their projects, and the tasks that these register.
fn read_all<A: Actions, T: Transforms>(
    alloc: Global,
    projects: &ProjectSet,
    scripts: Vec<Script>,
    tables: &Tables<A, T>,
) -> Result<(Vec<Scripted>, Tasks), Fault>
    requires of_settings { AreOfSettings projects.now }
    requires one_each { length scripts.items ≡ length projects.now }
    ensures scripts { IfOk result (λ read. scripts_in read.0.items ≡ zip projects.now scripts.items) }
    ensures tasks { IfOk result (λ read. read.1 ≡ paths_of (said_in read.0.items)) }
    ensures faults { ReportsFirst
        (configure_faults (tables_of T.meanings A.meanings tables.now)
        (source_with projects.now scripts.items [])) result }
{
    let scripts = with_projects(alloc, projects, scripts)?;
    match checked(alloc, tables, projects, scripts.as_slice()) {
        Ok(tasks) => Ok((scripts, tasks)),
        Err(fault) => {
            drop(scripts);
            Err(fault)
        }
    }
}

/// Equal paths in the same order.
fn copy_paths(alloc: Global, paths: &[TaskPath]) -> Result<Vec<TaskPath>, AllocError>
    ensures { IfOk result (λ copied. copied.items ≡ paths.now) }
{
    let mut copied = Vec::new(alloc);
    for path in paths {
        copied.push(path.copy()?)?;
    }
    Ok(copied)
}

fn has_colon(word: &str) -> bool
    ensures { result ≡ is_path word.now }
{
    word.as_bytes().iter().any(|byte| *byte == b':')
}

/// An argument as the path of a task, relative to the root. Refused where it is no path (1).
fn path_of(alloc: Global, word: &Text) -> Result<TaskPath, Fault>
    ensures path { IfOk result (λ path. path ≡ absolute root_path word.now) }
    ensures faults { ReportsFirst (name_faults root_path word.now) result }
{
    let path = absolute(alloc, ":", word.as_str())?;
    match TaskPath::read(alloc, path.as_str()) {
        Ok(path) => Ok(path),
        Err(NameFault::OutOfMemory) => Err(Fault::OutOfMemory),
        Err(NameFault::BadName) => Err(Fault::BadName(word.copy()?)),
    }
}

/// The tasks of a name, in any project.
fn named(alloc: Global, tasks: &[TaskPath], name: &str) -> Result<TaskPaths, AllocError>
    ensures { IfOk result (λ found.
        found ≡ with_tasks [] (filter (λ path. bytes_eq (task_name path) name.now) tasks.now)) }
{
    let mut found = TaskPaths::new(alloc);
    for task in tasks {
        if task.name() == name {
            found.insert(task.copy()?)?;
        }
    }
    Ok(found)
}

/// The texts of the last `defaultTasks` of the root's script.
fn last_defaults(scripts: &[Scripted]) -> Option<&Texts>
    ensures { texts_or_none (option_copied result) ≡ default_tasks (said_in scripts.now) }
{
    let mut last = None;
    for scripted in scripts {
        if scripted.project.path().as_str() == ":" {
            last = later_defaults(last, scripted.script.statements());
        }
    }
    last
}

/// The texts of the last `defaultTasks` of these statements, or else the earlier ones.
fn later_defaults<'s>(before: Option<&'s Texts>, statements: &'s [Statement]) -> Option<&'s Texts>
    ensures { texts_or_none (option_copied result)
        ≡ fold defaults_after (texts_or_none (option_copied before.entry)) statements.now }
{
    let mut last = before;
    for statement in statements {
        if let Statement::DefaultTasks(texts) = statement {
            last = Some(texts);
        }
    }
    last
}
