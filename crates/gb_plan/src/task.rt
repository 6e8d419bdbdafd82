//! What a task declares, with all its expressions evaluated.
use gb_action::list::ActionList;
use gb_action::output_files::Form;
use gb_action::values::{Arguments, NamedValues};
use gb_core::name::Name;
use gb_core::path::TaskPath;
use gb_core::place::Place;
use gb_core::row::Row;
use gb_core::task_paths::TaskPaths;
use gb_tree::pattern::Pattern;
use gb_tree::property::Naming;

/// A list of places.
pub type Places = Row<Place>;

/// A list of patterns.
pub type Patterns = Row<Pattern>;

/// Files that a task reads: those under the roots that the patterns let in.
#[derive(Drop)]
pub struct FileProperty {
    /// The name under which the actions read it.
    pub name: Name,
    /// Whether actions are given what changed in it since the last run.
    pub incremental: bool,
    /// Whether the task has nothing to do where it has no file.
    pub skip_when_empty: bool,
    /// How a file is named in it.
    pub naming: Naming,
    /// The places at and under which its files are, at least one.
    pub roots: Places,
    /// The patterns that include files; if there is none, all files are included.
    pub include: Patterns,
    /// The patterns that exclude files, also those that another pattern includes.
    pub exclude: Patterns,
}

/// File properties in the order of their names.
pub type FileProperties = Row<FileProperty>;

/// A file, or all files under a place, that a task makes.
#[derive(Drop)]
pub struct Output {
    /// The name under which the actions write it.
    pub name: Name,
    /// One file, or all files under its place.
    pub form: Form,
    /// Where it is made: under the build folder of its project.
    pub place: Place,
}

/// Outputs in the order of their names.
pub type Outputs = Row<Output>;

/// An action of a task: the name of its kind, the version of the stored kind, and its arguments.
#[derive(Drop)]
pub struct Action {
    /// Its name in the table of actions.
    pub kind: Name,
    /// The version. It grows when the kind starts to make something else; at least 1.
    pub version: u32,
    /// The arguments that a script gives it, evaluated.
    pub args: Arguments,
}

/// A task as a build runs it.
#[derive(Drop)]
pub struct TaskDeclaration {
    /// The path of the task, which no other task has.
    pub path: TaskPath,
    /// Neither `enabled` nor any test of `onlyIf` is false.
    pub runs: bool,
    /// A test of `upToDateWhen` is false.
    pub is_stale: bool,
    /// The inputs that are values, in the order of their names.
    pub values: NamedValues,
    /// The inputs that are files.
    pub files: FileProperties,
    /// What it makes.
    pub outputs: Outputs,
    /// The actions, in the order in which they run.
    pub actions: ActionList<Action>,
    /// The tasks that it depends on, and those that produce what it reads.
    pub needs: TaskPaths,
    /// Tasks that run before it if they are in the plan too.
    pub must_run_after: TaskPaths,
    /// Tasks that run after it, and are in each plan that it is in.
    pub finalizers: TaskPaths,
}
