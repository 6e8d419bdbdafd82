//! The tasks of a build in the order in which they run.
ghost use Rattle.std.specs.Prelude.{◌≡◌, ◌&&◌, false, map, bytes_eq, IfOk, MatchOption};
ghost use Rattle.std.specs.List.{list_any};
ghost use Rattle.gb_plan.specs.Task.{has_path};
ghost use Rattle.gb_plan.specs.Graph.{finalized_by, is_scheduled_in, order};
ghost use Rattle.gb_plan.specs.Plans.{IsDeclarationIn, is_selected_in, needs_at};

use crate::task::TaskDeclaration;
use gb_core::path::TaskPath;
use gb_core::task_paths::TaskPaths;
use std::alloc::{AllocError, Global};
use std::marker::Model;

/// A task of a plan, with the index of the first requested name that reaches it.
#[derive(Drop)]
pub struct Planned {
    /// What the task declares.
    pub task: TaskDeclaration,
    /// The first of the requested names that reaches the task, counted from 0.
    pub word: usize,
    /// Whether a requested name selects the task.
    pub is_selected: bool,
}

/// The tasks of a build in order.
#[derive(Drop)]
pub struct Plan {
    tasks: Vec<Planned>,
}

impl Model for Plan {
    ghost use Rattle.std.specs.Prelude.{List};
    ghost use Rattle.gb_plan.specs.declared.plan.Planned.{Planned};

    ghost Value = { List Planned };

    ghost view = { λ p. p.tasks.items };
}

impl Plan {
    /// The plan of these tasks, in the order in which they are to run.
    pub fn from_vec(tasks: Vec<Planned>) -> Plan
        ensures { result ≡ tasks.items }
    {
        Plan { tasks }
    }

    /// The tasks in the order in which they run.
    pub fn as_slice(&self) -> &[Planned]
        ensures { result.now ≡ self.now }
    {
        self.tasks.as_slice()
    }

    /// The tasks in the order in which they run.
    pub fn order(&self) -> &[Planned]
        ensures tasks { result.now ≡ self.now }
        ensures paths { map (λ planned. planned.task.path) result.now ≡ order self.now }
    {
        self.tasks.as_slice()
    }

    /// What the task at a path declares, if it is scheduled. Like all functions that follow, it
    /// scans the tasks, and takes no memory.
    pub fn declaration(&self, path: &TaskPath) -> Option<&TaskDeclaration>
        ensures { MatchOption result (is_scheduled_in self.now path.now ≡ false)
            (λ task. IsDeclarationIn self.now path.now task.now) }
    {
        for planned in self.as_slice() {
            if planned.task.path == *path {
                return Some(&planned.task);
            }
        }
        None
    }

    /// Whether a requested name selects the task.
    pub fn is_selected(&self, path: &TaskPath) -> bool
        ensures { result ≡ is_selected_in self.now path.now }
    {
        self.tasks.iter().any(|planned| planned.task.path == *path && planned.is_selected)
    }

    /// Whether the task at a path is scheduled.
    pub fn is_scheduled(&self, path: &TaskPath) -> bool
        ensures { result ≡ is_scheduled_in self.now path.now }
    {
        exists(self.as_slice(), path)
    }

    /// Whether the task at a path needs another, which is scheduled.
    pub fn needs(&self, path: &TaskPath, other: &TaskPath) -> bool
        ensures { result ≡ has_path (needs_at self.now path.now) other.now }
    {
        exists(self.as_slice(), other) && names(self.as_slice(), path, other)
    }

    /// Whether the first task finalizes the second.
    pub fn is_finalizer_of(&self, finalizer: &TaskPath, task: &TaskPath) -> bool
        ensures { result ≡ has_path (finalized_by self.now finalizer.now) task.now }
    {
        is_finalized(self.as_slice(), task, finalizer)
    }
}

fn has_path(paths: &TaskPaths, path: &TaskPath) -> bool
    ensures { result ≡ has_path paths.now path.now }
{
    paths.iter().any(|other| *path == *other)
}

/// Whether one of the tasks has the path.
fn exists(tasks: &[Planned], path: &TaskPath) -> bool
    ensures { result ≡ list_any (λ planned. bytes_eq path.now planned.task.path) tasks.now }
{
    tasks.iter().any(|planned| *path == planned.task.path)
}

/// Whether the task at a path lists the other one as needed.
fn names(tasks: &[Planned], path: &TaskPath, other: &TaskPath) -> bool
    ensures { result ≡ list_any (λ planned.
        bytes_eq planned.task.path path.now && has_path planned.task.needs other.now) tasks.now }
{
    tasks.iter().any(|planned| planned.task.path == *path && has_path(&planned.task.needs, other))
}

/// Whether a task is one of these, and lists the other as its finalizer.
fn is_finalized(tasks: &[Planned], path: &TaskPath, finalizer: &TaskPath) -> bool
    ensures { result ≡ list_any (λ planned.
        bytes_eq path.now planned.task.path && has_path planned.task.finalizers finalizer.now) tasks.now }
{
    tasks.iter().any(|planned| {
        *path == planned.task.path && has_path(&planned.task.finalizers, finalizer)
    })
}

/// The paths of these tasks, in their order.
pub fn paths_of(alloc: Global, tasks: &[Planned]) -> Result<Vec<TaskPath>, AllocError>
    ensures { IfOk result (λ paths. paths.items ≡ order tasks.now) }
{
    let mut paths = Vec::new(alloc);
    for planned in tasks {
        paths.push(planned.task.path.copy()?)?;
    }
    Ok(paths)
}
