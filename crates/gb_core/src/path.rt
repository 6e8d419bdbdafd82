//! Paths of projects and of tasks.
ghost use Rattle.std.specs.Prelude.{◌≡◌, ◌==◌, false};
ghost use Rattle.std.specs.List.{list_all, slice_split};
ghost use Rattle.gb_core.specs.Name.{is_name};
ghost use Rattle.gb_core.specs.Path.{is_project_path, is_task_path, root_if_empty};

use crate::name::{NameFault, is_name};
use crate::text::Text;
use std::alloc::{AllocError, Global};
use std::fmt;
use std::marker::Model;

/// The path of a project: `:` for the root, or `:lib:a`.
#[derive(Debug, Drop, PartialEq, Eq, PartialOrd, Ord)]
pub struct ProjectPath {
    text: Text,
}

impl Model for ProjectPath {
    ghost use Rattle.std.specs.Prelude.{List, ℕ, IsTrue};
    ghost use Rattle.gb_core.specs.Path.{is_project_path};

    ghost Value = { List ℕ };

    ghost view = { λ p. p.text };

    ghost invariant = { λ p. IsTrue (is_project_path p.text) };

    ghost inverse = { λ bytes. record { text = bytes } };
}

impl ProjectPath {
    ghost use Rattle.std.specs.Prelude.{IfOk, IsErrOf, IsTrue};

    /// Parses a text as the path of a project; any other text is `BadName` (1).
    pub fn read(alloc: Global, text: &str) -> Result<ProjectPath, NameFault>
        ensures text { IfOk result (λ path. path ≡ text.now) }
        ensures good { IfOk result (λ _. IsTrue (is_project_path text.now)) }
        ensures bad { IsErrOf result NameFault.BadName → is_project_path text.now ≡ false }
    {
        if !is_project_path(text) {
            return Err(NameFault::BadName);
        }
        Ok(ProjectPath {
            text: Text::from_str(alloc, text)?,
        })
    }

    /// An equal path.
    pub fn copy(&self) -> Result<ProjectPath, AllocError>
        ensures { IfOk result (λ copied. copied ≡ self.now) }
    {
        Ok(ProjectPath {
            text: self.text.copy()?,
        })
    }

    /// The path as it is written, with its first colon.
    pub fn as_str(&self) -> &str
        ensures text { result.now ≡ self.now }
        ensures path { IsTrue (is_project_path self.now) }
    {
        self.text.as_str()
    }
}

impl fmt::Display for ProjectPath {
    ghost use Rattle.std.specs.Prelude.{Some};

    ghost output = { λ p. Some p };

    fn fmt<W: fmt::Write>(&self, f: &mut fmt::Formatter<W>) -> fmt::Result {
        let text = &self.text;
        write!(f, "{text}")
    }
}

/// The path of a task: `:gen` in the root, or `:lib:gen`.
#[derive(Debug, Drop, PartialEq, Eq, PartialOrd, Ord)]
pub struct TaskPath {
    text: Text,
}

impl Model for TaskPath {
    ghost use Rattle.std.specs.Prelude.{List, ℕ, IsTrue};
    ghost use Rattle.gb_core.specs.Path.{is_task_path};

    ghost Value = { List ℕ };

    ghost view = { λ p. p.text };

    ghost invariant = { λ p. IsTrue (is_task_path p.text) };

    ghost inverse = { λ bytes. record { text = bytes } };
}

impl TaskPath {
    ghost use Rattle.std.specs.Prelude.{IfOk, IsErrOf, IsTrue};
    ghost use Rattle.gb_core.specs.Path.{task_name, project_of};

    /// Parses a text as a task path from the root: a text without the first colon is `BadName` (1).
    pub fn read(alloc: Global, text: &str) -> Result<TaskPath, NameFault>
        ensures text { IfOk result (λ path. path ≡ text.now) }
        ensures good { IfOk result (λ _. IsTrue (is_task_path text.now)) }
        ensures bad { IsErrOf result NameFault.BadName → is_task_path text.now ≡ false }
    {
        if !is_task_path(text) {
            return Err(NameFault::BadName);
        }
        Ok(TaskPath {
            text: Text::from_str(alloc, text)?,
        })
    }

    /// An equal path.
    pub fn copy(&self) -> Result<TaskPath, AllocError>
        ensures { IfOk result (λ copied. copied ≡ self.now) }
    {
        Ok(TaskPath {
            text: self.text.copy()?,
        })
    }

    /// The path as it is written, with its first colon.
    pub fn as_str(&self) -> &str
        ensures text { result.now ≡ self.now }
        ensures path { IsTrue (is_task_path self.now) }
    {
        self.text.as_str()
    }

    /// The path of the task's project, as `:lib` of `:lib:gen`.
    pub fn project(&self) -> &str
        ensures text { result.now ≡ project_of self.now }
        ensures project { IsTrue (is_project_path result.now) }
    {
        match self.text.as_str().rsplit_once(':') {
            Some((project, _)) => root_if_empty(project),
            None => ":",
        }
    }

    /// The task's name in its project, as `gen` of `:lib:gen`.
    pub fn name(&self) -> &str
        ensures text { result.now ≡ task_name self.now }
        ensures name { IsTrue (is_name result.now) }
    {
        let text = self.text.as_str();
        match text.rsplit_once(':') {
            Some((_, name)) => name,
            None => text,
        }
    }
}

impl Clone for TaskPath {
    ghost is_clone = { λ path copied. copied ≡ path };

    fn clone(&self) -> Result<TaskPath, AllocError> {
        self.copy()
    }
}

impl fmt::Display for TaskPath {
    ghost use Rattle.std.specs.Prelude.{Some};

    ghost output = { λ p. Some p };

    fn fmt<W: fmt::Write>(&self, f: &mut fmt::Formatter<W>) -> fmt::Result {
        let text = &self.text;
        write!(f, "{text}")
    }
}

/// Whether the text is the path of a task.
pub fn is_task_path(text: &str) -> bool
    ensures { result ≡ is_task_path text.now }
{
    match text.strip_prefix(':') {
        Some(names) => are_names(names),
        None => false,
    }
}

/// The path of the project: `:` if nothing precedes the last colon.
pub fn root_if_empty(prefix: &str) -> &str
    ensures { result.now ≡ root_if_empty prefix.now }
{
    if prefix.is_empty() { ":" } else { prefix }
}

/// Whether the text is the path of a project.
pub fn is_project_path(text: &str) -> bool
    ensures { result ≡ is_project_path text.now }
{
    text == ":" || is_task_path(text)
}

fn are_names(text: &str) -> bool
    ensures { result ≡ list_all is_name (slice_split (λ b. b == 58) text.now) }
{
    text.split(':').all(|name| is_name(name))
}
