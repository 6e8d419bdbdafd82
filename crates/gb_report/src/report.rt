//! The outcome of each task of a build.
ghost use Rattle.std.specs.Prelude.{◌≡◌, IfOk};
ghost use Rattle.std.specs.List.{list_any};
ghost use Rattle.gb_report.specs.Outcome.{is_failed};

use crate::fault::Fault;
use gb_core::path::TaskPath;
use gb_core::row::Row;
use gb_core::text::Texts;
use std::alloc::{AllocError, Global};

/// The outcome of a task.
#[derive(Drop)]
pub enum Outcome {
    /// Its actions ran to completion.
    Executed,
    /// Nothing had to be done.
    UpToDate,
    /// A test of its own was false, or the build is a dry run.
    Skipped,
    /// There are no files for it to work on.
    NoSource,
    /// The first fault of its execution. What was written before the fault stays.
    Failed(Fault),
    /// The task did not start.
    NotRun,
}

impl Outcome {
    ghost use Rattle.gb_report.specs.Outcome.{is_executed, is_failed, is_started, is_up_to_date};

    /// An equal outcome.
    pub fn copy(&self, alloc: Global) -> Result<Outcome, AllocError>
        ensures { IfOk result (λ copied. copied ≡ self.now) }
    {
        Ok(match self {
            Outcome::Executed => Outcome::Executed,
            Outcome::UpToDate => Outcome::UpToDate,
            Outcome::Skipped => Outcome::Skipped,
            Outcome::NoSource => Outcome::NoSource,
            Outcome::Failed(fault) => Outcome::Failed(fault.copy(alloc)?),
            Outcome::NotRun => Outcome::NotRun,
        })
    }

    /// Whether its actions ran to completion.
    pub fn is_executed(&self) -> bool
        ensures { result ≡ is_executed self.now }
    {
        matches!(self, Outcome::Executed)
    }

    /// Whether nothing had to be done, so that none of its actions ran.
    pub fn is_up_to_date(&self) -> bool
        ensures { result ≡ is_up_to_date self.now }
    {
        matches!(self, Outcome::UpToDate)
    }

    /// Whether its execution ended in a fault.
    pub fn is_failed(&self) -> bool
        ensures { result ≡ is_failed self.now }
    {
        matches!(self, Outcome::Failed(_))
    }

    /// Whether the task started.
    pub fn is_started(&self) -> bool
        ensures { result ≡ is_started self.now }
    {
        !matches!(self, Outcome::NotRun)
    }
}

/// A notification to the listeners of a build about the execution of a task.
#[derive(Drop)]
pub enum Heard {
    /// The execution of the task starts.
    Start(TaskPath),
    /// The execution of the task has ended, with this outcome.
    End(TaskPath, Outcome),
}

/// How a build is to be executed.
#[derive(Clone, Copy)]
pub struct Options {
    /// Tasks that do not need a failed one still run.
    pub keep_going: bool,
    /// Work that was done before is done again.
    pub rerun: bool,
    /// Nothing runs: the tasks that would run are reported.
    pub dry_run: bool,
}

/// The outcome of one task, and the lines that it printed.
#[derive(Drop)]
pub struct TaskReport {
    /// The path of the task.
    pub path: TaskPath,
    /// Its outcome.
    pub outcome: Outcome,
    /// A task without actions is not counted in the last line.
    pub has_actions: bool,
    /// Without their line feeds.
    pub lines: Texts,
}

impl TaskReport {
    ghost use Rattle.gb_report.specs.Outcome.{counts_as_executed, counts_as_up_to_date, is_actionable};

    /// Whether one of its actions ran, to completion or not.
    pub fn counts_as_executed(&self) -> bool
        ensures { result ≡ counts_as_executed self.now }
    {
        self.has_actions && (self.outcome.is_executed() || self.outcome.is_failed())
    }

    /// Whether it has actions and did not need to run.
    pub fn counts_as_up_to_date(&self) -> bool
        ensures { result ≡ counts_as_up_to_date self.now }
    {
        self.has_actions && self.outcome.is_up_to_date()
    }

    /// Whether the last line counts it.
    pub fn is_actionable(&self) -> bool
        ensures { result ≡ is_actionable self.now }
    {
        self.counts_as_executed() || self.counts_as_up_to_date()
    }
}

/// The tasks of a build, in the order of execution.
pub type TaskReports = Row<TaskReport>;

/// The report that a build returns.
#[derive(Drop)]
pub struct Report {
    /// All tasks of the plan, including those that did not start.
    pub tasks: TaskReports,
    /// Nothing ran: the tasks are those that would run.
    pub dry_run: bool,
    /// A listener to the task executions gave up.
    pub listener_refused: bool,
}

impl Report {
    ghost use Rattle.gb_report.specs.Outcome.{is_successful};

    /// Whether no task failed and no listener refused.
    pub fn is_successful(&self) -> bool
        ensures { result ≡ is_successful self.now }
    {
        !self.listener_refused && !has_failed(self.tasks.as_slice())
    }
}

fn has_failed(tasks: &[TaskReport]) -> bool
    ensures { result ≡ list_any (λ task. is_failed task.outcome) tasks.now }
{
    tasks.iter().any(|task| task.outcome.is_failed())
}
