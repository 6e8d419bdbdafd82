//! The prediction for a task.
ghost use Rattle.std.specs.Prelude.{◌≡◌, option_copied};
ghost use Rattle.gb_predict.specs.Marks.{changes_files, culprit, is_unread, may_change, reads_files};

use gb_core::path::TaskPath;
use gb_reason::reason::Reason;
use gb_report::fault::Fault;

/// The outcome of a task, if it were executed now.
#[derive(Drop)]
pub enum PredictedOutcome {
    /// `enabled` or a test is false.
    Skips,
    /// It runs nothing.
    HasNoActions,
    /// All file properties that skip the task when empty are empty. `true`: there are files at its
    /// outputs, and its execution removes them.
    HasNoSource(bool),
    /// Its execution would fail with this before it runs: its inputs cannot be read or its outputs
    /// cannot be listed; or the machine failed here.
    CannotRead(Fault),
    /// Its inputs and outputs are as its record says.
    UpToDate,
    /// It runs in full, because its outputs are such as no run leaves: a file is too large, or
    /// there are too many.
    HasGrown,
    /// It runs for these reasons: incrementally if `true`, else in full.
    Runs(bool, Vec<Reason>),
}

impl PredictedOutcome {
    /// Whether the prediction depends on the files that the task reads.
    pub(crate) fn reads_files(&self) -> bool
        ensures { result ≡ reads_files self.now }
    {
        !matches!(
            self,
            PredictedOutcome::Skips | PredictedOutcome::HasNoActions
        )
    }

    /// Whether its execution writes or removes files at its outputs.
    fn changes_files(&self) -> bool
        ensures { result ≡ changes_files self.now }
    {
        match self {
            PredictedOutcome::HasNoSource(removes) => *removes,
            PredictedOutcome::HasGrown | PredictedOutcome::Runs(_, _) => true,
            _ => false,
        }
    }

    /// Whether its execution fails before it runs.
    fn is_unread(&self) -> bool
        ensures { result ≡ is_unread self.now }
    {
        matches!(self, PredictedOutcome::CannotRead(_))
    }
}

/// The prediction for a task of a plan.
#[derive(Drop)]
pub struct Prediction {
    /// The path of the task.
    pub path: TaskPath,
    /// Its outcome, if it were executed now.
    pub coming: PredictedOutcome,
    /// The first task before it in the plan whose output it reads and that may change its outputs.
    /// After that task is executed, the outcome may be different.
    pub after: Option<TaskPath>,
    /// The task that it needs, directly or indirectly, and that cannot be read: it will not start.
    pub kept_by: Option<TaskPath>,
}

impl Prediction {
    /// Whether the task may change its outputs in a build.
    pub(crate) fn may_change(&self) -> bool
        ensures { result ≡ may_change self.now }
    {
        self.coming.changes_files() || self.after.is_some()
    }

    /// The task that cannot be read and therefore keeps all tasks that need this one from starting,
    /// if there is one.
    pub(crate) fn culprit(&self) -> Option<&TaskPath>
        ensures { option_copied result ≡ culprit self.now }
    {
        if self.coming.is_unread() {
            Some(&self.path)
        } else {
            self.kept_by.as_ref()
        }
    }
}
