//! Whether a task starts, at its place in the order.
ghost use Rattle.std.specs.Prelude.{◌≡◌, ◌<◌, ◌⊎◌, ◌↔◌, ℕ, true, false, length, Contains, IsTrue, IfOk};
ghost use Rattle.std.specs.Prelude.{slice_set, vec_len};
ghost use Rattle.std.specs.List.{list_any};
ghost use Rattle.gb_report.specs.Outcome.{is_failed, is_started};
ghost use Rattle.gb_exec.specs.Starts.{DoesStart, IsWired, Spreads, ended_badly, ending_in, has_executed};
ghost use Rattle.gb_exec.specs.Starts.{mark_at, row, rows};

use gb_report::report::Outcome;
use std::alloc::{AllocError, Global};
use std::marker::Model;

/// How a task's execution ended, in the terms that matter to the tasks after it.
#[derive(Clone, Copy, Debug, PartialEq, Eq)]
pub enum Ending {
    /// Its execution is still to come.
    ToCome,
    /// Its actions ran to their end, or it has none and a task that it needs was executed.
    Executed,
    /// It was started, was not executed, and did not fail.
    NothingDone,
    /// Its execution ended in a fault.
    Failed,
    /// It was not started, and will not be.
    NotRun,
}

impl Ending {
    ghost use Rattle.gb_exec.specs.Starts.{ending_of, has_failed, has_started};

    /// How an execution with this outcome ended.
    pub fn of(outcome: &Outcome) -> Ending
        ensures { result ≡ ending_of outcome.now }
    {
        if outcome.is_failed() {
            Ending::Failed
        } else if outcome.is_executed() {
            Ending::Executed
        } else if outcome.is_started() {
            Ending::NothingDone
        } else {
            Ending::NotRun
        }
    }

    fn has_failed(self) -> bool
        ensures { result ≡ has_failed self }
    {
        matches!(self, Ending::Failed)
    }

    fn has_started(self) -> bool
        ensures { result ≡ has_started self }
    {
        matches!(
            self,
            Ending::Executed | Ending::NothingDone | Ending::Failed
        )
    }
}

/// Whether a task of these failed or was not run.
fn some_ended_badly(row: &[usize], endings: &[Ending]) -> bool
    requires known { (task : ℕ) → Contains row.now task → task < length endings.now }
    ensures { result ≡ list_any (λ task. ended_badly (ending_in endings.now task)) row.now }
{
    for task in row {
        if matches!(endings[*task], Ending::Failed | Ending::NotRun) {
            return true;
        }
    }
    false
}

/// Whether a task of these was executed.
fn some_executed(row: &[usize], endings: &[Ending]) -> bool
    requires known { (task : ℕ) → Contains row.now task → task < length endings.now }
    ensures { result ≡ list_any (λ task. has_executed (ending_in endings.now task)) row.now }
{
    for task in row {
        if matches!(endings[*task], Ending::Executed) {
            return true;
        }
    }
    false
}

/// Marks the tasks of a row.
pub(crate) fn mark_all(row: &[usize], marks: &mut Vec<bool>)
    requires known { (task : ℕ) → Contains row.now task → task < vec_len marks.old }
    ensures len { vec_len marks.new ≡ vec_len marks.old }
    ensures kept { (task : ℕ) → mark_at marks.old.items task ≡ true → mark_at marks.new.items task ≡ true }
    ensures all { (task : ℕ) → Contains row.now task → mark_at marks.new.items task ≡ true }
    ensures only { (task : ℕ) → mark_at marks.new.items task ≡ true
        → (mark_at marks.old.items task ≡ true) ⊎ Contains row.now task }
{
    for task in row {
        marks[*task] = true;
    }
}

/// Also marks all tasks that the marked ones need, directly or indirectly. A task needs only tasks
/// with smaller numbers, so one pass from the last to the first is enough.
fn spread(needs: &[Vec<usize>], marks: &mut Vec<bool>)
    requires marks { vec_len marks.old ≡ length needs.now }
    requires lesser { (later task : ℕ) → Contains (row (rows needs.now) later) task → task < later }
    ensures len { vec_len marks.new ≡ vec_len marks.old }
    ensures marked { (task : ℕ) → (mark_at marks.new.items task ≡ true)
        ↔ Spreads (rows needs.now) marks.old.items task }
{
    for done in 0..needs.len() {
        let later = needs.len() - 1 - done;
        if marks[later] {
            mark_all(&needs[later], marks);
        }
    }
}

/// Makes the second marks equal to the first.
fn copy_marks(marks: &[bool], copied: &mut Vec<bool>)
    requires { vec_len copied.old ≡ length marks.now }
    ensures { copied.new.items ≡ marks.now }
{
    for at in 0..marks.len() {
        copied[at] = marks[at];
    }
}

/// The tasks of a plan, and how their executions ended so far.
#[derive(Drop)]
pub struct Starts {
    needs: Vec<Vec<usize>>,
    finalizers: Vec<Vec<usize>>,
    wanted: Vec<bool>,
    endings: Vec<Ending>,
    /// The finalizers of started tasks.
    called: Vec<bool>,
    /// The called tasks, and all that they need, directly or indirectly.
    serving: Vec<bool>,
    /// Whether none was called since `serving` was computed.
    is_spread: bool,
    some_failed: bool,
}

impl Model for Starts {
    ghost use Rattle.gb_exec.specs.Starts.{Keeps, Progress, rows};

    ghost Value = { Progress };

    ghost view = { λ s. record {
      needs = rows s.needs.items;
      finalizers = rows s.finalizers.items;
      wanted = s.wanted.items;
      endings = s.endings.items;
    } };

    ghost invariant = { λ s. Keeps
        (record {
          needs = rows s.needs.items;
          finalizers = rows s.finalizers.items;
          wanted = s.wanted.items;
          endings = s.endings.items;
        })
        s.called.items s.serving.items s.is_spread s.some_failed };
}

impl Starts {
    ghost use Rattle.std.specs.Prelude.{replicate};
    ghost use Rattle.gb_exec.specs.Starts.{FinalizesStarted, Serves, ending_in, ending_of};
    ghost use Rattle.gb_exec.specs.Starts.{has_executed_need, is_stopping, lacks_need};
    ghost use Rattle.gb_exec.specs.declared.may_start.Ending.TheVariants.{ToCome};

    /// Before the first execution. `needs` has, for each task, the numbers of the tasks that it
    /// needs, all less than its own; `finalizers` those that finalize it; `wanted` whether it is
    /// selected or needed by a task of the plan.
    pub fn new(
        alloc: Global,
        needs: Vec<Vec<usize>>,
        finalizers: Vec<Vec<usize>>,
        wanted: Vec<bool>,
    ) -> Result<Starts, AllocError>
        requires { IsWired (rows needs.items) (rows finalizers.items) wanted.items }
        ensures { IfOk result (λ starts. starts ≡ record {
          needs = rows needs.items;
          finalizers = rows finalizers.items;
          wanted = wanted.items;
          endings = replicate (length needs.items) ToCome;
        }) }
    {
        let endings = vec![in alloc; Ending::ToCome; needs.len()]?;
        let called = vec![in alloc; false; needs.len()]?;
        let serving = vec![in alloc; false; needs.len()]?;
        Ok(Starts {
            needs,
            finalizers,
            wanted,
            endings,
            called,
            serving,
            is_spread: false,
            some_failed: false,
        })
    }

    /// Whether the task finalizes one that was started, or is reached by needs from such a one.
    /// Allocates no memory.
    fn serves(&mut self, task: usize) -> bool
        requires known { task < length self.old.needs }
        ensures same { self.new ≡ self.old }
        ensures serves { IsTrue result ↔ Serves self.old task }
    {
        if !self.is_spread {
            copy_marks(self.called.as_slice(), &mut self.serving);
            spread(self.needs.as_slice(), &mut self.serving);
            self.is_spread = true;
        }
        self.serving[task]
    }

    /// Whether a need of the task failed or was not run.
    fn lacks_need(&self, task: usize) -> bool
        requires known { task < length self.now.needs }
        ensures { result ≡ lacks_need self.now task }
    {
        some_ended_badly(self.needs[task].as_slice(), self.endings.as_slice())
    }

    /// Whether a task that it needs was executed. Allocates no memory.
    pub fn has_executed_need(&self, task: usize) -> bool
        requires known { task < length self.now.needs }
        ensures { result ≡ has_executed_need self.now task }
    {
        some_executed(self.needs[task].as_slice(), self.endings.as_slice())
    }

    /// Whether the task is wanted, or finalizes one that was started.
    fn is_called(&self, task: usize) -> bool
        requires known { task < length self.now.needs }
        ensures { IsTrue result ↔ (IsTrue (mark_at self.now.wanted task) ⊎ FinalizesStarted self.now task) }
    {
        self.wanted[task] || self.called[task]
    }

    /// Whether a task has failed, and the build is not to continue.
    fn is_stopping(&self, keep_going: bool) -> bool
        ensures { result ≡ is_stopping keep_going self.now }
    {
        self.some_failed && !keep_going
    }

    /// Whether the task starts, when it is next in the order. Allocates no memory.
    pub fn does_start(&mut self, task: usize, keep_going: bool) -> bool
        requires known { task < length self.old.needs }
        ensures same { self.new ≡ self.old }
        ensures starts { IsTrue result ↔ DoesStart keep_going self.old task }
    {
        if self.lacks_need(task) || !self.is_called(task) {
            return false;
        }
        if !self.is_stopping(keep_going) {
            return true;
        }
        self.serves(task)
    }

    /// Records the outcome of the task's execution. Allocates no memory.
    pub fn end(&mut self, task: usize, outcome: &Outcome)
        requires known { task < length self.old.needs }
        requires to_come { ending_in self.old.endings task ≡ ToCome }
        ensures { self.new ≡ record self.old {
          endings = slice_set self.old.endings task
              (ending_of outcome.now);
        } }
    {
        let ending = Ending::of(outcome);
        self.endings[task] = ending;
        self.some_failed |= ending.has_failed();
        if ending.has_started() {
            self.is_spread &= self.finalizers[task].is_empty();
            mark_all(self.finalizers[task].as_slice(), &mut self.called);
        }
    }
}
