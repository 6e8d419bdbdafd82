//! The trait of a listener, and a listener that keeps the notifications that it gets.
ghost use Rattle.std.specs.Prelude.{◌≡◌, ◌++◌, [], ◌∷◌, OnOk, OnErr};
ghost use Rattle.gb_semantics.specs.Headline.{HearsAll};
ghost use Rattle.gb_report.specs.declared.report.Heard.TheVariants.{Start, End};
ghost use Rattle.gb_exec.specs.Notifying.{Refuses};

use gb_core::path::TaskPath;
use gb_report::report::{Heard, Outcome};
use std::alloc::{AllocError, Global};
use std::marker::Model;

/// A listener is notified of each task that starts. A call that it refuses, for want of memory or
/// of its own accord, leaves the earlier notifications as they are, and is counted.
pub trait TaskListener: Drop {
    ghost use Rattle.gb_semantics.specs.Headline.{Ear};

    /// The notifications that it got, and how many calls it has refused: one more for each, up to
    /// 2^64 - 1.
    ghost ear: { Self → Ear };

    /// The task's execution begins.
    fn before_execute(&mut self, alloc: Global, task: &TaskPath) -> Result<(), AllocError>
        ensures ok { OnOk result (HearsAll (Start task.now ∷ []) (ear self.old) (ear self.new)) }
        ensures err { OnErr result (Refuses (ear self.old) (ear self.new)) };

    /// The task's execution has ended.
    fn after_execute(
        &mut self,
        alloc: Global,
        task: &TaskPath,
        outcome: &Outcome,
    ) -> Result<(), AllocError>
        ensures ok { OnOk result (HearsAll (End task.now outcome.now ∷ []) (ear self.old) (ear self.new)) }
        ensures err { OnErr result (Refuses (ear self.old) (ear self.new)) };

    /// The notifications that it got.
    fn heard(&self) -> &[Heard]
        ensures { result.now ≡ (ear self.now).0 };
}

/// A listener that keeps the notifications that it gets.
#[derive(Drop)]
pub struct Recorder {
    heard: Vec<Heard>,
    /// Counted up to its last value.
    refusals: u64,
}

impl Model for Recorder {
    ghost use Rattle.std.specs.Prelude.{List, ℕ};
    ghost use Rattle.gb_report.specs.declared.report.Heard.{Heard};

    ghost Value = { List Heard × ℕ };

    ghost view = { λ r. (r.heard.items, r.refusals) };
}

impl Recorder {
    /// It has got no notification yet.
    pub fn new(alloc: Global) -> Recorder
        ensures { result ≡ ([], 0) }
    {
        Recorder {
            heard: Vec::new(alloc),
            refusals: 0,
        }
    }

    fn keep(&mut self, heard: Heard) -> Result<(), AllocError>
        ensures ok { OnOk result (self.new ≡ (self.old.0 ++ heard ∷ [], self.old.1)) }
        ensures err { OnErr result (self.new ≡ self.old) }
    {
        self.heard.push(heard)?;
        Ok(())
    }

    fn keep_start(&mut self, task: &TaskPath) -> Result<(), AllocError>
        ensures ok { OnOk result (self.new ≡ (self.old.0 ++ Start task.now ∷ [], self.old.1)) }
        ensures err { OnErr result (self.new ≡ self.old) }
    {
        let path = task.copy()?;
        self.keep(Heard::Start(path))
    }

    fn keep_end(
        &mut self,
        alloc: Global,
        task: &TaskPath,
        outcome: &Outcome,
    ) -> Result<(), AllocError>
        ensures ok { OnOk result (self.new ≡ (self.old.0 ++ End task.now outcome.now ∷ [], self.old.1)) }
        ensures err { OnErr result (self.new ≡ self.old) }
    {
        let path = task.copy()?;
        let outcome = outcome.copy(alloc)?;
        self.keep(Heard::End(path, outcome))
    }

    fn count(&mut self, kept: &Result<(), AllocError>)
        ensures ok { OnOk kept.now (self.new ≡ self.old) }
        ensures err { OnErr kept.now (Refuses self.old self.new) }
    {
        if kept.is_err() {
            self.refusals = self.refusals.saturating_add(1);
        }
    }
}

impl TaskListener for Recorder {
    ghost ear = { λ r. r };

    fn before_execute(&mut self, _alloc: Global, task: &TaskPath) -> Result<(), AllocError> {
        let kept = self.keep_start(task);
        self.count(&kept);
        kept
    }

    fn after_execute(
        &mut self,
        alloc: Global,
        task: &TaskPath,
        outcome: &Outcome,
    ) -> Result<(), AllocError> {
        let kept = self.keep_end(alloc, task, outcome);
        self.count(&kept);
        kept
    }

    fn heard(&self) -> &[Heard] {
        self.heard.as_slice()
    }
}

impl TaskListener for Box<dyn TaskListener> {
    ghost ear = { λ b. (TaskListener-box b).ear b.value };

    fn before_execute(&mut self, alloc: Global, task: &TaskPath) -> Result<(), AllocError> {
        (**self).before_execute(alloc, task)
    }

    fn after_execute(
        &mut self,
        alloc: Global,
        task: &TaskPath,
        outcome: &Outcome,
    ) -> Result<(), AllocError> {
        (**self).after_execute(alloc, task, outcome)
    }

    fn heard(&self) -> &[Heard] {
        (**self).heard()
    }
}
