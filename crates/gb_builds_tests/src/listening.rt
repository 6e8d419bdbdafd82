//! A listener that refuses one of its calls, and the notifications of listeners.
ghost use Rattle.std.specs.Prelude.{◌≡◌, ◌++◌, [], ◌∷◌, OnErr, OnOk};
ghost use Rattle.gb_semantics.specs.Headline.{counted};
ghost use Rattle.gb_report.specs.declared.report.Heard.TheVariants.{Start, End};

use gb_core::path::TaskPath;
use gb_exec::listener::{Recorder, TaskListener};
use gb_report::report::{Heard, Outcome};
use std::alloc::{AllocError, Global};
use std::test::Fail;

/// A listener that keeps its notifications, except for one call.
#[derive(Drop)]
pub struct Refusing {
    recorder: Recorder,
    /// The number of the call that it refuses, counted from 1; if it is 0, it refuses none.
    at: u64,
    calls: u64,
    refusals: u64,
}

impl Refusing {
    /// A listener without notifications that refuses call `at`.
    pub fn new(alloc: Global, at: u64) -> Refusing {
        Refusing {
            recorder: Recorder::new(alloc),
            at,
            calls: 0,
            refusals: 0,
        }
    }

    /// Counts a call, and returns whether it is refused.
    fn refuses(&mut self) -> bool
        ensures recorder { self.new.recorder ≡ self.old.recorder }
        ensures refusals { self.new.refusals ≡ self.old.refusals }
    {
        self.calls = self.calls.saturating_add(1);
        self.calls == self.at
    }

    fn hear_start(&mut self, alloc: Global, task: &TaskPath) -> Result<(), AllocError>
        ensures ok { OnOk result (self.new.recorder.0 ≡ self.old.recorder.0 ++ Start task.now ∷ []) }
        ensures err { OnErr result (self.new.recorder.0 ≡ self.old.recorder.0) }
        ensures refusals { self.new.refusals ≡ self.old.refusals }
    {
        if self.refuses() {
            return Err(AllocError);
        }
        self.recorder.before_execute(alloc, task)
    }

    fn hear_end(
        &mut self,
        alloc: Global,
        task: &TaskPath,
        outcome: &Outcome,
    ) -> Result<(), AllocError>
        ensures ok { OnOk result
            (self.new.recorder.0 ≡ self.old.recorder.0 ++ End task.now outcome.now ∷ []) }
        ensures err { OnErr result (self.new.recorder.0 ≡ self.old.recorder.0) }
        ensures refusals { self.new.refusals ≡ self.old.refusals }
    {
        if self.refuses() {
            return Err(AllocError);
        }
        self.recorder.after_execute(alloc, task, outcome)
    }

    /// Counts a call that was refused, up to the last value.
    fn count(&mut self, kept: &Result<(), AllocError>)
        ensures recorder { self.new.recorder ≡ self.old.recorder }
        ensures ok { OnOk kept.now (self.new.refusals ≡ self.old.refusals) }
        ensures err { OnErr kept.now (self.new.refusals ≡ counted self.old.refusals 1) }
    {
        if kept.is_err() {
            self.refusals = self.refusals.saturating_add(1);
        }
    }
}

impl TaskListener for Refusing {
    ghost ear = { λ r. (r.recorder.0, r.refusals) };

    fn before_execute(&mut self, alloc: Global, task: &TaskPath) -> Result<(), AllocError> {
        let kept = self.hear_start(alloc, task);
        self.count(&kept);
        kept
    }

    fn after_execute(
        &mut self,
        alloc: Global,
        task: &TaskPath,
        outcome: &Outcome,
    ) -> Result<(), AllocError> {
        let kept = self.hear_end(alloc, task, outcome);
        self.count(&kept);
        kept
    }

    fn heard(&self) -> &[Heard] {
        self.recorder.heard()
    }
}

/// The notifications of each listener, with a bar after each.
pub fn heard_by_each<L: TaskListener>(alloc: Global, listeners: &[L]) -> Result<String, Fail> {
    let mut out = String::new(alloc);
    for listener in listeners {
        out.push_str(heard_text(alloc, listener.heard())?.as_str())?;
        out.push_str("|")?;
    }
    Ok(out)
}

/// The notifications, as the paths of tasks, each after its start or its outcome.
pub fn heard_text(alloc: Global, heard: &[Heard]) -> Result<String, Fail> {
    let mut out = String::new(alloc);
    for one in heard {
        push_heard(&mut out, one)?;
    }
    Ok(out)
}

fn push_heard(out: &mut String, heard: &Heard) -> Result<(), Fail> {
    match heard {
        Heard::Start(path) => push_words(out, "start", path.as_str()),
        Heard::End(path, outcome) => push_words(out, ended(outcome), path.as_str()),
    }
}

fn push_words(out: &mut String, verb: &str, path: &str) -> Result<(), Fail> {
    out.push_str(verb)?;
    out.push_str(" ")?;
    out.push_str(path)?;
    out.push_str("\n")?;
    Ok(())
}

fn ended(outcome: &Outcome) -> &'static str {
    match outcome {
        Outcome::Executed => "executed",
        Outcome::UpToDate => "up to date",
        Outcome::Failed(_) => "failed",
        _ => "another",
    }
}
