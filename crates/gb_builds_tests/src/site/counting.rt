//! A custom listener: it counts the tasks that were executed, and keeps all its notifications.
ghost use Rattle.std.specs.Prelude.{◌≡◌, ◌∷◌, [], OnErr, OnOk};
ghost use Rattle.gb_exec.specs.Notifying.{Refuses};
ghost use Rattle.gb_semantics.specs.Headline.{HearsAll};
ghost use Rattle.gb_report.specs.declared.report.Heard.TheVariants.{Start, End};

use gb_core::path::TaskPath;
use gb_exec::listener::{Recorder, TaskListener};
use gb_report::report::{Heard, Outcome};
use std::alloc::{AllocError, Global};

/// It keeps its notifications in a recorder, which is its ear.
#[derive(Drop)]
pub struct Counting {
    recorder: Recorder,
    pub executed: u64,
}

impl Counting {
    /// A listener without notifications.
    pub fn new(alloc: Global) -> Counting {
        Counting {
            recorder: Recorder::new(alloc),
            executed: 0,
        }
    }
}

impl TaskListener for Counting {
    ghost ear = { λ listener. listener.recorder };

    fn before_execute(&mut self, alloc: Global, task: &TaskPath) -> Result<(), AllocError> {
        self.recorder.before_execute(alloc, task)
    }

    fn after_execute(
        &mut self,
        alloc: Global,
        task: &TaskPath,
        outcome: &Outcome,
    ) -> Result<(), AllocError> {
        if let Outcome::Executed = outcome {
            self.executed = self.executed.saturating_add(1);
        }
        self.recorder.after_execute(alloc, task, outcome)
    }

    fn heard(&self) -> &[Heard] {
        self.recorder.heard()
    }
}
