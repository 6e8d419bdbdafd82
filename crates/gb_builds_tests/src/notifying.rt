//! Several kinds of listeners next to each other.
ghost use Rattle.std.specs.Prelude.{◌≡◌, [], IsErr};
ghost use Rattle.gb_semantics.specs.Headline.{counted};

use crate::building::is_reported;
use crate::listening::heard_by_each;
use gb_core::path::TaskPath;
use gb_exec::listener::{Recorder, TaskListener};
use gb_exec::notifying::notify;
use gb_report::report::{Heard, Outcome};
use std::alloc::{AllocError, Global};
use std::test::Fail;

/// A listener that refuses every call.
#[derive(Drop)]
struct Deaf {
    refusals: u64,
}

impl Deaf {
    fn refuse(&mut self) -> Result<(), AllocError>
        ensures refused { IsErr result }
        ensures counted { self.new.refusals ≡ counted self.old.refusals 1 }
    {
        self.refusals = self.refusals.saturating_add(1);
        Err(AllocError)
    }
}

impl TaskListener for Deaf {
    ghost ear = { λ d. ([], d.refusals) };

    fn before_execute(&mut self, _alloc: Global, _task: &TaskPath) -> Result<(), AllocError> {
        self.refuse()
    }

    fn after_execute(
        &mut self,
        _alloc: Global,
        _task: &TaskPath,
        _outcome: &Outcome,
    ) -> Result<(), AllocError> {
        self.refuse()
    }

    fn heard(&self) -> &[Heard] {
        &[]
    }
}

/// Notifies listeners that a task starts and ends, and fails if all of them accept one of the
/// notifications.
fn reported<L: TaskListener>(
    alloc: Global,
    listeners: &mut Vec<L>,
    task: &TaskPath,
) -> Result<(), Fail> {
    let is_start_heard = notify(alloc, listeners, task, None);
    let is_end_heard = notify(alloc, listeners, task, Some(&Outcome::Executed));
    if is_start_heard || is_end_heard {
        Err(Fail::new("heard by all"))
    } else {
        Ok(())
    }
}

/// Notifies three listeners of a task, and fails unless exactly the first and the last keep the
/// notifications.
fn hear<L: TaskListener>(alloc: Global, listeners: &mut Vec<L>) -> Result<(), Fail> {
    reported(alloc, listeners, &TaskPath::read(alloc, ":gen")?)?;
    is_reported(
        "start :gen\nexecuted :gen\n||start :gen\nexecuted :gen\n|",
        heard_by_each(alloc, listeners.as_slice())?.as_str(),
    )
}

#[test]
fn one_that_refuses_keeps_none_from_hearing(rt: HostRuntime) -> Result<(), Fail> {
    let alloc = rt.alloc();
    let mut listeners = Vec::<Box<dyn TaskListener>>::new(alloc);
    listeners.push(Box::new(alloc, Recorder::new(alloc))?)?;
    listeners.push(Box::new(alloc, Deaf { refusals: 0 })?)?;
    listeners.push(Box::new(alloc, Recorder::new(alloc))?)?;
    hear(alloc, &mut listeners)
}
