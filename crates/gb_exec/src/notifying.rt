//! The notification of all listeners.
ghost use Rattle.std.specs.Prelude.{◌≡◌, ◌∷◌, [], map, true, false};
ghost use Rattle.gb_semantics.specs.Headline.{HearsAll};
ghost use Rattle.gb_exec.specs.Notifying.{AllReported, Refuses, reported_of};

use crate::listener::TaskListener;
use gb_core::path::TaskPath;
use gb_report::report::Outcome;
use std::alloc::Global;

/// Notifies one listener that a task's execution begins, or with which outcome it ended. Returns
/// whether the listener has accepted it.
fn notify_one<L: TaskListener>(
    alloc: Global,
    listener: &mut L,
    task: &TaskPath,
    ended: Option<&Outcome>,
) -> bool
    ensures heard { result ≡ true → HearsAll (reported_of task.now ended.entry ∷ []) (L.ear listener.old)
        (L.ear listener.new) }
    ensures refused { result ≡ false → Refuses (L.ear listener.old) (L.ear listener.new) }
{
    match ended {
        None => listener.before_execute(alloc, task).is_ok(),
        Some(outcome) => listener.after_execute(alloc, task, outcome).is_ok(),
    }
}

/// Notifies all listeners that a task's execution begins, or with which outcome it ended. Returns
/// whether each has accepted it. A listener that refuses does not keep the others from being
/// notified.
pub fn notify<L: TaskListener>(
    alloc: Global,
    listeners: &mut Vec<L>,
    task: &TaskPath,
    ended: Option<&Outcome>,
) -> bool
    ensures { AllReported (reported_of task.now ended.entry ∷ []) result (map L.ear listeners.old.items)
        (map L.ear listeners.new.items) }
{
    let mut all_heard = true;
    for at in 0..listeners.len() {
        all_heard &= notify_one(alloc, &mut listeners[at], task, ended);
    }
    all_heard
}
