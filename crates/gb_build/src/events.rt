//! Any list of edits and builds.
ghost use Rattle.std.specs.Prelude.{◌≡◌, [], ◌∷◌, IfOk, OnErr, length, map};
ghost use Rattle.gb_semantics.specs.Every.{PromiseHolds};
ghost use Rattle.gb_semantics.specs.Headline.{AllKeepElsewhere, EventKeeps, EventsHold, HaveHeardAll};
ghost use Rattle.gb_semantics.specs.Headline.{HasFailed, answer_of, times_attributed};
ghost use Rattle.gb_semantics.specs.Headline.{times_attributed_in_all};
ghost use Rattle.gb_semantics.specs.Kinds.{Kinds};
ghost use Rattle.gb_records.specs.Assumed.{IsAssumed};
ghost use Rattle.gb_registry.specs.Tables.{tables_of};
ghost use Rattle.gb_build.specs.Registering.{registers_in, setting_of};
ghost use Rattle.gb_build.specs.Leading.{IsTransition};
ghost use Rattle.gb_build.specs.EventAsked.{EventRequests, EventsRequest};
ghost use Rattle.gb_build.specs.Answers.{edit_answer};

use crate::edits::{lose, put, remove};
use crate::invoking::invoke;
use gb_action::actions::Actions;
use gb_exec::listener::TaskListener;
use gb_folder::folder::Folder;
use gb_printer::printer::Silent;
use gb_provider::transforms::Transforms;
use gb_registry::tables::Tables;
use gb_report::fault::Fault;
use gb_report::report::Report;
use gb_semantics::events::{Answer, Event};
use std::alloc::{AllocError, Global};

/// Executes the events in their order, and returns an answer to each. Nothing is printed. It fails
/// only where there is no memory for the answers, and then before the first event, with nothing
/// changed and no listener notified.
pub fn run_events<A: Actions, T: Transforms, F: Folder, L: TaskListener>(
    alloc: Global,
    folder: &mut F,
    tables: &Tables<A, T>,
    events: &[Event],
    listeners: &mut Vec<L>,
) -> Result<Vec<Answer>, AllocError>
    ensures unbegun { OnErr result (folder.new ≡ folder.old) }
    ensures unnotified { OnErr result (listeners.new ≡ listeners.old) }
    // Over any folder: an edit makes at most one call, at its own place, and a loss removes files
    // in `.gb` alone. A build requests a write or a removal only at or under an output of a task of
    // its plan or at the record of one, and the text of such a record is that of a run of the task.
    // A refused build and a dry run request none. By `events_are_calls` these are a list of calls.
    ensures requests { IfOk result (λ answers. EventsRequest F.device
        (tables_of T.meanings A.meanings tables.now) events.now answers.items folder.old folder.new) }
    // One answer for each event.
    ensures each { IfOk result (λ answers. length answers.items ≡ length events.now) }
    // Faults are attributed to the device no more often than it failed, while the folder's count of
    // failures is below 2^64 - 1.
    ensures device { IfOk result (λ answers.
        HasFailed (times_attributed_in_all answers.items) (F.device.failures folder.old)
        (F.device.failures folder.new)) }
    // Each listener was notified of the builds, one after another.
    ensures heard { IfOk result (λ answers.
        HaveHeardAll answers.items (map L.ear listeners.old.items) (map L.ear listeners.new.items)) }
    // Where contents are known after the events (`faithful`: each call was answered by them):
    // whatever fails, a build changes nothing but `.gb` and the build folders of its projects.
    ensures elsewhere { F.device.faithful folder.new → IfOk result (λ answers.
        AllKeepElsewhere (registers_in (tables_of T.meanings A.meanings tables.now)) events.now answers.items
        (F.device.contents folder.old) (F.device.contents folder.new)) }
    // Where contents are known after the events, kinds agree and a stopped write leaves no false
    // record (`IsAssumed`), this is an execution of the list of events by its definition.
    ensures holds { F.device.faithful folder.new → IfOk result (λ answers. (kinds : Kinds)
        → IsAssumed A.meanings tables.now.actions kinds (F.device.may_leave folder.old)
        → EventsHold
        (setting_of (tables_of T.meanings A.meanings tables.now) kinds (F.device.may_leave folder.old))
        (record { contents = F.device.contents folder.old; failures = F.device.failures folder.old })
        events.now answers.items
        (record { contents = F.device.contents folder.new; failures = F.device.failures folder.new })) }
    // Where contents are known after the events, under the same premises: if no two contents share
    // a digest, each event is a step of the definition, and each build in which no task failed
    // leaves what a build from scratch makes, whichever true records the first event starts from.
    ensures promise { F.device.faithful folder.new → IfOk result (λ answers. (kinds : Kinds)
        → IsAssumed A.meanings tables.now.actions kinds (F.device.may_leave folder.old)
        → PromiseHolds
        (setting_of (tables_of T.meanings A.meanings tables.now) kinds (F.device.may_leave folder.old))
        (record { contents = F.device.contents folder.old; failures = F.device.failures folder.old })
        events.now answers.items
        (record { contents = F.device.contents folder.new; failures = F.device.failures folder.new })) }
{
    let mut answers = Vec::with_capacity(alloc, events.len())?;
    for event in events.iter() {
        answers.push(take(alloc, folder, tables, event, listeners))?;
    }
    Ok(answers)
}

/// Executes one event.
fn take<A: Actions, T: Transforms, F: Folder, L: TaskListener>(
    alloc: Global,
    folder: &mut F,
    tables: &Tables<A, T>,
    event: &Event,
    listeners: &mut Vec<L>,
) -> Answer
    ensures requests { EventRequests F.device
        (tables_of T.meanings A.meanings tables.now) event.now result folder.old folder.new }
    ensures device { HasFailed (times_attributed result) (F.device.failures folder.old)
        (F.device.failures folder.new) }
    ensures heard { HaveHeardAll (result ∷ []) (map L.ear listeners.old.items)
        (map L.ear listeners.new.items) }
    ensures keeps { F.device.faithful folder.new
        → EventKeeps (registers_in (tables_of T.meanings A.meanings tables.now)) event.now result
        (F.device.contents folder.old) (F.device.contents folder.new) }
    ensures leads { F.device.faithful folder.new → (kinds : Kinds)
        → IsAssumed A.meanings tables.now.actions kinds (F.device.may_leave folder.old)
        → IsTransition
        (setting_of (tables_of T.meanings A.meanings tables.now) kinds (F.device.may_leave folder.old))
        (record { contents = F.device.contents folder.old; failures = F.device.failures folder.old })
        event.now result
        (record { contents = F.device.contents folder.new; failures = F.device.failures folder.new }) }
{
    match event {
        Event::Put(place, bytes) => edited(put(folder, place, bytes)),
        Event::Remove(place) => edited(remove(folder, place)),
        Event::Lost => edited(lose(alloc, folder)),
        Event::Invoke(invocation) => built(invoke(
            alloc,
            folder,
            tables,
            invocation,
            listeners,
            &mut Silent,
        )),
    }
}

fn edited(outcome: Result<(), Fault>) -> Answer
    ensures { result ≡ edit_answer outcome }
{
    match outcome {
        Ok(()) => Answer::Edited,
        Err(fault) => Answer::Refused(fault),
    }
}

fn built(outcome: Result<Report, Fault>) -> Answer
    ensures { result ≡ answer_of outcome }
{
    match outcome {
        Ok(report) => Answer::Built(report),
        Err(fault) => Answer::NotBuilt(fault),
    }
}
