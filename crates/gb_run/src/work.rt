//! The steps and lines of a full execution, computed before anything is changed. Nothing here
//! depends on a folder.
ghost use Rattle.std.specs.Prelude.{◌≡◌, ◌≢◌, ◌⊎◌, ◌++◌, ℕ, List, [], Ok, Err, Some, IsTrue, IfOk, IfErr};
ghost use Rattle.std.specs.Prelude.{OnOk, map};
ghost use Rattle.std.specs.List.{AllByRecursion};
ghost use Rattle.gb_core.specs.Lists.{first_of};
ghost use Rattle.gb_folder.specs.Files.{Files, are_placed};
ghost use Rattle.gb_report.specs.declared.fault.Fault.{Fault};
ghost use Rattle.gb_plan.specs.Ready.{IsReady, IsReadyAction};
ghost use Rattle.gb_plan.specs.Task.{is_output_of, given_files};
ghost use Rattle.gb_semantics.specs.Headline.{Agrees};
ghost use Rattle.gb_semantics.specs.Kinds.{Kinds};
ghost use Rattle.gb_semantics.specs.Made.{made_of, put_result};
ghost use Rattle.gb_run.specs.Asking.{IsFullLike, made_by};
ghost use Rattle.gb_run.specs.RunInput.{run_input};
ghost use Rattle.gb_run.specs.Digests.{prints_at};
ghost use Rattle.gb_run.specs.Step.{IsKept};
ghost use Rattle.gb_run.specs.Work.{part_of, work_of};
ghost use Rattle.gb_run.specs.Worked.{AreStepsAt, part_held, work_held};

use crate::calling::{ask, full_request};
use crate::digests::Digests;
use crate::placing::take_places;
use gb_action::actions::Actions;
use gb_action::change::ChangeLists;
use gb_action::reply::Lines;
use gb_action::request::Request;
use gb_action::snapshot::Snapshots;
use gb_action::table::ActionTable;
use gb_core::bytes::Bytes;
use gb_core::place::Place;
use gb_folder::file_map::FileMap;
use gb_plan::task::{Action, TaskDeclaration};
use gb_report::fault::Fault;
use gb_tree::prints::Prints;
use std::alloc::{AllocError, Global};

/// The steps of one action, and the lines that it prints after them. A step writes these bytes at a
/// place or, if there are none (`None`), removes the file there.
#[derive(Drop)]
pub struct Part {
    pub steps: Vec<(Place, Option<Bytes>)>,
    pub lines: Lines,
}

/// The result of a run: the parts of its actions up to the first that fails, and the digests of
/// what they make, or the fault of that action.
#[derive(Drop)]
pub struct Work {
    pub parts: Vec<Part>,
    pub made: Result<Vec<Prints>, Fault>,
}

/// The state while a run is computed: the request, and the places and the digests of the files so
/// far.
#[derive(Drop)]
struct Working {
    request: Request,
    taken: FileMap,
    digests: Digests,
}

/// Computes a full execution. The only error is lack of memory.
pub fn work_in_full<A: Actions>(
    alloc: Global,
    task: &TaskDeclaration,
    table: &ActionTable<A::Stored>,
    files: Snapshots,
    changes: ChangeLists,
) -> Result<Work, AllocError>
    requires ready { IsReady A.meanings table.now task.now }
    requires named { map (λ tree. tree.0) files ≡ given_files task.now.files }
    ensures work { IfOk result (λ work. (kinds : Kinds) → Agrees A.meanings table.now kinds
        → work_held work ≡ work_of (run_input kinds task.now files changes []) [] task.now.actions) }
    ensures named { IfOk result (λ work. IfOk work.made (λ made.
        map (λ prints. prints.0) made.items ≡ map (λ output. output.name) task.now.outputs)) }
    ensures made { IfOk result (λ work. IfOk work.made (λ made. (kinds : Kinds)
        → Agrees A.meanings table.now kinds → (held : Files)
        × (made_of kinds task.now.actions task.now.values files task.now.outputs ≡ Ok held)
        × (made.items ≡ prints_at task.now.outputs held))) }
    ensures places { IfOk result (λ work.
        AllByRecursion (AreStepsAt (is_output_of task.now)) work.parts.items) }
    ensures blames { IfOk result (λ work. IfErr work.made
        (λ fault. (place : List ℕ) → fault ≢ Fault.Device place)) }
{
    let mut working = Working {
        request: full_request(alloc, task, files, changes)?,
        taken: FileMap::new(alloc),
        digests: Digests::new(alloc),
    };
    let mut parts = Vec::new(alloc);
    for action in task.actions.iter() {
        match part_of::<A>(alloc, task, table, action, &mut working) {
            Ok(part) => parts.push(part)?,
            Err(fault) => {
                drop(working);
                return stopped(parts, fault);
            }
        }
    }
    let made = working.digests.prints(alloc, task.outputs.as_slice());
    drop(working);
    Ok(Work {
        parts,
        made: Ok(made?),
    })
}

/// The work up to an action that fails, not for lack of memory.
pub fn stopped(parts: Vec<Part>, fault: Fault) -> Result<Work, AllocError>
    ensures same { IfOk result (λ work. (work.parts ≡ parts) × (work.made ≡ Err fault)) }
    ensures own { OnOk result (fault ≢ Fault.OutOfMemory) }
{
    match fault {
        Fault::OutOfMemory => Err(AllocError),
        other => Ok(Work {
            parts,
            made: Err(other),
        }),
    }
}

/// Computes the part of one action: calls it, and takes the places of its files, given those of the
/// actions before it.
fn part_of<A: Actions>(
    alloc: Global,
    task: &TaskDeclaration,
    table: &ActionTable<A::Stored>,
    action: &Action,
    working: &mut Working,
) -> Result<Part, Fault>
    requires ready { IsReadyAction A.meanings table.now task.now action.now }
    requires named { map (λ tree. tree.0) working.old.request.files ≡ given_files task.now.files }
    requires full { IsFullLike task.now working.old.request working.old.request }
    requires placed { IsTrue (are_placed working.old.taken) }
    ensures full { OnOk result (IsFullLike task.now working.old.request working.new.request) }
    ensures placed { OnOk result (IsTrue (are_placed working.new.taken)) }
    ensures ok { IfOk result (λ part. (kinds : Kinds) → Agrees A.meanings table.now kinds
        → (held : Files) → IsKept held working.old.taken working.old.digests
        → (more : Files) × (put_result task.now.outputs held
        (made_by kinds task.now action.now working.old.request.files) ≡ Ok more)
        × IsKept more working.new.taken working.new.digests
        × (part_held part ≡ part_of (run_input kinds task.now working.old.request.files
        working.old.request.changes.lists []) action.now)) }
    ensures err { IfErr result (λ fault. (fault ≡ Fault.OutOfMemory)
        ⊎ ((kinds : Kinds) → Agrees A.meanings table.now kinds → (held : Files)
        → IsKept held working.old.taken working.old.digests
        → (hindrances : List Fault) × (put_result task.now.outputs held
        (made_by kinds task.now action.now working.old.request.files) ≡ Err hindrances)
        × (first_of hindrances ≡ Some fault))) }
    ensures places { IfOk result (AreStepsAt (is_output_of task.now)) }
    ensures blames { IfErr result (λ fault. (place : List ℕ) → fault ≢ Fault.Device place) }
{
    let reply = ask::<A>(alloc, task, table, action, &mut working.request)?;
    let lines = reply.lines;
    let steps = take_places(
        alloc,
        &mut working.taken,
        task.outputs.as_slice(),
        reply.writes,
    )?;
    working.digests.follow(steps.as_slice())?;
    Ok(Part { steps, lines })
}
