//! The steps and lines of an incremental execution, computed before anything is changed. Nothing
//! here depends on a folder.
ghost use Rattle.std.specs.Prelude.{◌≡◌, ◌≢◌, ◌⊎◌, ◌++◌, ℕ, List, [], Ok, Err, IsTrue, IfOk, IfErr};
ghost use Rattle.std.specs.Prelude.{OnOk, map, true, false};
ghost use Rattle.std.specs.FinMap.Entries.{is_sorted};
ghost use Rattle.std.specs.List.{AllByRecursion};
ghost use Rattle.gb_core.specs.Lists.{byte_order};
ghost use Rattle.gb_action.specs.Files.{Trees};
ghost use Rattle.gb_action.specs.Replies.{Answers};
ghost use Rattle.gb_folder.specs.Files.{Files, are_placed};
ghost use Rattle.gb_tree.specs.Prints.{digests_of};
ghost use Rattle.gb_plan.specs.Ready.{IsReady, IsReadyAction};
ghost use Rattle.gb_plan.specs.Task.{is_output_of, given_files, given_outputs};
ghost use Rattle.gb_semantics.specs.Headline.{Agrees};
ghost use Rattle.gb_semantics.specs.Kinds.{Kinds, kind_of};
ghost use Rattle.gb_semantics.specs.Made.{made_of};
ghost use Rattle.gb_semantics.specs.Memory.{output_files};
ghost use Rattle.gb_run.specs.Asking.{IsFullLike, made_by, printed_by};
ghost use Rattle.gb_run.specs.AskingChanges.{AnswersChanges, CanGoOn, GoesOn, IsFitting, request_of};
ghost use Rattle.gb_run.specs.Digests.{prints_at};
ghost use Rattle.gb_run.specs.Execution.{IsItsExecution, Makes};
ghost use Rattle.gb_run.specs.WorkByChanges.{FailsWith, IsPart, IsWorkByChanges, increment_of};
ghost use Rattle.gb_run.specs.Worked.{AreStepsAt, part_held, work_held};

use crate::calling::full_request;
use crate::calling_changes::{ask, is_writer};
use crate::digests::Digests;
use crate::existing::digests_existed;
use crate::planning::planned;
use crate::work::{Part, Work, stopped};
use gb_action::actions::Actions;
use gb_action::change::ChangeLists;
use gb_action::output_files::OutputSnapshots;
use gb_action::reply::Reply;
use gb_action::request::Request;
use gb_action::snapshot::Snapshots;
use gb_action::table::ActionTable;
use gb_plan::task::{Action, TaskDeclaration};
use gb_report::fault::Fault;
use gb_tree::prints::Prints;
use std::alloc::{AllocError, Global};
use std::mem;

/// The state while a run is computed: the request, in which outputs have no files; the outputs as
/// they were read, for the one action that gets an incremental request; and the digests of what
/// they will hold.
#[derive(Drop)]
struct Working {
    request: Request,
    observed: OutputSnapshots,
    digests: Digests,
}

/// The part of an action that writes no file: it gets a full request.
fn part_of_reader<A: Actions>(
    alloc: Global,
    task: &TaskDeclaration,
    table: &ActionTable<A::Stored>,
    action: &Action,
    request: &mut Request,
) -> Result<Part, Fault>
    requires ready { IsReadyAction A.meanings table.now task.now action.now }
    requires named { map (λ tree. tree.0) request.old.files ≡ given_files task.now.files }
    requires full { IsFullLike task.now request.old request.old }
    ensures full { OnOk result (IsFullLike task.now request.old request.new) }
    ensures steps { IfOk result (λ part. part.steps.items ≡ []) }
    ensures made { OnOk result ((kinds : Kinds) → Agrees A.meanings table.now kinds
        → IsFitting kinds task.now action.now → kinds.writes (kind_of action.now) ≡ false
        → made_by kinds task.now action.now request.old.files ≡ Ok []) }
    ensures printed { IfOk result (λ part. (kinds : Kinds) → Agrees A.meanings table.now kinds → part.lines
        ≡ printed_by kinds task.now action.now request.old.files request.old.changes.lists) }
    ensures err { IfErr result (λ fault. (fault ≡ Fault.OutOfMemory)
        ⊎ ((text : List ℕ) × (fault ≡ Fault.ActionFailed text)
        × ((kinds : Kinds) → Agrees A.meanings table.now kinds
        → made_by kinds task.now action.now request.old.files ≡ Err text))) }
{
    let reply = ask::<A>(alloc, task, table, action, request)?;
    Ok(Part {
        steps: Vec::new(alloc),
        lines: reply.lines,
    })
}

/// Calls the action that writes with an incremental request, over the outputs as they were read.
fn ask_by_changes<A: Actions>(
    alloc: Global,
    task: &TaskDeclaration,
    table: &ActionTable<A::Stored>,
    action: &Action,
    working: &mut Working,
) -> Result<Reply, Fault>
    requires ready { IsReadyAction A.meanings table.now task.now action.now }
    requires named { map (λ tree. tree.0) working.old.request.files ≡ given_files task.now.files }
    requires full { IsFullLike task.now working.old.request working.old.request }
    requires formed { map (λ output. (output.name, output.form)) working.old.observed
        ≡ given_outputs task.now.outputs }
    requires able { AnswersChanges A.meanings table.now action.now }
    ensures request { OnOk result (working.new.request ≡ request_of task.now working.old.request.files
        working.old.request.changes.lists working.old.observed action.now.args) }
    ensures observed { OnOk result (working.new.observed ≡ working.old.request.outputs) }
    ensures digests { working.new.digests ≡ working.old.digests }
    ensures answered { IfOk result (λ reply. (kinds : Kinds) → Agrees A.meanings table.now kinds
        → Answers (kinds.makes (kind_of action.now)) (kinds.prints (kind_of action.now))
        (request_of task.now working.old.request.files working.old.request.changes.lists working.old.observed
        action.now.args) (Ok reply)) }
    ensures err { IfErr result (λ fault. (fault ≡ Fault.OutOfMemory)
        ⊎ ((text : List ℕ) × (fault ≡ Fault.ActionFailed text)
        × ((kinds : Kinds) → Agrees A.meanings table.now kinds
        → made_by kinds task.now action.now working.old.request.files ≡ Err text))) }
{
    mem::swap(&mut working.request.outputs, &mut working.observed);
    working.request.changes.incremental = true;
    ask::<A>(alloc, task, table, action, &mut working.request)
}

/// Makes the request a full one again.
fn go_back(working: &mut Working)
    ensures request { working.new.request ≡ record working.old.request {
      outputs = working.old.observed;
      changes = record { incremental = false; lists = working.old.request.changes.lists };
    } }
    ensures observed { working.new.observed ≡ working.old.request.outputs }
    ensures digests { working.new.digests ≡ working.old.digests }
{
    mem::swap(&mut working.request.outputs, &mut working.observed);
    working.request.changes.incremental = false;
}

/// The part of the action that writes: it gets an incremental request, and all files that the task
/// then holds are checked.
fn part_of_writer<A: Actions>(
    alloc: Global,
    task: &TaskDeclaration,
    table: &ActionTable<A::Stored>,
    action: &Action,
    working: &mut Working,
) -> Result<Part, Fault>
    requires ready { IsReadyAction A.meanings table.now task.now action.now }
    requires named { map (λ tree. tree.0) working.old.request.files ≡ given_files task.now.files }
    requires full { IsFullLike task.now working.old.request working.old.request }
    requires formed { map (λ output. (output.name, output.form)) working.old.observed
        ≡ given_outputs task.now.outputs }
    requires able { AnswersChanges A.meanings table.now action.now }
    ensures full { OnOk result (IsFullLike task.now working.old.request working.new.request) }
    ensures observed { OnOk result (working.new.observed ≡ working.old.observed) }
    ensures ok { IfOk result (λ part. (kinds : Kinds) → Agrees A.meanings table.now kinds
        → kinds.writes (kind_of action.now) ≡ true → IsPart (increment_of kinds task.now
        working.old.request.files working.old.request.changes.lists working.old.observed) action.now
        (part_held part)) }
    ensures makes { OnOk result ((kinds : Kinds) → Agrees A.meanings table.now kinds
        → (existing : Files) → IsTrue (is_sorted byte_order existing) → IsTrue (are_placed existing)
        → IsItsExecution kinds task.now action.now working.old.request.files working.old.request.changes.lists
        working.old.observed existing → working.old.digests ≡ digests_of (output_files task.now existing)
        → Makes kinds task.now action.now working.old.request.files working.new.digests) }
    ensures places { IfOk result (AreStepsAt (is_output_of task.now)) }
    ensures err { IfErr result (λ fault. (fault ≡ Fault.OutOfMemory)
        ⊎ ((kinds : Kinds) → Agrees A.meanings table.now kinds → kinds.writes (kind_of action.now) ≡ true
        → FailsWith (increment_of kinds task.now working.old.request.files
        working.old.request.changes.lists working.old.observed) action.now fault)) }
    ensures blames { IfErr result (λ fault. (place : List ℕ) → fault ≢ Fault.Device place) }
{
    let reply = ask_by_changes::<A>(alloc, task, table, action, working)?;
    let lines = reply.lines;
    let steps = planned(
        alloc,
        task.outputs.as_slice(),
        working.request.outputs.as_slice(),
        reply.removes.as_slice(),
        reply.writes.as_slice(),
    )?;
    working.digests.follow(steps.as_slice())?;
    go_back(working);
    Ok(Part { steps, lines })
}

/// The part of one action: the one that writes gets an incremental request, any other a full one.
fn part_of<A: Actions>(
    alloc: Global,
    task: &TaskDeclaration,
    table: &ActionTable<A::Stored>,
    action: &Action,
    working: &mut Working,
) -> Result<Part, Fault>
    requires ready { IsReadyAction A.meanings table.now task.now action.now }
    requires named { map (λ tree. tree.0) working.old.request.files ≡ given_files task.now.files }
    requires full { IsFullLike task.now working.old.request working.old.request }
    requires formed { map (λ output. (output.name, output.form)) working.old.observed
        ≡ given_outputs task.now.outputs }
    requires able { CanGoOn A.meanings table.now action.now }
    ensures full { OnOk result (IsFullLike task.now working.old.request working.new.request) }
    ensures observed { OnOk result (working.new.observed ≡ working.old.observed) }
    ensures ok { IfOk result (λ part. (kinds : Kinds) → Agrees A.meanings table.now kinds
        → IsPart (increment_of kinds task.now working.old.request.files working.old.request.changes.lists
        working.old.observed) action.now (part_held part)) }
    ensures kept { OnOk result ((kinds : Kinds) → Agrees A.meanings table.now kinds
        → IsFitting kinds task.now action.now → kinds.writes (kind_of action.now) ≡ false
        → (made_by kinds task.now action.now working.old.request.files ≡ Ok [])
        × (working.new.digests ≡ working.old.digests)) }
    ensures makes { OnOk result ((kinds : Kinds) → Agrees A.meanings table.now kinds
        → (existing : Files) → IsTrue (is_sorted byte_order existing) → IsTrue (are_placed existing)
        → IsItsExecution kinds task.now action.now working.old.request.files working.old.request.changes.lists
        working.old.observed existing → working.old.digests ≡ digests_of (output_files task.now existing)
        → Makes kinds task.now action.now working.old.request.files working.new.digests) }
    ensures places { IfOk result (AreStepsAt (is_output_of task.now)) }
    ensures err { IfErr result (λ fault. (fault ≡ Fault.OutOfMemory)
        ⊎ ((kinds : Kinds) → Agrees A.meanings table.now kinds
        → FailsWith (increment_of kinds task.now working.old.request.files
        working.old.request.changes.lists working.old.observed) action.now fault)) }
    ensures blames { IfErr result (λ fault. (place : List ℕ) → fault ≢ Fault.Device place) }
{
    if is_writer::<A>(table, action) {
        part_of_writer::<A>(alloc, task, table, action, working)
    } else {
        part_of_reader::<A>(alloc, task, table, action, &mut working.request)
    }
}

/// Computes an incremental execution, over outputs that were read with these files and digests. The
/// only error is lack of memory.
pub fn work_by_changes<A: Actions>(
    alloc: Global,
    task: &TaskDeclaration,
    table: &ActionTable<A::Stored>,
    files: Snapshots,
    outputs: OutputSnapshots,
    existed: Vec<Prints>,
    changes: ChangeLists,
) -> Result<Work, AllocError>
    requires ready { IsReady A.meanings table.now task.now }
    requires able { AllByRecursion (CanGoOn A.meanings table.now) task.now.actions }
    requires named { map (λ tree. tree.0) files ≡ given_files task.now.files }
    requires formed { map (λ output. (output.name, output.form)) outputs ≡ given_outputs task.now.outputs }
    requires prints { existed.items ≡ map (λ output. (output.name, digests_of output.files)) outputs }
    ensures work { IfOk result (λ work. (kinds : Kinds) → Agrees A.meanings table.now kinds
        → IsWorkByChanges (increment_of kinds task.now files changes outputs) (work_held work)) }
    ensures named { IfOk result (λ work. IfOk work.made (λ made.
        map (λ prints. prints.0) made.items ≡ map (λ output. output.name) task.now.outputs)) }
    ensures made { IfOk result (λ work. IfOk work.made (λ made. (kinds : Kinds)
        → Agrees A.meanings table.now kinds → (old : Trees) (existing : Files)
        → IsTrue (is_sorted byte_order existing) → IsTrue (are_placed existing)
        → GoesOn kinds task.now old files changes outputs existing → (held : Files)
        × (made_of kinds task.now.actions task.now.values files task.now.outputs ≡ Ok held)
        × (made.items ≡ prints_at task.now.outputs held))) }
    ensures places { IfOk result (λ work.
        AllByRecursion (AreStepsAt (is_output_of task.now)) work.parts.items) }
    ensures blames { IfOk result (λ work. IfErr work.made
        (λ fault. (place : List ℕ) → fault ≢ Fault.Device place)) }
{
    let digests = digests_existed(alloc, task.outputs.as_slice(), existed.as_slice())?;
    drop(existed);
    let mut working = Working {
        request: full_request(alloc, task, files, changes)?,
        observed: outputs,
        digests,
    };
    let mut parts = Vec::new(alloc);
    for action in task.actions.iter() {
        match part_of::<A>(alloc, task, table, action, &mut working) {
            Ok(part) => parts.push(part)?,
            Err(fault) => {
                drop(working);
                return stopped(parts, fault);
            }
        }
    }
    let made = working.digests.prints(alloc, task.outputs.as_slice());
    drop(working);
    Ok(Work {
        parts,
        made: Ok(made?),
    })
}
