//! Builds of a plan of one task without actions.
ghost use Rattle.std.specs.Prelude.{◌≡◌, [], IfOk, length};
ghost use Rattle.gb_exec.specs.Building.{CanBuild};
ghost use Rattle.gb_plan.specs.Task.{bare};

use gb_action::actions::Actions;
use gb_action::list::ActionList;
use gb_action::table::ActionTable;
use gb_action::values::NamedValues;
use gb_core::path::TaskPath;
use gb_core::task_paths::TaskPaths;
use gb_exec::building::execute;
use gb_exec::listener::{Recorder, TaskListener};
use gb_folder::memory::MemoryFolder;
use gb_kinds::builtin::{Builtin, StoredAction};
use gb_plan::plan::{Plan, Planned};
use gb_plan::task::{FileProperties, Outputs, TaskDeclaration};
use gb_printer::printer::Silent;
use gb_report::report::{Options, Outcome};
use std::alloc::Global;
use std::test::Fail;

const OPTIONS: Options = Options {
    keep_going: false,
    rerun: false,
    dry_run: false,
};

/// A task without dependencies and without actions.
fn task(alloc: Global, runs: bool) -> Result<TaskDeclaration, Fail>
    ensures { IfOk result (λ task. task ≡ bare task.path runs) }
{
    Ok(TaskDeclaration {
        path: TaskPath::read(alloc, ":gen")?,
        runs,
        is_stale: false,
        values: NamedValues::new(alloc),
        files: FileProperties::from_vec(Vec::new(alloc)),
        outputs: Outputs::from_vec(Vec::new(alloc)),
        actions: ActionList::new(alloc),
        needs: TaskPaths::new(alloc),
        must_run_after: TaskPaths::new(alloc),
        finalizers: TaskPaths::new(alloc),
    })
}

/// A plan of this task alone, selected by a name.
fn plan<A: Actions>(alloc: Global, runs: bool) -> Result<Plan, Fail>
    ensures can { IfOk result (CanBuild A.meanings []) }
    ensures one { IfOk result (λ plan. length plan ≡ 1) }
{
    let task = task(alloc, runs)?;
    let planned = Planned {
        task,
        word: 0,
        is_selected: true,
    };
    let mut tasks = Vec::new(alloc);
    tasks.push(planned)?;
    Ok(Plan::from_vec(tasks))
}

/// The reported outcome of the one task's build, and how often a listener is notified of it.
fn built(alloc: Global, runs: bool, options: Options) -> Result<(&'static str, usize), Fail> {
    let plan = plan::<Builtin>(alloc, runs)?;
    let table: ActionTable<StoredAction> = ActionTable::new(alloc);
    let records = vec![in alloc; None]?;
    let mut folder = MemoryFolder::new(alloc);
    let mut listeners = vec![in alloc; Recorder::new(alloc)]?;
    let report = execute::<Builtin, MemoryFolder, Recorder, Silent>(
        alloc,
        &mut folder,
        &plan,
        &table,
        records.as_slice(),
        &mut listeners,
        &mut Silent,
        options,
    )?;
    let reported = match report.tasks.as_slice() {
        [task] => reported(&task.outcome),
        _ => "another count",
    };
    Ok((reported, listeners[0].heard().len()))
}

fn reported(outcome: &Outcome) -> &'static str {
    match outcome {
        Outcome::UpToDate => "up to date",
        Outcome::Skipped => "skipped",
        _ => "another",
    }
}

#[test]
fn a_task_is_reported_to_who_listens(rt: HostRuntime) -> Result<(), Fail> {
    let alloc = rt.alloc();
    assert_eq!(rt; built(alloc, true, OPTIONS)?, ("up to date", 2));
    assert_eq!(rt; built(alloc, false, OPTIONS)?, ("skipped", 2));
    Ok(())
}

#[test]
fn a_dry_run_starts_nothing(rt: HostRuntime) -> Result<(), Fail> {
    let alloc = rt.alloc();
    let dry = Options {
        dry_run: true,
        ..OPTIONS
    };
    assert_eq!(rt; built(alloc, true, dry)?, ("skipped", 0));
    Ok(())
}
