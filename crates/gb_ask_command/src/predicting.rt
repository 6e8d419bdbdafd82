//! The prediction of a request.
ghost use Rattle.std.specs.Prelude.{◌≡◌, false, IfErr, IfOk};
ghost use Rattle.std.specs.List.{AllByRecursion};
ghost use Rattle.gb_task.specs.Buildable.{IsBuildable};
ghost use Rattle.gb_folder.specs.Calls.{OnlyReads};
ghost use Rattle.gb_build.specs.Asking.{AreBuildable};
ghost use Rattle.gb_build.specs.Refusing.{IsUnread};
ghost use Rattle.gb_plan.specs.Graph.{IsRegistry, order};
ghost use Rattle.gb_declare.specs.Registered.{registry_said};
ghost use Rattle.gb_registry.specs.Tables.{tables_of};
ghost use Rattle.gb_ask_command.specs.Reported.{AreReported, AreReportedOf, IsAnswerTo, IsNotReported};

use crate::why_output::Answer;
use gb_action::actions::Actions;
use gb_action::table::ActionTable;
use gb_build::workspace::read_registry;
use gb_core::name::Name;
use gb_core::path::TaskPath;
use gb_core::text::Text;
use gb_folder::folder::Folder;
use gb_graph::plan::plan;
use gb_graph::tasks::Tasks;
use gb_plan::plan::{Planned, paths_of};
use gb_predict::predict::predict;
use gb_project::script_tasks::ScriptTasks;
use gb_provider::transforms::Transforms;
use gb_records::stored_records::read_records;
use gb_registry::configured::Configured;
use gb_registry::tables::Tables;
use gb_report::report::Options;
use gb_semantics::events::{Invocation, Properties};
use std::alloc::{AllocError, Global};

/// Reads the scripts of a folder with the given values, and predicts the request for the tasks that
/// they register. It is refused as a build of the request is.
pub(crate) fn predict_build<A: Actions, T: Transforms, F: Folder>(
    alloc: Global,
    folder: &mut F,
    tables: &Tables<A, T>,
    invocation: &Invocation,
) -> Answer
    ensures reads { OnlyReads F.device folder.old folder.new }
    ensures answer { IsAnswerTo (tables_of T.meanings A.meanings tables.now) (F.device.faithful folder.new)
        invocation.now (record {
          contents = F.device.contents folder.old;
          failures = F.device.failures
              folder.old;
        })
        result (F.device.failures folder.new) }
{
    let copied = invocation.properties.copy(alloc)?;
    let given = copied.into_vec();
    let configured = read_registry(alloc, folder, tables, given)?;
    let answer = predict_registered(alloc, folder, &configured, invocation);
    drop(configured);
    answer
}

/// Predicts the request for the tasks of these scripts.
fn predict_registered<A: Actions, T: Transforms, F: Folder>(
    alloc: Global,
    folder: &mut F,
    configured: &Configured<'_, A, T>,
    invocation: &Invocation,
) -> Answer
    ensures reads { OnlyReads F.device folder.old folder.new }
    ensures sound { let tables = tables_of T.meanings A.meanings configured.now.tables.now in
        IfOk result (λ _. IsRegistry (registry_said tables configured.now.registry)) }
    ensures reported { let tables = tables_of T.meanings A.meanings configured.now.tables.now in
        IfOk result (λ reported. AreReportedOf (F.device.faithful folder.new) A.meanings
        configured.now.tables.now.actions (registry_said tables configured.now.registry)
        invocation.now.requested invocation.now.excluded invocation.now.options
        (record { contents = F.device.contents folder.old; failures = F.device.failures folder.old })
        (F.device.failures folder.new) reported.items) }
    ensures not_reported { let tables = tables_of T.meanings A.meanings configured.now.tables.now in
        IfErr result (IsNotReported (registry_said tables configured.now.registry)
        invocation.now.requested invocation.now.excluded (F.device.failures folder.old)
        (F.device.failures folder.new)) }
{
    let _scripts = configured.registry.scripts();
    let mut tasks = ScriptTasks::declare(alloc, configured)?;
    let requested = invocation.requested.as_slice();
    let excluded = invocation.excluded.as_slice();
    predict_requested::<A, F, _>(
        alloc,
        folder,
        &mut tasks,
        &configured.tables.actions,
        requested,
        excluded,
        invocation.options,
    )
}

/// Predicts the request for registered tasks.
fn predict_requested<A: Actions, F: Folder, Ts: Tasks>(
    alloc: Global,
    folder: &mut F,
    tasks: &mut Ts,
    table: &ActionTable<A::Stored>,
    requested: &[Text],
    excluded: &[Text],
    options: Options,
) -> Answer
    requires { AreBuildable A.meanings table.now (Ts.registry tasks.old) }
    ensures reads { OnlyReads F.device folder.old folder.new }
    ensures reported { IfOk result (λ reported. AreReportedOf (F.device.faithful folder.new) A.meanings
        table.now
        (Ts.registry tasks.old)
        requested.now excluded.now options
        (record { contents = F.device.contents folder.old; failures = F.device.failures folder.old })
        (F.device.failures folder.new) reported.items) }
    ensures not_reported { IfErr result (IsNotReported (Ts.registry tasks.old) requested.now excluded.now
        (F.device.failures folder.old) (F.device.failures folder.new)) }
{
    let plan = plan(alloc, tasks, requested, excluded)?;
    predict_planned::<A, F>(alloc, folder, plan.as_slice(), table, options)
}

/// Predicts the executions of a plan's tasks, based on the records that exist.
fn predict_planned<A: Actions, F: Folder>(
    alloc: Global,
    folder: &mut F,
    plan: &[Planned],
    table: &ActionTable<A::Stored>,
    options: Options,
) -> Answer
    requires { AllByRecursion (λ planned. IsBuildable A.meanings table.now planned.task) plan.now }
    ensures reads { OnlyReads F.device folder.old folder.new }
    ensures reported { IfOk result (λ reported. AreReported (F.device.faithful folder.new) A.meanings
        table.now
        options (record { contents = F.device.contents folder.old; failures = F.device.failures folder.old })
        (F.device.failures folder.new) plan.now reported.items) }
    ensures unread { IfErr result
        (IsUnread false (F.device.failures folder.old) (F.device.failures folder.new)) }
{
    let paths = paths_of(alloc, plan)?;
    let records = read_records(alloc, folder, paths.as_slice())?;
    let reported = predict::<A, F>(alloc, folder, plan, table, options, records.as_slice())?;
    Ok(reported)
}
