//! An invocation over a folder that keeps its calls.
ghost use Rattle.std.specs.Prelude.{IfOk};
ghost use Rattle.gb_logged.specs.Logged.{log};
ghost use Rattle.gb_registry.specs.Tables.{tables_of};
ghost use Rattle.gb_semantics.specs.Kinds.{Kinds};
ghost use Rattle.gb_answers.specs.Scratch.{LeavesFromScratch};
ghost use Rattle.gb_answers.specs.Stored.{WasLogged};

use crate::laws::answered_success_is_from_scratch;
use gb_action::actions::Actions;
use gb_build::invoking::invoke;
use gb_exec::listener::TaskListener;
use gb_folder::folder::Folder;
use gb_logged::laws::logged_folders_keep_calls;
use gb_logged::logged::LoggedFolder;
use gb_printer::printer::Printer;
use gb_provider::transforms::Transforms;
use gb_registry::tables::Tables;
use gb_report::fault::Fault;
use gb_report::report::Report;
use gb_semantics::events::Invocation;
use std::alloc::Global;

/// What an invocation answered, and the folder with all calls that it made and their answers.
#[derive(Drop)]
pub struct LoggedBuild<F> {
    /// The report, or the fault for which it was refused.
    pub answer: Result<Report, Fault>,
    /// The folder after the build.
    pub folder: LoggedFolder<F>,
}

/// Calls `invoke` over this folder, and keeps its calls with their answers.
pub fn invoke_logged<A: Actions, T: Transforms, F: Folder + Drop, L: TaskListener, P: Printer>(
    alloc: Global,
    inner: F,
    tables: &Tables<A, T>,
    invocation: &Invocation,
    listeners: &mut Vec<L>,
    printer: &mut P,
) -> LoggedBuild<F>
    // Whatever the folder is: take contents that answer these calls in the same way and hold true
    // records. If kinds agree, no two contents share a digest and no task failed, the calls leave
    // in them, outside `.gb`, what a build of the unskipped tasks from scratch makes.
    ensures from_scratch { IfOk result.answer (λ report.
        LeavesFromScratch (tables_of T.meanings A.meanings tables.now) (F.device.may_leave inner)
        invocation.now
        report (log result.folder)) }
    // It is a build that the law `records_stay_true` is about, one that ended. By that law such
    // builds, one after another, with the same tables and kinds that agree, are truthful if each
    // record that one of them read is one that an earlier one was to store, and no two contents
    // share a digest.
    ensures logged { (kinds : Kinds) → WasLogged ⟦<LoggedFolder<F> as Folder>⟧.device
        log (tables_of T.meanings A.meanings tables.now) kinds invocation.now result.answer result.folder }
{
    let mut folder = LoggedFolder::new(alloc, inner);
    let answer = invoke(alloc, &mut folder, tables, invocation, listeners, printer);
    answered_success_is_from_scratch::<A, T, LoggedFolder<F>>(tables);
    logged_folders_keep_calls::<F>();
    LoggedBuild { answer, folder }
}
