//! A dry run: nothing starts, and each task is reported as skipped.
ghost use Rattle.std.specs.Prelude.{◌≡◌, IfOk};
ghost use Rattle.gb_semantics.specs.Execution.{dry_reports};
ghost use Rattle.gb_report.specs.declared.report.Outcome.TheVariants.{Skipped};
ghost use Rattle.gb_exec.specs.Reports.{report_with};

use gb_core::text::Texts;
use gb_plan::plan::Planned;
use gb_report::report::{Outcome, TaskReport};
use std::alloc::{AllocError, Global};

/// The reports of a dry run of these tasks.
pub(crate) fn dry_reports(alloc: Global, tasks: &[Planned]) -> Result<Vec<TaskReport>, AllocError>
    ensures { IfOk result (λ reports. reports.items ≡ dry_reports tasks.now) }
{
    let mut reports = Vec::new(alloc);
    for planned in tasks {
        reports.push(skipped(alloc, planned)?)?;
    }
    Ok(reports)
}

/// A task as it is reported in a dry run.
fn skipped(alloc: Global, planned: &Planned) -> Result<TaskReport, AllocError>
    ensures { IfOk result (λ report. report ≡ report_with Skipped planned.now) }
{
    Ok(TaskReport {
        path: planned.task.path.copy()?,
        outcome: Outcome::Skipped,
        has_actions: !planned.task.actions.is_empty(),
        lines: Texts::new(alloc),
    })
}
