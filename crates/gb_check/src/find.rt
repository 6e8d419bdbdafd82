//! The faults of registered tasks, and warnings.
ghost use Rattle.std.specs.Prelude.{◌≡◌, ◌⊎◌, IfErr, IfOk};
ghost use Rattle.gb_folder.specs.Calls.{OnlyReads};
ghost use Rattle.gb_plan.specs.Graph.{paths_of};
ghost use Rattle.gb_registry.specs.SoFar.{scripts_in};
ghost use Rattle.gb_registry.specs.Tables.{tables_of};
ghost use Rattle.gb_folder.specs.Faults.{IsOfMachine};
ghost use Rattle.gb_check.specs.All.{AreFaults, AreFindings};
ghost use Rattle.gb_check.specs.Sites.{IsUnread};

use crate::checking::check;
use crate::clause_lines::ClauseMark;
use crate::default_words::check_default_words;
use crate::findings::{Finding, Findings};
use crate::sites::{Site, read_sites};
use crate::warning::warn;
use gb_action::actions::Actions;
use gb_core::path::TaskPath;
use gb_folder::folder::Folder;
use gb_graph::tasks::Tasks;
use gb_provider::transforms::Transforms;
use gb_registry::checking::Scripted;
use gb_registry::names::Names;
use gb_registry::tables::Tables;
use gb_report::fault::Fault;
use std::alloc::Global;

/// Finds the faults and warnings of the tasks that these scripts of a folder register. `paths` are
/// the paths of all tasks, in the order of registration; `known` has what scripts may name.
///
/// Faults: first those of the words that the last `defaultTasks` of the root's script has, after the
/// line of that statement. Then, in the order of `paths`, the fault of each task that has one, after
/// the script and a line: that of the first clause of the task that has a fault by itself; if no
/// clause has one, that of the one clause that the fault names; or else the line that registers the
/// task. If no task has a fault, the reason why there is no plan of all tasks, after the line of the
/// first task that it names.
///
/// Warnings: for each two file properties of a task that have a root in common; for each two tasks
/// of which the first has a root that overlaps an output of the second: that the first does not
/// need the second, once for each such root; and that a clause may skip the second; and for each
/// root at which nothing is and no task makes anything.
///
/// Refused if memory runs out or the device fails, or if a script, which is read once more for its
/// lines, cannot be read as one (faults 2, 12 and 20 to 23; see `docs/FAULTS.md`).
pub fn find<A: Actions, T: Transforms, Ts: Tasks, F: Folder>(
    alloc: Global,
    folder: &mut F,
    tables: &Tables<A, T>,
    known: &Names<'_>,
    tasks: &mut Ts,
    paths: &[TaskPath],
    scripts: &[Scripted],
) -> Result<Findings, Fault>
    requires { paths.now ≡ paths_of (Ts.registry tasks.old) }
    ensures reads { OnlyReads F.device folder.old folder.new }
    ensures findings { IfOk result (AreFindings (tables_of T.meanings A.meanings tables.now) known.now
        (F.device.faithful folder.new) (F.device.contents folder.old) (Ts.registry tasks.old)
        (scripts_in scripts.now)) }
    ensures err { F.device.faithful folder.new → IfErr result (λ fault.
        IsOfMachine (F.device.failures folder.old) (F.device.failures folder.new) fault
        ⊎ IsUnread (F.device.contents folder.old).files (scripts_in scripts.now) fault) }
{
    let (sites, marks) = read_sites(alloc, folder, tables, known, scripts)?;
    let faults = find_faults(
        alloc,
        folder,
        tasks,
        paths,
        scripts,
        sites.as_slice(),
        marks.as_slice(),
    )?;
    let warnings = warn(alloc, folder, tasks, paths, scripts, sites.as_slice())?;
    Ok(Findings { faults, warnings })
}

/// The faults of the words of `defaultTasks`, and then those of the tasks.
fn find_faults<Ts: Tasks, F: Folder>(
    alloc: Global,
    folder: &mut F,
    tasks: &mut Ts,
    paths: &[TaskPath],
    scripts: &[Scripted],
    sites: &[Site],
    marks: &[ClauseMark],
) -> Result<Vec<Finding>, Fault>
    requires { paths.now ≡ paths_of (Ts.registry tasks.old) }
    ensures kept { Ts.registry tasks.new ≡ Ts.registry tasks.old }
    ensures reads { OnlyReads F.device folder.old folder.new }
    ensures faults { IfOk result (λ found. AreFaults (F.device.faithful folder.new)
        (F.device.contents folder.old).files
        sites.now marks.now (Ts.registry tasks.old) (scripts_in scripts.now) found.items) }
    ensures err { F.device.faithful folder.new → IfErr result (λ fault.
        IsOfMachine (F.device.failures folder.old) (F.device.failures folder.new) fault
        ⊎ IsUnread (F.device.contents folder.old).files (scripts_in scripts.now) fault) }
{
    let mut found = check_default_words(alloc, folder, tasks, scripts)?;
    let mut of_tasks = check(alloc, tasks, paths, sites, marks)?;
    found.append(&mut of_tasks)?;
    Ok(found)
}
