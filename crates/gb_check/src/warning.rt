//! All warnings of registered tasks.
ghost use Rattle.std.specs.Prelude.{◌≡◌, IfErr, IfOk};
ghost use Rattle.gb_folder.specs.Calls.{OnlyReads};
ghost use Rattle.gb_plan.specs.Graph.{paths_of};
ghost use Rattle.gb_registry.specs.SoFar.{scripts_in};
ghost use Rattle.gb_folder.specs.Faults.{IsOfMachine};
ghost use Rattle.gb_check.specs.Warnings.{AreWarnings, declared_warnings};

use crate::bare::warn_bare;
use crate::between::push_between_all;
use crate::common_roots::push_shared;
use crate::declared::declarations;
use crate::findings::Finding;
use crate::guarded::guarded_in;
use crate::sites::Site;
use gb_core::path::TaskPath;
use gb_folder::folder::Folder;
use gb_graph::tasks::Tasks;
use gb_plan::task::TaskDeclaration;
use gb_registry::checking::Scripted;
use gb_report::fault::Fault;
use std::alloc::Global;

/// The warnings of file properties, of outputs that other tasks read, and then of roots without files.
/// `names` are the paths of all tasks.
pub(crate) fn warn<Ts: Tasks, F: Folder>(
    alloc: Global,
    folder: &mut F,
    tasks: &mut Ts,
    names: &[TaskPath],
    scripts: &[Scripted],
    sites: &[Site],
) -> Result<Vec<Finding>, Fault>
    requires { names.now ≡ paths_of (Ts.registry tasks.old) }
    ensures kept { Ts.registry tasks.new ≡ Ts.registry tasks.old }
    ensures reads { OnlyReads F.device folder.old folder.new }
    ensures warnings { IfOk result (λ found. AreWarnings (F.device.faithful folder.new) sites.now
        (scripts_in scripts.now) (F.device.contents folder.old) (Ts.registry tasks.old) found.items) }
    ensures err { F.device.faithful folder.new
        → IfErr result (IsOfMachine (F.device.failures folder.old) (F.device.failures folder.new)) }
{
    let declared = declarations(alloc, tasks, names)?;
    let mut found = warn_declared(alloc, declared.as_slice(), scripts, sites)?;
    let mut bare = warn_bare(alloc, folder, declared.as_slice(), sites)?;
    found.append(&mut bare)?;
    Ok(found)
}

/// The warnings that no file changes.
fn warn_declared(
    alloc: Global,
    tasks: &[TaskDeclaration],
    scripts: &[Scripted],
    sites: &[Site],
) -> Result<Vec<Finding>, Fault>
    ensures found { IfOk result (λ found. found.items
        ≡ declared_warnings sites.now (scripts_in scripts.now) tasks.now) }
    ensures err { IfErr result (λ fault. fault ≡ Fault.OutOfMemory) }
{
    let guarded = guarded_in(alloc, scripts)?;
    let mut found = Vec::new(alloc);
    push_shared(&mut found, tasks, sites)?;
    push_between_all(&mut found, tasks, sites, guarded.as_slice())?;
    Ok(found)
}
