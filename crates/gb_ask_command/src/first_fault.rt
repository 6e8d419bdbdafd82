//! The statement of a folder's scripts at which their first fault arises.
ghost use Rattle.std.specs.Prelude.{◌⊎◌, ◌≡◌, IfErr, IfOk, MatchOption};
ghost use Rattle.gb_folder.specs.Calls.{OnlyReads};
ghost use Rattle.gb_registry.specs.Tables.{tables_of};
ghost use Rattle.gb_folder.specs.Faults.{IsOfMachine};
ghost use Rattle.gb_ask_command.specs.Faulty.{IsFaultless, IsFaulty, IsTextFault};

use gb_action::actions::Actions;
use gb_build::read_scripts::{read_scripts, read_settings_of};
use gb_folder::folder::Folder;
use gb_provider::transforms::Transforms;
use gb_registry::first_fault::{FaultAt, first_fault};
use gb_registry::projects::projects;
use gb_registry::tables::Tables;
use gb_report::fault::Fault;
use std::alloc::Global;

/// The first fault of a statement of a folder's scripts, with that statement; none if no statement
/// has one. It is the fault for which `read_registry` is refused. Refused if a text cannot be read,
/// if memory runs out, or if the device fails.
pub fn read_fault<A: Actions, T: Transforms, F: Folder>(
    alloc: Global,
    folder: &mut F,
    tables: &Tables<A, T>,
) -> Result<Option<FaultAt>, Fault>
    ensures reads { OnlyReads F.device folder.old folder.new }
    ensures found { let tables = tables_of T.meanings A.meanings tables.now in
        F.device.faithful folder.new → IfOk result (λ found.
        MatchOption found (IsFaultless tables (F.device.contents folder.old).files)
        (IsFaulty tables (F.device.contents folder.old).files)) }
    ensures err { F.device.faithful folder.new → IfErr result (λ fault.
        IsOfMachine (F.device.failures folder.old) (F.device.failures folder.new) fault
        ⊎ IsTextFault (F.device.contents folder.old).files fault) }
{
    let settings = read_settings_of(alloc, folder)?;
    let projects = projects(alloc, &settings)?;
    let scripts = read_scripts(alloc, folder, projects.as_slice())?;
    first_fault(alloc, &settings, scripts, tables)
}
