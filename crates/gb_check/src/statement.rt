//! Where a statement of a script is.
ghost use Rattle.std.specs.Prelude.{◌≡◌, ◌⊎◌, IfErr, IfOk};
ghost use Rattle.gb_folder.specs.Calls.{OnlyReads};
ghost use Rattle.gb_folder.specs.Faults.{IsOfMachine};
ghost use Rattle.gb_check.specs.Sites.{HasTextFault, script_of_project};
ghost use Rattle.gb_check.specs.Statement.{IsStatementSpot, line_of_statement};

use crate::findings::Spot;
use crate::sites::{lines_at, script_of_project};
use gb_folder::folder::Folder;
use gb_registry::project::Project;
use gb_report::fault::Fault;
use gb_script::StatementLines;
use std::alloc::Global;

/// Where the statement with this number in the script of a project is. Statements count from 0. The
/// script is read once more for its lines; the statement has the line 1 if its script lost
/// statements since the first read.
pub fn statement_spot<F: Folder>(
    alloc: Global,
    folder: &mut F,
    project: &Project,
    number: usize,
) -> Result<Spot, Fault>
    ensures reads { OnlyReads F.device folder.old folder.new }
    ensures spot { IfOk result
        (IsStatementSpot (F.device.faithful folder.new) (F.device.contents folder.old).files project.now
        number) }
    ensures err { F.device.faithful folder.new → IfErr result (λ fault.
        IsOfMachine (F.device.failures folder.old) (F.device.failures folder.new) fault
        ⊎ HasTextFault (F.device.contents folder.old).files (script_of_project project.now) fault) }
{
    let script = script_of_project(alloc, project)?;
    let lines = lines_at(alloc, folder, &script)?;
    let line = line_of_statement(lines.as_slice(), number);
    Ok(Spot::Line(script, line))
}

/// The line of the statement with a number; 1 if there is none.
fn line_of_statement(lines: &[StatementLines], number: usize) -> u64
    ensures { result ≡ line_of_statement lines.now number }
{
    match lines.get(number) {
        Some(lines) => lines.statement(),
        None => 1,
    }
}
