//! The words of `defaultTasks`.
ghost use Rattle.std.specs.Prelude.{◌≡◌, ◌≢◌, ◌⊎◌, ◌∷◌, ◌++◌, [], IfErr, IfOk, List, OnOk, find, map};
ghost use Rattle.std.specs.List.{flat_map};
ghost use Rattle.std.specs.Option.{option_copied};
ghost use Rattle.gb_folder.specs.Calls.{OnlyReads};
ghost use Rattle.gb_plan.specs.Refusal.{word_faults};
ghost use Rattle.gb_registry.specs.SoFar.{scripts_in};
ghost use Rattle.gb_folder.specs.Faults.{IsOfMachine};
ghost use Rattle.gb_check.specs.DefaultWords.{AreAtDefaults, AreDefaultsFound, IsDefaultsSpot};
ghost use Rattle.gb_check.specs.DefaultWords.{defaults_line, fault_at, is_root, line_after};
ghost use Rattle.gb_check.specs.Sites.{AreLinesAt, HasTextFault, IsUnread, script_of_project};
ghost use Rattle.gb_check.specs.Marks.{Lines};

use crate::findings::{Finding, Problem, Spot};
use crate::sites::{first_lines, lines_at, other_lines, script_of_project};
use crate::whole_plan::is_out_of_memory;
use gb_core::text::Text;
use gb_folder::folder::Folder;
use gb_graph::tasks::Tasks;
use gb_registry::checking::Scripted;
use gb_report::fault::Fault;
use gb_script::StatementLines;
use gb_script::script::Statement;
use std::alloc::{AllocError, Global};

/// The faults of the words that count where none is requested, each at the last `defaultTasks` of
/// the root's script. Only if there are some, that script is read once more for its lines.
pub(crate) fn check_default_words<Ts: Tasks, F: Folder>(
    alloc: Global,
    folder: &mut F,
    tasks: &Ts,
    scripts: &[Scripted],
) -> Result<Vec<Finding>, Fault>
    ensures reads { OnlyReads F.device folder.old folder.new }
    ensures found { IfOk result (λ found. AreDefaultsFound (F.device.faithful folder.new)
        (F.device.contents folder.old).files (scripts_in scripts.now) (Ts.registry tasks.now) found.items) }
    ensures err { F.device.faithful folder.new → IfErr result (λ fault.
        IsOfMachine (F.device.failures folder.old) (F.device.failures folder.new) fault
        ⊎ IsUnread (F.device.contents folder.old).files (scripts_in scripts.now) fault) }
{
    let faults = faults_of(alloc, tasks, tasks.default_tasks())?;
    let found = find_words(alloc, folder, scripts, faults.as_slice());
    drop(faults);
    found
}

/// These faults of words, each at the last `defaultTasks` of the root's script.
fn find_words<F: Folder>(
    alloc: Global,
    folder: &mut F,
    scripts: &[Scripted],
    faults: &[Fault],
) -> Result<Vec<Finding>, Fault>
    ensures reads { OnlyReads F.device folder.old folder.new }
    ensures found { IfOk result (λ found. AreAtDefaults (F.device.faithful folder.new)
        (F.device.contents folder.old).files
        (scripts_in scripts.now) faults.now found.items) }
    ensures err { F.device.faithful folder.new → IfErr result (λ fault.
        IsOfMachine (F.device.failures folder.old) (F.device.failures folder.new) fault
        ⊎ IsUnread (F.device.contents folder.old).files (scripts_in scripts.now) fault) }
{
    if faults.is_empty() {
        return Ok(Vec::new(alloc));
    }
    let spot = defaults_spot(alloc, folder, scripts)?;
    Ok(found_at(alloc, &spot, faults)?)
}

/// The faults of some words.
fn faults_of<Ts: Tasks>(alloc: Global, tasks: &Ts, words: &[Text]) -> Result<Vec<Fault>, Fault>
    ensures faults { IfOk result (λ faults.
        faults.items ≡ flat_map (word_faults (Ts.registry tasks.now)) words.now) }
    ensures err { IfErr result (λ fault. fault ≡ Fault.OutOfMemory) }
{
    let mut faults = Vec::new(alloc);
    for word in words {
        push_word(alloc, &mut faults, tasks, word)?;
    }
    Ok(faults)
}

/// Adds the fault of a word, if it has one.
fn push_word<Ts: Tasks>(
    alloc: Global,
    faults: &mut Vec<Fault>,
    tasks: &Ts,
    word: &Text,
) -> Result<(), Fault>
    ensures faults { OnOk result
        (faults.new.items ≡ faults.old.items ++ word_faults (Ts.registry tasks.now) word.now) }
    ensures err { IfErr result (λ fault. fault ≡ Fault.OutOfMemory) }
{
    match tasks.select(alloc, word) {
        Ok(paths) => {
            drop(paths);
            Ok(())
        }
        Err(fault) => push_fault(faults, fault),
    }
}

/// Adds a fault. A fault for lack of memory is returned instead.
fn push_fault(faults: &mut Vec<Fault>, fault: Fault) -> Result<(), Fault>
    ensures faults { OnOk result (faults.new.items ≡ faults.old.items ++ fault ∷ []) }
    ensures known { OnOk result (fault ≢ Fault.OutOfMemory) }
    ensures err { IfErr result (λ fault. fault ≡ Fault.OutOfMemory) }
{
    if is_out_of_memory(&fault) {
        return Err(fault);
    }
    faults.push(fault)?;
    Ok(())
}

/// Where the last `defaultTasks` of the root's script is.
fn defaults_spot<F: Folder>(
    alloc: Global,
    folder: &mut F,
    scripts: &[Scripted],
) -> Result<Spot, Fault>
    ensures reads { OnlyReads F.device folder.old folder.new }
    ensures spot { IfOk result
        (IsDefaultsSpot (F.device.faithful folder.new) (F.device.contents folder.old).files
        (scripts_in scripts.now)) }
    ensures err { F.device.faithful folder.new → IfErr result (λ fault.
        IsOfMachine (F.device.failures folder.old) (F.device.failures folder.new) fault
        ⊎ IsUnread (F.device.contents folder.old).files (scripts_in scripts.now) fault) }
{
    match root_of(scripts) {
        Some(root) => line_in(alloc, folder, root),
        None => Ok(Spot::Unknown),
    }
}

/// The script of the root.
fn root_of(scripts: &[Scripted]) -> Option<&Scripted>
    ensures { option_copied result
        ≡ find (λ scripted. is_root (scripted.project, scripted.script)) scripts.now }
{
    scripts
        .iter()
        .find(|scripted| scripted.project.path().as_str() == ":")
}

/// The line of the last `defaultTasks` of a script; 1 if there is none.
fn line_in<F: Folder>(alloc: Global, folder: &mut F, scripted: &Scripted) -> Result<Spot, Fault>
    ensures reads { OnlyReads F.device folder.old folder.new }
    ensures spot { IfOk result (λ spot. (lines : List Lines) × (F.device.faithful folder.new
        → AreLinesAt (F.device.contents folder.old).files (script_of_project scripted.now.project) lines)
        × (spot ≡ Spot.Line (script_of_project scripted.now.project)
        (defaults_line 1 scripted.now.script lines))) }
    ensures err { F.device.faithful folder.new → IfErr result (λ fault.
        IsOfMachine (F.device.failures folder.old) (F.device.failures folder.new) fault
        ⊎ HasTextFault (F.device.contents folder.old).files (script_of_project scripted.now.project) fault) }
{
    let script = script_of_project(alloc, &scripted.project)?;
    let lines = lines_at(alloc, folder, &script)?;
    let line = defaults_line(scripted.script.statements(), lines.as_slice());
    Ok(Spot::Line(script, line))
}

fn defaults_line(statements: &[Statement], lines: &[StatementLines]) -> u64
    ensures { result ≡ defaults_line 1 statements.now lines.now }
{
    let mut last = 1;
    let mut rest = lines;
    for statement in statements {
        let (line, _) = first_lines(rest);
        last = line_after(last, line, statement);
        rest = other_lines(rest);
    }
    last
}

/// The line of the statement if it is a `defaultTasks`, else the line known before.
fn line_after(before: u64, line: u64, statement: &Statement) -> u64
    ensures { result ≡ line_after before line statement.now }
{
    if let Statement::DefaultTasks(_) = statement {
        line
    } else {
        before
    }
}

/// These faults, all at one spot.
fn found_at(alloc: Global, spot: &Spot, faults: &[Fault]) -> Result<Vec<Finding>, AllocError>
    ensures { IfOk result (λ found. found.items ≡ map (fault_at spot.now) faults.now) }
{
    let mut found = Vec::new(alloc);
    for fault in faults {
        let spot = copy_spot(spot)?;
        let cause = Problem::Fault(fault.copy(alloc)?);
        found.push(Finding { spot, cause })?;
    }
    Ok(found)
}

fn copy_spot(spot: &Spot) -> Result<Spot, AllocError>
    ensures { IfOk result (λ copied. copied ≡ spot.now) }
{
    match spot {
        Spot::Line(script, line) => Ok(Spot::Line(script.copy()?, *line)),
        Spot::Value(name) => Ok(Spot::Value(name.copy()?)),
        Spot::Unknown => Ok(Spot::Unknown),
    }
}
