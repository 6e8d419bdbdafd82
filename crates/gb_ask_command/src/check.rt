//! `check`: the faults and warnings of a folder's tasks.
ghost use Rattle.std.specs.Prelude.{◌≡◌, ◌⊎◌, ◌∷◌, ◌++◌, [], IfErr, IfOk, IfSome, if◌then◌else◌};
ghost use Rattle.std.specs.Prelude.{List, None, map, string_bytes};
ghost use Rattle.std.specs.Io.KnownBytes.{Appends};
ghost use Rattle.gb_cli.specs.Answered.{given_of};
ghost use Rattle.gb_declare.specs.Registered.{registry_said};
ghost use Rattle.gb_folder.specs.Calls.{OnlyReads};
ghost use Rattle.gb_folder.specs.Files.{is_empty};
ghost use Rattle.gb_plan.specs.Graph.{paths_of};
ghost use Rattle.gb_printer.specs.Printing.{Prints};
ghost use Rattle.gb_registry.specs.Projects.{Path};
ghost use Rattle.gb_registry.specs.Read.{IsRead};
ghost use Rattle.gb_registry.specs.SoFar.{scripts_in};
ghost use Rattle.gb_registry.specs.Tables.{tables_of};
ghost use Rattle.gb_script.specs.declared.script.Statement.{Statement};
ghost use Rattle.gb_folder.specs.Faults.{IsOfMachine};
ghost use Rattle.gb_check.specs.All.{AreFindings};
ghost use Rattle.gb_check.specs.Found.{findings_text};
ghost use Rattle.gb_check.specs.Sites.{HasTextFault, IsUnread, script_of_project};
ghost use Rattle.gb_ask_command.specs.Check.{AreFindingsOf, AreLeft, CheckReply, IsCheckReply, IsCheckText};
ghost use Rattle.gb_ask_command.specs.Check.{IsCheckWritten, IsFindingAt, IsFoundAt};
ghost use Rattle.gb_ask_command.specs.Check.{RepliesCheck, check_status, check_text, unregistered_of};
ghost use Rattle.gb_ask_command.specs.Check.{written_status};
ghost use Rattle.gb_ask_command.specs.Faulty.{IsFaultless, IsTextFault};
ghost use Rattle.gb_ask_command.specs.Reply.{Reply as Replied, reply_text};

use crate::check_json::check_json;
use crate::first_fault::read_fault;
use crate::printed_reply::{Reply, push_reply};
use crate::unread::warn_unread;
use gb_action::actions::Actions;
use gb_build::workspace::read_registry;
use gb_check::find::find;
use gb_check::finding_text::{push_findings, unread_text};
use gb_check::findings::{Finding, Findings, Problem, Spot};
use gb_check::statement::statement_spot;
use gb_cli::program::asked_by;
use gb_core::path::TaskPath;
use gb_folder::folder::Folder;
use gb_printer::printer::Printer;
use gb_project::script_tasks::ScriptTasks;
use gb_provider::transforms::Transforms;
use gb_query::inventory::unregistered;
use gb_query::notation::Notation;
use gb_registry::checking::Scripted;
use gb_registry::configured::Configured;
use gb_registry::first_fault::FaultAt;
use gb_registry::names::Names;
use gb_registry::tables::Tables;
use gb_report::fault::Fault;
use gb_semantics::events::Invocation;
use std::alloc::{AllocError, Global};

/// Prints the findings for all registered tasks, as lines or in JSON: first the faults, then the
/// warnings, each with its script and line. The faults are those of the words of `defaultTasks`,
/// then those of tasks, or if no task has one, that of the plan of all tasks. If a statement has a
/// fault, the first one is the only finding. Of the arguments, only the values of properties count.
/// The exit status is 0 if there is no fault, 2 if the arguments are not understood, and otherwise
/// 1; there is none if the output could not be printed.
pub fn run<A: Actions, T: Transforms, F: Folder, W: Printer>(
    alloc: Global,
    folder: &mut F,
    notation: Notation,
    words: Result<Vec<String>, Fault>,
    writer: &mut W,
    tables: &Tables<A, T>,
) -> Option<u8>
    // Over any folder: no change is requested.
    ensures reads { OnlyReads F.device folder.old folder.new }
    ensures reported { (reply : CheckReply)
        × RepliesCheck (tables_of T.meanings A.meanings tables.now) (F.device.faithful folder.new)
        (given_of (λ words. map string_bytes words.items) words) (F.device.contents folder.old)
        (F.device.failures folder.old) (F.device.failures folder.new) reply
        × (written : Replied) × IsCheckWritten notation reply written
        × Prints W.contents W.whole (reply_text written) writer.old writer.new
        × IfSome result (λ status.
        Appends (W.contents writer.old) (W.contents writer.new) (reply_text written)
        × (status ≡ written_status (check_status reply) written)) }
{
    let reply = replied(alloc, folder, words, tables);
    let status = check_status(&reply);
    let written = write_checked(alloc, notation, &reply);
    drop(reply);
    let printed = print_checked(alloc, writer, status, &written);
    drop(written);
    printed
}

/// The text of the findings, or that memory ran out for it.
fn write_checked(alloc: Global, notation: Notation, reply: &Result<Findings, Fault>) -> Reply
    ensures { IsCheckWritten notation reply.now result }
{
    match checked_text(alloc, notation, reply) {
        Ok(text) => Ok(text),
        Err(_) => Err(Fault::OutOfMemory),
    }
}

fn checked_text(
    alloc: Global,
    notation: Notation,
    reply: &Result<Findings, Fault>,
) -> Result<String, AllocError>
    ensures { IfOk result (λ text. IsCheckText notation reply.now (string_bytes text)) }
{
    match notation {
        Notation::Lines => check_text(alloc, reply),
        Notation::Json => check_json(alloc, reply),
    }
}

/// Prints the findings, and returns the exit status. If not all of them can be printed, there is
/// none.
fn print_checked<W: Printer>(
    alloc: Global,
    writer: &mut W,
    status: u8,
    written: &Reply,
) -> Option<u8>
    ensures prints { Prints W.contents W.whole (reply_text written.now) writer.old writer.new }
    ensures status { IfSome result (λ printed.
        Appends (W.contents writer.old) (W.contents writer.new) (reply_text written.now)
        × (printed ≡ written_status status written.now)) }
{
    push_reply(alloc, writer, written);
    let status = written_status(status, written);
    if writer.is_whole() {
        Some(status)
    } else {
        None
    }
}

/// This exit status, or 1 if memory ran out for the text.
fn written_status(status: u8, written: &Reply) -> u8
    ensures { result ≡ written_status status written.now }
{
    match written {
        Ok(_) => status,
        Err(_) => 1,
    }
}

/// Faults and then warnings, or why scripts or arguments cannot be read.
fn check_text(alloc: Global, reply: &Result<Findings, Fault>) -> Result<String, AllocError>
    ensures { IfOk result (λ text. string_bytes text ≡ check_text reply.now) }
{
    match reply {
        Ok(found) => found_text(alloc, found),
        Err(fault) => unread_text(alloc, fault),
    }
}

fn found_text(alloc: Global, found: &Findings) -> Result<String, AllocError>
    ensures { IfOk result (λ text. string_bytes text
        ≡ findings_text found.now.faults.items ++ findings_text found.now.warnings.items) }
{
    let mut text = String::new(alloc);
    push_findings(&mut text, found.faults.as_slice())?;
    push_findings(&mut text, found.warnings.as_slice())?;
    Ok(text)
}

/// The exit status: 0 if there is no fault, 2 if the arguments are not understood, otherwise 1.
fn check_status(reply: &Result<Findings, Fault>) -> u8
    ensures { result ≡ check_status reply.now }
{
    match reply {
        Ok(found) => found_status(found.faults.as_slice()),
        Err(Fault::Usage) => 2,
        Err(_) => 1,
    }
}

fn found_status(faults: &[Finding]) -> u8
    ensures { result ≡ (if is_empty faults.now then 0 else 1) }
{
    if faults.first().is_none() { 0 } else { 1 }
}

fn replied<A: Actions, T: Transforms, F: Folder>(
    alloc: Global,
    folder: &mut F,
    words: Result<Vec<String>, Fault>,
    tables: &Tables<A, T>,
) -> Result<Findings, Fault>
    ensures reads { OnlyReads F.device folder.old folder.new }
    ensures replies { RepliesCheck (tables_of T.meanings A.meanings tables.now) (F.device.faithful folder.new)
        (given_of (λ words. map string_bytes words.items) words) (F.device.contents folder.old)
        (F.device.failures folder.old) (F.device.failures folder.new) result }
{
    match asked_by(alloc, words) {
        Ok(invocation) => check_asked(alloc, folder, tables, &invocation),
        Err(fault) => Err(fault),
    }
}

/// The findings for the tasks that the scripts of a folder register with the given values.
fn check_asked<A: Actions, T: Transforms, F: Folder>(
    alloc: Global,
    folder: &mut F,
    tables: &Tables<A, T>,
    invocation: &Invocation,
) -> Result<Findings, Fault>
    ensures reads { OnlyReads F.device folder.old folder.new }
    ensures reply { IsCheckReply (tables_of T.meanings A.meanings tables.now) (F.device.faithful folder.new)
        invocation.now (F.device.contents folder.old) (F.device.failures folder.old)
        (F.device.failures folder.new) result }
{
    let copied = invocation.properties.copy(alloc)?;
    let given = copied.into_vec();
    match read_registry(alloc, folder, tables, given) {
        Ok(configured) => {
            let found = check_configured(alloc, folder, &configured);
            drop(configured);
            found
        }
        Err(fault) => check_statements(alloc, folder, tables, fault),
    }
}

/// The finding for scripts that were refused for this fault. The scripts are read once more, to
/// find the first statement that has a fault. If no statement has one, the fault itself is
/// returned. Refused if a text cannot be read, if memory runs out, or if the device fails.
fn check_statements<A: Actions, T: Transforms, F: Folder>(
    alloc: Global,
    folder: &mut F,
    tables: &Tables<A, T>,
    fault: Fault,
) -> Result<Findings, Fault>
    ensures reads { OnlyReads F.device folder.old folder.new }
    ensures found { IfOk result (IsFoundAt (tables_of T.meanings A.meanings tables.now)
        (F.device.faithful folder.new) (F.device.contents folder.old).files) }
    ensures err { F.device.faithful folder.new → IfErr result (λ other.
        IsOfMachine (F.device.failures folder.old) (F.device.failures folder.new) other
        ⊎ (IsTextFault (F.device.contents folder.old).files other
        ⊎ ((other ≡ fault) × IsFaultless (tables_of T.meanings A.meanings tables.now)
        (F.device.contents folder.old).files))) }
{
    match statement_found(alloc, folder, tables) {
        Ok(Some(found)) => {
            drop(fault);
            Ok(found)
        }
        Ok(None) => Err(fault),
        Err(other) => {
            drop(fault);
            Err(other)
        }
    }
}

/// The first fault of a statement as the only finding; none if no statement has one.
fn statement_found<A: Actions, T: Transforms, F: Folder>(
    alloc: Global,
    folder: &mut F,
    tables: &Tables<A, T>,
) -> Result<Option<Findings>, Fault>
    ensures reads { OnlyReads F.device folder.old folder.new }
    ensures found { IfOk result (λ found. IfSome found
        (IsFoundAt (tables_of T.meanings A.meanings tables.now) (F.device.faithful folder.new)
        (F.device.contents folder.old).files)) }
    ensures none { F.device.faithful folder.new → IfOk result (λ found. found ≡ None
        → IsFaultless (tables_of T.meanings A.meanings tables.now) (F.device.contents folder.old).files) }
    ensures err { F.device.faithful folder.new → IfErr result (λ fault.
        IsOfMachine (F.device.failures folder.old) (F.device.failures folder.new) fault
        ⊎ IsTextFault (F.device.contents folder.old).files fault) }
{
    match read_fault(alloc, folder, tables)? {
        Some(at) => Ok(Some(found_at(alloc, folder, at)?)),
        None => Ok(None),
    }
}

/// The finding of a fault at its statement, as the only one.
fn found_at<F: Folder>(alloc: Global, folder: &mut F, at: FaultAt) -> Result<Findings, Fault>
    ensures reads { OnlyReads F.device folder.old folder.new }
    ensures found { IfOk result (IsFindingAt (F.device.faithful folder.new)
        (F.device.contents folder.old).files at) }
    ensures err { F.device.faithful folder.new → IfErr result (λ fault.
        IsOfMachine (F.device.failures folder.old) (F.device.failures folder.new) fault
        ⊎ HasTextFault (F.device.contents folder.old).files (script_of_project at.project) fault) }
{
    let FaultAt {
        project,
        statement,
        fault,
    } = at;
    match statement_spot(alloc, folder, &project, statement) {
        Ok(spot) => {
            let cause = Problem::Fault(fault);
            Ok(found_alone(alloc, Finding { spot, cause })?)
        }
        Err(other) => {
            drop(fault);
            Err(other)
        }
    }
}

/// This finding as the only one.
fn found_alone(alloc: Global, finding: Finding) -> Result<Findings, AllocError>
    ensures { IfOk result (λ found. (found.faults.items ≡ finding ∷ []) × (found.warnings.items ≡ [])) }
{
    let mut faults = Vec::new(alloc);
    faults.push(finding)?;
    let warnings = Vec::new(alloc);
    Ok(Findings { faults, warnings })
}

/// The findings for the statements of some scripts.
fn check_configured<A: Actions, T: Transforms, F: Folder>(
    alloc: Global,
    folder: &mut F,
    configured: &Configured<'_, A, T>,
) -> Result<Findings, Fault>
    ensures reads { OnlyReads F.device folder.old folder.new }
    ensures found { IfOk result
        (AreFindingsOf (tables_of T.meanings A.meanings configured.now.tables.now)
        (F.device.faithful folder.new)
        configured.now.registry (F.device.contents folder.old)) }
    ensures err { F.device.faithful folder.new → IfErr result (λ fault.
        IsOfMachine (F.device.failures folder.old) (F.device.failures folder.new) fault
        ⊎ ((scripts : List (Path × List Statement)) × IsRead configured.now.registry scripts
        × IsUnread (F.device.contents folder.old).files scripts fault)) }
{
    let registry = &configured.registry;
    let scripts = registry.scripts();
    let unread = warn_unread(alloc, scripts, registry.given())?;
    let found = check_tasks(alloc, folder, configured, scripts)?;
    let left = warn_unregistered(alloc, folder, configured)?;
    Ok(with_warnings(unread, found, left)?)
}

/// The findings, with the first warnings before the others and the last ones after them.
fn with_warnings(
    first: Vec<Finding>,
    found: Findings,
    last: Vec<Finding>,
) -> Result<Findings, AllocError>
    ensures { IfOk result (λ all. (all.faults.items ≡ found.faults.items)
        × (all.warnings.items ≡ first.items ++ found.warnings.items ++ last.items)) }
{
    let mut warnings = first;
    let mut found = found;
    let mut last = last;
    warnings.append(&mut found.warnings)?;
    warnings.append(&mut last)?;
    Ok(Findings {
        faults: found.faults,
        warnings,
    })
}

/// A warning for each task that has a record, but is not registered.
fn warn_unregistered<A: Actions, T: Transforms, F: Folder>(
    alloc: Global,
    folder: &mut F,
    configured: &Configured<'_, A, T>,
) -> Result<Vec<Finding>, Fault>
    ensures reads { OnlyReads F.device folder.old folder.new }
    ensures found { let tables = tables_of T.meanings A.meanings configured.now.tables.now in
        IfOk result (λ found. AreLeft (F.device.faithful folder.new) (F.device.contents folder.old)
        (paths_of (registry_said tables configured.now.registry)) found.items) }
    ensures err { F.device.faithful folder.new
        → IfErr result (IsOfMachine (F.device.failures folder.old) (F.device.failures folder.new)) }
{
    let _registered = configured.registry.tasks();
    let names = configured.registry.names(alloc)?;
    let left = unregistered(alloc, folder, names.as_slice())?;
    Ok(unregistered_found(alloc, left.as_slice())?)
}

fn unregistered_found(alloc: Global, paths: &[TaskPath]) -> Result<Vec<Finding>, AllocError>
    ensures { IfOk result (λ found. found.items ≡ map unregistered_of paths.now) }
{
    let mut found = Vec::new(alloc);
    for path in paths {
        let spot = Spot::Unknown;
        let cause = Problem::Unregistered(path.copy()?);
        found.push(Finding { spot, cause })?;
    }
    Ok(found)
}

/// The findings for registered tasks.
fn check_tasks<A: Actions, T: Transforms, F: Folder>(
    alloc: Global,
    folder: &mut F,
    configured: &Configured<'_, A, T>,
    scripts: &[Scripted],
) -> Result<Findings, Fault>
    ensures reads { OnlyReads F.device folder.old folder.new }
    ensures found { let tables = tables_of T.meanings A.meanings configured.now.tables.now in
        IfOk result (AreFindings tables configured.now.registry.names (F.device.faithful folder.new)
        (F.device.contents folder.old) (registry_said tables configured.now.registry)
        (scripts_in scripts.now)) }
    ensures err { F.device.faithful folder.new → IfErr result (λ fault.
        IsOfMachine (F.device.failures folder.old) (F.device.failures folder.new) fault
        ⊎ IsUnread (F.device.contents folder.old).files (scripts_in scripts.now) fault) }
{
    let registry = &configured.registry;
    let known = Names {
        projects: registry.projects(),
        tasks: registry.tasks().paths(),
    };
    let paths = registry.names(alloc)?;
    let mut tasks = ScriptTasks::declare(alloc, configured)?;
    let found = find(
        alloc,
        folder,
        configured.tables,
        &known,
        &mut tasks,
        paths.as_slice(),
        scripts,
    );
    drop(tasks);
    drop(paths);
    found
}
