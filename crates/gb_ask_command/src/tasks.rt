//! `tasks`: every registered task, what it does, and what it makes.
ghost use Rattle.std.specs.Prelude.{◌≡◌, IfErr, IfOk, IfSome, map, string_bytes};
ghost use Rattle.std.specs.Io.KnownBytes.{Appends};
ghost use Rattle.gb_cli.specs.Answered.{given_of};
ghost use Rattle.gb_declare.specs.Registered.{registry_said};
ghost use Rattle.gb_folder.specs.Calls.{OnlyReads};
ghost use Rattle.gb_printer.specs.Printing.{Prints};
ghost use Rattle.gb_query.specs.Notation.{IsTasksText};
ghost use Rattle.gb_registry.specs.Tables.{tables_of};
ghost use Rattle.gb_ask_command.specs.Reply.{Reply as Replied, reply_status, reply_text};
ghost use Rattle.gb_ask_command.specs.Replies.{IsTasksReply, Replies};

use crate::printed_reply::{Reply, print_reply};
use crate::read_scripts::read_asked;
use gb_action::actions::Actions;
use gb_cli::program::asked_by;
use gb_folder::folder::Folder;
use gb_printer::printer::Printer;
use gb_project::script_tasks::ScriptTasks;
use gb_provider::transforms::Transforms;
use gb_query::answers::list_text;
use gb_query::notation::Notation;
use gb_registry::configured::Configured;
use gb_registry::tables::Tables;
use gb_report::fault::Fault;
use gb_semantics::events::Invocation;
use std::alloc::Global;

/// Prints each registered task, in the order of registration, as a line or in JSON: its path,
/// whether it is a default task, the kinds of its actions, and the places that it makes; or its
/// fault. Only the values of properties count among the arguments. The exit status is 0; it is 1 if
/// the scripts are refused.
pub fn run<A: Actions, T: Transforms, F: Folder, W: Printer>(
    alloc: Global,
    folder: &mut F,
    notation: Notation,
    words: Result<Vec<String>, Fault>,
    writer: &mut W,
    tables: &Tables<A, T>,
) -> Option<u8>
    // Over any folder: no change is requested.
    ensures reads { OnlyReads F.device folder.old folder.new }
    ensures reported { (reply : Replied)
        × Replies (IsTasksReply (tables_of T.meanings A.meanings tables.now) (F.device.faithful folder.new)
        (record { contents = F.device.contents folder.old; failures = F.device.failures folder.old })
        (F.device.failures folder.new) notation)
        (given_of (λ words. map string_bytes words.items) words) reply
        × Prints W.contents W.whole (reply_text reply) writer.old writer.new
        × IfSome result (λ status.
        Appends (W.contents writer.old) (W.contents writer.new) (reply_text reply)
        × (status ≡ reply_status reply)) }
{
    let reply = replied(alloc, folder, notation, words, tables);
    let status = print_reply(alloc, writer, &reply);
    drop(reply);
    status
}

fn replied<A: Actions, T: Transforms, F: Folder>(
    alloc: Global,
    folder: &mut F,
    notation: Notation,
    words: Result<Vec<String>, Fault>,
    tables: &Tables<A, T>,
) -> Reply
    ensures reads { OnlyReads F.device folder.old folder.new }
    ensures replies { Replies (IsTasksReply (tables_of T.meanings A.meanings tables.now)
        (F.device.faithful folder.new)
        (record { contents = F.device.contents folder.old; failures = F.device.failures folder.old })
        (F.device.failures folder.new) notation)
        (given_of (λ words. map string_bytes words.items) words) result }
{
    match asked_by(alloc, words) {
        Ok(invocation) => list(alloc, folder, notation, tables, &invocation),
        Err(fault) => Err(fault),
    }
}

/// The tasks that the scripts of a folder register with the given values.
fn list<A: Actions, T: Transforms, F: Folder>(
    alloc: Global,
    folder: &mut F,
    notation: Notation,
    tables: &Tables<A, T>,
    invocation: &Invocation,
) -> Reply
    ensures reads { OnlyReads F.device folder.old folder.new }
    ensures reply { IsTasksReply (tables_of T.meanings A.meanings tables.now) (F.device.faithful folder.new)
        (record { contents = F.device.contents folder.old; failures = F.device.failures folder.old })
        (F.device.failures folder.new) notation invocation.now result }
{
    match read_asked(alloc, folder, tables, invocation) {
        Ok(configured) => list_registered(alloc, notation, &configured),
        Err(fault) => Err(fault),
    }
}

fn list_registered<A: Actions, T: Transforms>(
    alloc: Global,
    notation: Notation,
    configured: &Configured<'_, A, T>,
) -> Reply
    ensures text { let tables = tables_of T.meanings A.meanings configured.now.tables.now in
        IfOk result (λ text. IsTasksText notation (registry_said tables configured.now.registry)
        (string_bytes text)) }
    ensures fault { IfErr result (λ fault. fault ≡ Fault.OutOfMemory) }
{
    let _registered = configured.registry.tasks();
    let names = configured.registry.names(alloc)?;
    let mut tasks = ScriptTasks::declare(alloc, configured)?;
    let text = list_text(alloc, notation, &mut tasks, names.as_slice())?;
    Ok(text)
}
