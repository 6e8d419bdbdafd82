//! `status`: whether a build runs, and what each file of `.gb` is.
ghost use Rattle.std.specs.Prelude.{◌≡◌, IfErr, IfOk, IfSome, map, string_bytes};
ghost use Rattle.std.specs.Io.KnownBytes.{Appends};
ghost use Rattle.gb_cli.specs.Answered.{given_of};
ghost use Rattle.gb_declare.specs.Registered.{registry_said};
ghost use Rattle.gb_folder.specs.Calls.{OnlyReads};
ghost use Rattle.gb_printer.specs.Printing.{Prints};
ghost use Rattle.gb_plan.specs.Graph.{paths_of};
ghost use Rattle.gb_query.specs.Inventory.{IsUnlisted};
ghost use Rattle.gb_query.specs.Notation.{IsStatusOf};
ghost use Rattle.gb_registry.specs.Tables.{tables_of};
ghost use Rattle.gb_ask_command.specs.Reply.{Reply as Replied, reply_status, reply_text};
ghost use Rattle.gb_ask_command.specs.Replies.{IsStatusReply, Replies};

use crate::printed_reply::{Reply, print_reply};
use crate::read_scripts::read_asked;
use gb_action::actions::Actions;
use gb_cli::program::asked_by;
use gb_folder::folder::Folder;
use gb_printer::printer::Printer;
use gb_provider::transforms::Transforms;
use gb_query::answer_lines::Activity;
use gb_query::answers::inventory_text;
use gb_query::notation::Notation;
use gb_registry::configured::Configured;
use gb_registry::tables::Tables;
use gb_report::fault::Fault;
use gb_semantics::events::Invocation;
use std::alloc::Global;

/// Prints whether a build runs, and then what each file of `.gb` is, in the order of the places:
/// the record of a task, a damaged one, that of a task that no script registers, or no record. Only
/// the values of properties count among the arguments. The exit status is 0; it is 1 if the scripts
/// are refused or the files of `.gb` cannot be read.
pub fn run<A: Actions, T: Transforms, F: Folder, W: Printer>(
    alloc: Global,
    folder: &mut F,
    notation: Notation,
    activity: Activity,
    words: Result<Vec<String>, Fault>,
    writer: &mut W,
    tables: &Tables<A, T>,
) -> Option<u8>
    // Over any folder: no change is requested.
    ensures reads { OnlyReads F.device folder.old folder.new }
    ensures reported { (reply : Replied)
        × Replies (IsStatusReply (tables_of T.meanings A.meanings tables.now) (F.device.faithful folder.new)
        (record { contents = F.device.contents folder.old; failures = F.device.failures folder.old })
        (F.device.failures folder.new) notation activity)
        (given_of (λ words. map string_bytes words.items) words) reply
        × Prints W.contents W.whole (reply_text reply) writer.old writer.new
        × IfSome result (λ status.
        Appends (W.contents writer.old) (W.contents writer.new) (reply_text reply)
        × (status ≡ reply_status reply)) }
{
    let reply = replied(alloc, folder, notation, activity, words, tables);
    let status = print_reply(alloc, writer, &reply);
    drop(reply);
    status
}

fn replied<A: Actions, T: Transforms, F: Folder>(
    alloc: Global,
    folder: &mut F,
    notation: Notation,
    activity: Activity,
    words: Result<Vec<String>, Fault>,
    tables: &Tables<A, T>,
) -> Reply
    ensures reads { OnlyReads F.device folder.old folder.new }
    ensures replies { Replies (IsStatusReply (tables_of T.meanings A.meanings tables.now)
        (F.device.faithful folder.new)
        (record { contents = F.device.contents folder.old; failures = F.device.failures folder.old })
        (F.device.failures folder.new) notation activity)
        (given_of (λ words. map string_bytes words.items) words) result }
{
    match asked_by(alloc, words) {
        Ok(invocation) => look(alloc, folder, notation, activity, tables, &invocation),
        Err(fault) => Err(fault),
    }
}

/// The contents of `.gb`, given the tasks that the scripts of a folder register with the values of
/// an invocation.
fn look<A: Actions, T: Transforms, F: Folder>(
    alloc: Global,
    folder: &mut F,
    notation: Notation,
    activity: Activity,
    tables: &Tables<A, T>,
    invocation: &Invocation,
) -> Reply
    ensures reads { OnlyReads F.device folder.old folder.new }
    ensures reply { IsStatusReply (tables_of T.meanings A.meanings tables.now) (F.device.faithful folder.new)
        (record { contents = F.device.contents folder.old; failures = F.device.failures folder.old })
        (F.device.failures folder.new) notation activity invocation.now result }
{
    match read_asked(alloc, folder, tables, invocation) {
        Ok(configured) => look_beside(alloc, folder, notation, activity, &configured),
        Err(fault) => Err(fault),
    }
}

/// The contents of `.gb`, given the tasks that these scripts register.
fn look_beside<A: Actions, T: Transforms, F: Folder>(
    alloc: Global,
    folder: &mut F,
    notation: Notation,
    activity: Activity,
    configured: &Configured<'_, A, T>,
) -> Reply
    ensures reads { OnlyReads F.device folder.old folder.new }
    ensures text { let tables = tables_of T.meanings A.meanings configured.now.tables.now in
        IfOk result (λ text. IsStatusOf (F.device.faithful folder.new) notation activity
        (F.device.contents folder.old).files (paths_of (registry_said tables configured.now.registry))
        (string_bytes text)) }
    ensures refused { F.device.faithful folder.new → IfErr result
        (IsUnlisted (F.device.contents folder.old) (F.device.failures folder.old)
        (F.device.failures folder.new)) }
{
    let _registered = configured.registry.tasks();
    let names = configured.registry.names(alloc)?;
    inventory_text(alloc, notation, activity, folder, names.as_slice())
}
