//! `reads` and `makes`: the tasks that read a place, or those that make it.
ghost use Rattle.std.specs.Prelude.{◌≡◌, IfErr, IfOk, IfSome, Ok, map, string_bytes};
ghost use Rattle.std.specs.Io.KnownBytes.{Appends};
ghost use Rattle.gb_cli.specs.Answered.{given_of};
ghost use Rattle.gb_declare.specs.Registered.{registry_said};
ghost use Rattle.gb_folder.specs.Calls.{OnlyReads};
ghost use Rattle.gb_printer.specs.Printing.{Prints};
ghost use Rattle.gb_query.specs.Notation.{IsFoundText};
ghost use Rattle.gb_query.specs.Search.{found_in};
ghost use Rattle.gb_registry.specs.Tables.{tables_of};
ghost use Rattle.gb_ask_command.specs.Reply.{Reply as Replied, reply_status, reply_text};
ghost use Rattle.gb_ask_command.specs.Replies.{IsPlaceReply, IsReplyAbout, Replies};

use crate::printed_reply::{Reply, print_reply};
use crate::read_scripts::read_asked;
use gb_action::actions::Actions;
use gb_cli::program::asked_by;
use gb_core::place::Place;
use gb_folder::folder::Folder;
use gb_printer::printer::Printer;
use gb_project::script_tasks::ScriptTasks;
use gb_provider::transforms::Transforms;
use gb_query::answers::search_text;
use gb_query::at_place::Relation;
use gb_query::notation::Notation;
use gb_query::query_place::asked_place;
use gb_registry::configured::Configured;
use gb_registry::tables::Tables;
use gb_report::fault::Fault;
use gb_semantics::events::Invocation;
use std::alloc::Global;

/// Prints a line for each file property that includes the place, or for each output at or above it,
/// in the order of registration: the path of the task, and the name. A task that cannot be read has
/// a line with its fault. Only the place and the values of properties count among the arguments.
/// The exit status is 0; it is 1 if the place or the scripts are refused, and 2 if no place or more
/// than one is named.
pub fn run<A: Actions, T: Transforms, F: Folder, W: Printer>(
    alloc: Global,
    folder: &mut F,
    notation: Notation,
    relation: Relation,
    words: Result<Vec<String>, Fault>,
    writer: &mut W,
    tables: &Tables<A, T>,
) -> Option<u8>
    // Over any folder: no change is requested.
    ensures reads { OnlyReads F.device folder.old folder.new }
    ensures reported { (reply : Replied)
        × Replies (IsPlaceReply (tables_of T.meanings A.meanings tables.now) (F.device.faithful folder.new)
        (record { contents = F.device.contents folder.old; failures = F.device.failures folder.old })
        (F.device.failures folder.new) notation relation)
        (given_of (λ words. map string_bytes words.items) words) reply
        × Prints W.contents W.whole (reply_text reply) writer.old writer.new
        × IfSome result (λ status.
        Appends (W.contents writer.old) (W.contents writer.new) (reply_text reply)
        × (status ≡ reply_status reply)) }
{
    let reply = replied(alloc, folder, notation, relation, words, tables);
    let status = print_reply(alloc, writer, &reply);
    drop(reply);
    status
}

fn replied<A: Actions, T: Transforms, F: Folder>(
    alloc: Global,
    folder: &mut F,
    notation: Notation,
    relation: Relation,
    words: Result<Vec<String>, Fault>,
    tables: &Tables<A, T>,
) -> Reply
    ensures reads { OnlyReads F.device folder.old folder.new }
    ensures replies { Replies (IsPlaceReply (tables_of T.meanings A.meanings tables.now)
        (F.device.faithful folder.new)
        (record { contents = F.device.contents folder.old; failures = F.device.failures folder.old })
        (F.device.failures folder.new) notation relation)
        (given_of (λ words. map string_bytes words.items) words) result }
{
    match asked_by(alloc, words) {
        Ok(invocation) => answer(alloc, folder, notation, relation, tables, &invocation),
        Err(fault) => Err(fault),
    }
}

/// The answer about the requested place.
fn answer<A: Actions, T: Transforms, F: Folder>(
    alloc: Global,
    folder: &mut F,
    notation: Notation,
    relation: Relation,
    tables: &Tables<A, T>,
    invocation: &Invocation,
) -> Reply
    ensures reads { OnlyReads F.device folder.old folder.new }
    ensures reply { IsPlaceReply (tables_of T.meanings A.meanings tables.now) (F.device.faithful folder.new)
        (record { contents = F.device.contents folder.old; failures = F.device.failures folder.old })
        (F.device.failures folder.new) notation relation invocation.now result }
{
    match asked_place(alloc, invocation.requested.as_slice()) {
        Ok(place) => search_folder(
            alloc, folder, notation, relation, tables, invocation, &place,
        ),
        Err(fault) => Err(fault),
    }
}

/// The findings for the tasks that the scripts of a folder register with the given values.
fn search_folder<A: Actions, T: Transforms, F: Folder>(
    alloc: Global,
    folder: &mut F,
    notation: Notation,
    relation: Relation,
    tables: &Tables<A, T>,
    invocation: &Invocation,
    place: &Place,
) -> Reply
    ensures reads { OnlyReads F.device folder.old folder.new }
    ensures reply { IsReplyAbout (tables_of T.meanings A.meanings tables.now) (F.device.faithful folder.new)
        (record { contents = F.device.contents folder.old; failures = F.device.failures folder.old })
        (F.device.failures folder.new) notation relation (Ok place.now) invocation.now result }
{
    match read_asked(alloc, folder, tables, invocation) {
        Ok(configured) => search_registered(alloc, notation, relation, &configured, place),
        Err(fault) => Err(fault),
    }
}

fn search_registered<A: Actions, T: Transforms>(
    alloc: Global,
    notation: Notation,
    relation: Relation,
    configured: &Configured<'_, A, T>,
    place: &Place,
) -> Reply
    ensures text { let tables = tables_of T.meanings A.meanings configured.now.tables.now in
        IfOk result (λ text. IsFoundText notation relation
        (found_in relation place.now (registry_said tables configured.now.registry)) (string_bytes text)) }
    ensures fault { IfErr result (λ fault. fault ≡ Fault.OutOfMemory) }
{
    let _registered = configured.registry.tasks();
    let names = configured.registry.names(alloc)?;
    let mut tasks = ScriptTasks::declare(alloc, configured)?;
    let paths = names.as_slice();
    let text = search_text(alloc, notation, relation, &mut tasks, paths, place)?;
    Ok(text)
}
