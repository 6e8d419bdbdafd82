//! `why`: the outcome of each task in a build, and why it would be executed.
ghost use Rattle.std.specs.Prelude.{◌≡◌, IfSome, MatchResult, map, string_bytes};
ghost use Rattle.std.specs.Io.KnownBytes.{Appends};
ghost use Rattle.gb_cli.specs.Answered.{AreRefused, AskFor, given_of};
ghost use Rattle.gb_folder.specs.Calls.{OnlyReads};
ghost use Rattle.gb_printer.specs.Printing.{Prints};
ghost use Rattle.gb_registry.specs.Tables.{tables_of};
ghost use Rattle.gb_ask_command.specs.Reply.{Reply as Replied, reply_status};
ghost use Rattle.gb_ask_command.specs.Reported.{Answer as Answered, Answers, IsWritten, why_text};

use crate::predicting::predict_build;
use crate::why_output::{Answer, print_answer, write_answer};
use gb_action::actions::Actions;
use gb_cli::program::asked_by;
use gb_folder::folder::Folder;
use gb_printer::printer::Printer;
use gb_provider::transforms::Transforms;
use gb_query::notation::Notation;
use gb_registry::tables::Tables;
use gb_report::fault::Fault;
use gb_semantics::events::Invocation;
use std::alloc::Global;

/// Prints each task of the plan that a build with the same arguments would have, as a line or in
/// JSON: its outcome if it were executed on the folder as it is now, and why it would be executed.
/// Returns the exit status: 0; 1 if such a build would be refused or memory ran out; and 2 if the
/// arguments are not understood. Nothing is changed, and `--dry-run` makes no difference. If not
/// all output could be printed, there is no status.
pub fn run<A: Actions, T: Transforms, F: Folder, W: Printer>(
    alloc: Global,
    folder: &mut F,
    notation: Notation,
    words: Result<Vec<String>, Fault>,
    writer: &mut W,
    tables: &Tables<A, T>,
) -> Option<u8>
    // Over any folder: no change is requested.
    ensures reads { OnlyReads F.device folder.old folder.new }
    // There is an answer, whether it could be printed or not. If it could, exactly its text is
    // printed, and the status is its own; if not, a beginning of its text is printed.
    ensures reported { (answer : Answered)
        × Answers (tables_of T.meanings A.meanings tables.now) (F.device.faithful folder.new)
        (given_of (λ words. map string_bytes words.items) words)
        (record { contents = F.device.contents folder.old; failures = F.device.failures folder.old })
        answer (F.device.failures folder.new)
        × (reply : Replied) × IsWritten notation answer reply
        × Prints W.contents W.whole (why_text reply) writer.old writer.new
        × IfSome result (λ status.
        Appends (W.contents writer.old) (W.contents writer.new) (why_text reply)
        × (status ≡ reply_status reply)) }
{
    let answer = answered(alloc, folder, words, tables);
    let reply = write_answer(alloc, notation, answer);
    let status = print_answer(alloc, writer, &reply);
    drop(reply);
    status
}

/// The answer to the arguments.
fn answered<A: Actions, T: Transforms, F: Folder>(
    alloc: Global,
    folder: &mut F,
    words: Result<Vec<String>, Fault>,
    tables: &Tables<A, T>,
) -> Answer
    ensures reads { OnlyReads F.device folder.old folder.new }
    ensures answers { Answers (tables_of T.meanings A.meanings tables.now) (F.device.faithful folder.new)
        (given_of (λ words. map string_bytes words.items) words)
        (record { contents = F.device.contents folder.old; failures = F.device.failures folder.old })
        result (F.device.failures folder.new) }
{
    match asked_by(alloc, words) {
        Ok(invocation) => predict_build(alloc, folder, tables, &invocation),
        Err(fault) => Err(fault),
    }
}
