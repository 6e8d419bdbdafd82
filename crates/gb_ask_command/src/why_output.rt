//! The output of `why`, and its exit status.
ghost use Rattle.std.specs.Prelude.{◌≡◌, Err, IfOk, IfSome, Ok, string_bytes};
ghost use Rattle.std.specs.Io.KnownBytes.{Appends};
ghost use Rattle.std.specs.List.{flat_map};
ghost use Rattle.gb_printer.specs.Printing.{Prints};
ghost use Rattle.gb_ask_command.specs.Line.{line_text};
ghost use Rattle.gb_ask_command.specs.Reply.{reply_status};
ghost use Rattle.gb_ask_command.specs.Reported.{IsWhyText, IsWritten, why_text};

use crate::printed_reply::{Reply, reply_status};
use crate::task_line::push_line;
use crate::why_json::why_json;
use gb_answer::answer::not_built_text;
use gb_predict::predicted_outcome::Prediction;
use gb_printer::printer::Printer;
use gb_query::notation::Notation;
use gb_report::fault::Fault;
use std::alloc::{AllocError, Global};

/// The report of each task, or why a build would be refused.
pub(crate) type Answer = Result<Vec<Prediction>, Fault>;

/// The text of an answer, or the refusal; also if memory is insufficient for the text.
pub(crate) fn write_answer(alloc: Global, notation: Notation, answer: Answer) -> Reply
    ensures { IsWritten notation answer result }
{
    match answer {
        Ok(reported) => write_reported(alloc, notation, reported),
        Err(fault) => Err(fault),
    }
}

/// The text of reports, which are dropped.
fn write_reported(alloc: Global, notation: Notation, reported: Vec<Prediction>) -> Reply
    ensures { IsWritten notation (Ok reported) result }
{
    let text = reported_text(alloc, notation, reported.as_slice());
    drop(reported);
    match text {
        Ok(text) => Ok(text),
        Err(_) => Err(Fault::OutOfMemory),
    }
}

fn reported_text(
    alloc: Global,
    notation: Notation,
    reported: &[Prediction],
) -> Result<String, AllocError>
    ensures { IfOk result (λ text. IsWhyText notation reported.now (string_bytes text)) }
{
    match notation {
        Notation::Lines => lines(alloc, reported),
        Notation::Json => why_json(alloc, reported),
    }
}

/// The lines of the tasks.
fn lines(alloc: Global, reported: &[Prediction]) -> Result<String, AllocError>
    ensures { IfOk result (λ text. string_bytes text ≡ flat_map line_text reported.now) }
{
    let mut text = String::new(alloc);
    for one in reported {
        push_line(&mut text, one)?;
    }
    Ok(text)
}

/// Prints an answer, and returns its exit status. If not all of it can be printed, there is none.
pub(crate) fn print_answer<W: Printer>(alloc: Global, writer: &mut W, reply: &Reply) -> Option<u8>
    ensures prints { Prints W.contents W.whole (why_text reply.now) writer.old writer.new }
    ensures status { IfSome result (λ status.
        Appends (W.contents writer.old) (W.contents writer.new) (why_text reply.now)
        × (status ≡ reply_status reply.now)) }
{
    push_answer(alloc, writer, reply);
    let status = reply_status(reply);
    if writer.is_whole() {
        Some(status)
    } else {
        None
    }
}

fn push_answer<W: Printer>(alloc: Global, writer: &mut W, reply: &Reply)
    ensures { Prints W.contents W.whole (why_text reply.now) writer.old writer.new }
{
    match reply {
        Ok(text) => writer.print(text.as_bytes()),
        Err(fault) => push_not_built(alloc, writer, fault),
    }
}

fn push_not_built<W: Printer>(alloc: Global, writer: &mut W, fault: &Fault)
    ensures { Prints W.contents W.whole (why_text (Err fault.now)) writer.old writer.new }
{
    match not_built_text(alloc, fault) {
        Ok(text) => writer.print(text.as_slice()),
        Err(_) => writer.give_up(),
    }
}
