//! A text to print, or a refusal.
ghost use Rattle.std.specs.Prelude.{◌≡◌, Err, IfSome};
ghost use Rattle.std.specs.Io.KnownBytes.{Appends};
ghost use Rattle.gb_printer.specs.Printing.{Prints};
ghost use Rattle.gb_ask_command.specs.Reply.{reply_status, reply_text};

use gb_answer::answer::refusal_text;
use gb_printer::printer::Printer;
use gb_report::fault::Fault;
use std::alloc::Global;

/// A text, or why there is none.
pub(crate) type Reply = Result<String, Fault>;

/// Prints a text or a refusal, and returns its exit status. If not all of it can be printed, there
/// is none.
pub(crate) fn print_reply<W: Printer>(alloc: Global, writer: &mut W, reply: &Reply) -> Option<u8>
    ensures prints { Prints W.contents W.whole (reply_text reply.now) writer.old writer.new }
    ensures status { IfSome result (λ status.
        Appends (W.contents writer.old) (W.contents writer.new) (reply_text reply.now)
        × (status ≡ reply_status reply.now)) }
{
    push_reply(alloc, writer, reply);
    let status = reply_status(reply);
    if writer.is_whole() {
        Some(status)
    } else {
        None
    }
}

pub(crate) fn push_reply<W: Printer>(alloc: Global, writer: &mut W, reply: &Reply)
    ensures { Prints W.contents W.whole (reply_text reply.now) writer.old writer.new }
{
    match reply {
        Ok(text) => writer.print(text.as_bytes()),
        Err(fault) => push_refusal(alloc, writer, fault),
    }
}

fn push_refusal<W: Printer>(alloc: Global, writer: &mut W, fault: &Fault)
    ensures { Prints W.contents W.whole (reply_text (Err fault.now)) writer.old writer.new }
{
    match refusal_text(alloc, fault) {
        Ok(text) => writer.print(text.as_slice()),
        Err(_) => writer.give_up(),
    }
}

/// The exit status of a reply: 0 if there is a text, 2 if the arguments are not understood,
/// otherwise 1.
pub(crate) fn reply_status(reply: &Reply) -> u8
    ensures { result ≡ reply_status reply.now }
{
    match reply {
        Ok(_) => 0,
        Err(Fault::Usage) => 2,
        Err(_) => 1,
    }
}
