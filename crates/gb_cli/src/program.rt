//! The program over any folder: it reads the arguments, builds what they request and prints the
//! output.
ghost use Rattle.std.specs.Prelude.{◌≡◌, ◌≤◌, IfSome, IsTrue, MatchResult, Result, map, string_bytes};
ghost use Rattle.std.specs.Io.KnownBytes.{Appends};
ghost use Rattle.gb_answer.specs.Answer.{answer_text, parts_of, status_of};
ghost use Rattle.gb_semantics.specs.declared.events.Invocation.{Invocation};
ghost use Rattle.gb_printer.specs.Printing.{Prints};
ghost use Rattle.gb_registry.specs.Tables.{tables_of};
ghost use Rattle.gb_report.specs.declared.fault.Fault.{Fault};
ghost use Rattle.gb_report.specs.declared.report.Report.{Report};
ghost use Rattle.gb_cli.specs.Answered.{Answers, AreRefused, AskFor, DoesFor, given_of};

use gb_action::actions::Actions;
use gb_answer::answer::status_of;
use gb_answer::printing::print_rest;
use gb_arguments::arguments::read;
use gb_build::invoking::invoke;
use gb_exec::listener::Recorder;
use gb_folder::folder::Folder;
use gb_printer::printer::Printer;
use gb_provider::transforms::Transforms;
use gb_registry::tables::Tables;
use gb_report::fault::Fault;
use gb_report::report::Report;
use gb_semantics::events::Invocation;
use std::alloc::Global;

/// The exit status of a program for which `run` returns `None`.
pub const UNPRINTED: u8 = 1;

/// Builds what the arguments request, prints the output, and returns the exit status: 0 where the
/// build was successful, 2 if the arguments are refused with 96, and else 1. The part of each task
/// is printed as soon as its execution has ended, the rest after the last. If something cannot be
/// printed, because memory ran out or the writer failed, the build continues, and `None` is
/// returned.
pub fn run<A: Actions, T: Transforms, F: Folder, W: Printer>(
    alloc: Global,
    folder: &mut F,
    words: Result<Vec<String>, Fault>,
    writer: &mut W,
    tables: &Tables<A, T>,
) -> Option<u8>
    ensures count { F.device.failures folder.old ≤ F.device.failures folder.new }
    ensures back { F.device.faithful folder.new → F.device.faithful folder.old }
    // Some answer fits these arguments: where contents are known, as `Answers` says, and over any
    // folder as `DoesFor` says. A status that is returned is the status of this answer, and on a page
    // whose contents are known just its text is printed; without a status, a beginning of its text.
    ensures reported { (answer : Result Report Fault)
        × (F.device.faithful folder.new → Answers (tables_of T.meanings A.meanings tables.now)
        (F.device.may_leave folder.old)
        (given_of (λ words. map string_bytes words.items) words)
        (record { contents = F.device.contents folder.old; failures = F.device.failures folder.old })
        answer
        (record { contents = F.device.contents folder.new; failures = F.device.failures folder.new }))
        × DoesFor F.device (tables_of T.meanings A.meanings tables.now)
        (given_of (λ words. map string_bytes words.items) words) answer folder.old folder.new
        × Prints W.contents W.whole (answer_text answer) writer.old writer.new
        × IfSome result (λ status.
        Appends (W.contents writer.old) (W.contents writer.new) (answer_text answer)
        × (status ≡ status_of answer)) }
{
    let answer = answered(alloc, folder, words, tables, writer);
    let status = status_of(&answer);
    print_rest(alloc, writer, &answer);
    W::finish(answer);
    if writer.is_whole() {
        Some(status)
    } else {
        None
    }
}

/// The answer to the arguments. The parts of the tasks are printed.
fn answered<A: Actions, T: Transforms, F: Folder, W: Printer>(
    alloc: Global,
    folder: &mut F,
    words: Result<Vec<String>, Fault>,
    tables: &Tables<A, T>,
    writer: &mut W,
) -> Result<Report, Fault>
    ensures printed { Prints W.contents W.whole (parts_of result) writer.old writer.new }
    ensures back { F.device.faithful folder.new → F.device.faithful folder.old }
    ensures count { F.device.failures folder.old ≤ F.device.failures folder.new }
    ensures answers { F.device.faithful folder.new
        → Answers (tables_of T.meanings A.meanings tables.now) (F.device.may_leave folder.old)
        (given_of (λ words. map string_bytes words.items) words)
        (record { contents = F.device.contents folder.old; failures = F.device.failures folder.old })
        result
        (record { contents = F.device.contents folder.new; failures = F.device.failures folder.new }) }
    ensures does { DoesFor F.device
        (tables_of T.meanings A.meanings tables.now)
        (given_of (λ words. map string_bytes words.items) words) result folder.old folder.new }
{
    match asked_by(alloc, words) {
        Ok(invocation) => {
            let mut listeners: Vec<Recorder> = Vec::new(alloc);
            invoke(alloc, folder, tables, &invocation, &mut listeners, writer)
        }
        Err(fault) => Err(fault),
    }
}

/// The invocation that the arguments request.
pub fn asked_by(alloc: Global, words: Result<Vec<String>, Fault>) -> Result<Invocation, Fault>
    ensures { MatchResult result
        (AskFor (given_of (λ words. map string_bytes words.items) words))
        (AreRefused (given_of (λ words. map string_bytes words.items) words)) }
{
    read(alloc, words?)
}
