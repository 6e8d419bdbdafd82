//! Prints the remaining output once a build has ended.
ghost use Rattle.std.specs.Prelude.{◌≡◌, IfOk};
ghost use Rattle.gb_answer.specs.Answer.{rest_of};
ghost use Rattle.gb_printer.specs.Printing.{Prints};

use crate::answer::not_built_text;
use gb_printer::part::rest;
use gb_printer::printer::Printer;
use gb_report::fault::Fault;
use gb_report::report::Report;
use std::alloc::{AllocError, Global};

/// Prints the remaining output of an answer; the parts of its tasks were printed before.
pub fn print_rest<P: Printer>(alloc: Global, printer: &mut P, answer: &Result<Report, Fault>)
    ensures { Prints P.contents P.whole (rest_of answer.now) printer.old printer.new }
{
    match rest_of(alloc, answer) {
        Ok(text) => printer.print(text.as_slice()),
        Err(_) => printer.give_up(),
    }
}

fn rest_of(alloc: Global, answer: &Result<Report, Fault>) -> Result<Vec<u8>, AllocError>
    ensures { IfOk result (λ text. text.items ≡ rest_of answer.now) }
{
    match answer {
        Ok(report) => rest(alloc, report),
        Err(fault) => not_built_text(alloc, fault),
    }
}
