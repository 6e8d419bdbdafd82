//! A printer over a writer.
ghost use Rattle.std.specs.Prelude.{◌≡◌, ◌++◌, ℕ, List, [], true};
ghost use Rattle.std.specs.Io.KnownBytes.{Appends, Keeps};
ghost use Rattle.gb_report.specs.Report.{task_text};
ghost use Rattle.gb_printer.specs.Printing.{Prints};

use crate::part::part;
use crate::printer::Printer;
use gb_report::report::{Outcome, TaskReport};
use std::alloc::Global;
use std::io::{ErrorKind, Write};

/// What is written to a writer, up to the first text that it does not accept.
#[derive(Drop)]
pub struct Page<W: Write + Drop> {
    writer: W,
    is_whole: bool,
}

impl<W: Write + Drop> Page<W> {
    /// Nothing is written yet.
    pub fn new(writer: W) -> Page<W>
        ensures writer { result.writer ≡ writer }
        ensures whole { result.is_whole ≡ true }
    {
        Page {
            writer,
            is_whole: true,
        }
    }

    /// The writer. Text that it buffers is not flushed.
    pub fn into_writer(self) -> W
        ensures { result ≡ self.writer }
    {
        let Page {
            writer,
            is_whole: _,
        } = self;
        writer
    }

    fn push(&mut self, text: &[u8])
        ensures { Prints (λ (page : Page W). W.contents page.writer) (λ (page : Page W). page.is_whole)
            text.now self.old self.new }
    {
        if self.is_whole {
            self.is_whole = write(&mut self.writer, text);
        }
    }

    /// Writes the part of a task, if there is memory for its text.
    fn push_part(&mut self, alloc: Global, report: &TaskReport)
        ensures { Prints (λ (page : Page W). W.contents page.writer) (λ (page : Page W). page.is_whole)
            (task_text report.now) self.old self.new }
    {
        match part(alloc, report) {
            Ok(text) => self.push(text.as_slice()),
            Err(_) => self.is_whole = false,
        }
    }

    fn flush(&mut self)
        ensures kept { Keeps (W.contents self.old.writer) (W.contents self.new.writer) }
        ensures whole { self.new.is_whole ≡ true → self.old.is_whole ≡ true }
    {
        if self.is_whole {
            self.is_whole = self.writer.flush().is_ok();
        }
    }
}

/// Writes all of a text, or a beginning of it. Returns whether it was all.
fn write<W: Write>(writer: &mut W, text: &[u8]) -> bool
    ensures { (done : List ℕ) × (left : List ℕ) × (text.now ≡ done ++ left)
        × Appends (W.contents writer.old) (W.contents writer.new) done
        × (result ≡ true → left ≡ []) }
{
    let mut left = text;
    for _ in 0..u64::MAX {
        if left.is_empty() {
            return true;
        }
        match writer.write(left) {
            Ok(0) => return false,
            Ok(count) => left = &left[count..],
            Err(error) if error.kind() == ErrorKind::Interrupted => {}
            Err(_) => return false,
        }
    }
    false
}

/// Whether a task execution with this outcome may have taken long.
fn may_be_long(outcome: &Outcome) -> bool {
    matches!(outcome, Outcome::Executed | Outcome::Failed(_))
}

impl<W: Write + Drop> Printer for Page<W> {
    ghost contents = { λ page. W.contents page.writer };

    ghost whole = { λ page. page.is_whole };

    fn print(&mut self, text: &[u8]) {
        self.push(text);
        self.flush();
    }

    fn print_task(&mut self, alloc: Global, report: &TaskReport) {
        self.push_part(alloc, report);
        if may_be_long(&report.outcome) {
            self.flush();
        }
    }

    fn give_up(&mut self) {
        self.is_whole = false;
    }

    fn is_whole(&self) -> bool {
        self.is_whole
    }
}
