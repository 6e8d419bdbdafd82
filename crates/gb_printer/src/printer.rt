//! The trait of printers, and a printer that prints nothing.
ghost use Rattle.std.specs.Prelude.{◌≡◌, [], Some, true, false};
ghost use Rattle.std.specs.Io.KnownBytes.{Keeps};
ghost use Rattle.gb_report.specs.Report.{task_text};
ghost use Rattle.gb_printer.specs.Printing.{Prints};

use gb_report::report::TaskReport;
use std::alloc::Global;

/// A printer. A text that cannot be printed stops nothing: the printer remembers it, and prints
/// nothing after it, so that the printed text is a beginning of what it was given.
pub trait Printer {
    ghost use Rattle.std.specs.Prelude.{Bool, List, Option, ℕ};

    /// The text on its page, where that is known.
    ghost contents: { Self → Option (List ℕ) };

    /// Whether everything that it was given is printed.
    ghost whole: { Self → Bool };

    /// Prints a text, and makes everything printed so far visible.
    fn print(&mut self, text: &[u8])
        ensures { Prints contents whole text.now self.old self.new };

    /// Prints the part of a task whose execution has ended. The printed text is visible at once if
    /// the execution may have taken long.
    fn print_task(&mut self, alloc: Global, report: &TaskReport)
        ensures { Prints contents whole (task_text report.now) self.old self.new };

    /// Records that some text cannot be printed.
    fn give_up(&mut self)
        ensures kept { Keeps (contents self.old) (contents self.new) }
        ensures broken { whole self.new ≡ false };

    /// Whether everything that it was given is printed.
    fn is_whole(&self) -> bool
        ensures { result ≡ whole self.now };

    /// Takes a value that a build no longer needs, and drops it.
    fn finish<T: Drop>(value: T) {
        drop(value);
    }
}

/// A printer that prints nothing, as if the first text could not be printed.
#[derive(Drop)]
pub struct Silent;

impl Printer for Silent {
    ghost contents = { λ _. Some [] };

    ghost whole = { λ _. false };

    fn print(&mut self, _text: &[u8]) {}

    fn print_task(&mut self, _alloc: Global, _report: &TaskReport) {}

    fn give_up(&mut self) {}

    fn is_whole(&self) -> bool {
        false
    }
}
