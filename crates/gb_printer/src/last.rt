//! The printer of the last build of a process.
ghost use Rattle.std.specs.Prelude.{◌≡◌};

use crate::printer::Printer;
use gb_report::report::TaskReport;
use std::alloc::Global;
use std::mem;

/// A printer that does not drop the values that a build no longer needs. Dropping all values of a
/// large build takes a twentieth of its time, and the system reclaims the memory of a process
/// anyway. Only a program that ends after the build may use it: elsewhere each build would leak its
/// plan, its records and its tasks.
#[derive(Drop)]
pub struct Last<P> {
    printer: P,
}

impl<P> Last<P> {
    /// Prints with this printer.
    pub fn new(printer: P) -> Last<P>
        ensures { result.printer ≡ printer }
    {
        Last { printer }
    }
}

impl<P: Printer> Printer for Last<P> {
    ghost contents = { λ last. P.contents last.printer };

    ghost whole = { λ last. P.whole last.printer };

    fn print(&mut self, text: &[u8]) {
        self.printer.print(text);
    }

    fn print_task(&mut self, alloc: Global, report: &TaskReport) {
        self.printer.print_task(alloc, report);
    }

    fn give_up(&mut self) {
        self.printer.give_up();
    }

    fn is_whole(&self) -> bool {
        self.printer.is_whole()
    }

    fn finish<T: Drop>(value: T) {
        mem::forget(value);
    }
}
