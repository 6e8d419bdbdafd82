//! The output where there is no table of actions.
ghost use Rattle.std.specs.Prelude.{◌≡◌, IsTrue};
ghost use Rattle.std.specs.Io.KnownBytes.{Appends};
ghost use Rattle.gb_here.specs.Refused.{refused_text};

use gb_action::table::TableFault;
use gb_cli::program::UNPRINTED;
use std::io::Write;

/// Prints why there is no table, and returns the exit status of a refusal.
pub(crate) fn print_refusal<W: Write>(writer: &mut W, fault: TableFault) -> u8
    ensures { result ≡ UNPRINTED }
{
    let _ = print_refused(writer, fault);
    UNPRINTED
}

/// Prints why there is no table, and returns whether all of it was written.
pub fn print_refused<W: Write>(writer: &mut W, fault: TableFault) -> bool
    ensures { IsTrue result
        → Appends (W.contents writer.old) (W.contents writer.new) (refused_text fault) }
{
    writer.write_all(refused_text(fault)).is_ok() && writer.flush().is_ok()
}

/// The output: the fault under the number that users know, and that the build failed.
fn refused_text(fault: TableFault) -> &'static [u8]
    ensures { result.now ≡ refused_text fault }
{
    match fault {
        TableFault::DuplicateAction => b"REFUSED 41 duplicate action\nBUILD FAILED\n",
        TableFault::OutOfMemory => b"REFUSED 3 out of memory\nBUILD FAILED\n",
    }
}
