//! The program over a folder on a disk.
ghost use Rattle.std.specs.Prelude.{◌≡◌, ◌≤◌, [], IfSome, Result, map, string_bytes};
ghost use Rattle.std.specs.Io.KnownBytes.{Appends};
ghost use Rattle.gb_answer.specs.Answer.{answer_text, status_of};
ghost use Rattle.gb_cli.specs.Answered.{given_of};
ghost use Rattle.gb_disk.specs.Called.{calls_of};
ghost use Rattle.gb_printer.specs.Printing.{Prints};
ghost use Rattle.gb_registry.specs.Tables.{tables_of};
ghost use Rattle.gb_report.specs.declared.fault.Fault.{Fault};
ghost use Rattle.gb_report.specs.declared.report.Report.{Report};
ghost use Rattle.gb_here.specs.OnDisk.{IsBuiltAsSupposed, IsBuiltOnDisk};

use gb_action::actions::Actions;
use gb_answers::disk_calls::disk_folders_keep_calls;
use gb_answers::laws::answered_success_is_from_scratch;
use gb_cli::program::run;
use gb_disk::disk::DiskFolder;
use gb_printer::printer::Printer;
use gb_provider::transforms::Transforms;
use gb_registry::tables::Tables;
use gb_report::fault::Fault;
use std::alloc::Global;
use std::fs::Files;

/// Builds what the arguments request in a folder on a disk, as [`run`] does.
pub fn run_on_disk<A: Actions, T: Transforms, R: Files + Drop, W: Printer>(
    alloc: Global,
    folder: &mut DiskFolder<R>,
    words: Result<Vec<String>, Fault>,
    writer: &mut W,
    tables: &Tables<A, T>,
) -> Option<u8>
    ensures bounded { IfSome result (λ status. status ≤ 2) }
    // There is an answer to these arguments. Of any contents that were supposed and answer the calls
    // of the disk as it did, one after another, all holds that is promised of a folder with these
    // contents. With a status, the status is that of the answer, and on a page whose contents are
    // known its text and nothing else is printed; without one, a beginning of it. From a folder that
    // was asked for no call before, the calls are those of a build by the rules, given what they
    // returned (`IsBuiltOnDisk`).
    ensures built { (answer : Result Report Fault)
        × IsBuiltAsSupposed (tables_of T.meanings A.meanings tables.now)
        (given_of (λ words. map string_bytes words.items) words) answer folder.old folder.new
        × (calls_of folder.old ≡ [] → IsBuiltOnDisk (tables_of T.meanings A.meanings tables.now)
        (given_of (λ words. map string_bytes words.items) words) answer folder.old folder.new)
        × Prints W.contents W.whole (answer_text answer) writer.old writer.new
        × IfSome result (λ status.
        Appends (W.contents writer.old) (W.contents writer.new) (answer_text answer)
        × (status ≡ status_of answer)) }
{
    let status = run(alloc, folder, words, writer, tables);
    answered_success_is_from_scratch::<A, T, DiskFolder<R>>(tables);
    disk_folders_keep_calls::<R>();
    status
}
