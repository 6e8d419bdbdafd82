//! What is read before a build.
ghost use Rattle.std.specs.Prelude.{◌≡◌, true, false, length, IfErr, IfOk};
ghost use Rattle.std.specs.List.{AllZip};
ghost use Rattle.gb_folder.specs.Calls.{OnlyReads};
ghost use Rattle.gb_plan.specs.Graph.{order};
ghost use Rattle.gb_records.specs.Answered.{WasAnswered};
ghost use Rattle.gb_records.specs.Said.{IsReadAt};
ghost use Rattle.gb_build.specs.Refusing.{IsUnread};

use gb_core::path::TaskPath;
use gb_folder::folder::Folder;
use gb_history::record::Record;
use gb_plan::plan::{Planned, paths_of};
use gb_records::stored_records::read_records;
use gb_report::fault::Fault;
use std::alloc::{AllocError, Global};

/// The records of these tasks as they are in the folder, in their order. In a dry run nothing is
/// read, and no task has a record.
pub fn records_for<F: Folder>(
    alloc: Global,
    folder: &mut F,
    tasks: &[Planned],
    dry_run: bool,
) -> Result<Vec<Option<Record>>, Fault>
    ensures each { IfOk result (λ records. length records.items ≡ length tasks.now) }
    ensures reads { OnlyReads F.device folder.old folder.new }
    // Over any folder: each record is what a call at its place returned.
    ensures answered { dry_run ≡ false → IfOk result (λ records. AllZip
        (WasAnswered F.device folder.old folder.new) (order tasks.now)
        records.items) }
    ensures dry { dry_run ≡ true → folder.new ≡ folder.old }
    ensures read { F.device.faithful folder.new → dry_run ≡ false → IfOk result
        (λ records. AllZip (IsReadAt (F.device.contents folder.old).files) (order tasks.now) records.items) }
    ensures unread { IfErr result
        (IsUnread dry_run (F.device.failures folder.old) (F.device.failures folder.new)) }
{
    let mut records = if dry_run {
        Vec::new(alloc)
    } else {
        read_records(alloc, folder, paths_of(alloc, tasks)?.as_slice())?
    };
    records.resize_with(tasks.len(), || None)?;
    Ok(records)
}
