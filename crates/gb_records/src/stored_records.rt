//! Reads records.
ghost use Rattle.std.specs.Prelude.{◌≡◌, ◌≤◌, ◌++◌, ◌∷◌, [], Option, Some, None, Ok, Err, length};
ghost use Rattle.std.specs.Prelude.{IfOk, IfErr, OnOk};
ghost use Rattle.std.specs.List.{AllZip, list_any};
ghost use Rattle.sha2.specs.Sha256.{sha256};
ghost use Rattle.gb_folder.specs.Calls.{OnlyReads};
ghost use Rattle.gb_history.specs.Places.{record_place};
ghost use Rattle.gb_history.specs.Record.{Record as Recorded};
ghost use Rattle.gb_history.specs.Text.{unsealed};
ghost use Rattle.gb_semantics.specs.Events.{max_record};
ghost use Rattle.gb_folder.specs.Changes.{is_at};
ghost use Rattle.gb_folder.specs.Faults.{Blames, BlamesOnly, IsOfMachine};
ghost use Rattle.gb_records.specs.Answered.{WasAnswered};
ghost use Rattle.gb_records.specs.Faults.{none_for};
ghost use Rattle.gb_records.specs.Said.{IsReadAs, IsReadAt};
ghost use Rattle.gb_records.specs.Texts.{IsRecordOf, IsStoredAt, IsTextAt, WasStoredAt};
ghost use Rattle.gb_records.specs.Texts.{WasTextAnswered, unsealed_in};

use gb_core::bytes::Bytes;
use gb_core::path::TaskPath;
use gb_core::place::{Place, PlaceFault};
use gb_folder::calls::read;
use gb_folder::folder::{Folder, FolderFault};
use gb_history::fault::RecordFault;
use gb_history::record::Record;
use gb_history::record_place::record_place;
use gb_history::record_text::{RecordReader, unsealed};
use gb_lanes::digest_four;
use gb_report::fault::Fault;
use sha2::{Digest, Sha256};
use std::alloc::Global;
use std::marker::Model;

/// The most bytes that a record's text may have: 64 MiB.
pub(crate) const MAX_RECORD: u64 = 64 * 1024 * 1024;

/// The records of these tasks, in their order. A task has none if there is no file at its record's
/// place, or the file is no record of this task.
pub fn read_records<F: Folder>(
    alloc: Global,
    folder: &mut F,
    paths: &[TaskPath],
) -> Result<Vec<Option<Record>>, Fault>
    ensures reads { OnlyReads F.device folder.old folder.new }
    ensures blame { Blames result (F.device.failures folder.old) (F.device.failures folder.new) }
    ensures blamed { BlamesOnly (λ place. list_any (λ path. is_at (record_place path) place) paths.now)
        result }
    ensures read { F.device.faithful folder.new → IfOk result
        (λ records. AllZip (IsReadAt (F.device.contents folder.old).files) paths.now records.items) }
    // Over any folder: each record is what a call at its place answered.
    ensures answered { IfOk result (λ records. AllZip
        (WasAnswered F.device folder.old folder.new) paths.now records.items) }
    ensures err { IfErr result (IsOfMachine (F.device.failures folder.old) (F.device.failures folder.new)) }
{
    let mut reader = RecordReader::new(alloc);
    let mut records = Vec::new(alloc);
    let mut rest = paths;
    'fours: while let Some((four, others)) = rest.split_first_chunk::<4>() {
        let mut found = read_some(alloc, folder, four, &mut reader)?;
        records.append(&mut found)?;
        rest = others;
    }
    let mut found = read_some(alloc, folder, rest, &mut reader)?;
    records.append(&mut found)?;
    Ok(records)
}

/// The records of some tasks, whose texts are in memory at the same time.
fn read_some<F: Folder>(
    alloc: Global,
    folder: &mut F,
    paths: &[TaskPath],
    reader: &mut RecordReader,
) -> Result<Vec<Option<Record>>, Fault>
    ensures reads { OnlyReads F.device folder.old folder.new }
    ensures blame { Blames result (F.device.failures folder.old) (F.device.failures folder.new) }
    ensures blamed { BlamesOnly (λ place. list_any (λ path. is_at (record_place path) place) paths.now)
        result }
    ensures read { F.device.faithful folder.new → IfOk result
        (λ records. AllZip (IsReadAt (F.device.contents folder.old).files) paths.now records.items) }
    ensures answered { IfOk result (λ records. AllZip
        (WasAnswered F.device folder.old folder.new) paths.now records.items) }
    ensures err { IfErr result (IsOfMachine (F.device.failures folder.old) (F.device.failures folder.new)) }
{
    let texts = read_texts(alloc, folder, paths)?;
    let records = records_in(alloc, reader, texts.as_slice());
    drop(texts);
    records
}

/// The texts of the records of these tasks, in their order.
fn read_texts<'a, F: Folder>(
    alloc: Global,
    folder: &mut F,
    paths: &'a [TaskPath],
) -> Result<Vec<StoredText<'a>>, Fault>
    ensures reads { OnlyReads F.device folder.old folder.new }
    ensures blame { Blames result (F.device.failures folder.old) (F.device.failures folder.new) }
    ensures blamed { BlamesOnly (λ place. list_any (λ path. is_at (record_place path) place) paths.now)
        result }
    ensures read { F.device.faithful folder.new → IfOk result
        (λ texts. AllZip (IsStoredAt (F.device.contents folder.old).files) paths.now texts.items) }
    ensures answered { IfOk result (λ texts. AllZip
        (WasStoredAt F.device folder.old folder.new) paths.now texts.items) }
    ensures err { IfErr result (IsOfMachine (F.device.failures folder.old) (F.device.failures folder.new)) }
{
    let mut texts = Vec::new(alloc);
    for path in paths {
        let bytes = read_text(alloc, folder, path)?;
        texts.push(StoredText { path, bytes })?;
    }
    Ok(texts)
}

/// The text of a task's record; none if there is no file that can be one.
fn read_text<F: Folder>(
    alloc: Global,
    folder: &mut F,
    path: &TaskPath,
) -> Result<Option<Bytes>, Fault>
    ensures reads { OnlyReads F.device folder.old folder.new }
    ensures blame { Blames result (F.device.failures folder.old) (F.device.failures folder.new) }
    ensures blamed { BlamesOnly (is_at (record_place path.now)) result }
    ensures read { F.device.faithful folder.new → IfOk result (IsTextAt (F.device.contents folder.old).files
        path.now) }
    ensures answered { IfOk result
        (WasTextAnswered F.device folder.old folder.new path.now) }
    ensures err { IfErr result (IsOfMachine (F.device.failures folder.old) (F.device.failures folder.new)) }
{
    let place = match record_place(alloc, path) {
        Ok(place) => place,
        Err(fault) => return none_if_no_place(fault),
    };
    match read(alloc, folder, &place, MAX_RECORD) {
        Ok(bytes) => Ok(Some(Bytes::new(bytes))),
        Err(fault) => none_if_missing(fault, place),
    }
}

/// No text, if there is no place for one.
fn none_if_no_place(fault: PlaceFault) -> Result<Option<Bytes>, Fault>
    ensures bad { fault ≡ PlaceFault.BadPlace → result ≡ Ok None }
    ensures out { fault ≡ PlaceFault.OutOfMemory → result ≡ Err Fault.OutOfMemory }
{
    match fault {
        PlaceFault::BadPlace => Ok(None),
        PlaceFault::OutOfMemory => Err(Fault::OutOfMemory),
    }
}

/// No text, if there is no file of at most 64 MiB.
fn none_if_missing(fault: FolderFault, place: Place) -> Result<Option<Bytes>, Fault>
    ensures { result ≡ none_for place fault }
{
    match fault {
        FolderFault::OutOfMemory => Err(Fault::OutOfMemory),
        FolderFault::Device => Err(Fault::Device(place)),
        FolderFault::Missing
        | FolderFault::Blocked
        | FolderFault::TooLarge
        | FolderFault::BadFileName => Ok(None),
    }
}

/// The records that some texts are read as. What the seals of four are of is digested together.
fn records_in(
    alloc: Global,
    reader: &mut RecordReader,
    texts: &[StoredText<'_>],
) -> Result<Vec<Option<Record>>, Fault>
    ensures read { IfOk result (λ records. AllZip IsRecordOf texts.now records.items) }
    ensures err { IfErr result (λ fault. fault ≡ Fault.OutOfMemory) }
{
    match texts {
        [first, second, third, fourth] => {
            four_records(alloc, reader, first, second, third, fourth)
        }
        _ => each_record(alloc, reader, texts),
    }
}

/// The records that four texts are read as.
fn four_records(
    alloc: Global,
    reader: &mut RecordReader,
    first: &StoredText<'_>,
    second: &StoredText<'_>,
    third: &StoredText<'_>,
    fourth: &StoredText<'_>,
) -> Result<Vec<Option<Record>>, Fault>
    ensures read { IfOk result (λ records. AllZip IsRecordOf
        (first.now ∷ second.now ∷ third.now ∷ fourth.now ∷ []) records.items) }
    ensures err { IfErr result (λ fault. fault ≡ Fault.OutOfMemory) }
{
    let digests = digest_four(
        first.unsealed(),
        second.unsealed(),
        third.unsealed(),
        fourth.unsealed(),
    );
    let mut records = Vec::with_capacity(alloc, 4)?;
    push_record(reader, &mut records, first, digests[0])?;
    push_record(reader, &mut records, second, digests[1])?;
    push_record(reader, &mut records, third, digests[2])?;
    push_record(reader, &mut records, fourth, digests[3])?;
    Ok(records)
}

/// The records that these texts are read as, one after another.
fn each_record(
    alloc: Global,
    reader: &mut RecordReader,
    texts: &[StoredText<'_>],
) -> Result<Vec<Option<Record>>, Fault>
    ensures read { IfOk result (λ records. AllZip IsRecordOf texts.now records.items) }
    ensures err { IfErr result (λ fault. fault ≡ Fault.OutOfMemory) }
{
    let mut records = Vec::new(alloc);
    for text in texts {
        let digest = Sha256::digest(text.unsealed());
        push_record(reader, &mut records, text, digest)?;
    }
    Ok(records)
}

/// Appends the record that a text is read as; its seal is of bytes with this digest.
fn push_record(
    reader: &mut RecordReader,
    records: &mut Vec<Option<Record>>,
    text: &StoredText<'_>,
    digest: [u8; 32],
) -> Result<(), Fault>
    requires { digest ≡ sha256 (unsealed_in text.now.1) }
    ensures read { OnOk result ((read : Option Recorded) × IsRecordOf text.now read
        × (records.new.items ≡ records.old.items ++ read ∷ [])) }
    ensures err { IfErr result (λ fault. fault ≡ Fault.OutOfMemory) }
{
    let read = text.record(reader, digest)?;
    records.push(read)?;
    Ok(())
}

/// What was read at the place of a task's record.
#[derive(Drop)]
struct StoredText<'a> {
    /// The path of the task.
    path: &'a TaskPath,
    /// The bytes of the file; none if there is no file that can be a record.
    bytes: Option<Bytes>,
}

impl<'a> Model for StoredText<'a> {
    ghost use Rattle.std.specs.Prelude.{Option};
    ghost use Rattle.gb_folder.specs.Files.{Bytes as Content};
    ghost use Rattle.gb_plan.specs.Task.{Path};

    ghost Value = { Path × Option Content };

    ghost view = { λ t. (t.path.now, t.bytes) };
}

impl<'a> StoredText<'a> {
    /// What the seal is of, if there are bytes.
    fn unsealed(&self) -> &[u8]
        ensures { result.now ≡ unsealed_in self.now.1 }
    {
        match &self.bytes {
            Some(bytes) => unsealed(bytes.as_slice()),
            None => &[],
        }
    }

    /// The record that this is read as, if the digest is that of what the seal is of.
    fn record(&self, reader: &mut RecordReader, digest: [u8; 32]) -> Result<Option<Record>, Fault>
        requires { digest ≡ sha256 (unsealed_in self.now.1) }
        ensures read { IfOk result (IsRecordOf self.now) }
        ensures err { IfErr result (λ fault. fault ≡ Fault.OutOfMemory) }
    {
        match &self.bytes {
            Some(bytes) => record_in(reader, self.path, bytes.as_slice(), digest),
            None => Ok(None),
        }
    }
}

/// The record of a task that has these bytes as its text.
fn record_in(
    reader: &mut RecordReader,
    path: &TaskPath,
    bytes: &[u8],
    digest: [u8; 32],
) -> Result<Option<Record>, Fault>
    requires { digest ≡ sha256 (unsealed bytes.now) }
    ensures read { length bytes.now ≤ max_record → IfOk result (IsReadAs path.now (Some bytes.now)) }
    ensures err { IfErr result (λ fault. fault ≡ Fault.OutOfMemory) }
{
    match reader.read(path, bytes, digest) {
        Ok(run) => Ok(Some(run)),
        Err(RecordFault::OutOfMemory) => Err(Fault::OutOfMemory),
        Err(RecordFault::NotARecord) => Ok(None),
    }
}
