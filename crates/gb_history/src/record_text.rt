//! Writes the text of a record, reads a record from its text, and has what the text of a whole
//! history needs of both.
ghost use Rattle.std.specs.Prelude.{◌≡◌, ◌++◌, [], List, ℕ, IfOk, OnOk, IsTrue, IfSome};
ghost use Rattle.std.specs.Prelude.{OnSome, MatchResult, ◌↔◌};
ghost use Rattle.std.specs.List.{AllByRecursion};
ghost use Rattle.std.specs.Str.{IsUtf8};
ghost use Rattle.serde_json.specs.View.{view};
ghost use Rattle.serde_json.specs.Written.{compact_text};
ghost use Rattle.sha2.specs.Sha256.{sha256};
ghost use Rattle.gb_history.specs.Record.{Record as Recorded, IsWellFormed, IsSaid};
ghost use Rattle.gb_history.specs.Text.{history_json, record_json, record_text, text_in, history_text_in};
ghost use Rattle.gb_history.specs.Text.{seal, sealed, unsealed, FitsEdition, IsRecordRead, IsTextOf};
ghost use Rattle.gb_history.specs.Text.{TextsHaveOneRecord, TextsHaveOneHistory};
ghost use Rattle.gb_history.specs.Tokens.{data_tokens};
ghost use Rattle.gb_history.specs.declared.record.Edition.{Edition as Written};
ghost use Rattle.gb_history.specs.declared.fault.RecordFault.TheVariants.{OutOfMemory};

use crate::direct::record_in;
use crate::fault::RecordFault;
use crate::from_json::{edition_from, json_from, record_from};
use crate::record::{Edition, Record};
use crate::to_json::{digits_of, write_record};
use gb_core::path::TaskPath;
use json::{Scratch, Writer};
use serde_json::Value as Json;
use sha2::{Digest, Sha256};
use std::alloc::{AllocError, Global};

/// An upper bound for the length of most records' texts.
const USUAL_LENGTH: usize = 1024;

/// A JSON text, a line feed, its digest in hex, a line feed.
fn sealed_text(json: Vec<u8>) -> Result<Vec<u8>, AllocError>
    ensures { IfOk result (λ text. text.items ≡ sealed json.items) }
{
    let digits = digits_of(Sha256::digest(json.as_slice()));
    let mut text = json;
    text.push(b'\n')?;
    text.extend_from_slice(&digits)?;
    text.push(b'\n')?;
    Ok(text)
}

/// The JSON of records.
fn written(writer: Writer) -> Vec<u8>
    ensures { (edition : Written) (records : List (List ℕ × Recorded)) → writer.before ≡ []
        → writer.tokens ≡ data_tokens (history_json edition records)
        → result.items ≡ compact_text (history_json edition records) }
{
    writer.into_inner()
}

/// The sealed text of records as JSON.
pub(crate) fn sealed_json(writer: Writer) -> Result<Vec<u8>, AllocError>
    ensures { (edition : Written) (records : List (List ℕ × Recorded)) → writer.before ≡ []
        → writer.tokens ≡ data_tokens (history_json edition records)
        → IfOk result (λ text. text.items ≡ history_text_in edition records) }
{
    sealed_text(written(writer))
}

/// The JSON of the record of a task in an edition, with room for so many bytes from the start.
fn json_of(
    alloc: Global,
    edition: Edition,
    path: &TaskPath,
    run: &Record,
    room: usize,
) -> Result<Vec<u8>, AllocError>
    ensures json { IfOk result
        (λ json. json.items ≡ compact_text (record_json edition path.now run.now)) }
    ensures held { OnOk result (IsWellFormed run.now) }
    ensures utf8 { OnOk result (IsUtf8 path.now) }
{
    let mut writer = Writer::new(Vec::with_capacity(alloc, room)?);
    write_record(&mut writer, edition, path, run)?;
    Ok(written(writer))
}

/// The text of the record of a task in an edition, with room for so many bytes from the start.
fn text_in(
    alloc: Global,
    edition: Edition,
    path: &TaskPath,
    run: &Record,
    room: usize,
) -> Result<Vec<u8>, AllocError>
    ensures text { IfOk result (λ text. text.items ≡ text_in edition path.now run.now) }
    ensures held { OnOk result (IsWellFormed run.now) }
    ensures utf8 { OnOk result (IsUtf8 path.now) }
{
    sealed_text(json_of(alloc, edition, path, run, room)?)
}

/// The text of the record of a task.
pub fn record_text(alloc: Global, path: &TaskPath, run: &Record) -> Result<Vec<u8>, AllocError>
    ensures text { IfOk result (λ text. text.items ≡ record_text path.now run.now) }
    ensures held { OnOk result (IsWellFormed run.now) }
    ensures utf8 { OnOk result (IsUtf8 path.now) }
{
    text_in(alloc, Edition::Second, path, run, USUAL_LENGTH)
}

/// Whether two texts have the same bytes.
pub fn is_same(left: &[u8], right: &[u8]) -> bool
    ensures { IsTrue result ↔ (left.now ≡ right.now) }
{
    left == right
}

/// The bytes of a text over which its seal is computed: those before its last 66.
pub fn unsealed(bytes: &[u8]) -> &[u8]
    ensures { result.now ≡ unsealed bytes.now }
{
    &bytes[..bytes.len().saturating_sub(66)]
}

/// A JSON text, and the edition that it declares.
pub(crate) fn json_in(alloc: Global, json: &[u8]) -> Result<(Edition, Json), RecordFault>
    ensures { (edition : Written) (records : List (List ℕ × Recorded)) → AllByRecursion IsSaid records
        → json.now ≡ compact_text (history_json edition records)
        → MatchResult result (λ got. (got.0 ≡ edition) × (view got.1 ≡ history_json edition records))
        (λ e. e ≡ OutOfMemory) }
{
    let json = json_from(alloc, json)?;
    let Some(edition) = edition_from(&json) else {
        return Err(RecordFault::NotARecord);
    };
    Ok((edition, json))
}

/// The edition and the record that a JSON text encodes.
fn parsed(alloc: Global, json: &[u8]) -> Result<(Edition, Record), RecordFault>
    ensures read { (edition : Written) (path : List ℕ) (run : Recorded) → IsUtf8 path → IsWellFormed run
        → AllByRecursion (FitsEdition edition) run.actions
        → json.now ≡ compact_text (record_json edition path run)
        → MatchResult result (λ got. (got.0 ≡ edition) × (got.1 ≡ run)) (λ e. e ≡ OutOfMemory) }
    ensures fits { IfOk result (λ got. AllByRecursion (FitsEdition got.0) got.1.actions) }
{
    let said = json_in(alloc, json)?;
    let found = record_from(alloc, said.0, &said.1)?;
    Ok((said.0, found))
}

/// Whether a text ends with the seal that a digest gives.
fn has_seal(bytes: &[u8], digest: [u8; 32]) -> bool
    ensures { IsTrue result → bytes.now ≡ unsealed bytes.now ++ seal digest }
{
    let (_, end) = bytes.split_at(bytes.len().saturating_sub(66));
    let digits = digits_of(digest);
    match end {
        [b'\n', middle @ .., b'\n'] => is_same(middle, &digits),
        _ => false,
    }
}

/// The record that is read by a tree of its JSON, in either edition.
fn read_by_tree(alloc: Global, path: &TaskPath, bytes: &[u8]) -> Result<Record, RecordFault>
    ensures exact { IfOk result (λ run. IsTextOf path.now run bytes.now) }
    ensures utf8 { OnOk result (IsUtf8 path.now) }
    ensures held { IfOk result IsWellFormed }
    ensures back { (run : Recorded) → IsUtf8 path.now → IsWellFormed run → IsTextOf path.now run bytes.now
        → MatchResult result (λ got. got ≡ run) (λ e. e ≡ OutOfMemory) }
{
    let (edition, found) = parsed(alloc, unsealed(bytes))?;
    let text = text_in(alloc, edition, path, &found, bytes.len())?;
    if !is_same(text.as_slice(), bytes) {
        return Err(RecordFault::NotARecord);
    }
    Ok(found)
}

/// Reads records, one after another, with the same working memory.
#[derive(Drop)]
pub struct RecordReader {
    alloc: Global,
    scratch: Scratch,
}

impl RecordReader {
    /// A reader whose working memory is empty.
    pub fn new(alloc: Global) -> RecordReader {
        RecordReader {
            alloc,
            scratch: Scratch::new(alloc),
        }
    }

    /// The record of a task with this text, in either edition; any other text gives 80. The digest
    /// is the SHA-256 of the text without its seal, which is its last 66 bytes (`unsealed`).
    pub fn read(
        &mut self,
        path: &TaskPath,
        bytes: &[u8],
        digest: [u8; 32],
    ) -> Result<Record, RecordFault>
        requires { digest ≡ sha256 (unsealed bytes.now) }
        ensures { IsRecordRead path.now bytes.now result }
    {
        match self.read_directly(path, bytes, digest) {
            Some(found) => Ok(found),
            None => read_by_tree(self.alloc, path, bytes),
        }
    }

    /// The record that is read without a tree, where this is its text in today's form.
    fn read_directly(&mut self, path: &TaskPath, bytes: &[u8], digest: [u8; 32]) -> Option<Record>
        requires { digest ≡ sha256 (unsealed bytes.now) }
        ensures exact { IfSome result (λ run. bytes.now ≡ record_text path.now run) }
        ensures utf8 { OnSome result (IsUtf8 path.now) }
        ensures held { IfSome result IsWellFormed }
    {
        if !has_seal(bytes, digest) {
            return None;
        }
        let json = unsealed(bytes);
        let found = record_in(self.alloc, json, &mut self.scratch)?;
        let Ok(text) = json_of(self.alloc, Edition::Second, path, &found, json.len()) else {
            return None;
        };
        if is_same(text.as_slice(), json) {
            Some(found)
        } else {
            None
        }
    }
}

/// The record of a task with this text, as a [`RecordReader`] reads it.
pub fn read_record(alloc: Global, path: &TaskPath, bytes: &[u8]) -> Result<Record, RecordFault>
    ensures { IsRecordRead path.now bytes.now result }
{
    let digest = Sha256::digest(unsealed(bytes));
    RecordReader::new(alloc).read(path, bytes, digest)
}

/// Writes a record as its text and reads it back; the result is the same record.
pub fn through_text(alloc: Global, path: &TaskPath, run: &Record) -> Result<Record, RecordFault>
    ensures { MatchResult result (λ got. got ≡ run.now) (λ e. e ≡ OutOfMemory) }
{
    let text = record_text(alloc, path, run)?;
    read_record(alloc, path, text.as_slice())
}

/// A text is that of at most one record of a task.
pub fn texts_have_one_record()
    ensures { TextsHaveOneRecord }
{}

/// A text is that of at most one history.
pub fn texts_have_one_history()
    ensures { TextsHaveOneHistory }
{}
