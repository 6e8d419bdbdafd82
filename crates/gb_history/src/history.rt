//! The records of tasks.
ghost use Rattle.std.specs.Prelude.{◌≡◌, [], List, ℕ, IfOk, MatchResult, OnOk, OnErr};
ghost use Rattle.std.specs.List.{AllByRecursion};
ghost use Rattle.std.specs.Option.{option_copied};
ghost use Rattle.std.specs.BTreeMap.{insert_entry, is_at};
ghost use Rattle.std.specs.Map.{lookup, remove_entry};
ghost use Rattle.serde_json.specs.Written.{compact_text};
ghost use Rattle.gb_core.specs.Lists.{byte_order};
ghost use Rattle.gb_history.specs.Record.{Record as Recorded, AreHeld};
ghost use Rattle.gb_history.specs.Text.{history_json, history_text_in, history_text, RecordFits};
ghost use Rattle.gb_history.specs.Text.{IsHistoryText};
ghost use Rattle.gb_history.specs.declared.record.Edition.{Edition as Written};
ghost use Rattle.gb_history.specs.declared.fault.RecordFault.TheVariants.{OutOfMemory};

use crate::fault::RecordFault;
use crate::from_json::history_from;
use crate::record::{Edition, Record};
use crate::record_text::{is_same, json_in, sealed_json, unsealed};
use crate::to_json::write_history;
use gb_core::path::TaskPath;
use json::Writer;
use std::alloc::{AllocError, Global};
use std::collections::BTreeMap;
use std::marker::Model;

/// The last records of tasks, in the order of their paths.
#[derive(Drop)]
pub struct History {
    records: BTreeMap<TaskPath, Record>,
}

impl Model for History {
    ghost use Rattle.std.specs.Prelude.{List, ℕ};
    ghost use Rattle.gb_history.specs.Record.{Record as Recorded};

    ghost Value = { List (List ℕ × Recorded) };

    ghost view = { λ h. h.records.entries };
}

impl History {
    /// No records.
    pub fn new(alloc: Global) -> History
        ensures { result ≡ [] }
    {
        History {
            records: BTreeMap::new(alloc),
        }
    }

    /// The record of a task.
    pub fn last(&self, task: &TaskPath) -> Option<&Record>
        ensures { option_copied result ≡ lookup (is_at (byte_order task.now)) self.now }
    {
        self.records.get(task)
    }

    /// Stores a run's record, in place of an earlier one of the same task.
    pub fn put(&mut self, task: TaskPath, run: Record) -> Result<(), AllocError>
        ensures put { OnOk result (self.new ≡ insert_entry byte_order self.old task run) }
        ensures err { OnErr result (self.new ≡ self.old) }
    {
        self.records.insert(task, run)?;
        Ok(())
    }

    /// Drops the record of a task.
    pub fn forget(&mut self, task: &TaskPath)
        ensures { self.new ≡ remove_entry (is_at (byte_order task.now)) self.old }
    {
        self.records.remove(task);
    }

    /// All records, by the paths of their tasks.
    pub fn text(&self, alloc: Global) -> Result<Vec<u8>, AllocError>
        ensures text { IfOk result (λ text. text.items ≡ history_text self.now) }
        ensures held { OnOk result (AreHeld self.now) }
    {
        self.text_in(alloc, Edition::Second)
    }

    fn text_in(&self, alloc: Global, edition: Edition) -> Result<Vec<u8>, AllocError>
        ensures text { IfOk result (λ text. text.items ≡ history_text_in edition self.now) }
        ensures held { OnOk result (AreHeld self.now) }
    {
        let mut writer = Writer::new(Vec::new(alloc));
        write_history(&mut writer, edition, &self.records)?;
        sealed_json(writer)
    }

    /// The history with this text, in either edition; any other text gives 80.
    pub fn read(alloc: Global, bytes: &[u8]) -> Result<History, RecordFault>
        // The history that is read has the text.
        ensures exact { IfOk result (λ history. IsHistoryText history bytes.now) }
        ensures held { IfOk result AreHeld }
        // The text of a history is read as that history.
        ensures back { (records : List (List ℕ × Recorded)) → AreHeld records
            → IsHistoryText records bytes.now
            → MatchResult result (λ got. got ≡ records) (λ e. e ≡ OutOfMemory) }
    {
        let (edition, found) = parsed(alloc, unsealed(bytes))?;
        let text = found.text_in(alloc, edition)?;
        if !is_same(text.as_slice(), bytes) {
            return Err(RecordFault::NotARecord);
        }
        Ok(found)
    }

    /// Writes a history as its text and reads it back; the result is the same history.
    pub fn through_text(&self, alloc: Global) -> Result<History, RecordFault>
        ensures { MatchResult result (λ got. got ≡ self.now) (λ e. e ≡ OutOfMemory) }
    {
        let text = self.text(alloc)?;
        History::read(alloc, text.as_slice())
    }
}

/// The edition and the history that a JSON text encodes.
fn parsed(alloc: Global, json: &[u8]) -> Result<(Edition, History), RecordFault>
    ensures read { (edition : Written) (records : List (List ℕ × Recorded)) → AreHeld records
        → AllByRecursion (RecordFits edition) records → json.now ≡ compact_text (history_json edition records)
        → MatchResult result (λ got. (got.0 ≡ edition) × (got.1 ≡ records)) (λ e. e ≡ OutOfMemory) }
    ensures fits { IfOk result (λ got. AllByRecursion (RecordFits got.0) got.1) }
{
    let said = json_in(alloc, json)?;
    let found = history_from(alloc, said.0, &said.1)?;
    Ok((said.0, found))
}
