//! The records of tasks as files in a folder: read before a build, deleted as a task's run begins,
//! and stored as it ends.
//!
//! `read_records` reads the records of tasks in their order. A file that is missing, blocked or too
//! large (11, 12, 13) is no record. `delete_record` deletes the record of a task, and
//! `store_record` stores one. A fault of these two is 3 or 90, never one of the device (10).
//! Over any folder, a record that was read is one whose text a call at its place returned. If the
//! folder's contents are known, the clauses (`exists`) say which records there are after each call.
//! This holds also after a write that was stopped, if what it left is not taken for a complete
//! record.
//!
//! `IsAssumed` has what the crates above assume besides known contents: kinds that agree with the
//! table of actions, and that a torn record is recognised. `setting_by` says what a build is about,
//! with records as they are.
//!
//! What was set aside: `docs/DECISIONS.md#records`.
#![tactic(auto)]

pub mod fault;
pub mod keeping;
pub mod laws;
pub mod stored_records;
