//! The record of a task: a small file that ends with its own digest; its text, and the decision
//! that it gives.
//!
//! The promise: a record is read only from exactly the text that is written of it, in one of the
//! editions (`IsTextOf`). So a damaged, foreign or half-written text is no record, and the task
//! is executed in full. [`decide`] chooses up to date, incremental or full, for any record and any
//! present state.
//!
//! A record has the digests of what its run read and made, not the contents. It is written as
//! compact JSON by a token writer. The reader of today's form ([`direct`]) has no contract of its
//! own: what it returns counts only if its text, printed again, is the text that was read.
//! `serde_json` reads all other texts.
//!
//! A text that is no record is 80, a number that users never see. `History` holds the records of
//! all tasks, with a text of its own. Laws: a text has one meaning (`texts_have_one_record`,
//! `texts_have_one_history`), a record read back from its text is the same, two tasks have two
//! places, and no place is under another (`places_are_distinct`, `no_place_beneath`).
//!
//! Set aside: one file for all records, since a damaged text would cost all tasks and the end of
//! each task would rewrite all records; whole contents in a record, since no folder holds those of
//! a past run; and `serde_json` alone as the reader. It is kept for all other texts, since only it
//! distinguishes a text that is no record from a lack of memory.
#![tactic(auto)]

pub mod decide;
mod direct;
pub mod fault;
mod from_json;
pub mod history;
mod in_order;
pub mod record;
pub mod record_place;
pub mod record_text;
pub mod same;
mod to_json;
