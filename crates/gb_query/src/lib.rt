//! Queries over registered tasks and over the records of a folder: which tasks there are, which
//! read a place and which make it, and what each file of `.gb` is.
//!
//! The promise: a query finds exactly what its definition says, in the order of registration or of
//! places, and asks for no change of the folder. Answers are lines, or JSON that reads back as the
//! value of a definition (`found_data`, `status_data`, `tasks_data`); so is the graph of a plan
//! (`graph_data`).
//!
//! A task reads a place if one of its file properties takes it in, whether a file is there or not:
//! the same definition by which builds read files.
//!
//! - `search` finds, in the order of registration, exactly the file properties that take a place
//!   in, or the outputs that are the place or above it (`found_in`). A task whose declaration has a
//!   fault is found with it, so the only error is that memory ran out. The law `files_are_taken_in`
//!   says that the files of a property, as builds read them, are those whose places it takes in.
//! - `inventory` has an entry for exactly each file under `.gb`, in the order of places
//!   (`AreEntriesOf`): the record of a registered task or of another one, a damaged one, or a file
//!   that is no record's. That is said where contents are known. Over any folder it asks for no
//!   change. An error is that memory ran out, that the device failed, or that a file there has a
//!   name that no place has (`IsUnlisted`).
//!
//! The calls on all tasks have as premise that the paths are those of the registry.
//!
//! Out of scope: whether a task would be executed, and why (`gb_predict`); what is wrong with its
//! declaration (`gb_check`); and pictures of a plan (`gb_picture`).
#![tactic(auto)]

pub mod answer_lines;
pub mod answers;
pub mod at_place;
pub mod defaults;
pub mod drawn;
pub mod inventory;
pub mod laws;
pub mod listing_lines;
pub mod listing_objects;
pub mod membership;
pub mod notation;
pub mod objects;
pub mod owner;
pub mod query_place;
