//! The built-in kinds of actions and functions of values, and the closures that implement them.
//!
//! The promise: a full reply has exactly the files that the kind's definition makes, and an
//! incremental one names only paths at which old and new files differ. [`builtin::Builtin`] gives
//! each kind, by its number, that meaning. Each kind is one plain function in `text_kinds.rt` or
//! `file_kinds.rt`, and each function of values one in `functions.rt`.
//!
//! A program boxes the functions and adds them to a table ([`table`], [`function_table`]). No
//! function here can make the boxes, since the facts known about a boxed closure would then depend
//! on that function's body.
//!
//! Kinds that work file by file share one reply, over all files or over the changed ones.
//! `wordIndex` computes its changes from the old index, the changes and the files that changed, in
//! n log n steps of their bytes, and never reads an unchanged file. It relies on the old index only
//! as far as the previous run made it.
#![tactic(auto)]

pub mod arguments;
pub mod builtin;
pub mod by_file;
mod carried;
pub mod edit;
pub mod file_kinds;
mod file_words;
pub mod function_table;
pub mod functions;
mod index;
pub mod known_names;
mod line_key;
pub mod one_file;
mod remade;
pub mod replaced;
pub mod request_files;
pub mod shapes;
pub mod stored;
pub mod table;
pub mod text_kinds;
