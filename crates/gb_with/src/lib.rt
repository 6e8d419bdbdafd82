//! A program's own kinds, which it combines with the built-in ones and with each other.
//!
//! Each trait of the table gives a kind. Its signature, what it makes and prints, its replies to
//! changes, and the fact that it writes only to its own output are proved here, once.
//! [`both::Both`] combines two implementations of `Actions` and of functions, so that one table
//! holds the kinds of all; `beside` joins two tables.
//!
//! `docs/EMBEDDING.md` shows all of it in use.
//!
//! | You write | You get | It |
//! |---|---|---|
//! | a `FileKind` | `ByFile<K>` | makes a file of each file, in full or incrementally |
//! | a `TryFileKind` | `TryByFile<K>` | makes a file of each file, all again after any change; fails |
//! | | | with the failure of the first file, its path in front |
//! | a `Renaming` | `OfTrees<Renamed<K>>` | makes each file at a path of its own; fails if a file has no |
//! | | | path, or two have one |
//! | a `TreeKind` | `OfTrees<K>` | makes files of arguments and all files; its failure is a text |
//! | a `CheckKind` | `Checks<K>` | makes no file, and fails with what it finds |
//!
//! `ByFile` and `TryByFile` print a line for each change, `OfTrees` prints none. Asked for changes,
//! `TryByFile` and `OfTrees` make all files, write those that differ, and remove those
//! that are no longer made (`IsRecheck`).
//!
//! Set aside: a `FileKind` that may fail, since a reply to changes would not be right if a file
//! that did not change failed; an incremental `Renaming`, since whether two files have one path
//! depends on all of them; and a ghost field in a stored action in place of its model with an
//! invariant, since a ghost field of a struct that owns memory cannot cite a bound.
#![tactic(auto)]

pub mod beside;
pub mod both;
pub mod by_file;
pub mod file_kind;
mod functions;
pub mod of_trees;
mod remaking;
pub mod renamed;
mod stored;
pub mod tree_kind;
pub mod try_by_file;
pub mod try_file_kind;
