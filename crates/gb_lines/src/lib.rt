//! Lines of edits and builds, replayed over a folder in memory.
//!
//! `replay` replays the lines of an input over an empty folder in memory, and returns the status.
//! It exists so that worked builds and the examples of the documents are one input of one program.
//!
//! Proved: how the escapes of a text are undone (`unescaped`), what is printed of each answer
//! (`answer_text`) and of the files at a place (`shown_files`), that the parts of a build's tasks
//! are printed first (`parts_of`), and that a bad line is reported by its number, counted from 1.
//! Only tests check how a line is split into its words, and how the lines follow one another.
//!
//! How it works: the whole input is read, up to 64 MiB. Each line is an edit (`put`, `del`,
//! `lost`), a build (`run`) or a question (`show`), and the first bad line ends the replay.
//!
//! Out of scope: a folder on a disk, and calls that fail. `gb_builds_tests` has the latter.
#![tactic(auto)]

mod answer_text;
mod line;
pub mod replay;
mod show;
pub mod stop;
