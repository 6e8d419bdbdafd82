//! Printers, which print the result of a build while it runs.
//!
//! The printed text of a report is the parts of its tasks and then the rest: a part as soon as the
//! execution of its task has ended, the rest once the report is complete. A printer also decides
//! what happens to values that a build no longer needs: [`last::Last`], for a program that ends
//! after the build, does not drop them.
//!
//! A printer prints all that it is given, or a beginning and then nothing more (`Prints`). No call
//! of it fails; `is_whole` says whether everything was printed. `Page` prints to any writer,
//! `Silent` prints nothing. `parts_come_first` is the law that the text of a report is the parts of
//! its tasks, one after another, and then the rest.
//!
//! Set aside: a listener that prints, since it would keep all that it is notified of, and a lack of
//! memory for that would fail the build; and a flush after each part: only the parts of executed
//! and failed tasks are flushed, so before its end a build with nothing to do writes only when its
//! buffer is full.
#![tactic(auto)]

pub mod last;
pub mod laws;
pub mod page;
pub mod part;
pub mod printer;
