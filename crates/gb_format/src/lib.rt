//! Formats scripts and settings: only white space changes, and the blanks at the ends of comments.
//!
//! The promise, of [`format_script`] and [`format_settings`]: the result has the same comments and
//! tokens in one order, so it is the same script; to format it again changes nothing; and at most
//! one line in a row is empty. An error is the fault of reading the script, 21 if the formatted
//! text has more than 1 MiB, or a lack of memory.
//!
//! The text is cut into comments and tokens, and each is put after white space that a rule chooses:
//! the rules are a table in `specs/Rules.antt`, whose head has the layout in words. Comments keep
//! their position, on a line of their own or after what precedes them. Statements and clauses begin
//! a line and keep an empty line before them. A list that does not fit in 100 columns has an
//! element on each line. Each token is visited once and looks at most 100 columns ahead.
//!
//! Not promised: that each line fits, since a long text or comment stays whole. Set aside: to print
//! the tree that the reader makes, which has no comments.
#![tactic(auto)]

mod cutting;
mod fits;
mod formatting;
mod kind;
mod leading_word;
mod rule;
mod state;
mod writing;

pub use formatting::{format_script, format_settings};
