//! Parses build scripts: from the bytes of a text to its statements.
//!
//! `read_script` and `read_settings` are the public API. Their contracts rest on two definitions
//! that share nothing with the code: the tokens of a text (`specs/Lexing.antt`), and the tokens
//! that the grammar derives from a script (`specs/Grammar.antt`, `specs/Fits.antt`). A script that
//! is returned is one that the bytes parse as, and a script that they parse as is returned. A fault
//! is the first in the text and is reported with its line: no script has that token after the ones
//! before it, or it passes a limit (`specs/Verdict.antt`, `specs/Notation.antt`). Bytes never have
//! two meanings (`bytes_have_one_meaning`).
//!
//! There are two phases: `lexing` cuts the text into tokens with their lines; `part_readers`,
//! `value_reader`, `clauses` and `statements` have a function for each part of the notation.
//!
//! Set aside: tokens that borrow from the text, since contracts would then have to mention their
//! positions; reading characters without tokens, since a fault is reported by its token; continuing
//! after a fault, since only the first one counts.
//!
//! The faults are 20 to 23. `read_script_lines` reads the tokens once more for the lines of
//! statements and clauses, so `read_script` does not pay for lines.
#![tactic(auto)]

mod clauses;
pub mod fault;
pub mod function;
mod keywords;
pub mod laws;
pub mod lexing;
mod lines;
mod part_readers;
pub mod script;
pub mod script_expression;
mod source;
mod statements;
pub mod token;
mod token_fault;
mod value_reader;

pub use lines::{StatementLines, read_script_lines};
pub use source::{MAX_SCRIPT, read_script, read_settings};
