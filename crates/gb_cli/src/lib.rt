//! What the program `gb` does, over any folder: a build by the arguments of a command line.
//!
//! The promise of [`run`](crate::program::run): the answer is a refusal of the arguments with
//! nothing changed, or that of one build of what they request; the returned status is that of the
//! answer, and the whole text of the answer was printed. If none is returned, a beginning of that
//! text was printed.
//!
//! How it works: `gb_arguments` reads the arguments, `gb_build` builds and prints the part of each
//! task, and `gb_answer` prints the rest and gives the status.
//!
//! Out of scope: the current directory, the arguments of the process and the locks, which `gb_here`
//! adds. So one contract holds over any folder, and tests run the program over one in memory.
#![tactic(auto)]

pub mod program;
