//! Builds of the current directory, for programs with any kinds of actions.
//!
//! A program makes its tables and passes them to [`here::build_here`]. That reads the arguments of
//! the command, builds the folder on the disk as they request, prints the output and returns the
//! exit status. `gb` is such a program with only the built-in kinds, and prints no more than this
//! crate does.
//!
//! [`on_disk::run_on_disk`] says what such a build does, whatever the disk returns
//! (`IsBuiltOnDisk`): its calls are those of a build by the rules, given what they returned; and of
//! any contents that answer these calls in the same way, all holds that is promised of a folder with
//! known contents (`KeepsPromise` of `gb_build`). That `build_here` calls it with a new folder, the
//! program's arguments and its tables is to be read in `here.rt`.
//!
//! One build at a time works in a folder. No contract says so: it is tested. A build holds the
//! system's locks on the folder itself and on the folders of its projects, in the order of
//! projects, from before it reads a script until its output is printed. It waits where another
//! build holds one. No file is made for a lock, and the system releases it with the process. A dry
//! run, refused arguments and refused tables take none.
//!
//! `locks` takes the same locks for other programs that write in the folder. If two kinds have one
//! name (41) or memory runs out (3), there is no table, and `print_refused` prints the refusal. The
//! exit status is at most 2.
//!
//! What was set aside: `docs/DECISIONS.md#programs`.
#![tactic(auto)]

pub mod arguments;
pub mod here;
pub mod lock;
pub mod on_disk;
pub mod refused;
