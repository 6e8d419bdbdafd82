//! Stored actions: the requests to them, their replies, and when a reply is right.
//!
//! An action is a value that some program stored: its kind, and a closure where the kind does not
//! have the code itself. The crates that use this one never inspect it: an action is known by the
//! number of its kind, and a kind by what the naming trait `Actions` declares for that number. The
//! one contract is `Answers`: a full reply is what the kind makes; a reply to changes leads from
//! what the kind made of the old files to what it makes of the new ones.
//!
//! Out of scope: a table that is generic in the type of the closures, since a struct with a bound
//! `Fn(..)` cannot store a closure together with a fact about it. So `Actions` has the stored type
//! as a member, and tables and lists store values of it with no bound at all.
//!
//! `Actions` names a type of stored actions and their `meanings`, with one law (`own_output`): a
//! kind writes files of its own output only, and none if its shape has no output. `run_action`: if
//! the call `IsAsked`, the reply `Answers`. No other call has a premise. Laws:
//! `full_replies_put_over` (a full reply leaves the same files over any old ones) and
//! `changes_are_exact` (a list of changes has each change of a tree, and no other).
#![tactic(auto)]

pub mod actions;
pub mod change;
pub mod files;
pub mod laws;
pub mod list;
pub mod output_files;
pub mod reply;
pub mod request;
pub mod run;
pub mod shape;
pub mod snapshot;
pub mod table;
pub mod values;
