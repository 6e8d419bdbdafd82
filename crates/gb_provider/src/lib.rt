//! Lazy values: properties, outputs of tasks, what functions make of them, and the tasks that they
//! come from.
//!
//! A script declares how values depend on each other before any is known. So an expression is a
//! node of a table ([`providers::Providers`]) that names its operands by their numbers, and a value
//! is computed when it is read.
//!
//! The promise: a read returns what the definition gives. The definition has rounds: in round n
//! each expression is evaluated with the values that its operands had after round n - 1, and has a
//! value if these suffice. An expression that never gets one runs into a circle of expressions that
//! wait for one another, and 30 is reported with the names on it: the least of the lists that begin
//! at one of these names. The only premise of a call is that a node is one of the table (`has`).
//!
//! The definitions are stated for expressions that name their operands by keys of any type. In the
//! table the keys are numbers.
//!
//! [`work_list`] evaluates with a work list in place of a recursion, so no chain of expressions is
//! too long, and the same search finds the tasks that produce a value. A value that was read is
//! remembered until a property or an output that was itself read changes, or an output is first
//! named. A result that is passed on is shared and not copied.
//!
//! Set aside: a graph of cells that notify their readers of a change, since it costs memory for
//! each reader, and a build changes its properties before it reads them. Out of scope: how often
//! each function is called.
//!
//! Laws of that definition: `answers_stay`, `rounds_are_bounded`, and `plain_ones_keep_answers`, by
//! which one more node that is no output changes no value.
#![tactic(auto)]

mod carriers;
mod circle_names;
mod evaluate;
pub mod evaluation;
pub mod expression;
mod expressions;
pub mod fault;
pub mod laws;
pub mod produced;
mod producing;
pub mod property_change;
pub mod providers;
mod recall;
mod shared_value;
pub mod table;
pub mod transforms;
mod work_list;
