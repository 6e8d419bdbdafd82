//! What the tasks of a build declare: the clauses of a task put together, the definition of their
//! values, and the nodes of their expressions.
//!
//! The clauses of a task may be spread over several blocks of its script. The promise of
//! [`declaring`]: they are combined in their order (`joined`), or the first fault of
//! `faults_within` is returned, or out of memory. The order of faults is that of the clauses; 55
//! for the shape of the task comes last. `gb_project` has the code that evaluates the result.
//!
//! The promise of [`row_nodes`], [`script_nodes`] and [`statements`]: each expression has the nodes
//! of its tree (`tree_made`), a source first and then step by step, an operand before its step, a
//! list from the left; or the first fault along it is returned (54, 2, 1, 31 or 32). After an error
//! nothing is said of the providers. A `Site` says where an expression is: its project, its build
//! folder, the node of each property, and the values of the command line. `add_script` adds the
//! nodes of a script, `add_task` those of a task, in the order in which they are evaluated.
//!
//! `specs/Registered` defines what a folder's scripts register, without the steps of the code: the
//! promise of whole builds is stated on it. Expressions are numbered in one list of all expressions
//! of all scripts. The laws relate this whole table to a part of it, as the code has it while it
//! processes scripts. What was made for the scripts so far is such a part, so no number changes
//! later: it stays one as trees, rows and properties are added. The nodes of all scripts are made
//! without a fault if each build folder is a place. It is, if the settings have no fault.
//!
//! | Laws | What they say |
//! |---|---|
//! | `parts_answer`, `values_have_tasks`, | a table in which some outputs are not declared yet |
//! | `circles_stay`, `parts_grow` | gives the values of the whole table |
//! | `expressions_in_table` | each expression is in the whole table under its number |
//! | `realised_is_sound` | a realised task has its path, no outputs without actions, outputs under its |
//! | | build folder, and actions that can be asked |
//! | `realised_names_tasks`, `realised_needs_are_registered` | what it names is registered |
//! | `realised_in_order`, `realised_names_rise` | its tasks and its names are in order, each once |
//! | `troubles_are_reported_one_way`, | an expression without a value has one fault; the |
//! | `circles_are_reported_by_their_names` | fault of a circle is a function of the expression |
//! | those of [`node_laws`] | the nodes of scripts are in the whole table, under their numbers |
//!
//! What was set aside: `docs/DECISIONS.md#scripts`.
#![tactic(auto)]

pub mod clauses;
pub mod declaring;
mod fitting;
pub mod given;
mod headings;
mod joining;
pub mod laws;
mod making;
mod named_tasks;
pub mod node_laws;
mod picks;
pub mod position;
mod property_nodes;
pub mod registered;
pub mod row_nodes;
pub mod script_nodes;
mod sequence;
mod sources;
mod statements;
mod step_nodes;
