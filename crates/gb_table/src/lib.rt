//! Values by name, in the order of insertion: the base of tables of actions and of value functions.
//!
//! The one contract is that of [`table::NamedTable`], which is seen as the list of its entries.
//! `add` appends a value under a name, and refuses exactly the names that are taken. `find` is the
//! look-up in that list, without memory. `into_entries` returns the values in order.
//! `names_are_unique` is the law that no two entries have one name. The entries are in an
//! `IndexMap`, which has an order and finds a name by its hash.
//!
//! Out of scope: replacing and removing an entry. Set aside: filling one table from another, since
//! no bound may name a type with a boxed closure: two tables become one by moving their entries
//! (`beside` of `gb_with`).
#![tactic(auto)]

pub mod table;
