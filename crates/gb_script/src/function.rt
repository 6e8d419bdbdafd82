//! The functions that a script names to work on values.
use gb_core::name::Name;
use gb_core::text::Texts;

/// A function, with its text arguments.
#[derive(Debug, Drop)]
pub struct Function {
    /// The name by which the function is looked up in the table of functions.
    pub name: Name,
    /// The texts in brackets after the name, or none if there is no bracket.
    pub arguments: Texts,
}
