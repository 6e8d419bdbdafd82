//! The tokens of a text.
use gb_core::name::Name;
use gb_core::text::Text;

/// A punctuation mark, which is a token of its own.
#[derive(Clone, Copy, PartialEq, Eq)]
pub enum Sign {
    /// `{`, before clauses.
    OpenBrace,
    /// `}`, after clauses.
    CloseBrace,
    /// `(`, before arguments.
    OpenParen,
    /// `)`, after arguments.
    CloseParen,
    /// `[`, before a list.
    OpenBracket,
    /// `]`, after a list.
    CloseBracket,
    /// `,`, between values.
    Comma,
    /// `.`, before a step.
    Dot,
    /// `:`, before the kind of a task.
    Colon,
    /// `=`, before a value.
    Equals,
}

/// A token of a script.
#[derive(Drop)]
pub enum Token {
    /// A name, reserved or not.
    Word(Name),
    /// A text without its quotes, with its escapes decoded.
    Text(Text),
    /// One of the signs.
    Mark(Sign),
    /// A token that no script has.
    Wrong,
}
