//! The kind of a comment or a token, which its first byte decides.
ghost use Rattle.std.specs.Prelude.{◌≡◌};
ghost use Rattle.gb_format.specs.Kinds.{kind_of, kind_of_sign, is_tight_after, is_tight_before, is_open};
ghost use Rattle.gb_format.specs.Kinds.{is_tight};

use gb_core::name::is_name_byte;

/// The kind of a comment or a token.
#[derive(Clone, Copy)]
pub enum Kind {
    /// A comment.
    Comment,
    /// A word.
    Word,
    /// A text.
    Text,
    /// `{`.
    OpenBrace,
    /// `}`.
    CloseBrace,
    /// `(`.
    OpenParen,
    /// `[`.
    OpenBracket,
    /// `)` or `]`.
    Close,
    /// `,`.
    Comma,
    /// `.`.
    Dot,
    /// `:` or `=`.
    Sign,
}

fn kind_of_sign(first: u8) -> Kind
    ensures { result ≡ kind_of_sign first }
{
    match first {
        b'{' => Kind::OpenBrace,
        b'}' => Kind::CloseBrace,
        b'(' => Kind::OpenParen,
        b'[' => Kind::OpenBracket,
        b')' => Kind::Close,
        b']' => Kind::Close,
        b',' => Kind::Comma,
        b'.' => Kind::Dot,
        _ => Kind::Sign,
    }
}

/// The kind of the comment or token with this text.
pub fn kind_of(text: &str) -> Kind
    ensures { result ≡ kind_of text.now }
{
    match text.as_bytes() {
        [b'/', ..] => Kind::Comment,
        [b'"', ..] => Kind::Text,
        [first, ..] if is_name_byte(*first) => Kind::Word,
        [first, ..] => kind_of_sign(*first),
        [] => Kind::Sign,
    }
}

/// Whether no space follows it.
fn is_tight_after(kind: Kind) -> bool
    ensures { result ≡ is_tight_after kind }
{
    matches!(kind, Kind::OpenParen | Kind::OpenBracket | Kind::Dot)
}

/// Whether no space precedes it.
fn is_tight_before(kind: Kind) -> bool
    ensures { result ≡ is_tight_before kind }
{
    matches!(
        kind,
        Kind::OpenParen | Kind::Close | Kind::Comma | Kind::Dot
    )
}

/// Whether no space separates the two.
pub fn is_tight(before: Kind, kind: Kind) -> bool
    ensures { result ≡ is_tight before kind }
{
    is_tight_after(before) || is_tight_before(kind)
}

/// Whether it is a bracket that opens.
pub fn is_open(kind: Kind) -> bool
    ensures { result ≡ is_open kind }
{
    matches!(kind, Kind::OpenParen | Kind::OpenBracket)
}
