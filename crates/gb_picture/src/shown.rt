//! The shown form of texts from outside.
ghost use Rattle.std.specs.Prelude.{◌≡◌, ◌++◌, IfOk, OnOk, string_bytes};
ghost use Rattle.gb_picture.specs.Shown.{bytes_of, is_hidden, shown, shown_char, shown_text};

use std::alloc::{AllocError, Global};

fn is_hidden(c: char) -> bool
    ensures { result ≡ is_hidden c }
{
    matches!(
        c,
        '\u{0}'..='\u{1f}'
            | '\u{7f}'..='\u{9f}'
            | '\u{61c}'
            | '\u{200e}'..='\u{200f}'
            | '\u{2028}'..='\u{202e}'
            | '\u{2066}'..='\u{2069}'
    )
}

fn shown_char(c: char) -> char
    ensures { result ≡ shown_char c }
{
    if is_hidden(c) { '\u{fffd}' } else { c }
}

/// The shown characters of a text.
pub(crate) fn shown(alloc: Global, text: &str) -> Result<Vec<char>, AllocError>
    ensures { IfOk result (λ cs. cs.items ≡ shown text.now) }
{
    text.chars().map(|c| shown_char(c)).collect(alloc)
}

/// Adds these characters.
pub(crate) fn push_chars(out: &mut String, chars: &[char]) -> Result<(), AllocError>
    ensures { OnOk result (string_bytes out.new ≡ string_bytes out.old ++ bytes_of chars.now) }
{
    for c in chars {
        out.push(*c)?;
    }
    Ok(())
}

/// Adds the shown form of a text.
pub fn push_shown(alloc: Global, out: &mut String, text: &str) -> Result<(), AllocError>
    ensures { OnOk result (string_bytes out.new ≡ string_bytes out.old ++ shown_text text.now) }
{
    let chars = shown(alloc, text)?;
    push_chars(out, chars.as_slice())
}
