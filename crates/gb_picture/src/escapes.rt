//! Names escaped where some characters have a special meaning.
ghost use Rattle.std.specs.Prelude.{◌≡◌, ◌++◌, IfOk, OnOk, string_bytes};
ghost use Rattle.std.specs.List.{flat_map};
ghost use Rattle.gb_picture.specs.Escapes.{dot_char, mermaid_char, xml_char};
ghost use Rattle.gb_picture.specs.Shown.{bytes_of, shown};

use crate::shown::{push_chars, shown};
use std::alloc::{AllocError, Global};

fn push_all(out: &mut Vec<char>, text: &[char]) -> Result<(), AllocError>
    ensures { OnOk result (out.new.items ≡ out.old.items ++ text.now) }
{
    out.extend_from_slice(text)
}

fn push_dot_char(out: &mut Vec<char>, c: char) -> Result<(), AllocError>
    ensures { OnOk result (out.new.items ≡ out.old.items ++ dot_char c) }
{
    if c == '"' || c == '\\' {
        out.push('\\')?;
    }
    out.push(c)?;
    Ok(())
}

fn push_xml_char(out: &mut Vec<char>, c: char) -> Result<(), AllocError>
    ensures { OnOk result (out.new.items ≡ out.old.items ++ xml_char c) }
{
    match c {
        '"' => push_all(out, &['&', 'q', 'u', 'o', 't', ';']),
        '&' => push_all(out, &['&', 'a', 'm', 'p', ';']),
        '\'' => push_all(out, &['&', '#', '3', '9', ';']),
        '<' => push_all(out, &['&', 'l', 't', ';']),
        '>' => push_all(out, &['&', 'g', 't', ';']),
        _ => push_all(out, &[c]),
    }
}

fn push_mermaid_char(out: &mut Vec<char>, c: char) -> Result<(), AllocError>
    ensures { OnOk result (out.new.items ≡ out.old.items ++ mermaid_char c) }
{
    match c {
        '"' => push_all(out, &['#', 'q', 'u', 'o', 't', ';']),
        '#' => push_all(out, &['#', '3', '5', ';']),
        '&' => push_all(out, &['#', 'a', 'm', 'p', ';']),
        '<' => push_all(out, &['#', 'l', 't', ';']),
        '>' => push_all(out, &['#', 'g', 't', ';']),
        '`' => push_all(out, &['#', '9', '6', ';']),
        _ => push_all(out, &[c]),
    }
}

fn dot_chars(alloc: Global, chars: &[char]) -> Result<Vec<char>, AllocError>
    ensures { IfOk result (λ out. out.items ≡ flat_map dot_char chars.now) }
{
    let mut out = Vec::new(alloc);
    for c in chars {
        push_dot_char(&mut out, *c)?;
    }
    Ok(out)
}

fn xml_chars(alloc: Global, chars: &[char]) -> Result<Vec<char>, AllocError>
    ensures { IfOk result (λ out. out.items ≡ flat_map xml_char chars.now) }
{
    let mut out = Vec::new(alloc);
    for c in chars {
        push_xml_char(&mut out, *c)?;
    }
    Ok(out)
}

fn mermaid_chars(alloc: Global, chars: &[char]) -> Result<Vec<char>, AllocError>
    ensures { IfOk result (λ out. out.items ≡ flat_map mermaid_char chars.now) }
{
    let mut out = Vec::new(alloc);
    for c in chars {
        push_mermaid_char(&mut out, *c)?;
    }
    Ok(out)
}

/// Adds a name in a text of DOT.
pub(crate) fn push_dot(alloc: Global, out: &mut String, name: &str) -> Result<(), AllocError>
    ensures { OnOk result
        (string_bytes out.new ≡ string_bytes out.old ++ bytes_of (flat_map dot_char (shown name.now))) }
{
    let chars = shown(alloc, name)?;
    let escaped = dot_chars(alloc, chars.as_slice())?;
    push_chars(out, escaped.as_slice())
}

/// Adds a name in XML.
pub(crate) fn push_xml(alloc: Global, out: &mut String, name: &str) -> Result<(), AllocError>
    ensures { OnOk result
        (string_bytes out.new ≡ string_bytes out.old ++ bytes_of (flat_map xml_char (shown name.now))) }
{
    let chars = shown(alloc, name)?;
    let escaped = xml_chars(alloc, chars.as_slice())?;
    push_chars(out, escaped.as_slice())
}

/// Adds a name in a text of Mermaid.
pub(crate) fn push_mermaid(alloc: Global, out: &mut String, name: &str) -> Result<(), AllocError>
    ensures { OnOk result (string_bytes out.new
        ≡ string_bytes out.old ++ bytes_of (flat_map mermaid_char (shown name.now))) }
{
    let chars = shown(alloc, name)?;
    let escaped = mermaid_chars(alloc, chars.as_slice())?;
    push_chars(out, escaped.as_slice())
}
