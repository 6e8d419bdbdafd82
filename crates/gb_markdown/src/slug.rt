//! Names of headings.
ghost use Rattle.std.specs.Prelude.{◌≡◌, ◌++◌, ◌≤◌, bytes_eq, count_by, length, map, IfOk, OnOk};
ghost use Rattle.gb_markdown.specs.Blocks.{id_by, id_of, slug, slug_byte, with_name};

use std::alloc::{AllocError, Global};

/// The names of the headings of a page so far.
pub(crate) type Names = Vec<Vec<u8>>;

/// How many names of headings count.
const MOST: usize = 512;

/// The id of a heading with a name: if others have the name, their number is appended.
pub(crate) fn id_of(alloc: Global, names: &[Vec<u8>], name: &[u8]) -> Result<Vec<u8>, AllocError>
    ensures { IfOk result (λ id. id.items ≡ id_of (map (λ other. other.items) names.now) name.now) }
{
    id_by(alloc, count(names, name), name)
}

/// How many names are equal to this one.
fn count(names: &[Vec<u8>], name: &[u8]) -> usize
    ensures { result ≡ count_by (bytes_eq name.now) (map (λ other. other.items) names.now) }
{
    let mut earlier: usize = 0;
    for other in names {
        if name == other.as_slice() {
            earlier += 1;
        }
    }
    earlier
}

/// A name with a number appended, unless the number is 0.
fn id_by(alloc: Global, earlier: usize, name: &[u8]) -> Result<Vec<u8>, AllocError>
    ensures { IfOk result (λ id. id.items ≡ id_by earlier name.now) }
{
    let mut id = name.to_vec(alloc)?;
    if earlier != 0 {
        let number = format!(in alloc; "-{earlier}")?;
        id.extend_from_slice(number.as_bytes())?;
    }
    Ok(id)
}

/// Adds a name, up to a limit.
pub(crate) fn add_name(names: &mut Names, name: Vec<u8>) -> Result<(), AllocError>
    ensures { OnOk result (map (λ other. other.items) names.new.items
        ≡ with_name (map (λ other. other.items) names.old.items) name.items) }
{
    if names.len() < MOST {
        names.push(name)?;
    }
    Ok(())
}

/// The name of a heading: letters and digits in lower case, `-` and `_`, and `-` for each space.
pub(crate) fn slug(alloc: Global, words: &[u8]) -> Result<Vec<u8>, AllocError>
    ensures { IfOk result (λ name. name.items ≡ slug words.now) }
{
    let mut name = Vec::new(alloc);
    for byte in words {
        add_byte(&mut name, *byte)?;
    }
    Ok(name)
}

/// Adds a byte to a name.
fn add_byte(name: &mut Vec<u8>, byte: u8) -> Result<(), AllocError>
    ensures { OnOk result (name.new.items ≡ name.old.items ++ slug_byte byte) }
{
    if byte == b' ' {
        name.push(b'-')?;
    } else if byte.is_ascii_alphanumeric() || byte == b'-' || byte == b'_' || byte >= 128 {
        name.push(byte.to_ascii_lowercase())?;
    }
    Ok(())
}
