//! Edits of the bytes of one file.
ghost use Rattle.std.specs.Prelude.{◌≡◌, ◌++◌, ◌∷◌, [], IfOk};
ghost use Rattle.std.specs.List.{concat, filter};
ghost use Rattle.gb_kinds.specs.Contents.{sum_line, occurs, kept_lines, token, with_value};

use crate::replaced::replaced;
use bstr::ByteSlice;
use gb_core::bytes::Bytes;
use sha2::{Digest, Sha256};
use std::alloc::{AllocError, Global};

/// The edit that a kind that works file by file applies to a file's bytes.
#[derive(Clone, Copy)]
pub(crate) enum FileEdit<'a> {
    /// The same bytes.
    Copy,
    /// The bytes with a value in place of each `@key@`.
    ReplaceToken { key: &'a str, value: &'a str },
    /// The lines that contain a text.
    KeepLines(&'a str),
    /// The SHA-256 of the bytes in hex, and a line feed.
    Sum,
}

/// A function from a file's bytes to a file's bytes.
pub trait FileMaker {
    ghost use Rattle.std.specs.Prelude.{ℕ, List};

    /// Its result on these bytes.
    ghost edited: { Self → List ℕ → List ℕ };

    /// Computes it.
    fn apply(&self, alloc: Global, bytes: &[u8]) -> Result<Bytes, AllocError>
        ensures { IfOk result (λ made. made ≡ edited self.now bytes.now) };
}

impl FileMaker for FileEdit<'_> {
    ghost use Rattle.gb_kinds.specs.ByFile.{edited as made_by};

    ghost edited = { made_by };

    fn apply(&self, alloc: Global, bytes: &[u8]) -> Result<Bytes, AllocError> {
        match self {
            FileEdit::Copy => Bytes::from_slice(alloc, bytes),
            FileEdit::ReplaceToken { key, value } => {
                with_value(alloc, key.as_bytes(), value.as_bytes(), bytes)
            }
            FileEdit::KeepLines(text) => kept_lines(alloc, text.as_bytes(), bytes),
            FileEdit::Sum => sum_line(alloc, bytes),
        }
    }
}

fn sum_line(alloc: Global, bytes: &[u8]) -> Result<Bytes, AllocError>
    ensures { IfOk result (λ made. made ≡ sum_line bytes.now) }
{
    let mut hasher = Sha256::new();
    hasher.update(bytes);
    let digest = hasher.finalize();
    let text = hex::encode(alloc, digest.as_slice())?;
    let mut line = text.into_bytes();
    line.push(b'\n')?;
    Ok(Bytes::new(line))
}

fn kept_lines(alloc: Global, text: &[u8], bytes: &[u8]) -> Result<Bytes, AllocError>
    ensures { IfOk result (λ made. made ≡ kept_lines text.now bytes.now) }
{
    let mut kept = Vec::new(alloc);
    for line in bytes.lines_with_terminator() {
        if occurs(text, line) {
            kept.extend_from_slice(line)?;
        }
    }
    Ok(Bytes::new(kept))
}

fn occurs(text: &[u8], line: &[u8]) -> bool
    ensures { result ≡ occurs text.now line.now }
{
    line.find(text).is_some()
}

fn with_value(alloc: Global, key: &[u8], value: &[u8], bytes: &[u8]) -> Result<Bytes, AllocError>
    ensures { IfOk result (λ made. made ≡ with_value key.now value.now bytes.now) }
{
    let token = token(alloc, key)?;
    replaced(alloc, bytes, token.as_slice(), value)
}

/// The key between two `@`.
fn token(alloc: Global, key: &[u8]) -> Result<Bytes, AllocError>
    ensures { IfOk result (λ made. made ≡ token key.now) }
{
    let mut token = Vec::new(alloc);
    token.push(b'@')?;
    token.extend_from_slice(key)?;
    token.push(b'@')?;
    Ok(Bytes::new(token))
}
