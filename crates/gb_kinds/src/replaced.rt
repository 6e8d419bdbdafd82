//! Bytes in which each occurrence of a sign is replaced.
ghost use Rattle.std.specs.Prelude.{◌≡◌, take, IfOk};
ghost use Rattle.gb_kinds.specs.Contents.{most_made, replaced};

use bstr::ByteSlice;
use gb_core::bytes::Bytes;
use std::alloc::{AllocError, Global};

/// One byte more than a file may have (8 MiB). A file with that many bytes is refused (13), whatever
/// follows them.
const MOST_MADE: usize = 8 * 1024 * 1024 + 1;

/// The bytes with a value in place of each occurrence of a sign. No more are made than show that a
/// file of them is too large.
pub fn replaced(alloc: Global, bytes: &[u8], sign: &[u8], value: &[u8]) -> Result<Bytes, AllocError>
    ensures { IfOk result (λ made. made ≡ replaced bytes.now sign.now value.now) }
{
    let mut made = Vec::new(alloc);
    let mut last = 0;
    for at in bytes.find_iter(sign) {
        if made.len() >= MOST_MADE {
            return Ok(cut(made));
        }
        made.extend_from_slice(&bytes[last..at])?;
        made.extend_from_slice(value)?;
        last = at + sign.len();
    }
    made.extend_from_slice(&bytes[last..])?;
    Ok(cut(made))
}

/// The first bytes, no more than show that a file of them is too large.
fn cut(mut made: Vec<u8>) -> Bytes
    ensures { result ≡ take most_made made.items }
{
    made.truncate(MOST_MADE);
    Bytes::new(made)
}
