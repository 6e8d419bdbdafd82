//! Texts of at most 22 bytes, which are stored without an allocation.
ghost use Rattle.std.specs.Prelude.{◌≡◌, ◌≤◌, length};

use std::marker::Model;
use std::str;

/// The most bytes that a short text has.
pub(crate) const MAX_SHORT: usize = 22;

/// A text in UTF-8 of at most 22 bytes, stored inline. Contracts view its bytes.
#[derive(Drop)]
pub(crate) struct ShortText {
    len: u8,
    bytes: [u8; MAX_SHORT],
}

impl Model for ShortText {
    ghost use Rattle.std.specs.Prelude.{List, ℕ, ◌≤◌, take};
    ghost use Rattle.std.specs.Str.{IsUtf8};

    ghost Value = { List ℕ };

    ghost view = { λ t. take t.len t.bytes };

    ghost invariant = { λ t. (t.len ≤ 22) × ∥ IsUtf8 (take t.len t.bytes) ∥₁ };
}

impl ShortText {
    /// The text of these characters.
    pub(crate) fn from_str(text: &str) -> ShortText
        requires { length text.now ≤ 22 }
        ensures { result ≡ text.now }
    {
        let mut bytes = [0; MAX_SHORT];
        bytes[..text.len()].copy_from_slice(text.as_bytes());
        ShortText {
            len: text.len() as u8,
            bytes,
        }
    }

    /// An equal text.
    pub(crate) fn copy(&self) -> ShortText
        ensures { result ≡ self.now }
    {
        ShortText {
            len: self.len,
            bytes: self.bytes,
        }
    }

    /// Its characters, without a copy.
    pub(crate) fn as_str(&self) -> &str
        ensures { result.now ≡ self.now }
    {
        let len = self.len as usize;
        // SAFETY: the invariant says that these bytes are UTF-8.
        unsafe { str::from_utf8_unchecked(&self.bytes[..len]) }
    }
}
