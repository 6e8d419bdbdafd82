//! Names of tasks, properties, inputs and outputs.
ghost use Rattle.std.specs.Prelude.{◌≡◌, false};
ghost use Rattle.gb_core.specs.Name.{is_name, is_name_byte, is_letter};
ghost use Rattle.std.specs.List.{list_all};

use crate::text::Text;
use std::alloc::{AllocError, Global};
use std::fmt;
use std::marker::Model;
use thiserror::Error;

/// Why parsing a text as a name or as a path of names failed.
#[derive(Clone, Copy, Debug, PartialEq, Eq, Error)]
pub enum NameFault {
    /// The text is not one.
    #[error("bad name")]
    BadName,
    /// Not enough memory for its bytes; 3.
    #[error("out of memory")]
    OutOfMemory,
}

impl NameFault {
    ghost use Rattle.gb_core.specs.Faults.{name_fault_number};

    /// The fault number that is reported to users.
    pub fn number(self) -> u16
        ensures { result ≡ name_fault_number self }
    {
        match self {
            NameFault::BadName => 1,
            NameFault::OutOfMemory => 3,
        }
    }
}

impl From<AllocError> for NameFault {
    ghost use Rattle.gb_core.specs.declared.name.NameFault.TheVariants.{OutOfMemory};

    ghost from_gives = { λ _ fault. fault ≡ OutOfMemory };

    fn from(_error: AllocError) -> NameFault {
        NameFault::OutOfMemory
    }
}

/// A name: a letter, then letters, digits, `_` and `-`, at most 64 bytes in all.
#[derive(Debug, Drop, PartialEq, Eq, PartialOrd, Ord)]
pub struct Name {
    text: Text,
}

impl Model for Name {
    ghost use Rattle.std.specs.Prelude.{List, ℕ, IsTrue};
    ghost use Rattle.gb_core.specs.Name.{is_name};

    ghost Value = { List ℕ };

    ghost view = { λ n. n.text };

    ghost invariant = { λ n. IsTrue (is_name n.text) };

    ghost inverse = { λ bytes. record { text = bytes } };
}

impl Name {
    ghost use Rattle.std.specs.Prelude.{IfOk, IsErrOf, IsTrue};

    /// Parses a text as a name; any other text is `BadName` (1).
    pub fn read(alloc: Global, text: &str) -> Result<Name, NameFault>
        ensures text { IfOk result (λ name. name ≡ text.now) }
        ensures good { IfOk result (λ _. IsTrue (is_name text.now)) }
        ensures bad { IsErrOf result NameFault.BadName → is_name text.now ≡ false }
    {
        if !is_name(text) {
            return Err(NameFault::BadName);
        }
        Ok(Name {
            text: Text::from_str(alloc, text)?,
        })
    }

    /// An equal name.
    pub fn copy(&self) -> Result<Name, AllocError>
        ensures { IfOk result (λ copied. copied ≡ self.now) }
    {
        Ok(Name {
            text: self.text.copy()?,
        })
    }

    /// Its 1 to 64 bytes, all of them ASCII.
    pub fn as_str(&self) -> &str
        ensures text { result.now ≡ self.now }
        ensures name { IsTrue (is_name self.now) }
    {
        self.text.as_str()
    }
}

impl fmt::Display for Name {
    ghost use Rattle.std.specs.Prelude.{Some};

    ghost output = { λ n. Some n };

    fn fmt<W: fmt::Write>(&self, f: &mut fmt::Formatter<W>) -> fmt::Result {
        let text = &self.text;
        write!(f, "{text}")
    }
}

/// Whether the text is a name.
pub fn is_name(text: &str) -> bool
    ensures { result ≡ is_name text.now }
{
    match text.as_bytes().split_first() {
        Some((first, rest)) => is_letter(*first) && are_name_bytes(rest) && rest.len() <= 63,
        None => false,
    }
}

fn are_name_bytes(bytes: &[u8]) -> bool
    ensures { result ≡ list_all is_name_byte bytes.now }
{
    bytes.iter().all(|byte| is_name_byte(*byte))
}

fn is_letter(byte: u8) -> bool
    ensures { result ≡ is_letter byte }
{
    byte.is_ascii_alphabetic()
}

/// Whether a name may have the byte after its first letter.
pub fn is_name_byte(byte: u8) -> bool
    ensures { result ≡ is_name_byte byte }
{
    byte.is_ascii_alphanumeric() || byte == b'_' || byte == b'-'
}
