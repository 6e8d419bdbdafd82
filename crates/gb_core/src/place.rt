//! Places of files and folders, and paths relative to a root.
ghost use Rattle.std.specs.Prelude.{◌≡◌, ◌++◌, ◌∷◌, false, IfOk, string_bytes};
ghost use Rattle.std.specs.List.{list_all};
ghost use Rattle.gb_core.specs.Place.{is_beneath, is_place, is_rel_path, is_printable, is_segment, segments};

use crate::text::Text;
use std::alloc::{AllocError, Global};
use std::fmt;
use std::marker::Model;
use thiserror::Error;

/// Why parsing a text as a place or a relative path failed.
#[derive(Clone, Copy, Debug, PartialEq, Eq, Error)]
pub enum PlaceFault {
    /// The text is not one.
    #[error("bad place")]
    BadPlace,
    /// Not enough memory for its bytes; 3.
    #[error("out of memory")]
    OutOfMemory,
}

impl PlaceFault {
    ghost use Rattle.gb_core.specs.Faults.{place_fault_number};

    /// The fault number that is reported to users.
    pub fn number(self) -> u16
        ensures { result ≡ place_fault_number self }
    {
        match self {
            PlaceFault::BadPlace => 2,
            PlaceFault::OutOfMemory => 3,
        }
    }
}

impl From<AllocError> for PlaceFault {
    ghost use Rattle.gb_core.specs.declared.place.PlaceFault.TheVariants.{OutOfMemory};

    ghost from_gives = { λ _ fault. fault ≡ OutOfMemory };

    fn from(_error: AllocError) -> PlaceFault {
        PlaceFault::OutOfMemory
    }
}

/// The place of a file or a folder, as `src/a`: segments separated by single slashes, none of them
/// empty, `.` or `..`, no control character, at most 1,024 bytes.
#[derive(Debug, Drop, PartialEq, Eq, PartialOrd, Ord)]
pub struct Place {
    text: Text,
}

impl Model for Place {
    ghost use Rattle.std.specs.Prelude.{List, ℕ, IsTrue};
    ghost use Rattle.gb_core.specs.Place.{is_place};

    ghost Value = { List ℕ };

    ghost view = { λ p. p.text };

    ghost invariant = { λ p. IsTrue (is_place p.text) };

    ghost inverse = { λ bytes. record { text = bytes } };
}

impl Place {
    ghost use Rattle.std.specs.Prelude.{IfOk, IsErrOf, IsTrue};
    ghost use Rattle.std.specs.Option.{option_copied};
    ghost use Rattle.gb_core.specs.Place.{is_beneath, overlaps, joined, beneath};

    /// Parses a text as a place; any other text is `BadPlace` (2).
    pub fn read(alloc: Global, text: &str) -> Result<Place, PlaceFault>
        ensures text { IfOk result (λ place. place ≡ text.now) }
        ensures good { IfOk result (λ _. IsTrue (is_place text.now)) }
        ensures bad { IsErrOf result PlaceFault.BadPlace → is_place text.now ≡ false }
    {
        if !is_place(text) {
            return Err(PlaceFault::BadPlace);
        }
        Ok(Place {
            text: Text::from_str(alloc, text)?,
        })
    }

    /// The place of this text in a folder, or in the folder that contains all places.
    pub fn join(alloc: Global, folder: Option<&Place>, text: &str) -> Result<Place, PlaceFault>
        ensures text { IfOk result (λ place. place ≡ joined (option_copied folder.entry) text.now) }
        ensures good { IfOk result (λ _. IsTrue (is_place (joined (option_copied folder.entry) text.now))) }
        ensures bad { IsErrOf result PlaceFault.BadPlace
            → is_place (joined (option_copied folder.entry) text.now) ≡ false }
    {
        match folder {
            None => Place::read(alloc, text),
            Some(folder) => Place::read(alloc, in_folder(alloc, folder, text)?.as_str()),
        }
    }

    /// The place of a path under this one; refused if it would exceed 1,024 bytes.
    pub fn beneath(&self, alloc: Global, path: &RelPath) -> Result<Place, PlaceFault>
        ensures text { IfOk result (λ place. place ≡ beneath self.now path.now) }
        ensures good { IfOk result (λ _. IsTrue (is_place (beneath self.now path.now))) }
        ensures bad { IsErrOf result PlaceFault.BadPlace → is_place (beneath self.now path.now) ≡ false }
    {
        if path.as_str().is_empty() {
            return Ok(self.copy()?);
        }
        Place::read(alloc, in_folder(alloc, self, path.as_str())?.as_str())
    }

    /// An equal place.
    pub fn copy(&self) -> Result<Place, AllocError>
        ensures { IfOk result (λ copied. copied ≡ self.now) }
    {
        Ok(Place {
            text: self.text.copy()?,
        })
    }

    /// The place as it is written, without a slash at either end.
    pub fn as_str(&self) -> &str
        ensures text { result.now ≡ self.now }
        ensures place { IsTrue (is_place self.now) }
    {
        self.text.as_str()
    }

    /// Whether it lies strictly under the folder, compared segment by segment.
    pub fn is_beneath(&self, folder: &Place) -> bool
        ensures { result ≡ is_beneath self.now folder.now }
    {
        lies_beneath(
            self.text.as_str().as_bytes(),
            folder.text.as_str().as_bytes(),
        )
    }

    /// Whether the two are equal or one lies under the other.
    pub fn overlaps(&self, other: &Place) -> bool
        ensures { result ≡ overlaps self.now other.now }
    {
        self == other || self.is_beneath(other) || other.is_beneath(self)
    }
}

impl fmt::Display for Place {
    ghost use Rattle.std.specs.Prelude.{Some};

    ghost output = { λ p. Some p };

    fn fmt<W: fmt::Write>(&self, f: &mut fmt::Formatter<W>) -> fmt::Result {
        let text = &self.text;
        write!(f, "{text}")
    }
}

/// The path of a file from a root or from an output's place: a place, or empty for the root itself.
#[derive(Debug, Drop, PartialEq, Eq, PartialOrd, Ord)]
pub struct RelPath {
    text: Text,
}

impl Model for RelPath {
    ghost use Rattle.std.specs.Prelude.{List, ℕ, IsTrue};
    ghost use Rattle.gb_core.specs.Place.{is_rel_path};

    ghost Value = { List ℕ };

    ghost view = { λ p. p.text };

    ghost invariant = { λ p. IsTrue (is_rel_path p.text) };

    ghost inverse = { λ bytes. record { text = bytes } };
}

impl RelPath {
    ghost use Rattle.std.specs.Prelude.{IfOk, IsErrOf, IsTrue};

    /// Parses a text as a relative path: a place, or empty; any other text is `BadPlace` (2).
    pub fn read(alloc: Global, text: &str) -> Result<RelPath, PlaceFault>
        ensures text { IfOk result (λ path. path ≡ text.now) }
        ensures good { IfOk result (λ _. IsTrue (is_rel_path text.now)) }
        ensures bad { IsErrOf result PlaceFault.BadPlace → is_rel_path text.now ≡ false }
    {
        if !is_rel_path(text) {
            return Err(PlaceFault::BadPlace);
        }
        Ok(RelPath {
            text: Text::from_str(alloc, text)?,
        })
    }

    /// An equal path.
    pub fn copy(&self) -> Result<RelPath, AllocError>
        ensures { IfOk result (λ copied. copied ≡ self.now) }
    {
        Ok(RelPath {
            text: self.text.copy()?,
        })
    }

    /// The path as it is written, and empty for the root itself.
    pub fn as_str(&self) -> &str
        ensures text { result.now ≡ self.now }
        ensures path { IsTrue (is_rel_path self.now) }
    {
        self.text.as_str()
    }
}

impl fmt::Display for RelPath {
    ghost use Rattle.std.specs.Prelude.{Some};

    ghost output = { λ p. Some p };

    fn fmt<W: fmt::Write>(&self, f: &mut fmt::Formatter<W>) -> fmt::Result {
        let text = &self.text;
        write!(f, "{text}")
    }
}

/// A folder, a slash and a text.
fn in_folder(alloc: Global, folder: &Place, text: &str) -> Result<String, AllocError>
    ensures { IfOk result (λ joined. string_bytes joined ≡ folder.now ++ 47 ∷ text.now) }
{
    let mut joined = String::from_str(alloc, folder.as_str())?;
    joined.push('/')?;
    joined.push_str(text)?;
    Ok(joined)
}

/// Whether the text is a place.
pub fn is_place(text: &str) -> bool
    ensures { result ≡ is_place text.now }
{
    text.len() <= 1024 && is_text_printable(text.as_bytes()) && is_segmented(text)
}

fn is_rel_path(text: &str) -> bool
    ensures { result ≡ is_rel_path text.now }
{
    text.is_empty() || is_place(text)
}

fn is_text_printable(text: &[u8]) -> bool
    ensures { result ≡ list_all is_printable text.now }
{
    text.iter().all(|b| *b >= 32 && *b != 127)
}

fn is_segmented(text: &str) -> bool
    ensures { result ≡ list_all is_segment (segments text.now) }
{
    text.split('/')
        .all(|segment| is_segment(segment.as_bytes()))
}

fn is_segment(segment: &[u8]) -> bool
    ensures { result ≡ is_segment segment.now }
{
    segment != b"".as_slice() && segment != b".".as_slice() && segment != b"..".as_slice()
}

/// Whether a place lies strictly under a folder, both given by their bytes.
pub fn lies_beneath(text: &[u8], folder: &[u8]) -> bool
    ensures { result ≡ is_beneath text.now folder.now }
{
    match text.strip_prefix(folder) {
        Some(rest) => rest.starts_with(b"/"),
        None => false,
    }
}
