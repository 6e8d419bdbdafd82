//! Patterns of paths.
ghost use Rattle.std.specs.Prelude.{◌≡◌, false, string_bytes, IfOk, IsErrOf, IsTrue};
ghost use Rattle.std.specs.List.{list_any};
ghost use Rattle.gb_tree.specs.Pattern.{is_backslash, is_pattern, path_matches, spelled_out};

use crate::matching::path_matches;
use gb_core::place::{Place, PlaceFault};
use std::alloc::{AllocError, Global};
use std::fmt;
use std::marker::Model;
use thiserror::Error;

/// Why a text was not read as a pattern.
#[derive(Clone, Copy, Debug, PartialEq, Eq, Error)]
pub enum PatternFault {
    /// No memory for its text; 3.
    #[error("out of memory")]
    OutOfMemory,
    /// The text is no pattern.
    #[error("bad pattern")]
    BadPattern,
}

impl PatternFault {
    ghost use Rattle.gb_tree.specs.Faults.{pattern_fault_number};

    /// The number under which the fault is reported to users.
    pub fn number(self) -> u16
        ensures { result ≡ pattern_fault_number self }
    {
        match self {
            PatternFault::OutOfMemory => 3,
            PatternFault::BadPattern => 70,
        }
    }
}

impl From<AllocError> for PatternFault {
    ghost use Rattle.gb_tree.specs.declared.pattern.PatternFault.TheVariants.{OutOfMemory};

    ghost from_gives = { λ _ fault. fault ≡ OutOfMemory };

    fn from(_error: AllocError) -> PatternFault {
        PatternFault::OutOfMemory
    }
}

/// A pattern, as `src/**` or `*.txt`: a place in which `**`, `*` and `?` are wildcards.
#[derive(Debug, Drop)]
pub struct Pattern {
    text: Place,
}

impl Model for Pattern {
    ghost use Rattle.std.specs.Prelude.{List, ℕ};

    ghost Value = { List ℕ };

    ghost view = { λ p. p.text };
}

impl Pattern {
    /// A `/` at the end is short for `/**`. A `\` is refused, since there is no way to escape one.
    pub fn read(alloc: Global, text: &str) -> Result<Pattern, PatternFault>
        ensures text { IfOk result (λ pattern. pattern ≡ spelled_out text.now) }
        ensures good { IfOk result (λ _. IsTrue (is_pattern text.now)) }
        ensures bad { IsErrOf result PatternFault.BadPattern → is_pattern text.now ≡ false }
    {
        if has_backslash(text) {
            return Err(PatternFault::BadPattern);
        }
        match Place::read(alloc, spelled_out(alloc, text)?.as_str()) {
            Ok(text) => Ok(Pattern { text }),
            Err(PlaceFault::BadPlace) => Err(PatternFault::BadPattern),
            Err(PlaceFault::OutOfMemory) => Err(PatternFault::OutOfMemory),
        }
    }

    /// Whether the path matches. Takes no memory, and steps as the product of the two lengths.
    pub fn matches(&self, path: &Place) -> bool
        ensures { result ≡ path_matches self.now path.now }
    {
        self.matches_text(path.as_str())
    }

    /// Whether the path of this text matches.
    pub(crate) fn matches_text(&self, path: &str) -> bool
        ensures { result ≡ path_matches self.now path.now }
    {
        path_matches(self.text.as_str(), path)
    }

    /// An equal pattern.
    pub fn copy(&self) -> Result<Pattern, AllocError>
        ensures { IfOk result (λ pattern. pattern ≡ self.now) }
    {
        Ok(Pattern {
            text: self.text.copy()?,
        })
    }

    /// The pattern, with `/**` where it was written `/`.
    pub fn as_str(&self) -> &str
        ensures { result.now ≡ self.now }
    {
        self.text.as_str()
    }
}

impl fmt::Display for Pattern {
    ghost use Rattle.std.specs.Prelude.{Some};

    ghost output = { λ p. Some p };

    fn fmt<W: fmt::Write>(&self, f: &mut fmt::Formatter<W>) -> fmt::Result {
        let text = &self.text;
        write!(f, "{text}")
    }
}

fn has_backslash(text: &str) -> bool
    ensures { result ≡ list_any is_backslash text.now }
{
    text.as_bytes().iter().any(|b| *b == b'\\')
}

fn spelled_out(alloc: Global, text: &str) -> Result<String, AllocError>
    ensures { IfOk result (λ spelled. string_bytes spelled ≡ spelled_out text.now) }
{
    let mut spelled = String::from_str(alloc, text)?;
    if text.as_bytes().ends_with(b"/") {
        spelled.push_str("**")?;
    }
    Ok(spelled)
}
