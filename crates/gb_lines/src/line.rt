//! The lines of a replay.
ghost use Rattle.std.specs.Prelude.{◌≡◌, ◌⊎◌, None, Some, IfErr, MatchResult};
ghost use Rattle.gb_lines.specs.Lines.{escape, unescaped};
ghost use Rattle.gb_lines.specs.declared.line.LineFault.TheVariants as faults;

use gb_core::bytes::Bytes;
use gb_core::place::{Place, PlaceFault};
use std::alloc::{AllocError, AllocFailed, Global};
use std::str;
use thiserror::Error;

/// The most bytes of a line: 2 MiB.
const MAX_LINE: usize = 2_097_152;

/// A line of a replay.
#[derive(Debug, Drop)]
pub enum Line {
    /// An empty line, which is skipped.
    Empty,
    /// `put PLACE TEXT`, with the text's escapes undone.
    Put(Place, Bytes),
    /// `del PLACE`
    Remove(Place),
    /// `lost`
    Lost,
    /// `run WORD..`
    Run(Vec<String>),
    /// `show PLACE`
    Show(Place),
}

/// Why bytes were not read as a line.
#[derive(Clone, Copy, Debug, PartialEq, Eq, Error)]
pub enum LineFault {
    /// They are no line.
    #[error("bad line")]
    BadLine,
    /// No memory for its contents; 3.
    #[error("out of memory")]
    OutOfMemory,
}

impl From<AllocError> for LineFault {
    ghost use Rattle.gb_lines.specs.declared.line.LineFault.TheVariants.{OutOfMemory};

    ghost from_gives = { λ _ fault. fault ≡ OutOfMemory };

    fn from(_error: AllocError) -> LineFault {
        LineFault::OutOfMemory
    }
}

impl<T: Drop> From<AllocFailed<T>> for LineFault {
    ghost use Rattle.gb_lines.specs.declared.line.LineFault.TheVariants.{OutOfMemory};

    ghost from_gives = { λ _ fault. fault ≡ OutOfMemory };

    fn from(_error: AllocFailed<T>) -> LineFault {
        LineFault::OutOfMemory
    }
}

impl From<PlaceFault> for LineFault {
    ghost use Rattle.gb_lines.specs.Lines.{line_fault_of};

    ghost from_gives = { λ reported fault. fault ≡ line_fault_of reported };

    fn from(fault: PlaceFault) -> LineFault {
        match fault {
            PlaceFault::BadPlace => LineFault::BadLine,
            PlaceFault::OutOfMemory => LineFault::OutOfMemory,
        }
    }
}

/// Reads a line, which is given without its line feed.
pub fn read_line(alloc: Global, line: &[u8]) -> Result<Line, LineFault> {
    if line.len() > MAX_LINE {
        return Err(LineFault::BadLine);
    }
    match str::from_utf8(line) {
        Ok(text) => read_text(alloc, text),
        Err(_) => Err(LineFault::BadLine),
    }
}

fn read_text(alloc: Global, text: &str) -> Result<Line, LineFault> {
    match text.split_once(' ') {
        Some((word, rest)) => read_command(alloc, word, rest),
        None => match text {
            "" => Ok(Line::Empty),
            "lost" => Ok(Line::Lost),
            "run" => Ok(Line::Run(Vec::new(alloc))),
            _ => Err(LineFault::BadLine),
        },
    }
}

/// Reads a line from its first word and the text after the space that follows.
fn read_command(alloc: Global, word: &str, rest: &str) -> Result<Line, LineFault> {
    match word {
        "put" => read_put(alloc, rest),
        "del" => Ok(Line::Remove(Place::read(alloc, rest)?)),
        "show" => Ok(Line::Show(Place::read(alloc, rest)?)),
        "run" => Ok(Line::Run(words(alloc, rest)?)),
        _ => Err(LineFault::BadLine),
    }
}

fn read_put(alloc: Global, rest: &str) -> Result<Line, LineFault> {
    let (place, text) = rest.split_once(' ').unwrap_or((rest, ""));
    let place = Place::read(alloc, place)?;
    let bytes = unescaped(alloc, text.as_bytes())?;
    Ok(Line::Put(place, Bytes::new(bytes)))
}

/// The words of a text, separated by spaces.
fn words(alloc: Global, text: &str) -> Result<Vec<String>, LineFault>
    ensures { IfErr result (λ fault. fault ≡ faults.OutOfMemory) }
{
    let mut found = Vec::new(alloc);
    for word in text.split(' ') {
        if !word.is_empty() {
            found.push(String::from_str(alloc, word)?)?;
        }
    }
    Ok(found)
}

/// The bytes that a text denotes, each of its escapes undone.
fn unescaped(alloc: Global, text: &[u8]) -> Result<Vec<u8>, LineFault>
    ensures { MatchResult result
        (λ bytes. unescaped text.now ≡ Some bytes.items)
        (λ fault. (fault ≡ faults.OutOfMemory) ⊎ (unescaped text.now ≡ None)) }
{
    let mut bytes = Vec::new(alloc);
    let mut is_escape = false;
    for byte in text.iter() {
        if is_escape {
            let Some(meant) = escape(*byte) else {
                return Err(LineFault::BadLine);
            };
            bytes.push(meant)?;
            is_escape = false;
        } else if *byte == b'\\' {
            is_escape = true;
        } else {
            bytes.push(*byte)?;
        }
    }
    if is_escape {
        return Err(LineFault::BadLine);
    }
    Ok(bytes)
}

/// The byte that a backslash with this letter denotes.
fn escape(letter: u8) -> Option<u8>
    ensures { result ≡ escape letter }
{
    match letter {
        b'n' => Some(b'\n'),
        b't' => Some(b'\t'),
        b'\\' => Some(b'\\'),
        _ => None,
    }
}
