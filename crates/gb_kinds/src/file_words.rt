//! The words of a file's bytes.
ghost use Rattle.std.specs.Prelude.{◌≡◌, ◌||◌, ◌&&◌, ◌∷◌, [], map, bytes_eq, IfOk};
ghost use Rattle.std.specs.Prelude.{IsTrue, OnOk, string_bytes};
ghost use Rattle.std.specs.BTreeSet.{contains};
ghost use Rattle.std.specs.Char.{encode_utf8, is_ascii_lowercase};
ghost use Rattle.std.specs.List.{list_all};
ghost use Rattle.gb_core.specs.Lists.{byte_order};
ghost use Rattle.gb_kinds.specs.Words.{holds_word, is_word, letter_or_space};

use crate::known_names::rel_path;
use gb_core::place::RelPath;
use std::alloc::{AllocError, Global};
use std::collections::BTreeSet;
use std::string::String;

/// Words in byte order, each once. A word is a path too.
pub type Words = BTreeSet<RelPath>;

/// The words of the bytes.
pub fn words_of(alloc: Global, bytes: &[u8]) -> Result<Words, AllocError>
    ensures { IfOk result (λ words. (word : _) → contains byte_order words word ≡ holds_word word bytes.now) }
{
    let text = letters_of(alloc, bytes)?;
    let mut words = BTreeSet::new(alloc);
    for run in text.split(' ') {
        add_run(alloc, &mut words, run)?;
    }
    Ok(words)
}

/// The letters in lower case, and a space for each other byte.
fn letters_of(alloc: Global, bytes: &[u8]) -> Result<String, AllocError>
    ensures { IfOk result (λ text. string_bytes text ≡ map letter_or_space bytes.now) }
{
    let mut text = String::with_capacity(alloc, bytes.len())?;
    for byte in bytes {
        text.push(letter_or_space(*byte))?;
    }
    Ok(text)
}

fn letter_or_space(byte: u8) -> char
    ensures { encode_utf8 result ≡ letter_or_space byte ∷ [] }
{
    if byte.is_ascii_alphabetic() {
        byte.to_ascii_lowercase() as char
    } else {
        ' '
    }
}

/// Adds the run of small letters if it counts as a word.
fn add_run(alloc: Global, words: &mut Words, run: &str) -> Result<(), AllocError>
    requires { IsTrue (list_all is_ascii_lowercase run.now) }
    ensures { OnOk result ((word : _)
        → contains byte_order words.new word
        ≡ (contains byte_order words.old word || (is_word run.now && bytes_eq word run.now))) }
{
    if is_word(run) {
        words.insert(rel_path(alloc, run)?)?;
    }
    Ok(())
}

fn is_word(run: &str) -> bool
    ensures { result ≡ is_word run.now }
{
    1 <= run.len() && run.len() <= 64
}
