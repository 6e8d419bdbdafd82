//! Texts, each once.
ghost use Rattle.std.specs.Prelude.{◌≡◌, [], length, position, bytes_eq, OnOk, OnErr};
ghost use Rattle.gb_registry.specs.Projects.{is_among, with_path};

use indexmap::IndexSet;
use std::alloc::{AllocError, Global};
use std::marker::Model;

/// Texts, each once, in the order in which they were added.
#[derive(Drop)]
pub struct TextSet {
    alloc: Global,
    texts: IndexSet<String>,
}

impl Model for TextSet {
    ghost use Rattle.std.specs.Prelude.{List, ℕ, map, string_bytes};

    ghost Value = { List (List ℕ) };

    ghost view = { λ s. map string_bytes s.texts.keys };
}

impl TextSet {
    /// No texts yet.
    pub fn new(alloc: Global) -> TextSet
        ensures { result ≡ [] }
    {
        TextSet {
            alloc,
            texts: IndexSet::new(alloc),
        }
    }

    /// Appends a text, unless it is present.
    pub fn insert(&mut self, text: &str) -> Result<(), AllocError>
        ensures ok { OnOk result (self.new ≡ with_path self.old text.now) }
        ensures err { OnErr result (self.new ≡ self.old) }
    {
        let key = text.to_string(self.alloc)?;
        self.texts.insert_full(key)?;
        Ok(())
    }

    /// Whether the text is present. Takes no memory.
    pub fn contains(&self, text: &str) -> bool
        ensures { result ≡ is_among self.now text.now }
    {
        self.texts.contains(text)
    }

    /// How many texts are before it, if it is present. Takes no memory.
    pub fn position(&self, text: &str) -> Option<usize>
        ensures { result ≡ position (bytes_eq text.now) self.now }
    {
        self.texts.get_index_of(text)
    }

    /// How many texts there are.
    pub fn len(&self) -> usize
        ensures { result ≡ length self.now }
    {
        self.texts.len()
    }
}
