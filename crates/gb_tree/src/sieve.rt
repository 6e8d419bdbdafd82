//! Patterns as paths are tried against them. Those without a wildcard are in a set, where a path is
//! looked up; the others are tried one by one.
ghost use Rattle.std.specs.Prelude.{◌≡◌, IfOk};
ghost use Rattle.gb_folder.specs.Files.{is_empty};
ghost use Rattle.gb_tree.specs.Property.{matches_any};
ghost use Rattle.gb_tree.specs.Sieve.{Sieves};

use crate::pattern::Pattern;
use crate::shortcut::has_wild;
use std::alloc::{AllocError, Global};
use std::collections::BTreeSet;
use std::marker::Model;

/// Patterns, the same as a row.
#[derive(Drop)]
pub(crate) struct Sieve<'a> {
    /// All of them.
    all: &'a [Pattern],
    /// The texts of those without a `*` or `?`.
    plain: BTreeSet<String>,
    /// The others.
    wild: Vec<Pattern>,
    ghost sieves: { Sieves plain wild.items all.now },
}

impl<'a> Model for Sieve<'a> {
    ghost use Rattle.std.specs.Prelude.{List, ℕ};

    ghost Value = { List (List ℕ) };

    ghost view = { λ s. s.all.now };
}

impl<'a> Sieve<'a> {
    /// Puts the patterns without a wildcard into a set, so that the steps grow as n log n.
    pub(crate) fn new(alloc: Global, all: &'a [Pattern]) -> Result<Sieve<'a>, AllocError>
        ensures { IfOk result (λ sieve. sieve ≡ all.now) }
    {
        let mut plain = BTreeSet::new(alloc);
        let mut wild: Vec<Pattern> = Vec::new(alloc);
        for pattern in all.iter() {
            if has_wild(pattern.as_str()) {
                wild.push(pattern.copy()?)?;
            } else {
                plain.insert(String::from_str(alloc, pattern.as_str())?)?;
            }
        }
        Ok(Sieve { all, plain, wild })
    }

    /// Whether there is no pattern.
    pub(crate) fn is_empty(&self) -> bool
        ensures { result ≡ is_empty self.now }
    {
        self.all.is_empty()
    }

    /// Whether one of the patterns matches the path: one look-up, and the patterns with a wildcard
    /// one by one.
    pub(crate) fn matches(&self, path: &str) -> bool
        ensures { result ≡ matches_any self.now path.now }
    {
        self.plain.contains(path) || any_matches(self.wild.as_slice(), path)
    }
}

/// Whether one of the patterns matches the path; each is tried.
fn any_matches(patterns: &[Pattern], path: &str) -> bool
    ensures { result ≡ matches_any patterns.now path.now }
{
    patterns.iter().any(|pattern| pattern.matches_text(path))
}
