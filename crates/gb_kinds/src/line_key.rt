//! Lines as keys of maps.
ghost use Rattle.std.specs.Prelude.{◌≡◌, IfOk, IsTrue};
ghost use Rattle.gb_core.specs.Place.{is_rel_path};
ghost use Rattle.gb_kinds.specs.Words.{path_line};

use gb_core::place::RelPath;
use std::alloc::{AllocError, Global};
use std::cmp::Ordering;
use std::marker::Model;

/// The bytes of a line, with the line feed that ends it.
#[derive(Debug, Drop)]
pub struct Line {
    bytes: Vec<u8>,
}

impl Model for Line {
    ghost use Rattle.std.specs.Prelude.{List, ℕ};

    ghost Value = { List ℕ };

    ghost view = { λ l. l.bytes.items };
}

impl Line {
    /// The line of a path.
    pub fn of_path(alloc: Global, path: &RelPath) -> Result<Line, AllocError>
        ensures line { IfOk result (λ line. line ≡ path_line path.now) }
        ensures path { IfOk result (λ _. IsTrue (is_rel_path path.now)) }
    {
        let mut bytes = Vec::new(alloc);
        bytes.extend_from_slice(path.as_str().as_bytes())?;
        bytes.push(b'\n')?;
        Ok(Line { bytes })
    }

    /// The line of these bytes.
    pub fn from_slice(alloc: Global, bytes: &[u8]) -> Result<Line, AllocError>
        ensures { IfOk result (λ line. line ≡ bytes.now) }
    {
        Ok(Line {
            bytes: bytes.to_vec(alloc)?,
        })
    }

    /// Its bytes, with the line feed at the end.
    pub fn as_slice(&self) -> &[u8]
        ensures { result.now ≡ self.now }
    {
        self.bytes.as_slice()
    }
}

impl PartialEq for Line {
    ghost use Rattle.std.specs.Prelude.{◌==◌};
    ghost use Rattle.std.specs.Cmp.Lexicographic.{pointwise};
    ghost use Rattle.std.proofs.Common.{rules};
    ghost use Rattle.std.specs.Cmp.Rules.{comparing};

    ghost eq = { pointwise ◌==◌ };

    ghost laws = { Prim.search (comparing, rules) };

    fn eq(&self, other: &Line) -> bool {
        self.bytes == other.bytes
    }
}

impl Eq for Line {
    ghost use Rattle.std.proofs.Common.{rules};
    ghost use Rattle.std.specs.Cmp.Rules.{comparing};

    ghost laws = { Prim.search (comparing, rules) };
}

impl PartialOrd for Line {
    ghost use Rattle.std.proofs.Common.{rules};
    ghost use Rattle.std.specs.Cmp.{partial_order_from_own_ties};
    ghost use Rattle.std.specs.Cmp.Lexicographic.{slice_cmp};
    ghost use Rattle.std.specs.Cmp.Rules.{comparing};
    ghost use Rattle.std.specs.Ordering.{nat_cmp, as_partial_cmp};

    ghost partial_cmp = { as_partial_cmp (slice_cmp nat_cmp) };

    ghost laws = { partial_order_from_own_ties (Prim.search (comparing, rules))
        (Prim.search (comparing, rules)) };

    fn partial_cmp(&self, other: &Line) -> Option<Ordering> {
        Some(self.cmp(other))
    }
}

/// By bytes.
impl Ord for Line {
    ghost use Rattle.std.proofs.Common.{rules};
    ghost use Rattle.std.specs.Cmp.Lexicographic.{slice_cmp};
    ghost use Rattle.std.specs.Cmp.Rules.{comparing};
    ghost use Rattle.std.specs.Ordering.{nat_cmp};

    ghost cmp = { slice_cmp nat_cmp };

    ghost total = { Prim.search (comparing, rules) };

    ghost matches_partial_cmp = { Prim.search (comparing, rules) };

    ghost matches_eq = { Prim.search (comparing, rules) };

    fn cmp(&self, other: &Line) -> Ordering {
        self.bytes.cmp(&other.bytes)
    }
}
