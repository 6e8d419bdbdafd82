//! What is remembered of a tree.
ghost use Rattle.std.specs.Prelude.{◌≡◌, IsTrue};
ghost use Rattle.std.specs.FinMap.Entries.{is_sorted};
ghost use Rattle.gb_core.specs.Lists.{byte_order};

use gb_core::name::Name;
use gb_core::place::RelPath;
use std::marker::Model;

/// The digests (SHA-256) of the files of a property or an output, with its name.
#[derive(Debug, Drop)]
pub struct Prints {
    name: Name,
    /// Strictly in the byte order of the paths.
    digests: Vec<(RelPath, [u8; 32])>,
}

impl Model for Prints {
    ghost use Rattle.std.specs.Prelude.{List, ℕ, IsTrue};
    ghost use Rattle.std.specs.FinMap.Entries.{is_sorted};
    ghost use Rattle.gb_core.specs.Lists.{byte_order};

    ghost Value = { List ℕ × List (List ℕ × List ℕ) };

    ghost view = { λ p. (p.name, p.digests.items) };

    ghost invariant = { λ p. IsTrue (is_sorted byte_order p.digests.items) };
}

impl Prints {
    /// Prints with these digests; the paths must be strictly ascending by their bytes.
    pub fn new(name: Name, digests: Vec<(RelPath, [u8; 32])>) -> Prints
        requires { IsTrue (is_sorted byte_order digests.items) }
        ensures { result ≡ (name, digests.items) }
    {
        Prints { name, digests }
    }

    /// The name of the file property or output whose digests these are.
    pub fn name(&self) -> &Name
        ensures { result.now ≡ self.now.0 }
    {
        &self.name
    }

    /// The paths with their digests, in order.
    pub fn as_slice(&self) -> &[(RelPath, [u8; 32])]
        ensures digests { result.now ≡ self.now.1 }
        ensures ordered { IsTrue (is_sorted byte_order self.now.1) }
    {
        self.digests.as_slice()
    }
}
