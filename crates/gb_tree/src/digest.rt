//! The digests of trees.
ghost use Rattle.std.specs.Prelude.{◌≡◌, IfOk};
ghost use Rattle.gb_tree.specs.Prints.{digests_of};

use crate::prints::Prints as TreePrints;
use gb_action::snapshot::Snapshot;
use sha2::{Digest, Sha256};
use std::alloc::{AllocError, Global};

/// The digest of each content.
pub fn prints(alloc: Global, snapshot: &Snapshot) -> Result<TreePrints, AllocError>
    ensures { IfOk result (λ prints. prints ≡ (snapshot.now.0, digests_of snapshot.now.1)) }
{
    let files = snapshot.files().as_slice();
    let mut digests = Vec::with_capacity(alloc, files.len())?;
    for (path, bytes) in files.iter() {
        digests.push((path.copy()?, Sha256::digest(bytes.as_slice())))?;
    }
    Ok(TreePrints::new(snapshot.name().copy()?, digests))
}
