//! The digests of what a task's outputs held before its run.
ghost use Rattle.std.specs.Prelude.{◌≡◌, ◌∷◌, [], IfOk, OnOk, map};
ghost use Rattle.gb_core.specs.Place.{beneath};
ghost use Rattle.gb_semantics.specs.Made.{put_over};
ghost use Rattle.gb_run.specs.ChangeDigests.{at_places, digests_at};

use crate::digests::Digests;
use gb_core::place::{Place, PlaceFault, RelPath};
use gb_plan::task::Output;
use gb_tree::prints::Prints;
use std::alloc::{AllocError, Global};

/// The digests of outputs as they were before, each under the place of its output.
pub fn digests_existed(
    alloc: Global,
    outputs: &[Output],
    existed: &[Prints],
) -> Result<Digests, AllocError>
    ensures { IfOk result
        (λ digests. digests ≡ put_over [] (at_places (digests_at outputs.now existed.now))) }
{
    let mut digests = Digests::new(alloc);
    for (output, prints) in outputs.iter().zip(existed) {
        hold_tree(alloc, &mut digests, &output.place, prints.as_slice())?;
    }
    Ok(digests)
}

/// Stores the digests of a tree under a place.
fn hold_tree(
    alloc: Global,
    digests: &mut Digests,
    root: &Place,
    tree: &[(RelPath, [u8; 32])],
) -> Result<(), AllocError>
    ensures { OnOk result (digests.new ≡ put_over digests.old
        (at_places (map (λ file. (beneath root.now file.0, file.1)) tree.now))) }
{
    for (path, digest) in tree.iter() {
        hold_file(alloc, digests, root, path, digest)?;
    }
    Ok(())
}

/// Stores the digest of a path under a place. A path that leads to no place is skipped.
fn hold_file(
    alloc: Global,
    digests: &mut Digests,
    root: &Place,
    path: &RelPath,
    digest: &[u8; 32],
) -> Result<(), AllocError>
    ensures { OnOk result (digests.new ≡ put_over digests.old
        (at_places ((beneath root.now path.now, digest.now) ∷ []))) }
{
    match root.beneath(alloc, path) {
        Ok(place) => digests.hold(&place, *digest),
        Err(PlaceFault::OutOfMemory) => Err(AllocError),
        Err(PlaceFault::BadPlace) => Ok(()),
    }
}
