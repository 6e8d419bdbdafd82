//! A kind that makes a file from each file, at a path of its own.
ghost use Rattle.std.specs.Prelude.{◌≡◌, ◌++◌, ◌∷◌, [], None, Ok, MatchResult, OnOk};
ghost use Rattle.std.specs.BTreeMap.{get};
ghost use Rattle.gb_core.specs.Lists.{byte_order};
ghost use Rattle.gb_with.specs.Renamed.{all_renamed, new_path, taking};
ghost use Rattle.gb_with.specs.TreeKinds.{IsFailure};

use crate::file_kind::Renaming;
use crate::tree_kind::{TreeKind, files_of};
use gb_action::reply::ActionFault;
use gb_action::shape::ArgList;
use gb_action::snapshot::Snapshots;
use gb_action::values::Arguments;
use gb_core::bytes::Bytes;
use gb_core::place::RelPath;
use gb_core::text::Text;
use gb_kinds::known_names::source_name;
use std::alloc::{AllocError, Global};
use std::collections::BTreeMap;
use std::marker::PhantomData;

/// The kind of whole trees that makes a file from each file of `src` as `K` does, at the path that
/// `K` gives it. It fails if a file has no path, and if two files have the same one.
#[derive(Drop)]
pub struct Renamed<K>(PhantomData<K>);

/// Files by their paths.
type Made = Vec<(RelPath, Bytes)>;

/// For each path at which a file is made, the path of the file from which it is made.
type Taken = BTreeMap<RelPath, RelPath>;

impl<K: Renaming> TreeKind for Renamed<K> {
    ghost use Rattle.gb_with.specs.Renamed.{renamed_tree};

    ghost takes = { K.takes };

    ghost makes = { renamed_tree K.renamed K.makes };

    fn takes(alloc: Global) -> Result<ArgList, AllocError> {
        K::takes(alloc)
    }

    fn make(alloc: Global, arguments: &Arguments, trees: &Snapshots) -> Result<Made, ActionFault> {
        let maker = K::of_call(alloc, arguments)?;
        all_renamed(alloc, &maker, files_of(trees, &source_name(alloc)?))
    }
}

/// A file from each of the files.
fn all_renamed<K: Renaming>(
    alloc: Global,
    maker: &K,
    files: &[(RelPath, Bytes)],
) -> Result<Made, ActionFault>
    ensures { MatchResult result
        (λ made. all_renamed K.renamed (K.edited maker.now) (λ _. None) files.now ≡ Ok made.items)
        (λ fault. IsFailure fault (all_renamed K.renamed (K.edited maker.now) (λ _. None) files.now)) }
{
    let mut taken = BTreeMap::new(alloc);
    let mut made = Vec::new(alloc);
    for (path, bytes) in files {
        let new = new_path::<K>(alloc, &taken, path)?;
        let edited = maker.apply(alloc, bytes.as_slice())?;
        put(&mut taken, &mut made, new, edited, path)?;
    }
    Ok(made)
}

/// Adds a file with these bytes at a new path, made from the file at another path.
fn put(
    taken: &mut Taken,
    made: &mut Made,
    new: RelPath,
    bytes: Bytes,
    path: &RelPath,
) -> Result<(), AllocError>
    ensures taken { OnOk result ((other : _)
        → get byte_order taken.new other ≡ taking (get byte_order taken.old) new path.now other) }
    ensures made { OnOk result (made.new.items ≡ made.old.items ++ (new, bytes) ∷ []) }
{
    taken.insert(new.copy()?, path.copy()?)?;
    made.push((new, bytes))?;
    Ok(())
}

/// The path of the file that is made from the file at a path: one at which none is made yet.
fn new_path<K: Renaming>(
    alloc: Global,
    taken: &Taken,
    path: &RelPath,
) -> Result<RelPath, ActionFault>
    ensures { MatchResult result
        (λ new. new_path (get byte_order taken.now) path.now (K.renamed path.now) ≡ Ok new)
        (λ fault. IsFailure fault (new_path (get byte_order taken.now) path.now (K.renamed path.now))) }
{
    let Some(new) = K::renamed(alloc, path)? else {
        return Err(ActionFault::ActionFailed(Text::new(format!(in alloc;
            "{path}: no path of its own"
        )?)?));
    };
    match taken.get(&new) {
        Some(other) => Err(ActionFault::ActionFailed(Text::new(format!(in alloc;
            "{other} and {path}: both at {new}"
        )?)?)),
        None => Ok(new),
    }
}
