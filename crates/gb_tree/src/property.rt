//! The files of a file property.
ghost use Rattle.std.specs.Prelude.{◌≡◌, [], IsTrue, IfOk, IfErr, OnOk};
ghost use Rattle.std.specs.List.{AllByRecursion};
ghost use Rattle.gb_folder.specs.Calls.{OnlyReads, Requests, no_change};
ghost use Rattle.gb_tree.specs.Tree.{Blames, IsRefused};
ghost use Rattle.gb_tree.specs.Prints.{digests_of};
ghost use Rattle.gb_tree.specs.Property.{entries_of, is_under_any, tree_faults, tree_of};
ghost use Rattle.gb_tree.specs.Answered.{AreEntriesListed, WereObserved};
ghost use Rattle.gb_tree.specs.Reading.{AreObserved, digests_observed, entries_observed};
ghost use Rattle.gb_tree.specs.DigestCache.{AreCached, AreCachedIn};

use crate::digest_cache::DigestCache;
use crate::entries::entries_of;
use crate::fault::{TreeFault, is_gone};
use crate::kept::Reading;
use crate::pattern::Pattern;
use crate::prints::Prints;
use crate::reading::{digest_all, read_all};
use crate::scanning::scan_all;
use gb_action::snapshot::Snapshot;
use gb_core::name::Name;
use gb_core::place::Place;
use gb_folder::folder::Folder;
use std::alloc::Global;

/// Which part of its path names a file in a tree.
#[derive(Clone, Copy, Debug, PartialEq, Eq)]
pub enum Naming {
    /// By its path from the root.
    Relative,
    /// By the last segment of its place. Patterns are still matched against the path from the root.
    NameOnly,
}

/// The files at or under the roots that the patterns let in, by their paths. Equal roots count
/// once, and the tool's own folder `.gb` never does. Nothing is written.
///
/// With includes, a root is listed only at their starts: the folder before the first `*` or `?` of
/// an include (for `src/**`: `src`), or its own place if it has neither. Each start is listed once,
/// and not again where it lies in another one. The whole root is listed without an include, if an
/// include matches the last segment of the root, or if a start would be no place.
///
/// Refused, in this order: something there that no place can name (14), more than 65,536 files
/// (72), two files at one path or one at a folder of another (71), the first file above 8 MiB (13).
/// Where the folder's contents are not known, also a file that is gone when it is read (11, 12).
pub fn snapshot<F: Folder>(
    alloc: Global,
    folder: &mut F,
    name: &Name,
    naming: Naming,
    roots: &[Place],
    include: &[Pattern],
    exclude: &[Pattern],
) -> Result<Snapshot, TreeFault>
    ensures reads { OnlyReads F.device folder.old folder.new }
    ensures blame { Blames (λ at. IsTrue (is_under_any roots.now at))
        (F.device.failures folder.old) (F.device.failures folder.new) result }
    ensures files { F.device.faithful folder.new → IfOk result
        (λ snapshot. snapshot
        ≡ (name.now, tree_of naming roots.now include.now exclude.now (F.device.contents folder.old).files)) }
    ensures fit { F.device.faithful folder.new → OnOk result
        (tree_faults name.now naming roots.now include.now exclude.now (F.device.contents folder.old) ≡ []) }
    ensures err { F.device.faithful folder.new → IfErr result (λ fault.
        IsRefused (F.device.failures folder.old) (F.device.failures folder.new)
        (tree_faults name.now naming roots.now include.now exclude.now (F.device.contents folder.old))
        fault) }
{
    let entries = entries_of(alloc, folder, name, naming, roots, include, exclude)?;
    let files = read_all(alloc, folder, entries.as_slice())?;
    Ok(Snapshot::new(name.copy()?, files))
}

/// The prints of what [`snapshot`] returns, from the same listings and with the same faults. One
/// piece of the contents is in memory at a time.
pub fn prints_of<F: Folder>(
    alloc: Global,
    folder: &mut F,
    name: &Name,
    naming: Naming,
    roots: &[Place],
    include: &[Pattern],
    exclude: &[Pattern],
) -> Result<Prints, TreeFault>
    ensures reads { OnlyReads F.device folder.old folder.new }
    ensures blame { Blames (λ at. IsTrue (is_under_any roots.now at))
        (F.device.failures folder.old) (F.device.failures folder.new) result }
    ensures named { IfOk result (λ prints. prints.0 ≡ name.now) }
    ensures prints { F.device.faithful folder.new → IfOk result (λ prints. prints
        ≡ (
          name.now,
          digests_of
              (tree_of naming roots.now include.now exclude.now (F.device.contents folder.old).files),
        )) }
    ensures fit { F.device.faithful folder.new → OnOk result
        (tree_faults name.now naming roots.now include.now exclude.now (F.device.contents folder.old) ≡ []) }
    ensures err { F.device.faithful folder.new → IfErr result (λ fault.
        IsRefused (F.device.failures folder.old) (F.device.failures folder.new)
        (tree_faults name.now naming roots.now include.now exclude.now (F.device.contents folder.old))
        fault) }
{
    let entries = entries_of(alloc, folder, name, naming, roots, include, exclude)?;
    let digests = digest_all(alloc, folder, entries.as_slice())?;
    Ok(Prints::new(name.copy()?, digests))
}

/// The files that [`snapshot`] returns, each read once, from the same listings and with the same
/// faults. A file that was seen is not read: it has the digest that is remembered of it. Of the
/// others the bytes are kept where `room` is left for them; kept bytes reduce `room`. If a listed
/// file is gone when it is read, all are listed and read once more, and only then 11.
pub fn reading_of<F: Folder>(
    alloc: Global,
    folder: &mut F,
    name: &Name,
    naming: Naming,
    roots: &[Place],
    include: &[Pattern],
    exclude: &[Pattern],
    seen: &DigestCache,
    room: &mut u64,
) -> Result<Reading, TreeFault>
    ensures reads { OnlyReads F.device folder.old folder.new }
    ensures blame { Blames (λ at. IsTrue (is_under_any roots.now at))
        (F.device.failures folder.old) (F.device.failures folder.new) result }
    ensures named { IfOk result (λ reading. reading.0 ≡ name.now) }
    ensures under { IfOk result
        (λ reading. AllByRecursion (λ observed. IsTrue (is_under_any roots.now observed.place)) reading.1) }
    // Over any folder: the entries are those of listings that calls returned. If the seen digests
    // are of bytes read since a state `first`, with no change requested from there on, then so is
    // each digest here, and no other bytes are kept.
    ensures listed { IfOk result (λ reading. AreEntriesListed F.device naming
        roots.now
        include.now exclude.now folder.old folder.new (entries_observed reading.1)) }
    ensures answered { (first : _) → Requests F.device no_change first folder.old
        → AreCached F.device first folder.old seen.now
        → IfOk result
        (λ reading. WereObserved F.device first folder.new reading.1) }
    // Where contents are known and the seen digests are those of the files there:
    ensures digests { F.device.faithful folder.new → AreCachedIn (F.device.contents folder.old).files seen.now
        → IfOk result (λ reading. digests_observed reading.1
        ≡ digests_of (tree_of naming roots.now include.now exclude.now
        (F.device.contents folder.old).files)) }
    ensures observed { F.device.faithful folder.new
        → AreCachedIn (F.device.contents folder.old).files seen.now
        → IfOk result (λ reading. AreObserved (F.device.contents folder.old).files
        (entries_of naming roots.now include.now exclude.now (F.device.contents folder.old).files)
        reading.1) }
    ensures fit { F.device.faithful folder.new → AreCachedIn (F.device.contents folder.old).files seen.now
        → OnOk result
        (tree_faults name.now naming roots.now include.now exclude.now (F.device.contents folder.old) ≡ []) }
    ensures err { F.device.faithful folder.new → AreCachedIn (F.device.contents folder.old).files seen.now
        → IfErr result (λ fault.
        IsRefused (F.device.failures folder.old) (F.device.failures folder.new)
        (tree_faults name.now naming roots.now include.now exclude.now (F.device.contents folder.old))
        fault) }
{
    let free = *room;
    let first = read_once(
        alloc, folder, name, naming, roots, include, exclude, seen, room,
    );
    if !is_gone(&first) {
        return first;
    }
    drop(first);
    *room = free;
    read_once(
        alloc, folder, name, naming, roots, include, exclude, seen, room,
    )
}

/// The files as one listing has them.
fn read_once<F: Folder>(
    alloc: Global,
    folder: &mut F,
    name: &Name,
    naming: Naming,
    roots: &[Place],
    include: &[Pattern],
    exclude: &[Pattern],
    seen: &DigestCache,
    room: &mut u64,
) -> Result<Reading, TreeFault>
    ensures reads { OnlyReads F.device folder.old folder.new }
    ensures blame { Blames (λ at. IsTrue (is_under_any roots.now at))
        (F.device.failures folder.old) (F.device.failures folder.new) result }
    ensures named { IfOk result (λ reading. reading.0 ≡ name.now) }
    ensures under { IfOk result
        (λ reading. AllByRecursion (λ observed. IsTrue (is_under_any roots.now observed.place)) reading.1) }
    // Over any folder: the entries are those of listings that calls returned. If the seen digests
    // are of bytes read since a state `first`, with no change requested from there on, then so is
    // each digest here, and no other bytes are kept.
    ensures listed { IfOk result (λ reading. AreEntriesListed F.device naming
        roots.now
        include.now exclude.now folder.old folder.new (entries_observed reading.1)) }
    ensures answered { (first : _) → Requests F.device no_change first folder.old
        → AreCached F.device first folder.old seen.now
        → IfOk result
        (λ reading. WereObserved F.device first folder.new reading.1) }
    // Where contents are known and the seen digests are those of the files there:
    ensures digests { F.device.faithful folder.new → AreCachedIn (F.device.contents folder.old).files seen.now
        → IfOk result (λ reading. digests_observed reading.1
        ≡ digests_of (tree_of naming roots.now include.now exclude.now
        (F.device.contents folder.old).files)) }
    ensures observed { F.device.faithful folder.new
        → AreCachedIn (F.device.contents folder.old).files seen.now
        → IfOk result (λ reading. AreObserved (F.device.contents folder.old).files
        (entries_of naming roots.now include.now exclude.now (F.device.contents folder.old).files)
        reading.1) }
    ensures fit { F.device.faithful folder.new → AreCachedIn (F.device.contents folder.old).files seen.now
        → OnOk result
        (tree_faults name.now naming roots.now include.now exclude.now (F.device.contents folder.old) ≡ []) }
    ensures err { F.device.faithful folder.new → AreCachedIn (F.device.contents folder.old).files seen.now
        → IfErr result (λ fault.
        IsRefused (F.device.failures folder.old) (F.device.failures folder.new)
        (tree_faults name.now naming roots.now include.now exclude.now (F.device.contents folder.old))
        fault) }
{
    let entries = entries_of(alloc, folder, name, naming, roots, include, exclude)?;
    let observed = scan_all(alloc, folder, entries.as_slice(), seen, room)?;
    Ok(Reading::new(name.copy()?, observed))
}
