//! The files at or under an output's place.
ghost use Rattle.std.specs.Prelude.{◌≡◌, [], IsTrue, IfOk, IfErr, OnOk};
ghost use Rattle.std.specs.List.{AllByRecursion, AllPass};
ghost use Rattle.std.specs.List.Sorted.{IsStrictlySortedBy};
ghost use Rattle.std.specs.FinMap.Entries.{is_sorted};
ghost use Rattle.gb_core.specs.Place.{is_under};
ghost use Rattle.gb_core.specs.Lists.{byte_order};
ghost use Rattle.gb_folder.specs.Calls.{OnlyReads, Requests, no_change};
ghost use Rattle.gb_folder.specs.Files.{places_under};
ghost use Rattle.gb_tree.specs.Tree.{Blames, IsRefused, entries_from, files_from, listing_faults};
ghost use Rattle.gb_tree.specs.Tree.{output_entries, output_faults, output_listing_faults};
ghost use Rattle.gb_tree.specs.Prints.{digests_of};
ghost use Rattle.gb_tree.specs.Answered.{AreOutputEntriesListed, WereObserved};
ghost use Rattle.gb_tree.specs.Reading.{AreObserved, digests_observed, entries_observed};
ghost use Rattle.gb_tree.specs.DigestCache.{AreCached, AreCachedIn};

use crate::digest_cache::DigestCache;
use crate::fault::{TreeFault, is_gone};
use crate::kept::Reading;
use crate::prints::Prints;
use crate::reading::{digest_all, listed, read_all};
use crate::relative::path_from;
use crate::scanning::scan_all;
use gb_action::snapshot::Snapshot;
use gb_core::name::Name;
use gb_core::place::{Place, RelPath};
use gb_folder::folder::Folder;
use gb_folder::limits::MAX_FILES;
use gb_folder::own::is_own;
use std::alloc::Global;

/// The files at or under the place, by their paths from it; a file at the place itself has the
/// empty path. At a place in the tool's own folder `.gb` there are none, and nothing is listed.
/// Nothing is written.
pub fn outputs<F: Folder>(
    alloc: Global,
    folder: &mut F,
    name: &Name,
    place: &Place,
) -> Result<Snapshot, TreeFault>
    ensures reads { OnlyReads F.device folder.old folder.new }
    ensures blame { Blames (λ at. IsTrue (is_under at place.now))
        (F.device.failures folder.old) (F.device.failures folder.new) result }
    ensures files { F.device.faithful folder.new → IfOk result
        (λ snapshot. snapshot ≡ (name.now, files_from (F.device.contents folder.old).files place.now)) }
    ensures fit { F.device.faithful folder.new → OnOk result
        (output_faults name.now place.now (F.device.contents folder.old) ≡ []) }
    ensures err { F.device.faithful folder.new → IfErr result (λ fault.
        IsRefused (F.device.failures folder.old) (F.device.failures folder.new)
        (output_faults name.now place.now (F.device.contents folder.old)) fault) }
{
    let entries = entries_at(alloc, folder, name, place)?;
    let files = read_all(alloc, folder, entries.as_slice())?;
    Ok(Snapshot::new(name.copy()?, files))
}

/// The prints of what [`outputs`] returns, with the same faults. One piece of the contents is in
/// memory at a time.
pub fn output_prints<F: Folder>(
    alloc: Global,
    folder: &mut F,
    name: &Name,
    place: &Place,
) -> Result<Prints, TreeFault>
    ensures reads { OnlyReads F.device folder.old folder.new }
    ensures blame { Blames (λ at. IsTrue (is_under at place.now))
        (F.device.failures folder.old) (F.device.failures folder.new) result }
    ensures named { IfOk result (λ prints. prints.0 ≡ name.now) }
    ensures prints { F.device.faithful folder.new → IfOk result
        (λ prints. prints ≡ (
          name.now,
          digests_of (files_from (F.device.contents folder.old).files
              place.now),
        )) }
    ensures fit { F.device.faithful folder.new → OnOk result
        (output_faults name.now place.now (F.device.contents folder.old) ≡ []) }
    ensures err { F.device.faithful folder.new → IfErr result (λ fault.
        IsRefused (F.device.failures folder.old) (F.device.failures folder.new)
        (output_faults name.now place.now (F.device.contents folder.old)) fault) }
{
    let entries = entries_at(alloc, folder, name, place)?;
    let digests = digest_all(alloc, folder, entries.as_slice())?;
    Ok(Prints::new(name.copy()?, digests))
}

/// The files that [`outputs`] returns, each read once, with the same faults. A file that was seen is
/// not read: it has the digest that is remembered of it. Of the others the bytes are kept where
/// `room` is left for them; kept bytes reduce `room`. If a listed file is gone when it is read, all
/// are listed and read once more, and only then 11.
pub fn output_reading<F: Folder>(
    alloc: Global,
    folder: &mut F,
    name: &Name,
    place: &Place,
    seen: &DigestCache,
    room: &mut u64,
) -> Result<Reading, TreeFault>
    ensures reads { OnlyReads F.device folder.old folder.new }
    ensures blame { Blames (λ at. IsTrue (is_under at place.now))
        (F.device.failures folder.old) (F.device.failures folder.new) result }
    ensures named { IfOk result (λ reading. reading.0 ≡ name.now) }
    ensures under { IfOk result
        (λ reading. AllByRecursion (λ observed. IsTrue (is_under observed.place place.now)) reading.1) }
    // Over any folder: the files are those that calls returned. If the seen digests are of bytes
    // read since a state `first`, with no change requested from there on, then so is each digest
    // here, and no other bytes are kept.
    ensures listed { IfOk result (λ reading. AreOutputEntriesListed F.device
        folder.old folder.new place.now (entries_observed reading.1)) }
    ensures answered { (first : _) → Requests F.device no_change first folder.old
        → AreCached F.device first folder.old seen.now
        → IfOk result
        (λ reading. WereObserved F.device first folder.new reading.1) }
    // Where contents are known and the seen digests are those of the files there:
    ensures digests { F.device.faithful folder.new → AreCachedIn (F.device.contents folder.old).files seen.now
        → IfOk result (λ reading.
        digests_observed reading.1 ≡ digests_of (files_from (F.device.contents folder.old).files place.now)) }
    ensures observed { F.device.faithful folder.new
        → AreCachedIn (F.device.contents folder.old).files seen.now
        → IfOk result (λ reading. AreObserved (F.device.contents folder.old).files
        (output_entries (F.device.contents folder.old).files place.now) reading.1) }
    ensures fit { F.device.faithful folder.new → AreCachedIn (F.device.contents folder.old).files seen.now
        → OnOk result
        (output_faults name.now place.now (F.device.contents folder.old) ≡ []) }
    ensures err { F.device.faithful folder.new → AreCachedIn (F.device.contents folder.old).files seen.now
        → IfErr result (λ fault.
        IsRefused (F.device.failures folder.old) (F.device.failures folder.new)
        (output_faults name.now place.now (F.device.contents folder.old)) fault) }
{
    let free = *room;
    let first = read_output_once(alloc, folder, name, place, seen, room);
    if !is_gone(&first) {
        return first;
    }
    drop(first);
    *room = free;
    read_output_once(alloc, folder, name, place, seen, room)
}

/// The files as one listing has them.
fn read_output_once<F: Folder>(
    alloc: Global,
    folder: &mut F,
    name: &Name,
    place: &Place,
    seen: &DigestCache,
    room: &mut u64,
) -> Result<Reading, TreeFault>
    ensures reads { OnlyReads F.device folder.old folder.new }
    ensures blame { Blames (λ at. IsTrue (is_under at place.now))
        (F.device.failures folder.old) (F.device.failures folder.new) result }
    ensures named { IfOk result (λ reading. reading.0 ≡ name.now) }
    ensures under { IfOk result
        (λ reading. AllByRecursion (λ observed. IsTrue (is_under observed.place place.now)) reading.1) }
    // Over any folder: the files are those that calls returned. If the seen digests are of bytes
    // read since a state `first`, with no change requested from there on, then so is each digest
    // here, and no other bytes are kept.
    ensures listed { IfOk result (λ reading. AreOutputEntriesListed F.device
        folder.old folder.new place.now (entries_observed reading.1)) }
    ensures answered { (first : _) → Requests F.device no_change first folder.old
        → AreCached F.device first folder.old seen.now
        → IfOk result
        (λ reading. WereObserved F.device first folder.new reading.1) }
    // Where contents are known and the seen digests are those of the files there:
    ensures digests { F.device.faithful folder.new → AreCachedIn (F.device.contents folder.old).files seen.now
        → IfOk result (λ reading.
        digests_observed reading.1 ≡ digests_of (files_from (F.device.contents folder.old).files place.now)) }
    ensures observed { F.device.faithful folder.new
        → AreCachedIn (F.device.contents folder.old).files seen.now
        → IfOk result (λ reading. AreObserved (F.device.contents folder.old).files
        (output_entries (F.device.contents folder.old).files place.now) reading.1) }
    ensures fit { F.device.faithful folder.new → AreCachedIn (F.device.contents folder.old).files seen.now
        → OnOk result
        (output_faults name.now place.now (F.device.contents folder.old) ≡ []) }
    ensures err { F.device.faithful folder.new → AreCachedIn (F.device.contents folder.old).files seen.now
        → IfErr result (λ fault.
        IsRefused (F.device.failures folder.old) (F.device.failures folder.new)
        (output_faults name.now place.now (F.device.contents folder.old)) fault) }
{
    let entries = entries_at(alloc, folder, name, place)?;
    let observed = scan_all(alloc, folder, entries.as_slice(), seen, room)?;
    Ok(Reading::new(name.copy()?, observed))
}

/// The places of the output's files, by their paths from its place.
fn entries_at<F: Folder>(
    alloc: Global,
    folder: &mut F,
    name: &Name,
    place: &Place,
) -> Result<Vec<(RelPath, Place)>, TreeFault>
    ensures reads { OnlyReads F.device folder.old folder.new }
    ensures blame { Blames (λ at. IsTrue (is_under at place.now))
        (F.device.failures folder.old) (F.device.failures folder.new) result }
    ensures under { IfOk result
        (λ entries. AllByRecursion (λ entry. IsTrue (is_under entry.1 place.now)) entries.items) }
    ensures ordered { IfOk result (λ entries. IsTrue (is_sorted byte_order entries.items)) }
    ensures listed { IfOk result (λ entries. AreOutputEntriesListed F.device
        folder.old folder.new place.now entries.items) }
    ensures entries { F.device.faithful folder.new → IfOk result
        (λ entries. entries.items ≡ output_entries (F.device.contents folder.old).files place.now) }
    ensures fit { F.device.faithful folder.new → OnOk result
        (output_listing_faults name.now place.now (F.device.contents folder.old) ≡ []) }
    ensures err { F.device.faithful folder.new → IfErr result (λ fault.
        IsRefused (F.device.failures folder.old) (F.device.failures folder.new)
        (output_listing_faults name.now place.now (F.device.contents folder.old)) fault) }
{
    if is_own(place) {
        return Ok(Vec::new(alloc));
    }
    entries_beneath(alloc, folder, name, place)
}

/// The places of the files at or under the place, by their paths from it.
fn entries_beneath<F: Folder>(
    alloc: Global,
    folder: &mut F,
    name: &Name,
    place: &Place,
) -> Result<Vec<(RelPath, Place)>, TreeFault>
    ensures reads { OnlyReads F.device folder.old folder.new }
    ensures blame { Blames (λ at. IsTrue (is_under at place.now))
        (F.device.failures folder.old) (F.device.failures folder.new) result }
    ensures under { IfOk result
        (λ entries. AllByRecursion (λ entry. IsTrue (is_under entry.1 place.now)) entries.items) }
    ensures ordered { IfOk result (λ entries. IsTrue (is_sorted byte_order entries.items)) }
    ensures listed { IfOk result (λ entries. AreOutputEntriesListed F.device
        folder.old folder.new place.now entries.items) }
    ensures entries { F.device.faithful folder.new → IfOk result (λ entries.
        entries.items ≡ entries_from place.now (places_under (F.device.contents folder.old).files
        place.now)) }
    ensures fit { F.device.faithful folder.new → OnOk result
        (listing_faults name.now place.now (F.device.contents folder.old) ≡ []) }
    ensures err { F.device.faithful folder.new → IfErr result (λ fault.
        IsRefused (F.device.failures folder.old) (F.device.failures folder.new)
        (listing_faults name.now place.now (F.device.contents folder.old)) fault) }
{
    let places = listed(alloc, folder, place)?;
    if places.len() > MAX_FILES {
        return Err(TreeFault::TooManyFiles(name.copy()?));
    }
    entries_from(alloc, place, places.as_slice())
}

/// The places with their paths from the root.
fn entries_from(
    alloc: Global,
    root: &Place,
    places: &[Place],
) -> Result<Vec<(RelPath, Place)>, TreeFault>
    requires under { AllPass (λ at. is_under at root.now) places.now }
    requires ordered { IsStrictlySortedBy byte_order places.now }
    ensures under { IfOk result
        (λ entries. AllByRecursion (λ entry. IsTrue (is_under entry.1 root.now)) entries.items) }
    ensures ordered { IfOk result (λ entries. IsTrue (is_sorted byte_order entries.items)) }
    ensures entries { IfOk result (λ entries. entries.items ≡ entries_from root.now places.now) }
    ensures err { IfErr result (λ fault. fault ≡ TreeFault.OutOfMemory) }
{
    let mut entries = Vec::with_capacity(alloc, places.len())?;
    for place in places.iter() {
        let path = path_from(alloc, root, place)?;
        entries.push((path, place.copy()?))?;
    }
    Ok(entries)
}
