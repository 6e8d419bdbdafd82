//! Reads files once each, in one call, one after another: takes the digest of each, and keeps its
//! bytes where there is room. Small files wait for one another, so that four are digested at a
//! time.
ghost use Rattle.std.specs.Prelude.{◌≡◌, ◌⊎◌, ◌++◌, ℕ, List, [], None, Some, false, true, IsTrue};
ghost use Rattle.std.specs.Prelude.{IsSome, IfOk, IfErr, OnOk};
ghost use Rattle.std.specs.List.{AllByRecursion};
ghost use Rattle.std.specs.FinMap.Entries.{is_sorted};
ghost use Rattle.gb_core.specs.Lists.{byte_order};
ghost use Rattle.gb_folder.specs.Answers.{WereRead};
ghost use Rattle.gb_folder.specs.Calls.{OnlyReads, Requests, no_change};
ghost use Rattle.gb_folder.specs.Files.{file_at};
ghost use Rattle.gb_tree.specs.Tree.{Blames, IsRefused, is_among, is_large};
ghost use Rattle.gb_tree.specs.Tree.{too_large};
ghost use Rattle.gb_tree.specs.Answered.{IsTreeFaultBetween, WasObserved, WereObserved};
ghost use Rattle.gb_tree.specs.Reading.{IsReading, IsObservedIn, KeepsOnly, entries_observed, is_digest_of};
ghost use Rattle.gb_tree.specs.DigestCache.{AreCached, AreCachedIn};
ghost use Rattle.gb_tree.specs.Waiting.{digest_in, file_in, kept_in};
ghost use Rattle.sha2.specs.Sha256.{sha256};

use crate::digest_cache::DigestCache;
use crate::fault::TreeFault;
use crate::kept::ScannedFile;
use crate::reading::read_file;
use crate::waiting::{Found, SmallFile, Waiting, add, digest_waiting};
use gb_core::bytes::Bytes;
use gb_core::place::{Place, RelPath};
use gb_folder::folder::Folder;
use sha2::{Digest, Sha256};
use std::alloc::{AllocError, Global};

/// A file of fewer bytes waits for others, to be digested with them.
const SMALL: u64 = 65_536;

/// What was read of a file.
#[derive(Drop)]
enum Content {
    /// Its bytes, which are few, and whether there is room for them.
    Undigested(Bytes, bool),
    /// The digest, and the bytes where they are kept.
    Digested([u8; 32], Option<Bytes>),
}

/// Whether the room holds so many bytes; if so, they are subtracted from it.
fn take_room(size: u64, room: &mut u64) -> bool {
    if *room < size {
        return false;
    }
    *room -= size;
    true
}

/// Keeps bytes where the room holds them.
fn keep(bytes: Bytes, room: &mut u64) -> Option<Bytes>
    ensures { KeepsOnly bytes result }
{
    if take_room(bytes.as_slice().len() as u64, room) {
        Some(bytes)
    } else {
        None
    }
}

/// One file, read in one call, so that the digest and the kept bytes are those of one file. A small
/// file gives its bytes; another gives its digest, and its bytes where they are kept.
fn scan_bytes<F: Folder>(
    alloc: Global,
    folder: &mut F,
    place: &Place,
    room: &mut u64,
) -> Result<Content, TreeFault>
    ensures reads { OnlyReads F.device folder.old folder.new }
    ensures blame { Blames (λ at. at ≡ place.now)
        (F.device.failures folder.old) (F.device.failures folder.new) result }
    ensures digested { IfOk result (λ found. IsTrue (is_digest_of (kept_in found) (digest_in found))) }
    ensures answered { IfOk result (λ found. (bytes : List ℕ)
        × WereRead F.device folder.old folder.new place.now bytes
        × (digest_in found ≡ sha256 bytes) × KeepsOnly bytes (kept_in found)) }
    ensures err { F.device.faithful folder.new
        → IsSome (file_at (F.device.contents folder.old).files place.now)
        → IfErr result (λ fault. IsTreeFaultBetween F.device folder.old folder.new fault
        ⊎ ((is_large (F.device.contents folder.old).files place.now ≡ true)
        × (fault ≡ TreeFault.TooLarge place.now))) }
{
    let bytes = read_file(alloc, folder, place)?;
    let len = bytes.as_slice().len() as u64;
    if len < SMALL {
        let is_kept = take_room(len, room);
        return Ok(Content::Undigested(bytes, is_kept));
    }
    let digest = Sha256::digest(bytes.as_slice());
    Ok(Content::Digested(digest, keep(bytes, room)))
}

/// One file as it is read.
pub(crate) fn scan_file<F: Folder>(
    alloc: Global,
    folder: &mut F,
    path: &RelPath,
    place: &Place,
    room: &mut u64,
) -> Result<Found, TreeFault>
    ensures reads { OnlyReads F.device folder.old folder.new }
    ensures blame { Blames (λ at. at ≡ place.now)
        (F.device.failures folder.old) (F.device.failures folder.new) result }
    ensures path { IfOk result (λ found. (file_in found).path ≡ path.now) }
    ensures place { IfOk result (λ found. (file_in found).place ≡ place.now) }
    ensures digested { IfOk result
        (λ found. IsTrue (is_digest_of (file_in found).kept (file_in found).digest)) }
    ensures answered { IfOk result
        (λ found. WasObserved F.device folder.old folder.new (file_in found)) }
    ensures err { F.device.faithful folder.new
        → IsSome (file_at (F.device.contents folder.old).files place.now)
        → IfErr result (λ fault. IsTreeFaultBetween F.device folder.old folder.new fault
        ⊎ ((is_large (F.device.contents folder.old).files place.now ≡ true)
        × (fault ≡ TreeFault.TooLarge place.now))) }
{
    let content = scan_bytes(alloc, folder, place, room)?;
    let path = path.copy()?;
    let place = place.copy()?;
    match content {
        Content::Undigested(bytes, is_kept) => Ok(Found::Small(SmallFile {
            path,
            place,
            bytes,
            is_kept,
        })),
        Content::Digested(digest, kept) => Ok(Found::Observed(ScannedFile {
            path,
            place,
            digest,
            kept,
        })),
    }
}

/// One file with a digest that was taken of it before; its bytes are not kept.
fn recalled(path: &RelPath, place: &Place, digest: [u8; 32]) -> Result<Found, AllocError>
    ensures { IfOk result (λ found.
        file_in found ≡ record { path = path.now; place = place.now; digest = digest; kept = None }) }
{
    Ok(Found::Observed(ScannedFile {
        path: path.copy()?,
        place: place.copy()?,
        digest,
        kept: None,
    }))
}

/// One file: with the digest that is remembered of it, or else as it is read.
fn find_file<F: Folder>(
    alloc: Global,
    folder: &mut F,
    path: &RelPath,
    place: &Place,
    seen: &DigestCache,
    room: &mut u64,
) -> Result<Found, TreeFault>
    ensures reads { OnlyReads F.device folder.old folder.new }
    ensures blame { Blames (λ at. at ≡ place.now)
        (F.device.failures folder.old) (F.device.failures folder.new) result }
    ensures path { IfOk result (λ found. (file_in found).path ≡ path.now) }
    ensures place { IfOk result (λ found. (file_in found).place ≡ place.now) }
    ensures digested { IfOk result
        (λ found. IsTrue (is_digest_of (file_in found).kept (file_in found).digest)) }
    ensures answered { (first : _) → Requests F.device no_change first folder.old
        → AreCached F.device first folder.old seen.now
        → IfOk result
        (λ found. WasObserved F.device first folder.new (file_in found)) }
    ensures observed { F.device.faithful folder.new
        → AreCachedIn (F.device.contents folder.old).files seen.now
        → IfOk result
        (λ found. IsObservedIn (F.device.contents folder.old).files (file_in found)) }
    ensures err { F.device.faithful folder.new
        → IsSome (file_at (F.device.contents folder.old).files place.now)
        → IfErr result (λ fault. IsTreeFaultBetween F.device folder.old folder.new fault
        ⊎ ((is_large (F.device.contents folder.old).files place.now ≡ true)
        × (fault ≡ TreeFault.TooLarge place.now))) }
{
    match seen.digest_at(place) {
        Some(digest) => Ok(recalled(path, place, digest)?),
        None => scan_file(alloc, folder, path, place, room),
    }
}

/// The files at these places, by their paths: those that were seen with the digests that are
/// remembered of them, the others as they are read.
pub(crate) fn scan_all<F: Folder>(
    alloc: Global,
    folder: &mut F,
    entries: &[(RelPath, Place)],
    seen: &DigestCache,
    room: &mut u64,
) -> Result<Vec<ScannedFile>, TreeFault>
    requires { IsTrue (is_sorted byte_order entries.now) }
    ensures reads { OnlyReads F.device folder.old folder.new }
    ensures blame { Blames (λ at. IsTrue (is_among entries.now at))
        (F.device.failures folder.old) (F.device.failures folder.new) result }
    ensures placed { IfOk result (λ observed. entries_observed observed.items ≡ entries.now) }
    ensures reading { IfOk result (λ observed. IsReading observed.items) }
    ensures answered { (first : _) → Requests F.device no_change first folder.old
        → AreCached F.device first folder.old seen.now
        → IfOk result
        (λ observed. WereObserved F.device first folder.new observed.items) }
    ensures observed { F.device.faithful folder.new
        → AreCachedIn (F.device.contents folder.old).files seen.now
        → IfOk result
        (λ observed. AllByRecursion (IsObservedIn (F.device.contents folder.old).files) observed.items) }
    ensures small { F.device.faithful folder.new → AreCachedIn (F.device.contents folder.old).files seen.now
        → OnOk result
        (too_large (F.device.contents folder.old).files entries.now ≡ []) }
    ensures err { F.device.faithful folder.new → AreCachedIn (F.device.contents folder.old).files seen.now
        → AllByRecursion (λ entry. IsSome (file_at (F.device.contents folder.old).files entry.1)) entries.now
        → IfErr result (λ fault.
        IsRefused (F.device.failures folder.old) (F.device.failures folder.new)
        (too_large (F.device.contents folder.old).files entries.now) fault) }
{
    let mut observed = Vec::with_capacity(alloc, entries.len())?;
    let mut waiting = Waiting::Nothing;
    for (path, place) in entries.iter() {
        let found = match find_file(alloc, folder, path, place, seen, room) {
            Ok(found) => found,
            Err(fault) => {
                drop(waiting);
                return Err(fault);
            }
        };
        waiting = add(&mut observed, waiting, found)?;
    }
    digest_waiting(&mut observed, waiting)?;
    Ok(observed)
}
