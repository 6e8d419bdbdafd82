//! Lists files and reads or digests them, one after another.
ghost use Rattle.std.specs.Prelude.{◌≡◌, ◌≤◌, ◌⊎◌, [], length, take, drop, false, true, IsTrue};
ghost use Rattle.std.specs.Prelude.{IsSome, IfOk, IfErr, OnOk};
ghost use Rattle.std.specs.List.{AllByRecursion, AllPass};
ghost use Rattle.std.specs.List.Sorted.{IsStrictlySortedBy};
ghost use Rattle.std.specs.FinMap.Entries.{is_sorted};
ghost use Rattle.gb_core.specs.Place.{is_under};
ghost use Rattle.gb_core.specs.Lists.{byte_order};
ghost use Rattle.gb_folder.specs.Answers.{WereListed, WereRead};
ghost use Rattle.gb_folder.specs.Calls.{OnlyReads};
ghost use Rattle.gb_folder.specs.Files.{file_at, is_special_under, places_under};
ghost use Rattle.gb_tree.specs.Answered.{IsTreeFaultBetween};
ghost use Rattle.gb_tree.specs.Tree.{Blames, IsRefused, bytes_at, contents_at};
ghost use Rattle.gb_tree.specs.Tree.{is_among, is_large, too_large};
ghost use Rattle.gb_tree.specs.Prints.{digests_of};
ghost use Rattle.sha2.specs.Sha256.{sha256};

use crate::fault::{TreeFault, fault_at};
use gb_action::files::Files;
use gb_core::bytes::Bytes;
use gb_core::place::{Place, RelPath};
use gb_folder::calls::{list, read, read_part};
use gb_folder::folder::Folder;
use gb_folder::limits::MAX_FILE;
use sha2::{Digest, Sha256};
use std::alloc::Global;

/// The bytes of a piece of a file that is digested.
pub(crate) const PIECE: u64 = 65_536;

/// How many of them make up the largest file.
pub(crate) const PIECES: u64 = 128;

/// The places of the files at or under one place.
pub(crate) fn listed<F: Folder>(
    alloc: Global,
    folder: &mut F,
    place: &Place,
) -> Result<Vec<Place>, TreeFault>
    ensures reads { OnlyReads F.device folder.old folder.new }
    ensures blame { Blames (λ at. at ≡ place.now)
        (F.device.failures folder.old) (F.device.failures folder.new) result }
    ensures under { IfOk result (λ places. AllPass (λ at. is_under at place.now) places.items) }
    ensures ordered { IfOk result (λ places. IsStrictlySortedBy byte_order places.items) }
    ensures answered { IfOk result (λ places. WereListed F.device
        folder.old folder.new place.now places.items) }
    ensures listed { F.device.faithful folder.new → IfOk result
        (λ places. places.items ≡ places_under (F.device.contents folder.old).files place.now) }
    ensures none_special { F.device.faithful folder.new → OnOk result
        (is_special_under (F.device.contents folder.old) place.now ≡ false) }
    ensures special { F.device.faithful folder.new → IfErr result
        (λ fault. IsTreeFaultBetween F.device folder.old folder.new fault
        ⊎ (IsTrue (is_special_under (F.device.contents folder.old) place.now)
        × (fault ≡ TreeFault.BadFileName place.now))) }
{
    list(alloc, folder, place).map_err(|fault| fault_at(fault, place))
}

/// The bytes of one file.
pub(crate) fn read_file<F: Folder>(
    alloc: Global,
    folder: &mut F,
    place: &Place,
) -> Result<Bytes, TreeFault>
    ensures reads { OnlyReads F.device folder.old folder.new }
    ensures blame { Blames (λ at. at ≡ place.now)
        (F.device.failures folder.old) (F.device.failures folder.new) result }
    ensures answered { IfOk result (λ bytes. WereRead F.device
        folder.old folder.new place.now bytes) }
    ensures err { F.device.faithful folder.new
        → IsSome (file_at (F.device.contents folder.old).files place.now)
        → IfErr result (λ fault. IsTreeFaultBetween F.device folder.old folder.new fault
        ⊎ ((is_large (F.device.contents folder.old).files place.now ≡ true)
        × (fault ≡ TreeFault.TooLarge place.now))) }
{
    match read(alloc, folder, place, MAX_FILE) {
        Ok(bytes) => Ok(Bytes::new(bytes)),
        Err(fault) => Err(fault_at(fault, place)),
    }
}

/// The files at these places, by their paths.
pub(crate) fn read_all<F: Folder>(
    alloc: Global,
    folder: &mut F,
    entries: &[(RelPath, Place)],
) -> Result<Files, TreeFault>
    requires { IsTrue (is_sorted byte_order entries.now) }
    ensures reads { OnlyReads F.device folder.old folder.new }
    ensures blame { Blames (λ at. IsTrue (is_among entries.now at))
        (F.device.failures folder.old) (F.device.failures folder.new) result }
    ensures read { F.device.faithful folder.new → IfOk result
        (λ files. files ≡ contents_at (F.device.contents folder.old).files entries.now) }
    ensures small { F.device.faithful folder.new → OnOk result
        (too_large (F.device.contents folder.old).files entries.now ≡ []) }
    ensures err { F.device.faithful folder.new
        → AllByRecursion (λ entry. IsSome (file_at (F.device.contents folder.old).files entry.1)) entries.now
        → IfErr result (λ fault.
        IsRefused (F.device.failures folder.old) (F.device.failures folder.new)
        (too_large (F.device.contents folder.old).files entries.now) fault) }
{
    let mut files = Files::new(alloc);
    for (path, place) in entries.iter() {
        let bytes = read_file(alloc, folder, place)?;
        files.insert(path.copy()?, bytes)?;
    }
    Ok(files)
}

/// A piece of one file.
pub(crate) fn read_piece<F: Folder>(
    alloc: Global,
    folder: &mut F,
    place: &Place,
    at: u64,
    len: u64,
) -> Result<Vec<u8>, TreeFault>
    ensures reads { OnlyReads F.device folder.old folder.new }
    ensures blame { Blames (λ at. at ≡ place.now)
        (F.device.failures folder.old) (F.device.failures folder.new) result }
    ensures within { IfOk result (λ piece. length piece.items ≤ len) }
    ensures read { F.device.faithful folder.new → IfOk result
        (λ piece. piece.items ≡ take len (drop at (bytes_at (F.device.contents folder.old).files
        place.now))) }
    ensures exists { F.device.faithful folder.new → OnOk result
        (IsSome (file_at (F.device.contents folder.old).files place.now)) }
    ensures err { F.device.faithful folder.new
        → IsSome (file_at (F.device.contents folder.old).files place.now)
        → IfErr result (λ fault. IsTreeFaultBetween F.device folder.old folder.new fault) }
{
    match read_part(alloc, folder, place, at, len) {
        Ok(piece) => Ok(piece),
        Err(fault) => Err(fault_at(fault, place)),
    }
}

/// The digest of one file. One piece of it is in memory at a time.
fn digest_file<F: Folder>(
    alloc: Global,
    folder: &mut F,
    place: &Place,
) -> Result<[u8; 32], TreeFault>
    ensures reads { OnlyReads F.device folder.old folder.new }
    ensures blame { Blames (λ at. at ≡ place.now)
        (F.device.failures folder.old) (F.device.failures folder.new) result }
    ensures digest { F.device.faithful folder.new → IfOk result
        (λ digest. digest ≡ sha256 (bytes_at (F.device.contents folder.old).files place.now)) }
    ensures small { F.device.faithful folder.new → OnOk result
        (is_large (F.device.contents folder.old).files place.now ≡ false) }
    ensures err { F.device.faithful folder.new
        → IsSome (file_at (F.device.contents folder.old).files place.now)
        → IfErr result (λ fault. IsTreeFaultBetween F.device folder.old folder.new fault
        ⊎ ((is_large (F.device.contents folder.old).files place.now ≡ true)
        × (fault ≡ TreeFault.TooLarge place.now))) }
{
    let mut hasher = Sha256::new();
    for index in 0..PIECES {
        let piece = read_piece(alloc, folder, place, index * PIECE, PIECE)?;
        hasher.update(piece.as_slice());
        if (piece.len() as u64) < PIECE {
            return Ok(hasher.finalize());
        }
    }
    let more = read_piece(alloc, folder, place, MAX_FILE, 1)?;
    if more.as_slice().is_empty() {
        Ok(hasher.finalize())
    } else {
        Err(TreeFault::TooLarge(place.copy()?))
    }
}

/// The digests of the files at these places, by their paths.
pub(crate) fn digest_all<F: Folder>(
    alloc: Global,
    folder: &mut F,
    entries: &[(RelPath, Place)],
) -> Result<Vec<(RelPath, [u8; 32])>, TreeFault>
    requires { IsTrue (is_sorted byte_order entries.now) }
    ensures reads { OnlyReads F.device folder.old folder.new }
    ensures blame { Blames (λ at. IsTrue (is_among entries.now at))
        (F.device.failures folder.old) (F.device.failures folder.new) result }
    ensures ordered { IfOk result (λ digests. IsTrue (is_sorted byte_order digests.items)) }
    ensures digests { F.device.faithful folder.new → IfOk result
        (λ digests. digests.items ≡ digests_of (contents_at (F.device.contents folder.old).files
        entries.now)) }
    ensures small { F.device.faithful folder.new → OnOk result
        (too_large (F.device.contents folder.old).files entries.now ≡ []) }
    ensures err { F.device.faithful folder.new
        → AllByRecursion (λ entry. IsSome (file_at (F.device.contents folder.old).files entry.1)) entries.now
        → IfErr result (λ fault.
        IsRefused (F.device.failures folder.old) (F.device.failures folder.new)
        (too_large (F.device.contents folder.old).files entries.now) fault) }
{
    let mut digests = Vec::with_capacity(alloc, entries.len())?;
    for (path, place) in entries.iter() {
        let digest = digest_file(alloc, folder, place)?;
        digests.push((path.copy()?, digest))?;
    }
    Ok(digests)
}
