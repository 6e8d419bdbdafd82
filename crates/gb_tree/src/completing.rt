//! Completes a reading: the files whose bytes were not kept are read and digested again.
ghost use Rattle.std.specs.Prelude.{◌≡◌, ◌++◌, ◌∷◌, [], map, IsTrue, IfOk, IfErr, OnOk};
ghost use Rattle.std.specs.List.{AllByRecursion};
ghost use Rattle.std.specs.FinMap.Entries.{is_sorted, put};
ghost use Rattle.gb_core.specs.Lists.{byte_order};
ghost use Rattle.gb_folder.specs.Answers.{WereRead};
ghost use Rattle.gb_folder.specs.Calls.{OnlyReads, Requests, no_change};
ghost use Rattle.gb_tree.specs.Tree.{Blames, bytes_at, contents_at, is_among};
ghost use Rattle.gb_tree.specs.Prints.{digests_of};
ghost use Rattle.gb_tree.specs.Answered.{IsTreeFaultBetween, IsTreeRead, WasObserved, WereObserved};
ghost use Rattle.gb_tree.specs.Reading.{IsReading, IsObservedIn, entries_observed, is_digest_of};
ghost use Rattle.sha2.specs.Sha256.{sha256};

use crate::fault::TreeFault;
use crate::kept::ScannedFile;
use crate::reading::read_file;
use gb_action::files::Files;
use gb_core::bytes::Bytes;
use gb_core::place::RelPath;
use gb_folder::folder::Folder;
use sha2::{Digest, Sha256};
use std::alloc::{AllocError, Global};

/// The path of one file, its bytes and their digest.
fn complete<F: Folder>(
    alloc: Global,
    folder: &mut F,
    observed: ScannedFile,
) -> Result<(RelPath, Bytes, [u8; 32]), TreeFault>
    requires { IsTrue (is_digest_of observed.kept observed.digest) }
    ensures reads { OnlyReads F.device folder.old folder.new }
    ensures blame { Blames (λ at. at ≡ observed.place)
        (F.device.failures folder.old) (F.device.failures folder.new) result }
    ensures path { IfOk result (λ made. made.0 ≡ observed.path) }
    ensures digest { IfOk result (λ made. made.2 ≡ sha256 made.1) }
    ensures answered { (first : _) → Requests F.device no_change first folder.old
        → WasObserved F.device first folder.old observed
        → IfOk result
        (λ made. WereRead F.device first folder.new observed.place made.1) }
    ensures read { F.device.faithful folder.new → IsObservedIn (F.device.contents folder.old).files observed
        → IfOk result (λ made. made.1 ≡ bytes_at (F.device.contents folder.old).files observed.place) }
    ensures err { F.device.faithful folder.new → IsObservedIn (F.device.contents folder.old).files observed
        → IfErr result (IsTreeFaultBetween F.device folder.old folder.new) }
{
    let ScannedFile {
        path,
        place,
        digest,
        kept,
    } = observed;
    if let Some(bytes) = kept {
        return Ok((path, bytes, digest));
    }
    let bytes = read_file(alloc, folder, &place)?;
    let recheck = Sha256::digest(bytes.as_slice());
    Ok((path, bytes, recheck))
}

/// Adds one file, with its digest after those of the others.
fn add(
    files: &mut Files,
    digests: &mut Vec<(RelPath, [u8; 32])>,
    path: RelPath,
    bytes: Bytes,
    digest: [u8; 32],
) -> Result<(), AllocError>
    ensures files { OnOk result (files.new ≡ put byte_order path bytes files.old) }
    ensures digests { OnOk result (digests.new.items ≡ digests.old.items ++ (path, digest) ∷ []) }
{
    digests.push((path.copy()?, digest))?;
    files.insert(path, bytes)
}

/// The bytes of the files and their digests, by their paths.
pub(crate) fn complete_all<F: Folder>(
    alloc: Global,
    folder: &mut F,
    observed: Vec<ScannedFile>,
) -> Result<(Files, Vec<(RelPath, [u8; 32])>), TreeFault>
    requires { IsReading observed.items }
    ensures reads { OnlyReads F.device folder.old folder.new }
    ensures blame { Blames (λ at. IsTrue (is_among (entries_observed observed.items) at))
        (F.device.failures folder.old) (F.device.failures folder.new) result }
    ensures digests { IfOk result (λ made. made.1.items ≡ digests_of made.0) }
    ensures ordered { IfOk result (λ made. IsTrue (is_sorted byte_order made.1.items)) }
    ensures paths { IfOk result
        (λ made. map (λ file. file.0) made.0 ≡ map (λ file. file.path) observed.items) }
    ensures answered { (first : _) → Requests F.device no_change first folder.old
        → WereObserved F.device first folder.old observed.items
        → IfOk result (λ made. IsTreeRead F.device first folder.new
        (entries_observed observed.items) made.0) }
    ensures read { F.device.faithful folder.new
        → AllByRecursion (IsObservedIn (F.device.contents folder.old).files)
        observed.items
        → IfOk result (λ made. made.0 ≡ contents_at (F.device.contents folder.old).files
        (entries_observed observed.items)) }
    ensures err { F.device.faithful folder.new
        → AllByRecursion (IsObservedIn (F.device.contents folder.old).files)
        observed.items
        → IfErr result (IsTreeFaultBetween F.device folder.old folder.new) }
{
    let mut digests = Vec::with_capacity(alloc, observed.len())?;
    let mut files = Files::new(alloc);
    for one in observed {
        let made = complete(alloc, folder, one)?;
        add(&mut files, &mut digests, made.0, made.1, made.2)?;
    }
    Ok((files, digests))
}
