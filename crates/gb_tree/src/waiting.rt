//! Small files that were read wait for one another: as soon as there are four, they are digested
//! together.
ghost use Rattle.std.specs.Prelude.{◌≡◌, ◌++◌, [], ◌∷◌, IfOk, OnOk};
ghost use Rattle.gb_tree.specs.Waiting.{file_in, file_of, waiting_files};
ghost use Rattle.sha2.specs.Sha256.{sha256};

use crate::kept::ScannedFile;
use gb_core::bytes::Bytes;
use gb_core::place::{Place, RelPath};
use gb_lanes::digest_four;
use sha2::{Digest, Sha256};
use std::alloc::AllocError;

/// A small file that was read and is not digested yet.
#[derive(Drop)]
pub(crate) struct SmallFile {
    /// Its path in the tree.
    pub path: RelPath,
    /// Where it is.
    pub place: Place,
    /// Its bytes.
    pub bytes: Bytes,
    /// Whether they are kept once they are digested.
    pub is_kept: bool,
}

/// A file that was read.
#[derive(Drop)]
pub(crate) enum Found {
    /// A small one, which may wait for others.
    Small(SmallFile),
    /// One that was digested as it was read.
    Observed(ScannedFile),
}

/// The small files that wait, in their order.
#[derive(Drop)]
pub(crate) enum Waiting {
    Nothing,
    One(SmallFile),
    Two(SmallFile, SmallFile),
    Three(SmallFile, SmallFile, SmallFile),
}

/// A small file with the digest of its bytes.
fn with_digest(small: SmallFile, digest: [u8; 32]) -> ScannedFile
    requires { digest ≡ sha256 small.bytes }
    ensures { result ≡ file_of small }
{
    let SmallFile {
        path,
        place,
        bytes,
        is_kept,
    } = small;
    let kept = if is_kept { Some(bytes) } else { None };
    ScannedFile {
        path,
        place,
        digest,
        kept,
    }
}

/// Appends a small file with its digest to the files read before.
fn push_with(
    observed: &mut Vec<ScannedFile>,
    small: SmallFile,
    digest: [u8; 32],
) -> Result<(), AllocError>
    requires { digest ≡ sha256 small.bytes }
    ensures { OnOk result (observed.new.items ≡ observed.old.items ++ file_of small ∷ []) }
{
    observed.push(with_digest(small, digest))?;
    Ok(())
}

/// Appends two small files with their digests to the files read before.
fn push_both_with(
    observed: &mut Vec<ScannedFile>,
    first: SmallFile,
    second: SmallFile,
    digests: ([u8; 32], [u8; 32]),
) -> Result<(), AllocError>
    requires first { digests.0 ≡ sha256 first.bytes }
    requires second { digests.1 ≡ sha256 second.bytes }
    ensures { OnOk result (observed.new.items ≡ observed.old.items ++ file_of first ∷ file_of second ∷ []) }
{
    push_with(observed, first, digests.0)?;
    push_with(observed, second, digests.1)
}

/// Digests four files together and appends them to the files read before.
fn push_four(
    observed: &mut Vec<ScannedFile>,
    first: SmallFile,
    second: SmallFile,
    third: SmallFile,
    fourth: SmallFile,
) -> Result<(), AllocError>
    ensures { OnOk result (observed.new.items ≡ observed.old.items
        ++ file_of first ∷ file_of second ∷ file_of third ∷ file_of fourth ∷ []) }
{
    let digests = digest_four(
        first.bytes.as_slice(),
        second.bytes.as_slice(),
        third.bytes.as_slice(),
        fourth.bytes.as_slice(),
    );
    if let Err(error) = push_both_with(observed, first, second, (digests[0], digests[1])) {
        drop(third);
        drop(fourth);
        return Err(error);
    }
    push_both_with(observed, third, fourth, (digests[2], digests[3]))
}

/// Digests one file and appends it to the files read before.
fn push_one(observed: &mut Vec<ScannedFile>, small: SmallFile) -> Result<(), AllocError>
    ensures { OnOk result (observed.new.items ≡ observed.old.items ++ file_of small ∷ []) }
{
    let digest = Sha256::digest(small.bytes.as_slice());
    push_with(observed, small, digest)
}

/// Digests two files, one after the other, and appends them to the files read before.
fn push_two(
    observed: &mut Vec<ScannedFile>,
    first: SmallFile,
    second: SmallFile,
) -> Result<(), AllocError>
    ensures { OnOk result (observed.new.items ≡ observed.old.items ++ file_of first ∷ file_of second ∷ []) }
{
    push_one(observed, first)?;
    push_one(observed, second)
}

/// Digests three files, one after another, and appends them to the files read before.
fn push_three(
    observed: &mut Vec<ScannedFile>,
    first: SmallFile,
    second: SmallFile,
    third: SmallFile,
) -> Result<(), AllocError>
    ensures { OnOk result (observed.new.items
        ≡ observed.old.items ++ file_of first ∷ file_of second ∷ file_of third ∷ []) }
{
    push_two(observed, first, second)?;
    push_one(observed, third)
}

/// Digests the files that wait, one after another, and appends them to the files read before.
pub(crate) fn digest_waiting(
    observed: &mut Vec<ScannedFile>,
    waiting: Waiting,
) -> Result<(), AllocError>
    ensures { OnOk result (observed.new.items ≡ observed.old.items ++ waiting_files waiting) }
{
    match waiting {
        Waiting::Nothing => Ok(()),
        Waiting::One(first) => push_one(observed, first),
        Waiting::Two(first, second) => push_two(observed, first, second),
        Waiting::Three(first, second, third) => push_three(observed, first, second, third),
    }
}

/// One small file more: it waits, or is digested with the three that do.
fn add_small(
    observed: &mut Vec<ScannedFile>,
    waiting: Waiting,
    small: SmallFile,
) -> Result<Waiting, AllocError>
    ensures { IfOk result (λ left. observed.new.items ++ waiting_files left
        ≡ (observed.old.items ++ waiting_files waiting) ++ file_of small ∷ []) }
{
    match waiting {
        Waiting::Nothing => Ok(Waiting::One(small)),
        Waiting::One(first) => Ok(Waiting::Two(first, small)),
        Waiting::Two(first, second) => Ok(Waiting::Three(first, second, small)),
        Waiting::Three(first, second, third) => {
            push_four(observed, first, second, third, small)?;
            Ok(Waiting::Nothing)
        }
    }
}

/// Adds one file after those read before and those that wait. A file that need not wait follows
/// them once they are digested.
pub(crate) fn add(
    observed: &mut Vec<ScannedFile>,
    waiting: Waiting,
    found: Found,
) -> Result<Waiting, AllocError>
    ensures { IfOk result (λ left. observed.new.items ++ waiting_files left
        ≡ (observed.old.items ++ waiting_files waiting) ++ file_in found ∷ []) }
{
    match found {
        Found::Small(small) => add_small(observed, waiting, small),
        Found::Observed(file) => {
            digest_waiting(observed, waiting)?;
            observed.push(file)?;
            Ok(Waiting::Nothing)
        }
    }
}
