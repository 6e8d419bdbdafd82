//! Reads files before it is their turn, so that files of different tasks are digested four at a
//! time.
ghost use Rattle.std.specs.Prelude.{◌≡◌, ◌++◌, IfOk, IfSome};
ghost use Rattle.gb_folder.specs.Calls.{OnlyReads, Requests, no_change};
ghost use Rattle.gb_tree.specs.Answered.{WasObserved, WereObserved};
ghost use Rattle.gb_tree.specs.DigestCache.{AreCached};
ghost use Rattle.gb_tree.specs.Waiting.{file_in, waiting_files};

use crate::digest_cache::DigestCache;
use crate::kept::ScannedFile;
use crate::reading::listed;
use crate::scanning::scan_file;
use crate::waiting::{Found, Waiting, add, digest_waiting};
use gb_core::place::{Place, RelPath};
use gb_folder::folder::Folder;
use std::alloc::{AllocError, Global};

/// A root with more files is passed over.
const FEW: usize = 16;

/// Lists these roots, reads the files there, and remembers their digests. A root with more than 16
/// files is passed over, and so is what cannot be listed or read. Where memory lacks, nothing more
/// is remembered. If the files of all roots are not in their order, some may not be found later.
pub fn read_ahead<F: Folder>(alloc: Global, folder: &mut F, roots: &[Place], seen: &mut DigestCache)
    ensures reads { OnlyReads F.device folder.old folder.new }
    ensures seen { (since : _) → Requests F.device no_change since folder.old
        → AreCached F.device since folder.old seen.old
        → AreCached F.device since folder.new seen.new }
{
    if roots.is_empty() {
        return;
    }
    match scan_roots(alloc, folder, roots) {
        Ok(files) => seen.add(alloc, files),
        Err(_) => {}
    }
}

/// The files at these roots.
fn scan_roots<F: Folder>(
    alloc: Global,
    folder: &mut F,
    roots: &[Place],
) -> Result<Vec<ScannedFile>, AllocError>
    ensures reads { OnlyReads F.device folder.old folder.new }
    ensures answered { IfOk result
        (λ files. WereObserved F.device folder.old folder.new files.items) }
{
    let mut files = Vec::with_capacity(alloc, roots.len())?;
    let mut waiting = Waiting::Nothing;
    for root in roots.iter() {
        waiting = scan_root(alloc, folder, root, &mut files, waiting)?;
    }
    digest_waiting(&mut files, waiting)?;
    Ok(files)
}

/// Adds the files at one root, after those read before and those that wait.
fn scan_root<F: Folder>(
    alloc: Global,
    folder: &mut F,
    root: &Place,
    files: &mut Vec<ScannedFile>,
    waiting: Waiting,
) -> Result<Waiting, AllocError>
    ensures reads { OnlyReads F.device folder.old folder.new }
    ensures answered { (first : _) → Requests F.device no_change first folder.old
        → WereObserved F.device first folder.old
        (files.old.items ++ waiting_files waiting)
        → IfOk result (λ left. WereObserved F.device first folder.new
        (files.new.items ++ waiting_files left)) }
{
    let places = few_at(alloc, folder, root);
    let mut waiting = waiting;
    for place in places.iter() {
        match scan_place(alloc, folder, place) {
            Some(found) => waiting = add(files, waiting, found)?,
            None => {}
        }
    }
    Ok(waiting)
}

/// The places of the files at the root; none if they are many or it cannot be listed.
fn few_at<F: Folder>(alloc: Global, folder: &mut F, root: &Place) -> Vec<Place>
    ensures reads { OnlyReads F.device folder.old folder.new }
{
    match listed(alloc, folder, root) {
        Ok(places) => few(alloc, places),
        Err(fault) => {
            drop(fault);
            Vec::new(alloc)
        }
    }
}

/// These places, if they are few.
fn few(alloc: Global, places: Vec<Place>) -> Vec<Place> {
    if places.len() <= FEW {
        places
    } else {
        Vec::new(alloc)
    }
}

/// The file at the place, if it can be read.
fn scan_place<F: Folder>(alloc: Global, folder: &mut F, place: &Place) -> Option<Found>
    ensures reads { OnlyReads F.device folder.old folder.new }
    ensures answered { IfSome result
        (λ found. WasObserved F.device folder.old folder.new (file_in found)) }
{
    let path = RelPath::read(alloc, "").ok()?;
    scan_file(alloc, folder, &path, place, &mut 0).ok()
}
