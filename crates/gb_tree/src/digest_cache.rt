//! The digests of files that were read since the last change that the build asked for.
ghost use Rattle.std.specs.Prelude.{◌≡◌, ◌++◌, List, [], IfOk, IfSome};
ghost use Rattle.std.specs.List.{Contains};
ghost use Rattle.gb_tree.specs.DigestCache.{AreAmong, CachedFile, places_read, seen_in};

use crate::kept::{Reading, ScannedFile};
use gb_core::place::Place;
use std::alloc::{AllocError, Global};
use std::marker::Model;

/// Of so many readings the digests are kept.
const READINGS: usize = 8;

/// The digests of files that were read since the last change that the build asked for.
#[derive(Drop)]
pub struct DigestCache {
    /// Those of one reading are in its order, which for an output is that of the places. The last
    /// reading comes first.
    readings: Vec<Vec<(Place, [u8; 32])>>,
}

impl Model for DigestCache {
    ghost use Rattle.std.specs.Prelude.{List};
    ghost use Rattle.std.specs.List.{flat_map};
    ghost use Rattle.gb_tree.specs.DigestCache.{CachedFile};

    ghost Value = { List CachedFile };

    ghost view = { λ s. flat_map (λ files. files.items) s.readings.items };
}

impl DigestCache {
    /// No files. It takes no memory.
    pub fn new(alloc: Global) -> DigestCache
        ensures { result ≡ [] }
    {
        DigestCache {
            readings: Vec::new(alloc),
        }
    }

    /// Forgets all files.
    pub fn forget(&mut self)
        ensures { self.new ≡ [] }
    {
        self.readings.clear();
    }

    /// Remembers the files of these readings too, without the bytes that are kept of them. Of more
    /// than 8 readings the oldest are forgotten, and where memory lacks, all that were remembered.
    pub fn remember(&mut self, alloc: Global, readings: Vec<Reading>)
        ensures { AreAmong self.new (self.old ++ seen_in readings.items) }
    {
        for reading in readings {
            self.add_new(alloc, reading.into_files());
        }
    }

    /// Remembers the files of one reading too, unless the first of them is remembered already.
    fn add_new(&mut self, alloc: Global, files: Vec<ScannedFile>)
        ensures { AreAmong self.new (self.old ++ places_read files.items) }
    {
        if !self.has_first(files.as_slice()) {
            self.add(alloc, files);
        }
    }

    /// Remembers the files of one reading too.
    pub(crate) fn add(&mut self, alloc: Global, files: Vec<ScannedFile>)
        ensures { AreAmong self.new (self.old ++ places_read files.items) }
    {
        self.drop_oldest();
        match places_read(alloc, files) {
            Ok(places) => self.push(places),
            Err(_) => self.forget(),
        }
    }

    /// Whether the first of these files is remembered.
    fn has_first(&self, files: &[ScannedFile]) -> bool {
        files
            .first()
            .is_some_and(|file| self.digest_at(&file.place).is_some())
    }

    /// Forgets the oldest reading, where there is room for no other.
    fn drop_oldest(&mut self)
        ensures { (forgotten : List CachedFile) × (self.new ++ forgotten ≡ self.old) }
    {
        if self.readings.len() >= READINGS {
            self.readings.pop();
        }
    }

    /// Remembers these files too. Where memory lacks, all are forgotten.
    fn push(&mut self, places: Vec<(Place, [u8; 32])>)
        ensures { AreAmong self.new (self.old ++ places.items) }
    {
        if self.readings.insert(0, places).is_err() {
            self.forget();
        }
    }

    /// The digest of the file at the place, if it is remembered. It is found in a reading that is
    /// in the order of its places; in another it may be missed.
    pub fn digest_at(&self, place: &Place) -> Option<[u8; 32]>
        ensures { IfSome result (λ digest. Contains self.now (place.now, digest)) }
    {
        for files in self.readings.iter() {
            if let Some(digest) = digest_among(files.as_slice(), place) {
                return Some(digest);
            }
        }
        None
    }

    /// Whether a file at or under the root is remembered. It is found in a reading that is in the
    /// order of its places; in another it may be missed, and so it may where places between have
    /// the root's text as a beginning. Only speed depends on it.
    pub fn serves(&self, root: &Place) -> bool {
        self.readings
            .iter()
            .any(|files| has_at(files.as_slice(), root))
    }
}

/// The places of the files, with their digests.
fn places_read(alloc: Global, files: Vec<ScannedFile>) -> Result<Vec<(Place, [u8; 32])>, AllocError>
    ensures { IfOk result (λ places. places.items ≡ places_read files.items) }
{
    let mut places = Vec::with_capacity(alloc, files.len())?;
    for file in files {
        let digest = file.digest;
        places.push((file.place, digest))?;
    }
    Ok(places)
}

/// Whether the place is not before the first and not after the last of these files.
fn may_have(files: &[(Place, [u8; 32])], place: &Place) -> bool {
    match (files.first(), files.last()) {
        (Some(first), Some(last)) => first.0 <= *place && *place <= last.0,
        _ => false,
    }
}

/// Whether one of these files is at the root, or the next one in their order is beneath it.
fn has_at(files: &[(Place, [u8; 32])], root: &Place) -> bool {
    match files.binary_search_by(|file| file.0.cmp(root)) {
        Ok(_) => true,
        Err(at) => files.get(at).is_some_and(|file| file.0.is_beneath(root)),
    }
}

/// The digest of the file at the place, if it is among these files, which are in the order of their
/// places.
fn digest_among(files: &[(Place, [u8; 32])], place: &Place) -> Option<[u8; 32]>
    ensures { IfSome result (λ digest. Contains files.now (place.now, digest)) }
{
    if !may_have(files, place) {
        return None;
    }
    match files.binary_search_by(|file| file.0.cmp(place)) {
        Ok(at) => Some(files[at].1),
        Err(_) => None,
    }
}
