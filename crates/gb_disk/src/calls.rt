//! The calls of a folder on a disk, without the count of its failures.
ghost use Rattle.std.specs.Prelude.{◌≡◌, ◌≢◌, ◌≤◌, ◌<◌, ◌⊎◌, ℕ, List, length, Err, IsErrOf, IfOk};
ghost use Rattle.std.specs.Prelude.{IfErr, OnOk, string_bytes};
ghost use Rattle.std.specs.List.Sorted.{IsStrictlySortedBy};
ghost use Rattle.gb_core.specs.Lists.{byte_order};
ghost use Rattle.gb_disk.specs.Disk.{AllUnder, IsOfListing, IsOfMachine, path_in};

use crate::device::Device;
use crate::entries::in_order;
use crate::entry::{Entry, FileInfo};
use crate::span::Span;
use crate::trail::Trail;
use crate::walk::Found;
use gb_core::place::Place;
use gb_folder::folder::FolderFault;
use std::alloc::{AllocError, Global};
use std::fs::Files;

/// How often a read looks up a file and expects that nobody changes it meanwhile. After that it
/// takes what one open file yields, as for a log that grows all the time.
const LOOKS: u32 = 3;

/// The bytes, if there are at most `limit`.
fn within(bytes: Vec<u8>, limit: u64) -> Result<Vec<u8>, FolderFault>
    ensures ok { IfOk result (λ found. length found.items ≤ limit) }
    ensures err { IfErr result (λ fault. fault ≡ FolderFault.TooLarge) }
{
    if bytes.len() as u64 > limit {
        return Err(FolderFault::TooLarge);
    }
    Ok(bytes)
}

/// The files that a walk under a folder has found. The folder is known from now on, and its file, if
/// it has only one.
fn taken_up(trail: &mut Trail, root: &Place, found: Found) -> Result<Vec<Place>, AllocError>
    ensures { (under : List ℕ) → AllUnder under found.files.items
        → IfOk result (λ places. AllUnder under places.items) }
{
    trail.remember(root.as_str())?;
    trail.take_up(found.files.as_slice(), found.info)?;
    Ok(found.files)
}

impl<R: Files> Device<R> {
    /// The places of the files at or under the root, in byte order.
    pub fn list(
        &self,
        alloc: Global,
        trail: &mut Trail,
        root: &Place,
    ) -> Result<Vec<Place>, FolderFault>
        ensures under { IfOk result (λ places. AllUnder root.now places.items) }
        ensures ordered { IfOk result (λ places. IsStrictlySortedBy byte_order places.items) }
        ensures err { IfErr result IsOfListing }
    {
        trail.forget_listed();
        if let Some(dir) = self.open_expected(trail, root)? {
            let found = self.walk_in(alloc, trail, root, dir)?;
            return Ok(in_order(taken_up(trail, root, found)?));
        }
        let entry = self.look(trail, root)?;
        trail.note_listed(root, matches!(entry, Entry::Folder));
        let places = match entry {
            Entry::File(info) => trail.list_file(alloc, root, info)?,
            Entry::Folder => self.list_folder(alloc, trail, root)?,
            Entry::Nothing | Entry::UnderFile => Vec::new(alloc),
            Entry::Special => return Err(FolderFault::BadFileName),
        };
        Ok(in_order(places))
    }

    /// The places of the files under a folder, in any order.
    fn list_folder(
        &self,
        alloc: Global,
        trail: &mut Trail,
        root: &Place,
    ) -> Result<Vec<Place>, FolderFault>
        ensures under { IfOk result (λ places. AllUnder root.now places.items) }
        ensures err { IfErr result IsOfListing }
    {
        let found = self.walk(alloc, trail, root)?;
        Ok(taken_up(trail, root, found)?)
    }

    /// The bytes of a file of at most `limit` bytes, all from one open file.
    pub fn read(
        &self,
        alloc: Global,
        trail: &mut Trail,
        place: &Place,
        limit: u64,
    ) -> Result<Vec<u8>, FolderFault>
        ensures at { OnOk result
            (string_bytes trail.new.path ≡ path_in (string_bytes self.now.base) place.now) }
        ensures within { IfOk result (λ bytes. length bytes.items ≤ limit) }
        ensures not_named { result ≢ Err FolderFault.BadFileName }
    {
        for _ in 0..LOOKS {
            let info = self.file_at(trail, place)?;
            if info.len > limit {
                return Err(FolderFault::TooLarge);
            }
            // One more byte shows that a file of unknown length is too large.
            let span = Span::of(info.len, 0, limit.saturating_add(1));
            let found = self.bytes_of(alloc, trail.path.as_str(), Some(&info), &span)?;
            if let Some(bytes) = found {
                return within(bytes, limit);
            }
        }
        let span = Span::of(0, 0, limit.saturating_add(1));
        within(self.bytes_now(alloc, trail, place, &span)?, limit)
    }

    /// The bytes of a file from `at` on: `len` of them, or fewer where the file ended at its
    /// look-up.
    pub fn read_part(
        &self,
        alloc: Global,
        trail: &mut Trail,
        place: &Place,
        at: u64,
        len: u64,
    ) -> Result<Vec<u8>, FolderFault>
        ensures at { OnOk result
            (string_bytes trail.new.path ≡ path_in (string_bytes self.now.base) place.now) }
        ensures within { IfOk result (λ part. length part.items ≤ len) }
        ensures not_large { result ≢ Err FolderFault.TooLarge }
        ensures not_named { result ≢ Err FolderFault.BadFileName }
    {
        for _ in 0..LOOKS {
            let info = self.file_at(trail, place)?;
            let span = Span::of(info.len, at, len);
            if span.most == 0 {
                return Ok(Vec::new(alloc));
            }
            let found = self.bytes_of(alloc, trail.path.as_str(), Some(&info), &span)?;
            if let Some(part) = found {
                return Ok(part);
            }
        }
        self.bytes_now(alloc, trail, place, &Span::of(0, at, len))
    }

    /// The bytes of a span that one open file yields up to its end, whoever writes to it.
    fn bytes_now(
        &self,
        alloc: Global,
        trail: &mut Trail,
        place: &Place,
        span: &Span,
    ) -> Result<Vec<u8>, FolderFault>
        ensures at { OnOk result
            (string_bytes trail.new.path ≡ path_in (string_bytes self.now.base) place.now) }
        ensures within { IfOk result (λ bytes. length bytes.items ≤ span.now.most) }
        ensures err { IfErr result
            (λ fault. IsOfMachine fault ⊎ (fault ≡ FolderFault.Missing) ⊎ (fault ≡ FolderFault.Blocked)) }
    {
        self.file_at(trail, place)?;
        match self.bytes_of(alloc, trail.path.as_str(), None, span)? {
            Some(bytes) => Ok(bytes),
            None => Err(FolderFault::Device),
        }
    }

    /// Writes a file, and replaces what was at its place.
    pub fn write(
        &self,
        trail: &mut Trail,
        place: &Place,
        bytes: &[u8],
        limit: u64,
    ) -> Result<(), FolderFault>
        ensures at { OnOk result
            (string_bytes trail.new.path ≡ path_in (string_bytes self.now.base) place.now) }
        ensures within { OnOk result (length bytes.now ≤ limit) }
        ensures large { IsErrOf result FolderFault.TooLarge → limit < length bytes.now }
        ensures not_missing { result ≢ Err FolderFault.Missing }
        ensures not_named { result ≢ Err FolderFault.BadFileName }
    {
        if bytes.len() as u64 > limit {
            return Err(FolderFault::TooLarge);
        }
        trail.forget_listed();
        match self.go_to(&mut trail.path, place, true)? {
            Entry::Nothing | Entry::File(_) => {}
            Entry::Folder => self.clear(trail, place)?,
            Entry::Special => return Err(FolderFault::Device),
            Entry::UnderFile => return Err(FolderFault::Blocked),
        }
        self.put(trail, place, bytes)
    }

    /// Removes a file.
    pub fn remove(&self, trail: &mut Trail, place: &Place) -> Result<(), FolderFault>
        ensures at { OnOk result
            (string_bytes trail.new.path ≡ path_in (string_bytes self.now.base) place.now) }
        ensures not_large { result ≢ Err FolderFault.TooLarge }
        ensures not_named { result ≢ Err FolderFault.BadFileName }
    {
        trail.forget();
        self.file_at(trail, place)?;
        self.unlink(&mut trail.path, place)
    }

    /// The length and the time of the file at a place, or why there is none.
    fn file_at(&self, trail: &mut Trail, place: &Place) -> Result<FileInfo, FolderFault>
        ensures at { OnOk result
            (string_bytes trail.new.path ≡ path_in (string_bytes self.now.base) place.now) }
        ensures err { IfErr result
            (λ fault. IsOfMachine fault ⊎ (fault ≡ FolderFault.Missing) ⊎ (fault ≡ FolderFault.Blocked)) }
    {
        match self.look_once(trail, place)? {
            Entry::File(info) => Ok(info),
            Entry::Folder if self.has_file(trail, place)? => Err(FolderFault::Blocked),
            Entry::Folder | Entry::Nothing => Err(FolderFault::Missing),
            Entry::Special => Err(FolderFault::Device),
            Entry::UnderFile => Err(FolderFault::Blocked),
        }
    }

    /// Whether a file exists under the folder at a place.
    fn has_file(&self, trail: &mut Trail, place: &Place) -> Result<bool, FolderFault>
        ensures { IfErr result IsOfMachine }
    {
        Ok(!self.walk_through(trail, place)?.files.is_empty())
    }

    /// Removes the folder at a place, which contains no file.
    fn clear(&self, trail: &mut Trail, place: &Place) -> Result<(), FolderFault>
        ensures { IfErr result (λ fault. IsOfMachine fault ⊎ (fault ≡ FolderFault.Blocked)) }
    {
        let found = self.walk_through(trail, place)?;
        if !found.files.is_empty() {
            return Err(FolderFault::Blocked);
        }
        trail.forget();
        for folder in found.folders.iter().rev() {
            self.remove_folder(&mut trail.path, folder)?;
        }
        Ok(())
    }

    /// Walks through a folder without reporting a name: a bad name is a failure of the device.
    fn walk_through(&self, trail: &mut Trail, place: &Place) -> Result<Found, FolderFault>
        ensures { IfErr result IsOfMachine }
    {
        match self.walk(self.allocator(), trail, place) {
            Err(FolderFault::OutOfMemory) => Err(FolderFault::OutOfMemory),
            Err(_) => Err(FolderFault::Device),
            found => found,
        }
    }
}
