//! What exists under a folder.
ghost use Rattle.std.specs.Prelude.{◌≡◌, ◌≤◌, ℕ, List, length, IsTrue, IfOk, IfSome, IfErr};
ghost use Rattle.gb_core.specs.Place.{is_under};
ghost use Rattle.gb_disk.specs.Disk.{AllUnder, IsOfListing, IsOfMachine};

use crate::device::Device;
use crate::entries::{only, places_in};
use crate::entry::{Entry, FileInfo, fault_of};
use crate::trail::Trail;
use gb_core::place::Place;
use gb_folder::folder::FolderFault;
use std::alloc::{AllocError, Global};
use std::fs::Files;
use std::io::{ErrorKind, Read};

/// A walk that finds more entries is a failure of the device.
const MOST_ENTRIES: u64 = 1 << 32;

/// The number of bytes of names that are read at once.
const NAMES: usize = 4_096;

/// What a walk under a root has found.
#[derive(Drop)]
pub(crate) struct Found {
    /// The files found so far, by their whole places.
    pub files: Vec<Place>,
    /// The length and the time of the file found last.
    pub info: FileInfo,
    /// The root and the folders under it, each after the folder that contains it.
    pub folders: Vec<Place>,
    /// How many more entries may be found.
    left: u64,
}

impl Found {
    fn new(alloc: Global, root: &Place) -> Result<Found, AllocError>
        ensures files { IfOk result (λ found. AllUnder root.now found.files.items) }
        ensures folders { IfOk result (λ found. AllUnder root.now found.folders.items) }
    {
        Ok(Found {
            files: Vec::new(alloc),
            info: FileInfo {
                len: 0,
                changed: None,
            },
            folders: only(alloc, root)?,
            left: MOST_ENTRIES,
        })
    }

    /// The folder that was found with this number, if that many were found.
    fn folder_at(&self, index: usize) -> Result<Option<Place>, AllocError>
        ensures { (root : List ℕ) → AllUnder root self.now.folders.items
            → IfOk result (λ found. IfSome found (λ folder. IsTrue (is_under folder root))) }
    {
        match self.folders.as_slice().get(index) {
            Some(folder) => Ok(Some(folder.copy()?)),
            None => Ok(None),
        }
    }

    /// Adds what exists at a place.
    fn add(&mut self, place: Place, entry: Entry) -> Result<(), FolderFault>
        ensures files { (root : List ℕ) → IsTrue (is_under place root)
            → AllUnder root self.old.files.items → AllUnder root self.new.files.items }
        ensures folders { (root : List ℕ) → IsTrue (is_under place root)
            → AllUnder root self.old.folders.items → AllUnder root self.new.folders.items }
        ensures err { IfErr result IsOfListing }
    {
        match self.left.checked_sub(1) {
            Some(left) => self.left = left,
            None => return Err(FolderFault::Device),
        }
        match entry {
            Entry::File(info) => {
                self.info = info;
                Ok(self.files.push(place)?)
            }
            Entry::Folder => Ok(self.folders.push(place)?),
            Entry::Special => Err(FolderFault::BadFileName),
            // Somebody removed it while its folder was listed.
            Entry::Nothing | Entry::UnderFile => Ok(()),
        }
    }
}

/// Reads the next names of a folder. Returns the number of their bytes, zero at its end.
fn next_names<D: Read>(dir: &mut D, names: &mut [u8]) -> Result<usize, FolderFault>
    ensures within { IfOk result (λ read. read ≤ length names.new) }
    ensures err { IfErr result IsOfMachine }
{
    for _ in 0..u64::MAX {
        match dir.read(names) {
            Ok(read) => return Ok(read),
            Err(error) if error.kind() == ErrorKind::Interrupted => {}
            Err(error) => return Err(fault_of(&error)),
        }
    }
    Err(FolderFault::Device)
}

impl<R: Files> Device<R> {
    /// Walks through the folder at a root. One that no longer exists has no entries.
    pub fn walk(&self, alloc: Global, trail: &mut Trail, root: &Place) -> Result<Found, FolderFault>
        ensures under { IfOk result (λ found. AllUnder root.now found.files.items) }
        ensures err { IfErr result IsOfListing }
    {
        match self.open_folder(&mut trail.path, root)? {
            Some(dir) => self.walk_in(alloc, trail, root, dir),
            None => Ok(Found::new(alloc, root)?),
        }
    }

    /// Walks through the folder at a root, which is open.
    #[tactic(auto, using(crate::proofs::Descends::under_itself))]
    pub fn walk_in(
        &self,
        alloc: Global,
        trail: &mut Trail,
        root: &Place,
        dir: R::Dir,
    ) -> Result<Found, FolderFault>
        ensures under { IfOk result (λ found. AllUnder root.now found.files.items) }
        ensures err { IfErr result IsOfListing }
    {
        let mut found = Found::new(alloc, root)?;
        trail.names.resize(NAMES, 0)?;
        let names = trail.names.as_mut_slice();
        self.meet_all(alloc, &mut trail.path, root, root, dir, names, &mut found)?;
        self.enter_all(alloc, &mut trail.path, root, names, &mut found)?;
        Ok(found)
    }

    /// Visits the entries of each folder under the root that was found, or is found meanwhile.
    fn enter_all(
        &self,
        alloc: Global,
        path: &mut String,
        root: &Place,
        names: &mut [u8],
        found: &mut Found,
    ) -> Result<(), FolderFault>
        requires files { AllUnder root.now found.old.files.items }
        requires folders { AllUnder root.now found.old.folders.items }
        ensures files { AllUnder root.now found.new.files.items }
        ensures err { IfErr result IsOfListing }
    {
        for index in 1..=MOST_ENTRIES as usize {
            let Some(folder) = found.folder_at(index)? else {
                return Ok(());
            };
            self.enter(alloc, path, root, &folder, names, found)?;
        }
        Err(FolderFault::Device)
    }

    /// Visits the entries of a folder.
    fn enter(
        &self,
        alloc: Global,
        path: &mut String,
        root: &Place,
        folder: &Place,
        names: &mut [u8],
        found: &mut Found,
    ) -> Result<(), FolderFault>
        requires folder { IsTrue (is_under folder.now root.now) }
        requires files { AllUnder root.now found.old.files.items }
        requires folders { AllUnder root.now found.old.folders.items }
        ensures files { AllUnder root.now found.new.files.items }
        ensures folders { AllUnder root.now found.new.folders.items }
        ensures err { IfErr result IsOfListing }
    {
        match self.open_folder(path, folder)? {
            Some(dir) => self.meet_all(alloc, path, root, folder, dir, names, found),
            None => Ok(()),
        }
    }

    /// Visits the entries of a folder, which is open.
    fn meet_all(
        &self,
        alloc: Global,
        path: &mut String,
        root: &Place,
        folder: &Place,
        mut dir: R::Dir,
        names: &mut [u8],
        found: &mut Found,
    ) -> Result<(), FolderFault>
        requires folder { IsTrue (is_under folder.now root.now) }
        requires files { AllUnder root.now found.old.files.items }
        requires folders { AllUnder root.now found.old.folders.items }
        ensures files { AllUnder root.now found.new.files.items }
        ensures folders { AllUnder root.now found.new.folders.items }
        ensures err { IfErr result IsOfListing }
    {
        for _ in 0..u64::MAX {
            let read = next_names(&mut dir, names)?;
            if read == 0 {
                return Ok(());
            }
            let places = places_in(alloc, folder, &names[..read])?;
            self.meet(path, root, places, found)?;
        }
        Err(FolderFault::Device)
    }

    /// Visits what exists at the places.
    fn meet(
        &self,
        path: &mut String,
        root: &Place,
        places: Vec<Place>,
        found: &mut Found,
    ) -> Result<(), FolderFault>
        requires places { AllUnder root.now places.items }
        requires files { AllUnder root.now found.old.files.items }
        requires folders { AllUnder root.now found.old.folders.items }
        ensures files { AllUnder root.now found.new.files.items }
        ensures folders { AllUnder root.now found.new.folders.items }
        ensures err { IfErr result IsOfListing }
    {
        for place in places {
            let entry = self.look_at(path, &place)?;
            found.add(place, entry)?;
        }
        Ok(())
    }
}
