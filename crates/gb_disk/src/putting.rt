//! A write creates a file with a name of its own under `.gb/new`, and then renames it to its place.
ghost use Rattle.std.specs.Prelude.{◌≡◌, ℕ, List, IfOk, IfErr, IsTrue, OnOk, string_bytes};
ghost use Rattle.gb_disk.specs.Disk.{IsOfMachine, aside, path_in};

use crate::device::Device;
use crate::entry::{Entry, entry_at, fault_of};
use crate::system_path::{go_down, lead_to};
use crate::trail::Trail;
use gb_core::place::Place;
use gb_folder::folder::FolderFault;
use itoa::Buffer;
use std::alloc::AllocError;
use std::fs::{File, Files};
use std::hash::{DefaultHasher, Hasher};
use std::io::{ErrorKind, Write};

/// The tool's own folder.
const OWN: &str = ".gb";

/// The folder of files that are not complete yet.
const ASIDE: &str = ".gb/new";

/// Sets the path to that of the file under `.gb/new` to which the bytes of a place are written
/// first. Its name is a hash of the place, so that two builds without a lock, as on NFS, never
/// rename each other's bytes to the wrong place.
fn lead_aside(path: &mut String, base: &str, place: &Place) -> Result<(), AllocError>
    ensures { OnOk result
        ((name : List ℕ) × (string_bytes path.new ≡ path_in (path_in base.now aside) name)) }
{
    let mut hasher = DefaultHasher::new();
    hasher.write(place.as_str().as_bytes());
    lead_to(path, base, ASIDE)?;
    go_down(path, Buffer::new().format(hasher.finish()))
}

impl<R: Files> Device<R> {
    /// Writes a file at a place where nothing or a file exists. A reader of the place sees the old
    /// file or all of the new one, except where a rename is not possible: there the old file is
    /// removed first.
    pub fn put(&self, trail: &mut Trail, place: &Place, bytes: &[u8]) -> Result<(), FolderFault>
        ensures at { OnOk result
            (string_bytes trail.new.path ≡ path_in (string_bytes self.now.base) place.now) }
        ensures err { IfErr result IsOfMachine }
    {
        if self.put_aside(trail, place, bytes)? && self.move_to(trail, place)? {
            return Ok(());
        }
        trail.is_ready = false;
        self.put_there(&mut trail.path, place, bytes)
    }

    /// Writes the bytes of a place under `.gb/new`. `false`: that folder is not available, or
    /// something has the name already.
    fn put_aside(&self, trail: &mut Trail, place: &Place, bytes: &[u8]) -> Result<bool, FolderFault>
        ensures at { IfOk result (λ is_put. IsTrue is_put → (name : List ℕ)
            × (string_bytes trail.new.aside ≡ path_in (path_in (string_bytes self.now.base) aside) name)) }
        ensures err { IfErr result IsOfMachine }
    {
        if !self.make_ready(trail)? {
            return Ok(false);
        }
        lead_aside(&mut trail.aside, self.base.as_str(), place)?;
        match File::create_new(&self.rt, trail.aside.as_str()) {
            Ok(mut file) => match file.write_all(bytes) {
                Ok(()) => Ok(true),
                Err(error) => {
                    self.discard(trail.aside.as_str());
                    Err(fault_of(&error))
                }
            },
            Err(error) => match error.kind() {
                ErrorKind::AlreadyExists | ErrorKind::NotFound => Ok(false),
                _ => Err(fault_of(&error)),
            },
        }
    }

    /// Whether `.gb/new` is a folder now. The first write of a session also removes what a stopped
    /// build left there.
    fn make_ready(&self, trail: &mut Trail) -> Result<bool, FolderFault>
        ensures { IfErr result IsOfMachine }
    {
        if trail.is_ready {
            return Ok(true);
        }
        if !self.has_folder(&mut trail.aside, OWN)? {
            return Ok(false);
        }
        if !trail.is_swept {
            lead_to(&mut trail.aside, self.base.as_str(), ASIDE)?;
            let _ = self
                .rt
                .remove_dir_all(self.allocator(), trail.aside.as_str());
            trail.is_swept = true;
        }
        trail.is_ready = self.has_folder(&mut trail.aside, ASIDE)?;
        Ok(trail.is_ready)
    }

    /// Whether a folder of the tool's own exists, or could be created. A link to one does not
    /// count.
    fn has_folder(&self, path: &mut String, folder: &str) -> Result<bool, FolderFault>
        ensures { IfErr result IsOfMachine }
    {
        lead_to(path, self.base.as_str(), folder)?;
        match entry_at(&self.rt, path.as_str())? {
            Entry::Folder => Ok(true),
            Entry::Nothing => Ok(self.rt.create_dir(path.as_str()).is_ok()),
            _ => Ok(false),
        }
    }

    /// Renames the file written under `.gb/new` to its place. `false`: the place is on another file
    /// system, or somebody removed the written file.
    fn move_to(&self, trail: &mut Trail, place: &Place) -> Result<bool, FolderFault>
        ensures at { OnOk result
            (string_bytes trail.new.path ≡ path_in (string_bytes self.now.base) place.now) }
        ensures err { IfErr result IsOfMachine }
    {
        lead_to(&mut trail.path, self.base.as_str(), place.as_str())?;
        match self.rt.rename(trail.aside.as_str(), trail.path.as_str()) {
            Ok(()) => Ok(true),
            Err(error) => {
                self.discard(trail.aside.as_str());
                match error.kind() {
                    ErrorKind::CrossesDevices | ErrorKind::NotFound => Ok(false),
                    _ => Err(fault_of(&error)),
                }
            }
        }
    }

    /// Removes the file written under `.gb/new`. If that fails, the next build that writes does it.
    fn discard(&self, path: &str) {
        let _ = self.rt.remove_file(path);
    }

    /// Creates a file at its place; a file that is there is removed first.
    fn put_there(&self, path: &mut String, place: &Place, bytes: &[u8]) -> Result<(), FolderFault>
        ensures at { OnOk result (string_bytes path.new ≡ path_in (string_bytes self.now.base) place.now) }
        ensures err { IfErr result IsOfMachine }
    {
        if let Entry::File(_) = self.look_at(path, place)? {
            self.unlink(path, place)?;
        }
        lead_to(path, self.base.as_str(), place.as_str())?;
        let written = match File::create_new(&self.rt, path.as_str()) {
            Ok(mut file) => file.write_all(bytes),
            Err(error) => Err(error),
        };
        match written {
            Ok(()) => Ok(()),
            Err(error) => Err(fault_of(&error)),
        }
    }
}
