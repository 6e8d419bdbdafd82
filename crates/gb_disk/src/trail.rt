//! What the calls of a folder keep for later calls: buffers for a path and for names, the folders
//! found last, and the file listed last.
ghost use Rattle.std.specs.Prelude.{◌≡◌, IfOk};
ghost use Rattle.gb_disk.specs.Disk.{AllUnder};

use crate::entries::only;
use crate::entry::FileInfo;
use gb_core::place::Place;
use std::alloc::{AllocError, Global};

/// The maximum number of known folders.
const MOST: usize = 8;

/// The folders that were found last, so that one system call suffices for a whole path in one of
/// them; and the only file that the preceding call listed, so that a read of it does not look it up
/// again.
///
/// If somebody else writes in the folder during a build, each call that asks the system still
/// observes each place as it is, with two exceptions. A look-up by a whole path that finds neither
/// a file nor a folder forgets everything and descends from the top; each write and each removal
/// descends from there anyway.
/// First exception: a link replaces a known folder. Until `MOST` other folders were found or a call
/// fails, `list`, `read` and `read_part` follow the link, if it leads to a folder that has the rest
/// of the place. A link in place of the tool's own folder is such a link: a file is written under
/// it before it is renamed to its place. Second exception: between a `list` that returns a single
/// file and the read of it that follows, the file is replaced by another one of the same length, by
/// a link to such a one, by a pipe or by a device. Whatever is there is opened. If it is not a file
/// of the listed length, or cannot be read, it is looked up again.
#[derive(Drop)]
pub(crate) struct Trail {
    /// Buffer for the path of the next call.
    pub path: String,
    /// Buffer for the path under `.gb/new` of a file that is not complete yet.
    pub aside: String,
    /// Whether `.gb/new` is known to be a folder.
    pub is_ready: bool,
    /// Whether what a stopped build left under `.gb/new` was removed.
    pub is_swept: bool,
    /// Buffer for the names of a folder that is listed.
    pub names: Vec<u8>,
    /// The folders that were found, with folders above them too; the one found last is at the end.
    known: Vec<Known>,
    /// The file that the preceding call listed, if it listed only this one.
    listed: Option<Listed>,
}

/// A folder at its place.
#[derive(Drop)]
struct Known {
    place: String,
    /// Whether a folder was at the place in it that was listed last.
    lists_folders: bool,
}

/// A file at its place, and what its folder listed about it.
#[derive(Drop)]
struct Listed {
    place: Place,
    info: FileInfo,
}

impl Trail {
    /// Nothing known yet.
    pub fn new(alloc: Global) -> Trail {
        Trail {
            path: String::new(alloc),
            aside: String::new(alloc),
            is_ready: false,
            is_swept: false,
            names: Vec::new(alloc),
            known: Vec::new(alloc),
            listed: None,
        }
    }

    /// Whether folders are known to exist at this place and above it. If so, it becomes the one
    /// found last.
    fn meets(&mut self, folder: &str) -> bool
        ensures { self.new.path ≡ self.old.path }
    {
        match self
            .known
            .iter()
            .position(|known| known.place.as_str() == folder)
        {
            Some(at) => {
                self.known.slice_mut(at..).rotate_left(1);
                true
            }
            None => false,
        }
    }

    /// Whether the folder above the place is known, or there is none above it.
    pub fn meets_above(&mut self, place: &Place) -> bool
        ensures { self.new.path ≡ self.old.path }
    {
        match place.as_str().rsplit_once('/') {
            Some((folder, _)) => self.meets(folder),
            None => true,
        }
    }

    /// Whether a folder is expected at the place that is to be listed: the folder above it is known,
    /// and what was listed in that last was a folder too.
    pub fn expects_folder(&mut self, place: &Place) -> bool
        ensures { self.new.path ≡ self.old.path }
    {
        match place.as_str().rsplit_once('/') {
            Some((above, _)) => {
                self.meets(above) && self.known.last().is_some_and(|known| known.lists_folders)
            }
            None => false,
        }
    }

    /// Records whether a folder was at the place that is listed.
    pub fn note_listed(&mut self, place: &Place, is_folder: bool)
        ensures { self.new.path ≡ self.old.path }
    {
        if let Some((above, _)) = place.as_str().rsplit_once('/') {
            if self.meets(above) {
                if let Some(known) = self.known.last_mut() {
                    known.lists_folders = is_folder;
                }
            }
        }
    }

    /// Records that folders exist above the place.
    pub fn remember_above(&mut self, place: &Place) -> Result<(), AllocError>
        ensures { self.new.path ≡ self.old.path }
    {
        match place.as_str().rsplit_once('/') {
            Some((folder, _)) => self.remember(folder),
            None => Ok(()),
        }
    }

    /// Records that folders exist at this place and above it.
    pub fn remember(&mut self, folder: &str) -> Result<(), AllocError>
        ensures { self.new.path ≡ self.old.path }
    {
        if self.meets(folder) {
            return Ok(());
        }
        let known = Known {
            place: String::from_str(*self.path.allocator(), folder)?,
            lists_folders: false,
        };
        if self.known.len() == MOST {
            // The one that was found longest ago.
            self.known.remove(0);
        }
        Ok(self.known.push(known)?)
    }

    /// Lists a file by its own place, and remembers what was listed.
    pub fn list_file(
        &mut self,
        alloc: Global,
        place: &Place,
        info: FileInfo,
    ) -> Result<Vec<Place>, AllocError>
        ensures path { self.new.path ≡ self.old.path }
        ensures under { IfOk result (λ places. AllUnder place.now places.items) }
    {
        let places = only(alloc, place)?;
        self.take_up(places.as_slice(), info)?;
        Ok(places)
    }

    /// Remembers the listed file, if it is the only one.
    pub fn take_up(&mut self, files: &[Place], info: FileInfo) -> Result<(), AllocError>
        ensures { self.new.path ≡ self.old.path }
    {
        if let [place] = files {
            self.listed = Some(Listed {
                place: place.copy()?,
                info,
            });
        }
        Ok(())
    }

    /// What the preceding call listed about the file at the place, if it did; returned only once.
    pub fn take_listed(&mut self, place: &Place) -> Option<FileInfo>
        ensures { self.new.path ≡ self.old.path }
    {
        match self.listed.take() {
            Some(file) if file.place == *place => Some(file.info),
            _ => None,
        }
    }

    /// Forgets the file listed last, but no folder.
    pub fn forget_listed(&mut self)
        ensures { self.new.path ≡ self.old.path }
    {
        self.listed = None;
    }

    /// Forgets everything but the path.
    pub fn forget(&mut self)
        ensures { self.new.path ≡ self.old.path }
    {
        self.known.clear();
        self.listed = None;
        self.is_ready = false;
    }
}
