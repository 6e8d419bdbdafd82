//! What exists at a path of a disk.
ghost use Rattle.std.specs.Prelude.{◌≡◌, ◌⊎◌, ◌++◌, ◌∷◌, OnOk, IfErr, string_bytes};
ghost use Rattle.gb_disk.specs.Disk.{IsOfMachine};

use gb_folder::folder::FolderFault;
use std::fs::{Files, Metadata};
use std::io::{self, ErrorKind};
use std::time::SystemTime;

/// The system accepts no path of this many bytes.
const PATH_MAX: usize = 4096;

/// What the system reports about a file.
#[derive(Clone, Copy)]
pub(crate) struct FileInfo {
    /// The number of its bytes.
    pub len: u64,
    /// The time of the last change, if that is known.
    pub changed: Option<SystemTime>,
}

impl FileInfo {
    pub fn of(metadata: &Metadata) -> FileInfo {
        FileInfo {
            len: metadata.len(),
            changed: metadata.modified().ok(),
        }
    }

    /// Whether an open file has this length and this time. A file that the system generates only
    /// when it is read has no length, and its time means nothing.
    pub fn is_of(&self, metadata: &Metadata) -> bool {
        let now = FileInfo::of(metadata);
        metadata.is_file() && now.len == self.len && (self.len == 0 || now.changed == self.changed)
    }
}

/// What exists at a path.
#[derive(Clone, Copy)]
pub(crate) enum Entry {
    /// A file of this length and this time.
    File(FileInfo),
    Folder,
    /// A link, a pipe, a socket or a device.
    Special,
    Nothing,
    /// The path goes through a file.
    UnderFile,
}

/// What exists at a path. A link at its end is not followed.
pub(crate) fn entry_at<R: Files>(rt: &R, path: &str) -> Result<Entry, FolderFault>
    ensures { IfErr result IsOfMachine }
{
    match rt.symlink_metadata(path) {
        Ok(metadata) if metadata.is_file() => Ok(Entry::File(FileInfo::of(&metadata))),
        Ok(metadata) if metadata.is_dir() => Ok(Entry::Folder),
        Ok(_) => Ok(Entry::Special),
        Err(error) => match error.kind() {
            ErrorKind::NotFound => Ok(Entry::Nothing),
            ErrorKind::NotADirectory => Ok(Entry::UnderFile),
            // A segment is longer than the disk allows for names: nothing can exist there.
            ErrorKind::InvalidFilename if path.len() < PATH_MAX => Ok(Entry::Nothing),
            _ => Err(fault_of(&error)),
        },
    }
}

/// The folder fault for an error of the system.
pub(crate) fn fault_of(error: &io::Error) -> FolderFault
    ensures { IsOfMachine result }
{
    match error.kind() {
        ErrorKind::OutOfMemory => FolderFault::OutOfMemory,
        _ => FolderFault::Device,
    }
}
