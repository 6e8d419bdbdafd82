//! Folders on disks, which keep their calls for proofs.
ghost use Rattle.gb_disk.specs.Called.{calls_of};
ghost use Rattle.gb_logged.specs.Logged.{LogsCalls};

use gb_disk::disk::DiskFolder;
use gb_folder::folder::Folder;
use std::fs::Files;

/// A folder on a disk keeps its calls (`calls_of`). So the laws hold of builds there.
pub fn disk_folders_keep_calls<R: Files + Drop>()
    ensures { LogsCalls ⟦<DiskFolder<R> as Folder>⟧.device.allowed calls_of }
{}
