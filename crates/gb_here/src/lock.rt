//! One build at a time in a folder, and in the folders of its projects.
ghost use Rattle.std.specs.Prelude.{◌≡◌, codes, map, not, string_bytes, IfOk};
ghost use Rattle.gb_arguments.specs.Command.{flag_in, rows_in};
ghost use Rattle.gb_arguments.specs.Faults.{ReportsFirst};
ghost use Rattle.gb_arguments.specs.Words.{words_faults};

use crate::arguments::command_words;
use gb_arguments::arguments::read;
use gb_core::path::ProjectPath;
use gb_core::place::Place;
use gb_disk::disk::DiskFolder;
use gb_folder::folder::Folder;
use gb_registry::projects::projects;
use gb_report::fault::Fault;
use gb_script::{MAX_SCRIPT, read_settings};
use std::alloc::{AllocError, Global};
use std::fs::File;
use std::rt::{Env, Files};

/// The locks on the current directory and on the folders of its projects, if the arguments of the
/// command request to build it.
pub(crate) fn locks_for<R: Files<File = File> + Env + AllocGlobal>(
    rt: &R,
) -> Result<Vec<File>, AllocError> {
    let asked = match command_words(rt) {
        Ok(words) => is_build(rt.alloc(), words),
        Err(fault) => Err(fault),
    };
    if wants_lock(asked)? {
        locks(rt)
    } else {
        Ok(Vec::new(rt.alloc()))
    }
}

/// The locks that a build takes: on the current directory, and on the folders of its projects. It
/// waits for each that another process holds. The system releases them when the files are dropped,
/// or with the process. That they are held is only tested.
pub fn locks<R: Files<File = File> + AllocGlobal>(rt: &R) -> Result<Vec<File>, AllocError> {
    let mut held = Vec::new(rt.alloc());
    if let Some(root) = locked(rt, ".") {
        held.push(root)?;
    }
    lock_projects(rt, &mut held)?;
    Ok(held)
}

/// Whether to lock a folder, by whether its arguments request a build: refused arguments lock
/// nothing.
fn wants_lock(asked: Result<bool, Fault>) -> Result<bool, AllocError> {
    match asked {
        Ok(is_build) => Ok(is_build),
        Err(fault) => {
            let wanted = refused(&fault);
            drop(fault);
            wanted
        }
    }
}

/// Nothing is to be locked; but running out of memory is reported as such.
fn refused(fault: &Fault) -> Result<bool, AllocError> {
    if fault.number() == Fault::OutOfMemory.number() {
        Err(AllocError)
    } else {
        Ok(false)
    }
}

/// Whether arguments request a build that is not dry; an error is the fault of the arguments.
pub fn is_build(alloc: Global, words: Vec<String>) -> Result<bool, Fault>
    ensures asked { IfOk result (λ is_build.
        is_build ≡ not (flag_in (codes "dry-run") (rows_in (map string_bytes words.items)))) }
    ensures faults { ReportsFirst (words_faults (map string_bytes words.items)) result }
{
    let asked = read(alloc, words)?;
    Ok(!asked.options.dry_run)
}

/// Locks the folder of each project but the root, in the order of projects: parents first. So a
/// build in the folder of a project and a build in the folder above it exclude each other. A
/// process that waits holds only locks of folders above or before the one that it waits for, so no
/// two builds wait for each other.
fn lock_projects<R: Files<File = File> + AllocGlobal>(
    rt: &R,
    held: &mut Vec<File>,
) -> Result<(), AllocError> {
    let Some(projects) = projects_here(rt) else {
        return Ok(());
    };
    for (_path, folder) in projects.iter() {
        if let Some(lock) = lock_at(rt, folder.as_ref()) {
            held.push(lock)?;
        }
    }
    Ok(())
}

/// The projects that `settings.gb` includes, with their folders. The build reports why there are
/// none.
fn projects_here<R: Files + AllocGlobal>(rt: &R) -> Option<Vec<(ProjectPath, Option<Place>)>> {
    let alloc = rt.alloc();
    let place = Place::read(alloc, "settings.gb").ok()?;
    let mut folder = DiskFolder::new(rt, String::new(alloc));
    let text = folder.read(alloc, &place, MAX_SCRIPT as u64).ok()?;
    let settings = read_settings(alloc, text.as_slice()).ok()?;
    projects(alloc, &settings).ok()
}

/// The lock on the folder of a project, if it exists and is no link.
fn lock_at<R: Files<File = File>>(rt: &R, folder: Option<&Place>) -> Option<File> {
    let path = folder?.as_str();
    if !rt.symlink_metadata(path).ok()?.is_dir() {
        return None;
    }
    locked(rt, path)
}

/// Locks a folder. Where the system gives no lock, as some shared disks do not, the folder is built
/// all the same.
fn locked<R: Files<File = File>>(rt: &R, path: &str) -> Option<File> {
    let folder = File::open(rt, path).ok()?;
    folder.lock().ok()?;
    Some(folder)
}
