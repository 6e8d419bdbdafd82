//! A theorem about the kept calls.
ghost use Rattle.gb_logged.specs.Logged.{LogsCalls, log};

use crate::logged::LoggedFolder;
use gb_folder::folder::Folder;

/// A logged folder keeps its calls.
pub fn logged_folders_keep_calls<F: Folder + Drop>()
    ensures { LogsCalls ⟦<LoggedFolder<F> as Folder>⟧.device.allowed log }
{}
