//! Laws of the records that an execution stores, each the contract of a function that does nothing.
ghost use Rattle.gb_task.specs.Asking.{UnreadExecutionsKeep};
ghost use Rattle.gb_task.specs.Truth.{FullRunsAreTrue, RunsByChangesStayTrue, UpToDateIsMade};

use gb_action::actions::Actions;
use gb_folder::folder::Folder;

/// What a full run stores is the text of a true record, over any folder.
pub fn full_runs_are_true<A: Actions, F: Folder>()
    ensures { FullRunsAreTrue F.device A.meanings }
{}

/// What an incremental run stores is such a text where the record that the run is based on is true.
pub fn runs_by_changes_stay_true<A: Actions, F: Folder>()
    ensures { RunsByChangesStayTrue F.device A.meanings }
{}

/// What was read of a task that is up to date is what its actions make, where its record is true.
pub fn up_to_date_is_made<F: Folder>()
    ensures { UpToDateIsMade F.device }
{}

/// An execution that ends before its inputs were read, for want of memory or by a fault of the
/// device, requests no change: the task's record and outputs are kept.
pub fn unread_executions_keep<A: Actions, F: Folder>()
    ensures { UnreadExecutionsKeep F.device A.meanings }
{}
