//! What follows from the calls of builds and their answers, whatever the folder is.
//!
//! The theorem about known contents needs contents that answer each call. But of any folder that
//! keeps its calls (`LogsCalls`), as one on a disk, the contracts say which calls a build made, and
//! with which bytes, given their answers. This crate has what follows, in two laws over what `invoke`
//! does (`requests` of its clause `does`).
//!
//! - `answered_success_is_from_scratch`: if contents that hold true records answer all calls that
//!   the folder keeps of a build, no two contents share a digest, and no task failed, then in these
//!   contents, outside `.gb`, the calls leave what a build from scratch makes of them. The folder
//!   need not have these contents.
//! - `records_stay_true`: of builds one after another, while others write at any time, and some are
//!   killed. If each record that one of them read is one that an earlier one was to store, and no
//!   two contents that calls returned or were to write share a digest, all of these records are
//!   true. Of a build that ended, what was reported as up to date was right, and the first law holds
//!   without its premise on records.
//!
//! The proof of the first goes back from the last state of the folder: a call that led to a state
//! that shows contents came from one that shows the contents before the call (`proofs/Back.antt`).
//! So what was read and listed on the way is what these contents have (`Trees`, `Outputs`). For
//! each outcome it is shown what the execution did between two contents (`Step`, from `Current`,
//! `Cleared`, `Full`, `ByChanges`). The executions of a plan are then put together as those of a
//! folder with known contents are (`Chain`, `Built`). The second goes along the calls that were
//! kept (`Kept`): what a run makes was written by its calls or read at its outputs (`Made`), so the
//! contents of a record are among those of the calls, and that of the next build is true by the one
//! before (`Truthful`). Of a killed build the calls are a beginning of those of one that would have
//! ended (`Cut`).
//!
//! Two types of folders keep their calls. A `DiskFolder` does so for proofs alone: by
//! `disk_folders_keep_calls` the laws hold of builds on a disk. `invoke_logged` is a build over a
//! `LoggedFolder` (`gb_logged`), whose caller can read the calls, whatever the inner folder is.
//!
//! Not in these laws: outcomes and printed lines. The clause says why a task is up to date and what
//! an executed one did, but not that no task was executed that was up to date. (On a disk `promise`
//! of `invoke` says so of contents that answer its calls.)
#![tactic(auto)]

pub mod disk_calls;
pub mod laws;
pub mod logged_build;
