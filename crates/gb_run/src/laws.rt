//! Consequences for a task's execution of how the run of its actions ends.
ghost use Rattle.gb_run.specs.Laws.{CutEmptyingsInventNothing, EndedRunsAreMade};
ghost use Rattle.gb_run.specs.Laws.{FailedRunsInventNothingByChanges, FailedRunsInventNothingInFull};
ghost use Rattle.gb_run.specs.Laws.{FailedRunsKeepRightFiles, FailedRunsPrintPrefixes, MadeExists};
ghost use Rattle.gb_run.specs.Laws.{TornPlacesAreOfTheEmptying, TornPlacesAreOfTheRun};

use gb_semantics::laws::Grounds;

/// A run that ended well leaves what the actions make.
pub fn ended_runs_are_made()
    ensures { EndedRunsAreMade }
{}

/// The digests of what a run made are those of the files at the outputs once it has ended well.
pub fn made_exists()
    ensures { MadeExists }
{}

/// A run that failed prints the lines of a prefix of the actions that end.
pub fn failed_runs_print_prefixes<G: Grounds>()
    ensures { FailedRunsPrintPrefixes G.setting }
{}

/// A full execution that failed leaves at the outputs only what its actions write and what is torn.
pub fn failed_runs_invent_nothing_in_full<G: Grounds>()
    ensures { FailedRunsInventNothingInFull G.setting }
{}

/// An incremental execution that failed leaves at the outputs only what was there before, what its
/// actions write and what is torn.
pub fn failed_runs_invent_nothing_by_changes<G: Grounds>()
    ensures { FailedRunsInventNothingByChanges G.setting }
{}

/// An incremental execution that failed keeps the files that were right.
pub fn failed_runs_keep_right_files<G: Grounds>()
    ensures { FailedRunsKeepRightFiles G.setting }
{}

/// Where the device failed, the content is what it may leave of what was there in the run and what
/// was to be there.
pub fn torn_places_are_of_the_run<G: Grounds>()
    ensures { TornPlacesAreOfTheRun G.setting }
{}

/// If the outputs could not be emptied, each file was there before, except where the device failed.
pub fn cut_emptyings_invent_nothing<G: Grounds>()
    ensures { CutEmptyingsInventNothing G.setting }
{}

/// Where the device failed as outputs were emptied, the content is what was there before, or torn.
pub fn torn_places_are_of_the_emptying<G: Grounds>()
    ensures { TornPlacesAreOfTheEmptying G.setting }
{}
