//! Laws of the definitions, each the contract of a function that does nothing.
ghost use Rattle.gb_semantics.specs.Every.{ClearRunIsUnconditional, EverySuccessIsFromScratch, Headline};
ghost use Rattle.gb_semantics.specs.Assumed.{PremisesHoldInMemory, SomeKindsAgree};
ghost use Rattle.gb_semantics.specs.Pinned.{StatesAreOne};
ghost use Rattle.gb_semantics.specs.Promise.{SuccessIsFromScratch, TruthIsKept, UpToDateIsMade};
ghost use Rattle.gb_semantics.specs.Run.{EndedIsMade};
ghost use Rattle.gb_semantics.specs.Sessions.{HeadlineOfSessions};

use gb_action::actions::Actions;

/// The parameters of the laws on lists of events.
pub trait Grounds {
    ghost use Rattle.gb_semantics.specs.Events.{Setting};

    /// What actions make and scripts mean, how records are written, and what the device may leave.
    ghost setting: { Setting };
}

/// A run that reached its end made what its actions make.
pub fn ended_is_made()
    ensures { EndedIsMade }
{}

/// A build in which no task failed leaves what its tasks make from scratch.
pub fn success_is_from_scratch()
    ensures { SuccessIsFromScratch }
{}

/// What is remembered stays true, whatever the result of a build.
pub fn truth_is_kept()
    ensures { TruthIsKept }
{}

/// A task that is up to date has left what its actions make of the inputs that it found.
pub fn up_to_date_is_made()
    ensures { UpToDateIsMade }
{}

/// Over every list of events, each build in which no task failed is from scratch.
pub fn every_success_is_from_scratch<G: Grounds>()
    ensures { EverySuccessIsFromScratch G.setting }
{}

/// Where no two contents of a run share a digest, every step of it is unconditional.
pub fn clear_run_is_unconditional<G: Grounds>()
    ensures { ClearRunIsUnconditional G.setting }
{}

/// The results of a run determine its states, where no task failed, no device stopped an edit and
/// no loss was refused: a proof that a run went through states has no choice among them.
pub fn states_are_one<G: Grounds>()
    ensures { StatesAreOne G.setting }
{}

/// What any list of events promises, in one sentence.
pub fn headline<G: Grounds>()
    ensures { Headline G.setting }
{}

/// The parameters of sessions of the tool: what they share, and by the number of each what its
/// scripts mean and what its device may leave.
pub trait ManyGrounds {
    ghost use Rattle.std.specs.Prelude.{ℕ};
    ghost use Rattle.gb_folder.specs.Files.{Tearing};
    ghost use Rattle.gb_semantics.specs.Events.{Setting};
    ghost use Rattle.gb_semantics.specs.Headline.{Registering};

    /// What all sessions share.
    ghost shared: { Setting };

    /// What the scripts mean in the session of a number.
    ghost registers: { ℕ → Registering };

    /// What the device of a session may leave where it stops a write or a removal.
    ghost may_leave: { ℕ → Tearing };
}

/// The same for all sessions of the tool, one after another, with edits by anybody in between. Each
/// session may have other tables and another device than the one before it.
pub fn headline_of_sessions<G: ManyGrounds>()
    ensures { HeadlineOfSessions G.shared G.registers G.may_leave }
{}

/// Some kinds agree with each table in which no name occurs twice.
pub fn some_kinds_agree<A: Actions>()
    ensures { SomeKindsAgree A.meanings }
{}

/// An empty folder in memory satisfies what a run requires of the folder and of the device.
pub fn premises_hold_in_memory<G: Grounds>()
    ensures { PremisesHoldInMemory G.setting }
{}
