//! Laws of the case of a task's execution, each the contract of a function that does nothing.
ghost use Rattle.gb_task.specs.Case.{DecidedOutside, DecisionIsCase, MadeIsNotGrown, OutsideIsEnough};
ghost use Rattle.gb_task.specs.Case.{PreparedIsCase, PresentIsOfContents};
ghost use Rattle.gb_task.specs.Known.{WhatIsReadIsKnown};
ghost use Rattle.gb_task.specs.Executions.{IdleExecutionsAreExecutions, RunsAreOfCase};

/// What is compared with a record by digests is what the task has now, whole.
pub fn present_is_of_contents()
    ensures { PresentIsOfContents }
{}

/// The outputs of a run that ended well can be read: no file is too large, and no output has too
/// many.
pub fn made_is_not_grown()
    ensures { MadeIsNotGrown }
{}

/// What is decided of a task is its case by whole contents.
pub fn decision_is_case()
    ensures { DecisionIsCase }
{}

/// What an execution is prepared for is its case by whole contents.
pub fn prepared_is_case()
    ensures { PreparedIsCase }
{}

/// What is decided of a task in a whole folder is decided without the tool's own files.
pub fn decided_outside()
    ensures { DecidedOutside }
{}

/// An execution is prepared in a whole folder as it is without the tool's own files.
pub fn outside_is_enough()
    ensures { OutsideIsEnough }
{}

/// What is read of a task is known of it, where true records existed and what was read is
/// collision-free.
pub fn what_is_read_is_known()
    ensures { WhatIsReadIsKnown }
{}

/// Where an execution has nothing to do, its outcome is that of the rules, and it changes nothing.
pub fn idle_executions_are_executions()
    ensures { IdleExecutionsAreExecutions }
{}

/// What is decided for a run holds of it: the changes that it gets, and whether it is incremental.
pub fn runs_are_of_case()
    ensures { RunsAreOfCase }
{}
