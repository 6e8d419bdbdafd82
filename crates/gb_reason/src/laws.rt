//! Laws of reasons, each the contract of a function that does nothing.
ghost use Rattle.gb_reason.specs.Real.{ChangesAreReasons, EachIsReal, NoneIsUpToDate};

/// Each reason that is reported is true of the record and of what the task has now.
pub fn each_is_real()
    ensures { EachIsReal }
{}

/// There is no reason exactly if the decision is that the task is up to date.
pub fn none_is_up_to_date()
    ensures { NoneIsUpToDate }
{}

/// If a task with outputs may run incrementally, its reasons are the changes that its actions get.
pub fn changes_are_reasons()
    ensures { ChangesAreReasons }
{}
