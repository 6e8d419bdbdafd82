//! Laws of starting tasks by number, each the contract of a function that does nothing.
ghost use Rattle.gb_exec.specs.Plans.{NeedsByNumber, StartsByNumber};

/// A task starts by its number exactly where the definition of a build starts it.
pub fn starts_by_number()
    ensures { StartsByNumber }
{}

/// A need of a task was executed by its number exactly where it was by its path.
pub fn needs_by_number()
    ensures { NeedsByNumber }
{}
