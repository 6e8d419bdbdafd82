//! Laws of the notifications of many calls, each the contract of a function that does nothing.
ghost use Rattle.gb_exec.specs.Notifying.{ReportedIsHeard, ReportedMore};

/// Calls one after another notify of the same things as one call with all of them.
pub fn reported_more()
    ensures { ReportedMore }
{}

/// Listeners that were notified of each started task were notified of the build.
pub fn reported_is_heard()
    ensures { ReportedIsHeard }
{}
