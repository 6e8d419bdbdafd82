//! The effect of a reply to an incremental request; each law is the contract of a function that
//! does nothing.
ghost use Rattle.gb_run.specs.ChangeLaws.{RepliesAreMade, RepliesLeadOn};

/// The files after a reply to an incremental request is done are those that a full execution makes.
pub fn replies_are_made()
    ensures { RepliesAreMade }
{}

/// The steps of a reply to an incremental request lead to what a full execution leaves. No step is
/// at a place that is right.
pub fn replies_lead_on()
    ensures { RepliesLeadOn }
{}
