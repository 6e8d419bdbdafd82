//! Laws of plans and refusals.
ghost use Rattle.gb_plan.specs.Laws.{PlansAreOne, RefusalsExcludePlans, RefusalsAreOne};

/// A request has at most one plan.
pub fn plans_are_one()
    ensures { PlansAreOne }
{}

/// A request that has a plan is not refused.
pub fn refusals_exclude_plans()
    ensures { RefusalsExcludePlans }
{}

/// A request is refused with at most one fault.
pub fn refusals_are_one()
    ensures { RefusalsAreOne }
{}
