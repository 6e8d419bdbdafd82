//! Why a plan is refused although all its tasks get ready.
ghost use Rattle.std.specs.Prelude.{◌≡◌, [], true, IfOk};
ghost use Rattle.gb_plan.specs.Graph.{Plan, order, no_repeats, stuck};
ghost use Rattle.gb_plan.specs.Refusal.{IsScheduleFault};
ghost use Rattle.gb_graph.specs.Answer.{IsFirst, IsJudged};
ghost use Rattle.gb_graph.specs.Conflicts.{conflict_of};

use crate::conflicting::Search;
use crate::least::Found;
use crate::plan_tables::{least_of, tables_of};
use gb_plan::plan::Planned;
use gb_report::fault::Fault;
use std::alloc::{AllocError, Global};

/// The kind of the search, and the least conflict that it found.
#[derive(Drop)]
pub struct Refusal {
    /// Which of the three kinds of conflict it is.
    pub search: Search,
    /// The tasks and the place that are reported.
    pub found: Found,
}

/// Why the plan is refused, if it is. Outputs that overlap are reported before outputs that their
/// own task reads, and these before outputs that a task reads although it does not come after their
/// task.
pub fn refusal_of(alloc: Global, tasks: &[Planned]) -> Result<Option<Refusal>, AllocError>
    requires once { no_repeats (order tasks.now) ≡ true }
    requires ready { stuck tasks.now [] tasks.now ≡ [] }
    ensures { IfOk result (λ refusal. IsJudged tasks.now refusal) }
{
    let tables = tables_of(alloc, tasks)?;
    let search = Search::Overlaps;
    if let Some(found) = least_of(alloc, search, tasks, &tables)? {
        return Ok(Some(Refusal { search, found }));
    }
    let search = Search::OwnInputs;
    if let Some(found) = least_of(alloc, search, tasks, &tables)? {
        return Ok(Some(Refusal { search, found }));
    }
    let search = Search::Undeclared;
    match least_of(alloc, search, tasks, &tables)? {
        Some(found) => Ok(Some(Refusal { search, found })),
        None => Ok(None),
    }
}

/// The fault that reports the reason: 61, 63 or 62.
pub fn reported(refusal: Refusal) -> Fault
    ensures { (plan : Plan) → stuck plan [] plan ≡ []
        → IsFirst plan refusal.search (conflict_of refusal.found) → IsScheduleFault plan result }
{
    let found = refusal.found;
    match refusal.search {
        Search::Overlaps => Fault::OverlappingOutputs(found.task, found.other, found.place),
        Search::OwnInputs => Fault::OwnOutputAsInput(found.task, found.place),
        Search::Undeclared => Fault::UndeclaredDependency(found.task, found.other, found.place),
    }
}
