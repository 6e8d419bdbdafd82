//! Facts that follow from the definitions alone.
ghost use Rattle.gb_registry.specs.Tables.{Tables};
ghost use Rattle.gb_check.specs.OfClauses.{FaultsAreOfClauses};

use gb_action::actions::Actions;
use gb_provider::transforms::Transforms;

/// The fault for which a task is not declared is the first fault that its clauses have, each by
/// itself, in their order; or they do not fit together (55). So the first clause that has a fault is
/// the one whose line `find` gives.
pub fn faults_are_of_clauses<A: Actions, T: Transforms>()
    ensures { (tables : Tables T.Map T.FlatMap T.Zip T.Test A.Stored) → FaultsAreOfClauses tables }
{}
