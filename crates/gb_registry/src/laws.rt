//! Facts that follow from the definitions alone.
ghost use Rattle.gb_registry.specs.Once.{PathsAreNew};
ghost use Rattle.gb_registry.specs.Source.{Source};
ghost use Rattle.gb_registry.specs.Tables.{Tables};

use gb_action::actions::Actions;
use gb_provider::transforms::Transforms;

/// Scripts without a fault register no path twice.
pub fn paths_are_new<A: Actions, T: Transforms>()
    ensures { (tables : Tables T.Map T.FlatMap T.Zip T.Test A.Stored) (source : Source)
        → PathsAreNew tables source }
{}
