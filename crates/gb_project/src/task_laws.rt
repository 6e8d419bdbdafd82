//! Facts that follow from the definitions alone.
ghost use Rattle.gb_declare.specs.Known.{DeclaredNamesRise};
ghost use Rattle.gb_registry.specs.Source.{Source};
ghost use Rattle.gb_registry.specs.Tables.{Tables};

use gb_action::actions::Actions;
use gb_provider::transforms::Transforms;

/// The names of a declaration are sorted, each once: the names of values, of file properties and of
/// outputs.
pub fn declared_names_rise<A: Actions, T: Transforms>()
    ensures { (tables : Tables T.Map T.FlatMap T.Zip T.Test A.Stored) (source : Source)
        → DeclaredNamesRise tables source }
{}
