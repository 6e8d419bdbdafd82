//! A registry without faults, and the tables by which it was checked.
ghost use Rattle.std.specs.Prelude.{◌≡◌, []};
ghost use Rattle.gb_registry.specs.Configure.{configure_faults};
ghost use Rattle.gb_registry.specs.Tables.{tables_of};

use crate::registry::Registry;
use crate::tables::Tables;
use gb_action::actions::Actions;
use gb_provider::transforms::Transforms;

/// Scripts without a fault by these tables.
#[derive(Drop)]
pub struct Configured<'a, A: Actions, T: Transforms> {
    /// The actions and functions that they may name.
    pub tables: &'a Tables<A, T>,
    /// The registry that they configure.
    pub registry: Registry,
    // They have no fault by these tables.
    pub ghost good: { configure_faults (tables_of T.meanings A.meanings tables.now) registry ≡ [] },
}
