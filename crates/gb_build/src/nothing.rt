//! Events over a folder in memory that is empty at first.
ghost use Rattle.std.specs.Prelude.{[], IfOk};
ghost use Rattle.gb_semantics.specs.Every.{PromiseHolds};
ghost use Rattle.gb_semantics.specs.Assumed.{leaves_nothing};
ghost use Rattle.gb_semantics.specs.Headline.{Agrees, HoldsMemory};
ghost use Rattle.gb_semantics.specs.Kinds.{Kinds};
ghost use Rattle.gb_registry.specs.Tables.{tables_of};
ghost use Rattle.gb_build.specs.Registering.{setting_of};

use crate::events::run_events;
use gb_action::actions::Actions;
use gb_exec::listener::TaskListener;
use gb_folder::memory::MemoryFolder;
use gb_provider::transforms::Transforms;
use gb_registry::tables::Tables;
use gb_semantics::events::{Answer, Event};
use gb_semantics::laws::some_kinds_agree;
use std::alloc::{AllocError, Global};

/// Executes the events in their order over an empty folder in memory, and returns an answer to
/// each. All that `run_events` assumes is proved here: the table has each name of an action once,
/// so some kinds agree with it; the folder holds the records of an empty memory; and there are no
/// torn writes.
pub fn run_from_nothing<A: Actions, T: Transforms, L: TaskListener>(
    alloc: Global,
    tables: &Tables<A, T>,
    events: &[Event],
    listeners: &mut Vec<L>,
) -> Result<(MemoryFolder, Vec<Answer>), AllocError>
    // There are kinds that agree with the table, the empty folder holds the empty memory, and the
    // promise of `run_events` holds of this run.
    ensures { IfOk result (λ made. (kinds : Kinds)
        × Agrees A.meanings tables.now.actions kinds
        × HoldsMemory (setting_of (tables_of T.meanings A.meanings tables.now) kinds leaves_nothing)
        (record { files = []; special = [] }) []
        × PromiseHolds (setting_of (tables_of T.meanings A.meanings tables.now) kinds leaves_nothing)
        (record { contents = record { files = []; special = [] }; failures = 0 })
        events.now made.1.items
        (record { contents = record { files = made.0.files; special = [] }; failures = 0 })) }
{
    tables.actions.names_are_unique();
    some_kinds_agree::<A>();
    let mut folder = MemoryFolder::new(alloc);
    let answers = run_events(alloc, &mut folder, tables, events, listeners)?;
    Ok((folder, answers))
}
