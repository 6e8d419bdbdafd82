//! The tables that are used to check a plan.
ghost use Rattle.std.specs.Prelude.{◌≡◌, [], true, IfOk};
ghost use Rattle.gb_plan.specs.Graph.{order, no_repeats, stuck};
ghost use Rattle.gb_graph.specs.Conflicts.{AreTables, IsLeast, IsConflict, places_for};

use crate::chained::chains_in;
use crate::conflicting::Search;
use crate::least::{Found, least_conflict};
use crate::places::{TaskPlace, outputs_of, roots_of, sort_by_place, thinned};
use gb_plan::plan::Planned;
use std::alloc::{AllocError, Global};

/// The tasks that tasks of a plan come after by chains, and their places.
#[derive(Drop)]
pub struct Tables {
    /// For each task the tasks that it comes after, as a row of bits.
    pub chains: Vec<Vec<u64>>,
    /// The outputs of all tasks, sorted by place and thinned.
    pub outputs: Vec<TaskPlace>,
    /// The roots of the input files of all tasks, sorted by place and thinned.
    pub roots: Vec<TaskPlace>,
}

/// The tables of these tasks, made once for all searches.
pub fn tables_of(alloc: Global, tasks: &[Planned]) -> Result<Tables, AllocError>
    requires once { no_repeats (order tasks.now) ≡ true }
    requires ready { stuck tasks.now [] tasks.now ≡ [] }
    ensures { IfOk result (AreTables tasks.now) }
{
    let chains = chains_in(alloc, tasks)?;
    let mut outputs = outputs_of(alloc, tasks)?;
    sort_by_place(&mut outputs);
    let mut roots = roots_of(alloc, tasks)?;
    sort_by_place(&mut roots);
    Ok(Tables {
        chains,
        outputs: thinned(alloc, outputs)?,
        roots: thinned(alloc, roots)?,
    })
}

/// The places that are compared with the outputs.
fn places_for(tables: &Tables, search: Search) -> &[TaskPlace]
    ensures { result.now ≡ places_for tables.now search }
{
    match search {
        Search::Overlaps => tables.outputs.as_slice(),
        Search::OwnInputs => tables.roots.as_slice(),
        Search::Undeclared => tables.roots.as_slice(),
    }
}

/// The least conflict of the kind that is searched for.
pub fn least_of(
    alloc: Global,
    search: Search,
    tasks: &[Planned],
    tables: &Tables,
) -> Result<Option<Found>, AllocError>
    requires once { no_repeats (order tasks.now) ≡ true }
    requires tables { AreTables tasks.now tables.now }
    ensures { IfOk result (IsLeast (IsConflict tasks.now search)) }
{
    let chains = tables.chains.as_slice();
    let outputs = tables.outputs.as_slice();
    least_conflict(
        alloc,
        search,
        chains,
        tasks,
        outputs,
        places_for(tables, search),
    )
}
