//! The whole answer to a query.
ghost use Rattle.std.specs.Prelude.{◌≡◌, IfErr, IfOk, string_bytes};
ghost use Rattle.gb_folder.specs.Calls.{OnlyReads};
ghost use Rattle.gb_plan.specs.Graph.{paths_of};
ghost use Rattle.gb_query.specs.Inventory.{IsUnlisted};
ghost use Rattle.gb_query.specs.Notation.{IsFoundText, IsStatusOf, IsTasksText};
ghost use Rattle.gb_query.specs.Search.{found_in};

use crate::answer_lines::Activity;
use crate::at_place::{Relation, search};
use crate::inventory::inventory;
use crate::listing_lines::tasks_text;
use crate::listing_objects::tasks_json;
use crate::notation::{Notation, write_found, write_status};
use gb_core::path::TaskPath;
use gb_core::place::Place;
use gb_folder::folder::Folder;
use gb_graph::tasks::Tasks;
use gb_report::fault::Fault;
use std::alloc::{AllocError, Global};

/// The text of all registered tasks; these are their paths.
pub fn list_text<Ts: Tasks>(
    alloc: Global,
    notation: Notation,
    tasks: &mut Ts,
    names: &[TaskPath],
) -> Result<String, AllocError>
    requires { names.now ≡ paths_of (Ts.registry tasks.old) }
    ensures { IfOk result (λ text.
        IsTasksText notation (Ts.registry tasks.old) (string_bytes text)) }
{
    match notation {
        Notation::Lines => tasks_text(alloc, tasks, names),
        Notation::Json => tasks_json(alloc, tasks, names),
    }
}

/// The text of the findings for all registered tasks; these are their paths.
pub fn search_text<Ts: Tasks>(
    alloc: Global,
    notation: Notation,
    relation: Relation,
    tasks: &mut Ts,
    names: &[TaskPath],
    place: &Place,
) -> Result<String, AllocError>
    requires { names.now ≡ paths_of (Ts.registry tasks.old) }
    ensures { IfOk result (λ text. IsFoundText notation relation
        (found_in relation place.now (Ts.registry tasks.old)) (string_bytes text)) }
{
    let found = search(alloc, relation, tasks, names, place)?;
    let text = write_found(alloc, notation, relation, found.as_slice());
    drop(found);
    text
}

/// Whether a build runs, and what each file of `.gb` is, if these tasks are registered. An error
/// means that memory ran out, that the device failed (`Device`), or that `.gb` has a file whose
/// name is no place's (`BadFileName`).
pub fn inventory_text<F: Folder>(
    alloc: Global,
    notation: Notation,
    activity: Activity,
    folder: &mut F,
    registered: &[TaskPath],
) -> Result<String, Fault>
    ensures reads { OnlyReads F.device folder.old folder.new }
    ensures text { IfOk result (λ text. IsStatusOf (F.device.faithful folder.new) notation activity
        (F.device.contents folder.old).files registered.now (string_bytes text)) }
    ensures refused { F.device.faithful folder.new → IfErr result
        (IsUnlisted (F.device.contents folder.old) (F.device.failures folder.old)
        (F.device.failures folder.new)) }
{
    let entries = inventory(alloc, folder, registered)?;
    let text = write_status(alloc, notation, activity, entries.as_slice());
    drop(entries);
    Ok(text?)
}
