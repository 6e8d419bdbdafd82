//! Lists and empties the output places of a task.
ghost use Rattle.std.specs.Prelude.{◌≡◌, ◌⊎◌, [], List, Some, IsTrue, IfOk, IfErr, OnOk};
ghost use Rattle.std.specs.List.{list_all};
ghost use Rattle.gb_core.specs.Lists.{first_of};
ghost use Rattle.gb_folder.specs.Calls.{Call, OnlyReads, Requests, takes_at};
ghost use Rattle.gb_folder.specs.Device.{Leads};
ghost use Rattle.gb_folder.specs.Each.{Each};
ghost use Rattle.gb_folder.specs.Files.{Place};
ghost use Rattle.gb_folder.specs.Faults.{Blames, BlamesOnly, IsOfMachine};
ghost use Rattle.gb_plan.specs.Task.{is_output_of};
ghost use Rattle.gb_semantics.specs.Made.{rest_of};
ghost use Rattle.gb_semantics.specs.Tree.{listing_faults};
ghost use Rattle.gb_run.specs.Emptying.{CannotEmpty, Emptying, Listing, is_at_output};
ghost use Rattle.gb_run.specs.Emptying.{special_faults, places_at};
ghost use Rattle.gb_run.specs.Work.{ending};

use gb_core::place::Place;
use gb_folder::folder::Folder;
use gb_folder::listing::listed_at;
use gb_folder::removal::remove_all;
use gb_plan::task::{Output, TaskDeclaration};
use gb_report::fault::Fault;
use std::alloc::Global;

/// Removes the files at the outputs of a task. An error is the first unsupported entry there (fault
/// 14), before anything is removed; or that memory ran out or the device failed (faults 3 and 10),
/// after which some first files are gone.
pub fn empty_outputs<F: Folder>(
    alloc: Global,
    folder: &mut F,
    task: &TaskDeclaration,
) -> Result<(), Fault>
    // Over any folder: by these calls.
    ensures calls { (calls : List Call) × Leads F.device folder.old calls folder.new
        × Emptying task.now.outputs calls result }
    ensures requests { Requests F.device (takes_at (is_output_of task.now)) folder.old
        folder.new }
    ensures blame { Blames result (F.device.failures folder.old) (F.device.failures folder.new) }
    ensures blamed { BlamesOnly (is_output_of task.now) result }
    ensures ok { F.device.faithful folder.new → OnOk result
        ((F.device.contents folder.new).files ≡ rest_of task.now (F.device.contents folder.old).files) }
    ensures none_special { F.device.faithful folder.new → OnOk result
        (listing_faults task.now (F.device.contents folder.old) ≡ []) }
    ensures err { F.device.faithful folder.new → IfErr result (λ fault.
        CannotEmpty task.now (F.device.may_leave folder.old) (F.device.failures folder.old)
        (F.device.contents folder.old) fault
        (F.device.failures folder.new) (F.device.contents folder.new)) }
{
    let places = listed_outputs(alloc, folder, task.outputs.as_slice())?;
    remove_all(folder, places.as_slice())
}

/// The places of the files at these outputs, output by output. An error is the first unsupported
/// entry there (fault 14), or that memory ran out or the device failed (faults 3 and 10).
pub fn listed_outputs<F: Folder>(
    alloc: Global,
    folder: &mut F,
    outputs: &[Output],
) -> Result<Vec<Place>, Fault>
    // Over any folder: by these calls, which found these places.
    ensures calls { (calls : List Call) × (places : List Place) × Leads F.device folder.old calls folder.new
        × Each Listing outputs.now calls places (ending result)
        × IfOk result (λ found. found.items ≡ places) }
    ensures reads { OnlyReads F.device folder.old folder.new }
    ensures blame { Blames result (F.device.failures folder.old) (F.device.failures folder.new) }
    ensures blamed { BlamesOnly (is_at_output outputs.now) result }
    ensures under { IfOk result (λ places. IsTrue (list_all (is_at_output outputs.now) places.items)) }
    ensures listed { F.device.faithful folder.new → IfOk result
        (λ places. places.items ≡ places_at outputs.now (F.device.contents folder.old).files) }
    ensures none_special { F.device.faithful folder.new → OnOk result
        (special_faults outputs.now (F.device.contents folder.old) ≡ []) }
    ensures special { F.device.faithful folder.new → IfErr result
        (λ fault. IsOfMachine (F.device.failures folder.old) (F.device.failures folder.new) fault
        ⊎ (first_of (special_faults outputs.now (F.device.contents folder.old)) ≡ Some fault)) }
{
    let mut places = Vec::new(alloc);
    for output in outputs.iter() {
        let mut listed = listed_at(alloc, folder, &output.place)?;
        places.append(&mut listed)?;
    }
    Ok(places)
}
