//! Which files exist under a place.
ghost use Rattle.std.specs.Prelude.{◌≡◌, ◌⊎◌, false, IsTrue, IfOk, IfErr, OnOk};
ghost use Rattle.std.specs.List.{AllPass};
ghost use Rattle.gb_core.specs.Place.{is_under};
ghost use Rattle.gb_folder.specs.Calls.{OnlyReads};
ghost use Rattle.gb_folder.specs.Files.{is_special_under, places_under};
ghost use Rattle.gb_folder.specs.Changes.{is_at};
ghost use Rattle.gb_folder.specs.Faults.{Blames, BlamesOnly, IsOfMachine};
ghost use Rattle.gb_folder.specs.Removals.{WasListed};

use crate::calls::list;
use crate::faults::fault_at;
use crate::folder::Folder;
use gb_core::place::Place;
use gb_report::fault::Fault;
use std::alloc::Global;

/// The places of the files at or under one place, in byte order. A fault of the listing is reported
/// with this place; memory may also run out (3).
pub fn listed_at<F: Folder>(
    alloc: Global,
    folder: &mut F,
    place: &Place,
) -> Result<Vec<Place>, Fault>
    // Over any folder: one call of `list` was made, and this is its answer.
    ensures call { WasListed F.device place.now folder.old result folder.new }
    ensures reads { OnlyReads F.device folder.old folder.new }
    ensures blame { Blames result (F.device.failures folder.old) (F.device.failures folder.new) }
    ensures blamed { BlamesOnly (is_at place.now) result }
    ensures under { IfOk result (λ places. AllPass (λ at. is_under at place.now) places.items) }
    // Where contents are known after the call: the places are those of all files there, and no
    // entry there is special. A fault means that a special file is there, that the device failed,
    // or that memory ran out.
    ensures listed { F.device.faithful folder.new → IfOk result
        (λ places. places.items ≡ places_under (F.device.contents folder.old).files place.now) }
    ensures none_special { F.device.faithful folder.new → OnOk result
        (is_special_under (F.device.contents folder.old) place.now ≡ false) }
    ensures special { F.device.faithful folder.new → IfErr result
        (λ fault. IsOfMachine (F.device.failures folder.old) (F.device.failures folder.new) fault
        ⊎ (IsTrue (is_special_under (F.device.contents folder.old) place.now)
        × (fault ≡ Fault.BadFileName place.now))) }
{
    match list(alloc, folder, place) {
        Ok(places) => Ok(places),
        Err(fault) => Err(fault_at(fault, place)),
    }
}
