//! Removing files.
ghost use Rattle.std.specs.Prelude.{◌≡◌, ◌≢◌, ◌⊎◌, List, [], ◌∷◌, None, IfErr, OnOk};
ghost use Rattle.gb_folder.specs.Calls.{Requests, Call, taken_at, takes_at};
ghost use Rattle.gb_folder.specs.Device.{Leads};
ghost use Rattle.gb_folder.specs.Changes.{IsCutShort, IsHindered, is_among, is_at, without_all};
ghost use Rattle.gb_folder.specs.Faults.{Blames, BlamesOnly, IsOfMachine};
ghost use Rattle.gb_folder.specs.Removals.{Removals, WasRemoved, unless_absent};

use crate::calls::remove;
use crate::faults::fault_of;
use crate::folder::{Folder, FolderFault};
use gb_core::place::Place;
use gb_report::fault::Fault;

/// Removes the files at these places, one after another. A place without a file counts as done. An
/// error is the fault of the first removal that failed (3, 10), and no later place is treated.
pub fn remove_all<F: Folder>(folder: &mut F, places: &[Place]) -> Result<(), Fault>
    // Over any folder: these calls were made, a removal for each place, up to the first that
    // failed.
    ensures calls { (calls : List Call) × Leads F.device folder.old calls folder.new
        × Removals places.now calls result }
    ensures requests { Requests F.device (takes_at (is_among places.now)) folder.old
        folder.new }
    ensures blame { Blames result (F.device.failures folder.old) (F.device.failures folder.new) }
    ensures blamed { BlamesOnly (is_among places.now) result }
    ensures ok { F.device.faithful folder.new
        → OnOk result (F.device.contents folder.new ≡ without_all (F.device.contents folder.old) places.now) }
    ensures err { F.device.faithful folder.new
        → IfErr result (IsOfMachine (F.device.failures folder.old) (F.device.failures folder.new)) }
    ensures cut { F.device.faithful folder.new → IfErr result
        (λ fault. IsCutShort (F.device.may_leave folder.old) places.now (F.device.contents folder.old)
        fault (F.device.contents folder.new)) }
{
    for place in places.iter() {
        remove_at(folder, place)?;
    }
    Ok(())
}

/// Removes the file at a place, if there is one. The place is copied first, so that a failure of
/// the device is reported with its place whatever memory is left.
pub fn remove_at<F: Folder>(folder: &mut F, place: &Place) -> Result<(), Fault>
    // Over any folder: one call of `remove` was made, or memory ran out before it.
    ensures call { WasRemoved F.device place.now folder.old result folder.new }
    ensures requests { Requests F.device (taken_at place.now) folder.old folder.new }
    ensures blame { Blames result (F.device.failures folder.old) (F.device.failures folder.new) }
    ensures blamed { BlamesOnly (is_at place.now) result }
    ensures ok { F.device.faithful folder.new
        → OnOk result (F.device.contents folder.new ≡ without_all (F.device.contents folder.old)
        (place.now ∷ [])) }
    ensures err { F.device.faithful folder.new
        → IfErr result (IsOfMachine (F.device.failures folder.old) (F.device.failures folder.new)) }
    ensures hindered { F.device.faithful folder.new → IfErr result
        (λ fault. IsHindered (F.device.may_leave folder.old) place.now None (F.device.contents folder.old)
        fault (F.device.contents folder.new)) }
{
    let at = place.copy()?;
    match remove(folder, place) {
        Ok(()) => Ok(()),
        Err(fault) => unless_absent(fault, at),
    }
}

/// The fault of a removal, unless it means that there is no file to remove.
fn unless_absent(fault: FolderFault, place: Place) -> Result<(), Fault>
    ensures { result ≡ unless_absent place fault }
{
    match fault {
        FolderFault::Missing | FolderFault::Blocked => Ok(()),
        FolderFault::OutOfMemory
        | FolderFault::Device
        | FolderFault::TooLarge
        | FolderFault::BadFileName => Err(fault_of(fault, place)),
    }
}
