//! Edits from outside.
ghost use Rattle.std.specs.Prelude.{◌≡◌, ◌≤◌, MatchResult};
ghost use Rattle.gb_folder.specs.Files.{SameTearing, is_own};
ghost use Rattle.gb_folder.specs.Calls.{Removes, Requests, WhereKnown, Writes, takes_at};
ghost use Rattle.gb_folder.specs.Limits.{max_file};
ghost use Rattle.gb_semantics.specs.Edits.{LossStep, PutStep, RemoveStep, own_place};
ghost use Rattle.gb_folder.specs.Changes.{ChangesOnly};
ghost use Rattle.gb_folder.specs.Faults.{Blames};
ghost use Rattle.gb_build.specs.EventAsked.{RequestsOnce};
ghost use Rattle.gb_build.specs.Answers.{edit_answer};

use gb_core::bytes::Bytes;
use gb_core::place::Place;
use gb_folder::calls;
use gb_folder::faults::fault_of;
use gb_folder::folder::Folder;
use gb_folder::limits::MAX_FILE;
use gb_folder::listing::listed_at;
use gb_folder::own::is_own;
use gb_folder::removal::remove_all;
use gb_report::fault::Fault;
use std::alloc::Global;

/// Writes a file, and replaces one that exists there (fault 94 at or under `.gb`; faults 12 and
/// 13).
pub fn put<F: Folder>(folder: &mut F, place: &Place, bytes: &Bytes) -> Result<(), Fault>
    ensures count { F.device.failures folder.old ≤ F.device.failures folder.new }
    ensures back { F.device.faithful folder.new → F.device.faithful folder.old }
    ensures blame { Blames result (F.device.failures folder.old) (F.device.failures folder.new) }
    ensures requests { RequestsOnce F.device (Writes place.now bytes.now max_file) folder.old
        folder.new }
    ensures tearing { SameTearing (F.device.may_leave folder.old) (F.device.may_leave folder.new) }
    ensures step { F.device.faithful folder.new → PutStep (F.device.may_leave folder.old) place.now bytes.now
        (record { contents = F.device.contents folder.old; failures = F.device.failures folder.old })
        (edit_answer result)
        (record { contents = F.device.contents folder.new; failures = F.device.failures folder.new }) }
{
    let at = place.copy()?;
    // No call is made at the tool's own places.
    if is_own(place) {
        return Err(Fault::OwnState(at));
    }
    match calls::write(folder, place, bytes.as_slice(), MAX_FILE) {
        Ok(()) => Ok(()),
        Err(fault) => Err(fault_of(fault, at)),
    }
}

/// Removes a file (fault 94 at or under `.gb`; faults 11 and 12).
pub fn remove<F: Folder>(folder: &mut F, place: &Place) -> Result<(), Fault>
    ensures count { F.device.failures folder.old ≤ F.device.failures folder.new }
    ensures back { F.device.faithful folder.new → F.device.faithful folder.old }
    ensures blame { Blames result (F.device.failures folder.old) (F.device.failures folder.new) }
    ensures requests { RequestsOnce F.device (Removes place.now) folder.old folder.new }
    ensures tearing { SameTearing (F.device.may_leave folder.old) (F.device.may_leave folder.new) }
    ensures step { F.device.faithful folder.new → RemoveStep (F.device.may_leave folder.old) place.now
        (record { contents = F.device.contents folder.old; failures = F.device.failures folder.old })
        (edit_answer result)
        (record { contents = F.device.contents folder.new; failures = F.device.failures folder.new }) }
{
    let at = place.copy()?;
    if is_own(place) {
        return Err(Fault::OwnState(at));
    }
    match calls::remove(folder, place) {
        Ok(()) => Ok(()),
        Err(fault) => Err(fault_of(fault, at)),
    }
}

/// Removes everything at or under `.gb`.
pub fn lose<F: Folder>(alloc: Global, folder: &mut F) -> Result<(), Fault>
    ensures requests { Requests F.device (takes_at is_own) folder.old folder.new }
    ensures blame { Blames result (F.device.failures folder.old) (F.device.failures folder.new) }
    ensures elsewhere { WhereKnown F.device folder.old folder.new (ChangesOnly is_own) }
    ensures step { F.device.faithful folder.new → LossStep (F.device.may_leave folder.old)
        (record { contents = F.device.contents folder.old; failures = F.device.failures folder.old })
        (edit_answer result)
        (record { contents = F.device.contents folder.new; failures = F.device.failures folder.new }) }
{
    let own = own_place(alloc)?;
    let places = listed_at(alloc, folder, &own)?;
    remove_all(folder, places.as_slice())
}

/// The tool's own folder.
fn own_place(alloc: Global) -> Result<Place, Fault>
    ensures { MatchResult result (λ place. place ≡ own_place) (λ fault. fault ≡ Fault.OutOfMemory) }
{
    Place::read(alloc, ".gb").map_err(|_fault| Fault::OutOfMemory)
}
