//! The faults of a folder, as a build reports them.
ghost use Rattle.std.specs.Prelude.{◌≡◌, ◌⊎◌};
ghost use Rattle.gb_folder.specs.Faults.{reported_at};

use crate::folder::FolderFault;
use gb_core::place::Place;
use gb_report::fault::Fault;

/// The fault at a place; an out-of-memory fault instead, if there is no memory to name the place.
pub fn fault_at(fault: FolderFault, place: &Place) -> Fault
    ensures { (result ≡ Fault.OutOfMemory) ⊎ (result ≡ reported_at place.now fault) }
{
    match place.copy() {
        Ok(place) => fault_of(fault, place),
        Err(_) => Fault::OutOfMemory,
    }
}

/// The fault at this place.
pub fn fault_of(fault: FolderFault, place: Place) -> Fault
    ensures { result ≡ reported_at place fault }
{
    match fault {
        FolderFault::OutOfMemory => Fault::OutOfMemory,
        FolderFault::Device => Fault::Device(place),
        FolderFault::Missing => Fault::Missing(place),
        FolderFault::Blocked => Fault::Blocked(place),
        FolderFault::TooLarge => Fault::TooLarge(place),
        FolderFault::BadFileName => Fault::BadFileName(place),
    }
}
