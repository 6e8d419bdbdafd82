//! Does steps in a folder, one after another.
ghost use Rattle.std.specs.Prelude.{◌≡◌, List, Some, None};
ghost use Rattle.gb_folder.specs.Calls.{Call};
ghost use Rattle.gb_folder.specs.Device.{Leads};
ghost use Rattle.gb_run.specs.Doing.{Does, Tried, write_ending};

use gb_core::bytes::Bytes;
use gb_core::place::Place;
use gb_folder::faults::fault_of;
use gb_folder::folder::{Folder, FolderFault};
use gb_folder::limits::MAX_FILE;
use gb_folder::removal::remove_at;
use gb_report::fault::Fault;

/// Does these steps, one after another, up to the first that fails.
pub fn do_steps<F: Folder>(folder: &mut F, steps: &[(Place, Option<Bytes>)]) -> Result<(), Fault>
    ensures { (calls : List Call) × Leads F.device folder.old calls folder.new
        × Does steps.now calls result }
{
    for step in steps.iter() {
        do_step(folder, step)?;
    }
    Ok(())
}

/// Does one step.
fn do_step<F: Folder>(folder: &mut F, step: &(Place, Option<Bytes>)) -> Result<(), Fault>
    ensures { Tried F.device step.now folder.old result folder.new }
{
    match &step.1 {
        Some(bytes) => write_file(folder, &step.0, bytes),
        None => remove_at(folder, &step.0),
    }
}

/// Writes a file. The place is copied first. So a failure of the device is reported at it however
/// much memory is left.
fn write_file<F: Folder>(folder: &mut F, place: &Place, bytes: &Bytes) -> Result<(), Fault>
    ensures { Tried F.device (place.now, Some bytes.now) folder.old result folder.new }
{
    let at = place.copy()?;
    let answer = folder.write(place, bytes.as_slice(), MAX_FILE);
    write_ending(answer, at)
}

/// How a write ends, by the folder's answer.
fn write_ending(answer: Result<(), FolderFault>, place: Place) -> Result<(), Fault>
    ensures { result ≡ write_ending place answer }
{
    match answer {
        Ok(()) => Ok(()),
        Err(fault) => Err(fault_of(fault, place)),
    }
}
