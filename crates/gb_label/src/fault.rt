//! Faults of trees, as a build reports them.
ghost use Rattle.std.specs.Prelude.{◌≡◌};
ghost use Rattle.gb_semantics.specs.Tree.{reported_of_tree};

use gb_report::fault::Fault;
use gb_tree::fault::TreeFault;

/// Why a tree is not read, as a build reports it.
pub fn reported(fault: TreeFault) -> Fault
    ensures { result ≡ reported_of_tree fault }
{
    match fault {
        TreeFault::OutOfMemory => Fault::OutOfMemory,
        TreeFault::Device(place) => Fault::Device(place),
        TreeFault::Missing(place) => Fault::Missing(place),
        TreeFault::Blocked(place) => Fault::Blocked(place),
        TreeFault::TooLarge(place) => Fault::TooLarge(place),
        TreeFault::BadFileName(place) => Fault::BadFileName(place),
        TreeFault::DuplicateInput(name, path) => Fault::DuplicateInput(name, path),
        TreeFault::TooManyFiles(name) => Fault::TooManyFiles(name),
    }
}
