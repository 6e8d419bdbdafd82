//! Completes one reading for a run.
ghost use Rattle.std.specs.Prelude.{◌≡◌, IfOk, IfErr};
ghost use Rattle.std.specs.List.{AllByRecursion};
ghost use Rattle.gb_folder.specs.Calls.{OnlyReads, Requests, no_change};
ghost use Rattle.gb_folder.specs.Faults.{Blames, BlamesOnly, IsOfMachine};
ghost use Rattle.gb_tree.specs.Answered.{IsTreeRead, WereObserved};
ghost use Rattle.gb_tree.specs.Prints.{digests_of};
ghost use Rattle.gb_tree.specs.Reading.{IsObservedIn, entries_observed};
ghost use Rattle.gb_tree.specs.Tree.{contents_at, is_among};

use crate::fault::reported;
use gb_action::snapshot::Snapshot;
use gb_folder::folder::Folder;
use gb_report::fault::Fault;
use gb_tree::kept::Reading;
use gb_tree::prints::Prints;
use std::alloc::Global;

/// One whole tree, and the digests of this very tree.
pub(crate) fn complete<F: Folder>(
    alloc: Global,
    folder: &mut F,
    reading: Reading,
) -> Result<(Snapshot, Prints), Fault>
    ensures reads { OnlyReads F.device folder.old folder.new }
    ensures blame { Blames result (F.device.failures folder.old) (F.device.failures folder.new) }
    ensures blamed { BlamesOnly (is_among (entries_observed reading.1)) result }
    ensures named { IfOk result (λ made. made.0.0 ≡ reading.0) }
    ensures digests { IfOk result (λ made. made.1 ≡ (reading.0, digests_of made.0.1)) }
    // Over any folder: what was answered before, and what is answered now for the rest.
    ensures answered { (first : _) → Requests F.device no_change first folder.old
        → WereObserved F.device first folder.old reading.1
        → IfOk result (λ made. IsTreeRead F.device first folder.new
        (entries_observed reading.1) made.0.1) }
    ensures tree { F.device.faithful folder.new
        → AllByRecursion (IsObservedIn (F.device.contents folder.old).files) reading.1
        → IfOk result
        (λ made. made.0.1 ≡ contents_at (F.device.contents folder.old).files (entries_observed reading.1)) }
    ensures err { F.device.faithful folder.new
        → AllByRecursion (IsObservedIn (F.device.contents folder.old).files) reading.1
        → IfErr result (IsOfMachine (F.device.failures folder.old) (F.device.failures folder.new)) }
{
    match reading.completed(alloc, folder) {
        Ok(made) => Ok(made),
        Err(fault) => Err(reported(fault)),
    }
}
