//! Laws of records, each the contract of a function that does nothing.
ghost use Rattle.gb_records.specs.Digests.{ChangesAreOfContents, RecordsDetermineEntries, SinceIsIncremental};
ghost use Rattle.gb_records.specs.Digests.{UpToDateIsCurrent};
ghost use Rattle.gb_records.specs.Laws.{HoldsElsewhere, HoldsForMemory, TextsAreRecords};

/// Texts, places and readings of records are as builds require.
pub fn texts_are_records()
    ensures { TextsAreRecords }
{}

/// A change outside of the tool's own leaves the records as they are.
pub fn holds_elsewhere()
    ensures { HoldsElsewhere }
{}

/// A folder with the records of true entries represents them as its memory.
pub fn holds_for_memory()
    ensures { HoldsForMemory }
{}

/// If no two contents share a digest, equal records are of equal contents.
pub fn records_determine_entries()
    ensures { RecordsDetermineEntries }
{}

/// A task is up to date by its record exactly if it is by whole contents.
pub fn up_to_date_is_current()
    ensures { UpToDateIsCurrent }
{}

/// By its record a task may execute incrementally, and one action writes, exactly if it executes
/// incrementally by whole contents.
pub fn since_is_incremental()
    ensures { SinceIsIncremental }
{}

/// The changes of digests are those of contents.
pub fn changes_are_of_contents()
    ensures { ChangesAreOfContents }
{}
