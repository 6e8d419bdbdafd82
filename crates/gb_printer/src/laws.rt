//! Theorems that follow from the definitions.
ghost use Rattle.gb_printer.specs.Printing.{PartsComeFirst};

/// The text of a report is the parts of its tasks, followed by the rest.
pub fn parts_come_first()
    ensures { PartsComeFirst }
{}
