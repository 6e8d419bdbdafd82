//! Theorems about the texts: facts that follow from the definitions alone.
ghost use Rattle.gb_report.specs.Laws.{TextsBeginWithNumbers};

/// The text of each fault begins with its fault number.
pub fn texts_begin_with_numbers()
    ensures { TextsBeginWithNumbers }
{}
