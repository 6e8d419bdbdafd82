//! Theorems that follow from the definitions alone.
ghost use Rattle.gb_action.specs.Laws.{ChangesAreExact, FullRepliesPutOver};

/// Over any old output files, a full reply leaves what its kind makes, and changes nothing else.
pub fn full_replies_put_over()
    ensures { FullRepliesPutOver }
{}

/// A change list has each change of a tree, and no other.
pub fn changes_are_exact()
    ensures { ChangesAreExact }
{}
