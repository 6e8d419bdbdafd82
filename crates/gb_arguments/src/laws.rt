//! Consequences of the definitions alone. Each one is the contract of a function with an empty
//! body.
ghost use Rattle.gb_arguments.specs.Laws.{ValuesAreOne};

/// The same texts always give the same list of values.
pub fn values_are_one()
    ensures { ValuesAreOne }
{}
