//! Facts that follow from the definitions alone.
ghost use Rattle.std.specs.Prelude.{List};
ghost use Rattle.gb_provider.specs.declared.expression.Expression.{Expression};
ghost use Rattle.gb_registry.specs.Source.{Source};
ghost use Rattle.gb_registry.specs.Tables.{Tables};
ghost use Rattle.gb_declare.specs.Spots.{Spot};
ghost use Rattle.gb_declare.specs.Changing.{ChangesKeepParts};
ghost use Rattle.gb_declare.specs.Grown.{RowsGrow, TreesGrow};
ghost use Rattle.gb_declare.specs.Laid.{ScriptsAreLaid};
ghost use Rattle.gb_declare.specs.NodesInTable.{BuildsArePlaces, ScriptsAreGood, ScriptsInTable};

use gb_action::actions::Actions;
use gb_provider::transforms::Transforms;

/// If the parts of an expression are in the whole table, the nodes made for it are in that table
/// too, and the expression itself is there under its number.
pub fn trees_grow<A: Actions, T: Transforms>()
    ensures { (tables : Tables T.Map T.FlatMap T.Zip T.Test A.Stored) (source : Source) (all : List Spot)
        (whole : List (Expression T.Map T.FlatMap T.Zip)) → TreesGrow tables source all whole }
{}

/// The same for expressions in a row, such as those of a task: each is in the whole table under its
/// number.
pub fn rows_grow<A: Actions, T: Transforms>()
    ensures { (tables : Tables T.Map T.FlatMap T.Zip T.Test A.Stored) (source : Source) (all : List Spot)
        (whole : List (Expression T.Map T.FlatMap T.Zip)) → RowsGrow tables source all whole }
{}

/// If the properties of a script are in the whole table, unset, then their nodes are in that table
/// once they are made, and the site of the expressions of its project is right.
pub fn scripts_are_laid<A: Actions, T: Transforms>()
    ensures { (tables : Tables T.Map T.FlatMap T.Zip T.Test A.Stored) (source : Source) (all : List Spot)
        (whole : List (Expression T.Map T.FlatMap T.Zip)) → ScriptsAreLaid tables source all whole }
{}

/// A part of a table stays a part where a property of it, under a number of its own, is changed in
/// both.
pub fn changes_keep_parts<T: Transforms>()
    ensures { ChangesKeepParts T.Map T.FlatMap T.Zip }
{}

/// If no statement is at fault, the nodes that scripts make, one after another, are in the whole
/// table, and the site of the expressions of each of their projects is right.
pub fn scripts_in_table<A: Actions, T: Transforms>()
    ensures { (tables : Tables T.Map T.FlatMap T.Zip T.Test A.Stored) (source : Source)
        → ScriptsInTable tables source }
{}

/// Where no statement is at fault, the nodes of all statements are made without a fault, unless the
/// build folder of a project is no place.
pub fn scripts_are_good<A: Actions, T: Transforms>()
    ensures { (tables : Tables T.Map T.FlatMap T.Zip T.Test A.Stored) (source : Source)
        → ScriptsAreGood tables source }
{}

/// Where settings are not at fault, the build folder of each of their projects is a place.
pub fn builds_are_places()
    ensures { BuildsArePlaces }
{}
