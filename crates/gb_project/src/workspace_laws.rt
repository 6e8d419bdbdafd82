//! Facts that follow from the definitions alone.
ghost use Rattle.gb_registry.specs.Source.{Source};
ghost use Rattle.gb_registry.specs.Tables.{Tables};
ghost use Rattle.gb_project.specs.Kept.{TasksAreGood, TasksInTable};

use gb_action::actions::Actions;
use gb_provider::transforms::Transforms;

/// Where no statement is at fault, the tasks that are declared one after another are all tasks of
/// the scripts, and everything that they declare is in the whole table.
pub fn tasks_in_table<A: Actions, T: Transforms>()
    ensures { (tables : Tables T.Map T.FlatMap T.Zip T.Test A.Stored) (source : Source)
        → TasksInTable tables source }
{}

/// The expressions of a task that is declared have no fault.
pub fn tasks_are_good<A: Actions, T: Transforms>()
    ensures { (tables : Tables T.Map T.FlatMap T.Zip T.Test A.Stored) (source : Source)
        → TasksAreGood tables source }
{}
