//! Facts that follow from the definitions alone.
ghost use Rattle.gb_declare.specs.Circles.{CirclesAreDistinct, CirclesStay};
ghost use Rattle.gb_declare.specs.Growing.{PartGrows};
ghost use Rattle.gb_declare.specs.Known.{
  RealisedInOrder,
  RealisedNamesRise,
  RealisedNamesTasks,
  RealisedNeedsAreRegistered,
};
ghost use Rattle.gb_declare.specs.Needs.{GivenHasTasks, PartProduces};
ghost use Rattle.gb_declare.specs.Partly.{PartAnswers, PartIsEndless};
ghost use Rattle.gb_declare.specs.Ready.{RealisedIsSound};
ghost use Rattle.gb_registry.specs.Source.{Source};
ghost use Rattle.gb_declare.specs.InTable.{ExpressionsInTable};
ghost use Rattle.gb_registry.specs.Tables.{Tables};
ghost use Rattle.gb_declare.specs.Reported.{IsReportedBy, ReportedOneWay, reported_circle};

use gb_action::actions::Actions;
use gb_provider::transforms::Transforms;

/// If a table in which some outputs are not declared yet has a result, the whole table has the same
/// result, unless the result is that such an output is not declared. An expression that never has a
/// result in that table never has one in the whole table.
pub fn parts_answer<T: Transforms>()
    ensures answers { PartAnswers T.meanings }
    ensures endless { PartIsEndless T.meanings }
{}

/// What has a value has its tasks, and the tasks in a part are those in the whole.
pub fn values_have_tasks<T: Transforms>()
    ensures given { GivenHasTasks T.meanings }
    ensures produces { PartProduces T.meanings }
{}

/// A circle of a part whose entries are distinct in the whole is a circle of the whole, under the
/// same names. They are distinct where each name occurs once in the part and other expressions come
/// after what they await.
pub fn circles_stay<T: Transforms>()
    ensures stay { CirclesStay T.meanings }
    ensures separate { CirclesAreDistinct T.meanings }
{}

/// A part of a table stays a part when it gains one expression of the whole.
pub fn parts_grow<T: Transforms>()
    ensures { PartGrows T.Map T.FlatMap T.Zip }
{}

/// Each expression of the scripts is in the whole table, under its number.
pub fn expressions_in_table<A: Actions, T: Transforms>()
    ensures { (tables : Tables T.Map T.FlatMap T.Zip T.Test A.Stored) (source : Source)
        → ExpressionsInTable tables source }
{}

/// A task that is realised is registered, has no outputs without actions, its outputs under the
/// build folder of its project, and actions that can be called.
pub fn realised_is_sound<A: Actions, T: Transforms>()
    ensures { (tables : Tables T.Map T.FlatMap T.Zip T.Test A.Stored) (source : Source)
        → RealisedIsSound tables source }
{}

/// The tasks that a realised task runs after, and its finalizers, are registered.
pub fn realised_names_tasks<A: Actions, T: Transforms>()
    ensures { (tables : Tables T.Map T.FlatMap T.Zip T.Test A.Stored) (source : Source)
        → RealisedNamesTasks tables source }
{}

/// The needs of a realised task are registered too, where the names of tasks are those that the
/// scripts register, and no script is at fault.
pub fn realised_needs_are_registered<A: Actions, T: Transforms>()
    ensures { (tables : Tables T.Map T.FlatMap T.Zip T.Test A.Stored) (source : Source)
        → RealisedNeedsAreRegistered tables source }
{}

/// The needs of a realised task, the tasks that it runs after, and its finalizers are sorted, each
/// once.
pub fn realised_in_order<A: Actions, T: Transforms>()
    ensures { (tables : Tables T.Map T.FlatMap T.Zip T.Test A.Stored) (source : Source)
        → RealisedInOrder tables source }
{}

/// The names of the values, file properties and outputs of a realised task are sorted, each once.
pub fn realised_names_rise<A: Actions, T: Transforms>()
    ensures { (tables : Tables T.Map T.FlatMap T.Zip T.Test A.Stored) (source : Source)
        → RealisedNamesRise tables source }
{}

/// No trouble is reported by two different faults. So the names of a circle are reported in one
/// way, whichever of its expressions is taken as its first.
pub fn troubles_are_reported_one_way<A: Actions, T: Transforms>()
    ensures { (tables : Tables T.Map T.FlatMap T.Zip T.Test A.Stored) (source : Source)
        → ReportedOneWay tables source }
{}

/// The fault that reports the circle that an expression runs into is a function of the expression:
/// the names on the circle that is reached from it, in the rotation that makes them least.
pub fn circles_are_reported_by_their_names<A: Actions, T: Transforms>()
    ensures { (tables : Tables T.Map T.FlatMap T.Zip T.Test A.Stored) (source : Source)
        → IsReportedBy tables source (reported_circle tables source) }
{}
