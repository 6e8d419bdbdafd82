//! Laws, each the contract of a function that does nothing.
ghost use Rattle.gb_registry.specs.Tables.{tables_of};
ghost use Rattle.gb_answers.specs.Scratch.{AnsweredSuccessIsFromScratch};
ghost use Rattle.gb_answers.specs.Stored.{RecordsStayTrue};

use gb_action::actions::Actions;
use gb_folder::folder::Folder;
use gb_provider::transforms::Transforms;
use gb_registry::tables::Tables;

/// For any folder that keeps its calls: if contents answer as the calls of an invocation were
/// answered, and no task failed, the calls left what the unskipped tasks make from scratch on these
/// contents. The premises: kinds agree, no call was kept before, the records that these contents
/// hold are true, and no two contents share a digest.
pub fn answered_success_is_from_scratch<A: Actions, T: Transforms, F: Folder>(tables: &Tables<A, T>)
    ensures { AnsweredSuccessIsFromScratch F.device
        (tables_of T.meanings A.meanings tables.now) }
{}

/// For builds one after another, with the same tables, on any folder that keeps its calls, whoever
/// else writes there at any time. A build whose process was killed counts with the calls that it
/// made. The premises: kinds agree; each record that a build read is one that an earlier one was to
/// store; and no two contents that calls returned or were to write share a digest. Then
///
/// - each record that these builds were to store is true: its outputs are what its actions make of
///   its inputs;
/// - where a build that ended reported a task with actions as up to date, the files that calls had
///   returned of its outputs are what its actions make of those of its inputs;
/// - the law above holds of each build that ended, without its premise on records.
pub fn records_stay_true<A: Actions, T: Transforms, F: Folder>(tables: &Tables<A, T>)
    ensures { RecordsStayTrue F.device
        (tables_of T.meanings A.meanings tables.now) }
{}
