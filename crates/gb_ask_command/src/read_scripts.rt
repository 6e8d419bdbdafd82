//! The scripts of a folder, read with the values that an invocation gives.
ghost use Rattle.std.specs.Prelude.{◌≡◌, IfOk, Err, MatchResult, Ok};
ghost use Rattle.gb_folder.specs.Calls.{OnlyReads};
ghost use Rattle.gb_registry.specs.Tables.{tables_of};
ghost use Rattle.gb_ask_command.specs.Replies.{AreRead};

use gb_action::actions::Actions;
use gb_build::workspace::read_registry;
use gb_folder::folder::Folder;
use gb_provider::transforms::Transforms;
use gb_registry::configured::Configured;
use gb_registry::tables::Tables;
use gb_report::fault::Fault;
use gb_semantics::events::Invocation;
use std::alloc::Global;

/// The scripts of a folder with the values of an invocation, over these tables. An error is the
/// first fault of the scripts, or a fault of the machine.
pub(crate) fn read_asked<'a, A: Actions, T: Transforms, F: Folder>(
    alloc: Global,
    folder: &mut F,
    tables: &'a Tables<A, T>,
    invocation: &Invocation,
) -> Result<Configured<'a, A, T>, Fault>
    ensures reads { OnlyReads F.device folder.old folder.new }
    ensures tables { IfOk result (λ configured. configured.tables.now ≡ tables.now) }
    ensures read { let handed = tables_of T.meanings A.meanings tables.now in MatchResult result
        (λ configured. AreRead handed (F.device.faithful folder.new)
        (record { contents = F.device.contents folder.old; failures = F.device.failures folder.old })
        (F.device.failures folder.new) invocation.now (Ok configured.registry))
        (λ fault. AreRead handed (F.device.faithful folder.new)
        (record { contents = F.device.contents folder.old; failures = F.device.failures folder.old })
        (F.device.failures folder.new) invocation.now (Err fault)) }
{
    match invocation.properties.copy(alloc) {
        Ok(copied) => {
            let given = copied.into_vec();
            read_registry(alloc, folder, tables, given)
        }
        Err(_) => Err(Fault::OutOfMemory),
    }
}
