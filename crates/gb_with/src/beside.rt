//! Combines two tables of actions into one.
ghost use Rattle.std.specs.Prelude.{◌≡◌, ◌≤◌, ◌∷◌, ◌++◌, [], false, true, IfErr, IfOk, IsErrOf, IsTrue, OnOk};
ghost use Rattle.gb_core.specs.Name.{is_name};
ghost use Rattle.gb_action.specs.declared.table.TableFault.TheVariants.{OutOfMemory};
ghost use Rattle.gb_with.specs.Both.{firsts, seconds};
ghost use Rattle.gb_with.specs.Names.{are_new, share, occur_once};
ghost use Rattle.gb_with.specs.declared.both.Either.{Either};

use crate::both::Either;
use crate::stored::{Call, OwnAction};
use gb_action::table::{ActionTable, TableFault};
use std::alloc::Global;

/// A table with one entry: the kind `C` under this name, in this version of it. A version is at
/// least 1, and rises when the kind starts to make something else of the same input: then no old
/// record counts. The only error is a lack of memory (3).
pub fn only<C: Call>(
    alloc: Global,
    name: &str,
    version: u32,
) -> Result<ActionTable<OwnAction<C>>, TableFault>
    requires name { IsTrue (is_name name.now) }
    requires version { 1 ≤ version }
    ensures ok { IfOk result (λ table. table ≡ (name.now, version) ∷ []) }
    ensures err { IfErr result (λ fault. fault ≡ OutOfMemory) }
{
    let mut table = ActionTable::new(alloc);
    table.add_under(name, OwnAction::new(alloc, version)?)?;
    Ok(table)
}

/// The actions of two tables in one, with one namespace. If each table has each name once, the
/// tables are refused (41) exactly if a name occurs in both, unless memory runs out (3). The
/// entries of the first come first. Both tables are consumed, also by an error.
pub fn beside<A: Drop, B: Drop>(
    alloc: Global,
    first: ActionTable<A>,
    second: ActionTable<B>,
) -> Result<ActionTable<Either<A, B>>, TableFault>
    ensures ok { IfOk result (λ table. table ≡ firsts first ++ seconds second) }
    ensures once { IfOk result (λ table. IsTrue (occur_once table)) }
    ensures separate { IfOk result (λ _. share first second ≡ false) }
    ensures duplicate { IsErrOf result TableFault.DuplicateAction
        → IsTrue (occur_once first) → IsTrue (occur_once second) → IsTrue (share first second) }
{
    let mut table = ActionTable::new(alloc);
    add_firsts(&mut table, first)?;
    add_seconds(&mut table, second)?;
    Ok(table)
}

/// Adds the actions of one table.
fn add_firsts<A: Drop, B: Drop>(
    table: &mut ActionTable<Either<A, B>>,
    first: ActionTable<A>,
) -> Result<(), TableFault>
    ensures ok { OnOk result (table.new ≡ table.old ++ firsts first) }
    ensures new { OnOk result (are_new {S = Either A B} table.old (firsts first) ≡ true) }
    ensures duplicate { IsErrOf result TableFault.DuplicateAction
        → are_new {S = Either A B} table.old (firsts first) ≡ false }
{
    for (name, stored) in first.into_entries()? {
        table.add_under(name.as_str(), Either::First(stored))?;
    }
    Ok(())
}

/// Adds the actions of another table.
fn add_seconds<A: Drop, B: Drop>(
    table: &mut ActionTable<Either<A, B>>,
    second: ActionTable<B>,
) -> Result<(), TableFault>
    ensures ok { OnOk result (table.new ≡ table.old ++ seconds second) }
    ensures new { OnOk result (are_new {S = Either A B} table.old (seconds second) ≡ true) }
    ensures duplicate { IsErrOf result TableFault.DuplicateAction
        → are_new {S = Either A B} table.old (seconds second) ≡ false }
{
    for (name, stored) in second.into_entries()? {
        table.add_under(name.as_str(), Either::Second(stored))?;
    }
    Ok(())
}
