//! The values of properties that a command line gives.
ghost use Rattle.std.specs.Prelude.{◌≡◌, ◌≢◌, ◌≤◌, IfErr, IfOk, IsTrue, OnOk, All, AllPairs, length};
ghost use Rattle.std.specs.BTreeMap.{insert_entry};
ghost use Rattle.std.specs.List.{flat_map};
ghost use Rattle.gb_core.specs.Lists.{byte_order};
ghost use Rattle.gb_core.specs.Name.{is_name};
ghost use Rattle.gb_arguments.specs.Faults.{IsOfWords, ReportsFirst};
ghost use Rattle.gb_arguments.specs.Values.{AreLast, IsLastOf, name_in, names_of, part, part_faults};
ghost use Rattle.gb_arguments.specs.Values.{texts_after, value_in, values_faults};

use gb_core::name::{Name, NameFault};
use gb_core::text::Text;
use gb_report::fault::{Fault, Limited};
use gb_semantics::events::Properties;
use std::alloc::Global;
use std::collections::BTreeMap;

/// The most values that a command line gives.
const MOST_VALUES: usize = 256;

/// The values that the texts `NAME=VALUE` give: for each name the last value. They are sorted by
/// name, whatever the order of the texts. A text without `=` gives its name an empty value.
///
/// The errors: more than 256 texts (58), else the first invalid name (1); or memory runs out (3).
pub fn properties(alloc: Global, texts: &[&str]) -> Result<Properties, Fault>
    ensures last { IfOk result (AreLast (texts_after texts.now)) }
    ensures faults { ReportsFirst (values_faults (texts_after texts.now)) result }
    ensures only { IfErr result IsOfWords }
    ensures most { IfOk result (λ given. length given ≤ 256) }
    ensures names { IfOk result (λ given. All (λ name. IsTrue (is_name name)) (names_of given)) }
    ensures once { IfOk result (λ given. AllPairs (λ one other. one ≢ other) (names_of given)) }
{
    if texts.len() > MOST_VALUES {
        return Err(Fault::TooMany(Limited::Values));
    }
    let given = by_name(alloc, texts)?;
    let entries = given.into_iter().collect(alloc)?;
    Ok(Properties::from_vec(entries))
}

/// The values by their names, the last of each.
fn by_name(alloc: Global, texts: &[&str]) -> Result<BTreeMap<Name, Text>, Fault>
    ensures last { IfOk result (λ given. IsLastOf (texts_after texts.now) given.entries) }
    ensures faults { ReportsFirst (flat_map part_faults (texts_after texts.now)) result }
    ensures only { IfErr result IsOfWords }
    ensures most { IfOk result (λ given. length given.entries ≤ length texts.now) }
    ensures names { IfOk result (λ given. All (λ name. IsTrue (is_name name)) (names_of given.entries)) }
{
    let mut given = BTreeMap::new(alloc);
    for text in texts {
        put(alloc, &mut given, text)?;
    }
    Ok(given)
}

/// Stores the value of a text under its name, and replaces an earlier value of that name.
fn put(alloc: Global, given: &mut BTreeMap<Name, Text>, text: &str) -> Result<(), Fault>
    ensures put { OnOk result (given.new.entries
        ≡ insert_entry byte_order given.old.entries (name_in text.now) (value_in text.now)) }
    ensures name { OnOk result (IsTrue (is_name (name_in text.now))) }
    ensures faults { ReportsFirst (part_faults text.now) result }
    ensures only { IfErr result IsOfWords }
{
    let (name, value) = parted(alloc, text)?;
    given.insert(name, value)?;
    Ok(())
}

/// The name before the first `=` and the value after it. Without a `=` the value is empty.
fn parted(alloc: Global, text: &str) -> Result<(Name, Text), Fault>
    ensures parted { IfOk result (λ parted. parted ≡ part text.now) }
    ensures name { OnOk result (IsTrue (is_name (name_in text.now))) }
    ensures faults { ReportsFirst (part_faults text.now) result }
    ensures only { IfErr result IsOfWords }
{
    let (name, value) = text.split_once('=').unwrap_or((text, ""));
    let name = match Name::read(alloc, name) {
        Ok(name) => name,
        Err(NameFault::BadName) => return Err(Fault::BadName(Text::from_str(alloc, name)?)),
        Err(NameFault::OutOfMemory) => return Err(Fault::OutOfMemory),
    };
    Ok((name, Text::from_str(alloc, value)?))
}
