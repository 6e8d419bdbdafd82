//! Values that the command line gives.
ghost use Rattle.std.specs.Prelude.{◌≡◌, ℕ, List, IfOk, reverse};
ghost use Rattle.std.specs.BTreeMap.{is_at};
ghost use Rattle.std.specs.FinMap.Entries.{find};
ghost use Rattle.std.specs.Map.{lookup};
ghost use Rattle.gb_core.specs.Lists.{byte_order};

use gb_core::name::Name;
use gb_core::text::Text;
use std::alloc::{AllocError, Global};
use std::collections::BTreeMap;

/// Values by the names under which they are given, the last of each name.
pub fn by_name(alloc: Global, given: &[(Name, Text)]) -> Result<BTreeMap<Text, Text>, AllocError>
    ensures { IfOk result (λ found. (text : List ℕ)
        → lookup (is_at (byte_order text)) found.entries ≡ find byte_order text (reverse given.now)) }
{
    let mut found = BTreeMap::new(alloc);
    for (name, text) in given {
        let name = Text::from_str(alloc, name.as_str())?;
        let before = found.insert(name, text.copy()?)?;
        drop(before);
    }
    Ok(found)
}
