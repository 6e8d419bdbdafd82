//! The properties that scripts declare.
ghost use Rattle.std.specs.Prelude.{◌≡◌, [], IfOk, filter_map};
ghost use Rattle.gb_registry.specs.Projects.{with_paths};
ghost use Rattle.gb_registry.specs.Said.{declared_property};

use gb_registry::unique_texts::TextSet;
use gb_script::script::Statement;
use std::alloc::{AllocError, Global};

/// The properties that statements declare.
pub fn properties_of(alloc: Global, statements: &[Statement]) -> Result<TextSet, AllocError>
    ensures { IfOk result (λ found.
        found ≡ with_paths [] (filter_map declared_property statements.now)) }
{
    let mut found = TextSet::new(alloc);
    for statement in statements {
        if let Statement::Property(name) = statement {
            found.insert(name.as_str())?;
        }
    }
    Ok(found)
}
