//! The arguments of kinds.
ghost use Rattle.std.specs.Prelude.{◌≡◌, IfOk};
ghost use Rattle.gb_kinds.specs.Builtin.{first_text, second_text};

use gb_action::values::Arguments;
use gb_core::text::Text;
use gb_core::value::Value;
use std::alloc::{AllocError, Global};

/// The first argument.
pub fn first_text(args: &Arguments) -> &str
    ensures { result.now ≡ first_text args.now }
{
    match args.as_slice().first() {
        Some(Value::Text(text)) => text.as_str(),
        _ => "",
    }
}

/// The first argument as a text that shares the bytes of a longer one.
pub(crate) fn copied_first_text(alloc: Global, args: &Arguments) -> Result<Text, AllocError>
    ensures { IfOk result (λ text. text ≡ first_text args.now) }
{
    match args.as_slice().first() {
        Some(Value::Text(text)) => text.copy(),
        _ => Text::from_str(alloc, ""),
    }
}

/// The second argument.
pub(crate) fn second_text(args: &Arguments) -> &str
    ensures { result.now ≡ second_text args.now }
{
    match args.as_slice().split_first() {
        Some((_, others)) => match others.first() {
            Some(Value::Text(text)) => text.as_str(),
            _ => "",
        },
        None => "",
    }
}
