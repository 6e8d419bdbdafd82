//! The kind `wholeLines`, without arguments.
use gb_action::reply::ActionFault;
use gb_action::shape::ArgList;
use gb_action::values::Arguments;
use gb_core::bytes::Bytes;
use gb_core::text::Text;
use gb_with::try_file_kind::TryFileKind;
use std::alloc::{AllocError, Global};

/// Makes the same file if each line has its end, and fails if the last has none.
#[derive(Drop)]
pub struct WholeLines;

impl TryFileKind for WholeLines {
    ghost use Rattle.std.specs.Prelude.{[]};
    ghost use Rattle.gb_upper.specs.Lines.{whole_lines};

    ghost takes = { [] };

    ghost makes = { λ arguments. whole_lines };

    ghost tried = { λ maker. whole_lines };

    fn takes(alloc: Global) -> Result<ArgList, AllocError> {
        Ok(ArgList::new(alloc))
    }

    fn of_call(_alloc: Global, _arguments: &Arguments) -> Result<WholeLines, AllocError> {
        Ok(WholeLines)
    }

    fn try_apply(&self, alloc: Global, bytes: &[u8]) -> Result<Bytes, ActionFault> {
        if bytes.ends_with(b"\n") {
            Ok(Bytes::from_slice(alloc, bytes)?)
        } else {
            let text = Text::from_str(alloc, "its last line has no end")?;
            Err(ActionFault::ActionFailed(text))
        }
    }
}
