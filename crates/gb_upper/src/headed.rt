//! The kind `headed(LINE)`.
use gb_action::shape::{Arg, ArgList};
use gb_action::values::Arguments;
use gb_core::bytes::Bytes;
use gb_kinds::arguments::first_text;
use gb_kinds::edit::FileMaker;
use gb_with::file_kind::FileKind;
use std::alloc::{AllocError, Global};

/// Puts a line before each file: the first argument of the call.
#[derive(Drop)]
pub struct Headed {
    line: String,
}

impl FileMaker for Headed {
    ghost use Rattle.std.specs.Prelude.{◌++◌, ◌∷◌, string_bytes};

    ghost edited = { λ maker bytes. string_bytes maker.line ++ 10 ∷ bytes };

    fn apply(&self, alloc: Global, bytes: &[u8]) -> Result<Bytes, AllocError> {
        let mut made = self.line.as_bytes().to_vec(alloc)?;
        made.push(b'\n')?;
        made.extend_from_slice(bytes)?;
        Ok(Bytes::new(made))
    }
}

impl FileKind for Headed {
    ghost use Rattle.std.specs.Prelude.{◌++◌, ◌∷◌, []};
    ghost use Rattle.gb_action.specs.declared.shape.Arg.TheVariants as args;
    ghost use Rattle.gb_action.specs.declared.shape.Parameter.TheVariants.{Required};
    ghost use Rattle.gb_kinds.specs.Builtin.{first_text};

    ghost takes = { Required args.Line ∷ [] };

    ghost makes = { λ arguments bytes. first_text arguments ++ 10 ∷ bytes };

    fn takes(alloc: Global) -> Result<ArgList, AllocError> {
        let mut list = ArgList::new(alloc);
        list.push(Arg::Line)?;
        Ok(list)
    }

    fn of_call(alloc: Global, arguments: &Arguments) -> Result<Headed, AllocError> {
        let line = String::from_str(alloc, first_text(arguments))?;
        Ok(Headed { line })
    }
}
