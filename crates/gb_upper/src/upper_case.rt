//! The kind `upperCase`, without arguments.
use gb_action::shape::ArgList;
use gb_action::values::Arguments;
use gb_core::bytes::Bytes;
use gb_kinds::edit::FileMaker;
use gb_with::file_kind::FileKind;
use std::alloc::{AllocError, Global};

/// Makes a file in capital letters. Bytes that are not ASCII letters stay unchanged.
#[derive(Drop)]
pub struct UpperCase;

impl FileMaker for UpperCase {
    ghost use Rattle.std.specs.Prelude.{map};
    ghost use Rattle.std.specs.Char.{to_ascii_uppercase};

    ghost edited = { λ maker. map to_ascii_uppercase };

    fn apply(&self, alloc: Global, bytes: &[u8]) -> Result<Bytes, AllocError> {
        Ok(Bytes::new(bytes.to_ascii_uppercase(alloc)?))
    }
}

impl FileKind for UpperCase {
    ghost use Rattle.std.specs.Prelude.{[], map};
    ghost use Rattle.std.specs.Char.{to_ascii_uppercase};

    ghost takes = { [] };

    ghost makes = { λ arguments. map to_ascii_uppercase };

    fn takes(alloc: Global) -> Result<ArgList, AllocError> {
        Ok(ArgList::new(alloc))
    }

    fn of_call(_alloc: Global, _arguments: &Arguments) -> Result<UpperCase, AllocError> {
        Ok(UpperCase)
    }
}
