//! The names that kinds know.
ghost use Rattle.std.specs.Prelude.{◌≡◌, [], IfOk, IsTrue};
ghost use Rattle.gb_core.specs.Place.{is_rel_path};
ghost use Rattle.gb_action.specs.Shapes.{source, target};

use gb_core::name::Name;
use gb_core::place::{PlaceFault, RelPath};
use std::alloc::{AllocError, Global};

/// The file property that kinds read.
pub fn source_name(alloc: Global) -> Result<Name, AllocError>
    ensures { IfOk result (λ name. name ≡ source) }
{
    Name::read(alloc, "src").map_err(|_| AllocError)
}

/// The output that kinds write.
pub fn output_name(alloc: Global) -> Result<Name, AllocError>
    ensures { IfOk result (λ name. name ≡ target) }
{
    Name::read(alloc, "out").map_err(|_| AllocError)
}

/// The path of an output that is one file.
pub fn own_path(alloc: Global) -> Result<RelPath, AllocError>
    ensures { IfOk result (λ path. path ≡ []) }
{
    RelPath::read(alloc, "").map_err(|_| AllocError)
}

/// The path of a text that is known to be a path.
pub fn rel_path(alloc: Global, text: &str) -> Result<RelPath, AllocError>
    requires { IsTrue (is_rel_path text.now) }
    ensures { IfOk result (λ path. path ≡ text.now) }
{
    match RelPath::read(alloc, text) {
        Ok(path) => Ok(path),
        Err(PlaceFault::OutOfMemory) => Err(AllocError),
        Err(PlaceFault::BadPlace) => unreachable!(),
    }
}
