//! The reply of kinds that write one file.
ghost use Rattle.std.specs.Prelude.{◌≡◌, IfOk};
ghost use Rattle.gb_kinds.specs.ByFile.{one_file};

use crate::known_names::output_name;
use gb_action::reply::{Lines, Removals, Reply, Writes, Written};
use gb_core::bytes::Bytes;
use gb_core::place::RelPath;
use std::alloc::{AllocError, Global};

/// The reply that writes this file below the output `out`, and does nothing else.
pub fn one_file(alloc: Global, path: RelPath, bytes: Bytes) -> Result<Reply, AllocError>
    ensures { IfOk result (λ reply. reply ≡ one_file path bytes) }
{
    let mut writes = Writes::new(alloc);
    writes.push(Written {
        output: output_name(alloc)?,
        path,
        bytes,
    })?;
    Ok(Reply {
        removes: Removals::new(alloc),
        writes,
        lines: Lines::new(alloc),
    })
}
