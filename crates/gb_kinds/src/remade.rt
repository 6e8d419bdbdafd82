//! The replies of kinds that compute all the files that they make.
ghost use Rattle.std.specs.Prelude.{◌≡◌, [], is_some, unwrap_or, IfOk, IsTrue};
ghost use Rattle.std.specs.FinMap.Entries.{is_sorted};
ghost use Rattle.gb_core.specs.Lists.{byte_order};
ghost use Rattle.gb_action.specs.Files.{file_at};
ghost use Rattle.gb_action.specs.Outputs.{files_of};
ghost use Rattle.gb_kinds.specs.Remade.{as_made, outdated, renewed, IsRemade};
ghost use Rattle.gb_kinds.specs.Words.{index_files};

use crate::by_file::holds;
use crate::file_words::Words;
use crate::index::Index;
use crate::known_names::{output_name, source_name};
use crate::request_files;
use gb_action::reply::{OutputPath, Removals, Reply, Writes, Written};
use gb_action::request::Request;
use gb_core::bytes::Bytes;
use gb_core::name::Name;
use gb_core::place::RelPath;
use std::alloc::{AllocError, Global};

/// The files that a kind makes.
#[derive(Drop)]
pub struct Remade {
    /// For changes, the paths that were examined: at all other paths the existing files are right.
    pub looked_at: Words,
    /// The files at these paths, or all files.
    pub made: Index,
}

/// The reply of a kind that makes these files.
pub fn reply_remade(alloc: Global, request: &Request, remade: Remade) -> Result<Reply, AllocError>
    ensures { IfOk result (λ reply.
        IsRemade (index_files remade.made) remade.looked_at.keys request.now reply) }
{
    let Remade { looked_at, made } = remade;
    let name = source_name(alloc)?;
    let lines = request_files::change_lines(alloc, request_files::changes_of(request, &name))?;
    if request.changes.is_incremental() {
        Ok(Reply {
            removes: outdated(alloc, request, &made, &looked_at)?,
            writes: renewed(alloc, request, made)?,
            lines,
        })
    } else {
        Ok(Reply {
            removes: Removals::new(alloc),
            writes: as_made(alloc, made)?,
            lines,
        })
    }
}

fn as_made(alloc: Global, made: Index) -> Result<Writes, AllocError>
    ensures { IfOk result (λ writes. writes ≡ as_made (index_files made)) }
{
    let mut writes = Writes::new(alloc);
    for (path, bytes) in made {
        writes.push(Written {
            output: output_name(alloc)?,
            path,
            bytes: Bytes::new(bytes),
        })?;
    }
    Ok(writes)
}

/// The files that the output does not have already.
fn renewed(alloc: Global, request: &Request, made: Index) -> Result<Writes, AllocError>
    ensures { IfOk result (λ writes. writes ≡ renewed request.now.outputs (index_files made)) }
{
    let output = output_name(alloc)?;
    let mut writes = Writes::new(alloc);
    for (path, bytes) in made {
        let existing = request.outputs.file_at(&output, &path);
        if !holds(existing, bytes.as_slice()) {
            writes.push(Written {
                output: output_name(alloc)?,
                path,
                bytes: Bytes::new(bytes),
            })?;
        }
    }
    Ok(writes)
}

/// The existing files at one of the paths that are no longer made.
fn outdated(
    alloc: Global,
    request: &Request,
    made: &Index,
    looked_at: &Words,
) -> Result<Removals, AllocError>
    ensures { IfOk result (λ removes.
        removes ≡ outdated request.now.outputs (index_files made.now) looked_at.now.keys) }
{
    let output = output_name(alloc)?;
    let mut removes = Removals::new(alloc);
    for path in looked_at.iter() {
        if request.outputs.file_at(&output, path).is_some() && !is_made(made, path) {
            removes.push(OutputPath {
                output: output_name(alloc)?,
                path: path.copy()?,
            })?;
        }
    }
    Ok(removes)
}

fn is_made(made: &Index, path: &RelPath) -> bool
    ensures { result ≡ is_some (file_at (index_files made.now) path.now) }
{
    made.contains_key(path)
}

/// The files of an output.
pub fn existing<'a>(request: &'a Request, output: &Name) -> &'a [(RelPath, Bytes)]
    ensures files { result.now ≡ unwrap_or (files_of request.now.outputs output.now) [] }
    ensures ordered { IsTrue (is_sorted byte_order (unwrap_or (files_of request.now.outputs output.now) [])) }
{
    match request.outputs.get(output) {
        Some(files) => files.as_slice(),
        None => &[],
    }
}
