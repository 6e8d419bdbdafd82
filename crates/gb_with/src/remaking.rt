//! The replies of kinds that make all their files again after any change.
ghost use Rattle.std.specs.Prelude.{◌≡◌, [], is_some, unwrap_or, IfOk, IsTrue};
ghost use Rattle.std.specs.FinMap.Entries.{is_sorted};
ghost use Rattle.gb_core.specs.Lists.{byte_order};
ghost use Rattle.gb_action.specs.Files.{file_at};
ghost use Rattle.gb_action.specs.Outputs.{files_of, written_at};
ghost use Rattle.gb_action.specs.Shapes.{target};
ghost use Rattle.gb_kinds.specs.Remade.{as_made, renewed};
ghost use Rattle.gb_with.specs.Remaking.{all_of, made_no_more, IsRecheck, IsDifference};

use gb_action::reply::{Lines, OutputPath, Removals, Reply, Writes, Written};
use gb_action::request::Request;
use gb_core::bytes::Bytes;
use gb_core::name::Name;
use gb_core::place::RelPath;
use gb_kinds::by_file::holds;
use gb_kinds::known_names::output_name;
use std::alloc::{AllocError, Global};
use std::collections::BTreeMap;

/// Files by their paths.
type Made = BTreeMap<RelPath, Bytes>;

/// The reply of a kind that makes these files, the later of two with the same path, and prints
/// these lines. Given changes it examines none of them: it compares with the existing files.
pub fn reply_recheck(
    alloc: Global,
    request: &Request,
    files: Vec<(RelPath, Bytes)>,
    lines: Lines,
) -> Result<Reply, AllocError>
    ensures { IfOk result (λ reply. IsRecheck files.items lines request.now reply) }
{
    if request.changes.is_incremental() {
        difference(alloc, request, files, lines)
    } else {
        all_of(alloc, files, lines)
    }
}

/// The reply that writes these files and prints these lines, and removes nothing.
fn all_of(alloc: Global, files: Vec<(RelPath, Bytes)>, lines: Lines) -> Result<Reply, AllocError>
    ensures { IfOk result (λ reply. reply ≡ all_of files.items lines) }
{
    let mut writes = Writes::new(alloc);
    for (path, bytes) in files {
        writes.push(Written {
            output: output_name(alloc)?,
            path,
            bytes,
        })?;
    }
    Ok(Reply {
        removes: Removals::new(alloc),
        writes,
        lines,
    })
}

/// The reply that turns the existing files into these files. Takes n log n steps in the paths of
/// both.
fn difference(
    alloc: Global,
    request: &Request,
    files: Vec<(RelPath, Bytes)>,
    lines: Lines,
) -> Result<Reply, AllocError>
    ensures { IfOk result (λ reply. IsDifference files.items lines request.now.outputs reply) }
{
    let made = by_path(alloc, files)?;
    let output = output_name(alloc)?;
    Ok(Reply {
        removes: outdated(alloc, existing(request, &output), &made)?,
        writes: renewed(alloc, request, made)?,
        lines,
    })
}

/// The files by their paths, the later of two at one path.
fn by_path(alloc: Global, files: Vec<(RelPath, Bytes)>) -> Result<Made, AllocError>
    ensures ordered { IfOk result (λ made. IsTrue (is_sorted byte_order made.entries)) }
    ensures files { IfOk result (λ made. (path : _)
        → file_at made.entries path ≡ written_at (as_made files.items) target path) }
{
    let mut made = BTreeMap::new(alloc);
    for (path, bytes) in files {
        made.insert(path, bytes)?;
    }
    Ok(made)
}

/// The files of an output.
fn existing<'a>(request: &'a Request, output: &Name) -> &'a [(RelPath, Bytes)]
    ensures { result.now ≡ unwrap_or (files_of request.now.outputs output.now) [] }
{
    match request.outputs.get(output) {
        Some(files) => files.as_slice(),
        None => &[],
    }
}

/// The existing files that are no longer made.
fn outdated(
    alloc: Global,
    existed: &[(RelPath, Bytes)],
    made: &Made,
) -> Result<Removals, AllocError>
    ensures { IfOk result (λ removes. removes ≡ made_no_more existed.now made.now.entries) }
{
    let mut removes = Removals::new(alloc);
    for (path, _) in existed {
        if !is_made(made, path) {
            removes.push(OutputPath {
                output: output_name(alloc)?,
                path: path.copy()?,
            })?;
        }
    }
    Ok(removes)
}

fn is_made(made: &Made, path: &RelPath) -> bool
    ensures { result ≡ is_some (file_at made.now.entries path.now) }
{
    made.contains_key(path)
}

/// The files made that the output does not have already.
fn renewed(alloc: Global, request: &Request, made: Made) -> Result<Writes, AllocError>
    ensures { IfOk result (λ writes. writes ≡ renewed request.now.outputs made.entries) }
{
    let output = output_name(alloc)?;
    let mut writes = Writes::new(alloc);
    for (path, bytes) in made {
        let existed = request.outputs.file_at(&output, &path);
        if !holds(existed, bytes.as_slice()) {
            writes.push(Written {
                output: output_name(alloc)?,
                path,
                bytes,
            })?;
        }
    }
    Ok(writes)
}
