//! The replies of kinds that work file by file, on all files or on the changed ones.
ghost use Rattle.std.specs.Prelude.{◌≡◌, ◌++◌, IfOk, OnOk, IsTrue};
ghost use Rattle.std.specs.List.{flat_map};
ghost use Rattle.std.specs.Option.{option_copied};
ghost use Rattle.std.specs.FinMap.Entries.{is_sorted};
ghost use Rattle.gb_core.specs.Lists.{byte_order};
ghost use Rattle.gb_action.specs.Files.{tree_at};
ghost use Rattle.gb_action.specs.Shapes.{source as source_is};
ghost use Rattle.gb_kinds.specs.ByFile.{file_of, by_file, holds, rewritten};
ghost use Rattle.gb_kinds.specs.ByFile.{writes_for, removes_for, IsByFile};

use crate::edit::FileMaker;
use crate::known_names::{output_name, source_name};
use crate::request_files;
use gb_action::change::Change;
use gb_action::reply::{OutputPath, Removals, Reply, Writes, Written};
use gb_action::request::Request;
use gb_core::bytes::Bytes;
use gb_core::place::RelPath;
use std::alloc::{AllocError, Global};

/// The reply of a kind that makes a file from each file.
pub fn reply_by_file<E: FileMaker>(
    alloc: Global,
    request: &Request,
    edit: &E,
) -> Result<Reply, AllocError>
    ensures reply { IfOk result (λ reply. IsByFile (E.edited edit.now) request.now reply) }
    ensures ordered { IfOk result (λ _. IsTrue (is_sorted byte_order (tree_at request.now.files source_is))) }
{
    let name = source_name(alloc)?;
    let files = request_files::files_of(request, &name);
    let changes = request_files::changes_of(request, &name);
    let lines = request_files::change_lines(alloc, changes)?;
    if request.changes.is_incremental() {
        Ok(Reply {
            removes: removals(alloc, changes)?,
            writes: changed_writes(alloc, request, edit, changes)?,
            lines,
        })
    } else {
        Ok(Reply {
            removes: Removals::new(alloc),
            writes: all_writes(alloc, files, edit)?,
            lines,
        })
    }
}

fn all_writes<E: FileMaker>(
    alloc: Global,
    files: &[(RelPath, Bytes)],
    edit: &E,
) -> Result<Writes, AllocError>
    ensures { IfOk result (λ writes. writes ≡ by_file (E.edited edit.now) files.now) }
{
    let mut writes = Writes::new(alloc);
    for (path, bytes) in files {
        let made = edit.apply(alloc, bytes.as_slice())?;
        writes.push(written(alloc, path, made)?)?;
    }
    Ok(writes)
}

/// The files that were removed and do not exist again.
fn removals(alloc: Global, changes: &[Change]) -> Result<Removals, AllocError>
    ensures { IfOk result (λ removes. removes ≡ flat_map removes_for changes.now) }
{
    let mut removes = Removals::new(alloc);
    for change in changes {
        if let Change::Removed(path) = change {
            removes.push(OutputPath {
                output: output_name(alloc)?,
                path: path.copy()?,
            })?;
        }
    }
    Ok(removes)
}

/// The results for the changed files, except those that the output already has.
fn changed_writes<E: FileMaker>(
    alloc: Global,
    request: &Request,
    edit: &E,
    changes: &[Change],
) -> Result<Writes, AllocError>
    ensures { IfOk result (λ writes. writes ≡ flat_map (writes_for (E.edited edit.now)
        request.now.outputs (tree_at request.now.files source_is)) changes.now) }
{
    let name = source_name(alloc)?;
    let output = output_name(alloc)?;
    let mut writes = Writes::new(alloc);
    for change in changes {
        match change {
            Change::Added(path) | Change::Modified(path) => {
                let existing = request.outputs.file_at(&output, path);
                let contents = request_files::file_of(request, &name, path);
                rewrite(alloc, &mut writes, edit, path, existing, contents)?;
            }
            Change::Removed(_) => {}
        }
    }
    Ok(writes)
}

/// Writes the result for the file, if there is one, unless the output already has it.
fn rewrite<E: FileMaker>(
    alloc: Global,
    writes: &mut Writes,
    edit: &E,
    path: &RelPath,
    existing: Option<&Bytes>,
    contents: Option<&Bytes>,
) -> Result<(), AllocError>
    ensures { OnOk result (writes.new ≡ writes.old ++ rewritten (E.edited edit.now) path.now
        (option_copied existing.entry) (option_copied contents.entry)) }
{
    if let Some(bytes) = contents {
        let made = edit.apply(alloc, bytes.as_slice())?;
        if !holds(existing, made.as_slice()) {
            writes.push(written(alloc, path, made)?)?;
        }
    }
    Ok(())
}

/// Whether the existing file has these bytes.
pub fn holds(existing: Option<&Bytes>, bytes: &[u8]) -> bool
    ensures { result ≡ holds (option_copied existing.entry) bytes.now }
{
    match existing {
        Some(found) => found.as_slice() == bytes,
        None => false,
    }
}

fn written(alloc: Global, path: &RelPath, bytes: Bytes) -> Result<Written, AllocError>
    ensures { IfOk result (λ file. file ≡ file_of path.now bytes) }
{
    Ok(Written {
        output: output_name(alloc)?,
        path: path.copy()?,
        bytes,
    })
}
