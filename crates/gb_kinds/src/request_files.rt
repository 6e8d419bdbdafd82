//! The files and changes that a request holds for kinds, and the lines printed for the changes.
ghost use Rattle.std.specs.Prelude.{◌≡◌, ◌++◌, [], map, unwrap_or, IfOk, IsTrue};
ghost use Rattle.std.specs.Option.{option_copied};
ghost use Rattle.std.specs.FinMap.Entries.{find, is_sorted};
ghost use Rattle.gb_core.specs.Lists.{byte_order};
ghost use Rattle.gb_action.specs.Files.{file_at, tree_at};
ghost use Rattle.gb_kinds.specs.ByFile.{change_line};

use gb_action::change::Change;
use gb_action::reply::Lines;
use gb_action::request::Request;
use gb_core::bytes::Bytes;
use gb_core::name::Name;
use gb_core::place::RelPath;
use gb_core::text::Text;
use std::alloc::{AllocError, Global};
use std::string::String;

/// All files of a property.
pub fn files_of<'a>(request: &'a Request, name: &Name) -> &'a [(RelPath, Bytes)]
    ensures files { result.now ≡ tree_at request.now.files name.now }
    ensures ordered { IsTrue (is_sorted byte_order (tree_at request.now.files name.now)) }
{
    match request.files.get(name) {
        Some(files) => files.as_slice(),
        None => &[],
    }
}

/// The file of a property at a path.
pub(crate) fn file_of<'a>(request: &'a Request, name: &Name, path: &RelPath) -> Option<&'a Bytes>
    ensures { option_copied result ≡ file_at (tree_at request.now.files name.now) path.now }
{
    match request.files.get(name) {
        Some(files) => files.get(path),
        None => None,
    }
}

/// The changes of a property.
pub fn changes_of<'a>(request: &'a Request, name: &Name) -> &'a [Change]
    ensures { result.now ≡ unwrap_or (find byte_order name.now request.now.changes.lists) [] }
{
    match request.changes.of(name) {
        Some(changes) => changes,
        None => &[],
    }
}

/// One line for each change.
pub(crate) fn change_lines(alloc: Global, changes: &[Change]) -> Result<Lines, AllocError>
    ensures { IfOk result (λ lines. lines ≡ map change_line changes.now) }
{
    let mut lines = Lines::new(alloc);
    for change in changes {
        lines.push(change_line(alloc, change)?)?;
    }
    Ok(lines)
}

fn change_line(alloc: Global, change: &Change) -> Result<Text, AllocError>
    ensures { IfOk result (λ line. line ≡ change_line change.now) }
{
    match change {
        Change::Added(path) => joined(alloc, "ADDED ", path),
        Change::Modified(path) => joined(alloc, "MODIFIED ", path),
        Change::Removed(path) => joined(alloc, "REMOVED ", path),
    }
}

fn joined(alloc: Global, word: &str, path: &RelPath) -> Result<Text, AllocError>
    ensures { IfOk result (λ line. line ≡ word.now ++ path.now) }
{
    let mut line = String::from_str(alloc, word)?;
    line.push_str(path.as_str())?;
    Text::new(line)
}
