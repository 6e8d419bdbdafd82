//! The implementation of `Actions` for a kind that makes a file from each file, or fails.
ghost use Rattle.std.specs.Prelude.{◌≡◌, ◌≤◌, ℕ, [], Ok, map, unwrap_or, IfOk, MatchResult};
ghost use Rattle.std.specs.FinMap.Entries.{find};
ghost use Rattle.gb_core.specs.Lists.{byte_order};
ghost use Rattle.gb_action.specs.Meanings.{shape_of, makes_of, prints_of};
ghost use Rattle.gb_action.specs.Replies.{Answers};
ghost use Rattle.gb_action.specs.Shapes.{IsAsked};
ghost use Rattle.gb_kinds.specs.Builtin.{of_files, prints_changes};
ghost use Rattle.gb_kinds.specs.ByFile.{change_line};
ghost use Rattle.gb_with.specs.TreeKinds.{IsFailure, makes_of_trees, of_trees-own};
ghost use Rattle.gb_with.specs.TryKinds.{at_path, all_tried, tried_tree};

use crate::remaking::reply_recheck;
use crate::stored::{Call, OwnAction};
use crate::tree_kind::files_of;
use crate::try_file_kind::TryFileKind;
use gb_action::actions::Actions;
use gb_action::change::Change;
use gb_action::reply::{ActionFault, Lines, Reply};
use gb_action::request::Request;
use gb_action::shape::Shape;
use gb_core::bytes::Bytes;
use gb_core::name::Name;
use gb_core::place::RelPath;
use gb_core::text::Text;
use gb_kinds::known_names::source_name;
use gb_kinds::shapes::of_files;
use std::alloc::{AllocError, Global};
use std::marker::PhantomData;

/// The one kind that makes a file from each file as `K` does, or fails. It is incremental in the
/// changes of `src`, and prints a line for each. Given changes it tries all files, since each of
/// them may fail, writes those that differ, and removes those that it no longer makes.
#[derive(Drop)]
pub struct TryByFile<K>(PhantomData<K>);

impl<K: TryFileKind> Call for TryByFile<K> {
    ghost shape = { of_files K.takes };

    fn shape(alloc: Global) -> Result<Shape, AllocError> {
        Ok(of_files(K::takes(alloc)?))
    }
}

impl<K: TryFileKind> Actions for TryByFile<K> {
    type Stored = OwnAction<TryByFile<K>>;

    ghost meanings = { record {
      kind = λ stored. 0;
      version = λ stored. stored;
      shape = λ kind. of_files K.takes;
      makes = λ kind. makes_of_trees (tried_tree K.makes);
      prints = λ kind. prints_changes;
    } };

    ghost own_output = { λ kind. of_trees-own (tried_tree K.makes) };

    fn shape_of(stored: &OwnAction<TryByFile<K>>) -> &Shape {
        stored.shape()
    }

    fn version(stored: &OwnAction<TryByFile<K>>) -> u32 {
        stored.version()
    }

    fn run(
        stored: &OwnAction<TryByFile<K>>,
        alloc: Global,
        request: &Request,
    ) -> Result<Reply, ActionFault> {
        let maker = K::of_call(alloc, &request.args)?;
        let name = source_name(alloc)?;
        match all_tried(alloc, &maker, files_of(&request.files, &name)) {
            Ok(files) => {
                let lines = change_lines(alloc, changes_of(request, &name))?;
                Ok(reply_recheck(alloc, request, files, lines)?)
            }
            Err(fault) => Err(fault),
        }
    }
}

/// A file from each of the files, or the failure of the first that fails.
fn all_tried<K: TryFileKind>(
    alloc: Global,
    maker: &K,
    files: &[(RelPath, Bytes)],
) -> Result<Vec<(RelPath, Bytes)>, ActionFault>
    ensures { MatchResult result
        (λ made. all_tried (K.tried maker.now) files.now ≡ Ok made.items)
        (λ fault. IsFailure fault (all_tried (K.tried maker.now) files.now)) }
{
    let mut made = Vec::new(alloc);
    for (path, bytes) in files {
        let file = try_at(alloc, maker, path, bytes.as_slice())?;
        made.push(file)?;
    }
    Ok(made)
}

/// The file at a path with the bytes that were made, or a failure with the path before it.
fn try_at<K: TryFileKind>(
    alloc: Global,
    maker: &K,
    path: &RelPath,
    bytes: &[u8],
) -> Result<(RelPath, Bytes), ActionFault>
    ensures { MatchResult result
        (λ file. at_path path.now (K.tried maker.now bytes.now) ≡ Ok file)
        (λ fault. IsFailure fault (at_path path.now (K.tried maker.now bytes.now))) }
{
    match maker.try_apply(alloc, bytes) {
        Ok(made) => Ok((path.copy()?, made)),
        Err(ActionFault::OutOfMemory) => Err(ActionFault::OutOfMemory),
        Err(ActionFault::ActionFailed(text)) => Err(ActionFault::ActionFailed(Text::new(
            format!(in alloc; "{path}: {text}")?,
        )?)),
    }
}

/// A line for each change.
fn change_lines(alloc: Global, changes: &[Change]) -> Result<Lines, AllocError>
    ensures { IfOk result (λ lines. lines ≡ map change_line changes.now) }
{
    let mut lines = Lines::new(alloc);
    for change in changes {
        lines.push(change_line(alloc, change)?)?;
    }
    Ok(lines)
}

/// The changes of a property.
fn changes_of<'a>(request: &'a Request, name: &Name) -> &'a [Change]
    ensures { result.now ≡ unwrap_or (find byte_order name.now request.now.changes.lists) [] }
{
    match request.changes.of(name) {
        Some(changes) => changes,
        None => &[],
    }
}

/// The line of a change.
fn change_line(alloc: Global, change: &Change) -> Result<Text, AllocError>
    ensures { IfOk result (λ line. line ≡ change_line change.now) }
{
    match change {
        Change::Added(path) => Text::new(format!(in alloc; "ADDED {path}")?),
        Change::Modified(path) => Text::new(format!(in alloc; "MODIFIED {path}")?),
        Change::Removed(path) => Text::new(format!(in alloc; "REMOVED {path}")?),
    }
}
