//! Builds the index of words from the old index, the changes, and the files that changed.
ghost use Rattle.std.specs.Prelude.{◌≡◌, ◌||◌, ◌&&◌, [], true, false, not, bytes_eq, if◌then◌else◌};
ghost use Rattle.std.specs.Prelude.{unwrap_or, IfOk, OnOk, IsTrue};
ghost use Rattle.std.specs.BTreeSet.{contains};
ghost use Rattle.std.specs.FinMap.Entries.{is_sorted};
ghost use Rattle.std.specs.List.{concat, list_all, list_any};
ghost use Rattle.std.specs.List.Sorted.{IsStrictlySortedBy};
ghost use Rattle.std.specs.Option.{option_copied, option_or};
ghost use Rattle.bstr.specs.Text.{lines_of};
ghost use Rattle.gb_core.specs.Place.{is_rel_path};
ghost use Rattle.gb_core.specs.Lists.{byte_order};
ghost use Rattle.gb_action.specs.Files.{file_at, tree_at};
ghost use Rattle.gb_action.specs.Outputs.{exists_at};
ghost use Rattle.gb_action.specs.Shapes.{source as source_is, target};
ghost use Rattle.gb_kinds.specs.ByFile.{source_changes};
ghost use Rattle.gb_kinds.specs.Carried.{as_files, file_of_lines, holds_in, is_line_of, is_of_change};
ghost use Rattle.gb_kinds.specs.Carried.{lines_where, path_of, IsCarried, IsEntry};
ghost use Rattle.gb_kinds.specs.Remade.{existing as existing_in};
ghost use Rattle.gb_kinds.specs.Words.{index_files, path_line, with_path};

use crate::file_words::{Words, words_of};
use crate::index::{Index, add_path};
use crate::known_names::{output_name, source_name};
use crate::line_key::Line;
use crate::remade::{Remade, existing};
use crate::request_files;
use bstr::ByteSlice;
use gb_action::change::Change;
use gb_action::request::Request;
use gb_core::bytes::Bytes;
use gb_core::name::Name;
use gb_core::place::RelPath;
use std::alloc::{AllocError, Global};
use std::collections::{BTreeMap, BTreeSet};

/// Lines in byte order, each once.
type Lines = BTreeSet<Line>;

/// The data of changed files.
#[derive(Drop)]
struct Changed {
    /// The lines of their paths.
    lines: Lines,
    /// The words that they contain now.
    words: Words,
    /// For each of these words the files that contain it.
    index: Index,
}

/// The index for the words that changed files contain or contained. It reads no bytes of the files
/// that did not change. Takes n log n steps in the bytes of the old index and of the changed files,
/// and one for each path.
pub fn carried_index(alloc: Global, request: &Request) -> Result<Remade, AllocError>
    ensures { IfOk result (λ remade.
        IsCarried (existing_in request.now.outputs) (source_changes request.now.changes.lists)
        (tree_at request.now.files source_is) (contains byte_order remade.looked_at)
        (index_files remade.made)) }
{
    let name = source_name(alloc)?;
    let output = output_name(alloc)?;
    meet_paths(request_files::files_of(request, &name));
    let changed = changed_of(alloc, request, request_files::changes_of(request, &name))?;
    let Changed {
        lines,
        words: mut looked_at,
        index,
    } = changed;
    add_reported(alloc, &mut looked_at, existing(request, &output), &lines)?;
    let made = index_at(alloc, request, &looked_at, &lines, &index)?;
    Ok(Remade { looked_at, made })
}

/// Walks the paths, only for the proof: a path must be visited for it to be known that it contains
/// no line feed.
fn meet_paths(files: &[(RelPath, Bytes)])
    ensures { IsTrue (list_all (λ file. is_rel_path file.0) files.now) }
{
    for (path, _) in files {
        path.as_str();
    }
}

fn changed_of(alloc: Global, request: &Request, changes: &[Change]) -> Result<Changed, AllocError>
    ensures lines { IfOk result (λ changed. (line : _)
        → contains byte_order changed.lines line ≡ is_of_change changes.now line) }
    ensures words { IfOk result (λ changed. (word : _)
        → contains byte_order changed.words word
        ≡ list_any (λ change. holds_in (file_at (tree_at request.now.files source_is) (path_of change))
        word) changes.now) }
    ensures entries { IfOk result (λ changed. (word : _)
        → file_at (index_files changed.index) word
        ≡ lines_where (λ file. holds_in (file_at (tree_at request.now.files source_is) file.0) word)
        (as_files changes.now)) }
    ensures paths { IfOk result (λ _.
        IsTrue (list_all (λ change. is_rel_path (path_of change)) changes.now)) }
{
    let name = source_name(alloc)?;
    let mut changed = Changed {
        lines: BTreeSet::new(alloc),
        words: BTreeSet::new(alloc),
        index: BTreeMap::new(alloc),
    };
    for change in changes {
        let path = path_of(change);
        add_change(
            alloc,
            &mut changed,
            path,
            request_files::file_of(request, &name, path),
        )?;
    }
    Ok(changed)
}

fn path_of(change: &Change) -> &RelPath
    ensures { result.now ≡ path_of change.now }
{
    match change {
        Change::Added(path) | Change::Modified(path) | Change::Removed(path) => path,
    }
}

/// Adds a path, with the current file at it.
fn add_change(
    alloc: Global,
    changed: &mut Changed,
    path: &RelPath,
    contents: Option<&Bytes>,
) -> Result<(), AllocError>
    requires { IsTrue (is_sorted byte_order (index_files changed.old.index)) }
    ensures ordered { OnOk result (IsTrue (is_sorted byte_order (index_files changed.new.index))) }
    ensures lines { OnOk result ((line : _)
        → contains byte_order changed.new.lines line
        ≡ (contains byte_order changed.old.lines line || bytes_eq (path_line path.now) line)) }
    ensures words { OnOk result ((word : _)
        → contains byte_order changed.new.words word
        ≡ (contains byte_order changed.old.words word || holds_in (option_copied contents.entry) word)) }
    ensures entries { OnOk result ((word : _)
        → file_at (index_files changed.new.index) word
        ≡ with_path path.now (holds_in (option_copied contents.entry) word)
        (file_at (index_files changed.old.index) word)) }
    ensures path { OnOk result (IsTrue (is_rel_path path.now)) }
{
    let words = words_in(alloc, contents)?;
    add_path(alloc, &mut changed.index, path, &words)?;
    changed.lines.insert(Line::of_path(alloc, path)?)?;
    add_words(&mut changed.words, words)?;
    Ok(())
}

fn add_words(words: &mut Words, more: Words) -> Result<(), AllocError>
    ensures { OnOk result ((word : _)
        → contains byte_order words.new word
        ≡ (contains byte_order words.old word || contains byte_order more word)) }
{
    for word in more {
        words.insert(word)?;
    }
    Ok(())
}

/// The words of a file, if there is one.
fn words_in(alloc: Global, contents: Option<&Bytes>) -> Result<Words, AllocError>
    ensures { IfOk result (λ words. (word : _)
        → contains byte_order words word ≡ holds_in (option_copied contents.entry) word) }
{
    match contents {
        Some(bytes) => words_of(alloc, bytes.as_slice()),
        None => Ok(BTreeSet::new(alloc)),
    }
}

/// Adds the words for which an index contains one of the lines.
fn add_reported(
    alloc: Global,
    words: &mut Words,
    index: &[(RelPath, Bytes)],
    lines: &Lines,
) -> Result<(), AllocError>
    ensures { OnOk result ((word : _)
        → contains byte_order words.new word
        ≡ (contains byte_order words.old word
        || list_any (λ file. bytes_eq file.0 word
        && list_any (contains byte_order lines.now) (lines_of file.1)) index.now)) }
{
    for (word, reported) in index {
        add_where_reported(alloc, words, word, reported.as_slice(), lines)?;
    }
    Ok(())
}

fn add_where_reported(
    alloc: Global,
    words: &mut Words,
    word: &RelPath,
    reported: &[u8],
    lines: &Lines,
) -> Result<(), AllocError>
    ensures { OnOk result ((other : _)
        → contains byte_order words.new other
        ≡ (contains byte_order words.old other
        || (bytes_eq word.now other
        && list_any (contains byte_order lines.now) (lines_of reported.now)))) }
{
    if has_line(alloc, reported, lines)? {
        words.insert(word.copy()?)?;
    }
    Ok(())
}

/// Whether one of the lines is among these bytes.
fn has_line(alloc: Global, reported: &[u8], lines: &Lines) -> Result<bool, AllocError>
    ensures { IfOk result
        (λ shows. shows ≡ list_any (contains byte_order lines.now) (lines_of reported.now)) }
{
    for line in reported.lines_with_terminator() {
        if lines.contains(&Line::from_slice(alloc, line)?) {
            return Ok(true);
        }
    }
    Ok(false)
}

/// The files at the words: the existing lines without those that are gone, and the new ones.
fn index_at(
    alloc: Global,
    request: &Request,
    words: &Words,
    gone: &Lines,
    new: &Index,
) -> Result<Index, AllocError>
    ensures ordered { IfOk result (λ index. IsTrue (is_sorted byte_order (index_files index))) }
    ensures entries { IfOk result (λ index. (word : _) → contains byte_order words.now word ≡ true
        → IsEntry (is_line_of (unwrap_or (exists_at request.now.outputs target word) [])
        (contains byte_order gone.now) (unwrap_or (file_at (index_files new.now) word) []))
        (file_at (index_files index) word)) }
    ensures others { IfOk result (λ index. (word : _) → contains byte_order words.now word ≡ false
        → file_at (index_files index) word ≡ None) }
{
    let output = output_name(alloc)?;
    let mut index = BTreeMap::new(alloc);
    for word in words.iter() {
        let existed = existed_at(request, &output, word);
        let lines = carried_lines(alloc, existed, gone, reported_at(new, word))?;
        add_entry(alloc, &mut index, word, &lines)?;
    }
    Ok(index)
}

/// The existing bytes at a word.
fn existed_at<'a>(request: &'a Request, output: &Name, word: &RelPath) -> &'a [u8]
    ensures { result.now ≡ unwrap_or (exists_at request.now.outputs output.now word.now) [] }
{
    match request.outputs.file_at(output, word) {
        Some(bytes) => bytes.as_slice(),
        None => &[],
    }
}

/// The bytes of an index at a word.
fn reported_at<'a>(index: &'a Index, word: &RelPath) -> &'a [u8]
    ensures { result.now ≡ unwrap_or (file_at (index_files index.now) word.now) [] }
{
    match index.get(word) {
        Some(lines) => lines.as_slice(),
        None => &[],
    }
}

/// The existing lines without those that are gone, and the new ones.
fn carried_lines(
    alloc: Global,
    existed: &[u8],
    gone: &Lines,
    new: &[u8],
) -> Result<Lines, AllocError>
    ensures { IfOk result (λ lines. (line : _)
        → contains byte_order lines line ≡ is_line_of existed.now (contains byte_order gone.now) new.now
        line) }
{
    let mut lines = BTreeSet::new(alloc);
    add_others(alloc, &mut lines, existed, gone)?;
    for line in new.lines_with_terminator() {
        lines.insert(Line::from_slice(alloc, line)?)?;
    }
    Ok(lines)
}

/// Adds the lines except those that are gone.
fn add_others(
    alloc: Global,
    lines: &mut Lines,
    existed: &[u8],
    gone: &Lines,
) -> Result<(), AllocError>
    ensures { OnOk result ((line : _)
        → contains byte_order lines.new line
        ≡ (contains byte_order lines.old line
        || (list_any (bytes_eq line) (lines_of existed.now)
        && not (contains byte_order gone.now line)))) }
{
    for line in existed.lines_with_terminator() {
        let line = Line::from_slice(alloc, line)?;
        if !gone.contains(&line) {
            lines.insert(line)?;
        }
    }
    Ok(())
}

/// Adds a file of the lines at the word, if there are any.
fn add_entry(
    alloc: Global,
    index: &mut Index,
    word: &RelPath,
    lines: &Lines,
) -> Result<(), AllocError>
    requires { IsTrue (is_sorted byte_order (index_files index.old)) }
    ensures ordered { OnOk result (IsTrue (is_sorted byte_order (index_files index.new))) }
    ensures in_order { OnOk result (IsStrictlySortedBy byte_order lines.now.keys) }
    ensures entries { OnOk result ((other : _)
        → file_at (index_files index.new) other
        ≡ (if bytes_eq word.now other
        then option_or (file_of_lines lines.now.keys) (file_at (index_files index.old) other)
        else file_at (index_files index.old) other)) }
{
    let reported = joined(alloc, lines)?;
    if !lines.is_empty() {
        index.insert(word.copy()?, reported)?;
    }
    Ok(())
}

/// The lines, one after another.
fn joined(alloc: Global, lines: &Lines) -> Result<Vec<u8>, AllocError>
    ensures bytes { IfOk result (λ bytes. bytes.items ≡ concat lines.now.keys) }
    ensures in_order { IfOk result (λ _. IsStrictlySortedBy byte_order lines.now.keys) }
{
    let mut bytes = Vec::new(alloc);
    for line in lines.iter() {
        bytes.extend_from_slice(line.as_slice())?;
    }
    Ok(bytes)
}
