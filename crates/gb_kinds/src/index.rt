//! The word index: for each word the paths of the files that contain it.
ghost use Rattle.std.specs.Prelude.{◌≡◌, bytes_eq, IfOk, OnOk, IsTrue};
ghost use Rattle.std.specs.BTreeSet.{contains};
ghost use Rattle.std.specs.FinMap.Entries.{is_sorted};
ghost use Rattle.gb_core.specs.Lists.{byte_order};
ghost use Rattle.gb_action.specs.Files.{file_at};
ghost use Rattle.gb_kinds.specs.Words.{index_files, index_of, with_path};

use crate::file_words::{Words, words_of};
use gb_core::bytes::Bytes;
use gb_core::place::RelPath;
use std::alloc::{AllocError, Global};
use std::collections::BTreeMap;

/// For each word the paths of files, each followed by a line feed.
pub type Index = BTreeMap<RelPath, Vec<u8>>;

/// The index of the files. Takes n log n steps in the bytes of the files.
pub fn index_of(alloc: Global, files: &[(RelPath, Bytes)]) -> Result<Index, AllocError>
    ensures { IfOk result (λ index. index_files index ≡ index_of files.now) }
{
    let mut index = BTreeMap::new(alloc);
    for (path, bytes) in files {
        let words = words_of(alloc, bytes.as_slice())?;
        add_path(alloc, &mut index, path, &words)?;
    }
    Ok(index)
}

/// Adds the path at each of the words.
pub fn add_path(
    alloc: Global,
    index: &mut Index,
    path: &RelPath,
    words: &Words,
) -> Result<(), AllocError>
    requires { IsTrue (is_sorted byte_order (index_files index.old)) }
    ensures ordered { OnOk result (IsTrue (is_sorted byte_order (index_files index.new))) }
    ensures paths { OnOk result ((word : _)
        → file_at (index_files index.new) word
        ≡ with_path path.now (contains byte_order words.now word)
        (file_at (index_files index.old) word)) }
{
    for word in words.iter() {
        add_line(alloc, index, word, path)?;
    }
    Ok(())
}

/// Appends the path to the paths of a word.
fn add_line(
    alloc: Global,
    index: &mut Index,
    word: &RelPath,
    path: &RelPath,
) -> Result<(), AllocError>
    ensures ordered { OnOk result (IsTrue (is_sorted byte_order (index_files index.new))) }
    ensures paths { OnOk result ((other : _)
        → file_at (index_files index.new) other
        ≡ with_path path.now (bytes_eq word.now other) (file_at (index_files index.old) other)) }
{
    let mut lines = index.remove(word).unwrap_or(Vec::new(alloc));
    lines.extend_from_slice(path.as_str().as_bytes())?;
    lines.push(b'\n')?;
    index.insert(word.copy()?, lines)?;
    Ok(())
}
