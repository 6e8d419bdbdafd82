//! Which registered tasks are default tasks.
ghost use Rattle.std.specs.Prelude.{◌≡◌, ◌++◌, bytes_eq, codes};
ghost use Rattle.gb_query.specs.Listing.{has_colon, is_default, is_path_of, selects};

use gb_core::path::TaskPath;
use gb_core::text::Text;

/// Whether one of these words selects the task.
pub(crate) fn is_default(words: &[Text], path: &TaskPath) -> bool
    ensures { result ≡ is_default words.now path.now }
{
    words.iter().any(|word| selects(word.as_str(), path))
}

/// Whether a word selects the task: by its path if it has a colon, and otherwise by its name.
fn selects(word: &str, path: &TaskPath) -> bool
    ensures { result ≡ selects word.now path.now }
{
    if has_colon(word) {
        is_path_of(word, path.as_str())
    } else {
        word == path.name()
    }
}

fn has_colon(word: &str) -> bool
    ensures { result ≡ has_colon word.now }
{
    word.as_bytes().iter().any(|byte| *byte == b':')
}

/// Whether a word is this path, with its first colon or without it.
fn is_path_of(word: &str, path: &str) -> bool
    ensures { result ≡ is_path_of word.now path.now }
{
    word == path || is_after_colon(word, path.as_bytes())
}

fn is_after_colon(word: &str, path: &[u8]) -> bool
    ensures { result ≡ bytes_eq path.now (codes ":" ++ word.now) }
{
    match path {
        [b':', rest @ ..] => rest == word.as_bytes(),
        _ => false,
    }
}
