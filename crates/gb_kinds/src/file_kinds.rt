//! The kinds that read files, and the one that adds a file.
ghost use Rattle.std.specs.Prelude.{◌≡◌, IfOk};
ghost use Rattle.std.specs.BTreeSet.{contains};
ghost use Rattle.gb_core.specs.Lists.{byte_order};
ghost use Rattle.gb_action.specs.Replies.{Answers};
ghost use Rattle.gb_action.specs.Shapes.{IsAsked};
ghost use Rattle.gb_kinds.specs.Builtin.{builtin_shape, builtin_makes, builtin_prints};
ghost use Rattle.gb_kinds.specs.ByFile.{all_bytes};
ghost use Rattle.gb_kinds.specs.Carried.{IsIndexFor};
ghost use Rattle.gb_kinds.specs.Words.{index_files};

use crate::arguments::{first_text, second_text};
use crate::by_file::reply_by_file;
use crate::carried::carried_index;
use crate::edit::FileEdit;
use crate::file_words::Words;
use crate::index::index_of;
use crate::known_names::{own_path, rel_path, source_name};
use crate::one_file::one_file;
use crate::remade::{Remade, reply_remade};
use crate::request_files::files_of;
use crate::shapes::{ADD_FILE, CONCAT, COPY_FILES, KEEP_LINES, REPLACE_TOKENS, SUMS, WORD_INDEX};
use gb_action::reply::{ActionFault, Reply};
use gb_action::request::Request;
use gb_core::bytes::Bytes;
use gb_core::place::RelPath;
use std::alloc::{AllocError, Global};

/// Makes each file again, at the same path.
pub fn copy_files(alloc: Global, request: &Request) -> Result<Reply, ActionFault>
    requires { IsAsked (builtin_shape COPY_FILES) request.now }
    ensures { Answers (builtin_makes COPY_FILES) (builtin_prints COPY_FILES) request.now result }
{
    Ok(reply_by_file(alloc, request, &FileEdit::Copy)?)
}

/// Makes each file with a value in place of each `@key@`.
pub fn replace_tokens(alloc: Global, request: &Request) -> Result<Reply, ActionFault>
    requires { IsAsked (builtin_shape REPLACE_TOKENS) request.now }
    ensures { Answers (builtin_makes REPLACE_TOKENS) (builtin_prints REPLACE_TOKENS) request.now result }
{
    let edit = FileEdit::ReplaceToken {
        key: first_text(&request.args),
        value: second_text(&request.args),
    };
    Ok(reply_by_file(alloc, request, &edit)?)
}

/// Makes each file with its lines that contain a text.
pub fn keep_lines(alloc: Global, request: &Request) -> Result<Reply, ActionFault>
    requires { IsAsked (builtin_shape KEEP_LINES) request.now }
    ensures { Answers (builtin_makes KEEP_LINES) (builtin_prints KEEP_LINES) request.now result }
{
    let edit = FileEdit::KeepLines(first_text(&request.args));
    Ok(reply_by_file(alloc, request, &edit)?)
}

/// Makes for each file one that contains its SHA-256 in hex, and a line feed.
pub fn sums(alloc: Global, request: &Request) -> Result<Reply, ActionFault>
    requires { IsAsked (builtin_shape SUMS) request.now }
    ensures { Answers (builtin_makes SUMS) (builtin_prints SUMS) request.now result }
{
    Ok(reply_by_file(alloc, request, &FileEdit::Sum)?)
}

/// Makes for each word of the files one that contains the paths of those with the word, each ended
/// by a line feed. Given changes it reads only the bytes of the old index and of the changed files.
pub fn word_index(alloc: Global, request: &Request) -> Result<Reply, ActionFault>
    requires { IsAsked (builtin_shape WORD_INDEX) request.now }
    ensures { Answers (builtin_makes WORD_INDEX) (builtin_prints WORD_INDEX) request.now result }
{
    let remade = index_for(alloc, request)?;
    Ok(reply_remade(alloc, request, remade)?)
}

fn index_for(alloc: Global, request: &Request) -> Result<Remade, AllocError>
    ensures { IfOk result (λ remade.
        IsIndexFor request.now (contains byte_order remade.looked_at) (index_files remade.made)) }
{
    if request.changes.is_incremental() {
        return carried_index(alloc, request);
    }
    let name = source_name(alloc)?;
    Ok(Remade {
        looked_at: Words::new(alloc),
        made: index_of(alloc, files_of(request, &name))?,
    })
}

/// Makes one file of the bytes of all, in the order of their paths.
pub fn concat(alloc: Global, request: &Request) -> Result<Reply, ActionFault>
    requires { IsAsked (builtin_shape CONCAT) request.now }
    ensures { Answers (builtin_makes CONCAT) (builtin_prints CONCAT) request.now result }
{
    let name = source_name(alloc)?;
    let bytes = all_bytes(alloc, files_of(request, &name))?;
    Ok(one_file(alloc, own_path(alloc)?, bytes)?)
}

/// Makes the file at a path under the output, which contains a text.
pub fn add_file(alloc: Global, request: &Request) -> Result<Reply, ActionFault>
    requires { IsAsked (builtin_shape ADD_FILE) request.now }
    ensures { Answers (builtin_makes ADD_FILE) (builtin_prints ADD_FILE) request.now result }
{
    let path = rel_path(alloc, first_text(&request.args))?;
    let text = second_text(&request.args);
    Ok(one_file(alloc, path, Bytes::from_slice(alloc, text.as_bytes())?)?)
}

fn all_bytes(alloc: Global, files: &[(RelPath, Bytes)]) -> Result<Bytes, AllocError>
    ensures { IfOk result (λ bytes. bytes ≡ all_bytes files.now) }
{
    let mut joined = Vec::new(alloc);
    for (_, bytes) in files {
        joined.extend_from_slice(bytes.as_slice())?;
    }
    Ok(Bytes::new(joined))
}
