//! The kinds of actions that make pages.

use crate::front_matter::body;
use crate::page_paths::{front, page_path};
use gb_action::shape::ArgList;
use gb_action::values::Arguments;
use gb_core::bytes::Bytes;
use gb_core::place::RelPath;
use gb_kinds::edit::FileMaker;
use gb_markdown::blocks::html;
use gb_with::file_kind::{FileKind, Renaming};
use std::alloc::{AllocError, Global};

/// The kind `markdown`, without arguments: the page of each text without its front matter, at the
/// same path; and the kind `htmlPages`, at the path with `.html` instead of `.md` or `.markdown`.
#[derive(Drop)]
pub struct Markdown;

impl FileMaker for Markdown {
    ghost use Rattle.gb_pages.specs.FrontMatter.{body as without};
    ghost use Rattle.gb_markdown.specs.Blocks.{html as page_of};

    ghost edited = { λ maker text. page_of (without text) };

    fn apply(&self, alloc: Global, bytes: &[u8]) -> Result<Bytes, AllocError> {
        Ok(Bytes::new(html(alloc, body(bytes))?))
    }
}

impl FileKind for Markdown {
    ghost use Rattle.std.specs.Prelude.{[]};
    ghost use Rattle.gb_pages.specs.FrontMatter.{body as without};
    ghost use Rattle.gb_markdown.specs.Blocks.{html as page_of};

    ghost takes = { [] };

    ghost makes = { λ arguments text. page_of (without text) };

    fn takes(alloc: Global) -> Result<ArgList, AllocError> {
        Ok(ArgList::new(alloc))
    }

    fn of_call(_alloc: Global, _arguments: &Arguments) -> Result<Markdown, AllocError> {
        Ok(Markdown)
    }
}

impl Renaming for Markdown {
    ghost use Rattle.gb_pages.specs.Paths.{html_path};

    ghost renamed = { html_path };

    fn renamed(alloc: Global, path: &RelPath) -> Result<Option<RelPath>, AllocError> {
        page_path(alloc, front(path.as_str().as_bytes()))
    }
}
