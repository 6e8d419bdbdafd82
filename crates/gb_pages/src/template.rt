//! Pages in a layout: the kind `template`.
ghost use Rattle.std.specs.Prelude.{◌≡◌, ◌++◌, ℕ, List, Result, Ok, Err, codes, string_bytes, IfOk};
ghost use Rattle.std.specs.Prelude.{MatchResult};
ghost use Rattle.gb_action.specs.Files.{Tree};
ghost use Rattle.gb_pages.specs.Paths.{token, token_name, has_token, in_layout, all_pages, laid_out};
ghost use Rattle.gb_with.specs.TreeKinds.{IsFailure};

use crate::page_paths::{page_path, stem};
use bstr::ByteSlice;
use gb_action::reply::ActionFault;
use gb_action::shape::{Arg, ArgList};
use gb_action::snapshot::Snapshots;
use gb_action::values::Arguments;
use gb_core::bytes::Bytes;
use gb_core::name::Name;
use gb_core::place::RelPath;
use gb_core::text::Text;
use gb_kinds::arguments::first_text;
use gb_kinds::known_names::source_name;
use gb_kinds::replaced::replaced;
use gb_with::tree_kind::{TreeKind, files_of};
use std::alloc::{AllocError, Global};

/// The kind `template(NAME)`: each page of `src`, with `.html` instead of `.md`, replaces each
/// `{{NAME}}` of the one file of `layout`. `NAME` may be left out; it is then `page`.
#[derive(Drop)]
pub struct Template;

/// Files by their paths.
type Made = Vec<(RelPath, Bytes)>;

impl TreeKind for Template {
    ghost use Rattle.std.specs.Prelude.{[], ◌∷◌};
    ghost use Rattle.gb_action.specs.declared.shape.Arg.TheVariants as args;
    ghost use Rattle.gb_action.specs.declared.shape.Parameter.TheVariants.{Optional};
    ghost use Rattle.gb_pages.specs.Paths.{templated};

    ghost takes = { Optional args.Line ∷ [] };

    ghost makes = { templated };

    fn takes(alloc: Global) -> Result<ArgList, AllocError> {
        let mut list = ArgList::new(alloc);
        list.push_optional(Arg::Line)?;
        Ok(list)
    }

    fn make(alloc: Global, arguments: &Arguments, trees: &Snapshots) -> Result<Made, ActionFault> {
        let files = files_of(trees, &source_name(alloc)?);
        let layouts = files_of(trees, &layout_name(alloc)?);
        laid_out(alloc, token_name(arguments), files, layouts)
    }
}

/// The file property that holds the layout.
pub(crate) fn layout_name(alloc: Global) -> Result<Name, AllocError>
    ensures { IfOk result (λ name. name ≡ codes "layout") }
{
    Name::read(alloc, "layout").map_err(|_| AllocError)
}

/// The name of the token: the argument, or `page` if it is left out.
fn token_name(arguments: &Arguments) -> &str
    ensures { result.now ≡ token_name arguments.now }
{
    match arguments.as_slice().first() {
        None => "page",
        Some(_) => first_text(arguments),
    }
}

/// The pages of all files in the one layout.
fn laid_out(
    alloc: Global,
    name: &str,
    files: &[(RelPath, Bytes)],
    layouts: &[(RelPath, Bytes)],
) -> Result<Made, ActionFault>
    ensures { MatchResult result
        (λ made. laid_out name.now files.now layouts.now ≡ Ok made.items)
        (λ fault. IsFailure fault (laid_out name.now files.now layouts.now)) }
{
    match layouts.split_first() {
        None => failed(alloc, "no layout"),
        Some((layout, others)) => match others.split_first() {
            None => in_layout(
                alloc,
                token(alloc, name)?,
                files,
                &layout.0,
                layout.1.as_slice(),
            ),
            Some(_) => failed(alloc, "more than one layout"),
        },
    }
}

/// The pages of all files in a layout that has a token.
fn in_layout(
    alloc: Global,
    sign: String,
    files: &[(RelPath, Bytes)],
    path: &RelPath,
    layout: &[u8],
) -> Result<Made, ActionFault>
    ensures { MatchResult result
        (λ made. in_layout (string_bytes sign) files.now path.now layout.now ≡ Ok made.items)
        (λ fault. IsFailure fault (in_layout (string_bytes sign) files.now path.now layout.now)) }
{
    if has_token(sign.as_bytes(), layout) {
        all_pages(alloc, sign.as_bytes(), layout, files)
    } else {
        without_token(alloc, sign.as_str(), path)
    }
}

/// The failure of a layout at the path that has no token.
fn without_token(alloc: Global, sign: &str, path: &RelPath) -> Result<Made, ActionFault>
    ensures { let text = path.now ++ codes ": no " ++ sign.now in MatchResult result
        (λ made. ◌≡◌ {A = Result Tree (List ℕ)} (Err text) (Ok made.items))
        (λ fault. IsFailure {A = Tree} fault (Err text)) }
{
    let text = no_token(alloc, sign, path)?;
    failed(alloc, text.as_str())
}

fn no_token(alloc: Global, sign: &str, path: &RelPath) -> Result<String, AllocError>
    ensures { IfOk result (λ text. string_bytes text ≡ path.now ++ codes ": no " ++ sign.now) }
{
    let mut text = String::from_str(alloc, path.as_str())?;
    text.push_str(": no ")?;
    text.push_str(sign)?;
    Ok(text)
}

pub(crate) fn has_token(sign: &[u8], layout: &[u8]) -> bool
    ensures { result ≡ has_token sign.now layout.now }
{
    layout.find(sign).is_some()
}

/// The failure with this text.
pub(crate) fn failed(alloc: Global, text: &str) -> Result<Made, ActionFault>
    ensures { MatchResult result
        (λ made. ◌≡◌ {A = Result Tree (List ℕ)} (Err text.now) (Ok made.items))
        (λ fault. IsFailure {A = Tree} fault (Err text.now)) }
{
    Err(ActionFault::ActionFailed(Text::from_str(alloc, text)?))
}

/// The name in its braces.
fn token(alloc: Global, name: &str) -> Result<String, AllocError>
    ensures { IfOk result (λ sign. string_bytes sign ≡ token name.now) }
{
    let mut sign = String::from_str(alloc, "{{")?;
    sign.push_str(name)?;
    sign.push_str("}}")?;
    Ok(sign)
}

/// The pages of all files.
fn all_pages(
    alloc: Global,
    sign: &[u8],
    layout: &[u8],
    files: &[(RelPath, Bytes)],
) -> Result<Made, ActionFault>
    ensures { MatchResult result
        (λ made. all_pages sign.now layout.now files.now ≡ Ok made.items)
        (λ fault. IsFailure fault (all_pages sign.now layout.now files.now)) }
{
    let mut pages = Vec::new(alloc);
    for (path, bytes) in files {
        let Some(page) = page_path(alloc, stem(path.as_str().as_bytes()))? else {
            return Err(ActionFault::ActionFailed(Text::new(format!(in alloc;
                "{path}: no path of a page"
            )?)?));
        };
        pages.push((page, replaced(alloc, layout, sign, bytes.as_slice())?))?;
    }
    Ok(pages)
}
