//! The signatures of the kinds.
ghost use Rattle.std.specs.Prelude.{◌≡◌, [], ◌∷◌, IfOk};
ghost use Rattle.gb_action.specs.declared.shape.Parameter.TheVariants.{Required};
ghost use Rattle.gb_kinds.specs.Builtin.{builtin_shape, of_files, of_texts};

use gb_action::output_files::Form;
use gb_action::shape::{Arg, ArgList, Shape};
use std::alloc::{AllocError, Global};

/// The number of the kind `printLine`.
pub const PRINT_LINE: u16 = 0;

/// The number of the kind `writeText`.
pub const WRITE_TEXT: u16 = 1;

/// The number of the kind `fail`.
pub const FAIL: u16 = 2;

/// The number of the kind `copyFiles`.
pub const COPY_FILES: u16 = 3;

/// The number of the kind `replaceTokens`.
pub const REPLACE_TOKENS: u16 = 4;

/// The number of the kind `keepLines`.
pub const KEEP_LINES: u16 = 5;

/// The number of the kind `sums`.
pub const SUMS: u16 = 6;

/// The number of the kind `concat`.
pub const CONCAT: u16 = 7;

/// The number of the kind `addFile`.
pub const ADD_FILE: u16 = 8;

/// The number of the kind `wordIndex`.
pub const WORD_INDEX: u16 = 9;

/// `printLine(LINE)` writes no file.
pub fn print_line_shape(alloc: Global) -> Result<Shape, AllocError>
    ensures { IfOk result (λ shape. shape ≡ builtin_shape PRINT_LINE) }
{
    one_argument(alloc, Arg::Line, None)
}

/// `writeText(TEXT)` writes the file `out`.
pub fn write_text_shape(alloc: Global) -> Result<Shape, AllocError>
    ensures { IfOk result (λ shape. shape ≡ builtin_shape WRITE_TEXT) }
{
    one_argument(alloc, Arg::Text, Some(Form::File))
}

/// `fail(LINE)` writes no file.
pub fn fail_shape(alloc: Global) -> Result<Shape, AllocError>
    ensures { IfOk result (λ shape. shape ≡ builtin_shape FAIL) }
{
    one_argument(alloc, Arg::Line, None)
}

/// `copyFiles` makes the folder `out` of `src`.
pub fn copy_files_shape(alloc: Global) -> Result<Shape, AllocError>
    ensures { IfOk result (λ shape. shape ≡ builtin_shape COPY_FILES) }
{
    Ok(of_files(ArgList::new(alloc)))
}

/// `replaceTokens(KEY, TEXT)` makes the folder `out` of `src`.
pub fn replace_tokens_shape(alloc: Global) -> Result<Shape, AllocError>
    ensures { IfOk result (λ shape. shape ≡ builtin_shape REPLACE_TOKENS) }
{
    Ok(of_files(two_arguments(alloc, Arg::Key, Arg::Text)?))
}

/// `keepLines(TEXT)` makes the folder `out` of `src`.
pub fn keep_lines_shape(alloc: Global) -> Result<Shape, AllocError>
    ensures { IfOk result (λ shape. shape ≡ builtin_shape KEEP_LINES) }
{
    let mut args = ArgList::new(alloc);
    args.push(Arg::Text)?;
    Ok(of_files(args))
}

/// `sums` makes the folder `out` of `src`.
pub fn sums_shape(alloc: Global) -> Result<Shape, AllocError>
    ensures { IfOk result (λ shape. shape ≡ builtin_shape SUMS) }
{
    Ok(of_files(ArgList::new(alloc)))
}

/// `concat` makes the file `out` of `src`.
pub fn concat_shape(alloc: Global) -> Result<Shape, AllocError>
    ensures { IfOk result (λ shape. shape ≡ builtin_shape CONCAT) }
{
    Ok(Shape {
        args: ArgList::new(alloc),
        src: true,
        out: Some(Form::File),
        incremental: false,
    })
}

/// `addFile(PATH, TEXT)` writes under the folder `out`.
pub fn add_file_shape(alloc: Global) -> Result<Shape, AllocError>
    ensures { IfOk result (λ shape. shape ≡ builtin_shape ADD_FILE) }
{
    Ok(of_texts(two_arguments(alloc, Arg::Rel, Arg::Text)?, Some(Form::Dir)))
}

/// `wordIndex` makes the folder `out` of `src`.
pub fn word_index_shape(alloc: Global) -> Result<Shape, AllocError>
    ensures { IfOk result (λ shape. shape ≡ builtin_shape WORD_INDEX) }
{
    Ok(of_files(ArgList::new(alloc)))
}

/// The signature of a kind that takes one argument and reads no files.
fn one_argument(alloc: Global, arg: Arg, out: Option<Form>) -> Result<Shape, AllocError>
    ensures { IfOk result (λ shape. shape ≡ of_texts (Required arg ∷ []) out) }
{
    let mut args = ArgList::new(alloc);
    args.push(arg)?;
    Ok(of_texts(args, out))
}

fn two_arguments(alloc: Global, first: Arg, second: Arg) -> Result<ArgList, AllocError>
    ensures { IfOk result (λ args. args ≡ Required first ∷ Required second ∷ []) }
{
    let mut args = ArgList::new(alloc);
    args.push(first)?;
    args.push(second)?;
    Ok(args)
}

/// The signature of a kind that reads no files.
pub(crate) fn of_texts(args: ArgList, out: Option<Form>) -> Shape
    ensures { result ≡ of_texts args out }
{
    Shape {
        args,
        src: false,
        out,
        incremental: false,
    }
}

/// The signature of an incremental kind.
pub fn of_files(args: ArgList) -> Shape
    ensures { result ≡ of_files args }
{
    Shape {
        args,
        src: true,
        out: Some(Form::Dir),
        incremental: true,
    }
}
