//! All built-in actions by name.
//!
//! The table is filled in three steps, so that each step holds few boxes: every exit of a function
//! drops all boxes that it holds.
ghost use Rattle.std.specs.Prelude.{◌≡◌, ◌++◌, ◌∷◌, [], ℕ, List, false, bytes_eq, IfErr, IfOk, OnOk, map};
ghost use Rattle.std.specs.List.{list_any};
ghost use Rattle.gb_action.specs.declared.table.TableFault.TheVariants.{OutOfMemory};
ghost use Rattle.gb_kinds.specs.Builtin.{Implements, builtin_shape, builtin_names, text_names, file_names};

use crate::builtin::{Run, StoredAction};
use crate::shapes::{
    ADD_FILE, CONCAT, COPY_FILES, FAIL, KEEP_LINES, PRINT_LINE, REPLACE_TOKENS, SUMS, WORD_INDEX,
    WRITE_TEXT, add_file_shape, concat_shape, copy_files_shape, fail_shape, keep_lines_shape,
    print_line_shape, replace_tokens_shape, sums_shape, word_index_shape, write_text_shape,
};
use gb_action::shape::Shape;
use gb_action::table::{ActionTable, TableFault};
use gb_core::name::Name;
use std::alloc::{AllocError, Global};

/// The table of all built-in kinds, each with its closure. All kinds have version 1.
pub fn action_table(
    alloc: Global,
    print_line: Run,
    write_text: Run,
    fail: Run,
    copy_files: Run,
    replace_tokens: Run,
    keep_lines: Run,
    sums: Run,
    word_index: Run,
    concat: Run,
    add_file: Run,
) -> Result<ActionTable<StoredAction>, TableFault>
    requires print_line { Implements PRINT_LINE (Run.pre print_line) (Run.post print_line) }
    requires write_text { Implements WRITE_TEXT (Run.pre write_text) (Run.post write_text) }
    requires fail { Implements FAIL (Run.pre fail) (Run.post fail) }
    requires copy_files { Implements COPY_FILES (Run.pre copy_files) (Run.post copy_files) }
    requires replace_tokens { Implements REPLACE_TOKENS (Run.pre replace_tokens) (Run.post replace_tokens) }
    requires keep_lines { Implements KEEP_LINES (Run.pre keep_lines) (Run.post keep_lines) }
    requires sums { Implements SUMS (Run.pre sums) (Run.post sums) }
    requires word_index { Implements WORD_INDEX (Run.pre word_index) (Run.post word_index) }
    requires concat { Implements CONCAT (Run.pre concat) (Run.post concat) }
    requires add_file { Implements ADD_FILE (Run.pre add_file) (Run.post add_file) }
    ensures ok { IfOk result (λ table.
        map {B = List ℕ × ℕ × ℕ} (λ e. (e.0, e.1.kind, e.1.version)) table ≡ builtin_names) }
    ensures err { IfErr result (λ fault. fault ≡ OutOfMemory) }
{
    let mut table = ActionTable::new(alloc);
    add_text_kinds(alloc, &mut table, print_line, write_text, fail)?;
    add_file_kinds(
        alloc,
        &mut table,
        copy_files,
        replace_tokens,
        keep_lines,
        sums,
        word_index,
    )?;
    add_one_file_kinds(alloc, &mut table, concat, add_file)?;
    Ok(table)
}

/// Adds the kinds that read no files to an empty table.
fn add_text_kinds(
    alloc: Global,
    table: &mut ActionTable<StoredAction>,
    print_line: Run,
    write_text: Run,
    fail: Run,
) -> Result<(), TableFault>
    requires print_line { Implements PRINT_LINE (Run.pre print_line) (Run.post print_line) }
    requires write_text { Implements WRITE_TEXT (Run.pre write_text) (Run.post write_text) }
    requires fail { Implements FAIL (Run.pre fail) (Run.post fail) }
    requires before { map {B = List ℕ × ℕ × ℕ} (λ e. (e.0, e.1.kind, e.1.version)) table.old ≡ [] }
    ensures ok { OnOk result (map {B = List ℕ × ℕ × ℕ} (λ e. (e.0, e.1.kind, e.1.version)) table.new
        ≡ text_names) }
    ensures err { IfErr result (λ fault. fault ≡ OutOfMemory) }
{
    add(
        alloc,
        table,
        "printLine",
        PRINT_LINE,
        print_line_shape(alloc),
        print_line,
    )?;
    add(
        alloc,
        table,
        "writeText",
        WRITE_TEXT,
        write_text_shape(alloc),
        write_text,
    )?;
    add(alloc, table, "fail", FAIL, fail_shape(alloc), fail)?;
    Ok(())
}

/// Adds the incremental kinds, after those that read no files.
fn add_file_kinds(
    alloc: Global,
    table: &mut ActionTable<StoredAction>,
    copy_files: Run,
    replace_tokens: Run,
    keep_lines: Run,
    sums: Run,
    word_index: Run,
) -> Result<(), TableFault>
    requires copy_files { Implements COPY_FILES (Run.pre copy_files) (Run.post copy_files) }
    requires replace_tokens { Implements REPLACE_TOKENS (Run.pre replace_tokens) (Run.post replace_tokens) }
    requires keep_lines { Implements KEEP_LINES (Run.pre keep_lines) (Run.post keep_lines) }
    requires sums { Implements SUMS (Run.pre sums) (Run.post sums) }
    requires word_index { Implements WORD_INDEX (Run.pre word_index) (Run.post word_index) }
    requires before { map {B = List ℕ × ℕ × ℕ} (λ e. (e.0, e.1.kind, e.1.version)) table.old ≡ text_names }
    ensures ok { OnOk result (map {B = List ℕ × ℕ × ℕ} (λ e. (e.0, e.1.kind, e.1.version)) table.new
        ≡ text_names ++ file_names) }
    ensures err { IfErr result (λ fault. fault ≡ OutOfMemory) }
{
    add(
        alloc,
        table,
        "copyFiles",
        COPY_FILES,
        copy_files_shape(alloc),
        copy_files,
    )?;
    add(
        alloc,
        table,
        "replaceTokens",
        REPLACE_TOKENS,
        replace_tokens_shape(alloc),
        replace_tokens,
    )?;
    add(
        alloc,
        table,
        "keepLines",
        KEEP_LINES,
        keep_lines_shape(alloc),
        keep_lines,
    )?;
    add(alloc, table, "sums", SUMS, sums_shape(alloc), sums)?;
    add(
        alloc,
        table,
        "wordIndex",
        WORD_INDEX,
        word_index_shape(alloc),
        word_index,
    )?;
    Ok(())
}

/// Adds the other kinds that write one file, after all others.
fn add_one_file_kinds(
    alloc: Global,
    table: &mut ActionTable<StoredAction>,
    concat: Run,
    add_file: Run,
) -> Result<(), TableFault>
    requires concat { Implements CONCAT (Run.pre concat) (Run.post concat) }
    requires add_file { Implements ADD_FILE (Run.pre add_file) (Run.post add_file) }
    requires before { map {B = List ℕ × ℕ × ℕ} (λ e. (e.0, e.1.kind, e.1.version)) table.old
        ≡ text_names ++ file_names }
    ensures ok { OnOk result (map {B = List ℕ × ℕ × ℕ} (λ e. (e.0, e.1.kind, e.1.version)) table.new
        ≡ builtin_names) }
    ensures err { IfErr result (λ fault. fault ≡ OutOfMemory) }
{
    add(alloc, table, "concat", CONCAT, concat_shape(alloc), concat)?;
    add(
        alloc,
        table,
        "addFile",
        ADD_FILE,
        add_file_shape(alloc),
        add_file,
    )?;
    Ok(())
}

/// Adds a kind with this signature under a name that no other has.
fn add(
    alloc: Global,
    table: &mut ActionTable<StoredAction>,
    name: &str,
    kind: u16,
    shape: Result<Shape, AllocError>,
    run: Run,
) -> Result<(), TableFault>
    requires shaped { IfOk shape (λ shape. shape ≡ builtin_shape kind) }
    requires implements { Implements kind (Run.pre run) (Run.post run) }
    requires other { list_any (λ e. bytes_eq e.0 name.now)
        (map {B = List ℕ × ℕ × ℕ} (λ e. (e.0, e.1.kind, e.1.version)) table.old) ≡ false }
    ensures ok { OnOk result (map {B = List ℕ × ℕ × ℕ} (λ e. (e.0, e.1.kind, e.1.version)) table.new
        ≡ map {B = List ℕ × ℕ × ℕ} (λ e. (e.0, e.1.kind, e.1.version)) table.old
        ++ (name.now, kind, 1) ∷ []) }
    ensures err { IfErr result (λ fault. fault ≡ OutOfMemory) }
{
    let stored = StoredAction::new(kind, 1, shape?, run);
    let name = Name::read(alloc, name).map_err(|_| TableFault::OutOfMemory)?;
    table.add(&name, stored)
}
