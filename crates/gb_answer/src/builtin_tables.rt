//! The kinds and the functions of values that the programs offer. These are macros, since what is
//! known of a closure in a box depends on the function where it is boxed as a `dyn Fn`.

/// The table of all built-in kinds by name, each with its closure: an `ActionTable<StoredAction>`
/// of `gb_action` and `gb_kinds`. `$alloc` is a `Global`. The crate that uses it depends on
/// `gb_answer` and `gb_kinds`.
///
/// The only error is a lack of memory (3). Then it returns from the function that uses it, by `?`,
/// so the error of that function has a `From<AllocError>`. What was boxed before is dropped.
#[macro_export]
macro_rules! builtin_actions {
    ($alloc:expr) => {{
        let alloc = $alloc;
        let (print_line, write_text, fail, concat, add_file) = gb_answer::boxes::five(
            alloc,
            gb_kinds::text_kinds::print_line,
            gb_kinds::text_kinds::write_text,
            gb_kinds::text_kinds::fail,
            gb_kinds::file_kinds::concat,
            gb_kinds::file_kinds::add_file,
        )?;
        let (copy_files, replace_tokens, keep_lines, sums, word_index) = gb_answer::boxes::five(
            alloc,
            gb_kinds::file_kinds::copy_files,
            gb_kinds::file_kinds::replace_tokens,
            gb_kinds::file_kinds::keep_lines,
            gb_kinds::file_kinds::sums,
            gb_kinds::file_kinds::word_index,
        )?;
        gb_answer::in_memory!(gb_kinds::table::action_table(
            alloc,
            print_line,
            write_text,
            fail,
            copy_files,
            replace_tokens,
            keep_lines,
            sums,
            word_index,
            concat,
            add_file,
        ))
    }};
}

/// The table of all built-in functions of values by name, each with its closure: a `FunctionTable`
/// of `gb_kinds`. Its argument, its error and what it needs are as for `builtin_actions!`.
#[macro_export]
macro_rules! builtin_functions {
    ($alloc:expr) => {{
        let alloc = $alloc;
        let (upper, append, non_empty, split, join) = gb_answer::boxes::five(
            alloc,
            gb_kinds::functions::upper,
            gb_kinds::functions::append,
            gb_kinds::functions::non_empty,
            gb_kinds::functions::split,
            gb_kinds::functions::join,
        )?;
        let (child, output, concat, is_true, equals) = gb_answer::boxes::five(
            alloc,
            gb_kinds::functions::child,
            gb_kinds::functions::output,
            gb_kinds::functions::concat,
            gb_kinds::functions::is_true,
            gb_kinds::functions::equals,
        )?;
        gb_answer::in_memory!(gb_kinds::function_table::function_table(
            alloc,
            upper,
            append,
            non_empty,
            split,
            join,
            child,
            output,
            concat,
            is_true,
            equals,
        ))
    }};
}

/// The table; its names are given here, each once, so that it is refused only for want of memory.
#[macro_export]
macro_rules! in_memory {
    ($made:expr) => {
        match $made {
            Ok(table) => table,
            Err(_) => return Err(std::alloc::AllocError.into()),
        }
    };
}
