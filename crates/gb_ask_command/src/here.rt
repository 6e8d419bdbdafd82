//! The query that the arguments name, over the current directory.
use crate::arguments::{Mode, Question, USAGE, mode_of, question_of};
use crate::fmt;
use crate::questions::{drawn, noted, split_option};
use gb_action::actions::Actions;
use gb_action::table::{ActionTable, TableFault};
use gb_cli::program::UNPRINTED;
use gb_disk::disk::DiskFolder;
use gb_folder::folder::Folder;
use gb_here::arguments::command_words;
use gb_here::here::Functions;
use gb_here::lock::locks;
use gb_here::refused::print_refused;
use gb_printer::page::Page;
use gb_printer::printer::Printer;
use gb_provider::transforms::Transforms;
use gb_query::answer_lines::Activity;
use gb_registry::tables::Tables;
use std::alloc::{AllocError, Global};
use std::fs::{File, TryLockError};
use std::io::{self, BufWriter, Read};
use std::rt::{Env, Files};

/// The most bytes that are read of the input: one more than the maximum size of a script.
const MAX_INPUT: u64 = 1_048_577;

/// Runs the query that the arguments name, with these kinds and functions, over the current
/// directory, and prints the answer. The exit status is 0, or 1 if the query says so, is refused, or
/// could not be printed (also if memory ran out), or 2 after words that are no query, with the usage
/// text. It is 1 also where there is no table, as two kinds have one name (fault 41) or memory ran
/// out (3).
pub fn ask_here<
    A: Actions,
    T: Transforms,
    R: Files<File = File> + Env + Input + Print + AllocGlobal,
>(rt: &R, actions: Result<ActionTable<A::Stored>, TableFault>, transforms: Functions<T>) -> u8 {
    let answered = match actions {
        Ok(actions) => answered::<A, T, R>(
            rt,
            &Tables {
                actions,
                transforms,
            },
        ),
        Err(fault) => refused(rt, fault),
    };
    answered.unwrap_or(UNPRINTED)
}

/// Prints why there is no table.
fn refused<R: Print + AllocGlobal>(rt: &R, fault: TableFault) -> Result<u8, AllocError> {
    let Ok(mut writer) = BufWriter::new(rt.alloc(), io::writer(rt)) else {
        return Err(AllocError);
    };
    let _ = print_refused(&mut writer, fault);
    Ok(UNPRINTED)
}

/// Runs the query with these tables.
fn answered<A: Actions, T: Transforms, R: Files<File = File> + Env + Input + Print + AllocGlobal>(
    rt: &R,
    tables: &Tables<A, T>,
) -> Result<u8, AllocError> {
    let Ok(writer) = BufWriter::new(rt.alloc(), io::writer(rt)) else {
        return Err(AllocError);
    };
    let mut page = Page::new(writer);
    let status = printed(rt, &mut page, tables);
    drop(page);
    Ok(status.unwrap_or(UNPRINTED))
}

/// Prints the answer, and the usage text after arguments that are no query.
fn printed<
    A: Actions,
    T: Transforms,
    R: Files<File = File> + Env + Input + AllocGlobal,
    W: Printer,
>(rt: &R, page: &mut W, tables: &Tables<A, T>) -> Option<u8> {
    let status = match command_words(rt).ok() {
        Some(words) => asked(rt, words, page, tables),
        None => Some(2),
    };
    if status == Some(2) {
        page.print(USAGE.as_bytes());
    }
    status
}

/// Runs the query that the first argument names, with the other arguments.
fn asked<A: Actions, T: Transforms, R: Files<File = File> + Env + Input + AllocGlobal, W: Printer>(
    rt: &R,
    words: Vec<String>,
    page: &mut W,
    tables: &Tables<A, T>,
) -> Option<u8> {
    let (question, words) = parted(words);
    match question {
        Question::Help => {
            drop(words);
            helped(page)
        }
        Question::Unknown => {
            drop(words);
            Some(2)
        }
        other => over_folder(rt, other, words, page, tables),
    }
}

/// Runs a query over the current directory.
fn over_folder<
    A: Actions,
    T: Transforms,
    R: Files<File = File> + Env + Input + AllocGlobal,
    W: Printer,
>(
    rt: &R,
    question: Question,
    words: Vec<String>,
    page: &mut W,
    tables: &Tables<A, T>,
) -> Option<u8> {
    let alloc = rt.alloc();
    let activity = activity_for(rt, question);
    let mut folder = DiskFolder::for_one_build(rt, String::new(alloc));
    let status = match question {
        Question::Graph => drawn(alloc, &mut folder, words, page, tables),
        Question::Fmt => formatted(rt, &mut folder, words, page),
        other => noted(alloc, &mut folder, other, activity, words, page, tables),
    };
    drop(folder);
    status
}

/// Whether a build of the current folder runs, for the query that prints it.
fn activity_for<R: Files<File = File>>(rt: &R, question: Question) -> Activity {
    match question {
        Question::Status => activity(rt),
        _ => Activity::Unknown,
    }
}

/// The query that the first argument names, and the other arguments. Without arguments it is the
/// help.
fn parted(words: Vec<String>) -> (Question, Vec<String>) {
    let mut words = words;
    if words.is_empty() {
        return (Question::Help, words);
    }
    let first = words.remove(0);
    (question_of(first.as_str()), words)
}

/// Whether a build of the current folder runs: whether it holds the lock on the folder.
fn activity<R: Files<File = File>>(rt: &R) -> Activity {
    let Ok(folder) = File::open(rt, ".") else {
        return Activity::Unknown;
    };
    match folder.try_lock_shared() {
        Ok(()) => Activity::Idle,
        Err(TryLockError::WouldBlock) => Activity::Builds,
        Err(TryLockError::Error(_)) => Activity::Unknown,
    }
}

/// Prints the usage text.
fn helped<W: Printer>(page: &mut W) -> Option<u8> {
    page.print(USAGE.as_bytes());
    if page.is_whole() { Some(0) } else { None }
}

/// Formats the named files in the mode that the first argument names, if it names one.
fn formatted<R: Files<File = File> + Input + AllocGlobal, F: Folder, W: Printer>(
    rt: &R,
    folder: &mut F,
    words: Vec<String>,
    page: &mut W,
) -> Option<u8> {
    let (mode, names) = split_option(words, mode_of);
    let status = if names.is_empty() || names.iter().any(|name| is_option(name.as_str())) {
        Some(2)
    } else {
        let mode = mode.unwrap_or(Mode::Prints);
        format_named(rt, folder, mode, names.as_slice(), page)
    };
    drop(names);
    status
}

/// Formats these files, and the input if it is among them.
fn format_named<R: Files<File = File> + Input + AllocGlobal, F: Folder, W: Printer>(
    rt: &R,
    folder: &mut F,
    mode: Mode,
    names: &[String],
    page: &mut W,
) -> Option<u8> {
    let input = input_for(rt, names)?;
    let status = format_locked(rt, folder, mode, names, input.as_slice(), page);
    drop(input);
    status
}

/// Formats these files under the locks that the mode needs.
fn format_locked<R: Files<File = File> + AllocGlobal, F: Folder, W: Printer>(
    rt: &R,
    folder: &mut F,
    mode: Mode,
    names: &[String],
    input: &[u8],
    page: &mut W,
) -> Option<u8> {
    let held = locks_for(rt, mode).ok()?;
    let status = fmt::run(rt.alloc(), folder, mode, names, input, page);
    drop(held);
    status
}

/// The locks of a build if files are written: a write removes whatever a build has in `.gb/new`.
fn locks_for<R: Files<File = File> + AllocGlobal>(
    rt: &R,
    mode: Mode,
) -> Result<Vec<File>, AllocError> {
    match mode {
        Mode::Writes => locks(rt),
        Mode::Prints | Mode::Checks => Ok(Vec::new(rt.alloc())),
    }
}

/// Whether an argument is an option: `-` alone is not one.
fn is_option(word: &str) -> bool {
    word.starts_with('-') && word != "-"
}

/// The input, if it is named among the files.
fn input_for<R: Input + AllocGlobal>(rt: &R, names: &[String]) -> Option<Vec<u8>> {
    let mut input = Vec::new(rt.alloc());
    if names.iter().any(|name| name.as_str() == "-") {
        rt.reader().take(MAX_INPUT).read_to_end(&mut input).ok()?;
    }
    Some(input)
}
