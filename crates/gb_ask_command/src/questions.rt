//! The queries that ask for no change, with their options.
ghost use Rattle.gb_folder.specs.Calls.{OnlyReads};

use crate::arguments::{Colouring, Question, Style, colouring_of, notation_of, style_of};
use crate::{check, graph, place_query, status, tasks, why};
use gb_action::actions::Actions;
use gb_folder::folder::Folder;
use gb_printer::printer::Printer;
use gb_provider::transforms::Transforms;
use gb_query::answer_lines::Activity;
use gb_query::at_place::Relation;
use gb_query::notation::Notation;
use gb_registry::tables::Tables;
use std::alloc::Global;

/// Runs a query, in the notation that the first argument names, if it names one.
pub(crate) fn noted<A: Actions, T: Transforms, F: Folder, W: Printer>(
    alloc: Global,
    folder: &mut F,
    question: Question,
    activity: Activity,
    words: Vec<String>,
    page: &mut W,
    tables: &Tables<A, T>,
) -> Option<u8>
    ensures reads { OnlyReads F.device folder.old folder.new }
{
    let (notation, words) = split_option(words, notation_of);
    let notation = notation.unwrap_or(Notation::Lines);
    let words = Ok(words);
    match question {
        Question::Why => why::run(alloc, folder, notation, words, page, tables),
        Question::Tasks => tasks::run(alloc, folder, notation, words, page, tables),
        Question::Check => check::run(alloc, folder, notation, words, page, tables),
        Question::Reads => {
            place_query::run(
                alloc,
                folder,
                notation,
                Relation::Reads,
                words,
                page,
                tables,
            )
        }
        Question::Makes => {
            place_query::run(
                alloc,
                folder,
                notation,
                Relation::Makes,
                words,
                page,
                tables,
            )
        }
        Question::Status => status::run(alloc, folder, notation, activity, words, page, tables),
        _ => Some(2),
    }
}

/// Draws the plan in the style and with the colours that the first arguments name, if they name some.
pub(crate) fn drawn<A: Actions, T: Transforms, F: Folder, W: Printer>(
    alloc: Global,
    folder: &mut F,
    words: Vec<String>,
    page: &mut W,
    tables: &Tables<A, T>,
) -> Option<u8>
    ensures reads { OnlyReads F.device folder.old folder.new }
{
    let (before, words) = split_option(words, colouring_of);
    let (style, words) = split_option(words, style_of);
    let (after, words) = split_option(words, colouring_of);
    let style = style.unwrap_or(Style::Dot);
    let colouring = before.or(after).unwrap_or(Colouring::Plain);
    graph::run(alloc, folder, style, colouring, Ok(words), page, tables)
}

/// What the first argument names as an option, if it names one, and the other arguments.
pub(crate) fn split_option<O, R: Fn(&str) -> Option<O>>(
    words: Vec<String>,
    read: R,
) -> (Option<O>, Vec<String>)
    requires { R.IsAlwaysCallable read }
{
    let mut words = words;
    let option = match words.first() {
        Some(word) => read(word.as_str()),
        None => None,
    };
    if option.is_some() {
        words.remove(0);
    }
    (option, words)
}
