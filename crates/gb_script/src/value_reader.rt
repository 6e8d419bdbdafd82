//! Reads values from tokens.
ghost use Rattle.std.specs.Prelude.{◌≡◌, ◌<◌, ◌≤◌, length, map, IfOk, []};
ghost use Rattle.gb_script.specs.Lexing.{begins};
ghost use Rattle.gb_script.specs.View.{root_of, link_of};
ghost use Rattle.gb_script.specs.Words.{step_words};
ghost use Rattle.gb_script.specs.Reading.{Gives, is_sign, no_matter, meaning_at, maybe_at, many_at, past_at};
ghost use Rattle.gb_script.specs.Reading.{list_at, closed_at, opened_at};
ghost use Rattle.gb_script.specs.Readers.{function_at, in_list, root_of_at, list_root_at, root_at};
ghost use Rattle.gb_script.specs.Readers.{link_of_at, link_at, inside_at, tree_at};

use crate::function::Function;
use crate::keywords::{SourceWord, StepWord, source_word, step_word};
use crate::part_readers::{begins, bracketed_text, closed, function, open, property, skip, stray};
use crate::script_expression::{Expression, Source, Step};
use crate::token::{Sign, Token};
use crate::token_fault::{Fault, Stop};
use std::alloc::Global;

/// How many steps one value may have.
const MAX_STEPS: usize = 64;

/// The rest of a source, after its word.
#[tactic(auto, unfolding(crate::specs::Readers::root_of_at))]
fn source_of(word: SourceWord, tokens: &[Token], room: u32) -> Result<(Source, &[Token]), Stop>
    ensures exact { Gives (λ x. (root_of x.0, x.1.now)) result (root_of_at room word tokens.now) }
    ensures shorter { IfOk result (λ x. length x.1.now ≤ length tokens.now) }
{
    match word {
        SourceWord::True => Ok((Source::Flag(true), tokens)),
        SourceWord::False => Ok((Source::Flag(false), tokens)),
        SourceWord::Dir => {
            let (place, rest) = bracketed_text(tokens, room)?;
            Ok((Source::Dir(place), rest))
        }
        SourceWord::File => {
            let (place, rest) = bracketed_text(tokens, room)?;
            Ok((Source::File(place), rest))
        }
        SourceWord::BuildDir => Ok((Source::BuildDir, tokens)),
        SourceWord::GradleProperty => {
            let (name, rest) = bracketed_text(tokens, room)?;
            Ok((Source::GradleProperty(name), rest))
        }
        SourceWord::Task => {
            let (path, rest) = bracketed_text(tokens, room)?;
            Ok((Source::Task(path), rest))
        }
    }
}

#[tactic(auto, unfolding(crate::specs::Reading::meaning_at))]
fn read_step_word(tokens: &[Token]) -> Result<(StepWord, &[Token]), Stop>
    ensures exact { Gives (λ x. (x.0, x.1.now)) result (meaning_at step_words tokens.now) }
    ensures shorter { IfOk result (λ x. length x.1.now < length tokens.now) }
{
    match tokens {
        [Token::Word(word), rest @ ..] => match step_word(word.as_str()) {
            Some(found) => Ok((found, rest)),
            None => Err(stray(tokens)),
        },
        _ => Err(stray(tokens)),
    }
}

/// A function in brackets.
fn bracketed_function(
    alloc: Global,
    tokens: &[Token],
    room: u32,
) -> Result<(Function, &[Token]), Stop>
    ensures exact { Gives (λ x. (x.0, x.1.now))
        result (opened_at Sign.OpenParen room
        (λ inner. closed_at (is_sign Sign.CloseParen) (function_at inner)) tokens.now) }
    ensures shorter { IfOk result (λ x. length x.1.now < length tokens.now) }
{
    let (inner, rest) = open(tokens, Sign::OpenParen, room)?;
    let (function, rest) = function(alloc, rest, inner)?;
    closed(function, rest, Sign::CloseParen)
}

fn is_in_list(tokens: &[Token]) -> bool
    ensures { result ≡ begins in_list tokens.now }
{
    !tokens.is_empty() && !begins(tokens, Sign::CloseBracket)
}

/// A value in which `room` more brackets may be open at once.
#[cycle(reader)]
#[tactic(auto, unfolding(crate::specs::Readers::inside_at, crate::specs::Readers::chain_at))]
pub fn expression(
    alloc: Global,
    tokens: &[Token],
    room: u32,
) -> Result<(Expression, &[Token]), Stop>
    ensures exact { Gives (λ x. (x.0, x.1.now)) result (tree_at room tokens.now) }
    ensures shorter { IfOk result (λ x. length x.1.now < length tokens.now) }
{
    let (source, rest) = source(alloc, tokens, room)?;
    match steps(alloc, rest, room) {
        Ok((steps, rest)) => Ok((Expression::new(source, steps), rest)),
        Err(stop) => {
            drop(source);
            Err(stop)
        }
    }
}

#[cycle(reader)]
#[tactic(auto, unfolding(crate::specs::Readers::root_at, crate::specs::Readers::word_root_at))]
fn source(alloc: Global, tokens: &[Token], room: u32) -> Result<(Source, &[Token]), Stop>
    ensures exact { Gives (λ x. (root_of x.0, x.1.now)) result (root_at room (inside_at room) tokens.now) }
    ensures shorter { IfOk result (λ x. length x.1.now < length tokens.now) }
{
    match tokens {
        [Token::Text(text), rest @ ..] => Ok((Source::Text(text.copy()?), rest)),
        [Token::Word(word), rest @ ..] => match source_word(word.as_str()) {
            Some(found) => source_of(found, rest, room),
            None => {
                let (name, rest) = property(tokens)?;
                Ok((Source::Property(name), rest))
            }
        },
        [Token::Mark(_), ..] => list(alloc, tokens, room),
        _ => Err(stray(tokens)),
    }
}

#[cycle(reader)]
#[tactic(auto, unfolding(crate::specs::Readers::list_root_at))]
fn list(alloc: Global, tokens: &[Token], room: u32) -> Result<(Source, &[Token]), Stop>
    ensures exact { Gives (λ x. (root_of x.0, x.1.now))
        result (list_root_at room (inside_at room) tokens.now) }
    ensures shorter { IfOk result (λ x. length x.1.now < length tokens.now) }
{
    let (inner, rest) = open(tokens, Sign::OpenBracket, room)?;
    let (elements, rest) = elements(alloc, rest, inner)?;
    let rest = skip(rest, Sign::CloseBracket)?;
    Ok((Source::List(elements), rest))
}

/// The elements of a list, or none if it is empty.
#[cycle(reader)]
#[tactic(auto, unfolding(crate::specs::Reading::maybe_at))]
fn elements(alloc: Global, tokens: &[Token], room: u32) -> Result<(Vec<Expression>, &[Token]), Stop>
    ensures exact { Gives (λ x. (x.0.items, x.1.now))
        result (maybe_at in_list (list_at (tree_at room)) [] tokens.now) }
    ensures shorter { IfOk result (λ x. length x.1.now ≤ length tokens.now) }
{
    if is_in_list(tokens) {
        expressions(alloc, tokens, room)
    } else {
        Ok((Vec::new(alloc), tokens))
    }
}

/// An expression after a comma.
#[cycle(reader)]
#[tactic(auto, unfolding(crate::specs::Reading::past_at))]
fn further_expression(
    alloc: Global,
    tokens: &[Token],
    room: u32,
) -> Result<(Expression, &[Token]), Stop>
    ensures exact { Gives (λ x. (x.0, x.1.now))
        result (past_at (is_sign Sign.Comma) (tree_at room) tokens.now) }
    ensures shorter { IfOk result (λ x. length x.1.now < length tokens.now) }
{
    expression(alloc, skip(tokens, Sign::Comma)?, room)
}

/// One or more expressions, separated by commas.
#[cycle(reader)]
pub fn expressions(
    alloc: Global,
    tokens: &[Token],
    room: u32,
) -> Result<(Vec<Expression>, &[Token]), Stop>
    ensures exact { Gives (λ x. (x.0.items, x.1.now)) result (list_at (tree_at room) tokens.now) }
    ensures shorter { IfOk result (λ x. length x.1.now < length tokens.now) }
{
    let mut expressions = Vec::new(alloc);
    let (first, mut rest) = expression(alloc, tokens, room)?;
    expressions.push(first)?;
    'others: while begins(rest, Sign::Comma) {
        let (next, after) = further_expression(alloc, rest, room)?;
        expressions.push(next)?;
        rest = after;
    }
    Ok((expressions, rest))
}

/// The steps after a source.
#[cycle(reader)]
fn steps(alloc: Global, tokens: &[Token], room: u32) -> Result<(Vec<Step>, &[Token]), Stop>
    ensures exact { Gives (λ x. (map link_of x.0.items, x.1.now))
        result (many_at (is_sign Sign.Dot) no_matter (λ s. link_at room (inside_at room)) 64 tt tokens.now) }
    ensures shorter { IfOk result (λ x. length x.1.now ≤ length tokens.now) }
{
    let mut steps = Vec::new(alloc);
    let mut rest = tokens;
    'steps: while begins(rest, Sign::Dot) {
        if steps.len() == MAX_STEPS {
            return Err(Stop::Fault(Fault::Deep(rest.len())));
        }
        let (next, after) = step(alloc, rest, room)?;
        steps.push(next)?;
        rest = after;
    }
    Ok((steps, rest))
}

/// A step, after its dot.
#[cycle(reader)]
#[tactic(auto, unfolding(crate::specs::Readers::link_at))]
fn step(alloc: Global, tokens: &[Token], room: u32) -> Result<(Step, &[Token]), Stop>
    ensures exact { Gives (λ x. (link_of x.0, x.1.now)) result (link_at room (inside_at room) tokens.now) }
    ensures shorter { IfOk result (λ x. length x.1.now < length tokens.now) }
{
    let rest = skip(tokens, Sign::Dot)?;
    let (word, rest) = read_step_word(rest)?;
    step_of(alloc, word, rest, room)
}

/// The rest of a step, after its word.
#[cycle(reader)]
#[tactic(auto, unfolding(crate::specs::Readers::link_of_at))]
fn step_of(
    alloc: Global,
    word: StepWord,
    tokens: &[Token],
    room: u32,
) -> Result<(Step, &[Token]), Stop>
    ensures exact { Gives (λ x. (link_of x.0, x.1.now))
        result (link_of_at room (inside_at room) word tokens.now) }
    ensures shorter { IfOk result (λ x. length x.1.now < length tokens.now) }
{
    match word {
        StepWord::Map => {
            let (function, rest) = bracketed_function(alloc, tokens, room)?;
            Ok((Step::Map(function), rest))
        }
        StepWord::FlatMap => {
            let (function, rest) = bracketed_function(alloc, tokens, room)?;
            Ok((Step::FlatMap(function), rest))
        }
        StepWord::Zip => zip(alloc, tokens, room),
        StepWord::OrElse => or_else(alloc, tokens, room),
    }
}

/// A function after a comma, and the bracket that closes after it.
#[tactic(auto, unfolding(crate::specs::Reading::past_at))]
fn last_function(alloc: Global, tokens: &[Token], room: u32) -> Result<(Function, &[Token]), Stop>
    ensures exact { Gives (λ x. (x.0, x.1.now)) result (closed_at (is_sign Sign.CloseParen)
        (past_at (is_sign Sign.Comma) (function_at room)) tokens.now) }
    ensures shorter { IfOk result (λ x. length x.1.now < length tokens.now) }
{
    let rest = skip(tokens, Sign::Comma)?;
    let (function, rest) = function(alloc, rest, room)?;
    closed(function, rest, Sign::CloseParen)
}

#[cycle(reader)]
#[tactic(auto, unfolding(crate::specs::Readers::link_of_at))]
fn zip(alloc: Global, tokens: &[Token], room: u32) -> Result<(Step, &[Token]), Stop>
    ensures exact { Gives (λ x. (link_of x.0, x.1.now))
        result (link_of_at room (inside_at room) StepWord.Zip tokens.now) }
    ensures shorter { IfOk result (λ x. length x.1.now < length tokens.now) }
{
    let (inner, rest) = open(tokens, Sign::OpenParen, room)?;
    let (other, rest) = expression(alloc, rest, inner)?;
    match last_function(alloc, rest, inner) {
        Ok((function, rest)) => Ok((Step::Zip(other, function), rest)),
        Err(stop) => {
            drop(other);
            Err(stop)
        }
    }
}

#[cycle(reader)]
#[tactic(auto, unfolding(crate::specs::Readers::link_of_at))]
fn or_else(alloc: Global, tokens: &[Token], room: u32) -> Result<(Step, &[Token]), Stop>
    ensures exact { Gives (λ x. (link_of x.0, x.1.now))
        result (link_of_at room (inside_at room) StepWord.OrElse tokens.now) }
    ensures shorter { IfOk result (λ x. length x.1.now < length tokens.now) }
{
    let (inner, rest) = open(tokens, Sign::OpenParen, room)?;
    let (other, rest) = expression(alloc, rest, inner)?;
    match skip(rest, Sign::CloseParen) {
        Ok(rest) => Ok((Step::OrElse(other), rest)),
        Err(stop) => {
            drop(other);
            Err(stop)
        }
    }
}
