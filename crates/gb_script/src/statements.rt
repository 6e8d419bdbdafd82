//! Reads the statements of a script and of settings from tokens.
ghost use Rattle.std.specs.Prelude.{◌≡◌, ◌<◌, ◌≤◌, length, IfOk, None, Some};
ghost use Rattle.gb_script.specs.Lexing.{begins};
ghost use Rattle.gb_script.specs.Words.{statement_words};
ghost use Rattle.gb_script.specs.Reading.{Gives, is_any, is_sign, made_at, past_at, meaning_at, all_at};
ghost use Rattle.gb_script.specs.Readers.{call_at, action_at, registration_at, configuration_at};
ghost use Rattle.gb_script.specs.Readers.{property_of_at, statement_of_at, statement_at, script_at};
ghost use Rattle.gb_script.specs.Readers.{include_at, settings_at};

use crate::clauses::{block, call, property_assignment};
use crate::keywords::{PropertyWord, StatementWord, statement_word};
use crate::part_readers::{begins, name, property, skip, stray, texts, texts_after};
use crate::script::{Call, Configuration, Registration, Script, Settings, Statement};
use crate::token::{Sign, Token};
use crate::token_fault::Stop;
use gb_core::text::Texts;
use std::alloc::Global;

/// How many brackets may be open at once.
pub const MAX_OPEN: u32 = 64;

/// The call after a colon, which has to be the first token.
#[tactic(auto, unfolding(crate::specs::Reading::past_at))]
fn call_after_colon(alloc: Global, tokens: &[Token], room: u32) -> Result<(Call, &[Token]), Stop>
    ensures exact { Gives (λ x. (Some x.0, x.1.now))
        result (past_at (is_sign Sign.Colon) (made_at Some (call_at room)) tokens.now) }
    ensures shorter { IfOk result (λ x. length x.1.now < length tokens.now) }
{
    call(alloc, skip(tokens, Sign::Colon)?, room)
}

/// A call after a colon, or none if there is no colon.
#[tactic(auto, unfolding(crate::specs::Reading::maybe_at, crate::specs::Readers::action_at))]
pub fn action(alloc: Global, tokens: &[Token], room: u32) -> Result<(Option<Call>, &[Token]), Stop>
    ensures exact { Gives (λ x. (x.0, x.1.now)) result (action_at room tokens.now) }
    ensures shorter { IfOk result (λ x. length x.1.now ≤ length tokens.now) }
{
    if begins(tokens, Sign::Colon) {
        let (call, rest) = call_after_colon(alloc, tokens, room)?;
        Ok((Some(call), rest))
    } else {
        Ok((None, tokens))
    }
}

#[tactic(auto, unfolding(crate::specs::Readers::registration_at))]
fn registration(
    alloc: Global,
    tokens: &[Token],
    room: u32,
) -> Result<(Registration, &[Token]), Stop>
    ensures exact { Gives (λ x. (x.0, x.1.now)) result (registration_at room tokens.now) }
    ensures shorter { IfOk result (λ x. length x.1.now < length tokens.now) }
{
    let (name, rest) = name(tokens)?;
    let (action, rest) = action(alloc, rest, room)?;
    let (block, rest) = block(alloc, rest, room)?;
    Ok((
        Registration {
            name,
            action,
            block,
        },
        rest,
    ))
}

#[tactic(auto, unfolding(crate::specs::Readers::configuration_at))]
fn configuration(
    alloc: Global,
    tokens: &[Token],
    room: u32,
) -> Result<(Configuration, &[Token]), Stop>
    ensures exact { Gives (λ x. (x.0, x.1.now)) result (configuration_at room tokens.now) }
    ensures shorter { IfOk result (λ x. length x.1.now < length tokens.now) }
{
    let (name, rest) = name(tokens)?;
    let (block, rest) = block(alloc, rest, room)?;
    Ok((Configuration { name, block }, rest))
}

/// The rest of a statement about a property, after its word.
#[tactic(auto, unfolding(crate::specs::Readers::property_of_at))]
fn property_of(
    alloc: Global,
    word: PropertyWord,
    tokens: &[Token],
    room: u32,
) -> Result<(Statement, &[Token]), Stop>
    ensures exact { Gives (λ x. (x.0, x.1.now)) result (property_of_at room word tokens.now) }
    ensures shorter { IfOk result (λ x. length x.1.now < length tokens.now) }
{
    match word {
        PropertyWord::Declare => {
            let (name, rest) = property(tokens)?;
            Ok((Statement::Property(name), rest))
        }
        PropertyWord::Set => {
            let (assignment, rest) = property_assignment(alloc, tokens, room)?;
            Ok((Statement::Set(assignment), rest))
        }
        PropertyWord::Convention => {
            let (assignment, rest) = property_assignment(alloc, tokens, room)?;
            Ok((Statement::Convention(assignment), rest))
        }
        PropertyWord::Unset => {
            let (name, rest) = property(tokens)?;
            Ok((Statement::Unset(name), rest))
        }
        PropertyWord::DisallowChanges => {
            let (name, rest) = property(tokens)?;
            Ok((Statement::DisallowChanges(name), rest))
        }
    }
}

/// The rest of a statement, after its word.
#[tactic(auto, unfolding(crate::specs::Readers::statement_of_at))]
pub fn statement_of(
    alloc: Global,
    word: StatementWord,
    tokens: &[Token],
    room: u32,
) -> Result<(Statement, &[Token]), Stop>
    ensures exact { Gives (λ x. (x.0, x.1.now)) result (statement_of_at room word tokens.now) }
    ensures shorter { IfOk result (λ x. length x.1.now < length tokens.now) }
{
    match word {
        StatementWord::DefaultTasks => {
            let (tasks, rest) = texts(alloc, tokens)?;
            Ok((Statement::DefaultTasks(tasks), rest))
        }
        StatementWord::Property(word) => property_of(alloc, word, tokens, room),
        StatementWord::Register => {
            let (task, rest) = registration(alloc, tokens, room)?;
            Ok((Statement::Register(task), rest))
        }
        StatementWord::Named => {
            let (task, rest) = configuration(alloc, tokens, room)?;
            Ok((Statement::Named(task), rest))
        }
    }
}

#[tactic(auto, unfolding(crate::specs::Reading::meaning_at))]
pub fn read_statement_word(tokens: &[Token]) -> Result<(StatementWord, &[Token]), Stop>
    ensures exact { Gives (λ x. (x.0, x.1.now)) result (meaning_at statement_words tokens.now) }
    ensures shorter { IfOk result (λ x. length x.1.now < length tokens.now) }
{
    match tokens {
        [Token::Word(word), rest @ ..] => match statement_word(word.as_str()) {
            Some(found) => Ok((found, rest)),
            None => Err(stray(tokens)),
        },
        _ => Err(stray(tokens)),
    }
}

#[tactic(auto, unfolding(crate::specs::Readers::statement_at))]
fn statement(alloc: Global, tokens: &[Token], room: u32) -> Result<(Statement, &[Token]), Stop>
    ensures exact { Gives (λ x. (x.0, x.1.now)) result (statement_at room tokens.now) }
    ensures shorter { IfOk result (λ x. length x.1.now < length tokens.now) }
{
    let (word, rest) = read_statement_word(tokens)?;
    statement_of(alloc, word, rest, room)
}

pub fn is_left(tokens: &[Token]) -> bool
    ensures { result ≡ begins is_any tokens.now }
{
    !tokens.is_empty()
}

/// The statements up to the end.
fn statements(alloc: Global, tokens: &[Token]) -> Result<(Vec<Statement>, &[Token]), Stop>
    ensures { Gives (λ x. (x.0.items, x.1.now)) result (script_at tokens.now) }
{
    let mut statements = Vec::new(alloc);
    let mut rest = tokens;
    'statements: while is_left(rest) {
        let (next, after) = statement(alloc, rest, MAX_OPEN)?;
        statements.push(next)?;
        rest = after;
    }
    Ok((statements, rest))
}

/// The script of these tokens, all of which are read.
#[tactic(auto, unfolding(crate::specs::Reading::all_at))]
pub fn whole_script(alloc: Global, tokens: &[Token]) -> Result<Script, Stop>
    ensures { Gives (λ script. script) result (all_at script_at tokens.now) }
{
    let (statements, rest) = statements(alloc, tokens)?;
    if is_left(rest) {
        return Err(stray(rest));
    }
    Ok(Script::new(statements))
}

/// The project paths after the word.
#[tactic(auto, unfolding(crate::specs::Readers::include_at))]
fn include(alloc: Global, tokens: &[Token]) -> Result<(Texts, &[Token]), Stop>
    ensures exact { Gives (λ x. (x.0, x.1.now)) result (include_at tokens.now) }
    ensures shorter { IfOk result (λ x. length x.1.now < length tokens.now) }
{
    texts_after(alloc, tokens, "include")
}

/// The includes up to the end.
fn includes(alloc: Global, tokens: &[Token]) -> Result<(Vec<Texts>, &[Token]), Stop>
    ensures { Gives (λ x. (x.0.items, x.1.now)) result (settings_at tokens.now) }
{
    let mut includes = Vec::new(alloc);
    let mut rest = tokens;
    'includes: while is_left(rest) {
        let (next, after) = include(alloc, rest)?;
        includes.push(next)?;
        rest = after;
    }
    Ok((includes, rest))
}

/// The settings of these tokens, all of which are read.
#[tactic(auto, unfolding(crate::specs::Reading::all_at))]
pub fn whole_settings(alloc: Global, tokens: &[Token]) -> Result<Settings, Stop>
    ensures { Gives (λ settings. settings) result (all_at settings_at tokens.now) }
{
    let (includes, rest) = includes(alloc, tokens)?;
    if is_left(rest) {
        return Err(stray(rest));
    }
    Ok(Settings::new(includes))
}
