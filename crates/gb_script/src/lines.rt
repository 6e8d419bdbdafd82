//! The lines on which the statements of a script and the clauses of their blocks begin.
//!
//! The readers of clauses and statements read the tokens again; the values they read are dropped.
ghost use Rattle.std.specs.Prelude.{◌≡◌, ◌<◌, ◌≤◌, ◌⊎◌, length, IfOk, IfErr, Err};
ghost use Rattle.gb_script.specs.Reading.{Gives, many_at, no_matter, all_at};
ghost use Rattle.gb_script.specs.Readers.{in_block};
ghost use Rattle.gb_script.specs.Reporting.{line_left};
ghost use Rattle.gb_script.specs.Script.{HasMeaning};
ghost use Rattle.gb_script.specs.Lines.{AreLinesOf};
ghost use Rattle.gb_script.specs.LineReaders.{clause_line_at, block_lines_at, registration_lines_at};
ghost use Rattle.gb_script.specs.LineReaders.{configuration_lines_at, no_lines_at, clause_lines_at};
ghost use Rattle.gb_script.specs.LineReaders.{statement_lines_at, script_lines_at};

use crate::clauses::{clause, is_in_block};
use crate::fault::ScriptFault;
use crate::keywords::StatementWord;
use crate::lexing::{Lexed, lex};
use crate::part_readers::{closed, name, skip, stray};
use crate::source::{fault_of, text_of};
use crate::statements::{MAX_OPEN, action, is_left, read_statement_word, statement_of};
use crate::token::{Sign, Token};
use crate::token_fault::Stop;
use std::alloc::Global;
use std::marker::Model;

/// The line on which a statement begins, and the lines on which the clauses of its block begin.
/// Lines count from 1.
#[derive(Drop)]
pub struct StatementLines {
    statement: u64,
    clauses: Vec<u64>,
}

impl Model for StatementLines {
    ghost use Rattle.std.specs.Prelude.{ℕ, List};

    ghost Value = { ℕ × List ℕ };

    ghost view = { λ l. (l.statement, l.clauses.items) };
}

impl StatementLines {
    ghost use Rattle.std.specs.Prelude.{◌≡◌};

    fn new(statement: u64, clauses: Vec<u64>) -> StatementLines
        ensures { result ≡ (statement, clauses.items) }
    {
        StatementLines { statement, clauses }
    }

    /// The line on which the statement begins.
    pub fn statement(&self) -> u64
        ensures { result ≡ self.now.0 }
    {
        self.statement
    }

    /// The lines on which its clauses begin, in their order; none if the statement has no block.
    pub fn clauses(&self) -> &[u64]
        ensures { result.now ≡ self.now.1 }
    {
        self.clauses.as_slice()
    }
}

/// The line of the clause at the front.
#[tactic(auto, unfolding(crate::specs::LineReaders::clause_line_at))]
fn clause_line<'t>(
    alloc: Global,
    text: &str,
    lexed: &Lexed,
    tokens: &'t [Token],
    room: u32,
) -> Result<(u64, &'t [Token]), Stop>
    requires { length text.now ≤ 1048576 }
    ensures exact { Gives (λ x. (x.0, x.1.now))
        result (clause_line_at (line_left text.now lexed.now.lines.items) room tokens.now) }
    ensures shorter { IfOk result (λ x. length x.1.now < length tokens.now) }
{
    let (clause, rest) = clause(alloc, tokens, room)?;
    drop(clause);
    Ok((lexed.line_of(text, tokens.len()), rest))
}

/// The lines of the clauses up to the end of a block.
fn clause_lines<'t>(
    alloc: Global,
    text: &str,
    lexed: &Lexed,
    tokens: &'t [Token],
    room: u32,
) -> Result<(Vec<u64>, &'t [Token]), Stop>
    requires { length text.now ≤ 1048576 }
    ensures exact { Gives (λ x. (x.0.items, x.1.now))
        result (many_at in_block no_matter
        (λ s. clause_line_at (line_left text.now lexed.now.lines.items) room)
        (length tokens.now) tt tokens.now) }
    ensures shorter { IfOk result (λ x. length x.1.now ≤ length tokens.now) }
{
    let mut lines = Vec::new(alloc);
    let mut rest = tokens;
    'clauses: while is_in_block(rest) {
        let (next, after) = clause_line(alloc, text, lexed, rest, room)?;
        lines.push(next)?;
        rest = after;
    }
    Ok((lines, rest))
}

/// The lines of the clauses in braces.
#[tactic(auto, unfolding(crate::specs::LineReaders::block_lines_at))]
fn block_lines<'t>(
    alloc: Global,
    text: &str,
    lexed: &Lexed,
    tokens: &'t [Token],
    room: u32,
) -> Result<(Vec<u64>, &'t [Token]), Stop>
    requires { length text.now ≤ 1048576 }
    ensures exact { Gives (λ x. (x.0.items, x.1.now))
        result (block_lines_at (line_left text.now lexed.now.lines.items) room tokens.now) }
    ensures shorter { IfOk result (λ x. length x.1.now < length tokens.now) }
{
    let rest = skip(tokens, Sign::OpenBrace)?;
    let (lines, rest) = clause_lines(alloc, text, lexed, rest, room)?;
    closed(lines, rest, Sign::CloseBrace)
}

/// The lines of the clauses of a new task, after its word.
#[tactic(auto, unfolding(crate::specs::LineReaders::registration_lines_at))]
fn registration_lines<'t>(
    alloc: Global,
    text: &str,
    lexed: &Lexed,
    tokens: &'t [Token],
    room: u32,
) -> Result<(Vec<u64>, &'t [Token]), Stop>
    requires { length text.now ≤ 1048576 }
    ensures exact { Gives (λ x. (x.0.items, x.1.now))
        result (registration_lines_at (line_left text.now lexed.now.lines.items) room tokens.now) }
    ensures shorter { IfOk result (λ x. length x.1.now < length tokens.now) }
{
    let (name, rest) = name(tokens)?;
    drop(name);
    let (action, rest) = action(alloc, rest, room)?;
    drop(action);
    block_lines(alloc, text, lexed, rest, room)
}

/// The lines of the clauses of a task of the project, after its word.
#[tactic(auto, unfolding(crate::specs::LineReaders::configuration_lines_at))]
fn configuration_lines<'t>(
    alloc: Global,
    text: &str,
    lexed: &Lexed,
    tokens: &'t [Token],
    room: u32,
) -> Result<(Vec<u64>, &'t [Token]), Stop>
    requires { length text.now ≤ 1048576 }
    ensures exact { Gives (λ x. (x.0.items, x.1.now))
        result (configuration_lines_at (line_left text.now lexed.now.lines.items) room tokens.now) }
    ensures shorter { IfOk result (λ x. length x.1.now < length tokens.now) }
{
    let (name, rest) = name(tokens)?;
    drop(name);
    block_lines(alloc, text, lexed, rest, room)
}

/// No lines, after the word of a statement without a block.
#[tactic(auto, unfolding(crate::specs::LineReaders::no_lines_at))]
fn no_lines(
    alloc: Global,
    word: StatementWord,
    tokens: &[Token],
    room: u32,
) -> Result<(Vec<u64>, &[Token]), Stop>
    ensures exact { Gives (λ x. (x.0.items, x.1.now)) result (no_lines_at room word tokens.now) }
    ensures shorter { IfOk result (λ x. length x.1.now < length tokens.now) }
{
    let (statement, rest) = statement_of(alloc, word, tokens, room)?;
    drop(statement);
    Ok((Vec::new(alloc), rest))
}

/// The lines of the clauses of a statement, after its word.
#[tactic(auto, unfolding(crate::specs::LineReaders::clause_lines_at))]
fn clause_lines_of<'t>(
    alloc: Global,
    text: &str,
    lexed: &Lexed,
    word: StatementWord,
    tokens: &'t [Token],
) -> Result<(Vec<u64>, &'t [Token]), Stop>
    requires { length text.now ≤ 1048576 }
    ensures exact { Gives (λ x. (x.0.items, x.1.now))
        result (clause_lines_at (line_left text.now lexed.now.lines.items) 64 word tokens.now) }
    ensures shorter { IfOk result (λ x. length x.1.now < length tokens.now) }
{
    match word {
        StatementWord::DefaultTasks => no_lines(alloc, word, tokens, MAX_OPEN),
        StatementWord::Property(_) => no_lines(alloc, word, tokens, MAX_OPEN),
        StatementWord::Register => registration_lines(alloc, text, lexed, tokens, MAX_OPEN),
        StatementWord::Named => configuration_lines(alloc, text, lexed, tokens, MAX_OPEN),
    }
}

/// The line of the statement at the front, and the lines of its clauses.
#[tactic(auto, unfolding(crate::specs::LineReaders::statement_lines_at))]
fn statement_lines<'t>(
    alloc: Global,
    text: &str,
    lexed: &Lexed,
    tokens: &'t [Token],
) -> Result<(StatementLines, &'t [Token]), Stop>
    requires { length text.now ≤ 1048576 }
    ensures exact { Gives (λ x. (x.0, x.1.now))
        result (statement_lines_at (line_left text.now lexed.now.lines.items) 64 tokens.now) }
    ensures shorter { IfOk result (λ x. length x.1.now < length tokens.now) }
{
    let (word, rest) = read_statement_word(tokens)?;
    let (clauses, rest) = clause_lines_of(alloc, text, lexed, word, rest)?;
    let line = lexed.line_of(text, tokens.len());
    Ok((StatementLines::new(line, clauses), rest))
}

/// The lines of the statements up to the end.
fn script_lines<'t>(
    alloc: Global,
    text: &str,
    lexed: &'t Lexed,
) -> Result<(Vec<StatementLines>, &'t [Token]), Stop>
    requires { length text.now ≤ 1048576 }
    ensures { Gives (λ x. (x.0.items, x.1.now))
        result (script_lines_at (line_left text.now lexed.now.lines.items) lexed.now.tokens.items) }
{
    let mut lines = Vec::new(alloc);
    let mut rest = lexed.tokens.as_slice();
    'statements: while is_left(rest) {
        let (next, after) = statement_lines(alloc, text, lexed, rest)?;
        lines.push(next)?;
        rest = after;
    }
    Ok((lines, rest))
}

/// The lines of the statements and clauses of a whole script.
#[tactic(auto, unfolding(crate::specs::Reading::all_at))]
fn whole_script_lines(alloc: Global, text: &str, lexed: &Lexed) -> Result<Vec<StatementLines>, Stop>
    requires { length text.now ≤ 1048576 }
    ensures { Gives (λ lines. lines.items)
        result (all_at (script_lines_at (line_left text.now lexed.now.lines.items)) lexed.now.tokens.items) }
{
    let (lines, rest) = script_lines(alloc, text, lexed)?;
    if is_left(rest) {
        drop(lines);
        return Err(stray(rest));
    }
    Ok(lines)
}

/// The lines on which the statements of the encoded script begin, and those on which the clauses of
/// each begin, in their order. The faults are those of `read_script`.
pub fn read_script_lines(alloc: Global, bytes: &[u8]) -> Result<Vec<StatementLines>, ScriptFault>
    // The bytes parse as a script, and each line is that of the first token of a statement or
    // clause.
    ensures found { IfOk result (λ lines. AreLinesOf bytes.now lines.items) }
    // A fault is the fault that the bytes have as a script, unless memory runs out.
    ensures fault { IfErr result (λ fault. (fault ≡ ScriptFault.OutOfMemory)
        ⊎ HasMeaning bytes.now (Err fault)) }
{
    let text = text_of(bytes)?;
    let lexed = lex(alloc, text)?;
    match whole_script_lines(alloc, text, &lexed) {
        Ok(lines) => Ok(lines),
        Err(stop) => Err(fault_of(text, &lexed, stop)),
    }
}
