//! Reads the clauses of a task from tokens.
ghost use Rattle.std.specs.Prelude.{◌≡◌, ◌<◌, ◌≤◌, length, IfOk, Ok, [], codes};
ghost use Rattle.gb_script.specs.Lexing.{begins};
ghost use Rattle.gb_script.specs.Words.{clause_words};
ghost use Rattle.gb_script.specs.Reading.{Gives, is_sign, is_word, no_matter, name_at, property_at};
ghost use Rattle.gb_script.specs.Reading.{meaning_at, maybe_at, many_at, past_at, pair_at};
ghost use Rattle.gb_script.specs.Readers.{in_block, tree_at, bracketed_values_at, call_at, assignment_at};
ghost use Rattle.gb_script.specs.Readers.{function_at, condition_at, patterns_at, flags_at, roots_at};
ghost use Rattle.gb_script.specs.Readers.{input_files_at, order_of_at, run_of_at};
ghost use Rattle.gb_script.specs.Readers.{clause_of_at, clause_at, block_at};

use crate::function::Function;
use crate::keywords::{ClauseWord, OrderWord, RunWord, clause_word};
use crate::part_readers::{
    begins, closed, function, name, open, patterns, property, said, skip, skip_word, stray, texts,
};
use crate::script::{Assignment, Block, Call, Clause, Condition, InputFiles};
use crate::script_expression::{Expression, Expressions};
use crate::token::{Sign, Token};
use crate::token_fault::Stop;
use crate::value_reader::{expression, expressions};
use gb_core::text::Texts;
use std::alloc::Global;

/// Values in brackets.
#[tactic(auto, unfolding(crate::specs::Readers::bracketed_values_at))]
fn bracketed_values(
    alloc: Global,
    tokens: &[Token],
    room: u32,
) -> Result<(Expressions, &[Token]), Stop>
    ensures exact { Gives (λ x. (x.0, x.1.now)) result (bracketed_values_at room tokens.now) }
    ensures shorter { IfOk result (λ x. length x.1.now < length tokens.now) }
{
    let (inner, rest) = open(tokens, Sign::OpenParen, room)?;
    let (values, rest) = expressions(alloc, rest, inner)?;
    closed(Expressions::new(values), rest, Sign::CloseParen)
}

/// Values in brackets, or none if there is no bracket.
#[tactic(auto, unfolding(crate::specs::Reading::maybe_at))]
fn values(alloc: Global, tokens: &[Token], room: u32) -> Result<(Expressions, &[Token]), Stop>
    ensures exact { Gives (λ x. (x.0, x.1.now))
        result (maybe_at (is_sign Sign.OpenParen) (bracketed_values_at room) [] tokens.now) }
    ensures shorter { IfOk result (λ x. length x.1.now ≤ length tokens.now) }
{
    if begins(tokens, Sign::OpenParen) {
        bracketed_values(alloc, tokens, room)
    } else {
        Ok((Expressions::new(Vec::new(alloc)), tokens))
    }
}

/// A name, and the values in brackets after it, if there is a bracket.
#[tactic(auto, unfolding(crate::specs::Readers::call_at))]
pub fn call(alloc: Global, tokens: &[Token], room: u32) -> Result<(Call, &[Token]), Stop>
    ensures exact { Gives (λ x. (x.0, x.1.now)) result (call_at room tokens.now) }
    ensures shorter { IfOk result (λ x. length x.1.now < length tokens.now) }
{
    let (name, rest) = name(tokens)?;
    let (arguments, rest) = values(alloc, rest, room)?;
    Ok((Call { name, arguments }, rest))
}

/// A value after an equals sign.
#[tactic(auto, unfolding(crate::specs::Reading::past_at))]
fn assigned(alloc: Global, tokens: &[Token], room: u32) -> Result<(Expression, &[Token]), Stop>
    ensures exact { Gives (λ x. (x.0, x.1.now))
        result (past_at (is_sign Sign.Equals) (tree_at room) tokens.now) }
    ensures shorter { IfOk result (λ x. length x.1.now < length tokens.now) }
{
    expression(alloc, skip(tokens, Sign::Equals)?, room)
}

/// A name, and the value assigned to it.
#[tactic(auto, unfolding(crate::specs::Readers::assignment_at))]
fn assignment(alloc: Global, tokens: &[Token], room: u32) -> Result<(Assignment, &[Token]), Stop>
    ensures exact { Gives (λ x. (x.0, x.1.now)) result (assignment_at name_at room tokens.now) }
    ensures shorter { IfOk result (λ x. length x.1.now < length tokens.now) }
{
    let (name, rest) = name(tokens)?;
    let (value, rest) = assigned(alloc, rest, room)?;
    Ok((Assignment { name, value }, rest))
}

/// A property, and the value assigned to it.
#[tactic(auto, unfolding(crate::specs::Readers::assignment_at))]
pub fn property_assignment(
    alloc: Global,
    tokens: &[Token],
    room: u32,
) -> Result<(Assignment, &[Token]), Stop>
    ensures exact { Gives (λ x. (x.0, x.1.now)) result (assignment_at property_at room tokens.now) }
    ensures shorter { IfOk result (λ x. length x.1.now < length tokens.now) }
{
    let (name, rest) = property(tokens)?;
    let (value, rest) = assigned(alloc, rest, room)?;
    Ok((Assignment { name, value }, rest))
}

/// The function of a test, after its word.
#[tactic(auto, unfolding(crate::specs::Reading::past_at))]
fn test(alloc: Global, tokens: &[Token], room: u32) -> Result<(Function, &[Token]), Stop>
    ensures exact { Gives (λ x. (x.0, x.1.now)) result
        (past_at (is_word (codes "is")) (function_at room) tokens.now) }
    ensures shorter { IfOk result (λ x. length x.1.now < length tokens.now) }
{
    function(alloc, skip_word(tokens, "is")?, room)
}

#[tactic(auto, unfolding(crate::specs::Readers::condition_at))]
fn condition(alloc: Global, tokens: &[Token], room: u32) -> Result<(Condition, &[Token]), Stop>
    ensures exact { Gives (λ x. (x.0, x.1.now)) result (condition_at room tokens.now) }
    ensures shorter { IfOk result (λ x. length x.1.now < length tokens.now) }
{
    let (value, rest) = expression(alloc, tokens, room)?;
    match test(alloc, rest, room) {
        Ok((test, rest)) => Ok((Condition { value, test }, rest)),
        Err(stop) => {
            drop(value);
            Err(stop)
        }
    }
}

/// The flags of the files that a task reads, which precede their roots.
#[derive(Clone, Copy)]
struct Flags {
    incremental: bool,
    skip_when_empty: bool,
    name_only: bool,
}

#[tactic(auto, unfolding(crate::specs::Readers::flags_at))]
fn read_flags(tokens: &[Token]) -> (Flags, &[Token])
    ensures exact { flags_at tokens.now
        ≡ Ok ((result.0.incremental, (result.0.skip_when_empty, result.0.name_only)), result.1.now) }
    ensures shorter { length result.1.now ≤ length tokens.now }
{
    let (incremental, rest) = said(tokens, "incremental");
    let (skip_when_empty, rest) = said(rest, "skipWhenEmpty");
    let (name_only, rest) = said(rest, "nameOnly");
    (
        Flags {
            incremental,
            skip_when_empty,
            name_only,
        },
        rest,
    )
}

/// The patterns that include files, and those that exclude files.
#[derive(Drop)]
struct Patterns {
    include: Texts,
    exclude: Texts,
}

fn both_patterns(alloc: Global, tokens: &[Token]) -> Result<(Patterns, &[Token]), Stop>
    ensures exact { Gives (λ x. ((x.0.include, x.0.exclude), x.1.now)) result
        (pair_at (patterns_at (codes "include")) (patterns_at (codes "exclude")) tokens.now) }
    ensures shorter { IfOk result (λ x. length x.1.now ≤ length tokens.now) }
{
    let (include, rest) = patterns(alloc, tokens, "include")?;
    let (exclude, rest) = patterns(alloc, rest, "exclude")?;
    Ok((Patterns { include, exclude }, rest))
}

/// The roots of the files that a task reads, and the patterns of those files.
#[derive(Drop)]
struct Roots {
    from: Expressions,
    patterns: Patterns,
}

/// The word `from`, and the roots and patterns after it.
#[tactic(auto, unfolding(crate::specs::Reading::past_at, crate::specs::Readers::roots_at))]
fn read_roots(alloc: Global, tokens: &[Token], room: u32) -> Result<(Roots, &[Token]), Stop>
    ensures exact { Gives (λ x. ((x.0.from, (x.0.patterns.include, x.0.patterns.exclude)), x.1.now)) result
        (past_at (is_word (codes "from")) (roots_at room) tokens.now) }
    ensures shorter { IfOk result (λ x. length x.1.now < length tokens.now) }
{
    let rest = skip_word(tokens, "from")?;
    let (from, rest) = expressions(alloc, rest, room)?;
    let (patterns, rest) = both_patterns(alloc, rest)?;
    let from = Expressions::new(from);
    Ok((Roots { from, patterns }, rest))
}

#[tactic(auto, unfolding(crate::specs::Readers::input_files_at))]
fn input_files(alloc: Global, tokens: &[Token], room: u32) -> Result<(InputFiles, &[Token]), Stop>
    ensures exact { Gives (λ x. (x.0, x.1.now)) result (input_files_at room tokens.now) }
    ensures shorter { IfOk result (λ x. length x.1.now < length tokens.now) }
{
    let (name, rest) = name(tokens)?;
    let (flags, rest) = read_flags(rest);
    let (roots, rest) = read_roots(alloc, rest, room)?;
    let files = InputFiles {
        name,
        incremental: flags.incremental,
        skip_when_empty: flags.skip_when_empty,
        name_only: flags.name_only,
        from: roots.from,
        include: roots.patterns.include,
        exclude: roots.patterns.exclude,
    };
    Ok((files, rest))
}

/// The rest of a clause that orders a task before or after others, after its word.
#[tactic(auto, unfolding(crate::specs::Readers::order_of_at))]
fn order_of(alloc: Global, word: OrderWord, tokens: &[Token]) -> Result<(Clause, &[Token]), Stop>
    ensures exact { Gives (λ x. (x.0, x.1.now)) result (order_of_at word tokens.now) }
    ensures shorter { IfOk result (λ x. length x.1.now < length tokens.now) }
{
    match word {
        OrderWord::DependsOn => {
            let (tasks, rest) = texts(alloc, tokens)?;
            Ok((Clause::DependsOn(tasks), rest))
        }
        OrderWord::MustRunAfter => {
            let (tasks, rest) = texts(alloc, tokens)?;
            Ok((Clause::MustRunAfter(tasks), rest))
        }
        OrderWord::FinalizedBy => {
            let (tasks, rest) = texts(alloc, tokens)?;
            Ok((Clause::FinalizedBy(tasks), rest))
        }
    }
}

/// The rest of a clause that sets what a task does or when it runs, after its word.
#[tactic(auto, unfolding(crate::specs::Readers::run_of_at))]
fn run_of(
    alloc: Global,
    word: RunWord,
    tokens: &[Token],
    room: u32,
) -> Result<(Clause, &[Token]), Stop>
    ensures exact { Gives (λ x. (x.0, x.1.now)) result (run_of_at room word tokens.now) }
    ensures shorter { IfOk result (λ x. length x.1.now < length tokens.now) }
{
    match word {
        RunWord::DoFirst => {
            let (action, rest) = call(alloc, tokens, room)?;
            Ok((Clause::DoFirst(action), rest))
        }
        RunWord::DoLast => {
            let (action, rest) = call(alloc, tokens, room)?;
            Ok((Clause::DoLast(action), rest))
        }
        RunWord::OnlyIf => {
            let (condition, rest) = condition(alloc, tokens, room)?;
            Ok((Clause::OnlyIf(condition), rest))
        }
        RunWord::UpToDateWhen => {
            let (condition, rest) = condition(alloc, tokens, room)?;
            Ok((Clause::UpToDateWhen(condition), rest))
        }
        RunWord::Enabled => {
            let (value, rest) = expression(alloc, tokens, room)?;
            Ok((Clause::Enabled(value), rest))
        }
    }
}

/// The rest of a clause, after its word.
#[tactic(auto, unfolding(crate::specs::Readers::clause_of_at))]
fn clause_of(
    alloc: Global,
    word: ClauseWord,
    tokens: &[Token],
    room: u32,
) -> Result<(Clause, &[Token]), Stop>
    ensures exact { Gives (λ x. (x.0, x.1.now)) result (clause_of_at room word tokens.now) }
    ensures shorter { IfOk result (λ x. length x.1.now < length tokens.now) }
{
    match word {
        ClauseWord::Input => {
            let (input, rest) = assignment(alloc, tokens, room)?;
            Ok((Clause::Input(input), rest))
        }
        ClauseWord::InputFiles => {
            let (files, rest) = input_files(alloc, tokens, room)?;
            Ok((Clause::InputFiles(files), rest))
        }
        ClauseWord::OutputFile => {
            let (output, rest) = assignment(alloc, tokens, room)?;
            Ok((Clause::OutputFile(output), rest))
        }
        ClauseWord::OutputDir => {
            let (output, rest) = assignment(alloc, tokens, room)?;
            Ok((Clause::OutputDir(output), rest))
        }
        ClauseWord::Order(word) => order_of(alloc, word, tokens),
        ClauseWord::Run(word) => run_of(alloc, word, tokens, room),
    }
}

#[tactic(auto, unfolding(crate::specs::Reading::meaning_at))]
fn read_clause_word(tokens: &[Token]) -> Result<(ClauseWord, &[Token]), Stop>
    ensures exact { Gives (λ x. (x.0, x.1.now)) result (meaning_at clause_words tokens.now) }
    ensures shorter { IfOk result (λ x. length x.1.now < length tokens.now) }
{
    match tokens {
        [Token::Word(word), rest @ ..] => match clause_word(word.as_str()) {
            Some(found) => Ok((found, rest)),
            None => Err(stray(tokens)),
        },
        _ => Err(stray(tokens)),
    }
}

#[tactic(auto, unfolding(crate::specs::Readers::clause_at))]
pub fn clause(alloc: Global, tokens: &[Token], room: u32) -> Result<(Clause, &[Token]), Stop>
    ensures exact { Gives (λ x. (x.0, x.1.now)) result (clause_at room tokens.now) }
    ensures shorter { IfOk result (λ x. length x.1.now < length tokens.now) }
{
    let (word, rest) = read_clause_word(tokens)?;
    clause_of(alloc, word, rest, room)
}

pub fn is_in_block(tokens: &[Token]) -> bool
    ensures { result ≡ begins in_block tokens.now }
{
    !tokens.is_empty() && !begins(tokens, Sign::CloseBrace)
}

/// The clauses up to the end of a block.
fn clauses(alloc: Global, tokens: &[Token], room: u32) -> Result<(Vec<Clause>, &[Token]), Stop>
    ensures exact { Gives (λ x. (x.0.items, x.1.now))
        result (many_at in_block no_matter (λ s. clause_at room) (length tokens.now) tt tokens.now) }
    ensures shorter { IfOk result (λ x. length x.1.now ≤ length tokens.now) }
{
    let mut clauses = Vec::new(alloc);
    let mut rest = tokens;
    'clauses: while is_in_block(rest) {
        let (next, after) = clause(alloc, rest, room)?;
        clauses.push(next)?;
        rest = after;
    }
    Ok((clauses, rest))
}

/// Clauses in braces, to the brace that closes them.
#[tactic(auto, unfolding(crate::specs::Readers::block_at))]
pub fn block(alloc: Global, tokens: &[Token], room: u32) -> Result<(Block, &[Token]), Stop>
    ensures exact { Gives (λ x. (x.0, x.1.now)) result (block_at room tokens.now) }
    ensures shorter { IfOk result (λ x. length x.1.now < length tokens.now) }
{
    let rest = skip(tokens, Sign::OpenBrace)?;
    let (clauses, rest) = clauses(alloc, rest, room)?;
    closed(Block::new(clauses), rest, Sign::CloseBrace)
}
