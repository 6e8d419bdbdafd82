//! Readers for the parts that occur throughout the notation.
//!
//! A function for each part reads it from the front of the tokens. It returns the value and the
//! remaining tokens, or stops at the first fault. Each function agrees with the definition of its
//! part in `specs/Readers.antt`.
ghost use Rattle.std.specs.Prelude.{◌≡◌, ◌+◌, ◌<◌, ◌≤◌, List, length, IfOk, Ok, []};
ghost use Rattle.gb_script.specs.Lexing.{begins};
ghost use Rattle.gb_script.specs.declared.token.Token.{Token};
ghost use Rattle.gb_script.specs.Reading.{Gives, ◌>>=◌ as bound, is_sign, is_word, skip_at, open_at};
ghost use Rattle.gb_script.specs.Reading.{name_at, property_at, text_at, maybe_at, past_at, list_at, said_at};
ghost use Rattle.gb_script.specs.Readers.{bracketed_text_at, bracketed_texts_at, function_at, patterns_at};

use crate::function::Function;
use crate::keywords::source_word;
use crate::token::{Sign, Token};
use crate::token_fault::{Fault, Stop};
use gb_core::name::Name;
use gb_core::text::{Text, Texts};
use std::alloc::Global;

/// The fault that the first of these tokens is out of place, or that they end too early.
pub fn stray(tokens: &[Token]) -> Stop
    ensures { result ≡ Stop.Fault (Fault.Stray (length tokens.now)) }
{
    Stop::Fault(Fault::Stray(tokens.len()))
}

/// Whether the first token is this sign.
pub fn begins(tokens: &[Token], sign: Sign) -> bool
    ensures { result ≡ begins (is_sign sign) tokens.now }
{
    match tokens {
        [Token::Mark(found), ..] => *found == sign,
        _ => false,
    }
}

/// Whether the first token is this word.
pub fn begins_word(tokens: &[Token], word: &str) -> bool
    ensures { result ≡ begins (is_word word.now) tokens.now }
{
    match tokens {
        [Token::Word(found), ..] => found.as_str() == word,
        _ => false,
    }
}

/// The tokens after this sign, which has to be the first.
#[tactic(auto, unfolding(crate::specs::Reading::skip_at))]
pub fn skip(tokens: &[Token], sign: Sign) -> Result<&[Token], Stop>
    ensures exact { Gives (λ rest. rest.now) result (skip_at (is_sign sign) tokens.now) }
    ensures shorter { IfOk result (λ rest. length rest.now < length tokens.now) }
{
    if begins(tokens, sign) {
        Ok(&tokens[1..])
    } else {
        Err(stray(tokens))
    }
}

/// The tokens after this word, which has to be the first.
#[tactic(auto, unfolding(crate::specs::Reading::skip_at))]
pub fn skip_word<'t>(tokens: &'t [Token], word: &str) -> Result<&'t [Token], Stop>
    ensures exact { Gives (λ rest. rest.now) result (skip_at (is_word word.now) tokens.now) }
    ensures shorter { IfOk result (λ rest. length rest.now < length tokens.now) }
{
    if begins_word(tokens, word) {
        Ok(&tokens[1..])
    } else {
        Err(stray(tokens))
    }
}

/// Opens one more bracket, where `room` many may still open: how many may open within it.
#[tactic(auto, unfolding(crate::specs::Reading::open_at))]
pub fn open(tokens: &[Token], sign: Sign, room: u32) -> Result<(u32, &[Token]), Stop>
    ensures exact { Gives (λ x. (x.0, x.1.now)) result (open_at sign room tokens.now) }
    ensures shorter { IfOk result (λ x. length x.1.now < length tokens.now) }
    ensures room { IfOk result (λ x. x.0 + 1 ≡ room) }
{
    let rest = skip(tokens, sign)?;
    if room == 0 {
        return Err(Stop::Fault(Fault::Deep(tokens.len())));
    }
    Ok((room - 1, rest))
}

/// The value that was read, and the tokens after this sign, which has to come first after it.
pub fn closed<T: Drop>(read: T, tokens: &[Token], sign: Sign) -> Result<(T, &[Token]), Stop>
    ensures exact { Gives {Y = T × List Token} (λ x. (x.0, x.1.now)) result
        (bound (skip_at (is_sign sign) tokens.now) (λ rest. Ok (read, rest))) }
    ensures shorter { IfOk result (λ x. length x.1.now < length tokens.now) }
{
    match skip(tokens, sign) {
        Ok(rest) => Ok((read, rest)),
        Err(stop) => {
            drop(read);
            Err(stop)
        }
    }
}

/// The word at the front, which may be one that the notation gives a meaning to.
#[tactic(auto, unfolding(crate::specs::Reading::name_at))]
pub fn name(tokens: &[Token]) -> Result<(Name, &[Token]), Stop>
    ensures exact { Gives (λ x. (x.0, x.1.now)) result (name_at tokens.now) }
    ensures shorter { IfOk result (λ x. length x.1.now < length tokens.now) }
{
    match tokens {
        [Token::Word(word), rest @ ..] => {
            // Shows the contract that a word is a name.
            let _word = word.as_str();
            Ok((word.copy()?, rest))
        }
        _ => Err(stray(tokens)),
    }
}

/// A name that is not reserved.
#[tactic(auto, unfolding(crate::specs::Reading::property_at))]
pub fn property(tokens: &[Token]) -> Result<(Name, &[Token]), Stop>
    ensures exact { Gives (λ x. (x.0, x.1.now)) result (property_at tokens.now) }
    ensures shorter { IfOk result (λ x. length x.1.now < length tokens.now) }
{
    match tokens {
        [Token::Word(word), rest @ ..] => match source_word(word.as_str()) {
            None => Ok((word.copy()?, rest)),
            Some(_) => Err(stray(tokens)),
        },
        _ => Err(stray(tokens)),
    }
}

/// The text at the front, without its quotes.
#[tactic(auto, unfolding(crate::specs::Reading::text_at))]
pub fn text(tokens: &[Token]) -> Result<(Text, &[Token]), Stop>
    ensures exact { Gives (λ x. (x.0, x.1.now)) result (text_at tokens.now) }
    ensures shorter { IfOk result (λ x. length x.1.now < length tokens.now) }
{
    match tokens {
        [Token::Text(text), rest @ ..] => Ok((text.copy()?, rest)),
        _ => Err(stray(tokens)),
    }
}

/// A text in brackets.
#[tactic(auto, unfolding(crate::specs::Readers::bracketed_text_at))]
pub fn bracketed_text(tokens: &[Token], room: u32) -> Result<(Text, &[Token]), Stop>
    ensures exact { Gives (λ x. (x.0, x.1.now)) result (bracketed_text_at room tokens.now) }
    ensures shorter { IfOk result (λ x. length x.1.now < length tokens.now) }
{
    let (_, rest) = open(tokens, Sign::OpenParen, room)?;
    let (text, rest) = text(rest)?;
    closed(text, rest, Sign::CloseParen)
}

/// A text after a comma.
#[tactic(auto, unfolding(crate::specs::Reading::past_at))]
pub fn further_text(tokens: &[Token]) -> Result<(Text, &[Token]), Stop>
    ensures exact { Gives (λ x. (x.0, x.1.now)) result (past_at (is_sign Sign.Comma) text_at tokens.now) }
    ensures shorter { IfOk result (λ x. length x.1.now < length tokens.now) }
{
    text(skip(tokens, Sign::Comma)?)
}

/// One or more texts, separated by commas.
pub fn texts(alloc: Global, tokens: &[Token]) -> Result<(Texts, &[Token]), Stop>
    ensures exact { Gives (λ x. (x.0, x.1.now)) result (list_at text_at tokens.now) }
    ensures shorter { IfOk result (λ x. length x.1.now < length tokens.now) }
{
    let mut texts = Texts::new(alloc);
    let (first, mut rest) = text(tokens)?;
    texts.push(first)?;
    'others: while begins(rest, Sign::Comma) {
        let (next, after) = further_text(rest)?;
        texts.push(next)?;
        rest = after;
    }
    Ok((texts, rest))
}

/// Texts in brackets.
#[tactic(auto, unfolding(crate::specs::Readers::bracketed_texts_at))]
pub fn bracketed_texts(
    alloc: Global,
    tokens: &[Token],
    room: u32,
) -> Result<(Texts, &[Token]), Stop>
    ensures exact { Gives (λ x. (x.0, x.1.now)) result (bracketed_texts_at room tokens.now) }
    ensures shorter { IfOk result (λ x. length x.1.now < length tokens.now) }
{
    let (_, rest) = open(tokens, Sign::OpenParen, room)?;
    let (texts, rest) = texts(alloc, rest)?;
    closed(texts, rest, Sign::CloseParen)
}

/// Texts in brackets, or none if there is no bracket.
#[tactic(auto, unfolding(crate::specs::Reading::maybe_at))]
pub fn arguments(alloc: Global, tokens: &[Token], room: u32) -> Result<(Texts, &[Token]), Stop>
    ensures exact { Gives (λ x. (x.0, x.1.now))
        result (maybe_at (is_sign Sign.OpenParen) (bracketed_texts_at room) [] tokens.now) }
    ensures shorter { IfOk result (λ x. length x.1.now ≤ length tokens.now) }
{
    if begins(tokens, Sign::OpenParen) {
        bracketed_texts(alloc, tokens, room)
    } else {
        Ok((Texts::new(alloc), tokens))
    }
}

/// A name, and the texts in brackets after it, if there is a bracket.
#[tactic(auto, unfolding(crate::specs::Readers::function_at))]
pub fn function(alloc: Global, tokens: &[Token], room: u32) -> Result<(Function, &[Token]), Stop>
    ensures exact { Gives (λ x. (x.0, x.1.now)) result (function_at room tokens.now) }
    ensures shorter { IfOk result (λ x. length x.1.now < length tokens.now) }
{
    let (name, rest) = name(tokens)?;
    let (arguments, rest) = arguments(alloc, rest, room)?;
    Ok((Function { name, arguments }, rest))
}

/// Whether the word is present.
#[tactic(auto, unfolding(crate::specs::Reading::said_at))]
pub fn said<'t>(tokens: &'t [Token], word: &str) -> (bool, &'t [Token])
    ensures exact { said_at word.now tokens.now ≡ Ok (result.0, result.1.now) }
    ensures shorter { length result.1.now ≤ length tokens.now }
{
    if begins_word(tokens, word) {
        (true, &tokens[1..])
    } else {
        (false, tokens)
    }
}

/// The texts after this word, which has to be the first.
#[tactic(auto, unfolding(crate::specs::Reading::past_at))]
pub fn texts_after<'t>(
    alloc: Global,
    tokens: &'t [Token],
    word: &str,
) -> Result<(Texts, &'t [Token]), Stop>
    ensures exact { Gives (λ x. (x.0, x.1.now))
        result (past_at (is_word word.now) (list_at text_at) tokens.now) }
    ensures shorter { IfOk result (λ x. length x.1.now < length tokens.now) }
{
    texts(alloc, skip_word(tokens, word)?)
}

/// Texts after the word, or none if the word is absent.
#[tactic(auto, unfolding(crate::specs::Reading::maybe_at, crate::specs::Readers::patterns_at))]
pub fn patterns<'t>(
    alloc: Global,
    tokens: &'t [Token],
    word: &str,
) -> Result<(Texts, &'t [Token]), Stop>
    ensures exact { Gives (λ x. (x.0, x.1.now)) result (patterns_at word.now tokens.now) }
    ensures shorter { IfOk result (λ x. length x.1.now ≤ length tokens.now) }
{
    if begins_word(tokens, word) {
        texts_after(alloc, tokens, word)
    } else {
        Ok((Texts::new(alloc), tokens))
    }
}
