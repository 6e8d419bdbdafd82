//! Cuts a text into tokens.
//!
//! The lexer cuts off one piece at a time from the left, up to the first position where no piece
//! begins. There it emits a token that no script has, so the rest of the text does not matter.
ghost use Rattle.std.specs.Prelude.{◌≡◌, ℕ, ◌<◌, ◌≤◌, not, ◌==◌, nat_lt, true, slice_index, length, drop};
ghost use Rattle.std.specs.Prelude.{map, take_while, Some, option_map, IfOk, IfSome, string_bytes};
ghost use Rattle.std.specs.List.{prefix_len};
ghost use Rattle.gb_core.specs.Name.{is_name_byte};
ghost use Rattle.gb_script.specs.Lexing.{begins, is_newline, newlines};
ghost use Rattle.gb_script.specs.Scanning.{is_plain, sign_of, unescaped, past_run, escape_at, content_at};
ghost use Rattle.gb_script.specs.Scanning.{text_of, word_at, comment_at, mark_of, part_at, scan};

use crate::token::{Sign, Token};
use gb_core::name::{Name, NameFault, is_name_byte};
use gb_core::text::Text;
use std::alloc::{AllocError, Global};

/// The piece at one position of a text.
#[derive(Drop)]
pub enum Part {
    /// The end of a line.
    Newline,
    /// Another blank, or a comment.
    Gap,
    /// A token.
    Found(Token),
}

fn is_plain(byte: u8) -> bool
    ensures { result ≡ is_plain byte }
{
    byte >= 32 && byte != b'"' && byte != b'\\'
}

fn sign_of(byte: u8) -> Option<Sign>
    ensures { result ≡ sign_of byte }
{
    match byte {
        b'{' => Some(Sign::OpenBrace),
        b'}' => Some(Sign::CloseBrace),
        b'(' => Some(Sign::OpenParen),
        b')' => Some(Sign::CloseParen),
        b'[' => Some(Sign::OpenBracket),
        b']' => Some(Sign::CloseBracket),
        b',' => Some(Sign::Comma),
        b'.' => Some(Sign::Dot),
        b':' => Some(Sign::Colon),
        b'=' => Some(Sign::Equals),
        _ => None,
    }
}

/// The character that a byte after a backslash denotes.
fn unescaped(byte: u8) -> Option<char>
    ensures { result ≡ unescaped byte }
{
    match byte {
        b'"' => Some('"'),
        b'\\' => Some('\\'),
        b'n' => Some('\n'),
        b't' => Some('\t'),
        _ => None,
    }
}

fn begins(text: &str, byte: u8) -> bool
    ensures { result ≡ begins (λ b. b == byte) text.now }
{
    match text.as_bytes() {
        [first, ..] => *first == byte,
        [] => false,
    }
}

/// The text after its first byte.
#[tactic(auto, using(crate::proofs::Runs::past_first_boundary))]
fn past_first(text: &str) -> &str
    requires { begins (λ b. nat_lt b 128) text.now ≡ true }
    ensures rest { result.now ≡ drop 1 text.now }
    ensures shorter { length result.now < length text.now }
{
    &text[1..]
}

/// How many bytes at the front are literal in a text.
fn plain_len(bytes: &[u8]) -> usize
    ensures { result ≡ prefix_len is_plain bytes.now }
{
    bytes.iter().take_while(|byte| is_plain(**byte)).count()
}

/// The literal bytes at the front of a text, and the text after them.
fn plain_run(text: &str) -> (&str, &str)
    ensures run { result.0.now ≡ take_while is_plain text.now }
    ensures rest { result.1.now ≡ past_run is_plain text.now }
    ensures shorter { length result.1.now ≤ length text.now }
{
    text.split_at(plain_len(text.as_bytes()))
}

fn word_len(bytes: &[u8]) -> usize
    ensures { result ≡ prefix_len is_name_byte bytes.now }
{
    bytes.iter().take_while(|byte| is_name_byte(**byte)).count()
}

/// The longest run of a word's bytes at the front, and the text after it.
fn word_run(text: &str) -> (&str, &str)
    requires { begins is_name_byte text.now ≡ true }
    ensures run { result.0.now ≡ take_while is_name_byte text.now }
    ensures rest { result.1.now ≡ past_run is_name_byte text.now }
    ensures shorter { length result.1.now < length text.now }
{
    text.split_at(word_len(text.as_bytes()))
}

fn line_len(bytes: &[u8]) -> usize
    ensures { result ≡ prefix_len (λ b. not (is_newline b)) bytes.now }
{
    bytes.iter().take_while(|byte| **byte != b'\n').count()
}

/// The text from its first newline on.
fn past_line(text: &str) -> &str
    ensures rest { result.now ≡ past_run (λ b. not (is_newline b)) text.now }
    ensures shorter { length result.now ≤ length text.now }
{
    text.split_at(line_len(text.as_bytes())).1
}

/// The character of an escape, and the text after it; nothing if no escape begins the text.
#[tactic(auto, unfolding(crate::specs::Scanning::escape_at))]
fn escape(text: &str) -> Option<(char, &str)>
    ensures exact { option_map (λ x. (x.0, x.1.now)) result ≡ escape_at text.now }
    ensures shorter { IfSome result (λ x. length x.1.now < length text.now) }
{
    match text.as_bytes() {
        [b'\\', found, ..] => Some((unescaped(*found)?, past_first(past_first(text)))),
        _ => None,
    }
}

/// The content of a text and the input after its closing mark, from the input after its opening
/// mark; nothing if the text is not closed or has a byte that no text can have. Where it has no
/// escape, a short text takes no memory.
fn content(alloc: Global, text: &str) -> Result<Option<(Text, &str)>, AllocError>
    ensures exact { IfOk result (λ found. option_map (λ x. (x.0, x.1.now)) found ≡ content_at text.now) }
    ensures shorter { IfOk result (λ found. IfSome found (λ x. length x.1.now < length text.now)) }
{
    let (run, after) = plain_run(text);
    if begins(after, b'"') {
        return Ok(Some((Text::from_str(alloc, run)?, past_first(after))));
    }
    content_by_runs(alloc, text)
}

/// The same, run by run between escapes.
fn content_by_runs(alloc: Global, text: &str) -> Result<Option<(Text, &str)>, AllocError>
    ensures exact { IfOk result (λ found. option_map (λ x. (x.0, x.1.now)) found ≡ content_at text.now) }
    ensures shorter { IfOk result (λ found. IfSome found (λ x. length x.1.now < length text.now)) }
{
    let mut content = String::new(alloc);
    let mut rest = text;
    'runs: loop {
        let (run, after) = plain_run(rest);
        content.push_str(run)?;
        if begins(after, b'"') {
            return Ok(Some((Text::new(content)?, past_first(after))));
        }
        let Some((found, following)) = escape(after) else {
            return Ok(None);
        };
        content.push(found)?;
        rest = following;
    }
}

/// A text, from the input after its opening mark.
fn quoted(alloc: Global, text: &str) -> Result<(Part, &str), AllocError>
    ensures exact { IfOk result (λ x. (x.0, x.1.now) ≡ text_of (content_at text.now)) }
    ensures shorter { IfOk result (λ x. length x.1.now ≤ length text.now) }
{
    match content(alloc, text)? {
        Some((content, rest)) => Ok((Part::Found(Token::Text(content)), rest)),
        None => Ok((Part::Found(Token::Wrong), "")),
    }
}

#[tactic(auto, unfolding(crate::specs::Scanning::word_at))]
fn word(alloc: Global, text: &str) -> Result<(Part, &str), AllocError>
    requires { begins is_name_byte text.now ≡ true }
    ensures exact { IfOk result (λ x. (x.0, x.1.now) ≡ word_at text.now) }
    ensures shorter { IfOk result (λ x. length x.1.now < length text.now) }
{
    let (run, rest) = word_run(text);
    match Name::read(alloc, run) {
        Ok(name) => Ok((Part::Found(Token::Word(name)), rest)),
        Err(NameFault::BadName) => Ok((Part::Found(Token::Wrong), "")),
        Err(NameFault::OutOfMemory) => Err(AllocError),
    }
}

/// A comment, from the input after its first slash.
#[tactic(auto, unfolding(crate::specs::Scanning::comment_at))]
fn comment(text: &str) -> (Part, &str)
    ensures exact { (result.0, result.1.now) ≡ comment_at text.now }
    ensures shorter { length result.1.now ≤ length text.now }
{
    if begins(text, b'/') {
        (Part::Gap, past_line(text))
    } else {
        (Part::Found(Token::Wrong), "")
    }
}

/// A mark, at the front of a text that is not empty.
#[tactic(auto, using(crate::proofs::Runs::sign_low))]
fn mark(text: &str) -> (Part, &str)
    requires { 0 < length text.now }
    ensures exact { (result.0, result.1.now) ≡ mark_of (drop 1 text.now) (sign_of (slice_index text.now 0)) }
    ensures shorter { length result.1.now < length text.now }
{
    match sign_of(text.as_bytes()[0]) {
        Some(sign) => (Part::Found(Token::Mark(sign)), past_first(text)),
        None => (Part::Found(Token::Wrong), ""),
    }
}

/// The piece at the front of a text that is not empty, and the text after it.
#[tactic(auto, unfolding(crate::specs::Scanning::part_at))]
pub fn first_part(alloc: Global, text: &str) -> Result<(Part, &str), AllocError>
    requires { 0 < length text.now }
    ensures exact { IfOk result (λ x. (x.0, x.1.now) ≡ part_at text.now) }
    ensures shorter { IfOk result (λ x. length x.1.now < length text.now) }
{
    let first = text.as_bytes()[0];
    match first {
        b'\n' => Ok((Part::Newline, past_first(text))),
        b' ' | b'\t' | b'\r' => Ok((Part::Gap, past_first(text))),
        b'/' => Ok(comment(past_first(text))),
        b'"' => quoted(alloc, past_first(text)),
        _ if is_name_byte(first) => word(alloc, text),
        _ => Ok(mark(text)),
    }
}

/// The tokens of a text, and the line of each.
#[derive(Drop)]
pub struct Lexed {
    /// The tokens in their order; after one that no script has, there are no more.
    pub tokens: Vec<Token>,
    /// For each token the line on which it begins, counted from 1.
    pub lines: Vec<u64>,
}

fn newlines(bytes: &[u8]) -> usize
    ensures { result ≡ newlines bytes.now }
{
    bytes.iter().filter(|byte| **byte == b'\n').count()
}

impl Lexed {
    ghost use Rattle.std.specs.Prelude.{◌+◌, ◌-◌, slice_index_or};

    /// The line of the first of the last `left` tokens, or the last line of the text if there is
    /// none.
    pub fn line_of(&self, text: &str, left: usize) -> u64
        requires { length text.now ≤ 1048576 }
        ensures { result
            ≡ slice_index_or self.now.lines.items (length self.now.lines.items - left)
            (1 + newlines text.now) }
    {
        match self.lines.get(self.lines.len().saturating_sub(left)) {
            Some(line) => *line,
            None => 1 + newlines(text.as_bytes()) as u64,
        }
    }
}

/// The tokens of a text up to the first position where no piece begins.
pub fn lex(alloc: Global, text: &str) -> Result<Lexed, AllocError>
    requires { length text.now ≤ 1048576 }
    ensures tokens { IfOk result (λ lexed. lexed.tokens.items ≡ map (λ p. p.0) (scan 1 text.now)) }
    ensures lines { IfOk result (λ lexed. lexed.lines.items ≡ map (λ p. p.1) (scan 1 text.now)) }
{
    let mut tokens = Vec::new(alloc);
    let mut lines = Vec::new(alloc);
    let mut line = 1;
    let mut rest = text;
    'parts: while !rest.is_empty() {
        let (part, after) = first_part(alloc, rest)?;
        match part {
            Part::Newline => line += 1,
            Part::Gap => {}
            Part::Found(token) => {
                tokens.push(token)?;
                lines.push(line)?;
            }
        }
        rest = after;
    }
    Ok(Lexed { tokens, lines })
}
