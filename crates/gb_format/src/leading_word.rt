//! Which word begins a statement or a clause. A name may be any word, so the text before decides.
ghost use Rattle.std.specs.Prelude.{◌≡◌};
ghost use Rattle.gb_format.specs.Places.{goes_on, begins, clause_of, after_more, after_word, after, deeper};
ghost use Rattle.gb_format.specs.Places.{shallower};
ghost use Rattle.gb_format.specs.Places.{depth, at_start};

use crate::kind::{Kind, kind_of};

/// What comes next in a statement or a clause.
#[derive(Clone, Copy)]
pub enum Awaits {
    /// A statement, a clause or the brace after them.
    Start,
    /// A name, a value, a text or a call.
    Value,
    /// More of it, or the next statement or clause.
    More,
}

/// Which words may follow a value.
#[derive(Clone, Copy)]
pub enum Clause {
    /// `is`, after a condition.
    Condition,
    /// The words between the name of files and their roots.
    Files,
    /// The words of patterns.
    Roots,
    /// None.
    Other,
}

/// A place between two tokens.
#[derive(Clone, Copy)]
pub struct Place {
    /// What comes next.
    pub awaits: Awaits,
    /// Which clause it is in.
    pub clause: Clause,
    /// How many round and square brackets are open.
    pub brackets: usize,
    /// It is between braces.
    pub in_block: bool,
}

/// The start of a text.
pub fn at_start() -> Place
    ensures { result ≡ at_start }
{
    Place {
        awaits: Awaits::Start,
        clause: Clause::Other,
        brackets: 0,
        in_block: false,
    }
}

/// One bracket more, up to 64.
pub fn deeper(count: usize) -> usize
    ensures { result ≡ deeper count }
{
    if count < 64 { count + 1 } else { 64 }
}

/// One bracket less, down to 0.
pub fn shallower(count: usize) -> usize
    ensures { result ≡ shallower count }
{
    count.saturating_sub(1)
}

/// The indent of a statement or clause that begins here.
pub fn depth(place: Place) -> usize
    ensures { result ≡ depth place }
{
    if place.in_block { 1 } else { 0 }
}

/// Whether the word continues the clause.
fn goes_on(clause: Clause, word: &str) -> bool
    ensures { result ≡ goes_on clause word.now }
{
    match clause {
        Clause::Condition => word == "is",
        Clause::Files => {
            word == "incremental" || word == "skipWhenEmpty" || word == "nameOnly" || word == "from"
        }
        Clause::Roots => word == "include" || word == "exclude",
        Clause::Other => false,
    }
}

/// Whether this word begins a statement or a clause.
pub fn begins(place: Place, text: &str) -> bool
    ensures { result ≡ begins place text.now }
{
    match kind_of(text) {
        Kind::Word => match place.awaits {
            Awaits::Start => true,
            Awaits::Value => false,
            Awaits::More => place.brackets == 0 && !goes_on(place.clause, text),
        },
        _ => false,
    }
}

/// The clause that this word begins.
fn clause_of(word: &str) -> Clause
    ensures { result ≡ clause_of word.now }
{
    if word == "inputFiles" {
        Clause::Files
    } else if word == "onlyIf" || word == "upToDateWhen" {
        Clause::Condition
    } else {
        Clause::Other
    }
}

/// The place after a word that continues a clause.
fn after_more(place: Place, word: &str) -> Place
    ensures { result ≡ after_more place word.now }
{
    match place.clause {
        Clause::Files => {
            if word == "from" {
                Place {
                    awaits: Awaits::Value,
                    clause: Clause::Roots,
                    ..place
                }
            } else {
                place
            }
        }
        _ => Place {
            awaits: Awaits::Value,
            ..place
        },
    }
}

/// The place after a word.
fn after_word(place: Place, word: &str) -> Place
    ensures { result ≡ after_word place word.now }
{
    if begins(place, word) {
        return Place {
            awaits: Awaits::Value,
            clause: clause_of(word),
            brackets: 0,
            in_block: place.in_block,
        };
    }
    match place.awaits {
        Awaits::More => after_more(place, word),
        _ => Place {
            awaits: Awaits::More,
            ..place
        },
    }
}

/// The place after a comment or a token.
pub fn after(place: Place, text: &str) -> Place
    ensures { result ≡ after place text.now }
{
    match kind_of(text) {
        Kind::Comment => place,
        Kind::Word => after_word(place, text),
        Kind::Text => Place {
            awaits: Awaits::More,
            ..place
        },
        Kind::OpenBrace => Place {
            in_block: true,
            ..at_start()
        },
        Kind::CloseBrace => at_start(),
        Kind::OpenParen | Kind::OpenBracket => Place {
            awaits: Awaits::Value,
            brackets: deeper(place.brackets),
            ..place
        },
        Kind::Close => Place {
            awaits: Awaits::More,
            brackets: shallower(place.brackets),
            ..place
        },
        Kind::Comma | Kind::Dot | Kind::Sign => Place {
            awaits: Awaits::Value,
            ..place
        },
    }
}
