//! The evaluation state of expressions, and the result of one evaluation step.
ghost use Rattle.std.specs.Prelude.{◌≡◌};

/// The evaluation state of an expression.
#[derive(Drop)]
pub enum State<A> {
    /// It was not evaluated yet.
    New,
    /// It is being evaluated.
    Open,
    /// It was evaluated, and this is its answer.
    Known(A),
}

/// The result of one evaluation step: an answer, or the operand to be read first.
#[derive(Drop)]
pub enum Reading<K, A> {
    /// Its answer.
    Settles(A),
    /// The key of an operand whose answer is not known yet.
    Waits(K),
}

/// One evaluation step of an expression.
#[derive(Drop)]
pub struct Look<A> {
    /// The answer, or the operand that it waits for.
    pub reading: Reading<usize, A>,
    /// How many operands need not be read again, if it waits for one after them.
    pub past: usize,
}

impl<A: Drop> Look<A> {
    /// A step that begins with the first operand whenever it is repeated.
    pub fn whole(reading: Reading<usize, A>) -> Look<A>
        ensures reading { result.reading ≡ reading }
        ensures past { result.past ≡ 0 }
    {
        Look { reading, past: 0 }
    }
}
