//! Facts that follow from the definitions alone.
ghost use Rattle.std.specs.Prelude.{ℕ};
ghost use Rattle.gb_provider.specs.Laws.{AnswersStay, PlainOnesKeepAnswers, RoundsAreBounded};
ghost use Rattle.gb_provider.specs.declared.expression.Outcome.{Outcome};
ghost use Rattle.gb_provider.specs.declared.produced.Produced.{Produced};

use crate::transforms::Transforms;

/// An answer that an expression has after some rounds is its answer after all later rounds.
pub fn answers_stay()
    ensures values { AnswersStay Outcome }
    ensures producers { AnswersStay (Produced ℕ) }
{}

/// An expression without an answer after as many rounds as there are expressions never has one.
pub fn rounds_are_bounded()
    ensures values { RoundsAreBounded Outcome }
    ensures producers { RoundsAreBounded (Produced ℕ) }
{}

/// Appending an expression that is no output changes none of the other answers.
pub fn plain_ones_keep_answers<T: Transforms>()
    ensures { PlainOnesKeepAnswers T.meanings }
{}
