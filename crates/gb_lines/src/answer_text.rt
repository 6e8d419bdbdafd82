//! The output for the answers.
ghost use Rattle.std.specs.Prelude.{◌≡◌, IfOk};
ghost use Rattle.gb_lines.specs.Texts.{answer_text};

use gb_answer::answer::{not_built_text, refusal_text};
use gb_report::render::render;
use gb_semantics::events::Answer;
use std::alloc::{AllocError, Global};

/// The output for an answer.
pub fn answer_text(alloc: Global, answer: &Answer) -> Result<Vec<u8>, AllocError>
    ensures { IfOk result (λ text. text.items ≡ answer_text answer.now) }
{
    match answer {
        Answer::Edited => Ok(Vec::new(alloc)),
        Answer::Refused(fault) => refusal_text(alloc, fault),
        Answer::Built(report) => render(alloc, report),
        Answer::NotBuilt(fault) => not_built_text(alloc, fault),
    }
}
