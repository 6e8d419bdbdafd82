//! The output of a build, and its exit status.
ghost use Rattle.std.specs.Prelude.{◌≡◌, IfOk};
ghost use Rattle.gb_answer.specs.Answer.{answer_text, not_built_text, refusal_text, status_of};

use gb_report::fault::Fault;
use gb_report::render::{render, render_fault};
use gb_report::report::Report;
use std::alloc::{AllocError, Global};

/// The output of a build.
pub fn answer_text(alloc: Global, answer: &Result<Report, Fault>) -> Result<Vec<u8>, AllocError>
    ensures { IfOk result (λ text. text.items ≡ answer_text answer.now) }
{
    match answer {
        Ok(report) => render(alloc, report),
        Err(fault) => not_built_text(alloc, fault),
    }
}

/// The output of a refused build.
pub fn not_built_text(alloc: Global, fault: &Fault) -> Result<Vec<u8>, AllocError>
    ensures { IfOk result (λ text. text.items ≡ not_built_text fault.now) }
{
    let mut text = refusal_text(alloc, fault)?;
    text.extend_from_slice(b"BUILD FAILED\n")?;
    Ok(text)
}

/// The line that reports a refusal.
pub fn refusal_text(alloc: Global, fault: &Fault) -> Result<Vec<u8>, AllocError>
    ensures { IfOk result (λ text. text.items ≡ refusal_text fault.now) }
{
    let mut text = b"REFUSED ".to_vec(alloc)?;
    text.extend_from_slice(render_fault(alloc, fault)?.as_slice())?;
    text.push(b'\n')?;
    Ok(text)
}

/// The exit status of a build: 0 after success, 2 for arguments that request no known build, and
/// else 1.
pub fn status_of(answer: &Result<Report, Fault>) -> u8
    ensures { result ≡ status_of answer.now }
{
    match answer {
        Ok(report) if report.is_successful() => 0,
        Err(Fault::Usage) => 2,
        _ => 1,
    }
}
