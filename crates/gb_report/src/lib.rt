//! The report that a build returns, and the text that is printed for it.
//!
//! A build returns a report: the outcome of each task, in the order of execution. A refusal, or the
//! failure of a task, is a fault. The one contract is that of `render`: its bytes are exactly
//! `report_text`, so that nothing about the printed text is left open. So is `render_fault`.
//!
//! Out of scope: fault numbers as values of their own, since each fault says what it is about; and
//! lines that are printed while the build runs, since a text made at the end can be compared.
//!
//! The text of a fault begins with its number (`texts_begin_with_numbers`).
#![tactic(auto)]

pub mod fault;
pub mod laws;
pub mod render;
pub mod report;
