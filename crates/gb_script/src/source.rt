//! Reads scripts and settings from bytes.
//!
//! Input: the bytes of a file. Output: its statements, or the first fault with its line. The steps:
//!
//! 1. [`text_of`] refuses more than 1 MiB (21), and then bytes that are not UTF-8 (23).
//! 2. `lex` cuts the text into tokens from the left, each with its line. Where no token begins, it
//!    appends one that no script has and stops, so that step 3 finds the fault in its order.
//! 3. `whole_script` reads statements by recursive descent, without going back. A reader takes the
//!    tokens from its part on, and returns the value and the tokens after it. The next token
//!    decides what is read. It stops at the first token that cannot follow (20), and at the 65th
//!    open bracket or the 65th step of a value (22): `room` is how many brackets may still open.
//! 4. [`fault_of`] turns the number of tokens left at a stop into a line.
//!
//! What makes it right: each reader is equal to its definition in `specs/Readers.antt` (its clause
//! `exact`), which inverts the grammar. A reader that a loop calls leaves fewer tokens than it got,
//! so the loop ends. The time is proportional to the bytes, and the recursion at most 64 brackets
//! deep.
ghost use Rattle.std.specs.Prelude.{◌≡◌, ℕ, ◌<◌, ◌≤◌, ◌↔◌, ◌⊎◌, List, length, Result, Err, IfOk};
ghost use Rattle.std.specs.Prelude.{IfErr, IsErrOf, IsUtf8};
ghost use Rattle.gb_script.specs.Grammar.{script_tokens, settings_tokens};
ghost use Rattle.gb_script.specs.Fits.{IsScript, IsSettings};
ghost use Rattle.gb_script.specs.Notation.{IsSyntaxFault, IsDepthFault};
ghost use Rattle.gb_script.specs.Reporting.{IsTextFault, fault_reported};
ghost use Rattle.gb_script.specs.Script.{ParsesAs, HasMeaning, ParsesAsSettings, MeansAsSettings};
ghost use Rattle.gb_script.specs.declared.fault.ScriptFault.{ScriptFault};
ghost use Rattle.gb_script.specs.declared.script.Statement.{Statement};

use crate::fault::ScriptFault;
use crate::lexing::{Lexed, lex};
use crate::script::{Script, Settings};
use crate::statements::{whole_script, whole_settings};
use crate::token_fault::{Fault, Stop};
use std::alloc::Global;

/// The most bytes that a text may have: 1 MiB.
pub const MAX_SCRIPT: usize = 1_048_576;

/// The text that the bytes encode.
pub fn text_of(bytes: &[u8]) -> Result<&str, ScriptFault>
    ensures same { IfOk result (λ text. text.now ≡ bytes.now) }
    ensures short { IfOk result (λ text. length bytes.now ≤ 1048576) }
    ensures utf8 { IfOk result (λ text. IsUtf8 bytes.now) }
    ensures fault { IfErr result (IsTextFault bytes.now) }
{
    if bytes.len() > MAX_SCRIPT {
        return Err(ScriptFault::TooLong);
    }
    std::str::from_utf8(bytes).map_err(|_| ScriptFault::NotUtf8)
}

/// The fault of a text whose tokens could be read only up to this stop.
pub fn fault_of(text: &str, lexed: &Lexed, stop: Stop) -> ScriptFault
    requires { length text.now ≤ 1048576 }
    ensures { result ≡ fault_reported text.now lexed.now.lines.items stop }
{
    match stop {
        Stop::Memory => ScriptFault::OutOfMemory,
        Stop::Fault(Fault::Stray(left)) => ScriptFault::Syntax(lexed.line_of(text, left)),
        Stop::Fault(Fault::Deep(left)) => ScriptFault::TooDeep(lexed.line_of(text, left)),
    }
}

/// Reads the script that the bytes encode.
///
/// Faults are checked in this order: more than 1 MiB (21), invalid UTF-8 (23), and then the first
/// of these in the text, each with its line: a token that no script has there (20), or a bracket
/// inside 64 others or a step after 64 others (22). It may also run out of memory (3).
pub fn read_script(alloc: Global, bytes: &[u8]) -> Result<Script, ScriptFault>
    // The bytes parse as the script that is returned.
    ensures found { IfOk result (λ script. ParsesAs bytes.now script) }
    // The result is the script or the fault that the bytes have, unless memory runs out.
    ensures back { (said : Result (List Statement) ScriptFault) → HasMeaning bytes.now said
        → (result ≡ said) ⊎ (result ≡ Err ScriptFault.OutOfMemory) }

    ensures too_long { IsErrOf result ScriptFault.TooLong ↔ (1048576 < length bytes.now) }
    ensures not_utf8 { IsErrOf result ScriptFault.NotUtf8
        ↔ ((length bytes.now ≤ 1048576) × ¬ (IsUtf8 bytes.now)) }
    ensures syntax { (line : ℕ) → result ≡ Err (ScriptFault.Syntax line)
        → IsSyntaxFault IsScript script_tokens bytes.now line }
    ensures too_deep { (line : ℕ) → result ≡ Err (ScriptFault.TooDeep line)
        → IsDepthFault IsScript script_tokens bytes.now line }
{
    let text = text_of(bytes)?;
    let lexed = lex(alloc, text)?;
    match whole_script(alloc, &lexed.tokens) {
        Ok(script) => Ok(script),
        Err(stop) => Err(fault_of(text, &lexed, stop)),
    }
}

/// Reads the settings that the bytes encode. The faults are those of `read_script`, in the same
/// order.
pub fn read_settings(alloc: Global, bytes: &[u8]) -> Result<Settings, ScriptFault>
    // The bytes parse as the settings that are returned.
    ensures found { IfOk result (λ settings. ParsesAsSettings bytes.now settings) }
    // The result is the settings or the fault that the bytes have, unless memory runs out.
    ensures back { (said : Result (List (List (List ℕ))) ScriptFault) → MeansAsSettings bytes.now said
        → (result ≡ said) ⊎ (result ≡ Err ScriptFault.OutOfMemory) }

    ensures too_long { IsErrOf result ScriptFault.TooLong ↔ (1048576 < length bytes.now) }
    ensures not_utf8 { IsErrOf result ScriptFault.NotUtf8
        ↔ ((length bytes.now ≤ 1048576) × ¬ (IsUtf8 bytes.now)) }
    ensures syntax { (line : ℕ) → result ≡ Err (ScriptFault.Syntax line)
        → IsSyntaxFault IsSettings settings_tokens bytes.now line }
    ensures too_deep { (line : ℕ) → result ≡ Err (ScriptFault.TooDeep line)
        → IsDepthFault IsSettings settings_tokens bytes.now line }
{
    let text = text_of(bytes)?;
    let lexed = lex(alloc, text)?;
    match whole_settings(alloc, &lexed.tokens) {
        Ok(settings) => Ok(settings),
        Err(stop) => Err(fault_of(text, &lexed, stop)),
    }
}
