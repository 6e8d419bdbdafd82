//! The formatted text of scripts and settings.
ghost use Rattle.std.specs.Prelude.{◌≡◌, ℕ, ◌<◌, ◌≤◌, ◌⊎◌, List, length, IfOk, IfErr, Err, IsUtf8};
ghost use Rattle.std.specs.Prelude.{string_bytes};
ghost use Rattle.gb_script.specs.Script.{HasMeaning, MeansAsSettings};
ghost use Rattle.gb_format.specs.Shown.{IsWhole};
ghost use Rattle.gb_format.specs.Formatted.{formatted, AreSameScript, AreSameSettings, IsFormatted};
ghost use Rattle.gb_format.specs.Formatted.{IsLayoutFault};

use crate::cutting::cut;
use crate::writing::write;
use gb_script::fault::ScriptFault;
use gb_script::{MAX_SCRIPT, read_script, read_settings};
use std::alloc::Global;

/// The text, if it is not longer than 1 MiB.
fn within_limit(text: String) -> Result<String, ScriptFault>
    ensures found { IfOk result (λ out. (out ≡ text) × (length (string_bytes out) ≤ 1048576)) }
    ensures fault { IfErr result (λ fault. (fault ≡ ScriptFault.TooLong)
        × (1048576 < length (string_bytes text))) }
{
    if text.len() > MAX_SCRIPT {
        drop(text);
        Err(ScriptFault::TooLong)
    } else {
        Ok(text)
    }
}

/// The formatted text of a text that consists of pieces up to its end.
fn formatted(alloc: Global, text: &str) -> Result<String, ScriptFault>
    requires { IsWhole text.now }
    ensures found { IfOk result (λ out. (string_bytes out ≡ formatted text.now)
        × (length (string_bytes out) ≤ 1048576)) }
    ensures fault { IfErr result (IsLayoutFault text.now) }
{
    let items = cut(alloc, text)?;
    let out = write(alloc, &items);
    drop(items);
    within_limit(out?)
}

/// The formatted text of bytes that are UTF-8 and consist of pieces up to their end.
fn formatted_bytes(alloc: Global, bytes: &[u8]) -> Result<String, ScriptFault>
    requires utf8 { IsUtf8 bytes.now }
    requires whole { IsWhole bytes.now }
    ensures found { IfOk result (λ out. (string_bytes out ≡ formatted bytes.now)
        × (length (string_bytes out) ≤ 1048576)) }
    ensures fault { IfErr result (IsLayoutFault bytes.now) }
{
    match std::str::from_utf8(bytes) {
        Ok(text) => formatted(alloc, text),
        Err(_) => Err(ScriptFault::NotUtf8),
    }
}

/// Formats the script that the bytes encode. The faults are those of `read_script`, in the same
/// order, and then a formatted text of more than 1 MiB (21). It may also run out of memory (3).
pub fn format_script(alloc: Global, bytes: &[u8]) -> Result<String, ScriptFault>
    // Only the white space between comments and tokens changes.
    ensures found { IfOk result (λ out. IsFormatted bytes.now (string_bytes out)) }
    // The bytes are a script, and the formatted text is the same script.
    ensures same { IfOk result (λ out. AreSameScript bytes.now (string_bytes out)) }
    ensures fault { IfErr result (λ fault. HasMeaning bytes.now (Err fault) ⊎ IsLayoutFault bytes.now fault) }
{
    let script = read_script(alloc, bytes)?;
    drop(script);
    formatted_bytes(alloc, bytes)
}

/// Formats the settings that the bytes encode. The faults are those of `read_settings`, in the same
/// order, and then a formatted text of more than 1 MiB (21). It may also run out of memory (3).
pub fn format_settings(alloc: Global, bytes: &[u8]) -> Result<String, ScriptFault>
    // Only the white space between comments and tokens changes.
    ensures found { IfOk result (λ out. IsFormatted bytes.now (string_bytes out)) }
    // The bytes are settings, and the formatted text is the same settings.
    ensures same { IfOk result (λ out. AreSameSettings bytes.now (string_bytes out)) }
    ensures fault { IfErr result (λ fault. MeansAsSettings bytes.now (Err fault)
        ⊎ IsLayoutFault bytes.now fault) }
{
    let settings = read_settings(alloc, bytes)?;
    drop(settings);
    formatted_bytes(alloc, bytes)
}
