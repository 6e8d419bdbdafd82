//! Steps of tests, written as texts, and expected results.
use std::test::Fail;

/// A word before the first such sign, and the text after it.
pub fn cut(text: &str, sign: char) -> (&str, &str) {
    text.split_once(sign).unwrap_or((text, ""))
}

/// Fails if the result is not the expected one.
pub fn is_answered(wanted: &str, answer: &[u8]) -> Result<(), Fail> {
    if answer == wanted.as_bytes() {
        Ok(())
    } else {
        Err(Fail::new(std::str::from_utf8(answer)?))
    }
}
