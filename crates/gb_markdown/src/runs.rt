//! Bytes and runs of bytes.
ghost use Rattle.std.specs.Prelude.{◌≡◌, ◌≤◌, ◌==◌, length};
ghost use Rattle.std.specs.Char.{is_ascii_digit};
ghost use Rattle.std.specs.List.{prefix_len};
ghost use Rattle.gb_markdown.specs.Runs.{run, is_space, spaces, is_blank, end_of, trimmed};

/// How many bytes at the beginning are the sign.
pub(crate) fn run(sign: u8, line: &[u8]) -> usize
    ensures value { result ≡ run sign line.now }
    ensures within { result ≤ length line.now }
{
    line.iter().take_while(|byte| **byte == sign).count()
}

/// Whether a byte is white space.
pub(crate) fn is_space(byte: u8) -> bool
    ensures { result ≡ is_space byte }
{
    byte == b' ' || (b'\t' <= byte && byte <= b'\r')
}

/// How many bytes at the beginning are white space.
pub(crate) fn spaces(line: &[u8]) -> usize
    ensures value { result ≡ spaces line.now }
    ensures within { result ≤ length line.now }
{
    line.iter().take_while(|byte| is_space(**byte)).count()
}

/// How many digits are at the beginning.
pub(crate) fn digits(line: &[u8]) -> usize
    ensures value { result ≡ prefix_len is_ascii_digit line.now }
    ensures within { result ≤ length line.now }
{
    line.iter().take_while(|byte| byte.is_ascii_digit()).count()
}

/// Whether a text is nothing but white space.
pub(crate) fn is_blank(line: &[u8]) -> bool
    ensures { result ≡ is_blank line.now }
{
    spaces(line) == line.len()
}

/// The text without white space at its end.
pub(crate) fn trimmed(line: &[u8]) -> &[u8]
    ensures { result.now ≡ trimmed line.now }
{
    let mut end = 0;
    for (index, byte) in line.iter().enumerate() {
        if !is_space(*byte) {
            end = index + 1;
        }
    }
    &line[..end]
}
