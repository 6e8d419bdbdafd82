//! The rules for the white space between two pieces.
ghost use Rattle.std.specs.Prelude.{◌≡◌, ◌++◌, OnOk, string_bytes};
ghost use Rattle.gb_format.specs.Layout.{gap_of, indent};

use std::alloc::AllocError;

/// How two pieces are separated in the text that is read.
#[derive(Clone, Copy)]
pub enum Spacing {
    /// On one line.
    Beside,
    /// On two consecutive lines.
    Below,
    /// With an empty line between them.
    Away,
}

/// The white space that the formatted text has between two pieces.
#[derive(Clone, Copy)]
pub enum Rule {
    /// Nothing between.
    Close,
    /// One space.
    Space,
    /// A new line, this deep.
    Line(usize),
    /// A new line, and an empty one before it if the text had an empty line there.
    Part(usize),
    /// On the line of the piece before it, if it was there, and else as `Part`.
    After(usize),
}

/// Indents a line.
fn push_indent(out: &mut String, depth: usize) -> Result<(), AllocError>
    ensures { OnOk result (string_bytes out.new ≡ string_bytes out.old ++ indent depth) }
{
    'levels: for _ in 0..depth {
        out.push_str("    ")?;
    }
    Ok(())
}

fn push_line(out: &mut String, depth: usize) -> Result<(), AllocError>
    ensures { OnOk result
        (string_bytes out.new ≡ string_bytes out.old ++ gap_of (Rule.Line depth) Spacing.Beside) }
{
    out.push('\n')?;
    push_indent(out, depth)
}

fn push_part(out: &mut String, depth: usize, spacing: Spacing) -> Result<(), AllocError>
    ensures { OnOk result (string_bytes out.new ≡ string_bytes out.old ++ gap_of (Rule.Part depth) spacing) }
{
    match spacing {
        Spacing::Away => out.push('\n')?,
        Spacing::Beside | Spacing::Below => {}
    }
    push_line(out, depth)
}

/// Writes the white space between two pieces by this rule, given how they were separated.
pub fn push_gap(out: &mut String, rule: Rule, spacing: Spacing) -> Result<(), AllocError>
    ensures { OnOk result (string_bytes out.new ≡ string_bytes out.old ++ gap_of rule spacing) }
{
    match rule {
        Rule::Close => Ok(()),
        Rule::Space => out.push(' '),
        Rule::Line(depth) => push_line(out, depth),
        Rule::Part(depth) => push_part(out, depth, spacing),
        Rule::After(depth) => match spacing {
            Spacing::Beside => out.push(' '),
            Spacing::Below | Spacing::Away => push_part(out, depth, spacing),
        },
    }
}
