//! Writes comments and tokens back as text.
ghost use Rattle.std.specs.Prelude.{◌≡◌, ◌++◌, IfOk, OnOk, string_bytes};
ghost use Rattle.gb_format.specs.Layout.{gap_of};
ghost use Rattle.gb_format.specs.Kinds.{kind_of};
ghost use Rattle.gb_format.specs.Shown.{shown, mended, typeset_from, typeset};

use crate::fits::Item;
use crate::kind::{Kind, kind_of};
use crate::rule::{Rule, Spacing, push_gap};
use crate::state::{State, first_state, step};
use std::alloc::{AllocError, Global};

/// The rule between two: after a comment a new line, and between two words a space.
fn mended(before: Kind, rule: Rule, kind: Kind) -> Rule
    ensures { result ≡ mended before rule kind }
{
    match (before, rule, kind) {
        (Kind::Comment, Rule::Close, _) => Rule::Part(0),
        (Kind::Comment, Rule::Space, _) => Rule::Part(0),
        (Kind::Comment, Rule::Line(depth), _) => Rule::Line(depth),
        (Kind::Comment, Rule::Part(depth), _) => Rule::Part(depth),
        (Kind::Comment, Rule::After(depth), _) => Rule::Part(depth),
        (Kind::Word, Rule::Close, Kind::Word) => Rule::Space,
        _ => rule,
    }
}

/// Writes the next one after the white space of its rule.
fn push_item(out: &mut String, before: Kind, rule: Rule, item: &Item) -> Result<(), AllocError>
    ensures { OnOk result (string_bytes out.new ≡ string_bytes out.old
        ++ (gap_of (mended before rule (kind_of item.now.text.now)) item.now.spacing ++ item.now.text.now)) }
{
    push_gap(out, mended(before, rule, kind_of(item.text)), item.spacing)?;
    out.push_str(item.text)
}

/// Writes these, each after the white space of its rule.
fn push_items(
    out: &mut String,
    state: State,
    before: Kind,
    items: &[Item],
) -> Result<(), AllocError>
    ensures { OnOk result (string_bytes out.new
        ≡ string_bytes out.old ++ typeset_from state before (shown items.now)) }
{
    let mut state = state;
    let mut before = before;
    'items: for (at, item) in items.iter().enumerate() {
        let next = step(state, before, item.spacing, item.text, &items[at + 1..]);
        push_item(out, before, next.rule, item)?;
        state = next.state;
        before = kind_of(item.text);
    }
    Ok(())
}

/// All of a text.
pub fn write(alloc: Global, items: &[Item]) -> Result<String, AllocError>
    ensures { IfOk result (λ out. string_bytes out ≡ typeset (shown items.now)) }
{
    let mut out = String::new(alloc);
    match items {
        [] => Ok(out),
        [first, rest @ ..] => {
            let start = step(first_state(), Kind::Sign, Spacing::Beside, first.text, rest);
            out.push_str(first.text)?;
            push_items(&mut out, start.state, kind_of(first.text), rest)?;
            out.push('\n')?;
            Ok(out)
        }
    }
}
