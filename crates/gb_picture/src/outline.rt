//! A graph as an outline.
ghost use Rattle.std.specs.Prelude.{◌≡◌, ◌++◌, IfOk, OnOk, string_bytes};
ghost use Rattle.std.specs.List.{flat_map};
ghost use Rattle.gb_picture.specs.Graph.{name_at};
ghost use Rattle.gb_picture.specs.Outline.{outcome_text, outline_edge, outline_node, outline_text};

use crate::graph::{Node, Tint};
use crate::shown::push_shown;
use std::alloc::{AllocError, Global};

/// Each node on a line, and under it each node that it is connected to, on a line with the
/// relation.
pub fn outline_of(alloc: Global, nodes: &[Node]) -> Result<String, AllocError>
    ensures { IfOk result (λ text. string_bytes text ≡ outline_text nodes.now) }
{
    let mut out = String::new(alloc);
    for node in nodes {
        push_node(alloc, &mut out, nodes, node)?;
    }
    Ok(out)
}

fn push_node(alloc: Global, out: &mut String, nodes: &[Node], node: &Node) -> Result<(), AllocError>
    ensures { OnOk result (string_bytes out.new ≡ string_bytes out.old ++ outline_node nodes.now node.now) }
{
    push_shown(alloc, out, node.name.as_str())?;
    out.push_str(outcome_text(node.tint))?;
    out.push('\n')?;
    push_edges(alloc, out, nodes, "    needs ", node.needs.as_slice())?;
    push_edges(
        alloc,
        out,
        nodes,
        "    runs after ",
        node.runs_after.as_slice(),
    )?;
    push_edges(
        alloc,
        out,
        nodes,
        "    finalized by ",
        node.finalizers.as_slice(),
    )
}

/// What is shown of the outcome of a node, after its name.
fn outcome_text(tint: Tint) -> &'static str
    ensures { result.now ≡ outcome_text tint }
{
    match tint {
        Tint::Plain => "",
        Tint::Runs => " runs",
        Tint::Open => " may change",
        Tint::Done => " is up to date",
        Tint::Idle => " does nothing",
    }
}

/// The lines of the nodes that a node is connected to in one way.
fn push_edges(
    alloc: Global,
    out: &mut String,
    nodes: &[Node],
    word: &str,
    others: &[usize],
) -> Result<(), AllocError>
    ensures { OnOk result (string_bytes out.new
        ≡ string_bytes out.old ++ flat_map (outline_edge nodes.now word.now) others.now) }
{
    for other in others {
        out.push_str(word)?;
        push_shown(alloc, out, name_at(nodes, *other))?;
        out.push('\n')?;
    }
    Ok(())
}

/// The name of the node with a number; empty if there is none.
fn name_at(nodes: &[Node], number: usize) -> &str
    ensures { result.now ≡ name_at nodes.now number }
{
    match nodes.get(number) {
        Some(node) => node.name.as_str(),
        None => "",
    }
}
