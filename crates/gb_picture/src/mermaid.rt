//! A graph for Mermaid.
ghost use Rattle.std.specs.Prelude.{◌≡◌, ◌++◌, IfOk, OnOk, codes, string_bytes};
ghost use Rattle.std.specs.List.{flat_map};
ghost use Rattle.gb_picture.specs.Mermaid.{mermaid_edge, mermaid_edges, mermaid_fill, mermaid_label};
ghost use Rattle.gb_picture.specs.Mermaid.{mermaid_node, mermaid_text};
ghost use Rattle.gb_picture.specs.Graph.{id, line, numbered};

use crate::escapes::push_mermaid;
use crate::graph::{Node, Tint, colour_of};
use std::alloc::{AllocError, Global};
use std::fmt::Write;

/// The graph of these nodes for Mermaid: each edge leads to the task that runs later. It is dotted to a task
/// that must run after the other, and thick to a finalizer.
pub fn mermaid_of(alloc: Global, nodes: &[Node]) -> Result<String, AllocError>
    ensures { IfOk result (λ text. string_bytes text ≡ mermaid_text nodes.now) }
{
    let mut out = String::new(alloc);
    out.push_str("flowchart LR\n")?;
    push_nodes(alloc, &mut out, nodes)?;
    Ok(out)
}

fn push_nodes(alloc: Global, out: &mut String, nodes: &[Node]) -> Result<(), AllocError>
    ensures { OnOk result (string_bytes out.new ≡ string_bytes out.old ++ numbered mermaid_node 0 nodes.now) }
{
    for (number, node) in nodes.iter().enumerate() {
        push_node(alloc, out, number, node)?;
    }
    Ok(())
}

fn push_node(alloc: Global, out: &mut String, number: usize, node: &Node) -> Result<(), AllocError>
    ensures { OnOk result (string_bytes out.new ≡ string_bytes out.old ++ mermaid_node number node.now) }
{
    push_label(alloc, out, number, node.name.as_str())?;
    push_fill(out, number, node.tint)?;
    push_edges(out, number, node)
}

/// The line of a node.
fn push_label(alloc: Global, out: &mut String, number: usize, name: &str) -> Result<(), AllocError>
    ensures { OnOk result (string_bytes out.new ≡ string_bytes out.old ++ mermaid_label number name.now) }
{
    write!(out, "  t{number}[\"")?;
    push_mermaid(alloc, out, name)?;
    out.push_str("\"]\n")
}

/// The colour of a node.
fn push_fill(out: &mut String, number: usize, tint: Tint) -> Result<(), AllocError>
    ensures { OnOk result (string_bytes out.new ≡ string_bytes out.old ++ mermaid_fill number tint) }
{
    match tint {
        Tint::Plain => Ok(()),
        tint => push_style(out, number, colour_of(tint)),
    }
}

fn push_style(out: &mut String, number: usize, colour: &str) -> Result<(), AllocError>
    ensures { OnOk result (string_bytes out.new
        ≡ string_bytes out.old ++ line (codes "  style " ++ id number ++ codes " fill:" ++ colour.now)) }
{
    writeln!(out, "  style t{number} fill:{colour}")
}

fn push_edges(out: &mut String, number: usize, node: &Node) -> Result<(), AllocError>
    ensures { OnOk result (string_bytes out.new ≡ string_bytes out.old ++ mermaid_edges number node.now) }
{
    push_before(out, node.needs.as_slice(), number, " --> ")?;
    push_before(out, node.runs_after.as_slice(), number, " -.-> ")?;
    push_after(out, number, node.finalizers.as_slice())
}

/// The edges from these to one.
fn push_before(out: &mut String, from: &[usize], to: usize, arrow: &str) -> Result<(), AllocError>
    ensures { OnOk result (string_bytes out.new
        ≡ string_bytes out.old ++ flat_map (λ one. mermaid_edge one arrow.now to) from.now) }
{
    for one in from {
        writeln!(out, "  t{one}{arrow}t{to}")?;
    }
    Ok(())
}

/// The edges from one to those that finalize it.
fn push_after(out: &mut String, from: usize, to: &[usize]) -> Result<(), AllocError>
    ensures { OnOk result (string_bytes out.new
        ≡ string_bytes out.old ++ flat_map (λ one. mermaid_edge from (codes " ==> ") one) to.now) }
{
    for one in to {
        writeln!(out, "  t{from} ==> t{one}")?;
    }
    Ok(())
}
