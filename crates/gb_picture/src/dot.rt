//! A graph for Graphviz.
ghost use Rattle.std.specs.Prelude.{◌≡◌, ◌++◌, IfOk, OnOk, codes, string_bytes};
ghost use Rattle.std.specs.List.{flat_map};
ghost use Rattle.gb_picture.specs.Dot.{dot_edge, dot_edges, dot_fill, dot_label, dot_legend, dot_node};
ghost use Rattle.gb_picture.specs.Dot.{dot_text};
ghost use Rattle.gb_picture.specs.Graph.{numbered};

use crate::escapes::push_dot;
use crate::graph::{Node, Tint, colour_of, is_tinted};
use std::alloc::{AllocError, Global};
use std::fmt::Write;

/// What the colours mean.
const LEGEND: &str = "  label=\"orange runs, khaki may change, palegreen is up to date, \
lightgray does nothing\";\n";

/// The graph of these nodes in DOT: each edge leads to the task that runs later. It is dashed to a task that
/// must run after the other, and dotted to a finalizer.
pub fn dot_of(alloc: Global, nodes: &[Node]) -> Result<String, AllocError>
    ensures { IfOk result (λ text. string_bytes text ≡ dot_text nodes.now) }
{
    let mut out = String::new(alloc);
    out.push_str("digraph tasks {\n  rankdir=LR;\n  node [shape=box];\n")?;
    push_legend(&mut out, nodes)?;
    push_nodes(alloc, &mut out, nodes)?;
    out.push_str("}\n")?;
    Ok(out)
}

/// What the colours of these nodes mean, if they have some.
fn push_legend(out: &mut String, nodes: &[Node]) -> Result<(), AllocError>
    ensures { OnOk result (string_bytes out.new ≡ string_bytes out.old ++ dot_legend nodes.now) }
{
    if is_tinted(nodes) {
        out.push_str(LEGEND)
    } else {
        Ok(())
    }
}

fn push_nodes(alloc: Global, out: &mut String, nodes: &[Node]) -> Result<(), AllocError>
    ensures { OnOk result (string_bytes out.new ≡ string_bytes out.old ++ numbered dot_node 0 nodes.now) }
{
    for (number, node) in nodes.iter().enumerate() {
        push_node(alloc, out, number, node)?;
    }
    Ok(())
}

fn push_node(alloc: Global, out: &mut String, number: usize, node: &Node) -> Result<(), AllocError>
    ensures { OnOk result (string_bytes out.new ≡ string_bytes out.old ++ dot_node number node.now) }
{
    push_label(alloc, out, number, node.name.as_str(), node.tint)?;
    push_edges(out, number, node)
}

/// The line of a node.
fn push_label(
    alloc: Global,
    out: &mut String,
    number: usize,
    name: &str,
    tint: Tint,
) -> Result<(), AllocError>
    ensures { OnOk result
        (string_bytes out.new ≡ string_bytes out.old ++ dot_label number name.now tint) }
{
    write!(out, "  t{number} [label=\"")?;
    push_dot(alloc, out, name)?;
    out.push('"')?;
    push_fill(out, tint)?;
    out.push_str("];\n")
}

/// The colour of a node.
fn push_fill(out: &mut String, tint: Tint) -> Result<(), AllocError>
    ensures { OnOk result (string_bytes out.new ≡ string_bytes out.old ++ dot_fill tint) }
{
    match tint {
        Tint::Plain => Ok(()),
        tint => {
            out.push_str(", style=filled, fillcolor=")?;
            out.push_str(colour_of(tint))
        }
    }
}

fn push_edges(out: &mut String, number: usize, node: &Node) -> Result<(), AllocError>
    ensures { OnOk result (string_bytes out.new ≡ string_bytes out.old ++ dot_edges number node.now) }
{
    push_before(out, node.needs.as_slice(), number, ";")?;
    push_before(out, node.runs_after.as_slice(), number, " [style=dashed];")?;
    push_after(out, number, node.finalizers.as_slice())
}

/// The edges from these to one.
fn push_before(out: &mut String, from: &[usize], to: usize, style: &str) -> Result<(), AllocError>
    ensures { OnOk result (string_bytes out.new
        ≡ string_bytes out.old ++ flat_map (λ one. dot_edge one to style.now) from.now) }
{
    for one in from {
        writeln!(out, "  t{one} -> t{to}{style}")?;
    }
    Ok(())
}

/// The edges from one to those that finalize it.
fn push_after(out: &mut String, from: usize, to: &[usize]) -> Result<(), AllocError>
    ensures { OnOk result (string_bytes out.new
        ≡ string_bytes out.old ++ flat_map (λ one. dot_edge from one (codes " [style=dotted];")) to.now) }
{
    for one in to {
        writeln!(out, "  t{from} -> t{one} [style=dotted];")?;
    }
    Ok(())
}
