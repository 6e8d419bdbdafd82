//! The graph of a plan as JSON.
ghost use Rattle.std.specs.Prelude.{◌≡◌, ◌++◌, IfOk, OnOk, codes, map, string_bytes};
ghost use Rattle.std.specs.List.{flat_map};
ghost use Rattle.serde_json.specs.Data.{member, no_members, object, string};
ghost use Rattle.serde_json.specs.View.{view};
ghost use Rattle.gb_picture.specs.Graph.{name_at};
ghost use Rattle.gb_query.specs.Drawn.{edge_object, edges_from, edges_of, edges_to, graph_data, names_data};
ghost use Rattle.gb_query.specs.Objects.{IsJsonOf};

use crate::objects::{json_line, text_value};
use gb_picture::graph::Node;
use serde_json::{Value, json};
use std::alloc::{AllocError, Global};

/// A line of JSON: an object with the names of these nodes, and with their edges.
pub fn graph_json(alloc: Global, nodes: &[Node]) -> Result<String, AllocError>
    ensures { IfOk result (λ text. IsJsonOf (graph_data nodes.now) (string_bytes text)) }
{
    let edges = Value::Array(edges(alloc, nodes)?);
    let value = with_edges(alloc, &edges, nodes);
    drop(edges);
    json_line(alloc, value?)
}

/// The object of nodes with these edges.
fn with_edges(alloc: Global, edges: &Value, nodes: &[Node]) -> Result<Value, AllocError>
    ensures { IfOk result (λ value. view value ≡ object (member (codes "edges") (view edges.now)
        (member (codes "tasks") (names_data nodes.now) no_members))) }
{
    let names = Value::Array(names(alloc, nodes)?);
    let value = graph_object(alloc, edges, &names);
    drop(names);
    value
}

fn graph_object(alloc: Global, edges: &Value, tasks: &Value) -> Result<Value, AllocError>
    ensures { IfOk result (λ value. view value ≡ object (member (codes "edges") (view edges.now)
        (member (codes "tasks") (view tasks.now) no_members))) }
{
    json!(in alloc; {"edges": edges, "tasks": tasks})
}

fn names(alloc: Global, nodes: &[Node]) -> Result<Vec<Value>, AllocError>
    ensures { IfOk result (λ values. map view values.items
        ≡ map (λ node. string (string_bytes node.name)) nodes.now) }
{
    let mut values = Vec::new(alloc);
    for node in nodes {
        values.push(text_value(alloc, node.name.as_str())?)?;
    }
    Ok(values)
}

/// All edges.
fn edges(alloc: Global, nodes: &[Node]) -> Result<Vec<Value>, AllocError>
    ensures { IfOk result (λ values. map view values.items ≡ flat_map (edges_of nodes.now) nodes.now) }
{
    let mut values = Vec::new(alloc);
    for node in nodes {
        push_edges(alloc, &mut values, nodes, node)?;
    }
    Ok(values)
}

/// Adds the edges of a node.
fn push_edges(
    alloc: Global,
    values: &mut Vec<Value>,
    nodes: &[Node],
    node: &Node,
) -> Result<(), AllocError>
    ensures { OnOk result
        (map view values.new.items ≡ map view values.old.items ++ edges_of nodes.now node.now) }
{
    let name = node.name.as_str();
    push_to(alloc, values, nodes, "needs", name, node.needs.as_slice())?;
    push_to(
        alloc,
        values,
        nodes,
        "mustRunAfter",
        name,
        node.runs_after.as_slice(),
    )?;
    push_from(alloc, values, nodes, name, node.finalizers.as_slice())
}

/// Adds the edges of a kind from these nodes to one.
fn push_to(
    alloc: Global,
    values: &mut Vec<Value>,
    nodes: &[Node],
    sort: &str,
    to: &str,
    numbers: &[usize],
) -> Result<(), AllocError>
    ensures { OnOk result (map view values.new.items
        ≡ map view values.old.items ++ edges_to nodes.now sort.now to.now numbers.now) }
{
    for number in numbers {
        values.push(edge_object(alloc, sort, name_at(nodes, *number), to)?)?;
    }
    Ok(())
}

/// Adds the edges from one node to those that finalize it.
fn push_from(
    alloc: Global,
    values: &mut Vec<Value>,
    nodes: &[Node],
    from: &str,
    numbers: &[usize],
) -> Result<(), AllocError>
    ensures { OnOk result (map view values.new.items
        ≡ map view values.old.items ++ edges_from nodes.now from.now numbers.now) }
{
    for number in numbers {
        values.push(edge_object(alloc, "finalizedBy", from, name_at(nodes, *number))?)?;
    }
    Ok(())
}

fn edge_object(alloc: Global, sort: &str, from: &str, to: &str) -> Result<Value, AllocError>
    ensures { IfOk result (λ value. view value ≡ edge_object sort.now from.now to.now) }
{
    json!(in alloc; {"from": from, "sort": sort, "to": to})
}

/// The name of the node with a number; empty if there is none.
fn name_at(nodes: &[Node], number: usize) -> &str
    ensures { result.now ≡ name_at nodes.now number }
{
    match nodes.get(number) {
        Some(node) => node.name.as_str(),
        None => "",
    }
}
