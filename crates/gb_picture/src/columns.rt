//! Where the nodes of a picture are placed: in columns by the longest chain that leads to them.
use crate::graph::Node;
use std::alloc::{AllocError, Global};

/// The place of a node.
#[derive(Clone, Copy)]
pub(crate) struct Spot {
    /// The left side of its box.
    pub left: usize,
    /// The upper side.
    pub top: usize,
    /// The right side.
    pub right: usize,
    /// Halfway between the upper side and the lower one.
    pub middle: usize,
}

/// The size of a picture.
#[derive(Clone, Copy)]
pub(crate) struct Frame {
    /// From left to right.
    pub width: usize,
    /// From top to bottom.
    pub height: usize,
    /// How wide each box is.
    pub box_width: usize,
}

/// As many zeros.
fn zeros(alloc: Global, count: usize) -> Result<Vec<usize>, AllocError> {
    let mut zeros = Vec::new(alloc);
    for _ in 0..count {
        zeros.push(0)?;
    }
    Ok(zeros)
}

fn layer_at(layers: &[usize], number: usize) -> usize {
    layers.get(number).copied().unwrap_or(0)
}

fn set_layer(layers: &mut [usize], number: usize, layer: usize) {
    if let Some(place) = layers.get_mut(number) {
        *place = layer;
    }
}

/// The least layer, from this one on, that is after those of these nodes.
fn following(layers: &[usize], numbers: &[usize], least: usize) -> usize {
    let mut least = least;
    for number in numbers {
        least = least.max(layer_at(layers, *number).saturating_add(1));
    }
    least
}

/// Moves these nodes to this layer if they are in an earlier one.
fn lift(layers: &mut [usize], numbers: &[usize], layer: usize) {
    for number in numbers {
        let lifted = layer_at(layers, *number).max(layer);
        set_layer(layers, *number, lifted);
    }
}

/// Gives a node its layer, once the nodes that run before it have theirs.
fn give_layer(layers: &mut [usize], number: usize, node: &Node) {
    let least = following(layers, node.needs.as_slice(), layer_at(layers, number));
    let layer = following(layers, node.runs_after.as_slice(), least);
    set_layer(layers, number, layer);
    lift(layers, node.finalizers.as_slice(), layer.saturating_add(1));
}

/// The layer of each node: 0, or after all nodes that run before it.
fn layers(alloc: Global, nodes: &[Node]) -> Result<Vec<usize>, AllocError> {
    let mut layers = zeros(alloc, nodes.len())?;
    for (number, node) in nodes.iter().enumerate() {
        give_layer(layers.as_mut_slice(), number, node);
    }
    Ok(layers)
}

/// The width of a box in which each name fits.
fn box_width(nodes: &[Node]) -> usize {
    let mut longest = 0;
    for node in nodes {
        longest = node.name.len().max(longest);
    }
    longest.saturating_mul(8).saturating_add(16)
}

/// The place in this column and row.
fn spot_in(column: usize, row: usize, box_width: usize) -> Spot {
    let left = column
        .saturating_mul(box_width.saturating_add(56))
        .saturating_add(16);
    let top = row.saturating_mul(36).saturating_add(48);
    Spot {
        left,
        top,
        right: left.saturating_add(box_width),
        middle: top.saturating_add(12),
    }
}

/// The place of each node: in a column by its layer, under those already there.
pub(crate) fn spots(alloc: Global, nodes: &[Node]) -> Result<Vec<Spot>, AllocError> {
    let box_width = box_width(nodes);
    let layers = layers(alloc, nodes)?;
    let mut rows = zeros(alloc, nodes.len())?;
    let mut spots = Vec::new(alloc);
    for layer in layers.as_slice() {
        let row = layer_at(rows.as_slice(), *layer);
        set_layer(rows.as_mut_slice(), *layer, row.saturating_add(1));
        spots.push(spot_in(*layer, row, box_width))?;
    }
    Ok(spots)
}

/// The size of a picture of these nodes at these places.
pub(crate) fn frame_of(nodes: &[Node], spots: &[Spot]) -> Frame {
    let mut width = 560;
    let mut height = 48;
    for spot in spots {
        width = spot.right.saturating_add(16).max(width);
        height = spot.top.saturating_add(40).max(height);
    }
    Frame {
        width,
        height,
        box_width: box_width(nodes),
    }
}
