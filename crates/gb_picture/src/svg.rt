//! A graph as a picture in SVG.
ghost use Rattle.std.specs.Prelude.{◌≡◌, ◌++◌, IfOk, OnOk, codes, string_bytes};
ghost use Rattle.std.specs.List.{flat_map};
ghost use Rattle.gb_picture.specs.Graph.{numbered};
ghost use Rattle.gb_picture.specs.Svg.{IsSvgOf, box_begun, box_fill, box_name, box_sides, colours_text};
ghost use Rattle.gb_picture.specs.Svg.{curve, curve_begun, curve_bent, curve_ended, legend_text, size_text};
ghost use Rattle.gb_picture.specs.Svg.{rect_begun, spot_at, svg_begun};
ghost use Rattle.gb_picture.specs.Svg.{svg_box, svg_edges, svg_head, svg_node, svg_text};

use crate::columns::{Frame, Spot, frame_of, spots};
use crate::escapes::push_xml;
use crate::graph::{Node, Tint, colour_of, is_tinted};
use std::alloc::{AllocError, Global};
use std::fmt::Write;

/// The picture of these nodes, from left to right as they run: a box with the name of each, and a curve to
/// each that runs later and is connected to it. It needs no other tool. No contract says where the boxes are;
/// they are in columns by the longest chain that leads to them.
pub fn svg_of(alloc: Global, nodes: &[Node]) -> Result<String, AllocError>
    ensures { IfOk result (λ text. IsSvgOf nodes.now (string_bytes text)) }
{
    let spots = spots(alloc, nodes)?;
    let frame = frame_of(nodes, spots.as_slice());
    drawn(alloc, frame, spots.as_slice(), nodes)
}

/// The picture of nodes at these places.
fn drawn(alloc: Global, frame: Frame, spots: &[Spot], nodes: &[Node]) -> Result<String, AllocError>
    ensures { IfOk result (λ text. string_bytes text ≡ svg_text frame spots.now nodes.now) }
{
    let mut out = String::new(alloc);
    push_head(&mut out, frame)?;
    push_colours(&mut out, nodes)?;
    push_all_edges(&mut out, spots, nodes)?;
    push_boxes(alloc, &mut out, frame.box_width, spots, nodes)?;
    out.push_str("</svg>\n")?;
    Ok(out)
}

fn push_head(out: &mut String, frame: Frame) -> Result<(), AllocError>
    ensures { OnOk result (string_bytes out.new ≡ string_bytes out.old ++ svg_head frame) }
{
    push_begin(out)?;
    push_size(out, frame)?;
    push_legend(out)
}

fn push_begin(out: &mut String) -> Result<(), AllocError>
    ensures { OnOk result (string_bytes out.new ≡ string_bytes out.old ++ svg_begun) }
{
    out.push_str("<svg xmlns=\"http://www.w3.org/2000/svg\"")
}

fn push_size(out: &mut String, frame: Frame) -> Result<(), AllocError>
    ensures { OnOk result (string_bytes out.new ≡ string_bytes out.old ++ size_text frame) }
{
    let (width, height) = (frame.width, frame.height);
    write!(out, " width=\"{width}\" height=\"{height}\"")
}

/// The text after the size of each picture.
const LEGEND: &str = " font-family=\"monospace\" font-size=\"12\">
<style>rect{fill:#eef2f6;stroke:#8896a5}path{fill:none;stroke-width:1.5}
.n{stroke:#52606d}.a{stroke:#b7791f;stroke-dasharray:6 3}
.f{stroke:#2b6cb0;stroke-dasharray:2 3}</style>
<rect width=\"100%\" height=\"100%\" style=\"fill:#ffffff;stroke:none\"/>
<path d=\"M16 20 H56\" class=\"n\"/><text x=\"64\" y=\"24\">is needed by</text>
<path d=\"M176 20 H216\" class=\"a\"/><text x=\"224\" y=\"24\">must run before</text>
<path d=\"M352 20 H392\" class=\"f\"/><text x=\"400\" y=\"24\">is finalized by</text>
";

fn push_legend(out: &mut String) -> Result<(), AllocError>
    ensures { OnOk result (string_bytes out.new ≡ string_bytes out.old ++ legend_text) }
{
    out.push_str(LEGEND)
}

/// The meaning of the colours.
const COLOURS: &str = "<g transform=\"translate(16 28)\">
<rect width=\"40\" height=\"14\" style=\"fill:orange\"/>
<text x=\"48\" y=\"12\">runs</text>
<rect x=\"104\" width=\"40\" height=\"14\" style=\"fill:khaki\"/>
<text x=\"152\" y=\"12\">may change</text>
<rect x=\"248\" width=\"40\" height=\"14\" style=\"fill:palegreen\"/>
<text x=\"296\" y=\"12\">is up to date</text>
<rect x=\"408\" width=\"40\" height=\"14\" style=\"fill:lightgray\"/>
<text x=\"456\" y=\"12\">does nothing</text></g>
";

/// What the colours of these nodes mean, if they have some.
fn push_colours(out: &mut String, nodes: &[Node]) -> Result<(), AllocError>
    ensures { OnOk result (string_bytes out.new ≡ string_bytes out.old ++ colours_text nodes.now) }
{
    if is_tinted(nodes) {
        out.push_str(COLOURS)
    } else {
        Ok(())
    }
}

fn push_all_edges(out: &mut String, spots: &[Spot], nodes: &[Node]) -> Result<(), AllocError>
    ensures { OnOk result
        (string_bytes out.new ≡ string_bytes out.old ++ numbered (svg_edges spots.now) 0 nodes.now) }
{
    for (number, node) in nodes.iter().enumerate() {
        push_edges(out, spots, number, node)?;
    }
    Ok(())
}

fn push_edges(
    out: &mut String,
    spots: &[Spot],
    number: usize,
    node: &Node,
) -> Result<(), AllocError>
    ensures { OnOk result
        (string_bytes out.new ≡ string_bytes out.old ++ svg_edges spots.now number node.now) }
{
    push_before(out, spots, node.needs.as_slice(), number, "n")?;
    push_before(out, spots, node.runs_after.as_slice(), number, "a")?;
    push_after(out, spots, number, node.finalizers.as_slice())
}

/// The curves from these to one.
fn push_before(
    out: &mut String,
    spots: &[Spot],
    from: &[usize],
    to: usize,
    style: &str,
) -> Result<(), AllocError>
    ensures { OnOk result (string_bytes out.new ≡ string_bytes out.old
        ++ flat_map (λ one. curve (spot_at spots.now one) (spot_at spots.now to) style.now) from.now) }
{
    for one in from {
        push_curve(out, spot_at(spots, *one), spot_at(spots, to), style)?;
    }
    Ok(())
}

/// The curves from one to those that finalize it.
fn push_after(out: &mut String, spots: &[Spot], from: usize, to: &[usize]) -> Result<(), AllocError>
    ensures { OnOk result (string_bytes out.new ≡ string_bytes out.old
        ++ flat_map (λ one. curve (spot_at spots.now from) (spot_at spots.now one) (codes "f")) to.now) }
{
    for one in to {
        push_curve(out, spot_at(spots, from), spot_at(spots, *one), "f")?;
    }
    Ok(())
}

fn push_curve(out: &mut String, from: Spot, to: Spot, style: &str) -> Result<(), AllocError>
    ensures { OnOk result (string_bytes out.new ≡ string_bytes out.old ++ curve from to style.now) }
{
    push_begun(out, from)?;
    push_bent(out, from, to)?;
    push_ended(out, to, style)
}

fn push_begun(out: &mut String, from: Spot) -> Result<(), AllocError>
    ensures { OnOk result (string_bytes out.new ≡ string_bytes out.old ++ curve_begun from) }
{
    let (right, middle) = (from.right, from.middle);
    write!(out, "<path d=\"M{right} {middle} C")
}

fn push_bent(out: &mut String, from: Spot, to: Spot) -> Result<(), AllocError>
    ensures { OnOk result (string_bytes out.new ≡ string_bytes out.old ++ curve_bent from to) }
{
    let (a, b, c, d) = (to.left, from.middle, from.right, to.middle);
    write!(out, "{a} {b} {c} {d} ")
}

fn push_ended(out: &mut String, to: Spot, style: &str) -> Result<(), AllocError>
    ensures { OnOk result (string_bytes out.new ≡ string_bytes out.old ++ curve_ended to style.now) }
{
    let (left, middle) = (to.left, to.middle);
    writeln!(out, "{left} {middle}\" class=\"{style}\"/>")
}

/// The place of the node with a number; the corner if there is none.
fn spot_at(spots: &[Spot], number: usize) -> Spot
    ensures { result ≡ spot_at spots.now number }
{
    spots.get(number).copied().unwrap_or(Spot {
        left: 0,
        top: 0,
        right: 0,
        middle: 0,
    })
}

fn push_boxes(
    alloc: Global,
    out: &mut String,
    width: usize,
    spots: &[Spot],
    nodes: &[Node],
) -> Result<(), AllocError>
    ensures { OnOk result
        (string_bytes out.new ≡ string_bytes out.old ++ numbered (svg_node width spots.now) 0 nodes.now) }
{
    for (number, node) in nodes.iter().enumerate() {
        push_node(alloc, out, width, spots, number, node)?;
    }
    Ok(())
}

fn push_node(
    alloc: Global,
    out: &mut String,
    width: usize,
    spots: &[Spot],
    number: usize,
    node: &Node,
) -> Result<(), AllocError>
    ensures { OnOk result
        (string_bytes out.new ≡ string_bytes out.old ++ svg_node width spots.now number node.now) }
{
    push_box(
        alloc,
        out,
        spot_at(spots, number),
        width,
        node.tint,
        node.name.as_str(),
    )
}

/// A box with a name in it.
fn push_box(
    alloc: Global,
    out: &mut String,
    spot: Spot,
    width: usize,
    tint: Tint,
    name: &str,
) -> Result<(), AllocError>
    ensures { OnOk result
        (string_bytes out.new ≡ string_bytes out.old ++ svg_box spot width tint name.now) }
{
    push_corner(out, spot)?;
    push_sides(out, width, tint)?;
    push_name(alloc, out, name)
}

fn push_corner(out: &mut String, spot: Spot) -> Result<(), AllocError>
    ensures { OnOk result (string_bytes out.new ≡ string_bytes out.old ++ box_begun spot) }
{
    let (left, top) = (spot.left, spot.top);
    write!(out, "<g transform=\"translate({left} {top})\">")
}

fn push_sides(out: &mut String, width: usize, tint: Tint) -> Result<(), AllocError>
    ensures { OnOk result (string_bytes out.new ≡ string_bytes out.old ++ box_sides width tint) }
{
    push_rect(out, width)?;
    push_fill(out, tint)?;
    push_end(out)
}

fn push_end(out: &mut String) -> Result<(), AllocError>
    ensures { OnOk result (string_bytes out.new ≡ string_bytes out.old ++ codes "/>") }
{
    out.push_str("/>")
}

fn push_rect(out: &mut String, width: usize) -> Result<(), AllocError>
    ensures { OnOk result (string_bytes out.new ≡ string_bytes out.old ++ rect_begun width) }
{
    write!(out, "<rect width=\"{width}\" height=\"24\" rx=\"4\"")
}

/// The colour of a box.
fn push_fill(out: &mut String, tint: Tint) -> Result<(), AllocError>
    ensures { OnOk result (string_bytes out.new ≡ string_bytes out.old ++ box_fill tint) }
{
    match tint {
        Tint::Plain => Ok(()),
        tint => push_colour(out, colour_of(tint)),
    }
}

fn push_colour(out: &mut String, colour: &str) -> Result<(), AllocError>
    ensures { OnOk result (string_bytes out.new
        ≡ string_bytes out.old ++ codes " style=\"fill:" ++ colour.now ++ codes "\"") }
{
    write!(out, " style=\"fill:{colour}\"")
}

fn push_name(alloc: Global, out: &mut String, name: &str) -> Result<(), AllocError>
    ensures { OnOk result (string_bytes out.new ≡ string_bytes out.old ++ box_name name.now) }
{
    out.push_str("<text x=\"8\" y=\"16\">")?;
    push_xml(alloc, out, name)?;
    out.push_str("</text></g>\n")
}
