//! The graph of a plan.
ghost use Rattle.std.specs.Prelude.{IfErr, IfOk, string_bytes};
ghost use Rattle.gb_graph.specs.Answer.{IsRefusalOf};
ghost use Rattle.gb_ask_command.specs.Graph.{IsDrawing, IsPicture};

use crate::arguments::Style;
use crate::nodes::nodes_of;
use crate::printed_reply::Reply;
use crate::tints::with_tints;
use gb_core::text::Text;
use gb_graph::plan::plan;
use gb_graph::tasks::Tasks;
use gb_picture::dot::dot_of;
use gb_picture::graph::Node;
use gb_picture::mermaid::mermaid_of;
use gb_picture::outline::outline_of;
use gb_picture::svg::svg_of;
use gb_predict::predicted_outcome::Prediction;
use gb_query::drawn::graph_json;
use std::alloc::{AllocError, Global};

/// The graph of the plan of a request for registered tasks, with the colours of these predictions,
/// or why a build of it would be refused.
pub(crate) fn draw_requested<Ts: Tasks>(
    alloc: Global,
    style: Style,
    predicted: &[Prediction],
    tasks: &mut Ts,
    requested: &[Text],
    excluded: &[Text],
) -> Reply
    ensures drawing { IfOk result (λ text.
        IsDrawing style predicted.now (Ts.registry tasks.old) requested.now excluded.now
        (string_bytes text)) }
    ensures fault { IfErr result (IsRefusalOf (Ts.registry tasks.old) requested.now excluded.now) }
{
    let plan = plan(alloc, tasks, requested, excluded)?;
    let nodes = nodes_of(alloc, plan.as_slice())?;
    let tinted = with_tints(alloc, nodes, predicted)?;
    Ok(picture(alloc, style, tinted.as_slice())?)
}

/// The graph of these nodes.
fn picture(alloc: Global, style: Style, nodes: &[Node]) -> Result<String, AllocError>
    ensures { IfOk result (λ text. IsPicture style nodes.now (string_bytes text)) }
{
    match style {
        Style::Dot => dot_of(alloc, nodes),
        Style::Tree => outline_of(alloc, nodes),
        Style::Mermaid => mermaid_of(alloc, nodes),
        Style::Svg => svg_of(alloc, nodes),
        Style::Json => graph_json(alloc, nodes),
    }
}
