//! The colours of predictions in a graph.
ghost use Rattle.std.specs.Prelude.{◌≡◌, IfOk, bytes_eq, codes, string_bytes};
ghost use Rattle.gb_ask_command.specs.Tints.{first_tinted, other_predictions, tint_of, tint_of_coming};
ghost use Rattle.gb_ask_command.specs.Tints.{tinted, with_tints};

use gb_picture::graph::{Node, Tint};
use gb_predict::predicted_outcome::{PredictedOutcome, Prediction};
use std::alloc::{AllocError, Global};

/// These nodes, each with the colour of the prediction in its place if that is for a task of its
/// name.
pub(crate) fn with_tints(
    alloc: Global,
    nodes: Vec<Node>,
    predicted: &[Prediction],
) -> Result<Vec<Node>, AllocError>
    ensures { IfOk result (λ tinted. tinted.items ≡ with_tints nodes.items predicted.now) }
{
    let mut made = Vec::new(alloc);
    let mut rest = predicted;
    for node in nodes {
        made.push(first_tinted(node, rest))?;
        rest = other_predictions(rest);
    }
    Ok(made)
}

/// A node with the colour of the first of these predictions, if there is one for it.
fn first_tinted(node: Node, predicted: &[Prediction]) -> Node
    ensures { result ≡ first_tinted node predicted.now }
{
    match predicted.first() {
        Some(prediction) => tinted(node, prediction),
        None => node,
    }
}

fn other_predictions(predicted: &[Prediction]) -> &[Prediction]
    ensures { result.now ≡ other_predictions predicted.now }
{
    match predicted.split_first() {
        Some((_, others)) => others,
        None => predicted,
    }
}

/// A node with the colour of a prediction, if it is for a task of its name.
fn tinted(node: Node, prediction: &Prediction) -> Node
    ensures { result ≡ tinted node prediction.now }
{
    if node.name.as_str() != prediction.path.as_str() {
        return node;
    }
    Node {
        name: node.name,
        tint: tint_of(prediction),
        needs: node.needs,
        runs_after: node.runs_after,
        finalizers: node.finalizers,
    }
}

/// The colour of a prediction: none if the task does not start, and another one if a task before it
/// may change its outcome.
fn tint_of(prediction: &Prediction) -> Tint
    ensures { result ≡ tint_of prediction.now }
{
    match (&prediction.kept_by, &prediction.after) {
        (Some(_), _) => Tint::Plain,
        (None, Some(_)) => Tint::Open,
        (None, None) => tint_of_coming(&prediction.coming),
    }
}

/// The colour of an outcome; none if it cannot be predicted.
fn tint_of_coming(coming: &PredictedOutcome) -> Tint
    ensures { result ≡ tint_of_coming coming.now }
{
    match coming {
        PredictedOutcome::Skips
        | PredictedOutcome::HasNoActions
        | PredictedOutcome::HasNoSource(_) => Tint::Idle,
        PredictedOutcome::CannotRead(_) => Tint::Plain,
        PredictedOutcome::UpToDate => Tint::Done,
        PredictedOutcome::HasGrown | PredictedOutcome::Runs(_, _) => Tint::Runs,
    }
}
