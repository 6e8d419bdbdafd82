//! A graph of tasks.
ghost use Rattle.std.specs.Prelude.{◌≡◌};
ghost use Rattle.std.specs.List.{list_any};
ghost use Rattle.gb_picture.specs.Graph.{colour_of, is_plain, is_tinted};

/// What a graph shows of the outcome of a task.
#[derive(Clone, Copy, Debug, PartialEq, Eq)]
pub enum Tint {
    /// Nothing.
    Plain,
    /// It runs.
    Runs,
    /// A task before it may change its outcome.
    Open,
    /// It is up to date.
    Done,
    /// It does nothing.
    Idle,
}

/// A task in the order in which tasks run, and the tasks that it is connected to, by their numbers.
/// Numbers count from 0.
#[derive(Drop)]
pub struct Node {
    /// Its name.
    pub name: String,
    /// What is shown of its outcome.
    pub tint: Tint,
    /// The tasks that it needs.
    pub needs: Vec<usize>,
    /// The tasks that it must run after.
    pub runs_after: Vec<usize>,
    /// The tasks that finalize it.
    pub finalizers: Vec<usize>,
}

/// The colour of an outcome, by the name that CSS, DOT and Mermaid have for it.
pub(crate) fn colour_of(tint: Tint) -> &'static str
    ensures { result.now ≡ colour_of tint }
{
    match tint {
        Tint::Plain => "",
        Tint::Runs => "orange",
        Tint::Open => "khaki",
        Tint::Done => "palegreen",
        Tint::Idle => "lightgray",
    }
}

/// Whether the outcome of some node is shown.
pub(crate) fn is_tinted(nodes: &[Node]) -> bool
    ensures { result ≡ is_tinted nodes.now }
{
    nodes.iter().any(|node| !matches!(node.tint, Tint::Plain))
}
