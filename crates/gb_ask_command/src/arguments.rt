//! The arguments of the program.
ghost use Rattle.std.specs.Prelude.{◌≡◌, string_bytes};
ghost use Rattle.gb_ask_command.specs.Words.{colouring_of, mode_of, notation_of, question_of, style_of};

use gb_query::notation::Notation;

/// The query that the arguments request.
#[derive(Clone, Copy, Debug, PartialEq, Eq)]
pub enum Question {
    /// The outcome of each task, and why it would run.
    Why,
    /// The layout of scripts.
    Fmt,
    /// The registered tasks.
    Tasks,
    /// The plan as a graph.
    Graph,
    /// The tasks that read a place.
    Reads,
    /// The tasks that make a place.
    Makes,
    /// Whether a build runs, and what the files of `.gb` are.
    Status,
    /// The faults and warnings of the tasks.
    Check,
    /// The usage text.
    Help,
    /// No known query.
    Unknown,
}

/// How a graph is written.
#[derive(Clone, Copy, Debug, PartialEq, Eq)]
pub enum Style {
    /// For Graphviz.
    Dot,
    /// As an outline.
    Tree,
    /// For Mermaid.
    Mermaid,
    /// As a picture.
    Svg,
    /// In JSON.
    Json,
}

/// What the colours of a graph show.
#[derive(Clone, Copy, Debug, PartialEq, Eq)]
pub enum Colouring {
    /// Nothing: there are none.
    Plain,
    /// The outcome of each task.
    Outcomes,
}

/// What is done with formatted files.
#[derive(Clone, Copy, Debug, PartialEq, Eq)]
pub enum Mode {
    /// They are printed.
    Prints,
    /// Those that differ are written.
    Writes,
    /// Those that differ are named.
    Checks,
}

/// The query that the first argument names.
pub fn question_of(word: &str) -> Question
    ensures { result ≡ question_of word.now }
{
    match word {
        "why" => Question::Why,
        "fmt" => Question::Fmt,
        "tasks" => Question::Tasks,
        "graph" => Question::Graph,
        "reads" => Question::Reads,
        "makes" => Question::Makes,
        "status" => Question::Status,
        "check" => Question::Check,
        "help" | "--help" => Question::Help,
        _ => Question::Unknown,
    }
}

/// The style that an option names, if it names one.
pub fn style_of(word: &str) -> Option<Style>
    ensures { result ≡ style_of word.now }
{
    match word {
        "--tree" => Some(Style::Tree),
        "--mermaid" => Some(Style::Mermaid),
        "--svg" => Some(Style::Svg),
        "--json" => Some(Style::Json),
        _ => None,
    }
}

/// The colouring that an option names, if it names one.
pub fn colouring_of(word: &str) -> Option<Colouring>
    ensures { result ≡ colouring_of word.now }
{
    match word {
        "--why" => Some(Colouring::Outcomes),
        _ => None,
    }
}

/// The notation that an option names, if it names one.
pub fn notation_of(word: &str) -> Option<Notation>
    ensures { result ≡ notation_of word.now }
{
    match word {
        "--json" => Some(Notation::Json),
        _ => None,
    }
}

/// The mode that an option names, if it names one.
pub fn mode_of(word: &str) -> Option<Mode>
    ensures { result ≡ mode_of word.now }
{
    match word {
        "--write" => Some(Mode::Writes),
        "--check" => Some(Mode::Checks),
        _ => None,
    }
}

/// The usage text.
pub const USAGE: &str = "\
gb_ask why [--json] [WORD ..]
                           the outcome of each task if it ran now, and why it would run
gb_ask tasks [--json] [WORD ..]
                           every registered task, what it does and what it makes
gb_ask graph [--why] [--tree | --mermaid | --svg | --json] [WORD ..]
                           the plan as a graph: for Graphviz, where no form is named;
                           --why shows the outcome of each task, but not in JSON
gb_ask reads [--json] PLACE [WORD ..]
                           every task that reads the place, with the property that takes it in
gb_ask makes [--json] PLACE [WORD ..]
                           every task that makes the place, with the output
gb_ask status [--json] [WORD ..]
                           whether a build runs, and what each file of `.gb` is
gb_ask check [--json] [WORD ..]
                           every fault of every task with its line, and warnings
gb_ask fmt [--write | --check] FILE ..
                           the files in one layout; `-` is standard input
gb_ask help                this text
A WORD is one of gb's: a task, or an option as -x TASK, -P NAME=VALUE, --rerun-tasks
";
