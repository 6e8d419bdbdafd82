//! The expression from which a value is made, as a script writes it.
use crate::function::Function;
use gb_core::name::Name;
use gb_core::text::Text;
use std::marker::Model;

/// A source, and its steps in order. Contracts view it as a tree (`specs/Tree.antt`).
#[derive(Debug, Drop)]
#[cycle(expression)]
pub struct Expression {
    source: Source,
    steps: Vec<Step>,
}

/// Where a value comes from.
#[derive(Debug, Drop)]
#[cycle(expression)]
pub enum Source {
    /// A text in quotes, without them.
    Text(Text),
    /// `true` or `false`.
    Flag(bool),
    /// `[a, b]`: values in brackets, perhaps none.
    List(Vec<Expression>),
    /// A property of the project, by its bare name.
    Property(Name),
    /// A folder of the project.
    Dir(Text),
    /// A file of the project.
    File(Text),
    /// The folder of build outputs.
    BuildDir,
    /// The value that an invocation gives under the name.
    GradleProperty(Text),
    /// `task("T")`: a task, by its name or its path.
    Task(Text),
}

/// A step from a value to the next.
#[derive(Debug, Drop)]
#[cycle(expression)]
pub enum Step {
    /// `.map(f)`: the result of a function on it.
    Map(Function),
    /// `.flatMap(f)`: the output that a function chooses by it.
    FlatMap(Function),
    /// `.zip(b, f)`: the result of a function on it and on another value.
    Zip(Expression, Function),
    /// `.orElse(b)`: another value if there is none.
    OrElse(Expression),
}

impl Model for Expression {
    ghost use Rattle.gb_script.specs.Tree.{Tree, tree_size};
    ghost use Rattle.gb_script.specs.Coding.{tree_code};

    ghost Value = { Tree };

    ghost coded = { tree_code };

    ghost use Rattle.gb_script.specs.View.{tree_of};

    ghost view = { λ e. tree_of e.source e.steps.items };

    ghost size = { tree_size };

    ghost use Rattle.gb_script.specs.Falling.{falls};

    ghost size_decreases = { λ e h. falls e };
}

impl Expression {
    ghost use Rattle.std.specs.Prelude.{◌≡◌, map};
    ghost use Rattle.gb_script.specs.Tree.{root, links, links_of};
    ghost use Rattle.gb_script.specs.View.{tree_of, root_of, link_of};

    /// This source, with these steps in their order.
    pub fn new(source: Source, steps: Vec<Step>) -> Expression
        ensures { result ≡ tree_of source steps.items }
    {
        Expression { source, steps }
    }

    /// The source of its value, before any step.
    pub fn source(&self) -> &Source
        ensures { root_of result.now ≡ root self.now }
    {
        &self.source
    }

    /// The steps in their order, perhaps none.
    pub fn steps(&self) -> &[Step]
        ensures { links_of (map link_of result.now) ≡ links self.now }
    {
        self.steps.as_slice()
    }
}

/// Expressions in a row.
#[derive(Debug, Drop)]
pub struct Expressions {
    items: Vec<Expression>,
}

impl Model for Expressions {
    ghost use Rattle.std.specs.Prelude.{List};
    ghost use Rattle.std.specs.Coded.{coded_list};
    ghost use Rattle.gb_script.specs.Tree.{Tree};
    ghost use Rattle.gb_script.specs.Coding.{tree_code};

    ghost Value = { List Tree };

    ghost coded = { coded_list tree_code };

    ghost view = { λ e. e.items.items };
}

impl Expressions {
    ghost use Rattle.std.specs.Prelude.{◌≡◌};

    /// These expressions in their order.
    pub fn new(items: Vec<Expression>) -> Expressions
        ensures { result ≡ items.items }
    {
        Expressions { items }
    }

    /// The expressions in their order.
    pub fn as_slice(&self) -> &[Expression]
        ensures { result.now ≡ self.now }
    {
        self.items.as_slice()
    }
}
