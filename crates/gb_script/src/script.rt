//! The parsed form of scripts and settings.
use crate::function::Function;
use crate::script_expression::{Expression, Expressions};
use gb_core::name::Name;
use gb_core::text::Texts;
use std::marker::Model;

/// A kind with its arguments.
#[derive(Debug, Drop)]
pub struct Call {
    /// The name of the kind.
    pub name: Name,
    /// The values in brackets after it, or none if there is no bracket.
    pub arguments: Expressions,
}

/// A name with the value assigned to it.
#[derive(Debug, Drop)]
pub struct Assignment {
    /// The owner of the value: an input, an output or a property.
    pub name: Name,
    /// The value after the equals sign.
    pub value: Expression,
}

/// A value, and the test that it has to pass.
#[derive(Debug, Drop)]
pub struct Condition {
    /// The value that is tested when the task is realised.
    pub value: Expression,
    /// The test, with its text arguments.
    pub test: Function,
}

/// Files that a task reads.
#[derive(Debug, Drop)]
pub struct InputFiles {
    /// The name of the file property in its task.
    pub name: Name,
    /// Actions are notified of what changed since the last run.
    pub incremental: bool,
    /// Without any file the task has nothing to do.
    pub skip_when_empty: bool,
    /// Only the last segment of a file's place counts.
    pub name_only: bool,
    /// The roots, at least one.
    pub from: Expressions,
    /// The patterns that include files, or none if all are included.
    pub include: Texts,
    /// The patterns that exclude files.
    pub exclude: Texts,
}

/// A clause of a task.
#[derive(Debug, Drop)]
pub enum Clause {
    /// `input N = V`: a value that the actions see under this name.
    Input(Assignment),
    /// `inputFiles N from V`: files that the actions read.
    InputFiles(InputFiles),
    /// `outputFile N = V`: one file that the task makes, at this place.
    OutputFile(Assignment),
    /// `outputDir N = V`: the task makes all files under this place.
    OutputDir(Assignment),
    /// Tasks that run before this one, at least one.
    DependsOn(Texts),
    /// Tasks that run before this one where both run, at least one.
    MustRunAfter(Texts),
    /// Tasks that run after this one, at least one.
    FinalizedBy(Texts),
    /// An action that runs before those of the task.
    DoFirst(Call),
    /// An action that runs after those of the task.
    DoLast(Call),
    /// The task is skipped if the value fails the test.
    OnlyIf(Condition),
    /// The task is not up to date if the value fails the test, and its execution is not
    /// incremental.
    UpToDateWhen(Condition),
    /// The task is skipped if the value is not true.
    Enabled(Expression),
}

/// The clauses of a task, in their order.
#[derive(Debug, Drop)]
pub struct Block {
    clauses: Vec<Clause>,
}

impl Model for Block {
    ghost use Rattle.std.specs.Prelude.{List};
    ghost use Rattle.std.specs.Coded.{codes};
    ghost use Rattle.gb_script.specs.Coding.{tree_code};
    ghost use Rattle.gb_script.specs.declared.script.Clause.{Clause};

    ghost Value = { List Clause };

    ghost coded = { Prim.hlevel (codes, tree_code) };

    ghost view = { λ b. b.clauses.items };
}

impl Block {
    ghost use Rattle.std.specs.Prelude.{◌≡◌};

    /// These clauses in their order.
    pub fn new(clauses: Vec<Clause>) -> Block
        ensures { result ≡ clauses.items }
    {
        Block { clauses }
    }

    /// The clauses in their order.
    pub fn clauses(&self) -> &[Clause]
        ensures { result.now ≡ self.now }
    {
        self.clauses.as_slice()
    }
}

/// A new task.
#[derive(Debug, Drop)]
pub struct Registration {
    /// The name of the task in its project.
    pub name: Name,
    /// The kind after the colon.
    pub action: Option<Call>,
    /// The clauses in braces.
    pub block: Block,
}

/// More clauses for a task.
#[derive(Debug, Drop)]
pub struct Configuration {
    /// The name of a task of the project.
    pub name: Name,
    /// The clauses in braces, which come after those that it has.
    pub block: Block,
}

/// A statement of a script.
#[derive(Debug, Drop)]
pub enum Statement {
    /// The tasks that run if an invocation names none, at least one.
    DefaultTasks(Texts),
    /// A new property.
    Property(Name),
    /// `set N = V`: the value of a property from this statement on.
    Set(Assignment),
    /// `convention N = V`: its value if it is not set.
    Convention(Assignment),
    /// `unset N`: the property falls back to its convention.
    Unset(Name),
    /// `disallowChanges N`: the property is final from this statement on (35).
    DisallowChanges(Name),
    /// `register N { .. }`: a new task of the project.
    Register(Registration),
    /// `named N { .. }`: more clauses for a task of the project.
    Named(Configuration),
}

/// The statements of a script, in their order.
#[derive(Debug, Drop)]
pub struct Script {
    statements: Vec<Statement>,
}

impl Model for Script {
    ghost use Rattle.std.specs.Prelude.{List};
    ghost use Rattle.std.specs.Coded.{codes};
    ghost use Rattle.gb_script.specs.Coding.{tree_code};
    ghost use Rattle.gb_script.specs.declared.script.Statement.{Statement};

    ghost Value = { List Statement };

    ghost coded = { Prim.hlevel (codes, tree_code) };

    ghost view = { λ s. s.statements.items };
}

impl Script {
    ghost use Rattle.std.specs.Prelude.{◌≡◌};

    /// These statements in their order.
    pub fn new(statements: Vec<Statement>) -> Script
        ensures { result ≡ statements.items }
    {
        Script { statements }
    }

    /// The statements in their order.
    pub fn statements(&self) -> &[Statement]
        ensures { result.now ≡ self.now }
    {
        self.statements.as_slice()
    }
}

/// The project paths that settings include: for each `include` its texts, at least one, in their
/// order.
#[derive(Debug, Drop)]
pub struct Settings {
    includes: Vec<Texts>,
}

impl Model for Settings {
    ghost use Rattle.std.specs.Prelude.{List, ℕ};

    ghost Value = { List (List (List ℕ)) };

    ghost view = { λ s. s.includes.items };
}

impl Settings {
    ghost use Rattle.std.specs.Prelude.{◌≡◌};

    /// These `include` lines in their order.
    pub fn new(includes: Vec<Texts>) -> Settings
        ensures { result ≡ includes.items }
    {
        Settings { includes }
    }

    /// The texts of each `include`, in the order of the lines.
    pub fn includes(&self) -> &[Texts]
        ensures { result.now ≡ self.now }
    {
        self.includes.as_slice()
    }
}
