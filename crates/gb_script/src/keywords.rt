//! The words that the notation gives a meaning to.
ghost use Rattle.std.specs.Prelude.{◌≡◌};
ghost use Rattle.gb_script.specs.Words.{meaning_in, source_words, step_words, clause_words, statement_words};

/// A word that is a source of its own or begins one. No property has such a name.
#[derive(Clone, Copy)]
pub enum SourceWord {
    /// `true`, the flag.
    True,
    /// `false`, the flag.
    False,
    /// `dir`, a folder of the project.
    Dir,
    /// `file`, a file of the project.
    File,
    /// `buildDir`, the folder of build outputs.
    BuildDir,
    /// `gradleProperty`, the value that an invocation gives under a name.
    GradleProperty,
    /// `task`, a task by its name or its path.
    Task,
}

/// The meaning of the word where a value begins, if it is reserved.
pub fn source_word(word: &str) -> Option<SourceWord>
    ensures { result ≡ meaning_in source_words word.now }
{
    match word {
        "true" => Some(SourceWord::True),
        "false" => Some(SourceWord::False),
        "dir" => Some(SourceWord::Dir),
        "file" => Some(SourceWord::File),
        "buildDir" => Some(SourceWord::BuildDir),
        "gradleProperty" => Some(SourceWord::GradleProperty),
        "task" => Some(SourceWord::Task),
        _ => None,
    }
}

/// A word that begins a step.
#[derive(Clone, Copy)]
pub enum StepWord {
    /// `map`, the result of a function on a value.
    Map,
    /// `flatMap`, the output that a function chooses by a value.
    FlatMap,
    /// `zip`, the result of a function on two values.
    Zip,
    /// `orElse`, another value where there is none.
    OrElse,
}

/// The meaning of the word after a dot, if it begins a step.
pub fn step_word(word: &str) -> Option<StepWord>
    ensures { result ≡ meaning_in step_words word.now }
{
    match word {
        "map" => Some(StepWord::Map),
        "flatMap" => Some(StepWord::FlatMap),
        "zip" => Some(StepWord::Zip),
        "orElse" => Some(StepWord::OrElse),
        _ => None,
    }
}

/// A word that orders a task before or after others.
#[derive(Clone, Copy)]
pub enum OrderWord {
    /// `dependsOn`, before this task and always with it.
    DependsOn,
    /// `mustRunAfter`, before this task where both run.
    MustRunAfter,
    /// `finalizedBy`, after this task and always with it.
    FinalizedBy,
}

/// A word that sets what a task does or when it runs.
#[derive(Clone, Copy)]
pub enum RunWord {
    /// `doFirst`, an action before all others.
    DoFirst,
    /// `doLast`, an action after all others.
    DoLast,
    /// `onlyIf`, when the task is not skipped.
    OnlyIf,
    /// `upToDateWhen`, when the task may be up to date.
    UpToDateWhen,
    /// `enabled`, whether the task is not skipped.
    Enabled,
}

/// A word that begins a clause.
#[derive(Clone, Copy)]
pub enum ClauseWord {
    /// `input`, a value that actions see.
    Input,
    /// `inputFiles`, files that actions read.
    InputFiles,
    /// `outputFile`, one file that the task makes.
    OutputFile,
    /// `outputDir`, a folder of files that the task makes.
    OutputDir,
    /// One of the ordering words.
    Order(OrderWord),
    /// One of the words for what it does or when it runs.
    Run(RunWord),
}

/// The meaning of the word in the braces of a task, if it begins a clause.
pub fn clause_word(word: &str) -> Option<ClauseWord>
    ensures { result ≡ meaning_in clause_words word.now }
{
    match word {
        "input" => Some(ClauseWord::Input),
        "inputFiles" => Some(ClauseWord::InputFiles),
        "outputFile" => Some(ClauseWord::OutputFile),
        "outputDir" => Some(ClauseWord::OutputDir),
        "dependsOn" => Some(ClauseWord::Order(OrderWord::DependsOn)),
        "mustRunAfter" => Some(ClauseWord::Order(OrderWord::MustRunAfter)),
        "finalizedBy" => Some(ClauseWord::Order(OrderWord::FinalizedBy)),
        "doFirst" => Some(ClauseWord::Run(RunWord::DoFirst)),
        "doLast" => Some(ClauseWord::Run(RunWord::DoLast)),
        "onlyIf" => Some(ClauseWord::Run(RunWord::OnlyIf)),
        "upToDateWhen" => Some(ClauseWord::Run(RunWord::UpToDateWhen)),
        "enabled" => Some(ClauseWord::Run(RunWord::Enabled)),
        _ => None,
    }
}

/// A word that begins a statement about a property.
#[derive(Clone, Copy)]
pub enum PropertyWord {
    /// `property`, a new one.
    Declare,
    /// `set`, its value.
    Set,
    /// `convention`, its value where it is not set.
    Convention,
    /// `unset`, back to its convention.
    Unset,
    /// `disallowChanges`, final from there on.
    DisallowChanges,
}

/// A word that begins a statement.
#[derive(Clone, Copy)]
pub enum StatementWord {
    /// `defaultTasks`, the tasks that run if an invocation names no task.
    DefaultTasks,
    /// One of the words of properties.
    Property(PropertyWord),
    /// `register`, a new task.
    Register,
    /// `named`, more of a task.
    Named,
}

/// The meaning of the word at the front of a statement, if it begins one.
pub fn statement_word(word: &str) -> Option<StatementWord>
    ensures { result ≡ meaning_in statement_words word.now }
{
    match word {
        "defaultTasks" => Some(StatementWord::DefaultTasks),
        "property" => Some(StatementWord::Property(PropertyWord::Declare)),
        "set" => Some(StatementWord::Property(PropertyWord::Set)),
        "convention" => Some(StatementWord::Property(PropertyWord::Convention)),
        "unset" => Some(StatementWord::Property(PropertyWord::Unset)),
        "disallowChanges" => Some(StatementWord::Property(PropertyWord::DisallowChanges)),
        "register" => Some(StatementWord::Register),
        "named" => Some(StatementWord::Named),
        _ => None,
    }
}
