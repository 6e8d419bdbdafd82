//! The contents of one clause of a task.
ghost use Rattle.std.specs.Prelude.{◌≡◌, [], option_map, unwrap_or};
ghost use Rattle.std.specs.Option.{option_copied};
ghost use Rattle.gb_declare.specs.Joined.{depends_on_in, enabled_in, files_in, finalized_by_in, first_in};
ghost use Rattle.gb_declare.specs.Joined.{last_in, must_run_after_in, only_if_in, output_in};
ghost use Rattle.gb_declare.specs.Joined.{up_to_date_when_in, value_in};

use gb_action::output_files::Form;
use gb_core::text::Texts;
use gb_script::script::{Assignment, Call, Clause, Condition, InputFiles};
use gb_script::script_expression::Expression;

/// An input that is a value.
pub fn value_in(clause: &Clause) -> Option<&Assignment>
    ensures { option_map (λ input. (input.now.name, input.now.value)) result ≡ value_in clause.now }
{
    match clause {
        Clause::Input(input) => Some(input),
        _ => None,
    }
}

/// An input that is files.
pub fn files_in(clause: &Clause) -> Option<&InputFiles>
    ensures { option_map (λ files. (files.now.name, files.now)) result ≡ files_in clause.now }
{
    match clause {
        Clause::InputFiles(files) => Some(files),
        _ => None,
    }
}

/// An output.
pub fn output_in(clause: &Clause) -> Option<(Form, &Assignment)>
    ensures { option_map (λ output. (output.1.now.name, (output.0, output.1.now.value))) result ≡
        output_in clause.now }
{
    match clause {
        Clause::OutputFile(output) => Some((Form::File, output)),
        Clause::OutputDir(output) => Some((Form::Dir, output)),
        _ => None,
    }
}

/// An action added before the others.
pub fn first_in(clause: &Clause) -> Option<&Call>
    ensures { option_copied result ≡ first_in clause.now }
{
    match clause {
        Clause::DoFirst(call) => Some(call),
        _ => None,
    }
}

/// An action added after the others.
pub fn last_in(clause: &Clause) -> Option<&Call>
    ensures { option_copied result ≡ last_in clause.now }
{
    match clause {
        Clause::DoLast(call) => Some(call),
        _ => None,
    }
}

/// A test without which the task is skipped.
pub fn only_if_in(clause: &Clause) -> Option<&Condition>
    ensures { option_copied result ≡ only_if_in clause.now }
{
    match clause {
        Clause::OnlyIf(condition) => Some(condition),
        _ => None,
    }
}

/// A test without which the task is not up to date.
pub fn up_to_date_when_in(clause: &Clause) -> Option<&Condition>
    ensures { option_copied result ≡ up_to_date_when_in clause.now }
{
    match clause {
        Clause::UpToDateWhen(condition) => Some(condition),
        _ => None,
    }
}

/// A flag without which the task is skipped.
pub fn enabled_in(clause: &Clause) -> Option<&Expression>
    ensures { option_copied result ≡ enabled_in clause.now }
{
    match clause {
        Clause::Enabled(value) => Some(value),
        _ => None,
    }
}

pub(crate) fn depends_on_in(clause: &Clause) -> Option<&Texts>
    ensures { unwrap_or (option_copied result) [] ≡ depends_on_in clause.now }
{
    match clause {
        Clause::DependsOn(texts) => Some(texts),
        _ => None,
    }
}

pub(crate) fn must_run_after_in(clause: &Clause) -> Option<&Texts>
    ensures { unwrap_or (option_copied result) [] ≡ must_run_after_in clause.now }
{
    match clause {
        Clause::MustRunAfter(texts) => Some(texts),
        _ => None,
    }
}

pub(crate) fn finalized_by_in(clause: &Clause) -> Option<&Texts>
    ensures { unwrap_or (option_copied result) [] ≡ finalized_by_in clause.now }
{
    match clause {
        Clause::FinalizedBy(texts) => Some(texts),
        _ => None,
    }
}
