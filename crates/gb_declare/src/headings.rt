//! Names that clauses are about, in one form each.
ghost use Rattle.std.specs.Prelude.{◌≡◌, [], OnOk, option_map};
ghost use Rattle.std.specs.Option.{option_copied};
ghost use Rattle.gb_declare.specs.Declaring.{heading};
ghost use Rattle.gb_declare.specs.Headings.{clashes, noted, word_in, words_in};

use crate::joining::put;
use gb_core::name::Name;
use gb_script::script::Clause;
use std::alloc::AllocError;
use std::collections::BTreeMap;

/// A clause about each name.
pub type ByName<'a> = BTreeMap<Name, &'a Clause>;

/// The name that a clause is about.
fn subject(clause: &Clause) -> Option<&Name>
    ensures { option_copied result ≡ option_map (λ h. h.0) (heading clause.now) }
{
    match clause {
        Clause::Input(input) => Some(&input.name),
        Clause::InputFiles(files) => Some(&files.name),
        Clause::OutputFile(output) => Some(&output.name),
        Clause::OutputDir(output) => Some(&output.name),
        _ => None,
    }
}

/// The word with which a clause about a name begins.
fn word(clause: &Clause) -> &'static str
    ensures { result.now ≡ word_in (heading clause.now) }
{
    match clause {
        Clause::Input(_) => "input",
        Clause::InputFiles(_) => "inputFiles",
        Clause::OutputFile(_) => "outputFile",
        Clause::OutputDir(_) => "outputDir",
        _ => "",
    }
}

/// Whether another word is noted for the name that a clause is about.
pub(crate) fn clashes(words: &ByName<'_>, clause: &Clause) -> bool
    ensures { result ≡ clashes (words_in words.now) (heading clause.now) }
{
    let Some(name) = subject(clause) else {
        return false;
    };
    match words.get(name) {
        Some(earlier) => word(*earlier) != word(clause),
        None => false,
    }
}

/// Notes the word of a clause.
pub fn note<'a>(words: &mut ByName<'a>, clause: &'a Clause) -> Result<(), AllocError>
    ensures { OnOk result (words_in words.new ≡ noted (words_in words.old) (heading clause.now)) }
{
    if let Some(name) = subject(clause) {
        put(words, name, clause)?;
    }
    Ok(())
}
