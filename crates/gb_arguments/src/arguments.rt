//! The arguments of a command line.
ghost use Rattle.std.specs.Prelude.{◌≡◌, ◌≢◌, ◌≤◌, ◌∷◌, [], None, false, if◌then◌else◌, IfErr, IfOk, IsTrue};
ghost use Rattle.std.specs.Prelude.{All, AllPairs, codes, length, map, string_bytes};
ghost use Rattle.clap.specs.Matches.{found_of};
ghost use Rattle.clap.specs.Simple.{app_of};
ghost use Rattle.clap.specs.Walk.{rows_of, rule_of};
ghost use Rattle.gb_core.specs.Name.{is_name};
ghost use Rattle.gb_arguments.specs.Command.{flag, flag_in, gb_command, is_refused};
ghost use Rattle.gb_arguments.specs.Command.{rows_in, texts_in, valued};
ghost use Rattle.gb_arguments.specs.Faults.{IsOfWords, ReportsFirst};
ghost use Rattle.gb_arguments.specs.Values.{AreLast, names_of, texts_after, values_faults};
ghost use Rattle.gb_arguments.specs.Words.{IsAsked, words_faults};

use crate::given_values::properties;
use clap::error::ErrorKind;
use clap::{Arg, ArgAction, ArgMatches, Command};
use gb_core::text::{Text, Texts};
use gb_report::fault::Fault;
use gb_report::report::Options;
use gb_semantics::events::{Invocation, Properties};
use std::alloc::{AllocError, Global};

/// The invocation that the arguments of a command line request. Each element is one argument in
/// UTF-8, and the program's name is not among them.
///
/// The errors, in this order: arguments that do not fit the command (96), more than 256 values of
/// `-P`, counted with repeated names (58), and the first `-P` with an invalid name (1). Memory may
/// run out at any point (3). An error leaves nothing: the arguments are consumed.
pub fn read(alloc: Global, words: Vec<String>) -> Result<Invocation, Fault>
    ensures asked { IfOk result (IsAsked (map string_bytes words.items)) }
    ensures faults { ReportsFirst (words_faults (map string_bytes words.items)) result }
    ensures only { IfErr result IsOfWords }
    ensures most { IfOk result (λ asked. length asked.properties ≤ 256) }
    ensures names { IfOk result (λ asked. All (λ name. IsTrue (is_name name)) (names_of asked.properties)) }
    ensures once { IfOk result (λ asked. AllPairs (λ one other. one ≢ other) (names_of asked.properties)) }
{
    let matches = found(alloc, words.as_slice())?;
    Ok(Invocation {
        properties: properties_found(alloc, &matches)?,
        requested: texts_found(alloc, &matches, "task")?,
        excluded: texts_found(alloc, &matches, "exclude")?,
        options: options_found(&matches),
    })
}

/// What `clap` finds in the arguments.
fn found<'a>(alloc: Global, words: &'a [String]) -> Result<ArgMatches<'a>, Fault>
    ensures rows { IfOk result (λ matches.
        rows_of (found_of matches) ≡ rows_in (map string_bytes words.entry.now)) }
    ensures faults { ReportsFirst
        (if is_refused (map string_bytes words.entry.now) then Fault.Usage ∷ [] else []) result }
    ensures only { IfErr result IsOfWords }
{
    match command(alloc)?.try_get_matches_from(words) {
        Ok(matches) => Ok(matches),
        Err(error) => match error.kind() {
            ErrorKind::OutOfMemory => Err(Fault::OutOfMemory),
            _ => Err(Fault::Usage),
        },
    }
}

/// The options of the command. There is no help option and no version option.
fn command<'a>(alloc: Global) -> Result<Command<'a>, AllocError>
    ensures { IfOk result (λ command. app_of command ≡ gb_command) }
{
    Command::new(alloc, "gb")
        .no_binary_name(true)
        .disable_help_flag(true)
        .disable_version_flag(true)
        .arg(valued(alloc, "exclude", 'x', "exclude-task"))?
        .arg(valued(alloc, "property", 'P', "project-prop"))?
        .arg(flag(alloc, "continue", "continue"))?
        .arg(flag(alloc, "rerun", "rerun-tasks"))?
        .arg(flag(alloc, "dry-run", "dry-run").short('m'))?
        .arg(Arg::new(alloc, "task").action(ArgAction::Append))
}

/// An option that takes a value each time it is used.
fn valued<'a>(alloc: Global, id: &'a str, short: char, long: &'a str) -> Arg<'a>
    ensures rule { rule_of result ≡ valued id.entry.now short long.entry.now }
    ensures own { result.global ≡ false }
{
    Arg::new(alloc, id)
        .short(short)
        .long(long)
        .action(ArgAction::Append)
}

/// An option without a value.
fn flag<'a>(alloc: Global, id: &'a str, long: &'a str) -> Arg<'a>
    ensures rule { rule_of result ≡ flag id.entry.now None long.entry.now }
    ensures own { result.global ≡ false }
{
    Arg::new(alloc, id).long(long).action(ArgAction::Count)
}

/// The values of properties that are found.
fn properties_found(alloc: Global, matches: &ArgMatches<'_>) -> Result<Properties, Fault>
    ensures last { IfOk result (AreLast (texts_in (codes "property") (rows_of (found_of matches.now)))) }
    ensures faults { ReportsFirst
        (values_faults (texts_in (codes "property") (rows_of (found_of matches.now)))) result }
    ensures only { IfErr result IsOfWords }
    ensures most { IfOk result (λ given. length given ≤ 256) }
    ensures names { IfOk result (λ given. All (λ name. IsTrue (is_name name)) (names_of given)) }
    ensures once { IfOk result (λ given. AllPairs (λ one other. one ≢ other) (names_of given)) }
{
    let texts = matches.get_strs("property").unwrap_or(&[]);
    properties(alloc, texts)
}

/// The texts that are found for an option, or as tasks.
fn texts_found(alloc: Global, matches: &ArgMatches<'_>, id: &str) -> Result<Texts, AllocError>
    ensures { IfOk result (λ texts. texts ≡ texts_in id.now (rows_of (found_of matches.now))) }
{
    let texts = matches.get_strs(id).unwrap_or(&[]);
    copy_texts(alloc, texts)
}

fn copy_texts(alloc: Global, texts: &[&str]) -> Result<Texts, AllocError>
    ensures { IfOk result (λ copied. copied ≡ texts_after texts.now) }
{
    let mut copied = Texts::new(alloc);
    for text in texts {
        copied.push(Text::from_str(alloc, text)?)?;
    }
    Ok(copied)
}

/// The flags that are found, once or more often.
fn options_found(matches: &ArgMatches<'_>) -> Options
    ensures keep_going { result.keep_going
        ≡ flag_in (codes "continue") (rows_of (found_of matches.now)) }
    ensures rerun { result.rerun ≡ flag_in (codes "rerun") (rows_of (found_of matches.now)) }
    ensures dry_run { result.dry_run ≡ flag_in (codes "dry-run") (rows_of (found_of matches.now)) }
{
    Options {
        keep_going: matches.get_count("continue") > 0,
        rerun: matches.get_count("rerun") > 0,
        dry_run: matches.get_count("dry-run") > 0,
    }
}
