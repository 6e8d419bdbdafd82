//! The line of each finding.
ghost use Rattle.std.specs.Prelude.{◌≡◌, ◌++◌, IfOk, OnOk, string_bytes};
ghost use Rattle.std.specs.List.{flat_map};
ghost use Rattle.gb_check.specs.Findings.{unread_spot};
ghost use Rattle.gb_check.specs.Found.{cause_text, finding_text, findings_text, kind_text, line_text};
ghost use Rattle.gb_check.specs.Found.{spot_text, unread_text, unread_where};

use crate::findings::{Finding, Problem, Spot};
use gb_core::place::Place;
use gb_report::fault::Fault;
use std::alloc::{AllocError, Global};
use std::fmt::Write;

/// Adds a line for each of these findings.
pub fn push_findings(text: &mut String, found: &[Finding]) -> Result<(), AllocError>
    ensures { OnOk result
        (string_bytes text.new ≡ string_bytes text.old ++ findings_text found.now) }
{
    for finding in found {
        push_finding(text, finding)?;
    }
    Ok(())
}

fn push_finding(text: &mut String, finding: &Finding) -> Result<(), AllocError>
    ensures { OnOk result
        (string_bytes text.new ≡ string_bytes text.old ++ finding_text finding.now) }
{
    push_spot(text, &finding.spot)?;
    text.push_str(kind_text(&finding.cause))?;
    push_cause(text, &finding.cause)?;
    text.push('\n')
}

/// What a line says before the text of a warning.
fn kind_text(cause: &Problem) -> &'static str
    ensures { result.now ≡ kind_text cause.now }
{
    match cause {
        Problem::Fault(_) => "",
        _ => "warning: ",
    }
}

/// Adds what is found.
pub fn push_cause(text: &mut String, cause: &Problem) -> Result<(), AllocError>
    ensures { OnOk result (string_bytes text.new ≡ string_bytes text.old ++ cause_text cause.now) }
{
    match cause {
        Problem::Fault(fault) => write!(text, "{fault}"),
        Problem::Shared(first, second) => write!(text, "{first} and {second} read one folder"),
        Problem::Unneeded(root, maker) => {
            write!(
                text,
                "{root} overlaps an output of {maker}, which is not needed directly"
            )
        }
        Problem::Stale(maker, reader) => {
            write!(
                text,
                "where {maker} is skipped, {reader} reads its old output"
            )
        }
        Problem::Bare(root) => write!(text, "no file is at {root}"),
        Problem::Unread => write!(text, "nothing reads it"),
        Problem::Unregistered(path) => {
            write!(
                text,
                "a record of {path} is kept, which no script registers"
            )
        }
    }
}

fn push_spot(text: &mut String, spot: &Spot) -> Result<(), AllocError>
    ensures { OnOk result (string_bytes text.new ≡ string_bytes text.old ++ spot_text spot.now) }
{
    match spot {
        Spot::Line(script, line) => push_line(text, script, *line),
        Spot::Value(name) => write!(text, "-P{name}: "),
        Spot::Unknown => Ok(()),
    }
}

fn push_line(text: &mut String, script: &Place, line: u64) -> Result<(), AllocError>
    ensures { OnOk result (string_bytes text.new
        ≡ string_bytes text.old ++ line_text script.now line) }
{
    write!(text, "{script}:{line}: ")
}

/// The line of a fault for which scripts or arguments cannot be read: after its script and its
/// line, if it is the fault of a text.
pub fn unread_text(alloc: Global, fault: &Fault) -> Result<String, AllocError>
    ensures { IfOk result (λ text. string_bytes text ≡ unread_text fault.now) }
{
    let spot = unread_spot(fault)?;
    let mut text = String::new(alloc);
    push_unread(&mut text, &spot)?;
    writeln!(text, "{fault}")?;
    Ok(text)
}

fn push_unread(text: &mut String, spot: &Spot) -> Result<(), AllocError>
    ensures { OnOk result
        (string_bytes text.new ≡ string_bytes text.old ++ unread_where spot.now) }
{
    match spot {
        Spot::Unknown => text.push_str("REFUSED "),
        spot => push_spot(text, spot),
    }
}

/// The script and the line that the fault of a text names; its first line if it names none.
pub fn unread_spot(fault: &Fault) -> Result<Spot, AllocError>
    ensures { IfOk result (λ spot. spot ≡ unread_spot fault.now) }
{
    match fault {
        Fault::Syntax(script, line) | Fault::TooDeep(script, line) => {
            Ok(Spot::Line(script.copy()?, *line))
        }
        Fault::TooLong(script) | Fault::NotUtf8(script) => Ok(Spot::Line(script.copy()?, 1)),
        _ => Ok(Spot::Unknown),
    }
}
