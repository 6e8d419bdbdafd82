//! The lines of an input in their order.
ghost use Rattle.std.specs.Prelude.{◌≡◌, ◌⊎◌, ◌+◌, ◌-◌, ◌^◌, IfErr, IfOk, min};
ghost use Rattle.gb_answer.specs.Answer.{parts_of, refusal_text};
ghost use Rattle.gb_printer.specs.Printing.{Prints};
ghost use Rattle.gb_report.specs.declared.fault.Fault.TheVariants as faults;
ghost use Rattle.gb_lines.specs.declared.stop.Stop.TheVariants as stops;

use crate::answer_text::answer_text;
use crate::line::{Line, LineFault, read_line};
use crate::show::shown_files;
use crate::stop::Stop;
use gb_action::actions::Actions;
use gb_answer::answer::refusal_text;
use gb_answer::printing::print_rest;
use gb_arguments::arguments::read;
use gb_build::events::run_events;
use gb_build::invoking::invoke;
use gb_core::place::Place;
use gb_exec::listener::Recorder;
use gb_folder::folder::Folder;
use gb_folder::memory::MemoryFolder;
use gb_printer::page::Page;
use gb_printer::printer::Printer;
use gb_provider::transforms::Transforms;
use gb_registry::tables::Tables;
use gb_report::fault::Fault;
use gb_report::report::Report;
use gb_semantics::events::Event;
use std::alloc::{AllocError, Global};
use std::io::{ErrorKind, Read, Write};

/// The most bytes of an input: 64 MiB.
const MAX_INPUT: u64 = 67_108_864;

/// The bytes that are read at once.
const CHUNK: usize = 65_536;

/// Executes the lines of an input over an empty folder, and returns the exit status: 0 after the
/// last line, 2 after a bad line, and 1 where reading, writing or memory failed.
pub fn replay<A: Actions, T: Transforms, R: Read, W: Write>(
    alloc: Global,
    reader: &mut R,
    writer: &mut W,
    tables: &Tables<A, T>,
) -> u8 {
    let mut page = Page::new(writer);
    match try_replay(alloc, reader, &mut page, tables) {
        Ok(()) => 0,
        Err(Stop::BadLine(_)) => 2,
        Err(_) => 1,
    }
}

fn try_replay<A: Actions, T: Transforms, R: Read, P: Printer>(
    alloc: Global,
    reader: &mut R,
    printer: &mut P,
    tables: &Tables<A, T>,
) -> Result<(), Stop> {
    let input = read_input(alloc, reader)?;
    let taken = take_input(alloc, printer, tables, input.as_slice());
    if let Err(Stop::BadLine(number)) = taken {
        let text = bad_line_text(alloc, number)?;
        printer.print(text.as_slice());
    }
    printer.print(b"");
    is_printed(printer)?;
    taken
}

/// Fails where something could not be printed.
fn is_printed<P: Printer>(printer: &P) -> Result<(), Stop>
    ensures { IfErr result (λ stop. stop ≡ stops.Device) }
{
    if printer.is_whole() {
        Ok(())
    } else {
        Err(Stop::Device)
    }
}

/// The output for a bad line of this number.
fn bad_line_text(alloc: Global, number: u64) -> Result<Vec<u8>, AllocError>
    ensures { IfOk result (λ text. text.items ≡ refusal_text (faults.BadLine number)) }
{
    let fault = Fault::BadLine(number);
    let text = refusal_text(alloc, &fault);
    drop(fault);
    text
}

/// Reads all bytes, or one more than an input may have.
fn read_input<R: Read>(alloc: Global, reader: &mut R) -> Result<Vec<u8>, Stop> {
    let mut input = Vec::new(alloc);
    let mut chunk = vec![in alloc; 0u8; CHUNK]?;
    for _ in 0..=MAX_INPUT {
        match reader.read(chunk.as_mut_slice()) {
            Ok(0) => return Ok(input),
            Ok(read) => input.extend_from_slice(&chunk.as_slice()[..read])?,
            Err(error) if error.kind() == ErrorKind::Interrupted => {}
            Err(error) => return Err(Stop::from(error)),
        }
        if is_too_large(input.as_slice()) {
            return Ok(input);
        }
    }
    Err(Stop::Device)
}

fn is_too_large(input: &[u8]) -> bool {
    input.len() as u64 > MAX_INPUT
}

fn take_input<A: Actions, T: Transforms, P: Printer>(
    alloc: Global,
    printer: &mut P,
    tables: &Tables<A, T>,
    input: &[u8],
) -> Result<(), Stop> {
    if is_too_large(input) {
        return Err(Stop::BadLine(0));
    }
    let mut folder = MemoryFolder::new(alloc);
    let mut lines_before = 0u64;
    for line in input.split(|byte| *byte == b'\n') {
        take_line(alloc, &mut folder, printer, tables, line, lines_before)?;
        lines_before = lines_before.saturating_add(1);
    }
    Ok(())
}

/// Executes a line, with as many lines before it.
fn take_line<A: Actions, T: Transforms, F: Folder, P: Printer>(
    alloc: Global,
    folder: &mut F,
    printer: &mut P,
    tables: &Tables<A, T>,
    line: &[u8],
    lines_before: u64,
) -> Result<(), Stop> {
    match read_numbered(alloc, line, lines_before)? {
        Line::Empty => {}
        Line::Run(words) => build(alloc, folder, printer, tables, words),
        Line::Show(place) => printer.print(shown_files(alloc, folder, &place)?.as_slice()),
        Line::Put(place, bytes) => {
            edit(alloc, folder, printer, tables, Event::Put(place, bytes))?;
        }
        Line::Remove(place) => {
            edit(alloc, folder, printer, tables, Event::Remove(place))?;
        }
        Line::Lost => edit(alloc, folder, printer, tables, Event::Lost)?,
    }
    is_printed(printer)
}

/// Reads a line; its number, counted from 1, is reported where it is not valid.
fn read_numbered(alloc: Global, line: &[u8], lines_before: u64) -> Result<Line, Stop>
    ensures { IfErr result (λ stop. (stop ≡ stops.OutOfMemory)
        ⊎ (stop ≡ stops.BadLine (min (lines_before + 1) (2 ^ 64 - 1)))) }
{
    match read_line(alloc, line) {
        Ok(line) => Ok(line),
        Err(LineFault::BadLine) => Err(Stop::BadLine(lines_before.saturating_add(1))),
        Err(LineFault::OutOfMemory) => Err(Stop::OutOfMemory),
    }
}

/// Builds what the arguments request: the part of each task is printed as soon as its execution has
/// ended.
fn build<A: Actions, T: Transforms, F: Folder, P: Printer>(
    alloc: Global,
    folder: &mut F,
    printer: &mut P,
    tables: &Tables<A, T>,
    words: Vec<String>,
) {
    let answer = built(alloc, folder, printer, tables, words);
    print_rest(alloc, printer, &answer);
    drop(answer);
}

/// The answer to the arguments.
fn built<A: Actions, T: Transforms, F: Folder, P: Printer>(
    alloc: Global,
    folder: &mut F,
    printer: &mut P,
    tables: &Tables<A, T>,
    words: Vec<String>,
) -> Result<Report, Fault>
    ensures { Prints P.contents P.whole (parts_of result) printer.old printer.new }
{
    match read(alloc, words) {
        Ok(asked) => {
            let mut listeners: Vec<Recorder> = Vec::new(alloc);
            invoke(alloc, folder, tables, &asked, &mut listeners, printer)
        }
        Err(fault) => Err(fault),
    }
}

/// Executes an edit, and prints its output, if there is any.
fn edit<A: Actions, T: Transforms, F: Folder, P: Printer>(
    alloc: Global,
    folder: &mut F,
    printer: &mut P,
    tables: &Tables<A, T>,
    event: Event,
) -> Result<(), Stop> {
    let text = event_text(alloc, folder, tables, event)?;
    if !text.is_empty() {
        printer.print(text.as_slice());
    }
    Ok(())
}

/// Executes an event, and returns its output.
fn event_text<A: Actions, T: Transforms, F: Folder>(
    alloc: Global,
    folder: &mut F,
    tables: &Tables<A, T>,
    event: Event,
) -> Result<Vec<u8>, Stop> {
    let mut listeners: Vec<Recorder> = Vec::new(alloc);
    let answers = run_events(alloc, folder, tables, &[event], &mut listeners)?;
    match answers.as_slice().first() {
        Some(answer) => Ok(answer_text(alloc, answer)?),
        None => Ok(Vec::new(alloc)),
    }
}
