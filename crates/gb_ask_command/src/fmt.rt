//! `fmt`: scripts in one layout, printed, written or compared.
ghost use Rattle.std.specs.Prelude.{◌≡◌, ◌⊎◌, ◌++◌, ◌||◌, ℕ, List, [], IfErr, IfOk, IfSome, Err, Ok};
ghost use Rattle.std.specs.Prelude.{Result, bytes_eq, codes, eqb, false, if◌then◌else◌, length, map, not};
ghost use Rattle.std.specs.Prelude.{string_bytes, true};
ghost use Rattle.std.specs.List.{ends_with};
ghost use Rattle.std.specs.Io.KnownBytes.{Appends};
ghost use Rattle.gb_core.specs.Place.{is_place};
ghost use Rattle.gb_folder.specs.Calls.{Requests, Call, Reads, answered};
ghost use Rattle.gb_folder.specs.Device.{IsCalled, Leads};
ghost use Rattle.gb_folder.specs.Each.{Each, Ended};
ghost use Rattle.gb_folder.specs.Files.{is_empty};
ghost use Rattle.gb_printer.specs.Printing.{Prints};
ghost use Rattle.gb_report.specs.Report.{line};
ghost use Rattle.gb_ask_command.specs.Fmt.{Formats, FormatsAt, IsText, IsTreated, Replaces, Shows, Treats};
ghost use Rattle.gb_ask_command.specs.Fmt.{TreatsText, answer_at, bytes_in, end_text, fault_at};
ghost use Rattle.gb_ask_command.specs.Fmt.{fault_in, fmt_status, heading, is_headed, is_input, is_settings};
ghost use Rattle.gb_ask_command.specs.Fmt.{may_write, mode_as, named_after, script_in, string_in};

use crate::arguments::Mode;
use gb_answer::answer::refusal_text;
use gb_core::place::{Place, PlaceFault};
use gb_core::text::Text;
use gb_folder::faults::fault_of;
use gb_folder::folder::{Folder, FolderFault};
use gb_format::{format_script, format_settings};
use gb_picture::shown::push_shown;
use gb_printer::printer::Printer;
use gb_report::fault::Fault;
use gb_script::MAX_SCRIPT;
use gb_script::fault::ScriptFault;
use std::alloc::{AllocError, Global};

/// Processes the named files of a folder, one after another, up to the first that cannot be
/// processed: each is read and formatted, and then printed, written if it differs, or named if it
/// differs. `-` is the input; it is printed, or compared. The exit status is 0; it is 1 if a file
/// could not be processed, or was compared and differs. If not all output could be printed, there
/// is none.
pub fn run<F: Folder, W: Printer>(
    alloc: Global,
    folder: &mut F,
    mode: Mode,
    names: &[String],
    input: &[u8],
    writer: &mut W,
) -> Option<u8>
    // The only requested changes write formatted texts at these places, if they are to be written.
    ensures requests { Requests F.device (may_write mode (map string_bytes names.now))
        folder.old folder.new }
    // Over any folder: these calls led from the old folder to the new one. With them the files were
    // processed in their order, up to the first fault; the output for them is printed, and then the
    // fault.
    ensures treated { (calls : List Call) × (made : List ℕ) × (ended : Ended Fault)
        × Leads F.device folder.old calls folder.new
        × Each (IsTreated mode (is_headed mode (length names.now)) input.now) names.now calls made ended
        × Prints W.contents W.whole (made ++ end_text ended) writer.old writer.new
        × IfSome result (λ status.
        Appends (W.contents writer.old) (W.contents writer.new) (made ++ end_text ended)
        × (status ≡ fmt_status mode made ended)) }
{
    let mut any = false;
    let ended = treat_all(alloc, folder, mode, names, input, writer, &mut any);
    let status = status_of(mode, any, &ended);
    print_end(alloc, writer, &ended);
    drop(ended);
    if writer.is_whole() {
        Some(status)
    } else {
        None
    }
}

/// The exit status, given whether output was printed for the files, and how processing them ended.
fn status_of(mode: Mode, any: bool, ended: &Result<(), Fault>) -> u8
    ensures { (made : List ℕ) → any ≡ not (is_empty made) → result ≡ fmt_status mode made ended.now }
{
    match (ended, mode) {
        (Err(_), _) => 1,
        (Ok(()), Mode::Checks) => { if any { 1 } else { 0 } }
        (Ok(()), Mode::Prints | Mode::Writes) => 0,
    }
}

/// Prints the refusal, if there is one.
fn print_end<W: Printer>(alloc: Global, writer: &mut W, ended: &Result<(), Fault>)
    ensures { Prints W.contents W.whole (end_text ended.now) writer.old writer.new }
{
    match ended {
        Ok(()) => {}
        Err(fault) => print_refusal(alloc, writer, fault),
    }
}

fn print_refusal<W: Printer>(alloc: Global, writer: &mut W, fault: &Fault)
    ensures { Prints W.contents W.whole (end_text (Err fault.now)) writer.old writer.new }
{
    match refusal_text(alloc, fault) {
        Ok(text) => writer.print(text.as_slice()),
        Err(_) => writer.give_up(),
    }
}

/// Processes the files, and notes whether output was printed for them.
fn treat_all<F: Folder, W: Printer>(
    alloc: Global,
    folder: &mut F,
    mode: Mode,
    names: &[String],
    input: &[u8],
    writer: &mut W,
    any: &mut bool,
) -> Result<(), Fault>
    ensures { (calls : List Call) × (made : List ℕ) × Leads F.device folder.old calls folder.new
        × Each (IsTreated mode (is_headed mode (length names.now)) input.now) names.now calls made result
        × Prints W.contents W.whole made writer.old writer.new
        × (any.new ≡ (any.old || not (is_empty made))) }
{
    let headed = is_headed(mode, names);
    for name in names {
        treat_one(alloc, folder, mode, headed, name, input, writer, any)?;
    }
    Ok(())
}

/// Processes one of the files.
fn treat_one<F: Folder, W: Printer>(
    alloc: Global,
    folder: &mut F,
    mode: Mode,
    headed: bool,
    name: &String,
    input: &[u8],
    writer: &mut W,
    any: &mut bool,
) -> Result<(), Fault>
    ensures { (calls : List Call) × (made : List ℕ) × Leads F.device folder.old calls folder.new
        × IsTreated mode headed input.now name.now calls made result
        × Prints W.contents W.whole made writer.old writer.new
        × (any.new ≡ (any.old || not (is_empty made))) }
{
    let text = treat(alloc, folder, mode, headed, name, input)?;
    print_noted(writer, any, &text);
    Ok(())
}

/// Prints a text, and notes whether there is something in it.
fn print_noted<W: Printer>(writer: &mut W, any: &mut bool, text: &String)
    ensures prints { Prints W.contents W.whole (string_bytes text.now) writer.old writer.new }
    ensures notes { any.new ≡ (any.old || not (is_empty (string_bytes text.now))) }
{
    note(any, text.as_bytes());
    writer.print(text.as_bytes());
}

/// Notes whether there is something in a text.
fn note(any: &mut bool, text: &[u8])
    ensures { any.new ≡ (any.old || not (is_empty text.now)) }
{
    if !text.is_empty() {
        *any = true;
    }
}

/// Whether each of these files has a heading.
fn is_headed(mode: Mode, names: &[String]) -> bool
    ensures { result ≡ is_headed mode (length names.now) }
{
    match mode {
        Mode::Prints => names.len() > 1,
        Mode::Checks | Mode::Writes => false,
    }
}

/// Processes the file with a name, or the input, and returns the output for it.
fn treat<F: Folder>(
    alloc: Global,
    folder: &mut F,
    mode: Mode,
    headed: bool,
    name: &String,
    input: &[u8],
) -> Result<String, Fault>
    ensures { (calls : List Call) × Leads F.device folder.old calls folder.new
        × Treats mode headed input.now (string_bytes name.now) calls (string_in result) }
{
    let place = place_of(alloc, name)?;
    let text = text_at(alloc, folder, &place, input)?;
    treat_text(alloc, folder, mode, headed, &place, text.as_slice())
}

fn place_of(alloc: Global, name: &String) -> Result<Place, Fault>
    ensures place { IfOk result (λ place. place ≡ string_bytes name.now) }
    ensures fault { IfErr result (λ fault. (fault ≡ Fault.OutOfMemory)
        ⊎ ((is_place (string_bytes name.now) ≡ false)
        × (fault ≡ Fault.BadPlace (string_bytes name.now)))) }
{
    match Place::read(alloc, name.as_str()) {
        Ok(place) => Ok(place),
        Err(PlaceFault::OutOfMemory) => Err(Fault::OutOfMemory),
        Err(PlaceFault::BadPlace) => Err(Fault::BadPlace(Text::from_str(alloc, name.as_str())?)),
    }
}

/// The text of the file at a place, or of the input.
fn text_at<F: Folder>(
    alloc: Global,
    folder: &mut F,
    place: &Place,
    input: &[u8],
) -> Result<Vec<u8>, Fault>
    ensures { (calls : List Call) × Leads F.device folder.old calls folder.new
        × IsText input.now place.now calls (bytes_in result) }
{
    if is_input(place) {
        copied(alloc, input)
    } else {
        read_at(alloc, folder, place)
    }
}

fn is_input(place: &Place) -> bool
    ensures { result ≡ is_input place.now }
{
    matches!(place.as_str(), "-")
}

fn copied(alloc: Global, input: &[u8]) -> Result<Vec<u8>, Fault>
    ensures { (bytes_in result ≡ Ok input.now) ⊎ (bytes_in result ≡ Err Fault.OutOfMemory) }
{
    Ok(input.to_vec(alloc)?)
}

/// The file at a place. The place is copied first, so that a fault there can be reported however
/// little memory is left.
fn read_at<F: Folder>(alloc: Global, folder: &mut F, place: &Place) -> Result<Vec<u8>, Fault>
    ensures { ((bytes_in result ≡ Err Fault.OutOfMemory) × (folder.new ≡ folder.old))
        ⊎ ((answer : Result (List ℕ) FolderFault)
        × IsCalled F.device folder.old (Reads place.now 1048576 answer) folder.new
        × (bytes_in result ≡ answer_at place.now answer)) }
{
    let at = place.copy()?;
    let answer = folder.read(alloc, place, MAX_SCRIPT as u64);
    answered_at(answer, at)
}

fn answered_at(answer: Result<Vec<u8>, FolderFault>, place: Place) -> Result<Vec<u8>, Fault>
    ensures { bytes_in result ≡ answer_at place (answered answer) }
{
    match answer {
        Ok(bytes) => Ok(bytes),
        Err(fault) => Err(fault_at(fault, place)),
    }
}

/// The fault of a folder while a script was read or written.
fn fault_at(fault: FolderFault, place: Place) -> Fault
    ensures { result ≡ fault_at place fault }
{
    match fault {
        FolderFault::TooLarge => Fault::TooLong(place),
        other => fault_of(other, place),
    }
}

/// Processes the text of a place, and returns the output for it.
fn treat_text<F: Folder>(
    alloc: Global,
    folder: &mut F,
    mode: Mode,
    headed: bool,
    place: &Place,
    text: &[u8],
) -> Result<String, Fault>
    ensures { (calls : List Call) × Leads F.device folder.old calls folder.new
        × TreatsText mode headed place.now text.now calls (string_in result) }
{
    let out = formatted_at(alloc, place, text)?;
    show(
        alloc,
        folder,
        mode_at(place, mode),
        headed,
        place,
        text,
        out,
    )
}

/// The input is never written.
fn mode_at(place: &Place, mode: Mode) -> Mode
    ensures { result ≡ mode_as (is_input place.now) mode }
{
    match mode {
        Mode::Writes if is_input(place) => Mode::Prints,
        other => other,
    }
}

/// The formatted text of the settings or the script at a place.
fn formatted_at(alloc: Global, place: &Place, text: &[u8]) -> Result<String, Fault>
    ensures { FormatsAt place.now text.now (string_in result) }
{
    match formatted_as(alloc, is_settings(place), text) {
        Ok(out) => Ok(out),
        Err(fault) => Err(fault_in(fault, place.copy()?)),
    }
}

/// The formatted text of settings or of a script.
fn formatted_as(alloc: Global, is_settings: bool, text: &[u8]) -> Result<String, ScriptFault>
    ensures { Formats is_settings text.now (script_in result) }
{
    if is_settings {
        format_settings(alloc, text)
    } else {
        format_script(alloc, text)
    }
}

/// Whether the file at this place is settings, not a script.
fn is_settings(place: &Place) -> bool
    ensures { result ≡ is_settings place.now }
{
    is_settings_name(place.as_str()) || ends_so(place.as_str())
}

fn is_settings_name(name: &str) -> bool
    ensures { result ≡ bytes_eq name.now (codes "settings.gb") }
{
    matches!(name, "settings.gb")
}

/// Whether it is the place of settings in a folder.
fn ends_so(place: &str) -> bool
    ensures { result ≡ ends_with eqb place.now (codes "/settings.gb") }
{
    place.ends_with("/settings.gb")
}

/// The fault of a text, with the place of its file.
fn fault_in(fault: ScriptFault, place: Place) -> Fault
    ensures { result ≡ fault_in place fault }
{
    match fault {
        ScriptFault::OutOfMemory => Fault::OutOfMemory,
        ScriptFault::Syntax(number) => Fault::Syntax(place, number),
        ScriptFault::TooLong => Fault::TooLong(place),
        ScriptFault::TooDeep(number) => Fault::TooDeep(place, number),
        ScriptFault::NotUtf8 => Fault::NotUtf8(place),
    }
}

/// Shows a formatted text: returns the output for it.
fn show<F: Folder>(
    alloc: Global,
    folder: &mut F,
    mode: Mode,
    headed: bool,
    place: &Place,
    text: &[u8],
    out: String,
) -> Result<String, Fault>
    ensures { (calls : List Call) × Leads F.device folder.old calls folder.new
        × (((calls ≡ []) × (string_in result ≡ Err Fault.OutOfMemory))
        ⊎ Shows mode headed place.now text.now (string_bytes out) calls (string_in result)) }
{
    match mode {
        Mode::Prints => below_heading(alloc, headed, place, out),
        Mode::Checks => name_if(alloc, place, text, &out),
        Mode::Writes => replace_if(alloc, folder, place, text, &out),
    }
}

/// A text under the heading of its place, if there is one.
fn below_heading(alloc: Global, headed: bool, place: &Place, out: String) -> Result<String, Fault>
    ensures { (string_in result ≡ Err Fault.OutOfMemory)
        ⊎ (string_in result ≡ Ok (heading headed place.now ++ string_bytes out)) }
{
    if headed {
        Ok(headed_text(alloc, place, out.as_str())?)
    } else {
        Ok(out)
    }
}

fn headed_text(alloc: Global, place: &Place, out: &str) -> Result<String, AllocError>
    ensures { IfOk result (λ text. string_bytes text ≡ heading true place.now ++ out.now) }
{
    let mut text = String::from_str(alloc, "==> ")?;
    push_shown(alloc, &mut text, place.as_str())?;
    text.push('\n')?;
    text.push_str(out)?;
    Ok(text)
}

/// The line of a place if its text differs.
fn name_if(alloc: Global, place: &Place, text: &[u8], out: &String) -> Result<String, Fault>
    ensures { (string_in result ≡ Err Fault.OutOfMemory)
        ⊎ (string_in result
        ≡ Ok (if bytes_eq (string_bytes out.now) text.now then [] else line place.now)) }
{
    if is_same(out, text) {
        Ok(String::new(alloc))
    } else {
        Ok(line_of(alloc, place)?)
    }
}

fn is_same(out: &String, text: &[u8]) -> bool
    ensures { result ≡ bytes_eq (string_bytes out.now) text.now }
{
    out.as_bytes() == text
}

fn line_of(alloc: Global, place: &Place) -> Result<String, AllocError>
    ensures { IfOk result (λ text. string_bytes text ≡ line place.now) }
{
    let mut text = String::from_str(alloc, place.as_str())?;
    text.push('\n')?;
    Ok(text)
}

/// Writes a formatted text if it differs, and names its place.
fn replace_if<F: Folder>(
    alloc: Global,
    folder: &mut F,
    place: &Place,
    text: &[u8],
    out: &String,
) -> Result<String, Fault>
    ensures { (calls : List Call) × Leads F.device folder.old calls folder.new
        × (((calls ≡ []) × (string_in result ≡ Err Fault.OutOfMemory))
        ⊎ Replaces (bytes_eq (string_bytes out.now) text.now) place.now (string_bytes out.now) calls
        (string_in result)) }
{
    if is_same(out, text) {
        Ok(String::new(alloc))
    } else {
        replace(alloc, folder, place, out)
    }
}

/// Writes a formatted text, and names its place. All memory is allocated before.
fn replace<F: Folder>(
    alloc: Global,
    folder: &mut F,
    place: &Place,
    out: &String,
) -> Result<String, Fault>
    ensures { (calls : List Call) × Leads F.device folder.old calls folder.new
        × (((calls ≡ []) × (string_in result ≡ Err Fault.OutOfMemory))
        ⊎ Replaces false place.now (string_bytes out.now) calls (string_in result)) }
{
    let named = line_of(alloc, place)?;
    let at = place.copy()?;
    let answer = folder.write(place, out.as_bytes(), MAX_SCRIPT as u64);
    named_after(answer, at, named)
}

fn named_after(
    answer: Result<(), FolderFault>,
    place: Place,
    named: String,
) -> Result<String, Fault>
    requires { string_bytes named ≡ line place }
    ensures { string_in result ≡ named_after place answer }
{
    match answer {
        Ok(()) => Ok(named),
        Err(fault) => Err(fault_at(fault, place)),
    }
}
