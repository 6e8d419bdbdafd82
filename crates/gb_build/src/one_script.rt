//! Reads the texts of settings and scripts from their files.
ghost use Rattle.std.specs.Prelude.{◌≡◌, ◌⊎◌, Some, Ok, Err, IfOk, MatchResult};
ghost use Rattle.gb_folder.specs.Calls.{OnlyReads};
ghost use Rattle.gb_script.specs.Script.{HasMeaning, MeansAsSettings};
ghost use Rattle.gb_folder.specs.Changes.{is_at};
ghost use Rattle.gb_folder.specs.Faults.{Blames, BlamesOnly};
ghost use Rattle.gb_build.specs.Found.{WasParsed};
ghost use Rattle.gb_build.specs.Texts.{FileMeans, Reports, TextMeans, in_file, unread_at};

use gb_core::place::Place;
use gb_folder::calls::read;
use gb_folder::faults::fault_of;
use gb_folder::folder::{Folder, FolderFault};
use gb_report::fault::Fault;
use gb_script::fault::ScriptFault;
use gb_script::script::{Script, Settings};
use gb_script::{MAX_SCRIPT, read_script, read_settings};
use std::alloc::Global;

/// Reads the settings at a place. Where no file exists, they include nothing.
pub fn settings_at<F: Folder>(
    alloc: Global,
    folder: &mut F,
    place: Place,
) -> Result<Settings, Fault>
    ensures reads { OnlyReads F.device folder.old folder.new }
    ensures blame { Blames result (F.device.failures folder.old) (F.device.failures folder.new) }
    ensures blamed { BlamesOnly (is_at place) result }
    ensures said { F.device.faithful folder.new
        → Reports (TextMeans MeansAsSettings (F.device.contents folder.old).files place)
        (F.device.failures folder.old) (F.device.failures folder.new) result }
    // Over any folder: a call returned this text.
    ensures parsed { IfOk result (WasParsed F.device MeansAsSettings folder.old
        folder.new place) }
{
    match read(alloc, folder, &place, MAX_SCRIPT as u64) {
        Ok(bytes) => settings_in(alloc, bytes.as_slice(), place),
        Err(fault) => match fault {
            FolderFault::Missing => Ok(Settings::new(Vec::new(alloc))),
            other => Err(unread(other, place)),
        },
    }
}

/// Reads the script at a place. Where no file exists, it is empty.
pub fn script_at<F: Folder>(alloc: Global, folder: &mut F, place: Place) -> Result<Script, Fault>
    ensures reads { OnlyReads F.device folder.old folder.new }
    ensures blame { Blames result (F.device.failures folder.old) (F.device.failures folder.new) }
    ensures blamed { BlamesOnly (is_at place) result }
    ensures said { F.device.faithful folder.new
        → Reports (TextMeans HasMeaning (F.device.contents folder.old).files place)
        (F.device.failures folder.old) (F.device.failures folder.new) result }
    // Over any folder: a call returned this text.
    ensures parsed { IfOk result (WasParsed F.device HasMeaning folder.old folder.new
        place) }
{
    match read(alloc, folder, &place, MAX_SCRIPT as u64) {
        Ok(bytes) => script_in(alloc, bytes.as_slice(), place),
        Err(fault) => match fault {
            FolderFault::Missing => Ok(Script::new(Vec::new(alloc))),
            other => Err(unread(other, place)),
        },
    }
}

/// Parses the bytes of the file at this place as settings.
fn settings_in(alloc: Global, bytes: &[u8], place: Place) -> Result<Settings, Fault>
    ensures { MatchResult result
        (λ settings. MeansAsSettings bytes.now (Ok settings))
        (λ fault. (fault ≡ Fault.OutOfMemory)
        ⊎ FileMeans MeansAsSettings place (Some bytes.now) (Err fault)) }
{
    match read_settings(alloc, bytes) {
        Ok(settings) => Ok(settings),
        Err(fault) => Err(in_file(fault, place)),
    }
}

/// Parses the bytes of the file at this place as a script.
fn script_in(alloc: Global, bytes: &[u8], place: Place) -> Result<Script, Fault>
    ensures { MatchResult result
        (λ script. HasMeaning bytes.now (Ok script))
        (λ fault. (fault ≡ Fault.OutOfMemory) ⊎ FileMeans HasMeaning place (Some bytes.now) (Err fault)) }
{
    match read_script(alloc, bytes) {
        Ok(script) => Ok(script),
        Err(fault) => Err(in_file(fault, place)),
    }
}

/// The fault of a text, with the place of its file.
fn in_file(fault: ScriptFault, place: Place) -> Fault
    ensures { result ≡ in_file place fault }
{
    match fault {
        ScriptFault::OutOfMemory => Fault::OutOfMemory,
        ScriptFault::Syntax(line) => Fault::Syntax(place, line),
        ScriptFault::TooLong => Fault::TooLong(place),
        ScriptFault::TooDeep(line) => Fault::TooDeep(place, line),
        ScriptFault::NotUtf8 => Fault::NotUtf8(place),
    }
}

/// The fault of a text that the folder did not read.
fn unread(fault: FolderFault, place: Place) -> Fault
    ensures { result ≡ unread_at place fault }
{
    match fault {
        FolderFault::TooLarge => Fault::TooLong(place),
        other => fault_of(other, place),
    }
}
