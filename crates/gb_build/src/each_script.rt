//! The scripts of projects.
ghost use Rattle.std.specs.Prelude.{◌≡◌, ◌⊎◌, Ok, Err, IsTrue, IfOk, MatchResult, length};
ghost use Rattle.std.specs.List.{list_all};
ghost use Rattle.std.specs.Option.{option_copied};
ghost use Rattle.gb_core.specs.Place.{is_place};
ghost use Rattle.gb_folder.specs.Calls.{OnlyReads};
ghost use Rattle.gb_script.specs.Script.{HasMeaning};
ghost use Rattle.gb_folder.specs.Faults.{Blames, BlamesOnly, IsOfMachine};
ghost use Rattle.gb_build.specs.Found.{WasParsed, WereParsed};
ghost use Rattle.gb_build.specs.Scripts.{ScriptsDeclare, is_script_place, script_place, script_places};
ghost use Rattle.gb_build.specs.Texts.{Reports, TextMeans};

use crate::one_script::script_at;
use gb_core::path::ProjectPath;
use gb_core::place::{Place, PlaceFault};
use gb_folder::folder::Folder;
use gb_report::fault::Fault;
use gb_script::script::Script;
use std::alloc::Global;

/// The scripts of projects, one for each, in their order.
pub fn read_scripts<F: Folder>(
    alloc: Global,
    folder: &mut F,
    projects: &[(ProjectPath, Option<Place>)],
) -> Result<Vec<Script>, Fault>
    requires places { IsTrue (list_all (λ place. is_place place) (script_places projects.now)) }
    ensures reads { OnlyReads F.device folder.old folder.new }
    ensures blame { Blames result (F.device.failures folder.old) (F.device.failures folder.new) }
    ensures blamed { BlamesOnly is_script_place result }
    ensures one_each { IfOk result (λ scripts. length scripts.items ≡ length projects.now) }
    ensures said { F.device.faithful folder.new → MatchResult result
        (λ scripts. ScriptsDeclare (F.device.contents folder.old).files (script_places projects.now)
        (Ok scripts.items))
        (λ fault. IsOfMachine (F.device.failures folder.old) (F.device.failures folder.new) fault
        ⊎ ScriptsDeclare (F.device.contents folder.old).files (script_places projects.now) (Err fault)) }
    // Over any folder: calls returned these texts.
    ensures parsed { IfOk result (λ scripts. WereParsed F.device folder.old
        folder.new (script_places projects.now) scripts.items) }
{
    let mut scripts = Vec::new(alloc);
    for project in projects {
        scripts.push(read_script_of(alloc, folder, project)?)?;
    }
    Ok(scripts)
}

/// The script of a project.
fn read_script_of<F: Folder>(
    alloc: Global,
    folder: &mut F,
    project: &(ProjectPath, Option<Place>),
) -> Result<Script, Fault>
    requires place { IsTrue (is_place (script_place project.now.1)) }
    ensures reads { OnlyReads F.device folder.old folder.new }
    ensures blame { Blames result (F.device.failures folder.old) (F.device.failures folder.new) }
    ensures blamed { BlamesOnly is_script_place result }
    ensures said { F.device.faithful folder.new
        → Reports (TextMeans HasMeaning (F.device.contents folder.old).files (script_place project.now.1))
        (F.device.failures folder.old) (F.device.failures folder.new) result }
    ensures parsed { IfOk result (WasParsed F.device HasMeaning folder.old folder.new
        (script_place project.now.1)) }
{
    let place = script_place(alloc, project.1.as_ref())?;
    script_at(alloc, folder, place)
}

/// The place of the script of a project with this folder.
fn script_place(alloc: Global, folder: Option<&Place>) -> Result<Place, Fault>
    requires { IsTrue (is_place (script_place (option_copied folder))) }
    ensures { MatchResult result
        (λ place. place ≡ script_place (option_copied folder.entry))
        (λ fault. fault ≡ Fault.OutOfMemory) }
{
    match Place::join(alloc, folder, "build.gb") {
        Ok(place) => Ok(place),
        Err(PlaceFault::OutOfMemory) => Err(Fault::OutOfMemory),
        Err(PlaceFault::BadPlace) => unreachable!(),
    }
}
