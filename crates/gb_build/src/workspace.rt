//! Reads a folder: its settings, and the scripts of their projects.
ghost use Rattle.std.specs.Prelude.{◌≡◌, ◌⊎◌, Ok, Err, IfOk, MatchResult};
ghost use Rattle.gb_folder.specs.Calls.{OnlyReads};
ghost use Rattle.gb_registry.specs.Tables.{tables_of};
ghost use Rattle.gb_script.specs.Script.{MeansAsSettings};
ghost use Rattle.gb_folder.specs.Changes.{is_at};
ghost use Rattle.gb_folder.specs.Faults.{Blames, BlamesOnly, IsOfMachine};
ghost use Rattle.gb_build.specs.Found.{IsDeclared, WasParsed};
ghost use Rattle.gb_build.specs.Scripts.{FolderDeclares, is_script_place, settings_place};
ghost use Rattle.gb_build.specs.Texts.{Reports, TextMeans};

use crate::each_script::read_scripts;
use crate::one_script::settings_at;
use gb_action::actions::Actions;
use gb_core::name::Name;
use gb_core::place::Place;
use gb_core::text::Text;
use gb_folder::folder::Folder;
use gb_provider::transforms::Transforms;
use gb_registry::configured::Configured;
use gb_registry::projects::ProjectSet;
use gb_registry::registry::Registry;
use gb_registry::tables::Tables;
use gb_report::fault::Fault;
use gb_script::script::Settings;
use std::alloc::Global;

/// Reads the registry that the settings and the scripts of a folder declare, with these values
/// given. Where there is no `settings.gb`, the root is the only project; where a project has no
/// `build.gb`, its script is empty.
///
/// Refused with the first fault: of the text of `settings.gb` (fault 12 where another file is in
/// its way, faults 20 to 23), of what it includes (faults 1, 57 and 58), of the text of a
/// `build.gb` in the order of projects (faults 12 and 20 to 23), and then of a statement, as
/// `Registry::configure` reports it. Memory may run out (fault 3), and the device may fail (fault
/// 10), on the way.
pub fn read_registry<'a, A: Actions, T: Transforms, F: Folder>(
    alloc: Global,
    folder: &mut F,
    tables: &'a Tables<A, T>,
    given: Vec<(Name, Text)>,
) -> Result<Configured<'a, A, T>, Fault>
    ensures reads { OnlyReads F.device folder.old folder.new }
    ensures blame { Blames result (F.device.failures folder.old) (F.device.failures folder.new) }
    ensures blamed { BlamesOnly is_script_place result }
    ensures tables { IfOk result (λ configured. configured.tables.now ≡ tables.now) }
    // Where contents are known, the result is what the scripts in them declare, or a fault of the
    // machine.
    ensures said { F.device.faithful folder.new → MatchResult result
        (λ configured. FolderDeclares (tables_of T.meanings A.meanings tables.now)
        (F.device.contents folder.old).files given.items (Ok configured.registry))
        (λ fault. IsOfMachine (F.device.failures folder.old) (F.device.failures folder.new) fault
        ⊎ FolderDeclares (tables_of T.meanings A.meanings tables.now)
        (F.device.contents folder.old).files given.items (Err fault)) }
    // Over any folder: calls returned the texts of what is declared.
    ensures declared { IfOk result (λ configured. IsDeclared F.device
        (tables_of T.meanings A.meanings tables.now) given.items folder.old folder.new
        configured.registry) }
{
    let settings = read_settings_of(alloc, folder)?;
    let projects = ProjectSet::of(alloc, &settings)?;
    let scripts = read_scripts(alloc, folder, projects.as_slice())?;
    Registry::configure_projects(alloc, projects, scripts, given, tables)
}

/// The settings of a folder.
pub fn read_settings_of<F: Folder>(alloc: Global, folder: &mut F) -> Result<Settings, Fault>
    ensures reads { OnlyReads F.device folder.old folder.new }
    ensures blame { Blames result (F.device.failures folder.old) (F.device.failures folder.new) }
    ensures blamed { BlamesOnly (is_at settings_place) result }
    // Where contents are known, the result is what the file declares, or a fault of the machine.
    ensures said { F.device.faithful folder.new
        → Reports (TextMeans MeansAsSettings (F.device.contents folder.old).files settings_place)
        (F.device.failures folder.old) (F.device.failures folder.new) result }
    ensures parsed { IfOk result (WasParsed F.device MeansAsSettings folder.old
        folder.new settings_place) }
{
    let place = settings_place(alloc)?;
    settings_at(alloc, folder, place)
}

fn settings_place(alloc: Global) -> Result<Place, Fault>
    ensures { MatchResult result (λ place. place ≡ settings_place) (λ fault. fault ≡ Fault.OutOfMemory) }
{
    Place::read(alloc, "settings.gb").map_err(|_fault| Fault::OutOfMemory)
}
