//! Where scripts register tasks, and the marks of their clauses.
ghost use Rattle.std.specs.Prelude.{◌≡◌, ◌⊎◌, [], ◌∷◌, ◌++◌, Err, IfErr, IfOk, List, OnOk};
ghost use Rattle.std.specs.Prelude.{codes, false};
ghost use Rattle.std.specs.Option.{option_copied};
ghost use Rattle.gb_core.specs.Path.{task_in};
ghost use Rattle.gb_core.specs.Place.{is_place};
ghost use Rattle.gb_folder.specs.Calls.{OnlyReads};
ghost use Rattle.gb_declare.specs.Declaring.{scope_in};
ghost use Rattle.gb_registry.specs.SoFar.{scripts_in};
ghost use Rattle.gb_registry.specs.Tables.{tables_of};
ghost use Rattle.gb_report.specs.declared.fault.Fault.TheVariants.{OutOfMemory};
ghost use Rattle.gb_script.specs.Lines.{AreLinesOf};
ghost use Rattle.gb_script.specs.Script.{HasMeaning};
ghost use Rattle.gb_script.specs.declared.fault.ScriptFault.{ScriptFault};
ghost use Rattle.gb_folder.specs.Faults.{IsOfMachine};
ghost use Rattle.gb_check.specs.Marks.{Lines, first_lines, marks_of, other_lines, script_scope};
ghost use Rattle.gb_check.specs.Sites.{AreLinesAt, AreSites, HasTextFault, IsUnread, in_file};
ghost use Rattle.gb_check.specs.Sites.{registered_at, script_of_project, sites_of, unread_at};

use crate::clause_lines::{ClauseMark, push_marks};
use gb_action::actions::Actions;
use gb_core::name::{Name, NameFault};
use gb_core::path::{ProjectPath, TaskPath};
use gb_core::place::{Place, PlaceFault};
use gb_core::text::Text;
use gb_folder::calls::read;
use gb_folder::faults::fault_at;
use gb_folder::folder::{Folder, FolderFault};
use gb_project::properties::properties_of;
use gb_provider::transforms::Transforms;
use gb_registry::checking::Scripted;
use gb_registry::names::Names;
use gb_registry::paths::path_in;
use gb_registry::project::Project;
use gb_registry::tables::Tables;
use gb_registry::wrong::Scope;
use gb_report::fault::Fault;
use gb_script::fault::ScriptFault;
use gb_script::script::Statement;
use gb_script::{MAX_SCRIPT, StatementLines, read_script_lines};
use std::alloc::Global;

/// A registered task, and the statement that registers it.
#[derive(Drop)]
pub struct Site {
    /// The path of the task.
    pub path: TaskPath,
    /// The script of its project.
    pub script: Place,
    /// The line in which the statement begins.
    pub line: u64,
}

/// Where these scripts register tasks, and the marks of their clauses. Each script is read once
/// more for its lines. A task has the line 1 if its script lost statements since the first read.
pub(crate) fn read_sites<A: Actions, T: Transforms, F: Folder>(
    alloc: Global,
    folder: &mut F,
    tables: &Tables<A, T>,
    names: &Names<'_>,
    scripts: &[Scripted],
) -> Result<(Vec<Site>, Vec<ClauseMark>), Fault>
    ensures reads { OnlyReads F.device folder.old folder.new }
    ensures sites { IfOk result (λ read.
        AreSites (tables_of T.meanings A.meanings tables.now) names.now (F.device.faithful folder.new)
        (F.device.contents folder.old).files (scripts_in scripts.now) read.0.items read.1.items) }
    ensures err { F.device.faithful folder.new → IfErr result (λ fault.
        IsOfMachine (F.device.failures folder.old) (F.device.failures folder.new) fault
        ⊎ IsUnread (F.device.contents folder.old).files (scripts_in scripts.now) fault) }
{
    let mut sites = Vec::new(alloc);
    let mut marks = Vec::new(alloc);
    for scripted in scripts {
        push_script(
            alloc, folder, tables, names, &mut sites, &mut marks, scripted,
        )?;
    }
    Ok((sites, marks))
}

/// Adds the tasks that a script registers, and the marks of their clauses.
fn push_script<A: Actions, T: Transforms, F: Folder>(
    alloc: Global,
    folder: &mut F,
    tables: &Tables<A, T>,
    names: &Names<'_>,
    sites: &mut Vec<Site>,
    marks: &mut Vec<ClauseMark>,
    scripted: &Scripted,
) -> Result<(), Fault>
    ensures reads { OnlyReads F.device folder.old folder.new }
    ensures sites { OnOk result ((lines : List Lines)
        × (F.device.faithful folder.new
        → AreLinesAt (F.device.contents folder.old).files (script_of_project scripted.now.project) lines)
        × (sites.new.items ≡ sites.old.items ++ sites_of scripted.now.project
        (script_of_project scripted.now.project) scripted.now.script lines)
        × (marks.new.items ≡ marks.old.items ++ marks_of (tables_of T.meanings A.meanings tables.now)
        (script_scope names.now scripted.now.project scripted.now.script)
        scripted.now.project scripted.now.script lines)) }
    ensures err { F.device.faithful folder.new → IfErr result (λ fault.
        IsOfMachine (F.device.failures folder.old) (F.device.failures folder.new) fault
        ⊎ HasTextFault (F.device.contents folder.old).files (script_of_project scripted.now.project) fault) }
{
    let script = script_of_project(alloc, &scripted.project)?;
    let lines = lines_at(alloc, folder, &script)?;
    let pushed = push_lines(
        alloc,
        tables,
        names,
        sites,
        marks,
        scripted,
        &script,
        lines.as_slice(),
    );
    drop(lines);
    drop(script);
    pushed
}

/// Adds the tasks that a script registers, and the marks of their clauses, by the lines of its
/// statements.
fn push_lines<A: Actions, T: Transforms>(
    alloc: Global,
    tables: &Tables<A, T>,
    names: &Names<'_>,
    sites: &mut Vec<Site>,
    marks: &mut Vec<ClauseMark>,
    scripted: &Scripted,
    script: &Place,
    lines: &[StatementLines],
) -> Result<(), Fault>
    ensures sites { OnOk result (sites.new.items
        ≡ sites.old.items ++ sites_of scripted.now.project script.now scripted.now.script lines.now) }
    ensures marks { OnOk result (marks.new.items
        ≡ marks.old.items ++ marks_of (tables_of T.meanings A.meanings tables.now)
        (script_scope names.now scripted.now.project scripted.now.script)
        scripted.now.project scripted.now.script lines.now) }
    ensures err { IfErr result (λ fault. fault ≡ OutOfMemory) }
{
    let statements = scripted.script.statements();
    let properties = properties_of(alloc, statements)?;
    let scope: Scope<'_, A, T> = Scope {
        tables,
        project: &scripted.project,
        properties: &properties,
        names: Some(names),
    };
    push_statements(alloc, sites, marks, &scope, script, statements, lines)
}

/// The place of the script of a project.
pub(crate) fn script_of_project(alloc: Global, project: &Project) -> Result<Place, Fault>
    ensures place { IfOk result (λ place. place ≡ script_of_project project.now) }
    ensures err { IfErr result (λ fault. (fault ≡ OutOfMemory)
        ⊎ ((is_place (script_of_project project.now) ≡ false)
        × (fault ≡ Fault.BadPlace (codes "build.gb")))) }
{
    match Place::join(alloc, project.folder(), "build.gb") {
        Ok(place) => Ok(place),
        Err(PlaceFault::OutOfMemory) => Err(Fault::OutOfMemory),
        Err(PlaceFault::BadPlace) => Err(Fault::BadPlace(Text::from_str(alloc, "build.gb")?)),
    }
}

/// The lines of the statements of the script at a place. If there is no file, there are none.
pub(crate) fn lines_at<F: Folder>(
    alloc: Global,
    folder: &mut F,
    place: &Place,
) -> Result<Vec<StatementLines>, Fault>
    ensures reads { OnlyReads F.device folder.old folder.new }
    ensures lines { F.device.faithful folder.new → IfOk result (λ lines.
        AreLinesAt (F.device.contents folder.old).files place.now lines.items) }
    ensures err { F.device.faithful folder.new → IfErr result (λ fault.
        IsOfMachine (F.device.failures folder.old) (F.device.failures folder.new) fault
        ⊎ HasTextFault (F.device.contents folder.old).files place.now fault) }
{
    match read(alloc, folder, place, MAX_SCRIPT as u64) {
        Ok(bytes) => lines_in(alloc, bytes.as_slice(), place),
        Err(fault) => match fault {
            FolderFault::Missing => Ok(Vec::new(alloc)),
            other => Err(unread(other, place)),
        },
    }
}

/// The folder's fault while a text was read.
fn unread(fault: FolderFault, place: &Place) -> Fault
    ensures { (result ≡ OutOfMemory) ⊎ (result ≡ unread_at place.now fault) }
{
    match fault {
        FolderFault::TooLarge => too_long(place),
        other => fault_at(other, place),
    }
}

fn too_long(place: &Place) -> Fault
    ensures { (result ≡ OutOfMemory) ⊎ (result ≡ Fault.TooLong place.now) }
{
    match place.copy() {
        Ok(place) => Fault::TooLong(place),
        Err(_) => Fault::OutOfMemory,
    }
}

/// The lines of the statements of these bytes, which are those of the script at this place.
fn lines_in(alloc: Global, bytes: &[u8], place: &Place) -> Result<Vec<StatementLines>, Fault>
    ensures lines { IfOk result (λ lines. AreLinesOf bytes.now lines.items) }
    ensures err { IfErr result (λ fault. (fault ≡ OutOfMemory)
        ⊎ ((of : ScriptFault) × HasMeaning bytes.now (Err of) × (fault ≡ in_file place.now of))) }
{
    match read_script_lines(alloc, bytes) {
        Ok(lines) => Ok(lines),
        Err(fault) => Err(in_file(fault, place.copy()?)),
    }
}

/// The fault of a text, with the place of its file.
fn in_file(fault: ScriptFault, place: Place) -> Fault
    ensures { result ≡ in_file place fault }
{
    match fault {
        ScriptFault::OutOfMemory => Fault::OutOfMemory,
        ScriptFault::Syntax(line) => Fault::Syntax(place, line),
        ScriptFault::TooLong => Fault::TooLong(place),
        ScriptFault::TooDeep(line) => Fault::TooDeep(place, line),
        ScriptFault::NotUtf8 => Fault::NotUtf8(place),
    }
}

/// Adds the tasks that these statements register, by their lines, and the marks of their clauses.
fn push_statements<A: Actions, T: Transforms>(
    alloc: Global,
    sites: &mut Vec<Site>,
    marks: &mut Vec<ClauseMark>,
    scope: &Scope<'_, A, T>,
    script: &Place,
    statements: &[Statement],
    lines: &[StatementLines],
) -> Result<(), Fault>
    ensures sites { OnOk result (sites.new.items
        ≡ sites.old.items ++ sites_of scope.now.project.now script.now statements.now lines.now) }
    ensures marks { OnOk result (marks.new.items ≡ marks.old.items
        ++ marks_of (tables_of T.meanings A.meanings scope.now.tables.now)
        (scope_in scope.now.project.now scope.now.properties.now (option_copied scope.now.names))
        scope.now.project.now statements.now lines.now) }
    ensures err { IfErr result (λ fault. fault ≡ OutOfMemory) }
{
    let mut rest = lines;
    for statement in statements {
        let (line, clauses) = first_lines(rest);
        push_statement(alloc, sites, scope.project, script, statement, line)?;
        push_marks(alloc, marks, scope, statement, line, clauses)?;
        rest = other_lines(rest);
    }
    Ok(())
}

/// The lines of the first statement.
pub(crate) fn first_lines(lines: &[StatementLines]) -> (u64, &[u64])
    ensures { (result.0, result.1.now) ≡ first_lines lines.now }
{
    match lines.first() {
        Some(first) => (first.statement(), first.clauses()),
        None => (1, &[]),
    }
}

pub(crate) fn other_lines(lines: &[StatementLines]) -> &[StatementLines]
    ensures { result.now ≡ other_lines lines.now }
{
    match lines.split_first() {
        Some((_, others)) => others,
        None => lines,
    }
}

/// Adds the task that a statement in this line registers, if it registers one.
fn push_statement(
    alloc: Global,
    sites: &mut Vec<Site>,
    project: &Project,
    script: &Place,
    statement: &Statement,
    line: u64,
) -> Result<(), Fault>
    ensures sites { OnOk result (sites.new.items
        ≡ sites.old.items ++ registered_at project.now script.now line statement.now) }
    ensures err { IfErr result (λ fault. fault ≡ OutOfMemory) }
{
    match statement {
        Statement::Register(registration) => {
            push_site(alloc, sites, project, script, &registration.name, line)
        }
        _ => Ok(()),
    }
}

fn push_site(
    alloc: Global,
    sites: &mut Vec<Site>,
    project: &Project,
    script: &Place,
    name: &Name,
    line: u64,
) -> Result<(), Fault>
    ensures sites { OnOk result (sites.new.items ≡ sites.old.items
        ++ record { path = task_in project.now name.now; script = script.now; line = line } ∷ []) }
    ensures err { IfErr result (λ fault. fault ≡ OutOfMemory) }
{
    let path = task_path(alloc, project.path(), name)?;
    let script = script.copy()?;
    sites.push(Site { path, script, line })?;
    Ok(())
}

/// The path of the task of a name in a project.
pub(crate) fn task_path(
    alloc: Global,
    project: &ProjectPath,
    name: &Name,
) -> Result<TaskPath, Fault>
    ensures path { IfOk result (λ path. path ≡ task_in project.now name.now) }
    ensures fault { IfErr result (λ fault. fault ≡ OutOfMemory) }
{
    let path = path_in(alloc, project.as_str(), name.as_str())?;
    match TaskPath::read(alloc, path.as_str()) {
        Ok(path) => Ok(path),
        Err(NameFault::OutOfMemory) => Err(Fault::OutOfMemory),
        Err(NameFault::BadName) => unreachable!(),
    }
}
