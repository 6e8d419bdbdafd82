//! Texts as paths, and the folders of projects.
ghost use Rattle.std.specs.Prelude.{◌≡◌, All, ◌<◌, ◌≤◌, ◌∷◌, [], length, map, IfOk, IfErr, IsTrue};
ghost use Rattle.std.specs.Prelude.{string_bytes, encode_utf8};
ghost use Rattle.std.specs.Option.{option_copied};
ghost use Rattle.std.specs.List.{AllByRecursion};
ghost use Rattle.gb_core.specs.Path.{is_project_path, task_in};
ghost use Rattle.gb_report.specs.declared.fault.Fault.TheVariants.{OutOfMemory};
ghost use Rattle.gb_registry.specs.Projects.{absolute, folder_of, folder_text, slashed};

use gb_core::name::NameFault;
use gb_core::path::{ProjectPath, is_task_path};
use gb_core::place::{Place, PlaceFault};
use gb_report::fault::Fault;
use std::alloc::{AllocError, Global};

/// A name in a project, as a path.
pub fn path_in(alloc: Global, project: &str, name: &str) -> Result<String, AllocError>
    ensures { IfOk result (λ path. string_bytes path ≡ task_in project.now name.now) }
{
    let mut path = String::new(alloc);
    if project != ":" {
        path.push_str(project)?;
    }
    path.push(':')?;
    path.push_str(name)?;
    Ok(path)
}

/// A text as a path: one that does not begin with a colon is relative to the project.
pub fn absolute(alloc: Global, project: &str, text: &str) -> Result<String, AllocError>
    ensures { IfOk result (λ path. string_bytes path ≡ absolute project.now text.now) }
{
    if text.starts_with(':') {
        String::from_str(alloc, text)
    } else {
        path_in(alloc, project, text)
    }
}

/// The project path that a text denotes.
pub(crate) fn project_path(alloc: Global, text: &str) -> Result<ProjectPath, Fault>
    requires { IsTrue (is_project_path text.now) }
    ensures path { IfOk result (λ path. path ≡ text.now) }
    ensures fault { IfErr result (λ fault. fault ≡ OutOfMemory) }
{
    match ProjectPath::read(alloc, text) {
        Ok(path) => Ok(path),
        Err(NameFault::OutOfMemory) => Err(Fault::OutOfMemory),
        Err(NameFault::BadName) => unreachable!(),
    }
}

/// The folder of a project; the root has none.
pub fn folder_of(alloc: Global, path: &ProjectPath) -> Result<Option<Place>, Fault>
    requires { length (folder_text path.now) ≤ 896 }
    ensures folder { IfOk result (λ folder. folder ≡ folder_of path.now) }
    ensures fault { IfErr result (λ fault. fault ≡ OutOfMemory) }
{
    let text = path.as_str();
    if text == ":" {
        return Ok(None);
    }
    let folder = folder_text(alloc, text)?;
    match Place::read(alloc, folder.as_str()) {
        Ok(place) => Ok(Some(place)),
        Err(PlaceFault::OutOfMemory) => Err(Fault::OutOfMemory),
        Err(PlaceFault::BadPlace) => unreachable!(),
    }
}

/// The names of a project with slashes between them.
fn folder_text(alloc: Global, path: &str) -> Result<String, AllocError>
    requires { IsTrue (is_project_path path.now) }
    ensures { IfOk result (λ folder. string_bytes folder ≡ folder_text path.now) }
{
    match path.as_bytes().split_first() {
        Some((_, names)) => slashed_text(alloc, names),
        None => Ok(String::new(alloc)),
    }
}

fn slashed_text(alloc: Global, names: &[u8]) -> Result<String, AllocError>
    requires { All (λ byte. byte < 128) names.now }
    ensures { IfOk result (λ folder. string_bytes folder ≡ map slashed names.now) }
{
    let mut folder = String::new(alloc);
    for byte in names {
        folder.push(slashed(*byte))?;
    }
    Ok(folder)
}

fn slashed(byte: u8) -> char
    requires { byte < 128 }
    ensures { encode_utf8 result ≡ slashed byte ∷ [] }
{
    if byte == b':' { '/' } else { byte as char }
}
