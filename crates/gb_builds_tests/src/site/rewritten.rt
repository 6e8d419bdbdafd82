//! The files that builds of an edited site write, read from a folder that notes its calls.
use crate::building::is_reported;
use crate::site::offering::{Kinds, offered};
use crate::site::sites::written;
use crate::site::steps::{Step, go_on};
use gb_action::actions::Actions;
use gb_folder::memory::MemoryFolder;
use gb_folder::noted::{Note, NotedFolder};
use gb_kinds::builtin::Builtin;
use gb_provider::transforms::Transforms;
use gb_registry::tables::Tables;
use std::alloc::{AllocError, Global};
use std::test::Fail;

/// The site, with a third page.
const BUILT: [Step<'static>; 2] = [
    Step::Put("pages/c.md", b"# C\n"),
    Step::Run(
        "site",
        4,
        "> Task :all\n> Task :html\nADDED a.md\nADDED b.md\nADDED c.md\n> Task :laidOut\n> Task :site\n\
ADDED a.html\nADDED b.html\nADDED c.html\nADDED index.html\nBUILD SUCCESSFUL\n\
4 actionable tasks: 4 executed\n",
    ),
];

/// One page is edited.
const EDITED: [Step<'static>; 1] = [Step::Put("pages/b.md", b"# B\n*new*\n")];

/// Its result.
const AFTER_EDIT: [Step<'static>; 1] = [Step::Run(
    "site",
    4,
    "> Task :all\n> Task :html\nMODIFIED b.md\n> Task :laidOut\n> Task :site\nMODIFIED b.html\n\
BUILD SUCCESSFUL\n4 actionable tasks: 4 executed\n",
)];

/// One page is removed.
const REMOVED: [Step<'static>; 1] = [Step::Delete("pages/a.md")];

/// Its result.
const AFTER_REMOVAL: [Step<'static>; 1] = [Step::Run(
    "site",
    4,
    "> Task :all\n> Task :html\nREMOVED a.md\n> Task :laidOut\n> Task :site\nREMOVED a.html\n\
MODIFIED index.html\nBUILD SUCCESSFUL\n4 actionable tasks: 4 executed\n",
)];

/// The layout is edited. It is not a property whose changes are given to the action, so all pages
/// are made again.
const LAID_OUT: [Step<'static>; 1] = [Step::Put("layout.html", b"<html>{{page}}</html>\n")];

/// Its result.
const AFTER_LAYOUT: [Step<'static>; 1] = [Step::Run(
    "laidOut",
    1,
    "> Task :html UP-TO-DATE\n> Task :laidOut\nBUILD SUCCESSFUL\n\
2 actionable tasks: 1 executed, 1 up-to-date\n",
)];

/// The requested changes under `build`, each on a line.
fn shown(alloc: Global, notes: &[Note]) -> Result<String, AllocError> {
    let mut out = String::new(alloc);
    for note in notes {
        let place = note.place.as_str();
        if place.starts_with("build/") {
            let word = if note.next.is_some() { "put " } else { "del " };
            out.push_str(word)?;
            out.push_str(place)?;
            out.push_str("\n")?;
        }
    }
    Ok(out)
}

/// Fails if the result or the changes of a build after this edit differ.
fn changes<A: Actions, T: Transforms>(
    alloc: Global,
    mut folder: MemoryFolder,
    tables: &Tables<A, T>,
    edit: &[Step<'_>],
    build: &[Step<'_>],
    expected: &str,
) -> Result<MemoryFolder, Fail> {
    go_on(alloc, &mut folder, tables, edit)?;
    let mut noted = NotedFolder::new(alloc, folder);
    are_noted(alloc, &mut noted, tables, build, expected)?;
    Ok(noted.into_inner())
}

fn are_noted<A: Actions, T: Transforms>(
    alloc: Global,
    noted: &mut NotedFolder<MemoryFolder>,
    tables: &Tables<A, T>,
    build: &[Step<'_>],
    expected: &str,
) -> Result<(), Fail> {
    go_on(alloc, noted, tables, build)?;
    let text = shown(alloc, noted.notes())?;
    is_reported(expected, text.as_str())
}

/// A site with three pages.
fn built<A: Actions, T: Transforms>(
    alloc: Global,
    tables: &Tables<A, T>,
) -> Result<MemoryFolder, Fail> {
    let mut folder = written(alloc, tables)?;
    go_on(alloc, &mut folder, tables, &BUILT)?;
    Ok(folder)
}

/// Fails if an edit of a page writes more than that page, or its removal changes something else.
fn page_alone<A: Actions, T: Transforms>(alloc: Global, tables: &Tables<A, T>) -> Result<(), Fail> {
    let folder = built(alloc, tables)?;
    let folder = changes(
        alloc,
        folder,
        tables,
        &EDITED,
        &AFTER_EDIT,
        "put build/html/b.md\nput build/laid-out/b.html\nput build/site/b.html\n",
    )?;
    changes(
        alloc,
        folder,
        tables,
        &REMOVED,
        &AFTER_REMOVAL,
        "put build/all/index.html\ndel build/html/a.md\ndel build/laid-out/a.html\n\
del build/site/a.html\nput build/site/index.html\n",
    )?;
    Ok(())
}

#[test]
fn an_edit_writes_its_page_alone(rt: HostRuntime) -> Result<(), Fail> {
    let (actions, transforms) = offered(rt.alloc())?;
    let tables = Tables::<Kinds, Builtin> {
        actions,
        transforms,
    };
    page_alone::<Kinds, Builtin>(rt.alloc(), &tables)
}

/// Fails if another layout leaves a page unchanged.
fn in_full<A: Actions, T: Transforms>(alloc: Global, tables: &Tables<A, T>) -> Result<(), Fail> {
    let folder = built(alloc, tables)?;
    changes(
        alloc,
        folder,
        tables,
        &LAID_OUT,
        &AFTER_LAYOUT,
        "del build/laid-out/a.html\ndel build/laid-out/b.html\ndel build/laid-out/c.html\n\
put build/laid-out/a.html\nput build/laid-out/b.html\nput build/laid-out/c.html\n",
    )?;
    Ok(())
}

#[test]
fn a_layout_is_laid_out_in_full(rt: HostRuntime) -> Result<(), Fail> {
    let (actions, transforms) = offered(rt.alloc())?;
    let tables = Tables::<Kinds, Builtin> {
        actions,
        transforms,
    };
    in_full::<Kinds, Builtin>(rt.alloc(), &tables)
}
