//! Vectors from outside, and each call that allocates memory, once.
//!
//! Each case is a function that returns whether it holds, so that no assertion is made while values
//! are alive.
use gb_core::bytes::Bytes;
use gb_core::name::{Name, NameFault};
use gb_core::path::{ProjectPath, TaskPath, is_task_path};
use gb_core::place::{Place, PlaceFault, RelPath, is_place};
use gb_core::text::{Text, Texts};
use gb_core::value::Value;
use std::alloc::{AllocError, Global};
use std::test::Fail;

/// Fails with the name of the first case that does not hold.
fn all_hold(cases: &[(&str, bool)]) -> Result<(), Fail> {
    for case in cases {
        if !case.1 {
            return Err(Fail::new(case.0));
        }
    }
    Ok(())
}

fn letters(alloc: Global, count: usize) -> Result<String, AllocError> {
    let mut text = String::new(alloc);
    for _letter in 0..count {
        text.push('a')?;
    }
    Ok(text)
}

fn name_number(alloc: Global, text: &str) -> u16 {
    match Name::read(alloc, text) {
        Ok(_name) => 0,
        Err(fault) => fault.number(),
    }
}

fn place_number(alloc: Global, text: &str) -> u16 {
    match Place::read(alloc, text) {
        Ok(_place) => 0,
        Err(fault) => fault.number(),
    }
}

fn copied_name(alloc: Global, text: &str) -> Result<Name, NameFault> {
    Ok(Name::read(alloc, text)?.copy()?)
}

fn is_read_as_name(alloc: Global, text: &str) -> Result<bool, NameFault> {
    Ok(copied_name(alloc, text)?.as_str() == text)
}

#[test]
fn names_are_read(rt: HostRuntime) -> Result<(), Fail> {
    all_hold(&[("a-1", is_read_as_name(rt.alloc(), "a-1") == Ok(true))])
}

#[test]
fn other_texts_are_no_names(rt: HostRuntime) -> Result<(), Fail> {
    all_hold(&[
        ("1a", name_number(rt.alloc(), "1a") == 1),
        ("no letter", name_number(rt.alloc(), "") == 1),
        ("out of memory", NameFault::from(AllocError).number() == 3),
    ])
}

fn name_number_of(alloc: Global, count: usize) -> Result<u16, AllocError> {
    let text = letters(alloc, count)?;
    Ok(name_number(alloc, text.as_str()))
}

#[test]
fn names_have_64_letters_at_most(rt: HostRuntime) -> Result<(), Fail> {
    all_hold(&[
        ("64 letters", name_number_of(rt.alloc(), 64) == Ok(0)),
        ("65 letters", name_number_of(rt.alloc(), 65) == Ok(1)),
    ])
}

fn place_number_of(alloc: Global, count: usize) -> Result<u16, AllocError> {
    let text = letters(alloc, count)?;
    Ok(place_number(alloc, text.as_str()))
}

#[test]
fn places_have_1024_bytes_at_most(rt: HostRuntime) -> Result<(), Fail> {
    all_hold(&[
        ("1024 bytes", place_number_of(rt.alloc(), 1024) == Ok(0)),
        ("1025 bytes", place_number_of(rt.alloc(), 1025) == Ok(2)),
        ("out of memory", PlaceFault::from(AllocError).number() == 3),
    ])
}

fn copied_place(alloc: Global, text: &str) -> Result<Place, PlaceFault> {
    Ok(Place::read(alloc, text)?.copy()?)
}

fn is_read_as_place(alloc: Global, text: &str) -> Result<bool, PlaceFault> {
    Ok(copied_place(alloc, text)?.as_str() == text)
}

fn copied_path(alloc: Global, text: &str) -> Result<RelPath, PlaceFault> {
    Ok(RelPath::read(alloc, text)?.copy()?)
}

fn is_read_as_path(alloc: Global, text: &str) -> Result<bool, PlaceFault> {
    Ok(copied_path(alloc, text)?.as_str() == text)
}

#[test]
fn places_are_read(rt: HostRuntime) -> Result<(), Fail> {
    let alloc = rt.alloc();
    all_hold(&[
        ("src/a", is_read_as_place(alloc, "src/a") == Ok(true)),
        ("no segment", is_read_as_path(alloc, "") == Ok(true)),
        ("a/b", is_read_as_path(alloc, "a/b") == Ok(true)),
    ])
}

/// Fails at the first text that is a place, or is refused for another reason.
fn are_no_places(alloc: Global, texts: &[&str]) -> Result<(), Fail> {
    for text in texts {
        if is_place(text) || place_number(alloc, text) != 2 {
            return Err(Fail::new(*text));
        }
    }
    Ok(())
}

#[test]
fn other_texts_are_no_places(rt: HostRuntime) -> Result<(), Fail> {
    are_no_places(rt.alloc(), &["", "/a", "a//b", "a/", "a/../b", "."])
}

fn lies_beneath(alloc: Global, place: &str, folder: &str) -> Result<bool, PlaceFault> {
    let place = Place::read(alloc, place)?;
    let folder = Place::read(alloc, folder)?;
    Ok(place.is_beneath(&folder))
}

fn overlap(alloc: Global, one: &str, other: &str) -> Result<bool, PlaceFault> {
    let one = Place::read(alloc, one)?;
    let other = Place::read(alloc, other)?;
    Ok(one.overlaps(&other))
}

#[test]
fn places_lie_beneath_by_segments(rt: HostRuntime) -> Result<(), Fail> {
    let alloc = rt.alloc();
    all_hold(&[
        ("src/a", lies_beneath(alloc, "src/a", "src") == Ok(true)),
        ("srcx", lies_beneath(alloc, "srcx", "src") == Ok(false)),
        ("src", lies_beneath(alloc, "src", "src") == Ok(false)),
    ])
}

#[test]
fn places_overlap_by_segments(rt: HostRuntime) -> Result<(), Fail> {
    let alloc = rt.alloc();
    all_hold(&[
        ("src/a", overlap(alloc, "src", "src/a") == Ok(true)),
        ("src", overlap(alloc, "src", "src") == Ok(true)),
        ("srcx", overlap(alloc, "src", "srcx") == Ok(false)),
    ])
}

fn joins_to(
    alloc: Global,
    folder: Option<&Place>,
    text: &str,
    want: &str,
) -> Result<bool, PlaceFault> {
    let joined = Place::join(alloc, folder, text)?;
    Ok(joined.as_str() == want)
}

fn joins_in_lib(alloc: Global, text: &str, want: &str) -> Result<bool, PlaceFault> {
    let lib = Place::read(alloc, "lib")?;
    joins_to(alloc, Some(&lib), text, want)
}

#[test]
fn places_are_joined(rt: HostRuntime) -> Result<(), Fail> {
    let alloc = rt.alloc();
    all_hold(&[
        ("a", joins_to(alloc, None, "a", "a") == Ok(true)),
        ("a/b", joins_in_lib(alloc, "a/b", "lib/a/b") == Ok(true)),
        (
            "..",
            joins_in_lib(alloc, "..", "") == Err(PlaceFault::BadPlace),
        ),
    ])
}

fn place_beneath(alloc: Global, folder: &str, path: &str) -> Result<Place, PlaceFault> {
    let folder = Place::read(alloc, folder)?;
    let path = RelPath::read(alloc, path)?;
    folder.beneath(alloc, &path)
}

fn exists_beneath_lib(alloc: Global, path: &str, want: &str) -> Result<bool, PlaceFault> {
    Ok(place_beneath(alloc, "lib", path)?.as_str() == want)
}

#[test]
fn paths_exist_beneath_a_root(rt: HostRuntime) -> Result<(), Fail> {
    all_hold(&[
        ("lib", exists_beneath_lib(rt.alloc(), "", "lib") == Ok(true)),
        (
            "lib/a",
            exists_beneath_lib(rt.alloc(), "a", "lib/a") == Ok(true),
        ),
    ])
}

fn copied_task(alloc: Global, path: &str) -> Result<TaskPath, NameFault> {
    Ok(TaskPath::read(alloc, path)?.copy()?)
}

fn has_parts(alloc: Global, path: &str, project: &str, name: &str) -> Result<bool, NameFault> {
    let task = copied_task(alloc, path)?;
    Ok(task.project() == project && task.name() == name)
}

#[test]
fn paths_of_tasks_have_parts(rt: HostRuntime) -> Result<(), Fail> {
    let alloc = rt.alloc();
    all_hold(&[
        (
            ":lib:gen",
            has_parts(alloc, ":lib:gen", ":lib", "gen") == Ok(true),
        ),
        (":gen", has_parts(alloc, ":gen", ":", "gen") == Ok(true)),
    ])
}

#[test]
fn other_texts_are_no_paths(rt: HostRuntime) -> Result<(), Fail> {
    all_hold(&[
        ("gen", !is_task_path("gen")),
        ("::a", !is_task_path("::a")),
        (":", !is_task_path(":")),
    ])
}

fn copied_project(alloc: Global, text: &str) -> Result<ProjectPath, NameFault> {
    Ok(ProjectPath::read(alloc, text)?.copy()?)
}

fn is_read_as_project(alloc: Global, text: &str) -> Result<bool, NameFault> {
    Ok(copied_project(alloc, text)?.as_str() == text)
}

#[test]
fn paths_of_projects_are_read(rt: HostRuntime) -> Result<(), Fail> {
    let alloc = rt.alloc();
    all_hold(&[
        (":", is_read_as_project(alloc, ":") == Ok(true)),
        (
            "lib",
            is_read_as_project(alloc, "lib") == Err(NameFault::BadName),
        ),
    ])
}

fn one_text(alloc: Global, text: &str) -> Result<Texts, AllocError> {
    let mut texts = Texts::new(alloc);
    texts.push(Text::from_str(alloc, text)?)?;
    Ok(texts)
}

fn two_texts(alloc: Global) -> Result<Texts, AllocError> {
    let mut texts = one_text(alloc, "a")?;
    texts.append(one_text(alloc, "b")?)?;
    Ok(texts)
}

fn are_a_and_b(texts: &[Text]) -> bool {
    matches!(texts, [a, b] if a.as_str() == "a" && b.as_str() == "b")
}

fn keep_their_order(alloc: Global) -> Result<bool, AllocError> {
    let texts = two_texts(alloc)?;
    Ok(are_a_and_b(texts.copy(alloc)?.as_slice()))
}

fn bytes_are_equal(alloc: Global) -> Result<bool, AllocError> {
    let bytes = Bytes::from_slice(alloc, b"ab")?;
    let copied = bytes.copy()?;
    Ok(copied.as_slice() == b"ab".as_slice())
}

#[test]
fn texts_and_bytes_are_copied(rt: HostRuntime) -> Result<(), Fail> {
    all_hold(&[
        ("texts", keep_their_order(rt.alloc()) == Ok(true)),
        ("bytes", bytes_are_equal(rt.alloc()) == Ok(true)),
    ])
}

/// Whether the value holds this, as a text.
fn holds(value: &Value, want: &str) -> bool {
    match value {
        Value::Text(text) => text.as_str() == want,
        Value::Flag(flag) => *flag == (want == "true"),
        Value::List(texts) => texts.as_slice().len() == want.len(),
        Value::Place(place) => place.as_str() == want,
        Value::Task(task) => task.as_str() == want,
    }
}

/// Whether a copy of the value holds this.
fn copy_holds(alloc: Global, value: &Value, want: &str) -> Result<bool, AllocError> {
    Ok(holds(&value.copy(alloc)?, want))
}

/// Whether a copy of the value holds this; drops the value.
fn is_copied(alloc: Global, value: Value, want: &str) -> Result<bool, AllocError> {
    copy_holds(alloc, &value, want)
}

fn a_flag_is_copied(alloc: Global) -> Result<bool, AllocError> {
    is_copied(alloc, Value::Flag(true), "true")
}

fn a_text_is_copied(alloc: Global) -> Result<bool, AllocError> {
    let text = Text::from_str(alloc, "t")?;
    is_copied(alloc, Value::Text(text), "t")
}

fn a_list_is_copied(alloc: Global) -> Result<bool, AllocError> {
    let texts = two_texts(alloc)?;
    is_copied(alloc, Value::List(texts), "ab")
}

fn a_place_is_copied(alloc: Global) -> Result<bool, PlaceFault> {
    let place = Place::read(alloc, "p")?;
    Ok(is_copied(alloc, Value::Place(place), "p")?)
}

fn a_task_is_copied(alloc: Global) -> Result<bool, NameFault> {
    let task = TaskPath::read(alloc, ":t")?;
    Ok(is_copied(alloc, Value::Task(task), ":t")?)
}

#[test]
fn values_are_copied(rt: HostRuntime) -> Result<(), Fail> {
    let alloc = rt.alloc();
    all_hold(&[
        ("flag", a_flag_is_copied(alloc) == Ok(true)),
        ("text", a_text_is_copied(alloc) == Ok(true)),
        ("list", a_list_is_copied(alloc) == Ok(true)),
        ("place", a_place_is_copied(alloc) == Ok(true)),
        ("task", a_task_is_copied(alloc) == Ok(true)),
    ])
}
