//! The same calls on folders on disk, in memory and on failing devices.
use crate::steps::{cut, is_answered};
use gb_core::place::Place;
use gb_disk::disk::DiskFolder;
use gb_disk::entries::places_in;
use gb_folder::faulty::{FaultMode, FaultyFolder};
use gb_folder::folder::{Folder, FolderFault};
use gb_folder::memory::MemoryFolder;
use std::alloc::{AllocError, Global};
use std::os::unix::fs::symlink;
use std::test::Fail;
use std::{fs, io};

/// Steps, with a `;` between them, and the expected results. A step is a call, as a word of
/// [`answer`] and a place, or a change of a folder on disk from outside, as a word of [`change`], a
/// place and a text.
type Row<'a> = (&'a str, &'a str);

/// The places, with a space after each.
fn reported(alloc: Global, places: &[Place]) -> Result<Vec<u8>, FolderFault> {
    let mut text = Vec::new(alloc);
    for place in places {
        text.extend_from_slice(place.as_str().as_bytes())?;
        text.push(b' ')?;
    }
    Ok(text)
}

fn wrote(alloc: Global, outcome: Result<(), FolderFault>) -> Result<Vec<u8>, FolderFault> {
    match outcome {
        Ok(()) => Ok(b"ok".to_vec(alloc)?),
        Err(fault) => Err(fault),
    }
}

/// Writes `hello` at a place, or removes the file there.
fn write<F: Folder>(folder: &mut F, word: &str, place: &Place) -> Result<(), FolderFault> {
    match word {
        "write" => folder.write(place, b"hello", 5),
        "write4" => folder.write(place, b"hello", 4),
        _ => folder.remove(place),
    }
}

/// The result of one call to a folder.
fn answer<F: Folder>(
    alloc: Global,
    folder: &mut F,
    word: &str,
    place: &Place,
) -> Result<Vec<u8>, FolderFault> {
    match word {
        "list" => reported(alloc, folder.list(alloc, place)?.as_slice()),
        "read" => folder.read(alloc, place, 5),
        "read4" => folder.read(alloc, place, 4),
        "read9" => folder.read(alloc, place, 9),
        "part" => folder.read_part(alloc, place, 3, 9),
        "far" => folder.read_part(alloc, place, u64::MAX, u64::MAX),
        _ => wrote(alloc, write(folder, word, place)),
    }
}

/// The bytes of a result, or the number of its fault.
fn shown(alloc: Global, outcome: Result<Vec<u8>, FolderFault>) -> Result<Vec<u8>, AllocError> {
    match outcome {
        Ok(bytes) => Ok(bytes),
        Err(fault) => Ok(format!(in alloc; "{}", fault.number())?.into_bytes()),
    }
}

/// The printed result of a call.
fn answered<F: Folder>(alloc: Global, folder: &mut F, step: &str) -> Result<Vec<u8>, Fail> {
    let (word, place) = cut(step, ' ');
    let place = Place::read(alloc, place)?;
    Ok(shown(alloc, answer(alloc, folder, word, &place))?)
}

/// Adds the result of a call to a folder.
fn call<F: Folder>(
    alloc: Global,
    folder: &mut F,
    step: &str,
    all: &mut Vec<u8>,
) -> Result<(), Fail> {
    let bytes = answered(alloc, folder, step)?;
    all.extend_from_slice(bytes.as_slice())?;
    Ok(all.push(b';')?)
}

/// Adds the results of calls to a folder.
fn call_all<F: Folder>(
    alloc: Global,
    folder: &mut F,
    steps: &str,
    all: &mut Vec<u8>,
) -> Result<(), Fail> {
    for step in steps.split(';') {
        call(alloc, folder, step, all)?;
    }
    Ok(())
}

/// The results of calls to an empty folder in memory.
fn in_memory(alloc: Global, steps: &str) -> Result<Vec<u8>, Fail> {
    let mut all = Vec::new(alloc);
    call_all(alloc, &mut MemoryFolder::new(alloc), steps, &mut all)?;
    Ok(all)
}

/// Fails at the first row whose results an empty folder in memory does not give.
fn hold_in_memory(alloc: Global, rows: &[Row<'_>]) -> Result<(), Fail> {
    for (steps, wanted) in rows {
        is_answered(wanted, in_memory(alloc, steps)?.as_slice())?;
    }
    Ok(())
}

/// Changes the entry at a path from outside. A `name` is a further name of the file at the path in
/// the text.
fn change(rt: &HostRuntime, word: &str, path: &str, text: &str) -> io::Result<()> {
    match word {
        "!make" => fs::create_dir_all(rt, path),
        "!put" => fs::write(rt, path, text),
        "!link" => symlink(rt, text, path),
        "!name" => fs::hard_link(rt, text, path),
        "!unlink" => fs::remove_file(rt, path),
        _ => fs::remove_dir_all(rt, path),
    }
}

/// Changes the folder at a path by a step.
fn change_in(rt: &HostRuntime, folder: &str, step: &str) -> Result<(), Fail> {
    let (word, rest) = cut(step, ' ');
    let (place, text) = cut(rest, ' ');
    let path = format!(in rt.alloc(); "{folder}/{place}")?;
    Ok(change(rt, word, path.as_str(), text)?)
}

/// Changes the folder at a path from outside, or adds the result of a call to it.
fn take_step(
    rt: &HostRuntime,
    path: &str,
    folder: &mut DiskFolder<&HostRuntime>,
    step: &str,
    all: &mut Vec<u8>,
) -> Result<(), Fail> {
    if step.starts_with('!') {
        change_in(rt, path, step)
    } else {
        call(rt.alloc(), folder, step, all)
    }
}

/// Adds the results of steps on the folder at a path.
fn take_steps(
    rt: &HostRuntime,
    path: &str,
    folder: &mut DiskFolder<&HostRuntime>,
    steps: &str,
    all: &mut Vec<u8>,
) -> Result<(), Fail> {
    for step in steps.split(';') {
        take_step(rt, path, folder, step, all)?;
    }
    Ok(())
}

/// The results of steps on the folder at a path.
fn on_disk(rt: &HostRuntime, path: &str, steps: &str) -> Result<Vec<u8>, Fail> {
    let mut folder = DiskFolder::new(rt, String::from_str(rt.alloc(), path)?);
    let mut all = Vec::new(rt.alloc());
    take_steps(rt, path, &mut folder, steps, &mut all)?;
    Ok(all)
}

/// The results of steps on the folder at a path, if it remembers listings.
fn in_one_build(rt: &HostRuntime, path: &str, steps: &str) -> Result<Vec<u8>, Fail> {
    let mut folder = DiskFolder::for_one_build(rt, String::from_str(rt.alloc(), path)?);
    let mut all = Vec::new(rt.alloc());
    take_steps(rt, path, &mut folder, steps, &mut all)?;
    Ok(all)
}

/// Creates a new folder with this name, and changes it.
fn renew(rt: &HostRuntime, name: &str, changes: &[&str]) -> Result<(), Fail> {
    if fs::exists(rt, name)? {
        fs::remove_dir_all(rt, name)?;
    }
    fs::create_dir(rt, name)?;
    for step in changes {
        change_in(rt, name, step)?;
    }
    Ok(())
}

/// Fails at the first row whose results a folder with this name does not give; it is created again
/// and changed before each row.
fn hold_on_disk(
    rt: &HostRuntime,
    name: &str,
    changes: &[&str],
    rows: &[Row<'_>],
) -> Result<(), Fail> {
    for (steps, wanted) in rows {
        renew(rt, name, changes)?;
        is_answered(wanted, on_disk(rt, name, steps)?.as_slice())?;
    }
    Ok(fs::remove_dir_all(rt, name)?)
}

/// Fails at the first row whose results a new folder with this name that remembers does not give.
fn hold_in_one_build(rt: &HostRuntime, name: &str, rows: &[Row<'_>]) -> Result<(), Fail> {
    for (steps, wanted) in rows {
        renew(rt, name, &[])?;
        is_answered(wanted, in_one_build(rt, name, steps)?.as_slice())?;
    }
    Ok(fs::remove_dir_all(rt, name)?)
}

const ALIKE: [Row<'static>; 4] = [
    // Files are read, whole and in part.
    (
        "read a;write a;read a;read4 a;read a/b;read b;part a;far a;part b;part a/b",
        "11;ok;hello;13;12;11;lo;;11;12;",
    ),
    // A file blocks others, and so does a folder with files.
    (
        "write a;write src/b;write a/b;write a/b/c;write src;write4 c;write srcx;write a;read c",
        "ok;ok;12;12;12;13;ok;ok;11;",
    ),
    // A folder is removed with its last file.
    (
        "write src/b;remove b;remove src;remove src/b/c;remove src/b;remove src/b;remove src;\
         write src;list src",
        "ok;11;12;12;ok;11;11;ok;src ;",
    ),
    // Places are listed in byte order.
    (
        "write o/a/b;write ox;write o/a.c;write o/a-b;list o;list o/a;list ox;list q;list ox/q",
        "ok;ok;ok;ok;o/a-b o/a.c o/a/b ;o/a/b ;ox ;;;",
    ),
];

#[test]
fn folders_answer_alike(rt: HostRuntime) -> Result<(), Fail> {
    hold_in_memory(rt.alloc(), &ALIKE)?;
    hold_in_one_build(&rt, "alike", &ALIKE)?;
    hold_on_disk(&rt, "alike", &[], &ALIKE)
}

const SPECIAL: [Row<'static>; 8] = [
    // Folders without files are replaced by a file.
    (
        "!make e/f/g;!make e/h;list e;read e;remove e;write e;list e;read e",
        ";11;11;ok;e ;hello;",
    ),
    // No link is followed at the place, above it or under the root.
    (
        "!put a 1;!link l a;list l;read l;part l;write l;remove l;read a",
        "14;10;10;10;10;1;",
    ),
    (
        "!make real/d;!put real/d/a 1;!link l real;\
         list l/d;read l/d/a;part l/d/a;write l/b;remove l/d/a;list real",
        "14;10;10;10;10;real/d/a ;",
    ),
    (
        "!make d;!link d/l ..;list d;read d;write d;remove d;write d/a;read d/a;read d/l;read d/l/a",
        "14;10;10;10;ok;hello;10;10;",
    ),
    // Nor is one where a folder is expected, after another one in the same folder.
    (
        "!make d/x;!put d/x/a 1;!link d/l x;list d/x;list d/l;list d/x;list d/y;list d/x;read d/x/a",
        "d/x/a ;14;d/x/a ;;d/x/a ;1;",
    ),
    (
        "!make d/x;!put d/x/a 1;!make d/y/z;!put d/y/z/b 2;!put d/f 3;\
         list d/x;list d/y;list d/f;read d/f;list d/f/g;list d/x;list d/y/z;read d/y/z/b",
        "d/x/a ;d/y/z/b ;d/f ;3;;d/x/a ;d/y/z/b ;2;",
    ),
    // A write at one name of a file keeps the bytes under its other name.
    (
        "!put source 1;!name out odd/source;write out;read out;read source",
        "ok;hello;1;",
    ),
    // A file name is not a segment.
    (
        "!make d;!put d/x\x7f 1;list d;read d;write d;remove d;write d/y;read d/y",
        "14;10;10;10;ok;hello;",
    ),
];

#[test]
fn special_folders_are_answered(rt: HostRuntime) -> Result<(), Fail> {
    hold_in_one_build(&rt, "odd", &SPECIAL)?;
    hold_on_disk(&rt, "odd", &[], &SPECIAL)
}

/// The calls that create the folder to change: a file of five bytes and an empty one.
const BEFORE: [&str; 3] = ["!make d/e", "!put d/e/a hello", "!put d/e/z"];

const CHANGES: [Row<'static>; 30] = [
    // The folders above the file were visited.
    (
        "list d;read d/e/a;!clear d;read d/e/a;list d/e;write d/e/a;read d/e/a",
        "d/e/a d/e/z ;hello;11;;ok;hello;",
    ),
    (
        "list d;read d/e/a;!clear d;!link d nowhere;list d/e;read d/e/a;remove d/e/a",
        "d/e/a d/e/z ;hello;14;10;10;",
    ),
    // The file was listed just before, and is longer or shorter by now: the read looks it up again.
    (
        "list d/e/a;!put d/e/a hello world;read d/e/a;read d/e/a;part d/e/a",
        "d/e/a ;13;13;lo world;",
    ),
    (
        "list d/e/a;!put d/e/a he;read d/e/a;read d/e/a",
        "d/e/a ;he;he;",
    ),
    (
        "list d/e/a;!put d/e/a hell;part d/e/a;part d/e/a",
        "d/e/a ;l;l;",
    ),
    // The file was listed as empty: it is read to its end.
    (
        "list d/e/z;!put d/e/z hello;read d/e/z;list d/e/z",
        "d/e/z ;hello;d/e/z ;",
    ),
    ("list d/e/z;!put d/e/z hello world;read d/e/z", "d/e/z ;13;"),
    (
        "list d/e/z;!put d/e/z hello world;part d/e/z",
        "d/e/z ;lo world;",
    ),
    ("read d/e/z;part d/e/z;far d/e/z", ";;;"),
    // The same holds if its folder was listed and has no other file.
    (
        "!unlink d/e/z;list d;!put d/e/a hello world;read d/e/a;read d/e/a",
        "d/e/a ;13;13;",
    ),
    (
        "!unlink d/e/z;list d/e;!put d/e/a he;read d/e/a;read d/e/a",
        "d/e/a ;he;he;",
    ),
    (
        "!unlink d/e/z;list d;!put d/e/z 1;!put d/e/a hello world;read d/e/z;read d/e/a",
        "d/e/a ;1;13;",
    ),
    (
        "!unlink d/e/z;list d;!clear d;!link d nowhere;read d/e/a",
        "d/e/a ;10;",
    ),
    (
        "list d/e/a;!unlink d/e/a;read d/e/a;write d/e/a",
        "d/e/a ;11;ok;",
    ),
    (
        "list d/e/a;!clear d;!make d/e/a;part d/e/a;write d/e/a",
        "d/e/a ;11;ok;",
    ),
    ("list d/e/a;!clear d;part d/e/a", "d/e/a ;11;"),
    ("list d/e/z;!clear d;part d/e/z", "d/e/z ;11;"),
    (
        "list d/e/z;!clear d;!link d nowhere;read d/e/z",
        "d/e/z ;10;",
    ),
    ("list d/e/a;!clear d;!put d 1;read d/e/a", "d/e/a ;12;"),
    (
        "list d/e/a;!clear d;!link d nowhere;read d/e/a",
        "d/e/a ;10;",
    ),
    // Any other call in between ends this.
    (
        "list d/e/a;read b;!put d/e/a hello world;read d/e/a",
        "d/e/a ;11;13;",
    ),
    (
        "list d/e/a;part b;!put d/e/a hello world;read d/e/a",
        "d/e/a ;11;13;",
    ),
    (
        "list d/e/a;write b;!put d/e/a hello world;read d/e/a",
        "d/e/a ;ok;13;",
    ),
    (
        "list d/e/a;remove b;!put d/e/a hello world;read d/e/a",
        "d/e/a ;11;13;",
    ),
    (
        "list d/e/a;list d;!put d/e/a hello world;read d/e/a",
        "d/e/a ;d/e/a d/e/z ;13;",
    ),
    (
        "list d/e/a;list b;!put d/e/a hello world;read d/e/a",
        "d/e/a ;;13;",
    ),
    // The first write removes what a stopped build left under `.gb/new`, and leaves nothing there.
    (
        "!make .gb/new;!put .gb/new/1 left;list .gb;write b;list .gb;read b",
        ".gb/new/1 ;ok;;hello;",
    ),
    // If `.gb` is not a folder, a file is written at its place at once.
    ("!put .gb 1;write b;read b;read .gb", "ok;hello;1;"),
    ("!link .gb nowhere;write b;read b", "ok;hello;"),
    (
        "!make .gb;!link .gb/new d;write b;read b;list d",
        "ok;hello;d/e/a d/e/z ;",
    ),
];

#[test]
fn changes_from_outside_are_observed(rt: HostRuntime) -> Result<(), Fail> {
    hold_on_disk(&rt, "changed", &BEFORE, &CHANGES)
}

/// Steps, and their expected results on a folder that remembers and on one that does not.
type RememberedRow = (&'static str, &'static str, &'static str);

const REMEMBERED: [RememberedRow; 9] = [
    // A failure ends it for every listing.
    (
        "!make o;!put o/a x;list o;!unlink o/a;list o;read o/a;list o",
        "o/a ;o/a ;11;;",
        "o/a ;;11;;",
    ),
    // A write ends it for a listing of its place, and of roots above and under it.
    (
        "list f;!put f x;list f;write f;list f",
        ";;ok;f ;",
        ";f ;ok;f ;",
    ),
    (
        "write o/a;list o;!put o/b x;list o;write o/c;list o",
        "ok;o/a ;o/a ;ok;o/a o/b o/c ;",
        "ok;o/a ;o/a o/b ;ok;o/a o/b o/c ;",
    ),
    (
        "list f/g;write f;!unlink f;!make f;!put f/g x;list f/g",
        ";ok;f/g ;",
        ";ok;f/g ;",
    ),
    // So does a removal.
    (
        "write o/a;write o/b;list o;!put o/c x;list o;remove o/b;list o",
        "ok;ok;o/a o/b ;o/a o/b ;ok;o/a o/c ;",
        "ok;ok;o/a o/b ;o/a o/b o/c ;ok;o/a o/c ;",
    ),
    // Any write changes the tool's own folder.
    (
        "!make .gb/new;!put .gb/new/1 left;list .gb;list .gb;write b;list .gb",
        ".gb/new/1 ;.gb/new/1 ;ok;;",
        ".gb/new/1 ;.gb/new/1 ;ok;;",
    ),
    // A change next to the root does not end it.
    (
        "write o/a;write p;list o;!put o/b x;write ox;remove p;list o;read o/b",
        "ok;ok;o/a ;ok;ok;o/a ;x;",
        "ok;ok;o/a ;ok;ok;o/a o/b ;x;",
    ),
    // The listing that was asked for longest ago is dropped for the 33rd.
    (
        "list p0;list p1;list p2;list p3;list p4;list p5;list p6;list p7;list p8;list p9;\
         list p10;list p11;list p12;list p13;list p14;list p15;list p16;list p17;\
         list p18;list p19;list p20;list p21;list p22;list p23;list p24;list p25;\
         list p26;list p27;list p28;list p29;list p30;list p31;\
         list p0;list p32;!put p0 x;!put p1 x;list p0;list p1",
        ";;;;;;;;;;;;;;;;;;;;;;;;;;;;;;;;;;;p1 ;",
        ";;;;;;;;;;;;;;;;;;;;;;;;;;;;;;;;;;p0 ;p1 ;",
    ),
    // A file is looked up for a read after a listing that was remembered.
    (
        "!put a one;!put b two;list a;list a;!unlink a;!link a b;read a",
        "a ;a ;10;",
        "a ;a ;two;",
    ),
];

/// Fails if a new folder gives other results than a row.
fn hold_remembered(rt: &HostRuntime, row: &RememberedRow) -> Result<(), Fail> {
    let (steps, remembered, fresh) = row;
    hold_in_one_build(rt, "remembered", &[(*steps, *remembered)])?;
    hold_on_disk(rt, "remembered", &[], &[(*steps, *fresh)])
}

#[test]
fn a_folder_for_one_build_remembers(rt: HostRuntime) -> Result<(), Fail> {
    for row in &REMEMBERED {
        hold_remembered(&rt, row)?;
    }
    Ok(())
}

/// The length of a place, steps at the place, as `LONG`, and at its first segment, as `FIRST`, and
/// the expected results.
type LongRow = (usize, &'static str, &'static str);

const LONG: [LongRow; 2] = [
    (1024, "write LONG;read LONG", "ok;hello;"),
    (1025, "!make LONG;list FIRST", "14;"),
];

/// A place of this many bytes; its first segments have 255, 255, 255, 200 and more bytes.
fn long_place(alloc: Global, len: usize) -> Result<String, AllocError> {
    let mut place = String::new(alloc);
    for at in 0..len {
        let ends_a_segment = [255, 511, 767, 968].contains(&at);
        place.push(if ends_a_segment { '/' } else { 'a' })?;
    }
    Ok(place)
}

/// The steps, with a place of this many bytes replacing a word.
fn steps_at(alloc: Global, steps: &str, word: &str, len: usize) -> Result<String, Fail> {
    let place = long_place(alloc, len)?;
    if place.len() == len {
        Ok(steps.replace(alloc, word, place.as_str())?)
    } else {
        Err(Fail::new(len))
    }
}

/// Fails if a new folder gives other results than a row.
fn hold_long(rt: &HostRuntime, row: &LongRow) -> Result<(), Fail> {
    let (len, steps, wanted) = row;
    let steps = steps_at(rt.alloc(), steps, "LONG", *len)?;
    let steps = steps_at(rt.alloc(), steps.as_str(), "FIRST", 255)?;
    hold_on_disk(rt, "long", &[], &[(steps.as_str(), wanted)])
}

#[test]
fn places_have_at_most_1_024_bytes(rt: HostRuntime) -> Result<(), Fail> {
    for row in &LONG {
        hold_long(&rt, row)?;
    }
    Ok(())
}

/// Paths of folders that the test does not create, steps, and their expected results.
const PATHS: [(&str, &str, &str); 3] = [
    // No device is opened.
    (
        "/dev",
        "list null;read null;part null;remove null/a",
        "14;10;10;10;",
    ),
    ("no_such_folder", "list a;read a;write a", ";11;10;"),
    // The system reports no bytes for such a file.
    (
        "/proc/sys/kernel",
        "list ostype;read9 ostype;part ostype;far ostype;read ostype",
        "ostype ;Linux\n;ux\n;;13;",
    ),
];

#[test]
fn folders_that_are_not_made_are_answered(rt: HostRuntime) -> Result<(), Fail> {
    for (path, steps, wanted) in &PATHS {
        is_answered(wanted, on_disk(&rt, path, steps)?.as_slice())?;
    }
    Ok(())
}

/// Names of entries of a folder `d`, and the resulting places or fault.
const NAMES: [(&[u8], &str); 2] = [(b".\0..\0b\0", "d/b "), (b"a\0b\xff\0", "14")];

fn places_reported(alloc: Global, folder: &Place, names: &[u8]) -> Result<Vec<u8>, FolderFault> {
    reported(alloc, places_in(alloc, folder, names)?.as_slice())
}

fn names_reported(alloc: Global, names: &[u8]) -> Result<Vec<u8>, Fail> {
    let folder = Place::read(alloc, "d")?;
    Ok(shown(alloc, places_reported(alloc, &folder, names))?)
}

#[test]
fn names_determine_places(rt: HostRuntime) -> Result<(), Fail> {
    for (names, wanted) in &NAMES {
        is_answered(wanted, names_reported(rt.alloc(), names)?.as_slice())?;
    }
    Ok(())
}

/// How a device fails: `once`, it stops, or it stops within a write, which is `torn`.
fn mode(alloc: Global, word: &str) -> Result<FaultMode, AllocError> {
    Ok(match word {
        "once" => FaultMode::FailOnce,
        "stop" => FaultMode::Stop,
        _ => FaultMode::StopTorn(b"he".to_vec(alloc)?),
    })
}

/// How a device fails and at which call, steps, steps on what it leaves, and the expected results
/// of both.
type FailingRow = (&'static str, u64, &'static str, &'static str, &'static str);

const FAILING: [FailingRow; 5] = [
    (
        "once",
        6,
        "write a;list a;read a;part a;write a;remove a;remove a",
        "read a",
        "ok;a ;hello;lo;ok;10;ok;11;",
    ),
    (
        "stop",
        2,
        "write a;list a;read a;part a;write b;remove a",
        "read a;read b",
        "ok;10;10;10;10;10;hello;11;",
    ),
    (
        "torn",
        2,
        "write a;write b;write c;read b",
        "read a;read b;read c",
        "ok;10;10;10;hello;he;11;",
    ),
    // A torn write that is refused leaves nothing.
    (
        "torn",
        2,
        "write a;write a/b",
        "read a;read a/b",
        "ok;10;hello;12;",
    ),
    // Only the first call that fails is torn.
    (
        "torn",
        2,
        "write a;read a;write a",
        "read a",
        "ok;10;10;hello;",
    ),
];

/// The results of a folder in memory whose device fails, and then what it left.
fn on_failing(alloc: Global, row: &FailingRow) -> Result<Vec<u8>, Fail> {
    let (word, at, steps, steps_after, _) = row;
    let mode = mode(alloc, word)?;
    let mut folder = FaultyFolder::new(MemoryFolder::new(alloc), *at, mode);
    let mut all = Vec::new(alloc);
    call_all(alloc, &mut folder, steps, &mut all)?;
    call_all(alloc, &mut folder.into_inner(), steps_after, &mut all)?;
    Ok(all)
}

#[test]
fn devices_that_fail_are_reported(rt: HostRuntime) -> Result<(), Fail> {
    for row in &FAILING {
        is_answered(row.4, on_failing(rt.alloc(), row)?.as_slice())?;
    }
    Ok(())
}
