//! Patterns, and the files, the digests and the changes of a folder.
use crate::steps::cut;
use gb_action::change::Change;
use gb_action::files::Files;
use gb_action::snapshot::Snapshot;
use gb_core::name::Name;
use gb_core::place::{Place, RelPath};
use gb_folder::faulty::{FaultMode, FaultyFolder};
use gb_folder::folder::Folder;
use gb_folder::memory::MemoryFolder;
use gb_tree::ahead::read_ahead;
use gb_tree::changes::compare;
use gb_tree::digest::prints;
use gb_tree::digest_cache::DigestCache;
use gb_tree::fault::TreeFault;
use gb_tree::output::{output_prints, output_reading, outputs};
use gb_tree::pattern::Pattern;
use gb_tree::prints::Prints;
use gb_tree::property::{Naming, prints_of, snapshot};
use std::alloc::{AllocError, Global};
use std::test::Fail;

/// Steps, with a `;` between them, and the expected output. A step is a word of [`take_step`],
/// [`report`] or [`report_files`], and its operands: a path and a text or a number, a pattern and a
/// place, or places of a folder with patterns.
type Row = (&'static str, &'static str);

/// This many bytes; each depends on its index.
fn bytes_of(alloc: Global, count: usize) -> Result<Vec<u8>, AllocError> {
    let mut bytes = Vec::with_capacity(alloc, count)?;
    for index in 0..count {
        bytes.push((index % 251) as u8)?;
    }
    Ok(bytes)
}

fn write<F: Folder>(alloc: Global, folder: &mut F, path: &str, bytes: &[u8]) -> Result<(), Fail> {
    Ok(folder.write(&Place::read(alloc, path)?, bytes, u64::MAX)?)
}

/// Writes this many empty files under a path, with numbers as their names.
fn write_many<F: Folder>(
    alloc: Global,
    folder: &mut F,
    path: &str,
    count: usize,
) -> Result<(), Fail> {
    for number in 0..count {
        let path = format!(in alloc; "{path}/{number}")?;
        write(alloc, folder, path.as_str(), b"")?;
    }
    Ok(())
}

/// Writes a file of this many bytes.
fn write_bytes<F: Folder>(
    alloc: Global,
    folder: &mut F,
    path: &str,
    count: usize,
) -> Result<(), Fail> {
    let bytes = bytes_of(alloc, count)?;
    write(alloc, folder, path, bytes.as_slice())
}

/// Adds how a copy of a pattern is shown, in two ways, and whether it matches a place.
fn push_match(pattern: &Pattern, place: &Place, all: &mut String) -> Result<(), AllocError> {
    let copy = pattern.copy()?;
    write!(all, "{} {copy} {};", copy.as_str(), copy.matches(place))
}

/// Adds the output for the pattern of a text, or the number of its fault.
fn push_pattern(alloc: Global, text: &str, place: &str, all: &mut String) -> Result<(), Fail> {
    let place = Place::read(alloc, place)?;
    match Pattern::read(alloc, text) {
        Ok(pattern) => Ok(push_match(&pattern, &place, all)?),
        Err(fault) => Ok(write!(all, "{};", fault.number())?),
    }
}

/// A query of a folder: its places, with patterns that include or exclude files.
#[derive(Drop)]
struct Asked {
    name: Name,
    naming: Naming,
    places: Vec<Place>,
    include: Vec<Pattern>,
    exclude: Vec<Pattern>,
}

/// Adds a pattern after a `+` or a `-`, which includes or excludes files, or a place.
fn add(alloc: Global, asked: &mut Asked, text: &str) -> Result<(), Fail> {
    if let Some(text) = text.strip_prefix('+') {
        asked.include.push(Pattern::read(alloc, text)?)?;
    } else if let Some(text) = text.strip_prefix('-') {
        asked.exclude.push(Pattern::read(alloc, text)?)?;
    } else {
        asked.places.push(Place::read(alloc, text)?)?;
    }
    Ok(())
}

/// The query of a word and the texts after it.
fn asked_of(alloc: Global, word: &str, texts: &str) -> Result<Asked, Fail> {
    let is_named = word == "names";
    let mut asked = Asked {
        name: Name::read(alloc, "src")?,
        naming: if is_named {
            Naming::NameOnly
        } else {
            Naming::Relative
        },
        places: Vec::new(alloc),
        include: Vec::new(alloc),
        exclude: Vec::new(alloc),
    };
    for text in texts.split_whitespace() {
        add(alloc, &mut asked, text)?;
    }
    Ok(asked)
}

/// The files of an output or of a property.
fn files_asked<F: Folder>(
    alloc: Global,
    folder: &mut F,
    word: &str,
    asked: &Asked,
) -> Result<Snapshot, TreeFault> {
    match (word, asked.places.as_slice()) {
        ("outputs", [place]) => outputs(alloc, folder, &asked.name, place),
        (_, roots) => snapshot(
            alloc,
            folder,
            &asked.name,
            asked.naming,
            roots,
            asked.include.as_slice(),
            asked.exclude.as_slice(),
        ),
    }
}

/// The prints of an output as it is read where the digests of these files are remembered.
fn prints_read<F: Folder>(
    alloc: Global,
    folder: &mut F,
    name: &Name,
    place: &Place,
    seen: &DigestCache,
) -> Result<Prints, TreeFault> {
    let mut room = 65_600;
    let reading = output_reading(alloc, folder, name, place, seen, &mut room)?;
    Ok(reading.prints(alloc)?)
}

/// The prints of an output or of a property.
fn prints_asked<F: Folder>(
    alloc: Global,
    folder: &mut F,
    word: &str,
    asked: &Asked,
) -> Result<Prints, TreeFault> {
    match (word, asked.places.as_slice()) {
        ("output-digests", [place]) => output_prints(alloc, folder, &asked.name, place),
        ("read-digests", [place]) => {
            let seen = DigestCache::new(alloc);
            prints_read(alloc, folder, &asked.name, place, &seen)
        }
        ("ahead-digests", [place, _]) => {
            let mut seen = DigestCache::new(alloc);
            read_ahead(alloc, folder, &asked.places[1..], &mut seen);
            prints_read(alloc, folder, &asked.name, place, &seen)
        }
        (_, roots) => prints_of(
            alloc,
            folder,
            &asked.name,
            asked.naming,
            roots,
            asked.include.as_slice(),
            asked.exclude.as_slice(),
        ),
    }
}

/// Adds a line for each file, with its path and how many bytes it has.
fn push_files(all: &mut String, files: &Files) -> Result<(), TreeFault> {
    for (path, bytes) in files.as_slice() {
        writeln!(all, "{path} {}", bytes.as_slice().len())?;
    }
    Ok(())
}

/// Adds a line for each path, with the name of the prints and its digest in hexadecimal.
fn push_prints(alloc: Global, all: &mut String, prints: &Prints) -> Result<(), TreeFault> {
    let name = prints.name();
    for (path, digest) in prints.as_slice() {
        let digest = hex::encode(alloc, digest.as_slice())?;
        writeln!(all, "{name} {path} {digest}")?;
    }
    Ok(())
}

/// A letter and the path of a change.
fn parts(change: &Change) -> (char, &RelPath) {
    match change {
        Change::Added(path) => ('A', path),
        Change::Modified(path) => ('M', path),
        Change::Removed(path) => ('R', path),
    }
}

/// Adds a line for each change.
fn push_changes(
    alloc: Global,
    all: &mut String,
    old: &Prints,
    new: &Prints,
) -> Result<(), TreeFault> {
    let changes = compare(alloc, old, new)?;
    for change in changes.as_slice() {
        let (letter, path) = parts(change);
        writeln!(all, "{letter} {path}")?;
    }
    Ok(())
}

/// Adds what changes from the files at the first place to those at the second.
fn report_changes<F: Folder>(
    alloc: Global,
    folder: &mut F,
    asked: &Asked,
    all: &mut String,
) -> Result<(), TreeFault> {
    let [before, after] = asked.places.as_slice() else {
        return Ok(());
    };
    let old = output_prints(alloc, folder, &asked.name, before)?;
    let new = output_prints(alloc, folder, &asked.name, after)?;
    push_changes(alloc, all, &old, &new)
}

/// Adds how many files there are, their prints or the files.
fn report_files(
    alloc: Global,
    word: &str,
    snapshot: &Snapshot,
    all: &mut String,
) -> Result<(), TreeFault> {
    match word {
        "count" => Ok(write!(all, "{}", snapshot.files().len())?),
        "prints" => push_prints(alloc, all, &prints(alloc, snapshot)?),
        _ => push_files(all, snapshot.files()),
    }
}

/// Adds the output for a folder.
fn report<F: Folder>(
    alloc: Global,
    folder: &mut F,
    word: &str,
    asked: &Asked,
    all: &mut String,
) -> Result<(), TreeFault> {
    match word {
        "changes" => report_changes(alloc, folder, asked, all),
        "digests" | "output-digests" | "read-digests" | "ahead-digests" => {
            push_prints(alloc, all, &prints_asked(alloc, folder, word, asked)?)
        }
        _ => report_files(alloc, word, &files_asked(alloc, folder, word, asked)?, all),
    }
}

/// Adds the number of a fault and the fault.
fn push_fault(fault: &TreeFault, all: &mut String) -> Result<(), AllocError> {
    write!(all, "{} {fault};", fault.number())
}

/// Adds the output for a folder, or its fault.
fn report_or_fail<F: Folder>(
    alloc: Global,
    folder: &mut F,
    word: &str,
    asked: &Asked,
    all: &mut String,
) -> Result<(), AllocError> {
    match report(alloc, folder, word, asked, all) {
        Ok(()) => all.push(';'),
        Err(fault) => push_fault(&fault, all),
    }
}

fn ask<F: Folder>(
    alloc: Global,
    folder: &mut F,
    word: &str,
    texts: &str,
    all: &mut String,
) -> Result<(), Fail> {
    let asked = asked_of(alloc, word, texts)?;
    Ok(report_or_fail(alloc, folder, word, &asked, all)?)
}

/// Writes a file or files, or adds the output for a pattern or for the folder.
fn take_step<F: Folder>(
    alloc: Global,
    folder: &mut F,
    step: &str,
    all: &mut String,
) -> Result<(), Fail> {
    let (word, rest) = cut(step, ' ');
    let (first, second) = cut(rest, ' ');
    let count = second.parse().unwrap_or(0);
    match word {
        "put" => write(alloc, folder, first, second.as_bytes()),
        "bytes" => write_bytes(alloc, folder, first, count),
        "many" => write_many(alloc, folder, first, count),
        "pattern" => push_pattern(alloc, first, second, all),
        "letters" => push_pattern(alloc, first, "a".repeat(alloc, 1000)?.as_str(), all),
        _ => ask(alloc, folder, word, rest, all),
    }
}

fn take_steps<F: Folder>(
    alloc: Global,
    folder: &mut F,
    steps: &str,
    all: &mut String,
) -> Result<(), Fail> {
    for step in steps.split(';') {
        take_step(alloc, folder, step, all)?;
    }
    Ok(())
}

/// Fails with the output if it is not the expected one.
fn hold_row(alloc: Global, steps: &str, wanted: &str) -> Result<(), Fail> {
    let mut all = String::new(alloc);
    take_steps(alloc, &mut MemoryFolder::new(alloc), steps, &mut all)?;
    if all.as_str() == wanted {
        Ok(())
    } else {
        Err(Fail::new(all.as_str()))
    }
}

/// Fails at the first row with another output.
fn hold(alloc: Global, rows: &[Row]) -> Result<(), Fail> {
    for (steps, wanted) in rows {
        hold_row(alloc, steps, wanted)?;
    }
    Ok(())
}

const PATTERNS: [Row; 16] = [
    // Texts are read.
    (
        "pattern  a;pattern / a;pattern /a a;pattern a//b a;pattern a\\b a;pattern ../a a;pattern ./a a",
        "70;70;70;70;70;70;70;",
    ),
    (
        "pattern src/ a;pattern *.txt a",
        "src/** src/** false;*.txt *.txt false;",
    ),
    // Segments are matched.
    (
        "pattern **/*.txt a.txt;pattern **/*.txt d/a.txt;pattern **/*.txt d/e/a.txt;pattern **/*.txt a.txt.b",
        "**/*.txt **/*.txt true;**/*.txt **/*.txt true;**/*.txt **/*.txt true;**/*.txt **/*.txt false;",
    ),
    (
        "pattern src/ src/a/b;pattern src/ src;pattern src/ srcx/a",
        "src/** src/** true;src/** src/** true;src/** src/** false;",
    ),
    (
        "pattern a/** a;pattern a/** a/b/c;pattern a/** b/a",
        "a/** a/** true;a/** a/** true;a/** a/** false;",
    ),
    ("pattern ** a/b", "** ** true;"),
    (
        "pattern **/b/**/d a/b/c/d;pattern **/b/**/d b/d;pattern **/b/**/d a/d",
        "**/b/**/d **/b/**/d true;**/b/**/d **/b/**/d true;**/b/**/d **/b/**/d false;",
    ),
    (
        "pattern a* abc;pattern a* a;pattern a* a/b",
        "a* a* true;a* a* true;a* a* false;",
    ),
    (
        "pattern *** a;pattern *** a/b",
        "*** *** true;*** *** false;",
    ),
    ("pattern A a", "A A false;"),
    // Characters are matched.
    (
        "pattern ?.c a.c;pattern ?.c ab.c;pattern ?.c .c;pattern ?.c é.c",
        "?.c ?.c true;?.c ?.c false;?.c ?.c false;?.c ?.c true;",
    ),
    ("pattern ??.c é.c", "??.c ??.c false;"),
    ("pattern *é aé", "*é *é true;"),
    ("pattern a**b ab", "a**b a**b true;"),
    (
        "pattern a*b*c axbxbxc;pattern a*b*c axbx",
        "a*b*c a*b*c true;a*b*c a*b*c false;",
    ),
    // Many stars take no longer with many letters.
    (
        "letters *a*a*a*a*b;letters *a*a*a*a*",
        "*a*a*a*a*b *a*a*a*a*b false;*a*a*a*a* *a*a*a*a* true;",
    ),
];

#[test]
fn patterns_are_matched(rt: HostRuntime) -> Result<(), Fail> {
    hold(rt.alloc(), &PATTERNS)
}

const OUTPUTS: [Row; 2] = [
    (
        "put build/x 123;put out/b 1;put out/a/c;put out/a-c 12;put outer 1;\
         outputs build/x;outputs out;outputs none",
        " 3\n;a-c 2\na/c 0\nb 1\n;;",
    ),
    // The tool's own folder has no outputs.
    (
        "put .gb/state/a 1;put .gbx/b 12;outputs .gb;outputs .gb/state;outputs .gb/state/a;outputs .gbx",
        ";;;b 2\n;",
    ),
];

#[test]
fn outputs_exist_by_their_paths(rt: HostRuntime) -> Result<(), Fail> {
    hold(rt.alloc(), &OUTPUTS)
}

const PROPERTIES: [Row; 6] = [
    // Roots have their files.
    (
        "put m/a 1;put m/sub/b 12;put m-x 123;put n/a 1234;\
         files m m;files m m/sub;files m/sub/b;files m-x m/sub;files m n;files none",
        "a 1\nsub/b 2\n;a 1\nb 2\nsub/b 2\n;b 2\n;b 2\nm-x 3\n;71 duplicate input src a;;",
    ),
    // A folder does not count as a file at the same path.
    (
        "put x/m;put y/m-n;put z/m/c;put z/m/b;files x y z;files y z",
        "71 duplicate input src m/b;m-n 0\nm/b 0\nm/c 0\n;",
    ),
    // The tool's own folder is ignored.
    (
        "put .gb/state/a;put .gbx/b;put m/.gb/c;files .gb .gb/state .gbx m",
        ".gb/c 0\nb 0\n;",
    ),
    // Files are listed by their names.
    ("put m/d/a 1;put m/b 12;names m", "a 1\nb 2\n;"),
    (
        "put m/d/a 1;put m/a 12;names m",
        "71 duplicate input src a;",
    ),
    // Patterns include files.
    (
        "put m/a.txt;put m/d/b.txt;put m/d/c;\
         names m;names m +**/*.txt;names m +d/;names m +*.txt +d/c;names m +**/*.txt -d/;names m -d/b.txt",
        "a.txt 0\nb.txt 0\nc 0\n;a.txt 0\nb.txt 0\n;b.txt 0\nc 0\n;a.txt 0\nc 0\n;a.txt 0\n;\
         a.txt 0\nc 0\n;",
    ),
];

#[test]
fn properties_have_their_files(rt: HostRuntime) -> Result<(), Fail> {
    hold(rt.alloc(), &PROPERTIES)
}

const STARTS: [Row; 5] = [
    // A folder that two includes name returns each file once.
    (
        "put x/m/f 1;put x/m/a/g 12;put x/m-a/h 123;put x/n 1;\
         files x +m/** +m/a/**;files x +m/a/* +m/*;names x +m/a/** +m/** +m/a/g",
        "m/a/g 2\nm/f 1\n;m/a/g 2\nm/f 1\n;f 1\ng 2\n;",
    ),
    // A pattern without `*` and `?` is looked up at its own place.
    (
        "put x/a/b 1;put x/c 12;files x +a/b;files x +a/b +c;files x +a;files x +d",
        "a/b 1\n;a/b 1\nc 2\n;;;",
    ),
    // A root that is a file is matched by its name.
    (
        "put x/m 1;files x/m +m;files x/m +m/**;files x/m +m/*;files x/m +*;files x/m +n",
        "m 1\n;m 1\n;;m 1\n;;",
    ),
    (
        "put m/m/a 1;put m/b 12;files m +m/**;files m +m/** -m/a",
        "m/a 1\n;;",
    ),
    // Nested roots keep their own paths.
    (
        "put m/a/b 1;files m m/a +a/** +b;files m m/a +a/b;names m m/a +a/** +b",
        "a/b 1\nb 1\n;a/b 1\n;71 duplicate input src b;",
    ),
];

#[test]
fn files_exist_at_the_prefixes_of_patterns(rt: HostRuntime) -> Result<(), Fail> {
    hold(rt.alloc(), &STARTS)
}

/// The files of a folder, the call at which its device fails, counted from 1, the query after that,
/// and the expected output.
type Failing = (&'static str, u64, &'static str, &'static str);

/// Each call of the device is at a place that the includes name, and a folder is listed once.
const CALLS: [Failing; 5] = [
    (
        "put x/m/f 1;put x/n/g 12",
        1,
        "files x +m/**",
        "10 device x/m;",
    ),
    (
        "put x/m/f 1;put x/n/g 12",
        2,
        "files x +m/**",
        "10 device x/m/f;",
    ),
    ("put x/m/f 1;put x/n/g 12", 3, "files x +m/**", "m/f 1\n;"),
    (
        "put x/m/a/g 1",
        2,
        "files x +m/a/** +m/**",
        "10 device x/m/a/g;",
    ),
    (
        "put x/m/f 1;put x/n/g 12",
        1,
        "files x +m/** +*.md",
        "10 device x;",
    ),
];

/// Fails with the output if it is not the expected one.
fn hold_call(alloc: Global, row: &Failing) -> Result<(), Fail> {
    let (files, at, asked, wanted) = row;
    let mut all = String::new(alloc);
    let mut folder = MemoryFolder::new(alloc);
    take_steps(alloc, &mut folder, files, &mut all)?;
    let mut faulty = FaultyFolder::new(folder, *at, FaultMode::FailOnce);
    take_steps(alloc, &mut faulty, asked, &mut all)?;
    if all.as_str() == *wanted {
        Ok(())
    } else {
        Err(Fail::new(all.as_str()))
    }
}

#[test]
fn what_no_include_names_is_not_looked_at(rt: HostRuntime) -> Result<(), Fail> {
    for row in CALLS {
        hold_call(rt.alloc(), &row)?;
    }
    Ok(())
}

const DIGESTS: [Row; 9] = [
    // Digests are those of the standard.
    (
        "put m/b;put m/a abc;prints m",
        "src a ba7816bf8f01cfea414140de5dae2223b00361a396177a9cb410ff61f20015ad\n\
         src b e3b0c44298fc1c149afbf4c8996fb92427ae41e4649b934ca495991b7852b855\n;",
    ),
    // Changes are listed by path.
    (
        "put m/a 1;put m/b 2;put n/b 3;put n/c 1;put o/a 1;put o/b 2;changes m n;changes m o",
        "R a\nM b\nA c\n;;",
    ),
    // Pieces make up the file.
    (
        "bytes m/a 0;digests m;output-digests m",
        "src a e3b0c44298fc1c149afbf4c8996fb92427ae41e4649b934ca495991b7852b855\n;\
         src a e3b0c44298fc1c149afbf4c8996fb92427ae41e4649b934ca495991b7852b855\n;",
    ),
    (
        "bytes m/a 65535;digests m;output-digests m",
        "src a dda402a2c028f0cbbdbc5c6ebae965eed9c75f71236e7022b0386d3455d5ae2f\n;\
         src a dda402a2c028f0cbbdbc5c6ebae965eed9c75f71236e7022b0386d3455d5ae2f\n;",
    ),
    (
        "bytes m/a 65536;digests m;output-digests m",
        "src a 4b640d85ab3ba30fd02c9fc9db4a8928f416322ad27022ea58a65aaee68a4df2\n;\
         src a 4b640d85ab3ba30fd02c9fc9db4a8928f416322ad27022ea58a65aaee68a4df2\n;",
    ),
    (
        "bytes m/a 65537;digests m;output-digests m",
        "src a 237356e18b503616912abb8ffaed3a72591e397d4ac294c4637917d48a3f529d\n;\
         src a 237356e18b503616912abb8ffaed3a72591e397d4ac294c4637917d48a3f529d\n;",
    ),
    (
        "bytes m/a 131072;digests m;output-digests m",
        "src a feb1e4409d009e0ec502eaabe321f86b5197a881e9b765252ec8a75d6957596d\n;\
         src a feb1e4409d009e0ec502eaabe321f86b5197a881e9b765252ec8a75d6957596d\n;",
    ),
    // Small files are digested four at a time, and larger ones in their order.
    (
        "put m/a abc;put m/b;bytes m/c 65535;put m/d 1;put m/e 2;bytes m/f 65536;\
         put m/g 3;bytes m/h 55;bytes m/i 56;bytes m/j 200;put m/k 4;\
         read-digests m",
        "src a ba7816bf8f01cfea414140de5dae2223b00361a396177a9cb410ff61f20015ad\n\
         src b e3b0c44298fc1c149afbf4c8996fb92427ae41e4649b934ca495991b7852b855\n\
         src c dda402a2c028f0cbbdbc5c6ebae965eed9c75f71236e7022b0386d3455d5ae2f\n\
         src d 6b86b273ff34fce19d6b804eff5a3f5747ada4eaa22f1d49c01e52ddb7875b4b\n\
         src e d4735e3a265e16eee03f59718b9b5d03019c07d8b6c51f90da3a666eec13ab35\n\
         src f 4b640d85ab3ba30fd02c9fc9db4a8928f416322ad27022ea58a65aaee68a4df2\n\
         src g 4e07408562bedb8b60ce05c1decfe3ad16b72230967de01f640b7e4729b49fce\n\
         src h 463eb28e72f82e0a96c0a4cc53690c571281131f672aa229e0d45ae59b598b59\n\
         src i da2ae4d6b36748f2a318f23e7ab1dfdf45acdc9d049bd80e59de82a60895f562\n\
         src j 1901da1c9f699b48f6b2636e65cbf73abf99d0441ef67f5c540a42f7051dec6f\n\
         src k 4b227777d4dd1fc61c6f884f48641d02b4d121d3fd328cb08b5531fcacdabf8a\n;",
    ),
    // A file that was read ahead, and one next to it. What cannot be read ahead is passed over.
    (
        "put m/a abc;put m/b;ahead-digests m m/a;ahead-digests m n",
        "src a ba7816bf8f01cfea414140de5dae2223b00361a396177a9cb410ff61f20015ad\n\
         src b e3b0c44298fc1c149afbf4c8996fb92427ae41e4649b934ca495991b7852b855\n;\
         src a ba7816bf8f01cfea414140de5dae2223b00361a396177a9cb410ff61f20015ad\n\
         src b e3b0c44298fc1c149afbf4c8996fb92427ae41e4649b934ca495991b7852b855\n;",
    ),
];

#[test]
fn digests_are_reported(rt: HostRuntime) -> Result<(), Fail> {
    hold(rt.alloc(), &DIGESTS)
}

/// Files with as many bytes as are read, and with one more.
const LARGE: [Row; 2] = [
    (
        "bytes m/a 8388608;outputs m;digests m",
        "a 8388608\n;src a bdf23837181f5808331800c1ae2b4f7d7a839536b10d58491471c50dde23833a\n;",
    ),
    (
        "bytes m/a 8388609;outputs m;digests m",
        "13 too large m/a;13 too large m/a;",
    ),
];

#[test]
fn eight_mebibytes_are_read(rt: HostRuntime) -> Result<(), Fail> {
    hold(rt.alloc(), &LARGE)
}

/// As many files as are read, and one more.
const MANY: [Row; 2] = [
    ("many m 65536;count m", "65536;"),
    ("many m 65537;files m", "72 too many files src;"),
];

#[test]
fn many_files_are_read(rt: HostRuntime) -> Result<(), Fail> {
    hold(rt.alloc(), &MANY)
}
