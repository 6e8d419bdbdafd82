//! The output of `gb_ask check` for a folder, as in the guide except for the outputs.
use crate::building::{is_reported, put_bytes, words_of};
use crate::offering::offered;
use gb_action::actions::Actions;
use gb_ask_command::check;
use gb_folder::memory::MemoryFolder;
use gb_kinds::builtin::Builtin;
use gb_printer::page::Page;
use gb_provider::transforms::Transforms;
use gb_query::notation::Notation;
use gb_registry::tables::Tables;
use std::alloc::Global;
use std::test::Fail;

const WRONG: &str = "register pages : copyFile {\n    inputFiles src from dir(\"src\")\n    \
     outputDir out = dir(\"build/pages\")\n}\nregister notes : copyFiles {\n    \
     inputFiles src from dir(\"notes\")\n    outputDir out = dir(\"notes/out\")\n}\n";

const FAULTS: &str =
    "build.gb:1: 40 unknown action copyFile\nbuild.gb:7: 56 output outside build :notes notes/out\n\
     -Pversion: warning: nothing reads it\n";

const RIGHT: &str = "register pages : copyFiles {\n    inputFiles src from dir(\"src\")\n    \
     outputDir out = dir(\"build/pages\")\n}\nregister notes : copyFiles {\n    \
     inputFiles src from dir(\"notes\")\n    outputDir out = dir(\"build/notes\")\n}\n";

const BARE: &str = "build.gb:5: warning: no file is at notes\n";

const MET: &str = "register a:writeText(\"x\"){outputFile out=file(\"build/a\")}\n\
     register b:writeText(\"y\"){inputFiles one from dir(\"src\")\ninputFiles two from dir(\"src\")\n\
     outputFile out=file(\"build/a\")}";

const MEETING: &str =
    "build.gb:1: 61 overlapping outputs :a :b build/a\nbuild.gb:2: warning: one and two read one folder\n";

const STALE: &str = "register a:writeText(\"x\"){enabled true\noutputFile out=file(\"build/a\")}\n\
     register b:copyFiles{dependsOn \"a\"\ninputFiles src from file(\"build/a\")\n\
     outputDir out=dir(\"build/b\")}\nregister c:copyFiles{mustRunAfter \"a\"\n\
     inputFiles src from dir(\"build/a\")\noutputDir out=dir(\"build/c\")}";

const SKIPPED: &str = "build.gb:1: warning: where :a is skipped, :b reads its old output\n\
     build.gb:6: warning: build/a overlaps an output of :a, which is not needed directly\n\
     build.gb:1: warning: where :a is skipped, :c reads its old output\n";

const BROKEN: &str = "register a {}\nregister {}\n";

/// `a` is changed after it is final.
const FINAL: &str = "property a\nset a =\n    \"1\" disallowChanges a\nset a = \"2\"\nset b = a\n";

/// Two clauses name a task that is missing.
const CLAUSE: &str = "register t : copyFiles {\n    inputFiles src from dir(\"src\")\n    \
     dependsOn \"u\"\n    mustRunAfter \"u\"\n    outputDir out = dir(\"build/t\")\n}\n";

/// Two words of the `defaultTasks` that counts have a fault.
const DEFAULTS: &str =
    "defaultTasks \"v\"\nregister t {}\ndefaultTasks \"t\", \"u\",\n    \":lib:t\"\n";

const UNKNOWN: &str = "build.gb:3: 52 task not found u\nbuild.gb:3: 50 unknown project :lib:t\n";

const UNREAD: &str = "[{\"file\":\"build.gb\",\"kind\":\"fault\",\"line\":2,\"number\":20,\
     \"text\":\"20 syntax build.gb:2\"}]\n";

const VALUE: &str = "[{\"file\":null,\"kind\":\"warning\",\"line\":null,\"number\":null,\
     \"text\":\"-Pv: nothing reads it\"}]\n";

/// Fails if something else is printed for a script, or the exit status differs.
fn is_checked<A: Actions, T: Transforms>(
    alloc: Global,
    tables: &Tables<A, T>,
    notation: Notation,
    script: &str,
    words: &str,
    text: &str,
    status: u8,
) -> Result<(), Fail> {
    let mut folder = MemoryFolder::new(alloc);
    put_bytes(alloc, &mut folder, "build.gb", script.as_bytes())?;
    put_bytes(alloc, &mut folder, "src/a", b"a")?;
    let words = words_of(alloc, words)?;
    let mut out = Vec::new(alloc);
    let got = check::run(
        alloc,
        &mut folder,
        notation,
        Ok(words),
        &mut Page::new(&mut out),
        tables,
    );
    is_reported(text, String::from_utf8(out)?.as_str())?;
    if got == Some(status) {
        Ok(())
    } else {
        Err(Fail::new("another status"))
    }
}

fn all_hold<A: Actions, T: Transforms>(alloc: Global, tables: &Tables<A, T>) -> Result<(), Fail> {
    let rows = [
        (Notation::Lines, WRONG, "-Pversion=2", FAULTS, 1),
        (Notation::Lines, RIGHT, "", BARE, 0),
        (Notation::Lines, MET, "", MEETING, 1),
        (Notation::Lines, STALE, "", SKIPPED, 0),
        (
            Notation::Lines,
            BROKEN,
            "",
            "build.gb:2: 20 syntax build.gb:2\n",
            1,
        ),
        (Notation::Lines, FINAL, "", "build.gb:4: 35 final a\n", 1),
        (
            Notation::Lines,
            CLAUSE,
            "",
            "build.gb:3: 52 task not found u\n",
            1,
        ),
        (Notation::Lines, DEFAULTS, "", UNKNOWN, 1),
        (Notation::Json, BROKEN, "", UNREAD, 1),
        (Notation::Json, "", "-Pv=1", VALUE, 0),
    ];
    for (notation, script, words, text, status) in rows {
        is_checked(alloc, tables, notation, script, words, text, status)?;
    }
    Ok(())
}

#[test]
fn faults_and_warnings_are_printed(rt: HostRuntime) -> Result<(), Fail> {
    let (actions, transforms) = offered(rt.alloc())?;
    let tables = Tables::<Builtin, Builtin> {
        actions,
        transforms,
    };
    all_hold::<Builtin, Builtin>(rt.alloc(), &tables)
}
