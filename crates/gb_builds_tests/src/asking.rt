//! The output of `gb_ask` about registered tasks, places, records, plans and scripts.
use crate::building::{is_reported, put_bytes, words_of};
use crate::offering::offered;
use gb_action::actions::Actions;
use gb_ask_command::arguments::{Colouring, Mode, Style};
use gb_ask_command::{fmt, graph, place_query, status, tasks};
use gb_cli::program::run;
use gb_folder::memory::MemoryFolder;
use gb_kinds::builtin::Builtin;
use gb_printer::page::Page;
use gb_provider::transforms::Transforms;
use gb_query::answer_lines::Activity;
use gb_query::at_place::Relation;
use gb_query::notation::Notation;
use gb_registry::tables::Tables;
use std::alloc::Global;
use std::test::Fail;

const SCRIPT: &str =
    "defaultTasks \"b\"\nregister a:writeText(\"x\"){outputFile out=file(\"build/a\")}\n\
     register b{dependsOn \"a\"\nfinalizedBy \"c\"}register c{mustRunAfter \"a\"}";

const TASKS: &str = ":a writeText -> build/a\n:b (default)\n:c\n";

const TASKS_JSON: &str =
    "[{\"actions\":[\"writeText\"],\"default\":false,\"outputs\":[\"build/a\"],\"task\":\":a\"},\
     {\"actions\":[],\"default\":true,\"outputs\":[],\"task\":\":b\"},\
     {\"actions\":[],\"default\":false,\"outputs\":[],\"task\":\":c\"}]\n";

const GRAPH_JSON: &str = "{\"edges\":[{\"from\":\":a\",\"sort\":\"needs\",\"to\":\":b\"},\
     {\"from\":\":b\",\"sort\":\"finalizedBy\",\"to\":\":c\"},\
     {\"from\":\":a\",\"sort\":\"mustRunAfter\",\"to\":\":c\"}],\
     \"tasks\":[\":a\",\":b\",\":c\"]}\n";

const DOT: &str = "digraph tasks {\n  rankdir=LR;\n  node [shape=box];\n  t0 [label=\":a\"];\n  \
     t1 [label=\":b\"];\n  t0 -> t1;\n  t1 -> t2 [style=dotted];\n  t2 [label=\":c\"];\n  \
     t0 -> t2 [style=dashed];\n}\n";

const TREE: &str = ":a\n:b\n    needs :a\n    finalized by :c\n:c\n    runs after :a\n";

/// Nothing was built.
const COLOURED: &str = ":a runs\n:b does nothing\n    needs :a\n    finalized by :c\n\
     :c does nothing\n    runs after :a\n";

const MERMAID: &str =
    "flowchart LR\n  t0[\":a\"]\n  t1[\":b\"]\n  t0 --> t1\n  t1 ==> t2\n  t2[\":c\"]\n  \
     t0 -.-> t2\n";

/// The script of the guide, and the formatted text that the guide prints.
const GUIDE: [&str; 2] = [
    r#"property greeting  // the text of all pages
set greeting="hello"


register gen:writeText(greeting){ outputFile out=buildDir.map(child("a.txt")) }
register hello {
  doLast printLine(gradleProperty("name").orElse("nobody in particular").map(append(", and all after")))
}
"#,
    r#"property greeting // the text of all pages
set greeting = "hello"

register gen : writeText(greeting) { outputFile out = buildDir.map(child("a.txt")) }
register hello {
    doLast printLine(
        gradleProperty("name").orElse("nobody in particular").map(append(", and all after"))
    )
}
"#,
];

/// A folder with a script.
fn folder(alloc: Global) -> Result<MemoryFolder, Fail> {
    let mut folder = MemoryFolder::new(alloc);
    put_bytes(alloc, &mut folder, "build.gb", SCRIPT.as_bytes())?;
    Ok(folder)
}

/// The output about the tasks.
fn listed<A: Actions, T: Transforms>(
    alloc: Global,
    tables: &Tables<A, T>,
    notation: Notation,
) -> Result<String, Fail> {
    let mut folder = folder(alloc)?;
    let words = words_of(alloc, "")?;
    let mut out = Vec::new(alloc);
    tasks::run(
        alloc,
        &mut folder,
        notation,
        Ok(words),
        &mut Page::new(&mut out),
        tables,
    );
    Ok(String::from_utf8(out)?)
}

/// The plan in a style, with these colours.
fn drawn<A: Actions, T: Transforms>(
    alloc: Global,
    tables: &Tables<A, T>,
    style: Style,
    colouring: Colouring,
) -> Result<String, Fail> {
    let mut folder = folder(alloc)?;
    let words = words_of(alloc, "")?;
    let mut out = Vec::new(alloc);
    graph::run(
        alloc,
        &mut folder,
        style,
        colouring,
        Ok(words),
        &mut Page::new(&mut out),
        tables,
    );
    Ok(String::from_utf8(out)?)
}

fn all_hold<A: Actions, T: Transforms>(alloc: Global, tables: &Tables<A, T>) -> Result<(), Fail> {
    is_reported(TASKS, listed(alloc, tables, Notation::Lines)?.as_str())?;
    is_reported(TASKS_JSON, listed(alloc, tables, Notation::Json)?.as_str())?;
    for (style, text) in [
        (Style::Dot, DOT),
        (Style::Tree, TREE),
        (Style::Mermaid, MERMAID),
        (Style::Json, GRAPH_JSON),
    ] {
        is_reported(
            text,
            drawn(alloc, tables, style, Colouring::Plain)?.as_str(),
        )?;
    }
    is_reported(
        COLOURED,
        drawn(alloc, tables, Style::Tree, Colouring::Outcomes)?.as_str(),
    )?;
    if drawn(alloc, tables, Style::Svg, Colouring::Plain)?
        .as_str()
        .ends_with("</svg>\n")
    {
        Ok(())
    } else {
        Err(Fail::new("no picture"))
    }
}

#[test]
fn tasks_and_plans_are_printed(rt: HostRuntime) -> Result<(), Fail> {
    let (actions, transforms) = offered(rt.alloc())?;
    let tables = Tables::<Builtin, Builtin> {
        actions,
        transforms,
    };
    all_hold::<Builtin, Builtin>(rt.alloc(), &tables)
}

/// The output for the script in a mode, and the exit status.
fn formatted(alloc: Global, folder: &mut MemoryFolder, mode: Mode) -> Result<(String, u8), Fail> {
    let names = words_of(alloc, "build.gb")?;
    let mut out = Vec::new(alloc);
    let status = fmt::run(
        alloc,
        folder,
        mode,
        names.as_slice(),
        b"",
        &mut Page::new(&mut out),
    );
    Ok((String::from_utf8(out)?, status.unwrap_or(9)))
}

#[test]
fn the_script_of_the_guide_is_formatted(rt: HostRuntime) -> Result<(), Fail> {
    let alloc = rt.alloc();
    let mut folder = MemoryFolder::new(alloc);
    put_bytes(alloc, &mut folder, "build.gb", GUIDE[0].as_bytes())?;
    let (reported, _) = formatted(alloc, &mut folder, Mode::Prints)?;
    is_reported(GUIDE[1], reported.as_str())
}

#[test]
fn a_script_is_formatted_once(rt: HostRuntime) -> Result<(), Fail> {
    let alloc = rt.alloc();
    let mut folder = folder(alloc)?;
    let rows = [
        (Mode::Checks, "build.gb\n", 1),
        (Mode::Writes, "build.gb\n", 0),
        (Mode::Checks, "", 0),
        (Mode::Writes, "", 0),
    ];
    for (mode, text, status) in rows {
        let (reported, got) = formatted(alloc, &mut folder, mode)?;
        is_reported(text, reported.as_str())?;
        if got != status {
            return Err(Fail::new(got));
        }
    }
    Ok(())
}

/// A site; its report has no value if none is given.
const SITE: &str = "defaultTasks \"site\"\nregister pages : copyFiles {\n    \
     inputFiles src from dir(\"src\")\n    outputDir out = dir(\"build/pages\")\n}\n\
     register site {\n    dependsOn \"pages\"\n    finalizedBy \"report\"\n}\n\
     register report : writeText(gradleProperty(\"text\")) {\n    mustRunAfter \"pages\"\n    \
     outputFile out = file(\"build/report\")\n}\n";

/// A query about a place, and its output.
type Asked<'a> = (Relation, Notation, &'a str, &'a str);

const PLACES: [Asked<'static>; 8] = [
    (
        Relation::Reads,
        Notation::Lines,
        "src/a.md -Ptext=done",
        ":pages src\n",
    ),
    (
        Relation::Makes,
        Notation::Lines,
        "build/pages/a.md -Ptext=done",
        ":pages out\n",
    ),
    (Relation::Makes, Notation::Lines, "build -Ptext=done", ""),
    (
        Relation::Reads,
        Notation::Lines,
        "src/a.md",
        ":pages src\n:report cannot be read: 33 no value :report writeText\n",
    ),
    (
        Relation::Reads,
        Notation::Json,
        "src/a.md",
        "[{\"property\":\"src\",\"task\":\":pages\"},\
         {\"fault\":\"33 no value :report writeText\",\"task\":\":report\"}]\n",
    ),
    (
        Relation::Makes,
        Notation::Json,
        "build/report -Ptext=done",
        "[{\"output\":\"out\",\"task\":\":report\"}]\n",
    ),
    (
        Relation::Reads,
        Notation::Lines,
        "../a",
        "REFUSED 2 bad place ../a\n",
    ),
    (
        Relation::Reads,
        Notation::Lines,
        "a b",
        "REFUSED 96 usage\n",
    ),
];

/// A folder with that site.
fn site(alloc: Global) -> Result<MemoryFolder, Fail> {
    let mut folder = MemoryFolder::new(alloc);
    put_bytes(alloc, &mut folder, "build.gb", SITE.as_bytes())?;
    put_bytes(alloc, &mut folder, "src/a.md", b"a")?;
    Ok(folder)
}

/// The output about a place.
fn related<A: Actions, T: Transforms>(
    alloc: Global,
    tables: &Tables<A, T>,
    asked: &Asked<'_>,
) -> Result<String, Fail> {
    let mut folder = site(alloc)?;
    let words = words_of(alloc, asked.2)?;
    let mut out = Vec::new(alloc);
    place_query::run(
        alloc,
        &mut folder,
        asked.1,
        asked.0,
        Ok(words),
        &mut Page::new(&mut out),
        tables,
    );
    Ok(String::from_utf8(out)?)
}

/// The output about the folder.
fn status_of<A: Actions, T: Transforms>(
    alloc: Global,
    folder: &mut MemoryFolder,
    tables: &Tables<A, T>,
    notation: Notation,
    activity: Activity,
) -> Result<String, Fail> {
    let words = words_of(alloc, "-Ptext=done")?;
    let mut out = Vec::new(alloc);
    status::run(
        alloc,
        folder,
        notation,
        activity,
        Ok(words),
        &mut Page::new(&mut out),
        tables,
    );
    Ok(String::from_utf8(out)?)
}

/// Builds the site.
fn built<A: Actions, T: Transforms>(
    alloc: Global,
    tables: &Tables<A, T>,
) -> Result<MemoryFolder, Fail> {
    let mut folder = site(alloc)?;
    let words = words_of(alloc, "-Ptext=done")?;
    let mut out = Vec::new(alloc);
    run(
        alloc,
        &mut folder,
        Ok(words),
        &mut Page::new(&mut out),
        tables,
    );
    Ok(folder)
}

/// Fails if something else is printed about the folder after some of its records are damaged or
/// belong to no task, and other files are in `.gb`.
fn is_status<A: Actions, T: Transforms>(alloc: Global, tables: &Tables<A, T>) -> Result<(), Fail> {
    let mut folder = built(alloc, tables)?;
    put_bytes(
        alloc,
        &mut folder,
        "build.gb",
        b"register other {}\nregister report {}",
    )?;
    put_bytes(alloc, &mut folder, ".gb/tasks/other.record", b"x")?;
    put_bytes(alloc, &mut folder, ".gb/tasks/other.txt", b"x")?;
    let text = status_of(alloc, &mut folder, tables, Notation::Lines, Activity::Idle)?;
    is_reported(STATUS, text.as_str())?;
    let text = status_of(alloc, &mut folder, tables, Notation::Json, Activity::Builds)?;
    is_reported(STATUS_JSON, text.as_str())
}

const STATUS: &str = "no build runs\n:other damaged record\n.gb/tasks/other.txt not a record\n\
     :pages record of a task that no script registers\n:report record\n";

const STATUS_JSON: &str =
    "{\"build\":\"runs\",\"files\":[{\"kind\":\"damaged\",\"task\":\":other\"},\
     {\"kind\":\"foreign\",\"place\":\".gb/tasks/other.txt\"},\
     {\"kind\":\"unregistered\",\"task\":\":pages\"},{\"kind\":\"record\",\"task\":\":report\"}]}\n";

fn are_related<A: Actions, T: Transforms>(
    alloc: Global,
    tables: &Tables<A, T>,
) -> Result<(), Fail> {
    for asked in &PLACES {
        is_reported(asked.3, related(alloc, tables, asked)?.as_str())?;
    }
    is_status(alloc, tables)
}

#[test]
fn places_and_records_are_printed(rt: HostRuntime) -> Result<(), Fail> {
    let (actions, transforms) = offered(rt.alloc())?;
    let tables = Tables::<Builtin, Builtin> {
        actions,
        transforms,
    };
    are_related::<Builtin, Builtin>(rt.alloc(), &tables)
}
