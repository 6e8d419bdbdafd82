//! Texts from outside, and how they are read.
//!
//! Each case is a function that returns whether it holds, so that no assertion is made while values
//! are alive.
use gb_script::fault::ScriptFault;
use gb_script::script::{Clause, Statement};
use gb_script::script_expression::{Expression, Source};
use gb_script::{StatementLines, read_script, read_script_lines, read_settings};
use std::alloc::{AllocError, Global};
use std::test::Fail;

/// The text that `Debug` writes around the parts of a script under test.
const WRAPPINGS: [&str; 12] = [
    " ",
    "{",
    "}",
    "Nametext:Texttext:",
    "Texttext:",
    "Rowitems:",
    "Expressionsitems:",
    "Expressionsource:",
    "Blockclauses:",
    "Scriptstatements:",
    "Settingsincludes:",
    ",steps:[]",
];

fn unwrapped(alloc: Global, text: String) -> Result<String, AllocError> {
    let mut out = text;
    for wrapping in &WRAPPINGS {
        out = out.replace(alloc, *wrapping, "")?;
    }
    Ok(out)
}

/// The reading of the bytes: a script, or the fault's number and text.
fn reported(alloc: Global, bytes: &[u8]) -> Result<String, AllocError> {
    match read_script(alloc, bytes) {
        Ok(script) => unwrapped(alloc, format!(in alloc; "{script:?}")?),
        Err(fault) => format!(in alloc; "{} {fault}", fault.number()),
    }
}

/// The reading of the bytes: settings, or the fault's number and text.
fn reported_settings(alloc: Global, bytes: &[u8]) -> Result<String, AllocError> {
    match read_settings(alloc, bytes) {
        Ok(settings) => unwrapped(alloc, format!(in alloc; "{settings:?}")?),
        Err(fault) => format!(in alloc; "{} {fault}", fault.number()),
    }
}

fn is_reported(alloc: Global, bytes: &[u8], want: &str) -> Result<bool, AllocError> {
    Ok(reported(alloc, bytes)?.as_str() == want)
}

fn is_reported_of_settings(alloc: Global, bytes: &[u8], want: &str) -> Result<bool, AllocError> {
    Ok(reported_settings(alloc, bytes)?.as_str() == want)
}

fn is_read(alloc: Global, text: &str) -> bool {
    read_script(alloc, text.as_bytes()).is_ok()
}

/// Fails with the name of the first case that does not hold.
fn all_hold(cases: &[(&str, bool)]) -> Result<(), Fail> {
    for case in cases {
        if !case.1 {
            return Err(Fail::new(case.0));
        }
    }
    Ok(())
}

/// A text, and its reading.
type Case = (&'static str, &'static str);

/// A prefix and a suffix.
type Pair = [&'static str; 2];

fn between(alloc: Global, around: &Pair, text: &str) -> Result<String, AllocError> {
    repeated(alloc, around[0], text, 1, around[1])
}

fn is_reported_between(
    alloc: Global,
    around: &Pair,
    around_reported: &Pair,
    case: &Case,
) -> Result<bool, AllocError> {
    let text = between(alloc, around, case.0)?;
    let want = between(alloc, around_reported, case.1)?;
    is_reported(alloc, text.as_bytes(), want.as_str())
}

/// Whether each text between the first two reads as its own reading between the last two; if not,
/// which one does not.
fn are_reported(
    alloc: Global,
    around: Pair,
    around_reported: Pair,
    cases: &[Case],
) -> Result<(), Fail> {
    for case in cases {
        if is_reported_between(alloc, &around, &around_reported, case) != Ok(true) {
            return Err(Fail::new(case.0));
        }
    }
    Ok(())
}

const NONE: Pair = ["", ""];

/// The part, repeated this many times, between a prefix and a suffix.
fn repeated(
    alloc: Global,
    prefix: &str,
    part: &str,
    count: usize,
    back: &str,
) -> Result<String, AllocError> {
    let mut out = String::from_str(alloc, prefix)?;
    for _ in 0..count {
        out.push_str(part)?;
    }
    out.push_str(back)?;
    Ok(out)
}

const STATEMENTS: [Case; 12] = [
    ("", "[]"),
    (" \t\r\n// nothing", "[]"),
    ("defaultTasks \"a\", \"b\"", "[DefaultTasks([\"a\",\"b\"])]"),
    ("property a", "[Property(\"a\")]"),
    (
        "set a = \"x\"",
        "[Set(Assignmentname:\"a\",value:Text(\"x\"))]",
    ),
    (
        "convention a = b",
        "[Convention(Assignmentname:\"a\",value:Property(\"b\"))]",
    ),
    ("unset a", "[Unset(\"a\")]"),
    ("disallowChanges a", "[DisallowChanges(\"a\")]"),
    (
        "register a{}",
        "[Register(Registrationname:\"a\",action:None,block:[])]",
    ),
    (
        "register a : k(\"x\", y) {}",
        "[Register(Registrationname:\"a\",action:Some(Callname:\"k\",arguments:[Text(\"x\"),\
         Property(\"y\")]),block:[])]",
    ),
    (
        "named a { enabled true }",
        "[Named(Configurationname:\"a\",block:[Enabled(Flag(true))])]",
    ),
    (
        "property set property x9-_Y//c \" {\nunset register// at the end",
        "[Property(\"set\"),Property(\"x9-_Y\"),Unset(\"register\")]",
    ),
];

#[test]
fn reads_each_statement(rt: HostRuntime) -> Result<(), Fail> {
    are_reported(rt.alloc(), NONE, NONE, &STATEMENTS)
}

const CLAUSES: [Case; 14] = [
    ("", ""),
    (
        "input a = false",
        "Input(Assignmentname:\"a\",value:Flag(false))",
    ),
    (
        "inputFiles src from dir(\"a\")",
        "InputFiles(InputFilesname:\"src\",incremental:false,skip_when_empty:false,name_only:false,\
         from:[Dir(\"a\")],include:[],exclude:[])",
    ),
    (
        "inputFiles src incremental skipWhenEmpty nameOnly from a, b include \"x\", \"y\" exclude \"z\"",
        "InputFiles(InputFilesname:\"src\",incremental:true,skip_when_empty:true,name_only:true,\
         from:[Property(\"a\"),Property(\"b\")],include:[\"x\",\"y\"],exclude:[\"z\"])",
    ),
    (
        "inputFiles from skipWhenEmpty from from exclude \"z\"",
        "InputFiles(InputFilesname:\"from\",incremental:false,skip_when_empty:true,name_only:false,\
         from:[Property(\"from\")],include:[],exclude:[\"z\"])",
    ),
    (
        "outputFile out = file(\"a/b\")",
        "OutputFile(Assignmentname:\"out\",value:File(\"a/b\"))",
    ),
    (
        "outputDir out = buildDir",
        "OutputDir(Assignmentname:\"out\",value:BuildDir)",
    ),
    ("dependsOn \"a\", \"b\"", "DependsOn([\"a\",\"b\"])"),
    ("mustRunAfter \"a\"", "MustRunAfter([\"a\"])"),
    ("finalizedBy \"a\"", "FinalizedBy([\"a\"])"),
    (
        "doFirst f doLast g(\"x\") doFirst doLast",
        "DoFirst(Callname:\"f\",arguments:[]),DoLast(Callname:\"g\",arguments:[Text(\"x\")]),\
         DoFirst(Callname:\"doLast\",arguments:[])",
    ),
    (
        "onlyIf is is isTrue",
        "OnlyIf(Conditionvalue:Property(\"is\"),test:Functionname:\"isTrue\",arguments:[])",
    ),
    (
        "upToDateWhen a is f(\"x\", \"y\")",
        "UpToDateWhen(Conditionvalue:Property(\"a\"),test:Functionname:\"f\",arguments:[\"x\",\"y\"])",
    ),
    ("enabled true", "Enabled(Flag(true))"),
];

#[test]
fn reads_each_clause(rt: HostRuntime) -> Result<(), Fail> {
    are_reported(
        rt.alloc(),
        ["named t {\n", "\n}"],
        ["[Named(Configurationname:\"t\",block:[", "])]"],
        &CLAUSES,
    )
}

const VALUES: [Case; 7] = [
    ("\"\"", "Text(\"\")"),
    ("[]", "List([])"),
    (
        "[\"a\", [true], b]",
        "List([Text(\"a\"),List([Flag(true)]),Property(\"b\")])",
    ),
    ("gradleProperty(\"p\")", "GradleProperty(\"p\")"),
    ("task(\":a:b\")", "Task(\":a:b\")"),
    (
        "a.map(f).flatMap(g(\"x\")).zip(b, h).orElse(\"y\")",
        "Property(\"a\"),steps:[Map(Functionname:\"f\",arguments:[]),FlatMap(Functionname:\"g\",\
         arguments:[\"x\"]),Zip(Property(\"b\"),Functionname:\"h\",arguments:[]),OrElse(Text(\"y\"))]",
    ),
    (
        "map.zip([a.orElse(b)], f).orElse([])",
        "Property(\"map\"),steps:[Zip(List([Property(\"a\"),steps:[OrElse(Property(\"b\"))]]),\
         Functionname:\"f\",arguments:[]),OrElse(List([]))]",
    ),
];

#[test]
fn reads_each_value(rt: HostRuntime) -> Result<(), Fail> {
    are_reported(
        rt.alloc(),
        ["set p = ", ""],
        ["[Set(Assignmentname:\"p\",value:", ")]"],
        &VALUES,
    )
}

const RESERVED: [&str; 7] = [
    "true",
    "false",
    "dir",
    "file",
    "buildDir",
    "gradleProperty",
    "task",
];

fn is_a_name(alloc: Global, word: &str) -> Result<bool, AllocError> {
    let text = "register % : %(%s) { input % = a doLast % onlyIf a is % }";
    Ok(is_read(alloc, text.replace(alloc, '%', word)?.as_str()))
}

fn is_refused_after(alloc: Global, statement: &str, word: &str) -> Result<bool, AllocError> {
    let text = format!(in alloc; "\n{statement} {word} = \"a\"")?;
    is_reported(alloc, text.as_bytes(), "20 syntax error in line 2")
}

/// Fails at the first word that is no name.
fn are_names(alloc: Global, words: &[&str]) -> Result<(), Fail> {
    for word in words {
        if is_a_name(alloc, word) != Ok(true) {
            return Err(Fail::new(*word));
        }
    }
    Ok(())
}

#[test]
fn knows_reserved_words_as_names(rt: HostRuntime) -> Result<(), Fail> {
    are_names(rt.alloc(), &RESERVED)
}

/// Fails at the first word that is asked after the statement.
fn are_refused_after(alloc: Global, statement: &str, words: &[&str]) -> Result<(), Fail> {
    for word in words {
        if is_refused_after(alloc, statement, word) != Ok(true) {
            return Err(Fail::new(*word));
        }
    }
    Ok(())
}

#[test]
fn reserved_words_are_no_properties(rt: HostRuntime) -> Result<(), Fail> {
    for statement in &["property", "unset", "disallowChanges", "set"] {
        are_refused_after(rt.alloc(), statement, &RESERVED)?;
    }
    Ok(())
}

/// A text, and the line of its fault.
const LINES: [Case; 22] = [
    ("register {", "1"),
    ("\n\nregister x", "3"),
    ("register x\n\n", "3"),
    ("register x {\r\n  doLast k\r\n", "3"),
    ("register x {\n}\n)", "3"),
    ("register x : k() {}", "1"),
    ("register x : k(\"a\",\n) {}", "2"),
    ("set a = [b,\n]", "2"),
    ("set a = b.\nmap()", "2"),
    ("set a = b.map(f(\n))", "2"),
    ("set a = b\n.true", "2"),
    ("defaultTasks \"a\",\n", "2"),
    ("set a = \"b\nc\"", "1"),
    ("set a =\n\"b\\x\"", "2"),
    ("set a =\n\"open", "2"),
    ("set a =\n\"open\\", "2"),
    ("register 1x {}", "1"),
    ("register x\n/ comment {}", "2"),
    ("register x {}\né", "2"),
    ("named x {\ninputFiles a nameOnly incremental from b }", "2"),
    ("named x {\nonlyIf a }", "2"),
    ("include\n\"a\"", "1"),
];

#[test]
fn reports_the_line_of_a_fault(rt: HostRuntime) -> Result<(), Fail> {
    are_reported(rt.alloc(), NONE, ["20 syntax error in line ", ""], &LINES)
}

fn write_line(out: &mut String, alloc: Global, before: &str, line: u64) -> Result<(), AllocError> {
    let text = format!(in alloc; "{before}{line}")?;
    out.push_str(text.as_str())
}

fn write_lines(out: &mut String, alloc: Global, lines: &StatementLines) -> Result<(), AllocError> {
    write_line(out, alloc, " ", lines.statement())?;
    for line in lines.clauses() {
        write_line(out, alloc, ",", *line)?;
    }
    Ok(())
}

fn written_lines(alloc: Global, lines: &[StatementLines]) -> Result<String, AllocError> {
    let mut out = String::new(alloc);
    for statement in lines {
        write_lines(&mut out, alloc, statement)?;
    }
    Ok(out)
}

/// The lines of the statements of a script, each with those of its clauses, or the fault's number and text.
fn lines_in(alloc: Global, bytes: &[u8]) -> Result<String, AllocError> {
    match read_script_lines(alloc, bytes) {
        Ok(lines) => written_lines(alloc, lines.as_slice()),
        Err(fault) => format!(in alloc; "{} {fault}", fault.number()),
    }
}

fn has_lines(alloc: Global, bytes: &[u8], want: &str) -> Result<bool, AllocError> {
    Ok(lines_in(alloc, bytes)?.as_str() == want)
}

/// A text, and the lines of its statements and clauses.
const PLACES: [Case; 7] = [
    ("", ""),
    ("// none\n", ""),
    ("property a", " 1"),
    ("\n// a\nproperty\na set a\n= b\n", " 3 4"),
    (
        "register a : k(\"x\",\n\"y\")\n{\ninput b = c doLast k\n\nenabled\ntrue}\nnamed a {}",
        " 1,4,4,6 8",
    ),
    (
        "defaultTasks \"a\",\n\"b\"\nnamed b { // c\n  dependsOn \"a\", // d\n  \"c\" onlyIf b is f\n}",
        " 1 3,4,5",
    ),
    ("register a {\ninput }", "20 syntax error in line 2"),
];

#[test]
fn finds_the_lines_of_statements_and_clauses(rt: HostRuntime) -> Result<(), Fail> {
    for case in &PLACES {
        if has_lines(rt.alloc(), case.0.as_bytes(), case.1) != Ok(true) {
            return Err(Fail::new(case.0));
        }
    }
    Ok(())
}

/// Whether the one statement sets a property to this text, in so many steps.
fn sets_to(statements: &[Statement], want: &str) -> bool {
    match statements {
        [Statement::Set(assignment)] => match assignment.value.source() {
            Source::Text(text) => text.as_str() == want && assignment.value.steps().is_empty(),
            _ => false,
        },
        _ => false,
    }
}

fn is_read_as_set(alloc: Global, text: &str, want: &str) -> Result<bool, ScriptFault> {
    let script = read_script(alloc, text.as_bytes())?;
    Ok(sets_to(script.statements(), want))
}

#[test]
fn reads_escapes(rt: HostRuntime) -> Result<(), Fail> {
    let text = "set a = \"q\\\"b\\\\n\\n\\t//é\u{7f}\"";
    let want = "q\"b\\n\n\t//é\u{7f}";
    all_hold(&[(text, is_read_as_set(rt.alloc(), text, want) == Ok(true))])
}

fn is_a_word_of(alloc: Global, count: usize) -> Result<bool, AllocError> {
    let text = repeated(alloc, "property ", "w", count, "")?;
    Ok(is_read(alloc, text.as_str()))
}

fn is_reported_after_a_word_of(
    alloc: Global,
    count: usize,
    want: &str,
) -> Result<bool, AllocError> {
    let text = repeated(alloc, "\nproperty ", "w", count, "")?;
    is_reported(alloc, text.as_bytes(), want)
}

#[test]
fn takes_words_of_64_bytes(rt: HostRuntime) -> Result<(), Fail> {
    let refused = "20 syntax error in line 2";
    all_hold(&[
        ("64 bytes", is_a_word_of(rt.alloc(), 64) == Ok(true)),
        (
            "65 bytes",
            is_reported_after_a_word_of(rt.alloc(), 65, refused) == Ok(true),
        ),
    ])
}

/// Whether 64 open brackets followed by this text have this reading.
fn is_reported_after_64_brackets(
    alloc: Global,
    then: &str,
    want: &str,
) -> Result<bool, AllocError> {
    let text = repeated(alloc, "set a = ", "[", 64, then)?;
    is_reported(alloc, text.as_bytes(), want)
}

/// Whether 64 closing brackets followed by this text have this reading.
fn is_reported_after_closed_brackets(
    alloc: Global,
    then: &str,
    want: &str,
) -> Result<bool, AllocError> {
    let close = repeated(alloc, "", "]", 64, then)?;
    is_reported_after_64_brackets(alloc, close.as_str(), want)
}

fn are_64_brackets_read(alloc: Global) -> Result<bool, AllocError> {
    let close = repeated(alloc, "", "]", 64, "")?;
    let text = repeated(alloc, "set a = ", "[", 64, close.as_str())?;
    Ok(is_read(alloc, text.as_str()))
}

/// Whether 64 open steps and one more in the next line have this reading.
fn is_reported_of_nested_steps(alloc: Global, want: &str) -> Result<bool, AllocError> {
    let text = repeated(alloc, "set a = ", "a.orElse(", 64, "a.map\n(f)")?;
    is_reported(alloc, text.as_bytes(), want)
}

#[test]
fn takes_64_brackets(rt: HostRuntime) -> Result<(), Fail> {
    let alloc = rt.alloc();
    let deep = "22 too deep in line 2";
    let refused = "20 syntax error in line 2";
    all_hold(&[
        ("64", are_64_brackets_read(alloc) == Ok(true)),
        (
            "65",
            is_reported_after_64_brackets(alloc, "\n[", deep) == Ok(true),
        ),
        (
            "65 at one token that is refused",
            is_reported_after_64_brackets(alloc, "\n(", refused) == Ok(true),
        ),
        (
            "64 steps and one more",
            is_reported_of_nested_steps(alloc, deep) == Ok(true),
        ),
    ])
}

#[test]
fn a_bracket_that_closes_makes_room_again(rt: HostRuntime) -> Result<(), Fail> {
    let text = "\nproperty b.orElse(a)";
    let refused = "20 syntax error in line 2";
    all_hold(&[(
        text,
        is_reported_after_closed_brackets(rt.alloc(), text, refused) == Ok(true),
    )])
}

/// Whether 64 steps between these have this reading.
fn is_reported_of_64_steps(alloc: Global, around: &Pair, want: &str) -> Result<bool, AllocError> {
    let text = repeated(alloc, around[0], ".map(f)", 64, around[1])?;
    is_reported(alloc, text.as_bytes(), want)
}

fn are_64_steps_read(alloc: Global, around: &Pair) -> Result<bool, AllocError> {
    let text = repeated(alloc, around[0], ".map(f)", 64, around[1])?;
    Ok(is_read(alloc, text.as_str()))
}

#[test]
fn takes_64_steps(rt: HostRuntime) -> Result<(), Fail> {
    let alloc = rt.alloc();
    let deep = "22 too deep in line 2";
    all_hold(&[
        (
            "64",
            are_64_steps_read(alloc, &["set a = a", ""]) == Ok(true),
        ),
        (
            "65",
            is_reported_of_64_steps(alloc, &["set a = a", "\n.map(f)"], deep) == Ok(true),
        ),
        (
            "64 and one of another chain",
            are_64_steps_read(alloc, &["set a = [b.map(f), a", "].map(f)"]) == Ok(true),
        ),
    ])
}

/// A mebibyte of spaces, and then these bytes.
fn a_mebibyte_and(alloc: Global, then: &[u8]) -> Result<Vec<u8>, AllocError> {
    let mut bytes = vec![in alloc; b' '; 1_048_576]?;
    bytes.extend_from_slice(then)?;
    Ok(bytes)
}

/// Whether these bytes have this reading, as a script and as settings.
fn is_reported_of_both(alloc: Global, bytes: &[u8], want: &str) -> Result<bool, AllocError> {
    Ok(is_reported(alloc, bytes, want)? && is_reported_of_settings(alloc, bytes, want)?)
}

fn is_reported_of_a_mebibyte(alloc: Global, then: &[u8], want: &str) -> Result<bool, AllocError> {
    let bytes = a_mebibyte_and(alloc, then)?;
    is_reported_of_both(alloc, bytes.as_slice(), want)
}

#[test]
fn takes_a_mebibyte_of_text(rt: HostRuntime) -> Result<(), Fail> {
    let alloc = rt.alloc();
    let long = "21 too long";
    all_hold(&[
        (
            "a mebibyte",
            is_reported_of_a_mebibyte(alloc, b"", "[]") == Ok(true),
        ),
        (
            "a byte more",
            is_reported_of_a_mebibyte(alloc, b" ", long) == Ok(true),
        ),
        (
            "more, and no text",
            is_reported_of_a_mebibyte(alloc, b" \xff", long) == Ok(true),
        ),
    ])
}

/// A script with blocks, texts and comments.
const WHOLE: &str = "// a failing task and its finalizer
property p set p = [\"x\", file(\"a/b\")].map(joined)
register bad : fail(\"boom\") { finalizedBy \"end\" onlyIf p is present }
register end { doLast printLine(\"e\\n\") outputDir out = dir(\"build/e\") }
";

/// Whether the text is read, or refused in a line that it has.
fn is_answered(alloc: Global, bytes: &[u8]) -> Result<bool, AllocError> {
    match read_script(alloc, bytes) {
        Ok(_) => Ok(true),
        Err(fault) => {
            let text = format!(in alloc; "{fault}")?;
            let lines = bytes.iter().filter(|byte| **byte == b'\n').count() + 1;
            Ok(match text.as_str().strip_prefix("syntax error in line ") {
                Some(line) => line
                    .parse::<usize>()
                    .is_ok_and(|line| 0 < line && line <= lines),
                None => text.as_str() == "not UTF-8",
            })
        }
    }
}

/// Whether each prefix of the text is answered, and so is the text with the byte after that prefix
/// raised by one.
fn are_answered(alloc: Global, text: &[u8]) -> Result<bool, AllocError> {
    for at in 0..text.len() {
        let mut raised = text.to_vec(alloc)?;
        raised[at] = text[at].wrapping_add(1);
        if !is_answered(alloc, &text[..at])? || !is_answered(alloc, raised.as_slice())? {
            return Ok(false);
        }
    }
    Ok(true)
}

#[test]
fn answers_damaged_texts(rt: HostRuntime) -> Result<(), Fail> {
    let alloc = rt.alloc();
    all_hold(&[
        ("the whole text", is_read(alloc, WHOLE)),
        (
            "its fronts and raised bytes",
            are_answered(alloc, WHOLE.as_bytes()) == Ok(true),
        ),
    ])
}

#[test]
fn reports_other_faults(rt: HostRuntime) -> Result<(), Fail> {
    all_hold(&[
        (
            "no text",
            is_reported(rt.alloc(), b"\xff", "23 not UTF-8") == Ok(true),
        ),
        ("out of memory", ScriptFault::OutOfMemory.number() == 3),
    ])
}

const SETTINGS: [Case; 5] = [
    ("", "[]"),
    ("include \"lib\", \":a:b\"", "[[\"lib\",\":a:b\"]]"),
    ("include \"a\" // b\ninclude \"c\"", "[[\"a\"],[\"c\"]]"),
    ("include", "20 syntax error in line 1"),
    ("include \"a\"\nproperty b", "20 syntax error in line 2"),
];

/// Fails at the first text that does not read as its settings.
fn are_reported_as_settings(alloc: Global, cases: &[Case]) -> Result<(), Fail> {
    for case in cases {
        if is_reported_of_settings(alloc, case.0.as_bytes(), case.1) != Ok(true) {
            return Err(Fail::new(case.0));
        }
    }
    Ok(())
}

#[test]
fn reads_settings(rt: HostRuntime) -> Result<(), Fail> {
    are_reported_as_settings(rt.alloc(), &SETTINGS)
}

/// Whether the one configuration has these clauses: a list of one element, and a call with two arguments.
fn has_both_clauses(clauses: &[Clause]) -> bool {
    match clauses {
        [Clause::Enabled(value), Clause::DoLast(call)] => {
            is_list_of_one(value) && call.arguments.as_slice().len() == 2
        }
        _ => false,
    }
}

fn is_list_of_one(value: &Expression) -> bool {
    match value.source() {
        Source::List(elements) => elements.len() == 1,
        _ => false,
    }
}

fn is_read_as_configuration(alloc: Global, bytes: &[u8]) -> Result<bool, ScriptFault> {
    let script = read_script(alloc, bytes)?;
    Ok(match script.statements() {
        [Statement::Named(configuration)] => has_both_clauses(configuration.block.clauses()),
        _ => false,
    })
}

fn is_true(value: &Expression) -> bool {
    matches!(value.source(), Source::Flag(true))
}

fn is_made_of_its_source(alloc: Global) -> bool {
    is_true(&Expression::new(Source::Flag(true), Vec::new(alloc)))
}

fn has_one_include(alloc: Global, bytes: &[u8]) -> Result<bool, ScriptFault> {
    let settings = read_settings(alloc, bytes)?;
    Ok(settings.includes().len() == 1)
}

#[test]
fn gives_what_it_is_made_from(rt: HostRuntime) -> Result<(), Fail> {
    let alloc = rt.alloc();
    let named = b"named a { enabled [true] doLast k(b, c) }";
    all_hold(&[
        (
            "a configuration",
            is_read_as_configuration(alloc, named) == Ok(true),
        ),
        ("an expression", is_made_of_its_source(alloc)),
        (
            "an include",
            has_one_include(alloc, b"include \"a\"") == Ok(true),
        ),
    ])
}
