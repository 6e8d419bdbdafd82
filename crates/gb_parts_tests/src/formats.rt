//! Scripts and settings before and after they are formatted.
use gb_format::{format_script, format_settings};
use gb_script::fault::ScriptFault;
use std::alloc::Global;
use std::test::Fail;

/// A text, and the formatted text.
type Case = (&'static str, &'static str);

const SCRIPTS: [Case; 10] = [
    ("", ""),
    ("\n\n// only\t\n", "// only\n"),
    (
        "property a\r\n\r\n\r\n\r\nset a=\"x\\n\" // why  \r\nunset  a",
        "property a\n\nset a = \"x\\n\" // why\nunset a\n",
    ),
    (
        "register a:copyFiles{inputFiles src from dir(\"x\")\noutputDir out=buildDir}\nnamed a{}",
        "register a : copyFiles { inputFiles src from dir(\"x\") outputDir out = buildDir }\nnamed a { }\n",
    ),
    (
        "register a {\n\nenabled true // c\n\n\n  // d\n}",
        "register a {\n    enabled true // c\n\n    // d\n}\n",
    ),
    (
        "named a { dependsOn \"a\" // c\n, \"b\" }",
        "named a {\n    dependsOn \"a\" // c\n        , \"b\"\n}\n",
    ),
    (
        "set a = [\"0123456789012345678901234567890123456789\", dir(\"x\"), [\"b\", \
         \"0123456789012345678901234567890123456789\"]]",
        "set a = [\n    \"0123456789012345678901234567890123456789\",\n    dir(\"x\"),\n    [\"b\", \
         \"0123456789012345678901234567890123456789\"]\n]\n",
    ),
    (
        "set a = gradleProperty(\"p\").orElse(\"0123456789012345678901234567890123456789\")\
         .map(child(\"0123456789012345678901234567890123456789\"))",
        "set a = gradleProperty(\"p\")\n    .orElse(\"0123456789012345678901234567890123456789\")\n    \
         .map(child(\"0123456789012345678901234567890123456789\"))\n",
    ),
    (
        "set a = [dir(\"x\").map(child(\"0123456789012345678901234567890123456789\"))\
         .map(child(\"0123456789012345678901234567890123456789\")), \"b\"]",
        "set a = [\n    dir(\"x\")\n        \
         .map(child(\"0123456789012345678901234567890123456789\"))\n        \
         .map(child(\"0123456789012345678901234567890123456789\")),\n    \"b\"\n]\n",
    ),
    (
        "named set { inputFiles from from from include \"0123456789012345678901234567890123456789\",\
         \"0123456789012345678901234567890123456789\" }",
        "named set {\n    inputFiles from from from include \
         \"0123456789012345678901234567890123456789\",\n        \
         \"0123456789012345678901234567890123456789\"\n}\n",
    ),
];

fn is_formatted(alloc: Global, text: &str, want: &str) -> Result<bool, ScriptFault> {
    let out = format_script(alloc, text.as_bytes())?;
    Ok(out.as_str() == want)
}

fn are_settings_formatted(alloc: Global, text: &str, want: &str) -> Result<bool, ScriptFault> {
    let out = format_settings(alloc, text.as_bytes())?;
    Ok(out.as_str() == want)
}

/// Fails with the first script that is formatted differently, the first time or once more.
#[test]
fn formats_scripts(rt: HostRuntime) -> Result<(), Fail> {
    for case in &SCRIPTS {
        if is_formatted(rt.alloc(), case.0, case.1) != Ok(true)
            || is_formatted(rt.alloc(), case.1, case.1) != Ok(true)
        {
            return Err(Fail::new(case.0));
        }
    }
    Ok(())
}

#[test]
fn formats_settings(rt: HostRuntime) -> Result<(), Fail> {
    let text = "include\"a\",\"b\"//c\n\n\ninclude \"d\"";
    let want = "include \"a\", \"b\" //c\n\ninclude \"d\"\n";
    if are_settings_formatted(rt.alloc(), text, want) == Ok(true) {
        Ok(())
    } else {
        Err(Fail::new(text))
    }
}

#[test]
fn reports_the_fault_of_a_script(rt: HostRuntime) -> Result<(), Fail> {
    let text = "property a\nset a = [";
    if is_formatted(rt.alloc(), text, "") == Err(ScriptFault::Syntax(2)) {
        Ok(())
    } else {
        Err(Fail::new(text))
    }
}
