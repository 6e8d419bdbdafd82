//! Each call that allocates memory, once, and texts from outside.
//!
//! Each case is a function that returns whether it holds, so that no assertion is made while values
//! are alive.
use gb_core::name::{Name, NameFault};
use gb_core::path::TaskPath;
use gb_core::place::{Place, PlaceFault, RelPath};
use gb_core::task_paths::TaskList;
use gb_core::text::{Text, Texts};
use gb_report::fault::{Fault, Limited};
use gb_report::render::{render, render_fault};
use gb_report::report::{Outcome, Report, TaskReport, TaskReports};
use std::alloc::{AllocError, Global};
use std::test::Fail;

/// Fails with the name of the first case that does not hold.
fn all_hold(cases: &[(&str, bool)]) -> Result<(), Fail> {
    for case in cases {
        if !case.1 {
            return Err(Fail::new(case.0));
        }
    }
    Ok(())
}

fn texts_of(alloc: Global, texts: &[&str]) -> Result<Texts, AllocError> {
    let mut all = Texts::new(alloc);
    for text in texts {
        all.push(Text::from_str(alloc, text)?)?;
    }
    Ok(all)
}

/// The path of a task, its outcome, and the lines that it printed.
type Row<'a> = (&'a str, &'a str, &'a [&'a str]);

/// The outcome with this name; any other text is the reason for which an action failed.
fn outcome_of(alloc: Global, name: &str) -> Result<Outcome, AllocError> {
    Ok(match name {
        "executed" => Outcome::Executed,
        "up to date" => Outcome::UpToDate,
        _ => Outcome::Failed(Fault::ActionFailed(Text::from_str(alloc, name)?)),
    })
}

/// A task with an action.
fn ran(alloc: Global, path: TaskPath, row: &Row<'_>) -> Result<TaskReport, AllocError> {
    let lines = texts_of(alloc, row.2)?;
    let outcome = outcome_of(alloc, row.1)?;
    Ok(TaskReport {
        path,
        outcome,
        has_actions: true,
        lines,
    })
}

fn task_of(alloc: Global, row: &Row<'_>) -> Result<TaskReport, NameFault> {
    let path = TaskPath::read(alloc, row.0)?;
    Ok(ran(alloc, path, row)?)
}

fn tasks_of(alloc: Global, rows: &[Row<'_>]) -> Result<Vec<TaskReport>, Fail> {
    let mut tasks = Vec::new(alloc);
    for row in rows {
        tasks.push(task_of(alloc, row)?)?;
    }
    Ok(tasks)
}

fn copy_of(alloc: Global, task: &TaskReport) -> Result<TaskReport, AllocError> {
    let path = task.path.copy()?;
    let lines = task.lines.copy(alloc)?;
    let outcome = task.outcome.copy(alloc)?;
    Ok(TaskReport {
        path,
        outcome,
        has_actions: true,
        lines,
    })
}

fn copies_of(alloc: Global, tasks: &[TaskReport]) -> Result<Vec<TaskReport>, Fail> {
    let mut copies = Vec::new(alloc);
    for task in tasks {
        copies.push(copy_of(alloc, task)?)?;
    }
    Ok(copies)
}

/// Copies of the tasks of these rows.
fn reports_of(alloc: Global, rows: &[Row<'_>]) -> Result<TaskReports, Fail> {
    let tasks = tasks_of(alloc, rows)?;
    Ok(TaskReports::from_vec(copies_of(alloc, tasks.as_slice())?))
}

/// Whether the report is of a build that ended with this success, and is printed as this text.
fn is_reported_so(alloc: Global, report: &Report, is_successful: bool, want: &str) -> bool {
    match render(alloc, report) {
        Ok(bytes) => {
            bytes.as_slice() == want.as_bytes() && report.is_successful() == is_successful
        }
        Err(_error) => false,
    }
}

const ROWS: [Row<'static>; 3] = [
    (":hi", "executed", &["2"]),
    (":a", "up to date", &[]),
    (":t", "no", &["a"]),
];

fn a_build_is_printed(alloc: Global) -> Result<bool, Fail> {
    let report = Report {
        tasks: reports_of(alloc, &ROWS)?,
        dry_run: false,
        listener_refused: true,
    };
    let want = "> Task :hi\n2\n> Task :a UP-TO-DATE\n> Task :t FAILED\na\n\
         FAILED :t: 42 no\nFAILED listener: 91 listener refused\nBUILD FAILED\n\
         3 actionable tasks: 2 executed, 1 up-to-date\n";
    Ok(is_reported_so(alloc, &report, false, want))
}

fn a_dry_run_is_printed(alloc: Global) -> Result<bool, Fail> {
    let report = Report {
        tasks: reports_of(alloc, &[(":a", "up to date", &[])])?,
        dry_run: true,
        listener_refused: false,
    };
    let want = ":a SKIPPED\nBUILD SUCCESSFUL\n";
    Ok(is_reported_so(alloc, &report, true, want))
}

fn no_task_is_printed(alloc: Global) -> bool {
    let report = Report {
        tasks: TaskReports::new(alloc),
        dry_run: false,
        listener_refused: false,
    };
    is_reported_so(alloc, &report, true, "BUILD SUCCESSFUL\n")
}

#[test]
fn builds_are_printed(rt: HostRuntime) -> Result<(), Fail> {
    assert!(rt; a_build_is_printed(rt.alloc())?);
    assert!(rt; a_dry_run_is_printed(rt.alloc())?);
    Ok(())
}

#[test]
fn a_build_of_no_task_is_printed(rt: HostRuntime) -> Result<(), Fail> {
    all_hold(&[("no task", no_task_is_printed(rt.alloc()))])
}

/// The printed form of a copy of the fault.
fn copy_printed(alloc: Global, fault: &Fault) -> Result<Vec<u8>, AllocError> {
    let copied = fault.copy(alloc)?;
    let bytes = render_fault(alloc, &copied);
    drop(copied);
    bytes
}

/// Whether a copy of the fault is printed as this text.
fn is_reported(alloc: Global, fault: Fault, want: &str) -> Result<bool, AllocError> {
    let bytes = copy_printed(alloc, &fault);
    drop(fault);
    Ok(bytes?.as_slice() == want.as_bytes())
}

/// A text from outside of 81 characters, two of them control characters and one of two bytes.
const LONG: &str =
    "é\n34567890123456789012345678901234567890123456789012345678901234567890123456789\x7f1";

fn a_long_text_is_reported(alloc: Global) -> Result<bool, AllocError> {
    let text = Text::from_str(alloc, LONG)?;
    let want =
        "2 bad place é?34567890123456789012345678901234567890123456789012345678901234567890123456789?";
    is_reported(alloc, Fault::BadPlace(text), want)
}

fn a_line_is_reported(alloc: Global) -> Result<bool, PlaceFault> {
    let script = Place::read(alloc, "build.gb")?;
    Ok(is_reported(alloc, Fault::Syntax(script, 12), "20 syntax build.gb:12")?)
}

fn names_are_reported(alloc: Global) -> Result<bool, AllocError> {
    let names = texts_of(alloc, &[":#a", ":lib#b"])?;
    is_reported(alloc, Fault::Circular(names), "30 circular :#a, :lib#b")
}

fn a_limit_is_reported(alloc: Global) -> Result<bool, AllocError> {
    is_reported(alloc, Fault::TooMany(Limited::Tasks), "58 too many tasks")
}

fn task_list(alloc: Global, paths: &[&str]) -> Result<TaskList, NameFault> {
    let mut tasks = TaskList::new(alloc);
    for path in paths {
        tasks.push(TaskPath::read(alloc, path)?)?;
    }
    Ok(tasks)
}

fn tasks_are_reported(alloc: Global) -> Result<bool, NameFault> {
    let tasks = task_list(alloc, &[":b", ":a"])?;
    Ok(is_reported(alloc, Fault::Cycle(tasks), "60 cycle :b, :a")?)
}

fn an_input_is_reported(alloc: Global, path: RelPath) -> Result<bool, NameFault> {
    let name = Name::read(alloc, "src")?;
    let want = "71 duplicate input src m/a";
    Ok(is_reported(alloc, Fault::DuplicateInput(name, path), want)?)
}

fn a_path_is_reported(alloc: Global) -> Result<bool, PlaceFault> {
    let path = RelPath::read(alloc, "m/a")?;
    Ok(an_input_is_reported(alloc, path) == Ok(true))
}

#[test]
fn faults_are_copied_and_reported(rt: HostRuntime) -> Result<(), Fail> {
    let alloc = rt.alloc();
    all_hold(&[
        ("2 bad place", a_long_text_is_reported(alloc) == Ok(true)),
        ("20 syntax", a_line_is_reported(alloc) == Ok(true)),
        ("30 circular", names_are_reported(alloc) == Ok(true)),
    ])
}

#[test]
fn faults_of_builds_are_copied_and_reported(rt: HostRuntime) -> Result<(), Fail> {
    let alloc = rt.alloc();
    all_hold(&[
        ("58 too many", a_limit_is_reported(alloc) == Ok(true)),
        ("60 cycle", tasks_are_reported(alloc) == Ok(true)),
        ("71 duplicate input", a_path_is_reported(alloc) == Ok(true)),
    ])
}

/// Both failures to allocate become faults.
fn one_text(alloc: Global) -> Result<Vec<Text>, Fault> {
    let mut texts = Vec::new(alloc);
    texts.push(Text::from_str(alloc, "a")?)?;
    Ok(texts)
}

fn is_there(alloc: Global) -> bool {
    let answer = one_text(alloc);
    let is_there = answer.is_ok();
    drop(answer);
    is_there
}

#[test]
fn want_of_memory_is_a_fault(rt: HostRuntime) -> Result<(), Fail> {
    all_hold(&[("one text", is_there(rt.alloc()))])
}
