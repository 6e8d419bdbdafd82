//! Faults: why something is refused, or why a task failed.
ghost use Rattle.std.specs.Prelude.{◌≡◌, ◌<◌, ◌≤◌, ◌++◌, IfOk};
ghost use Rattle.gb_report.specs.Fault.{about_text, fault_number, fault_text, shown_character};

use gb_core::name::Name;
use gb_core::path::{ProjectPath, TaskPath};
use gb_core::place::{Place, RelPath};
use gb_core::task_paths::TaskList;
use gb_core::text::{Text, Texts};
use std::alloc::{AllocError, AllocFailed, Global};
use std::fmt;
use thiserror::Error;

/// What exceeds a limit.
#[derive(Clone, Copy, Debug)]
pub enum Limited {
    /// Projects, including the root: more than 256.
    Projects,
    /// Registered tasks: more than 4,096.
    Tasks,
    /// Declared properties: more than 1,024.
    Properties,
    /// Values that an invocation gives: more than 256.
    Values,
}

impl fmt::Display for Limited {
    ghost use Rattle.std.specs.Prelude.{Some};
    ghost use Rattle.gb_report.specs.Fault.{limited_text};

    ghost output = { λ l. Some (limited_text l) };

    fn fmt<W: fmt::Write>(&self, f: &mut fmt::Formatter<W>) -> fmt::Result {
        match self {
            Limited::Projects => write!(f, "projects"),
            Limited::Tasks => write!(f, "tasks"),
            Limited::Properties => write!(f, "properties"),
            Limited::Values => write!(f, "values"),
        }
    }
}

/// Why something is refused, or why a task failed. Its `Display` is the text that users read.
#[derive(Drop, Error)]
pub enum Fault {
    /// A text that is neither a name nor a path of names; 1.
    BadName(Text),
    /// A text that is not a place; 2.
    BadPlace(Text),
    /// The system gave no more memory; 3.
    OutOfMemory,
    /// The device failed at the place; 10.
    Device(Place),
    /// No file exists at the place; 11.
    Missing(Place),
    /// A file is at an ancestor folder of the place, or under it; 12.
    Blocked(Place),
    /// The file at the place has more than 8 MiB; 13.
    TooLarge(Place),
    /// The root that was listed: under it is a name that no place can have, or an entry that is
    /// neither a file nor a folder; 14.
    BadFileName(Place),
    /// The script, and the line; 20.
    Syntax(Place, u64),
    /// The script, of more than 1 MiB; 21.
    TooLong(Place),
    /// The script, and the line of a bracket inside 64 others or of a step after 64 others; 22.
    TooDeep(Place, u64),
    /// The script, whose bytes are not UTF-8; 23.
    NotUtf8(Place),
    /// Properties and outputs that read one another, starting at the least name; 30.
    Circular(Texts),
    /// No function of that use has the name; 31.
    UnknownTransform(Name),
    /// The function of this name does not accept its arguments; 32.
    BadArguments(Text),
    /// An input, an output or `enabled` of the task; 33.
    NoValue(TaskPath, Name),
    /// Of a function, an input, an output, `enabled` or `list`; 34.
    WrongValue(Text),
    /// A property that accepts no other value any more; 35.
    Final(Name),
    /// No kind of actions has the name; 40.
    UnknownAction(Name),
    /// The action itself failed, with this text; 42.
    ActionFailed(Text),
    /// The task, and the kind that does not accept its arguments; 43.
    BadArgument(TaskPath, Name),
    /// The text, which names a task of a project that does not exist; 50.
    UnknownProject(Text),
    /// The path, which one script registers twice; 51.
    DuplicateTask(TaskPath),
    /// The text, which names no task of its project; 52.
    TaskNotFound(Text),
    /// The name, which one script declares twice; 53.
    DuplicateProperty(Name),
    /// The name, which the script does not declare above; 54.
    UnknownProperty(Name),
    /// The task, whose inputs, outputs and actions do not fit together; 55.
    BadShape(TaskPath),
    /// The task, and an output that is not under the build folder of its project; 56.
    OutputOutsideBuild(TaskPath, Place),
    /// A project named `build`, or with a folder of more than 896 bytes; 57.
    BadProjectPlace(ProjectPath),
    /// More of these than are allowed; 58.
    TooMany(Limited),
    /// The task, and a text that names none of its outputs; 59.
    UnknownOutput(TaskPath, Text),
    /// Each task has to run after the next one, and the last after the first; 60.
    Cycle(TaskList),
    /// Outputs of two tasks overlap at the place, which is an output of the first; 61.
    OverlappingOutputs(TaskPath, TaskPath, Place),
    /// The first task reads, at the place, what the second makes, and is not ordered after it; 62.
    UndeclaredDependency(TaskPath, TaskPath, Place),
    /// At the place, the task reads what it produces itself; 63.
    OwnOutputAsInput(TaskPath, Place),
    /// Neither a name nor the root script says what runs; 64.
    NoTasks,
    /// A text that is not a pattern of paths; 70.
    BadPattern(Text),
    /// Two files of the property are at one path, or one is at an ancestor folder of the other: the
    /// greater path; 71.
    DuplicateInput(Name, RelPath),
    /// The property or output, with more than 65,536 files; 72.
    TooManyFiles(Name),
    /// The record of a task was not written; 90. The next build executes the task again.
    HistoryNotWritten,
    /// A place among the records of builds; 94.
    OwnState(Place),
    /// The number, counted from 1, of a line that is not a valid line of a replay; 95.
    BadLine(u64),
    /// The arguments of a command are not known; 96.
    Usage,
}

impl Fault {
    /// The fault number that is reported to users.
    pub fn number(&self) -> u16
        ensures { result ≡ fault_number self.now }
    {
        match self {
            Fault::BadName(_) => 1,
            Fault::BadPlace(_) => 2,
            Fault::OutOfMemory => 3,
            Fault::Device(_) => 10,
            Fault::Missing(_) => 11,
            Fault::Blocked(_) => 12,
            Fault::TooLarge(_) => 13,
            Fault::BadFileName(_) => 14,
            Fault::Syntax(_, _) => 20,
            Fault::TooLong(_) => 21,
            Fault::TooDeep(_, _) => 22,
            Fault::NotUtf8(_) => 23,
            Fault::Circular(_) => 30,
            Fault::UnknownTransform(_) => 31,
            Fault::BadArguments(_) => 32,
            Fault::NoValue(_, _) => 33,
            Fault::WrongValue(_) => 34,
            Fault::Final(_) => 35,
            Fault::UnknownAction(_) => 40,
            Fault::ActionFailed(_) => 42,
            Fault::BadArgument(_, _) => 43,
            Fault::UnknownProject(_) => 50,
            Fault::DuplicateTask(_) => 51,
            Fault::TaskNotFound(_) => 52,
            Fault::DuplicateProperty(_) => 53,
            Fault::UnknownProperty(_) => 54,
            Fault::BadShape(_) => 55,
            Fault::OutputOutsideBuild(_, _) => 56,
            Fault::BadProjectPlace(_) => 57,
            Fault::TooMany(_) => 58,
            Fault::UnknownOutput(_, _) => 59,
            Fault::Cycle(_) => 60,
            Fault::OverlappingOutputs(_, _, _) => 61,
            Fault::UndeclaredDependency(_, _, _) => 62,
            Fault::OwnOutputAsInput(_, _) => 63,
            Fault::NoTasks => 64,
            Fault::BadPattern(_) => 70,
            Fault::DuplicateInput(_, _) => 71,
            Fault::TooManyFiles(_) => 72,
            Fault::HistoryNotWritten => 90,
            Fault::OwnState(_) => 94,
            Fault::BadLine(_) => 95,
            Fault::Usage => 96,
        }
    }

    /// An equal fault.
    pub fn copy(&self, alloc: Global) -> Result<Fault, AllocError>
        ensures { IfOk result (λ copied. copied ≡ self.now) }
    {
        let number = self.number();
        if number < 30 {
            copy_below_30(self)
        } else if number < 43 {
            copy_below_43(alloc, self)
        } else if number < 54 {
            copy_below_54(self)
        } else if number < 61 {
            copy_below_61(alloc, self)
        } else if number < 64 {
            copy_below_64(self)
        } else {
            copy_others(self)
        }
    }
}

/// An equal fault, of those with a number below 30.
fn copy_below_30(fault: &Fault) -> Result<Fault, AllocError>
    ensures { IfOk result (λ copied. fault_number fault.now < 30 → copied ≡ fault.now) }
{
    match fault {
        Fault::BadName(text) => text.copy().map(Fault::BadName),
        Fault::BadPlace(text) => text.copy().map(Fault::BadPlace),
        Fault::OutOfMemory => Ok(Fault::OutOfMemory),
        Fault::Device(place) => place.copy().map(Fault::Device),
        Fault::Missing(place) => place.copy().map(Fault::Missing),
        Fault::Blocked(place) => place.copy().map(Fault::Blocked),
        Fault::TooLarge(place) => place.copy().map(Fault::TooLarge),
        Fault::BadFileName(place) => place.copy().map(Fault::BadFileName),
        Fault::Syntax(place, line) => Ok(Fault::Syntax(place.copy()?, *line)),
        Fault::TooLong(place) => place.copy().map(Fault::TooLong),
        Fault::TooDeep(place, line) => Ok(Fault::TooDeep(place.copy()?, *line)),
        Fault::NotUtf8(place) => place.copy().map(Fault::NotUtf8),
        _ => Ok(Fault::OutOfMemory),
    }
}

/// An equal fault, of those with a number from 30 to 42.
fn copy_below_43(alloc: Global, fault: &Fault) -> Result<Fault, AllocError>
    ensures { IfOk result (λ copied.
        30 ≤ fault_number fault.now → fault_number fault.now < 43 → copied ≡ fault.now) }
{
    match fault {
        Fault::Circular(names) => names.copy(alloc).map(Fault::Circular),
        Fault::UnknownTransform(name) => name.copy().map(Fault::UnknownTransform),
        Fault::BadArguments(text) => text.copy().map(Fault::BadArguments),
        Fault::NoValue(task, name) => Ok(Fault::NoValue(task.copy()?, name.copy()?)),
        Fault::WrongValue(text) => text.copy().map(Fault::WrongValue),
        Fault::Final(name) => name.copy().map(Fault::Final),
        Fault::UnknownAction(name) => name.copy().map(Fault::UnknownAction),
        Fault::ActionFailed(text) => text.copy().map(Fault::ActionFailed),
        _ => Ok(Fault::OutOfMemory),
    }
}

/// An equal fault, of those with a number from 43 to 53.
fn copy_below_54(fault: &Fault) -> Result<Fault, AllocError>
    ensures { IfOk result (λ copied.
        43 ≤ fault_number fault.now → fault_number fault.now < 54 → copied ≡ fault.now) }
{
    match fault {
        Fault::BadArgument(task, name) => Ok(Fault::BadArgument(task.copy()?, name.copy()?)),
        Fault::UnknownProject(text) => text.copy().map(Fault::UnknownProject),
        Fault::DuplicateTask(task) => task.copy().map(Fault::DuplicateTask),
        Fault::TaskNotFound(text) => text.copy().map(Fault::TaskNotFound),
        Fault::DuplicateProperty(name) => name.copy().map(Fault::DuplicateProperty),
        _ => Ok(Fault::OutOfMemory),
    }
}

/// An equal fault, of those with a number from 54 to 60.
fn copy_below_61(alloc: Global, fault: &Fault) -> Result<Fault, AllocError>
    ensures { IfOk result (λ copied.
        54 ≤ fault_number fault.now → fault_number fault.now < 61 → copied ≡ fault.now) }
{
    match fault {
        Fault::UnknownProperty(name) => name.copy().map(Fault::UnknownProperty),
        Fault::BadShape(task) => task.copy().map(Fault::BadShape),
        Fault::OutputOutsideBuild(task, place) => {
            Ok(Fault::OutputOutsideBuild(task.copy()?, place.copy()?))
        }
        Fault::BadProjectPlace(project) => project.copy().map(Fault::BadProjectPlace),
        Fault::TooMany(what) => Ok(Fault::TooMany(*what)),
        Fault::UnknownOutput(task, text) => Ok(Fault::UnknownOutput(task.copy()?, text.copy()?)),
        Fault::Cycle(tasks) => tasks.copy(alloc).map(Fault::Cycle),
        _ => Ok(Fault::OutOfMemory),
    }
}

fn copy_both(task: &TaskPath, other: &TaskPath) -> Result<(TaskPath, TaskPath), AllocError>
    ensures { IfOk result (λ copied. copied ≡ (task.now, other.now)) }
{
    Ok((task.copy()?, other.copy()?))
}

/// An equal fault, of those with a number from 61 to 63.
fn copy_below_64(fault: &Fault) -> Result<Fault, AllocError>
    ensures { IfOk result (λ copied.
        61 ≤ fault_number fault.now → fault_number fault.now < 64 → copied ≡ fault.now) }
{
    match fault {
        Fault::OverlappingOutputs(task, other, place) => {
            let tasks = copy_both(task, other)?;
            Ok(Fault::OverlappingOutputs(tasks.0, tasks.1, place.copy()?))
        }
        Fault::UndeclaredDependency(task, other, place) => {
            let tasks = copy_both(task, other)?;
            Ok(Fault::UndeclaredDependency(tasks.0, tasks.1, place.copy()?))
        }
        Fault::OwnOutputAsInput(task, place) => {
            Ok(Fault::OwnOutputAsInput(task.copy()?, place.copy()?))
        }
        _ => Ok(Fault::OutOfMemory),
    }
}

/// An equal fault, of those with a number above 63.
fn copy_others(fault: &Fault) -> Result<Fault, AllocError>
    ensures { IfOk result (λ copied. 64 ≤ fault_number fault.now → copied ≡ fault.now) }
{
    match fault {
        Fault::NoTasks => Ok(Fault::NoTasks),
        Fault::BadPattern(text) => text.copy().map(Fault::BadPattern),
        Fault::DuplicateInput(name, path) => Ok(Fault::DuplicateInput(name.copy()?, path.copy()?)),
        Fault::TooManyFiles(name) => name.copy().map(Fault::TooManyFiles),
        Fault::HistoryNotWritten => Ok(Fault::HistoryNotWritten),
        Fault::OwnState(place) => place.copy().map(Fault::OwnState),
        Fault::BadLine(line) => Ok(Fault::BadLine(*line)),
        Fault::Usage => Ok(Fault::Usage),
        _ => Ok(Fault::OutOfMemory),
    }
}

impl fmt::Display for Fault {
    ghost use Rattle.std.specs.Prelude.{Some};
    ghost use Rattle.gb_report.specs.Fault.{fault_text};

    ghost output = { λ f. Some (fault_text f) };

    fn fmt<W: fmt::Write>(&self, f: &mut fmt::Formatter<W>) -> fmt::Result {
        let (words, about) = reported(self);
        write!(f, "{words}{about}")
    }
}

/// Formatted as by `Display`.
impl fmt::Debug for Fault {
    fn fmt<W: fmt::Write>(&self, f: &mut fmt::Formatter<W>) -> fmt::Result {
        fmt::Display::fmt(self, f)
    }
}

/// What a fault is about, as it is printed after its words.
#[derive(Clone, Copy)]
enum About<'a> {
    Nothing,
    Place(&'a Place),
    Name(&'a Name),
    Text(&'a Text),
    Task(&'a TaskPath),
    Project(&'a ProjectPath),
    Number(u64),
    Limited(Limited),
    /// A text from outside.
    Shown(&'a Text),
    Names(&'a Texts),
    Tasks(&'a TaskList),
    /// A script and a line of it.
    Line(&'a Place, u64),
    TaskName(&'a TaskPath, &'a Name),
    TaskPlace(&'a TaskPath, &'a Place),
    /// A task and a text from outside.
    TaskShown(&'a TaskPath, &'a Text),
    NamePath(&'a Name, &'a RelPath),
    TasksPlace(&'a TaskPath, &'a TaskPath, &'a Place),
}

impl<'a> fmt::Display for About<'a> {
    ghost use Rattle.std.specs.Prelude.{Some};
    ghost use Rattle.gb_report.specs.Fault.{about_text};

    ghost output = { λ a. Some (about_text a) };

    fn fmt<W: fmt::Write>(&self, f: &mut fmt::Formatter<W>) -> fmt::Result {
        match *self {
            About::Nothing => Ok(()),
            About::Place(place) => fmt::Display::fmt(place, f),
            About::Name(name) => fmt::Display::fmt(name, f),
            About::Text(text) => fmt::Display::fmt(text, f),
            About::Task(task) => fmt::Display::fmt(task, f),
            About::Project(project) => fmt::Display::fmt(project, f),
            About::Number(number) => fmt::Display::fmt(&number, f),
            About::Limited(what) => fmt::Display::fmt(&what, f),
            About::Shown(text) => fmt::Display::fmt(&Shown { text }, f),
            About::Names(names) => fmt::Display::fmt(&Names { names }, f),
            About::Tasks(tasks) => fmt::Display::fmt(&Tasks { tasks }, f),
            About::Line(script, line) => write!(f, "{script}:{line}"),
            About::TaskName(task, name) => write!(f, "{task} {name}"),
            About::TaskPlace(task, place) => write!(f, "{task} {place}"),
            About::TaskShown(task, text) => write!(f, "{task} {}", Shown { text }),
            About::NamePath(name, path) => write!(f, "{name} {path}"),
            About::TasksPlace(task, other, place) => write!(f, "{task} {other} {place}"),
        }
    }
}

/// The number and the words of a fault, and what it is about.
fn reported(fault: &Fault) -> (&'static str, About<'_>)
    ensures { fault_text fault.now ≡ result.0.now ++ about_text result.1 }
{
    match fault {
        Fault::BadName(text) => ("1 bad name ", About::Shown(text)),
        Fault::BadPlace(text) => ("2 bad place ", About::Shown(text)),
        Fault::OutOfMemory => ("3 out of memory", About::Nothing),
        Fault::Device(place) => ("10 device ", About::Place(place)),
        Fault::Missing(place) => ("11 missing ", About::Place(place)),
        Fault::Blocked(place) => ("12 blocked ", About::Place(place)),
        Fault::TooLarge(place) => ("13 too large ", About::Place(place)),
        Fault::BadFileName(place) => ("14 bad file name ", About::Place(place)),
        Fault::Syntax(script, line) => ("20 syntax ", About::Line(script, *line)),
        Fault::TooLong(script) => ("21 too long ", About::Place(script)),
        Fault::TooDeep(script, line) => ("22 too deep ", About::Line(script, *line)),
        Fault::NotUtf8(script) => ("23 not UTF-8 ", About::Place(script)),
        Fault::Circular(names) => ("30 circular ", About::Names(names)),
        Fault::UnknownTransform(name) => ("31 unknown transform ", About::Name(name)),
        Fault::BadArguments(name) => ("32 bad arguments ", About::Text(name)),
        Fault::NoValue(task, name) => ("33 no value ", About::TaskName(task, name)),
        Fault::WrongValue(name) => ("34 wrong value ", About::Text(name)),
        Fault::Final(name) => ("35 final ", About::Name(name)),
        Fault::UnknownAction(name) => ("40 unknown action ", About::Name(name)),
        Fault::ActionFailed(text) => ("42 ", About::Text(text)),
        _ => reported_from_43(fault),
    }
}

/// The number and the words of a fault with a number above 42, and what it is about.
fn reported_from_43(fault: &Fault) -> (&'static str, About<'_>)
    ensures { 42 < fault_number fault.now → fault_text fault.now ≡ result.0.now ++ about_text result.1 }
{
    match fault {
        Fault::BadArgument(task, name) => ("43 bad argument ", About::TaskName(task, name)),
        Fault::UnknownProject(text) => ("50 unknown project ", About::Shown(text)),
        Fault::DuplicateTask(task) => ("51 duplicate task ", About::Task(task)),
        Fault::TaskNotFound(text) => ("52 task not found ", About::Shown(text)),
        Fault::DuplicateProperty(name) => ("53 duplicate property ", About::Name(name)),
        Fault::UnknownProperty(name) => ("54 unknown property ", About::Name(name)),
        Fault::BadShape(task) => ("55 bad shape ", About::Task(task)),
        Fault::OutputOutsideBuild(task, place) => (
            "56 output outside build ",
            About::TaskPlace(task, place),
        ),
        Fault::BadProjectPlace(project) => ("57 bad project place ", About::Project(project)),
        Fault::TooMany(what) => ("58 too many ", About::Limited(*what)),
        Fault::UnknownOutput(task, text) => ("59 unknown output ", About::TaskShown(task, text)),
        Fault::Cycle(tasks) => ("60 cycle ", About::Tasks(tasks)),
        _ => reported_from_61(fault),
    }
}

/// The number and the words of a fault with a number above 60, and what it is about.
fn reported_from_61(fault: &Fault) -> (&'static str, About<'_>)
    ensures { 60 < fault_number fault.now → fault_text fault.now ≡ result.0.now ++ about_text result.1 }
{
    match fault {
        Fault::OverlappingOutputs(task, other, place) => (
            "61 overlapping outputs ",
            About::TasksPlace(task, other, place),
        ),
        Fault::UndeclaredDependency(task, producer, place) => (
            "62 undeclared dependency ",
            About::TasksPlace(task, producer, place),
        ),
        Fault::OwnOutputAsInput(task, place) => (
            "63 own output as input ",
            About::TaskPlace(task, place),
        ),
        Fault::NoTasks => ("64 no tasks", About::Nothing),
        Fault::BadPattern(text) => ("70 bad pattern ", About::Shown(text)),
        Fault::DuplicateInput(name, path) => ("71 duplicate input ", About::NamePath(name, path)),
        Fault::TooManyFiles(name) => ("72 too many files ", About::Name(name)),
        Fault::HistoryNotWritten => ("90 history not written", About::Nothing),
        Fault::OwnState(place) => ("94 own state ", About::Place(place)),
        Fault::BadLine(line) => ("95 bad line ", About::Number(*line)),
        Fault::Usage => ("96 usage", About::Nothing),
        _ => ("", About::Nothing),
    }
}

impl From<AllocError> for Fault {
    ghost use Rattle.gb_report.specs.declared.fault.Fault.TheVariants.{OutOfMemory};

    ghost from_gives = { λ _ fault. fault ≡ OutOfMemory };

    fn from(_error: AllocError) -> Fault {
        Fault::OutOfMemory
    }
}

impl<T: Drop> From<AllocFailed<T>> for Fault {
    ghost use Rattle.gb_report.specs.declared.fault.Fault.TheVariants.{OutOfMemory};

    ghost from_gives = { λ _ fault. fault ≡ OutOfMemory };

    fn from(_failed: AllocFailed<T>) -> Fault {
        Fault::OutOfMemory
    }
}

/// A text from outside, as a fault prints it: its beginning, without control characters.
#[derive(Clone, Copy)]
struct Shown<'a> {
    text: &'a Text,
}

impl<'a> fmt::Display for Shown<'a> {
    ghost use Rattle.std.specs.Prelude.{Some};
    ghost use Rattle.gb_report.specs.Fault.{shown};

    ghost output = { λ s. Some (shown s.text.now) };

    fn fmt<W: fmt::Write>(&self, f: &mut fmt::Formatter<W>) -> fmt::Result {
        for character in self.text.as_str().chars().take(80) {
            f.write_char(shown_character(character))?;
        }
        Ok(())
    }
}

/// Names as a fault prints them, with a comma between each two.
#[derive(Clone, Copy)]
struct Names<'a> {
    names: &'a Texts,
}

impl<'a> fmt::Display for Names<'a> {
    ghost use Rattle.std.specs.Prelude.{Some};
    ghost use Rattle.gb_report.specs.Fault.{row_text};

    ghost output = { λ n. Some (row_text n.names.now) };

    fn fmt<W: fmt::Write>(&self, f: &mut fmt::Formatter<W>) -> fmt::Result {
        let Some((first, others)) = self.names.as_slice().split_first() else {
            return Ok(());
        };
        write!(f, "{first}")?;
        for name in others {
            write!(f, ", {name}")?;
        }
        Ok(())
    }
}

/// Tasks as a fault prints them, with a comma between each two.
#[derive(Clone, Copy)]
struct Tasks<'a> {
    tasks: &'a TaskList,
}

impl<'a> fmt::Display for Tasks<'a> {
    ghost use Rattle.std.specs.Prelude.{Some};
    ghost use Rattle.gb_report.specs.Fault.{row_text};

    ghost output = { λ t. Some (row_text t.tasks.now) };

    fn fmt<W: fmt::Write>(&self, f: &mut fmt::Formatter<W>) -> fmt::Result {
        let Some((first, others)) = self.tasks.as_slice().split_first() else {
            return Ok(());
        };
        write!(f, "{first}")?;
        for task in others {
            write!(f, ", {task}")?;
        }
        Ok(())
    }
}

/// How a fault prints a character: `?` in place of a control character.
pub fn shown_character(character: char) -> char
    ensures { result ≡ shown_character character }
{
    if character < ' ' || character == '\x7f' {
        '?'
    } else {
        character
    }
}
