//! The built-in actions, called as a program calls them. A result is shown as what it removes
//! (`-`), writes (`+`) and prints (`>`), each ended by `;`, or as the text with which the action
//! fails.
//!
//! The calls and the results are in tables, so that no assertion is made while values are alive.
ghost use Rattle.std.specs.Prelude.{◌≡◌, ℕ, List, ◌∷◌, [], map, true, IfOk};
ghost use Rattle.gb_action.specs.Shapes.{source, target};
ghost use Rattle.gb_action.specs.declared.output_files.Form.{Form};
ghost use Rattle.gb_kinds.specs.Builtin.{builtin_shape, Implements};

use crate::steps::cut;
use gb_action::change::{Change, ChangeList, ChangeLists, InputChanges};
use gb_action::files::Files;
use gb_action::output_files::{Form, OutputFiles, OutputSnapshots};
use gb_action::reply::{ActionFault, Lines, Removals, Reply, Writes};
use gb_action::request::Request;
use gb_action::run::{accepts, incremental, run_action};
use gb_action::shape::{Fit, Shape};
use gb_action::snapshot::{Snapshot, Snapshots};
use gb_action::values::{Arguments, NamedValues};
use gb_core::bytes::Bytes;
use gb_core::place::{PlaceFault, RelPath};
use gb_core::text::Text;
use gb_core::value::Value;
use gb_kinds::builtin::{Builtin, Run, StoredAction};
use gb_kinds::file_kinds::{
    add_file, concat, copy_files, keep_lines, replace_tokens, sums, word_index,
};
use gb_kinds::known_names::{output_name, source_name};
use gb_kinds::shapes::{
    ADD_FILE, CONCAT, COPY_FILES, FAIL, KEEP_LINES, REPLACE_TOKENS, SUMS, WORD_INDEX, WRITE_TEXT,
    add_file_shape, concat_shape, copy_files_shape, fail_shape, keep_lines_shape,
    replace_tokens_shape, sums_shape, word_index_shape, write_text_shape,
};
use gb_kinds::text_kinds::{fail, write_text};
use std::alloc::{AllocError, Global};
use std::str;
use std::test::Fail;

/// The number of a kind, steps of [`take_step`] for the call, steps for the changes, and the shown
/// result. Steps have a `;` between them. Without changes it is a full request.
type Row = (u16, &'static str, &'static str, &'static str);

/// The request to an action: its arguments, the files of `src`, the existing files of `out`, and
/// the changes.
#[derive(Drop)]
struct Asked {
    args: Arguments,
    files: Files,
    existed: Files,
    changes: ChangeList,
}

/// Adds a file, as `path=text`, to the files.
fn put(alloc: Global, files: &mut Files, file: &str) -> Result<(), PlaceFault> {
    let (path, text) = cut(file, '=');
    let path = RelPath::read(alloc, path)?;
    Ok(files.insert(path, Bytes::from_slice(alloc, text.as_bytes())?)?)
}

/// Adds a change, whose kind is `A`, `M` or `R`.
fn push_change(
    alloc: Global,
    changes: &mut ChangeList,
    kind: &str,
    path: &str,
) -> Result<(), PlaceFault> {
    let path = RelPath::read(alloc, path)?;
    Ok(changes.push(match kind {
        "A" => Change::Added(path),
        "M" => Change::Modified(path),
        _ => Change::Removed(path),
    })?)
}

/// Adds an argument, as `arg text`, a file of `src` or `out`, as `src path=text`, or a change, as `A path`.
fn take_step(alloc: Global, asked: &mut Asked, step: &str) -> Result<(), PlaceFault> {
    let (word, reported) = cut(step, ' ');
    match word {
        "arg" => Ok(
            asked
                .args
                .push(Value::Text(Text::from_str(alloc, reported)?))?,
        ),
        "src" => put(alloc, &mut asked.files, reported),
        "out" => put(alloc, &mut asked.existed, reported),
        _ => push_change(alloc, &mut asked.changes, word, reported),
    }
}

fn take_steps(alloc: Global, asked: &mut Asked, steps: &str) -> Result<(), PlaceFault> {
    for step in steps.split_terminator(';') {
        take_step(alloc, asked, step)?;
    }
    Ok(())
}

fn snapshots_of(alloc: Global, files: Files) -> Result<Snapshots, AllocError>
    ensures { IfOk result (λ files. map (λ tree. tree.0) files ≡ source ∷ []) }
{
    let name = source_name(alloc)?;
    let mut snapshots = Snapshots::new(alloc);
    snapshots.push(Snapshot::new(name, files))?;
    Ok(snapshots)
}

fn outputs_of(alloc: Global, form: Form, files: Files) -> Result<OutputSnapshots, AllocError>
    ensures { IfOk result (λ outputs.
        map {B = List ℕ × Form} (λ output. (output.name, output.form)) outputs ≡ (target, form) ∷ []) }
{
    let name = output_name(alloc)?;
    let mut outputs = OutputSnapshots::new(alloc);
    outputs.push(OutputFiles { name, form, files })?;
    Ok(outputs)
}

fn lists_of(alloc: Global, changes: ChangeList) -> Result<ChangeLists, AllocError> {
    let name = source_name(alloc)?;
    let mut lists = ChangeLists::new(alloc);
    lists.push((name, changes))?;
    Ok(lists)
}

/// The request of a row, for a task whose output has this form.
fn request_of(alloc: Global, form: Form, row: &Row) -> Result<Request, PlaceFault>
    ensures files { IfOk result (λ request. map (λ tree. tree.0) request.files ≡ source ∷ []) }
    ensures outputs { IfOk result (λ request. map {B = List ℕ × Form} (λ output. (output.name, output.form))
        request.outputs ≡ (target, form) ∷ []) }
{
    let mut asked = Asked {
        args: Arguments::new(alloc),
        files: Files::new(alloc),
        existed: Files::new(alloc),
        changes: ChangeList::new(alloc),
    };
    take_steps(alloc, &mut asked, row.1)?;
    take_steps(alloc, &mut asked, row.2)?;
    let Asked {
        args,
        files,
        existed,
        changes,
    } = asked;
    let files = snapshots_of(alloc, files)?;
    let outputs = outputs_of(alloc, form, existed)?;
    let lists = lists_of(alloc, changes)?;
    Ok(Request {
        args,
        values: NamedValues::new(alloc),
        files,
        outputs,
        changes: InputChanges {
            incremental: !row.2.is_empty(),
            lists,
        },
    })
}

/// Appends a mark, two texts with a sign between them, and `;` to the shown result.
fn push_part(
    shown: &mut String,
    mark: &str,
    left: &str,
    sign: &str,
    right: &str,
) -> Result<(), AllocError> {
    shown.push_str(mark)?;
    shown.push_str(left)?;
    shown.push_str(sign)?;
    shown.push_str(right)?;
    shown.push(';')
}

fn push_removes(shown: &mut String, removes: &Removals) -> Result<(), AllocError> {
    for removed in removes.as_slice() {
        push_part(shown, "-", removed.path.as_str(), "", "")?;
    }
    Ok(())
}

fn push_writes(shown: &mut String, writes: &Writes) -> Result<(), AllocError> {
    for file in writes.as_slice() {
        let text = str::from_utf8(file.bytes.as_slice()).unwrap_or("no text");
        push_part(shown, "+", file.path.as_str(), "=", text)?;
    }
    Ok(())
}

fn push_lines(shown: &mut String, lines: &Lines) -> Result<(), AllocError> {
    for line in lines.as_slice() {
        push_part(shown, ">", line.as_str(), "", "")?;
    }
    Ok(())
}

fn push_reply(shown: &mut String, reply: &Reply) -> Result<(), AllocError> {
    push_removes(shown, &reply.removes)?;
    push_writes(shown, &reply.writes)?;
    push_lines(shown, &reply.lines)
}

fn show(alloc: Global, answer: &Result<Reply, ActionFault>) -> Result<String, AllocError> {
    match answer {
        Ok(reply) => {
            let mut shown = String::new(alloc);
            push_reply(&mut shown, reply)?;
            Ok(shown)
        }
        Err(fault) => format!(in alloc; "{fault}"),
    }
}

/// Whether an action can answer a request, if the request is incremental.
fn can_answer(stored: &StoredAction, request: &Request) -> bool
    ensures { result ≡ true → request.now.changes.incremental ≡ true
        → (builtin_shape stored.now.kind).incremental ≡ true }
{
    incremental::<Builtin>(stored) || !request.changes.is_incremental()
}

/// The shown result of a request by a task with the property `src` and the output `out`.
fn ask_stored(
    alloc: Global,
    stored: &StoredAction,
    form: Form,
    request: &Request,
) -> Result<String, AllocError>
    requires files { map (λ tree. tree.0) request.now.files ≡ source ∷ [] }
    requires outputs { map {B = List ℕ × Form} (λ output. (output.name, output.form)) request.now.outputs
        ≡ (target, form) ∷ [] }
    requires changes { request.now.changes.incremental ≡ true
        → (builtin_shape stored.now.kind).incremental ≡ true }
{
    let properties = [source_name(alloc)?];
    let outputs = [(output_name(alloc)?, form)];
    match accepts::<Builtin>(stored, &request.args, &properties, &outputs) {
        Fit::Yes => show(alloc, &run_action::<Builtin>(stored, alloc, request)),
        _ => String::from_str(alloc, "no fit"),
    }
}

/// The shown result of a request to the action of a closure.
fn ask(
    alloc: Global,
    kind: u16,
    run: Run,
    shape: Result<Shape, AllocError>,
    form: Form,
    request: &Request,
) -> Result<String, AllocError>
    requires shaped { IfOk shape (λ shape. shape ≡ builtin_shape kind) }
    requires implements { Implements kind (Run.pre run) (Run.post run) }
    requires files { map (λ tree. tree.0) request.now.files ≡ source ∷ [] }
    requires outputs { map {B = List ℕ × Form} (λ output. (output.name, output.form)) request.now.outputs
        ≡ (target, form) ∷ [] }
{
    let stored = StoredAction::new(kind, 1, shape?, run);
    if can_answer(&stored, request) {
        ask_stored(alloc, &stored, form, request)
    } else {
        String::from_str(alloc, "no changes alone")
    }
}

/// Calls the kind with a number by a closure of its function.
macro_rules! ask_by {
    ($alloc:expr, $form:expr, $request:expr; $kind:expr, $run:expr, $shape:expr) => {
        ask($alloc, $kind, Box::new($alloc, $run)?, $shape($alloc), $form, $request)
    };
}

/// The shown result of a request to a kind.
fn ask_kind(alloc: Global, kind: u16, form: Form, request: &Request) -> Result<String, AllocError>
    requires files { map (λ tree. tree.0) request.now.files ≡ source ∷ [] }
    requires outputs { map {B = List ℕ × Form} (λ output. (output.name, output.form)) request.now.outputs
        ≡ (target, form) ∷ [] }
{
    match kind {
        COPY_FILES => ask_by!(alloc, form, request; COPY_FILES, copy_files, copy_files_shape),
        REPLACE_TOKENS =>
            ask_by!(alloc, form, request; REPLACE_TOKENS, replace_tokens, replace_tokens_shape),
        KEEP_LINES => ask_by!(alloc, form, request; KEEP_LINES, keep_lines, keep_lines_shape),
        SUMS => ask_by!(alloc, form, request; SUMS, sums, sums_shape),
        CONCAT => ask_by!(alloc, form, request; CONCAT, concat, concat_shape),
        ADD_FILE => ask_by!(alloc, form, request; ADD_FILE, add_file, add_file_shape),
        WRITE_TEXT => ask_by!(alloc, form, request; WRITE_TEXT, write_text, write_text_shape),
        FAIL => ask_by!(alloc, form, request; FAIL, fail, fail_shape),
        WORD_INDEX => ask_by!(alloc, form, request; WORD_INDEX, word_index, word_index_shape),
        _ => String::from_str(alloc, "no kind"),
    }
}

/// The shown result of a row.
fn answer(alloc: Global, row: &Row) -> Result<String, PlaceFault> {
    let form = match row.0 {
        CONCAT | WRITE_TEXT => Form::File,
        _ => Form::Dir,
    };
    let request = request_of(alloc, form, row)?;
    Ok(ask_kind(alloc, row.0, form, &request)?)
}

/// Fails with the shown result of the first row that differs.
fn hold(alloc: Global, rows: &[Row]) -> Result<(), Fail> {
    for row in rows {
        let shown = answer(alloc, row)?;
        if shown.as_str() != row.3 {
            return Err(Fail::new(shown.as_str()));
        }
    }
    Ok(())
}

/// Three files; `b` is gone, and `a` and `d` differ from the outputs.
const COPIED: &str = "src a=X;src c=C;src d=D;out a=A;out b=B;out c=C";

const COPIES: [Row; 7] = [
    (
        COPY_FILES,
        COPIED,
        "M a;R b;A d",
        "-b;+a=X;+d=D;>MODIFIED a;>REMOVED b;>ADDED d;",
    ),
    (COPY_FILES, COPIED, "A d", "+d=D;>ADDED d;"),
    (COPY_FILES, COPIED, "M a", "+a=X;>MODIFIED a;"),
    (COPY_FILES, COPIED, "R b", "-b;>REMOVED b;"),
    (COPY_FILES, COPIED, "M c", ">MODIFIED c;"),
    (COPY_FILES, "arg x", "", "no fit"),
    (COPY_FILES, "src a=", "", "+a=;"),
];

#[test]
fn copies_follow_the_changes(rt: HostRuntime) -> Result<(), Fail> {
    hold(rt.alloc(), &COPIES)
}

/// `a` is modified, `b` is gone, `c` already has its output, and `d` is new.
const TOKENS_EACH: &str = "arg k;arg v;src a=@k@x;src c=@k@;src d=;out a=v;out b=b;out c=v";

/// `a` is modified, `b` is gone, `c` already has its output, and `d` is new.
const KEPT_EACH: &str = "arg x;src a=x1\ny\n;src c=x\nz;src d=y\nx;out a=x0\n;out b=x;out c=x\n";

const EDITS: [Row; 17] = [
    // Tokens are replaced once.
    (
        REPLACE_TOKENS,
        "arg k;arg v;src a=@k@@k@ @k",
        "",
        "+a=vv @k;",
    ),
    (REPLACE_TOKENS, "arg k;arg @k@;src a=@k@k@", "", "+a=@k@k@;"),
    (REPLACE_TOKENS, "arg @;arg v;src a=", "", "no fit"),
    (
        REPLACE_TOKENS,
        "arg k;arg v;src a=@k@;src b=@k@;out a=v;out b=w;out c=",
        "M a;M b;R c",
        "-c;+b=v;>MODIFIED a;>MODIFIED b;>REMOVED c;",
    ),
    // Each change alone, and all at once.
    (REPLACE_TOKENS, TOKENS_EACH, "M a", "+a=vx;>MODIFIED a;"),
    (REPLACE_TOKENS, TOKENS_EACH, "R b", "-b;>REMOVED b;"),
    (REPLACE_TOKENS, TOKENS_EACH, "M c", ">MODIFIED c;"),
    (REPLACE_TOKENS, TOKENS_EACH, "A d", "+d=;>ADDED d;"),
    (
        REPLACE_TOKENS,
        TOKENS_EACH,
        "M a;R b;M c;A d",
        "-b;+a=vx;+d=;>MODIFIED a;>REMOVED b;>MODIFIED c;>ADDED d;",
    ),
    // Lines are kept whole.
    (KEEP_LINES, "arg x;src a=x\ny\nxx", "", "+a=x\nxx;"),
    (KEEP_LINES, "arg x;src a=", "", "+a=;"),
    (
        KEEP_LINES,
        "arg x;src a=x\ny\n;src n=x;out a=x\n;out o=",
        "M a;A n;R o",
        "-o;+n=x;>MODIFIED a;>ADDED n;>REMOVED o;",
    ),
    // Each change alone, and all at once.
    (KEEP_LINES, KEPT_EACH, "M a", "+a=x1\n;>MODIFIED a;"),
    (KEEP_LINES, KEPT_EACH, "R b", "-b;>REMOVED b;"),
    (KEEP_LINES, KEPT_EACH, "M c", ">MODIFIED c;"),
    (KEEP_LINES, KEPT_EACH, "A d", "+d=x;>ADDED d;"),
    (
        KEEP_LINES,
        KEPT_EACH,
        "M a;R b;M c;A d",
        "-b;+a=x1\n;+d=x;>MODIFIED a;>REMOVED b;>MODIFIED c;>ADDED d;",
    ),
];

#[test]
fn files_are_edited(rt: HostRuntime) -> Result<(), Fail> {
    hold(rt.alloc(), &EDITS)
}

/// `a` is modified, `b` is gone, `c` already has its output, and `d` is new. `a` and `c` are empty
/// files.
const DIGESTS_EACH: &str = "src a=;src c=;src d=abc;out a=;out b=;\
     out c=e3b0c44298fc1c149afbf4c8996fb92427ae41e4649b934ca495991b7852b855\n";

const DIGESTS: [Row; 8] = [
    (
        SUMS,
        "src a=abc",
        "",
        "+a=ba7816bf8f01cfea414140de5dae2223b00361a396177a9cb410ff61f20015ad\n;",
    ),
    (
        SUMS,
        "src a=abcdbcdecdefdefgefghfghighijhijkijkljklmklmnlmnomnopnopq",
        "",
        "+a=248d6a61d20638b8e5c026930c3e6039a33ce45964ff2167f6ecedd419db06c1\n;",
    ),
    (
        SUMS,
        "src a=abc;out a=;out b=",
        "M a;R b",
        "-b;+a=ba7816bf8f01cfea414140de5dae2223b00361a396177a9cb410ff61f20015ad\n;\
         >MODIFIED a;>REMOVED b;",
    ),
    // Each change alone, and all at once.
    (
        SUMS,
        DIGESTS_EACH,
        "M a",
        "+a=e3b0c44298fc1c149afbf4c8996fb92427ae41e4649b934ca495991b7852b855\n;>MODIFIED a;",
    ),
    (SUMS, DIGESTS_EACH, "R b", "-b;>REMOVED b;"),
    (SUMS, DIGESTS_EACH, "M c", ">MODIFIED c;"),
    (
        SUMS,
        DIGESTS_EACH,
        "A d",
        "+d=ba7816bf8f01cfea414140de5dae2223b00361a396177a9cb410ff61f20015ad\n;>ADDED d;",
    ),
    (
        SUMS,
        DIGESTS_EACH,
        "M a;R b;M c;A d",
        "-b;+a=e3b0c44298fc1c149afbf4c8996fb92427ae41e4649b934ca495991b7852b855\n;\
         +d=ba7816bf8f01cfea414140de5dae2223b00361a396177a9cb410ff61f20015ad\n;>MODIFIED a;\
         >REMOVED b;>MODIFIED c;>ADDED d;",
    ),
];

/// The digests are the examples of FIPS 180-4.
#[test]
fn sums_are_digests(rt: HostRuntime) -> Result<(), Fail> {
    hold(rt.alloc(), &DIGESTS)
}

const OTHERS: [Row; 6] = [
    (CONCAT, "src b/c=2;src b-=3;src a=1", "", "+=132;"),
    (ADD_FILE, "arg n/m;arg N;src a=", "", "+n/m=N;"),
    (ADD_FILE, "arg ../m;arg N;src a=", "", "no fit"),
    (WRITE_TEXT, "arg abc", "", "+=abc;"),
    (FAIL, "arg no;src a=", "", "no"),
    (FAIL, "arg a\nb;src a=", "", "no fit"),
];

/// The kinds that write one file or none.
#[test]
fn other_actions_answer(rt: HostRuntime) -> Result<(), Fail> {
    hold(rt.alloc(), &OTHERS)
}

/// The words of an unchanged file are read from the old index, whatever the file contains: `b`
/// stays at `w` and gets no other word, while `a` leaves it.
const OLD_INDEX: &str = "src a=x;src a-=y;src b=z;out w=a\na-\nb\n;out x=a-\n";

const WORDS: [Row; 12] = [
    // Full requests index the words,
    (
        WORD_INDEX,
        "src a=red Blue;src b=blue",
        "",
        "+blue=a\nb\n;+red=a\n;",
    ),
    (
        WORD_INDEX,
        "src a=green;src b=blue",
        "",
        "+blue=b\n;+green=a\n;",
    ),
    (WORD_INDEX, "src a=green", "", "+green=a\n;"),
    (WORD_INDEX, "src a=", "", ""),
    // and incremental requests index these three trees by the changes from one to the next.
    (
        WORD_INDEX,
        "src a=green;src b=blue;out blue=a\nb\n;out red=a\n",
        "M a",
        "-red;+blue=b\n;+green=a\n;>MODIFIED a;",
    ),
    (
        WORD_INDEX,
        "src a=green;out blue=b\n;out green=a\n",
        "R b",
        "-blue;>REMOVED b;",
    ),
    // A word of 64 letters counts; one of 65 does not.
    (
        WORD_INDEX,
        "src a=AAAAAAAAAAAAAAAAAAAAAAAAAAAAAAAAAAAAAAAAAAAAAAAAAAAAAAAAAAAAAAAA4\
         bbbbbbbbbbbbbbbbbbbbbbbbbbbbbbbbbbbbbbbbbbbbbbbbbbbbbbbbbbbbbbbbb c",
        "",
        "+aaaaaaaaaaaaaaaaaaaaaaaaaaaaaaaaaaaaaaaaaaaaaaaaaaaaaaaaaaaaaaaa=a\n;+c=a\n;",
    ),
    // Words stay where they are.
    (
        WORD_INDEX,
        "src a=x;src b=x;out x=b\n",
        "A a",
        "+x=a\nb\n;>ADDED a;",
    ),
    (WORD_INDEX, "src b=X x!;out x=b\n", "M b", ">MODIFIED b;"),
    // All changes come at once.
    (
        WORD_INDEX,
        "src a=x y;src b=z;out w=c\n;out x=b\nc\n;out y=c\n",
        "A a;M b;R c",
        "-w;+x=a\n;+y=a\n;+z=b\n;>ADDED a;>MODIFIED b;>REMOVED c;",
    ),
    // Words of other files are read from the index.
    (
        WORD_INDEX,
        OLD_INDEX,
        "M a",
        "+w=a-\nb\n;+x=a\na-\n;>MODIFIED a;",
    ),
    (
        WORD_INDEX,
        OLD_INDEX,
        "M a-;M b",
        "-x;+w=a\n;+y=a-\n;+z=b\n;>MODIFIED a-;>MODIFIED b;",
    ),
];

#[test]
fn words_are_reported(rt: HostRuntime) -> Result<(), Fail> {
    hold(rt.alloc(), &WORDS)
}
