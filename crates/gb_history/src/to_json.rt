//! Writes records as JSON, a token at a time.
ghost use Rattle.std.specs.Prelude.{◌≡◌, [], ◌∷◌, ◌++◌, codes, map, IsTrue, OnOk};
ghost use Rattle.std.specs.List.{AllByRecursion};
ghost use Rattle.std.specs.Str.{IsUtf8};
ghost use Rattle.gb_core.specs.Path.{is_task_path};
ghost use Rattle.hex.specs.Hex.{encode_lower};
ghost use Rattle.json.specs.Token.{key};
ghost use Rattle.serde_json.specs.Data.{boolean, number, unsigned, string, array, object, no_members, member};
ghost use Rattle.serde_json.specs.View.{items_of};
ghost use Rattle.gb_history.specs.Record.{IsArgument, IsInput, IsAction, IsPrint, ArePrints};
ghost use Rattle.gb_history.specs.Record.{IsOutput, IsWellFormed, AreHeld};
ghost use Rattle.gb_history.specs.Text.{value_json, input_json, plain_object, versioned_object, action_json};
ghost use Rattle.gb_history.specs.Text.{print_json, prints_json, output_json, shape_text, run_json};
ghost use Rattle.gb_history.specs.Text.{edition_number, record_json, held_json, history_json};
ghost use Rattle.gb_history.specs.Tokens.{data_tokens};

use crate::record::{Edition, OutputRecord, Record};
use gb_action::output_files::Form;
use gb_core::name::Name;
use gb_core::path::TaskPath;
use gb_core::place::RelPath;
use gb_core::text::Text;
use gb_core::value::Value;
use gb_plan::task::Action;
use gb_tree::prints::Prints;
use json::Writer;
use std::alloc::AllocError;
use std::collections::BTreeMap;

/// A key and its text.
fn write_text(writer: &mut Writer, name: &str, text: &str) -> Result<(), AllocError>
    ensures json { OnOk result (writer.new.tokens
        ≡ writer.old.tokens ++ key name.now ∷ data_tokens (string text.now)) }
    ensures before { writer.new.before ≡ writer.old.before }
{
    writer.key(name)?;
    writer.string(text)
}

/// A key and its number.
fn write_number(writer: &mut Writer, name: &str, n: u64) -> Result<(), AllocError>
    ensures json { OnOk result (writer.new.tokens
        ≡ writer.old.tokens ++ key name.now ∷ data_tokens (number (unsigned n))) }
    ensures before { writer.new.before ≡ writer.old.before }
{
    writer.key(name)?;
    writer.u64(n)
}

fn write_texts(writer: &mut Writer, texts: &[Text]) -> Result<(), AllocError>
    ensures json { OnOk result (writer.new.tokens
        ≡ writer.old.tokens ++ data_tokens (array (items_of (map string texts.now)))) }
    ensures before { writer.new.before ≡ writer.old.before }
    ensures held { OnOk result (AllByRecursion IsUtf8 texts.now) }
{
    writer.begin_array()?;
    for text in texts {
        writer.string(text.as_str())?;
    }
    writer.end_array()
}

/// An object of one text.
fn write_single(writer: &mut Writer, name: &str, text: &str) -> Result<(), AllocError>
    ensures json { OnOk result (writer.new.tokens
        ≡ writer.old.tokens ++ data_tokens (object (member name.now (string text.now) no_members))) }
    ensures before { writer.new.before ≡ writer.old.before }
{
    writer.begin_object()?;
    write_text(writer, name, text)?;
    writer.end_object()
}

fn write_flag(writer: &mut Writer, flag: bool) -> Result<(), AllocError>
    ensures json { OnOk result (writer.new.tokens
        ≡ writer.old.tokens ++ data_tokens (object (member (codes "flag") (boolean flag) no_members))) }
    ensures before { writer.new.before ≡ writer.old.before }
{
    writer.begin_object()?;
    writer.key("flag")?;
    writer.boolean(flag)?;
    writer.end_object()
}

fn write_list(writer: &mut Writer, texts: &[Text]) -> Result<(), AllocError>
    ensures json { OnOk result (writer.new.tokens ≡ writer.old.tokens ++ data_tokens
        (object (member (codes "list") (array (items_of (map string texts.now))) no_members))) }
    ensures before { writer.new.before ≡ writer.old.before }
    ensures held { OnOk result (AllByRecursion IsUtf8 texts.now) }
{
    writer.begin_object()?;
    writer.key("list")?;
    write_texts(writer, texts)?;
    writer.end_object()
}

fn write_value(writer: &mut Writer, value: &Value) -> Result<(), AllocError>
    ensures json { OnOk result
        (writer.new.tokens ≡ writer.old.tokens ++ data_tokens (value_json value.now)) }
    ensures before { writer.new.before ≡ writer.old.before }
    ensures held { OnOk result (IsArgument value.now) }
{
    match value {
        Value::Text(text) => write_single(writer, "text", text.as_str()),
        Value::Flag(flag) => write_flag(writer, *flag),
        Value::List(texts) => write_list(writer, texts.as_slice()),
        Value::Place(place) => write_single(writer, "place", place.as_str()),
        Value::Task(path) => write_single(writer, "task", path.as_str()),
    }
}

fn write_arguments(writer: &mut Writer, arguments: &[Value]) -> Result<(), AllocError>
    ensures json { OnOk result (writer.new.tokens
        ≡ writer.old.tokens ++ data_tokens (array (items_of (map value_json arguments.now)))) }
    ensures before { writer.new.before ≡ writer.old.before }
    ensures held { OnOk result (AllByRecursion IsArgument arguments.now) }
{
    writer.begin_array()?;
    for argument in arguments {
        write_value(writer, argument)?;
    }
    writer.end_array()
}

fn write_input(writer: &mut Writer, input: &(Name, Value)) -> Result<(), AllocError>
    ensures json { OnOk result
        (writer.new.tokens ≡ writer.old.tokens ++ data_tokens (input_json input.now)) }
    ensures before { writer.new.before ≡ writer.old.before }
    ensures held { OnOk result (IsInput input.now) }
{
    writer.begin_array()?;
    writer.string(input.0.as_str())?;
    write_value(writer, &input.1)?;
    writer.end_array()
}

fn write_inputs(writer: &mut Writer, inputs: &[(Name, Value)]) -> Result<(), AllocError>
    ensures json { OnOk result (writer.new.tokens
        ≡ writer.old.tokens ++ data_tokens (array (items_of (map input_json inputs.now)))) }
    ensures before { writer.new.before ≡ writer.old.before }
    ensures held { OnOk result (AllByRecursion IsInput inputs.now) }
{
    writer.begin_array()?;
    for input in inputs {
        write_input(writer, input)?;
    }
    writer.end_array()
}

fn write_plain_action(
    writer: &mut Writer,
    arguments: &[Value],
    kind: &str,
) -> Result<(), AllocError>
    ensures json { OnOk result (writer.new.tokens ≡ writer.old.tokens
        ++ data_tokens (plain_object (array (items_of (map value_json arguments.now))) kind.now)) }
    ensures before { writer.new.before ≡ writer.old.before }
    ensures held { OnOk result (AllByRecursion IsArgument arguments.now) }
{
    writer.begin_object()?;
    writer.key("args")?;
    write_arguments(writer, arguments)?;
    write_text(writer, "kind", kind)?;
    writer.end_object()
}

fn write_versioned_action(
    writer: &mut Writer,
    arguments: &[Value],
    kind: &str,
    version: u32,
) -> Result<(), AllocError>
    ensures json { OnOk result (writer.new.tokens ≡ writer.old.tokens ++ data_tokens
        (versioned_object (array (items_of (map value_json arguments.now))) kind.now version)) }
    ensures before { writer.new.before ≡ writer.old.before }
    ensures held { OnOk result (AllByRecursion IsArgument arguments.now) }
{
    writer.begin_object()?;
    writer.key("args")?;
    write_arguments(writer, arguments)?;
    write_text(writer, "kind", kind)?;
    write_number(writer, "version", u64::from(version))?;
    writer.end_object()
}

fn write_action(writer: &mut Writer, edition: Edition, action: &Action) -> Result<(), AllocError>
    ensures json { OnOk result
        (writer.new.tokens ≡ writer.old.tokens ++ data_tokens (action_json edition action.now)) }
    ensures before { writer.new.before ≡ writer.old.before }
    ensures held { OnOk result (IsAction action.now) }
{
    let (kind, version) = (action.kind.as_str(), action.version);
    let arguments = action.args.as_slice();
    match edition {
        Edition::First => write_plain_action(writer, arguments, kind),
        Edition::Second => write_versioned_action(writer, arguments, kind, version),
    }
}

fn write_actions(
    writer: &mut Writer,
    edition: Edition,
    actions: &[Action],
) -> Result<(), AllocError>
    ensures json { OnOk result (writer.new.tokens
        ≡ writer.old.tokens ++ data_tokens (array (items_of (map (action_json edition) actions.now)))) }
    ensures before { writer.new.before ≡ writer.old.before }
    ensures held { OnOk result (AllByRecursion IsAction actions.now) }
{
    writer.begin_array()?;
    for action in actions {
        write_action(writer, edition, action)?;
    }
    writer.end_array()
}

/// The hex digits of a digest.
pub fn digits_of(digest: [u8; 32]) -> [u8; 64]
    ensures { result ≡ encode_lower digest }
{
    let mut digits = [0; 64];
    if hex::encode_to_slice(digest, &mut digits).is_err() {
        unreachable!();
    }
    digits
}

fn write_digest(writer: &mut Writer, digest: &[u8; 32]) -> Result<(), AllocError>
    ensures json { OnOk result
        (writer.new.tokens ≡ writer.old.tokens ++ data_tokens (string (encode_lower digest.now))) }
    ensures before { writer.new.before ≡ writer.old.before }
{
    let digits = digits_of(*digest);
    let Ok(text) = std::str::from_utf8(&digits) else {
        unreachable!();
    };
    writer.string(text)
}

fn write_print(writer: &mut Writer, path: &RelPath, digest: &[u8; 32]) -> Result<(), AllocError>
    ensures json { OnOk result
        (writer.new.tokens ≡ writer.old.tokens ++ data_tokens (print_json (path.now, digest.now))) }
    ensures before { writer.new.before ≡ writer.old.before }
    ensures held { OnOk result (IsPrint (path.now, digest.now)) }
{
    writer.begin_array()?;
    writer.string(path.as_str())?;
    write_digest(writer, digest)?;
    writer.end_array()
}

fn write_digests(writer: &mut Writer, prints: &[(RelPath, [u8; 32])]) -> Result<(), AllocError>
    ensures json { OnOk result (writer.new.tokens
        ≡ writer.old.tokens ++ data_tokens (array (items_of (map print_json prints.now)))) }
    ensures before { writer.new.before ≡ writer.old.before }
    ensures held { OnOk result (AllByRecursion IsPrint prints.now) }
{
    writer.begin_array()?;
    for (path, digest) in prints {
        write_print(writer, path, digest)?;
    }
    writer.end_array()
}

fn write_prints(writer: &mut Writer, prints: &Prints) -> Result<(), AllocError>
    ensures json { OnOk result
        (writer.new.tokens ≡ writer.old.tokens ++ data_tokens (prints_json prints.now)) }
    ensures before { writer.new.before ≡ writer.old.before }
    ensures held { OnOk result (ArePrints prints.now) }
{
    writer.begin_object()?;
    write_text(writer, "name", prints.name().as_str())?;
    writer.key("prints")?;
    write_digests(writer, prints.as_slice())?;
    writer.end_object()
}

fn write_properties(writer: &mut Writer, properties: &[Prints]) -> Result<(), AllocError>
    ensures json { OnOk result (writer.new.tokens
        ≡ writer.old.tokens ++ data_tokens (array (items_of (map prints_json properties.now)))) }
    ensures before { writer.new.before ≡ writer.old.before }
    ensures held { OnOk result (AllByRecursion ArePrints properties.now) }
{
    writer.begin_array()?;
    for prints in properties {
        write_prints(writer, prints)?;
    }
    writer.end_array()
}

fn shape_text(form: Form) -> &'static str
    ensures { result.now ≡ shape_text form }
{
    match form {
        Form::File => "file",
        Form::Dir => "dir",
    }
}

fn write_output(writer: &mut Writer, output: &OutputRecord) -> Result<(), AllocError>
    ensures json { OnOk result
        (writer.new.tokens ≡ writer.old.tokens ++ data_tokens (output_json output.now)) }
    ensures before { writer.new.before ≡ writer.old.before }
    ensures held { OnOk result (IsOutput output.now) }
{
    writer.begin_object()?;
    write_text(writer, "name", output.prints.name().as_str())?;
    write_text(writer, "place", output.place.as_str())?;
    writer.key("prints")?;
    write_digests(writer, output.prints.as_slice())?;
    write_text(writer, "shape", shape_text(output.form))?;
    writer.end_object()
}

fn write_outputs(writer: &mut Writer, outputs: &[OutputRecord]) -> Result<(), AllocError>
    ensures json { OnOk result (writer.new.tokens
        ≡ writer.old.tokens ++ data_tokens (array (items_of (map output_json outputs.now)))) }
    ensures before { writer.new.before ≡ writer.old.before }
    ensures held { OnOk result (AllByRecursion IsOutput outputs.now) }
{
    writer.begin_array()?;
    for output in outputs {
        write_output(writer, output)?;
    }
    writer.end_array()
}

fn write_run(
    writer: &mut Writer,
    edition: Edition,
    path: &TaskPath,
    run: &Record,
) -> Result<(), AllocError>
    ensures json { OnOk result
        (writer.new.tokens ≡ writer.old.tokens ++ data_tokens (run_json edition path.now run.now)) }
    ensures before { writer.new.before ≡ writer.old.before }
    ensures held { OnOk result (IsWellFormed run.now) }
    ensures utf8 { OnOk result (IsUtf8 path.now) }
    ensures task { OnOk result (IsTrue (is_task_path path.now)) }
{
    writer.begin_object()?;
    writer.key("actions")?;
    write_actions(writer, edition, run.actions())?;
    writer.key("files")?;
    write_properties(writer, run.inputs())?;
    writer.key("outputs")?;
    write_outputs(writer, run.outputs())?;
    write_text(writer, "task", path.as_str())?;
    writer.key("values")?;
    write_inputs(writer, run.values().as_slice())?;
    writer.end_object()
}

/// The number that denotes an edition.
fn edition_number(edition: Edition) -> u64
    ensures { result ≡ edition_number edition }
{
    match edition {
        Edition::First => 1,
        Edition::Second => 2,
    }
}

/// A list of one record.
fn write_only(
    writer: &mut Writer,
    edition: Edition,
    path: &TaskPath,
    run: &Record,
) -> Result<(), AllocError>
    ensures json { OnOk result (writer.new.tokens
        ≡ writer.old.tokens ++ data_tokens (array (items_of (run_json edition path.now run.now ∷ [])))) }
    ensures before { writer.new.before ≡ writer.old.before }
    ensures held { OnOk result (IsWellFormed run.now) }
    ensures utf8 { OnOk result (IsUtf8 path.now) }
{
    writer.begin_array()?;
    write_run(writer, edition, path, run)?;
    writer.end_array()
}

/// The record of a task, in a list of one.
pub fn write_record(
    writer: &mut Writer,
    edition: Edition,
    path: &TaskPath,
    run: &Record,
) -> Result<(), AllocError>
    ensures json { OnOk result
        (writer.new.tokens ≡ writer.old.tokens ++ data_tokens (record_json edition path.now run.now)) }
    ensures before { writer.new.before ≡ writer.old.before }
    ensures held { OnOk result (IsWellFormed run.now) }
    ensures utf8 { OnOk result (IsUtf8 path.now) }
{
    writer.begin_object()?;
    write_number(writer, "form", edition_number(edition))?;
    writer.key("tasks")?;
    write_only(writer, edition, path, run)?;
    writer.end_object()
}

/// Records in the order of the paths of their tasks.
fn write_records(
    writer: &mut Writer,
    edition: Edition,
    records: &BTreeMap<TaskPath, Record>,
) -> Result<(), AllocError>
    ensures json { OnOk result (writer.new.tokens ≡ writer.old.tokens ++ data_tokens
        (array (items_of (map (held_json edition) records.now.entries)))) }
    ensures before { writer.new.before ≡ writer.old.before }
    ensures held { OnOk result (AreHeld records.now.entries) }
{
    writer.begin_array()?;
    for (path, run) in records.iter() {
        write_run(writer, edition, path, run)?;
    }
    writer.end_array()
}

/// All records.
pub fn write_history(
    writer: &mut Writer,
    edition: Edition,
    records: &BTreeMap<TaskPath, Record>,
) -> Result<(), AllocError>
    ensures json { OnOk result
        (writer.new.tokens ≡ writer.old.tokens ++ data_tokens (history_json edition records.now.entries)) }
    ensures before { writer.new.before ≡ writer.old.before }
    ensures held { OnOk result (AreHeld records.now.entries) }
{
    writer.begin_object()?;
    write_number(writer, "form", edition_number(edition))?;
    writer.key("tasks")?;
    write_records(writer, edition, records)?;
    writer.end_object()
}
