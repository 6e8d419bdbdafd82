//! Reads records from JSON.
ghost use Rattle.std.specs.Prelude.{codes, ◌≡◌, ◌<◌, ◌∷◌, [], List, ℕ, Ok, Some, map, length, IsTrue};
ghost use Rattle.std.specs.Prelude.{IfOk, MatchResult, IsSomeAnd};
ghost use Rattle.std.specs.List.{AllByRecursion};
ghost use Rattle.std.specs.Str.{IsUtf8};
ghost use Rattle.std.specs.FinMap.Entries.{is_sorted};
ghost use Rattle.gb_core.specs.Lists.{byte_order};
ghost use Rattle.gb_core.specs.Name.{is_name};
ghost use Rattle.gb_core.specs.Path.{is_task_path};
ghost use Rattle.gb_core.specs.Place.{is_place, is_rel_path};
ghost use Rattle.gb_core.specs.declared.value.Value.{Value as Argument};
ghost use Rattle.gb_action.specs.declared.output_files.Form.{Form as Shape};
ghost use Rattle.gb_plan.specs.declared.task.Action.{Action as Acted};
ghost use Rattle.hex.specs.Hex.{encode_lower};
ghost use Rattle.serde_json.specs.Data.{Data, string, array, number, unsigned};
ghost use Rattle.serde_json.specs.Find.{get};
ghost use Rattle.serde_json.specs.Read.{read};
ghost use Rattle.serde_json.specs.View.{view, items_of};
ghost use Rattle.gb_history.specs.Record.{Record as Recorded, Prints as Printed, IsName, IsArgument, IsInput};
ghost use Rattle.gb_history.specs.Record.{IsAction, IsPrint, ArePrints};
ghost use Rattle.gb_history.specs.Record.{IsOutput, AreInOrder, IsWellFormed};
ghost use Rattle.gb_history.specs.Text.{value_json, input_json, action_json, print_json, prints_json};
ghost use Rattle.gb_history.specs.Text.{output_json, shape_text, run_json, record_json, held_json};
ghost use Rattle.gb_history.specs.Text.{history_json, FitsEdition, IsActionIn, RecordFits, IsHeldIn};
ghost use Rattle.gb_history.specs.declared.record.Edition.{Edition as Written};
ghost use Rattle.gb_history.specs.declared.record.OutputRecord.{OutputRecord as Output};
ghost use Rattle.gb_history.specs.declared.fault.RecordFault.TheVariants.{OutOfMemory};

use crate::fault::RecordFault;
use crate::history::History;
use crate::in_order::{digests_rise, inputs_rise, outputs_rise, values_rise};
use crate::record::{Edition, OutputRecord, Record};
use gb_action::output_files::Form;
use gb_action::values::{Arguments, NamedValues};
use gb_core::name::{Name, NameFault};
use gb_core::path::TaskPath;
use gb_core::place::{Place, PlaceFault, RelPath};
use gb_core::text::{Text, Texts};
use gb_core::value::Value;
use gb_plan::task::Action;
use gb_tree::prints::Prints;
use hex::FromHex;
use serde_json::Value as Json;
use serde_json::error::Category;
use std::alloc::Global;

/// The JSON value of these bytes; other bytes give 80.
pub fn json_from(alloc: Global, bytes: &[u8]) -> Result<Json, RecordFault>
    ensures { (d : Data) → IsUtf8 bytes.now → read bytes.now ≡ Some d
        → MatchResult result (λ json. view json ≡ d) (λ e. e ≡ OutOfMemory) }
{
    match Json::from_slice(alloc, bytes) {
        Ok(json) => Ok(json),
        Err(error) if error.classify() == Category::Memory => Err(RecordFault::OutOfMemory),
        Err(_) => Err(RecordFault::NotARecord),
    }
}

/// The list under a key of an object, if there is one.
pub fn list_at<'j>(json: &'j Json, key: &str) -> Option<&'j Vec<Json>>
    ensures { (items : List Data) → get key.now (view json.now) ≡ Some (array (items_of items))
        → IsSomeAnd result (λ list. map view list.now.items ≡ items) }
{
    json.get(key)?.as_array()
}

fn text_at<'j>(json: &'j Json, key: &str) -> Option<&'j str>
    ensures { (text : List ℕ) → get key.now (view json.now) ≡ Some (string text)
        → IsSomeAnd result (λ found. found.now ≡ text) }
{
    json.get(key)?.as_str()
}

fn pair_of(json: &Json) -> Option<(&Json, &Json)>
    ensures { (a b : Data) → view json.now ≡ array (items_of (a ∷ b ∷ []))
        → IsSomeAnd result (λ p. (view p.0.now ≡ a) × (view p.1.now ≡ b)) }
{
    let list = json.as_array()?.as_slice();
    if list.len() != 2 {
        return None;
    }
    Some((&list[0], &list[1]))
}

fn name_from(alloc: Global, text: &str) -> Result<Name, RecordFault>
    ensures { IsTrue (is_name text.now)
        → MatchResult result (λ name. name ≡ text.now) (λ e. e ≡ OutOfMemory) }
{
    match Name::read(alloc, text) {
        Ok(name) => Ok(name),
        Err(NameFault::OutOfMemory) => Err(RecordFault::OutOfMemory),
        Err(NameFault::BadName) => Err(RecordFault::NotARecord),
    }
}

fn task_from(alloc: Global, text: &str) -> Result<TaskPath, RecordFault>
    ensures { IsTrue (is_task_path text.now)
        → MatchResult result (λ path. path ≡ text.now) (λ e. e ≡ OutOfMemory) }
{
    match TaskPath::read(alloc, text) {
        Ok(path) => Ok(path),
        Err(NameFault::OutOfMemory) => Err(RecordFault::OutOfMemory),
        Err(NameFault::BadName) => Err(RecordFault::NotARecord),
    }
}

fn place_from(alloc: Global, text: &str) -> Result<Place, RecordFault>
    ensures { IsTrue (is_place text.now)
        → MatchResult result (λ place. place ≡ text.now) (λ e. e ≡ OutOfMemory) }
{
    match Place::read(alloc, text) {
        Ok(place) => Ok(place),
        Err(PlaceFault::OutOfMemory) => Err(RecordFault::OutOfMemory),
        Err(PlaceFault::BadPlace) => Err(RecordFault::NotARecord),
    }
}

fn path_from(alloc: Global, text: &str) -> Result<RelPath, RecordFault>
    ensures { IsTrue (is_rel_path text.now)
        → MatchResult result (λ path. path ≡ text.now) (λ e. e ≡ OutOfMemory) }
{
    match RelPath::read(alloc, text) {
        Ok(path) => Ok(path),
        Err(PlaceFault::OutOfMemory) => Err(RecordFault::OutOfMemory),
        Err(PlaceFault::BadPlace) => Err(RecordFault::NotARecord),
    }
}

fn digest_from(json: &Json) -> Result<[u8; 32], RecordFault>
    ensures { (digest : List ℕ) → length digest ≡ 32 → AllByRecursion (λ b. b < 256) digest
        → view json.now ≡ string (encode_lower digest) → result ≡ Ok digest }
{
    let Some(text) = json.as_str() else {
        return Err(RecordFault::NotARecord);
    };
    match <[u8; 32] as FromHex>::from_hex(text) {
        Ok(digest) => Ok(digest),
        Err(_) => Err(RecordFault::NotARecord),
    }
}

fn texts_from(alloc: Global, items: &[Json]) -> Result<Texts, RecordFault>
    ensures { (ts : List (List ℕ)) → map view items.now ≡ map string ts
        → MatchResult result (λ got. got ≡ ts) (λ e. e ≡ OutOfMemory) }
{
    let mut texts = Texts::new(alloc);
    for item in items {
        let Some(text) = item.as_str() else {
            return Err(RecordFault::NotARecord);
        };
        texts.push(Text::from_str(alloc, text)?)?;
    }
    Ok(texts)
}

fn value_from(alloc: Global, json: &Json) -> Result<Value, RecordFault>
    ensures { (v : Argument) → IsArgument v → view json.now ≡ value_json v
        → MatchResult result (λ got. got ≡ v) (λ e. e ≡ OutOfMemory) }
{
    if let Some(text) = json.get("text").and_then(Json::as_str) {
        return Ok(Value::Text(Text::from_str(alloc, text)?));
    }
    if let Some(text) = json.get("place").and_then(Json::as_str) {
        return Ok(Value::Place(place_from(alloc, text)?));
    }
    if let Some(text) = json.get("task").and_then(Json::as_str) {
        return Ok(Value::Task(task_from(alloc, text)?));
    }
    if let Some(flag) = json.get("flag").and_then(Json::as_bool) {
        return Ok(Value::Flag(flag));
    }
    if let Some(list) = list_at(json, "list") {
        return Ok(Value::List(texts_from(alloc, list.as_slice())?));
    }
    Err(RecordFault::NotARecord)
}

fn arguments_from(alloc: Global, items: &[Json]) -> Result<Arguments, RecordFault>
    ensures { (vs : List Argument) → AllByRecursion IsArgument vs → map view items.now ≡ map value_json vs
        → MatchResult result (λ got. got ≡ vs) (λ e. e ≡ OutOfMemory) }
{
    let mut arguments = Arguments::new(alloc);
    for item in items {
        arguments.push(value_from(alloc, item)?)?;
    }
    Ok(arguments)
}

fn input_from(alloc: Global, json: &Json) -> Result<(Name, Value), RecordFault>
    ensures { (v : List ℕ × Argument) → IsInput v → view json.now ≡ input_json v
        → MatchResult result (λ got. got ≡ v) (λ e. e ≡ OutOfMemory) }
{
    let Some((name, value)) = pair_of(json) else {
        return Err(RecordFault::NotARecord);
    };
    let Some(name) = name.as_str() else {
        return Err(RecordFault::NotARecord);
    };
    let name = name_from(alloc, name)?;
    Ok((name, value_from(alloc, value)?))
}

/// The input values of a record, each a pair of name and value; anything else gives 80.
pub fn inputs_from(alloc: Global, items: &[Json]) -> Result<NamedValues, RecordFault>
    ensures { (vs : List (List ℕ × Argument)) → AllByRecursion IsInput vs
        → map view items.now ≡ map input_json vs
        → MatchResult result (λ got. got ≡ vs) (λ e. e ≡ OutOfMemory) }
{
    let mut values = NamedValues::new(alloc);
    for item in items {
        let input = input_from(alloc, item)?;
        values.push((input.0, input.1))?;
    }
    Ok(values)
}

/// A version of 32 bits.
fn version_at(json: &Json) -> Option<u32>
    ensures { (n : ℕ) → n < 4294967296 → get (codes "version") (view json.now) ≡ Some (number (unsigned n))
        → result ≡ Some n }
{
    u32::try_from(json.get("version")?.as_u64()?).ok()
}

/// The version of an action: in the first edition always 1.
fn version_from(edition: Edition, json: &Json) -> Option<u32>
    ensures read { (a : Acted) → IsAction a → FitsEdition edition a → view json.now ≡ action_json edition a
        → result ≡ Some a.version }
    ensures first { edition ≡ Edition.First → result ≡ Some 1 }
{
    match edition {
        Edition::First => Some(1),
        Edition::Second => version_at(json),
    }
}

fn kind_from(alloc: Global, json: &Json) -> Result<Name, RecordFault>
    ensures { (name : List ℕ) → IsTrue (is_name name)
        → get (codes "kind") (view json.now) ≡ Some (string name)
        → MatchResult result (λ got. got ≡ name) (λ e. e ≡ OutOfMemory) }
{
    let Some(text) = text_at(json, "kind") else {
        return Err(RecordFault::NotARecord);
    };
    name_from(alloc, text)
}

fn arguments_at(alloc: Global, json: &Json) -> Result<Arguments, RecordFault>
    ensures { (vs : List Argument) → AllByRecursion IsArgument vs
        → get (codes "args") (view json.now) ≡ Some (array (items_of (map value_json vs)))
        → MatchResult result (λ got. got ≡ vs) (λ e. e ≡ OutOfMemory) }
{
    let Some(items) = list_at(json, "args") else {
        return Err(RecordFault::NotARecord);
    };
    arguments_from(alloc, items.as_slice())
}

fn action_from(alloc: Global, edition: Edition, json: &Json) -> Result<Action, RecordFault>
    ensures read { (a : Acted) → IsAction a → FitsEdition edition a → view json.now ≡ action_json edition a
        → MatchResult result (λ got. got ≡ a) (λ e. e ≡ OutOfMemory) }
    ensures fits { IfOk result (FitsEdition edition) }
{
    let Some(version) = version_from(edition, json) else {
        return Err(RecordFault::NotARecord);
    };
    let kind = kind_from(alloc, json)?;
    let args = arguments_at(alloc, json)?;
    Ok(Action {
        kind,
        version,
        args,
    })
}

/// The actions of a record in this edition; anything else gives 80.
pub fn actions_from(
    alloc: Global,
    edition: Edition,
    items: &[Json],
) -> Result<Vec<Action>, RecordFault>
    ensures read { (acts : List Acted) → AllByRecursion (IsActionIn edition) acts
        → map view items.now ≡ map (action_json edition) acts
        → MatchResult result (λ got. got.items ≡ acts) (λ e. e ≡ OutOfMemory) }
    ensures fits { IfOk result (λ got. AllByRecursion (FitsEdition edition) got.items) }
{
    let mut actions = Vec::new(alloc);
    for item in items {
        actions.push(action_from(alloc, edition, item)?)?;
    }
    Ok(actions)
}

fn print_from(alloc: Global, json: &Json) -> Result<(RelPath, [u8; 32]), RecordFault>
    ensures { (p : List ℕ × List ℕ) → IsPrint p → view json.now ≡ print_json p
        → MatchResult result (λ got. got ≡ p) (λ e. e ≡ OutOfMemory) }
{
    let Some((path, digest)) = pair_of(json) else {
        return Err(RecordFault::NotARecord);
    };
    let Some(path) = path.as_str() else {
        return Err(RecordFault::NotARecord);
    };
    let path = path_from(alloc, path)?;
    Ok((path, digest_from(digest)?))
}

fn digests_from(alloc: Global, items: &[Json]) -> Result<Vec<(RelPath, [u8; 32])>, RecordFault>
    ensures { (ps : List (List ℕ × List ℕ)) → AllByRecursion IsPrint ps
        → map view items.now ≡ map print_json ps
        → MatchResult result (λ got. got.items ≡ ps) (λ e. e ≡ OutOfMemory) }
{
    let mut prints = Vec::new(alloc);
    for item in items {
        prints.push(print_from(alloc, item)?)?;
    }
    Ok(prints)
}

/// The prints of a property or an output, where each path is below the next.
fn prints_from(alloc: Global, json: &Json) -> Result<Prints, RecordFault>
    ensures { (p : Printed) → ArePrints p → get (codes "name") (view json.now) ≡ Some (string p.0)
        → get (codes "prints") (view json.now) ≡ Some (array (items_of (map print_json p.1)))
        → MatchResult result (λ got. got ≡ p) (λ e. e ≡ OutOfMemory) }
{
    let (Some(name), Some(digests)) = (text_at(json, "name"), list_at(json, "prints")) else {
        return Err(RecordFault::NotARecord);
    };
    let name = name_from(alloc, name)?;
    let digests = digests_from(alloc, digests.as_slice())?;
    if !digests_rise(digests.as_slice()) {
        return Err(RecordFault::NotARecord);
    }
    Ok(Prints::new(name, digests))
}

/// The digests of file properties, each with ascending paths; anything else gives 80.
pub fn properties_from(alloc: Global, items: &[Json]) -> Result<Vec<Prints>, RecordFault>
    ensures { (ps : List Printed) → AllByRecursion ArePrints ps → map view items.now ≡ map prints_json ps
        → MatchResult result (λ got. got.items ≡ ps) (λ e. e ≡ OutOfMemory) }
{
    let mut properties = Vec::new(alloc);
    for item in items {
        properties.push(prints_from(alloc, item)?)?;
    }
    Ok(properties)
}

fn form_from(json: &Json) -> Option<Form>
    ensures { (form : Shape) → get (codes "shape") (view json.now) ≡ Some (string (shape_text form))
        → result ≡ Some form }
{
    match text_at(json, "shape")? {
        "file" => Some(Form::File),
        "dir" => Some(Form::Dir),
        _ => None,
    }
}

fn output_from(alloc: Global, json: &Json) -> Result<OutputRecord, RecordFault>
    ensures { (o : Output) → IsOutput o → view json.now ≡ output_json o
        → MatchResult result (λ got. got ≡ o) (λ e. e ≡ OutOfMemory) }
{
    let (Some(form), Some(place)) = (form_from(json), text_at(json, "place")) else {
        return Err(RecordFault::NotARecord);
    };
    let place = place_from(alloc, place)?;
    let prints = prints_from(alloc, json)?;
    Ok(OutputRecord {
        form,
        place,
        prints,
    })
}

/// The outputs of a record, each with its digests; anything else gives 80.
pub fn outputs_from(alloc: Global, items: &[Json]) -> Result<Vec<OutputRecord>, RecordFault>
    ensures { (os : List Output) → AllByRecursion IsOutput os → map view items.now ≡ map output_json os
        → MatchResult result (λ got. got.items ≡ os) (λ e. e ≡ OutOfMemory) }
{
    let mut outputs = Vec::new(alloc);
    for item in items {
        outputs.push(output_from(alloc, item)?)?;
    }
    Ok(outputs)
}

/// The four lists of a record.
#[derive(Clone, Copy)]
struct Lists<'j> {
    actions: &'j [Json],
    inputs: &'j [Json],
    outputs: &'j [Json],
    values: &'j [Json],
}

fn lists_at(json: &Json) -> Option<Lists<'_>>
    ensures { (edition : Written) (path : List ℕ) (run : Recorded)
        → view json.now ≡ run_json edition path run
        → IsSomeAnd result (λ lists. (map view lists.actions.now ≡ map (action_json edition) run.actions)
        × (map view lists.inputs.now ≡ map prints_json run.inputs)
        × (map view lists.outputs.now ≡ map output_json run.outputs)
        × (map view lists.values.now ≡ map input_json run.values)) }
{
    Some(Lists {
        actions: list_at(json, "actions")?.as_slice(),
        inputs: list_at(json, "files")?.as_slice(),
        outputs: list_at(json, "outputs")?.as_slice(),
        values: list_at(json, "values")?.as_slice(),
    })
}

/// The record of these parts, if the names of each list are strictly ascending.
pub fn in_order(
    actions: Vec<Action>,
    values: NamedValues,
    inputs: Vec<Prints>,
    outputs: Vec<OutputRecord>,
) -> Result<Record, RecordFault>
    ensures read { (run : Recorded) → AreInOrder run → actions.items ≡ run.actions → values ≡ run.values
        → inputs.items ≡ run.inputs → outputs.items ≡ run.outputs → result ≡ Ok run }
    ensures same { IfOk result (λ got. got.actions ≡ actions.items) }
{
    if !values_rise(values.as_slice())
        || !inputs_rise(inputs.as_slice())
        || !outputs_rise(outputs.as_slice())
    {
        return Err(RecordFault::NotARecord);
    }
    Ok(Record::new(actions, values, inputs, outputs))
}

/// The record that a JSON value encodes.
fn run_from(alloc: Global, edition: Edition, json: &Json) -> Result<Record, RecordFault>
    ensures read { (path : List ℕ) (run : Recorded) → IsWellFormed run
        → AllByRecursion (FitsEdition edition) run.actions
        → view json.now ≡ run_json edition path run
        → MatchResult result (λ got. got ≡ run) (λ e. e ≡ OutOfMemory) }
    ensures fits { IfOk result (λ got. AllByRecursion (FitsEdition edition) got.actions) }
{
    let Some(lists) = lists_at(json) else {
        return Err(RecordFault::NotARecord);
    };
    let actions = actions_from(alloc, edition, lists.actions)?;
    let values = inputs_from(alloc, lists.values)?;
    let inputs = properties_from(alloc, lists.inputs)?;
    let outputs = outputs_from(alloc, lists.outputs)?;
    in_order(actions, values, inputs, outputs)
}

/// The one item of a list of one.
fn only_of(json: &Json) -> Option<&Json>
    ensures { (a : Data) → view json.now ≡ array (items_of (a ∷ []))
        → IsSomeAnd result (λ item. view item.now ≡ a) }
{
    let list = json.as_array()?.as_slice();
    if list.len() != 1 {
        return None;
    }
    Some(&list[0])
}

/// The edition that a JSON value declares.
pub fn edition_from(json: &Json) -> Option<Edition>
    ensures { (edition : Written) (records : List (List ℕ × Recorded))
        → view json.now ≡ history_json edition records
        → result ≡ Some edition }
{
    match json.get("form")?.as_u64()? {
        1 => Some(Edition::First),
        2 => Some(Edition::Second),
        _ => None,
    }
}

/// The record in a list of one.
pub fn record_from(alloc: Global, edition: Edition, json: &Json) -> Result<Record, RecordFault>
    ensures read { (path : List ℕ) (run : Recorded) → IsWellFormed run
        → AllByRecursion (FitsEdition edition) run.actions
        → view json.now ≡ record_json edition path run
        → MatchResult result (λ got. got ≡ run) (λ e. e ≡ OutOfMemory) }
    ensures fits { IfOk result (λ got. AllByRecursion (FitsEdition edition) got.actions) }
{
    let Some(tasks) = json.get("tasks") else {
        return Err(RecordFault::NotARecord);
    };
    let Some(run) = only_of(tasks) else {
        return Err(RecordFault::NotARecord);
    };
    run_from(alloc, edition, run)
}

fn task_at(alloc: Global, json: &Json) -> Result<TaskPath, RecordFault>
    ensures { (task : List ℕ) → IsTrue (is_task_path task)
        → get (codes "task") (view json.now) ≡ Some (string task)
        → MatchResult result (λ path. path ≡ task) (λ e. e ≡ OutOfMemory) }
{
    let Some(text) = text_at(json, "task") else {
        return Err(RecordFault::NotARecord);
    };
    task_from(alloc, text)
}

/// A task and its record.
fn one_from(alloc: Global, edition: Edition, json: &Json) -> Result<(TaskPath, Record), RecordFault>
    ensures read { (one : List ℕ × Recorded) → IsHeldIn edition one
        → view json.now ≡ held_json edition one
        → MatchResult result (λ got. got ≡ one) (λ e. e ≡ OutOfMemory) }
    ensures fits { IfOk result (RecordFits edition) }
{
    let path = task_at(alloc, json)?;
    Ok((path, run_from(alloc, edition, json)?))
}

/// The records in a list, by the paths of their tasks; for a path that occurs twice, the last one.
fn records_from(alloc: Global, edition: Edition, items: &[Json]) -> Result<History, RecordFault>
    ensures read { (records : List (List ℕ × Recorded)) → AllByRecursion (IsHeldIn edition) records
        → IsTrue (is_sorted byte_order records) → map view items.now ≡ map (held_json edition) records
        → MatchResult result (λ got. got ≡ records) (λ e. e ≡ OutOfMemory) }
    ensures fits { IfOk result (AllByRecursion (RecordFits edition)) }
{
    let mut history = History::new(alloc);
    for item in items {
        let one = one_from(alloc, edition, item)?;
        history.put(one.0, one.1)?;
    }
    Ok(history)
}

/// The records of a list of any length.
pub fn history_from(alloc: Global, edition: Edition, json: &Json) -> Result<History, RecordFault>
    ensures read { (records : List (List ℕ × Recorded)) → AllByRecursion (IsHeldIn edition) records
        → IsTrue (is_sorted byte_order records) → view json.now ≡ history_json edition records
        → MatchResult result (λ got. got ≡ records) (λ e. e ≡ OutOfMemory) }
    ensures fits { IfOk result (AllByRecursion (RecordFits edition)) }
{
    let Some(items) = list_at(json, "tasks") else {
        return Err(RecordFault::NotARecord);
    };
    records_from(alloc, edition, items.as_slice())
}
