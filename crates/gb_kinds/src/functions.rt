//! The functions of values, which properties and providers are made of.
//!
//! Each refuses a value of another sort as a wrong value, and after that another number of
//! arguments than its own as bad arguments.
ghost use Rattle.std.specs.Prelude.{◌≡◌, ◌<◌, length, string_bytes, IfOk};
ghost use Rattle.gb_provider.specs.Meanings.{IsReply};
ghost use Rattle.gb_kinds.specs.Functions.{
  upper,
  append,
  split,
  join,
  child,
  non_empty,
  output,
  concat,
  is_true,
  equals,
  pieces,
  join_texts,
};

use gb_core::name::NameFault;
use gb_core::path::{TaskPath, is_task_path};
use gb_core::place::{Place, PlaceFault};
use gb_core::text::{Text, Texts};
use gb_core::value::Value;
use gb_provider::fault::{Chosen, Refusal, TransformFault};
use std::alloc::{AllocError, Global};

/// The number of the function of `map` `upper`.
pub const UPPER: u16 = 0;

/// The number of the function of `map` `append`.
pub const APPEND: u16 = 1;

/// The number of the function of `map` `split`.
pub const SPLIT: u16 = 2;

/// The number of the function of `map` `join`.
pub const JOIN: u16 = 3;

/// The number of the function of `map` `child`.
pub const CHILD: u16 = 4;

/// The number of the function of `map` `nonEmpty`.
pub const NON_EMPTY: u16 = 5;

/// The number of the function of `flatMap` `output`.
pub const OUTPUT: u16 = 0;

/// The number of the function of `zip` `concat`.
pub const CONCAT: u16 = 0;

/// The number of the test `isTrue`.
pub const IS_TRUE: u16 = 0;

/// The number of the test `equals`.
pub const EQUALS: u16 = 1;

/// The text with its ASCII letters in upper case.
pub fn upper(
    alloc: Global,
    value: &Value,
    arguments: &[Text],
) -> Result<Option<Value>, TransformFault>
    ensures { IsReply result (upper value.now arguments.now) }
{
    match (value, arguments) {
        (Value::Text(text), []) => {
            let mut raised = String::from_str(alloc, text.as_str())?;
            raised.make_ascii_uppercase();
            Ok(Some(Value::Text(Text::new(raised)?)))
        }
        (Value::Text(_), _) => Err(TransformFault::Refused(Refusal::BadArguments)),
        _ => Err(TransformFault::Refused(Refusal::WrongValue)),
    }
}

/// The text, then the argument.
pub fn append(
    alloc: Global,
    value: &Value,
    arguments: &[Text],
) -> Result<Option<Value>, TransformFault>
    ensures { IsReply result (append value.now arguments.now) }
{
    match (value, arguments) {
        (Value::Text(text), [end]) => {
            let mut longer = String::from_str(alloc, text.as_str())?;
            longer.push_str(end.as_str())?;
            Ok(Some(Value::Text(Text::new(longer)?)))
        }
        (Value::Text(_), _) => Err(TransformFault::Refused(Refusal::BadArguments)),
        _ => Err(TransformFault::Refused(Refusal::WrongValue)),
    }
}

/// The pieces of the text between the occurrences of the argument, which is not empty.
pub fn split(
    alloc: Global,
    value: &Value,
    arguments: &[Text],
) -> Result<Option<Value>, TransformFault>
    ensures { IsReply result (split value.now arguments.now) }
{
    match (value, arguments) {
        (Value::Text(text), [separator]) => {
            if separator.as_str().is_empty() {
                return Err(TransformFault::Refused(Refusal::BadArguments));
            }
            let pieces = pieces(alloc, text.as_str(), separator.as_str())?;
            Ok(Some(Value::List(pieces)))
        }
        (Value::Text(_), _) => Err(TransformFault::Refused(Refusal::BadArguments)),
        _ => Err(TransformFault::Refused(Refusal::WrongValue)),
    }
}

fn pieces(alloc: Global, text: &str, separator: &str) -> Result<Texts, AllocError>
    requires { 0 < length separator.now }
    ensures { IfOk result (λ texts. texts ≡ pieces separator.now text.now) }
{
    let mut texts = Texts::new(alloc);
    for piece in text.split(separator) {
        texts.push(Text::from_str(alloc, piece)?)?;
    }
    Ok(texts)
}

/// The texts of the list in one text, with the argument between each two.
pub fn join(
    alloc: Global,
    value: &Value,
    arguments: &[Text],
) -> Result<Option<Value>, TransformFault>
    ensures { IsReply result (join value.now arguments.now) }
{
    match (value, arguments) {
        (Value::List(texts), [separator]) => {
            let joined = join_texts(alloc, texts.as_slice(), separator.as_str())?;
            Ok(Some(Value::Text(Text::new(joined)?)))
        }
        (Value::List(_), _) => Err(TransformFault::Refused(Refusal::BadArguments)),
        _ => Err(TransformFault::Refused(Refusal::WrongValue)),
    }
}

fn join_texts(alloc: Global, texts: &[Text], separator: &str) -> Result<String, AllocError>
    ensures { IfOk result (λ joined. string_bytes joined ≡ join_texts separator.now texts.now) }
{
    let mut joined = String::new(alloc);
    let Some((first, others)) = texts.split_first() else {
        return Ok(joined);
    };
    joined.push_str(first.as_str())?;
    for text in others {
        joined.push_str(separator)?;
        joined.push_str(text.as_str())?;
    }
    Ok(joined)
}

/// The place of the argument under the place; bad arguments if that is no place.
pub fn child(
    alloc: Global,
    value: &Value,
    arguments: &[Text],
) -> Result<Option<Value>, TransformFault>
    ensures { IsReply result (child value.now arguments.now) }
{
    match (value, arguments) {
        (Value::Place(place), [path]) => match Place::join(alloc, Some(place), path.as_str()) {
            Ok(joined) => Ok(Some(Value::Place(joined))),
            Err(PlaceFault::BadPlace) => Err(TransformFault::Refused(Refusal::BadArguments)),
            Err(PlaceFault::OutOfMemory) => Err(TransformFault::OutOfMemory),
        },
        (Value::Place(_), _) => Err(TransformFault::Refused(Refusal::BadArguments)),
        _ => Err(TransformFault::Refused(Refusal::WrongValue)),
    }
}

/// The text, or nothing if it is empty.
pub fn non_empty(
    _alloc: Global,
    value: &Value,
    arguments: &[Text],
) -> Result<Option<Value>, TransformFault>
    ensures { IsReply result (non_empty value.now arguments.now) }
{
    match (value, arguments) {
        (Value::Text(text), []) => {
            if text.as_str().is_empty() {
                return Ok(None);
            }
            Ok(Some(Value::Text(text.copy()?)))
        }
        (Value::Text(_), _) => Err(TransformFault::Refused(Refusal::BadArguments)),
        _ => Err(TransformFault::Refused(Refusal::WrongValue)),
    }
}

/// The output with that name of a task, or of the task with the path in a text. It is not looked
/// up.
pub fn output(
    alloc: Global,
    value: &Value,
    arguments: &[Text],
) -> Result<Option<Chosen>, TransformFault>
    ensures { IsReply result (output value.now arguments.now) }
{
    match (value, arguments) {
        (Value::Task(task), [name]) => Ok(Some(chosen(alloc, task.copy()?, name.as_str())?)),
        (Value::Text(text), [name]) => match TaskPath::read(alloc, text.as_str()) {
            Ok(task) => Ok(Some(chosen(alloc, task, name.as_str())?)),
            Err(NameFault::BadName) => Err(TransformFault::Refused(Refusal::WrongValue)),
            Err(NameFault::OutOfMemory) => Err(TransformFault::OutOfMemory),
        },
        (Value::Task(_), _) => Err(TransformFault::Refused(Refusal::BadArguments)),
        (Value::Text(text), _) if is_task_path(text.as_str()) => {
            Err(TransformFault::Refused(Refusal::BadArguments))
        }
        _ => Err(TransformFault::Refused(Refusal::WrongValue)),
    }
}

fn chosen(alloc: Global, task: TaskPath, name: &str) -> Result<Chosen, AllocError>
    ensures { IfOk result (λ chosen. chosen ≡ record { task = task; output = name.now }) }
{
    let output = Text::from_str(alloc, name)?;
    Ok(Chosen { task, output })
}

/// The left text, then the right one.
pub fn concat(
    alloc: Global,
    left: &Value,
    right: &Value,
    arguments: &[Text],
) -> Result<Value, TransformFault>
    ensures { IsReply result (concat left.now right.now arguments.now) }
{
    match (left, right, arguments) {
        (Value::Text(prefix), Value::Text(back), []) => {
            let mut text = String::from_str(alloc, prefix.as_str())?;
            text.push_str(back.as_str())?;
            Ok(Value::Text(Text::new(text)?))
        }
        (Value::Text(_), Value::Text(_), _) => {
            Err(TransformFault::Refused(Refusal::BadArguments))
        }
        _ => Err(TransformFault::Refused(Refusal::WrongValue)),
    }
}

/// The flag, or whether the text is `true`.
pub fn is_true(_alloc: Global, value: &Value, arguments: &[Text]) -> Result<bool, TransformFault>
    ensures { IsReply result (is_true value.now arguments.now) }
{
    let answer = match value {
        Value::Text(text) => text.as_str() == "true",
        Value::Flag(flag) => *flag,
        _ => return Err(TransformFault::Refused(Refusal::WrongValue)),
    };
    match arguments {
        [] => Ok(answer),
        _ => Err(TransformFault::Refused(Refusal::BadArguments)),
    }
}

/// Whether the text is the argument.
pub fn equals(_alloc: Global, value: &Value, arguments: &[Text]) -> Result<bool, TransformFault>
    ensures { IsReply result (equals value.now arguments.now) }
{
    match (value, arguments) {
        (Value::Text(text), [other]) => Ok(text.as_str() == other.as_str()),
        (Value::Text(_), _) => Err(TransformFault::Refused(Refusal::BadArguments)),
        _ => Err(TransformFault::Refused(Refusal::WrongValue)),
    }
}
