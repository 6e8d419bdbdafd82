//! Reads records from the text of their JSON, in the very form that is written today: each key in
//! its place, and no blanks.
//!
//! `None` means that the text is in no such form, or that there was no memory. No contract is about
//! the record that is read: it counts only if its text, printed again, is the text that was read.
use crate::from_json::in_order;
use crate::in_order::digests_rise;
use crate::record::{OutputRecord, Record};
use gb_action::output_files::Form;
use gb_core::name::Name;
use gb_core::path::TaskPath;
use gb_core::place::{Place, RelPath};
use gb_core::row::Row;
use gb_core::text::Text;
use gb_core::value::Value;
use gb_plan::task::Action;
use gb_tree::prints::Prints;
use hex::FromHex;
use json::{Reader, Scratch, Token};
use std::alloc::Global;

/// The rest of a text, and the memory for strings that are written with escapes.
#[derive(Drop)]
struct Input<'a> {
    rest: &'a [u8],
    scratch: &'a mut Scratch,
}

impl<'a> Input<'a> {
    /// Passes this byte, if it is next.
    fn has(&mut self, wanted: u8) -> bool {
        match self.rest {
            [first, rest @ ..] if *first == wanted => {
                self.rest = rest;
                true
            }
            _ => false,
        }
    }

    /// Passes this byte, which must be next.
    fn pass(&mut self, wanted: u8) -> Option<()> {
        if self.has(wanted) { Some(()) } else { None }
    }

    /// Passes these bytes, if they are next.
    fn has_all(&mut self, wanted: &[u8]) -> bool {
        match self.rest.strip_prefix(wanted) {
            Some(rest) => {
                self.rest = rest;
                true
            }
            None => false,
        }
    }

    /// Passes these bytes, which must be next.
    fn pass_all(&mut self, wanted: &[u8]) -> Option<()> {
        self.rest = self.rest.strip_prefix(wanted)?;
        Some(())
    }

    /// All bytes before the first one that is `end`.
    fn before(&mut self, end: u8) -> Option<&'a [u8]> {
        let len = self.rest.iter().position(|byte| *byte == end)?;
        let (before, rest) = self.rest.split_at_checked(len)?;
        self.rest = rest;
        Some(before)
    }

    /// The content of the next string.
    fn text(&mut self) -> Option<&str> {
        let [b'"', inside @ ..] = self.rest else {
            return None;
        };
        let len = inside.iter().position(|byte| is_special(*byte))?;
        match inside.split_at_checked(len)? {
            (text, [b'"', rest @ ..]) => {
                self.rest = rest;
                std::str::from_utf8(text).ok()
            }
            _ => self.escaped_text(),
        }
    }

    /// The content of the next string, which has escapes.
    fn escaped_text(&mut self) -> Option<&str> {
        let len = string_len(self.rest)?;
        let (string, rest) = self.rest.split_at_checked(len)?;
        self.rest = rest;
        let string = std::str::from_utf8(string).ok()?;
        match Reader::new(string, self.scratch).ok()?.next()? {
            Token::String(text) => Some(text),
            _ => None,
        }
    }

    /// The digest that the next string has in hex.
    fn digest(&mut self) -> Option<[u8; 32]> {
        self.pass(b'"')?;
        let (digits, rest) = self.rest.split_at_checked(64)?;
        self.rest = rest;
        self.pass(b'"')?;
        <[u8; 32] as FromHex>::from_hex(digits).ok()
    }

    /// The number that the bytes before the first `end` are.
    fn number(&mut self, end: u8) -> Option<u32> {
        let digits = std::str::from_utf8(self.before(end)?).ok()?;
        digits.parse::<u32>().ok()
    }
}

/// Whether a byte ends a string or begins an escape.
fn is_special(byte: u8) -> bool {
    byte == b'"' || byte == b'\\'
}

/// The length of the string that begins these bytes, with its quotes.
fn string_len(bytes: &[u8]) -> Option<usize> {
    let mut is_escaped = false;
    for (at, byte) in bytes.iter().enumerate().skip(1) {
        if is_escaped {
            is_escaped = false;
        } else if *byte == b'"' {
            return at.checked_add(1);
        } else {
            is_escaped = *byte == b'\\';
        }
    }
    None
}

/// An item of a list.
trait Item: Sized + Drop {
    fn take(alloc: Global, input: &mut Input<'_>) -> Option<Self>;
}

/// A list with one item more.
fn with_item<T: Drop>(before: Vec<T>, item: T) -> Option<Vec<T>> {
    let mut items = before;
    items.push(item).ok()?;
    Some(items)
}

/// The list that is next. One of a single item has room for no other.
fn take_list<T: Item>(alloc: Global, input: &mut Input<'_>) -> Option<Vec<T>> {
    input.pass(b'[')?;
    if input.has(b']') {
        return Some(Vec::new(alloc));
    }
    let first = T::take(alloc, input)?;
    if input.has(b']') {
        return with_item(Vec::with_capacity(alloc, 1).ok()?, first);
    }
    take_others(alloc, input, with_item(Vec::new(alloc), first)?)
}

/// The list of these items and all that are left.
fn take_others<T: Item>(alloc: Global, input: &mut Input<'_>, before: Vec<T>) -> Option<Vec<T>> {
    let mut items = before;
    for _ in 0..u64::MAX {
        input.pass(b',')?;
        items.push(T::take(alloc, input)?).ok()?;
        if input.has(b']') {
            return Some(items);
        }
    }
    None
}

fn take_name(alloc: Global, input: &mut Input<'_>) -> Option<Name> {
    Name::read(alloc, input.text()?).ok()
}

fn take_place(alloc: Global, input: &mut Input<'_>) -> Option<Place> {
    Place::read(alloc, input.text()?).ok()
}

fn take_flag(input: &mut Input<'_>) -> Option<bool> {
    if input.has_all(b"true") {
        return Some(true);
    }
    input.pass_all(b"false")?;
    Some(false)
}

impl Item for Text {
    fn take(alloc: Global, input: &mut Input<'_>) -> Option<Text> {
        Text::from_str(alloc, input.text()?).ok()
    }
}

/// The value whose key and content are next.
fn take_member(alloc: Global, input: &mut Input<'_>) -> Option<Value> {
    if input.has_all(b"\"text\":") {
        return Some(Value::Text(Text::take(alloc, input)?));
    }
    if input.has_all(b"\"flag\":") {
        return Some(Value::Flag(take_flag(input)?));
    }
    if input.has_all(b"\"list\":") {
        return Some(Value::List(Row::from_vec(take_list(alloc, input)?)));
    }
    if input.has_all(b"\"place\":") {
        return Some(Value::Place(take_place(alloc, input)?));
    }
    input.pass_all(b"\"task\":")?;
    let path = TaskPath::read(alloc, input.text()?).ok()?;
    Some(Value::Task(path))
}

impl Item for Value {
    fn take(alloc: Global, input: &mut Input<'_>) -> Option<Value> {
        input.pass(b'{')?;
        let value = take_member(alloc, input)?;
        input.pass(b'}')?;
        Some(value)
    }
}

impl Item for Action {
    fn take(alloc: Global, input: &mut Input<'_>) -> Option<Action> {
        input.pass_all(b"{\"args\":")?;
        let args = Row::from_vec(take_list(alloc, input)?);
        input.pass_all(b",\"kind\":")?;
        let kind = take_name(alloc, input)?;
        input.pass_all(b",\"version\":")?;
        let version = input.number(b'}')?;
        input.pass(b'}')?;
        Some(Action {
            kind,
            version,
            args,
        })
    }
}

impl Item for (RelPath, [u8; 32]) {
    fn take(alloc: Global, input: &mut Input<'_>) -> Option<(RelPath, [u8; 32])> {
        input.pass(b'[')?;
        let path = RelPath::read(alloc, input.text()?).ok()?;
        input.pass(b',')?;
        let digest = input.digest()?;
        input.pass(b']')?;
        Some((path, digest))
    }
}

/// The prints under a name, where each path is below the next.
fn prints_of(name: Name, digests: Vec<(RelPath, [u8; 32])>) -> Option<Prints> {
    if digests_rise(digests.as_slice()) {
        Some(Prints::new(name, digests))
    } else {
        None
    }
}

impl Item for Prints {
    fn take(alloc: Global, input: &mut Input<'_>) -> Option<Prints> {
        input.pass_all(b"{\"name\":")?;
        let name = take_name(alloc, input)?;
        input.pass_all(b",\"prints\":")?;
        let digests = take_list(alloc, input)?;
        input.pass(b'}')?;
        prints_of(name, digests)
    }
}

/// The form of an output, and the end of its object.
fn take_form(input: &mut Input<'_>) -> Option<Form> {
    if input.has_all(b",\"shape\":\"file\"}") {
        return Some(Form::File);
    }
    input.pass_all(b",\"shape\":\"dir\"}")?;
    Some(Form::Dir)
}

impl Item for OutputRecord {
    fn take(alloc: Global, input: &mut Input<'_>) -> Option<OutputRecord> {
        input.pass_all(b"{\"name\":")?;
        let name = take_name(alloc, input)?;
        input.pass_all(b",\"place\":")?;
        let place = take_place(alloc, input)?;
        input.pass_all(b",\"prints\":")?;
        let digests = take_list(alloc, input)?;
        let form = take_form(input)?;
        let prints = prints_of(name, digests)?;
        Some(OutputRecord {
            form,
            place,
            prints,
        })
    }
}

impl Item for (Name, Value) {
    fn take(alloc: Global, input: &mut Input<'_>) -> Option<(Name, Value)> {
        input.pass(b'[')?;
        let name = take_name(alloc, input)?;
        input.pass(b',')?;
        let value = Value::take(alloc, input)?;
        input.pass(b']')?;
        Some((name, value))
    }
}

/// The first record of a JSON text; what follows its values is not read.
fn take_first_run(alloc: Global, input: &mut Input<'_>) -> Option<Record> {
    input.pass_all(b"{\"form\":2,\"tasks\":[{\"actions\":")?;
    let actions = take_list(alloc, input)?;
    input.pass_all(b",\"files\":")?;
    let inputs = take_list(alloc, input)?;
    input.pass_all(b",\"outputs\":")?;
    let outputs = take_list(alloc, input)?;
    input.pass_all(b",\"task\":")?;
    input.text()?;
    input.pass_all(b",\"values\":")?;
    let values = Row::from_vec(take_list(alloc, input)?);
    in_order(actions, values, inputs, outputs).ok()
}

/// The first record of a JSON text.
pub fn record_in(alloc: Global, json: &[u8], scratch: &mut Scratch) -> Option<Record> {
    let mut input = Input {
        rest: json,
        scratch,
    };
    take_first_run(alloc, &mut input)
}
