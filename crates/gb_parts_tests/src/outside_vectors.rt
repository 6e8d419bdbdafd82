//! Vectors from outside.
//!
//! Each case is a function that returns whether it holds, so that no assertion is made while values
//! are alive.
use gb_action::list::ActionList;
use gb_action::output_files::Form;
use gb_action::shape::{Arg, ArgList, Fit, Shape};
use gb_action::table::{ActionTable, TableFault};
use gb_action::values::Arguments;
use gb_core::name::{Name, NameFault};
use gb_core::text::Text;
use gb_core::value::Value;
use std::alloc::{AllocError, Global};
use std::test::Fail;

/// Fails with the name of the first case that does not hold.
fn all_hold(cases: &[(&str, bool)]) -> Result<(), Fail> {
    for case in cases {
        if !case.1 {
            return Err(Fail::new(case.0));
        }
    }
    Ok(())
}

/// The fault number when a name is added, or 0.
fn number_of_added(table: &mut ActionTable<u8>, name: &Name) -> u16 {
    match table.add(name, 8) {
        Ok(()) => 0,
        Err(fault) => fault.number(),
    }
}

/// The fault number when a name is looked up, or the entry under the name.
fn number_of_found(table: &ActionTable<u8>, name: &str) -> u16 {
    match table.find(name) {
        Ok(found) => u16::from(*found),
        Err(fault) => fault.number(),
    }
}

/// Whether a name that already exists is refused, and its entry stays.
fn is_taken(table: &mut ActionTable<u8>, name: &Name) -> bool {
    number_of_added(table, name) == 41 && number_of_found(table, name.as_str()) == 7
}

fn table_of(alloc: Global, name: &Name) -> Result<ActionTable<u8>, TableFault> {
    let mut table = ActionTable::new(alloc);
    table.add(name, 7u8)?;
    Ok(table)
}

fn are_taken_once(alloc: Global, name: &Name) -> Result<bool, TableFault> {
    let mut table = table_of(alloc, name)?;
    Ok(is_taken(&mut table, name) && number_of_found(&table, "move") == 40)
}

fn is_taken_once(alloc: Global, name: &str) -> Result<bool, NameFault> {
    let name = Name::read(alloc, name)?;
    Ok(are_taken_once(alloc, &name) == Ok(true))
}

#[test]
fn names_are_taken_once(rt: HostRuntime) -> Result<(), Fail> {
    all_hold(&[("copy", is_taken_once(rt.alloc(), "copy") == Ok(true))])
}

/// Adds two actions before the main one, and one after it.
fn add_four(list: &mut ActionList<u8>) -> Result<(), AllocError> {
    list.set_main(b'M')?;
    list.do_first(b'A')?;
    list.do_first(b'B')?;
    list.do_last(b'C')
}

fn is_in_order(list: &ActionList<u8>) -> bool {
    list.iter().eq(b"BAMC".iter()) && list.get(3) == Some(&b'C') && list.len() == 4
}

fn exist_in_order(alloc: Global) -> Result<bool, AllocError> {
    let mut list = ActionList::new(alloc);
    add_four(&mut list)?;
    Ok(is_in_order(&list))
}

#[test]
fn actions_exist_in_order(rt: HostRuntime) -> Result<(), Fail> {
    all_hold(&[("BAMC", exist_in_order(rt.alloc()) == Ok(true))])
}

fn shape_of(alloc: Global, arg: Arg, out: Option<Form>) -> Result<Shape, AllocError> {
    let mut args = ArgList::new(alloc);
    args.push(arg)?;
    Ok(Shape {
        args,
        src: out.is_some(),
        out,
        incremental: false,
    })
}

fn one_text(alloc: Global, text: &str) -> Result<Arguments, AllocError> {
    let mut values = Arguments::new(alloc);
    values.push(Value::Text(Text::from_str(alloc, text)?))?;
    values.copy(alloc)
}

fn fit(alloc: Global, arg: Arg, text: &str) -> Result<Fit, AllocError> {
    let shape = shape_of(alloc, arg, None)?;
    let values = one_text(alloc, text)?;
    Ok(shape.accepts(&values, &[], &[]))
}

/// How an argument takes a text.
type Case = (Arg, &'static str, Fit);

const CASES: [Case; 9] = [
    (Arg::Text, "a\nb", Fit::Yes),
    (Arg::Line, "a b", Fit::Yes),
    (Arg::Line, "a\nb", Fit::BadArgument),
    (Arg::Key, "k", Fit::Yes),
    (Arg::Key, "", Fit::BadArgument),
    (Arg::Key, "a@b", Fit::BadArgument),
    (Arg::Rel, "a/b", Fit::Yes),
    (Arg::Rel, "a//b", Fit::BadArgument),
    (Arg::Rel, "", Fit::BadArgument),
];

/// Fails at the first text that fits differently.
fn fit_so(alloc: Global, cases: &[Case]) -> Result<(), Fail> {
    for case in cases {
        if fit(alloc, case.0, case.1) != Ok(case.2) {
            return Err(Fail::new(case.1));
        }
    }
    Ok(())
}

#[test]
fn arguments_fit_their_shapes(rt: HostRuntime) -> Result<(), Fail> {
    fit_so(rt.alloc(), &CASES)
}

/// How this many texts fit a required line followed by an optional text.
fn fit_of_texts(alloc: Global, count: usize) -> Result<Fit, AllocError> {
    let mut shape = shape_of(alloc, Arg::Line, None)?;
    shape.args.push_optional(Arg::Text)?;
    let mut values = Arguments::new(alloc);
    for _ in 0..count {
        values.push(Value::Text(Text::from_str(alloc, "a")?))?;
    }
    Ok(shape.accepts(&values, &[], &[]))
}

#[test]
fn optional_arguments_may_be_left_out(rt: HostRuntime) -> Result<(), Fail> {
    let alloc = rt.alloc();
    all_hold(&[
        ("none", fit_of_texts(alloc, 0) == Ok(Fit::BadArgument)),
        ("one", fit_of_texts(alloc, 1) == Ok(Fit::Yes)),
        ("two", fit_of_texts(alloc, 2) == Ok(Fit::Yes)),
        ("three", fit_of_texts(alloc, 3) == Ok(Fit::BadArgument)),
    ])
}

/// How no arguments fit a signature that requires one, a property and a folder.
fn fit_of_none(
    alloc: Global,
    properties: &[Name],
    outputs: &[(Name, Form)],
) -> Result<Fit, AllocError> {
    let shape = shape_of(alloc, Arg::Text, Some(Form::Dir))?;
    Ok(shape.accepts(&Arguments::new(alloc), properties, outputs))
}

/// The same with the property and an output of this form.
fn fit_of_form(alloc: Global, form: Form) -> Result<Fit, NameFault> {
    let properties = [Name::read(alloc, "src")?];
    let outputs = [(Name::read(alloc, "out")?, form)];
    Ok(fit_of_none(alloc, &properties, &outputs)?)
}

fn fit_of_no_property(alloc: Global) -> Result<Fit, NameFault> {
    let outputs = [(Name::read(alloc, "out")?, Form::Dir)];
    Ok(fit_of_none(alloc, &[], &outputs)?)
}

fn fit_of_no_output(alloc: Global) -> Result<Fit, NameFault> {
    let properties = [Name::read(alloc, "src")?];
    Ok(fit_of_none(alloc, &properties, &[])?)
}

#[test]
fn shapes_count_before_arguments(rt: HostRuntime) -> Result<(), Fail> {
    let alloc = rt.alloc();
    all_hold(&[
        (
            "no property",
            fit_of_no_property(alloc) == Ok(Fit::BadShape),
        ),
        ("no output", fit_of_no_output(alloc) == Ok(Fit::BadShape)),
        (
            "a file",
            fit_of_form(alloc, Form::File) == Ok(Fit::BadShape),
        ),
        (
            "a folder",
            fit_of_form(alloc, Form::Dir) == Ok(Fit::BadArgument),
        ),
    ])
}
