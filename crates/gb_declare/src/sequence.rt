//! The expressions of a task, in the order in which they are evaluated.
ghost use Rattle.std.specs.Prelude.{◌≡◌, ◌++◌, IfOk, OnOk, map};
ghost use Rattle.std.specs.List.{flat_map};
ghost use Rattle.std.specs.Option.{option_copied, option_to_list};
ghost use Rattle.gb_declare.specs.Borrowed.{named_in, now_of, outputs_in};
ghost use Rattle.gb_declare.specs.Views.{joined_of};
ghost use Rattle.gb_declare.specs.Whole.{trees_of};

use crate::registered::Joined;
use gb_action::list::ActionList;
use gb_action::output_files::Form;
use gb_core::name::Name;
use gb_script::script::{Call, Condition, InputFiles};
use gb_script::script_expression::{Expression, Expressions};
use std::alloc::{AllocError, Global};
use std::collections::BTreeMap;

/// Appends the values of conditions.
fn push_conditions<'a>(
    to: &mut Vec<&'a Expression>,
    conditions: &[&'a Condition],
) -> Result<(), AllocError>
    ensures { OnOk result (now_of to.new.items ≡ now_of to.old.items
        ++ map (λ condition. condition.value) (now_of conditions.now)) }
{
    for condition in conditions {
        to.push(&condition.value)?;
    }
    Ok(())
}

/// Appends the values of inputs.
fn push_values<'a>(
    to: &mut Vec<&'a Expression>,
    values: &BTreeMap<Name, &'a Expression>,
) -> Result<(), AllocError>
    ensures { OnOk result (now_of to.new.items ≡ now_of to.old.items
        ++ map (λ value. value.1) (named_in values.now)) }
{
    for (_, value) in values.iter() {
        to.push(*value)?;
    }
    Ok(())
}

/// Appends the expressions of a row.
fn push_row<'a>(to: &mut Vec<&'a Expression>, row: &'a Expressions) -> Result<(), AllocError>
    ensures { OnOk result (now_of to.new.items ≡ now_of to.old.items ++ row.now) }
{
    for expression in row.as_slice() {
        to.push(expression)?;
    }
    Ok(())
}

/// Appends the roots of input files.
fn push_roots<'a>(
    to: &mut Vec<&'a Expression>,
    files: &BTreeMap<Name, &'a InputFiles>,
) -> Result<(), AllocError>
    ensures { OnOk result (now_of to.new.items ≡ now_of to.old.items
        ++ flat_map (λ files. files.1.from) (named_in files.now)) }
{
    for (_, property) in files.iter() {
        push_row(to, &property.from)?;
    }
    Ok(())
}

/// Appends the expressions of the places of outputs.
fn push_outputs<'a>(
    to: &mut Vec<&'a Expression>,
    outputs: &BTreeMap<Name, (Form, &'a Expression)>,
) -> Result<(), AllocError>
    ensures { OnOk result (now_of to.new.items ≡ now_of to.old.items
        ++ map (λ output. output.1.1) (outputs_in outputs.now)) }
{
    for (_, made) in outputs.iter() {
        to.push(made.1)?;
    }
    Ok(())
}

/// Appends the arguments of actions.
fn push_arguments<'a>(
    to: &mut Vec<&'a Expression>,
    calls: &ActionList<&'a Call>,
) -> Result<(), AllocError>
    ensures { OnOk result (now_of to.new.items ≡ now_of to.old.items
        ++ flat_map (λ call. call.arguments) (now_of calls.now)) }
{
    for call in calls.iter() {
        push_row(to, &call.arguments)?;
    }
    Ok(())
}

/// Appends an expression, if there is one.
fn push_any<'a>(to: &mut Vec<&'a Expression>, any: Option<&'a Expression>) -> Result<(), AllocError>
    ensures { OnOk result (now_of to.new.items ≡ now_of to.old.items
        ++ option_to_list (option_copied any.entry)) }
{
    if let Some(expression) = any {
        to.push(expression)?;
    }
    Ok(())
}

/// All expressions of a task.
pub fn expressions_of<'a>(
    alloc: Global,
    task: &Joined<'a>,
) -> Result<Vec<&'a Expression>, AllocError>
    ensures { IfOk result (λ found. now_of found.items ≡ trees_of (joined_of task.now)) }
{
    let mut found = Vec::new(alloc);
    push_any(&mut found, task.enabled)?;
    push_conditions(&mut found, &task.only_if)?;
    push_conditions(&mut found, &task.up_to_date_when)?;
    push_values(&mut found, &task.values)?;
    push_roots(&mut found, &task.files)?;
    push_outputs(&mut found, &task.outputs)?;
    push_arguments(&mut found, &task.actions)?;
    Ok(found)
}
