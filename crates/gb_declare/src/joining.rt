//! Combines the clauses of a task, one kind of clause after another.
ghost use Rattle.std.specs.Prelude.{◌≡◌, ◌++◌, None, IfOk, OnOk, filter_map, reverse};
ghost use Rattle.std.specs.BTreeMap.{insert_entry};
ghost use Rattle.std.specs.Option.{option_copied, option_to_list};
ghost use Rattle.std.specs.List.{last_or};
ghost use Rattle.gb_core.specs.Lists.{byte_order};
ghost use Rattle.gb_declare.specs.Borrowed.{named_in, now_of, outputs_in};
ghost use Rattle.gb_declare.specs.Joined.{by_name, enabled_in, files_in, first_in, last_in, only_if_in};
ghost use Rattle.gb_declare.specs.Joined.{output_in, up_to_date_when_in, value_in, with_action};

use crate::picks;
use gb_action::list::ActionList;
use gb_action::output_files::Form;
use gb_core::name::Name;
use gb_script::script::{Call, Clause, Condition, InputFiles};
use gb_script::script_expression::Expression;
use std::alloc::{AllocError, Global};
use std::collections::BTreeMap;

/// The last `enabled`.
pub fn enabled<'a>(clauses: &[&'a Clause]) -> Option<&'a Expression>
    ensures { option_copied result ≡ last_or None (filter_map enabled_in (now_of clauses.now)) }
{
    let mut last = None;
    for clause in clauses {
        if let Some(value) = picks::enabled_in(*clause) {
            last = Some(value);
        }
    }
    last
}

/// All conditions of `onlyIf`.
pub fn only_if<'a>(alloc: Global, clauses: &[&'a Clause]) -> Result<Vec<&'a Condition>, AllocError>
    ensures { IfOk result (λ found. now_of found.items ≡ filter_map only_if_in (now_of clauses.now)) }
{
    let mut found = Vec::new(alloc);
    for clause in clauses {
        if let Some(condition) = picks::only_if_in(*clause) {
            found.push(condition)?;
        }
    }
    Ok(found)
}

/// All conditions of `upToDateWhen`.
pub fn up_to_date_when<'a>(
    alloc: Global,
    clauses: &[&'a Clause],
) -> Result<Vec<&'a Condition>, AllocError>
    ensures { IfOk result (λ found. now_of found.items ≡ filter_map up_to_date_when_in (now_of clauses.now)) }
{
    let mut found = Vec::new(alloc);
    for clause in clauses {
        if let Some(condition) = picks::up_to_date_when_in(*clause) {
            found.push(condition)?;
        }
    }
    Ok(found)
}

/// Stores something under a name, and replaces an earlier entry of that name.
pub fn put<X: Drop>(things: &mut BTreeMap<Name, X>, name: &Name, thing: X) -> Result<(), AllocError>
    ensures { OnOk result (things.new.entries ≡ insert_entry byte_order things.old.entries name.now thing) }
{
    things.insert(name.copy()?, thing)?;
    Ok(())
}

/// The values of inputs, the last of each name.
pub fn values<'a>(
    alloc: Global,
    clauses: &[&'a Clause],
) -> Result<BTreeMap<Name, &'a Expression>, AllocError>
    ensures { IfOk result (λ values. named_in values ≡ by_name (filter_map value_in (now_of clauses.now))) }
{
    let mut values = BTreeMap::new(alloc);
    for clause in clauses {
        if let Some(input) = picks::value_in(*clause) {
            put(&mut values, &input.name, &input.value)?;
        }
    }
    Ok(values)
}

/// The files of inputs, the last of each name.
pub fn files<'a>(
    alloc: Global,
    clauses: &[&'a Clause],
) -> Result<BTreeMap<Name, &'a InputFiles>, AllocError>
    ensures { IfOk result (λ files. named_in files ≡ by_name (filter_map files_in (now_of clauses.now))) }
{
    let mut files = BTreeMap::new(alloc);
    for clause in clauses {
        if let Some(input) = picks::files_in(*clause) {
            put(&mut files, &input.name, input)?;
        }
    }
    Ok(files)
}

/// The outputs, the last of each name.
pub fn outputs<'a>(
    alloc: Global,
    clauses: &[&'a Clause],
) -> Result<BTreeMap<Name, (Form, &'a Expression)>, AllocError>
    ensures { IfOk result (λ outputs. outputs_in outputs ≡ by_name (filter_map output_in (now_of
        clauses.now))) }
{
    let mut outputs = BTreeMap::new(alloc);
    for clause in clauses {
        if let Some((form, output)) = picks::output_in(*clause) {
            put(&mut outputs, &output.name, (form, &output.value))?;
        }
    }
    Ok(outputs)
}

/// The actions in the order in which they run, around the call after the colon.
pub fn actions<'a>(
    alloc: Global,
    main: Option<&'a Call>,
    clauses: &[&'a Clause],
) -> Result<ActionList<&'a Call>, AllocError>
    ensures { IfOk result (λ actions. now_of actions
        ≡ reverse (filter_map first_in (now_of clauses.now)) ++ option_to_list (option_copied main.entry)
        ++ filter_map last_in (now_of clauses.now)) }
{
    let mut actions = ActionList::new(alloc);
    if let Some(call) = main {
        actions.set_main(call)?;
    }
    for clause in clauses {
        put_action(&mut actions, *clause)?;
    }
    Ok(actions)
}

/// Adds the action of a clause before the others or after them.
fn put_action<'a>(actions: &mut ActionList<&'a Call>, clause: &'a Clause) -> Result<(), AllocError>
    ensures { OnOk result (now_of actions.new ≡ with_action clause.now (now_of actions.old)) }
{
    match clause {
        Clause::DoFirst(call) => actions.do_first(call),
        Clause::DoLast(call) => actions.do_last(call),
        _ => Ok(()),
    }
}
