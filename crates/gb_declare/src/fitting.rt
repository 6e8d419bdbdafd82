//! Checks whether the actions of a task fit its files and outputs.
ghost use Rattle.std.specs.Prelude.{◌≡◌, ◌∷◌, [], IfOk, map};
ghost use Rattle.std.specs.List.{list_any};
ghost use Rattle.std.specs.FinMap.Entries.{find};
ghost use Rattle.gb_core.specs.Lists.{byte_order};
ghost use Rattle.gb_registry.specs.Faults.{ReportsFirst};
ghost use Rattle.gb_registry.specs.Tables.{tables_of};
ghost use Rattle.gb_declare.specs.Declaring.{is_misshapen, lacks_actions, shape_faults};
ghost use Rattle.gb_declare.specs.Shapes.{is_unfit};
ghost use Rattle.gb_declare.specs.Views.{joined_of};

use crate::registered::Joined;
use gb_action::actions::Actions;
use gb_action::list::ActionList;
use gb_action::output_files::Form;
use gb_action::run::accepts;
use gb_action::shape::Fit;
use gb_action::table::ActionTable;
use gb_action::values::Arguments;
use gb_core::name::Name;
use gb_core::path::TaskPath;
use gb_provider::transforms::Transforms;
use gb_registry::wrong::Scope;
use gb_report::fault::Fault;
use gb_script::script::{Call, InputFiles};
use gb_script::script_expression::Expression;
use std::alloc::{AllocError, Global};
use std::collections::BTreeMap;

/// The names of file properties, in order.
fn file_names(alloc: Global, files: &BTreeMap<Name, &InputFiles>) -> Result<Vec<Name>, AllocError>
    ensures { IfOk result (λ names. names.items ≡ map (λ e. e.0) files.now.entries) }
{
    let mut names = Vec::new(alloc);
    for (name, _) in files.iter() {
        names.push(name.copy()?)?;
    }
    Ok(names)
}

/// The names and forms of outputs, in the order of the names.
fn output_forms(
    alloc: Global,
    outputs: &BTreeMap<Name, (Form, &Expression)>,
) -> Result<Vec<(Name, Form)>, AllocError>
    ensures { IfOk result (λ forms. forms.items ≡ map (λ e. (e.0, e.1.0)) outputs.now.entries) }
{
    let mut forms = Vec::new(alloc);
    for (name, made) in outputs.iter() {
        forms.push((name.copy()?, made.0))?;
    }
    Ok(forms)
}

/// Whether a call names a stored action that lacks something in the task.
fn is_unfit<A: Actions>(
    alloc: Global,
    table: &ActionTable<A::Stored>,
    call: &Call,
    files: &[Name],
    outputs: &[(Name, Form)],
) -> bool
    ensures { result ≡ is_unfit A.meanings files.now outputs.now (find byte_order call.now.name table.now) }
{
    match table.find(call.name.as_str()) {
        Ok(stored) => matches!(
            accepts::<A>(stored, &Arguments::new(alloc), files, outputs),
            Fit::BadShape
        ),
        Err(_) => false,
    }
}

/// Whether some call is unfit.
fn is_any_unfit<A: Actions>(
    alloc: Global,
    table: &ActionTable<A::Stored>,
    calls: &ActionList<&Call>,
    files: &[Name],
    outputs: &[(Name, Form)],
) -> bool
    ensures { result ≡ list_any (λ call.
        is_unfit A.meanings files.now outputs.now (find byte_order call.now.name table.now)) calls.now }
{
    for call in calls.iter() {
        if is_unfit::<A>(alloc, table, *call, files, outputs) {
            return true;
        }
    }
    false
}

/// Whether there are outputs but no action that makes them.
fn lacks_actions(outputs: &[(Name, Form)], actions: &ActionList<&Call>) -> bool
    ensures { result ≡ lacks_actions outputs.now actions.now }
{
    !outputs.is_empty() && actions.is_empty()
}

fn is_misshapen<A: Actions, T: Transforms>(
    alloc: Global,
    scope: &Scope<'_, A, T>,
    said: &Joined<'_>,
) -> Result<bool, AllocError>
    ensures { IfOk result (λ is. is ≡ is_misshapen
        (tables_of T.meanings A.meanings scope.now.tables.now) (joined_of said.now)) }
{
    let files = file_names(alloc, &said.files)?;
    let outputs = output_forms(alloc, &said.outputs)?;
    let lacks = lacks_actions(&outputs, &said.actions);
    let table = &scope.tables.actions;
    Ok(lacks || is_any_unfit::<A>(alloc, table, &said.actions, &files, &outputs))
}

/// The actions of a task find what they need in it; otherwise the fault is 55.
pub fn check_shape<A: Actions, T: Transforms>(
    alloc: Global,
    scope: &Scope<'_, A, T>,
    path: &TaskPath,
    said: &Joined<'_>,
) -> Result<(), Fault>
    ensures { ReportsFirst (shape_faults
        (tables_of T.meanings A.meanings scope.now.tables.now) path.now (joined_of said.now)) result }
{
    if is_misshapen(alloc, scope, said)? {
        return Err(Fault::BadShape(path.copy()?));
    }
    Ok(())
}
