//! What a registered task declares.
ghost use Rattle.std.specs.Prelude.{◌≡◌, [], IfOk};
ghost use Rattle.std.specs.Option.{option_copied};
ghost use Rattle.gb_registry.specs.Faults.{ReportsFirst};
ghost use Rattle.gb_registry.specs.Tables.{tables_of};
ghost use Rattle.gb_declare.specs.Borrowed.{now_of};
ghost use Rattle.gb_declare.specs.Declaring.{clauses_faults, faults_within, scope_in};
ghost use Rattle.gb_declare.specs.Joined.{joined};
ghost use Rattle.gb_declare.specs.Views.{joined_of, registered_of, text_faults};

use crate::clauses::{check_clause, check_main};
use crate::fitting::check_shape;
use crate::headings::{clashes, note};
use crate::registered::{Joined, Registered};
use crate::{joining, named_tasks};
use gb_action::actions::Actions;
use gb_core::path::TaskPath;
use gb_provider::transforms::Transforms;
use gb_registry::wrong::Scope;
use gb_report::fault::Fault;
use gb_script::script::Clause;
use std::alloc::Global;
use std::collections::BTreeMap;

/// What a task declares, or its first fault: first the fault of the call after the colon, then of
/// its clauses in the order of the script, and last that its actions do not fit it (55). The scope
/// is that of its project.
pub fn declare<'a, A: Actions, T: Transforms>(
    alloc: Global,
    scope: &Scope<'_, A, T>,
    task: &Registered<'a>,
) -> Result<Joined<'a>, Fault>
    requires { task.now.project.now ≡ scope.now.project.now }
    ensures joined { IfOk result (λ said. joined_of said ≡ joined (registered_of task.now)) }
    ensures faults { ReportsFirst (faults_within (tables_of T.meanings A.meanings scope.now.tables.now)
        (scope_in scope.now.project.now scope.now.properties.now (option_copied scope.now.names))
        (registered_of task.now)) result }
{
    check_main(alloc, scope, task.action)?;
    check_clauses(alloc, scope, task.path, &task.clauses)?;
    let said = join(alloc, task)?;
    check_shape(alloc, scope, task.path, &said)?;
    Ok(said)
}

/// The combined clauses of a task; 1 where a text names no task.
fn join<'a>(alloc: Global, task: &Registered<'a>) -> Result<Joined<'a>, Fault>
    ensures joined { IfOk result (λ said. joined_of said ≡ joined (registered_of task.now)) }
    ensures faults { ReportsFirst (text_faults (registered_of task.now)) result }
{
    let depends_on = named_tasks::depends_on(alloc, task.project, &task.clauses)?;
    let must_run_after = named_tasks::must_run_after(alloc, task.project, &task.clauses)?;
    let finalizers = named_tasks::finalized_by(alloc, task.project, &task.clauses)?;
    Ok(Joined {
        enabled: joining::enabled(&task.clauses),
        only_if: joining::only_if(alloc, &task.clauses)?,
        up_to_date_when: joining::up_to_date_when(alloc, &task.clauses)?,
        values: joining::values(alloc, &task.clauses)?,
        files: joining::files(alloc, &task.clauses)?,
        outputs: joining::outputs(alloc, &task.clauses)?,
        actions: joining::actions(alloc, task.action, &task.clauses)?,
        depends_on,
        must_run_after,
        finalizers,
    })
}

/// The first fault of clauses, in the order of their text: a name that an earlier clause has in
/// another form (55), then the faults of each clause.
fn check_clauses<A: Actions, T: Transforms>(
    alloc: Global,
    scope: &Scope<'_, A, T>,
    path: &TaskPath,
    clauses: &[&Clause],
) -> Result<(), Fault>
    ensures { ReportsFirst (clauses_faults (tables_of T.meanings A.meanings scope.now.tables.now)
        (scope_in scope.now.project.now scope.now.properties.now (option_copied scope.now.names))
        path.now [] (now_of clauses.now)) result }
{
    let mut words = BTreeMap::new(alloc);
    for clause in clauses {
        if clashes(&words, *clause) {
            return Err(Fault::BadShape(path.copy()?));
        }
        check_clause(alloc, scope, *clause)?;
        note(&mut words, *clause)?;
    }
    Ok(())
}
