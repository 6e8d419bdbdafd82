//! Registered tasks, with everything that their scripts declare for them.
ghost use Rattle.std.specs.Prelude.{◌≡◌, ◌++◌, List, Some, IfOk, OnOk};
ghost use Rattle.gb_core.specs.Path.{task_in};
ghost use Rattle.gb_declare.specs.Borrowed.{now_of};
ghost use Rattle.gb_declare.specs.Views.{registered_of};
ghost use Rattle.gb_script.specs.declared.script.Statement.{Statement};
ghost use Rattle.gb_script.specs.declared.script.Statement.TheVariants.{Register};
ghost use Rattle.gb_project.specs.Blocks.{AreBlocks, clauses_under};
ghost use Rattle.gb_project.specs.Tasks.{registered_in};

use crate::task_blocks::{Blocks, push_clauses};
use gb_core::name::Name;
use gb_core::path::{ProjectPath, TaskPath};
use gb_declare::registered::Registered;
use gb_script::script::{Clause, Registration};
use std::alloc::{AllocError, Global};

/// Appends borrowed clauses.
fn push_each<'a>(to: &mut Vec<&'a Clause>, clauses: &[&'a Clause]) -> Result<(), AllocError>
    ensures { OnOk result (now_of to.new.items ≡ now_of to.old.items ++ now_of clauses.now) }
{
    for clause in clauses {
        to.push(*clause)?;
    }
    Ok(())
}

/// Appends what is stored under a name to other clauses.
fn push_added<'a>(
    to: &mut Vec<&'a Clause>,
    blocks: &Blocks<'a>,
    name: &Name,
) -> Result<(), AllocError>
    ensures { OnOk result (now_of to.new.items
        ≡ now_of to.old.items ++ clauses_under blocks.now name.now) }
{
    match blocks.get(name) {
        Some(added) => push_each(to, added.as_slice()),
        None => Ok(()),
    }
}

/// A task with the clauses of its own block, followed by those that its script adds to it.
pub fn registered<'a>(
    alloc: Global,
    project: &'a ProjectPath,
    path: &'a TaskPath,
    registration: &'a Registration,
    blocks: &Blocks<'a>,
) -> Result<Registered<'a>, AllocError>
    requires { path.now ≡ task_in project.now registration.now.name }
    ensures { IfOk result (λ task. (script : List Statement) → AreBlocks blocks.now script
        → Some (registered_of task) ≡ registered_in project.now script (Register registration.now)) }
{
    let mut clauses = Vec::new(alloc);
    push_clauses(&mut clauses, registration.block.clauses())?;
    push_added(&mut clauses, blocks, &registration.name)?;
    Ok(Registered {
        project,
        path,
        action: registration.action.as_ref(),
        clauses,
    })
}
