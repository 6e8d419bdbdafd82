//! The clauses that a script adds to tasks, by the names of the tasks.
ghost use Rattle.std.specs.Prelude.{◌≡◌, ℕ, List, ◌++◌, [], IfOk, OnOk, bytes_eq, if◌then◌else◌};
ghost use Rattle.gb_declare.specs.Borrowed.{now_of};
ghost use Rattle.gb_registry.specs.Said.{added_clauses};
ghost use Rattle.gb_project.specs.Blocks.{AreBlocks, clauses_under};

use gb_core::name::Name;
use gb_script::script::{Clause, Statement};
use std::alloc::{AllocError, Global};
use std::collections::BTreeMap;

/// The clauses that blocks add to the task of each name, in the order of the script.
pub type Blocks<'a> = BTreeMap<Name, Vec<&'a Clause>>;

/// Appends clauses.
pub fn push_clauses<'a>(to: &mut Vec<&'a Clause>, clauses: &'a [Clause]) -> Result<(), AllocError>
    ensures { OnOk result (now_of to.new.items ≡ now_of to.old.items ++ clauses.now) }
{
    for clause in clauses {
        to.push(clause)?;
    }
    Ok(())
}

/// Appends clauses to those under a name.
fn add_block<'a>(
    alloc: Global,
    blocks: &mut Blocks<'a>,
    name: &Name,
    block: &'a [Clause],
) -> Result<(), AllocError>
    ensures { OnOk result ((other : List ℕ) → clauses_under blocks.new other
        ≡ clauses_under blocks.old other ++ (if bytes_eq name.now other then block.now else [])) }
{
    let mut clauses = blocks.remove(name).unwrap_or(Vec::new(alloc));
    push_clauses(&mut clauses, block)?;
    blocks.insert(name.copy()?, clauses)?;
    Ok(())
}

/// Appends the clauses that a statement adds to a task.
fn add_statement<'a>(
    alloc: Global,
    blocks: &mut Blocks<'a>,
    statement: &'a Statement,
) -> Result<(), AllocError>
    ensures { OnOk result ((name : List ℕ) → clauses_under blocks.new name
        ≡ clauses_under blocks.old name ++ added_clauses name statement.now) }
{
    match statement {
        Statement::Named(added) => { add_block(alloc, blocks, &added.name, added.block.clauses()) }
        _ => Ok(()),
    }
}

/// What the statements of a script add to the task of each name. Takes n log n steps in the size of
/// the statements.
pub fn blocks_by_name<'a>(
    alloc: Global,
    statements: &'a [Statement],
) -> Result<Blocks<'a>, AllocError>
    ensures { IfOk result (λ blocks. AreBlocks blocks statements.now) }
{
    let mut blocks = BTreeMap::new(alloc);
    for statement in statements {
        add_statement(alloc, &mut blocks, statement)?;
    }
    Ok(blocks)
}
