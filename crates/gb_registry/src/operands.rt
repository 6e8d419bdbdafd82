//! Walks an expression from left to right.
ghost use Rattle.std.specs.Prelude.{map};
ghost use Rattle.gb_script.specs.Tree.{links_of, trees_of};
ghost use Rattle.gb_script.specs.View.{link_of, root_of};
ghost use Rattle.gb_registry.specs.Faults.{ReportsFirst};
ghost use Rattle.gb_registry.specs.Wrong.{found_along, found_at, found_by, found_in, found_in_all};

use gb_report::fault::Fault;
use gb_script::script_expression::{Expression, Source, Step};
use std::alloc::Global;

/// The checks at the sources and the steps of expressions.
pub trait Look {
    ghost use Rattle.std.specs.Prelude.{List};
    ghost use Rattle.gb_report.specs.declared.fault.Fault.{Fault};
    ghost use Rattle.gb_script.specs.Tree.{Link, Root};

    /// All faults at a source, the first one first.
    ghost at_root: { Self → Root → List Fault };

    /// All faults at a step without those of its operand, the first one first.
    ghost at_link: { Self → Link → List Fault };

    /// The fault of a source other than a list.
    fn source(&self, alloc: Global, source: &Source) -> Result<(), Fault>
        ensures { ReportsFirst (at_root self.now (root_of source.now)) result };

    /// The fault of a step, without those of its operand.
    fn step(&self, alloc: Global, step: &Step) -> Result<(), Fault>
        ensures { ReportsFirst (at_link self.now (link_of step.now)) result };
}

/// The first fault along an expression; the operand of a step comes before its function.
#[cycle(walk)]
pub fn look_along<L: Look>(alloc: Global, look: &L, tree: &Expression) -> Result<(), Fault>
    ensures { ReportsFirst (found_in (L.at_root look.now) (L.at_link look.now) tree.now) result }
{
    look_at(alloc, look, tree.source())?;
    look_after(alloc, look, tree.steps())
}

#[cycle(walk)]
fn look_at<L: Look>(alloc: Global, look: &L, source: &Source) -> Result<(), Fault>
    ensures { ReportsFirst (found_at (L.at_root look.now) (L.at_link look.now) (root_of source.now)) result }
{
    match source {
        Source::List(elements) => look_at_all(alloc, look, elements.as_slice()),
        _ => look.source(alloc, source),
    }
}

#[cycle(walk)]
fn look_at_all<L: Look>(alloc: Global, look: &L, elements: &[Expression]) -> Result<(), Fault>
    ensures { ReportsFirst
        (found_in_all (L.at_root look.now) (L.at_link look.now) (trees_of elements.now)) result }
{
    for element in elements {
        look_along(alloc, look, element)?;
    }
    Ok(())
}

#[cycle(walk)]
fn look_after<L: Look>(alloc: Global, look: &L, steps: &[Step]) -> Result<(), Fault>
    ensures { ReportsFirst
        (found_along (L.at_root look.now) (L.at_link look.now) (links_of (map link_of steps.now))) result }
{
    for step in steps {
        look_by(alloc, look, step)?;
    }
    Ok(())
}

#[cycle(walk)]
fn look_by<L: Look>(alloc: Global, look: &L, step: &Step) -> Result<(), Fault>
    ensures { ReportsFirst (found_by (L.at_root look.now) (L.at_link look.now) (link_of step.now)) result }
{
    match step {
        Step::Zip(operand, _) | Step::OrElse(operand) => look_along(alloc, look, operand)?,
        Step::Map(_) | Step::FlatMap(_) => {}
    }
    look.step(alloc, step)
}
