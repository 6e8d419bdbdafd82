//! A task's declaration and the nodes of its expressions, in parts.
ghost use Rattle.std.specs.Prelude.{◌≡◌, ◌≤◌, ◌<◌, ◌++◌, ◌^◌, length};
ghost use Rattle.std.specs.List.{flat_map};
ghost use Rattle.gb_declare.specs.Borrowed.{named_in};
ghost use Rattle.gb_declare.specs.Views.{joined_of};
ghost use Rattle.gb_declare.specs.Whole.{trees_of};
ghost use Rattle.gb_project.specs.Parts.{AreCounted, row_of};

use gb_action::list::ActionList;
use gb_action::values::NamedValues;
use gb_core::name::Name;
use gb_declare::registered::Joined;
use gb_plan::task::{Action, FileProperties, Outputs};
use gb_provider::expression::Node;
use gb_script::script::InputFiles;
use std::collections::BTreeMap;

/// Whether a task runs, and whether it is out of date by `upToDateWhen`.
#[derive(Clone, Copy, PartialEq, Eq)]
pub struct Flags {
    /// Neither is `enabled` false nor a test of `onlyIf`.
    pub runs: bool,
    /// A test of `upToDateWhen` is false.
    pub is_stale: bool,
}

/// What a task reads, makes and does.
#[derive(Drop)]
pub struct Contents {
    /// The inputs that are values, in the order of their names.
    pub values: NamedValues,
    /// The inputs that are files, in the order of their names.
    pub files: FileProperties,
    /// The outputs, in the order of their names.
    pub outputs: Outputs,
    /// The actions, in the order in which they run.
    pub actions: ActionList<Action>,
}

/// The nodes of a task's expressions, by their use.
#[derive(Clone, Copy)]
pub struct Parts<'a> {
    /// The value of `enabled`, if there is one.
    pub enabled: &'a [Node],
    /// The values that `onlyIf` tests.
    pub only_if: &'a [Node],
    /// The values that `upToDateWhen` tests.
    pub up_to_date_when: &'a [Node],
    /// The inputs that are values.
    pub values: &'a [Node],
    /// The roots of all file properties.
    pub roots: &'a [Node],
    /// The places of the outputs.
    pub outputs: &'a [Node],
    /// The arguments of all actions.
    pub arguments: &'a [Node],
}

/// How many roots file properties have.
fn count_roots(files: &BTreeMap<Name, &InputFiles>) -> usize
    requires { length (flat_map (λ property. property.1.from) (named_in files.now)) < 2 ^ 64 }
    ensures { result ≡ length (flat_map (λ property. property.1.from) (named_in files.now)) }
{
    let mut count = 0;
    for (_, property) in files.iter() {
        count += property.from.as_slice().len();
    }
    count
}

/// The first nodes of a row, this many, and those after them.
pub(crate) fn split_at(row: &[Node], count: usize) -> (&[Node], &[Node])
    requires { count ≤ length row.now }
    ensures whole { result.0.now ++ result.1.now ≡ row.now }
    ensures first { length result.0.now ≡ count }
{
    (&row[..count], &row[count..])
}

/// The nodes of a task's expressions in their parts.
pub fn split<'a>(task: &Joined<'_>, row: &'a [Node]) -> Parts<'a>
    requires { length row.now ≡ length (trees_of (joined_of task.now)) }
    ensures whole { row_of result ≡ row.now }
    ensures counted { AreCounted (joined_of task.now) result }
{
    let (enabled, row) = split_at(row, usize::from(task.enabled.is_some()));
    let (only_if, row) = split_at(row, task.only_if.len());
    let (up_to_date_when, row) = split_at(row, task.up_to_date_when.len());
    let (values, row) = split_at(row, task.values.len());
    let (roots, row) = split_at(row, count_roots(&task.files));
    let (outputs, arguments) = split_at(row, task.outputs.len());
    Parts {
        enabled,
        only_if,
        up_to_date_when,
        values,
        roots,
        outputs,
        arguments,
    }
}
