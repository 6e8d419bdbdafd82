//! A registered task, and its combined clauses.
use gb_action::list::ActionList;
use gb_action::output_files::Form;
use gb_core::name::Name;
use gb_core::path::{ProjectPath, TaskPath};
use gb_core::task_paths::TaskPaths;
use gb_script::script::{Call, Clause, Condition, InputFiles};
use gb_script::script_expression::Expression;
use std::collections::BTreeMap;

/// A registered task, as its script has it.
#[derive(Drop)]
pub struct Registered<'a> {
    /// The project whose script registers it.
    pub project: &'a ProjectPath,
    /// The path of the task.
    pub path: &'a TaskPath,
    /// The call after the colon.
    pub action: Option<&'a Call>,
    /// The clauses of all its blocks, in the order of the script.
    pub clauses: Vec<&'a Clause>,
}

/// The combined clauses of a task: the last entry of each name, the last `enabled`, and all other
/// clauses.
#[derive(Drop)]
pub struct Joined<'a> {
    /// The last value of `enabled`, or nothing where there is none.
    pub enabled: Option<&'a Expression>,
    /// All conditions of `onlyIf`, in their order.
    pub only_if: Vec<&'a Condition>,
    /// All conditions of `upToDateWhen`, in their order.
    pub up_to_date_when: Vec<&'a Condition>,
    /// The expression of each input value.
    pub values: BTreeMap<Name, &'a Expression>,
    /// The files of each file property, as declared.
    pub files: BTreeMap<Name, &'a InputFiles>,
    /// The form of each output, and the expression of its place.
    pub outputs: BTreeMap<Name, (Form, &'a Expression)>,
    /// In the order in which they run.
    pub actions: ActionList<&'a Call>,
    /// The tasks of `dependsOn`.
    pub depends_on: TaskPaths,
    /// The tasks of `mustRunAfter`.
    pub must_run_after: TaskPaths,
    /// The tasks of `finalizedBy`.
    pub finalizers: TaskPaths,
}
