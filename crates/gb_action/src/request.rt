//! The request to an action.

use crate::change::InputChanges;
use crate::output_files::OutputSnapshots;
use crate::snapshot::Snapshots;
use crate::values::{Arguments, NamedValues};

/// The request to one action. The outputs have contents in an incremental request only.
#[derive(Drop)]
pub struct Request {
    /// The arguments of its call, as `shape_of` requires them.
    pub args: Arguments,
    /// The values of the task's inputs.
    pub values: NamedValues,
    /// The contents of the task's file properties.
    pub files: Snapshots,
    /// What exists at the task's outputs.
    pub outputs: OutputSnapshots,
    /// What changed in its incremental file properties.
    pub changes: InputChanges,
}
