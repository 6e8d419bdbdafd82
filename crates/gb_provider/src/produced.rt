//! The tasks that produce the values of expressions.

use crate::fault::ValueFault;
use gb_core::task_paths::TaskPaths;

/// The result of finding the tasks that produce an expression; expressions are named by keys.
#[derive(Drop)]
pub enum Produced<K> {
    /// The tasks that produce it, perhaps none.
    Tasks(TaskPaths),
    /// The fault of a value that has to choose.
    Refused(ValueFault),
    /// The value of this expression has to choose, and never has an answer.
    Endless(K),
}
