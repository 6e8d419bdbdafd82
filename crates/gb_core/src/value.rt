//! Values of the build notation.
ghost use Rattle.std.specs.Prelude.{◌≡◌, IfOk};

use crate::path::TaskPath;
use crate::place::Place;
use crate::row::Copies;
use crate::text::{Text, Texts};
use std::alloc::{AllocError, Global};

/// The value of an input, an output or an argument.
#[derive(Debug, Drop)]
pub enum Value {
    /// Any text, as `"a"`.
    Text(Text),
    /// `true` or `false`.
    Flag(bool),
    /// A list of texts, as `["a", "b"]`.
    List(Texts),
    /// The place of a file or a folder, relative to the folder of the build.
    Place(Place),
    /// A task, as `task("gen")` returns it.
    Task(TaskPath),
}

impl Value {
    /// An equal value.
    pub fn copy(&self, alloc: Global) -> Result<Value, AllocError>
        ensures { IfOk result (λ copied. copied ≡ self.now) }
    {
        match self {
            Value::Text(text) => Ok(Value::Text(text.copy()?)),
            Value::Flag(flag) => Ok(Value::Flag(*flag)),
            Value::List(texts) => Ok(Value::List(texts.copy(alloc)?)),
            Value::Place(place) => Ok(Value::Place(place.copy()?)),
            Value::Task(task) => Ok(Value::Task(task.copy()?)),
        }
    }
}

impl Copies for Value {
    fn copied(&self, alloc: Global) -> Result<Value, AllocError> {
        self.copy(alloc)
    }
}
