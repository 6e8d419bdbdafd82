//! Faults of functions, providers and tables.
ghost use Rattle.std.specs.Prelude.{◌≡◌, IfOk};

use gb_core::path::TaskPath;
use gb_core::text::{Text, Texts};
use gb_table::table::AddFault;
use std::alloc::AllocError;
use thiserror::Error;

/// Why a stored function gives no answer.
#[derive(Clone, Copy, Debug, PartialEq, Eq, Error)]
pub enum Refusal {
    /// It does not take these arguments.
    #[error("bad arguments")]
    BadArguments,
    /// It does not take such a value.
    #[error("wrong value")]
    WrongValue,
}

impl Refusal {
    ghost use Rattle.gb_provider.specs.Faults.{refusal_number};

    /// The number under which the fault is reported to users.
    pub fn number(self) -> u16
        ensures { result ≡ refusal_number self }
    {
        match self {
            Refusal::BadArguments => 32,
            Refusal::WrongValue => 34,
        }
    }
}

/// The faults that a stored function may return in place of a value.
#[derive(Clone, Copy, Debug, PartialEq, Eq, Error)]
pub enum TransformFault {
    /// It does not take its arguments or its value (32, 34).
    #[error("{0}")]
    Refused(Refusal),
    /// Out of memory for its result; 3.
    #[error("out of memory")]
    OutOfMemory,
}

impl From<AllocError> for TransformFault {
    ghost use Rattle.gb_provider.specs.declared.fault.TransformFault.TheVariants.{OutOfMemory};

    ghost from_gives = { λ _ fault. fault ≡ OutOfMemory };

    fn from(_error: AllocError) -> TransformFault {
        TransformFault::OutOfMemory
    }
}

/// An output of a task, by its name.
#[derive(Debug, Drop, PartialEq, Eq, PartialOrd, Ord)]
pub struct Chosen {
    /// The path of the task.
    pub task: TaskPath,
    /// The output's name in it, as a script writes it, which need not be a name.
    pub output: Text,
}

impl Chosen {
    /// The same output.
    pub fn copy(&self) -> Result<Chosen, AllocError>
        ensures { IfOk result (λ copied. copied ≡ self.now) }
    {
        let task = self.task.copy()?;
        let output = self.output.copy()?;
        Ok(Chosen { task, output })
    }
}

/// The fault of an expression.
#[derive(Debug, Drop)]
pub enum ValueFault {
    /// The function of this name refuses; for a list with an element that is no text, `list` does.
    Refused(Text, Refusal),
    /// The output is not declared yet.
    Unrealised(Chosen),
}

impl ValueFault {
    ghost use Rattle.gb_provider.specs.Faults.{value_fault_number};

    /// The number under which the fault is reported to users.
    pub fn number(&self) -> u16
        ensures { result ≡ value_fault_number self.now }
    {
        match self {
            ValueFault::Refused(_, refusal) => refusal.number(),
            ValueFault::Unrealised(_) => 36,
        }
    }

    /// An equal fault.
    pub fn copy(&self) -> Result<ValueFault, AllocError>
        ensures { IfOk result (λ copied. copied ≡ self.now) }
    {
        match self {
            ValueFault::Refused(function, refusal) => {
                Ok(ValueFault::Refused(function.copy()?, *refusal))
            }
            ValueFault::Unrealised(output) => Ok(ValueFault::Unrealised(output.copy()?)),
        }
    }
}

/// Why a step was not made.
#[derive(Clone, Copy, Debug, PartialEq, Eq, Error)]
pub enum StepFault {
    /// No function of that use has the name.
    #[error("unknown transform")]
    UnknownTransform,
    /// The function takes another number of arguments.
    #[error("bad arguments")]
    BadArguments,
    /// Out of memory for the step; 3.
    #[error("out of memory")]
    OutOfMemory,
}

impl StepFault {
    ghost use Rattle.gb_provider.specs.Faults.{step_fault_number};

    /// The number under which the fault is reported to users.
    pub fn number(self) -> u16
        ensures { result ≡ step_fault_number self }
    {
        match self {
            StepFault::UnknownTransform => 31,
            StepFault::BadArguments => 32,
            StepFault::OutOfMemory => 3,
        }
    }
}

impl From<AllocError> for StepFault {
    ghost use Rattle.gb_provider.specs.declared.fault.StepFault.TheVariants.{OutOfMemory};

    ghost from_gives = { λ _ fault. fault ≡ OutOfMemory };

    fn from(_error: AllocError) -> StepFault {
        StepFault::OutOfMemory
    }
}

/// Why a provider has no value.
#[derive(Debug, Drop)]
pub enum ProviderFault {
    /// It needs itself: the properties and outputs on the circle, each reads the next, the last
    /// the first; the least of the rotations of the circle, compared name by name, by bytes.
    Circular(Texts),
    /// The test cannot be used, for this reason.
    Step(StepFault),
    /// It is absent.
    NoValue,
    /// It has this fault.
    Value(ValueFault),
    /// Out of memory while it is read; 3.
    OutOfMemory,
}

impl ProviderFault {
    ghost use Rattle.gb_provider.specs.Faults.{provider_fault_number};

    /// The number under which the fault is reported to users.
    pub fn number(&self) -> u16
        ensures { result ≡ provider_fault_number self.now }
    {
        match self {
            ProviderFault::Circular(_) => 30,
            ProviderFault::Step(fault) => fault.number(),
            ProviderFault::NoValue => 33,
            ProviderFault::Value(fault) => fault.number(),
            ProviderFault::OutOfMemory => 3,
        }
    }
}

impl From<AllocError> for ProviderFault {
    ghost use Rattle.gb_provider.specs.declared.fault.ProviderFault.TheVariants.{OutOfMemory};

    ghost from_gives = { λ _ fault. fault ≡ OutOfMemory };

    fn from(_error: AllocError) -> ProviderFault {
        ProviderFault::OutOfMemory
    }
}

/// The property is final, or the node is no property.
#[derive(Clone, Copy, Debug, PartialEq, Eq, Error)]
#[error("final")]
pub struct Final;

impl Final {
    /// The number under which the fault is reported to users.
    pub fn number(self) -> u16
        ensures { result ≡ 35 }
    {
        35
    }
}

/// Why a function was not added.
#[derive(Clone, Copy, Debug, PartialEq, Eq, Error)]
pub enum TableFault {
    /// The name is taken.
    #[error("duplicate transform")]
    DuplicateTransform,
    /// Out of memory for the entry; the table is unchanged; 3.
    #[error("out of memory")]
    OutOfMemory,
}

impl TableFault {
    ghost use Rattle.gb_provider.specs.Faults.{table_fault_number};

    /// The number under which the fault is reported to users.
    pub fn number(self) -> u16
        ensures { result ≡ table_fault_number self }
    {
        match self {
            TableFault::DuplicateTransform => 37,
            TableFault::OutOfMemory => 3,
        }
    }
}

impl From<AddFault> for TableFault {
    ghost use Rattle.std.specs.Prelude.{◌≡◌};
    ghost use Rattle.gb_provider.specs.Faults.{reported_of};

    ghost from_gives = { λ fault reported. reported ≡ reported_of fault };

    fn from(fault: AddFault) -> TableFault {
        match fault {
            AddFault::Taken => TableFault::DuplicateTransform,
            AddFault::OutOfMemory => TableFault::OutOfMemory,
        }
    }
}
