//! The signature of an action: its arguments, what it reads and what it writes.
ghost use Rattle.std.specs.Prelude.{◌≡◌, [], ◌∷◌, ◌++◌, OnOk, OnErr};
ghost use Rattle.gb_action.specs.Shapes.{arg_fits, arg_of, args_fit, fit, has_output, has_source};
ghost use Rattle.gb_action.specs.Shapes.{is_optional};
ghost use Rattle.gb_action.specs.Shapes.{text_fits};
ghost use Rattle.gb_action.specs.declared.shape.Parameter.TheVariants.{Optional, Required};

use crate::output_files::Form;
use crate::values::Arguments;
use gb_core::name::Name;
use gb_core::place::is_place;
use gb_core::value::Value;
use std::alloc::{AllocError, Global};
use std::marker::Model;

/// The requirement on an argument.
#[derive(Clone, Copy, PartialEq, Eq)]
pub enum Arg {
    /// Any text.
    Text,
    /// A text without a line feed.
    Line,
    /// A text that is not empty and has no `@`.
    Key,
    /// A text that is a place.
    Rel,
}

/// One parameter of an action.
#[derive(Clone, Copy)]
pub enum Parameter {
    /// The argument has to be given.
    Required(Arg),
    /// The argument may be omitted if all arguments after it are omitted.
    Optional(Arg),
}

impl Parameter {
    /// The requirement on the argument, if it is given.
    fn arg(self) -> Arg
        ensures { result ≡ arg_of self }
    {
        match self {
            Parameter::Required(arg) | Parameter::Optional(arg) => arg,
        }
    }

    fn is_optional(self) -> bool
        ensures { result ≡ is_optional self }
    {
        matches!(self, Parameter::Optional(_))
    }
}

/// The parameters of an action, in order.
#[derive(Drop)]
pub struct ArgList {
    parameters: Vec<Parameter>,
}

impl Model for ArgList {
    ghost use Rattle.std.specs.Prelude.{List};
    ghost use Rattle.gb_action.specs.declared.shape.Parameter.{Parameter};

    ghost Value = { List Parameter };

    ghost view = { λ l. l.parameters.items };
}

impl ArgList {
    /// No argument yet.
    pub fn new(alloc: Global) -> ArgList
        ensures { result ≡ [] }
    {
        ArgList {
            parameters: Vec::new(alloc),
        }
    }

    /// Adds, after the others, an argument that has to be given.
    pub fn push(&mut self, arg: Arg) -> Result<(), AllocError>
        ensures ok { OnOk result (self.new ≡ self.old ++ Required arg ∷ []) }
        ensures err { OnErr result (self.new ≡ self.old) }
    {
        self.parameters.push(Parameter::Required(arg))?;
        Ok(())
    }

    /// Adds, after the others, an argument that may be omitted.
    pub fn push_optional(&mut self, arg: Arg) -> Result<(), AllocError>
        ensures ok { OnOk result (self.new ≡ self.old ++ Optional arg ∷ []) }
        ensures err { OnErr result (self.new ≡ self.old) }
    {
        self.parameters.push(Parameter::Optional(arg))?;
        Ok(())
    }

    /// The parameters, in order.
    pub fn as_slice(&self) -> &[Parameter]
        ensures { result.now ≡ self.now }
    {
        self.parameters.as_slice()
    }
}

/// The signature of an action: its arguments, whether it reads the file property `src`, the form of
/// its output `out` if it writes files, and whether it can reply to changes alone.
#[derive(Drop)]
pub struct Shape {
    /// The number of its arguments, and the requirement on each.
    pub args: ArgList,
    /// Whether it reads the file property `src`.
    pub src: bool,
    /// The form of the output `out`, or nothing if it writes no files.
    pub out: Option<Form>,
    /// Whether it can reply to changes alone, over what it wrote before.
    pub incremental: bool,
}

/// Whether an action can be called.
#[derive(Clone, Copy, PartialEq, Eq)]
pub enum Fit {
    /// It can be called.
    Yes,
    /// An argument does not fit, or there are too few or too many.
    BadArgument,
    /// The task lacks the file property or the output.
    BadShape,
}

impl Shape {
    /// Whether a call fits: the properties and outputs are checked first, then the arguments.
    pub fn accepts(&self, args: &Arguments, files: &[Name], outputs: &[(Name, Form)]) -> Fit
        ensures { result ≡ fit self.now args.now files.now outputs.now }
    {
        if !self.has_source(files) || !self.has_output(outputs) {
            Fit::BadShape
        } else if args_fit(self.args.as_slice(), args.as_slice()) {
            Fit::Yes
        } else {
            Fit::BadArgument
        }
    }

    /// Whether these values fit its parameters.
    pub fn takes(&self, values: &[Value]) -> bool
        ensures { result ≡ args_fit self.now.args values.now }
    {
        args_fit(self.args.as_slice(), values)
    }

    fn has_source(&self, files: &[Name]) -> bool
        ensures { result ≡ has_source self.now files.now }
    {
        !self.src || files.iter().any(|name| name.as_str() == "src")
    }

    fn has_output(&self, outputs: &[(Name, Form)]) -> bool
        ensures { result ≡ has_output self.now.out outputs.now }
    {
        match self.out {
            None => true,
            Some(form) => outputs
                .iter()
                .any(|output| output.0.as_str() == "out" && output.1.is(form)),
        }
    }
}

fn args_fit(parameters: &[Parameter], values: &[Value]) -> bool
    ensures { result ≡ args_fit parameters.now values.now }
{
    match (parameters.split_first(), values.split_first()) {
        (None, None) => true,
        (Some((parameter, rest)), Some((value, others))) => {
            arg_fits(parameter.arg(), value) && args_fit(rest, others)
        }
        (Some((parameter, rest)), None) => parameter.is_optional() && args_fit(rest, values),
        (None, Some(_)) => false,
    }
}

fn arg_fits(arg: Arg, value: &Value) -> bool
    ensures { result ≡ arg_fits arg value.now }
{
    match value {
        Value::Text(text) => text_fits(arg, text.as_str()),
        Value::Flag(_) | Value::List(_) | Value::Place(_) | Value::Task(_) => false,
    }
}

fn text_fits(arg: Arg, text: &str) -> bool
    ensures { result ≡ text_fits arg text.now }
{
    match arg {
        Arg::Text => true,
        Arg::Line => !text.as_bytes().contains(&b'\n'),
        Arg::Key => !text.is_empty() && !text.as_bytes().contains(&b'@'),
        Arg::Rel => is_place(text),
    }
}
