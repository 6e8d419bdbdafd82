//! Records for tests.
use gb_action::output_files::Form;
use gb_action::values::{Arguments, NamedValues};
use gb_core::name::Name;
use gb_core::place::{Place, RelPath};
use gb_core::text::Text;
use gb_core::value::Value;
use gb_history::record::{OutputRecord, Record};
use gb_plan::task::Action;
use gb_tree::prints::Prints;
use sha2::{Digest, Sha256};
use std::alloc::{AllocError, Global};
use std::test::Fail;

fn arguments(alloc: Global) -> Result<Arguments, AllocError> {
    let mut arguments = Arguments::new(alloc);
    arguments.push(Value::Text(Text::from_str(alloc, "abc")?))?;
    Ok(arguments)
}

/// The action that writes `abc`.
fn action(alloc: Global) -> Result<Action, Fail> {
    let kind = Name::read(alloc, "writeText")?;
    Ok(Action {
        kind,
        version: 1,
        args: arguments(alloc)?,
    })
}

/// The one file of the output `out`.
fn prints(alloc: Global) -> Result<Prints, Fail> {
    let name = Name::read(alloc, "out")?;
    let path = RelPath::read(alloc, "")?;
    Ok(Prints::new(name, vec![in alloc; (path, Sha256::digest("abc"))]?))
}

fn output(alloc: Global) -> Result<OutputRecord, Fail> {
    let place = Place::read(alloc, "build/a.txt")?;
    Ok(OutputRecord {
        form: Form::File,
        place,
        prints: prints(alloc)?,
    })
}

/// The record of a task that wrote `abc` to `build/a.txt`.
fn worked(alloc: Global) -> Result<Record, Fail> {
    let actions = vec![in alloc; action(alloc)?]?;
    let outputs = vec![in alloc; output(alloc)?]?;
    Ok(Record::new(actions, NamedValues::new(alloc), Vec::new(alloc), outputs))
}

/// The record of a task that wrote `abc`, or of one that has nothing.
pub fn record(alloc: Global, word: &str) -> Result<Record, Fail> {
    if word == "wrote" {
        return worked(alloc);
    }
    let (values, inputs) = (NamedValues::new(alloc), Vec::new(alloc));
    Ok(Record::new(Vec::new(alloc), values, inputs, Vec::new(alloc)))
}
