//! The faults of an expression before its value is computed.
ghost use Rattle.std.specs.Prelude.{◌≡◌};
ghost use Rattle.std.specs.Option.{option_copied};
ghost use Rattle.gb_registry.specs.Faults.{ReportsFirst};
ghost use Rattle.gb_registry.specs.Wrong.{count_faults, property_faults, task_faults_in};

use crate::names::{Names, check_name};
use crate::operands::Look;
use crate::project::Project;
use crate::tables::Tables;
use crate::unique_texts::TextSet;
use gb_action::actions::Actions;
use gb_core::name::Name;
use gb_core::text::Text;
use gb_provider::transforms::Transforms;
use gb_report::fault::Fault;
use gb_script::function::Function;
use gb_script::script_expression::{Source, Step};
use std::alloc::Global;

/// The position of an expression, and what it may name there: functions, properties and tasks.
#[derive(Drop)]
pub struct Scope<'a, A: Actions, T: Transforms> {
    /// The actions and functions that may be named.
    pub tables: &'a Tables<A, T>,
    /// The project that contains its places, and relative to which its tasks are named.
    pub project: &'a Project,
    /// The properties that are declared before it.
    pub properties: &'a TextSet,
    /// All names, where all tasks are known.
    pub names: Option<&'a Names<'a>>,
}

impl<'a, A: Actions, T: Transforms> Look for Scope<'a, A, T> {
    ghost use Rattle.std.specs.Option.{option_copied};
    ghost use Rattle.gb_registry.specs.Tables.{tables_of};
    ghost use Rattle.gb_registry.specs.Wrong.{link_faults, root_faults, task_faults_in};

    ghost at_root = { λ s. root_faults (record {
      project = s.project.now;
      properties = s.properties.now;
      task_faults = task_faults_in (option_copied s.names) s.project.now;
    }) };

    ghost at_link = { λ s. link_faults (tables_of T.meanings A.meanings s.tables.now) };

    fn source(&self, alloc: Global, source: &Source) -> Result<(), Fault> {
        match source {
            Source::Property(name) => check_property(self.properties, name),
            Source::Dir(text) | Source::File(text) => self.project.check_place(alloc, text),
            Source::Task(text) => check_task(alloc, self.names, self.project.path().as_str(), text),
            _ => Ok(()),
        }
    }

    fn step(&self, alloc: Global, step: &Step) -> Result<(), Fault> {
        let transforms = &self.tables.transforms;
        match step {
            Step::Map(function) => {
                let count = transforms
                    .find_map(function.name.as_str())
                    .map(|stored| T::map_arity(stored));
                check_count(alloc, function, count)
            }
            Step::FlatMap(function) => {
                let count = transforms
                    .find_flat(function.name.as_str())
                    .map(|stored| T::flat_map_arity(stored));
                check_count(alloc, function, count)
            }
            Step::Zip(_, function) => {
                let count = transforms
                    .find_zip(function.name.as_str())
                    .map(|stored| T::zip_arity(stored));
                check_count(alloc, function, count)
            }
            Step::OrElse(_) => Ok(()),
        }
    }
}

/// Refused where there is no such property (54).
pub(crate) fn check_property(properties: &TextSet, name: &Name) -> Result<(), Fault>
    ensures { ReportsFirst (property_faults properties.now name.now) result }
{
    if properties.contains(name.as_str()) {
        Ok(())
    } else {
        Err(Fault::UnknownProperty(name.copy()?))
    }
}

/// Refused where the text names no task.
pub fn check_task(
    alloc: Global,
    names: Option<&Names<'_>>,
    project: &str,
    text: &Text,
) -> Result<(), Fault>
    ensures { ReportsFirst (task_faults_in (option_copied names.entry) project.now text.now) result }
{
    match names {
        Some(names) => names.refer(alloc, project, text),
        None => check_name(alloc, project, text),
    }
}

/// Refused where no function has the name (31), or it takes another count of arguments (32).
pub fn check_count(alloc: Global, function: &Function, count: Option<u8>) -> Result<(), Fault>
    ensures { ReportsFirst (count_faults function.now count) result }
{
    match count {
        None => Err(Fault::UnknownTransform(function.name.copy()?)),
        Some(count) if usize::from(count) == function.arguments.as_slice().len() => Ok(()),
        Some(_) => Err(Fault::BadArguments(Text::from_str(alloc, function.name.as_str())?)),
    }
}
