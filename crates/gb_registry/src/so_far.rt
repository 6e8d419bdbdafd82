//! The state by which a statement is checked.
ghost use Rattle.std.specs.Prelude.{◌≡◌, ◌+◌, [], ◌∷◌, ◌++◌, IfOk, IfErr, OnOk, OnErr, IsTrue, string_bytes};
ghost use Rattle.gb_core.specs.Path.{is_task_path, task_in};
ghost use Rattle.gb_report.specs.declared.fault.Fault.TheVariants.{OutOfMemory};
ghost use Rattle.gb_registry.specs.Faults.{ReportsFirst};
ghost use Rattle.gb_registry.specs.Projects.{with_path};
ghost use Rattle.gb_registry.specs.SoFar.{begun, change_faults_so_far, named_faults_so_far};
ghost use Rattle.gb_registry.specs.SoFar.{property_faults_so_far};
ghost use Rattle.gb_registry.specs.SoFar.{task_faults_so_far};
ghost use Rattle.gb_registry.specs.Wrong.{property_faults};

use crate::paths::path_in;
use crate::project::Project;
use crate::registered::Tasks;
use crate::unique_texts::TextSet;
use crate::wrong::check_property;
use gb_core::name::{Name, NameFault};
use gb_core::path::{ProjectPath, TaskPath};
use gb_core::text::Text;
use gb_report::fault::{Fault, Limited};
use std::alloc::{AllocError, Global};

/// The most properties.
const MOST_PROPERTIES: usize = 1024;

/// The most tasks.
const MOST_TASKS: usize = 4096;

/// The state after the statements before one: all tasks, the properties of its own script, the
/// final ones among them, and the count of all properties.
#[derive(Drop)]
pub struct SoFar {
    /// The tasks of all scripts so far.
    pub tasks: Tasks,
    /// The properties that this script has declared.
    pub properties: TextSet,
    /// Those of them that accept no more changes.
    pub finals: TextSet,
    /// How many properties all scripts have declared.
    pub count: usize,
}

impl SoFar {
    /// The empty state.
    pub fn new(alloc: Global) -> SoFar
        ensures { result ≡ record { tasks = []; properties = []; finals = []; count = 0 } }
    {
        SoFar {
            tasks: Tasks::new(alloc),
            properties: TextSet::new(alloc),
            finals: TextSet::new(alloc),
            count: 0,
        }
    }

    /// The tasks of all scripts so far. None is copied.
    pub fn into_tasks(self) -> Tasks
        ensures { result ≡ self.tasks }
    {
        self.tasks
    }

    /// Begins another script.
    pub fn begin(&mut self, alloc: Global)
        ensures { self.new ≡ begun self.old }
    {
        self.properties = TextSet::new(alloc);
        self.finals = TextSet::new(alloc);
    }

    /// Refused where the script declares no such property (54), and where it is final (35).
    pub fn check_change(&self, name: &Name) -> Result<(), Fault>
        ensures { ReportsFirst (change_faults_so_far self.now name.now) result }
    {
        check_property(&self.properties, name)?;
        if self.finals.contains(name.as_str()) {
            Err(Fault::Final(name.copy()?))
        } else {
            Ok(())
        }
    }

    /// Declares a property: it is the script's first of the name (53), and at most the 1,024th of
    /// all (58).
    pub fn declare(&mut self, name: &Name) -> Result<(), Fault>
        ensures ok { OnOk result
            (self.new ≡ record self.old {
              properties = with_path self.old.properties name.now;
              count = self.old.count + 1;
            }) }
        ensures err { OnErr result (self.new ≡ self.old) }
        ensures faults { ReportsFirst (property_faults_so_far self.old name.now) result }
    {
        if self.properties.contains(name.as_str()) {
            return Err(Fault::DuplicateProperty(name.copy()?));
        }
        if self.count >= MOST_PROPERTIES {
            return Err(Fault::TooMany(Limited::Properties));
        }
        self.properties.insert(name.as_str())?;
        self.count += 1;
        Ok(())
    }

    /// Makes a property final.
    pub fn finish(&mut self, name: &Name) -> Result<(), Fault>
        ensures ok { OnOk result
            (self.new ≡ record self.old { finals = with_path self.old.finals name.now }) }
        ensures err { OnErr result (self.new ≡ self.old) }
        ensures faults { ReportsFirst (property_faults self.old.properties name.now) result }
    {
        check_property(&self.properties, name)?;
        self.finals.insert(name.as_str())?;
        Ok(())
    }

    /// Registers a task: it is the first at its path (51), and at most the 4,096th (58).
    pub fn register(&mut self, alloc: Global, project: &Project, name: &Name) -> Result<(), Fault>
        ensures ok { OnOk result
            (self.new ≡ record self.old { tasks = self.old.tasks ++ task_in project.now name.now ∷ [] }) }
        ensures err { OnErr result (self.new ≡ self.old) }
        ensures faults { ReportsFirst (task_faults_so_far self.old (task_in project.now name.now)) result }
    {
        let path = task_path(alloc, project.path(), name)?;
        if self.tasks.contains(path.as_str()) {
            return Err(Fault::DuplicateTask(path));
        }
        if self.tasks.len() >= MOST_TASKS {
            return Err(Fault::TooMany(Limited::Tasks));
        }
        self.tasks.add(path)?;
        Ok(())
    }

    /// Refused where no task of the name was registered earlier in the project (52).
    pub fn check_registered(
        &self,
        alloc: Global,
        project: &Project,
        name: &Name,
    ) -> Result<(), Fault>
        ensures { ReportsFirst (named_faults_so_far self.now project.now name.now) result }
    {
        let path = path_in(alloc, project.path().as_str(), name.as_str())?;
        if self.tasks.contains(path.as_str()) {
            Ok(())
        } else {
            Err(Fault::TaskNotFound(Text::from_str(alloc, name.as_str())?))
        }
    }
}

/// The path of the task of a name in a project.
fn task_path(alloc: Global, project: &ProjectPath, name: &Name) -> Result<TaskPath, Fault>
    ensures path { IfOk result (λ path. path ≡ task_in project.now name.now) }
    ensures fault { IfErr result (λ fault. fault ≡ OutOfMemory) }
{
    let path = path_in(alloc, project.as_str(), name.as_str())?;
    match TaskPath::read(alloc, path.as_str()) {
        Ok(path) => Ok(path),
        Err(NameFault::OutOfMemory) => Err(Fault::OutOfMemory),
        Err(NameFault::BadName) => unreachable!(),
    }
}
