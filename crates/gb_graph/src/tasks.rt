//! Tasks that are registered, and declared on demand.
ghost use Rattle.std.specs.Prelude.{◌≡◌, ◌⊎◌, [], Some, Ok, Err, IfOk, IfErr, OnOk, IsTrue};
ghost use Rattle.gb_core.specs.Lists.{first_of};
ghost use Rattle.gb_report.specs.declared.fault.Fault.TheVariants.{OutOfMemory};
ghost use Rattle.gb_plan.specs.Task.{has_path};
ghost use Rattle.gb_plan.specs.Graph.{Registry, IsRegistry, declaration_at, paths_of, selected_by};
ghost use Rattle.gb_plan.specs.Refusal.{word_faults};

use gb_core::path::TaskPath;
use gb_core::task_paths::TaskPaths;
use gb_core::text::Text;
use gb_plan::task::TaskDeclaration;
use gb_report::fault::Fault;
use std::alloc::Global;

/// The tasks that scripts register. Their declarations are computed on demand.
pub trait Tasks {
    /// The registry.
    ghost registry: { Self → Registry };

    /// Each path is registered once, and each declaration is as `IsDeclared` of `gb_plan` requires.
    ghost sound: { (tasks : Self) → IsRegistry (registry tasks) };

    /// The arguments that apply where none is given.
    fn default_tasks(&self) -> &[Text]
        ensures { result.now ≡ (registry self.now).default_tasks };

    /// The tasks that an argument selects. Refused where it is no path, its project does not exist,
    /// or it selects no task.
    fn select(&self, alloc: Global, word: &Text) -> Result<TaskPaths, Fault>
        ensures selected { IfOk result (λ paths. paths ≡ selected_by (registry self.now) word.now) }
        ensures good { OnOk result (word_faults (registry self.now) word.now ≡ []) }
        ensures bad { IfErr result (λ fault. (fault ≡ OutOfMemory)
            ⊎ (first_of (word_faults (registry self.now) word.now) ≡ Some fault)) };

    /// The declaration of a task, or its first fault.
    fn realise(&mut self, alloc: Global, path: &TaskPath) -> Result<TaskDeclaration, Fault>
        requires { IsTrue (has_path (paths_of (registry self.old)) path.now) }
        ensures kept { registry self.new ≡ registry self.old }
        ensures task { IfOk result (λ task.
            declaration_at (registry self.old) path.now ≡ Some (Ok task)) }
        ensures fault { IfErr result (λ fault. (fault ≡ OutOfMemory)
            ⊎ (declaration_at (registry self.old) path.now ≡ Some (Err fault))) };
}
