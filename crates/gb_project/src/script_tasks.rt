//! The tasks of scripts in the form that a plan requests.
ghost use Rattle.std.specs.Prelude.{◌≡◌, IfOk};
ghost use Rattle.gb_declare.specs.Registered.{registry_said};
ghost use Rattle.gb_plan.specs.Graph.{IsRegistry};
ghost use Rattle.gb_registry.specs.Said.{paths_of};
ghost use Rattle.gb_registry.specs.Select.{default_tasks as default_tasks_said};
ghost use Rattle.gb_registry.specs.Tables.{tables_of};
ghost use Rattle.gb_project.specs.Props.{IsRegistry-prop, source_set};
ghost use Rattle.gb_project.specs.Scripts.{registry_in};

use crate::named::read_names;
use crate::workspaces::Workspace;
use gb_action::actions::Actions;
use gb_core::path::TaskPath;
use gb_core::task_paths::TaskPaths;
use gb_core::text::{Text, Texts};
use gb_graph::tasks::Tasks;
use gb_plan::task::TaskDeclaration;
use gb_provider::transforms::Transforms;
use gb_registry::configured::Configured;
use gb_registry::registry::Registry;
use gb_report::fault::Fault;
use std::alloc::{AllocError, Global};

/// The tasks that the scripts of a registry declare. They are evaluated on demand.
#[derive(Drop)]
pub struct ScriptTasks<'a, A: Actions, T: Transforms> {
    registry: &'a Registry,
    workspace: Workspace<'a, A, T>,
    default_tasks: Texts,
    ghost source: { workspace.source ≡ registry.now } by { source_set workspace.source registry.now },
    ghost tasks: { workspace.source.names.tasks ≡ paths_of workspace.source.said },
    ghost words: { default_tasks ≡ default_tasks_said workspace.source.said },
    ghost ordered: { IsRegistry (registry_in T.meanings A.meanings workspace) } by { IsRegistry-prop _ },
}

impl<'a, A: Actions, T: Transforms> ScriptTasks<'a, A, T> {
    /// All tasks that scripts without a fault register, each declared or at fault. Nothing is
    /// evaluated yet.
    pub fn declare(alloc: Global, configured: &'a Configured<'a, A, T>) -> Result<Self, AllocError>
        // The tasks, and the default tasks, are those that the scripts register.
        ensures registry { IfOk result (λ tasks. ⟦<ScriptTasks<'a, A, T> as Tasks>⟧.registry tasks
            ≡ registry_said (tables_of T.meanings A.meanings configured.now.tables.now)
            configured.now.registry) }
    {
        let registry = &configured.registry;
        read_names(registry.scripts());
        let workspace = Workspace::declare(alloc, configured)?;
        let default_tasks = registry.default_tasks(alloc)?;
        Ok(ScriptTasks {
            registry,
            workspace,
            default_tasks,
        })
    }
}

impl<'a, A: Actions, T: Transforms> Tasks for ScriptTasks<'a, A, T> {
    ghost registry = { λ t. registry_in T.meanings A.meanings t.workspace };

    ghost sound = { λ t. t.ordered };

    fn default_tasks(&self) -> &[Text] {
        self.default_tasks.as_slice()
    }

    fn select(&self, alloc: Global, word: &Text) -> Result<TaskPaths, Fault> {
        self.registry.select(alloc, word)
    }

    fn realise(&mut self, alloc: Global, path: &TaskPath) -> Result<TaskDeclaration, Fault> {
        self.workspace.realise(alloc, path)
    }
}
