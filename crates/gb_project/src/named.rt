//! How scripts name what they register.
ghost use Rattle.std.specs.Prelude.{IsTrue};
ghost use Rattle.std.specs.List.{list_all};
ghost use Rattle.gb_core.specs.Path.{is_project_path};
ghost use Rattle.gb_registry.specs.SoFar.{said_in};
ghost use Rattle.gb_project.specs.Named.{is_named, registers_named};

use gb_registry::checking::Scripted;
use gb_script::script::Statement;

/// A registered task has a name, because reading the name ensures it.
fn read_name(statement: &Statement)
    ensures { IsTrue (registers_named statement.now) }
{
    if let Statement::Register(registration) = statement {
        let _name = registration.name.as_str();
    }
}

/// The project has a path, and all tasks of its script have names.
fn read_script(scripted: &Scripted)
    ensures project { IsTrue (is_project_path scripted.now.project) }
    ensures names { IsTrue (list_all registers_named scripted.now.script) }
{
    let _project = scripted.project.path().as_str();
    let statements = scripted.script.statements();
    for statement in statements {
        read_name(statement);
    }
}

/// All projects of scripts have paths, and all their tasks names.
pub fn read_names(scripts: &[Scripted])
    ensures { IsTrue (list_all is_named (said_in scripts.now)) }
{
    for scripted in scripts {
        read_script(scripted);
    }
}
