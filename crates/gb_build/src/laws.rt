//! Facts that follow from the definitions alone.
ghost use Rattle.std.specs.Prelude.{◌≡◌, List, Ok, Result, true};
ghost use Rattle.gb_exec.specs.Building.{is_of_executions};
ghost use Rattle.gb_folder.specs.Calls.{Call, Requests, changes_at, no_change};
ghost use Rattle.gb_folder.specs.Device.{Leads};
ghost use Rattle.gb_semantics.specs.Kinds.{Kinds};
ghost use Rattle.gb_semantics.specs.Pinned.{HaveOnePlan};
ghost use Rattle.gb_semantics.specs.declared.events.Answer.{Answer};
ghost use Rattle.gb_semantics.specs.declared.events.Event.{Event};
ghost use Rattle.gb_semantics.specs.declared.events.Invocation.{Invocation};
ghost use Rattle.gb_registry.specs.Tables.{Tables};
ghost use Rattle.gb_report.specs.declared.fault.Fault.{Fault};
ghost use Rattle.gb_report.specs.declared.report.Report.{Report};
ghost use Rattle.gb_build.specs.EventAsked.{EventsRequest};
ghost use Rattle.gb_build.specs.Invoking.{IsInvocation};
ghost use Rattle.gb_build.specs.Laws.{FoldersDeclareOneThing, OwnFilesDeclareNothing};
ghost use Rattle.gb_build.specs.Registering.{setting_of};

use gb_action::actions::Actions;
use gb_folder::folder::Folder;
use gb_provider::transforms::Transforms;

/// A folder declares one thing: what its scripts register, or one fault.
pub fn folders_declare_one_thing<A: Actions, T: Transforms>()
    ensures { (tables : Tables T.Map T.FlatMap T.Zip T.Test A.Stored) → FoldersDeclareOneThing tables }
{}

/// The tool's own files have no effect: a folder declares the same without them.
pub fn own_files_declare_nothing<A: Actions, T: Transforms>()
    ensures { (tables : Tables T.Map T.FlatMap T.Zip T.Test A.Stored) → OwnFilesDeclareNothing tables }
{}

/// What the scripts of a folder declare and what is requested of them determine one plan. So the
/// premise of the law `states_are_one` of `gb_semantics` holds of every run over scripts.
pub fn scripts_give_one_plan<A: Actions, T: Transforms, F: Folder>()
    ensures { (tables : Tables T.Map T.FlatMap T.Zip T.Test A.Stored) (kinds : Kinds) (folder : F)
        → HaveOnePlan (setting_of tables kinds (F.device.may_leave folder)) }
{}

/// The calls of events that are taken one after another are a list of calls, with their answers,
/// which lead from the folder before them to the folder after them. (Of one invocation it is a field
/// of `IsInvocation`.)
pub fn events_are_calls<A: Actions, T: Transforms, F: Folder>()
    ensures { (tables : Tables T.Map T.FlatMap T.Zip T.Test A.Stored) (events : List Event)
        (answers : List Answer) (old new : F) → EventsRequest F.device tables events answers old new
        → (calls : List Call) × Leads F.device old calls new }
{}

/// A dry run requests no change, over any folder.
pub fn dry_runs_request_nothing<A: Actions, T: Transforms, F: Folder>()
    ensures { (tables : Tables T.Map T.FlatMap T.Zip T.Test A.Stored) (invocation : Invocation)
        (answer : Result Report Fault) (old new : F)
        → IsInvocation F.device tables invocation answer old new → invocation.options.dry_run ≡ true
        → Requests F.device no_change old new }
{}

/// A build requests changes only at the outputs and the records of the tasks of its plan, over any
/// folder.
pub fn builds_change_their_own<A: Actions, T: Transforms, F: Folder>()
    ensures { (tables : Tables T.Map T.FlatMap T.Zip T.Test A.Stored) (invocation : Invocation)
        (report : Report) (old new : F)
        → (is : IsInvocation F.device tables invocation (Ok report) old new)
        → Requests F.device (changes_at (is_of_executions is.requests.by.plan)) old new }
{}
