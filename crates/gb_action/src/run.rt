//! Running stored actions.
ghost use Rattle.std.specs.Prelude.{◌≡◌, is_some};
ghost use Rattle.gb_action.specs.Meanings.{shape_of, makes_of, prints_of};
ghost use Rattle.gb_action.specs.Replies.{Answers};
ghost use Rattle.gb_action.specs.Shapes.{IsAsked, fit};

use crate::actions::Actions;
use crate::output_files::Form;
use crate::reply::{ActionFault, Reply};
use crate::request::Request;
use crate::shape::Fit;
use crate::values::Arguments;
use gb_core::name::Name;
use std::alloc::Global;

/// Runs a stored action: its reply is right for its kind, or it fails as its kind does (42), or
/// memory runs out (3).
pub fn run_action<A: Actions>(
    stored: &A::Stored,
    alloc: Global,
    request: &Request,
) -> Result<Reply, ActionFault>
    requires { IsAsked (shape_of A.meanings stored.now) request.now }
    ensures { Answers (makes_of A.meanings stored.now) (prints_of A.meanings stored.now) request.now result }
{
    A::run(stored, alloc, request)
}

/// Whether an action may be run with these arguments by a task with these file properties and
/// outputs. Allocates no memory.
pub fn accepts<A: Actions>(
    stored: &A::Stored,
    args: &Arguments,
    files: &[Name],
    outputs: &[(Name, Form)],
) -> Fit
    ensures { result ≡ fit (shape_of A.meanings stored.now) args.now files.now outputs.now }
{
    A::shape_of(stored).accepts(args, files, outputs)
}

/// Whether the action writes files. Allocates no memory.
pub fn writes<A: Actions>(stored: &A::Stored) -> bool
    ensures { result ≡ is_some (shape_of A.meanings stored.now).out }
{
    A::shape_of(stored).out.is_some()
}

/// Whether the action can reply to changes alone. Allocates no memory.
pub fn incremental<A: Actions>(stored: &A::Stored) -> bool
    ensures { result ≡ (shape_of A.meanings stored.now).incremental }
{
    A::shape_of(stored).incremental
}
