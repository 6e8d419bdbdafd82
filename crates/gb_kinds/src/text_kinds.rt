//! The kinds that take a text and read no files.
ghost use Rattle.gb_action.specs.Replies.{Answers};
ghost use Rattle.gb_action.specs.Shapes.{IsAsked};
ghost use Rattle.gb_kinds.specs.Builtin.{builtin_shape, builtin_makes, builtin_prints};

use crate::arguments::{copied_first_text, first_text};
use crate::known_names::own_path;
use crate::one_file::one_file;
use crate::shapes::{FAIL, PRINT_LINE, WRITE_TEXT};
use gb_action::reply::{ActionFault, Lines, Removals, Reply, Writes};
use gb_action::request::Request;
use gb_core::bytes::Bytes;
use std::alloc::Global;

/// Prints the line.
pub fn print_line(alloc: Global, request: &Request) -> Result<Reply, ActionFault>
    requires { IsAsked (builtin_shape PRINT_LINE) request.now }
    ensures { Answers (builtin_makes PRINT_LINE) (builtin_prints PRINT_LINE) request.now result }
{
    let mut lines = Lines::new(alloc);
    lines.push(copied_first_text(alloc, &request.args)?)?;
    Ok(Reply {
        removes: Removals::new(alloc),
        writes: Writes::new(alloc),
        lines,
    })
}

/// Makes one file, the output itself, which contains the text.
pub fn write_text(alloc: Global, request: &Request) -> Result<Reply, ActionFault>
    requires { IsAsked (builtin_shape WRITE_TEXT) request.now }
    ensures { Answers (builtin_makes WRITE_TEXT) (builtin_prints WRITE_TEXT) request.now result }
{
    let text = first_text(&request.args);
    let bytes = Bytes::from_slice(alloc, text.as_bytes())?;
    Ok(one_file(alloc, own_path(alloc)?, bytes)?)
}

/// Fails with the line.
pub fn fail(alloc: Global, request: &Request) -> Result<Reply, ActionFault>
    requires { IsAsked (builtin_shape FAIL) request.now }
    ensures { Answers (builtin_makes FAIL) (builtin_prints FAIL) request.now result }
{
    let text = copied_first_text(alloc, &request.args)?;
    Err(ActionFault::ActionFailed(text))
}
