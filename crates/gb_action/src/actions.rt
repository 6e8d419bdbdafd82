//! The naming trait of actions.
ghost use Rattle.std.specs.Prelude.{◌≡◌, ◌≤◌};
ghost use Rattle.std.specs.Prelude.{ℕ};
ghost use Rattle.gb_action.specs.Meanings.{Meanings, WritesItsOutput, shape_of, makes_of, prints_of};
ghost use Rattle.gb_action.specs.Replies.{Answers};
ghost use Rattle.gb_action.specs.Shapes.{IsAsked};

use crate::reply::{ActionFault, Reply};
use crate::request::Request;
use crate::shape::Shape;
use std::alloc::Global;

/// The stored actions of a program, and the meaning of each of their kinds.
pub trait Actions {
    /// One action: its kind, and a closure if the kind does not have the code itself.
    type Stored: Drop;

    /// What each kind takes, makes and prints, and the kind and version of each stored action.
    ghost meanings: { Meanings Self.Stored };

    /// Each kind writes only files of its own output.
    ghost own_output: { (kind : ℕ) → WritesItsOutput meanings kind };

    /// The shape that a call of the action must have.
    fn shape_of(stored: &Self::Stored) -> &Shape
        ensures { result.now ≡ shape_of meanings stored.now };

    /// The version of its kind, at least 1: it rises when a kind starts to make something else.
    fn version(stored: &Self::Stored) -> u32
        ensures value { result ≡ meanings.version stored.now }
        ensures positive { 1 ≤ result };

    /// Runs the action on a request.
    fn run(stored: &Self::Stored, alloc: Global, request: &Request) -> Result<Reply, ActionFault>
        requires { IsAsked (shape_of meanings stored.now) request.now }
        ensures { Answers (makes_of meanings stored.now) (prints_of meanings stored.now) request.now result };
}
