//! The implementations of `Actions` for kinds that work on all their files at once.
ghost use Rattle.std.specs.Prelude.{◌≡◌, ◌≤◌, ℕ};
ghost use Rattle.gb_action.specs.Meanings.{shape_of, makes_of, prints_of};
ghost use Rattle.gb_action.specs.Replies.{Answers};
ghost use Rattle.gb_action.specs.Shapes.{IsAsked};
ghost use Rattle.gb_kinds.specs.Builtin.{of_files};
ghost use Rattle.gb_with.specs.TreeKinds.{of_checks, nothing, makes_of_trees, makes_nothing, prints_nothing};
ghost use Rattle.gb_with.specs.TreeKinds.{of_trees-own, nothing_made-own};

use crate::remaking::reply_recheck;
use crate::stored::{Call, OwnAction};
use crate::tree_kind::{CheckKind, TreeKind};
use gb_action::actions::Actions;
use gb_action::reply::{ActionFault, Lines, Removals, Reply, Writes};
use gb_action::request::Request;
use gb_action::shape::{ArgList, Shape};
use gb_kinds::shapes::of_files;
use std::alloc::{AllocError, Global};
use std::marker::PhantomData;

/// The one kind that makes files from all files as `K` does. Given changes it writes those that the
/// output does not have already, and removes those that it no longer makes.
#[derive(Drop)]
pub struct OfTrees<K>(PhantomData<K>);

/// The one kind that fails with the text that `K` finds.
#[derive(Drop)]
pub struct Checks<K>(PhantomData<K>);

/// The signature of a kind that reads files, and makes none.
fn of_checks(args: ArgList) -> Shape
    ensures { result ≡ of_checks args }
{
    Shape {
        args,
        src: true,
        out: None,
        incremental: false,
    }
}

/// The reply that does nothing.
fn nothing(alloc: Global) -> Reply
    ensures { result ≡ nothing }
{
    Reply {
        removes: Removals::new(alloc),
        writes: Writes::new(alloc),
        lines: Lines::new(alloc),
    }
}

impl<K: TreeKind> Call for OfTrees<K> {
    ghost shape = { of_files K.takes };

    fn shape(alloc: Global) -> Result<Shape, AllocError> {
        Ok(of_files(K::takes(alloc)?))
    }
}

impl<K: TreeKind> Actions for OfTrees<K> {
    type Stored = OwnAction<OfTrees<K>>;

    ghost meanings = { record {
      kind = λ stored. 0;
      version = λ stored. stored;
      shape = λ kind. of_files K.takes;
      makes = λ kind. makes_of_trees K.makes;
      prints = λ kind. prints_nothing;
    } };

    ghost own_output = { λ kind. of_trees-own K.makes };

    fn shape_of(stored: &OwnAction<OfTrees<K>>) -> &Shape {
        stored.shape()
    }

    fn version(stored: &OwnAction<OfTrees<K>>) -> u32 {
        stored.version()
    }

    fn run(
        stored: &OwnAction<OfTrees<K>>,
        alloc: Global,
        request: &Request,
    ) -> Result<Reply, ActionFault> {
        match K::make(alloc, &request.args, &request.files) {
            Ok(files) => Ok(reply_recheck(alloc, request, files, Lines::new(alloc))?),
            Err(fault) => Err(fault),
        }
    }
}

impl<K: CheckKind> Call for Checks<K> {
    ghost shape = { of_checks K.takes };

    fn shape(alloc: Global) -> Result<Shape, AllocError> {
        Ok(of_checks(K::takes(alloc)?))
    }
}

impl<K: CheckKind> Actions for Checks<K> {
    type Stored = OwnAction<Checks<K>>;

    ghost meanings = { record {
      kind = λ stored. 0;
      version = λ stored. stored;
      shape = λ kind. of_checks K.takes;
      makes = λ kind. makes_nothing K.finds;
      prints = λ kind. prints_nothing;
    } };

    ghost own_output = { λ kind. nothing_made-own K.finds };

    fn shape_of(stored: &OwnAction<Checks<K>>) -> &Shape {
        stored.shape()
    }

    fn version(stored: &OwnAction<Checks<K>>) -> u32 {
        stored.version()
    }

    fn run(
        stored: &OwnAction<Checks<K>>,
        alloc: Global,
        request: &Request,
    ) -> Result<Reply, ActionFault> {
        match K::find(alloc, &request.args, &request.files)? {
            None => Ok(nothing(alloc)),
            Some(text) => Err(ActionFault::ActionFailed(text)),
        }
    }
}
