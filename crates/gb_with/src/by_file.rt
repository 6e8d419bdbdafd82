//! The implementation of `Actions` for a kind that makes a file from each file.
ghost use Rattle.std.specs.Prelude.{◌≡◌, ◌≤◌, ℕ};
ghost use Rattle.gb_action.specs.Meanings.{shape_of, makes_of, prints_of};
ghost use Rattle.gb_action.specs.Replies.{Answers};
ghost use Rattle.gb_action.specs.Shapes.{IsAsked};
ghost use Rattle.gb_kinds.specs.Builtin.{of_files, prints_changes};
ghost use Rattle.gb_with.specs.FileKinds.{makes_by_file, by_file-own};

use crate::file_kind::FileKind;
use crate::stored::{Call, OwnAction};
use gb_action::actions::Actions;
use gb_action::reply::{ActionFault, Reply};
use gb_action::request::Request;
use gb_action::shape::Shape;
use gb_kinds::by_file::reply_by_file;
use gb_kinds::shapes::of_files;
use std::alloc::{AllocError, Global};
use std::marker::PhantomData;

/// The one kind that makes a file from each file as `K` does. It is incremental in the changes of
/// `src`, and prints a line for each.
#[derive(Drop)]
pub struct ByFile<K>(PhantomData<K>);

impl<K: FileKind> Call for ByFile<K> {
    ghost shape = { of_files K.takes };

    fn shape(alloc: Global) -> Result<Shape, AllocError> {
        Ok(of_files(K::takes(alloc)?))
    }
}

impl<K: FileKind> Actions for ByFile<K> {
    type Stored = OwnAction<ByFile<K>>;

    ghost meanings = { record {
      kind = λ stored. 0;
      version = λ stored. stored;
      shape = λ kind. of_files K.takes;
      makes = λ kind. makes_by_file K.makes;
      prints = λ kind. prints_changes;
    } };

    ghost own_output = { λ kind. by_file-own K.makes };

    fn shape_of(stored: &OwnAction<ByFile<K>>) -> &Shape {
        stored.shape()
    }

    fn version(stored: &OwnAction<ByFile<K>>) -> u32 {
        stored.version()
    }

    fn run(
        stored: &OwnAction<ByFile<K>>,
        alloc: Global,
        request: &Request,
    ) -> Result<Reply, ActionFault> {
        let maker = K::of_call(alloc, &request.args)?;
        Ok(reply_by_file(alloc, request, &maker)?)
    }
}
