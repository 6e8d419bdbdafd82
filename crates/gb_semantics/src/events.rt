//! What happens to a folder: edits and invocations, and the result of each.
ghost use Rattle.std.specs.Prelude.{◌≡◌};

use gb_core::bytes::Bytes;
use gb_core::name::Name;
use gb_core::place::Place;
use gb_core::row::Row;
use gb_core::text::{Text, Texts};
use gb_report::fault::Fault;
use gb_report::report::{Options, Report};

/// The values of properties that an invocation gives, by name, as they were passed.
pub type Properties = Row<(Name, Text)>;

/// What a build is invoked with.
#[derive(Drop)]
pub struct Invocation {
    /// The tasks that are requested; where none is, the default tasks run.
    pub requested: Texts,
    /// The tasks of `-x`, which are left out.
    pub excluded: Texts,
    /// The values of `-P`.
    pub properties: Properties,
    /// How the build runs.
    pub options: Options,
}

/// What happens to a folder of builds.
#[derive(Drop)]
pub enum Event {
    /// A file is written, in place of one that exists there.
    Put(Place, Bytes),
    /// A file is removed.
    Remove(Place),
    /// All that the tool keeps for itself, at and under `.gb`, is lost.
    Lost,
    /// A build.
    Invoke(Invocation),
}

/// The result of an event.
#[derive(Drop)]
pub enum Answer {
    /// The edit or the loss was made.
    Edited,
    /// An edit or a loss was refused. A refused `Put` or `Remove` changed nothing, unless the
    /// device failed in it; a refused `Lost` may have removed a part of the files in `.gb`.
    Refused(Fault),
    /// The build ran; a task of it may have failed.
    Built(Report),
    /// A build was refused before its first task, and nothing changed.
    NotBuilt(Fault),
}
