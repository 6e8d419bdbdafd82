//! The outputs of a task, as an action receives them.
ghost use Rattle.std.specs.Prelude.{◌≡◌, [], ◌∷◌, ◌++◌, OnOk, OnErr};
ghost use Rattle.std.specs.Option.{option_copied};
ghost use Rattle.gb_action.specs.Shapes.{is_form};

use crate::files::Files;
use gb_core::bytes::Bytes;
use gb_core::name::Name;
use gb_core::place::RelPath;
use std::alloc::{AllocError, Global};
use std::marker::Model;

/// Whether an output is one file or all files under a place.
#[derive(Clone, Copy, PartialEq, Eq)]
pub enum Form {
    /// One file, at the output's own place.
    File,
    /// All files under the output's place.
    Dir,
}

impl Form {
    /// Whether the two are the same.
    pub fn is(self, other: Form) -> bool
        ensures { result ≡ is_form self other }
    {
        matches!(
            (self, other),
            (Form::File, Form::File) | (Form::Dir, Form::Dir)
        )
    }
}

/// An output with the files that exist there, by their paths from its place. The files have
/// contents in an incremental request only; in a full one there are none.
#[derive(Drop)]
pub struct OutputFiles {
    /// Its name in the task, as `out`.
    pub name: Name,
    /// One file, or all files under its place.
    pub form: Form,
    /// The files that exist there, by path from its place: the empty path for one file.
    pub files: Files,
}

/// The outputs of a task, in the order of their names.
#[derive(Drop)]
pub struct OutputSnapshots {
    outputs: Vec<OutputFiles>,
}

impl Model for OutputSnapshots {
    ghost use Rattle.std.specs.Prelude.{List};
    ghost use Rattle.gb_action.specs.declared.output_files.OutputFiles.{OutputFiles};

    ghost Value = { List OutputFiles };

    ghost view = { λ o. o.outputs.items };
}

impl OutputSnapshots {
    ghost use Rattle.gb_action.specs.Outputs.{files_of, exists_at};

    /// No output yet.
    pub fn new(alloc: Global) -> OutputSnapshots
        ensures { result ≡ [] }
    {
        OutputSnapshots {
            outputs: Vec::new(alloc),
        }
    }

    /// Adds an output after the others.
    pub fn push(&mut self, output: OutputFiles) -> Result<(), AllocError>
        ensures ok { OnOk result (self.new ≡ self.old ++ output ∷ []) }
        ensures err { OnErr result (self.new ≡ self.old) }
    {
        self.outputs.push(output)?;
        Ok(())
    }

    /// The files of the first output of the name.
    pub fn get(&self, name: &Name) -> Option<&Files>
        ensures { option_copied result ≡ files_of self.now name.now }
    {
        for output in self.outputs.iter() {
            if output.name == *name {
                return Some(&output.files);
            }
        }
        None
    }

    /// The bytes at a path of an output.
    pub fn file_at(&self, output: &Name, path: &RelPath) -> Option<&Bytes>
        ensures { option_copied result ≡ exists_at self.now output.now path.now }
    {
        let files = self.get(output)?;
        files.get(path)
    }

    /// The outputs in the order of their names.
    pub fn as_slice(&self) -> &[OutputFiles]
        ensures { result.now ≡ self.now }
    {
        self.outputs.as_slice()
    }
}
