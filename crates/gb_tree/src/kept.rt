//! Files as they were read once. Their bytes are kept where there is room.
ghost use Rattle.std.specs.Prelude.{◌≡◌, ◌↔◌, [], map, IsTrue, IfOk, IfErr};
ghost use Rattle.std.specs.List.{AllByRecursion};
ghost use Rattle.gb_folder.specs.Calls.{OnlyReads, Requests, no_change};
ghost use Rattle.gb_tree.specs.Tree.{Blames, contents_at, is_among};
ghost use Rattle.gb_tree.specs.Prints.{digests_of};

use crate::completing::complete_all;
use crate::fault::TreeFault;
use crate::prints::Prints;
use gb_action::snapshot::Snapshot;
use gb_core::bytes::Bytes;
use gb_core::name::Name;
use gb_core::place::{Place, RelPath};
use gb_folder::folder::Folder;
use std::alloc::{AllocError, Global};
use std::marker::Model;

/// A file as it was read.
#[derive(Drop)]
pub struct ScannedFile {
    /// Its path in the tree.
    pub path: RelPath,
    /// Where it is.
    pub place: Place,
    /// The digest (SHA-256) of its bytes.
    pub digest: [u8; 32],
    /// Its bytes, where they are kept.
    pub kept: Option<Bytes>,
}

/// The files of a property or an output as they were read, with its name.
#[derive(Drop)]
pub struct Reading {
    name: Name,
    /// Strictly in the byte order of the paths.
    files: Vec<ScannedFile>,
}

impl Model for Reading {
    ghost use Rattle.std.specs.Prelude.{List, ℕ};
    ghost use Rattle.gb_tree.specs.declared.kept.ScannedFile.{ScannedFile};
    ghost use Rattle.gb_tree.specs.Reading.{IsReading};

    ghost Value = { List ℕ × List ScannedFile };

    ghost view = { λ r. (r.name, r.files.items) };

    ghost invariant = { λ r. IsReading r.files.items };
}

impl Reading {
    ghost use Rattle.gb_tree.specs.Answered.{IsTreeFaultBetween, IsTreeRead, WereObserved};
    ghost use Rattle.gb_tree.specs.Reading.{IsReading, IsObservedIn, digests_observed, entries_observed};

    pub(crate) fn new(name: Name, files: Vec<ScannedFile>) -> Reading
        requires { IsReading files.items }
        ensures { result ≡ (name, files.items) }
    {
        Reading { name, files }
    }

    /// The name of the file property or output that was read.
    pub fn name(&self) -> &Name
        ensures { result.now ≡ self.now.0 }
    {
        &self.name
    }

    /// Whether no file was found.
    pub fn is_empty(&self) -> bool
        ensures { IsTrue result ↔ (self.now.1 ≡ []) }
    {
        self.files.is_empty()
    }

    /// The files as they were read.
    pub(crate) fn into_files(self) -> Vec<ScannedFile>
        ensures { result.items ≡ self.1 }
    {
        self.files
    }

    /// The digests that were taken as the files were read.
    pub fn prints(&self, alloc: Global) -> Result<Prints, AllocError>
        ensures { IfOk result (λ prints. prints ≡ (self.now.0, digests_observed self.now.1)) }
    {
        let mut digests = Vec::with_capacity(alloc, self.files.len())?;
        for observed in self.files.iter() {
            digests.push((observed.path.copy()?, observed.digest))?;
        }
        Ok(Prints::new(self.name.copy()?, digests))
    }

    /// The files with their bytes, and the digests of these very bytes. Bytes that were kept are
    /// passed on; the other files are read whole and digested again, since a file may have changed.
    pub fn completed<F: Folder>(
        self,
        alloc: Global,
        folder: &mut F,
    ) -> Result<(Snapshot, Prints), TreeFault>
        ensures reads { OnlyReads F.device folder.old folder.new }
        ensures blame { Blames (λ at. IsTrue (is_among (entries_observed self.1) at))
            (F.device.failures folder.old) (F.device.failures folder.new) result }
        ensures named { IfOk result (λ made. made.0.0 ≡ self.0) }
        ensures prints { IfOk result (λ made. made.1 ≡ (self.0, digests_of made.0.1)) }
        ensures paths { IfOk result
            (λ made. map (λ file. file.0) made.0.1 ≡ map (λ file. file.path) self.1) }
        // Over any folder: what calls returned before, and what calls return now for the rest.
        ensures answered { (first : _) → Requests F.device no_change first folder.old
            → WereObserved F.device first folder.old self.1
            → IfOk result (λ made. IsTreeRead F.device first folder.new
            (entries_observed self.1) made.0.1) }
        ensures tree { F.device.faithful folder.new
            → AllByRecursion (IsObservedIn (F.device.contents folder.old).files) self.1
            → IfOk result
            (λ made. made.0.1 ≡ contents_at (F.device.contents folder.old).files (entries_observed self.1)) }
        ensures err { F.device.faithful folder.new
            → AllByRecursion (IsObservedIn (F.device.contents folder.old).files) self.1
            → IfErr result (IsTreeFaultBetween F.device folder.old folder.new) }
    {
        let Reading { name, files } = self;
        let (files, digests) = complete_all(alloc, folder, files)?;
        Ok((
            Snapshot::new(name.copy()?, files),
            Prints::new(name, digests),
        ))
    }
}
