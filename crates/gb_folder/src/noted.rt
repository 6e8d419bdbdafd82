//! A folder over another one that records the requested changes, to observe what a build does.
ghost use Rattle.std.specs.Prelude.{◌≡◌, [], IfOk};

use super::folder::{Folder, FolderFault};
use gb_core::bytes::Bytes;
use gb_core::place::Place;
use std::alloc::{AllocError, Global};

/// A requested change, whatever the answer was.
#[derive(Drop)]
pub struct Note {
    /// The place of the change.
    pub place: Place,
    /// The bytes to be written there; none for a removal.
    pub next: Option<Bytes>,
}

/// Records each write and each removal before it passes the call on. If there is no memory for the
/// note, the call is not made. Its contents are known where those of the inner folder are.
#[derive(Drop)]
pub struct NotedFolder<F> {
    alloc: Global,
    inner: F,
    notes: Vec<Note>,
}

impl<F: Folder + Drop> NotedFolder<F> {
    /// The folder over `inner`, without notes yet.
    pub fn new(alloc: Global, inner: F) -> NotedFolder<F>
        ensures inner { result.inner ≡ inner }
        ensures notes { result.notes.items ≡ [] }
    {
        NotedFolder {
            alloc,
            inner,
            notes: Vec::new(alloc),
        }
    }

    /// The changes requested so far, in order.
    pub fn notes(&self) -> &[Note]
        ensures { result.now ≡ self.now.notes.items }
    {
        self.notes.as_slice()
    }

    /// The inner folder.
    pub fn into_inner(self) -> F
        ensures { result ≡ self.inner }
    {
        self.inner
    }
}

/// The note of a change.
fn note_of(place: &Place, next: Option<Bytes>) -> Result<Note, AllocError>
    ensures { IfOk result (λ note. note ≡ record { place = place.now; next = next }) }
{
    Ok(Note {
        place: place.copy()?,
        next,
    })
}

impl<F: Folder + Drop> Folder for NotedFolder<F> {
    ghost use Rattle.gb_folder.specs.Noted.{IsNoted};

    ghost device = { record {
      failures = λ f. F.device.failures f.inner;
      may_leave = λ f. F.device.may_leave f.inner;
      allowed = λ old call new. IsNoted call old.notes.items new.notes.items (new.inner ≡ old.inner)
          (F.device.allowed old.inner call new.inner);
      faithful = λ f. F.device.faithful f.inner;
      contents = λ f. F.device.contents f.inner;
    } };

    ghost sound = { λ f. F.sound f.inner };

    ghost placed = { λ f. F.placed f.inner };

    fn list(&mut self, alloc: Global, root: &Place) -> Result<Vec<Place>, FolderFault> {
        self.inner.list(alloc, root)
    }

    fn read(&mut self, alloc: Global, place: &Place, limit: u64) -> Result<Vec<u8>, FolderFault> {
        self.inner.read(alloc, place, limit)
    }

    fn read_part(
        &mut self,
        alloc: Global,
        place: &Place,
        at: u64,
        len: u64,
    ) -> Result<Vec<u8>, FolderFault> {
        self.inner.read_part(alloc, place, at, len)
    }

    fn write(&mut self, place: &Place, bytes: &[u8], limit: u64) -> Result<(), FolderFault> {
        let note = note_of(place, Some(Bytes::from_slice(self.alloc, bytes)?))?;
        self.notes.push(note)?;
        self.inner.write(place, bytes, limit)
    }

    fn remove(&mut self, place: &Place) -> Result<(), FolderFault> {
        let note = note_of(place, None)?;
        self.notes.push(note)?;
        self.inner.remove(place)
    }
}
