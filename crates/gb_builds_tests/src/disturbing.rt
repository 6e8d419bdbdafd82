//! A folder in which somebody else writes before each call.
use gb_core::place::Place;
use gb_folder::folder::{Folder, FolderFault};
use gb_folder::memory::MemoryFolder;
use std::alloc::Global;
use std::test::Fail;

/// A folder whose contents are not known. The file at one place is another one at each call: `A`
/// at the first one, `B` at the second one, and so on.
#[derive(Drop)]
pub struct Disturbed {
    inner: MemoryFolder,
    place: Place,
    calls: u8,
}

impl Disturbed {
    /// The folder over `inner`, in which the file at the place changes.
    pub fn new(alloc: Global, inner: MemoryFolder, place: &str) -> Result<Disturbed, Fail> {
        Ok(Disturbed {
            inner,
            place: Place::read(alloc, place)?,
            calls: 0,
        })
    }

    fn disturb(&mut self) {
        let bytes = [b'A'.wrapping_add(self.calls)];
        self.calls = self.calls.wrapping_add(1);
        let _ = self.inner.write(&self.place, &bytes, 1);
    }
}

impl Folder for Disturbed {
    ghost use Rattle.std.specs.Prelude.{[], refl, ⊤};

    ghost device = { record {
      failures = λ _. 0;
      may_leave = λ _ _ _ _ _. ⊤;
      allowed = λ _ _ _. ⊤;
      faithful = λ _. ⊥;
      contents = λ _. record { files = []; special = [] };
    } };

    ghost sound = { λ _. record { in_order = refl; none_blocked = refl } };

    ghost placed = { λ _. refl };

    fn list(&mut self, alloc: Global, root: &Place) -> Result<Vec<Place>, FolderFault> {
        self.disturb();
        self.inner.list(alloc, root)
    }

    fn read(&mut self, alloc: Global, place: &Place, limit: u64) -> Result<Vec<u8>, FolderFault> {
        self.disturb();
        self.inner.read(alloc, place, limit)
    }

    fn read_part(
        &mut self,
        alloc: Global,
        place: &Place,
        at: u64,
        len: u64,
    ) -> Result<Vec<u8>, FolderFault> {
        self.disturb();
        self.inner.read_part(alloc, place, at, len)
    }

    fn write(&mut self, place: &Place, bytes: &[u8], limit: u64) -> Result<(), FolderFault> {
        self.disturb();
        self.inner.write(place, bytes, limit)
    }

    fn remove(&mut self, place: &Place) -> Result<(), FolderFault> {
        self.disturb();
        self.inner.remove(place)
    }
}
