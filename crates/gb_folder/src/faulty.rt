//! A folder whose device fails at a chosen call, to test how a build reacts.
ghost use Rattle.std.specs.Prelude.{◌≡◌, ◌≢◌, ◌≤◌, ℕ, List, Option, IsTrue, false};
ghost use Rattle.gb_folder.specs.Files.{HasRisen, SameTearing, file_at, with_left};

use super::folder::{Folder, FolderFault};
use gb_core::place::Place;
use std::alloc::Global;

/// How the device fails.
#[derive(Drop)]
pub enum FaultMode {
    /// At one call, which changes nothing.
    FailOnce,
    /// At that call and at all later ones.
    Stop,
    /// As `Stop`; if the first failing call is a write, it leaves these bytes, where the inner
    /// folder accepts them.
    StopTorn(Vec<u8>),
}

/// Which calls fail, and how many calls were made so far.
#[derive(Drop)]
pub struct FaultPlan {
    mode: FaultMode,
    /// The number of the first call that fails, counted from 1.
    at: u64,
    calls: u64,
    failed: u64,
}

impl FaultPlan {
    ghost use Rattle.gb_folder.specs.Faulty.{after_call, fails_next, failures_in_all};

    /// Counts a call, and returns whether it fails.
    fn fails(&mut self) -> bool
        ensures is { result ≡ fails_next self.old }
        ensures counted { self.new ≡ after_call self.old }
        ensures own { self.old.failed ≤ self.new.failed }
        ensures rose { IsTrue result → (inner : ℕ)
            → HasRisen (failures_in_all inner self.old.failed) (failures_in_all inner self.new.failed) }
    {
        self.calls = self.calls.saturating_add(1);
        let fails = match &self.mode {
            FaultMode::FailOnce => self.calls == self.at,
            FaultMode::Stop | FaultMode::StopTorn(_) => self.calls >= self.at,
        };
        if fails {
            self.failed = self.failed.saturating_add(1);
        }
        fails
    }
}

/// A folder over another, whose device fails as planned. Its contents are known where those of the
/// inner folder are.
#[derive(Drop)]
pub struct FaultyFolder<F> {
    inner: F,
    plan: FaultPlan,
}

impl<F: Folder + Drop> FaultyFolder<F> {
    ghost use Rattle.gb_folder.specs.Faulty.{may_leave_by, tears};

    /// The folder over `inner`, whose call `at` fails. Calls are counted from 1.
    pub fn new(inner: F, at: u64, mode: FaultMode) -> FaultyFolder<F>
        ensures inner { result.inner ≡ inner }
        ensures plan { result.plan ≡ record { mode = mode; at = at; calls = 0; failed = 0 } }
    {
        FaultyFolder {
            inner,
            plan: FaultPlan {
                mode,
                at,
                calls: 0,
                failed: 0,
            },
        }
    }

    /// The inner folder, as the calls left it.
    pub fn into_inner(self) -> F
        ensures { result ≡ self.inner }
    {
        self.inner
    }

    /// Leaves the given bytes at the place of a write if this is the first call that fails.
    fn tear(&mut self, place: &Place)
        ensures plan { self.new.plan ≡ self.old.plan }
        ensures whole { tears self.old.plan ≡ false → self.new.inner ≡ self.old.inner }
        ensures count { F.device.failures self.old.inner ≤ F.device.failures self.new.inner }
        ensures tearing { SameTearing (F.device.may_leave self.old.inner)
            (F.device.may_leave self.new.inner) }
        ensures back { F.device.faithful self.new.inner → F.device.faithful self.old.inner }
        ensures torn { F.device.faithful self.new.inner → (next : List ℕ)
            → let files = (F.device.contents self.old.inner).files in
            (left : Option (List ℕ))
            × may_leave_by self.old.plan.mode (F.device.may_leave self.old.inner) place.now
            (file_at files place.now) (Some next) left
            × (F.device.contents self.new.inner ≡ record (F.device.contents self.old.inner) {
              files = with_left files place.now left;
            }) }
    {
        if self.plan.calls != self.plan.at {
            return;
        }
        if let FaultMode::StopTorn(bytes) = &self.plan.mode {
            let _ = self.inner.write(place, bytes.as_slice(), u64::MAX);
        }
    }
}

impl<F: Folder + Drop> Folder for FaultyFolder<F> {
    ghost use Rattle.gb_folder.specs.Calls.{fault_of};
    ghost use Rattle.gb_folder.specs.Faulty.{CallOf, failures_in_all, may_leave_by};

    ghost device = { record {
      failures = λ f. failures_in_all (F.device.failures f.inner) f.plan.failed;
      may_leave = λ f. may_leave_by f.plan.mode (F.device.may_leave f.inner);
      allowed = λ old call new. CallOf old.plan (fault_of call) new.plan (new.inner ≡ old.inner)
          (F.device.allowed old.inner call new.inner);
      faithful = λ f. F.device.faithful f.inner;
      contents = λ f. F.device.contents f.inner;
    } };

    ghost sound = { λ f. F.sound f.inner };

    ghost placed = { λ f. F.placed f.inner };

    fn list(&mut self, alloc: Global, root: &Place) -> Result<Vec<Place>, FolderFault> {
        if self.plan.fails() {
            return Err(FolderFault::Device);
        }
        self.inner.list(alloc, root)
    }

    fn read(&mut self, alloc: Global, place: &Place, limit: u64) -> Result<Vec<u8>, FolderFault> {
        if self.plan.fails() {
            return Err(FolderFault::Device);
        }
        self.inner.read(alloc, place, limit)
    }

    fn read_part(
        &mut self,
        alloc: Global,
        place: &Place,
        at: u64,
        len: u64,
    ) -> Result<Vec<u8>, FolderFault> {
        if self.plan.fails() {
            return Err(FolderFault::Device);
        }
        self.inner.read_part(alloc, place, at, len)
    }

    fn write(&mut self, place: &Place, bytes: &[u8], limit: u64) -> Result<(), FolderFault> {
        if self.plan.fails() {
            self.tear(place);
            return Err(FolderFault::Device);
        }
        self.inner.write(place, bytes, limit)
    }

    fn remove(&mut self, place: &Place) -> Result<(), FolderFault> {
        if self.plan.fails() {
            return Err(FolderFault::Device);
        }
        self.inner.remove(place)
    }
}
