//! Which bytes of a file are read.
ghost use Rattle.std.specs.Prelude.{◌≡◌, ◌≢◌, ◌≤◌, ◌-◌, min, IsTrue};

/// No file has more bytes.
const LONGEST_FILE: u64 = i64::MAX as u64;

/// The buffer size for a file that reports no bytes: some files of the system return all their
/// bytes in one read.
const FIRST_ROOM: u64 = 4_096;

/// A span of a file: the bytes from `at` on, `most` of them, or fewer where the file ends, but no
/// fewer than `least`.
#[derive(Clone, Copy)]
pub(crate) struct Span {
    /// The first byte, counted from 0.
    pub at: u64,
    /// The minimum number of bytes: fewer are a failure of the device.
    pub least: u64,
    /// The maximum number of bytes.
    pub most: u64,
}

impl Span {
    /// The span of a file of `reported` bytes: those from `at` on, `len` at most. The system reports no
    /// bytes for some files that do have bytes, as it generates them when they are read.
    pub fn of(reported: u64, at: u64, len: u64) -> Span
        ensures within { result.most ≤ len }
        ensures reported { reported ≢ 0 → (result.most ≡ min (reported - at) len)
            × (result.least ≡ result.most) }
    {
        let end = if reported == 0 {
            LONGEST_FILE
        } else {
            reported
        };
        let most = end.saturating_sub(at).min(len);
        let least = if reported == 0 { 0 } else { most };
        Span { at, least, most }
    }

    /// The buffer size for its bytes and for one more, as `read_to_end` grows a full buffer.
    pub fn room(&self) -> usize {
        let bytes = if self.least == 0 {
            self.most.min(FIRST_ROOM)
        } else {
            self.most
        };
        bytes.saturating_add(1) as usize
    }

    /// Whether the span can have this many bytes.
    pub fn takes(&self, len: u64) -> bool
        ensures least { IsTrue result → self.now.least ≤ len }
        ensures most { IsTrue result → len ≤ self.now.most }
    {
        self.least <= len && len <= self.most
    }
}
