//! The maximum size of a file, and the maximum number of files in one tree.

/// The maximum number of bytes of a file.
pub const MAX_FILE: u64 = 8_388_608;

/// The maximum number of files in a tree of files: in that of one property, or of one output.
pub const MAX_FILES: usize = 65_536;
