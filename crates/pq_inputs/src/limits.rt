//! The limits of the inputs.

/// The greatest length of the text of a file, in bytes.
pub const MAX_TEXT: usize = 1_048_576;

/// The number of files that can be set, each counted once, where no other limit was given.
pub const MAX_FILES: usize = 4_096;

/// The greatest limit that can be given to the number of files.
pub const MOST_FILES: usize = 65_536;

/// The last revision, at which no change is accepted.
pub const LAST_REVISION: u64 = 18_446_744_073_709_551_615;
