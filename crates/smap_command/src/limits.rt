//! The numbers that a command may have.

/// The greatest line or column, from 0.
pub const LIMIT: u32 = 2147483647;

/// The greatest interval at which checkpoints may stand. The least is 1.
pub const MOST_INTERVAL: u32 = 4096;

/// The interval of the checkpoints where none is asked for.
pub const USUAL_INTERVAL: u32 = 64;

/// The most texts by which lines of frames may be dropped.
pub const MOST_HIDDEN: usize = 16;

/// The most lines that may be shown on each side of one.
pub const MOST_CONTEXT: u32 = 100;

/// The greatest number of bytes that may be kept, and that may be taken.
pub const MOST_OPTION_BYTES: u64 = 9223372036854775807;

/// How many bytes of files are kept as maps where nothing else is asked for.
pub const USUAL_CACHE_BYTES: u64 = 1073741824;

/// How many bytes of a text are taken where nothing else is asked for.
pub const USUAL_LIMIT_BYTES: u64 = 1073741824;
