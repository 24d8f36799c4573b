//! The limits of a text and of its numbers.

/// The greatest line, column or index, and the greatest magnitude of a difference.
pub const LIMIT: u32 = 2147483647;

/// How many indices there are, from 0 to the limit: as many sources, or names, as indices can name.
pub const MOST_INDICES: u32 = LIMIT + 1;

/// How many digits a number has at most.
pub const MOST_DIGITS: usize = 7;

/// How many digits a segment has at most, which has five numbers.
pub const MOST_SEGMENT_DIGITS: usize = 5 * MOST_DIGITS;

/// How many bytes a text has at most, which is 64 MiB.
pub const MOST_MAPPINGS_BYTES: usize = 67108864;
