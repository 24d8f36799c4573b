//! How many lines a text has.

/// How many lines a text has: those that an LF ends, and a rest that is not empty.
#[derive(Clone, Copy)]
pub struct LineCounts {
    /// All of them.
    pub lines: u64,
    /// Those of more than 65,536 bytes, the LF aside, which are not edited.
    pub long: u64,
}
