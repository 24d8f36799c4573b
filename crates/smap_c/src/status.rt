//! What the calls return.

/// What was asked is done.
pub(crate) const DONE: u32 = 0;
/// What was given is refused, or there is nothing of this number.
pub(crate) const REFUSED: u32 = 1;
/// What map a URL has is not known, and is to be put.
pub(crate) const WANTED: u32 = 2;
/// There is not enough memory.
pub(crate) const NO_MEMORY: u32 = 3;
