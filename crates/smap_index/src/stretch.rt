//! A stretch of the table of checkpoints.

// The checkpoints of number `low` and the next, up to the one of number `high`, which is none of them. All count from 0.
#[derive(Clone, Copy)]
pub struct Stretch {
    pub low: usize,
    pub high: usize,
}
