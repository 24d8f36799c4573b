//! Where a rewriting stops, and why it takes no bytes.

/// Where a rewriting stops.
#[derive(Clone, Copy, Debug, PartialEq, Eq)]
pub enum Stop {
    /// All is done that can be decided of what was given.
    Done,
    /// What map a URL has is not known.
    Wanted,
    /// More would be written than may be.
    Full,
}

/// Why bytes are not taken.
#[derive(Clone, Copy, Debug, PartialEq, Eq)]
pub enum GiveFault {
    /// The text has more bytes than are taken.
    TooMuch,
    /// There was not enough memory.
    Memory,
}
