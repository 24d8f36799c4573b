//! A generated position, as it is printed.

/// A generated line and column as they are asked for: both from 1 to 2147483648, the column in UTF-16 code units.
#[derive(Clone, Copy, Debug, PartialEq, Eq)]
pub struct PrintedPosition {
    pub line: u32,
    pub column: u32,
}
