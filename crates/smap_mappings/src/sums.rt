//! Running values that may be out of range.

/// The running values after a segment (ECMA-426, Mappings structure), before it is known whether they are in range: from
/// 0 to 2147483647, and the indices below the numbers of sources and names. The generated column is that on the
/// segment's line. Lines, columns and indices count from 0, columns in UTF-16 code units.
#[derive(Clone, Copy)]
pub struct RunningSums {
    pub column: i64,
    pub source: i64,
    pub original_line: i64,
    pub original_column: i64,
    pub name: i64,
}
