//! A mapping and its origin.

/// Where a mapping comes from (ECMA-426, Mappings structure). Source index, line, column and name index count
/// from 0. Columns count in UTF-16 code units.
#[derive(Clone, Copy, Debug, PartialEq, Eq)]
pub struct Origin {
    pub source: u32,
    pub line: u32,
    pub column: u32,
    pub name: Option<u32>,
}

/// A generated position and its origin, if it has one (ECMA-426, Mappings structure). Lines and columns count
/// from 0, columns in UTF-16 code units. The mapping of a segment of one field has no origin.
#[derive(Clone, Copy, Debug, PartialEq, Eq)]
pub struct Mapping {
    pub line: u32,
    pub column: u32,
    pub origin: Option<Origin>,
}
