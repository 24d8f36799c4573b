//! What a segment has.

/// What a segment has (ECMA-426, Mappings structure): a generated position alone, which is one field, an origin too,
/// which are four, or an origin with a name, which are five.
#[derive(Clone, Copy)]
pub enum Kind {
    Unmapped,
    Mapped,
    Named,
}
