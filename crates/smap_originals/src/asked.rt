//! What is asked: an original place, and on which side of it an original column is looked for.
ghost use Rattle.std.specs.Prelude.{◌≡◌};
ghost use Rattle.smap_originals.specs.Generated.{is_nearer, is_on_side};

/// Whether the greatest original column that is not after the asked one is looked for, or the least that is not before it.
#[derive(Clone, Copy)]
pub enum OriginalDirection {
    AtOrBefore,
    AtOrAfter,
}

impl OriginalDirection {
    // Whether an original column is on the asked side of a column.
    pub(crate) fn has(self, asked: u32, column: u32) -> bool
        ensures { result ≡ is_on_side self asked column }
    {
        match self {
            OriginalDirection::AtOrBefore => column <= asked,
            OriginalDirection::AtOrAfter => asked <= column,
        }
    }

    // Whether the first of two original columns on that side is nearer.
    pub(crate) fn is_nearer(self, a: u32, b: u32) -> bool
        ensures { result ≡ is_nearer self a b }
    {
        match self {
            OriginalDirection::AtOrBefore => b < a,
            OriginalDirection::AtOrAfter => a < b,
        }
    }
}

/// An original place, from 0, its column in UTF-16 code units, and the direction in which it is looked for.
#[derive(Clone, Copy)]
pub struct Asked {
    pub source: u32,
    pub line: u32,
    pub column: u32,
    pub direction: OriginalDirection,
}
