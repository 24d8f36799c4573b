//! A place in a text with all running values there.
ghost use Rattle.std.specs.Prelude.{◌≡◌};
ghost use Rattle.smap_mappings.specs.State.{origin_at, mapping_at};

use crate::kind::Kind;
use crate::mapping::{Mapping, Origin};

/// A place between two segments of a text, in bytes from 0, the generated line at that place, from 0, and the
/// running values there (ECMA-426, Mappings structure): the generated column is that on this line, and the others
/// are those of the last segment that has them, or 0. Columns count in UTF-16 code units.
#[derive(Clone, Copy)]
pub struct Cursor {
    pub place: usize,
    pub line: u32,
    pub column: u32,
    pub source: u32,
    pub original_line: u32,
    pub original_column: u32,
    pub name: u32,
}

impl Cursor {
    /// The place before the first segment.
    pub const START: Cursor = Cursor {
        place: 0,
        line: 0,
        column: 0,
        source: 0,
        original_line: 0,
        original_column: 0,
        name: 0,
    };

    /// The mapping of a segment that has this much, where these are the place and the values after it.
    #[inline(always)]
    pub fn mapping(&self, kind: Kind) -> Mapping
        ensures { result ≡ mapping_at kind self.now }
    {
        Mapping {
            line: self.line,
            column: self.column,
            origin: match kind {
                Kind::Unmapped => None,
                Kind::Mapped => Some(self.origin(None)),
                Kind::Named => Some(self.origin(Some(self.name))),
            },
        }
    }

    // The origin of these values, with this name.
    #[inline(always)]
    fn origin(&self, name: Option<u32>) -> Origin
        ensures { result ≡ origin_at self.now name }
    {
        Origin {
            source: self.source,
            line: self.original_line,
            column: self.original_column,
            name,
        }
    }
}
