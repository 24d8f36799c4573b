//! The order of generated positions: by line, then by column.

ghost use Rattle.std.specs.Prelude.{◌≡◌};
ghost use Rattle.smap_mappings.specs.Range.{at_position, stands_before};

/// A generated position, from 0. A line or a column may be past 2 ^ 32, where a section moves it.
#[derive(Clone, Copy)]
pub struct Position {
    pub line: u64,
    pub column: u64,
}

impl Position {
    /// Whether it stands before the other one, by line and then by column (ECMA-426, Mappings structure).
    #[inline(always)]
    pub fn is_before(&self, other: &Position) -> bool
        ensures { result ≡ stands_before (at_position self.now) (at_position other.now) }
    {
        self.line < other.line || (self.line == other.line && self.column < other.column)
    }
}
