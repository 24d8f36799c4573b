//! The bound of a search: a position, and whether the mappings at it are before the bound or after it.

ghost use Rattle.std.specs.Prelude.{◌≡◌, ◌+◌, ◌*◌, ◌^◌};
ghost use Rattle.smap_index.specs.Private.Search.{bound_on, end_of, is_up_to};

use smap_mappings::Mapping;

// Which mappings stand up to a bound: those before its position, or those at it too.
#[derive(Clone, Copy)]
pub enum Side {
    Before,
    Through,
}

// Where a search ends: next to the position of this line and column, on either side of it.
#[derive(Clone, Copy)]
pub struct Bound {
    pub line: u32,
    pub column: u32,
    pub side: Side,
}

impl Bound {
    // The bound on this side of a position.
    #[inline(always)]
    pub fn new(line: u32, column: u32, side: Side) -> Bound
        ensures { result ≡ record { line = line; column = column; side = side } }
    {
        Bound { line, column, side }
    }

    // The bound on a line: the end of one before its own, and else itself.
    #[inline(always)]
    pub fn on(&self, line: u32) -> Bound
        ensures { result ≡ bound_on line self.now }
    {
        if line < self.line {
            Bound::new(line, u32::MAX, Side::Through)
        } else {
            *self
        }
    }

    // Whether the mapping stands up to the bound.
    #[inline(always)]
    pub fn reaches(&self, mapping: &Mapping) -> bool
        ensures { result ≡ is_up_to self.now mapping.now }
    {
        let end = place_of(self.line, self.column);
        let there = place_of(mapping.line, mapping.column);
        match self.side {
            Side::Before => there < end,
            Side::Through => there <= end,
        }
    }

    // The column on the bound's line before which a mapping stands up to the bound.
    #[inline(always)]
    pub fn end(&self) -> u64
        ensures { result ≡ end_of self.now }
    {
        match self.side {
            Side::Before => self.column as u64,
            Side::Through => self.column as u64 + 1,
        }
    }
}

// A line and a column as one number: of two positions the one that stands before the other has the lower, so that one
// comparison does for both.
#[inline(always)]
fn place_of(line: u32, column: u32) -> u64
    ensures { result ≡ line * 2 ^ 32 + column }
{
    line as u64 * 4_294_967_296 + column as u64
}
