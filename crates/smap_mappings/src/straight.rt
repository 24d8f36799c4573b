//! The straight way over a segment that stands far enough before the text's end: nothing is asked of that end, and each
//! difference is added as it is read.
ghost use Rattle.std.specs.Prelude.{◌≡◌, ◌+◌, ◌<◌, ◌≤◌, length, slice_index, IfSome, IfNone, IsTrue, true, false};
ghost use Rattle.smap_mappings.specs.Limits.{most_digits, most_text_bytes};
ghost use Rattle.smap_mappings.specs.Segment.{has_known_length};
ghost use Rattle.smap_mappings.specs.Segments.{is_comma};
ghost use Rattle.smap_mappings.specs.Private.Reading.{HasNoField, known_fields};
ghost use Rattle.smap_mappings.specs.Private.Straight.{most_segment_digits, IsMoved, IsMovedBy, IsReadAfter, is_fitting, are_listed, is_name_listed};

use crate::cursor::Cursor;
use crate::kind::Kind;
use crate::limits::{LIMIT, MOST_SEGMENT_DIGITS};
use crate::segment::{is_at_inner_end, read_inner_field};

// A segment that was read: what it has, its first field, and the state after it, of whose values it is not known yet
// whether they are in range.
#[derive(Clone, Copy)]
pub struct StraightSegment {
    pub kind: Kind,
    pub first: i32,
    pub after: Cursor,
}

// Whether the longest segment would end before the text does, if one began at this place.
#[inline(always)]
pub fn has_room_for_segment(bytes: &[u8], place: usize) -> bool
    requires short { length bytes.now ≤ most_text_bytes }
    requires inside { place ≤ length bytes.now }
    ensures { IsTrue result → place + most_segment_digits < length bytes.now }
{
    place + MOST_SEGMENT_DIGITS < bytes.len()
}

// Whether a `,` stands at this place, with room after it.
#[inline(always)]
pub fn is_joined(bytes: &[u8], place: usize) -> bool
    requires short { length bytes.now ≤ most_text_bytes }
    requires inside { place ≤ length bytes.now }
    ensures room { IsTrue result → place + 1 + most_segment_digits < length bytes.now }
    ensures comma { IsTrue result → is_comma (slice_index bytes.now place) ≡ true }
{
    place + 1 + MOST_SEGMENT_DIGITS < bytes.len() && bytes[place] == b','
}

// The segment at the state's place; `None` where its bytes spell no fields, or not one, four or five.
#[inline(always)]
pub fn read_straight(bytes: &[u8], cursor: &Cursor) -> Option<StraightSegment>
    requires room { cursor.now.place + most_segment_digits < length bytes.now }
    ensures some { IfSome result (IsReadAfter bytes.now cursor.now) }
    ensures none { IfNone result
        (has_known_length (known_fields bytes.now cursor.now.place) ≡ false) }
{
    let (first, place) = read_inner_field(bytes, cursor.place)?;
    let column = moved(cursor.column, first);
    let Some((source, source_end)) = read_running_value(bytes, place, cursor.source) else {
        if !is_at_inner_end(bytes, place) {
            return None;
        }
        let after = Cursor {
            place,
            column,
            ..*cursor
        };
        return Some(StraightSegment {
            kind: Kind::Unmapped,
            first,
            after,
        });
    };
    let (original_line, place) = read_running_value(bytes, source_end, cursor.original_line)?;
    let (original_column, place) = read_running_value(bytes, place, cursor.original_column)?;
    let after = Cursor {
        place,
        column,
        source,
        original_line,
        original_column,
        ..*cursor
    };
    if is_at_inner_end(bytes, place) {
        return Some(StraightSegment {
            kind: Kind::Mapped,
            first,
            after,
        });
    }
    let (name, place) = read_running_value(bytes, place, cursor.name)?;
    if !is_at_inner_end(bytes, place) {
        return None;
    }
    Some(StraightSegment {
        kind: Kind::Named,
        first,
        after: Cursor {
            place,
            name,
            ..after
        },
    })
}

// The value after the field that begins at a place, and the place after it.
#[inline(always)]
fn read_running_value(bytes: &[u8], place: usize, value: u32) -> Option<(u32, usize)>
    requires { place + 1 < length bytes.now }
    ensures some { IfSome result (λ read. IsMovedBy bytes.now place value read.0 read.1) }
    ensures few { IfSome result (λ read. read.1 ≤ place + most_digits) }
    ensures none { IfNone result (HasNoField bytes.now place) }
{
    let (difference, place) = read_inner_field(bytes, place)?;
    Some((moved(value, difference), place))
}

// The sum, which wraps where it is out of range.
#[inline(always)]
fn moved(value: u32, difference: i32) -> u32
    ensures { IsMoved value difference result }
{
    value.wrapping_add(difference.cast_unsigned())
}

impl StraightSegment {
    // Whether the segment has no fault, where the values before it are in range.
    #[inline(always)]
    pub fn is_sound(&self, sources: u32, names: u32) -> bool
        ensures fits { IsTrue result → is_fitting self.now ≡ true }
        ensures listed { IsTrue result →
            are_listed sources names self.now.kind self.now.after ≡ true }
    {
        // A segment without an origin leaves the source as it was.
        self.is_fitting() && self.after.source < sources && self.is_name_listed(names)
    }

    #[inline(always)]
    fn is_fitting(&self) -> bool
        ensures { result ≡ is_fitting self.now }
    {
        // Each test is cheap and seldom fails, so none is skipped.
        (self.first >= 0)
            & (self.after.column <= LIMIT)
            & (self.after.source <= LIMIT)
            & (self.after.original_line <= LIMIT)
            & (self.after.original_column <= LIMIT)
            & (self.after.name <= LIMIT)
    }

    #[inline(always)]
    fn is_name_listed(&self, names: u32) -> bool
        ensures { result ≡ is_name_listed names self.now.kind self.now.after }
    {
        match self.kind {
            Kind::Named => self.after.name < names,
            _ => true,
        }
    }
}
