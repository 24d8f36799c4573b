//! From a state to the next: over separators, and over one segment.
ghost use Rattle.std.specs.Prelude.{◌≡◌, ◌+◌, ◌<◌, ◌≤◌, ℕ, Some, false, true, length, slice_index, IfOk, IfErr, IfSome};
ghost use Rattle.smap_mappings.specs.Limits.{most_text_bytes};
ghost use Rattle.smap_mappings.specs.Segment.{has_known_length};
ghost use Rattle.smap_mappings.specs.Accepted.{are_in_range};
ghost use Rattle.smap_mappings.specs.Faults.{spelling_fault};
ghost use Rattle.smap_mappings.specs.State.{mapping_at, values_at, IsAfter, IsBetween};
ghost use Rattle.smap_mappings.specs.PackedText.{IsPacked};
ghost use Rattle.smap_mappings.specs.Private.Reading.{is_inside, segment_at, known_fields};
ghost use Rattle.smap_mappings.specs.Private.Step.{IsStep, IsSteppedTo, faulty_at, faulty_from};
ghost use Rattle.smap_mappings.specs.Private.Straight.{kind_with, most_segment_digits};

use crate::advance::{advance, advance_checked};
use crate::cursor::Cursor;
use crate::fault::FaultKind;
use crate::kind::Kind;
use crate::segment::{Segment, is_inside, read_segment};
use crate::spelling::spelling_fault;
use crate::straight::{has_room_for_segment, read_straight};

// The state at the next segment, or at the end of the text where there is none.
#[inline(always)]
pub fn skip_separators(bytes: &[u8], cursor: &Cursor) -> Cursor
    requires inside { cursor.now.place ≤ length bytes.now }
    requires line_within { cursor.now.line ≤ cursor.now.place }
    requires short { length bytes.now ≤ most_text_bytes }
    ensures inside { result.place ≤ length bytes.now }
    ensures line_within { result.line ≤ result.place }
    ensures onward { cursor.now.place ≤ result.place }
    ensures down { cursor.now.line ≤ result.line }
    ensures in_range { are_in_range (values_at cursor.now) ≡ true →
        are_in_range (values_at result) ≡ true }
    ensures stops { result.place < length bytes.now →
        is_inside (slice_index bytes.now result.place) ≡ true }
    ensures after { (j : ℕ) → IsAfter bytes.now j cursor.now → IsAfter bytes.now j result }
{
    let mut at = *cursor;
    while at.place < bytes.len() {
        at = match bytes[at.place] {
            b';' => Cursor {
                place: at.place + 1,
                line: at.line + 1,
                column: 0,
                ..at
            },
            b',' => Cursor {
                place: at.place + 1,
                ..at
            },
            _ => return at,
        };
    }
    at
}

// Reads the segment at the state's place: what it has and the state after it, or the least kind of fault that holds
// of it.
#[inline(always)]
pub fn step(
    bytes: &[u8],
    cursor: &Cursor,
    sources: u32,
    names: u32,
) -> Result<(Kind, Cursor), FaultKind>
    requires within { cursor.now.place < length bytes.now }
    requires inside { is_inside (slice_index bytes.now cursor.now.place) ≡ true }
    ensures ahead { IfOk result (λ r. (cursor.now.place < r.1.place)
        × (r.1.place ≤ length bytes.now) × (r.1.line ≡ cursor.now.line)) }
    ensures ok { IfOk result (λ r. (j : ℕ) → IsAfter bytes.now j cursor.now
        → IsStep bytes.now j sources names (mapping_at r.0 r.1) r.1) }
    ensures in_range { IfOk result (λ r. are_in_range (values_at r.1) ≡ true) }
    ensures err { IfErr result (λ kind. (j : ℕ) → IsAfter bytes.now j cursor.now
        → faulty_from bytes.now sources names j ≡ Some (faulty_at bytes.now j cursor.now kind)) }
{
    let Some((segment, end)) = read_segment(bytes, cursor.place) else {
        return Err(unread_fault(bytes, cursor.place));
    };
    match advance(cursor, &segment, end, sources, names) {
        Ok(after) => Ok((kind_of(&segment), after)),
        Err(kind) => Err(kind),
    }
}

// Reads the segment at the state's place in a checked text, where nothing needs to be asked: what it has and the state
// after it. It stands out of line, so that the straight way over most segments is inlined where a text is gone through.
#[inline(never)]
pub fn checked_step(bytes: &[u8], cursor: &Cursor) -> (Kind, Cursor)
    requires packed { IsPacked bytes.now }
    requires state { IsBetween bytes.now cursor.now }
    requires within { cursor.now.place < length bytes.now }
    requires inside { is_inside (slice_index bytes.now cursor.now.place) ≡ true }
    ensures { IsSteppedTo bytes.now cursor.now result.0 result.1 }
{
    if has_room_for_segment(bytes, cursor.place)
        && let Some(stepped) = straight_step(bytes, cursor)
    {
        return stepped;
    }
    let Some((segment, end)) = read_segment(bytes, cursor.place) else {
        unreachable!("each segment of a checked text can be read");
    };
    (kind_of(&segment), advance_checked(cursor, &segment, end))
}

// The same where there is room for the longest segment; `None` where no segment stands at the state's place.
#[inline(always)]
pub fn straight_step(bytes: &[u8], cursor: &Cursor) -> Option<(Kind, Cursor)>
    requires packed { IsPacked bytes.now }
    requires state { IsBetween bytes.now cursor.now }
    requires room { cursor.now.place + most_segment_digits < length bytes.now }
    ensures { IfSome result (λ r. IsSteppedTo bytes.now cursor.now r.0 r.1) }
{
    let straight = read_straight(bytes, cursor)?;
    Some((straight.kind, straight.after))
}

// What a segment has.
#[inline(always)]
fn kind_of(segment: &Segment) -> Kind
    ensures { result ≡ kind_with segment.now.origin }
{
    match &segment.origin {
        None => Kind::Unmapped,
        Some(origin) => match origin.name {
            None => Kind::Mapped,
            Some(_) => Kind::Named,
        },
    }
}

// Why no segment could be read at a place.
#[cold]
fn unread_fault(bytes: &[u8], place: usize) -> FaultKind
    requires inside { place ≤ length bytes.now }
    requires unread { has_known_length (known_fields bytes.now place) ≡ false }
    ensures { spelling_fault (segment_at bytes.now place) ≡ Some result }
{
    let end = segment_end(bytes, place);
    match spelling_fault(&bytes[place..end]) {
        Some(kind) => kind,
        None => unreachable!("a segment that is spelled right can be read"),
    }
}

// The place after the segment that begins at a place.
pub fn segment_end(bytes: &[u8], place: usize) -> usize
    requires { place ≤ length bytes.now }
    ensures within { result ≤ length bytes.now }
    ensures end { result ≡ place + length (segment_at bytes.now place) }
{
    let mut end = place;
    while end < bytes.len() && is_inside(bytes[end]) {
        end += 1;
    }
    end
}
