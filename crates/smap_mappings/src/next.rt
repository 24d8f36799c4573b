//! The next segment of a checked text.
ghost use Rattle.std.specs.Prelude.{◌≡◌, ◌<◌, ◌≤◌, ℕ, length, slice_index, true, IfSome, IfNone, IsTrue};
ghost use Rattle.smap_mappings.specs.Counts.{segment_count};
ghost use Rattle.smap_mappings.specs.Segments.{is_semicolon};
ghost use Rattle.smap_mappings.specs.State.{mapping_at, IsAfter, IsBetween, IsNext, IsOnLaterLine};
ghost use Rattle.smap_mappings.specs.PackedText.{IsPacked};
ghost use Rattle.smap_mappings.specs.Private.Step.{IsSteppedTo};

use crate::cursor::Cursor;
use crate::kind::Kind;
use crate::step::{checked_step, skip_separators, straight_step};
use crate::straight::is_joined;

// What the next segment of a checked text has and the state after it, or `None` at the end.
#[inline(always)]
pub fn next_segment(bytes: &[u8], cursor: &Cursor) -> Option<(Kind, Cursor)>
    requires packed { IsPacked bytes.now }
    requires state { IsBetween bytes.now cursor.now }
    ensures ahead { IfSome result (λ r.
        (cursor.now.place < r.1.place) × (r.1.place ≤ length bytes.now)) }
    ensures some { IfSome result (λ r. (j : ℕ) →
        IsAfter bytes.now j cursor.now → IsNext bytes.now j (mapping_at r.0 r.1) r.1) }
    ensures none { IfNone result ((j : ℕ) →
        IsAfter bytes.now j cursor.now → j ≡ segment_count bytes.now) }
{
    if let Some(next) = next_joined(bytes, cursor) {
        return Some(next);
    }
    let at = skip_separators(bytes, cursor);
    if at.place >= bytes.len() {
        return None;
    }
    Some(checked_step(bytes, &at))
}

// The same on the state's line; `None` where no further segment stands on it.
#[inline(always)]
pub fn next_on_line(bytes: &[u8], cursor: &Cursor) -> Option<(Kind, Cursor)>
    requires packed { IsPacked bytes.now }
    requires state { IsBetween bytes.now cursor.now }
    ensures some { IfSome result (λ r. IsSteppedTo bytes.now cursor.now r.0 r.1) }
    ensures none { IfNone result ((j : ℕ) →
        IsAfter bytes.now j cursor.now → IsOnLaterLine bytes.now j cursor.now.line) }
{
    if let Some(next) = next_joined(bytes, cursor) {
        return Some(next);
    }
    if is_at_line_end(bytes, cursor.place) {
        return None;
    }
    further_on_line(bytes, *cursor)
}

// Whether a `;` stands at this place.
#[inline(always)]
fn is_at_line_end(bytes: &[u8], place: usize) -> bool
    ensures within { IsTrue result → place < length bytes.now }
    ensures is { IsTrue result → is_semicolon (slice_index bytes.now place) ≡ true }
{
    place < bytes.len() && bytes[place] == b';'
}

// The next segment, where one `,` alone joins it to the state and there is room after it. `None` says nothing.
#[inline(always)]
fn next_joined(bytes: &[u8], cursor: &Cursor) -> Option<(Kind, Cursor)>
    requires packed { IsPacked bytes.now }
    requires state { IsBetween bytes.now cursor.now }
    ensures { IfSome result (λ r. IsSteppedTo bytes.now cursor.now r.0 r.1) }
{
    if !is_joined(bytes, cursor.place) {
        return None;
    }
    let at = Cursor {
        place: cursor.place + 1,
        ..*cursor
    };
    straight_step(bytes, &at)
}

// The next segment on the line, whatever stands before it. It takes a copy of the state, so that a state that a loop keeps
// needs no place in memory.
#[inline(always)]
fn further_on_line(bytes: &[u8], cursor: Cursor) -> Option<(Kind, Cursor)>
    requires packed { IsPacked bytes.now }
    requires state { IsBetween bytes.now cursor }
    ensures some { IfSome result (λ r. IsSteppedTo bytes.now cursor r.0 r.1) }
    ensures none { IfNone result ((j : ℕ) →
        IsAfter bytes.now j cursor → IsOnLaterLine bytes.now j cursor.line) }
{
    let at = skip_separators(bytes, &cursor);
    if at.place >= bytes.len() || at.line != cursor.line {
        return None;
    }
    let (kind, after) = checked_step(bytes, &at);
    Some((kind, after))
}
