//! The walk through a text that is checked, over segments that have no fault.
ghost use Rattle.std.specs.Prelude.{◌≡◌, ◌+◌, ◌<◌, ◌≤◌, ℕ, length, slice_index, is_some, IfSome, IfNone, None, false, true};
ghost use Rattle.smap_mappings.specs.Limits.{most_text_bytes};
ghost use Rattle.smap_mappings.specs.Accepted.{are_in_range};
ghost use Rattle.smap_mappings.specs.TextCheck.{AreOnLine};
ghost use Rattle.smap_mappings.specs.Counts.{segment_count};
ghost use Rattle.smap_mappings.specs.Faults.{first_faulty};
ghost use Rattle.smap_mappings.specs.State.{values_at, IsAfter};
ghost use Rattle.smap_mappings.specs.Private.Reading.{is_inside};
ghost use Rattle.smap_mappings.specs.Private.Step.{faulty_from};
ghost use Rattle.smap_mappings.specs.Private.Walk.{IsCleanStep, IsWalkedOn, WalksUpTo};
ghost use Rattle.smap_mappings.specs.Private.Straight.{most_segment_digits};

use crate::check::is_new_line;
use crate::cursor::Cursor;
use crate::kind::Kind;
use crate::step::{skip_separators, step};
use crate::straight::{has_room_for_segment, is_joined, read_straight};

// How far a check has come: the state, how many segments stand before it, and how many lines hold one of these.
#[derive(Clone, Copy)]
pub struct Walk {
    pub at: Cursor,
    pub segments: u64,
    pub used_lines: u64,
}

impl Walk {
    // No segment so far.
    pub const START: Walk = Walk {
        at: Cursor::START,
        segments: 0,
        used_lines: 0,
    };
}

// The walk over all segments up to the first that has a fault.
#[inline(never)]
pub fn walk_whole(bytes: &[u8], sources: u32, names: u32) -> Walk
    requires { length bytes.now ≤ most_text_bytes }
    ensures { WalksUpTo bytes.now sources names result }
{
    let mut walk = Walk::START;
    while let Some((_, first)) = walk_next(bytes, &walk, sources, names) {
        walk = walk_line(bytes, &first, sources, names, None);
    }
    walk
}

// What the next segment has and the walk over it, or `None` at the text's end and before a segment that has a fault.
#[inline(always)]
pub fn walk_next(bytes: &[u8], walk: &Walk, sources: u32, names: u32) -> Option<(Kind, Walk)>
    requires short { length bytes.now ≤ most_text_bytes }
    requires walked { WalksUpTo bytes.now sources names walk.now }
    ensures some { IfSome result (λ r. IsWalkedOn bytes.now sources names walk.now r.0 r.1) }
    ensures none { IfNone result (first_faulty bytes.now sources names ≡ None →
        walk.now.segments ≡ segment_count bytes.now) }
{
    let next = skip_separators(bytes, &walk.at);
    if next.place >= bytes.len() {
        return None;
    }
    let (kind, at) = step_clean(bytes, &next, sources, names)?;
    let is_new = is_new_line(walk.segments, walk.at.line, next.line);
    Some((
        kind,
        Walk {
            at,
            segments: walk.segments + 1,
            used_lines: walk.used_lines + u64::from(is_new),
        },
    ))
}

// The walk over further segments of a line, at most this many where there is a bound, up to one that is not joined to the
// one before by one `,` alone, or for which the straight way does not do. A caller without a bound pays for none, as the
// call is inlined.
#[inline(always)]
pub fn walk_line(bytes: &[u8], walk: &Walk, sources: u32, names: u32, most: Option<u32>) -> Walk
    requires short { length bytes.now ≤ most_text_bytes }
    requires walked { WalksUpTo bytes.now sources names walk.now }
    requires some { 0 < walk.now.segments }
    ensures walked { WalksUpTo bytes.now sources names result }
    ensures onward { walk.now.at.place ≤ result.at.place }
    ensures further { walk.now.segments ≤ result.segments }
    ensures few { IfSome most (λ most. result.segments ≤ walk.now.segments + most) }
    ensures line { result.at.line ≡ walk.now.at.line }
    ensures on_line { AreOnLine bytes.now walk.now.at.line walk.now.segments result.segments }
{
    let start = walk.segments;
    let mut walk = *walk;
    while is_joined(bytes, walk.at.place) {
        if is_at_end(walk.segments - start, most) {
            return walk;
        }
        let next = Cursor {
            place: walk.at.place + 1,
            ..walk.at
        };
        let Some((_, at)) = step_straight(bytes, &next, sources, names) else {
            return walk;
        };
        walk = Walk {
            at,
            segments: walk.segments + 1,
            ..walk
        };
    }
    walk
}

// Whether a walk has passed as many segments as it may, where there is a bound.
#[inline(always)]
fn is_at_end(passed: u64, most: Option<u32>) -> bool
    ensures { result ≡ false → IfSome most (λ most. passed < most) }
{
    match most {
        Some(most) => passed >= u64::from(most),
        None => false,
    }
}

// What the segment at the state's place has and the state after it, if it has no fault.
#[inline(always)]
fn step_clean(bytes: &[u8], cursor: &Cursor, sources: u32, names: u32) -> Option<(Kind, Cursor)>
    requires short { length bytes.now ≤ most_text_bytes }
    requires within { cursor.now.place < length bytes.now }
    requires inside { is_inside (slice_index bytes.now cursor.now.place) ≡ true }
    requires in_range { are_in_range (values_at cursor.now) ≡ true }
    ensures some { IfSome result (λ r. IsCleanStep bytes.now sources names cursor.now r.0 r.1) }
    ensures none { IfNone result ((j : ℕ) → IsAfter bytes.now j cursor.now →
        is_some (faulty_from bytes.now sources names j) ≡ true) }
{
    if has_room_for_segment(bytes, cursor.place)
        && let Some(stepped) = step_straight(bytes, cursor, sources, names)
    {
        return Some(stepped);
    }
    step_slowly(bytes, cursor, sources, names)
}

// The same for a segment that stands near the text's end, or may have a fault: so for few.
#[cold]
#[inline(never)]
fn step_slowly(bytes: &[u8], cursor: &Cursor, sources: u32, names: u32) -> Option<(Kind, Cursor)>
    requires within { cursor.now.place < length bytes.now }
    requires inside { is_inside (slice_index bytes.now cursor.now.place) ≡ true }
    ensures some { IfSome result (λ r. IsCleanStep bytes.now sources names cursor.now r.0 r.1) }
    ensures none { IfNone result ((j : ℕ) → IsAfter bytes.now j cursor.now →
        is_some (faulty_from bytes.now sources names j) ≡ true) }
{
    match step(bytes, cursor, sources, names) {
        Ok(stepped) => Some(stepped),
        Err(_) => None,
    }
}

// The same by the straight way. `None` says nothing.
#[inline(always)]
fn step_straight(bytes: &[u8], cursor: &Cursor, sources: u32, names: u32) -> Option<(Kind, Cursor)>
    requires room { cursor.now.place + most_segment_digits < length bytes.now }
    requires in_range { are_in_range (values_at cursor.now) ≡ true }
    ensures { IfSome result (λ r. IsCleanStep bytes.now sources names cursor.now r.0 r.1) }
{
    let straight = read_straight(bytes, cursor)?;
    if straight.is_sound(sources, names) {
        Some((straight.kind, straight.after))
    } else {
        None
    }
}
