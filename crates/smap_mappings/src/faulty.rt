//! The first faulty segment of a text, with the running values before and after it.
ghost use Rattle.std.specs.Prelude.{◌≡◌, ◌<◌, ◌≤◌, ℕ, None, IfSome, length, slice_index, true};
ghost use Rattle.std.specs.Option.{MatchOption, option_map};
ghost use Rattle.smap_mappings.specs.Limits.{most_text_bytes};
ghost use Rattle.smap_mappings.specs.Faults.{first_fault, first_faulty};
ghost use Rattle.smap_mappings.specs.State.{IsAfter, values_in};
ghost use Rattle.smap_mappings.specs.Faulty.{IsFirstFaulty, known_values_past};
ghost use Rattle.smap_mappings.specs.Private.Reading.{is_inside};
ghost use Rattle.smap_mappings.specs.Private.Step.{faulty_at};

use crate::advance::sums_after;
use crate::check::count_segments;
use crate::cursor::Cursor;
use crate::fault::{Fault, FaultKind};
use crate::segment::read_segment;
use crate::step::segment_end;
use crate::sums::RunningSums;

/// The first faulty segment of a text, with the running values before and after it (ECMA-426, Mappings structure).
#[derive(Clone, Copy)]
pub struct FaultySegment {
    pub fault: Fault,
    /// The place after its last byte, in bytes from 0.
    pub end: u64,
    /// The place at which it begins, its line, and the running values before it.
    pub before: Cursor,
    /// The running values after it, where its numbers are spelled right and it has one, four or five.
    pub after: Option<RunningSums>,
}

/// The first faulty segment of a text for this many sources and names, and `None` where no segment is faulty. The caller
/// gives a text of at most 67,108,864 bytes. The call takes no memory.
pub fn faulty_segment(bytes: &[u8], sources: u32, names: u32) -> Option<FaultySegment>
    requires { length bytes.now ≤ most_text_bytes }
    ensures first { MatchOption result
        (first_faulty bytes.now sources names ≡ None)
        (IsFirstFaulty bytes.now sources names) }
    ensures fault { first_fault bytes.now sources names ≡ option_map (λ found. found.fault) result }
    ensures extent { IfSome result (λ found.
        (found.fault.byte ≤ found.end) × (found.end ≤ length bytes.now)) }
{
    match count_segments(bytes, sources, names) {
        Ok(_) => None,
        Err(found) => Some(FaultySegment {
            fault: found.fault(),
            end: segment_end(bytes, found.at.place) as u64,
            before: found.at,
            after: values_past(bytes, &found.at),
        }),
    }
}

// The running values after the segment at the state's place, where its numbers are spelled right and it has one, four
// or five.
fn values_past(bytes: &[u8], cursor: &Cursor) -> Option<RunningSums>
    requires within { cursor.now.place < length bytes.now }
    requires inside { is_inside (slice_index bytes.now cursor.now.place) ≡ true }
    ensures { (j : ℕ) (kind : FaultKind) → IsAfter bytes.now j cursor.now →
        option_map values_in result ≡ known_values_past (faulty_at bytes.now j cursor.now kind) }
{
    match read_segment(bytes, cursor.place) {
        Some((segment, _)) => Some(sums_after(cursor, &segment)),
        None => None,
    }
}
