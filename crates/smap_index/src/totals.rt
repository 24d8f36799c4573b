//! What the texts of all parts hold together.

ghost use Rattle.std.specs.Prelude.{◌≡◌, ◌+◌, ◌*◌, ◌/◌, ◌≤◌, min, true, length};
ghost use Rattle.smap_index.specs.Parts.{joined, most_parts, bytes_in};
ghost use Rattle.smap_index.specs.Faults.{is_interval};
ghost use Rattle.smap_index.specs.Marks.{used_lines_in};

use crate::part::Part;

// How many segments the parts have, and how many of their lines hold one.
#[derive(Clone, Copy)]
pub struct Totals {
    pub segments: u64,
    pub used_lines: u64,
}

// The totals of these parts. The segments are few beside the bytes of the texts, so no sum wraps.
pub fn totals_of(parts: &[Part]) -> Totals
    requires few { length parts.now ≤ most_parts }
    ensures segments { result.segments ≡ length (joined parts.now) }
    ensures used_lines { result.used_lines ≡ used_lines_in parts.now }
    ensures few { 2 * result.segments ≤ bytes_in parts.now + length parts.now }
{
    let mut totals = Totals {
        segments: 0,
        used_lines: 0,
    };
    for part in parts {
        // The contract of `start` says how long a text is at most.
        let _start = part.text.start();
        totals.segments += part.text.segments();
        totals.used_lines += part.text.used_lines();
    }
    totals
}

// For how many checkpoints to make room: no more than there are segments, and no more than one a line and one for each
// `interval` segments.
pub fn most_checkpoints(totals: &Totals, interval: u32) -> usize
    requires interval { is_interval interval ≡ true }
    ensures { let segments = totals.now.segments in
        result ≡ min (segments / interval + totals.now.used_lines) segments }
{
    let most = (totals.segments / interval as u64).saturating_add(totals.used_lines);
    most.min(totals.segments) as usize
}
