//! The pass over a whole text that finds its first fault, or counts it.
ghost use Rattle.std.specs.Prelude.{◌≡◌, ◌≤◌, ◌==◌, ◌||◌, not, None, Some, length, IfOk, MatchResult};
ghost use Rattle.smap_mappings.specs.Limits.{most_text_bytes};
ghost use Rattle.smap_mappings.specs.Faults.{first_fault, first_faulty};
ghost use Rattle.smap_mappings.specs.Private.Found.{IsFoundIn, fault_at};
ghost use Rattle.smap_mappings.specs.Private.Walk.{WalksUpTo};
ghost use Rattle.smap_mappings.specs.Counts.{segment_count, used_lines_of};

use crate::cursor::Cursor;
use crate::fault::{Fault, FaultKind};
use crate::step::{skip_separators, step};
use crate::walk::{Walk, walk_whole};

// How many segments a text has, and how many of its lines hold one.
#[derive(Clone, Copy)]
pub struct TextCounts {
    pub segments: u64,
    pub used_lines: u64,
}

// Where a text is refused: the state before its first faulty segment, and the least kind of fault that holds of that.
#[derive(Clone, Copy)]
pub struct FoundFault {
    pub at: Cursor,
    pub kind: FaultKind,
}

impl FoundFault {
    pub fn fault(&self) -> Fault
        ensures { result ≡ fault_at self.now }
    {
        Fault {
            byte: self.at.place as u64,
            line: self.at.line,
            kind: self.kind,
        }
    }
}

// The counts of a text through which a walk has come so far, or its first faulty segment for this many sources and names.
pub fn check_after(bytes: &[u8], sources: u32, names: u32, walk: &Walk) -> Result<TextCounts, Fault>
    requires short { length bytes.now ≤ most_text_bytes }
    requires walked { WalksUpTo bytes.now sources names walk.now }
    ensures fault { MatchResult result
        (λ _. first_fault bytes.now sources names ≡ None)
        (λ fault. first_fault bytes.now sources names ≡ Some fault) }
    ensures segments { IfOk result (λ counts. counts.segments ≡ segment_count bytes.now) }
    ensures used_lines { IfOk result (λ counts. counts.used_lines ≡ used_lines_of bytes.now) }
{
    match count_after(bytes, sources, names, walk) {
        Ok(counts) => Ok(counts),
        Err(found) => Err(found.fault()),
    }
}

// The counts of a text, or the state before its first faulty segment for this many sources and names.
pub fn count_segments(bytes: &[u8], sources: u32, names: u32) -> Result<TextCounts, FoundFault>
    requires { length bytes.now ≤ most_text_bytes }
    ensures faulty { MatchResult result
        (λ _. first_faulty bytes.now sources names ≡ None)
        (IsFoundIn bytes.now sources names) }
    ensures segments { IfOk result (λ counts. counts.segments ≡ segment_count bytes.now) }
    ensures used_lines { IfOk result (λ counts. counts.used_lines ≡ used_lines_of bytes.now) }
{
    count_after(bytes, sources, names, &walk_whole(bytes, sources, names))
}

// The same of a text through which a walk has come so far.
fn count_after(
    bytes: &[u8],
    sources: u32,
    names: u32,
    walk: &Walk,
) -> Result<TextCounts, FoundFault>
    requires short { length bytes.now ≤ most_text_bytes }
    requires walked { WalksUpTo bytes.now sources names walk.now }
    ensures faulty { MatchResult result
        (λ _. first_faulty bytes.now sources names ≡ None)
        (IsFoundIn bytes.now sources names) }
    ensures segments { IfOk result (λ counts. counts.segments ≡ segment_count bytes.now) }
    ensures used_lines { IfOk result (λ counts. counts.used_lines ≡ used_lines_of bytes.now) }
{
    let mut at = walk.at;
    let mut segments = walk.segments;
    let mut used_lines = walk.used_lines;
    loop {
        let next = skip_separators(bytes, &at);
        if next.place >= bytes.len() {
            return Ok(TextCounts {
                segments,
                used_lines,
            });
        }
        match step(bytes, &next, sources, names) {
            Ok((_, after)) => {
                used_lines += u64::from(is_new_line(segments, at.line, next.line));
                segments += 1;
                at = after;
            }
            Err(kind) => {
                return Err(FoundFault { at: next, kind });
            }
        }
    }
}

// Whether the next segment is the first of its line, after this many segments of which the last stands on `last`.
#[inline(always)]
pub fn is_new_line(segments: u64, last: u32, line: u32) -> bool
    ensures { result ≡ (segments == 0 || not (line == last)) }
{
    segments == 0 || line != last
}
