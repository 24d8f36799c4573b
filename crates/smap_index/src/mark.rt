//! The walk through the texts of all parts, which finds their faults and fills the table.

ghost use Rattle.std.specs.Prelude.{◌≡◌, ◌+◌, ◌<◌, ◌≤◌, List, [], ◌∷◌, ◌++◌, ◌||◌, ◌==◌, true, false, if◌then◌else◌, Some, None, IfSome, IsTrue, length};
ghost use Rattle.std.specs.List.{AllByRecursion, AllZip, last_or};
ghost use Rattle.std.specs.Option.{option_copied};
ghost use Rattle.smap_mappings.specs.Mappings.{mappings_of};
ghost use Rattle.smap_index.specs.Parts.{most_parts, placed_mapping, placed, whole_text};
ghost use Rattle.smap_index.specs.Faults.{is_interval, overlap_fault, range_fault, is_part_past_limit};
ghost use Rattle.smap_mappings.specs.Range.{is_mapping_past_limit};
ghost use Rattle.smap_index.specs.Marks.{marked_segments, IsCheckpointIn, AreCheckpointsOf};
ghost use Rattle.smap_mappings.specs.State.{IsMappingAt};
ghost use Rattle.smap_index.specs.Private.Walk.{checkpoint_at, IsFitting, number_after, IsTextInOrder, is_overlapping_next};
ghost use Rattle.smap_index.specs.declared.checkpoint.Checkpoint.{Checkpoint};

use crate::checkpoint::Checkpoint;
use crate::checkpoints::Checkpoints;
use crate::part::Part;
use crate::placed::{is_after_offset, is_offset_past_limit, is_past_limit};
use smap_mappings::laws::accepted_texts_have_no_fault;
use smap_mappings::{Cursor, Mapping, Meter, State};
use std::alloc::Global;

// What a walk through all parts found: the first part after whose offset a mapping of the part before it stands, the
// first part with a number past the limit, and whether there was room for all checkpoints. A walk that found the first
// went no further.
#[derive(Clone, Copy)]
pub struct MarkedParts {
    pub overlap: Option<u64>,
    pub past_limit: Option<u64>,
    pub has_room: bool,
}

// What a walk through one part found so far: the state after the last mapping, that mapping's number on its line,
// whether a number of the part is past the limit, and whether there was room for all checkpoints. The number counts
// from 0 anew at each checkpoint of the line; before the first mapping it is the one after which a checkpoint stands.
#[derive(Clone, Copy)]
struct MarkedPart {
    state: State,
    number: u32,
    is_past_limit: bool,
    has_room: bool,
}

// Walks through the texts of all parts, each once, and adds a checkpoint for each mark while there is room.
pub fn mark_parts(
    alloc: Global,
    parts: &[Part],
    interval: u32,
    has_room: bool,
    checkpoints: &mut Checkpoints,
) -> MarkedParts
    requires few { length parts.now ≤ most_parts }
    requires interval { is_interval interval ≡ true }
    ensures overlap { result.overlap ≡ overlap_fault parts.now }
    ensures past_limit { result.overlap ≡ None → result.past_limit ≡ range_fault parts.now }
    ensures marked { result.overlap ≡ None → result.past_limit ≡ None → IsTrue result.has_room →
        (added : List Checkpoint) × (checkpoints.new ≡ checkpoints.old ++ added) ×
        AreCheckpointsOf parts.now interval added }
    ensures ordered { result.overlap ≡ None → AllByRecursion IsTextInOrder parts.now }
{
    let mut past_limit = None;
    let mut has_room = has_room;
    for (i, part) in parts.iter().enumerate() {
        let walk = mark_part(alloc, i as u16, part, interval, has_room, checkpoints);
        if is_last_overlapping(part, &walk.state.cursor(), parts.get(i + 1)) {
            return MarkedParts {
                overlap: Some(i as u64 + 1),
                past_limit,
                has_room,
            };
        }
        past_limit = past_limit.or(walk.is_past_limit.then_some(i as u64));
        has_room = walk.has_room;
    }
    MarkedParts {
        overlap: None,
        past_limit,
        has_room,
    }
}

// Whether a mapping of the part, of the last of whose text these are the values, stands after the offset of the next
// part.
fn is_last_overlapping(part: &Part, last: &Cursor, next: Option<&Part>) -> bool
    requires ordered { IsTextInOrder part.now }
    requires last { IfSome (last_or None (mappings_of part.now.text)) (IsMappingAt last.now) }
    ensures { result ≡ is_overlapping_next part.now (option_copied next.entry) }
{
    match next {
        None => false,
        Some(next) => {
            if part.text.segments() == 0 {
                return false;
            }
            is_after_offset(part, last, next)
        }
    }
}

// Walks through the text of the part that has this number.
fn mark_part(
    alloc: Global,
    number: u16,
    part: &Part,
    interval: u32,
    has_room: bool,
    checkpoints: &mut Checkpoints,
) -> MarkedPart
    requires interval { is_interval interval ≡ true }
    ensures last { IfSome (last_or None (mappings_of part.now.text)) (IsMappingAt result.state) }
    ensures past_limit { result.is_past_limit ≡ is_part_past_limit part.now }
    ensures room { IsTrue result.has_room → IsTrue has_room }
    ensures marked { result.is_past_limit ≡ false → IsTrue result.has_room →
        (added : List Checkpoint) × (checkpoints.new ≡ checkpoints.old ++ added)
        × AllZip (IsCheckpointIn part.now number)
        (marked_segments interval [] (placed part.now)) added }
    ensures ordered { IsTextInOrder part.now }
{
    // The contract of `segments` says that they are few, so that the meter has room. A walk is no look-up, so it counts
    // on a meter of its own.
    let _segments = part.text.segments();
    let mut meter = Meter::new(alloc);
    // That the bases fit is known once they are read.
    let _source_base = part.source_base;
    let _name_base = part.name_base;
    // By this law no number of a text itself is past the limit.
    accepted_texts_have_no_fault();
    let start = part.text.start();
    let moves = is_moving(part);
    let mut walk = MarkedPart {
        state: start,
        number: interval - 1,
        is_past_limit: is_offset_past_limit(part),
        has_room,
    };
    while let Some((mapping, after)) = part.text.next(&walk.state, &mut meter) {
        walk = walk_after(part, interval, moves, &mapping, after, &walk);
        walk.has_room = mark(number, part, &mapping, &walk, checkpoints);
        let most = most_passed(interval, moves, walk.number);
        let line = part.text.walk_line(&walk.state, u64::MAX, most, &mut meter);
        walk.state = line.state;
        walk.number += line.passed;
    }
    walk
}

// Whether the part adds to a number of its text's mappings. Where it does not, none comes past the limit.
fn is_moving(part: &Part) -> bool
    ensures { result ≡ false → part.now ≡ whole_text part.now.text }
{
    part.line != 0 || part.column != 0 || part.source_base != 0 || part.name_base != 0
}

// The walk after one mapping more, with room as before.
fn walk_after(
    part: &Part,
    interval: u32,
    moves: bool,
    mapping: &Mapping,
    after: State,
    walk: &MarkedPart,
) -> MarkedPart
    requires interval { is_interval interval ≡ true }
    requires unmoved { moves ≡ false →
        is_mapping_past_limit (placed_mapping part.now mapping.now) ≡ false }
    ensures state { result.state ≡ after }
    ensures number { result.number
        ≡ number_after interval walk.now.state.line walk.now.number mapping.now.line }
    ensures past_limit { result.is_past_limit ≡ (walk.now.is_past_limit
        || is_mapping_past_limit (placed_mapping part.now mapping.now)) }
    ensures room { result.has_room ≡ walk.now.has_room }
{
    MarkedPart {
        state: after,
        number: number_after(
            interval,
            walk.state.cursor().line,
            walk.number,
            mapping.line,
        ),
        is_past_limit: walk.is_past_limit || (moves && is_past_limit(part, mapping)),
        has_room: walk.has_room,
    }
}

// The number on its line of a mapping on the next line, counted from 0 anew at each checkpoint of the line, where one
// with this number on this line stands before it.
pub fn number_after(interval: u32, line: u32, number: u32, next: u32) -> u32
    requires interval { is_interval interval ≡ true }
    ensures { result ≡ number_after interval line number next }
{
    if line == next && number < interval - 1 {
        number + 1
    } else {
        0
    }
}

// How many of the next segments on the line a walk may pass after one with this number: none of them has a checkpoint, and
// nothing is asked of them where the part does not move.
fn most_passed(interval: u32, moves: bool, number: u32) -> u32
    requires { number < interval }
    ensures few { number + result < interval }
    ensures moved { IsTrue moves → result ≡ 0 }
{
    if moves { 0 } else { interval - 1 - number }
}

// Adds a checkpoint for the mapping after which the walk stands, if it has the number 0, while nothing is past the
// limit and there is room. Gives whether there was.
fn mark(
    number: u16,
    part: &Part,
    mapping: &Mapping,
    walk: &MarkedPart,
    checkpoints: &mut Checkpoints,
) -> bool
    requires values { IsMappingAt walk.now.state mapping.now }
    requires in_range { walk.now.is_past_limit ≡ false →
        is_mapping_past_limit (placed_mapping part.now mapping.now) ≡ false }
    requires fitting { walk.now.is_past_limit ≡ false → IsFitting part.now walk.now.state }
    ensures room { IsTrue result → IsTrue walk.now.has_room }
    ensures marked { walk.now.is_past_limit ≡ false → IsTrue result →
        checkpoints.new ≡ (if walk.now.number == 0
        then checkpoints.old ++ checkpoint_at number part.now mapping.now walk.now.state ∷ []
        else checkpoints.old) }
{
    if walk.number != 0 || walk.is_past_limit {
        return walk.has_room;
    }
    let checkpoint = Checkpoint::new(number, part, mapping, &walk.state);
    walk.has_room && checkpoints.push(checkpoint).is_ok()
}
