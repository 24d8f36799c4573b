//! The first mapping of a section for which the index of a map is not built.
ghost use Rattle.std.specs.Prelude.{◌≡◌, ◌+◌, ◌==◌, option_map, IfSome, Some, if◌then◌else◌};
ghost use Rattle.std.specs.List.{find};
ghost use Rattle.smap_mappings.specs.Range.{at_position, is_mapping_past_limit, is_number_past_limit, is_origin_past_limit};
ghost use Rattle.smap_index.specs.Faults.{is_after_offset};
ghost use Rattle.smap_index.specs.Parts.{placed, placed_mapping, placed_origin};
ghost use Rattle.smap_index.specs.Position.{IsFarBelow, offset_of, position_of_mapping};

use smap_index::Part;
use smap_mappings::{LIMIT, Mapping, Meter, Origin, Position};
use std::alloc::Global;

/// Where the first mapping of a part, at its place, stands that stands after the offset of the next part. The part is walked
/// through as far as that mapping, and none of its mappings is held.
pub fn first_after_offset(alloc: Global, part: &Part, next: &Part) -> Option<Position>
    ensures first { option_map at_position result
        ≡ option_map position_of_mapping (find (is_after_offset next.now) (placed part.now)) }
    ensures bound { IfSome result IsFarBelow }
{
    // The contract of `segments` says that they are few, so that the meter has room.
    let _segments = part.text.segments();
    let mut meter = Meter::new(alloc);
    let offset = offset_of(next);
    let mut state = part.text.start();
    while let Some((mapping, after)) = part.text.next(&state, &mut meter) {
        let position = placed_position(part, &mapping);
        if offset.is_before(&position) {
            return Some(position);
        }
        state = after;
    }
    None
}

/// Where the first mapping of a part, at its place, stands of which a number is past 2147483647. The part is walked through
/// as far as that mapping, and none of its mappings is held.
pub fn first_past_limit(alloc: Global, part: &Part) -> Option<Position>
    ensures first { option_map at_position result
        ≡ option_map position_of_mapping (find is_mapping_past_limit (placed part.now)) }
    ensures bound { IfSome result IsFarBelow }
{
    let _segments = part.text.segments();
    let mut meter = Meter::new(alloc);
    let mut state = part.text.start();
    while let Some((mapping, after)) = part.text.next(&state, &mut meter) {
        if is_past_limit(part, &mapping) {
            return Some(placed_position(part, &mapping));
        }
        state = after;
    }
    None
}

// Where a mapping of a part's text stands at its place.
fn placed_position(part: &Part, mapping: &Mapping) -> Position
    ensures placed { at_position result
        ≡ position_of_mapping (placed_mapping part.now mapping.now) }
    ensures bound { IsFarBelow result }
{
    Position {
        line: part.line as u64 + mapping.line as u64,
        column: added_column(part, mapping.line) as u64 + mapping.column as u64,
    }
}

// What is added to the columns of this line of a part's text: the offset's column moves the text's first line alone.
fn added_column(part: &Part, line: u32) -> u32
    ensures { result ≡ (if line == 0 then part.now.column else 0) }
{
    if line == 0 { part.column } else { 0 }
}

// Where a part begins.
fn offset_of(part: &Part) -> Position
    ensures { at_position result ≡ offset_of part.now }
{
    Position {
        line: part.line as u64,
        column: part.column as u64,
    }
}

// Whether a number of a mapping of a part's text is past the limit at its place.
fn is_past_limit(part: &Part, mapping: &Mapping) -> bool
    ensures { result ≡ is_mapping_past_limit (placed_mapping part.now mapping.now) }
{
    let position = placed_position(part, mapping);
    if position.line > LIMIT as u64 || position.column > LIMIT as u64 {
        return true;
    }
    match &mapping.origin {
        Some(origin) => is_origin_past_limit(part, origin),
        None => false,
    }
}

// The same of its origin.
fn is_origin_past_limit(part: &Part, origin: &Origin) -> bool
    ensures { result ≡ is_origin_past_limit (Some (placed_origin part.now origin.now)) }
{
    is_sum_past_limit(part.source_base, origin.source)
        || is_sum_past_limit(0, origin.line)
        || is_sum_past_limit(0, origin.column)
        || match origin.name {
            Some(name) => is_sum_past_limit(part.name_base, name),
            None => false,
        }
}

// Whether a number is past the limit when this is added to it.
fn is_sum_past_limit(base: u32, number: u32) -> bool
    ensures { result ≡ is_number_past_limit (base + number) }
{
    base as u64 + number as u64 > LIMIT as u64
}
