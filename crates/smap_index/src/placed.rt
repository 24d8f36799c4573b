//! The mappings of a part at their places in the whole map.

ghost use Rattle.std.specs.Prelude.{◌≡◌, ◌+◌, ◌||◌, ◌==◌, Some, None, false, option_map, if◌then◌else◌};
ghost use Rattle.smap_index.specs.Parts.{placed_origin, placed_mapping};
ghost use Rattle.smap_index.specs.Faults.{is_after_offset};
ghost use Rattle.smap_index.specs.Private.Walk.{IsPlacedInRange, position_of};
ghost use Rattle.smap_mappings.specs.Range.{at_position, position_at, is_number_past_limit, is_name_past_limit, is_origin_past_limit, is_mapping_past_limit};

use crate::part::Part;
use smap_mappings::{Cursor, LIMIT, Mapping, Origin, Position};

// The sum, if it is not past the limit.
fn sum_in_range(base: u32, n: u32) -> Option<u32>
    ensures { result ≡ (if is_number_past_limit (base + n) then None else Some (base + n)) }
{
    let sum = base as u64 + n as u64;
    if sum <= LIMIT as u64 {
        Some(sum as u32)
    } else {
        None
    }
}

// The origin with the indices of the whole map, if no number of it is past the limit.
fn placed_origin(part: &Part, origin: &Origin) -> Option<Origin>
    ensures { let placed = placed_origin part.now origin.now in
        result ≡ (if is_origin_past_limit (Some placed) then None else Some placed) }
{
    let source = sum_in_range(part.source_base, origin.source)?;
    let line = sum_in_range(0, origin.line)?;
    let column = sum_in_range(0, origin.column)?;
    let name = match origin.name {
        Some(name) => Some(sum_in_range(part.name_base, name)?),
        None => None,
    };
    Some(Origin {
        source,
        line,
        column,
        name,
    })
}

// What is added to the columns of this line of a part's text: the offset's column moves the text's first line alone.
#[inline(always)]
pub fn added_column(part: &Part, line: u32) -> u32
    ensures { result ≡ (if line == 0 then part.now.column else 0) }
{
    if line == 0 { part.column } else { 0 }
}

// The mapping of a part's text at its place, if no number of it is past the limit there.
pub fn placed_mapping(part: &Part, mapping: &Mapping) -> Option<Mapping>
    ensures { let placed = placed_mapping part.now mapping.now in
        result ≡ (if is_mapping_past_limit placed then None else Some placed) }
{
    let line = sum_in_range(part.line, mapping.line)?;
    let column = sum_in_range(added_column(part, mapping.line), mapping.column)?;
    let origin = match &mapping.origin {
        Some(origin) => Some(placed_origin(part, origin)?),
        None => None,
    };
    Some(Mapping {
        line,
        column,
        origin,
    })
}

// The same of a mapping no number of which is past the limit at its place.
#[inline(always)]
pub fn placed_within(part: &Part, mapping: &Mapping) -> Mapping
    requires { IsPlacedInRange part.now mapping.now }
    ensures { result ≡ placed_mapping part.now mapping.now }
{
    Mapping {
        line: part.line + mapping.line,
        column: added_column(part, mapping.line) + mapping.column,
        origin: match &mapping.origin {
            Some(origin) => Some(origin_within(part, origin)),
            None => None,
        },
    }
}

#[inline(always)]
fn origin_within(part: &Part, origin: &Origin) -> Origin
    requires { is_origin_past_limit (Some (placed_origin part.now origin.now)) ≡ false }
    ensures { result ≡ placed_origin part.now origin.now }
{
    Origin {
        source: part.source_base + origin.source,
        line: origin.line,
        column: origin.column,
        name: match origin.name {
            Some(name) => Some(part.name_base + name),
            None => None,
        },
    }
}

// The position at its place of what stands at this one in a part's text.
#[inline(always)]
pub fn placed_position(part: &Part, line: u32, column: u32) -> Position
    ensures { at_position result ≡ placed_mapping part.now (position_at line column) }
{
    Position {
        line: part.line as u64 + line as u64,
        column: added_column(part, line) as u64 + column as u64,
    }
}

pub fn offset_of(part: &Part) -> Position
    ensures { result ≡ record { line = part.now.line; column = part.now.column } }
{
    Position {
        line: part.line as u64,
        column: part.column as u64,
    }
}

// Whether a number of the part's offset is past the limit.
pub fn is_offset_past_limit(part: &Part) -> bool
    ensures { result
        ≡ (is_number_past_limit part.now.line || is_number_past_limit part.now.column) }
{
    part.line > LIMIT || part.column > LIMIT
}

// Whether a number of the mapping of a part's text is past the limit at its place.
pub fn is_past_limit(part: &Part, mapping: &Mapping) -> bool
    ensures { result ≡ is_mapping_past_limit (placed_mapping part.now mapping.now) }
{
    placed_mapping(part, mapping).is_none()
}

// Whether a mapping of a part's text, of which these are the values, stands at its place after the offset of the next
// part.
pub fn is_after_offset(part: &Part, values: &Cursor, next: &Part) -> bool
    ensures { result
        ≡ is_after_offset next.now (placed_mapping part.now (position_of values.now)) }
{
    offset_of(next).is_before(&placed_position(part, values.line, values.column))
}
