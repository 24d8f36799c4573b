//! Why the index of a map's sections is not built.
ghost use Rattle.std.specs.Prelude.{◌≡◌, ◌+◌, option_map, slice_get, IfSome};
ghost use Rattle.smap_mappings.specs.Range.{at_position};
ghost use Rattle.smap_index.specs.Position.{IsFarBelow};
ghost use Rattle.smap_explain.specs.Build.{build_facts, order_facts, overlap_facts, range_facts, adjacent_at, offset_place, place_of};

use crate::explanation::{BuildFacts, PrintedPlace};
use crate::first_mapping::{first_after_offset, first_past_limit};
use smap_index::{BuildRefusal, Part};
use smap_mappings::Position;
use std::alloc::Global;

/// What is known of an index that is not built of these parts; nothing where the refusal is of none of them. The call takes
/// no memory: it walks through the section that the refusal names.
pub fn build_facts(alloc: Global, parts: &[Part], refusal: BuildRefusal) -> Option<BuildFacts>
    ensures { result ≡ build_facts parts.now refusal }
{
    match refusal {
        BuildRefusal::SectionOrder(section) => order_facts(parts, section),
        BuildRefusal::SectionOverlap(section) => overlap_facts(alloc, parts, section),
        BuildRefusal::PositionRange(section) => range_facts(alloc, parts, section),
        BuildRefusal::Interval => None,
        BuildRefusal::Memory => None,
    }
}

// The part with this number, and the one before it.
fn adjacent_at(parts: &[Part], section: u64) -> Option<(&Part, &Part)>
    ensures { option_map (λ pair. (pair.0.now, pair.1.now)) result ≡ adjacent_at parts.now section }
{
    let part = parts.get(section as usize)?;
    let before = parts.get(section.checked_sub(1)? as usize)?;
    Some((before, part))
}

fn order_facts(parts: &[Part], section: u64) -> Option<BuildFacts>
    ensures { result ≡ option_map (order_facts section) (adjacent_at parts.now section) }
{
    let (before, part) = adjacent_at(parts, section)?;
    Some(BuildFacts {
        section,
        offset: offset_place(part),
        offset_before: Some(offset_place(before)),
        mapping: None,
    })
}

fn overlap_facts(alloc: Global, parts: &[Part], section: u64) -> Option<BuildFacts>
    ensures { result ≡ option_map (overlap_facts section) (adjacent_at parts.now section) }
{
    let (before, part) = adjacent_at(parts, section)?;
    Some(BuildFacts {
        section,
        offset: offset_place(part),
        offset_before: None,
        mapping: place_where(first_after_offset(alloc, before, part)),
    })
}

fn range_facts(alloc: Global, parts: &[Part], section: u64) -> Option<BuildFacts>
    ensures { result ≡ option_map (range_facts section) (slice_get parts.now section) }
{
    let part = parts.get(section as usize)?;
    Some(BuildFacts {
        section,
        offset: offset_place(part),
        offset_before: None,
        mapping: place_where(first_past_limit(alloc, part)),
    })
}

// Where a part begins.
fn offset_place(part: &Part) -> PrintedPlace
    ensures { result ≡ offset_place part.now }
{
    PrintedPlace {
        line: part.line as u64 + 1,
        column: part.column as u64 + 1,
    }
}

// The place of a position, where there is one.
fn place_where(position: Option<Position>) -> Option<PrintedPlace>
    requires { IfSome position IsFarBelow }
    ensures { result ≡ option_map place_of (option_map at_position position) }
{
    let position = position?;
    Some(PrintedPlace {
        line: position.line + 1,
        column: position.column + 1,
    })
}
